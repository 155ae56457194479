//! The frames of replies, shown from the first byte to the last.

use crate::body::{body_len, head_at};
use crate::frame_part::frame_part;
use crate::head::Lead;
use crate::reply::{Content, Reply};
use crate::row_mark::{first_mark, move_mark};
use ig_fields::message_len;
use ig_frame::MAX_FRAME;
use ig_ops::PageMark;
use ig_wire::{Reason, Version};
use std::marker::Model;

/// The number of bytes of a frame's length.
const LENGTH_BYTES: usize = 4;

/// The frame of a reply, which owns what it shows, and how many bytes of it are gone.
#[derive(Drop)]
pub struct ReplyFrame {
    version: Version,
    reply: Reply,
    body_len: usize,
    lead_len: usize,
    mark: PageMark,
    gone: usize,
}

impl Model for ReplyFrame {
    ghost use Rattle.std.specs.Prelude.{length, ◌≤◌};
    ghost use Rattle.ig_deals.specs.Replies.{reply_frame};
    ghost use Rattle.ig_replies.specs.Contents.{reply_said};
    ghost use Rattle.ig_replies.specs.Showing.{Showing};
    ghost use Rattle.ig_replies.specs.FrameParts.{IsLaidOut};
    ghost use Rattle.ig_replies.specs.RowMarks.{IsRowMark};

    ghost Value = { Showing };

    ghost view = { λ f. record { frame = reply_frame f.version (reply_said f.reply); gone = f.gone } };

    ghost invariant = { λ f. IsLaidOut f.version f.reply f.body_len f.lead_len
        × IsRowMark f.reply.content f.mark
        × (f.gone ≤ length (reply_frame f.version (reply_said f.reply))) };
}

impl ReplyFrame {
    ghost use Rattle.std.specs.Prelude.{◌≡◌, ◌<◌, ◌≤◌, ◌+◌, ◌-◌, ◌++◌, min, length, take, drop};
    ghost use Rattle.ig_base.specs.Frames.{max_body};
    ghost use Rattle.ig_deals.specs.Replies.{reply_body, reply_frame, fits, shortened};
    ghost use Rattle.ig_replies.specs.Contents.{reply_said, MayBeShown};
    ghost use Rattle.ig_replies.specs.Showing.{showing};

    /// The frame of a reply, of which nothing is gone. Where the reply's body is above the limit of
    /// frames, the fault `reply too long` is in its place. Answers too whether the reply fits. Takes no
    /// memory.
    pub fn new(version: Version, reply: Reply) -> (ReplyFrame, bool)
        requires { MayBeShown version reply }
        ensures frame { result.0 ≡ showing (reply_frame version (shortened version (reply_said reply))) }
        ensures fits { result.1 ≡ fits version (reply_said reply) }
    {
        let len = body_len(version, &reply);
        if len <= MAX_FRAME as u128 {
            return (ReplyFrame::laid_out(version, reply, len as usize), true);
        }
        let Reply { id, told, content } = reply;
        drop(content);
        let fault = Reply {
            id,
            told,
            content: Content::Refuses(Reason::ReplyTooLong),
        };
        let len = body_len(version, &fault);
        (ReplyFrame::laid_out(version, fault, len as usize), false)
    }

    /// The frame of a reply whose body has this length, which a frame can hold.
    fn laid_out(version: Version, reply: Reply, body_len: usize) -> ReplyFrame
        requires shown { MayBeShown version reply }
        requires len { body_len ≡ length (reply_body version (reply_said reply)) }
        requires fits { body_len ≤ max_body }
        ensures { result ≡ showing (reply_frame version (reply_said reply)) }
    {
        let lead_len = message_len(&Lead {
            body_len,
            head: head_at(version, &reply),
        }) as usize;
        let mark = first_mark(&reply.content);
        ReplyFrame {
            version,
            reply,
            body_len,
            lead_len,
            mark,
            gone: 0,
        }
    }

    /// How many bytes the frame has.
    pub fn len(&self) -> usize
        ensures { result ≡ length self.now.frame }
    {
        LENGTH_BYTES + self.body_len
    }

    /// How many bytes of it are gone.
    pub fn gone(&self) -> usize
        ensures { result ≡ self.now.gone }
    {
        self.gone
    }

    /// Fills the slice with the next bytes of the frame, which always has some; they are gone then. Answers
    /// how many bytes it filled: the slice's length, or what is left of the frame, whichever is less. Takes
    /// no memory.
    pub fn fill(&mut self, into: &mut [u8]) -> usize
        ensures some { 0 < length self.old.frame }
        ensures count { result ≡ min (length into.old) (length self.old.frame - self.old.gone) }
        ensures bytes { into.new
            ≡ take result (drop self.old.gone self.old.frame) ++ drop result into.old }
        ensures moved { self.new ≡ record self.old { gone = self.old.gone + result } }
    {
        let filled = frame_part(
            self.version,
            &self.reply,
            self.body_len,
            self.lead_len,
            &self.mark,
            self.gone,
            into,
        );
        self.gone += filled;
        let shown = self.gone.saturating_sub(self.lead_len);
        move_mark(&self.reply.content, &mut self.mark, shown as u64);
        filled
    }
}
