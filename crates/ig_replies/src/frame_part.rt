//! Parts of the frames of replies.

ghost use Rattle.std.specs.Prelude.{◌≡◌, ◌-◌, ◌+◌, ◌^◌, ◌++◌, min, length, take, drop};
ghost use Rattle.ig_deals.specs.Replies.{reply_frame};
ghost use Rattle.ig_replies.specs.Contents.{reply_said, MayBeShown};
ghost use Rattle.ig_replies.specs.FrameParts.{IsLaidOut, lead_bytes};
ghost use Rattle.ig_replies.specs.RowMarks.{IsRowMark};

use crate::body::head_at;
use crate::head::Lead;
use crate::reply::Reply;
use crate::result::content_part;
use ig_fields::message_part;
use ig_ops::PageMark;
use ig_wire::Version;

/// Fills the slice with the bytes from an offset on of what comes before the result: the length of the
/// body, and the head.
fn lead_part(version: Version, reply: &Reply, body_len: usize, from: u64, into: &mut [u8]) -> usize
    requires { MayBeShown version reply.now }
    ensures count { result ≡ min (length into.old) (length (lead_bytes version reply.now body_len) - from) }
    ensures bytes { into.new
        ≡ take result (drop from (lead_bytes version reply.now body_len)) ++ drop result into.old }
{
    let lead = Lead {
        body_len,
        head: head_at(version, reply),
    };
    message_part(&lead, from, into)
}

/// Fills the slice with the bytes of the frame from an offset on. Answers how many bytes it filled: the
/// slice's length, or what is left, whichever is less. It passes over the rows before the mark. Takes no
/// memory.
pub(crate) fn frame_part(
    version: Version,
    reply: &Reply,
    body_len: usize,
    lead_len: usize,
    mark: &PageMark,
    from: usize,
    into: &mut [u8],
) -> usize
    requires mark { IsRowMark reply.now.content mark.now }
    requires laid { IsLaidOut version reply.now body_len lead_len }
    ensures count { result
        ≡ min (length into.old) (length (reply_frame version (reply_said reply.now)) - from) }
    ensures bytes { into.new
        ≡ take result (drop from (reply_frame version (reply_said reply.now))) ++ drop result into.old }
{
    if from >= lead_len {
        return content_part(&reply.content, mark, (from - lead_len) as u64, into);
    }
    let first = lead_part(version, reply, body_len, from as u64, into);
    if from + first < lead_len {
        return first;
    }
    let (_, room) = into.split_at_mut(first);
    first + content_part(&reply.content, mark, 0, room)
}
