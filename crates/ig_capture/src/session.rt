//! The sessions of a capture.

ghost use Rattle.std.specs.Prelude.{◌≡◌, length};
ghost use Rattle.ig_capture.specs.Answers.{ShowsLines};
ghost use Rattle.ig_capture.specs.Sessions as sessions;

use crate::fault::CaptureFault;
use crate::sides::hear;
use crate::talk::Talk;
use ig_base::{NoMemory, Octets};
use ig_frame::{Frames, MAX_FRAME};
use std::alloc::Global;
use std::marker::Model;

/// A session: the streams of its two sides, and what is known of it.
#[derive(Drop)]
pub(crate) struct Session {
    from_client: Frames,
    from_server: Frames,
    talk: Talk,
}

impl Model for Session {
    ghost use Rattle.std.specs.Prelude.{◌≡◌};
    ghost use Rattle.ig_base.specs.Frames.{max_body};
    ghost use Rattle.ig_capture.specs.Sessions as sessions;
    ghost use Rattle.ig_capture.specs.Coded.{coded_session};

    ghost Value = { sessions.Session };

    ghost coded = { coded_session };

    ghost view = { λ s. record {
      from_client = s.from_client;
      from_server = s.from_server;
      talk = s.talk;
    } };

    ghost invariant = { λ s. (s.from_client.limit ≡ max_body) × (s.from_server.limit ≡ max_body) };
}

impl Session {
    /// Nothing was said. Takes no memory.
    pub(crate) fn new(alloc: Global) -> Session
        ensures { result ≡ sessions.fresh_session }
    {
        Session {
            from_client: Frames::new(alloc, MAX_FRAME),
            from_server: Frames::new(alloc, MAX_FRAME),
            talk: Talk::new(alloc),
        }
    }

    /// Appends the lines of the messages that end with these bytes of a side.
    pub(crate) fn hear(
        &mut self,
        number: u32,
        server: bool,
        bytes: &[u8],
        text: &mut Octets,
        lines: &mut Octets,
    ) -> Result<(), CaptureFault>
        ensures { ShowsLines (sessions.hear_session number self.old server bytes.now)
            self.new lines.old lines.new result }
    {
        if server {
            self.from_server.feed(bytes)?;
            hear(
                number,
                true,
                &mut self.from_server,
                &mut self.talk,
                text,
                lines,
            )
        } else {
            self.from_client.feed(bytes)?;
            hear(
                number,
                false,
                &mut self.from_client,
                &mut self.talk,
                text,
                lines,
            )
        }
    }

    /// How many bytes of a side are there of a frame that isn't whole.
    pub(crate) fn held(&self, server: bool) -> u64
        ensures { result ≡ length (sessions.side_of self.now server).stream.rest }
    {
        if server {
            self.from_server.held()
        } else {
            self.from_client.held()
        }
    }
}
