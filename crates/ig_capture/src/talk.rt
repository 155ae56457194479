//! What is known of a session.

ghost use Rattle.std.specs.Prelude.{◌≡◌, ◌≤◌, ◌<◌, ◌^◌, [], length};
ghost use Rattle.ig_capture.specs.Answers.{ShowsStep};
ghost use Rattle.ig_capture.specs.Talks.{fresh_talk, message, least};

use crate::phase::Phase;
use crate::stop::Stop;
use crate::unanswered::Unanswered;
use ig_base::Octets;
use ig_wire::{ASK_HEAD, LEAST_HELLO, LEAST_HELLO_REPLY, Version};
use std::alloc::Global;
use std::marker::Model;

/// How far a session has come, and its requests without a reply.
#[derive(Drop)]
pub(crate) struct Talk {
    pub(crate) alloc: Global,
    pub(crate) phase: Phase,
    pub(crate) unanswered: Unanswered,
}

impl Model for Talk {
    ghost use Rattle.ig_capture.specs.Talks as talks;
    ghost use Rattle.ig_capture.specs.Coded.{coded_talk};

    ghost Value = { talks.Talk };

    ghost coded = { coded_talk };

    ghost view = { λ t. record { phase = t.phase; unanswered = t.unanswered } };
}

impl Talk {
    /// Nothing was said. Takes no memory.
    pub(crate) fn new(alloc: Global) -> Talk
        ensures { result ≡ fresh_talk }
    {
        Talk {
            alloc,
            phase: Phase::Fresh,
            unanswered: Unanswered::new(alloc),
        }
    }

    /// The least length of the body of a side's next message.
    pub(crate) fn least(&self, server: bool) -> u32
        ensures { result ≡ least server self.now.phase }
    {
        match (server, self.phase) {
            (false, Phase::Fresh) => LEAST_HELLO,
            (false, _) => ASK_HEAD,
            (true, Phase::Talking(version)) => version.least_reply(),
            (true, Phase::Closed) => Version::V1_0_0.least_reply(),
            (true, _) => LEAST_HELLO_REPLY,
        }
    }

    /// The next message of a side, whose frame begins at this offset of its stream: the session after it,
    /// and its text.
    pub(crate) fn hear(
        &mut self,
        server: bool,
        place: u64,
        body: &[u8],
        text: &mut Octets,
    ) -> Result<(), Stop>
        requires least { least server self.old.phase ≤ length body.now }
        requires short { length body.now < 2 ^ 31 }
        requires empty { text.old ≡ [] }
        ensures { ShowsStep (message self.old server place body.now) self.new text.new result }
    {
        if server {
            self.hear_server(place, body, text)
        } else {
            self.hear_client(place, body, text)
        }
    }
}
