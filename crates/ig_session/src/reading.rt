//! Reads the next frame of a session.

ghost use Rattle.std.specs.Prelude.{◌≡◌, ◌<◌, ◌≤◌, ◌^◌, [], false, length, IfOk, OnOk, OnErr};
ghost use Rattle.ig_wire.specs.Versions.{has_flags};
ghost use Rattle.ig_deals.specs.declared.manner.Manner.TheVariants.{Never};
ghost use Rattle.ig_session.specs.declared.phase.Phase.TheVariants.{BeforeHello, Open};
ghost use Rattle.ig_session.specs.Requests.{coming_said, IsServable, ComesHello};
ghost use Rattle.ig_deals.specs.Asks.{asked_in};
ghost use Rattle.ig_session.specs.Comings.{Asks, coming};
ghost use Rattle.ig_session.specs.Steps.{passed, opened, refused};

use crate::coming::Coming;
use crate::greeting::{acceptance, refusal};
use crate::phase::Phase;
use crate::requests::read_request;
use crate::session::Session;
use ig_base::NoMemory;
use ig_deals::{Manner, SessionEnd};
use ig_frame::Next;
use ig_replies::Terms;
use ig_wire::{AskFault, HelloFault, Version, read_hello};
use std::alloc::Global;

/// What the body of a request asks under these terms.
fn asked_by(alloc: Global, terms: Terms, body: &[u8]) -> Result<Coming, NoMemory>
    requires long { 10 ≤ length body.now }
    requires short { length body.now < 2 ^ 31 }
    ensures asks { IfOk result (λ next. coming_said next
        ≡ Asks terms (asked_in terms.version body.now)) }
    ensures servable { IfOk result IsServable }
{
    let (id, asked) = read_request(alloc, terms.version, body);
    match asked {
        Err(AskFault::NoMemory) => Err(NoMemory),
        asked => Ok(Coming::Asks(terms, id, asked)),
    }
}

impl Session {
    /// What comes next. A whole frame is read where it stands, and not yet passed.
    pub(crate) fn look(&self) -> Result<Coming, NoMemory>
        ensures coming { IfOk result (λ next. coming_said next ≡ coming self.now) }
        ensures servable { IfOk result IsServable }
        ensures lack { OnErr result (self.now.waiting.frames ≡ []) }
    {
        if !self.outbox.is_empty() {
            return Ok(Coming::Replies);
        }
        match self.phase {
            Phase::Refused(fault) => Ok(Coming::Stops(SessionEnd::HelloRefused(fault))),
            Phase::OutOfMemory => Ok(Coming::Stops(SessionEnd::NoMemory)),
            Phase::BeforeHello => Ok(self.look_at_hello()),
            Phase::Open(terms) => self.look_at_request(terms),
        }
    }

    /// What comes next before the hello was read, where nothing waits.
    fn look_at_hello(&self) -> Coming
        requires phase { self.now.phase ≡ BeforeHello }
        requires none { self.now.waiting.frames ≡ [] }
        ensures coming { coming_said result ≡ coming self.now }
        ensures servable { IsServable result }
    {
        match self.frames.look(self.phase.least()) {
            Next::More { missing } => Coming::Misses(missing),
            Next::Bad { place, length } => Coming::Stops(SessionEnd::BadFrame { place, length }),
            Next::Frame { body, .. } => Coming::Greets(read_hello(body, Version::HIGHEST)),
        }
    }

    /// What comes next in an open session, where nothing waits.
    fn look_at_request(&self, terms: Terms) -> Result<Coming, NoMemory>
        requires phase { self.now.phase ≡ Open terms }
        requires none { self.now.waiting.frames ≡ [] }
        ensures coming { IfOk result (λ next. coming_said next ≡ coming self.now) }
        ensures servable { IfOk result IsServable }
    {
        match self.frames.look(self.phase.least()) {
            Next::More { missing } => Ok(Coming::Misses(missing)),
            Next::Bad { place, length } => Ok(Coming::Stops(SessionEnd::BadFrame {
                place,
                length,
            })),
            Next::Frame { body, .. } => asked_by(self.alloc, terms, body),
        }
    }

    /// Passes the frame that was read.
    pub(crate) fn pass(&mut self)
        ensures { self.new ≡ passed self.old }
    {
        self.frames.pass(self.phase.least());
    }

    /// Passes a hello that is accepted at this version, and opens the session. On an error the session
    /// is as before.
    pub(crate) fn open(&mut self, version: Version, manner: Manner) -> Result<(), NoMemory>
        requires hello { ComesHello self.old }
        requires telling { has_flags version ≡ false → manner ≡ Never }
        ensures ok { OnOk result (self.new ≡ opened version manner self.old) }
        ensures err { OnErr result (self.new ≡ self.old) }
    {
        let frame = acceptance(self.alloc, &self.cfg, version)?;
        self.pass();
        self.outbox.greet(frame);
        self.phase = Phase::Open(Terms {
            version,
            manner,
            cfg: self.cfg,
        });
        Ok(())
    }

    /// Passes a hello that is refused for this reason. On an error the session is as before.
    pub(crate) fn refuse_hello(&mut self, fault: HelloFault) -> Result<(), NoMemory>
        requires { ComesHello self.old }
        ensures ok { OnOk result (self.new ≡ refused fault self.old) }
        ensures err { OnErr result (self.new ≡ self.old) }
    {
        let frame = refusal(self.alloc, &self.cfg, fault)?;
        self.pass();
        self.outbox.greet(frame);
        self.phase = Phase::Refused(fault);
        Ok(())
    }
}
