//! A session as a state machine: it takes bytes, hands out calls and shows replies, and neither reads
//! nor writes a link.

use crate::awaited::Awaited;
use crate::outbox::Outbox;
use crate::phase::Phase;
use ig_base::NoMemory;
use ig_deals::{Desk, SessionCfg, SessionEnd};
use ig_frame::{Frames, MAX_FRAME, Next};
use std::alloc::Global;
use std::marker::Model;

/// The server's side of one connection.
///
/// A loop drives it: it asks for the next step until the session wants more input, and then feeds it.
///
/// ```text
///   feed --> next_request --Run(call)--> answer --+
///    ^          |  ^  ^                           |
///    |          |  |  +---------------------------+
///    |          |  +--- gone <-- waiting <---Out--+
///    +---More---+
///               +---Stop(end)
/// ```
///
/// Where several calls may be out, [`Session::ahead`] and [`Session::answer_nth`] stand in the place of
/// `next_request` and `answer`. A session is driven by one of these pairs, never by both.
#[derive(Drop)]
pub struct Session {
    pub(crate) alloc: Global,
    pub(crate) cfg: SessionCfg,
    pub(crate) frames: Frames,
    pub(crate) phase: Phase,
    pub(crate) desk: Desk,
    pub(crate) out: Vec<Awaited>,
    pub(crate) handed: u64,
    pub(crate) outbox: Outbox,
}

impl Model for Session {
    ghost use Rattle.std.specs.Coded.{codes};
    ghost use Rattle.ig_value.specs.contracts.value.Value as value;
    ghost use Rattle.ig_session.specs.States.{State, state_of};
    ghost use Rattle.ig_session.specs.Soundness.{IsSound};

    ghost Value = { State };

    ghost coded = { Prim.hlevel (codes, value.the_row.coded) };

    ghost view = { λ s. state_of s.cfg s.frames s.phase s.desk s.out.items s.handed s.outbox };

    ghost invariant = { λ s. IsSound (state_of s.cfg s.frames s.phase s.desk s.out.items s.handed
        s.outbox) };
}

impl Session {
    ghost use Rattle.std.specs.Prelude.{◌≡◌, ◌↔◌, ℕ, ◌≤◌, ◌+◌, [], length, IfOk, OnOk, OnErr};
    ghost use Rattle.ig_base.specs.Numbers.{AreBytes};
    ghost use Rattle.ig_replies.specs.Showing.{waiting_none, piece_shown};
    ghost use Rattle.ig_session.specs.Cfg.{IsCfg};
    ghost use Rattle.ig_session.specs.States.{new_state};
    ghost use Rattle.ig_session.specs.Soundness.{most_fed, most_held};
    ghost use Rattle.ig_deals.specs.declared.end.SessionEnd.TheVariants.{Truncated};
    ghost use Rattle.ig_session.specs.Comings.{Misses, coming, IsPaused};
    ghost use Rattle.ig_session.specs.Steps.{fed, written, end_at};

    /// A session that was fed nothing. It takes the room for pieces of replies, and for cursors.
    pub fn new(alloc: Global, cfg: SessionCfg) -> Result<Session, NoMemory>
        requires { IsCfg cfg }
        ensures { IfOk result (λ session. session ≡ new_state cfg) }
    {
        let frames = Frames::new(alloc, MAX_FRAME);
        let desk = Desk::new(alloc)?;
        let out = Vec::new(alloc);
        let outbox = Outbox::new(alloc)?;
        Ok(Session {
            alloc,
            cfg,
            frames,
            phase: Phase::BeforeHello,
            desk,
            out,
            handed: 0,
            outbox,
        })
    }

    // ---- the input

    /// Appends the next piece of the input. On an error nothing was fed.
    pub fn feed(&mut self, piece: &[u8]) -> Result<(), NoMemory>
        requires held { length self.old.stream.rest + length piece.now ≤ most_held }
        requires fed { self.old.stream.place + length self.old.stream.rest + length piece.now
            ≤ most_fed }
        ensures ok { OnOk result (self.new ≡ fed self.old piece.now) }
        ensures err { OnErr result (self.new ≡ self.old) }
        ensures bytes { AreBytes piece.now }
    {
        self.frames.feed(piece)
    }

    /// How many bytes were fed and not read. Takes no memory.
    pub fn held(&self) -> u64
        ensures { result ≡ length self.now.stream.rest }
    {
        self.frames.held()
    }

    /// How the session ends if the input ends here, where it waits for more input and no call is out.
    /// Takes no memory.
    pub fn end_input(&mut self) -> SessionEnd
        requires paused { IsPaused self.old }
        requires none { self.old.out ≡ [] }
        ensures end { result ≡ end_at self.old (coming self.old) }
        ensures same { self.new ≡ self.old }
    {
        let Phase::Open(_) = self.phase else {
            return self.truncated();
        };
        if self.frames.held() == 0 {
            return SessionEnd::Ended;
        }
        self.truncated()
    }

    /// How the session ends if the input ends inside a frame.
    fn truncated(&self) -> SessionEnd
        ensures { (missing : ℕ) → coming self.now ≡ Misses missing → result ≡ Truncated missing }
    {
        match self.frames.look(self.phase.least()) {
            Next::More { missing } => SessionEnd::Truncated { missing },
            Next::Bad { .. } => SessionEnd::Truncated { missing: 0 },
            Next::Frame { .. } => SessionEnd::Truncated { missing: 0 },
        }
    }

    // ---- the output

    /// The bytes to be written next: up to 65,536 bytes of the first reply that waits, and nothing where
    /// none waits. Takes no memory.
    pub fn waiting(&self) -> &[u8]
        ensures shown { result.now ≡ piece_shown self.now.waiting }
        ensures end { (result.now ≡ []) ↔ (self.now.waiting ≡ waiting_none) }
    {
        self.outbox.waiting()
    }

    /// Says that the first bytes of what waits were written. Takes no memory.
    pub fn gone(&mut self, count: usize)
        requires { count ≤ length (piece_shown self.old.waiting) }
        ensures { self.new ≡ written self.old count }
    {
        self.outbox.gone(count);
    }
}
