//! The buffer that frames are cut from.
//!
//! The bytes before `start` are frames that were handed out. `feed` appends a piece, and `next` moves
//! `start` past the frame that it lends, so no byte moves:
//!
//! ```text
//!           start                                                        start
//!             |                                                            |
//!   +---------+------------+--------+------+  next  +----------------------+--------+------+
//!   | passed  | frame      | frame  | part |  --->  | passed               | frame  | part |
//!   +---------+------------+--------+------+        +----------------------+--------+------+
//! ```
//!
//! The passed bytes are dropped when room is needed: what is left is moved down to the start, but only
//! where at least as many bytes are dropped. So however the stream is cut, no more bytes are moved down
//! than were fed. A buffer that grows takes twice the room, so growing copies about as many at most.

ghost use Rattle.std.specs.Prelude.{◌≡◌, ◌≤◌, ◌+◌, ◌++◌, drop, length, OnOk, OnErr};

use crate::front::{Found, front_of};
use crate::next::Next;
use ig_base::NoMemory;
use std::alloc::Global;
use std::marker::Model;

/// The greatest length of a frame's body in the protocol, in bytes.
pub const MAX_FRAME: u32 = 8_388_608;

/// The room beyond what it holds that a `Frames` keeps when it gives back the room of a large frame.
const SPARE: usize = 65_536;

/// The bytes of a stream that weren't handed out, and where they begin.
#[derive(Drop)]
pub struct Frames {
    bytes: Vec<u8>,
    start: usize,
    place: u64,
    limit: u32,
    alloc: Global,
}

impl Model for Frames {
    ghost use Rattle.std.specs.Prelude.{drop, length, ◌≤◌};
    ghost use Rattle.ig_frame.specs.Streams.{Stream};

    ghost Value = { Stream };

    ghost view = { λ f. record { limit = f.limit; place = f.place; rest = drop f.start f.bytes.items } };

    ghost invariant = { λ f. f.start ≤ length f.bytes.items };
}

impl Frames {
    ghost use Rattle.std.specs.Prelude.{⊤};
    ghost use Rattle.std.specs.Borrow.{sem};
    ghost use mathlib.Core.Option.{none};
    ghost use denote.Follow.{follows_so};
    ghost use Rattle.ig_frame.specs.contracts.frames.Frames.{the_row};
    ghost use Rattle.ig_frame.specs.Streams.{new_stream, longer_stream, front_at, stream_after_frame};
    ghost use Rattle.ig_frame.specs.Shows.{Shows};

    /// A stream of which nothing was fed. A body may have up to `limit` bytes. Takes no memory.
    pub fn new(alloc: Global, limit: u32) -> Frames
        ensures { result ≡ new_stream limit }
    {
        Frames {
            bytes: Vec::new(alloc),
            start: 0,
            place: 0,
            limit,
            alloc,
        }
    }

    /// How many bytes were fed and not handed out. Takes no memory.
    pub fn held(&self) -> u64
        ensures { result ≡ length self.now.rest }
    {
        (self.bytes.len() - self.start) as u64
    }

    /// Appends the next piece of the stream. On an error nothing was fed.
    pub fn feed(&mut self, piece: &[u8]) -> Result<(), NoMemory>
        ensures ok { OnOk result (self.new ≡ longer_stream self.old piece.now) }
        ensures err { OnErr result (self.new ≡ self.old) }
    {
        self.make_room(piece.len());
        self.bytes.extend_from_slice(piece)?;
        Ok(())
    }

    /// Drops the passed bytes if nothing else is held, or if this many don't fit after the bytes held
    /// and as many bytes are dropped as are moved.
    fn make_room(&mut self, count: usize)
        ensures { self.new ≡ self.old }
    {
        let held = self.bytes.len() - self.start;
        if held == 0 {
            self.bytes.clear();
            self.start = 0;
            return;
        }
        let room = self.bytes.capacity().saturating_sub(self.bytes.len());
        if room < count {
            if held <= self.start {
                self.bytes.copy_within(self.start.., 0);
                self.bytes.truncate(held);
                self.start = 0;
            }
        }
    }

    /// What stands at the place, which stays where it is. Takes no memory.
    pub fn look(&self, least: u32) -> Next<'_>
        ensures { Shows result self.now (front_at least self.now) }
    {
        let rest = &self.bytes[self.start..];
        match front_of(rest, least, self.limit) {
            Found::Body(len) => Next::Frame {
                place: self.place,
                body: &rest[4..4 + len],
            },
            Found::Bad(length) => Next::Bad {
                place: self.place,
                length,
            },
            Found::Missing(missing) => Next::More { missing },
        }
    }

    /// What stands at the place, which moves past it if it is a whole frame. First it gives back the room
    /// of a large frame that was handed out before. It can't run out of memory: where a smaller buffer
    /// is refused, it keeps the larger one.
    pub fn next(&mut self, least: u32) -> Next<'_>
        ensures shows { Shows result self.old (front_at least self.old) }
        ensures* moves { sem 𝓛 (follows_so the_row the_row self.entry.ghost_name none (λ _ _. ⊤)
            (λ s. s ≡ stream_after_frame least self.old)) }
    {
        self.give_back();
        let place = self.place;
        match front_of(&self.bytes[self.start..], least, self.limit) {
            Found::Body(len) => {
                let body = self.start + 4;
                self.start = body + len;
                self.place = place.saturating_add(4 + len as u64);
                Next::Frame {
                    place,
                    body: &self.bytes[body..body + len],
                }
            }
            Found::Bad(length) => Next::Bad { place, length },
            Found::Missing(missing) => Next::More { missing },
        }
    }

    /// Moves past the frame that `look` shows for the same `least`, if it shows one. Then it gives back
    /// the room of a large frame that was handed out. It can't run out of memory, as `next` can't.
    #[tactic(auto, unfolding(crate::specs::Streams::stream_after_frame))]
    pub fn pass(&mut self, least: u32)
        ensures { self.new ≡ stream_after_frame least self.old }
    {
        if let Found::Body(len) = front_of(&self.bytes[self.start..], least, self.limit) {
            self.start = self.start + 4 + len;
            self.place = self.place.saturating_add(4 + len as u64);
        }
        self.give_back();
    }

    /// Gives back room: where more than 128 KiB beyond the bytes held are there, and no more bytes are
    /// held than were passed, it moves what is held into a buffer with 64 KiB beyond it. Where memory
    /// for that is refused, it keeps the larger one.
    fn give_back(&mut self)
        ensures { self.new ≡ self.old }
    {
        let held = self.bytes.len() - self.start;
        if self.start < held {
            return;
        }
        if self.bytes.capacity().saturating_sub(held) <= 2 * SPARE {
            return;
        }
        let Ok(mut smaller) = Vec::with_capacity(self.alloc, held + SPARE) else {
            return;
        };
        if smaller.extend_from_slice(&self.bytes[self.start..]).is_ok() {
            self.bytes = smaller;
            self.start = 0;
        }
    }
}

#[cfg(test)]
impl Frames {
    /// The bytes that the buffer has room for.
    pub(crate) fn room(&self) -> usize {
        self.bytes.capacity()
    }
}
