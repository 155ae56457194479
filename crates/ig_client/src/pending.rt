//! A channel without its link: the calls by their identifiers, and the frame that is being read.
//!
//! Nothing here knows how bytes come or go. A call is offered when its request is about to be sent. The
//! bytes that come are filed piece by piece: no piece goes beyond the end of a frame, so a whole frame
//! moves to its call without another copy.
//!
//! ```text
//!           offer             a frame comes             take
//!   (none)  ---->  pending   -------------->  replied  ---->  (none)
//! ```

ghost use Rattle.std.specs.Prelude.{◌≡◌, ◌<◌, ◌≤◌, length, None, Ok, IfOk, OnOk, OnErr};
ghost use Rattle.ig_wire.specs.Versions.{server_side};
ghost use Rattle.ig_wire.specs.Limits.{piece_bytes};
ghost use Rattle.ig_client.specs.PendingState.{no_calls, next_id, with_call, next_read, with_room, filed, unless_broken, broken, reply_to, after_take};

use crate::fault::{Break, ChannelFault};
use crate::front::{Front, front_of};
use crate::replies::{Replies, is_waiting, put_call, put_reply, take_reply};
use ig_base::{NoMemory, Octets, frame_is_read, get_i64};
use ig_wire::{PENDING_CALLS, PIECE, Version};
use std::alloc::Global;
use std::collections::BTreeMap;
use std::marker::Model;
use std::mem;

/// A channel without its link. Contracts see the calls whose replies weren't taken, the bytes of the
/// frame that is being read, and how the channel broke.
#[derive(Drop)]
pub struct Pending {
    pub(crate) alloc: Global,
    least: u32,
    last: u64,
    waiting: u32,
    replies: Replies,
    place: u64,
    part: Vec<u8>,
    room: usize,
    down: Option<Break>,
}

impl Model for Pending {
    ghost use Rattle.std.specs.Prelude.{◌≤◌, ◌+◌, vec_len, vec_capacity};
    ghost use Rattle.ig_client.specs.PendingState.{PendingState, IsKept, map_of};
    ghost use Rattle.ig_client.specs.Coded.{coded_pending};

    ghost Value = { PendingState };

    ghost coded = { coded_pending };

    ghost view = { λ c. record {
      least = c.least;
      last = c.last;
      waiting = c.waiting;
      replies = map_of c.replies.entries;
      place = c.place;
      part = c.part.items;
      room = c.room;
      down = c.down;
    } };

    ghost invariant = { λ c. (vec_len c.part + c.room ≤ vec_capacity c.part) × IsKept (record {
      least = c.least;
      last = c.last;
      waiting = c.waiting;
      replies = map_of c.replies.entries;
      place = c.place;
      part = c.part.items;
      room = c.room;
      down = c.down;
    }) };
}

impl Pending {
    /// A channel of this version, on which no call was made.
    ///
    /// # Errors
    ///
    /// [`NoMemory`] if memory runs out.
    pub fn new(alloc: Global, version: Version) -> Result<Pending, NoMemory>
        ensures { IfOk result (λ pending. pending ≡ no_calls (server_side version).later) }
    {
        frame_is_read();
        Ok(Pending {
            alloc,
            least: version.least_reply(),
            last: 0,
            waiting: 0,
            replies: BTreeMap::new(alloc),
            place: 0,
            part: Vec::new(alloc),
            room: 0,
            down: None,
        })
    }

    /// How the channel broke, if it did. Takes no memory.
    pub fn down(&self) -> Option<Break>
        ensures { result ≡ self.now.down }
    {
        self.down
    }

    /// How many calls are pending. Takes no memory.
    pub fn pending(&self) -> u32
        ensures { result ≡ self.now.waiting }
    {
        self.waiting
    }

    /// The identifier of the next call. Takes no memory.
    ///
    /// # Errors
    ///
    /// The first that holds: [`ChannelFault::Down`] if the channel broke, [`ChannelFault::Spent`] if all
    /// identifiers were used, and [`ChannelFault::Full`] if as many calls are pending as may be.
    pub(crate) fn next_id(&self) -> Result<i64, ChannelFault>
        ensures { result ≡ next_id self.now }
    {
        if let Some(cause) = self.down {
            return Err(ChannelFault::Down(cause));
        }
        let Ok(id) = i64::try_from(self.last + 1) else {
            return Err(ChannelFault::Spent);
        };
        if self.waiting as usize >= PENDING_CALLS {
            return Err(ChannelFault::Full);
        }
        Ok(id)
    }

    /// Adds a call under the next identifier. On an error nothing was added.
    pub(crate) fn add(&mut self, id: i64) -> Result<(), NoMemory>
        requires { next_id self.old ≡ Ok id }
        ensures ok { OnOk result (self.new ≡ with_call self.old) }
        ensures err { OnErr result (self.new ≡ self.old) }
    {
        put_call(&mut self.replies, id)?;
        self.last += 1;
        self.waiting += 1;
        Ok(())
    }

    /// Takes room for the next piece, and answers how many bytes it may have: at least one. On an error
    /// nothing changed.
    pub fn room(&mut self) -> Result<usize, NoMemory>
        requires { self.old.down ≡ None }
        ensures size { IfOk result (λ n. (n ≡ next_read self.old) × (0 < n) × (n ≤ piece_bytes)) }
        ensures ok { OnOk result (self.new ≡ with_room self.old) }
        ensures err { OnErr result (self.new ≡ self.old) }
    {
        frame_is_read();
        let missing = match front_of(self.part.as_slice(), self.least) {
            Front::Missing(count) => count,
            _ => 0,
        };
        let room = if missing < PIECE { missing } else { PIECE };
        self.part.reserve(room)?;
        self.room = room;
        Ok(room)
    }

    /// Files a piece of what the server sent, for which there is room. Takes no memory.
    ///
    /// # Errors
    ///
    /// [`Break::BadFrame`] exactly if the length of the frame is whole now and out of range, and
    /// [`Break::Unasked`] exactly if the frame is whole now and isn't the reply to a pending call. The
    /// channel is broken from then on.
    pub fn file(&mut self, piece: &[u8]) -> Result<(), Break>
        requires up { self.old.down ≡ None }
        requires fits { length piece.now ≤ self.old.room }
        ensures new { self.new ≡ filed piece.now self.old }
        ensures answer { result ≡ unless_broken (filed piece.now self.old).down }
    {
        frame_is_read();
        let _ = self.part.extend_from_slice(piece);
        self.room = 0;
        match front_of(self.part.as_slice(), self.least) {
            Front::Missing(_) => Ok(()),
            Front::Bad(length) => {
                let cause = Break::BadFrame {
                    place: self.place,
                    length,
                };
                self.down = Some(cause);
                Err(cause)
            }
            Front::Whole(len) => {
                let id = get_i64(&self.part[4..4 + len], 0).unwrap_or(0);
                if !is_waiting(&self.replies, id) {
                    let cause = Break::Unasked { id };
                    self.down = Some(cause);
                    return Err(cause);
                }
                let frame = mem::replace(&mut self.part, Vec::new(self.alloc));
                self.place = self.place.saturating_add(frame.len() as u64);
                self.waiting = self.waiting.saturating_sub(1);
                put_reply(&mut self.replies, id, Octets::new(frame));
                Ok(())
            }
        }
    }

    /// Breaks the channel. Takes no memory.
    pub fn broke(&mut self, cause: Break)
        requires { self.old.down ≡ None }
        ensures { self.new ≡ broken cause self.old }
    {
        self.down = Some(cause);
    }

    /// The frame of the reply to the call with this identifier, if it came; the call is forgotten then.
    /// Takes no memory.
    pub fn take(&mut self, id: i64) -> Option<Octets>
        ensures frame { result ≡ reply_to id self.old }
        ensures new { self.new ≡ after_take id self.old }
    {
        take_reply(&mut self.replies, id)
    }
}
