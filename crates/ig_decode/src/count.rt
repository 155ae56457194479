//! Counts that the input states, and that nothing may trust.

ghost use Rattle.std.specs.Prelude.{◌≡◌, ◌↔◌, ◌/◌, ◌<◌, ◌≤◌, suc, min, [], length, take, drop, IsTrue, IsFalse, IfOk, IfSome, IsNone, vec_capacity};

use std::alloc::{AllocError, Global};

/// How many items the input says follow.
///
/// Five bytes can state 2^31 - 1 items, so nothing may reserve memory for the number itself, and it
/// is private. A reader can take the items off one by one ([`StatedCount::take_one`]), and reserve
/// room for at most as many as bytes are left ([`StatedCount::room`]).
#[derive(Clone, Copy, Debug)]
pub struct StatedCount {
    items: usize,
}

impl StatedCount {
    /// The count that the input states.
    pub fn new(items: usize) -> StatedCount
        ensures { result.items ≡ items }
    {
        StatedCount { items }
    }

    /// Takes one item off the count. Answers whether there was one.
    #[inline(always)]
    pub fn take_one(&mut self) -> bool
        ensures more { IsTrue result → self.old.items ≡ suc self.new.items }
        ensures none { IsFalse result → self.old.items ≡ 0 }
    {
        if self.items == 0 {
            return false;
        }
        self.items -= 1;
        true
    }

    /// How many items to reserve room for: at most as many as bytes are left.
    pub(crate) fn room(self, rest: &[u8]) -> usize
        ensures { result ≡ min self.items (length rest.now) }
    {
        if self.items < rest.len() {
            self.items
        } else {
            rest.len()
        }
    }

    /// How many values to reserve room for before they are read; the list grows with those that are
    /// there. So nested lists that all state too many items reserve at most this much at each
    /// level.
    pub fn first_room(self, rest: &[u8]) -> usize
        ensures stated { result ≤ min self.items (length rest.now) }
        ensures few { result ≤ 256 }
    {
        let room = self.room(rest);
        if room < FIRST_ROOM { room } else { FIRST_ROOM }
    }

    /// How many whole items of `width` bytes fit in `left` bytes, at most the stated count.
    pub(crate) fn whole_items(self, width: usize, left: usize) -> usize
        requires { 0 < width }
        ensures { result ≡ min self.items (left / width) }
    {
        let there = left / width;
        if self.items < there {
            self.items
        } else {
            there
        }
    }

    /// Whether the input states more items than these.
    pub(crate) fn is_more_than(self, items: usize) -> bool
        ensures { IsTrue result ↔ (items < self.items) }
    {
        items < self.items
    }

    /// The counted bytes and those after them, or `None` where fewer are left.
    #[inline(always)]
    pub(crate) fn run(self, bytes: &[u8]) -> Option<(&[u8], &[u8])>
        ensures whole { IfSome result (λ x. self.items ≤ length bytes.now) }
        ensures run { IfSome result (λ x. x.0.now ≡ take self.items bytes.now) }
        ensures rest { IfSome result (λ x. x.1.now ≡ drop self.items bytes.now) }
        ensures short { IsNone result → length bytes.now < self.items }
    {
        if bytes.len() < self.items {
            return None;
        }
        Some(bytes.split_at(self.items))
    }
}

/// The most values that a list reserves room for before they are read.
const FIRST_ROOM: usize = 256;

/// An empty list with room for this many items, at most as many as bytes are left. Each item has a
/// byte at least.
pub(crate) fn room_for<T>(alloc: Global, room: usize, rest: &[u8]) -> Result<Vec<T>, AllocError>
    requires { room ≤ length rest.now }
    ensures empty { IfOk result (λ made. made.items ≡ []) }
    ensures room { IfOk result (λ made. vec_capacity made ≡ room) }
{
    let _left = rest.len();
    Vec::with_capacity(alloc, room)
}
