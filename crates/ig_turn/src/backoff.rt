//! The exponential backoff of a waiter. Each look at a word takes its cache line from the thread that
//! has the turn, and a turn that goes to another thread moves the object's lines too, so a waiter looks
//! seldom, and ever more seldom.
use std::hint;

// The pauses before the second look. Before each later one there are twice as many.
const FIRST_PAUSES: u32 = 8;

// A waiter that has paused this often between two looks sleeps next.
const MOST_PAUSES: u32 = 256;

/// How often a waiter pauses before its next look.
#[derive(Drop)]
pub(crate) struct Backoff {
    pauses: u32,
}

impl Backoff {
    pub(crate) fn new() -> Backoff {
        Backoff {
            pauses: FIRST_PAUSES,
        }
    }

    /// True where sleeping is better than a longer pause.
    pub(crate) fn is_completed(&self) -> bool {
        self.pauses > MOST_PAUSES
    }

    /// Pauses, and the next time twice as long.
    pub(crate) fn spin(&mut self) {
        for _ in 0..self.pauses {
            hint::spin_loop();
        }
        self.pauses = self.pauses.saturating_mul(2);
    }
}
