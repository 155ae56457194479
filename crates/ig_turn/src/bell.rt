//! Where waiters sleep until the turn is passed. No proof rests on it: a waiter that wakes looks again.
use std::sync::Wait;
use std::sync::atomic::AtomicU64;
use std::sync::atomic::Ordering::SeqCst;
use std::time::Duration;

const LOW_BITS: u64 = 0xffff_ffff;

// A waiter that has slept this long has the next turn reserved for it.
const LONG_SLEEP_MICROS: u64 = 500;

// The values of `reserved`: the next turn is anybody's, or one waiter's, which sleeps until it is
// passed, or that waiter's, and it was passed since.
const NOBODY: u64 = 0;

const ASLEEP: u64 = 1;

const WOKEN: u64 = 2;

/// What waiters sleep on.
#[derive(Drop)]
pub(crate) struct Bell {
    // It is odd while a waiter may sleep on it, and grows when one is woken.
    word: AtomicU64,
    // Whose the next turn is.
    reserved: AtomicU64,
}

/// The low half of the bell's word, as a waiter saw it before it sleeps.
#[derive(Clone, Copy, PartialEq, Eq)]
pub(crate) struct Mark(u32);

impl Bell {
    pub(crate) fn new() -> Bell {
        Bell {
            word: AtomicU64::new(0),
            reserved: AtomicU64::new(NOBODY),
        }
    }

    /// Asks that the next pass wakes a waiter. A waiter that asks, and then finds the turn taken, may
    /// sleep: the turn is passed after that, and so the bell rings.
    pub(crate) fn ask(&self) -> Mark {
        Mark(((self.word.fetch_or(1, SeqCst) | 1) & LOW_BITS) as u32)
    }

    /// True where the next pass wakes a waiter.
    pub(crate) fn is_asked(&self) -> bool {
        self.word.load(SeqCst) % 2 == 1
    }

    /// Sleeps unless the bell rang since the mark was made. Others may still sleep, so a waiter that was
    /// woken asks again before it sleeps or passes the turn. True where it slept for long and then had
    /// the turn reserved: it has to `give_up` the reservation once it has the turn.
    pub(crate) fn sleep<R: Wait>(&self, rt: &R, mark: Mark) -> bool {
        if self.is_reserved() {
            self.word.park(rt, mark.0);
            return false;
        }
        self.word
            .park_timeout(rt, mark.0, Duration::from_micros(LONG_SLEEP_MICROS));
        let slept_through = (self.word.load(SeqCst) & LOW_BITS) as u32 == mark.0;
        slept_through
            && self
                .reserved
                .compare_exchange(NOBODY, ASLEEP, SeqCst, SeqCst)
                .is_ok()
    }

    /// True where the next turn is one waiter's, for which the others wait.
    pub(crate) fn is_reserved(&self) -> bool {
        self.reserved.load(SeqCst) != NOBODY
    }

    /// Asks, for the waiter that has the turn reserved, that the next pass wakes it. Where it then finds
    /// the turn taken it may sleep.
    pub(crate) fn ask_reserved(&self) {
        self.reserved.store(ASLEEP, SeqCst);
        self.ask();
    }

    /// Sleeps, where the turn is reserved for this waiter, unless it was passed since the waiter asked.
    pub(crate) fn sleep_reserved<R: Wait>(&self, rt: &R) {
        self.reserved.park(rt, ASLEEP as u32);
    }

    /// The next turn is anybody's.
    pub(crate) fn give_up(&self) {
        self.reserved.store(NOBODY, SeqCst);
    }

    /// Wakes one waiter, if any may sleep: the one that has the turn reserved, if one has.
    pub(crate) fn ring(&self) {
        let word = self.word.load(SeqCst);
        if word % 2 == 1 {
            self.wake(word);
        }
    }

    fn wake(&self, word: u64) {
        if self.is_reserved() {
            self.wake_reserved();
        } else if self
            .word
            .compare_exchange(word, word.wrapping_add(1), SeqCst, SeqCst)
            .is_ok()
        {
            self.word.wake_one();
        }
    }

    fn wake_reserved(&self) {
        if self
            .reserved
            .compare_exchange(ASLEEP, WOKEN, SeqCst, SeqCst)
            .is_ok()
        {
            self.reserved.wake_one();
        }
    }
}
