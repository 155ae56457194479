//! What a caller that waits for the turn keeps between two looks.
use crate::backoff::Backoff;

#[derive(Drop)]
pub(crate) struct Waiter {
    pub(crate) backoff: Backoff,
    /// It has slept, so others may sleep too.
    pub(crate) has_slept: bool,
    /// The next turn is its own: the others wait until it has had it.
    pub(crate) has_reservation: bool,
}

impl Waiter {
    pub(crate) fn new() -> Waiter {
        Waiter {
            backoff: Backoff::new(),
            has_slept: false,
            has_reservation: false,
        }
    }
}
