//! A lock around one object, whose callers can prove what they did to it: for every interleaving
//! there is one history of all calls, and it is one that the object may have.
//!
//! Calls are linearizable: each takes effect at one atomic step, its commit, between its start and its
//! return. Contracts show the order as far as seats can tell: a call stands in the history after all
//! that its seat had seen before.
//!
//! A [`Turn`] owns the object, which is [`Plain`]: it is asked, and answers with a got, or hands the
//! ask back where it is out of memory. Each caller has a [`TurnSeat`], a token whose number no other
//! seat of the turn has. [`Turn::run`] takes the lock, asks the object and adds the call to the
//! history; [`Turn::split`] makes another seat, [`Turn::join`] takes one in, and [`Turn::meet`] tells
//! one seat what another has seen.
//!
//! ```text
//! let (turn, mut seat) = Turn::new(alloc, object)?;
//! let mut other = turn.split(&rt, &mut seat);      // for another thread
//! let got = turn.run(&rt, &mut other, ask)?;       // other.seen ends with this call
//! turn.join(&mut seat, other);                     // seat has seen it too
//! ```
//!
//! A contract sees a seat as what it knows: `seen`, a prefix of the history; `own`, its own calls in
//! it; `ended`, the calls of the seats that were joined into it; and `born`, the numbers of the seats
//! that were split off it or off those. The history is in proofs alone: no call writes it down, so a
//! call costs the same however long it is.
//!
//! Nothing is promised of progress: not that a waiter gets the turn, nor which of two waiters gets it
//! first. The object can't be taken out again; it is dropped with the turn.
#![tactic(auto)]

mod backoff;
mod bell;
mod desk;
mod plain;
mod rule;
mod seat;
#[cfg(test)]
mod tests;
mod turn;
mod view;
mod waiter;

pub use ig_base::Entry;
pub use plain::Plain;
pub use seat::TurnSeat;
pub use turn::Turn;
pub use view::{Ended, Stage, View};
