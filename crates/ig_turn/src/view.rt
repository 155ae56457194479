//! What a seat knows. It exists in proofs alone: no value of these types is made when the program runs.
use ig_base::Entry;
use std::collections::LinkedList;

/// The calls of a seat that was joined into another.
pub struct Ended<A, G> {
    pub number: u64,
    pub own: LinkedList<Entry<A, G>>,
}

/// Where a seat is in a call.
pub enum Stage<A, G> {
    /// In none.
    Idle,
    /// It has a ticket.
    Waiting {
        ticket: u64,
    },
    /// Its ticket is served, and it has the object. The object had this history when the seat took it, and the seat's
    /// commits since then are its last entries.
    Holding {
        ticket: u64,
        history: LinkedList<Entry<A, G>>,
        commits: u64,
    },
}

/// What a seat knows. `Plain`'s types stand for X (start), A (ask) and G (got).
pub struct View<X, A, G> {
    /// What the object was when its history began.
    pub start: X,
    pub stage: Stage<A, G>,
    /// The number that it has drawn for a new seat and not yet given to one, if there is one.
    pub drawn: LinkedList<u64>,
    /// False for a seat that was joined into another, and for a note from one seat to another.
    pub live: bool,
    pub number: u64,
    /// A prefix of the history.
    pub seen: LinkedList<Entry<A, G>>,
    /// Another prefix of it, between a join and the load that follows.
    pub met: LinkedList<Entry<A, G>>,
    /// The seat's own entries, in order.
    pub own: LinkedList<Entry<A, G>>,
    /// The seats that were joined into it.
    pub ended: LinkedList<Ended<A, G>>,
    /// The numbers of the seats that were split off it, or off one that was joined into it.
    pub born: LinkedList<u64>,
}
