//! Calls that are out.

use ig_base::Items;

/// What is remembered of a request whose call is out: all that its reply depends on, besides the
/// answer.
#[derive(Debug, Drop)]
pub enum Awaits {
    /// A call of which nothing is remembered.
    Answer,
    /// A call for the partition maps of these caches.
    Maps(Items<i32>),
    /// A scan by pages of this many rows.
    Scan { cache: i32, page: i32 },
}

/// A call that is out.
#[derive(Debug, Drop)]
pub struct Awaited {
    /// How many calls were handed out before it.
    pub nth: u64,
    /// The identifier of its request.
    pub id: i64,
    pub awaits: Awaits,
}
