//! One call in a history.

/// A call that a seat made: what was asked, and what was got. Histories are lists of these. They
/// stand in proofs alone: the types are the plain data that contracts see, of which no value is made.
pub struct Entry<A, G> {
    /// The number of the seat that made the call.
    pub seat: u64,
    /// What was asked.
    pub ask: A,
    /// What was got.
    pub got: G,
}
