//! The shards that a call touches.

/// The shards that a call touches.
#[derive(Clone, Copy, Debug, PartialEq, Eq)]
pub enum Touched {
    /// The shard with this number.
    One(u32),
    /// All shards.
    All,
}
