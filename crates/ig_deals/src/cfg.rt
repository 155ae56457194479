//! The configuration of a session.

/// Which of how many nodes serves a session, and how many partitions a cache has.
#[derive(Clone, Copy, Debug, PartialEq, Eq)]
pub struct SessionCfg {
    /// The number of the serving node, below `nodes`.
    pub node: u32,
    /// How many nodes there are, at most 256.
    pub nodes: u32,
    /// How many partitions a cache has, 1 to 65,000.
    pub parts: u32,
}
