//! The identifier of a node, and the version of the topology.

/// The identifier of a node: a UUID, as two halves of 64 bits.
#[derive(Clone, Copy, Debug, PartialEq, Eq)]
pub struct NodeId {
    /// The most significant 64 bits.
    pub most: u64,
    /// The least significant 64 bits.
    pub least: u64,
}

/// The version of the topology that a node or a reply speaks of.
#[derive(Clone, Copy, Debug, PartialEq, Eq)]
pub struct Topology {
    /// The version.
    pub version: i64,
    /// The minor version, which counts the caches created and destroyed.
    pub minor: i32,
}
