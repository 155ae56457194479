//! Partition maps.

use ig_base::{Items, NodeId, Topology};

/// A node, and the partitions that it owns.
#[derive(Debug, Drop)]
pub struct NodeParts {
    pub node: NodeId,
    /// The numbers of the partitions, from 0 to 65,535.
    pub parts: Items<i32>,
}

/// A cache, and which field of a key decides where the key lies.
#[derive(Debug, Drop)]
pub struct CacheKeys {
    /// The identifier of the cache.
    pub cache: i32,
    /// For types of keys: the type's identifier, and that of its affinity field.
    pub pairs: Items<(i32, i32)>,
}

/// Caches whose keys lie alike.
#[derive(Debug, Drop)]
pub struct Group {
    /// Whether the group says where keys lie. Else it lists caches alone, without pairs.
    pub applicable: bool,
    pub caches: Items<CacheKeys>,
    pub nodes: Items<NodeParts>,
}

/// Where the keys of caches lie.
#[derive(Debug, Drop)]
pub struct PartMap {
    /// The topology that the map is of.
    pub told: Topology,
    pub groups: Items<Group>,
}
