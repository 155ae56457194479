//! One shard by itself.

use ig_caches::Caches;

/// The caches of one shard: those rows alone that lie in it, the names of all caches, and how often caches
/// were created and destroyed. The first shard has the types, too. A cache is found by its identifier at
/// once, however many stand.
#[derive(Drop)]
pub struct ShardRows {
    pub(crate) number: u32,
    pub(crate) shards: u32,
    pub(crate) caches: Caches,
}
