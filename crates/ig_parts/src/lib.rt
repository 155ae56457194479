//! Partition maps: which node a key of a cache lies on.
//!
//! A server tells its clients where keys lie by a map ([`PartMap`]): groups that list caches, and
//! nodes with the partitions that they own. The owner of a key is found in three steps: the hash of
//! the key ([`key_hash`]), its partition ([`partition`]), and the first node that lists the
//! partition ([`owner`]). Of two maps the newer one counts ([`newest`]).
//!
//! ```text
//! two nodes, 1,024 partitions, partition p on node p mod 2
//! int 5     hash 5     partition 5     node 1
//! long -1   hash 0     partition 0     node 0
//! "a"       hash 97    partition 97    node 1
//! ```
//!
//! A server makes its map by [`served_map`]. A client that asks often prepares a map once
//! ([`Routes`]): then a question takes no walk over the nodes.
//!
//! Message 1101 asks for the maps of caches ([`write_parts_ask`], [`read_parts_ask`]) and answers
//! with one ([`write_parts`], [`read_parts`]). A map is an [`ig_fields::Message`], so its length
//! and any part of its bytes are known without the whole.
#![tactic(auto)]

mod key_hashes;
mod laws;
mod map;
mod map_fields;
mod message_laws;
mod messages;
mod offers;
mod owners;
mod partitions;
mod routes;
mod served;
mod tables;

pub use key_hashes::key_hash;
pub use laws::{newest_grows, one_owner};
pub use map::{CacheKeys, Group, NodeParts, PartMap};
pub use message_laws::{part_maps_agree, parts_asks_agree};
pub use messages::{read_parts, read_parts_ask, write_parts, write_parts_ask};
pub use offers::newest;
pub use owners::owner;
pub use partitions::partition;
pub use routes::Routes;
pub use served::served_map;
