//! Caches whose rows are spread over shards by the hash of their keys. They answer as plain caches do.
//!
//! [`ShardRows`] is one shard by itself, [`touched`] says which shards a call needs, [`run_on`] runs a call
//! on these alone, and [`Shards`] has all shards of its caches.
#![tactic(auto)]

mod laws;
mod merge;
mod place;
mod run;
mod shard_rows;
mod shards;
mod spread_calls;
mod spread_rows;
mod start;
mod touch;
mod touching;
mod whole;

pub use place::shard_of;
pub use run::run_on;
pub use shard_rows::ShardRows;
pub use shards::Shards;
pub use touch::Touched;
pub use touching::touched;
