//! Shards that start with a list of names.

ghost use Rattle.std.specs.Prelude.{◌≡◌, ◌<◌, ◌≤◌, IfOk, OnOk, IfErr};
ghost use Rattle.ig_caches.specs.PlainCaches.{fresh_caches};
ghost use Rattle.ig_caches.specs.Starts.{CanStart, IsStartFault};
ghost use Rattle.ig_shards.specs.PartView.{part_of};

use crate::shard_rows::ShardRows;
use ig_base::{Items, NoMemory, Text};
use ig_caches::{Caches, StartFault, copy_text};
use std::alloc::Global;

/// Copies of the names, in order.
fn copy_names(alloc: Global, names: &[Text]) -> Result<Vec<Text>, NoMemory>
    ensures { IfOk result (λ copies. copies.items ≡ names.now) }
{
    let mut copies = Vec::with_capacity(alloc, names.len())?;
    for name in names {
        copies.push(copy_text(alloc, name)?)?;
    }
    Ok(copies)
}

impl ShardRows {
    /// The shard of this number, of as many, with caches of these names, in this order, without rows or
    /// types.
    ///
    /// # Errors
    ///
    /// As those of `Caches::start`, in the same order.
    pub fn start(
        alloc: Global,
        names: &Items<Text>,
        shard: u32,
        shards: u32,
    ) -> Result<ShardRows, StartFault>
        requires within { shard < shards }
        requires few { shards ≤ 256 }
        ensures starts { OnOk result (CanStart names.now) }
        ensures fresh { IfOk result (λ made.
            part_of made ≡ record { number = shard; shards = shards; caches = fresh_caches names.now }) }
        ensures fault { IfErr result (λ fault. IsStartFault names.now fault) }
    {
        let Ok(names) = copy_names(alloc, names.as_slice()) else {
            return Err(StartFault::NoMemory);
        };
        match Caches::start(alloc, names) {
            Ok(caches) => Ok(ShardRows {
                number: shard,
                shards,
                caches,
            }),
            Err(fault) => Err(fault),
        }
    }
}
