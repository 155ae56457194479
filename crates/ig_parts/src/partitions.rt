//! The partition that a hash falls into.

ghost use Rattle.std.specs.Prelude.{◌≡◌, ◌<◌, ◌≤◌};
ghost use Rattle.ig_parts.specs.Partition.{partition_of};

/// The partition of a hash, where there are this many partitions. Takes no memory.
///
/// Where the number is a power of two it is `(hash ^ (hash >>> 16)) & (parts - 1)`, with a shift that
/// fills with zeros; else the absolute value of the remainder of the hash, truncated towards zero.
#[tactic(auto, unfolding(crate::specs::Partition::partition_of))]
pub fn partition(hash: i32, parts: u32) -> u32
    requires some { 0 < parts }
    requires few { parts ≤ 65536 }
    ensures exact { result ≡ partition_of hash parts }
    ensures below { result < parts }
{
    if parts.is_power_of_two() {
        let bits = hash.cast_unsigned();
        (bits ^ (bits >> 16)) & (parts - 1)
    } else {
        (hash % parts.cast_signed()).unsigned_abs()
    }
}
