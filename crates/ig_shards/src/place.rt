//! The shard of a key.

ghost use Rattle.std.specs.Prelude.{◌≡◌, ◌<◌};
ghost use Rattle.ig_base.specs.Hashes.{BytesHash};
ghost use Rattle.ig_value.specs.Canon.{Canon};
ghost use Rattle.ig_shards.specs.ShardOf.{shard_of, shard_of_key};

use ig_base::bytes_hash;
use ig_encode::{Measure, ValueOutput};
use ig_value::Value;

/// The shard of the key with this canonical encoding: the hash of these bytes, an unsigned number, modulo
/// the number of shards. Takes no memory.
pub fn shard_of(spelling: &[u8], shards: u32) -> u32
    requires { 0 < shards }
    ensures of { result ≡ shard_of shards spelling.now }
    ensures within { result < shards }
{
    bytes_hash(spelling).cast_unsigned() % shards
}

/// The hash of the key's canonical encoding. Takes no memory.
fn key_hash(key: &Value) -> u32
    ensures { result ≡ BytesHash (Canon key.now) }
{
    let mut measure = Measure::hashing();
    measure.put_value(&mut [], key);
    match measure.digest {
        Some(digest) => digest.pow.wrapping_add(digest.sum),
        None => 0,
    }
}

/// The shard of the key. Takes no memory.
pub(crate) fn shard_of_key(key: &Value, shards: u32) -> u32
    requires { 0 < shards }
    ensures of { result ≡ shard_of_key shards key.now }
    ensures within { result < shards }
{
    key_hash(key) % shards
}
