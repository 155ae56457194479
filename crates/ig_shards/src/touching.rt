//! Which shards a call touches.

ghost use Rattle.std.specs.Prelude.{◌≡◌, ◌<◌, IfOk, IsOk};
ghost use Rattle.ig_caches.specs.IsRunnable.{IsRunnable};
ghost use Rattle.ig_shards.specs.Touches.{touches, IsWithin};

use crate::place::shard_of_key;
use crate::touch::Touched;
use ig_base::NoMemory;
use ig_caches::Call;

/// The shards that the call touches, of as many: the shard of its key, or the first for a call on types, or
/// all. Takes no memory, so it never fails.
pub fn touched(call: &Call, shards: u32) -> Result<Touched, NoMemory>
    requires some { 0 < shards }
    ensures touched { IfOk result (λ touched. touched ≡ touches call.now shards) }
    ensures within { IfOk result (λ touched. IsWithin touched shards) }
    ensures never_fails { IsOk result }
{
    Ok(touched_by(call, shards))
}

/// The same.
pub(crate) fn touched_by(call: &Call, shards: u32) -> Touched
    requires { 0 < shards }
    ensures touched { result ≡ touches call.now shards }
    ensures within { IsWithin result shards }
{
    match call {
        Call::Get { key, .. } => Touched::One(shard_of_key(key, shards)),
        Call::GetAndRemove { key, .. } => Touched::One(shard_of_key(key, shards)),
        Call::ContainsKey { key, .. } => Touched::One(shard_of_key(key, shards)),
        Call::ClearKey { key, .. } => Touched::One(shard_of_key(key, shards)),
        Call::RemoveKey { key, .. } => Touched::One(shard_of_key(key, shards)),
        Call::Put { key, .. } => Touched::One(shard_of_key(key, shards)),
        Call::PutIfAbsent { key, .. } => Touched::One(shard_of_key(key, shards)),
        Call::GetAndPut { key, .. } => Touched::One(shard_of_key(key, shards)),
        Call::GetAndReplace { key, .. } => Touched::One(shard_of_key(key, shards)),
        Call::GetAndPutIfAbsent { key, .. } => Touched::One(shard_of_key(key, shards)),
        Call::Replace { key, .. } => Touched::One(shard_of_key(key, shards)),
        Call::ReplaceIfEquals { key, .. } => Touched::One(shard_of_key(key, shards)),
        Call::RemoveIfEquals { key, .. } => Touched::One(shard_of_key(key, shards)),
        Call::TypeName { .. } => Touched::One(0),
        Call::SetTypeName { .. } => Touched::One(0),
        Call::TypeOf { .. } => Touched::One(0),
        Call::PutType { .. } => Touched::One(0),
        Call::Affinity { .. } => Touched::One(0),
        _ => Touched::All,
    }
}
