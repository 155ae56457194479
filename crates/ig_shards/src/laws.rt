//! Laws of shards, over the definitions alone. The call here does nothing: its contract is the laws.

ghost use Rattle.ig_shards.specs.Laws.{NeedsItsShardAlone, LegalAtEachShard};

/// A call that touches one shard needs this shard alone. Of a legal history each shard sees a legal one.
pub fn shards_are_apart()
    ensures alone { NeedsItsShardAlone }
    ensures legal { LegalAtEachShard }
{}
