//! Laws of partition maps. These functions do nothing; their contracts say what holds of every map.

ghost use Rattle.ig_parts.specs.Laws.{KeysHaveOwners, PartsHaveOneNode, NewestGrows, NewerThanAll};

/// In the map that a server answers for a cache, each key that has a hash has exactly one owner.
pub fn one_owner()
    ensures owner { KeysHaveOwners }
    ensures only { PartsHaveOneNode }
{}

/// The newest of several maps is found one map at a time: by taking the newer of the newest so far and
/// the next one.
pub fn newest_grows()
    ensures grows { NewestGrows }
    ensures newer { NewerThanAll }
{}
