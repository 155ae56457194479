//! The node that a key of a cache lies on.

ghost use Rattle.std.specs.Prelude.{◌≡◌, ◌<◌, ◌≤◌, Ok, max, find, slice_get, All, FitsSigned, option_copied, IfSome};
ghost use Rattle.std.specs.Int.{w32};
ghost use Rattle.std.specs.List.{list_any};
ghost use Rattle.std.specs.Ordering.{int_eq};
ghost use Rattle.ig_parts.specs.Owner.{affinity_field, place_of_id, field_of, hashed_value, routed_hash, IsPart, HaveParts, HasParts};
ghost use Rattle.ig_parts.specs.Owner.{count_from, part_count, lists_part, node_of_hash, is_of, routes, Owner};

use crate::key_hashes::key_hash;
use crate::map::{CacheKeys, Group, NodeParts, PartMap};
use crate::partitions::partition;
use ig_base::{NoMemory, NodeId};
use ig_value::{Object, Shape, Value};

/// The affinity field of a type, by the first pair with the type.
fn affinity_field(pairs: &[(i32, i32)], type_id: i32) -> Option<i32>
    ensures exact { result ≡ affinity_field pairs.now type_id }
    ensures fits { IfSome result (λ id. FitsSigned w32 id) }
{
    let pair = pairs.iter().find(|pair| pair.0 == type_id)?;
    Some(pair.1)
}

/// The place of the first such identifier.
#[tactic(auto, unfolding(crate::specs::Owner::place_of_id))]
fn place_of(ids: &[i32], id: i32) -> Option<usize>
    ensures { result ≡ place_of_id ids.now id }
{
    ids.iter().position(|named| *named == id)
}

/// The value at the place.
#[tactic(auto, using(crate::proofs::OwnerLemmas::places))]
fn value_at(values: &[Value], at: usize) -> Option<&Value>
    ensures { option_copied result ≡ slice_get values.now at }
{
    match values.get(at) {
        Some(value) => Some(value),
        None => None,
    }
}

/// The first field with the identifier, if the object names its fields.
#[tactic(auto, using(crate::proofs::OwnerLemmas::named_fields))]
fn field_of(object: &Object, id: i32) -> Option<&Value>
    ensures { option_copied result ≡ field_of object.now.shape object.now.fields id }
{
    match &object.shape {
        Shape::Named(ids) => {
            match place_of(ids.as_slice(), id) {
                Some(at) => value_at(object.fields.as_slice(), at),
                None => None,
            }
        }
        Shape::Compact(_) => None,
    }
}

/// The value that is hashed for a key: the key, or its affinity field.
#[tactic(auto, using(crate::proofs::KeyLemmas::hashed_rows))]
fn hashed_value<'a>(pairs: &[(i32, i32)], key: &'a Value) -> Option<&'a Value>
    ensures { option_copied result ≡ hashed_value pairs.now key.now }
{
    match key {
        Value::Object(object) => match affinity_field(pairs, object.get().type_id) {
            Some(id) => field_of(object.get(), id),
            None => Some(key),
        },
        _ => Some(key),
    }
}

/// The hash of that value.
pub(crate) fn routed_hash(pairs: &[(i32, i32)], key: &Value) -> Result<Option<i32>, NoMemory>
    ensures { result ≡ Ok (routed_hash pairs.now key.now) }
{
    match hashed_value(pairs, key) {
        Some(value) => key_hash(value),
        None => Ok(None),
    }
}

/// The number of partitions, where a node's partitions come after others, of which there are
/// `count`.
fn count_with(count: u32, parts: &[i32]) -> u32
    requires few { count ≤ 65536 }
    requires parts { All IsPart parts.now }
    ensures exact { result ≡ max count (count_from parts.now) }
    ensures few { result ≤ 65536 }
{
    let mut count = count;
    for part in parts {
        let end = part.unsigned_abs() + 1;
        if count < end {
            count = end;
        }
    }
    count
}

/// The number of partitions: one more than the greatest that a node lists.
pub(crate) fn part_count(nodes: &[NodeParts]) -> u32
    requires { HaveParts nodes.now }
    ensures exact { result ≡ part_count nodes.now }
    ensures few { result ≤ 65536 }
{
    let mut count = 0;
    for node in nodes {
        count = count_with(count, node.parts.as_slice());
    }
    count
}

/// Whether the node lists the partition.
fn lists_part(part: u32, node: &NodeParts) -> bool
    requires { part ≤ 65536 }
    ensures { result ≡ lists_part part node.now }
{
    let part = part.cast_signed();
    node.parts.as_slice().iter().any(|listed| *listed == part)
}

/// The first node that lists the partition.
fn listing_node(nodes: &[NodeParts], part: u32) -> Option<&NodeParts>
    requires { part ≤ 65536 }
    ensures { option_copied result ≡ find (lists_part part) nodes.now }
{
    nodes.iter().find(|node| lists_part(part, node))
}

/// The node that a hash lies on.
#[tactic(auto, using(crate::proofs::OwnerLemmas::nodes_by_hash))]
fn node_of_hash(nodes: &[NodeParts], hash: i32) -> Option<NodeId>
    requires { HaveParts nodes.now }
    ensures { result ≡ node_of_hash nodes.now hash }
{
    let count = part_count(nodes);
    if count == 0 {
        return None;
    }
    let part = partition(hash, count);
    match listing_node(nodes, part) {
        Some(owner) => Some(owner.node),
        None => None,
    }
}

/// The listing of a cache in a group, by its first mention.
pub(crate) fn listing_of(group: &Group, cache: i32) -> Option<&CacheKeys>
    ensures { option_copied result ≡ find (is_of cache) group.now.caches }
{
    group
        .caches
        .as_slice()
        .iter()
        .find(|keys| keys.cache == cache)
}

/// Whether the list has the cache.
fn lists(caches: &[CacheKeys], cache: i32) -> bool
    ensures { result ≡ list_any (is_of cache) caches.now }
{
    caches.iter().any(|keys| keys.cache == cache)
}

/// Whether the group says where keys of the cache lie.
#[tactic(auto, using(crate::proofs::OwnerLemmas::routes_applicable))]
pub(crate) fn routes(group: &Group, cache: i32) -> bool
    ensures { result ≡ routes cache group.now }
{
    group.applicable && lists(group.caches.as_slice(), cache)
}

/// The first group that does.
#[tactic(auto, using(crate::proofs::OwnerLemmas::find_keeps))]
fn group_of(groups: &[Group], cache: i32) -> Option<&Group>
    requires { All (λ g. HaveParts g.nodes) groups.now }
    ensures first { option_copied result ≡ find (routes cache) groups.now }
    ensures parts { IfSome result (λ g. HaveParts g.now.nodes) }
{
    groups.iter().find(|group| routes(group, cache))
}

/// The node that a key of a cache lies on, or `None` where the map doesn't say: where no applicable
/// group lists the cache, the key is of a kind that isn't routed, it is an object without the affinity
/// field of its type, or no node lists its partition.
///
/// The first applicable group that lists the cache counts, its first listing of the cache, the first
/// pair with the type of the key, and the first node that lists the partition. It takes no memory, so
/// it never refuses.
#[tactic(auto, unfolding(crate::specs::Owner::Owner))]
pub fn owner(map: &PartMap, cache: i32, key: &Value) -> Result<Option<NodeId>, NoMemory>
    requires { HasParts map.now }
    ensures { result ≡ Ok (Owner map.now cache key.now) }
{
    let Some(group) = group_of(map.groups.as_slice(), cache) else {
        return Ok(None);
    };
    let Some(listing) = listing_of(group, cache) else {
        return Ok(None);
    };
    let Some(hash) = routed_hash(listing.pairs.as_slice(), key)? else {
        return Ok(None);
    };
    Ok(node_of_hash(group.nodes.as_slice(), hash))
}
