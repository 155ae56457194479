//! The partition map that a server of several nodes answers.

ghost use Rattle.std.specs.Prelude.{◌≡◌, ◌<◌, ◌≤◌, IfOk};
ghost use Rattle.ig_parts.specs.Owner.{HasParts};
ghost use Rattle.ig_parts.specs.ServedMap.{parts_on, served_nodes, first_mentions, served_caches, served_groups, served_map};

use crate::map::{CacheKeys, Group, NodeParts, PartMap};
use ig_base::{Items, NoMemory, NodeId, Topology};
use std::alloc::Global;
use std::collections::BTreeSet;

/// The partitions that lie on the node with this number, ascending.
fn parts_on(alloc: Global, nodes: u32, parts: u32, number: u32) -> Result<Items<i32>, NoMemory>
    requires node { number < nodes }
    requires few { nodes ≤ 65536 }
    requires parts { parts ≤ 65536 }
    ensures { IfOk result (λ made. made ≡ parts_on nodes parts number) }
{
    let mut made = Vec::with_capacity(alloc, (parts / nodes) as usize + 1)?;
    let mut part = number;
    while part < parts {
        made.push(part.cast_signed())?;
        part += nodes;
    }
    Ok(Items::new(made))
}

/// All nodes, in order, with their partitions.
fn served_nodes(alloc: Global, nodes: u32, parts: u32) -> Result<Items<NodeParts>, NoMemory>
    requires few { nodes ≤ 65536 }
    requires parts { parts ≤ 65536 }
    ensures { IfOk result (λ made. made ≡ served_nodes nodes parts) }
{
    let mut made = Vec::with_capacity(alloc, nodes as usize)?;
    for number in 0..nodes {
        let node = NodeId {
            most: 0,
            least: u64::from(number) + 1,
        };
        let parts = parts_on(alloc, nodes, parts, number)?;
        made.push(NodeParts { node, parts })?;
    }
    Ok(Items::new(made))
}

/// Each number once, in the order of its first mention.
fn first_mentions(alloc: Global, numbers: &[i32]) -> Result<Vec<i32>, NoMemory>
    ensures { IfOk result (λ made. made.items ≡ first_mentions numbers.now) }
{
    let mut made = Vec::new(alloc);
    let mut seen = BTreeSet::new(alloc);
    for number in numbers {
        if seen.insert(*number)? {
            made.push(*number)?;
        }
    }
    Ok(made)
}

/// The listing of each cache, all with the same pairs.
fn served_caches(
    alloc: Global,
    caches: &[i32],
    pairs: &[(i32, i32)],
) -> Result<Items<CacheKeys>, NoMemory>
    ensures { IfOk result (λ made. made ≡ served_caches caches.now pairs.now) }
{
    let mentioned = first_mentions(alloc, caches)?;
    let mut made = Vec::with_capacity(alloc, mentioned.len())?;
    for cache in &mentioned {
        let pairs = Items::new(Vec::from_slice(alloc, pairs)?);
        made.push(CacheKeys {
            cache: *cache,
            pairs,
        })?;
    }
    Ok(Items::new(made))
}

/// One applicable group, or none where no cache was asked for.
fn served_groups(
    alloc: Global,
    nodes: u32,
    parts: u32,
    caches: &[i32],
    pairs: &[(i32, i32)],
) -> Result<Items<Group>, NoMemory>
    requires few { nodes ≤ 65536 }
    requires parts { parts ≤ 65536 }
    ensures { IfOk result (λ made. made ≡ served_groups nodes parts caches.now pairs.now) }
{
    let mut made = Vec::new(alloc);
    if !caches.is_empty() {
        let caches = served_caches(alloc, caches, pairs)?;
        let nodes = served_nodes(alloc, nodes, parts)?;
        made.push(Group {
            applicable: true,
            caches,
            nodes,
        })?;
    }
    Ok(Items::new(made))
}

/// The map that a server of `nodes` nodes and `parts` partitions answers to one who asks for these
/// caches. `pairs` has the affinity field of types, which hold for every cache.
///
/// It has one applicable group, or none where no cache was asked for. The group lists each cache once,
/// in the order of first mention, and every node in order, of which number k, from 0 on, has the
/// identifier (0, k + 1). Partition p lies on node p mod `nodes`.
#[tactic(auto, unfolding(crate::specs::ServedMap::served_map))]
pub fn served_map(
    alloc: Global,
    told: Topology,
    nodes: u32,
    parts: u32,
    caches: &[i32],
    pairs: &[(i32, i32)],
) -> Result<PartMap, NoMemory>
    requires few { nodes ≤ 65536 }
    requires parts { parts ≤ 65536 }
    ensures exact { IfOk result (λ map. map ≡ served_map told nodes parts caches.now pairs.now) }
    ensures parts { IfOk result HasParts }
{
    let groups = served_groups(alloc, nodes, parts, caches, pairs)?;
    Ok(PartMap { told, groups })
}
