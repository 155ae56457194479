//! The node of each partition, by number.

ghost use Rattle.std.specs.Prelude.{◌≡◌, ◌<◌, ◌≤◌, ℕ, All, length, slice_get, IfOk, Option, None};
ghost use Rattle.std.proofs.Common.{get_or};
ghost use Rattle.ig_base.specs.declared.NodeId.{NodeId};
ghost use Rattle.ig_parts.specs.Owner.{IsPart, HaveParts, count_from, part_count, lists_part};
ghost use Rattle.ig_parts.specs.NodeTable.{node_table, owner_beside, node_by_table};

use crate::map::NodeParts;
use crate::owners::part_count;
use crate::partitions::partition;
use ig_base::{Items, NoMemory, NodeId};
use std::alloc::Global;

/// Makes the node the owner of each partition that it lists and that has no owner yet.
fn add_owner(table: &mut [Option<NodeId>], node: &NodeParts)
    requires within { count_from node.now.parts ≤ length table.old }
    requires parts { All IsPart node.now.parts }
    ensures { (k : ℕ) (d : Option NodeId) → k < length table.old → get_or table.new k d
        ≡ owner_beside (get_or table.old k d) (lists_part k node.now) node.now.node }
{
    for part in node.parts.as_slice() {
        let at = part.unsigned_abs() as usize;
        if table[at].is_none() {
            table[at] = Some(node.node);
        }
    }
}

/// Makes the first of the nodes that lists it the owner of each partition.
fn add_owners(table: &mut [Option<NodeId>], nodes: &[NodeParts])
    requires size { length table.old ≡ part_count nodes.now }
    requires empty { (k : ℕ) (d : Option NodeId) → k < length table.old → get_or table.old k d ≡ None }
    requires parts { HaveParts nodes.now }
    ensures { table.new ≡ node_table nodes.now }
{
    for node in nodes {
        add_owner(table, node);
    }
}

/// For each partition the first node that lists it.
pub(crate) fn node_table(
    alloc: Global,
    nodes: &[NodeParts],
) -> Result<Items<Option<NodeId>>, NoMemory>
    requires { HaveParts nodes.now }
    ensures { IfOk result (λ table. table ≡ node_table nodes.now) }
{
    let mut table = Vec::new(alloc);
    table.resize(part_count(nodes) as usize, None)?;
    add_owners(table.as_mut_slice(), nodes);
    Ok(Items::new(table))
}

/// The node of a hash by such a table.
#[tactic(auto, unfolding(crate::specs::NodeTable::node_by_table))]
pub(crate) fn node_by_table(table: &[Option<NodeId>], hash: i32) -> Option<NodeId>
    requires { length table.now ≤ 65536 }
    ensures { result ≡ node_by_table table.now hash }
{
    if table.is_empty() {
        return None;
    }
    table[partition(hash, table.len() as u32) as usize]
}
