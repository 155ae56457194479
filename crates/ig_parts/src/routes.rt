//! A partition map that was prepared for many questions.

ghost use Rattle.std.specs.Prelude.{◌≡◌, All, position, slice_get, option_copied, IfOk, IfErr};
ghost use Rattle.ig_parts.specs.Owner.{HaveParts, HasParts, routes, owner_in, Owner};
ghost use Rattle.ig_parts.specs.NodeTable.{node_table};
ghost use Rattle.ig_parts.specs.Routes.{tables_of};

use crate::map::{Group, PartMap};
use crate::owners::{listing_of, routed_hash, routes};
use crate::tables::{node_by_table, node_table};
use ig_base::{Items, NoMemory, NoRoom, NodeId};
use ig_value::Value;
use std::alloc::Global;
use std::marker::Model;

/// A partition map with the node of each partition beside each group, so that the owner of a key is
/// found without a walk over the nodes. Contracts see it as the map.
#[derive(Drop)]
pub struct Routes {
    map: PartMap,
    tables: Vec<Items<Option<NodeId>>>,
}

impl Model for Routes {
    ghost use Rattle.ig_parts.specs.declared.map.PartMap.{PartMap};
    ghost use Rattle.ig_parts.specs.Routes.{AreTablesOf};

    ghost Value = { PartMap };

    ghost view = { λ r. r.map };

    ghost invariant = { λ r. AreTablesOf r.map r.tables.items };
}

/// The table of each group.
fn tables_of(alloc: Global, groups: &[Group]) -> Result<Vec<Items<Option<NodeId>>>, NoMemory>
    requires { All (λ g. HaveParts g.nodes) groups.now }
    ensures { IfOk result (λ tables. tables.items ≡ tables_of groups.now) }
{
    let mut tables = Vec::new(alloc);
    for group in groups {
        tables.push(node_table(alloc, group.nodes.as_slice())?)?;
    }
    Ok(tables)
}

/// The place of the first group that says where keys of the cache lie.
fn group_place(groups: &[Group], cache: i32) -> Option<usize>
    ensures { result ≡ position (routes cache) groups.now }
{
    groups.iter().position(|group| routes(group, cache))
}

/// The node that a key of a cache lies on by a group with the table of its nodes.
#[tactic(auto, using(crate::proofs::TableLemmas::by_table))]
fn owner_in(
    group: &Group,
    table: &[Option<NodeId>],
    cache: i32,
    key: &Value,
) -> Result<Option<NodeId>, NoMemory>
    requires parts { HaveParts group.now.nodes }
    requires table { table.now ≡ node_table group.now.nodes }
    ensures { result ≡ Ok (owner_in group.now cache key.now) }
{
    let Some(listing) = listing_of(group, cache) else {
        return Ok(None);
    };
    let Some(hash) = routed_hash(listing.pairs.as_slice(), key)? else {
        return Ok(None);
    };
    Ok(node_by_table(table, hash))
}

impl Routes {
    /// Prepares a map.
    ///
    /// # Errors
    ///
    /// [`NoRoom`] with the map if memory runs out.
    pub fn new(alloc: Global, map: PartMap) -> Result<Routes, NoRoom<PartMap>>
        requires { HasParts map }
        ensures ok { IfOk result (λ made. made ≡ map) }
        ensures err { IfErr result (λ room. room.back ≡ map) }
    {
        match tables_of(alloc, map.groups.as_slice()) {
            Ok(tables) => Ok(Routes { map, tables }),
            Err(NoMemory) => Err(NoRoom { back: map }),
        }
    }

    /// The map. Takes no memory.
    pub fn map(&self) -> &PartMap
        ensures { result.now ≡ self.now }
    {
        &self.map
    }

    /// The node that a key of a cache lies on, as [`crate::owner`] has it. It takes no memory, so it
    /// never refuses.
    pub fn owner(&self, cache: i32, key: &Value) -> Result<Option<NodeId>, NoMemory>
        ensures { result ≡ Ok (Owner self.now cache key.now) }
    {
        let groups = self.map.groups.as_slice();
        let Some(at) = group_place(groups, cache) else {
            return Ok(None);
        };
        owner_in(&groups[at], self.tables[at].as_slice(), cache, key)
    }
}
