//! Partition maps as the fields of a result.

ghost use Rattle.std.specs.Prelude.{◌≡◌, refl};
ghost use Rattle.ig_value.specs.Part.{i32};
ghost use Rattle.ig_fields.specs.Format.{scalar};
ghost use Rattle.ig_parts.specs.PartsMessages.{listing, node_parts, group, parts_result, listing_of, lone_cache, node_parts_of, group_of, map_of, listing_fields, cache_of, node_fields, group_fields, map_fields, map_bytes};
ghost use Rattle.ig_parts.specs.MessageViews.{lone_reading, listing_reading, node_reading, group_reading, map_reading, lone_bytes, listing_bytes, node_parts_bytes, group_bytes, put_bytes, group_from, group_as, group_written, map_as, map_written};

use crate::map::{CacheKeys, Group, NodeParts, PartMap};
use ig_base::{Items, NodeId, Topology};
use ig_encode::{Output, ValueOutput, put_byte, put_i32, put_i64};
use ig_fields::{Either, FieldFormat, Message, Within, put_items};
use ig_wire::ReadError;
use std::alloc::Global;

/// The byte of a group that isn't applicable.
const NOT_APPLICABLE: u8 = 0;

/// The byte of an applicable group.
const APPLICABLE: u8 = 1;

/// The number of a partition: an Int32 from 0 to 65,535.
type PartNumber = Within<65535>;

/// A node, the data object of code 10, and a list of the numbers of partitions.
impl FieldFormat for NodeParts {
    type Item = NodeParts;

    ghost format = { node_parts };

    ghost view = { node_parts_of };

    ghost fields = { node_fields };

    ghost reads = { node_reading };

    ghost bytes = { node_parts_bytes };

    fn read(alloc: Global, input: &[u8]) -> Result<(NodeParts, &[u8]), ReadError> {
        let ((node, parts), rest) = <(NodeId, Items<PartNumber>) as FieldFormat>::read(
            alloc, input,
        )?;
        Ok((NodeParts { node, parts }, rest))
    }

    fn put<S: ValueOutput>(item: &NodeParts, out: &mut S, into: &mut [u8]) {
        <NodeId as FieldFormat>::put(&item.node, out, into);
        put_items::<PartNumber, S>(item.parts.as_slice(), out, into);
    }

    ghost reads_as_format = { λ _. refl };

    ghost writes_as_format = { λ _. refl };
}

/// An Int32, and a list of pairs of Int32.
impl FieldFormat for CacheKeys {
    type Item = CacheKeys;

    ghost format = { listing };

    ghost view = { listing_of };

    ghost fields = { listing_fields };

    ghost reads = { listing_reading };

    ghost bytes = { listing_bytes };

    fn read(alloc: Global, input: &[u8]) -> Result<(CacheKeys, &[u8]), ReadError> {
        let ((cache, pairs), rest) = <(i32, Items<(i32, i32)>) as FieldFormat>::read(alloc, input)?;
        Ok((CacheKeys { cache, pairs }, rest))
    }

    fn put<S: ValueOutput>(item: &CacheKeys, out: &mut S, into: &mut [u8]) {
        put_i32(item.cache, out, into);
        put_items::<(i32, i32), S>(item.pairs.as_slice(), out, into);
    }

    ghost reads_as_format = { λ _. refl };

    ghost writes_as_format = { λ _. refl };
}

/// A cache of a group that isn't applicable: an Int32.
struct LoneCache;

impl FieldFormat for LoneCache {
    type Item = CacheKeys;

    ghost format = { scalar i32 };

    ghost view = { lone_cache };

    ghost fields = { cache_of };

    ghost reads = { lone_reading };

    ghost bytes = { lone_bytes };

    fn read(alloc: Global, input: &[u8]) -> Result<(CacheKeys, &[u8]), ReadError> {
        let (cache, rest) = <i32 as FieldFormat>::read(alloc, input)?;
        let pairs = Items::new(Vec::new(alloc));
        Ok((CacheKeys { cache, pairs }, rest))
    }

    fn put<S: ValueOutput>(item: &CacheKeys, out: &mut S, into: &mut [u8]) {
        put_i32(item.cache, out, into);
    }

    ghost reads_as_format = { λ _. refl };

    ghost writes_as_format = { λ _. refl };
}

/// What a group lists: caches alone, or caches with their pairs, and nodes.
type Lists = Either<Items<CacheKeys>, (Items<CacheKeys>, Items<NodeParts>)>;

/// The format of what a group lists.
type ListsFormat = Either<Items<LoneCache>, (Items<CacheKeys>, Items<NodeParts>)>;

/// The group that lists these.
fn group_from(alloc: Global, lists: Lists) -> Group
    ensures { result ≡ group_from lists }
{
    match lists {
        Either::First(caches) => Group {
            applicable: false,
            caches,
            nodes: Items::new(Vec::new(alloc)),
        },
        Either::Second((caches, nodes)) => Group {
            applicable: true,
            caches,
            nodes,
        },
    }
}

/// Byte 0 and caches, or byte 1, caches with their pairs, and nodes.
impl FieldFormat for Group {
    type Item = Group;

    ghost format = { group };

    ghost view = { group_of };

    ghost fields = { group_fields };

    ghost reads = { group_reading };

    ghost bytes = { group_bytes };

    fn read(alloc: Global, input: &[u8]) -> Result<(Group, &[u8]), ReadError> {
        let (lists, rest) = <ListsFormat as FieldFormat>::read(alloc, input)?;
        Ok((group_from(alloc, lists), rest))
    }

    fn put<S: ValueOutput>(item: &Group, out: &mut S, into: &mut [u8]) {
        if item.applicable {
            put_byte(APPLICABLE, out, into);
            put_items::<CacheKeys, S>(item.caches.as_slice(), out, into);
            put_items::<NodeParts, S>(item.nodes.as_slice(), out, into);
        } else {
            put_byte(NOT_APPLICABLE, out, into);
            put_items::<LoneCache, S>(item.caches.as_slice(), out, into);
        }
    }

    ghost reads_as_format = { group_as };

    ghost writes_as_format = { group_written };
}

/// An Int64, an Int32, and groups.
impl FieldFormat for PartMap {
    type Item = PartMap;

    ghost format = { parts_result };

    ghost view = { map_of };

    ghost fields = { map_fields };

    ghost reads = { map_reading };

    ghost bytes = { put_bytes };

    fn read(alloc: Global, input: &[u8]) -> Result<(PartMap, &[u8]), ReadError> {
        let (((version, minor), groups), rest) = <((i64, i32), Items<Group>) as FieldFormat>::read(
            alloc, input,
        )?;
        let told = Topology { version, minor };
        Ok((PartMap { told, groups }, rest))
    }

    fn put<S: ValueOutput>(item: &PartMap, out: &mut S, into: &mut [u8]) {
        put_i64(item.told.version, out, into);
        put_i32(item.told.minor, out, into);
        put_items::<Group, S>(item.groups.as_slice(), out, into);
    }

    ghost reads_as_format = { map_as };

    ghost writes_as_format = { map_written };
}

/// The result of message 1101. What is put before it, as the head of a reply, is the caller's.
impl Message for PartMap {
    ghost bytes = { map_bytes };

    fn put<S: ValueOutput>(&self, out: &mut S, into: &mut [u8]) {
        <PartMap as FieldFormat>::put(self, out, into);
    }
}
