//! Lists of members no two of which have the same key.

ghost use Rattle.std.specs.Prelude.{◌≡◌, [], map, Ok};
ghost use Rattle.std.specs.List.{flat_map};
ghost use Rattle.std.specs.Ordering.{eq_by_cmp};
ghost use Rattle.ig_wire.specs.ReadAnswers.{ReadAnswers};
ghost use Rattle.ig_fields.specs.Format.{distinct};
ghost use Rattle.ig_fields.specs.ReadingFields.{mapped_of, each_new_of};
ghost use Rattle.ig_fields.specs.FieldBytes.{listed_bytes, both_bytes, key_bytes, fields_bytes};
ghost use Rattle.ig_fields.specs.Views.{listed_written};
ghost use Rattle.ig_meta.specs.KeyOrder.{with_entries};
ghost use Rattle.ig_meta.specs.MemberViews.{members_view, members_reading, members_as};

use crate::key::ListKey;
use crate::member::Member;
use ig_base::Items;
use ig_decode::StatedCount;
use ig_encode::{Output, ValueOutput, put_count};
use ig_fields::{FieldFormat, count_of};
use ig_wire::{ReadError, Stop};
use std::alloc::Global;
use std::collections::BTreeMap;
use std::marker::PhantomData;

/// The format of an Int32 count and as many members, no two of which have the same key. It is read in
/// any order, and what is read is in the order of the keys.
pub(crate) struct Distinct<M> {
    member: PhantomData<M>,
}

impl<M: Member> FieldFormat for Distinct<M> {
    type Item = Items<M>;

    ghost format = { distinct M.kind M.format };

    ghost view = { members_view M.Key.cmp M.key_view M.rest_view M.made };

    ghost fields = { map M.parts };

    ghost reads = { members_reading M.Key.cmp M.Key.reads M.Rest.reads M.made };

    ghost bytes = { listed_bytes M.bytes };

    fn read(alloc: Global, input: &[u8]) -> Result<(Items<M>, &[u8]), ReadError> {
        let (count, rest) = count_of(input)?;
        let (entries, rest) = entries_of::<M>(alloc, count, rest)?;
        Ok((members_of::<M>(alloc, entries)?, rest))
    }

    fn put<S: ValueOutput>(item: &Items<M>, out: &mut S, into: &mut [u8]) {
        let members = item.as_slice();
        put_count(members.len(), out, into);
        put_members(members, out, into);
    }

    ghost reads_as_format = { members_as M.Key.cmp M.kind M.format M.key_view M.rest_view M.made M.Key.reads M.Rest.reads M.reads_as_key M.same_as_key M.reads_as_rest };

    ghost writes_as_format = { listed_written M.parts M.bytes (both_bytes (key_bytes M.kind) (fields_bytes M.format)) M.writes_as_parts };
}

/// Keys with what follows each.
type Entries<M> = BTreeMap<<M as Member>::Key, <<M as Member>::Rest as FieldFormat>::Item>;

/// As many keys as the count says, with what follows each, and the bytes after them. A key that is
/// repeated is refused where it begins.
fn entries_of<M: Member>(
    alloc: Global,
    count: StatedCount,
    bytes: &[u8],
) -> Result<(Entries<M>, &[u8]), ReadError>
    ensures { ReadAnswers (λ x. (x.0.entries, x.1.now)) result
        (mapped_of (with_entries M.Key.cmp []) (each_new_of (eq_by_cmp M.Key.cmp) M.Key.reads M.Rest.reads [] count.items bytes.now)) }
{
    let mut entries = BTreeMap::new(alloc);
    let (mut left, mut rest) = (count, bytes);
    'each: while left.take_one() {
        let (key, after) = M::Key::read(alloc, rest)?;
        if entries.contains_key(&key) {
            return Err(ReadError::Stopped(Stop { left: rest.len() }));
        }
        let (item, after) = M::Rest::read(alloc, after)?;
        entries.insert(key, item)?;
        rest = after;
    }
    Ok((entries, rest))
}

/// The members of these keys, in order.
fn members_of<M: Member>(alloc: Global, entries: Entries<M>) -> Result<Items<M>, ReadError>
    ensures { ReadAnswers (λ x. x) result (Ok (map M.made entries.entries)) }
{
    let mut members = Vec::with_capacity(alloc, entries.len())?;
    'each: for (key, rest) in entries {
        members.push(M::make(key, rest))?;
    }
    Ok(Items::new(members))
}

/// Puts the members, in order.
fn put_members<M: Member, S: ValueOutput>(members: &[M], out: &mut S, into: &mut [u8])
    ensures { (out.new, into.new)
        ≡ S.Output.after out.old into.old (flat_map M.bytes members.now) }
{
    for member in members {
        if out.is_full(into) {
            return;
        }
        member.put(out, into);
    }
}
