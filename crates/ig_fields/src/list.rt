//! Counted lists of fields.

ghost use Rattle.std.specs.Prelude.{◌≡◌, map};
ghost use Rattle.std.specs.List.{flat_map};
ghost use Rattle.ig_wire.specs.FieldAnswers.{FieldAnswers};
ghost use Rattle.ig_wire.specs.ReadAnswers.{ReadAnswers};
ghost use Rattle.ig_fields.specs.Format.{listed};
ghost use Rattle.ig_fields.specs.ReadingFields.{each_of, listed_of, count_field, fields_of};
ghost use Rattle.ig_fields.specs.FieldBytes.{listed_bytes, fields_bytes};
ghost use Rattle.ig_fields.specs.Views.{listed_as, listed_written};

use crate::format::FieldFormat;
use ig_base::Items;
use ig_decode::StatedCount;
use ig_encode::{Output, ValueOutput, put_count};
use ig_wire::{ReadError, Stop, i32_of};
use std::alloc::Global;

impl<F: FieldFormat> FieldFormat for Items<F> {
    type Item = Items<F::Item>;

    ghost format = { listed F.format };

    ghost view = { map F.view };

    ghost fields = { map F.fields };

    ghost reads = { listed_of F.reads };

    ghost bytes = { listed_bytes F.bytes };

    fn read(alloc: Global, input: &[u8]) -> Result<(Items<F::Item>, &[u8]), ReadError> {
        let (count, rest) = count_of(input)?;
        items_of::<F>(alloc, count, rest)
    }

    fn put<S: ValueOutput>(item: &Items<F::Item>, out: &mut S, into: &mut [u8]) {
        put_items::<F, S>(item.as_slice(), out, into);
    }

    ghost reads_as_format = { listed_as F.view F.reads (fields_of F.format) F.reads_as_format };

    ghost writes_as_format = { listed_written F.fields F.bytes (fields_bytes F.format) F.writes_as_format };
}

/// A count, and the bytes after it.
pub fn count_of(bytes: &[u8]) -> Result<(StatedCount, &[u8]), Stop>
    ensures { FieldAnswers (λ x. (x.0.items, x.1.now)) result (count_field bytes.now) }
{
    let left = bytes.len();
    let (count, rest) = i32_of(bytes)?;
    match usize::try_from(count) {
        Ok(count) => Ok((StatedCount::new(count), rest)),
        Err(_) => Err(Stop { left }),
    }
}

/// As many items as the count says, and the bytes after them.
fn items_of<F: FieldFormat>(
    alloc: Global,
    count: StatedCount,
    bytes: &[u8],
) -> Result<(Items<F::Item>, &[u8]), ReadError>
    ensures { ReadAnswers (λ x. (x.0, x.1.now)) result (each_of F.reads count.items bytes.now) }
{
    let mut items = Vec::with_capacity(alloc, count.first_room(bytes))?;
    let (mut left, mut rest) = (count, bytes);
    'each: while left.take_one() {
        let (item, after) = F::read(alloc, rest)?;
        items.push(item)?;
        rest = after;
    }
    Ok((Items::new(items), rest))
}

/// Puts the count of items, and the items.
pub fn put_items<F: FieldFormat, S: ValueOutput>(items: &[F::Item], out: &mut S, into: &mut [u8])
    ensures { (out.new, into.new)
        ≡ S.Output.after out.old into.old (listed_bytes F.bytes items.now) }
{
    put_count(items.len(), out, into);
    put_each::<F, S>(items, out, into);
}

/// Puts the items, in order.
pub fn put_each<F: FieldFormat, S: ValueOutput>(items: &[F::Item], out: &mut S, into: &mut [u8])
    ensures { (out.new, into.new)
        ≡ S.Output.after out.old into.old (flat_map F.bytes items.now) }
{
    for item in items {
        if out.is_full(into) {
            return;
        }
        F::put(item, out, into);
    }
}
