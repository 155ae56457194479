//! The footer of an object that is put piece by piece.

ghost use Rattle.std.specs.Prelude.{◌≡◌, ◌+◌, ◌≤◌, ℕ, List, length, take, IfSome};
ghost use Rattle.std.specs.List.{flat_map};
ghost use Rattle.ig_value.specs.Canon.{Canon};
ghost use Rattle.ig_value.specs.Objects.{last_of};
ghost use Rattle.ig_encode.specs.Spans.{type_of, field_offsets, offset_of, field_footer, least_footer, least_entries};
ghost use Rattle.ig_encode.specs.WindowOutput.{window_after};

use crate::mark::Step;
use crate::measure::Measure;
use crate::measure_walk::{measure_extent, measure_value};
use crate::object::{HEADER_LEN, entry_len, offset_after, offset_at, put_entry};
use crate::output::Output;
use crate::resume::next_step;
use crate::span::{Offset, OffsetWidth};
use crate::window::Window;
use ig_value::{Shape, Value};

/// Puts the footer of these fields, which it measures again for their offsets.
pub(crate) fn put_footer<S: Output>(
    shape: &Shape,
    fields: &[Value],
    width: OffsetWidth,
    out: &mut S,
    into: &mut [u8],
)
    ensures { (out.new, into.new) ≡ S.after out.old into.old
        (field_footer (type_of width) shape.now fields.now) }
{
    let first = next_step(&[], HEADER_LEN as u64);
    put_entries(shape, fields, width, first, out, into);
}

/// Puts the entries of the fields from one on, where those before it were put.
fn put_entries<S: Output>(
    shape: &Shape,
    fields: &[Value],
    width: OffsetWidth,
    first: Step,
    out: &mut S,
    into: &mut [u8],
)
    requires within { first.index ≤ length fields.now }
    requires before { first.before ≡ 24 + length (flat_map Canon (take first.index fields.now)) }
    ensures { (start : S) (from : List ℕ) → (out.old, into.old) ≡ S.after start from
        (field_footer (type_of width) shape.now (take first.index fields.now))
        → (out.new, into.new) ≡ S.after start from
        (field_footer (type_of width) shape.now fields.now) }
{
    let mut before = Measure::counting();
    before.length.low = first.before - HEADER_LEN as u64;
    for index in first.index..fields.len() {
        if out.is_full(into) {
            return;
        }
        let offset = offset_after(&before.length);
        put_entry(shape, index, width, offset.low, out, into);
        measure_value(&fields[index], &mut before);
    }
}

/// Puts the least footer of these fields, which end at this offset of their object, to a window that
/// skips the entries before this step's.
pub(crate) fn put_footer_from(
    shape: &Shape,
    fields: &[Value],
    end: u64,
    step: Step,
    out: &mut Window,
    into: &mut [u8],
)
    requires end { end ≡ 24 + length (flat_map Canon fields.now) }
    requires within { step.index ≤ length fields.now }
    requires before { step.before ≡ 24 + length (flat_map Canon (take step.index fields.now)) }
    requires skipped { length (least_entries shape.now fields.now step.index) ≤ out.old.skip }
    ensures { (out.new, into.new) ≡ window_after out.old into.old
        (least_footer shape.now fields.now) }
{
    if out.is_full(into) {
        return;
    }
    let width = last_offset(fields, end).width;
    let passed = step.index as u64 * entry_len(shape, width) as u64;
    out.skip -= passed;
    put_entries(shape, fields, width, step, out, into);
}

/// Puts the footer of these fields with the least width, which their last offset tells.
pub(crate) fn put_least_footer<S: Output>(
    shape: &Shape,
    fields: &[Value],
    out: &mut S,
    into: &mut [u8],
)
    ensures { (out.new, into.new) ≡ S.after out.old into.old (least_footer shape.now fields.now) }
{
    if out.is_full(into) {
        return;
    }
    let extent = measure_extent(fields);
    put_footer(shape, fields, extent.last.width, out, into);
}

/// The length of the footer of these fields, which end at this offset of their object, if a number
/// tells it. Counts the last field alone.
pub(crate) fn footer_len(shape: &Shape, fields: &[Value], end: u64) -> Option<u64>
    requires { end ≡ 24 + length (flat_map Canon fields.now) }
    ensures { IfSome result (λ len. len ≡ length (least_footer shape.now fields.now)) }
{
    let last = last_offset(fields, end);
    let entry = entry_len(shape, last.width);
    (fields.len() as u64).checked_mul(entry as u64)
}

/// The offset of the last of these fields, which end at this offset of their object; 0 without
/// fields.
pub(crate) fn last_offset(fields: &[Value], end: u64) -> Offset
    requires { end ≡ 24 + length (flat_map Canon fields.now) }
    ensures { result ≡ offset_of (last_of (field_offsets fields.now)) }
{
    let count = fields.len();
    if count == 0 {
        return offset_at(0);
    }
    let mut measure = Measure::counting();
    measure_value(&fields[count - 1], &mut measure);
    offset_at(end - measure.length.low)
}
