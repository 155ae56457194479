//! Filling a slice with the bytes of values, and of the values inside them.

ghost use Rattle.std.specs.Prelude.{◌≡◌, ◌∷◌, ◌++◌, ◌+◌, length, map};
ghost use Rattle.std.specs.List.{flat_map};
ghost use Rattle.ig_base.specs.Headers.{header_bytes};
ghost use Rattle.ig_value.specs.Canon.{Canon};
ghost use Rattle.ig_value.specs.Objects.{object_bytes, last_of};
ghost use Rattle.ig_encode.specs.ListBytes.{pair_bytes};
ghost use Rattle.ig_encode.specs.Spans.{type_of, least_width, field_offsets, canonical_header, extent_of, field_footer, least_footer};
ghost use Rattle.ig_encode.specs.WindowOutput.{window_after};

use crate::coded::{put_kinded, put_typed};
use crate::footer::put_footer;
use crate::leaves::put_leaf;
use crate::measure::Measure;
use crate::measure_walk::{measure_extent, measure_values};
use crate::object::{HEADER_LEN, header_of, object_len, put_entry, put_header, write_head};
use crate::output::Output;
use crate::span::{Extent, OffsetWidth};
use crate::window::Window;
use ig_value::{Code, Object, Shape, Value};

/// Puts the canonical form of the value.
#[cycle(fill)]
pub(crate) fn fill_value(value: &Value, out: &mut Window, into: &mut [u8])
    ensures { (out.new, into.new) ≡ window_after out.old into.old (Canon value.now) }
{
    match value {
        Value::Objects { type_id, items } => {
            let items = items.as_slice();
            put_typed(Code::Objects, type_id, items.len(), out, into);
            fill_values(items, out, into);
        }
        Value::Collection { kind, items } => {
            let items = items.as_slice();
            put_kinded(Code::Collection, kind, items.len(), out, into);
            fill_values(items, out, into);
        }
        Value::Map { kind, pairs } => {
            let pairs = pairs.as_slice();
            put_kinded(Code::Map, kind, pairs.len(), out, into);
            fill_pairs(pairs, out, into);
        }
        Value::Enums { type_id, items } => {
            let items = items.as_slice();
            put_typed(Code::Enums, type_id, items.len(), out, into);
            fill_values(items, out, into);
        }
        Value::Object(object) => fill_object(object.get(), out, into),
        _ => put_leaf(value, out, into),
    }
}

/// Puts values, in order.
#[cycle(fill)]
pub(crate) fn fill_values(values: &[Value], out: &mut Window, into: &mut [u8])
    ensures { (out.new, into.new) ≡ window_after out.old into.old (flat_map Canon values.now) }
{
    for value in values {
        if out.is_full(into) {
            return;
        }
        fill_value(value, out, into);
    }
}

/// Puts pairs of values, in order.
#[cycle(fill)]
pub(crate) fn fill_pairs(pairs: &[(Value, Value)], out: &mut Window, into: &mut [u8])
    ensures { (out.new, into.new) ≡ window_after out.old into.old (flat_map pair_bytes pairs.now) }
{
    for (key, value) in pairs {
        if out.is_full(into) {
            return;
        }
        fill_value(key, out, into);
        fill_value(value, out, into);
    }
}

/// Puts an object.
#[cycle(fill)]
#[inline(never)]
fn fill_object(object: &Object, out: &mut Window, into: &mut [u8])
    ensures { (out.new, into.new) ≡ window_after out.old into.old (103 ∷ object_bytes
        object.now.bits object.now.type_id object.now.shape (map Canon object.now.fields)) }
{
    let fields = object.fields.as_slice();
    let extent = measure_extent(fields);
    if let Some(len) = object_len(&object.shape, fields, &extent) {
        if out.count(len) {
            return;
        }
        if let Some(at) = out.place(into.len(), len) {
            write_object(object, fields, &extent, &mut into[at..at + len]);
            return;
        }
    }
    put_head(object, fields, extent.last.width, out, into);
    fill_values(fields, out, into);
    put_footer(&object.shape, fields, extent.last.width, out, into);
}

/// Puts the code and the header of an object, which has these fields. They aren't looked at where
/// none of its bytes is wanted.
#[inline(never)]
fn put_head(
    object: &Object,
    fields: &[Value],
    width: OffsetWidth,
    out: &mut Window,
    into: &mut [u8],
)
    requires fields { fields.now ≡ object.now.fields }
    requires width { width ≡ least_width (last_of (field_offsets fields.now)) }
    ensures { (out.new, into.new) ≡ window_after out.old into.old (103 ∷ header_bytes
        (canonical_header object.now.bits object.now.type_id object.now.shape
        (map Canon fields.now))) }
{
    if out.count(HEADER_LEN) {
        return;
    }
    let mut measure = Measure::hashing();
    measure_values(fields, &mut measure);
    put_header(&header_of(object, &measure, width), out, into);
}

/// Writes an object, which has these fields, over a slice of its length: the fields and the footer
/// first, and then the header, which has the hash of what was written.
#[cycle(fill)]
fn write_object(object: &Object, fields: &[Value], extent: &Extent, into: &mut [u8])
    requires fields { fields.now ≡ object.now.fields }
    requires extent { extent.now ≡ extent_of fields.now }
    requires room { length into.old ≡ 24 + (length (flat_map Canon fields.now)
        + length (least_footer object.now.shape fields.now)) }
    ensures { into.new ≡ 103 ∷ object_bytes object.now.bits object.now.type_id object.now.shape
        (map Canon fields.now) }
{
    let width = extent.last.width;
    let (head, parts) = into.split_at_mut(HEADER_LEN);
    let (room, footer) = parts.split_at_mut(extent.length.low as usize);
    write_fields(&object.shape, fields, width, room, footer);
    write_head(object, room, width, head);
}

/// Writes the fields of an object and its footer, each over a slice of its length.
#[cycle(fill)]
fn write_fields(
    shape: &Shape,
    fields: &[Value],
    width: OffsetWidth,
    room: &mut [u8],
    footer: &mut [u8],
)
    requires room { length room.old ≡ length (flat_map Canon fields.now) }
    requires footer { length footer.old
        ≡ length (field_footer (type_of width) shape.now fields.now) }
    ensures fields { room.new ≡ flat_map Canon fields.now }
    ensures footer { footer.new ≡ field_footer (type_of width) shape.now fields.now }
{
    let (mut written, mut entries) = (Window::from(0), Window::from(0));
    for (index, field) in fields.iter().enumerate() {
        let offset = ((HEADER_LEN + written.filled) % 4_294_967_296) as u32;
        put_entry(shape, index, width, offset, &mut entries, footer);
        fill_value(field, &mut written, room);
    }
}
