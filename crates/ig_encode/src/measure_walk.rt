//! Measuring values, and the values inside them, in one walk.

ghost use Rattle.std.specs.Prelude.{◌≡◌, ◌∷◌, ◌++◌, map};
ghost use Rattle.std.specs.List.{flat_map};
ghost use Rattle.ig_value.specs.Canon.{Canon};
ghost use Rattle.ig_value.specs.Objects.{object_bytes};
ghost use Rattle.ig_encode.specs.ListBytes.{pair_bytes};
ghost use Rattle.ig_encode.specs.MeasureOutput.{measure_after, hashing_start};
ghost use Rattle.ig_encode.specs.Spans.{extent_of, span_of};

use crate::coded::{put_kinded, put_typed};
use crate::leaf_len::count_leaf;
use crate::leaves::put_leaf;
use crate::measure::Measure;
use crate::object::{count_object, note_entry, offset_after, put_measured};
use crate::span::{Extent, Offset, OffsetWidth, Span};
use ig_value::{Code, Object, Shape, Value};

/// Measures the canonical form of the value.
#[cycle(measure)]
pub(crate) fn measure_value(value: &Value, out: &mut Measure)
    ensures { out.new ≡ measure_after out.old (Canon value.now) }
{
    let mut none = [0u8; 0];
    match value {
        Value::Objects { type_id, items } => {
            let items = items.as_slice();
            put_typed(Code::Objects, type_id, items.len(), out, &mut none);
            measure_values(items, out);
        }
        Value::Collection { kind, items } => {
            let items = items.as_slice();
            put_kinded(Code::Collection, kind, items.len(), out, &mut none);
            measure_values(items, out);
        }
        Value::Map { kind, pairs } => {
            let pairs = pairs.as_slice();
            put_kinded(Code::Map, kind, pairs.len(), out, &mut none);
            measure_pairs(pairs, out);
        }
        Value::Enums { type_id, items } => {
            let items = items.as_slice();
            put_typed(Code::Enums, type_id, items.len(), out, &mut none);
            measure_values(items, out);
        }
        Value::Object(object) => measure_object(object.get(), out),
        _ => put_leaf(value, out, &mut none),
    }
}

/// Measures a value inside another, which is seldom more than a leaf.
#[cycle(measure)]
#[inline(always)]
fn measure_item(value: &Value, out: &mut Measure)
    ensures { out.new ≡ measure_after out.old (Canon value.now) }
{
    if count_leaf(value, out) {
        return;
    }
    measure_value(value, out);
}

/// Measures values, in order.
#[cycle(measure)]
pub(crate) fn measure_values(values: &[Value], out: &mut Measure)
    ensures { out.new ≡ measure_after out.old (flat_map Canon values.now) }
{
    for value in values {
        measure_item(value, out);
    }
}

/// Measures pairs of values, in order.
#[cycle(measure)]
fn measure_pairs(pairs: &[(Value, Value)], out: &mut Measure)
    ensures { out.new ≡ measure_after out.old (flat_map pair_bytes pairs.now) }
{
    for (key, value) in pairs {
        measure_item(key, out);
        measure_item(value, out);
    }
}

/// Measures an object. A measure that only counts needs no byte of it.
#[cycle(measure)]
#[inline(never)]
fn measure_object(object: &Object, out: &mut Measure)
    ensures { out.new ≡ measure_after out.old (103 ∷ object_bytes object.now.bits
        object.now.type_id object.now.shape (map Canon object.now.fields)) }
{
    let fields = object.fields.as_slice();
    match out.digest {
        None => {
            let extent = measure_extent(fields);
            count_object(&object.shape, fields, &extent, out);
        }
        Some(_) => {
            let span = measure_span(&object.shape, fields);
            put_measured(object, &span, out);
        }
    }
}

/// Counts the fields of an object.
#[cycle(measure)]
pub(crate) fn measure_extent(fields: &[Value]) -> Extent
    ensures { result ≡ extent_of fields.now }
{
    let mut measure = Measure::counting();
    let mut last = Offset {
        low: 0,
        width: OffsetWidth::One,
    };
    for field in fields {
        last = offset_after(&measure.length);
        measure_item(field, &mut measure);
    }
    Extent {
        length: measure.length,
        last,
    }
}

/// Measures the fields of an object and its footer, by measures that hash.
#[cycle(measure)]
#[inline(never)]
fn measure_span(shape: &Shape, fields: &[Value]) -> Span
    ensures { result ≡ span_of hashing_start shape.now fields.now }
{
    let mut span = Span {
        fields: Measure::hashing(),
        last: Offset {
            low: 0,
            width: OffsetWidth::One,
        },
        narrow: Measure::hashing(),
        middle: Measure::hashing(),
        wide: Measure::hashing(),
    };
    for (index, field) in fields.iter().enumerate() {
        note_entry(shape, index, &mut span);
        measure_value(field, &mut span.fields);
    }
    span
}
