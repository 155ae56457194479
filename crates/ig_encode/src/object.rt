//! The header and the footer of a complex object.

ghost use Rattle.std.specs.Prelude.{◌≡◌, ◌+◌, ◌*◌, ◌%◌, ◌^◌, ◌<◌, ◌++◌, ◌∷◌, ℕ, ℤ, List, pos, map, length, Some, None, IfSome, get_or};
ghost use Rattle.std.specs.Int.{w8, w16, w32, cast_signed};
ghost use Rattle.std.specs.List.{flat_map};
ghost use Rattle.ig_base.specs.Numbers.{LE};
ghost use Rattle.ig_base.specs.Hashes.{BytesHash};
ghost use Rattle.ig_base.specs.Headers.{header_bytes};
ghost use Rattle.ig_value.specs.Canon.{Canon};
ghost use Rattle.ig_value.specs.Objects.{object_bytes, last_of, compact_flag, canonical_schema};
ghost use Rattle.ig_encode.specs.MeasureOutput.{measure_after, count_after, no_length, hashing_start, fresh_of};
ghost use Rattle.ig_encode.specs.Spans.{type_of, least_width, offset_of, field_offsets, key_bytes, entry_bytes, entry_size, canonical_header, extent_of, span_of, footer_of, least_footer, entry_noted, flag_of};

use crate::length::Length;
use crate::measure::Measure;
use crate::measure_output::{add, carry, count_more};
use crate::output::Output;
use crate::span::{Extent, Offset, OffsetWidth, Span};
use crate::window::Window;
use ig_base::{COMPACT_FOOTER, HAS_SCHEMA, Header, ONE_BYTE_OFFSETS, TWO_BYTE_OFFSETS, schema_id};
use ig_value::{Code, Object, Shape, Value};

/// The bytes of an object before its fields.
pub(crate) const HEADER_LEN: usize = 24;

/// The offset of a field after fields of this length.
pub(crate) fn offset_after(fields: &Length) -> Offset
    ensures { (n : ℕ) → fields.now ≡ count_after no_length n → result ≡ offset_of (24 + n) }
{
    let low = (fields.low.wrapping_add(24) % 4_294_967_296) as u32;
    let width = width_after(fields);
    Offset { low, width }
}

/// The least width of that offset.
fn width_after(fields: &Length) -> OffsetWidth
    ensures { (n : ℕ) → fields.now ≡ count_after no_length n → result ≡ (offset_of (24 + n)).width }
{
    if fields.high > 0 {
        return OffsetWidth::Four;
    }
    if fields.low < 232 {
        return OffsetWidth::One;
    }
    if fields.low < 65_512 {
        return OffsetWidth::Two;
    }
    OffsetWidth::Four
}

/// An offset, with its least width.
pub(crate) fn offset_at(offset: u64) -> Offset
    ensures { result ≡ offset_of offset }
{
    let low = (offset % 4_294_967_296) as u32;
    let width = width_at(offset);
    Offset { low, width }
}

/// The least width of an offset.
fn width_at(offset: u64) -> OffsetWidth
    ensures { result ≡ least_width offset }
{
    if offset < 256 {
        OffsetWidth::One
    } else if offset < 65_536 {
        OffsetWidth::Two
    } else {
        OffsetWidth::Four
    }
}

/// Puts the entry of a field: its identifier, if the shape names the fields, and its offset.
pub(crate) fn put_entry<S: Output>(
    shape: &Shape,
    index: usize,
    width: OffsetWidth,
    offset: u32,
    out: &mut S,
    into: &mut [u8],
)
    ensures { (out.new, into.new) ≡ S.after out.old into.old
        (entry_bytes (type_of width) shape.now index offset) }
{
    match shape {
        Shape::Named(ids) => put_named(id_at(ids.as_slice(), index), width, offset, out, into),
        Shape::Compact(_) => put_offset(width, offset, out, into),
    }
}

/// The identifier at an index, or 0 after the last.
fn id_at(ids: &[i32], index: usize) -> i32
    ensures { result ≡ get_or ids.now index (pos 0) }
{
    match ids.get(index) {
        Some(id) => *id,
        None => 0,
    }
}

/// Puts an identifier and an offset.
#[tactic(auto, unfolding(ig_base::specs::Numbers::LE))]
fn put_named<S: Output>(id: i32, width: OffsetWidth, offset: u32, out: &mut S, into: &mut [u8])
    ensures { (out.new, into.new) ≡ S.after out.old into.old
        (LE w32 id ++ LE (type_of width) (pos offset)) }
{
    let [a, b, c, d] = i32::to_le_bytes(id);
    let [e, f, g, h] = u32::to_le_bytes(offset);
    match width {
        OffsetWidth::One => out.put(into, &[a, b, c, d, e]),
        OffsetWidth::Two => out.put(into, &[a, b, c, d, e, f]),
        OffsetWidth::Four => out.put(into, &[a, b, c, d, e, f, g, h]),
    }
}

/// Puts an offset.
#[tactic(auto, unfolding(ig_base::specs::Numbers::LE))]
fn put_offset<S: Output>(width: OffsetWidth, offset: u32, out: &mut S, into: &mut [u8])
    ensures { (out.new, into.new) ≡ S.after out.old into.old (LE (type_of width) (pos offset)) }
{
    let [e, f, g, h] = u32::to_le_bytes(offset);
    match width {
        OffsetWidth::One => out.put(into, &[e]),
        OffsetWidth::Two => out.put(into, &[e, f]),
        OffsetWidth::Four => out.put(into, &[e, f, g, h]),
    }
}

/// Measures the entry of the next field, before the field itself is measured.
pub(crate) fn note_entry(shape: &Shape, index: usize, span: &mut Span)
    ensures { (n : ℕ) → span.old.fields.length ≡ count_after no_length n
        → span.new ≡ entry_noted span.old shape.now index (24 + n) }
{
    let mut none = [0u8; 0];
    let offset = offset_after(&span.fields.length);
    put_entry(
        shape,
        index,
        OffsetWidth::One,
        offset.low,
        &mut span.narrow,
        &mut none,
    );
    put_entry(
        shape,
        index,
        OffsetWidth::Two,
        offset.low,
        &mut span.middle,
        &mut none,
    );
    put_entry(
        shape,
        index,
        OffsetWidth::Four,
        offset.low,
        &mut span.wide,
        &mut none,
    );
    span.last = offset;
}

/// The measure of the footer.
pub(crate) fn footer_of_span(span: &Span) -> &Measure
    ensures { result.now ≡ footer_of span.now span.now.last.width }
{
    match span.last.width {
        OffsetWidth::One => &span.narrow,
        OffsetWidth::Two => &span.middle,
        OffsetWidth::Four => &span.wide,
    }
}

/// The hash of the bytes that were measured, as a header has it.
pub(crate) fn hash_of(fields: &Measure) -> i32
    ensures { (bytes : List ℕ) → fields.now ≡ measure_after hashing_start bytes
        → result ≡ cast_signed w32 (BytesHash bytes) }
{
    match fields.digest {
        Some(digest) => digest.pow.wrapping_add(digest.sum).cast_signed(),
        None => 0,
    }
}

/// The lowest 32 bits, as a signed number.
fn signed(n: u64) -> i32
    ensures { result ≡ cast_signed w32 (n % 2 ^ 32) }
{
    ((n % 4_294_967_296) as u32).cast_signed()
}

/// The bytes of an entry of a footer.
pub(crate) fn entry_len(shape: &Shape, width: OffsetWidth) -> usize
    ensures { result ≡ entry_size width shape.now }
{
    let key = match shape {
        Shape::Named(_) => 4,
        Shape::Compact(_) => 0,
    };
    let offset = match width {
        OffsetWidth::One => 1,
        OffsetWidth::Two => 2,
        OffsetWidth::Four => 4,
    };
    key + offset
}

/// The number of bytes of an object whose fields have this extent, if a slice can have as many.
pub(crate) fn object_len(shape: &Shape, fields: &[Value], extent: &Extent) -> Option<usize>
    requires { extent.now ≡ extent_of fields.now }
    ensures { IfSome result (λ len. len
        ≡ 24 + (length (flat_map Canon fields.now) + length (least_footer shape.now fields.now))) }
{
    if extent.length.high > 0 {
        return None;
    }
    let footer = fields
        .len()
        .checked_mul(entry_len(shape, extent.last.width))?;
    let parts = footer.checked_add(extent.length.low as usize)?;
    parts.checked_add(HEADER_LEN)
}

/// The header of an object whose fields have this measure, and offsets of this width. Of a length
/// of 2^31 and more it has the lowest 32 bits.
pub(crate) fn header_of(object: &Object, fields: &Measure, width: OffsetWidth) -> Header
    requires fields { fields.now ≡ measure_after hashing_start (flat_map Canon object.now.fields) }
    requires width { width ≡ least_width (last_of (field_offsets object.now.fields)) }
    ensures { header_bytes result ≡ header_bytes (canonical_header object.now.bits
        object.now.type_id object.now.shape (map Canon object.now.fields)) }
{
    let count = object.fields.as_slice().len();
    if count == 0 {
        return header_alone(object.bits, object.type_id);
    }
    let schema_at = fields.length.low.wrapping_add(24);
    let footer = (count as u64).wrapping_mul(entry_len(&object.shape, width) as u64);
    Header {
        version: 1,
        flags: flags_of(object.bits, &object.shape, width),
        type_id: object.type_id,
        hash: hash_of(fields),
        length: signed(schema_at.wrapping_add(footer)),
        schema: schema_of_shape(&object.shape),
        schema_at: signed(schema_at),
    }
}

/// The header of an object without fields.
fn header_alone(bits: u16, type_id: i32) -> Header
    ensures { result ≡ record {
      version = 1;
      flags = bits;
      type_id = type_id;
      hash = pos 1;
      length = pos 24;
      schema = pos 0;
      schema_at = pos 0;
    } }
{
    Header {
        version: 1,
        flags: bits,
        type_id,
        hash: 1,
        length: 24,
        schema: 0,
        schema_at: 0,
    }
}

/// The flags of an object with fields.
fn flags_of(bits: u16, shape: &Shape, width: OffsetWidth) -> u16
    ensures { result ≡ (bits + 2 + flag_of width + compact_flag shape.now) % 2 ^ 16 }
{
    let width = match width {
        OffsetWidth::One => ONE_BYTE_OFFSETS,
        OffsetWidth::Two => TWO_BYTE_OFFSETS,
        OffsetWidth::Four => 0,
    };
    let compact = match shape {
        Shape::Named(_) => 0,
        Shape::Compact(_) => COMPACT_FOOTER,
    };
    bits.wrapping_add(HAS_SCHEMA + width + compact)
}

/// The schema identifier of an object with fields.
fn schema_of_shape(shape: &Shape) -> i32
    ensures { result ≡ canonical_schema shape.now }
{
    match shape {
        Shape::Named(ids) => schema_id(ids.as_slice()),
        Shape::Compact(schema) => *schema,
    }
}

/// Puts the code of an object and its header.
#[tactic(auto, unfolding(ig_base::specs::Numbers::LE, ig_base::specs::Headers::header_bytes))]
pub(crate) fn put_header<S: Output>(header: &Header, out: &mut S, into: &mut [u8])
    ensures { (out.new, into.new) ≡ S.after out.old into.old (103 ∷ header_bytes header.now) }
{
    let [f, g] = u16::to_le_bytes(header.flags);
    let [t0, t1, t2, t3] = i32::to_le_bytes(header.type_id);
    let [h0, h1, h2, h3] = i32::to_le_bytes(header.hash);
    let [l0, l1, l2, l3] = i32::to_le_bytes(header.length);
    let [s0, s1, s2, s3] = i32::to_le_bytes(header.schema);
    let [a0, a1, a2, a3] = i32::to_le_bytes(header.schema_at);
    let code = Code::Object.byte();
    let bytes = [
        code,
        header.version,
        f,
        g,
        t0,
        t1,
        t2,
        t3,
        h0,
        h1,
        h2,
        h3,
        l0,
        l1,
        l2,
        l3,
        s0,
        s1,
        s2,
        s3,
        a0,
        a1,
        a2,
        a3,
    ];
    out.put(into, &bytes);
}

/// Writes the code of an object and its header over a slice of their length, where the bytes of the
/// fields are there already.
pub(crate) fn write_head(object: &Object, fields: &[u8], width: OffsetWidth, head: &mut [u8])
    requires fields { fields.now ≡ flat_map Canon object.now.fields }
    requires width { width ≡ least_width (last_of (field_offsets object.now.fields)) }
    requires room { length head.old ≡ 24 }
    ensures { head.new ≡ 103 ∷ header_bytes (canonical_header object.now.bits object.now.type_id
        object.now.shape (map Canon object.now.fields)) }
{
    let mut none = [0u8; 0];
    let mut measure = Measure::hashing();
    measure.put(&mut none, fields);
    let mut window = Window::from(0);
    put_header(&header_of(object, &measure, width), &mut window, head);
}

/// Counts an object whose fields were counted.
pub(crate) fn count_object(shape: &Shape, fields: &[Value], extent: &Extent, out: &mut Measure)
    requires counts { out.old.digest ≡ None }
    requires extent { extent.now ≡ extent_of fields.now }
    ensures { (bits : ℕ) (type : ℤ) → out.new ≡ measure_after out.old (103 ∷ object_bytes bits type
        shape.now (map Canon fields.now)) }
{
    let entry = entry_len(shape, extent.last.width);
    count_more(&mut out.length, HEADER_LEN);
    add(&mut out.length, &extent.length);
    carry(&mut out.length, fields.len() as u128 * entry as u128);
}

/// Measures an object whose fields were measured.
pub(crate) fn put_measured(object: &Object, span: &Span, out: &mut Measure)
    requires { span.now ≡ span_of (fresh_of out.old) object.now.shape object.now.fields }
    ensures { out.new ≡ measure_after out.old (103 ∷ object_bytes object.now.bits
        object.now.type_id object.now.shape (map Canon object.now.fields)) }
{
    measure_header(object, span, out);
    out.absorb(&span.fields);
    out.absorb(footer_of_span(span));
}

/// Measures the code and the header of such an object.
fn measure_header(object: &Object, span: &Span, out: &mut Measure)
    requires { span.now ≡ span_of (fresh_of out.old) object.now.shape object.now.fields }
    ensures { out.new ≡ measure_after out.old (103 ∷ header_bytes (canonical_header
        object.now.bits object.now.type_id object.now.shape (map Canon object.now.fields))) }
{
    match out.digest {
        None => count_more(&mut out.length, HEADER_LEN),
        Some(_) => {
            let mut none = [0u8; 0];
            let header = header_of(object, &span.fields, span.last.width);
            put_header(&header, out, &mut none);
        }
    }
}
