//! Values, and the values inside them.

ghost use Rattle.std.specs.Prelude.{◌≡◌, ◌∷◌, ◌++◌, ◌+◌, ◌<◌, ◌^◌, [], ℕ, length, drop, IfOk};
ghost use Rattle.std.specs.List.{flat_map};
ghost use Rattle.ig_value.specs.declared.code.Code.TheVariants as code;
ghost use Rattle.ig_value.specs.declared.value.Value.TheVariants.{Object as an_object};
ghost use Rattle.ig_value.specs.Table.{byte_of};
ghost use Rattle.ig_value.specs.Canon.{Canon};
ghost use Rattle.ig_value.specs.Reading.{content_at, value_at, many_at, both_at, mapped_read, object_at};
ghost use Rattle.ig_decode.specs.ReaderAnswers.{ReaderAnswers};
ghost use Rattle.ig_decode.specs.Exactness.{KeepsExact};
ghost use Rattle.ig_decode.specs.FieldsAnswers.{AnswersFields, fields_reading};
ghost use Rattle.ig_decode.specs.FooterForms.{last_offset};

use crate::count::{StatedCount, room_for};
use crate::element::element_at;
use crate::fault::ReadError;
use crate::object::{
    HEADER_LEN, SCHEMA_AT_PLACE, SCHEMA_PLACE, alone_of, entry_count, followed_by, header_at,
    is_canonical_alone, is_canonical_head, key_len, layout_of, parts_of, shape_of, take_offset,
};
use crate::parts::ReadContent;
use crate::rows::{array_row, content_row, element_row, optionals_row};
use crate::text::count_of;
use ig_base::{Boxed, Footer, Items, Octets};
use ig_value::{Cause, Code, Record, Value, kept_flags};
use std::alloc::Global;

/// The value that the bytes begin with, at most `levels` deep, and the bytes after it.
#[cycle(value)]
#[inline(always)]
pub(crate) fn value_of<'a>(
    alloc: Global,
    levels: u32,
    bytes: &'a [u8],
    exact: &mut bool,
) -> Result<(Value, &'a [u8]), ReadError>
    ensures reads { ReaderAnswers (λ x. (x.0, x.1.now)) result (value_at levels bytes.now) }
    ensures exact { IfOk result (λ x. KeepsExact
        exact.old exact.new bytes.now (Canon x.0) x.1.now) }
{
    let left = bytes.len();
    match bytes.split_first() {
        None => Err(ReadError::Fault {
            left,
            cause: Cause::Short,
        }),
        Some((byte, rest)) => {
            if levels == 0 {
                return Err(ReadError::Fault {
                    left,
                    cause: Cause::Depth,
                });
            }
            match Code::of(*byte) {
                None => Err(ReadError::Fault {
                    left,
                    cause: Cause::Code(*byte),
                }),
                Some(code) => content_of(alloc, levels - 1, code, bytes, rest, exact),
            }
        }
    }
}

/// The value with this code and the content that the bytes after it begin with. A value inside is
/// at most `levels` deep.
#[cycle(value)]
#[inline(always)]
fn content_of<'a>(
    alloc: Global,
    levels: u32,
    code: Code,
    whole: &'a [u8],
    bytes: &'a [u8],
    exact: &mut bool,
) -> Result<(Value, &'a [u8]), ReadError>
    requires { whole.now ≡ byte_of code ∷ bytes.now }
    ensures reads { ReaderAnswers (λ x. (x.0, x.1.now))
        result (content_at (value_at levels) code bytes.now) }
    ensures exact { IfOk result (λ x. KeepsExact
        exact.old exact.new whole.now (Canon x.0) x.1.now) }
{
    match code {
        Code::Byte => element_row(bytes, Value::Byte),
        Code::Short => element_row(bytes, Value::Short),
        Code::Int => element_row(bytes, Value::Int),
        Code::Long => element_row(bytes, Value::Long),
        Code::Float => element_row(bytes, Value::Float),
        Code::Double => element_row(bytes, Value::Double),
        Code::Char => element_row(bytes, Value::Char),
        Code::Bool => element_row(bytes, Value::Bool),
        Code::Str => content_row(alloc, bytes, Value::Str),
        Code::Uuid => content_row(alloc, bytes, Value::Uuid),
        Code::Date => element_row(bytes, Value::Date),
        Code::Bytes => array_row(alloc, bytes, Value::Bytes),
        Code::Shorts => array_row(alloc, bytes, Value::Shorts),
        Code::Ints => array_row(alloc, bytes, Value::Ints),
        Code::Longs => array_row(alloc, bytes, Value::Longs),
        Code::Floats => array_row(alloc, bytes, Value::Floats),
        Code::Doubles => array_row(alloc, bytes, Value::Doubles),
        Code::Chars => array_row(alloc, bytes, Value::Chars),
        Code::Bools => array_row(alloc, bytes, Value::Bools),
        Code::Strs => optionals_row(alloc, Code::Str, bytes, Value::Strs),
        Code::Uuids => optionals_row(alloc, Code::Uuid, bytes, Value::Uuids),
        Code::Dates => optionals_row(alloc, Code::Date, bytes, Value::Dates),
        Code::Objects => objects_of(alloc, levels, bytes, exact),
        Code::Collection => collection_of(alloc, levels, bytes, exact),
        Code::Map => map_of(alloc, levels, bytes, exact),
        Code::Wrapped => wrapped_of(alloc, bytes),
        Code::Enum => enum_of(bytes),
        Code::Enums => enums_of(alloc, levels, bytes, exact),
        Code::Decimal => content_row(alloc, bytes, Value::Decimal),
        Code::Decimals => optionals_row(alloc, Code::Decimal, bytes, Value::Decimals),
        Code::Timestamp => content_row(alloc, bytes, Value::Timestamp),
        Code::Timestamps => optionals_row(alloc, Code::Timestamp, bytes, Value::Timestamps),
        Code::Time => element_row(bytes, Value::Time),
        Code::Times => optionals_row(alloc, Code::Time, bytes, Value::Times),
        Code::BinaryEnum => binary_enum_of(bytes),
        Code::Null => Ok((Value::Null, bytes)),
        Code::Object => object_of(alloc, levels, whole, exact),
    }
}

/// An object wrapped in bytes: the bytes, and an offset in them.
#[inline(never)]
fn wrapped_of(alloc: Global, bytes: &[u8]) -> Result<(Value, &[u8]), ReadError>
    ensures { ReaderAnswers (λ x. (x.0, x.1.now))
        result (content_at (value_at 0) code.Wrapped bytes.now) }
{
    let (octets, rest) = Octets::read(alloc, bytes)?;
    let (offset, rest) = element_at(rest)?;
    Ok((
        Value::Wrapped {
            bytes: octets,
            offset,
        },
        rest,
    ))
}

/// A literal of an enum: its type, and its ordinal.
#[inline(never)]
fn enum_of(bytes: &[u8]) -> Result<(Value, &[u8]), ReadError>
    ensures { ReaderAnswers (λ x. (x.0, x.1.now))
        result (content_at (value_at 0) code.Enum bytes.now) }
{
    let (type_id, rest) = element_at(bytes)?;
    let (ordinal, rest) = element_at(rest)?;
    Ok((Value::Enum { type_id, ordinal }, rest))
}

/// The same for an enum type whose description is registered.
#[inline(never)]
fn binary_enum_of(bytes: &[u8]) -> Result<(Value, &[u8]), ReadError>
    ensures { ReaderAnswers (λ x. (x.0, x.1.now))
        result (content_at (value_at 0) code.BinaryEnum bytes.now) }
{
    let (type_id, rest) = element_at(bytes)?;
    let (ordinal, rest) = element_at(rest)?;
    Ok((Value::BinaryEnum { type_id, ordinal }, rest))
}

/// An array of objects: their type, their count, and the values.
#[cycle(value)]
#[inline(never)]
fn objects_of<'a>(
    alloc: Global,
    levels: u32,
    bytes: &'a [u8],
    exact: &mut bool,
) -> Result<(Value, &'a [u8]), ReadError>
    ensures reads { ReaderAnswers (λ x. (x.0, x.1.now))
        result (content_at (value_at levels) code.Objects bytes.now) }
    ensures exact { IfOk result (λ x. KeepsExact
        exact.old exact.new bytes.now (drop 1 (Canon x.0)) x.1.now) }
{
    let (type_id, rest) = element_at(bytes)?;
    let (count, rest) = count_of(rest)?;
    let (items, rest) = values_of(alloc, levels, count, rest, exact)?;
    Ok((Value::Objects { type_id, items }, rest))
}

/// The same for enums.
#[cycle(value)]
#[inline(never)]
fn enums_of<'a>(
    alloc: Global,
    levels: u32,
    bytes: &'a [u8],
    exact: &mut bool,
) -> Result<(Value, &'a [u8]), ReadError>
    ensures reads { ReaderAnswers (λ x. (x.0, x.1.now))
        result (content_at (value_at levels) code.Enums bytes.now) }
    ensures exact { IfOk result (λ x. KeepsExact
        exact.old exact.new bytes.now (drop 1 (Canon x.0)) x.1.now) }
{
    let (type_id, rest) = element_at(bytes)?;
    let (count, rest) = count_of(rest)?;
    let (items, rest) = values_of(alloc, levels, count, rest, exact)?;
    Ok((Value::Enums { type_id, items }, rest))
}

/// A collection: its count, its kind, and the values.
#[cycle(value)]
#[inline(never)]
fn collection_of<'a>(
    alloc: Global,
    levels: u32,
    bytes: &'a [u8],
    exact: &mut bool,
) -> Result<(Value, &'a [u8]), ReadError>
    ensures reads { ReaderAnswers (λ x. (x.0, x.1.now))
        result (content_at (value_at levels) code.Collection bytes.now) }
    ensures exact { IfOk result (λ x. KeepsExact
        exact.old exact.new bytes.now (drop 1 (Canon x.0)) x.1.now) }
{
    let (count, rest) = count_of(bytes)?;
    let (kind, rest) = element_at(rest)?;
    let (items, rest) = values_of(alloc, levels, count, rest, exact)?;
    Ok((Value::Collection { kind, items }, rest))
}

/// A map: its count, its kind, and the pairs.
#[cycle(value)]
#[inline(never)]
fn map_of<'a>(
    alloc: Global,
    levels: u32,
    bytes: &'a [u8],
    exact: &mut bool,
) -> Result<(Value, &'a [u8]), ReadError>
    ensures reads { ReaderAnswers (λ x. (x.0, x.1.now))
        result (content_at (value_at levels) code.Map bytes.now) }
    ensures exact { IfOk result (λ x. KeepsExact
        exact.old exact.new bytes.now (drop 1 (Canon x.0)) x.1.now) }
{
    let (count, rest) = count_of(bytes)?;
    let (kind, rest) = element_at(rest)?;
    let (pairs, rest) = pairs_of(alloc, levels, count, rest, exact)?;
    Ok((Value::Map { kind, pairs }, rest))
}

/// As many values as the count says.
#[cycle(value)]
fn values_of<'a>(
    alloc: Global,
    levels: u32,
    count: StatedCount,
    bytes: &'a [u8],
    exact: &mut bool,
) -> Result<(Items<Value>, &'a [u8]), ReadError>
    ensures reads { ReaderAnswers (λ x. (x.0, x.1.now))
        result (many_at (value_at levels) count.items bytes.now) }
    ensures exact { IfOk result (λ x. KeepsExact
        exact.old exact.new bytes.now (flat_map Canon x.0) x.1.now) }
{
    let mut values = room_for(alloc, count.first_room(bytes), bytes)?;
    let (mut left, mut rest) = (count, bytes);
    'each: while left.take_one() {
        let (value, after) = value_of(alloc, levels, rest, exact)?;
        values.push(value)?;
        rest = after;
    }
    Ok((Items::new(values), rest))
}

/// As many pairs of values as the count says.
#[cycle(value)]
fn pairs_of<'a>(
    alloc: Global,
    levels: u32,
    count: StatedCount,
    bytes: &'a [u8],
    exact: &mut bool,
) -> Result<(Items<(Value, Value)>, &'a [u8]), ReadError>
    ensures reads { ReaderAnswers (λ x. (x.0, x.1.now))
        result (many_at (both_at (value_at levels) (value_at levels)) count.items bytes.now) }
    ensures exact { IfOk result (λ x. KeepsExact
        exact.old exact.new bytes.now (flat_map (λ p. Canon p.0 ++ Canon p.1) x.0) x.1.now) }
{
    let mut pairs = room_for(alloc, count.first_room(bytes), bytes)?;
    let (mut left, mut rest) = (count, bytes);
    'each: while left.take_one() {
        let (key, after) = value_of(alloc, levels, rest, exact)?;
        let (value, after) = value_of(alloc, levels, after, exact)?;
        pairs.push((key, value))?;
        rest = after;
    }
    Ok((Items::new(pairs), rest))
}

/// A complex object, from its code on.
#[cycle(value)]
#[inline(never)]
fn object_of<'a>(
    alloc: Global,
    levels: u32,
    bytes: &'a [u8],
    exact: &mut bool,
) -> Result<(Value, &'a [u8]), ReadError>
    requires { bytes.now ≡ byte_of code.Object ∷ drop 1 bytes.now }
    ensures reads { ReaderAnswers (λ x. (x.0, x.1.now)) result
        (mapped_read an_object (object_at (value_at levels) bytes.now)) }
    ensures exact { IfOk result (λ x. KeepsExact
        exact.old exact.new bytes.now (Canon x.0) x.1.now) }
{
    let header = header_at(bytes)?;
    let Some(layout) = layout_of(&header, bytes)? else {
        *exact = is_canonical_alone(*exact, &header);
        let (_, rest) = bytes.split_at(HEADER_LEN);
        return Ok((
            Value::Object(Boxed::new(alloc, alone_of(alloc, &header))?),
            rest,
        ));
    };
    let (fields, footer, rest) = parts_of(&layout, bytes);
    let Some(shape) = shape_of(alloc, &header, layout.form, footer)? else {
        return Err(ReadError::Fault {
            left: bytes.len() - SCHEMA_PLACE,
            cause: Cause::Footer,
        });
    };
    let (values, last) = fields_of(
        alloc,
        levels,
        layout.form,
        fields,
        footer,
        rest.len(),
        exact,
    )?;
    *exact = is_canonical_head(*exact, &header, last, fields);
    let object = Record {
        bits: kept_flags(header.flags),
        type_id: header.type_id,
        shape,
        fields: values,
    };
    Ok((Value::Object(Boxed::new(alloc, object)?), rest))
}

/// The values of the fields, which lie end to end, each at its offset in the footer; and the last
/// offset. After the footer `after` bytes of the input are left.
#[cycle(value)]
fn fields_of(
    alloc: Global,
    levels: u32,
    form: Footer,
    fields: &[u8],
    footer: &[u8],
    after: usize,
    exact: &mut bool,
) -> Result<(Items<Value>, usize), ReadError>
    requires { length fields.now + length footer.now + after < 2 ^ 63 }
    ensures reads { AnswersFields (λ x. x.0)
        result (fields_reading (value_at levels) form fields.now footer.now after) }
    ensures last { IfOk result (λ x. x.1 ≡ last_offset form footer.now) }
    ensures exact { IfOk result (λ x. KeepsExact
        exact.old exact.new fields.now (flat_map Canon x.0) []) }
{
    let count = entry_count(form, footer);
    let mut values = room_for(alloc, count.first_room(fields), fields)?;
    let (mut left, mut rest, mut entries, mut last) = (count, fields, footer, 0);
    'each: while left.take_one() {
        let (offset, more) = take_offset(form, entries);
        if offset != HEADER_LEN + fields.len() - rest.len() {
            return Err(ReadError::Fault {
                left: entries.len() - key_len(form) + after,
                cause: Cause::Offset,
            });
        }
        let (value, behind) = match value_of(alloc, levels, rest, exact) {
            Ok(read) => read,
            Err(error) => return Err(followed_by(error, footer.len() + after)),
        };
        values.push(value)?;
        rest = behind;
        entries = more;
        last = offset;
    }
    if !rest.is_empty() {
        return Err(ReadError::Fault {
            left: HEADER_LEN - SCHEMA_AT_PLACE + fields.len() + footer.len() + after,
            cause: Cause::Offset,
        });
    }
    Ok((Items::new(values), last))
}
