//! Reading a value from its text.

ghost use Rattle.std.specs.Prelude.{List, ℤ, map as mapped};
ghost use Rattle.ig_value.specs.Part as scalar;
ghost use Rattle.ig_value.specs.declared.code.Code.TheVariants as kinds;
ghost use Rattle.ig_value.specs.declared.value.Value.{Value as a_value};
ghost use Rattle.ig_text.specs.declared.row.Row.TheVariants.{Kind, CompactObject};
ghost use Rattle.ig_text.specs.ReadText as reading;
ghost use Rattle.ig_text.specs.ReaderAnswers.{ReaderAnswers, Makes, IsTextResult, IsValueResult};
ghost use Rattle.ig_text.specs.Tokens.{colon, equals, close_bracket, close_brace};

use crate::fault::{ReadError, TextFault};
use crate::parts::{ReadPart, bits, counted, items, type_id};
use crate::read::{after, mark};
use crate::row::Row;
use crate::words::{row_at, word};
use ig_base::{Boxed, Items, Octets};
use ig_value::{Code, DEEPEST, Record, Shape, Value};
use std::alloc::Global;

/// The value whose text these bytes are.
///
/// It fails where they aren't the text of a value that keeps to the limits, and tells the offset of
/// the first part that is wrong; where only a part of them is a text, that is the offset after it.
pub fn read_value(alloc: Global, text: &[u8]) -> Result<Value, TextFault>
    ensures is_text { IsTextResult text.now result }
    ensures place { IsValueResult text.now result }
{
    match value(alloc, DEEPEST, text) {
        Ok((value, rest)) => {
            if rest.is_empty() {
                return Ok(value);
            }
            drop(value);
            Err(TextFault::Bad {
                place: text.len() - rest.len(),
            })
        }
        Err(ReadError::Bad { left }) => Err(TextFault::Bad {
            place: text.len() - left,
        }),
        Err(ReadError::NoMemory) => Err(TextFault::NoMemory),
    }
}

impl ReadPart for Value {
    ghost reads = { reading.text_at };

    fn read(alloc: Global, text: &[u8]) -> Result<(Value, &[u8]), ReadError> {
        value(alloc, DEEPEST, text)
    }
}

/// A value that is at most `levels` deep, and the bytes after it.
#[cycle(value)]
fn value(alloc: Global, levels: u32, text: &[u8]) -> Result<(Value, &[u8]), ReadError>
    ensures { ReaderAnswers (λ x. (x.0, x.1.now)) result (reading.value_at levels text.now) }
{
    if levels == 0 {
        return Err(ReadError::Bad { left: text.len() });
    }
    let Some(row) = row_at(text) else {
        return Err(ReadError::Bad { left: text.len() });
    };
    let (_, rest) = text.split_at(word(row).len());
    match row {
        Row::Kind(code) => content(alloc, levels - 1, code, rest),
        Row::CompactObject => compact(alloc, levels - 1, rest),
    }
}

/// The content after the word of a kind, and the bytes after it. A value inside is at most `levels`
/// deep.
#[cycle(value)]
fn content(alloc: Global, levels: u32, code: Code, text: &[u8]) -> Result<(Value, &[u8]), ReadError>
    ensures { ReaderAnswers (λ x. (x.0, x.1.now)) result
        (reading.content_at (reading.value_at levels) (Kind code) text.now) }
{
    match code {
        Code::Byte => one(alloc, text, Value::Byte),
        Code::Short => one(alloc, text, Value::Short),
        Code::Int => one(alloc, text, Value::Int),
        Code::Long => one(alloc, text, Value::Long),
        Code::Float => one(alloc, text, Value::Float),
        Code::Double => one(alloc, text, Value::Double),
        Code::Char => one(alloc, text, Value::Char),
        Code::Bool => one(alloc, text, Value::Bool),
        Code::Str => one(alloc, text, Value::Str),
        Code::Uuid => one(alloc, text, Value::Uuid),
        Code::Date => one(alloc, text, Value::Date),
        Code::Bytes => list(alloc, text, Value::Bytes),
        Code::Shorts => list(alloc, text, Value::Shorts),
        Code::Ints => list(alloc, text, Value::Ints),
        Code::Longs => list(alloc, text, Value::Longs),
        Code::Floats => list(alloc, text, Value::Floats),
        Code::Doubles => list(alloc, text, Value::Doubles),
        Code::Chars => list(alloc, text, Value::Chars),
        Code::Bools => list(alloc, text, Value::Bools),
        Code::Strs => list(alloc, text, Value::Strs),
        Code::Uuids => list(alloc, text, Value::Uuids),
        Code::Dates => list(alloc, text, Value::Dates),
        Code::Objects => objects(alloc, levels, text),
        Code::Collection => collection(alloc, levels, text),
        Code::Map => map(alloc, levels, text),
        Code::Wrapped => wrapped(alloc, text),
        Code::Enum => {
            let (type_id, ordinal, rest) = two_numbers(alloc, text)?;
            Ok((Value::Enum { type_id, ordinal }, rest))
        }
        Code::Enums => enums(alloc, levels, text),
        Code::Decimal => one(alloc, text, Value::Decimal),
        Code::Decimals => list(alloc, text, Value::Decimals),
        Code::Timestamp => one(alloc, text, Value::Timestamp),
        Code::Timestamps => list(alloc, text, Value::Timestamps),
        Code::Time => one(alloc, text, Value::Time),
        Code::Times => list(alloc, text, Value::Times),
        Code::BinaryEnum => {
            let (type_id, ordinal, rest) = two_numbers(alloc, text)?;
            Ok((Value::BinaryEnum { type_id, ordinal }, rest))
        }
        Code::Null => Ok((Value::Null, text)),
        Code::Object => named(alloc, levels, text),
    }
}

/// The value of a part that holds no value.
fn one<T: ReadPart, F: FnOnce(T) -> Value>(
    alloc: Global,
    text: &[u8],
    make: F,
) -> Result<(Value, &[u8]), ReadError>
    requires { F.IsAlwaysCallable make }
    ensures { (build : T → a_value) → Makes (F.post make) build
        → ReaderAnswers (λ x. (x.0, x.1.now)) result
        (reading.mapped_read build (T.reads text.now)) }
{
    let (part, rest) = T::read(alloc, text)?;
    Ok((make(part), rest))
}

/// The value of a list of such parts.
fn list<T: ReadPart, F: FnOnce(Items<T>) -> Value>(
    alloc: Global,
    text: &[u8],
    make: F,
) -> Result<(Value, &[u8]), ReadError>
    requires { F.IsAlwaysCallable make }
    ensures { (build : List T → a_value) → Makes (F.post make) build
        → ReaderAnswers (λ x. (x.0, x.1.now)) result
        (reading.mapped_read build (reading.items_at T.reads close_bracket text.now)) }
{
    let (parts, rest) = items(alloc, b']', text)?;
    Ok((make(parts), rest))
}

/// Two numbers with a colon between them, and the bytes after them.
fn two_numbers(alloc: Global, text: &[u8]) -> Result<(i32, i32, &[u8]), ReadError>
    ensures { ReaderAnswers (λ x. ((x.0, x.1), x.2.now)) result
        (reading.joined_at (reading.scalar_at scalar.i32) colon
        (reading.scalar_at scalar.i32) text.now) }
{
    let (first, rest) = i32::read(alloc, text)?;
    let (_, rest) = mark(b':', rest)?;
    let (second, rest) = i32::read(alloc, rest)?;
    Ok((first, second, rest))
}

/// An object wrapped in bytes.
fn wrapped(alloc: Global, text: &[u8]) -> Result<(Value, &[u8]), ReadError>
    ensures { ReaderAnswers (λ x. (x.0, x.1.now)) result
        (reading.content_at (reading.value_at 0) (Kind kinds.Wrapped) text.now) }
{
    let (offset, rest) = i32::read(alloc, text)?;
    let (_, rest) = mark(b':', rest)?;
    let (bytes, rest) = Octets::read(alloc, rest)?;
    Ok((Value::Wrapped { bytes, offset }, rest))
}

/// An array of objects.
#[cycle(value)]
fn objects(alloc: Global, levels: u32, text: &[u8]) -> Result<(Value, &[u8]), ReadError>
    ensures { ReaderAnswers (λ x. (x.0, x.1.now)) result
        (reading.content_at (reading.value_at levels) (Kind kinds.Objects) text.now) }
{
    let (type_id, rest) = i32::read(alloc, text)?;
    let (_, rest) = mark(b'[', rest)?;
    let (items, rest) = values(alloc, levels, b']', rest)?;
    Ok((Value::Objects { type_id, items }, rest))
}

/// An array of enums.
#[cycle(value)]
fn enums(alloc: Global, levels: u32, text: &[u8]) -> Result<(Value, &[u8]), ReadError>
    ensures { ReaderAnswers (λ x. (x.0, x.1.now)) result
        (reading.content_at (reading.value_at levels) (Kind kinds.Enums) text.now) }
{
    let (type_id, rest) = i32::read(alloc, text)?;
    let (_, rest) = mark(b'[', rest)?;
    let (items, rest) = values(alloc, levels, b']', rest)?;
    Ok((Value::Enums { type_id, items }, rest))
}

/// A collection.
#[cycle(value)]
fn collection(alloc: Global, levels: u32, text: &[u8]) -> Result<(Value, &[u8]), ReadError>
    ensures { ReaderAnswers (λ x. (x.0, x.1.now)) result
        (reading.content_at (reading.value_at levels) (Kind kinds.Collection) text.now) }
{
    let (kind, rest) = i8::read(alloc, text)?;
    let (_, rest) = mark(b'[', rest)?;
    let (items, rest) = values(alloc, levels, b']', rest)?;
    Ok((Value::Collection { kind, items }, rest))
}

/// A map.
#[cycle(value)]
fn map(alloc: Global, levels: u32, text: &[u8]) -> Result<(Value, &[u8]), ReadError>
    ensures { ReaderAnswers (λ x. (x.0, x.1.now)) result
        (reading.content_at (reading.value_at levels) (Kind kinds.Map) text.now) }
{
    let (kind, rest) = i8::read(alloc, text)?;
    let (_, rest) = mark(b'[', rest)?;
    let (pairs, rest) = pairs(alloc, levels, rest)?;
    Ok((Value::Map { kind, pairs }, rest))
}

/// Values up to the byte that closes the list, and the bytes after it.
#[cycle(value)]
fn values(
    alloc: Global,
    levels: u32,
    close: u8,
    text: &[u8],
) -> Result<(Items<Value>, &[u8]), ReadError>
    ensures { ReaderAnswers (λ x. (x.0, x.1.now)) result
        (reading.items_at (reading.value_at levels) close text.now) }
{
    let mut read = Vec::new(alloc);
    if let Some(rest) = after(close, text) {
        return Ok((Items::new(read), rest));
    }
    let (first, mut rest) = value(alloc, levels, text)?;
    read.push(first)?;
    let most = rest.len();
    for _ in 0..most {
        if let Some(behind) = after(close, rest) {
            return counted(read, text.len(), behind);
        }
        let (_, next) = mark(b',', rest)?;
        let (item, next) = value(alloc, levels, next)?;
        read.push(item)?;
        rest = next;
    }
    Err(ReadError::Bad { left: rest.len() })
}

/// Pairs of values up to the bracket that closes the list, and the bytes after it.
#[cycle(value)]
fn pairs(
    alloc: Global,
    levels: u32,
    text: &[u8],
) -> Result<(Items<(Value, Value)>, &[u8]), ReadError>
    ensures { ReaderAnswers (λ x. (x.0, x.1.now)) result
        (reading.items_at (reading.joined_at (reading.value_at levels) equals
        (reading.value_at levels)) close_bracket text.now) }
{
    let mut read = Vec::new(alloc);
    if let Some(rest) = after(b']', text) {
        return Ok((Items::new(read), rest));
    }
    let (first, mut rest) = value_pair(alloc, levels, text)?;
    read.push(first)?;
    let most = rest.len();
    for _ in 0..most {
        if let Some(behind) = after(b']', rest) {
            return counted(read, text.len(), behind);
        }
        let (_, next) = mark(b',', rest)?;
        let (item, next) = value_pair(alloc, levels, next)?;
        read.push(item)?;
        rest = next;
    }
    Err(ReadError::Bad { left: rest.len() })
}

/// Two values with an equals sign between them, and the bytes after them.
#[cycle(value)]
fn value_pair(alloc: Global, levels: u32, text: &[u8]) -> Result<((Value, Value), &[u8]), ReadError>
    ensures { ReaderAnswers (λ x. (x.0, x.1.now)) result
        (reading.joined_at (reading.value_at levels) equals (reading.value_at levels) text.now) }
{
    let (first, rest) = value(alloc, levels, text)?;
    let (_, rest) = mark(b'=', rest)?;
    let (second, rest) = value(alloc, levels, rest)?;
    Ok(((first, second), rest))
}

/// Flags and type of an object, and the bytes after them.
fn head(text: &[u8]) -> Result<(u16, i32, &[u8]), ReadError>
    ensures { ReaderAnswers (λ x. ((x.0, x.1), x.2.now)) result (reading.head_at text.now) }
{
    let (bits, rest) = bits(text)?;
    let (_, rest) = mark(b':', rest)?;
    let (type_id, rest) = type_id(rest)?;
    Ok((bits, type_id, rest))
}

/// An object whose fields have identifiers.
#[cycle(value)]
fn named(alloc: Global, levels: u32, text: &[u8]) -> Result<(Value, &[u8]), ReadError>
    ensures { ReaderAnswers (λ x. (x.0, x.1.now)) result
        (reading.content_at (reading.value_at levels) (Kind kinds.Object) text.now) }
{
    let (bits, type_id, rest) = head(text)?;
    let (_, rest) = mark(b'{', rest)?;
    let (ids, fields, rest) = entries(alloc, levels, rest)?;
    let object = Record {
        bits,
        type_id,
        shape: Shape::Named(ids),
        fields,
    };
    Ok((Value::Object(Boxed::new(alloc, object)?), rest))
}

/// Fields after their identifiers up to the brace that closes the list, and the bytes after it.
#[cycle(value)]
fn entries(
    alloc: Global,
    levels: u32,
    text: &[u8],
) -> Result<(Items<i32>, Items<Value>, &[u8]), ReadError>
    ensures { ReaderAnswers {Y = List ℤ × List a_value} (λ x. ((x.0, x.1), x.2.now)) result
        (reading.mapped_read (λ es. (mapped (λ e. e.0) es, mapped (λ e. e.1) es))
        (reading.items_at (reading.entry_at (reading.value_at levels)) close_brace text.now)) }
{
    let (mut ids, mut fields) = (Vec::new(alloc), Vec::new(alloc));
    if let Some(rest) = after(b'}', text) {
        return Ok((Items::new(ids), Items::new(fields), rest));
    }
    let (id, field, mut rest) = entry(alloc, levels, text)?;
    ids.push(id)?;
    fields.push(field)?;
    let most = rest.len();
    for _ in 0..most {
        if let Some(behind) = after(b'}', rest) {
            let (fields, rest) = counted(fields, text.len(), behind)?;
            return Ok((Items::new(ids), fields, rest));
        }
        let (_, next) = mark(b',', rest)?;
        let (id, field, next) = entry(alloc, levels, next)?;
        ids.push(id)?;
        fields.push(field)?;
        rest = next;
    }
    Err(ReadError::Bad { left: rest.len() })
}

/// An identifier and the field after it, and the bytes after them.
#[cycle(value)]
fn entry(alloc: Global, levels: u32, text: &[u8]) -> Result<(i32, Value, &[u8]), ReadError>
    ensures { ReaderAnswers (λ x. ((x.0, x.1), x.2.now)) result
        (reading.entry_at (reading.value_at levels) text.now) }
{
    let (id, rest) = i32::read(alloc, text)?;
    let (_, rest) = mark(b'=', rest)?;
    let (field, rest) = value(alloc, levels, rest)?;
    Ok((id, field, rest))
}

/// An object whose fields are those of a schema.
#[cycle(value)]
fn compact(alloc: Global, levels: u32, text: &[u8]) -> Result<(Value, &[u8]), ReadError>
    ensures { ReaderAnswers (λ x. (x.0, x.1.now)) result
        (reading.content_at (reading.value_at levels) CompactObject text.now) }
{
    let (bits, type_id, rest) = head(text)?;
    let (_, rest) = mark(b':', rest)?;
    let (schema, rest) = i32::read(alloc, rest)?;
    let (_, rest) = mark(b'{', rest)?;
    let left = rest.len();
    let (fields, rest) = values(alloc, levels, b'}', rest)?;
    if fields.as_slice().is_empty() {
        return Err(ReadError::Bad { left });
    }
    let object = Record {
        bits,
        type_id,
        shape: Shape::Compact(schema),
        fields,
    };
    Ok((Value::Object(Boxed::new(alloc, object)?), rest))
}
