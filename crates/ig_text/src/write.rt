//! Writing the text of a value.

ghost use Rattle.std.specs.Prelude.{◌≡◌, ◌++◌, ◌∷◌, [], OnOk, OnErr};
ghost use Rattle.ig_text.specs.Tokens.{comma, open_bracket, close_bracket, close_brace, until_text, items_text};
ghost use Rattle.ig_text.specs.TextOf.{TextOf, entries, entry_text, head_text, object_text};
ghost use Rattle.ig_text.specs.Words.{word as word_text, object_row};
ghost use Rattle.ig_text.specs.declared.row.Row.TheVariants.{Kind};
ghost use Rattle.ig_text.specs.PairText.{pair_text};

use crate::put::{PutText, put_bits, put_items};
use crate::row::Row;
use crate::words::word;
use ig_base::{NoMemory, Octets};
use ig_value::{Code, Object, Shape, Value};
use std::alloc::Global;

/// Appends the text of the value. On an error the bytes are as before.
///
/// The recursion is as deep as the tree.
pub fn write_value(alloc: Global, value: &Value, out: &mut Octets) -> Result<(), NoMemory>
    ensures ok { OnOk result (out.new ≡ out.old ++ TextOf value.now) }
    ensures err { OnErr result (out.new ≡ out.old) }
{
    let mut text = Octets::empty(alloc);
    put_value(value, &mut text)?;
    out.append(text.as_slice())
}

impl PutText for Value {
    ghost text = { TextOf };

    fn put(&self, out: &mut Octets) -> Result<(), NoMemory> {
        put_value(self, out)
    }
}

/// Appends the text of the value. After an error part of it may stand there.
#[cycle(put)]
fn put_value(value: &Value, out: &mut Octets) -> Result<(), NoMemory>
    ensures { OnOk result (out.new ≡ out.old ++ TextOf value.now) }
{
    match value {
        Value::Byte(x) => put_row(Code::Byte, x, out),
        Value::Short(x) => put_row(Code::Short, x, out),
        Value::Int(x) => put_row(Code::Int, x, out),
        Value::Long(x) => put_row(Code::Long, x, out),
        Value::Float(x) => put_row(Code::Float, x, out),
        Value::Double(x) => put_row(Code::Double, x, out),
        Value::Char(x) => put_row(Code::Char, x, out),
        Value::Bool(x) => put_row(Code::Bool, x, out),
        Value::Str(x) => put_row(Code::Str, x, out),
        Value::Uuid(x) => put_row(Code::Uuid, x, out),
        Value::Date(x) => put_row(Code::Date, x, out),
        Value::Bytes(xs) => put_list(Code::Bytes, xs.as_slice(), out),
        Value::Shorts(xs) => put_list(Code::Shorts, xs.as_slice(), out),
        Value::Ints(xs) => put_list(Code::Ints, xs.as_slice(), out),
        Value::Longs(xs) => put_list(Code::Longs, xs.as_slice(), out),
        Value::Floats(xs) => put_list(Code::Floats, xs.as_slice(), out),
        Value::Doubles(xs) => put_list(Code::Doubles, xs.as_slice(), out),
        Value::Chars(xs) => put_list(Code::Chars, xs.as_slice(), out),
        Value::Bools(xs) => put_list(Code::Bools, xs.as_slice(), out),
        Value::Strs(xs) => put_list(Code::Strs, xs.as_slice(), out),
        Value::Uuids(xs) => put_list(Code::Uuids, xs.as_slice(), out),
        Value::Dates(xs) => put_list(Code::Dates, xs.as_slice(), out),
        Value::Objects { type_id, items } => {
            put_opened(Code::Objects, type_id, out)?;
            put_values(items.as_slice(), b']', out)
        }
        Value::Collection { kind, items } => {
            put_opened(Code::Collection, kind, out)?;
            put_values(items.as_slice(), b']', out)
        }
        Value::Map { kind, pairs } => {
            put_opened(Code::Map, kind, out)?;
            put_pairs(pairs.as_slice(), out)
        }
        Value::Wrapped { bytes, offset } => put_both(Code::Wrapped, offset, bytes, out),
        Value::Enum { type_id, ordinal } => put_both(Code::Enum, type_id, ordinal, out),
        Value::Enums { type_id, items } => {
            put_opened(Code::Enums, type_id, out)?;
            put_values(items.as_slice(), b']', out)
        }
        Value::Decimal(x) => put_row(Code::Decimal, x, out),
        Value::Decimals(xs) => put_list(Code::Decimals, xs.as_slice(), out),
        Value::Timestamp(x) => put_row(Code::Timestamp, x, out),
        Value::Timestamps(xs) => put_list(Code::Timestamps, xs.as_slice(), out),
        Value::Time(x) => put_row(Code::Time, x, out),
        Value::Times(xs) => put_list(Code::Times, xs.as_slice(), out),
        Value::BinaryEnum { type_id, ordinal } => {
            put_both(Code::BinaryEnum, type_id, ordinal, out)
        }
        Value::Null => out.append(word(Row::Kind(Code::Null))),
        Value::Object(object) => put_object(object.get(), out),
    }
}

/// Appends a word and a part.
fn put_row<T: PutText>(code: Code, part: &T, out: &mut Octets) -> Result<(), NoMemory>
    ensures { OnOk result (out.new ≡ out.old ++ (word_text (Kind code) ++ T.text part.now)) }
{
    out.append(word(Row::Kind(code)))?;
    part.put(out)
}

/// Appends a word and the items of a list.
fn put_list<T: PutText>(code: Code, items: &[T], out: &mut Octets) -> Result<(), NoMemory>
    ensures { OnOk result (out.new ≡ out.old
        ++ (word_text (Kind code) ++ items_text close_bracket T.text items.now)) }
{
    out.append(word(Row::Kind(code)))?;
    put_items(items, b']', out)
}

/// Appends a word and two parts.
fn put_both<A: PutText, B: PutText>(
    code: Code,
    first: &A,
    second: &B,
    out: &mut Octets,
) -> Result<(), NoMemory>
    ensures { OnOk result (out.new ≡ out.old
        ++ (word_text (Kind code) ++ (A.text first.now ++ 58 ∷ B.text second.now))) }
{
    put_row(code, first, out)?;
    out.push(b':')?;
    second.put(out)
}

/// Appends a word, a part, and the bracket that opens a list.
fn put_opened<T: PutText>(code: Code, part: &T, out: &mut Octets) -> Result<(), NoMemory>
    ensures { OnOk result (out.new ≡ out.old
        ++ (word_text (Kind code) ++ (T.text part.now ++ open_bracket ∷ []))) }
{
    put_row(code, part, out)?;
    out.push(b'[')
}

/// Appends values, and the byte that closes the list.
#[cycle(put)]
fn put_values(values: &[Value], close: u8, out: &mut Octets) -> Result<(), NoMemory>
    ensures { OnOk result (out.new ≡ out.old ++ items_text close TextOf values.now) }
{
    let Some((first, rest)) = values.split_first() else {
        return out.push(close);
    };
    put_value(first, out)?;
    for value in rest {
        out.push(b',')?;
        put_value(value, out)?;
    }
    out.push(close)
}

/// Appends pairs of values, and the bracket that closes the list.
#[cycle(put)]
fn put_pairs(pairs: &[(Value, Value)], out: &mut Octets) -> Result<(), NoMemory>
    ensures { OnOk result (out.new ≡ out.old ++ items_text close_bracket pair_text pairs.now) }
{
    let Some((first, rest)) = pairs.split_first() else {
        return out.push(b']');
    };
    put_pair(first, out)?;
    for pair in rest {
        out.push(b',')?;
        put_pair(pair, out)?;
    }
    out.push(b']')
}

/// Appends a pair of values.
#[cycle(put)]
fn put_pair(pair: &(Value, Value), out: &mut Octets) -> Result<(), NoMemory>
    ensures { OnOk result (out.new ≡ out.old ++ pair_text pair.now) }
{
    put_value(&pair.0, out)?;
    out.push(b'=')?;
    put_value(&pair.1, out)
}

/// Appends an object, with its word.
#[cycle(put)]
fn put_object(object: &Object, out: &mut Octets) -> Result<(), NoMemory>
    ensures { OnOk result (out.new ≡ out.old
        ++ (word_text (object_row object.now.shape) ++ object_text TextOf object.now)) }
{
    match &object.shape {
        Shape::Named(ids) => {
            out.append(word(Row::Kind(Code::Object)))?;
            put_head(object, out)?;
            out.push(b'{')?;
            put_entries(ids.as_slice(), object.fields.as_slice(), out)
        }
        Shape::Compact(schema) => {
            out.append(word(Row::CompactObject))?;
            put_head(object, out)?;
            out.push(b':')?;
            schema.put(out)?;
            out.push(b'{')?;
            put_values(object.fields.as_slice(), b'}', out)
        }
    }
}

/// Appends the flags and the type of an object.
fn put_head(object: &Object, out: &mut Octets) -> Result<(), NoMemory>
    ensures { OnOk result (out.new ≡ out.old
        ++ head_text object.now.bits object.now.type_id) }
{
    put_bits(object.bits, out)?;
    out.push(b':')?;
    object.type_id.put(out)
}

/// Appends fields after their identifiers, and the brace that closes the list.
#[cycle(put)]
fn put_entries(ids: &[i32], fields: &[Value], out: &mut Octets) -> Result<(), NoMemory>
    ensures { OnOk result (out.new ≡ out.old
        ++ items_text close_brace (entry_text TextOf) (entries ids.now fields.now)) }
{
    let Some((id, more_ids)) = ids.split_first() else {
        return out.push(b'}');
    };
    let Some((field, more_fields)) = fields.split_first() else {
        return out.push(b'}');
    };
    put_entry(id, field, out)?;
    put_more_entries(more_ids, more_fields, out)
}

/// Appends fields after their identifiers, each after a comma, and the brace that closes the list.
#[cycle(put)]
fn put_more_entries(ids: &[i32], fields: &[Value], out: &mut Octets) -> Result<(), NoMemory>
    ensures { OnOk result (out.new ≡ out.old ++ until_text close_brace
        (λ entry. comma ∷ entry_text TextOf entry) (entries ids.now fields.now)) }
{
    for (index, id) in ids.iter().enumerate() {
        let Some(field) = fields.get(index) else {
            return out.push(b'}');
        };
        out.push(b',')?;
        put_entry(id, field, out)?;
    }
    out.push(b'}')
}

/// Appends a field after its identifier.
#[cycle(put)]
fn put_entry(id: &i32, field: &Value, out: &mut Octets) -> Result<(), NoMemory>
    ensures { OnOk result (out.new ≡ out.old ++ entry_text TextOf (id.now, field.now)) }
{
    id.put(out)?;
    out.push(b'=')?;
    put_value(field, out)
}
