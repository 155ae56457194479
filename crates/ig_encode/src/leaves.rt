//! Values that hold no value.

ghost use Rattle.std.specs.Prelude.{◌≡◌, ◌+◌, ◌*◌, ◌≤◌, ◌∷◌, ◌++◌, [], pos, length};
ghost use Rattle.std.specs.List.{flat_map};
ghost use Rattle.ig_value.specs.Table.{byte_of};
ghost use Rattle.ig_value.specs.Canon.{Canon, counted_bytes, optional_bytes};
ghost use Rattle.ig_encode.specs.Splice.{splice};
ghost use Rattle.ig_encode.specs.ListBytes.{array_bytes};
ghost use Rattle.ig_encode.specs.Leaves.{IsLeaf};

use crate::coded::{Item, put_both, put_code, put_row, put_scalar, put_text};
use crate::heads::Count;
use crate::output::Output;
use crate::spell::{Spell, WriteElement};
use ig_value::{Code, Value};

/// Puts the canonical form of a value that holds no value. Puts nothing of another.
#[inline(always)]
pub(crate) fn put_leaf<S: Output>(value: &Value, out: &mut S, into: &mut [u8])
    ensures { IsLeaf value.now
        → (out.new, into.new) ≡ S.after out.old into.old (Canon value.now) }
{
    match value {
        Value::Byte(x) => put_scalar(Code::Byte, x, out, into),
        Value::Short(x) => put_scalar(Code::Short, x, out, into),
        Value::Int(x) => put_scalar(Code::Int, x, out, into),
        Value::Long(x) => put_scalar(Code::Long, x, out, into),
        Value::Float(x) => put_scalar(Code::Float, x, out, into),
        Value::Double(x) => put_scalar(Code::Double, x, out, into),
        Value::Char(x) => put_scalar(Code::Char, x, out, into),
        Value::Bool(x) => put_scalar(Code::Bool, x, out, into),
        Value::Str(x) => put_text(Code::Str, x, out, into),
        Value::Uuid(x) => put_row(Code::Uuid, x, out, into),
        Value::Date(x) => put_scalar(Code::Date, x, out, into),
        Value::Bytes(xs) => put_array(Code::Bytes, xs.as_slice(), out, into),
        Value::Shorts(xs) => put_array(Code::Shorts, xs.as_slice(), out, into),
        Value::Ints(xs) => put_array(Code::Ints, xs.as_slice(), out, into),
        Value::Longs(xs) => put_array(Code::Longs, xs.as_slice(), out, into),
        Value::Floats(xs) => put_array(Code::Floats, xs.as_slice(), out, into),
        Value::Doubles(xs) => put_array(Code::Doubles, xs.as_slice(), out, into),
        Value::Chars(xs) => put_array(Code::Chars, xs.as_slice(), out, into),
        Value::Bools(xs) => put_array(Code::Bools, xs.as_slice(), out, into),
        Value::Strs(xs) => put_optionals(Code::Strs, Code::Str, xs.as_slice(), out, into),
        Value::Uuids(xs) => put_optionals(Code::Uuids, Code::Uuid, xs.as_slice(), out, into),
        Value::Dates(xs) => put_optionals(Code::Dates, Code::Date, xs.as_slice(), out, into),
        Value::Wrapped { bytes, offset } => put_both(Code::Wrapped, bytes, offset, out, into),
        Value::Enum { type_id, ordinal } => put_both(Code::Enum, type_id, ordinal, out, into),
        Value::Decimal(x) => put_row(Code::Decimal, x, out, into),
        Value::Decimals(xs) => put_optionals(
            Code::Decimals,
            Code::Decimal,
            xs.as_slice(),
            out,
            into,
        ),
        Value::Timestamp(x) => put_row(Code::Timestamp, x, out, into),
        Value::Timestamps(xs) => put_optionals(
            Code::Timestamps,
            Code::Timestamp,
            xs.as_slice(),
            out,
            into,
        ),
        Value::Time(x) => put_scalar(Code::Time, x, out, into),
        Value::Times(xs) => put_optionals(Code::Times, Code::Time, xs.as_slice(), out, into),
        Value::BinaryEnum { type_id, ordinal } => put_both(
            Code::BinaryEnum,
            type_id,
            ordinal,
            out,
            into,
        ),
        Value::Null => put_code(Code::Null, out, into),
        Value::Objects { .. } => (),
        Value::Collection { .. } => (),
        Value::Map { .. } => (),
        Value::Enums { .. } => (),
        Value::Object(_) => (),
    }
}

/// Puts a code and an array of elements.
#[inline(never)]
fn put_array<E: WriteElement, S: Output>(code: Code, elements: &[E], out: &mut S, into: &mut [u8])
    ensures { (out.new, into.new)
        ≡ S.after out.old into.old (byte_of code ∷ array_bytes E.Spell.bytes elements.now) }
{
    let count = Count {
        items: elements.len(),
    };
    put_scalar(code, &count, out, into);
    put_elements(elements, out, into);
}

/// Puts elements, in order. It doesn't look at those that the output skips as a whole.
fn put_elements<E: WriteElement, S: Output>(elements: &[E], out: &mut S, into: &mut [u8])
    ensures { (out.new, into.new) ≡ S.after out.old into.old (flat_map E.Spell.bytes elements.now) }
{
    let passed = out.pass(into, E::width(), elements.len());
    let (_, rest) = elements.split_at(passed);
    put_rest(rest, out, into);
}

/// The same for elements of which none is skipped as a whole.
fn put_rest<E: WriteElement, S: Output>(elements: &[E], out: &mut S, into: &mut [u8])
    ensures { (out.new, into.new) ≡ S.after out.old into.old (flat_map E.Spell.bytes elements.now) }
{
    let (at, whole) = out.claim(into.len(), E::width(), elements.len());
    let (front, rest) = elements.split_at(whole);
    write_all(front, into, at);
    put_parts(rest, out, into);
}

/// Writes elements into the slice from an index on.
fn write_all<E: WriteElement>(elements: &[E], into: &mut [u8], at: usize)
    requires { at + length elements.now * E.byte_count ≤ length into.old }
    ensures { into.new ≡ splice into.old at (flat_map E.Spell.bytes elements.now) }
{
    let width = E::width();
    let mut place = at;
    for element in elements {
        element.write_at(into, place);
        place += width;
    }
}

/// Puts parts, in order.
fn put_parts<T: Spell, S: Output>(parts: &[T], out: &mut S, into: &mut [u8])
    ensures { (out.new, into.new) ≡ S.after out.old into.old (flat_map T.bytes parts.now) }
{
    for part in parts {
        if out.is_full(into) {
            return;
        }
        part.put(out, into);
    }
}

/// Puts a code and an array of parts and nulls. Each part follows the inner code.
#[inline(never)]
fn put_optionals<T: Item, S: Output>(
    code: Code,
    inner: Code,
    parts: &[Option<T>],
    out: &mut S,
    into: &mut [u8],
)
    ensures { (out.new, into.new)
        ≡ S.after out.old into.old (byte_of code
        ∷ array_bytes (optional_bytes (byte_of inner) T.Spell.bytes) parts.now) }
{
    let count = Count { items: parts.len() };
    put_scalar(code, &count, out, into);
    put_each_optional(inner, parts, out, into);
}

/// Puts parts and nulls, in order.
pub(crate) fn put_each_optional<T: Item, S: Output>(
    inner: Code,
    parts: &[Option<T>],
    out: &mut S,
    into: &mut [u8],
)
    ensures { (out.new, into.new)
        ≡ S.after out.old into.old (flat_map (optional_bytes (byte_of inner) T.Spell.bytes) parts.now) }
{
    for part in parts {
        if out.is_full(into) {
            return;
        }
        put_optional(inner, part, out, into);
    }
}

/// Puts null, or a code and its part.
pub(crate) fn put_optional<T: Item, S: Output>(
    code: Code,
    part: &Option<T>,
    out: &mut S,
    into: &mut [u8],
)
    ensures { (out.new, into.new)
        ≡ S.after out.old into.old (optional_bytes (byte_of code) T.Spell.bytes part.now) }
{
    match part {
        None => put_code(Code::Null, out, into),
        Some(part) => part.put_behind(code, out, into),
    }
}
