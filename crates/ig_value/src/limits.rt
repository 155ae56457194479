//! Whether a tree keeps to the limits.

ghost use Rattle.std.specs.Prelude.{◌↔◌, ◌<◌, ◌≤◌, ◌^◌, IsTrue, length};
ghost use Rattle.std.specs.List.{AllByRecursion};
ghost use Rattle.ig_value.specs.Part as scalar;
ghost use Rattle.ig_value.specs.Spells.{IsInRange};
ghost use Rattle.ig_value.specs.Limits.{Depth, Fits, FitsTo};

use crate::limited::{LONGEST, Limited, are_limited, both_limited, is_limited_head};
use crate::value::{DEEPEST, Value};

impl Value {
    /// Whether the tree keeps to the limits: at most [`DEEPEST`] levels, and at most 2^31 - 1 bytes
    /// or items in each text and list. It never goes deeper than that into the tree, so it is safe
    /// to call on any tree.
    pub fn keeps_to_limits(&self) -> bool
        ensures exact { IsTrue result ↔ Fits self.now }
        ensures shallow { IsTrue result → Depth self.now ≤ 32 }
    {
        fits_to(self, DEEPEST)
    }
}

/// Whether the tree keeps to the limits and is at most `levels` levels deep.
#[cycle(limits)]
fn fits_to(value: &Value, levels: u32) -> bool
    ensures { IsTrue result ↔ FitsTo levels value.now }
{
    if levels == 0 {
        return false;
    }
    match value {
        Value::Byte(x) => x.is_limited(),
        Value::Short(x) => x.is_limited(),
        Value::Int(x) => x.is_limited(),
        Value::Long(x) => x.is_limited(),
        Value::Float(x) => x.is_limited(),
        Value::Double(x) => x.is_limited(),
        Value::Char(x) => x.is_limited(),
        Value::Bool(x) => x.is_limited(),
        Value::Str(x) => x.is_limited(),
        Value::Uuid(x) => x.is_limited(),
        Value::Date(x) => x.is_limited(),
        Value::Bytes(xs) => are_limited(xs.as_slice()),
        Value::Shorts(xs) => are_limited(xs.as_slice()),
        Value::Ints(xs) => are_limited(xs.as_slice()),
        Value::Longs(xs) => are_limited(xs.as_slice()),
        Value::Floats(xs) => are_limited(xs.as_slice()),
        Value::Doubles(xs) => are_limited(xs.as_slice()),
        Value::Chars(xs) => are_limited(xs.as_slice()),
        Value::Bools(xs) => are_limited(xs.as_slice()),
        Value::Strs(xs) => are_limited(xs.as_slice()),
        Value::Uuids(xs) => are_limited(xs.as_slice()),
        Value::Dates(xs) => are_limited(xs.as_slice()),
        Value::Objects { type_id, items } => typed_fit(type_id, items.as_slice(), levels - 1),
        Value::Collection { kind, items } => kinded_fit(kind, items.as_slice(), levels - 1),
        Value::Map { kind, pairs } => map_fits(kind, pairs.as_slice(), levels - 1),
        Value::Wrapped { bytes, offset } => both_limited(bytes, offset),
        Value::Enum { type_id, ordinal } => both_limited(type_id, ordinal),
        Value::Enums { type_id, items } => typed_fit(type_id, items.as_slice(), levels - 1),
        Value::Decimal(x) => x.is_limited(),
        Value::Decimals(xs) => are_limited(xs.as_slice()),
        Value::Timestamp(x) => x.is_limited(),
        Value::Timestamps(xs) => are_limited(xs.as_slice()),
        Value::Time(x) => x.is_limited(),
        Value::Times(xs) => are_limited(xs.as_slice()),
        Value::BinaryEnum { type_id, ordinal } => both_limited(type_id, ordinal),
        Value::Null => true,
        Value::Object(object) => object_fits(
            is_limited_head(object.get()),
            object.get().fields.as_slice(),
            levels - 1,
        ),
    }
}

/// Whether an array of values of a type does.
#[cycle(limits)]
fn typed_fit(type_id: &i32, values: &[Value], levels: u32) -> bool
    ensures { IsTrue result ↔ (IsInRange scalar.i32 type_id.now × (length values.now < 2 ^ 31)
        × AllByRecursion (FitsTo levels) values.now) }
{
    type_id.is_limited() && values_fit(values, levels)
}

/// Whether a collection of a kind does.
#[cycle(limits)]
fn kinded_fit(kind: &i8, values: &[Value], levels: u32) -> bool
    ensures { IsTrue result ↔ ((length values.now < 2 ^ 31) × IsInRange scalar.i8 kind.now
        × AllByRecursion (FitsTo levels) values.now) }
{
    kind.is_limited() && values_fit(values, levels)
}

/// Whether a map of a kind does.
#[cycle(limits)]
fn map_fits(kind: &i8, pairs: &[(Value, Value)], levels: u32) -> bool
    ensures { IsTrue result ↔ ((length pairs.now < 2 ^ 31) × IsInRange scalar.i8 kind.now
        × AllByRecursion (λ p. FitsTo levels p.0 × FitsTo levels p.1) pairs.now) }
{
    kind.is_limited() && pairs_fit(pairs, levels)
}

/// Whether an object does, given whether its head does.
#[cycle(limits)]
fn object_fits(head: bool, fields: &[Value], levels: u32) -> bool
    ensures { IsTrue result ↔ (IsTrue head × (length fields.now < 2 ^ 31)
        × AllByRecursion (FitsTo levels) fields.now) }
{
    head && values_fit(fields, levels)
}

/// Whether an Int32 counts the values and each is within the limits.
#[cycle(limits)]
fn values_fit(values: &[Value], levels: u32) -> bool
    ensures { IsTrue result ↔ ((length values.now < 2 ^ 31)
        × AllByRecursion (FitsTo levels) values.now) }
{
    if values.len() > LONGEST {
        return false;
    }
    for value in values {
        if !fits_to(value, levels) {
            return false;
        }
    }
    true
}

/// Whether an Int32 counts the pairs and both values of each are within the limits.
#[cycle(limits)]
fn pairs_fit(pairs: &[(Value, Value)], levels: u32) -> bool
    ensures { IsTrue result ↔ ((length pairs.now < 2 ^ 31)
        × AllByRecursion (λ p. FitsTo levels p.0 × FitsTo levels p.1) pairs.now) }
{
    if pairs.len() > LONGEST {
        return false;
    }
    for pair in pairs {
        if !fits_to(&pair.0, levels) {
            return false;
        }
        if !fits_to(&pair.1, levels) {
            return false;
        }
    }
    true
}
