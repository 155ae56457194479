//! Equality of trees.

ghost use Rattle.std.specs.Prelude.{◌≡◌, ◌↔◌, IsTrue, IsFalse};

use crate::leaves::{Same, same_items};
use crate::value::{Object, Value};

impl Value {
    /// Whether both trees are equal, in their kinds, their shape and all that they hold. The
    /// recursion is as deep as the part that both have in common: for trees beyond the limits
    /// ([`Value::keeps_to_limits`]) the call stack may overflow.
    #[cycle(same)]
    pub fn same(&self, other: &Value) -> bool
        ensures { IsTrue result ↔ (self.now ≡ other.now) }
    {
        match (self, other) {
            (Value::Byte(a), Value::Byte(b)) => a == b,
            (Value::Short(a), Value::Short(b)) => a == b,
            (Value::Int(a), Value::Int(b)) => a == b,
            (Value::Long(a), Value::Long(b)) => a == b,
            (Value::Float(a), Value::Float(b)) => a == b,
            (Value::Double(a), Value::Double(b)) => a == b,
            (Value::Char(a), Value::Char(b)) => a == b,
            (Value::Bool(a), Value::Bool(b)) => a == b,
            (Value::Uuid(a), Value::Uuid(b)) => a == b,
            (Value::Date(a), Value::Date(b)) => a == b,
            (Value::Timestamp(a), Value::Timestamp(b)) => a == b,
            (Value::Time(a), Value::Time(b)) => a == b,
            (Value::Str(a), Value::Str(b)) => a.same(b),
            (Value::Decimal(a), Value::Decimal(b)) => a.same(b),
            (Value::Bytes(a), Value::Bytes(b)) => same_items(a.as_slice(), b.as_slice()),
            (Value::Shorts(a), Value::Shorts(b)) => same_items(a.as_slice(), b.as_slice()),
            (Value::Ints(a), Value::Ints(b)) => same_items(a.as_slice(), b.as_slice()),
            (Value::Longs(a), Value::Longs(b)) => same_items(a.as_slice(), b.as_slice()),
            (Value::Floats(a), Value::Floats(b)) => same_items(a.as_slice(), b.as_slice()),
            (Value::Doubles(a), Value::Doubles(b)) => same_items(a.as_slice(), b.as_slice()),
            (Value::Chars(a), Value::Chars(b)) => same_items(a.as_slice(), b.as_slice()),
            (Value::Bools(a), Value::Bools(b)) => same_items(a.as_slice(), b.as_slice()),
            (Value::Uuids(a), Value::Uuids(b)) => same_items(a.as_slice(), b.as_slice()),
            (Value::Dates(a), Value::Dates(b)) => same_items(a.as_slice(), b.as_slice()),
            (Value::Timestamps(a), Value::Timestamps(b)) => same_items(a.as_slice(), b.as_slice()),
            (Value::Times(a), Value::Times(b)) => same_items(a.as_slice(), b.as_slice()),
            (Value::Strs(a), Value::Strs(b)) => same_items(a.as_slice(), b.as_slice()),
            (Value::Decimals(a), Value::Decimals(b)) => same_items(a.as_slice(), b.as_slice()),
            (
                Value::Objects {
                    type_id: s,
                    items: a,
                },
                Value::Objects {
                    type_id: t,
                    items: b,
                },
            ) => s == t && same_values(a.as_slice(), b.as_slice()),
            (
                Value::Enums {
                    type_id: s,
                    items: a,
                },
                Value::Enums {
                    type_id: t,
                    items: b,
                },
            ) => s == t && same_values(a.as_slice(), b.as_slice()),
            (Value::Collection { kind: s, items: a }, Value::Collection { kind: t, items: b }) => s
                == t
                && same_values(a.as_slice(), b.as_slice()),
            (Value::Map { kind: s, pairs: a }, Value::Map { kind: t, pairs: b }) => s == t
                && same_pairs(a.as_slice(), b.as_slice()),
            (
                Value::Wrapped {
                    bytes: a,
                    offset: s,
                },
                Value::Wrapped {
                    bytes: b,
                    offset: t,
                },
            ) => s == t && a.same(b),
            (
                Value::Enum {
                    type_id: s,
                    ordinal: a,
                },
                Value::Enum {
                    type_id: t,
                    ordinal: b,
                },
            ) => s == t && a == b,
            (
                Value::BinaryEnum {
                    type_id: s,
                    ordinal: a,
                },
                Value::BinaryEnum {
                    type_id: t,
                    ordinal: b,
                },
            ) => s == t && a == b,
            (Value::Null, Value::Null) => true,
            (Value::Object(a), Value::Object(b)) => same_heads(a.get(), b.get())
                && same_values(a.get().fields.as_slice(), b.get().fields.as_slice()),
            _ => false,
        }
    }
}

/// Whether two objects are equal but for their fields.
fn same_heads(a: &Object, b: &Object) -> bool
    ensures equal { IsTrue result → (a.now.fields ≡ b.now.fields) → a.now ≡ b.now }
    ensures other { IsFalse result → a.now ≡ b.now → ⊥ }
{
    a.bits == b.bits && a.type_id == b.type_id && a.shape.same(&b.shape)
}

/// Whether both lists have equal values in the same order.
#[cycle(same)]
fn same_values(a: &[Value], b: &[Value]) -> bool
    ensures { IsTrue result ↔ (a.now ≡ b.now) }
{
    if a.len() != b.len() {
        return false;
    }
    for (x, y) in a.iter().zip(b) {
        if !x.same(y) {
            return false;
        }
    }
    true
}

/// Whether both lists have equal pairs in the same order.
#[cycle(same)]
fn same_pairs(a: &[(Value, Value)], b: &[(Value, Value)]) -> bool
    ensures { IsTrue result ↔ (a.now ≡ b.now) }
{
    if a.len() != b.len() {
        return false;
    }
    for (x, y) in a.iter().zip(b) {
        if !x.0.same(&y.0) || !x.1.same(&y.1) {
            return false;
        }
    }
    true
}
