//! Copies of trees.

ghost use Rattle.std.specs.Prelude.{◌≡◌, IfOk};
ghost use Rattle.ig_value.specs.declared.value.Value.TheVariants as value;

use crate::leaves::{Leaf, copy_leaves, copy_plain};
use crate::object::Record;
use crate::value::{Object, Value};
use ig_base::{Boxed, Items, NoMemory};
use std::alloc::Global;

impl Value {
    /// An equal tree, in memory of its own. The recursion is as deep as the tree: for one beyond
    /// the limits ([`Value::keeps_to_limits`]) the contract still holds, but the call stack may
    /// overflow.
    #[cycle(copy)]
    pub fn copy(&self, alloc: Global) -> Result<Value, NoMemory>
        ensures { IfOk result (λ made. made ≡ self.now) }
    {
        Ok(match self {
            Value::Byte(x) => Value::Byte(*x),
            Value::Short(x) => Value::Short(*x),
            Value::Int(x) => Value::Int(*x),
            Value::Long(x) => Value::Long(*x),
            Value::Float(x) => Value::Float(*x),
            Value::Double(x) => Value::Double(*x),
            Value::Char(x) => Value::Char(*x),
            Value::Bool(x) => Value::Bool(*x),
            Value::Str(x) => Value::Str(x.copy(alloc)?),
            Value::Uuid(x) => Value::Uuid(*x),
            Value::Date(x) => Value::Date(*x),
            Value::Bytes(xs) => Value::Bytes(copy_plain(alloc, xs.as_slice())?),
            Value::Shorts(xs) => Value::Shorts(copy_plain(alloc, xs.as_slice())?),
            Value::Ints(xs) => Value::Ints(copy_plain(alloc, xs.as_slice())?),
            Value::Longs(xs) => Value::Longs(copy_plain(alloc, xs.as_slice())?),
            Value::Floats(xs) => Value::Floats(copy_plain(alloc, xs.as_slice())?),
            Value::Doubles(xs) => Value::Doubles(copy_plain(alloc, xs.as_slice())?),
            Value::Chars(xs) => Value::Chars(copy_plain(alloc, xs.as_slice())?),
            Value::Bools(xs) => Value::Bools(copy_plain(alloc, xs.as_slice())?),
            Value::Strs(xs) => Value::Strs(copy_leaves(alloc, xs.as_slice())?),
            Value::Uuids(xs) => Value::Uuids(copy_plain(alloc, xs.as_slice())?),
            Value::Dates(xs) => Value::Dates(copy_plain(alloc, xs.as_slice())?),
            Value::Objects { type_id, items } => Value::Objects {
                type_id: *type_id,
                items: copy_values(alloc, items.as_slice())?,
            },
            Value::Collection { kind, items } => Value::Collection {
                kind: *kind,
                items: copy_values(alloc, items.as_slice())?,
            },
            Value::Map { kind, pairs } => Value::Map {
                kind: *kind,
                pairs: copy_pairs(alloc, pairs.as_slice())?,
            },
            Value::Wrapped { bytes, offset } => Value::Wrapped {
                bytes: bytes.copy(alloc)?,
                offset: *offset,
            },
            Value::Enum { type_id, ordinal } => Value::Enum {
                type_id: *type_id,
                ordinal: *ordinal,
            },
            Value::Enums { type_id, items } => Value::Enums {
                type_id: *type_id,
                items: copy_values(alloc, items.as_slice())?,
            },
            Value::Decimal(x) => Value::Decimal(x.copy(alloc)?),
            Value::Decimals(xs) => Value::Decimals(copy_leaves(alloc, xs.as_slice())?),
            Value::Timestamp(x) => Value::Timestamp(*x),
            Value::Timestamps(xs) => Value::Timestamps(copy_plain(alloc, xs.as_slice())?),
            Value::Time(x) => Value::Time(*x),
            Value::Times(xs) => Value::Times(copy_plain(alloc, xs.as_slice())?),
            Value::BinaryEnum { type_id, ordinal } => Value::BinaryEnum {
                type_id: *type_id,
                ordinal: *ordinal,
            },
            Value::Null => Value::Null,
            Value::Object(object) => {
                let fields = copy_values(alloc, object.get().fields.as_slice())?;
                object_like(alloc, object.get(), fields)?
            }
        })
    }
}

/// An object that is equal but for its fields, which are given and equal too.
fn object_like(alloc: Global, object: &Object, fields: Items<Value>) -> Result<Value, NoMemory>
    requires { fields ≡ object.now.fields }
    ensures { IfOk result (λ made. made ≡ value.Object object.now) }
{
    let (bits, type_id) = (object.bits, object.type_id);
    let shape = object.shape.copy(alloc)?;
    let copied = Record {
        bits,
        type_id,
        shape,
        fields,
    };
    Ok(Value::Object(Boxed::new(alloc, copied)?))
}

/// A list of equal values.
#[cycle(copy)]
fn copy_values(alloc: Global, values: &[Value]) -> Result<Items<Value>, NoMemory>
    ensures { IfOk result (λ made. made ≡ values.now) }
{
    let mut made = Vec::with_capacity(alloc, values.len())?;
    for value in values {
        made.push(value.copy(alloc)?)?;
    }
    Ok(Items::new(made))
}

/// A list of equal pairs.
#[cycle(copy)]
fn copy_pairs(alloc: Global, pairs: &[(Value, Value)]) -> Result<Items<(Value, Value)>, NoMemory>
    ensures { IfOk result (λ made. made ≡ pairs.now) }
{
    let mut made = Vec::with_capacity(alloc, pairs.len())?;
    for pair in pairs {
        made.push((pair.0.copy(alloc)?, pair.1.copy(alloc)?))?;
    }
    Ok(Items::new(made))
}
