//! The value tree.

use crate::object::Record;
use ig_base::{Boxed, Items, NodeId, Octets, Text};

/// A decimal number: `bytes` is the unscaled value as it was read, highest byte first.
#[derive(Debug, Drop)]
pub struct Dec {
    /// How many digits stand after the decimal point. Any number is kept as it was read.
    pub scale: i32,
    pub bytes: Octets,
}

/// A point in time: milliseconds, and nanoseconds within the millisecond.
#[derive(Clone, Copy, Debug, PartialEq, Eq)]
pub struct Stamp {
    pub millis: i64,
    pub nanos: i32,
}

/// The greatest depth of a value.
pub const DEEPEST: u32 = 32;

/// A value, as a tree. Each variant is a row of the format, with its code. Numbers are kept as they
/// were read, also those without a meaning, as a kind of collection that nobody knows.
///
/// A value keeps to the limits where it is at most [`DEEPEST`] levels deep, each text and list in
/// it has at most 2^31 - 1 bytes or items, and each object is as [`Record`] says: `Fits` in
/// `specs/Limits.antt`. Whatever is decoded does. A tree that a caller builds may break them:
/// [`Value::keeps_to_limits`] tells, and it is safe to call on any tree.
#[derive(Debug, Drop)]
pub enum Value {
    /// Code 1.
    Byte(i8),
    /// Code 2.
    Short(i16),
    /// Code 3.
    Int(i32),
    /// Code 4.
    Long(i64),
    /// Code 5: the bits of a float.
    Float(u32),
    /// Code 6: the bits of a double.
    Double(u64),
    /// Code 7: a UTF-16 unit.
    Char(u16),
    /// Code 8.
    Bool(bool),
    /// Code 9.
    Str(Text),
    /// Code 10.
    Uuid(NodeId),
    /// Code 11: milliseconds.
    Date(i64),
    /// Code 12.
    Bytes(Items<i8>),
    /// Code 13.
    Shorts(Items<i16>),
    /// Code 14.
    Ints(Items<i32>),
    /// Code 15.
    Longs(Items<i64>),
    /// Code 16: the bits of floats.
    Floats(Items<u32>),
    /// Code 17: the bits of doubles.
    Doubles(Items<u64>),
    /// Code 18: UTF-16 units.
    Chars(Items<u16>),
    /// Code 19.
    Bools(Items<bool>),
    /// Code 20: texts, or nulls.
    Strs(Items<Option<Text>>),
    /// Code 21: identifiers, or nulls.
    Uuids(Items<Option<NodeId>>),
    /// Code 22: dates in milliseconds, or nulls.
    Dates(Items<Option<i64>>),
    /// Code 23: an array of objects of a type.
    Objects {
        type_id: i32,
        items: Items<Value>,
    },
    /// Code 24: a collection; the kind says which, as an array list or a set.
    Collection {
        kind: i8,
        items: Items<Value>,
    },
    /// Code 25: a map; the kind says which. Pairs are keys and their values, in the order in which
    /// they were read.
    Map {
        kind: i8,
        pairs: Items<(Value, Value)>,
    },
    /// Code 27: an object wrapped in bytes, and its offset in them.
    Wrapped {
        bytes: Octets,
        offset: i32,
    },
    /// Code 28: a literal of an enum type, by its ordinal.
    Enum {
        type_id: i32,
        ordinal: i32,
    },
    /// Code 29: an array of enums of a type.
    Enums {
        type_id: i32,
        items: Items<Value>,
    },
    /// Code 30.
    Decimal(Dec),
    /// Code 31: decimals, or nulls.
    Decimals(Items<Option<Dec>>),
    /// Code 33.
    Timestamp(Stamp),
    /// Code 34: timestamps, or nulls.
    Timestamps(Items<Option<Stamp>>),
    /// Code 36: milliseconds.
    Time(i64),
    /// Code 37: times in milliseconds, or nulls.
    Times(Items<Option<i64>>),
    /// Code 38: as 28, for an enum type whose description is registered.
    BinaryEnum {
        type_id: i32,
        ordinal: i32,
    },
    /// Code 101: no value.
    Null,
    /// Code 103: a complex object.
    Object(Boxed<Record<Value>>),
}

/// A complex object.
pub type Object = Record<Value>;
