ghost use Rattle.std.specs.Prelude.{◌<◌, ◌≤◌, length};

use ig_base::{Boxed, Items, NodeId, Octets, Text};
use ig_encode::*;
use ig_value::{Dec, Object, Record, Shape, Stamp, Value};
use std::alloc::Global;
use std::test::Fail;

/// An object of type 112 with a field of identifier 97.
static NUMBER: [u8; 34] = [
    103, 1, 11, 0, 112, 0, 0, 0, 0xFD, 0x64, 0xE1, 0x01, 34, 0, 0, 0, 0xE4, 0xD3, 0xE1, 0xF5, 29,
    0, 0, 0, 3, 5, 0, 0, 0, 97, 0, 0, 0, 24,
];

/// An object of type 112 without fields.
static EMPTY: [u8; 24] = [
    103, 1, 1, 0, 112, 0, 0, 0, 1, 0, 0, 0, 24, 0, 0, 0, 0, 0, 0, 0, 0, 0, 0, 0,
];

/// A name and an age, with a compact footer.
static PERSON: [u8; 39] = [
    103, 1, 0x2B, 0, 0x55, 0x9B, 0xE3, 0xC4, 0xC9, 0xCC, 0x94, 0x32, 39, 0, 0, 0, 0x05, 0xA9, 0,
    0x74, 37, 0, 0, 0, 9, 3, 0, 0, 0, 0x41, 0x6E, 0x6E, 3, 30, 0, 0, 0, 24, 32,
];

/// An object of type -2 that holds the first one and a null.
static NESTED: [u8; 69] = [
    103, 1, 74, 0, 254, 255, 255, 255, 95, 67, 193, 87, 69, 0, 0, 0, 224, 242, 158, 236, 59, 0, 0,
    0, 103, 1, 11, 0, 112, 0, 0, 0, 253, 100, 225, 1, 34, 0, 0, 0, 228, 211, 225, 245, 29, 0, 0, 0,
    3, 5, 0, 0, 0, 97, 0, 0, 0, 24, 101, 1, 0, 0, 0, 24, 255, 255, 255, 255, 58,
];

fn pair<T: Drop>(alloc: Global, first: T, second: T) -> Result<Items<T>, Fail> {
    let mut items = Vec::new(alloc);
    items.push(first)?;
    items.push(second)?;
    Ok(Items::new(items))
}

fn single<T: Drop>(alloc: Global, item: T) -> Result<Items<T>, Fail> {
    let mut items = Vec::new(alloc);
    items.push(item)?;
    Ok(Items::new(items))
}

fn value(alloc: Global, object: Object) -> Result<Value, Fail> {
    Ok(Value::Object(Boxed::new(alloc, object)?))
}

fn number(alloc: Global, field: i32) -> Result<Object, Fail> {
    Ok(Record {
        bits: 1,
        type_id: 112,
        shape: Shape::Named(single(alloc, 97)?),
        fields: single(alloc, Value::Int(field))?,
    })
}

fn empty(alloc: Global) -> Object {
    Record {
        bits: 1,
        type_id: 112,
        shape: Shape::Named(Items::new(Vec::new(alloc))),
        fields: Items::new(Vec::new(alloc)),
    }
}

fn person(alloc: Global) -> Result<Object, Fail> {
    let name = Value::Str(Text::new(String::from_str(alloc, "Ann")?));
    Ok(Record {
        bits: 1,
        type_id: -991_716_523,
        shape: Shape::Compact(1_946_200_325),
        fields: pair(alloc, name, Value::Int(30))?,
    })
}

fn nested(alloc: Global) -> Result<Object, Fail> {
    let inner = value(alloc, number(alloc, 5)?)?;
    Ok(Record {
        bits: 64,
        type_id: -2,
        shape: Shape::Named(pair(alloc, 1, -1)?),
        fields: pair(alloc, inner, Value::Null)?,
    })
}

/// Whether the value is written as these bytes, and each part of it as their part.
fn is_written(alloc: Global, value: &Value, bytes: &[u8]) -> Result<bool, Fail> {
    if canonical_len(value) != bytes.len() as u128 || bytes.len() > 100 {
        return Ok(false);
    }
    let mut written = Octets::empty(alloc);
    encode(alloc, value, &mut written)?;
    if written.as_slice() != bytes {
        return Ok(false);
    }
    for from in 0..bytes.len() {
        if !is_part(value, bytes, from) {
            return Ok(false);
        }
    }
    Ok(encode_part(value, bytes.len() as u64, &mut [0u8; 4]) == 0)
}

/// Whether the part of seven bytes from this offset on is right.
fn is_part(value: &Value, bytes: &[u8], from: usize) -> bool
    requires { from < length bytes.now }
{
    let mut into = [99u8; 7];
    let filled = encode_part(value, from as u64, &mut into);
    filled <= bytes.len() - from && filled <= 7 && into[..filled] == bytes[from..from + filled]
}

#[test]
fn objects_are_written(rt: HostRuntime) -> Result<(), Fail> {
    let alloc = rt.alloc();
    assert!(rt; is_written(alloc, &value(alloc, number(alloc, 5)?)?, &NUMBER)?);
    assert!(rt; is_written(alloc, &value(alloc, empty(alloc))?, &EMPTY)?);
    assert!(rt; is_written(alloc, &value(alloc, person(alloc)?)?, &PERSON)?);
    assert!(rt; is_written(alloc, &value(alloc, nested(alloc)?)?, &NESTED)?);
    Ok(())
}

#[test]
fn hashes_are_those_of_headers(rt: HostRuntime) -> Result<(), Fail> {
    let alloc = rt.alloc();
    assert_eq!(rt; object_hash(&number(alloc, 5)?)?, 0x01E1_64FD);
    assert_eq!(rt; object_hash(&number(alloc, -1)?)?, 0x01DE_A6E2);
    assert_eq!(rt; object_hash(&person(alloc)?)?, 0x3294_CCC9);
    assert_eq!(rt; object_hash(&empty(alloc))?, 1);
    Ok(())
}

/// The number of bytes in the first of two fields; then the lowest byte of the flags, the length of
/// the whole, the last byte of the hash, and the last four bytes.
static EDGES: [(usize, u8, usize, u8, [u8; 4]); 4] = [
    (226, 0x0B, 270, 184, [0, 0, 0, 255]),
    (227, 0x13, 273, 72, [0, 0, 0, 1]),
    (65_506, 0x13, 65_552, 59, [0, 0, 255, 255]),
    (65_507, 0x03, 65_557, 150, [0, 0, 1, 0]),
];

/// An object of type 112 with as many bytes, which are 0, and a number.
fn at_edge(alloc: Global, size: usize) -> Result<Value, Fail> {
    let mut bytes = Vec::new(alloc);
    bytes.resize(size, 0i8)?;
    let object = Record {
        bits: 1,
        type_id: 112,
        shape: Shape::Named(pair(alloc, 97, 98)?),
        fields: pair(alloc, Value::Bytes(Items::new(bytes)), Value::Int(5))?,
    };
    value(alloc, object)
}

#[test]
fn offsets_have_the_least_width(rt: HostRuntime) -> Result<(), Fail> {
    for (size, flags, len, hash, last) in &EDGES {
        let value = at_edge(rt.alloc(), *size)?;
        let mut head = [0u8; 24];
        assert_eq!(rt; encode_part(&value, 0, &mut head), 24);
        assert_eq!(rt; head[2], *flags);
        assert_eq!(rt; head[11], *hash);
        assert_eq!(rt; canonical_len(&value), *len as u128);
        let mut tail = [0u8; 5];
        assert_eq!(rt; encode_part(&value, (*len - 4) as u64, &mut tail), 4);
        assert_eq!(rt; &tail[..4], last.as_slice());
    }
    Ok(())
}

/// Whether the value is shown right where it is cut at this offset and five bytes further.
fn is_shown(value: &Value, bytes: &[u8], cut: usize) -> bool
    requires within { cut ≤ length bytes.now }
    requires short { length bytes.now ≤ 100 }
{
    if canonical_len(value) != bytes.len() as u128 {
        return false;
    }
    let mut mark = Mark::start();
    let mut into = [0u8; 100];
    let first = encode_next(value, &mut mark, &mut into[..cut]);
    if first != cut || into[..cut] != bytes[..cut] {
        return false;
    }
    let second = encode_next(value, &mut mark, &mut into[..5]);
    if !bytes[cut..].starts_with(&into[..second]) {
        return false;
    }
    let third = encode_next(value, &mut mark, &mut into);
    bytes.ends_with(&into[..third]) && cut + second + third == bytes.len()
}

fn is_shown_at_every_cut(value: &Value, bytes: &[u8]) -> bool
    requires { length bytes.now ≤ 100 }
{
    for cut in 0..bytes.len() {
        if !is_shown(value, bytes, cut) {
            return false;
        }
    }
    is_shown(value, bytes, bytes.len())
}

/// A list with a map in it.
static LISTED: [u8; 27] = [
    24, 2, 0, 0, 0, 1, 101, 25, 2, 0, 0, 0, 2, 8, 0, 3, 1, 2, 3, 4, 101, 9, 1, 0, 0, 0, 0x61,
];

fn listed(alloc: Global) -> Result<Value, Fail> {
    let text = Value::Str(Text::new(String::from_str(alloc, "a")?));
    let first = (Value::Bool(false), Value::Int(0x0403_0201));
    let pairs = pair(alloc, first, (Value::Null, text))?;
    let items = pair(alloc, Value::Null, Value::Map { kind: 2, pairs })?;
    Ok(Value::Collection { kind: 1, items })
}

/// Two texts, and a null between them.
static TEXTS: [u8; 19] = [
    20, 3, 0, 0, 0, 9, 1, 0, 0, 0, 0x61, 101, 9, 2, 0, 0, 0, 0x62, 0x63,
];

fn with_null<T: Drop>(alloc: Global, first: T, last: T) -> Result<Items<Option<T>>, Fail> {
    let mut items = Vec::new(alloc);
    items.push(Some(first))?;
    items.push(None)?;
    items.push(Some(last))?;
    Ok(Items::new(items))
}

fn texts(alloc: Global) -> Result<Value, Fail> {
    let first = Text::new(String::from_str(alloc, "a")?);
    let last = Text::new(String::from_str(alloc, "bc")?);
    Ok(Value::Strs(with_null(alloc, first, last)?))
}

#[test]
fn marks_go_on_at_every_cut(rt: HostRuntime) -> Result<(), Fail> {
    let alloc = rt.alloc();
    assert!(rt; is_shown_at_every_cut(&value(alloc, person(alloc)?)?, &PERSON));
    assert!(rt; is_shown_at_every_cut(&value(alloc, nested(alloc)?)?, &NESTED));
    assert!(rt; is_shown_at_every_cut(&value(alloc, empty(alloc))?, &EMPTY));
    assert!(rt; is_shown_at_every_cut(&listed(alloc)?, &LISTED));
    assert!(rt; is_shown_at_every_cut(&texts(alloc)?, &TEXTS));
    Ok(())
}

/// Whether the value is shown as these bytes in pieces of this size.
fn is_in_pieces(value: &Value, bytes: &[u8], size: usize) -> bool
    requires { size ≤ 100 }
{
    if canonical_len(value) > 10_000 {
        return false;
    }
    let mut mark = Mark::start();
    let mut piece = [0u8; 100];
    let mut rest = bytes;
    for _ in 0..10_001 {
        let filled = encode_next(value, &mut mark, &mut piece[..size]);
        match rest.strip_prefix(&piece[..filled]) {
            Some(more) => rest = more,
            None => return false,
        }
        if filled < size {
            return rest.is_empty();
        }
    }
    false
}

/// Whether the value is shown in pieces of each size as it is encoded.
fn is_encoded_in_pieces(alloc: Global, value: &Value) -> Result<bool, Fail> {
    if canonical_len(value) > 10_000 {
        return Ok(false);
    }
    let mut written = Octets::empty(alloc);
    encode(alloc, value, &mut written)?;
    let bytes = written.as_slice();
    Ok(
        is_in_pieces(value, bytes, 1)
            && is_in_pieces(value, bytes, 7)
            && is_in_pieces(value, bytes, 100),
    )
}

fn numbers(alloc: Global, count: i32) -> Result<Vec<Value>, Fail> {
    let mut items = Vec::new(alloc);
    for number in 0..count {
        items.push(Value::Int(number))?;
    }
    Ok(items)
}

fn list(items: Vec<Value>) -> Value {
    let items = Items::new(items);
    Value::Collection { kind: 1, items }
}

/// A list of lists.
fn lists(alloc: Global) -> Result<Value, Fail> {
    let mut items = numbers(alloc, 3)?;
    items.push(list(numbers(alloc, 30)?))?;
    items.push(list(numbers(alloc, 0)?))?;
    items.push(list(numbers(alloc, 40)?))?;
    let mut outer = numbers(alloc, 2)?;
    outer.push(list(items))?;
    outer.push(Value::Null)?;
    Ok(list(outer))
}

/// A map of lists.
fn map_of_lists(alloc: Global) -> Result<Value, Fail> {
    let first = (Value::Int(1), list(numbers(alloc, 25)?));
    let second = (list(numbers(alloc, 7)?), list(numbers(alloc, 25)?));
    let pairs = pair(alloc, first, second)?;
    Ok(Value::Map { kind: 1, pairs })
}

/// An object of these fields, with a footer that names them or a compact one.
fn object_of(alloc: Global, fields: Vec<Value>, named: bool) -> Result<Value, Fail> {
    let mut ids = Vec::new(alloc);
    for index in 0..fields.len() {
        ids.push((index % 1000) as i32)?;
    }
    let shape = if named {
        Shape::Named(Items::new(ids))
    } else {
        Shape::Compact(5)
    };
    let object = Record {
        bits: 1,
        type_id: 112,
        shape,
        fields: Items::new(fields),
    };
    value(alloc, object)
}

/// An object in an object, whose offsets are of two bytes and, inside, of one.
fn wide(alloc: Global, named: bool) -> Result<Value, Fail> {
    let mut fields = numbers(alloc, 20)?;
    fields.push(object_of(alloc, numbers(alloc, 40)?, named)?)?;
    fields.push(list(numbers(alloc, 10)?))?;
    fields.push(object_of(alloc, numbers(alloc, 1)?, named)?)?;
    object_of(alloc, fields, named)
}

fn uuids(alloc: Global) -> Result<Value, Fail> {
    let first = NodeId { most: 1, least: 2 };
    let last = NodeId { most: 3, least: 4 };
    Ok(Value::Uuids(with_null(alloc, first, last)?))
}

fn dates(alloc: Global) -> Result<Value, Fail> {
    Ok(Value::Dates(with_null(alloc, 5, -6)?))
}

fn times(alloc: Global) -> Result<Value, Fail> {
    Ok(Value::Times(with_null(alloc, 7, -8)?))
}

fn timestamps(alloc: Global) -> Result<Value, Fail> {
    let first = Stamp {
        millis: 9,
        nanos: 1,
    };
    let last = Stamp {
        millis: -9,
        nanos: 2,
    };
    Ok(Value::Timestamps(with_null(alloc, first, last)?))
}

fn decimal(alloc: Global, scale: i32) -> Result<Dec, Fail> {
    let bytes = Octets::new(Vec::from_slice(alloc, &[1, 255])?);
    Ok(Dec { scale, bytes })
}

fn decimals(alloc: Global) -> Result<Value, Fail> {
    let first = decimal(alloc, 10)?;
    let last = decimal(alloc, 11)?;
    Ok(Value::Decimals(with_null(alloc, first, last)?))
}

fn nulls(alloc: Global, count: i32) -> Result<Value, Fail> {
    let mut items = Vec::new(alloc);
    for _ in 0..count {
        items.push(None)?;
    }
    Ok(Value::Strs(Items::new(items)))
}

/// A list of arrays.
fn list_of_arrays(alloc: Global) -> Result<Value, Fail> {
    let mut items = numbers(alloc, 2)?;
    items.push(nulls(alloc, 300)?)?;
    items.push(texts(alloc)?)?;
    Ok(list(items))
}

#[test]
fn arrays_of_numbers_are_shown_in_pieces(rt: HostRuntime) -> Result<(), Fail> {
    let alloc = rt.alloc();
    assert!(rt; is_encoded_in_pieces(alloc, &uuids(alloc)?)?);
    assert!(rt; is_encoded_in_pieces(alloc, &dates(alloc)?)?);
    assert!(rt; is_encoded_in_pieces(alloc, &times(alloc)?)?);
    Ok(())
}

#[test]
fn arrays_of_records_are_shown_in_pieces(rt: HostRuntime) -> Result<(), Fail> {
    let alloc = rt.alloc();
    assert!(rt; is_encoded_in_pieces(alloc, &timestamps(alloc)?)?);
    assert!(rt; is_encoded_in_pieces(alloc, &decimals(alloc)?)?);
    assert!(rt; is_encoded_in_pieces(alloc, &list_of_arrays(alloc)?)?);
    Ok(())
}

#[test]
fn pieces_are_those_of_the_whole(rt: HostRuntime) -> Result<(), Fail> {
    let alloc = rt.alloc();
    assert!(rt; is_encoded_in_pieces(alloc, &lists(alloc)?)?);
    assert!(rt; is_encoded_in_pieces(alloc, &map_of_lists(alloc)?)?);
    assert!(rt; is_encoded_in_pieces(alloc, &wide(alloc, true)?)?);
    assert!(rt; is_encoded_in_pieces(alloc, &wide(alloc, false)?)?);
    Ok(())
}
