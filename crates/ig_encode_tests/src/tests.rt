use ig_base::{Items, NodeId, Octets, Text};
use ig_encode::*;
use ig_value::{Dec, Stamp, Value};
use std::alloc::Global;
use std::test::Fail;

/// A value, and its bytes as the format's table gives them.
type Example = (Value, &'static [u8]);

fn list<T: Drop>(alloc: Global, item: T) -> Result<Items<T>, Fail> {
    let mut items = Vec::new(alloc);
    items.push(item)?;
    Ok(Items::new(items))
}

fn text(alloc: Global) -> Result<Text, Fail> {
    Ok(Text::new(String::from_str(alloc, "é")?))
}

fn octets(alloc: Global) -> Result<Octets, Fail> {
    Ok(Octets::new(Vec::from_slice(alloc, &[1, 255])?))
}

const ID: NodeId = NodeId {
    most: 0x0807060504030201,
    least: 0x100f0e0d0c0b0a09,
};

const STAMP: Stamp = Stamp {
    millis: -2,
    nanos: 3,
};

fn scalars(alloc: Global, examples: &mut Vec<Example>) -> Result<(), Fail> {
    examples.push((Value::Byte(-1), &[1, 0xff]))?;
    examples.push((Value::Short(-2), &[2, 0xfe, 0xff]))?;
    examples.push((Value::Int(0x04030201), &[3, 1, 2, 3, 4]))?;
    examples.push((
        Value::Long(-2),
        &[4, 0xfe, 0xff, 0xff, 0xff, 0xff, 0xff, 0xff, 0xff],
    ))?;
    examples.push((Value::Float(0x3f800000), &[5, 0, 0, 0x80, 0x3f]))?;
    examples.push((
        Value::Double(0x3ff0000000000000),
        &[6, 0, 0, 0, 0, 0, 0, 0xf0, 0x3f],
    ))?;
    examples.push((Value::Char(0x263a), &[7, 0x3a, 0x26]))?;
    examples.push((Value::Bool(true), &[8, 1]))?;
    examples.push((Value::Str(text(alloc)?), &[9, 2, 0, 0, 0, 0xc3, 0xa9]))?;
    examples.push((
        Value::Uuid(ID),
        &[10, 1, 2, 3, 4, 5, 6, 7, 8, 9, 10, 11, 12, 13, 14, 15, 16],
    ))?;
    examples.push((Value::Date(1), &[11, 1, 0, 0, 0, 0, 0, 0, 0]))?;
    examples.push((
        Value::Timestamp(STAMP),
        &[
            33, 0xfe, 0xff, 0xff, 0xff, 0xff, 0xff, 0xff, 0xff, 3, 0, 0, 0,
        ],
    ))?;
    examples.push((Value::Time(2), &[36, 2, 0, 0, 0, 0, 0, 0, 0]))?;
    examples.push((Value::Null, &[101]))?;
    Ok(())
}

fn arrays(alloc: Global, examples: &mut Vec<Example>) -> Result<(), Fail> {
    examples.push((Value::Bytes(list(alloc, -1i8)?), &[12, 1, 0, 0, 0, 0xff]))?;
    examples.push((Value::Shorts(list(alloc, 2i16)?), &[13, 1, 0, 0, 0, 2, 0]))?;
    examples.push((
        Value::Ints(list(alloc, 3i32)?),
        &[14, 1, 0, 0, 0, 3, 0, 0, 0],
    ))?;
    examples.push((
        Value::Longs(list(alloc, 4i64)?),
        &[15, 1, 0, 0, 0, 4, 0, 0, 0, 0, 0, 0, 0],
    ))?;
    examples.push((
        Value::Floats(list(alloc, 5u32)?),
        &[16, 1, 0, 0, 0, 5, 0, 0, 0],
    ))?;
    examples.push((
        Value::Doubles(list(alloc, 6u64)?),
        &[17, 1, 0, 0, 0, 6, 0, 0, 0, 0, 0, 0, 0],
    ))?;
    examples.push((Value::Chars(list(alloc, 7u16)?), &[18, 1, 0, 0, 0, 7, 0]))?;
    examples.push((Value::Bools(list(alloc, false)?), &[19, 1, 0, 0, 0, 0]))?;
    examples.push((
        Value::Strs(list(alloc, Some(text(alloc)?))?),
        &[20, 1, 0, 0, 0, 9, 2, 0, 0, 0, 0xc3, 0xa9],
    ))?;
    examples.push((Value::Uuids(list(alloc, None)?), &[21, 1, 0, 0, 0, 101]))?;
    examples.push((
        Value::Uuids(list(alloc, Some(ID))?),
        &[
            21, 1, 0, 0, 0, 10, 1, 2, 3, 4, 5, 6, 7, 8, 9, 10, 11, 12, 13, 14, 15, 16,
        ],
    ))?;
    examples.push((
        Value::Dates(list(alloc, Some(1))?),
        &[22, 1, 0, 0, 0, 11, 1, 0, 0, 0, 0, 0, 0, 0],
    ))?;
    examples.push((
        Value::Timestamps(list(alloc, Some(STAMP))?),
        &[
            34, 1, 0, 0, 0, 33, 0xfe, 0xff, 0xff, 0xff, 0xff, 0xff, 0xff, 0xff, 3, 0, 0, 0,
        ],
    ))?;
    examples.push((
        Value::Times(list(alloc, Some(2))?),
        &[37, 1, 0, 0, 0, 36, 2, 0, 0, 0, 0, 0, 0, 0],
    ))?;
    Ok(())
}

fn others(alloc: Global, examples: &mut Vec<Example>) -> Result<(), Fail> {
    let decimal = Dec {
        scale: 2,
        bytes: octets(alloc)?,
    };
    examples.push((
        Value::Decimal(decimal),
        &[30, 2, 0, 0, 0, 2, 0, 0, 0, 1, 255],
    ))?;
    let decimal = Dec {
        scale: 2,
        bytes: octets(alloc)?,
    };
    examples.push((
        Value::Decimals(list(alloc, Some(decimal))?),
        &[31, 1, 0, 0, 0, 30, 2, 0, 0, 0, 2, 0, 0, 0, 1, 255],
    ))?;
    examples.push((
        Value::Wrapped {
            bytes: octets(alloc)?,
            offset: -1,
        },
        &[27, 2, 0, 0, 0, 1, 255, 255, 255, 255, 255],
    ))?;
    examples.push((
        Value::Enum {
            type_id: 5,
            ordinal: 1,
        },
        &[28, 5, 0, 0, 0, 1, 0, 0, 0],
    ))?;
    examples.push((
        Value::BinaryEnum {
            type_id: 6,
            ordinal: 2,
        },
        &[38, 6, 0, 0, 0, 2, 0, 0, 0],
    ))?;
    let items = list(alloc, Value::Byte(7))?;
    examples.push((
        Value::Objects { type_id: -1, items },
        &[23, 255, 255, 255, 255, 1, 0, 0, 0, 1, 7],
    ))?;
    let items = list(alloc, Value::Null)?;
    examples.push((
        Value::Enums { type_id: 9, items },
        &[29, 9, 0, 0, 0, 1, 0, 0, 0, 101],
    ))?;
    let pairs = list(alloc, (Value::Bool(false), Value::Byte(1)))?;
    let items = list(alloc, Value::Map { kind: 2, pairs })?;
    examples.push((
        Value::Collection { kind: -1, items },
        &[24, 1, 0, 0, 0, 255, 25, 1, 0, 0, 0, 2, 8, 0, 1, 1],
    ))?;
    Ok(())
}

/// No items.
fn none<T: Drop>(alloc: Global) -> Items<T> {
    Items::new(Vec::new(alloc))
}

/// The shortest value of each code with a count.
fn shortest(alloc: Global, examples: &mut Vec<Example>) -> Result<(), Fail> {
    examples.push((Value::Str(Text::new(String::new(alloc))), &[9, 0, 0, 0, 0]))?;
    examples.push((Value::Bytes(none(alloc)), &[12, 0, 0, 0, 0]))?;
    examples.push((Value::Shorts(none(alloc)), &[13, 0, 0, 0, 0]))?;
    examples.push((Value::Ints(none(alloc)), &[14, 0, 0, 0, 0]))?;
    examples.push((Value::Longs(none(alloc)), &[15, 0, 0, 0, 0]))?;
    examples.push((Value::Floats(none(alloc)), &[16, 0, 0, 0, 0]))?;
    examples.push((Value::Doubles(none(alloc)), &[17, 0, 0, 0, 0]))?;
    examples.push((Value::Chars(none(alloc)), &[18, 0, 0, 0, 0]))?;
    examples.push((Value::Bools(none(alloc)), &[19, 0, 0, 0, 0]))?;
    examples.push((Value::Strs(none(alloc)), &[20, 0, 0, 0, 0]))?;
    examples.push((Value::Uuids(none(alloc)), &[21, 0, 0, 0, 0]))?;
    examples.push((Value::Dates(none(alloc)), &[22, 0, 0, 0, 0]))?;
    examples.push((Value::Decimals(none(alloc)), &[31, 0, 0, 0, 0]))?;
    examples.push((Value::Timestamps(none(alloc)), &[34, 0, 0, 0, 0]))?;
    examples.push((Value::Times(none(alloc)), &[37, 0, 0, 0, 0]))?;
    Ok(())
}

/// The same where there is more than a count before the items.
fn shortest_with_more(alloc: Global, examples: &mut Vec<Example>) -> Result<(), Fail> {
    let items = none(alloc);
    let type_id = 1;
    examples.push((
        Value::Objects { type_id, items },
        &[23, 1, 0, 0, 0, 0, 0, 0, 0],
    ))?;
    let items = none(alloc);
    examples.push((
        Value::Enums { type_id, items },
        &[29, 1, 0, 0, 0, 0, 0, 0, 0],
    ))?;
    let items = none(alloc);
    examples.push((Value::Collection { kind: 5, items }, &[24, 0, 0, 0, 0, 5]))?;
    let pairs = none(alloc);
    examples.push((Value::Map { kind: 1, pairs }, &[25, 0, 0, 0, 0, 1]))?;
    let bytes = Octets::empty(alloc);
    examples.push((
        Value::Wrapped { bytes, offset: 2 },
        &[27, 0, 0, 0, 0, 2, 0, 0, 0],
    ))?;
    let bytes = Octets::empty(alloc);
    examples.push((
        Value::Decimal(Dec { scale: 3, bytes }),
        &[30, 3, 0, 0, 0, 0, 0, 0, 0],
    ))?;
    Ok(())
}

/// Each row of the table.
#[test]
fn every_row(rt: HostRuntime) -> Result<(), Fail> {
    let mut examples = Vec::new(rt.alloc());
    scalars(rt.alloc(), &mut examples)?;
    arrays(rt.alloc(), &mut examples)?;
    others(rt.alloc(), &mut examples)?;
    shortest(rt.alloc(), &mut examples)?;
    shortest_with_more(rt.alloc(), &mut examples)?;
    for (value, bytes) in &examples {
        assert_eq!(rt; canonical_len(value), bytes.len() as u128, "of {bytes:?}");
        let mut written = Octets::empty(rt.alloc());
        written.push(77)?;
        assert!(rt; bytes.len() < 100);
        assert!(rt; canonical_len(value) < 100);
        encode(rt.alloc(), value, &mut written)?;
        assert_eq!(rt; &written.as_slice()[1..], *bytes);
        assert!(rt; value.keeps_to_limits(), "of {bytes:?}");
        assert!(rt; value.copy(rt.alloc())?.same(value), "of {bytes:?}");
    }
    Ok(())
}

/// A list of a list of three numbers, and a text.
fn small_list(alloc: Global) -> Result<Value, Fail> {
    let mut numbers = Vec::new(alloc);
    numbers.push(0x04030201i32)?;
    numbers.push(0x08070605)?;
    numbers.push(0x0c0b0a09)?;
    let mut items = Vec::new(alloc);
    items.push(Value::Ints(Items::new(numbers)))?;
    items.push(Value::Str(Text::new(String::from_str(alloc, "ab")?)))?;
    let items = Items::new(items);
    Ok(Value::Collection { kind: 0, items })
}

/// Every part of a value, from every offset.
#[test]
fn parts(rt: HostRuntime) -> Result<(), Fail> {
    let bytes = [
        24, 2, 0, 0, 0, 0, 14, 3, 0, 0, 0, 1, 2, 3, 4, 5, 6, 7, 8, 9, 10, 11, 12, 9, 2, 0, 0, 0,
        0x61, 0x62,
    ];
    let value = small_list(rt.alloc())?;
    for from in 0..32usize {
        for room in 0..12usize {
            let mut into = [99u8; 12];
            let filled = encode_part(&value, from as u64, &mut into[..room]);
            let start = if from < bytes.len() {
                from
            } else {
                bytes.len()
            };
            let left = &bytes[start..];
            let wanted = if left.len() < room { left.len() } else { room };
            assert_eq!(rt; filled, wanted, "{room} from {from}");
            assert_eq!(rt; &into[..wanted], &left[..wanted], "{room} from {from}");
            assert!(rt;
                into[wanted..].iter().all(|b| *b == 99),
                "{room} from {from}"
            );
        }
    }
    Ok(())
}
