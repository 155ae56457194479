use ig_base::bytes_hash;
use ig_decode::*;
use ig_value::{Shape, Value};
use std::alloc::{AllocError, Global};
use std::test::Fail;

/// The refusals that the format asks for, with their offsets.
#[test]
fn refusals(rt: HostRuntime) {
    let table: [(&[u8], usize, Cause); 22] = [
        (&[], 0, Cause::Short),
        (&[102], 0, Cause::Code(102)),
        (&[103, 1, 7, 0], 0, Cause::Short),
        (&[8, 2], 1, Cause::Bool(2)),
        (&[9, 5, 0, 0, 0, 0x61], 5, Cause::Short),
        (&[12, 0xff, 0xff, 0xff, 0x7f], 5, Cause::Short),
        (&[9, 0xff, 0xff, 0xff, 0x7f], 5, Cause::Short),
        (&[27, 3, 0, 0, 0, 1, 2], 5, Cause::Short),
        (&[12, 3, 0, 0, 0, 1, 2], 7, Cause::Short),
        (&[23, 1, 0, 0, 0, 0xff, 0xff, 0xff, 0x7f], 9, Cause::Short),
        (&[14, 0xff, 0xff, 0xff, 0x7f], 5, Cause::Short),
        (&[20, 0xff, 0xff, 0xff, 0x7f], 5, Cause::Short),
        (&[24, 0xff, 0xff, 0xff, 0x7f, 1], 6, Cause::Short),
        (&[25, 0xff, 0xff, 0xff, 0x7f, 1], 6, Cause::Short),
        (&[12, 0xff, 0xff, 0xff, 0xff], 1, Cause::Count(-1)),
        (&[9, 2, 0, 0, 0, 0xc3, 0x28], 5, Cause::Utf8),
        (&[14, 2, 0, 0, 0, 1, 0, 0, 0, 2, 0], 9, Cause::Short),
        (&[19, 2, 0, 0, 0, 1, 3], 6, Cause::Bool(3)),
        (&[19, 3, 0, 0, 0, 1, 1], 7, Cause::Short),
        (&[20, 1, 0, 0, 0, 3], 5, Cause::Code(3)),
        (
            &[31, 1, 0, 0, 0, 30, 0, 0, 0, 0, 2, 0, 0, 0, 7],
            14,
            Cause::Short,
        ),
        (&[25, 1, 0, 0, 0, 1, 101, 5, 0], 8, Cause::Short),
    ];
    for (bytes, place, cause) in table {
        let wanted = DecodeFault::Refused(Refusal { place, cause });
        match decode(rt.alloc(), bytes) {
            Ok(_) => assert!(rt; false, "{bytes:?} was read"),
            Err(fault) => assert_eq!(rt; fault, wanted, "of {bytes:?}"),
        }
    }
}

/// A null inside this many levels of collections.
fn nested(rt: &HostRuntime, levels: usize) -> Result<Vec<u8>, Fail> {
    let mut bytes = Vec::new(rt.alloc());
    for _ in 0..levels {
        bytes.extend_from_slice(&[24, 1, 0, 0, 0, 1])?;
    }
    bytes.push(101)?;
    Ok(bytes)
}

#[test]
fn depth(rt: HostRuntime) -> Result<(), Fail> {
    let deepest = decode(rt.alloc(), &nested(&rt, 31)?)
        .ok()
        .ok_or("32 levels are read")?;
    assert_eq!(rt; deepest.used, 187);
    assert!(rt; deepest.canonical);
    let wanted = DecodeFault::Refused(Refusal {
        place: 192,
        cause: Cause::Depth,
    });
    match decode(rt.alloc(), &nested(&rt, 32)?) {
        Ok(_) => assert!(rt; false, "33 levels were read"),
        Err(fault) => assert_eq!(rt; fault, wanted),
    }
    Ok(())
}

#[test]
fn places(rt: HostRuntime) -> Result<(), Fail> {
    let bytes = [7, 7, 3, 5, 0, 0, 0, 8, 9];
    let read = decode_at(rt.alloc(), &bytes, 2)
        .ok()
        .ok_or("an int stands at 2")?;
    assert_eq!(rt; read.used, 5);
    assert!(rt; matches!(&read.value, Value::Int(5)));
    match decode_at(rt.alloc(), &bytes, 7) {
        Ok(_) => assert!(rt; false, "9 is no truth value"),
        Err(fault) => assert_eq!(rt;
            fault,
            DecodeFault::Refused(Refusal {
                place: 8,
                cause: Cause::Bool(9)
            })
        ),
    }
    assert!(rt; is_canonical(rt.alloc(), &bytes[2..7])?);
    assert!(rt; !is_canonical(rt.alloc(), &bytes[2..])?);
    assert!(rt; !is_canonical(rt.alloc(), &bytes[..2])?);
    Ok(())
}

#[test]
fn refusals_name_the_offset(rt: HostRuntime) -> Result<(), Fail> {
    let fault = DecodeFault::Refused(Refusal {
        place: 12,
        cause: Cause::Short,
    });
    let text = format!(in rt.alloc(); "{fault}")?;
    assert_eq!(rt; text.as_str(), "the value isn't whole at offset 12");
    let text = format!(in rt.alloc(); "{}", Cause::Count(-1))?;
    assert_eq!(rt; text.as_str(), "the count -1 is negative");
    Ok(())
}

/// Objects, and whether they are canonical.
static OBJECTS: [(&[u8], bool); 5] = [
    // Of the type 112, whose field 97 is the int 5.
    (
        &[
            0x67, 1, 0x0B, 0, 0x70, 0, 0, 0, 0xFD, 0x64, 0xE1, 1, 0x22, 0, 0, 0, 0xE4, 0xD3, 0xE1,
            0xF5, 0x1D, 0, 0, 0, 3, 5, 0, 0, 0, 0x61, 0, 0, 0, 0x18,
        ],
        true,
    ),
    // The same with an offset of two bytes, and without its hash.
    (
        &[
            0x67, 1, 0x13, 0, 0x70, 0, 0, 0, 0, 0, 0, 0, 0x23, 0, 0, 0, 0xE4, 0xD3, 0xE1, 0xF5,
            0x1D, 0, 0, 0, 3, 5, 0, 0, 0, 0x61, 0, 0, 0, 0x18, 0,
        ],
        false,
    ),
    // A header alone.
    (
        &[
            0x67, 1, 1, 0, 0x70, 0, 0, 0, 1, 0, 0, 0, 0x18, 0, 0, 0, 0, 0, 0, 0, 0, 0, 0, 0,
        ],
        true,
    ),
    // The same with flags and an offset that it needn't have.
    (
        &[
            0x67, 1, 3, 0, 0x70, 0, 0, 0, 0, 0, 0, 0, 0x18, 0, 0, 0, 0, 0, 0, 0, 0x18, 0, 0, 0,
        ],
        false,
    ),
    // A person, Ann and 30, with a compact footer.
    (
        &[
            0x67, 1, 0x2B, 0, 0x55, 0x9B, 0xE3, 0xC4, 0xC9, 0xCC, 0x94, 0x32, 0x27, 0, 0, 0, 5,
            0xA9, 0, 0x74, 0x25, 0, 0, 0, 9, 3, 0, 0, 0, 0x41, 0x6E, 0x6E, 3, 0x1E, 0, 0, 0, 0x18,
            0x20,
        ],
        true,
    ),
];

/// A byte of the first object, what is put in its place, and the refusal of what comes out.
static CHANGES: [(usize, u8, usize, Cause); 13] = [
    (33, 0x19, 33, Cause::Offset),
    (20, 0x1E, 20, Cause::Footer),
    (24, 0x04, 25, Cause::Short),
    (12, 0x17, 12, Cause::Length),
    (12, 0x7F, 0, Cause::Short),
    (16, 0xE5, 16, Cause::Footer),
    (24, 0x01, 20, Cause::Offset),
    (2, 0x1B, 2, Cause::Flags),
    (1, 0x02, 1, Cause::ObjectVersion(2)),
    (2, 0x0F, 2, Cause::RawData),
    (2, 0x09, 2, Cause::Footer),
    (4, 0x00, 4, Cause::Unregistered),
    (24, 0x66, 24, Cause::Code(0x66)),
];

/// The first object that isn't read whole, or is taken for canonical where it isn't or the other
/// way round.
fn wrong_object(alloc: Global) -> Option<usize> {
    for (row, (bytes, canonical)) in OBJECTS.iter().enumerate() {
        match decode(alloc, bytes) {
            Ok(read) if read.used == bytes.len() && read.canonical == *canonical => {}
            _ => return Some(row),
        }
    }
    None
}

/// The first change whose refusal is another one.
fn wrong_change(alloc: Global) -> Result<Option<usize>, AllocError> {
    let (object, _) = OBJECTS[0];
    for (row, (at, byte, place, cause)) in CHANGES.iter().enumerate() {
        let mut bytes = Vec::from_slice(alloc, object)?;
        let Some(changed) = bytes.get_mut(*at) else {
            return Ok(Some(row));
        };
        *changed = *byte;
        let wanted = DecodeFault::Refused(Refusal {
            place: *place,
            cause: *cause,
        });
        match decode(alloc, &bytes) {
            Err(fault) if fault == wanted => {}
            _ => return Ok(Some(row)),
        }
    }
    Ok(None)
}

#[test]
fn objects(rt: HostRuntime) -> Result<(), Fail> {
    assert_eq!(rt; wrong_object(rt.alloc()), None);
    assert_eq!(rt; wrong_change(rt.alloc())?, None);
    let (wide, _) = OBJECTS[1];
    let read = decode(rt.alloc(), wide).ok().ok_or("an object")?;
    let Value::Object(object) = read.value else {
        return Err("an object".into());
    };
    let object = object.get();
    assert_eq!(rt; (object.bits, object.type_id), (1, 112));
    assert!(rt; matches!(&object.shape, Shape::Named(ids) if ids.as_slice() == [97].as_slice()));
    assert!(rt; matches!(object.fields.as_slice(), [Value::Int(5)]));
    Ok(())
}

/// An object with a compact footer, whose first field is this number of bytes and whose second is
/// null, with offsets of this width.
fn two_fields(alloc: Global, count: u16, width: u8) -> Result<Vec<u8>, AllocError> {
    let mut fields = Vec::new(alloc);
    fields.push(12)?;
    fields.extend_from_slice(&u32::from(count).to_le_bytes())?;
    for _ in 0..count {
        fields.push(7)?;
    }
    let second = u32::from(count).wrapping_add(29);
    fields.push(101)?;
    let flag = match width {
        1 => 8,
        2 => 16,
        _ => 0,
    };
    let end = second.wrapping_add(1);
    let length = end.wrapping_add(u32::from(width).wrapping_mul(2));
    let mut bytes = Vec::new(alloc);
    bytes.extend_from_slice(&[0x67, 1, 35 + flag, 0, 112, 0, 0, 0])?;
    bytes.extend_from_slice(&bytes_hash(&fields).to_le_bytes())?;
    bytes.extend_from_slice(&length.to_le_bytes())?;
    bytes.extend_from_slice(&[1, 2, 3, 4])?;
    bytes.extend_from_slice(&end.to_le_bytes())?;
    bytes.extend_from_slice(&fields)?;
    for offset in [24, second] {
        let [a, b, c, d] = offset.to_le_bytes();
        match width {
            1 => bytes.push(a)?,
            2 => bytes.extend_from_slice(&[a, b])?,
            _ => bytes.extend_from_slice(&[a, b, c, d])?,
        }
    }
    Ok(bytes)
}

/// The bytes of a first field, the width of the offsets, and whether such an object is read and is
/// canonical: the last offset is 255, 256, 65,535 and 65,536.
static WIDTHS: [(u16, u8, Option<bool>); 12] = [
    (226, 1, Some(true)),
    (226, 2, Some(false)),
    (226, 4, Some(false)),
    (227, 1, None),
    (227, 2, Some(true)),
    (227, 4, Some(false)),
    (65_506, 1, None),
    (65_506, 2, Some(true)),
    (65_506, 4, Some(false)),
    (65_507, 1, None),
    (65_507, 2, None),
    (65_507, 4, Some(true)),
];

/// The first of these rows that comes out otherwise.
fn wrong_width(alloc: Global) -> Result<Option<usize>, AllocError> {
    for (row, (count, width, wanted)) in WIDTHS.iter().enumerate() {
        let bytes = two_fields(alloc, *count, *width)?;
        let found = decode(alloc, &bytes).ok().map(|read| read.canonical);
        if found != *wanted {
            return Ok(Some(row));
        }
    }
    Ok(None)
}

#[test]
fn widths_of_offsets(rt: HostRuntime) -> Result<(), Fail> {
    assert_eq!(rt; wrong_width(rt.alloc())?, None);
    Ok(())
}

/// An object whose only field is the one before it, this many times, around a null.
fn nested_objects(alloc: Global, levels: u32) -> Result<Vec<u8>, AllocError> {
    let mut inner = Vec::new(alloc);
    inner.push(101)?;
    for _ in 0..levels {
        let end = u32::try_from(inner.len()).unwrap_or(0).wrapping_add(24);
        let mut bytes = Vec::new(alloc);
        bytes.extend_from_slice(&[0x67, 1, 43, 0, 112, 0, 0, 0])?;
        bytes.extend_from_slice(&bytes_hash(&inner).to_le_bytes())?;
        bytes.extend_from_slice(&end.wrapping_add(1).to_le_bytes())?;
        bytes.extend_from_slice(&[1, 2, 3, 4])?;
        bytes.extend_from_slice(&end.to_le_bytes())?;
        bytes.extend_from_slice(&inner)?;
        bytes.push(24)?;
        inner = bytes;
    }
    Ok(inner)
}

#[test]
fn objects_in_objects(rt: HostRuntime) -> Result<(), Fail> {
    let deepest = nested_objects(rt.alloc(), 31)?;
    let read = decode(rt.alloc(), &deepest).ok().ok_or("32 levels")?;
    assert_eq!(rt; (read.used, read.canonical), (deepest.len(), true));
    let deeper = nested_objects(rt.alloc(), 32)?;
    let wanted = DecodeFault::Refused(Refusal {
        place: 768,
        cause: Cause::Depth,
    });
    match decode(rt.alloc(), &deeper) {
        Ok(_) => assert!(rt; false, "33 levels were read"),
        Err(fault) => assert_eq!(rt; fault, wanted),
    }
    Ok(())
}

/// Texts at an offset, and refusals of others.
static TEXTS: [(&[u8], usize, Result<(&str, usize), (usize, Cause)>); 8] = [
    (&[9, 2, 0, 0, 0, 0x68, 0x69], 0, Ok(("hi", 7))),
    (&[7, 7, 9, 0, 0, 0, 0, 3], 2, Ok(("", 7))),
    (&[7, 101], 1, Err((1, Cause::Code(101)))),
    (&[7, 102], 1, Err((1, Cause::Code(102)))),
    (&[7], 1, Err((1, Cause::Short))),
    (&[7, 9, 1, 0, 0], 1, Err((2, Cause::Short))),
    (&[9, 0xFF, 0xFF, 0xFF, 0xFF], 0, Err((1, Cause::Count(-1)))),
    (&[9, 2, 0, 0, 0, 0xC3, 0x28], 0, Err((5, Cause::Utf8))),
];

/// The first of these rows that comes out otherwise.
fn wrong_text() -> Option<usize> {
    for (row, (bytes, at, wanted)) in TEXTS.iter().enumerate() {
        if *at > bytes.len() {
            return Some(row);
        }
        let right = match (text_at(bytes, *at), wanted) {
            (Ok((text, end)), Ok((wanted, wanted_end))) => text == *wanted && end == *wanted_end,
            (Err(refusal), Err((place, cause))) => {
                refusal.place == *place && refusal.cause == *cause
            }
            _ => false,
        };
        if !right {
            return Some(row);
        }
    }
    None
}

#[test]
fn texts_in_place(rt: HostRuntime) {
    assert_eq!(rt; wrong_text(), None);
}
