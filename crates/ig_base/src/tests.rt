use super::*;
use std::test::Fail;

/// Each number is written as its bytes, lowest first, and read from them.
#[test]
fn numbers_come_back(rt: HostRuntime) -> Result<(), Fail> {
    let shorts: [(i16, [u8; 2]); 4] = [
        (0, [0, 0]),
        (1, [1, 0]),
        (-2, [0xFE, 0xFF]),
        (0x1234, [0x34, 0x12]),
    ];
    for (n, bytes) in &shorts {
        let mut out = Octets::empty(rt.alloc());
        put_i16(&mut out, *n)?;
        assert!(rt; out.as_slice() == bytes.as_slice());
        assert_eq!(rt; get_i16(bytes, 0), Some(*n));
        assert_eq!(rt; get_i16(bytes, 1), None);
    }
    let ints: [(i32, [u8; 4]); 4] = [
        (1, [1, 0, 0, 0]),
        (-1, [0xFF, 0xFF, 0xFF, 0xFF]),
        (3_343_801, [0xB9, 0x05, 0x33, 0x00]),
        (i32::MIN, [0, 0, 0, 0x80]),
    ];
    for (n, bytes) in &ints {
        let mut out = Octets::empty(rt.alloc());
        put_i32(&mut out, *n)?;
        assert!(rt; out.as_slice() == bytes.as_slice());
        assert_eq!(rt; get_i32(bytes, 0), Some(*n));
        assert_eq!(rt; get_i32(bytes, 1), None);
    }
    let longs: [(i64, [u8; 8]); 3] = [
        (7, [7, 0, 0, 0, 0, 0, 0, 0]),
        (-2, [0xFE, 0xFF, 0xFF, 0xFF, 0xFF, 0xFF, 0xFF, 0xFF]),
        (0x0102_0304_0506_0708, [8, 7, 6, 5, 4, 3, 2, 1]),
    ];
    for (n, bytes) in &longs {
        let mut out = Octets::empty(rt.alloc());
        put_i64(&mut out, *n)?;
        assert!(rt; out.as_slice() == bytes.as_slice());
        assert_eq!(rt; get_i64(bytes, 0), Some(*n));
        assert_eq!(rt; get_i64(bytes, 1), None);
    }
    Ok(())
}

/// A number is read at every offset at which all its bytes lie in the slice, and at no other.
#[test]
fn numbers_are_read_at_any_offset(rt: HostRuntime) {
    let bytes: [u8; 6] = [9, 1, 0, 0, 0, 9];
    assert_eq!(rt; get_i32(&bytes, 1), Some(1));
    assert_eq!(rt; get_i32(&bytes, 2), Some(0x0900_0000));
    assert_eq!(rt; get_i32(&bytes, 3), None);
    assert_eq!(rt; get_i32(&bytes, 7), None);
    assert_eq!(rt; get_i64(&bytes, 0), None);
    assert_eq!(rt; get_i16(&bytes, usize::MAX), None);
}

/// Hashes as Java's `String.hashCode` has them, one of a text with a surrogate pair.
#[test]
fn hashes_are_those_of_java(rt: HostRuntime) {
    let table: [(&str, i32); 5] = [
        ("", 0),
        ("a", 97),
        ("main", 3_343_801),
        ("\u{1F600}", 1_772_899),
        ("polygenelubricants", i32::MIN),
    ];
    for (text, hash) in &table {
        assert_eq!(rt; text_hash(text), *hash);
    }
}

/// The identifier of a name is the hash of the name in lower case; a byte above 127 has a place.
#[test]
fn names_have_identifiers(rt: HostRuntime) {
    assert_eq!(rt; name_id("Person"), Ok(0xC4E3_9B55u32.cast_signed()));
    assert_eq!(rt; name_id("person"), Ok(text_hash("person")));
    assert_eq!(rt; name_id("né"), Err(NotAscii { at: 1 }));
}

/// The header of an object with one field, an Int32 `a` that is 5, and the form of its footer.
#[test]
fn headers_and_hashes_of_an_object(rt: HostRuntime) {
    let object: [u8; 34] = [
        0x67, 1, 0x0B, 0, 0x70, 0, 0, 0, 0xFD, 0x64, 0xE1, 1, 34, 0, 0, 0, 0xE4, 0xD3, 0xE1, 0xF5,
        29, 0, 0, 0, 3, 5, 0, 0, 0, 97, 0, 0, 0, 24,
    ];
    let header = Header {
        version: 1,
        flags: USER_TYPE + HAS_SCHEMA + ONE_BYTE_OFFSETS,
        type_id: 112,
        hash: 0x01E1_64FD,
        length: 34,
        schema: 0xF5E1_D3E4u32.cast_signed(),
        schema_at: 29,
    };
    assert_eq!(rt; read_header(&object), Some(header));
    assert_eq!(rt; read_header(&object[..23]), None);
    assert_eq!(rt; bytes_hash(&object[24..29]), header.hash);
    assert_eq!(rt; bytes_hash(&[3, 0xFF, 0xFF, 0xFF, 0xFF]), 0x01DE_A6E2);
    assert_eq!(rt; schema_id(&[97]), header.schema);
    assert_eq!(rt;
        schema_id(&[text_hash("name"), text_hash("age")]),
        0x7400_A905
    );
    assert_eq!(rt; schema_id(&[]), 0);
    let compact = false;
    assert_eq!(rt; footer_of(header.flags), Some(Footer { compact, width: 1 }));
    assert_eq!(rt; footer_of(HAS_SCHEMA), Some(Footer { compact, width: 4 }));
    let flags = TWO_BYTE_OFFSETS + COMPACT_FOOTER;
    assert_eq!(rt;
        footer_of(flags),
        Some(Footer {
            compact: true,
            width: 2
        })
    );
    assert_eq!(rt; footer_of(ONE_BYTE_OFFSETS + TWO_BYTE_OFFSETS), None);
}

/// A vector or a string that was wrapped is unwrapped as it was.
#[test]
fn wrapped_values_come_back(rt: HostRuntime) -> Result<(), Fail> {
    let mut octets = Octets::new(Vec::from_slice(rt.alloc(), &[1, 2])?);
    octets.push(3)?;
    octets.append(&[4, 5])?;
    assert_eq!(rt; octets.len(), 5);
    assert!(rt; octets.as_slice() == [1, 2, 3, 4, 5].as_slice());
    octets.clear();
    assert!(rt; octets.is_empty());
    assert_eq!(rt; octets.into_std().len(), 0);
    let text = Text::new(String::from_str(rt.alloc(), "main")?);
    assert!(rt; text.as_str() == "main");
    assert!(rt; text.into_std().as_str() == "main");
    let items = Items::new(Vec::from_slice(rt.alloc(), &[7u64, 8])?);
    assert!(rt; items.as_slice() == [7, 8].as_slice());
    assert_eq!(rt; items.into_std().len(), 2);
    Ok(())
}

/// The texts of the errors, with and without an argument handed back.
#[test]
fn errors_have_texts(rt: HostRuntime) -> Result<(), Fail> {
    let text = format!(in rt.alloc(); "{} / {}", NoMemory, NoRoom { back: 7u64 })?;
    assert!(rt; text.as_str() == "no memory / no memory");
    let text = format!(in rt.alloc(); "{}", NotAscii { at: 1 })?;
    assert!(rt; text.as_str() == "the name isn't ASCII at byte 1");
    Ok(())
}
