//! The texts of every kind of value and of descriptions, both ways, and texts that are refused.

use ig_base::Octets;
use ig_text::{PutText, ReadError, ReadPart, TextFault, read_value, write_value};
use ig_types::TypeMeta;
use std::alloc::Global;

/// A text of each kind of value.
static TEXTS: [&str; 59] = [
    "null",
    "byte:-128",
    "short:32767",
    "int:-2147483648",
    "long:9223372036854775807",
    "long:-9223372036854775808",
    "float:7FC00000",
    "double:FFF0000000000001",
    "char:00E9",
    "bool:true",
    "bool:false",
    "str:\"\"",
    "str:\"a\\x20b\\x22\\x5C\\xC3\\xA9~!\"",
    "uuid:00000000-0000-0000-0000-00000000000a",
    "uuid:01234567-89ab-cdef-fedc-ba9876543210",
    "date:0",
    "bytes[]",
    "bytes[1,-2,127]",
    "shorts[0,-32768]",
    "ints[0]",
    "longs[-1,1]",
    "floats[00000000,3F800000]",
    "doubles[3FF0000000000000]",
    "chars[0041,FFFF]",
    "bools[true,false]",
    "strs[]",
    "strs[\"a\",null,\"\"]",
    "uuids[null,00000000-0000-0001-0000-000000000002]",
    "dates[null,-5]",
    "objs:7[]",
    "objs:-7[int:1,null,objs:0[]]",
    "coll:1[]",
    "coll:-1[str:\"x\",coll:0[null]]",
    "map:1[]",
    "map:2[int:1=str:\"a\",null=map:0[]]",
    "wrap:0:",
    "wrap:-3:00FF10",
    "enum:5:-1",
    "enums:9[enum:9:0,benum:9:1]",
    "dec:0:",
    "dec:-2:7F80",
    "decs[]",
    "decs[0:,null,3:FF]",
    "ts:0:0",
    "ts:-1:999999",
    "tss[1:2,null]",
    "time:86399999",
    "times[null,0]",
    "benum:-1:2147483647",
    "obj:0:1{}",
    "obj:1:-1{}",
    "obj:64:7{97=int:1}",
    "obj:65:7{97=int:1,-98=obj:0:1{}}",
    "cobj:0:1:0{null}",
    "cobj:65472:1:-5{int:1,str:\"{\"}",
    "ints[2147483647,-2147483648]",
    "strs[\"\\x00\\x0A\"]",
    "objs:1[floats[DEADBEEF],bytes[0]]",
    "map:1[coll:1[int:1,int:2]=doubles[],int:2=null]",
];

/// Texts that aren't a value's, each with the offset of the first wrong part.
static REFUSED: [(&str, usize); 46] = [
    ("", 0),
    ("nul", 0),
    ("null ", 4),
    ("byte:128", 5),
    ("byte:-129", 5),
    ("byte:+1", 5),
    ("byte:-0", 5),
    ("int:01", 4),
    ("int:-01", 5),
    ("int:", 4),
    ("int:1 ", 5),
    ("long:9223372036854775808", 5),
    ("long:00000000000000000001", 5),
    ("float:7fc00000", 6),
    ("float:7FC0000", 12),
    ("bool:True", 5),
    ("str:\"", 5),
    ("str:\"a b\"", 6),
    ("str:\"\\x0a\"", 7),
    ("str:\"\\x41\"", 6),
    ("str:\"\\xFF\"", 4),
    ("str:\"\"\"", 6),
    ("uuid:0123456789ab-cdef-fedc-ba9876543210", 13),
    ("uuid:01234567-89AB-cdef-fedc-ba9876543210", 16),
    ("bytes[1, 2]", 8),
    ("bytes[1,]", 8),
    ("bytes[,1]", 6),
    ("bytes[1", 7),
    ("bytes [1]", 0),
    ("strs[nil]", 5),
    ("objs:7", 6),
    ("objs:7[int:1,]", 13),
    ("map:1[int:1]", 11),
    ("map:1[int:1=]", 12),
    ("wrap:0:0", 7),
    ("dec:1:ABC", 6),
    ("dec:1:ab", 6),
    ("enum:5", 6),
    ("obj:2:1{}", 4),
    ("obj:65536:1{}", 4),
    ("obj:0:0{}", 6),
    ("obj:0:1{97}", 10),
    ("cobj:0:1:0{}", 11),
    ("cobj:0:1{null}", 8),
    ("pairs 0", 0),
    ("ts:1", 4),
];

/// Texts of descriptions.
static DESCRIPTIONS: [&str; 4] = [
    "type:7:\"Point\":null:0{}{}{}",
    "type:-1:\"\":\"x\":0{\"x\"=3/120,\"y\"=-4/-121}{}{-5=[120,-121],7=[]}",
    "type:0:\"a\\x20b\":null:1{}{\"BLUE\"=2,\"RED\"=-1}{}",
    "type:2147483647:\"E\":\"\":1{\"id\"=3/3355}{}{1=[3355]}",
];

/// Texts that aren't a description's, each with the offset of the first wrong part.
static NO_DESCRIPTIONS: [(&str, usize); 9] = [
    ("kind:7", 0),
    ("type:7", 6),
    ("type:7:\"a\":nil:0{}{}{}", 11),
    ("type:7:\"a\":null:2{}{}{}", 16),
    ("type:7:\"a\":null:0{\"b\"=1}{}{}", 23),
    ("type:7:\"a\":null:1{}{\"b\"=1}{2=3}", 29),
    ("type:7:\"a\":null:0{\"b\"=1/1,\"a\"=1/2}{}{}", 0),
    ("type:7:\"a\":null:0{}{\"b\"=1}{}", 0),
    ("type:7:\"a\":null:0{}{}{2=[],2=[]}", 0),
];

/// Whether the text is read, and its value has this text.
fn comes_back(alloc: Global, text: &str) -> bool {
    let Ok(value) = read_value(alloc, text.as_bytes()) else {
        return false;
    };
    let mut out = Octets::empty(alloc);
    write_value(alloc, &value, &mut out) == Ok(()) && out.as_slice() == text.as_bytes()
}

/// The first text of the table that doesn't come back.
fn first_lost(alloc: Global, texts: &[&'static str]) -> Option<&'static str> {
    for text in texts {
        if !comes_back(alloc, text) {
            return Some(*text);
        }
    }
    None
}

/// Whether the text is refused at this offset.
fn is_refused_at(alloc: Global, text: &str, at: usize) -> bool {
    match read_value(alloc, text.as_bytes()) {
        Err(TextFault::Bad { place }) => place == at,
        _ => false,
    }
}

/// The first text of the table that isn't refused at its offset.
fn first_accepted(alloc: Global, rows: &[(&'static str, usize)]) -> Option<&'static str> {
    for (text, at) in rows {
        if !is_refused_at(alloc, text, *at) {
            return Some(*text);
        }
    }
    None
}

#[test]
fn texts_come_back(rt: HostRuntime) {
    let lost = first_lost(rt.alloc(), &TEXTS);
    assert_eq!(rt; lost, None);
}

#[test]
fn wrong_texts_are_refused(rt: HostRuntime) {
    let accepted = first_accepted(rt.alloc(), &REFUSED);
    assert_eq!(rt; accepted, None);
}

/// Whether a description is read from the whole text and has this text.
fn description_comes_back(alloc: Global, text: &str) -> bool {
    let Ok((meta, rest)) = TypeMeta::read(alloc, text.as_bytes()) else {
        return false;
    };
    let mut out = Octets::empty(alloc);
    rest.is_empty() && meta.put(&mut out) == Ok(()) && out.as_slice() == text.as_bytes()
}

/// The first description of the table that doesn't come back.
fn first_lost_description(alloc: Global, texts: &[&'static str]) -> Option<&'static str> {
    for text in texts {
        if !description_comes_back(alloc, text) {
            return Some(*text);
        }
    }
    None
}

/// Whether the text is no description's from this offset on.
fn is_no_description_at(alloc: Global, text: &str, at: usize) -> bool {
    match TypeMeta::read(alloc, text.as_bytes()) {
        Err(ReadError::Bad { left }) => text.len().checked_sub(left) == Some(at),
        _ => false,
    }
}

/// The first text of the table that isn't refused at its offset.
fn first_accepted_description(
    alloc: Global,
    rows: &[(&'static str, usize)],
) -> Option<&'static str> {
    for (text, at) in rows {
        if !is_no_description_at(alloc, text, *at) {
            return Some(*text);
        }
    }
    None
}

#[test]
fn descriptions_come_back(rt: HostRuntime) {
    let lost = first_lost_description(rt.alloc(), &DESCRIPTIONS);
    assert_eq!(rt; lost, None);
    let accepted = first_accepted_description(rt.alloc(), &NO_DESCRIPTIONS);
    assert_eq!(rt; accepted, None);
}
