//! Captures of every kind of message and with every kind of malformed end: whole, cut in two at every
//! offset, and byte by byte.

use ig_base::{NoMemory, Octets};
use ig_capture::{Capture, CaptureBad, CaptureFault};
use std::alloc::Global;
use std::test::Fail;

/// Captures, a record a line: its side, its session and its bytes; or bytes as they are, after `=`. And the
/// text of each, with `|` at the end of a line.
static ROWS: [(&'static str, &'static str); 60] = [
    // a put
    (
        "= 49474331, > 0 080000000101000000000002, < 0 0100000001, > 0 19000000E9030100000000000000B90533000003010000000302000000, < 0 0C000000010000000000000000000000",
        "0 > hello 1.0.0|0 < ok|0 > 1 put #3343801 int:1 int:2|0 < 1 done|",
    ),
    // a frame that is cut
    (
        "= 49474331, > 0 080000000101000000000002, < 0 0100000001, > 0 19000000E9030100000000000000B90533000003010000000302000000, < 0 0C000000010000000000000000000000, < 0 0C00",
        "0 > hello 1.0.0|0 < ok|0 > 1 put #3343801 int:1 int:2|0 < 1 done|0 < cut 2|",
    ),
    // cuts of both sides, by session
    (
        "= 49474331, > 7 0800000001, < 3 01000000, > 3 080000000101000000000002, < 3 01, < 3 0C0000000100000000000000000000, > 3 0A",
        "3 > hello 1.0.0|3 < ok|3 > cut 1|3 < cut 15|7 > cut 5|",
    ),
    // a cut before the hello, of a frame out of turn
    ("= 49474331, < 0 01000000", "0 < cut 4|"),
    // nothing after the first four bytes
    ("= 49474331", ""),
    // a login
    (
        "= 49474331, > 0 0A00000001010001000000026565, < 0 0100000001",
        "0 > hello 1.1.0 login|0 < ok|",
    ),
    // a node
    (
        "= 49474331, > 0 080000000101000400000002, < 0 12000000010A7766554433221100FFEEDDCCBBAA9988",
        "0 > hello 1.4.0|0 < ok 00112233-4455-6677-8899-aabbccddeeff|",
    ),
    // a refused hello
    (
        "= 49474331, > 0 080000000101000200FDFF02, < 0 120000000001000400000009060000006E6F20776179",
        "0 > hello 1.2.-3|0 < refused 1.4.0 \"no\\x20way\"|",
    ),
    // a refused hello with a code
    (
        "= 49474331, > 0 080000000109000900090002, < 0 110000000001000400000009010000007801000000",
        "0 > hello 9.9.9|0 < refused 1.4.0 \"x\"|",
    ),
    // two requests of one identifier
    (
        "= 49474331, > 0 080000000101000000000002, < 0 0100000001, > 0 14000000E8030500000000000000B9053300000301000000, > 0 14000000F3030500000000000000B9053300000301000000, > 0 14000000E8030600000000000000B9053300000302000000, < 0 0D00000006000000000000000000000065, < 0 110000000500000000000000000000000309000000, < 0 0D00000005000000000000000000000001",
        "0 > hello 1.0.0|0 < ok|0 > 5 get #3343801 int:1|0 > 5 contains #3343801 int:1|0 > 6 get #3343801 int:2|0 < 6 null|0 < 5 int:9|0 < 5 true|",
    ),
    // three requests of one identifier
    (
        "= 49474331, > 0 080000000101000000000002, < 0 0100000001, > 0 14000000E8030500000000000000B9053300000301000000, > 0 14000000F3030500000000000000B9053300000301000000, > 0 19000000E9030500000000000000B90533000003010000000302000000, < 0 110000000500000000000000000000000309000000, < 0 0D00000005000000000000000000000000, < 0 0C000000050000000000000000000000, < 0 0C000000050000000000000000000000",
        "0 > hello 1.0.0|0 < ok|0 > 5 get #3343801 int:1|0 > 5 contains #3343801 int:1|0 > 5 put #3343801 int:1 int:2|0 < 5 int:9|0 < 5 false|0 < 5 done|malformed session 0 side server place 59|",
    ),
    // requests that are refused
    (
        "= 49474331, > 0 080000000101000000000002, < 0 0100000001, > 0 0A0000000F270100000000000000, > 0 0B000000E803020000000000000001, > 0 15000000E9030300000000000000B905330000650301000000, > 0 0E0000004D04040000000000000000000000, < 0 0F000000040000000000000000000000616263, < 0 2200000003000000000000000100000009110000006E756C6C206B6579206F722076616C7565, < 0 0C000000020000000000000000000000, < 0 0D000000010000000000000000000000FF",
        "0 > hello 1.0.0|0 < ok|0 > 1 refused 2|0 > 2 refused 1|0 > 3 refused 1|0 > 4 refused 2|0 < 4 unread 3|0 < 3 error 1 \"null\\x20key\\x20or\\x20value\"|0 < 2 unread 0|0 < 1 unread 1|",
    ),
    // a fault
    (
        "= 49474331, > 0 080000000101000000000002, < 0 0100000001, > 0 14000000E8030100000000000000B9053300000301000000, < 0 1E0000000100000000000000E8030000090D0000006E6F2073756368206361636865",
        "0 > hello 1.0.0|0 < ok|0 > 1 get #3343801 int:1|0 < 1 error 1000 \"no\\x20such\\x20cache\"|",
    ),
    // a page, a next page and a close
    (
        "= 49474331, > 0 080000000101000000000002, < 0 0100000001, > 0 19000000D00701000000000000000700000000650A000000FFFFFFFF00, < 0 230000000100000000000000000000000300000000000000010000000301000000030200000001, > 0 12000000D10702000000000000000300000000000000, < 0 110000000200000000000000000000000000000000, > 0 12000000000003000000000000000300000000000000, < 0 0C000000030000000000000000000000",
        "0 > hello 1.0.0|0 < ok|0 > 1 scan #7 10|0 < 1 page 3 1 int:1=int:2 more|0 > 2 next 3|0 < 2 page - 0 end|0 > 3 close 3|0 < 3 done|",
    ),
    // names and types
    (
        "= 49474331, > 0 080000000101000000000002, < 0 0100000001, > 0 0A0000001A040100000000000000, < 0 1C00000001000000000000000000000002000000090100000061090100000062, > 0 0F000000B80B020000000000000001FBFFFFFF, < 0 12000000020000000000000000000000090100000054, > 0 0E000000BA0B030000000000000004000000, < 0 0D00000003000000000000000000000000, > 0 100000001B04040000000000000009010000006D, < 0 0C000000040000000000000000000000",
        "0 > hello 1.0.0|0 < ok|0 > 1 names|0 < 1 names 2 \"a\" \"b\"|0 > 2 type-name 1 -5|0 < 2 name \"T\"|0 > 3 type 4|0 < 3 none|0 > 4 create \"m\"|0 < 4 done|",
    ),
    // a topology that is told
    (
        "= 49474331, > 0 080000000101000400000002, < 0 12000000010A7766554433221100FFEEDDCCBBAA9988, > 0 120000004D0401000000000000000100000007000000, < 0 26000000010000000000000002000300000000000000FFFFFFFF03000000000000000200000000000000, > 0 0A0000000F270200000000000000, < 0 200000000200000000000000030004000000000000000000000002000000090100000078, > 0 0A0000000F270300000000000000, < 0 1600000003000000000000000200050000000000000000000000",
        "0 > hello 1.4.0|0 < ok 00112233-4455-6677-8899-aabbccddeeff|0 > 1 parts #7|0 < 1 told 3.-1 parts 3.2 0|0 > 2 refused 2|0 < 2 told 4.0 error 2 \"x\"|0 > 3 refused 2|0 < 3 told 5.0 unread 0|",
    ),
    // two sessions that are mixed
    (
        "= 49474331, > 0 080000000101, > 1023 080000000101000000000002, > 0 00000000000219000000E90301000000",
        "1023 > hello 1.0.0|0 > hello 1.0.0|0 > cut 10|",
    ),
    // two sessions with one identifier
    (
        "= 49474331, > 0 080000000101000000000002, > 1 080000000101000000000002, < 1 0100000001, < 0 0100000001, > 0 14000000E8030100000000000000B9053300000301000000, > 1 14000000F3030100000000000000B9053300000301000000, < 1 0D00000001000000000000000000000001, < 0 0E0000000100000000000000000000000102",
        "0 > hello 1.0.0|1 > hello 1.0.0|1 < ok|0 < ok|0 > 1 get #3343801 int:1|1 > 1 contains #3343801 int:1|1 < 1 true|0 < 1 byte:2|",
    ),
    // several frames in a record
    (
        "= 49474331, > 0 080000000101000000000002, < 0 01000000010C0000, > 0 19000000E9030100000000000000B9053300000301000000030200000019000000E9030200000000000000B90533000003010000000302000000, < 0 000100000000000000000000000C0000000200000000000000000000000C",
        "0 > hello 1.0.0|0 < ok|0 > 1 put #3343801 int:1 int:2|0 > 2 put #3343801 int:1 int:2|0 < 1 done|0 < 2 done|0 < cut 1|",
    ),
    // no bytes
    ("= ", "malformed stream 0|"),
    // another first byte
    ("= 00", "malformed stream 0|"),
    // another last byte of the first four
    ("= 4947433200", "malformed stream 0|"),
    // three of the first four bytes
    ("= 494743", "malformed stream 0|"),
    // a side of 2
    (
        "= 49474331, > 0 080000000101000000000002, < 0 0100000001, = 02",
        "0 > hello 1.0.0|0 < ok|malformed stream 39|",
    ),
    // a side of 255, at once
    (
        "= 49474331, = FF000000000000000000000000000000000000000000000000000000000000",
        "malformed stream 4|",
    ),
    // a session of 1024
    ("= 49474331, = 00000400000100000000", "malformed stream 5|"),
    // a negative session
    ("= 49474331, = 00FFFFFFFF0100000000", "malformed stream 5|"),
    // a session that is not whole
    ("= 49474331, = 01000000", "malformed stream 5|"),
    // a side alone
    ("= 49474331, = 01", "malformed stream 5|"),
    // a count of 0
    ("= 49474331, = 000000000000000000", "malformed stream 9|"),
    // a count of 65537
    ("= 49474331, = 00000000000100010000", "malformed stream 9|"),
    // a negative count
    ("= 49474331, = 0000000000FFFFFFFF00", "malformed stream 9|"),
    // a count that is not whole
    ("= 49474331, = 00000000000C00", "malformed stream 9|"),
    // no bytes after the count
    ("= 49474331, = 00000000000C000000", "malformed stream 13|"),
    // bytes that are not whole, with a message
    (
        "= 49474331, = 00000000000D000000080000000101000000000002",
        "0 > hello 1.0.0|malformed stream 13|",
    ),
    // a message first, then the record
    (
        "= 49474331, = 000000000063000000080000000101000000000003",
        "malformed session 0 side client place 0|",
    ),
    // a server before the hello
    (
        "= 49474331, < 0 0100000001",
        "malformed session 0 side server place 0|",
    ),
    // a hello of byte 2
    (
        "= 49474331, > 9 080000000201000000000002",
        "malformed session 9 side client place 0|",
    ),
    // another client code
    (
        "= 49474331, > 0 080000000101000000000001",
        "malformed session 0 side client place 0|",
    ),
    // a short hello
    (
        "= 49474331, > 0 07000000",
        "malformed session 0 side client place 0|",
    ),
    // a request before the acceptance
    (
        "= 49474331, > 0 080000000101000000000002, > 0 19000000E9030100000000000000B90533000003010000000302000000",
        "0 > hello 1.0.0|malformed session 0 side client place 12|",
    ),
    // a short request
    (
        "= 49474331, > 0 080000000101000000000002, < 0 0100000001, > 0 09000000",
        "0 > hello 1.0.0|0 < ok|malformed session 0 side client place 12|",
    ),
    // a frame that is too long
    (
        "= 49474331, > 0 080000000101000000000002, < 0 0100000001, > 0 01008000",
        "0 > hello 1.0.0|0 < ok|malformed session 0 side client place 12|",
    ),
    // a reply of 11 bytes
    (
        "= 49474331, > 0 080000000101000000000002, < 0 0100000001, < 0 0B000000",
        "0 > hello 1.0.0|0 < ok|malformed session 0 side server place 5|",
    ),
    // a reply of 9 bytes at 1.4.0
    (
        "= 49474331, > 0 080000000101000400000002, < 0 12000000010A7766554433221100FFEEDDCCBBAA9988, < 0 09000000",
        "0 > hello 1.4.0|0 < ok 00112233-4455-6677-8899-aabbccddeeff|malformed session 0 side server place 22|",
    ),
    // an empty reply to the hello
    (
        "= 49474331, > 0 080000000101000000000002, < 0 00000000",
        "0 > hello 1.0.0|malformed session 0 side server place 0|",
    ),
    // a first byte of 2
    (
        "= 49474331, > 0 080000000101000000000002, < 0 0100000002",
        "0 > hello 1.0.0|malformed session 0 side server place 4|",
    ),
    // bytes after an acceptance
    (
        "= 49474331, > 0 080000000101000000000002, < 0 020000000100",
        "0 > hello 1.0.0|malformed session 0 side server place 5|",
    ),
    // an acceptance of another version
    (
        "= 49474331, > 0 080000000101000200000002, < 0 020000000100",
        "0 > hello 1.2.0|malformed session 0 side server place 0|",
    ),
    // a refusal whose text is not whole
    (
        "= 49474331, > 0 080000000101000000000002, < 0 0E0000000001000000000009030000006162",
        "0 > hello 1.0.0|malformed session 0 side server place 16|",
    ),
    // a request after a refusal
    (
        "= 49474331, > 0 080000000101000000000002, < 0 0D00000000010004000000090100000078, > 0 19000000E9030100000000000000B90533000003010000000302000000",
        "0 > hello 1.0.0|0 < refused 1.4.0 \"x\"|malformed session 0 side client place 12|",
    ),
    // a reply after a refusal
    (
        "= 49474331, > 0 080000000101000000000002, < 0 0D00000000010004000000090100000078, < 0 0C000000010000000000000000000000",
        "0 > hello 1.0.0|0 < refused 1.4.0 \"x\"|malformed session 0 side server place 17|",
    ),
    // a reply without its request
    (
        "= 49474331, > 0 080000000101000000000002, < 0 0100000001, < 0 0C000000010000000000000000000000",
        "0 > hello 1.0.0|0 < ok|malformed session 0 side server place 5|",
    ),
    // a second reply to one request
    (
        "= 49474331, > 0 080000000101000000000002, < 0 0100000001, > 0 19000000E9030100000000000000B90533000003010000000302000000, < 0 0C000000010000000000000000000000, < 0 0C000000010000000000000000000000",
        "0 > hello 1.0.0|0 < ok|0 > 1 put #3343801 int:1 int:2|0 < 1 done|malformed session 0 side server place 21|",
    ),
    // other flags
    (
        "= 49474331, > 0 080000000101000400000002, < 0 12000000010A7766554433221100FFEEDDCCBBAA9988, > 0 0A0000000F270100000000000000, < 0 0A00000001000000000000000400",
        "0 > hello 1.4.0|0 < ok 00112233-4455-6677-8899-aabbccddeeff|0 > 1 refused 2|malformed session 0 side server place 34|",
    ),
    // a fault without its text
    (
        "= 49474331, > 0 080000000101000000000002, < 0 0100000001, < 0 0C000000010000000000000001000000",
        "0 > hello 1.0.0|0 < ok|malformed session 0 side server place 21|",
    ),
    // bytes after a fault
    (
        "= 49474331, > 0 080000000101000000000002, < 0 0100000001, > 0 19000000E9030100000000000000B90533000003010000000302000000, < 0 1300000001000000000000000100000009010000007800",
        "0 > hello 1.0.0|0 < ok|0 > 1 put #3343801 int:1 int:2|malformed session 0 side server place 27|",
    ),
    // bytes after a result
    (
        "= 49474331, > 0 080000000101000000000002, < 0 0100000001, > 0 19000000E9030100000000000000B90533000003010000000302000000, < 0 0D00000001000000000000000000000000",
        "0 > hello 1.0.0|0 < ok|0 > 1 put #3343801 int:1 int:2|malformed session 0 side server place 21|",
    ),
    // a result that does not read
    (
        "= 49474331, > 0 080000000101000000000002, < 0 0100000001, > 0 14000000F3030100000000000000B9053300000301000000, < 0 0D00000001000000000000000000000002",
        "0 > hello 1.0.0|0 < ok|0 > 1 contains #3343801 int:1|malformed session 0 side server place 21|",
    ),
    // a head before its request is looked up
    (
        "= 49474331, > 0 080000000101000000000002, < 0 0100000001, < 0 110000000100000000000000010000000901000000",
        "0 > hello 1.0.0|0 < ok|malformed session 0 side server place 26|",
    ),
];

/// Captures that are cut in two at every offset, and the text of each.
static CUT_ROWS: [(&'static str, &'static str); 5] = [
    // a frame that is cut
    (
        "= 49474331, > 0 080000000101000000000002, < 0 0100000001, > 0 19000000E9030100000000000000B90533000003010000000302000000, < 0 0C000000010000000000000000000000, < 0 0C00",
        "0 > hello 1.0.0|0 < ok|0 > 1 put #3343801 int:1 int:2|0 < 1 done|0 < cut 2|",
    ),
    // two sessions that are mixed
    (
        "= 49474331, > 0 080000000101, > 1023 080000000101000000000002, > 0 00000000000219000000E90301000000",
        "1023 > hello 1.0.0|0 > hello 1.0.0|0 > cut 10|",
    ),
    // a count of 65537
    ("= 49474331, = 00000000000100010000", "malformed stream 9|"),
    // bytes that are not whole, with a message
    (
        "= 49474331, = 00000000000D000000080000000101000000000002",
        "0 > hello 1.0.0|malformed stream 13|",
    ),
    // a reply of 11 bytes
    (
        "= 49474331, > 0 080000000101000000000002, < 0 0100000001, < 0 0B000000",
        "0 > hello 1.0.0|0 < ok|malformed session 0 side server place 5|",
    ),
];

/// A capture that is ended after each of its bytes.
const ENDED: &str = "= 49474331, > 0 080000000101000000000002, < 0 0100, < 0 000001";

/// Its texts, from that of no bytes on: how many lengths in a row have the text.
static ENDS: [(usize, &'static str); 14] = [
    (4, "malformed stream 0|"),
    (1, ""),
    (4, "malformed stream 5|"),
    (4, "malformed stream 9|"),
    (12, "malformed stream 13|"),
    (1, "0 > hello 1.0.0|"),
    (4, "0 > hello 1.0.0|malformed stream 26|"),
    (4, "0 > hello 1.0.0|malformed stream 30|"),
    (2, "0 > hello 1.0.0|malformed stream 34|"),
    (1, "0 > hello 1.0.0|0 < cut 2|"),
    (4, "0 > hello 1.0.0|malformed stream 37|"),
    (4, "0 > hello 1.0.0|malformed stream 41|"),
    (3, "0 > hello 1.0.0|malformed stream 45|"),
    (1, "0 > hello 1.0.0|0 < ok|"),
];

/// The value of a hex digit.
fn digit(byte: u8) -> Option<u8> {
    match byte {
        b'0'..=b'9' => Some(byte - b'0'),
        b'A'..=b'F' => Some(byte - b'A' + 10),
        _ => None,
    }
}

/// Appends the bytes that a text in hex says, whatever stands between the digits.
fn put_hex(text: &str, out: &mut Octets) -> Result<(), NoMemory> {
    let mut high = None;
    for byte in text.as_bytes() {
        match (digit(*byte), high) {
            (None, _) => {}
            (Some(low), Some(first)) => {
                out.push((first << 4) | low)?;
                high = None;
            }
            (Some(first), None) => high = Some(first),
        }
    }
    Ok(())
}

/// Appends a number of four bytes.
fn put_number(number: usize, out: &mut Octets) -> Result<(), NoMemory> {
    let number = u32::try_from(number).unwrap_or(0);
    out.append(&number.to_le_bytes())
}

/// Appends the record of a line.
fn put_record(alloc: Global, line: &str, out: &mut Octets) -> Result<(), NoMemory> {
    let Some((side, rest)) = line.split_once(' ') else {
        return Ok(());
    };
    let Some((session, hex)) = rest.split_once(' ') else {
        return put_hex(rest, out);
    };
    let mut bytes = Octets::empty(alloc);
    put_hex(hex, &mut bytes)?;
    out.push(u8::from(side == "<"))?;
    put_number(session.parse::<usize>().unwrap_or(0), out)?;
    put_number(bytes.len(), out)?;
    out.append(bytes.as_slice())
}

/// The capture with these records.
fn capture_of(alloc: Global, records: &str) -> Result<Octets, NoMemory> {
    let mut out = Octets::empty(alloc);
    for line in records.split(',') {
        put_record(alloc, line.trim(), &mut out)?;
    }
    Ok(out)
}

/// The text with the ends of its lines.
fn lines_of(alloc: Global, text: &str) -> Result<Octets, NoMemory> {
    let mut out = Octets::empty(alloc);
    for byte in text.as_bytes() {
        out.push(if *byte == b'|' { b'\n' } else { *byte })?;
    }
    Ok(out)
}

/// What is appended for a capture that is fed in these pieces and then finished, and the answer.
fn shown(alloc: Global, pieces: &[&[u8]]) -> Result<(Octets, Result<(), CaptureFault>), NoMemory> {
    let mut out = Octets::empty(alloc);
    let mut capture = Capture::new(alloc)?;
    for piece in pieces {
        let _ = capture.feed(piece, &mut out);
    }
    let answer = capture.finish(&mut out);
    Ok((out, answer))
}

/// The same, fed byte by byte.
fn shown_by_bytes(
    alloc: Global,
    capture: &[u8],
) -> Result<(Octets, Result<(), CaptureFault>), NoMemory> {
    let mut out = Octets::empty(alloc);
    let mut one = Capture::new(alloc)?;
    for byte in capture {
        let _ = one.feed(&[*byte], &mut out);
    }
    let answer = one.finish(&mut out);
    Ok((out, answer))
}

/// Whether the text ends by the line of a fault.
fn tells_fault(text: &[u8]) -> bool {
    match text.rsplit(|byte| *byte == b'\n').nth(1) {
        Some(line) => line.starts_with(b"malformed "),
        None => false,
    }
}

/// Whether the capture gives this text in these pieces.
fn gives_in(alloc: Global, pieces: &[&[u8]], wanted: &Octets) -> Result<bool, NoMemory> {
    let (out, answer) = shown(alloc, pieces)?;
    let malformed = tells_fault(wanted.as_slice());
    Ok(out.as_slice() == wanted.as_slice() && answer.is_err() == malformed)
}

/// Whether the capture gives this text whole and byte by byte.
fn gives(alloc: Global, records: &str, text: &str) -> Result<bool, NoMemory> {
    let capture = capture_of(alloc, records)?;
    let wanted = lines_of(alloc, text)?;
    let (out, answer) = shown_by_bytes(alloc, capture.as_slice())?;
    Ok(
        gives_in(alloc, &[capture.as_slice()], &wanted)?
            && out.as_slice() == wanted.as_slice()
            && answer.is_err() == tells_fault(wanted.as_slice()),
    )
}

/// The first capture of the table that doesn't give its text.
fn first_unlike(alloc: Global, rows: &[(&'static str, &'static str)]) -> Option<&'static str> {
    for (records, text) in rows {
        if gives(alloc, records, text) != Ok(true) {
            return Some(*records);
        }
    }
    None
}

/// The first offset at which the capture, cut in two there, doesn't give the text.
fn first_bad_cut(alloc: Global, records: &str, text: &str) -> Result<Option<usize>, NoMemory> {
    let capture = capture_of(alloc, records)?;
    let wanted = lines_of(alloc, text)?;
    for cut in 0..=capture.len() {
        let (first, second) = capture.as_slice().split_at(cut);
        if !gives_in(alloc, &[first, second], &wanted)? {
            return Ok(Some(cut));
        }
    }
    Ok(None)
}

/// The first capture of the table that gives another text where it is cut in two.
fn first_uneven(alloc: Global, rows: &[(&'static str, &'static str)]) -> Option<&'static str> {
    for (records, text) in rows {
        if first_bad_cut(alloc, records, text) != Ok(None) {
            return Some(*records);
        }
    }
    None
}

/// The first length at which the capture, ended there, doesn't give the text of the table for that length.
fn first_bad_end(
    alloc: Global,
    records: &str,
    ends: &[(usize, &'static str)],
) -> Result<Option<usize>, NoMemory> {
    let capture = capture_of(alloc, records)?;
    let mut len = 0;
    for (count, text) in ends {
        let wanted = lines_of(alloc, text)?;
        for _ in 0..*count {
            let Some(front) = capture.as_slice().get(..len) else {
                return Ok(Some(len));
            };
            if !gives_in(alloc, &[front], &wanted)? {
                return Ok(Some(len));
            }
            len = len.saturating_add(1);
        }
    }
    Ok(None)
}

#[test]
fn captures_have_their_text(rt: HostRuntime) {
    let unlike = first_unlike(rt.alloc(), &ROWS);
    assert_eq!(rt; unlike, None);
}

#[test]
fn every_cutting_gives_the_same_text(rt: HostRuntime) {
    let uneven = first_uneven(rt.alloc(), &CUT_ROWS);
    assert_eq!(rt; uneven, None);
}

#[test]
fn captures_may_end_anywhere(rt: HostRuntime) -> Result<(), Fail> {
    let bad = first_bad_end(rt.alloc(), ENDED, &ENDS)?;
    assert_eq!(rt; bad, None);
    Ok(())
}
