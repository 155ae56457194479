//! Sessions over links in memory, from the words to the status.

use crate::exchanges::{CUT, Exchange, FIRST, FIVE, SESSIONS, TELLING};
use crate::plain::run_plain;
use ig_base::{NoMemory, Octets, put_i16, put_i32, put_i64};
use ig_link::{MemLink, ReadStep, WriteStep};
use std::alloc::Global;
use std::process::Abort;
use std::test::Fail;

/// The identifier of the cache `main`, the hash of its name.
const MAIN: i32 = 3_343_801;

const GET: i16 = 1000;

const PUT: i16 = 1001;

/// The spelling of an int.
fn int(n: i32) -> [u8; 5] {
    let [a, b, c, d] = n.to_le_bytes();
    [3, a, b, c, d]
}

fn digit(byte: u8) -> Option<u8> {
    match byte {
        b'0'..=b'9' => Some(byte - b'0'),
        b'A'..=b'F' => Some(byte - b'A' + 10),
        _ => None,
    }
}

/// The bytes that a text in hex says, whatever stands between the digits.
fn bytes(alloc: Global, text: &str) -> Result<Octets, NoMemory> {
    let mut out = Octets::empty(alloc);
    let mut high = None;
    for byte in text.as_bytes() {
        match (digit(*byte), high) {
            (None, _) => {}
            (Some(low), Some(first)) => {
                out.push((first << 4) | low)?;
                high = None;
            }
            (Some(first), None) => high = Some(first),
        }
    }
    Ok(out)
}

/// One direction of a session: its frames, laid end to end.
#[derive(Drop)]
struct Stream {
    alloc: Global,
    bytes: Octets,
}

impl Stream {
    /// What a client sends, from its hello on.
    fn client(alloc: Global) -> Result<Stream, NoMemory> {
        let bytes = bytes(alloc, "08000000 01 0100 0000 0000 02")?;
        Ok(Stream { alloc, bytes })
    }

    /// What the server answers, from the acceptance on.
    fn server(alloc: Global) -> Result<Stream, NoMemory> {
        let bytes = bytes(alloc, "01000000 01")?;
        Ok(Stream { alloc, bytes })
    }

    fn frame(&mut self, body: &Octets) -> Result<(), NoMemory> {
        put_i32(&mut self.bytes, i32::try_from(body.len()).unwrap_or(0))?;
        self.bytes.append(body.as_slice())
    }

    fn hex(&mut self, text: &str) -> Result<(), NoMemory> {
        let more = bytes(self.alloc, text)?;
        self.bytes.append(more.as_slice())
    }

    fn request(&mut self, operation: i16, id: i64, fields: &[u8]) -> Result<(), NoMemory> {
        let mut body = Octets::empty(self.alloc);
        put_i16(&mut body, operation)?;
        put_i64(&mut body, id)?;
        body.append(fields)?;
        self.frame(&body)
    }

    fn get(&mut self, id: i64, key: &[u8]) -> Result<(), NoMemory> {
        let mut fields = Octets::empty(self.alloc);
        put_i32(&mut fields, MAIN)?;
        fields.push(0)?;
        fields.append(key)?;
        self.request(GET, id, fields.as_slice())
    }

    fn put(&mut self, id: i64, key: &[u8], value: &[u8]) -> Result<(), NoMemory> {
        let mut fields = Octets::empty(self.alloc);
        put_i32(&mut fields, MAIN)?;
        fields.push(0)?;
        fields.append(key)?;
        fields.append(value)?;
        self.request(PUT, id, fields.as_slice())
    }

    fn reply(&mut self, id: i64, status: i32, rest: &[u8]) -> Result<(), NoMemory> {
        let mut body = Octets::empty(self.alloc);
        put_i64(&mut body, id)?;
        put_i32(&mut body, status)?;
        body.append(rest)?;
        self.frame(&body)
    }

    fn done(&mut self, id: i64) -> Result<(), NoMemory> {
        self.reply(id, 0, &[])
    }

    fn found(&mut self, id: i64, value: &[u8]) -> Result<(), NoMemory> {
        self.reply(id, 0, value)
    }

    fn fault(&mut self, id: i64, status: i32, text: &str) -> Result<(), NoMemory> {
        let mut reason = Octets::empty(self.alloc);
        reason.push(9)?;
        put_i32(&mut reason, i32::try_from(text.len()).unwrap_or(0))?;
        reason.append(text.as_bytes())?;
        self.reply(id, status, reason.as_slice())
    }
}

/// What a run over links in memory did.
#[derive(Drop)]
struct Run {
    status: u8,
    source: MemLink,
    sink: MemLink,
}

/// Runs a command over a source that gives the input and then fails, if that is asked, and over a
/// sink that follows these steps.
fn run_over(
    alloc: Global,
    words: &[&str],
    input: &[u8],
    fails: bool,
    writes: Vec<WriteStep>,
) -> Result<Run, Fail> {
    let mut owned = Vec::new(alloc);
    for word in words {
        owned.push(String::from_str(alloc, word)?)?;
    }
    let mut reads = Vec::new(alloc);
    reads.push(ReadStep::Bytes(Octets::new(Vec::from_slice(alloc, input)?)))?;
    if fails {
        reads.push(ReadStep::Fault)?;
    }
    let mut source = MemLink::new(alloc, reads, Vec::new(alloc), 0)?;
    let mut sink = MemLink::new(alloc, Vec::new(alloc), writes, 1 << 24)?;
    let status = run_plain(alloc, &owned, &mut source, &mut sink);
    Ok(Run {
        status,
        source,
        sink,
    })
}

/// Whether `pipe main` writes this output for an input, and ends with this status.
fn answers(alloc: Global, input: &[u8], output: &[u8], status: u8) -> Result<bool, Fail> {
    let run = run_over(alloc, &["pipe", "main"], input, false, Vec::new(alloc))?;
    Ok(run.status == status && run.sink.written() == Some(output))
}

/// The server answers this client so, and the program ends with this status.
fn check<R: Abort>(rt: &R, client: &Stream, server: &Stream, status: u8) -> Result<(), Fail> {
    let input = client.bytes.as_slice();
    let output = server.bytes.as_slice();
    assert!(rt; answers(client.alloc, input, output, status)?);
    Ok(())
}

#[test]
fn a_value_comes_back_under_its_key(rt: HostRuntime) -> Result<(), Fail> {
    let mut client = Stream::client(rt.alloc())?;
    let mut server = Stream::server(rt.alloc())?;
    client.put(1, &int(1), &int(2))?;
    server.done(1)?;
    client.get(2, &int(1))?;
    server.found(2, &int(2))?;
    client.get(3, &int(7))?;
    server.found(3, &[101])?;
    // Two requests with one identifier have two replies.
    client.put(4, &int(1), &int(5))?;
    server.done(4)?;
    client.put(4, &int(2), &int(6))?;
    server.done(4)?;
    client.get(5, &int(1))?;
    server.found(5, &int(5))?;
    check(&rt, &client, &server, 0)
}

#[test]
fn a_refused_request_has_its_reason_and_the_session_goes_on(rt: HostRuntime) -> Result<(), Fail> {
    let mut client = Stream::client(rt.alloc())?;
    let mut server = Stream::server(rt.alloc())?;
    client.request(2002, 1, &[])?;
    server.fault(1, 2, "invalid operation code")?;
    client.request(GET, 2, &[7, 0, 0, 0, 0, 8, 1])?;
    server.fault(2, 1000, "cache does not exist")?;
    client.get(3, &[101])?;
    server.fault(3, 1, "null key or value")?;
    client.put(4, &int(1), &[101])?;
    server.fault(4, 1, "null key or value")?;
    client.get(5, &[8, 2])?;
    server.fault(5, 1, "malformed request at 20")?;
    client.put(6, &int(1), &int(2))?;
    server.done(6)?;
    check(&rt, &client, &server, 0)
}

/// Openings of a session: the bytes in, the bytes out, and the status.
static OPENINGS: [(&str, &str, u8); 12] = [
    ("08000000 01 0100 0000 0000 02", "01000000 01", 0),
    (
        "08000000 01 0100 0400 0000 02",
        "12000000 01 0A 0000000000000000 0100000000000000",
        0,
    ),
    // Another version, and what follows isn't looked at.
    (
        "08000000 01 0100 0700 0000 02",
        "1F000000 00 0100 0400 0000 09 13000000 756E737570706F727465642076657273696F6E",
        4,
    ),
    (
        "08000000 01 0100 0700 0000 02 FFFFFFFF",
        "1F000000 00 0100 0400 0000 09 13000000 756E737570706F727465642076657273696F6E",
        4,
    ),
    // No hello, and another client code.
    (
        "08000000 02 0100 0000 0000 02",
        "1B000000 00 0100 0400 0000 09 0F000000 6E6F7420612068616E647368616B65",
        4,
    ),
    (
        "08000000 01 0100 0000 0000 03",
        "23000000 00 0100 0400 0000 09 17000000 756E737570706F7274656420636C69656E7420636F6465",
        4,
    ),
    // Logins.
    (
        "14000000 01 0100 0100 0000 02 09 01000000 75 09 01000000 70",
        "01000000 01",
        0,
    ),
    ("0A000000 01 0100 0100 0000 02 65 65", "01000000 01", 0),
    (
        "09000000 01 0100 0000 0000 02 65",
        "1F000000 00 0100 0400 0000 09 13000000 6D616C666F726D65642068616E647368616B65",
        4,
    ),
    ("", "", 4),
    ("08000000 01 0100", "", 4),
    ("07000000 01 0100", "", 4),
];

/// The first opening that is answered otherwise.
fn wrong_opening(alloc: Global) -> Result<Option<&'static str>, Fail> {
    for &(input, output, status) in &OPENINGS {
        let output = bytes(alloc, output)?;
        if !answers(
            alloc,
            bytes(alloc, input)?.as_slice(),
            output.as_slice(),
            status,
        )? {
            return Ok(Some(input));
        }
    }
    Ok(None)
}

#[test]
fn hellos_are_accepted_or_refused_for_their_first_fault(rt: HostRuntime) -> Result<(), Fail> {
    assert_eq!(rt; wrong_opening(rt.alloc())?, None);
    Ok(())
}

/// What a client sends in a session and what it gets, each laid end to end.
fn streams(alloc: Global, exchanges: &[Exchange]) -> Result<(Octets, Octets), NoMemory> {
    let mut input = Octets::empty(alloc);
    let mut output = Octets::empty(alloc);
    for (request, reply) in exchanges {
        input.append(bytes(alloc, request)?.as_slice())?;
        output.append(bytes(alloc, reply)?.as_slice())?;
    }
    Ok((input, output))
}

/// The first session that is answered otherwise.
fn wrong_session(alloc: Global) -> Result<Option<usize>, Fail> {
    for (at, exchanges) in SESSIONS.iter().enumerate() {
        let (input, output) = streams(alloc, exchanges)?;
        if !answers(alloc, input.as_slice(), output.as_slice(), 0)? {
            return Ok(Some(at));
        }
    }
    Ok(None)
}

#[test]
fn every_request_is_answered(rt: HostRuntime) -> Result<(), Fail> {
    assert_eq!(rt; wrong_session(rt.alloc())?, None);
    Ok(())
}

/// What follows a hello and a put, and the status. Both are answered, and nothing else is.
static ENDS: [(&str, u8); 6] = [
    ("", 0),
    // Inside a length, and inside a frame.
    ("1400", 4),
    ("14000000 E803", 4),
    // Lengths out of range.
    ("FFFFFFFF", 4),
    ("09000000", 4),
    ("01008000", 4),
];

/// The first end of a session that is answered otherwise.
fn wrong_end(alloc: Global) -> Result<Option<&'static str>, Fail> {
    for &(end, status) in &ENDS {
        let mut client = Stream::client(alloc)?;
        let mut server = Stream::server(alloc)?;
        client.put(1, &int(1), &int(2))?;
        server.done(1)?;
        client.hex(end)?;
        if !answers(
            alloc,
            client.bytes.as_slice(),
            server.bytes.as_slice(),
            status,
        )? {
            return Ok(Some(end));
        }
    }
    Ok(None)
}

#[test]
fn an_input_that_breaks_off_has_status_4(rt: HostRuntime) -> Result<(), Fail> {
    assert_eq!(rt; wrong_end(rt.alloc())?, None);
    Ok(())
}

/// A value of each code, and some in one another.
static VALUES: [&str; 46] = [
    "01 FF",
    "02 0180",
    "03 000000 80",
    "04 FFFFFFFFFFFFFF7F",
    "05 0000C07F",
    "06 010000000000F07F",
    "07 00D8",
    "08 01",
    "09 00000000",
    "09 03000000 61C3A9",
    "0A 0000000000000000 0100000000000000",
    "0B FFFFFFFFFFFFFFFF",
    "0C 02000000 00FF",
    "0D 01000000 0080",
    "0E 02000000 01000000 FFFFFFFF",
    "0F 01000000 0000000000000080",
    "10 01000000 0000807F",
    "11 01000000 000000000000F0FF",
    "12 01000000 FFFF",
    "13 03000000 010001",
    "14 02000000 09 01000000 61 65",
    "15 02000000 65 0A 01000000000000000200000000000000",
    "16 02000000 0B 0100000000000000 65",
    "17 05000000 02000000 03 01000000 65",
    "18 00000000 01",
    "18 02000000 FF 65 18 01000000 07 08 00",
    "19 00000000 02",
    "19 02000000 01 03 01000000 09 01000000 61 03 02000000 65",
    "1B 03000000 670000 FFFFFFFF",
    "1C 05000000 07000000",
    "1D 05000000 01000000 1C 05000000 07000000",
    "1E 02000000 03000000 0100FF",
    "1E FFFFFFFF 00000000",
    "1F 02000000 1E 01000000 01000000 05 65",
    "21 FFFFFFFFFFFFFFFF 3F420F00",
    "22 02000000 65 21 0000000000000000 00000080",
    "24 0100000000000000",
    "25 02000000 65 24 0200000000000000",
    "26 05000000 07000000",
    "67 01 0B00 70000000 FD64E101 22000000 E4D3E1F5 1D000000 0305000000 61000000 18",
    "67 01 0100 70000000 01000000 18000000 00000000 00000000",
    "67 01 2B00 559BE3C4 C9CC9432 27000000 05A90074 25000000 0903000000416E6E 031E000000 18 20",
    "18 01000000 01 67 01 0100 70000000 01000000 18000000 00000000 00000000",
    "09 01000000 62",
    "03 61000000",
    "02 6100",
];

/// Each value stands as a key with itself as the value.
#[test]
fn values_come_back_as_they_were_stored(rt: HostRuntime) -> Result<(), Fail> {
    let mut client = Stream::client(rt.alloc())?;
    let mut server = Stream::server(rt.alloc())?;
    for text in &VALUES {
        let value = bytes(rt.alloc(), text)?;
        client.put(1, value.as_slice(), value.as_slice())?;
        server.done(1)?;
    }
    for text in &VALUES {
        let value = bytes(rt.alloc(), text)?;
        client.get(2, value.as_slice())?;
        server.found(2, value.as_slice())?;
    }
    check(&rt, &client, &server, 0)
}

/// An object of type 112 with the field 97, encoded canonically and with an offset of two bytes.
static SPELLINGS: [&str; 2] = [
    "67 01 0B00 70000000 FD64E101 22000000 E4D3E1F5 1D000000 0305000000 61000000 18",
    "67 01 1300 70000000 00000000 23000000 E4D3E1F5 1D000000 0305000000 61000000 1800",
];

#[test]
fn a_key_that_is_encoded_in_another_way_finds_its_row(rt: HostRuntime) -> Result<(), Fail> {
    let canonical = bytes(rt.alloc(), SPELLINGS[0])?;
    let other = bytes(rt.alloc(), SPELLINGS[1])?;
    let mut client = Stream::client(rt.alloc())?;
    let mut server = Stream::server(rt.alloc())?;
    client.put(1, canonical.as_slice(), &int(5))?;
    server.done(1)?;
    client.get(2, other.as_slice())?;
    server.found(2, &int(5))?;
    client.put(3, other.as_slice(), other.as_slice())?;
    server.done(3)?;
    client.get(4, canonical.as_slice())?;
    server.found(4, canonical.as_slice())?;
    check(&rt, &client, &server, 0)
}

/// Fields that don't read: the operation, what follows the identifier, and the offset in the frame at
/// which they stop being fields.
static MALFORMED: [(i16, &str, usize); 18] = [
    (GET, "", 14),
    (GET, "B90533", 14),
    (GET, "B9053300", 18),
    (GET, "B9053300 00", 19),
    (GET, "B9053300 00 03 010000", 20),
    (GET, "B9053300 00 66", 19),
    (GET, "B9053300 00 67 01 0B00", 19),
    (
        GET,
        "B9053300 00 67 01 0B00 70000000 FD64E101 22000000 E4D3E1F5 1D000000 0305000000 61000000 19",
        52,
    ),
    (
        GET,
        "B9053300 00 67 01 0B00 70000000 FD64E101 22000000 E4D3E1F5 1D000000 0405000000 61000000 18",
        44,
    ),
    (GET, "B9053300 00 08 02", 20),
    (GET, "B9053300 00 09 FFFFFFFF", 20),
    (GET, "B9053300 00 0C FFFFFF7F 00", 25),
    (GET, "B9053300 00 09 01000000 FF", 24),
    (GET, "B9053300 00 65 65", 20),
    (PUT, "B9053300 00", 19),
    (PUT, "B9053300 00 65", 20),
    (PUT, "B9053300 00 65 18 01000000 01 66", 26),
    (PUT, "B9053300 00 65 65 00", 21),
];

#[test]
fn malformed_fields_are_refused_at_their_offset(rt: HostRuntime) -> Result<(), Fail> {
    let mut client = Stream::client(rt.alloc())?;
    let mut server = Stream::server(rt.alloc())?;
    for &(operation, fields, offset) in &MALFORMED {
        let fields = bytes(rt.alloc(), fields)?;
        client.request(operation, 1, fields.as_slice())?;
        let reason = format!(in rt.alloc(); "malformed request at {offset}")?;
        server.fault(1, 1, reason.as_str())?;
    }
    check(&rt, &client, &server, 0)
}

/// A text of 8,388,583 letters.
fn longest_text(alloc: Global) -> Result<Octets, NoMemory> {
    let mut text = Octets::empty(alloc);
    text.push(9)?;
    put_i32(&mut text, 8_388_583)?;
    let letters = vec![in alloc; b'a'; 8_388_583]?;
    text.append(letters.as_slice())?;
    Ok(text)
}

/// A put of it has a body of 8,388,608 bytes.
#[test]
fn the_longest_request_is_answered(rt: HostRuntime) -> Result<(), Fail> {
    let text = longest_text(rt.alloc())?;
    let mut client = Stream::client(rt.alloc())?;
    let mut server = Stream::server(rt.alloc())?;
    client.put(1, &int(1), text.as_slice())?;
    server.done(1)?;
    client.get(2, &int(1))?;
    server.found(2, text.as_slice())?;
    check(&rt, &client, &server, 0)
}

/// The reply to the get of such a text has a frame of 8,388,604 bytes. It is written in 128 pieces, of
/// which the last has 65,532 bytes: it is missing where the write after 129 others fails.
#[test]
fn the_longest_reply_is_written_in_pieces(rt: HostRuntime) -> Result<(), Fail> {
    let text = longest_text(rt.alloc())?;
    let mut client = Stream::client(rt.alloc())?;
    let mut server = Stream::server(rt.alloc())?;
    client.put(1, &int(1), text.as_slice())?;
    server.done(1)?;
    client.get(2, &int(1))?;
    server.found(2, text.as_slice())?;
    let mut writes = Vec::new(rt.alloc());
    for _ in 0..129 {
        writes.push(WriteStep::AtMost(1 << 20))?;
    }
    writes.push(WriteStep::Fault)?;
    let input = client.bytes.as_slice();
    let run = run_over(rt.alloc(), &["pipe", "main"], input, false, writes)?;
    let whole = server.bytes.len().saturating_sub(65_532);
    assert_eq!(rt; run.status, 3);
    assert!(rt; run.sink.written() == server.bytes.as_slice().get(..whole));
    Ok(())
}

/// A get all of two such texts.
#[test]
fn a_reply_that_is_too_long_says_so(rt: HostRuntime) -> Result<(), Fail> {
    let text = longest_text(rt.alloc())?;
    let mut client = Stream::client(rt.alloc())?;
    let mut server = Stream::server(rt.alloc())?;
    client.put(1, &int(1), text.as_slice())?;
    server.done(1)?;
    client.put(2, &int(2), text.as_slice())?;
    server.done(2)?;
    client.hex("1D000000 EB03 0300000000000000 B9053300 00 02000000 0301000000 0302000000")?;
    server.fault(3, 1, "reply too long")?;
    check(&rt, &client, &server, 0)
}

/// A scan of `main` by this page.
fn scan(client: &mut Stream, id: i64, page: i32) -> Result<(), NoMemory> {
    let mut fields = bytes(client.alloc, "B9053300 00 65")?;
    put_i32(&mut fields, page)?;
    fields.append(&[0xFF, 0xFF, 0xFF, 0xFF, 0])?;
    client.request(2000, id, fields.as_slice())
}

/// A first page with the rows of int 1 to this one, each to itself.
fn first_page(server: &mut Stream, id: i64, rows: i32, more: u8) -> Result<(), NoMemory> {
    let mut page = Octets::empty(server.alloc);
    put_i64(&mut page, id)?;
    put_i32(&mut page, rows)?;
    for n in 1..=rows {
        page.append(&int(n))?;
        page.append(&int(n))?;
    }
    page.push(more)?;
    server.found(id, page.as_slice())
}

/// With 128 cursors open a scan that fits its page is answered, and another one isn't. The cursors have
/// the numbers of their requests.
#[test]
fn a_cursor_too_many_is_refused(rt: HostRuntime) -> Result<(), Fail> {
    let (input, output) = streams(rt.alloc(), &[FIRST, FIVE])?;
    let mut client = Stream {
        alloc: rt.alloc(),
        bytes: input,
    };
    let mut server = Stream {
        alloc: rt.alloc(),
        bytes: output,
    };
    for id in 1..=128 {
        scan(&mut client, id, 4)?;
        first_page(&mut server, id, 4, 1)?;
    }
    scan(&mut client, 200, 4)?;
    server.fault(200, 1010, "too many cursors")?;
    scan(&mut client, 129, 5)?;
    first_page(&mut server, 129, 5, 0)?;
    check(&rt, &client, &server, 0)
}

/// The partition map of `main` at 1.4.0: one group without pairs, and one node with all partitions.
#[test]
fn a_partition_map_lists_each_partition(rt: HostRuntime) -> Result<(), Fail> {
    let (input, output) = streams(rt.alloc(), &[TELLING])?;
    let mut client = Stream {
        alloc: rt.alloc(),
        bytes: input,
    };
    let mut server = Stream {
        alloc: rt.alloc(),
        bytes: output,
    };
    client.hex("12000000 4D04 0400000000000000 01000000 B9053300")?;
    let mut body = bytes(
        rt.alloc(),
        "0400000000000000 0200 0100000000000000 00000000 0100000000000000 00000000 01000000 01 \
         01000000 B9053300 00000000 01000000 0A 0000000000000000 0100000000000000 00040000",
    )?;
    for partition in 0..1024 {
        put_i32(&mut body, partition)?;
    }
    server.frame(&body)?;
    check(&rt, &client, &server, 0)
}

/// How many bytes of the replies are due once this many bytes of that session came, and whether these
/// are whole frames of it, from the hello on.
fn due(alloc: Global, taken: usize) -> Result<(usize, bool), NoMemory> {
    let mut came: usize = 0;
    let mut due: usize = 0;
    for (request, reply) in &CUT {
        let whole = came.saturating_add(bytes(alloc, request)?.len());
        if taken < whole {
            return Ok((due, taken == came && came > 0));
        }
        came = whole;
        due = due.saturating_add(bytes(alloc, reply)?.len());
    }
    Ok((due, taken == came))
}

/// Whether a run over the first bytes of the session ended with this status after these replies.
fn ends_so(
    alloc: Global,
    taken: &[u8],
    fails: bool,
    shown: &[u8],
    status: u8,
) -> Result<bool, Fail> {
    let run = run_over(alloc, &["pipe", "main"], taken, fails, Vec::new(alloc))?;
    Ok(run.status == status && run.sink.written() == Some(shown))
}

/// The first cut of the input after which another status or other replies come, whether the input ends
/// there or fails.
fn wrong_cut(alloc: Global) -> Result<Option<usize>, Fail> {
    let (input, output) = streams(alloc, &CUT)?;
    for cut in 0..=input.len() {
        let taken = input.as_slice().get(..cut).unwrap_or(&[]);
        let (due, is_whole) = due(alloc, cut)?;
        let shown = output.as_slice().get(..due).unwrap_or(&[]);
        if !ends_so(alloc, taken, false, shown, if is_whole { 0 } else { 4 })? {
            return Ok(Some(cut));
        }
        if !ends_so(alloc, taken, true, shown, 2)? {
            return Ok(Some(cut));
        }
    }
    Ok(None)
}

#[test]
fn an_input_cut_after_any_byte_has_all_due_replies(rt: HostRuntime) -> Result<(), Fail> {
    assert_eq!(rt; wrong_cut(rt.alloc())?, None);
    Ok(())
}

/// The first number of bytes after which a sink that takes one byte at a time and then fails has other
/// bytes than the first of the replies.
fn wrong_write(alloc: Global) -> Result<Option<usize>, Fail> {
    let (input, output) = streams(alloc, &CUT)?;
    for sent in 0..=output.len() {
        let mut writes = Vec::new(alloc);
        for _ in 0..sent {
            writes.push(WriteStep::AtMost(1))?;
        }
        writes.push(WriteStep::Fault)?;
        let run = run_over(alloc, &["pipe", "main"], input.as_slice(), false, writes)?;
        let status = if sent < output.len() { 3 } else { 0 };
        if run.status != status || run.sink.written() != output.as_slice().get(..sent) {
            return Ok(Some(sent));
        }
    }
    Ok(None)
}

#[test]
fn an_output_that_fails_has_the_first_bytes_of_the_replies(rt: HostRuntime) -> Result<(), Fail> {
    assert_eq!(rt; wrong_write(rt.alloc())?, None);
    Ok(())
}

/// Words that are no command.
static OTHER_WORDS: [&[&str]; 10] = [
    &[],
    &["pipe"],
    &["pipe", "main", "main"],
    // Two names with one identifier.
    &["pipe", "Aa", "BB"],
    &["pipe", "main", "-x"],
    &["pipe", ""],
    &["pipe", "main", ""],
    &["mill", "01", "7"],
    &["serve", "--nodes", "0", "main"],
    &["Pipe", "main"],
];

#[test]
fn other_words_read_and_write_nothing(rt: HostRuntime) -> Result<(), Fail> {
    let (input, _) = streams(rt.alloc(), &CUT)?;
    for words in &OTHER_WORDS {
        let run = run_over(
            rt.alloc(),
            words,
            input.as_slice(),
            false,
            Vec::new(rt.alloc()),
        )?;
        assert_eq!(rt; run.status, 1);
        assert!(rt; run.source.taken().is_empty());
        assert!(rt; run.sink.written() == Some(&[]));
    }
    Ok(())
}

/// A capture of a put: a hello, its reply, the request and the reply, each in a record of its own.
const CAPTURE: &str = "49474331 \
    00 00000000 0C000000 08000000 01 0100 0000 0000 02 \
    01 00000000 05000000 01000000 01 \
    00 00000000 1D000000 19000000 E903 0100000000000000 B9053300 00 0301000000 0302000000 \
    01 00000000 10000000 0C000000 0100000000000000 00000000";

/// Its lines.
const LINES: &str = "0 > hello 1.0.0\n0 < ok\n0 > 1 put #3343801 int:1 int:2\n0 < 1 done\n";

/// What follows the capture, the line that it adds, and the status.
static CAPTURE_ENDS: [(&'static str, &'static str, u8); 4] = [
    ("", "", 0),
    ("01 00000000 02000000 0C00", "0 < cut 2\n", 0),
    ("02", "malformed stream 102\n", 4),
    (
        "01 00000000 10000000 0C000000 0100000000000000 00000000",
        "malformed session 0 side server place 21\n",
        4,
    ),
];

/// Whether `decode` writes the lines and then this for the capture with these bytes at its end.
fn decodes(alloc: Global, more: &str, line: &str, status: u8) -> Result<bool, Fail> {
    let mut input = bytes(alloc, CAPTURE)?;
    input.append(bytes(alloc, more)?.as_slice())?;
    let mut output = Octets::empty(alloc);
    output.append(LINES.as_bytes())?;
    output.append(line.as_bytes())?;
    let run = run_over(alloc, &["decode"], input.as_slice(), false, Vec::new(alloc))?;
    Ok(run.status == status && run.sink.written() == Some(output.as_slice()))
}

#[test]
fn a_capture_has_its_text(rt: HostRuntime) -> Result<(), Fail> {
    for (more, line, status) in &CAPTURE_ENDS {
        assert!(rt; decodes(rt.alloc(), more, line, *status)?, "{line}");
    }
    Ok(())
}

#[test]
fn decode_tells_faults_apart(rt: HostRuntime) -> Result<(), Fail> {
    let input = bytes(rt.alloc(), CAPTURE)?;
    let failed = run_over(
        rt.alloc(),
        &["decode"],
        input.as_slice(),
        true,
        Vec::new(rt.alloc()),
    )?;
    assert!(rt; failed.status == 2 && failed.sink.written() == Some(LINES.as_bytes()));
    let usage = run_over(
        rt.alloc(),
        &["decode", "more"],
        input.as_slice(),
        false,
        Vec::new(rt.alloc()),
    )?;
    assert!(rt; usage.status == 1 && usage.source.taken().is_empty());
    let mut steps = Vec::new(rt.alloc());
    steps.push(WriteStep::Fault)?;
    let unwritten = run_over(rt.alloc(), &["decode"], input.as_slice(), false, steps)?;
    assert!(rt; unwritten.status == 3);
    Ok(())
}
