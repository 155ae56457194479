ghost use Rattle.std.specs.Prelude.{◌≡◌, ◌≤◌, length, IsTrue, IsSome};
ghost use Rattle.ig_fields.specs.Ask.{row_at};
ghost use Rattle.ig_meta.specs.Requests.{IsMetaRequest};
ghost use Rattle.ig_meta.specs.Results.{result_of, IsMetaShown};

use ig_base::{NoMemory, Octets, Text};
use ig_caches::{Call, Request, Shown};
use ig_meta::*;
use ig_wire::{AskFault, Operation, Profile, ReadFault};
use std::alloc::Global;
use std::test::Fail;

/// How the fields of a request or a result read.
#[derive(Clone, Copy, Debug, PartialEq, Eq)]
enum Seen {
    /// They read, and are written the same.
    Same,
    /// They read, and are written otherwise, or there is no memory.
    Otherwise,
    /// They don't read from this offset on, which counts from the first field.
    Stops(usize),
    /// They read, and the request isn't served.
    Refused(Profile),
    /// The operation is none of these.
    NotMine,
}

/// The number of bytes of fields, at most.
const ROOM: usize = 64;

/// The length of the head of a request, and of a reply without a fault that tells no topology.
const HEAD: usize = 10;

/// The identifier of the requests.
const ID: i64 = 7;

/// The fields of requests, and where they stop when they are cut after no byte, after one, and so on.
static ASKS: [(i16, &[u8], &[usize]); 10] = [
    (1050, &[], &[]),
    (1051, &[9, 1, 0, 0, 0, 109], &[0, 1, 1, 1, 1, 5]),
    (1052, &[9, 1, 0, 0, 0, 109], &[0, 1, 1, 1, 1, 5]),
    (1056, &[0xB9, 5, 0x33, 0], &[0, 0, 0, 0]),
    (3000, &[200, 5, 0, 0, 0], &[0, 1, 1, 1, 1]),
    (
        3001,
        &[0, 5, 0, 0, 0, 9, 1, 0, 0, 0, 80],
        &[0, 1, 1, 1, 1, 5, 6, 6, 6, 6, 10],
    ),
    (3002, &[254, 255, 255, 255], &[0, 0, 0, 0]),
    (
        3003,
        &[0, 0, 0, 0, 9, 0, 0, 0, 0, 101, 0, 0, 0, 0, 0, 0, 0, 0, 0],
        &[
            0, 0, 0, 0, 4, 5, 5, 5, 5, 9, 10, 10, 10, 10, 14, 15, 15, 15, 15,
        ],
    ),
    (
        3003,
        &[
            5, 0, 0, 0, 9, 1, 0, 0, 0, 80, 101, 1, 0, 0, 0, 9, 1, 0, 0, 0, 97, 3, 0, 0, 0, 97, 0,
            0, 0, 0, 0, 0, 0, 0,
        ],
        &[
            0, 0, 0, 0, 4, 5, 5, 5, 5, 9, 10, 11, 11, 11, 11, 15, 16, 16, 16, 16, 20, 21, 21, 21,
            21, 25, 25, 25, 25, 29, 30, 30, 30, 30,
        ],
    ),
    (
        3003,
        &[
            254, 255, 255, 255, 9, 1, 0, 0, 0, 69, 9, 1, 0, 0, 0, 107, 0, 0, 0, 0, 1, 1, 0, 0, 0,
            9, 1, 0, 0, 0, 65, 7, 0, 0, 0, 1, 0, 0, 0, 255, 255, 255, 255, 1, 0, 0, 0, 97, 0, 0, 0,
        ],
        &[
            0, 0, 0, 0, 4, 5, 5, 5, 5, 9, 10, 11, 11, 11, 11, 15, 16, 16, 16, 16, 20, 21, 21, 21,
            21, 25, 26, 26, 26, 26, 30, 31, 31, 31, 31, 35, 35, 35, 35, 39, 39, 39, 39, 43, 43, 43,
            43, 47, 47, 47, 47,
        ],
    ),
];

/// Fields that don't read: another code than a String's, bytes that aren't UTF-8, a negative count, a
/// repeated field, a field that repeats one before the last, a repeated literal, a repeated schema, and an
/// enum byte of 2. Then empty names, and other crates' operations.
static WRONG_ASKS: [(i16, &[u8], Seen); 13] = [
    (1051, &[101], Seen::Stops(0)),
    (1052, &[9, 1, 0, 0, 0, 255], Seen::Stops(5)),
    (
        3003,
        &[5, 0, 0, 0, 9, 0, 0, 0, 0, 101, 255, 255, 255, 255],
        Seen::Stops(10),
    ),
    (
        3003,
        &[
            5, 0, 0, 0, 9, 0, 0, 0, 0, 101, 2, 0, 0, 0, 9, 1, 0, 0, 0, 97, 3, 0, 0, 0, 97, 0, 0, 0,
            9, 1, 0, 0, 0, 97,
        ],
        Seen::Stops(28),
    ),
    (
        3003,
        &[
            5, 0, 0, 0, 9, 0, 0, 0, 0, 101, 3, 0, 0, 0, 9, 0, 0, 0, 0, 3, 0, 0, 0, 97, 0, 0, 0, 9,
            1, 0, 0, 0, 97, 3, 0, 0, 0, 97, 0, 0, 0, 9, 0, 0, 0, 0,
        ],
        Seen::Stops(41),
    ),
    (
        3003,
        &[
            5, 0, 0, 0, 9, 0, 0, 0, 0, 101, 0, 0, 0, 0, 1, 2, 0, 0, 0, 9, 1, 0, 0, 0, 65, 7, 0, 0,
            0, 9, 1, 0, 0, 0, 65, 8,
        ],
        Seen::Stops(29),
    ),
    (
        3003,
        &[
            5, 0, 0, 0, 9, 0, 0, 0, 0, 101, 0, 0, 0, 0, 0, 2, 0, 0, 0, 7, 0, 0, 0, 0, 0, 0, 0, 7,
            0, 0, 0,
        ],
        Seen::Stops(27),
    ),
    (
        3003,
        &[5, 0, 0, 0, 9, 0, 0, 0, 0, 101, 0, 0, 0, 0, 2],
        Seen::Stops(14),
    ),
    (1051, &[9, 0, 0, 0, 0], Seen::Refused(Profile::EmptyName)),
    (1052, &[9, 0, 0, 0, 0], Seen::Refused(Profile::EmptyName)),
    (1051, &[9, 0, 0, 0, 0, 0], Seen::Stops(5)),
    (1000, &[], Seen::NotMine),
    (1101, &[], Seen::NotMine),
];

/// Results, and where they stop when they are cut after no byte, after one, and so on.
static RESULTS: [(i16, &[u8], &[usize]); 11] = [
    (1050, &[0, 0, 0, 0], &[0, 0, 0, 0]),
    (
        1050,
        &[2, 0, 0, 0, 9, 1, 0, 0, 0, 109, 9, 0, 0, 0, 0],
        &[0, 0, 0, 0, 4, 5, 5, 5, 5, 9, 10, 11, 11, 11, 11],
    ),
    (1051, &[], &[]),
    (1052, &[], &[]),
    (1056, &[], &[]),
    (3000, &[9, 1, 0, 0, 0, 80], &[0, 1, 1, 1, 1, 5]),
    (3001, &[0], &[0]),
    (3001, &[1], &[0]),
    (3002, &[0], &[0]),
    (
        3002,
        &[
            1, 5, 0, 0, 0, 9, 1, 0, 0, 0, 80, 101, 1, 0, 0, 0, 9, 1, 0, 0, 0, 97, 3, 0, 0, 0, 97,
            0, 0, 0, 0, 0, 0, 0, 0,
        ],
        &[
            0, 1, 1, 1, 1, 5, 6, 6, 6, 6, 10, 11, 12, 12, 12, 12, 16, 17, 17, 17, 17, 21, 22, 22,
            22, 22, 26, 26, 26, 26, 30, 31, 31, 31, 31,
        ],
    ),
    (3003, &[], &[]),
];

/// Results that don't read, and where they stop: a negative count, and bytes other than 0 and 1.
static WRONG_RESULTS: [(i16, &[u8], usize); 3] = [
    (1050, &[255, 255, 255, 255], 0),
    (3001, &[2], 0),
    (3002, &[2], 0),
];

/// A description whose members are out of order, and in order: two fields, literals and schemas each.
static SORTED: [(&[u8], &[u8]); 1] = [(
    &[
        5, 0, 0, 0, 9, 0, 0, 0, 0, 101, 2, 0, 0, 0, 9, 1, 0, 0, 0, 98, 1, 0, 0, 0, 2, 0, 0, 0, 9,
        1, 0, 0, 0, 97, 3, 0, 0, 0, 4, 0, 0, 0, 0, 2, 0, 0, 0, 2, 0, 0, 0, 0, 0, 0, 0, 255, 255,
        255, 255, 0, 0, 0, 0,
    ],
    &[
        5, 0, 0, 0, 9, 0, 0, 0, 0, 101, 2, 0, 0, 0, 9, 1, 0, 0, 0, 97, 3, 0, 0, 0, 4, 0, 0, 0, 9,
        1, 0, 0, 0, 98, 1, 0, 0, 0, 2, 0, 0, 0, 0, 2, 0, 0, 0, 255, 255, 255, 255, 0, 0, 0, 0, 2,
        0, 0, 0, 0, 0, 0, 0,
    ],
)];

fn same(bytes: &[u8], wanted: &[u8]) -> Seen {
    if bytes == wanted {
        Seen::Same
    } else {
        Seen::Otherwise
    }
}

/// The frame of a request of the operation with these fields.
fn frame_of(alloc: Global, op: i16, fields: &[u8]) -> Result<Vec<u8>, NoMemory> {
    let len = u32::try_from(fields.len().saturating_add(HEAD)).unwrap_or(u32::MAX);
    let mut frame = Vec::new(alloc);
    frame.extend_from_slice(&len.to_le_bytes())?;
    frame.extend_from_slice(&op.to_le_bytes())?;
    frame.extend_from_slice(&ID.to_le_bytes())?;
    frame.extend_from_slice(fields)?;
    Ok(frame)
}

/// How the fields of a request read.
fn ask_seen(alloc: Global, op: i16, fields: &[u8]) -> Seen {
    ask_seen_as(alloc, op, fields, fields)
}

/// The same where the request is to be written with other fields.
fn ask_seen_as(alloc: Global, op: i16, fields: &[u8], written: &[u8]) -> Seen {
    let Ok(frame) = frame_of(alloc, op, fields) else {
        return Seen::Otherwise;
    };
    let Ok(wanted) = frame_of(alloc, op, written) else {
        return Seen::Otherwise;
    };
    let Some(body) = frame.as_slice().get(4..) else {
        return Seen::Otherwise;
    };
    if body.len() < HEAD {
        return Seen::Otherwise;
    }
    match read_fields(alloc, op, body) {
        Ok(request) => ask_written(alloc, &request, wanted.as_slice()),
        Err(AskFault::Unread { place }) => Seen::Stops(place.saturating_sub(4 + HEAD)),
        Err(AskFault::Profile(profile)) => Seen::Refused(profile),
        Err(AskFault::NotMine) => Seen::NotMine,
        Err(AskFault::NoMemory) => Seen::Otherwise,
    }
}

/// Whether the request is written as this frame.
fn ask_written(alloc: Global, request: &Request, frame: &[u8]) -> Seen
    requires { IsMetaRequest request.now }
{
    let mut out = Octets::empty(alloc);
    match write_ask(alloc, ID, request, &mut out) {
        Ok(true) => same(out.as_slice(), frame),
        _ => Seen::Otherwise,
    }
}

/// Whether a row of the requests holds: the fields as they are, and cut after each byte.
fn ask_holds(alloc: Global, op: i16, fields: &[u8], cuts: &[usize]) -> bool {
    if ask_seen(alloc, op, fields) != Seen::Same || cuts.len() != fields.len() {
        return false;
    }
    for (len, at) in cuts.iter().enumerate() {
        if ask_seen(alloc, op, &fields[..len]) != Seen::Stops(*at) {
            return false;
        }
    }
    true
}

/// The bytes with one more.
fn longer(fields: &[u8]) -> Option<[u8; ROOM]> {
    let mut room = [0u8; ROOM];
    if fields.len() >= ROOM {
        return None;
    }
    room[..fields.len()].copy_from_slice(fields);
    Some(room)
}

/// Whether the fields stop at a byte that follows them.
fn ask_stops_at_more(alloc: Global, op: i16, fields: &[u8]) -> bool {
    let len = fields.len();
    match longer(fields) {
        Some(room) if len < ROOM => ask_seen(alloc, op, &room[..len + 1]) == Seen::Stops(len),
        _ => false,
    }
}

fn first_wrong_ask(alloc: Global) -> Option<usize> {
    ASKS.iter()
        .position(|(op, fields, cuts)| !ask_holds(alloc, *op, fields, cuts))
}

fn first_ask_with_more(alloc: Global) -> Option<usize> {
    ASKS.iter()
        .position(|(op, fields, _)| !ask_stops_at_more(alloc, *op, fields))
}

fn first_wrong_stop(alloc: Global) -> Option<usize> {
    WRONG_ASKS
        .iter()
        .position(|(op, fields, seen)| ask_seen(alloc, *op, fields) != *seen)
}

fn first_unsorted(alloc: Global) -> Option<usize> {
    SORTED.iter().position(|(fields, sorted)| ask_seen_as(alloc, 3003, fields, sorted)
        != Seen::Same)
}

/// Every request is read and written the same; cut after any byte of its fields, or with a byte
/// more, it stops where the table says.
#[test]
fn requests_are_read_and_written(rt: HostRuntime) -> Result<(), Fail> {
    assert_eq!(rt; first_wrong_ask(rt.alloc()), None);
    assert_eq!(rt; first_ask_with_more(rt.alloc()), None);
    Ok(())
}

/// Fields that don't read stop where the table says, and members are written in their order.
#[test]
fn requests_are_refused_and_sorted(rt: HostRuntime) -> Result<(), Fail> {
    assert_eq!(rt; first_wrong_stop(rt.alloc()), None);
    assert_eq!(rt; first_unsorted(rt.alloc()), None);
    Ok(())
}

/// Whether the operation is one of this crate's.
fn is_mine(op: i16) -> bool
    ensures { IsTrue result → IsSome (row_at result_of op) }
{
    match Operation::of(op) {
        Some(operation) => is_own(operation),
        None => false,
    }
}

fn is_own(operation: Operation) -> bool
    ensures { IsTrue result → IsSome (result_of operation) }
{
    match operation {
        Operation::CacheNames => true,
        Operation::Create => true,
        Operation::GetOrCreate => true,
        Operation::Destroy => true,
        Operation::GetTypeName => true,
        Operation::RegisterTypeName => true,
        Operation::GetType => true,
        Operation::PutType => true,
        _ => false,
    }
}

/// How a result reads that comes after the head of a reply.
fn result_seen(alloc: Global, op: i16, bytes: &[u8]) -> Seen {
    let mut body = [0u8; HEAD + ROOM];
    if bytes.len() > ROOM || !is_mine(op) {
        return Seen::Otherwise;
    }
    let len = HEAD + bytes.len();
    body[HEAD..len].copy_from_slice(bytes);
    match read_result(alloc, op, &body[..len], HEAD) {
        Ok(shown) => result_written(alloc, &shown, bytes),
        Err(ReadFault::Unread(unread)) => Seen::Stops(unread.place.saturating_sub(4 + HEAD)),
        Err(ReadFault::NoMemory) => Seen::Otherwise,
    }
}

/// Whether the result is written as these bytes, as a whole and from any of them on.
fn result_written(alloc: Global, shown: &Shown, bytes: &[u8]) -> Seen
    requires { IsMetaShown shown.now }
{
    if result_len(shown) != bytes.len() as u128 {
        return Seen::Otherwise;
    }
    for from in 0..bytes.len() {
        if !part_is(shown, from, bytes) {
            return Seen::Otherwise;
        }
    }
    let mut out = Octets::empty(alloc);
    match write_result(alloc, shown, &mut out) {
        Ok(()) => same(out.as_slice(), bytes),
        Err(_) => Seen::Otherwise,
    }
}

/// Whether the part of the result's bytes from an offset on is that of these bytes.
fn part_is(shown: &Shown, from: usize, bytes: &[u8]) -> bool
    requires known { IsMetaShown shown.now }
    requires within { from ≤ length bytes.now }
{
    let mut room = [0u8; ROOM];
    let filled = result_part(shown, from as u64, &mut room);
    filled <= ROOM && &room[..filled] == &bytes[from..]
}

/// Whether a row of the results holds: the result as it is, and cut after each byte.
fn result_holds(alloc: Global, op: i16, bytes: &[u8], cuts: &[usize]) -> bool {
    if result_seen(alloc, op, bytes) != Seen::Same || cuts.len() != bytes.len() {
        return false;
    }
    for (len, at) in cuts.iter().enumerate() {
        if result_seen(alloc, op, &bytes[..len]) != Seen::Stops(*at) {
            return false;
        }
    }
    true
}

/// Whether the result stops at a byte that follows it.
fn result_stops_at_more(alloc: Global, op: i16, bytes: &[u8]) -> bool {
    let len = bytes.len();
    match longer(bytes) {
        Some(room) if len < ROOM => result_seen(alloc, op, &room[..len + 1]) == Seen::Stops(len),
        _ => false,
    }
}

fn first_wrong_result(alloc: Global) -> Option<usize> {
    RESULTS
        .iter()
        .position(|(op, bytes, cuts)| !result_holds(alloc, *op, bytes, cuts))
}

fn first_result_with_more(alloc: Global) -> Option<usize> {
    RESULTS
        .iter()
        .position(|(op, bytes, _)| !result_stops_at_more(alloc, *op, bytes))
}

fn first_wrong_result_stop(alloc: Global) -> Option<usize> {
    WRONG_RESULTS.iter().position(|(op, bytes, at)| result_seen(alloc, *op, bytes)
        != Seen::Stops(*at))
}

/// Results are read and written the same, as a whole and from any byte on; cut after any byte, or
/// with a byte more, they stop where the table says.
#[test]
fn results_are_read_and_written(rt: HostRuntime) -> Result<(), Fail> {
    assert_eq!(rt; first_wrong_result(rt.alloc()), None);
    assert_eq!(rt; first_result_with_more(rt.alloc()), None);
    assert_eq!(rt; first_wrong_result_stop(rt.alloc()), None);
    Ok(())
}

/// The creation of a cache with a name of this many letters: whether the request was appended, and how
/// many bytes there are then.
fn creation_of(alloc: Global, len: usize) -> Result<(bool, usize), Fail> {
    let mut letters = Vec::new(alloc);
    letters.resize(len, b'a')?;
    let Ok(name) = String::from_utf8(letters) else {
        return Ok((false, 1));
    };
    let request = Request::Run(Call::Create {
        name: Text::new(name),
    });
    let mut out = Octets::empty(alloc);
    let done = write_ask(alloc, ID, &request, &mut out)?;
    Ok((done, out.len()))
}

/// A request whose frame would be above the limit isn't written.
#[test]
fn requests_keep_the_limit(rt: HostRuntime) -> Result<(), Fail> {
    assert_eq!(rt; creation_of(rt.alloc(), 8_388_593)?, (true, 8_388_612));
    assert_eq!(rt; creation_of(rt.alloc(), 8_388_594)?, (false, 0));
    Ok(())
}
