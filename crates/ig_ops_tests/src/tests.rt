ghost use Rattle.std.specs.Prelude.{◌≤◌, length, IsTrue};
ghost use Rattle.ig_fields.specs.Ask.{row_at};
ghost use Rattle.ig_ops.specs.Requests.{IsOpsRequest};
ghost use Rattle.ig_ops.specs.Results.{result_of, IsOpsShown};
ghost use Rattle.ig_ops.specs.ReadAnswers.{IsKnown};

use ig_base::{Items, Octets};
use ig_caches::{Call, Outcome, Page, Pair, Request, Shown};
use ig_ops::*;
use ig_value::Value;
use ig_wire::{AskFault, Operation, Profile, ReadFault};
use std::alloc::Global;
use std::test::Fail;

/// How a request or a result reads.
#[derive(Clone, Copy, Debug, PartialEq, Eq)]
enum Seen {
    /// It reads, and is written the same.
    Same,
    /// It reads, and is written otherwise, or there is no memory.
    Otherwise,
    /// It doesn't read from this offset of its fields on.
    Stops(usize),
    /// It isn't served.
    Refused(Profile),
    /// Its operation isn't one of this crate.
    NotMine,
}

/// The length of the frames of the tests, at most.
const ROOM: usize = 96;

/// The length of a frame of a request up to its fields.
const ASK_HEAD: usize = 14;

/// The length of the head of a reply.
const HEAD: usize = 12;

/// The identifier of the requests.
const ID: i64 = 0x0807_0605_0403_0201;

/// Operations, fields of requests, and where they stop when they are cut after no byte, after one, and
/// so on.
static ASKS: [(&[i16], &[u8], &[usize]); 13] = [
    (
        &[1000, 1007, 1011, 1014, 1016],
        &[7, 0, 0, 0, 0, 8, 1],
        &[0, 0, 0, 0, 4, 5, 6],
    ),
    (
        &[1001, 1002, 1005, 1006, 1008, 1009, 1017],
        &[7, 0, 0, 0, 0, 8, 1, 8, 0],
        &[0, 0, 0, 0, 4, 5, 6, 7, 8],
    ),
    (
        &[1001],
        &[0xB9, 5, 0x33, 0, 0, 3, 1, 0, 0, 0, 3, 2, 0, 0, 0],
        &[0, 0, 0, 0, 4, 5, 6, 6, 6, 6, 10, 11, 11, 11, 11],
    ),
    (
        &[1010],
        &[7, 0, 0, 0, 0, 8, 1, 8, 0, 8, 1],
        &[0, 0, 0, 0, 4, 5, 6, 7, 8, 9, 10],
    ),
    (
        &[1010],
        &[
            0xB9, 5, 0x33, 0, 0, 3, 1, 0, 0, 0, 3, 3, 0, 0, 0, 3, 4, 0, 0, 0,
        ],
        &[
            0, 0, 0, 0, 4, 5, 6, 6, 6, 6, 10, 11, 11, 11, 11, 15, 16, 16, 16, 16,
        ],
    ),
    (
        &[1003, 1004, 1012, 1015, 1018, 1020],
        &[7, 0, 0, 0, 0, 0, 0, 0, 0],
        &[0, 0, 0, 0, 4, 5, 5, 5, 5],
    ),
    (
        &[1003, 1012, 1015, 1018],
        &[7, 0, 0, 0, 0, 2, 0, 0, 0, 8, 1, 1, 9],
        &[0, 0, 0, 0, 4, 5, 5, 5, 5, 9, 10, 11, 12],
    ),
    (
        &[1004],
        &[0xB9, 5, 0x33, 0, 0, 2, 0, 0, 0, 8, 1, 1, 2, 8, 1, 1, 3],
        &[0, 0, 0, 0, 4, 5, 5, 5, 5, 9, 10, 11, 12, 13, 14, 15, 16],
    ),
    (
        &[1020],
        &[7, 0, 0, 0, 0, 2, 0, 0, 0, 1, 255],
        &[0, 0, 0, 0, 4, 5, 5, 5, 5, 9, 10],
    ),
    (&[1013, 1019], &[255, 255, 255, 255, 0], &[0, 0, 0, 0, 4]),
    (
        &[2000],
        &[0xB9, 5, 0x33, 0, 0, 101, 2, 0, 0, 0, 255, 255, 255, 255, 0],
        &[0, 0, 0, 0, 4, 5, 6, 6, 6, 6, 10, 10, 10, 10, 14],
    ),
    (
        &[2000],
        &[7, 0, 0, 0, 0, 101, 1, 0, 0, 0, 255, 255, 255, 255, 0],
        &[0, 0, 0, 0, 4, 5, 6, 6, 6, 6, 10, 10, 10, 10, 14],
    ),
    (
        &[2001, 0],
        &[1, 0, 0, 0, 0, 0, 0, 128],
        &[0, 0, 0, 0, 0, 0, 0, 0],
    ),
];

/// Fields of requests that aren't read and written the same: the operations of others, null among keys
/// and values, scans that aren't served, counts below 0, and what a client doesn't write.
static OTHER_ASKS: [(i16, &[u8], Seen); 24] = [
    (1050, &[], Seen::NotMine),
    (1056, &[7, 0, 0, 0], Seen::NotMine),
    (1101, &[0, 0, 0, 0], Seen::NotMine),
    (-1, &[], Seen::NotMine),
    (1021, &[7, 0, 0, 0, 0], Seen::NotMine),
    (
        1000,
        &[7, 0, 0, 0, 0, 101],
        Seen::Refused(Profile::NullItem),
    ),
    (
        1001,
        &[7, 0, 0, 0, 0, 101, 8, 1],
        Seen::Refused(Profile::NullItem),
    ),
    (
        1001,
        &[7, 0, 0, 0, 0, 8, 1, 101],
        Seen::Refused(Profile::NullItem),
    ),
    (
        1017,
        &[7, 0, 0, 0, 0, 8, 1, 101],
        Seen::Refused(Profile::NullItem),
    ),
    (
        1010,
        &[7, 0, 0, 0, 0, 8, 1, 101, 8, 1],
        Seen::Refused(Profile::NullItem),
    ),
    (
        1010,
        &[7, 0, 0, 0, 0, 8, 1, 8, 1, 101],
        Seen::Refused(Profile::NullItem),
    ),
    (
        1003,
        &[7, 0, 0, 0, 0, 2, 0, 0, 0, 8, 1, 101],
        Seen::Refused(Profile::NullItem),
    ),
    (
        1004,
        &[7, 0, 0, 0, 0, 1, 0, 0, 0, 8, 1, 101],
        Seen::Refused(Profile::NullItem),
    ),
    (1000, &[7, 0, 0, 0, 0, 101, 0], Seen::Stops(6)),
    (1003, &[7, 0, 0, 0, 0, 255, 255, 255, 255], Seen::Stops(5)),
    (1020, &[7, 0, 0, 0, 0, 0, 0, 0, 128], Seen::Stops(5)),
    (1000, &[0xB9, 5, 0x33, 0, 0, 8, 2], Seen::Stops(6)),
    (1000, &[7, 0, 0, 0, 1, 8, 1], Seen::Otherwise),
    (
        2000,
        &[7, 0, 0, 0, 0, 8, 1, 3, 0, 0, 0, 0, 0, 0, 0, 0, 0],
        Seen::Refused(Profile::Filter),
    ),
    (
        2000,
        &[7, 0, 0, 0, 0, 101, 0, 0, 0, 0, 0, 0, 0, 0, 0],
        Seen::Refused(Profile::PageSize),
    ),
    (
        2000,
        &[
            7, 0, 0, 0, 0, 101, 255, 255, 255, 255, 255, 255, 255, 255, 0,
        ],
        Seen::Refused(Profile::PageSize),
    ),
    (
        2000,
        &[7, 0, 0, 0, 0, 101, 1, 0, 0, 0, 0, 0, 0, 0, 0],
        Seen::Refused(Profile::Partition),
    ),
    (
        2000,
        &[7, 0, 0, 0, 0, 101, 1, 0, 0, 0, 254, 255, 255, 255, 1],
        Seen::Otherwise,
    ),
    (
        2000,
        &[7, 0, 0, 0, 0, 8, 1, 3, 0, 0, 0, 0, 0, 0, 0, 0],
        Seen::Stops(16),
    ),
];

/// Operations, results, and where they stop when they are cut after no byte, after one, and so on.
static RESULTS: [(&[i16], &[u8], &[usize]); 11] = [
    (&[1000, 1005, 1006, 1007, 1008], &[101], &[0]),
    (&[1000], &[3, 2, 0, 0, 0], &[0, 1, 1, 1, 1]),
    (&[1001, 1004, 1013, 1014, 1015, 1018, 1019, 0], &[], &[]),
    (&[1002, 1009, 1010, 1011, 1012, 1016, 1017], &[0], &[0]),
    (&[1002, 1009, 1010, 1011, 1012, 1016, 1017], &[1], &[0]),
    (&[1003], &[0, 0, 0, 0], &[0, 0, 0, 0]),
    (
        &[1003],
        &[
            2, 0, 0, 0, 3, 4, 0, 0, 0, 3, 5, 0, 0, 0, 3, 1, 0, 0, 0, 3, 3, 0, 0, 0,
        ],
        &[
            0, 0, 0, 0, 4, 5, 5, 5, 5, 9, 10, 10, 10, 10, 14, 15, 15, 15, 15, 19, 20, 20, 20, 20,
        ],
    ),
    (
        &[1020],
        &[1, 0, 0, 0, 0, 0, 0, 0],
        &[0, 0, 0, 0, 0, 0, 0, 0],
    ),
    (
        &[2000],
        &[
            1, 0, 0, 0, 0, 0, 0, 0, 2, 0, 0, 0, 3, 1, 0, 0, 0, 3, 1, 0, 0, 0, 3, 2, 0, 0, 0, 3, 2,
            0, 0, 0, 1,
        ],
        &[
            0, 0, 0, 0, 0, 0, 0, 0, 8, 8, 8, 8, 12, 13, 13, 13, 13, 17, 18, 18, 18, 18, 22, 23, 23,
            23, 23, 27, 28, 28, 28, 28, 32,
        ],
    ),
    (
        &[2001],
        &[1, 0, 0, 0, 3, 5, 0, 0, 0, 3, 5, 0, 0, 0, 0],
        &[0, 0, 0, 0, 4, 5, 5, 5, 5, 9, 10, 10, 10, 10, 14],
    ),
    (&[2001], &[0, 0, 0, 0, 0], &[0, 0, 0, 0, 4]),
];

/// Results that don't read, and where they stop: truth values other than 0 and 1, and counts below 0.
static WRONG_RESULTS: [(i16, &[u8], usize); 5] = [
    (1002, &[2], 0),
    (1003, &[255, 255, 255, 255], 0),
    (2000, &[1, 0, 0, 0, 0, 0, 0, 0, 0, 0, 0, 0, 2], 12),
    (2001, &[0, 0, 0, 0, 255], 4),
    (2001, &[0, 0, 0, 128, 0], 0),
];

fn same(bytes: &[u8], wanted: &[u8]) -> Seen {
    if bytes == wanted {
        Seen::Same
    } else {
        Seen::Otherwise
    }
}

/// The frame of a request with these fields, and its length.
fn ask_frame(op: i16, fields: &[u8]) -> ([u8; ROOM], usize) {
    let mut frame = [0u8; ROOM];
    if fields.len() > ROOM - ASK_HEAD {
        return (frame, ROOM);
    }
    let len = ASK_HEAD + fields.len();
    frame[0] = (len - 4) as u8;
    frame[4..6].copy_from_slice(&op.to_le_bytes());
    frame[6..ASK_HEAD].copy_from_slice(&ID.to_le_bytes());
    frame[ASK_HEAD..len].copy_from_slice(fields);
    (frame, len)
}

/// How fields of a request read.
fn ask_seen(alloc: Global, op: i16, fields: &[u8]) -> Seen {
    let (frame, len) = ask_frame(op, fields);
    if len < ASK_HEAD {
        return Seen::Otherwise;
    }
    if len > ROOM {
        return Seen::Otherwise;
    }
    match read_fields(alloc, op, &frame[4..len]) {
        Ok(request) => ask_written(alloc, &request, &frame[..len]),
        Err(AskFault::Unread { place }) => Seen::Stops(place.saturating_sub(ASK_HEAD)),
        Err(AskFault::Profile(profile)) => Seen::Refused(profile),
        Err(AskFault::NotMine) => Seen::NotMine,
        Err(AskFault::NoMemory) => Seen::Otherwise,
    }
}

/// Whether the request is written as this frame.
fn ask_written(alloc: Global, request: &Request, frame: &[u8]) -> Seen
    requires { IsOpsRequest request.now }
{
    let mut out = Octets::empty(alloc);
    match write_ask(alloc, ID, request, &mut out) {
        Ok(true) => same(out.as_slice(), frame),
        _ => Seen::Otherwise,
    }
}

/// Whether fields hold for an operation: as they are, cut after each byte, and with a byte more.
fn ask_holds(alloc: Global, op: i16, fields: &[u8], cuts: &[usize]) -> bool {
    if cuts.len() != fields.len() {
        return false;
    }
    for (len, at) in cuts.iter().enumerate() {
        if ask_seen(alloc, op, &fields[..len]) != Seen::Stops(*at) {
            return false;
        }
    }
    let (longer, len) = with_one_more(fields);
    ask_seen(alloc, op, fields) == Seen::Same
        && len <= ROOM
        && ask_seen(alloc, op, &longer[..len]) == Seen::Stops(fields.len())
}

/// The bytes with a byte more, and their number.
fn with_one_more(bytes: &[u8]) -> ([u8; ROOM], usize) {
    let mut longer = [0u8; ROOM];
    let len = bytes.len();
    if len >= ROOM {
        return (longer, ROOM);
    }
    longer[..len].copy_from_slice(bytes);
    (longer, len + 1)
}

fn first_wrong_ask(alloc: Global) -> Option<usize> {
    ASKS.iter().position(|(ops, fields, cuts)| !ops
        .iter()
        .all(|op| ask_holds(alloc, *op, fields, cuts)))
}

fn first_wrong_other(alloc: Global) -> Option<usize> {
    OTHER_ASKS
        .iter()
        .position(|(op, fields, seen)| ask_seen(alloc, *op, fields) != *seen)
}

/// Every request is read and written the same; cut after any byte of its fields, or with a byte more, it
/// stops where the table says. Others are refused as the table says.
#[test]
fn requests_are_read_and_written(rt: HostRuntime) -> Result<(), Fail> {
    assert_eq!(rt; first_wrong_ask(rt.alloc()), None);
    assert_eq!(rt; first_wrong_other(rt.alloc()), None);
    Ok(())
}

/// Whether the operation with this code is one of this crate.
fn is_known(op: i16) -> bool
    ensures { IsTrue result → IsKnown (row_at result_of op) }
{
    match Operation::of(op) {
        Some(operation) => is_own(operation),
        None => false,
    }
}

fn is_own(operation: Operation) -> bool
    ensures { IsTrue result → IsKnown (result_of operation) }
{
    match operation {
        Operation::Get => true,
        Operation::Put => true,
        Operation::PutIfAbsent => true,
        Operation::GetAll => true,
        Operation::PutAll => true,
        Operation::GetAndPut => true,
        Operation::GetAndReplace => true,
        Operation::GetAndRemove => true,
        Operation::GetAndPutIfAbsent => true,
        Operation::Replace => true,
        Operation::ReplaceIfEquals => true,
        Operation::ContainsKey => true,
        Operation::ContainsKeys => true,
        Operation::Clear => true,
        Operation::ClearKey => true,
        Operation::ClearKeys => true,
        Operation::RemoveKey => true,
        Operation::RemoveIfEquals => true,
        Operation::RemoveKeys => true,
        Operation::RemoveAll => true,
        Operation::GetSize => true,
        Operation::Scan => true,
        Operation::NextPage => true,
        Operation::CloseResource => true,
        _ => false,
    }
}

/// How a result reads that comes after the head of a reply.
fn result_seen(alloc: Global, op: i16, bytes: &[u8]) -> Seen {
    let mut body = [0u8; ROOM];
    if bytes.len() > ROOM - HEAD {
        return Seen::Otherwise;
    }
    if !is_known(op) {
        return Seen::Otherwise;
    }
    let len = HEAD + bytes.len();
    body[HEAD..len].copy_from_slice(bytes);
    match read_result(alloc, op, &body[..len], HEAD) {
        Ok(shown) => result_written(alloc, &shown, bytes),
        Err(ReadFault::Unread(unread)) => Seen::Stops(unread.place.saturating_sub(4 + HEAD)),
        Err(ReadFault::NoMemory) => Seen::Otherwise,
    }
}

/// Whether the result is written as these bytes, as a whole and from any of them on.
fn result_written(alloc: Global, shown: &Shown, bytes: &[u8]) -> Seen
    requires { IsOpsShown shown.now }
{
    if bytes.len() > ROOM || result_len(shown) != bytes.len() as u128 {
        return Seen::Otherwise;
    }
    for from in 0..bytes.len() + 1 {
        if !part_is(shown, from, bytes) || !page_is(shown, from, bytes) {
            return Seen::Otherwise;
        }
    }
    let mut out = Octets::empty(alloc);
    match write_result(alloc, shown, &mut out) {
        Ok(()) => same(out.as_slice(), bytes),
        Err(_) => Seen::Otherwise,
    }
}

/// Whether the part of the result's bytes from an offset on is that of these bytes.
fn part_is(shown: &Shown, from: usize, bytes: &[u8]) -> bool
    requires known { IsOpsShown shown.now }
    requires within { from ≤ length bytes.now }
{
    let mut room = [0u8; ROOM];
    let filled = result_part(shown, from as u64, &mut room);
    filled <= ROOM && &room[..filled] == &bytes[from..]
}

/// The same of a page, by its parts, whose length is that of the bytes.
fn page_is(shown: &Shown, from: usize, bytes: &[u8]) -> bool
    requires { from ≤ length bytes.now }
{
    let Shown::Page(page) = shown else {
        return true;
    };
    let rows = page.rows.as_slice();
    let mut room = [0u8; ROOM];
    let filled = page_part(page.cursor, rows, page.more, from as u64, &mut room);
    page_len(page.cursor, rows, page.more) == bytes.len() as u128
        && filled <= ROOM
        && &room[..filled] == &bytes[from..]
        && page_goes_on(page, from, bytes)
}

/// Whether a page that was shown up to an offset goes on there.
fn page_goes_on(page: &Page, from: usize, bytes: &[u8]) -> bool
    requires { from ≤ length bytes.now }
{
    let rows = page.rows.as_slice();
    let mut mark = PageMark::first(page.cursor);
    mark.advance(rows, from as u64);
    let mut room = [0u8; 7];
    let filled = page_from(page.cursor, rows, page.more, &mark, from as u64, &mut room);
    filled <= 7 && bytes[from..].starts_with(&room[..filled])
}

/// Whether a result holds for an operation: as it is, cut after each byte, and with a byte more.
fn result_holds(alloc: Global, op: i16, bytes: &[u8], cuts: &[usize]) -> bool {
    if cuts.len() != bytes.len() {
        return false;
    }
    for (len, at) in cuts.iter().enumerate() {
        if result_seen(alloc, op, &bytes[..len]) != Seen::Stops(*at) {
            return false;
        }
    }
    let (longer, len) = with_one_more(bytes);
    result_seen(alloc, op, bytes) == Seen::Same
        && len <= ROOM
        && result_seen(alloc, op, &longer[..len]) == Seen::Stops(bytes.len())
}

fn first_wrong_result(alloc: Global) -> Option<usize> {
    RESULTS.iter().position(|(ops, bytes, cuts)| !ops
        .iter()
        .all(|op| result_holds(alloc, *op, bytes, cuts)))
}

fn first_wrong_stop(alloc: Global) -> Option<usize> {
    WRONG_RESULTS.iter().position(|(op, bytes, at)| result_seen(alloc, *op, bytes)
        != Seen::Stops(*at))
}

/// Results are read and written the same, as a whole and from any byte on; cut after any byte, or with a
/// byte more, they stop where the table says.
#[test]
fn results_are_read_and_written(rt: HostRuntime) -> Result<(), Fail> {
    assert_eq!(rt; first_wrong_result(rt.alloc()), None);
    assert_eq!(rt; first_wrong_stop(rt.alloc()), None);
    Ok(())
}

/// An array of this many Bytes.
fn bytes_of(alloc: Global, count: usize) -> Result<Value, Fail> {
    let mut items = Vec::new(alloc);
    items.resize(count, 1i8)?;
    Ok(Value::Bytes(Items::new(items)))
}

/// An array of this many Longs.
fn longs(alloc: Global, count: usize) -> Result<Value, Fail> {
    let mut items = Vec::new(alloc);
    items.resize(count, 1i64)?;
    Ok(Value::Longs(Items::new(items)))
}

/// A request that sets an array of this many Bytes to one of 1,048,572 Longs: whether it was appended, and
/// how many bytes there are.
fn large_ask(alloc: Global, bytes: usize) -> Result<(bool, usize), Fail> {
    let request = Request::Run(Call::Put {
        cache: 3_343_801,
        key: bytes_of(alloc, bytes)?,
        value: longs(alloc, 1_048_572)?,
    });
    let mut out = Octets::empty(alloc);
    let done = write_ask(alloc, ID, &request, &mut out)?;
    Ok((done, out.len()))
}

/// A request whose frame would be above the limit isn't written.
#[test]
fn requests_keep_the_limit(rt: HostRuntime) -> Result<(), Fail> {
    assert_eq!(rt; large_ask(rt.alloc(), 7)?, (true, 8_388_612));
    assert_eq!(rt; large_ask(rt.alloc(), 8)?, (false, 0));
    Ok(())
}

/// The length of a result is that of all of its bytes, however many they are.
#[test]
fn large_results_have_their_length(rt: HostRuntime) -> Result<(), Fail> {
    let alloc = rt.alloc();
    let pair = Pair {
        key: longs(alloc, 1_048_576)?,
        value: longs(alloc, 1_048_575)?,
    };
    let mut rows = Vec::new(alloc);
    rows.push(pair)?;
    let shown = Shown::Out(Outcome::Pairs(Items::new(rows)));
    assert_eq!(rt; result_len(&shown), 16_777_222);
    Ok(())
}
