ghost use Rattle.std.specs.Prelude.{◌≤◌, length};

use ig_base::{Items, Octets, Topology};
use ig_fields::{message_len, message_part};
use ig_parts::*;
use ig_wire::{AskFault, ReadFault};
use std::alloc::Global;
use std::test::Fail;

/// How a request or a result reads.
#[derive(Clone, Copy, Debug, PartialEq, Eq)]
enum Seen {
    /// It reads, and is written the same.
    Same,
    /// It reads, and is written otherwise, or there is no memory.
    Otherwise,
    /// It doesn't read from this offset on.
    Stops(usize),
}

/// The length of the bodies of the tests, at most.
const ROOM: usize = 96;

/// The length of the head of a reply without a fault that tells no topology.
const HEAD: usize = 10;

/// Frames of requests by their identifier, and where the fields stop when they are cut after no
/// byte, after one, and so on, counted from the first field.
static ASKS: [(i64, &[u8], &[usize]); 3] = [
    (
        5,
        &[14, 0, 0, 0, 0x4D, 4, 5, 0, 0, 0, 0, 0, 0, 0, 0, 0, 0, 0],
        &[0, 0, 0, 0],
    ),
    (
        4,
        &[
            18, 0, 0, 0, 0x4D, 4, 4, 0, 0, 0, 0, 0, 0, 0, 1, 0, 0, 0, 0xB9, 5, 0x33, 0,
        ],
        &[0, 0, 0, 0, 4, 4, 4, 4],
    ),
    (
        -1,
        &[
            22, 0, 0, 0, 0x4D, 4, 255, 255, 255, 255, 255, 255, 255, 255, 2, 0, 0, 0, 7, 0, 0, 0,
            253, 255, 255, 255,
        ],
        &[0, 0, 0, 0, 4, 4, 4, 4, 8, 8, 8, 8],
    ),
];

/// Results, and where they stop when they are cut after no byte, after one, and so on: a map
/// without groups; and one with a group that isn't applicable, and with an applicable one.
static MAPS: [(&[u8], &[usize]); 2] = [
    (
        &[1, 0, 0, 0, 0, 0, 0, 0, 0, 0, 0, 0, 0, 0, 0, 0],
        &[0, 0, 0, 0, 0, 0, 0, 0, 8, 8, 8, 8, 12, 12, 12, 12],
    ),
    (
        &[
            254, 255, 255, 255, 255, 255, 255, 255, 2, 0, 0, 0, 2, 0, 0, 0, 0, 1, 0, 0, 0, 7, 0, 0,
            0, 1, 1, 0, 0, 0, 0xB9, 5, 0x33, 0, 1, 0, 0, 0, 112, 0, 0, 0, 97, 0, 0, 0, 1, 0, 0, 0,
            10, 2, 0, 0, 0, 0, 0, 0, 0, 1, 0, 0, 0, 0, 0, 0, 0, 2, 0, 0, 0, 0, 0, 0, 0, 255, 255,
            0, 0,
        ],
        &[
            0, 0, 0, 0, 0, 0, 0, 0, 8, 8, 8, 8, 12, 12, 12, 12, 16, 17, 17, 17, 17, 21, 21, 21, 21,
            25, 26, 26, 26, 26, 30, 30, 30, 30, 34, 34, 34, 34, 38, 38, 38, 38, 42, 42, 42, 42, 46,
            46, 46, 46, 50, 51, 51, 51, 51, 51, 51, 51, 51, 59, 59, 59, 59, 59, 59, 59, 59, 67, 67,
            67, 67, 71, 71, 71, 71, 75, 75, 75, 75,
        ],
    ),
];

/// Results that don't read, and where they stop: a negative count, another byte than 0 and 1,
/// another data object than a node, and partitions above 65,535 and below 0.
static WRONG_MAPS: [(&[u8], usize); 5] = [
    (
        &[1, 0, 0, 0, 0, 0, 0, 0, 0, 0, 0, 0, 255, 255, 255, 255],
        12,
    ),
    (
        &[
            1, 0, 0, 0, 0, 0, 0, 0, 0, 0, 0, 0, 1, 0, 0, 0, 2, 0, 0, 0, 0,
        ],
        16,
    ),
    (
        &[
            1, 0, 0, 0, 0, 0, 0, 0, 0, 0, 0, 0, 1, 0, 0, 0, 1, 0, 0, 0, 0, 1, 0, 0, 0, 9, 0, 0, 0,
            0, 0, 0, 0, 0,
        ],
        25,
    ),
    (
        &[
            1, 0, 0, 0, 0, 0, 0, 0, 0, 0, 0, 0, 1, 0, 0, 0, 1, 0, 0, 0, 0, 1, 0, 0, 0, 10, 0, 0, 0,
            0, 0, 0, 0, 0, 1, 0, 0, 0, 0, 0, 0, 0, 1, 0, 0, 0, 0, 0, 1, 0,
        ],
        46,
    ),
    (
        &[
            1, 0, 0, 0, 0, 0, 0, 0, 0, 0, 0, 0, 1, 0, 0, 0, 1, 0, 0, 0, 0, 1, 0, 0, 0, 10, 0, 0, 0,
            0, 0, 0, 0, 0, 1, 0, 0, 0, 0, 0, 0, 0, 1, 0, 0, 0, 255, 255, 255, 255,
        ],
        46,
    ),
];

fn same(bytes: &[u8], wanted: &[u8]) -> Seen {
    if bytes == wanted {
        Seen::Same
    } else {
        Seen::Otherwise
    }
}

/// How a frame of a request reads.
fn ask_seen(alloc: Global, id: i64, frame: &[u8]) -> Seen {
    if frame.len() < 14 {
        return Seen::Otherwise;
    }
    match read_parts_ask(alloc, &frame[4..]) {
        Ok(caches) => ask_written(alloc, id, &caches, frame),
        Err(AskFault::Unread { place }) => Seen::Stops(place),
        Err(_) => Seen::Otherwise,
    }
}

/// Whether the request is written as this frame.
fn ask_written(alloc: Global, id: i64, caches: &Items<i32>, frame: &[u8]) -> Seen {
    let mut out = Octets::empty(alloc);
    match write_parts_ask(alloc, id, caches, &mut out) {
        Ok(true) => same(out.as_slice(), frame),
        _ => Seen::Otherwise,
    }
}

/// Whether a row of the requests holds: the frame as it is, and cut after each byte of its fields.
fn ask_holds(alloc: Global, id: i64, frame: &[u8], cuts: &[usize]) -> bool {
    if ask_seen(alloc, id, frame) != Seen::Same
        || cuts.len() > ROOM
        || frame.len() != 14 + cuts.len()
    {
        return false;
    }
    for (len, at) in cuts.iter().enumerate() {
        if *at > ROOM || ask_seen(alloc, id, &frame[..14 + len]) != Seen::Stops(14 + *at) {
            return false;
        }
    }
    true
}

/// Whether the fields stop at a byte that follows them.
fn ask_stops_at_more(alloc: Global, id: i64, frame: &[u8]) -> bool {
    let mut longer = [0u8; ROOM];
    let len = frame.len();
    if len >= ROOM {
        return false;
    }
    longer[..len].copy_from_slice(frame);
    ask_seen(alloc, id, &longer[..len + 1]) == Seen::Stops(len)
}

fn first_wrong_ask(alloc: Global) -> Option<usize> {
    ASKS.iter()
        .position(|(id, frame, cuts)| !ask_holds(alloc, *id, frame, cuts))
}

fn first_ask_with_more(alloc: Global) -> Option<usize> {
    ASKS.iter()
        .position(|(id, frame, _)| !ask_stops_at_more(alloc, *id, frame))
}

/// Every request is read and written the same; cut after any byte of its fields, or with a byte
/// more, it stops where the table says.
#[test]
fn requests_are_read_and_written(rt: HostRuntime) -> Result<(), Fail> {
    assert_eq!(rt; first_wrong_ask(rt.alloc()), None);
    assert_eq!(rt; first_ask_with_more(rt.alloc()), None);
    Ok(())
}

/// How a result reads that comes after the head of a reply.
fn map_seen(alloc: Global, bytes: &[u8]) -> Seen {
    let mut body = [0u8; ROOM];
    if bytes.len() > ROOM - HEAD {
        return Seen::Otherwise;
    }
    let len = HEAD + bytes.len();
    body[HEAD..len].copy_from_slice(bytes);
    match read_parts(alloc, &body[..len], HEAD) {
        Ok(map) => map_written(alloc, &map, bytes),
        Err(ReadFault::Unread(unread)) => Seen::Stops(unread.place),
        Err(ReadFault::NoMemory) => Seen::Otherwise,
    }
}

/// Whether the map is written as these bytes, as a whole and from any of them on.
fn map_written(alloc: Global, map: &PartMap, bytes: &[u8]) -> Seen {
    if bytes.len() > ROOM || message_len(map) != bytes.len() as u128 {
        return Seen::Otherwise;
    }
    for from in 0..bytes.len() + 1 {
        if !part_is(map, from, bytes) {
            return Seen::Otherwise;
        }
    }
    let mut out = Octets::empty(alloc);
    match write_parts(alloc, map, &mut out) {
        Ok(()) => same(out.as_slice(), bytes),
        Err(_) => Seen::Otherwise,
    }
}

/// Whether the part of the map's bytes from an offset on is that of these bytes.
fn part_is(map: &PartMap, from: usize, bytes: &[u8]) -> bool
    requires { from ≤ length bytes.now }
{
    let mut room = [0u8; ROOM];
    let filled = message_part(map, from as u64, &mut room);
    filled <= ROOM && &room[..filled] == &bytes[from..]
}

/// Whether a row of the results holds: the map as it is, and cut after each byte.
fn map_holds(alloc: Global, bytes: &[u8], cuts: &[usize]) -> bool {
    if map_seen(alloc, bytes) != Seen::Same || cuts.len() != bytes.len() {
        return false;
    }
    for (len, at) in cuts.iter().enumerate() {
        if *at > ROOM || map_seen(alloc, &bytes[..len]) != Seen::Stops(4 + HEAD + *at) {
            return false;
        }
    }
    true
}

/// Whether the map stops at a byte that follows it.
fn map_stops_at_more(alloc: Global, bytes: &[u8]) -> bool {
    let mut longer = [0u8; ROOM];
    let len = bytes.len();
    if len >= ROOM {
        return false;
    }
    longer[..len].copy_from_slice(bytes);
    map_seen(alloc, &longer[..len + 1]) == Seen::Stops(4 + HEAD + len)
}

fn first_wrong_map(alloc: Global) -> Option<usize> {
    MAPS.iter()
        .position(|(bytes, cuts)| !map_holds(alloc, bytes, cuts))
}

fn first_map_with_more(alloc: Global) -> Option<usize> {
    MAPS.iter()
        .position(|(bytes, _)| !map_stops_at_more(alloc, bytes))
}

fn first_wrong_stop(alloc: Global) -> Option<usize> {
    WRONG_MAPS.iter().position(|(bytes, at)| *at > ROOM
        || map_seen(alloc, bytes) != Seen::Stops(4 + HEAD + *at))
}

/// Maps are read and written the same, as a whole and from any byte on; cut after any byte, or with
/// a byte more, they stop where the table says.
#[test]
fn maps_are_read_and_written(rt: HostRuntime) -> Result<(), Fail> {
    assert_eq!(rt; first_wrong_map(rt.alloc()), None);
    assert_eq!(rt; first_map_with_more(rt.alloc()), None);
    assert_eq!(rt; first_wrong_stop(rt.alloc()), None);
    Ok(())
}

/// What the bytes of a server's map begin with: one node, 1,024 partitions, and the cache `main`.
static SERVED: [u8; 62] = [
    1, 0, 0, 0, 0, 0, 0, 0, 0, 0, 0, 0, 1, 0, 0, 0, 1, 1, 0, 0, 0, 0xB9, 5, 0x33, 0, 0, 0, 0, 0, 1,
    0, 0, 0, 10, 0, 0, 0, 0, 0, 0, 0, 0, 1, 0, 0, 0, 0, 0, 0, 0, 0, 4, 0, 0, 0, 0, 0, 0, 1, 0, 0,
    0,
];

fn bytes_of(alloc: Global, map: &PartMap) -> Result<Octets, Fail> {
    let mut out = Octets::empty(alloc);
    write_parts(alloc, map, &mut out)?;
    Ok(out)
}

/// The map that a server answers has the bytes of its groups, and reads as it is.
#[test]
fn served_maps_are_written(rt: HostRuntime) -> Result<(), Fail> {
    let alloc = rt.alloc();
    let told = Topology {
        version: 1,
        minor: 0,
    };
    let map = served_map(alloc, told, 1, 1024, &[3_343_801], &[])?;
    let bytes = bytes_of(alloc, &map)?;
    assert_eq!(rt; bytes.len(), 4150);
    assert!(rt; bytes.as_slice().starts_with(&SERVED));
    let again = read_parts(alloc, bytes.as_slice(), 0)?;
    let written = bytes_of(alloc, &again)?;
    assert!(rt; written.as_slice() == bytes.as_slice());
    Ok(())
}

/// A request for this many caches: whether it was appended, and how many bytes there are then.
fn ask_of_caches(alloc: Global, count: usize) -> Result<(bool, usize), Fail> {
    let mut caches = Vec::new(alloc);
    caches.resize(count, 7)?;
    let mut out = Octets::empty(alloc);
    let done = write_parts_ask(alloc, 1, &Items::new(caches), &mut out)?;
    Ok((done, out.len()))
}

/// A request whose frame would be above the limit isn't written.
#[test]
fn requests_keep_the_limit(rt: HostRuntime) -> Result<(), Fail> {
    assert_eq!(rt; ask_of_caches(rt.alloc(), 2_097_148)?, (true, 8_388_610));
    assert_eq!(rt; ask_of_caches(rt.alloc(), 2_097_149)?, (false, 0));
    Ok(())
}
