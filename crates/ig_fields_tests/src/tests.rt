ghost use Rattle.ig_value.specs.Canon.{Canon};

use ig_base::{Items, NoMemory, NodeId, Octets, Text};
use ig_encode::{ValueOutput, Window};
use ig_fields::*;
use ig_value::Value;
use ig_wire::{AskFault, Profile, ReadError, ReadFault, Unread};
use std::alloc::Global;
use std::test::Fail;

/// The formats of the tables.
#[derive(Clone, Copy)]
enum Kind {
    Nothing,
    Byte,
    Truth,
    Int,
    Long,
    Port,
    Name,
    NameOrNull,
    Node,
    Any,
    Entry,
    Choice,
    Filter,
    Ints,
    Lists,
    Entries,
}

/// Where the bytes stop being fields of F, or `None` where they are fields and are written the same.
fn stop_of<F: FieldFormat>(alloc: Global, bytes: &[u8]) -> Option<usize> {
    match read_all::<F>(alloc, bytes) {
        Ok(item) => {
            let mut room = [0u8; 32];
            let mut window = Window::from(0);
            F::put(&item, &mut window, &mut room);
            let filled = window.filled();
            if filled > 32 || &room[..filled] != bytes {
                return Some(usize::MAX);
            }
            None
        }
        Err(ReadError::Stopped(stop)) => Some(bytes.len().saturating_sub(stop.left)),
        Err(ReadError::NoMemory) => Some(usize::MAX),
    }
}

/// The same by the kind of the format.
fn stop(alloc: Global, kind: Kind, bytes: &[u8]) -> Option<usize> {
    match kind {
        Kind::Nothing => stop_of::<()>(alloc, bytes),
        Kind::Byte => stop_of::<u8>(alloc, bytes),
        Kind::Truth => stop_of::<bool>(alloc, bytes),
        Kind::Int => stop_of::<i32>(alloc, bytes),
        Kind::Long => stop_of::<i64>(alloc, bytes),
        Kind::Port => stop_of::<Within<65535>>(alloc, bytes),
        Kind::Name => stop_of::<Text>(alloc, bytes),
        Kind::NameOrNull => stop_of::<Option<Text>>(alloc, bytes),
        Kind::Node => stop_of::<NodeId>(alloc, bytes),
        Kind::Any => stop_of::<Value>(alloc, bytes),
        Kind::Entry => stop_of::<(i32, Text)>(alloc, bytes),
        Kind::Choice => stop_of::<Either<(), i32>>(alloc, bytes),
        Kind::Filter => stop_of::<UnlessNull<u8>>(alloc, bytes),
        Kind::Ints => stop_of::<Items<i32>>(alloc, bytes),
        Kind::Lists => stop_of::<Items<Items<u8>>>(alloc, bytes),
        Kind::Entries => stop_of::<Items<(Text, i32)>>(alloc, bytes),
    }
}

/// Fields, and where they stop when they are cut after no byte, after one, and so on.
static FIELDS: [(Kind, &[u8], &[usize]); 21] = [
    (Kind::Nothing, &[], &[]),
    (Kind::Byte, &[255], &[0]),
    (Kind::Truth, &[0], &[0]),
    (Kind::Truth, &[1], &[0]),
    (Kind::Int, &[254, 255, 255, 255], &[0, 0, 0, 0]),
    (
        Kind::Long,
        &[1, 0, 0, 0, 0, 0, 0, 128],
        &[0, 0, 0, 0, 0, 0, 0, 0],
    ),
    (Kind::Port, &[0, 0, 0, 0], &[0, 0, 0, 0]),
    (Kind::Port, &[255, 255, 0, 0], &[0, 0, 0, 0]),
    (
        Kind::Name,
        &[9, 2, 0, 0, 0, 0xC3, 0xA4],
        &[0, 1, 1, 1, 1, 5, 5],
    ),
    (Kind::NameOrNull, &[101], &[0]),
    (Kind::NameOrNull, &[9, 1, 0, 0, 0, 97], &[0, 1, 1, 1, 1, 5]),
    (
        Kind::Node,
        &[10, 1, 2, 3, 4, 5, 6, 7, 8, 9, 10, 11, 12, 13, 14, 15, 16],
        &[0, 1, 1, 1, 1, 1, 1, 1, 1, 9, 9, 9, 9, 9, 9, 9, 9],
    ),
    (Kind::Any, &[3, 5, 0, 0, 0], &[0, 1, 1, 1, 1]),
    (
        Kind::Entry,
        &[1, 0, 0, 0, 9, 1, 0, 0, 0, 97],
        &[0, 0, 0, 0, 4, 5, 5, 5, 5, 9],
    ),
    (Kind::Choice, &[0], &[0]),
    (Kind::Choice, &[1, 5, 0, 0, 0], &[0, 1, 1, 1, 1]),
    (Kind::Filter, &[101], &[0]),
    (Kind::Filter, &[3, 1, 0, 0, 0, 7], &[0, 1, 1, 1, 1, 5]),
    (
        Kind::Ints,
        &[2, 0, 0, 0, 1, 0, 0, 0, 2, 0, 0, 0],
        &[0, 0, 0, 0, 4, 4, 4, 4, 8, 8, 8, 8],
    ),
    (
        Kind::Lists,
        &[2, 0, 0, 0, 1, 0, 0, 0, 7, 0, 0, 0, 0],
        &[0, 0, 0, 0, 4, 4, 4, 4, 8, 9, 9, 9, 9],
    ),
    (
        Kind::Entries,
        &[1, 0, 0, 0, 9, 0, 0, 0, 0, 3, 0, 0, 0],
        &[0, 0, 0, 0, 4, 5, 5, 5, 5, 9, 9, 9, 9],
    ),
];

/// Bytes that aren't fields, and where they stop.
static WRONG: [(Kind, &[u8], usize); 17] = [
    (Kind::Truth, &[2], 0),
    (Kind::Port, &[0, 0, 1, 0], 0),
    (Kind::Port, &[255, 255, 255, 255], 0),
    (Kind::Name, &[101], 0),
    (Kind::Name, &[9, 255, 255, 255, 255], 1),
    (Kind::Name, &[9, 1, 0, 0, 0, 255], 5),
    (Kind::NameOrNull, &[3, 1, 0, 0, 0], 0),
    (Kind::Node, &[9, 0, 0, 0, 0], 0),
    (Kind::Any, &[200], 0),
    (Kind::Entry, &[1, 0, 0, 0, 10], 4),
    (Kind::Choice, &[2, 5, 0, 0, 0], 0),
    (Kind::Filter, &[9, 1, 0, 0, 0, 255, 7], 5),
    (Kind::Ints, &[255, 255, 255, 255], 0),
    (Kind::Ints, &[0, 0, 0, 128, 0, 0, 0, 0], 0),
    (Kind::Ints, &[255, 255, 255, 127], 4),
    (Kind::Lists, &[1, 0, 0, 0, 254, 255, 255, 255], 4),
    (Kind::Entries, &[1, 0, 0, 0, 101, 3, 0, 0, 0], 4),
];

/// Whether a row holds: the fields as they are, with a byte more, and cut after each byte.
fn row_holds(alloc: Global, kind: Kind, bytes: &[u8], cuts: &[usize]) -> bool {
    if stop(alloc, kind, bytes).is_some() || cuts.len() != bytes.len() {
        return false;
    }
    for (len, at) in cuts.iter().enumerate() {
        if stop(alloc, kind, &bytes[..len]) != Some(*at) {
            return false;
        }
    }
    true
}

/// Whether the fields stop at a byte that follows them.
fn stops_at_more(alloc: Global, kind: Kind, bytes: &[u8]) -> bool {
    let mut longer = [0u8; 32];
    let len = bytes.len();
    if len > 31 {
        return false;
    }
    longer[..len].copy_from_slice(bytes);
    stop(alloc, kind, &longer[..len + 1]) == Some(len)
}

/// The first row of the fields that doesn't hold.
fn first_wrong_row(alloc: Global) -> Option<usize> {
    FIELDS.iter().position(|(kind, bytes, cuts)| !row_holds(alloc, *kind, bytes, cuts))
}

/// The first row of the fields that goes on at a byte that follows them.
fn first_with_more(alloc: Global) -> Option<usize> {
    FIELDS
        .iter()
        .position(|(kind, bytes, _)| !stops_at_more(alloc, *kind, bytes))
}

/// The first row of the wrong bytes that stop elsewhere.
fn first_wrong_stop(alloc: Global) -> Option<usize> {
    WRONG
        .iter()
        .position(|(kind, bytes, at)| stop(alloc, *kind, bytes) != Some(*at))
}

/// Fields are read as they are and written the same; cut after any byte, or with a byte more, they stop
/// where the table says.
#[test]
fn fields_are_read_and_written(rt: HostRuntime) -> Result<(), Fail> {
    assert_eq!(rt; first_wrong_row(rt.alloc()), None);
    assert_eq!(rt; first_with_more(rt.alloc()), None);
    Ok(())
}

/// Bytes that aren't fields stop where the first wrong item begins.
#[test]
fn wrong_bytes_stop_at_their_place(rt: HostRuntime) -> Result<(), Fail> {
    assert_eq!(rt; first_wrong_stop(rt.alloc()), None);
    Ok(())
}

/// What the fields of a request with one Byte ask, which isn't served at 0.
fn asked_byte(alloc: Global, body: &[u8]) -> Result<u8, AskFault> {
    if body.len() < 10 {
        return Err(AskFault::NotMine);
    }
    read_asked::<u8, u8, _>(
        alloc,
        body,
        |byte| if byte == 0 {
            Err(Profile::Filter)
        } else {
            Ok(byte)
        },
    )
}

/// Requests come after ten bytes, and places count from the frame's first byte.
#[test]
fn requests_are_read(rt: HostRuntime) -> Result<(), Fail> {
    let body = [0, 0, 0, 0, 0, 0, 0, 0, 0, 0, 7, 0];
    let alloc = rt.alloc();
    assert_eq!(rt; asked_byte(alloc, &body[..11]), Ok(7));
    assert_eq!(rt;
        asked_byte(alloc, &body[..10]),
        Err(AskFault::Unread { place: 14 })
    );
    assert_eq!(rt;
        asked_byte(alloc, &body),
        Err(AskFault::Unread { place: 15 })
    );
    assert_eq!(rt;
        asked_byte(alloc, &[0; 11]),
        Err(AskFault::Profile(Profile::Filter))
    );
    Ok(())
}

/// Results stand in the body from an offset on.
#[test]
fn results_are_read(rt: HostRuntime) -> Result<(), Fail> {
    let body = [0, 0, 0, 0, 0, 0, 0, 0, 0, 0, 0, 0, 1, 2];
    let alloc = rt.alloc();
    assert_eq!(rt;
        read_shown::<bool, bool, _>(alloc, &body[..13], 12, |yes| !yes),
        Ok(false)
    );
    assert_eq!(rt;
        result_fields::<bool>(alloc, &body, 12),
        Err(ReadFault::Unread(Unread { place: 17 }))
    );
    Ok(())
}

/// A body that is a value.
#[derive(Drop)]
struct Body(Value);

impl Message for Body {
    ghost bytes = { λ body. Canon body.0 };

    fn put<S: ValueOutput>(&self, out: &mut S, into: &mut [u8]) {
        out.put_value(into, &self.0);
    }
}

/// Appends the frame of an array of bytes, which has five more, to one byte. Answers whether it did, and
/// how many bytes there are then.
fn framed(alloc: Global, items: usize) -> Result<(bool, usize), NoMemory> {
    let mut zeros = Vec::new(alloc);
    zeros.resize(items, 0)?;
    let body = Body(Value::Bytes(Items::new(zeros)));
    let mut out = Octets::empty(alloc);
    out.push(0)?;
    let done = append_frame(alloc, &body, &mut out)?;
    Ok((done, out.len()))
}

/// A frame has its length before its body, and isn't appended above the limit.
#[test]
fn frames_keep_the_limit(rt: HostRuntime) -> Result<(), Fail> {
    assert_eq!(rt; framed(rt.alloc(), 0)?, (true, 10));
    assert_eq!(rt; framed(rt.alloc(), 8_388_603)?, (true, 8_388_613));
    assert_eq!(rt; framed(rt.alloc(), 8_388_604)?, (false, 1));
    Ok(())
}
