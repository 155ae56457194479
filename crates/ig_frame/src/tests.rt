ghost use Rattle.std.specs.Prelude.{◌≤◌};

use super::*;
use ig_base::NoMemory;
use std::alloc::Global;
use std::test::Fail;

/// Three frames, and the first two bytes of a length.
static STREAM: [u8; 23] = [
    3, 0, 0, 0, 1, 2, 3, 1, 0, 0, 0, 4, 5, 0, 0, 0, 5, 6, 7, 8, 9, 10, 0,
];

/// The places and bodies of these frames.
static BODIES: [(u64, &[u8]); 3] = [(0, &[1, 2, 3]), (7, &[4]), (12, &[5, 6, 7, 8, 9])];

/// The first four bytes after a frame of one byte, and whether they are a length out of range: the
/// least is 2, the limit is 16.
static LENGTHS: [([u8; 4], Option<i32>); 6] = [
    ([1, 0, 0, 0], Some(1)),
    ([2, 0, 0, 0], None),
    ([16, 0, 0, 0], None),
    ([17, 0, 0, 0], Some(17)),
    ([0xFF, 0xFF, 0xFF, 0xFF], Some(-1)),
    ([0, 0, 0, 0x80], Some(i32::MIN)),
];

/// A hello.
const HELLO: &[u8] = &[8, 0, 0, 0, 1, 1, 0, 0, 0, 0, 0, 2];

/// A hello, and a put of 25 bytes.
const HELLO_AND_PUT: &[u8] =
    b"\x08\0\0\0\x01\x01\0\0\0\0\0\x02\x19\0\0\0\xE9\x03\x01\0\0\0\0\0\0\0\xB9\x05\x33\0\0\x03\x01\0\0\0\x03\x02\0\0\0";

/// Streams of a client from their first frame on, what follows these frames, and how many bytes are
/// missing then.
static MISSING: [(&[u8], &[u8], u64); 6] = [
    (&[], &[], 4),
    (HELLO, &[], 4),
    (HELLO, &[0, 0, 0x80, 0], 8_388_608),
    (HELLO_AND_PUT, &[], 4),
    (HELLO_AND_PUT, &[0x14, 0], 2),
    (HELLO_AND_PUT, &[0x14, 0, 0, 0, 0xE8, 3], 18),
];

/// Lengths after the hello that are out of range.
static REFUSED: [([u8; 4], i32); 3] = [
    ([0xFF, 0xFF, 0xFF, 0xFF], -1),
    ([9, 0, 0, 0], 9),
    ([1, 0, 0x80, 0], 8_388_609),
];

static ZEROS: [u8; 65_536] = [0; 65_536];

/// Takes the frames that are there. Answers how many there were so far, or none where one is wrong.
fn take(frames: &mut Frames, before: usize) -> Option<usize> {
    let mut count = before;
    for (place, body) in BODIES.iter().skip(before) {
        match frames.next(1) {
            Next::Frame {
                place: at,
                body: bytes,
            } => {
                if at != *place || bytes != *body {
                    return None;
                }
                count = count.saturating_add(1);
            }
            _ => return Some(count),
        }
    }
    Some(count)
}

/// Whether the stream gives its frames where it is cut in these two places.
fn gives_frames(alloc: Global, first: usize, second: usize) -> Result<bool, NoMemory>
    requires first { first ≤ second }
    requires second { second ≤ 23 }
{
    let mut frames = Frames::new(alloc, MAX_FRAME);
    let mut count = 0;
    for piece in [&STREAM[..first], &STREAM[first..second], &STREAM[second..]] {
        frames.feed(piece)?;
        let Some(so_far) = take(&mut frames, count) else {
            return Ok(false);
        };
        count = so_far;
    }
    Ok(count == 3 && frames.held() == 2)
}

/// A stream gives the same frames however it is cut into three pieces.
#[test]
fn cut_at_every_two_places(rt: HostRuntime) -> Result<(), Fail> {
    for second in 0..24 {
        for first in 0..=second {
            assert!(rt;
                gives_frames(rt.alloc(), first, second)?,
                "{first} {second}"
            );
        }
    }
    Ok(())
}

/// The length that is refused after a frame of one byte, with its place.
fn refused(alloc: Global, length: &[u8]) -> Result<Option<(u64, i32)>, NoMemory> {
    let mut frames = Frames::new(alloc, 16);
    frames.feed(&[1, 0, 0, 0, 7])?;
    frames.pass(1);
    frames.feed(length)?;
    match frames.next(2) {
        Next::Bad { place, length } => Ok(Some((place, length))),
        _ => Ok(None),
    }
}

/// A length below the least, above the limit or below 0 is refused at its place.
#[test]
fn lengths_out_of_range(rt: HostRuntime) -> Result<(), Fail> {
    for (bytes, length) in &LENGTHS {
        let wanted = length.map(|n| (5, n));
        assert_eq!(rt; refused(rt.alloc(), bytes)?, wanted);
    }
    Ok(())
}

/// A client's stream with its first frames passed, and then fed these bytes.
fn passed(alloc: Global, whole: &[u8], further: &[u8]) -> Result<Frames, NoMemory> {
    let mut frames = Frames::new(alloc, MAX_FRAME);
    frames.feed(whole)?;
    frames.pass(8);
    frames.pass(10);
    frames.feed(further)?;
    Ok(frames)
}

/// A stream that stops tells how many bytes are missing, to the end of the length or of the frame.
#[test]
fn streams_that_stop(rt: HostRuntime) -> Result<(), Fail> {
    for (whole, further, missing) in &MISSING {
        let frames = passed(rt.alloc(), whole, further)?;
        assert_eq!(rt; frames.look(10), Next::More { missing: *missing });
    }
    for (bytes, length) in &REFUSED {
        let frames = passed(rt.alloc(), HELLO, bytes)?;
        assert_eq!(rt;
            frames.look(10),
            Next::Bad {
                place: 12,
                length: *length
            }
        );
    }
    Ok(())
}

/// A look shows the frame again and again, until it is passed.
#[test]
fn looks_leave_the_place(rt: HostRuntime) -> Result<(), Fail> {
    let mut frames = Frames::new(rt.alloc(), MAX_FRAME);
    assert!(rt; matches!(frames.look(1), Next::More { missing: 4 }));
    frames.feed(&STREAM)?;
    assert!(rt;
        matches!(
            frames.look(1),
            Next::Frame {
                place: 0,
                body: [1, 2, 3]
            }
        )
    );
    assert!(rt; matches!(frames.look(1), Next::Frame { place: 0, .. }));
    frames.pass(1);
    assert!(rt;
        matches!(
            frames.look(1),
            Next::Frame {
                place: 7,
                body: [4]
            }
        )
    );
    Ok(())
}

/// The room of a frame of 8 MiB is given back once the frame was handed out.
#[test]
fn room_is_given_back(rt: HostRuntime) -> Result<(), Fail> {
    let mut frames = Frames::new(rt.alloc(), MAX_FRAME);
    frames.feed(&[0, 0, 0x80, 0])?;
    for _ in 0..128 {
        frames.feed(&ZEROS)?;
    }
    assert!(rt;
        matches!(frames.next(1), Next::Frame { place: 0, body } if body.len() == 8_388_608)
    );
    assert!(rt; frames.room() >= 8_388_608);
    assert!(rt; matches!(frames.next(1), Next::More { missing: 4 }));
    assert!(rt; frames.room() <= 65_536);
    Ok(())
}
