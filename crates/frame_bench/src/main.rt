//! Times cutting a stream into frames, beside the yardstick in `bench/frames`.
//!
//! The words are a number of rounds, the length of a frame's body, the length of a piece and about how
//! many bytes the stream has. Without them it cuts some short streams once. Standard output has the
//! number of frames; the least time of a round, in nanoseconds, and the bytes go to standard error.
#![tactic(auto)]

ghost use Rattle.std.specs.Prelude.{◌<◌};

use anyhow::{Context, Result, ensure};
use ig_frame::{Frames, MAX_FRAME, Next};
use std::alloc::Global;
use std::env;
use std::rt::Clock;
use std::time::Instant;

/// A stream of frames with bodies of this length, of about as many bytes but at least one frame, and
/// how many frames it has.
fn stream(alloc: Global, body: u32, bytes: u64) -> Result<(Vec<u8>, u64)> {
    let mut zeros = Vec::new(alloc);
    zeros.resize(body as usize, 0u8)?;
    let count = (bytes / (4 + u64::from(body))).max(1);
    let mut stream = Vec::new(alloc);
    for _ in 0..count {
        stream.extend_from_slice(&body.to_le_bytes())?;
        stream.extend_from_slice(&zeros)?;
    }
    Ok((stream, count))
}

/// Takes the whole frames that are there. Answers how many they are, and the bytes of their bodies.
fn take(frames: &mut Frames) -> (u64, u64) {
    let (mut count, mut bytes) = (0u64, 0u64);
    for _ in 0..u64::MAX {
        match frames.next(1) {
            Next::Frame { body, .. } => {
                count = count.wrapping_add(1);
                bytes = bytes.wrapping_add(body.len() as u64);
            }
            _ => break,
        }
    }
    (count, bytes)
}

/// Cuts a stream that is fed in pieces. Answers how many frames it has, and the bytes of their bodies.
fn cut(alloc: Global, stream: &[u8], piece: usize) -> Result<(u64, u64)>
    requires { 0 < piece }
{
    let mut frames = Frames::new(alloc, MAX_FRAME);
    let (mut count, mut bytes) = (0u64, 0u64);
    for piece in stream.chunks(piece) {
        frames.feed(piece)?;
        let (more, longer) = take(&mut frames);
        count = count.wrapping_add(more);
        bytes = bytes.wrapping_add(longer);
    }
    Ok((count, bytes))
}

/// Cuts the same stream in each round.
fn measure(
    rt: &(impl Print + Eprint + Clock + AllocGlobal),
    rounds: u32,
    body: u32,
    piece: usize,
    bytes: u64,
) -> Result<()> {
    ensure!(0 < body && body <= MAX_FRAME, "no length of a body");
    ensure!(piece > 0, "no length of a piece");
    let (stream, count) = stream(rt.alloc(), body, bytes)?;
    let mut least = u128::MAX;
    for _ in 0..rounds {
        let start = Instant::now(rt)?;
        let (cut, bodies) = cut(rt.alloc(), &stream, piece)?;
        least = least.min(start.elapsed(rt)?.as_nanos());
        ensure!(cut == count, "{cut} frames of {count}");
        ensure!(
            bodies == count.wrapping_mul(u64::from(body)),
            "{bodies} bytes"
        );
    }
    println!(rt; "{count} frames of {body} bytes by pieces of {piece}")?;
    eprintln!(rt; "{least} {}", stream.len())?;
    Ok(())
}

fn main(rt: HostRuntime) -> Result<()> {
    let mut words = Vec::new(rt.alloc());
    for word in env::args(&rt)?.skip(1) {
        words.push(word.as_str().parse::<u32>().context("a number")?)?;
    }
    if let [rounds, body, piece, bytes] = words.as_slice() {
        return measure(&rt, *rounds, *body, *piece as usize, u64::from(*bytes));
    }
    for body in [16, 4_092, 100_000] {
        for piece in [1, 7, 1_000, 65_536] {
            measure(&rt, 1, body, piece, 200_000)?;
        }
    }
    Ok(())
}
