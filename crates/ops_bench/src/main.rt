//! Times a page of rows of ints as a whole and in pieces of 65,536 bytes.
//!
//! The words are the numbers of rows and of rounds; without them they are 1,000 and 1. Standard output
//! has the numbers of the page's bytes and of its pieces; the least times, in nanoseconds, go to
//! standard error.
#![tactic(auto)]

ghost use Rattle.std.specs.Prelude.{IfOk};
ghost use Rattle.ig_ops.specs.Results.{IsOpsShown};

use anyhow::{Context, Result, bail, ensure};
use ig_base::{Items, Octets};
use ig_caches::{Page, Pair, Shown};
use ig_ops::{PageMark, page_from, write_result};
use ig_value::Value;
use std::alloc::Global;
use std::env;
use std::rt::{Clock, Env};
use std::time::Instant;

/// The number of the page's cursor.
const CURSOR: i64 = 1;

/// The length of a piece.
const PIECE: usize = 65_536;

/// A page of as many rows, each with an int as key and value.
fn page(alloc: Global, count: i32) -> Result<Shown>
    ensures { IfOk result IsOpsShown }
{
    let mut rows = Vec::with_capacity(alloc, usize::try_from(count).unwrap_or(0))?;
    for n in 0..count {
        rows.push(Pair {
            key: Value::Int(n),
            value: Value::Int(n),
        })?;
    }
    Ok(Shown::Page(Page {
        cursor: Some(CURSOR),
        rows: Items::new(rows),
        more: true,
    }))
}

/// Writes the page. Answers how many bytes it has, and how many nanoseconds it took.
fn write(rt: &(impl Clock + AllocGlobal), shown: &Shown) -> Result<(usize, u128)>
    requires { IsOpsShown shown.now }
{
    let mut bytes = Octets::empty(rt.alloc());
    let start = Instant::now(rt)?;
    write_result(rt.alloc(), shown, &mut bytes)?;
    let nanos = start.elapsed(rt)?.as_nanos();
    Ok((bytes.as_slice().len(), nanos))
}

/// Shows the page of these rows piece by piece, each from the row that the one before reached. Answers
/// how many pieces there are, and how many nanoseconds it took.
fn show(rt: &(impl Clock + AllocGlobal), rows: &[Pair]) -> Result<(u64, u128)> {
    let mut piece = vec![in rt.alloc(); 0u8; PIECE]?;
    let start = Instant::now(rt)?;
    let mut mark = PageMark::first(Some(CURSOR));
    let mut pieces = 0u64;
    for count in 1..u64::MAX {
        let from = (count - 1).wrapping_mul(PIECE as u64);
        mark.advance(rows, from);
        let filled = page_from(Some(CURSOR), rows, true, &mark, from, &mut piece);
        pieces = count;
        if filled < PIECE {
            break;
        }
    }
    Ok((pieces, start.elapsed(rt)?.as_nanos()))
}

/// Writes and shows the page in each round. Prints the least times.
fn measure(
    rt: &(impl Clock + AllocGlobal + Print + Eprint),
    shown: &Shown,
    rounds: u32,
) -> Result<()>
    requires { IsOpsShown shown.now }
{
    let Shown::Page(page) = shown else {
        bail!("no page");
    };
    let (mut len, mut pieces) = (0, 0);
    let (mut writing, mut showing) = (u128::MAX, u128::MAX);
    for _ in 0..rounds {
        let (bytes, nanos) = write(rt, shown)?;
        len = bytes;
        writing = writing.min(nanos);
        let (count, nanos) = show(rt, page.rows.as_slice())?;
        pieces = count;
        showing = showing.min(nanos);
    }
    println!(rt; "{len} bytes, {pieces} pieces")?;
    eprintln!(rt; "write {writing} pieces {showing}")?;
    Ok(())
}

fn number(words: &[String], at: usize, default: i32) -> Result<i32> {
    Ok(match words.get(at) {
        Some(word) => word.as_str().parse::<i32>().context("a number")?,
        None => default,
    })
}

fn main(rt: HostRuntime) -> Result<()> {
    let mut words = Vec::new(rt.alloc());
    for word in env::args(&rt)? {
        words.push(word)?;
    }
    let count = number(words.as_slice(), 1, 1000)?;
    ensure!(count <= 1_000_000, "too many rows");
    let rounds = u32::try_from(number(words.as_slice(), 2, 1)?)?;
    let shown = page(rt.alloc(), count)?;
    measure(&rt, &shown, rounds)
}
