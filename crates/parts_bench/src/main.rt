//! Times the making of a partition map, its preparation, and questions for owners, beside the
//! yardstick in `bench/parts`.
//!
//! The words are the numbers of nodes, of partitions and of questions; without them they are 4, 1,024
//! and 10,000. Standard output has the sum of the owners' numbers; the times go to standard error.
#![tactic(auto)]

ghost use Rattle.std.specs.Prelude.{IfOk};
ghost use Rattle.ig_parts.specs.Owner.{HasParts};

use anyhow::{Context, Result, bail, ensure};
use ig_base::{NodeId, Topology};
use ig_parts::{PartMap, Routes, owner, served_map};
use ig_value::Value;
use std::alloc::Global;
use std::env;
use std::rt::{Clock, Env};
use std::time::Instant;

/// The cache that the keys are of.
const CACHE: i32 = 3_391_929;

const TOLD: Topology = Topology {
    version: 1,
    minor: 0,
};

/// The key of the nth question. Keys go far apart, so that the partitions of one after the other do.
fn key(n: u64) -> Value {
    Value::Long(n.wrapping_mul(0x9E37_79B9_7F4A_7C15).cast_signed())
}

/// The number of the node, from 1 on.
fn numbered(node: Option<NodeId>) -> Result<u64> {
    match node {
        Some(node) => Ok(node.least),
        None => bail!("a key has no owner"),
    }
}

/// The map of a server.
fn make(alloc: Global, nodes: u32, parts: u32) -> Result<PartMap>
    ensures { IfOk result HasParts }
{
    ensure!(nodes <= 65536, "too many nodes");
    ensure!(parts <= 65536, "too many partitions");
    Ok(served_map(alloc, TOLD, nodes, parts, &[CACHE], &[])?)
}

/// Asks the map. Answers the sum of the owners' numbers, and prints the time of a question.
fn ask_map(rt: &(impl Clock + Eprint), map: &PartMap, asks: u64) -> Result<u64>
    requires { HasParts map.now }
{
    let start = Instant::now(rt)?;
    let mut sum = 0u64;
    for n in 0..asks {
        sum = sum.wrapping_add(numbered(owner(map, CACHE, &key(n))?)?);
    }
    let nanos = start.elapsed(rt)?.as_nanos();
    let each = nanos.checked_div(u128::from(asks)).unwrap_or(0);
    eprintln!(rt; "map {each} ns a question")?;
    Ok(sum)
}

/// The same of the map that was prepared.
fn ask_routes(rt: &(impl Clock + Eprint), routes: &Routes, asks: u64) -> Result<u64> {
    let start = Instant::now(rt)?;
    let mut sum = 0u64;
    for n in 0..asks {
        sum = sum.wrapping_add(numbered(routes.owner(CACHE, &key(n))?)?);
    }
    let nanos = start.elapsed(rt)?.as_nanos();
    let picos = nanos
        .wrapping_mul(1000)
        .checked_div(u128::from(asks))
        .unwrap_or(0);
    eprintln!(rt; "routes {picos} ps a question")?;
    Ok(sum)
}

fn number(words: &[String], at: usize, default: u64) -> Result<u64> {
    Ok(match words.get(at) {
        Some(word) => word.as_str().parse::<u64>().context("a number")?,
        None => default,
    })
}

fn run(rt: &(impl Clock + Eprint + Print + AllocGlobal), words: &[String]) -> Result<()> {
    let nodes = u32::try_from(number(words, 1, 4)?)?;
    let parts = u32::try_from(number(words, 2, 1024)?)?;
    let asks = number(words, 3, 10_000)?;
    let start = Instant::now(rt)?;
    let map = make(rt.alloc(), nodes, parts)?;
    let made = start.elapsed(rt)?.as_nanos();
    let few = ask_map(rt, &map, asks / 1000)?;
    let start = Instant::now(rt)?;
    let Ok(routes) = Routes::new(rt.alloc(), map) else {
        bail!("out of memory");
    };
    let prepared = start.elapsed(rt)?.as_nanos();
    eprintln!(rt; "made {made} ns, prepared {prepared} ns")?;
    let many = ask_routes(rt, &routes, asks)?;
    println!(rt; "{few} {many}")?;
    Ok(())
}

fn main(rt: HostRuntime) -> Result<()> {
    let mut words = Vec::new(rt.alloc());
    for word in env::args(&rt)? {
        words.push(word)?;
    }
    run(&rt, words.as_slice())
}
