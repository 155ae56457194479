//! Times calls on one cache whose rows are spread over shards: puts of new and of standing keys, gets, a
//! scan and removes.
//!
//! The words are the kind of keys (`int`; `early`, texts of 40 bytes that differ in the first ones; `late`,
//! texts that share 40 bytes), and the numbers of rows and of shards; without them they are `int`, 1,000
//! and 64. Standard output has the numbers of rows that were found, scanned and left; the time of each
//! kind of call, in picoseconds, goes to standard error.
#![tactic(auto)]

ghost use Rattle.std.specs.Prelude.{◌<◌, length, IfOk};
ghost use Rattle.ig_caches.specs.IsRunnable.{IsItem, IsRunnable};

use anyhow::{Context, Result, bail, ensure};
use ig_base::{Text, text_hash};
use ig_caches::{Call, Exec, Outcome};
use ig_shards::Shards;
use ig_value::Value;
use std::alloc::Global;
use std::env;
use std::rt::{Clock, Env};
use std::time::Instant;

/// The name of the cache.
const NAME: &str = "rows";

/// What texts are filled up with.
const FILL: &str = "kkkkkkkkkkkkkkkkkkkkkkkkkkkkkkkk";

static DIGITS: [char; 16] = [
    '0', '1', '2', '3', '4', '5', '6', '7', '8', '9', 'a', 'b', 'c', 'd', 'e', 'f',
];

/// What keys are like.
#[derive(Clone, Copy)]
enum Kind {
    Int,
    Early,
    Late,
}

/// What calls of one kind lead to.
#[derive(Clone, Copy)]
enum Step {
    Put,
    Get,
    Remove,
}

/// Adds the eight hexadecimal digits of the number, the highest first.
fn push_digits(text: &mut String, number: u32) -> Result<()> {
    for place in 0..8u32 {
        let digit = (number >> (28 - 4 * place)) & 15;
        text.push(DIGITS[digit as usize])?;
    }
    Ok(())
}

/// A text as a key.
fn text_item(text: Text) -> Result<Value>
    requires { length text < 1000 }
    ensures { IfOk result IsItem }
{
    let value = Value::Str(text);
    ensure!(value.keeps_to_limits(), "a text that isn't a value");
    Ok(value)
}

/// An int as a key or a value.
fn int_item(number: i32) -> Value
    ensures { IsItem result }
{
    Value::Int(number)
}

/// The key of the number.
fn key(alloc: Global, kind: Kind, number: u32) -> Result<Value>
    ensures { IfOk result IsItem }
{
    let mut text = String::new(alloc);
    match kind {
        Kind::Int => return Ok(int_item(number.cast_signed())),
        Kind::Early => {
            push_digits(&mut text, number)?;
            text.push_str(FILL)?;
        }
        Kind::Late => {
            text.push_str(FILL)?;
            text.push_str("kkkkkkkk")?;
            push_digits(&mut text, number)?;
        }
    }
    ensure!(text.len() < 1000, "a long key");
    text_item(Text::new(text))
}

/// The number of the row at this place: each place has another, and neighbours are far apart.
fn scattered(place: u32) -> u32 {
    place.wrapping_mul(0x9E37_79B1)
}

/// The call of the step on the key.
fn call(cache: i32, step: Step, key: Value, number: u32) -> Call
    requires { IsItem key }
    ensures { IsRunnable result }
{
    let value = int_item(number.cast_signed());
    match step {
        Step::Put => Call::Put { cache, key, value },
        Step::Get => Call::Get { cache, key },
        Step::Remove => Call::RemoveKey { cache, key },
    }
}

/// Makes the step with each key, and prints the time of one call. Answers how many found a row.
fn measure(
    rt: &(impl Clock + AllocGlobal + Eprint),
    shards: &mut Shards,
    word: &str,
    kind: Kind,
    step: Step,
    rows: u32,
) -> Result<u32> {
    let cache = text_hash(NAME);
    let mut found = 0u32;
    let start = Instant::now(rt)?;
    for place in 0..rows {
        let number = scattered(place);
        let key = key(rt.alloc(), kind, number)?;
        let Ok(answer) = shards.run(call(cache, step, key, number)) else {
            bail!("no memory");
        };
        found = match answer.outcome {
            Outcome::Found(Value::Int(_)) => found.wrapping_add(1),
            Outcome::Yes(true) => found.wrapping_add(1),
            _ => found,
        };
    }
    let nanos = start.elapsed(rt)?.as_nanos();
    let pico = nanos.saturating_mul(1000) / u128::from(rows.max(1));
    eprintln!(rt; "{word} {pico}")?;
    Ok(found)
}

/// Scans all rows, and prints the time of a row. Answers how many there are.
fn scan(
    rt: &(impl Clock + AllocGlobal + Eprint),
    shards: &mut Shards,
    word: &str,
    rows: u32,
) -> Result<usize> {
    let start = Instant::now(rt)?;
    let Ok(answer) = shards.run(Call::Scan {
        cache: text_hash(NAME),
    }) else {
        bail!("no memory");
    };
    let nanos = start.elapsed(rt)?.as_nanos();
    let Outcome::Pairs(pairs) = answer.outcome else {
        bail!("no rows");
    };
    let pico = nanos.saturating_mul(1000) / u128::from(rows.max(1));
    eprintln!(rt; "{word} {pico}")?;
    Ok(pairs.as_slice().len())
}

fn kind_of(word: Option<&String>) -> Result<Kind> {
    let Some(word) = word else {
        return Ok(Kind::Int);
    };
    match word.as_str() {
        "int" => Ok(Kind::Int),
        "early" => Ok(Kind::Early),
        "late" => Ok(Kind::Late),
        _ => bail!("int, early or late"),
    }
}

fn number(words: &[String], at: usize, default: u32) -> Result<u32> {
    Ok(match words.get(at) {
        Some(word) => word.as_str().parse::<u32>().context("a number")?,
        None => default,
    })
}

fn main(rt: HostRuntime) -> Result<()> {
    let mut words = Vec::new(rt.alloc());
    for word in env::args(&rt)? {
        words.push(word)?;
    }
    let kind = kind_of(words.as_slice().get(1))?;
    let rows = number(words.as_slice(), 2, 1000)?;
    let shards = number(words.as_slice(), 3, 64)?;
    ensure!(shards >= 1 && shards <= 256, "1 to 256 shards");
    let mut names = Vec::new(rt.alloc());
    names.push(Text::new(String::from_str(rt.alloc(), NAME)?))?;
    let Ok(mut shards) = Shards::start(rt.alloc(), names, shards) else {
        bail!("no memory");
    };
    measure(&rt, &mut shards, "new", kind, Step::Put, rows)?;
    let found = measure(&rt, &mut shards, "get", kind, Step::Get, rows)?;
    measure(&rt, &mut shards, "put", kind, Step::Put, rows)?;
    let scanned = scan(&rt, &mut shards, "scan", rows)?;
    let removed = measure(&rt, &mut shards, "remove", kind, Step::Remove, rows)?;
    let left = scan(&rt, &mut shards, "rest", rows)?;
    println!(rt; "{found} found, {scanned} scanned, {removed} removed, {left} left")?;
    Ok(())
}
