//! Times reading and writing values, beside the yardstick in `bench/values`.
//!
//! The words are a number of rounds, a name and a size. Without a name it takes each value once.
//! Standard output has the bytes of each value's canonical form; the least times, in nanoseconds,
//! go to standard error.
#![tactic(auto)]

ghost use Rattle.std.specs.Prelude.{OnOk};
ghost use Rattle.ig_value.specs.Canon.{IsSendable};

use anyhow::{Context, Result, bail, ensure};
use ig_base::{Boxed, Items, Octets, Text};
use ig_decode::decode;
use ig_encode::{Mark, canonical_len, encode, encode_next};
use ig_value::{Record, Shape, Value};
use std::alloc::Global;
use std::env;
use std::rt::{Clock, Env};
use std::time::Instant;

/// A list of as many items, each made of its place.
fn items<T: Drop, F: Fn(i32) -> T>(alloc: Global, size: i32, make: F) -> Result<Items<T>>
    requires { F.IsAlwaysCallable make }
{
    let mut items = Vec::new(alloc);
    for i in 0..size {
        items.push(make(i))?;
    }
    Ok(Items::new(items))
}

fn small(alloc: Global, i: i32) -> Result<Value> {
    Ok(match i % 5 {
        0 => Value::Int(i),
        1 => Value::Str(Text::new(String::from_str(alloc, "a small text")?)),
        2 => Value::Null,
        3 => Value::Bool(true),
        _ => Value::Long(i64::from(i)),
    })
}

fn list(alloc: Global, size: i32) -> Result<Value> {
    let mut items = Vec::with_capacity(alloc, usize::try_from(size).unwrap_or(0))?;
    for i in 0..size {
        items.push(small(alloc, i)?)?;
    }
    let items = Items::new(items);
    Ok(Value::Collection { kind: 1, items })
}

fn nested(alloc: Global, size: i32) -> Result<Value> {
    let mut items = Vec::with_capacity(alloc, usize::try_from(size).unwrap_or(0))?;
    for _ in 0..size {
        items.push(list(alloc, 5)?)?;
    }
    let items = Items::new(items);
    Ok(Value::Collection { kind: 1, items })
}

/// A list as the one item of a list.
fn inlist(alloc: Global, size: i32) -> Result<Value> {
    let mut items = Vec::with_capacity(alloc, 1)?;
    items.push(list(alloc, size)?)?;
    let items = Items::new(items);
    Ok(Value::Collection { kind: 1, items })
}

fn map(alloc: Global, size: i32) -> Result<Value> {
    let mut pairs = Vec::with_capacity(alloc, usize::try_from(size).unwrap_or(0))?;
    for i in 0..size {
        pairs.push((Value::Int(i), small(alloc, i)?))?;
    }
    let pairs = Items::new(pairs);
    Ok(Value::Map { kind: 1, pairs })
}

fn object_of(alloc: Global, fields: Vec<Value>) -> Result<Value> {
    let mut ids = Vec::with_capacity(alloc, fields.len())?;
    for index in 0..fields.len() {
        ids.push((index % 65_536) as i32)?;
    }
    let object = Record {
        bits: 1,
        type_id: 112,
        shape: Shape::Named(Items::new(ids)),
        fields: Items::new(fields),
    };
    Ok(Value::Object(Boxed::new(alloc, object)?))
}

/// An object with fields like the items of a list.
fn object(alloc: Global, size: i32) -> Result<Value> {
    let mut fields = Vec::with_capacity(alloc, usize::try_from(size).unwrap_or(0))?;
    for i in 0..size {
        fields.push(small(alloc, i)?)?;
    }
    object_of(alloc, fields)
}

/// Objects of ten fields in a collection.
fn objects(alloc: Global, size: i32) -> Result<Value> {
    let mut items = Vec::with_capacity(alloc, usize::try_from(size).unwrap_or(0))?;
    for _ in 0..size {
        items.push(object(alloc, 10)?)?;
    }
    let items = Items::new(items);
    Ok(Value::Collection { kind: 1, items })
}

/// 31 objects in one another, around bytes.
fn deep(alloc: Global, size: i32) -> Result<Value> {
    let mut value = Value::Bytes(items(alloc, size, |i| (i % 128) as i8)?);
    for _ in 0..31 {
        let mut fields = Vec::with_capacity(alloc, 1)?;
        fields.push(value)?;
        value = object_of(alloc, fields)?;
    }
    Ok(value)
}

fn text(alloc: Global, size: i32) -> Result<Value> {
    let mut letters = String::new(alloc);
    for _ in 0..size / 4 {
        letters.push_str("abé")?;
    }
    Ok(Value::Str(Text::new(letters)))
}

/// An array of texts, of which each fourth is null.
fn texts(alloc: Global, size: i32) -> Result<Value> {
    let mut texts = Vec::with_capacity(alloc, usize::try_from(size).unwrap_or(0))?;
    for i in 0..size {
        texts.push(if i % 4 == 3 {
            None
        } else {
            Some(Text::new(String::from_str(alloc, "a small text")?))
        })?;
    }
    Ok(Value::Strs(Items::new(texts)))
}

/// The value that a name stands for, with `size` items.
fn named(alloc: Global, name: &str, size: i32) -> Result<Value> {
    match name {
        "bytes" => Ok(Value::Bytes(items(alloc, size, |i| (i % 128) as i8)?)),
        "ints" => Ok(Value::Ints(items(alloc, size, |i| i)?)),
        "longs" => Ok(Value::Longs(items(alloc, size, |i| i64::from(i))?)),
        "doubles" => Ok(Value::Doubles(items(alloc, size, |i| u64::from(i.unsigned_abs()))?)),
        "text" => text(alloc, size),
        "texts" => texts(alloc, size),
        "list" => list(alloc, size),
        "nested" => nested(alloc, size),
        "inlist" => inlist(alloc, size),
        "map" => map(alloc, size),
        "object" => object(alloc, size),
        "objects" => objects(alloc, size),
        "deep" => deep(alloc, size),
        _ => bail!("no value has this name"),
    }
}

/// Refuses a value whose length no Int32 tells.
fn check_len(value: &Value) -> Result<()>
    ensures { OnOk result (IsSendable value.now) }
{
    ensure!(
        canonical_len(value) < 2_147_483_648,
        "the value is too long"
    );
    Ok(())
}

/// Appends the value's bytes. Answers how many nanoseconds it took.
fn write(rt: &(impl Clock + AllocGlobal), value: &Value, bytes: &mut Octets) -> Result<u128> {
    check_len(value)?;
    let start = Instant::now(rt)?;
    encode(rt.alloc(), value, bytes)?;
    Ok(start.elapsed(rt)?.as_nanos())
}

/// Shows the value's bytes piece by piece, each from the mark that the one before left. Answers how
/// many nanoseconds it took.
fn show(rt: &(impl Clock + AllocGlobal), value: &Value) -> Result<u128> {
    check_len(value)?;
    let mut piece = vec![in rt.alloc(); 0u8; 65_536]?;
    let start = Instant::now(rt)?;
    let mut mark = Mark::start();
    for _ in 0..u64::MAX {
        if encode_next(value, &mut mark, &mut piece) < piece.len() {
            break;
        }
    }
    Ok(start.elapsed(rt)?.as_nanos())
}

/// Reads the value again. Answers how many nanoseconds it took.
fn read(rt: &(impl Clock + AllocGlobal), bytes: &[u8]) -> Result<u128> {
    let start = Instant::now(rt)?;
    let read = decode(rt.alloc(), bytes);
    let nanos = start.elapsed(rt)?.as_nanos();
    match read {
        Ok(read) => ensure!(read.used == bytes.len(), "the value is read in part"),
        Err(_) => bail!("the value is not read"),
    }
    Ok(nanos)
}

/// The least times of what is done with a value over some rounds, in nanoseconds.
struct Measured {
    reading: u128,
    writing: u128,
    showing: u128,
}

/// Writes, reads and shows the value as often as there are rounds.
fn times(rt: &(impl Clock + AllocGlobal), rounds: u32, value: &Value) -> Result<Measured> {
    let (mut reading, mut writing, mut showing) = (u128::MAX, u128::MAX, u128::MAX);
    for _ in 0..rounds {
        let mut bytes = Octets::empty(rt.alloc());
        writing = writing.min(write(rt, value, &mut bytes)?);
        reading = reading.min(read(rt, bytes.as_slice())?);
        showing = showing.min(show(rt, value)?);
    }
    Ok(Measured {
        reading,
        writing,
        showing,
    })
}

/// Writes, reads and shows the value in each round, and tells the least times.
fn measure(
    rt: &(impl Print + Eprint + Clock + AllocGlobal),
    rounds: u32,
    name: &str,
    size: i32,
) -> Result<()> {
    let value = named(rt.alloc(), name, size)?;
    let times = times(rt, rounds, &value);
    let length = canonical_len(&value);
    drop(value);
    let Measured {
        reading,
        writing,
        showing,
    } = times?;
    println!(rt; "{name} of {size}: {length} bytes")?;
    eprintln!(rt; "decode {reading} encode {writing} pieces {showing}")?;
    Ok(())
}

fn main(rt: HostRuntime) -> Result<()> {
    let mut words = env::args(&rt)?.skip(1);
    let rounds = match words.next() {
        Some(word) => word
            .as_str()
            .parse::<u32>()
            .context("the number of rounds")?,
        None => 1,
    };
    if let Some(name) = words.next() {
        let size = words.next().context("the size")?;
        let size = size.as_str().parse::<i32>().context("the size")?;
        return measure(&rt, rounds, name.as_str(), size);
    }
    for name in [
        "bytes", "ints", "longs", "doubles", "text", "texts", "list", "nested", "inlist", "map",
        "object", "objects", "deep",
    ] {
        measure(&rt, rounds, name, 1000)?;
    }
    Ok(())
}

#[cfg(test)]
mod tests;
