//! Measures a registry: puts types of a hundred fields, twice, and prints the time for each field.
//!
//! The argument is the number of types; without one it is 1000. Standard output depends on this number
//! alone, and the times go to standard error. The first round copies each description, the second
//! finds that it says nothing new.
#![tactic(auto)]

use anyhow::{Context, Result, ensure};
use ig_base::{Items, Text};
use ig_types::{FieldMeta, Registry, TypeMeta};
use std::alloc::{AllocError, Global};
use std::env;
use std::rt::Clock;
use std::time::Instant;

const FIELDS: i32 = 100;

/// A description of a type whose affinity key is its last field.
fn described(alloc: Global, type_id: i32) -> Result<TypeMeta, AllocError> {
    let mut fields = Vec::new(alloc);
    for id in 0..FIELDS {
        let name = Text::new(format!(in alloc; "field{id:03}")?);
        fields.push(FieldMeta { name, kind: 3, id })?;
    }
    Ok(TypeMeta {
        type_id,
        name: Text::new(format!(in alloc; "Type{type_id}")?),
        affinity: Some(Text::new(String::from_str(alloc, "field099")?)),
        is_enum: false,
        fields: Items::new(fields),
        literals: Items::new(Vec::new(alloc)),
        schemas: Items::new(Vec::new(alloc)),
    })
}

/// Puts all descriptions.
fn put_all(registry: &mut Registry, types: &[TypeMeta]) -> Result<()> {
    for meta in types {
        ensure!(meta.is_in_order(), "a type is out of order");
        ensure!(registry.put(meta).is_ok(), "a put is refused");
    }
    Ok(())
}

/// Puts all descriptions and prints the time for each field, in nanoseconds.
fn timed(
    rt: &(impl Clock + Eprint),
    round: &str,
    registry: &mut Registry,
    types: &[TypeMeta],
) -> Result<()> {
    let start = Instant::now(rt)?;
    put_all(registry, types)?;
    let nanos = start.elapsed(rt)?.as_nanos();
    let fields = types.len() as u128 * FIELDS as u128;
    let each = nanos.checked_div(fields).unwrap_or(0);
    eprintln!(rt; "{round}: {each} ns a field")?;
    Ok(())
}

fn main(rt: HostRuntime) -> Result<()> {
    let alloc = rt.alloc();
    let count = match env::args(&rt)?.nth(1) {
        Some(word) => word.as_str().parse::<i32>().context("the number of types")?,
        None => 1000,
    };
    let mut types = Vec::new(alloc);
    for type_id in 0..count {
        types.push(described(alloc, type_id)?)?;
    }
    let mut registry = Registry::new(alloc);
    timed(&rt, "first", &mut registry, types.as_slice())?;
    timed(&rt, "again", &mut registry, types.as_slice())?;
    let start = Instant::now(&rt)?;
    let pairs = registry.affinity_pairs(alloc)?.into_std();
    let nanos = start.elapsed(&rt)?.as_nanos();
    eprintln!(&rt; "pairs: {nanos} ns")?;
    let pair_count = pairs.len();
    println!(rt; "{count} types put twice, {pair_count} pairs")?;
    Ok(())
}
