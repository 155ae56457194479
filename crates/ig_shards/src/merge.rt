//! The rows of all shards, in the order of the canonical encodings of their keys.

ghost use Rattle.std.specs.Prelude.{◌≡◌, ◌<◌, ◌+◌, ◌^◌, ◌++◌, ℕ, All, if◌then◌else◌, IfOk, OnOk};
ghost use Rattle.std.specs.Cmp.Lexicographic.{slice_cmp};
ghost use Rattle.std.specs.Ordering.{nat_cmp, is_lt};
ghost use Rattle.std.specs.FinMap as finite;
ghost use Rattle.ig_caches.specs.LentRows.{lent_rows, HasKey};
ghost use Rattle.ig_caches.specs.Rows.{Rows, all_rows};
ghost use Rattle.ig_shards.specs.Spread.{either, union};
ghost use Rattle.ig_shards.specs.Merges.{AreApart, ArePlacedFrom};

use ig_base::{Items, NoMemory};
use ig_caches::{Pair, RowMap, copy_row};
use ig_value::Value;
use std::alloc::Global;

/// Rows in the order of the canonical encodings of their keys: these bytes, and the value.
type Entries<'a> = Vec<(&'a [u8], &'a Value)>;

/// Adds rows at the end.
fn append<'a>(rows: &mut Entries<'a>, more: &[(&'a [u8], &'a Value)]) -> Result<(), NoMemory>
    ensures ok { OnOk result (rows.new.items ≡ rows.old.items ++ more.now) }
{
    for entry in more {
        rows.push(*entry)?;
    }
    Ok(())
}

/// Of the entries at these places of two lists that are merged, the one with the lesser bytes, and the
/// places after it.
fn first<'a>(
    left: (&'a [u8], &'a Value),
    at: usize,
    right: (&'a [u8], &'a Value),
    next: usize,
) -> ((&'a [u8], &'a Value), usize, usize)
    requires { (at < 2 ^ 63) × (next < 2 ^ 63) }
    ensures { result ≡ (if is_lt (slice_cmp nat_cmp right.entry.0.now left.entry.0.now)
        then (right.entry, at, next + 1) else (left.entry, at + 1, next)) }
{
    if right.0.cmp(&left.0).is_lt() {
        return (right, at, next + 1);
    }
    (left, at + 1, next)
}

/// The rows of both, in order.
fn merged<'a>(
    alloc: Global,
    left: &[(&'a [u8], &'a Value)],
    right: &[(&'a [u8], &'a Value)],
) -> Result<Entries<'a>, NoMemory>
    requires { All HasKey left.now × All HasKey right.now }
    ensures rows { (a b : Rows) → lent_rows left.now ≡ finite.entries a → lent_rows right.now ≡ finite.entries b
        → AreApart a b → IfOk result (λ rows. lent_rows rows.items ≡ finite.entries (either a b)) }
    ensures keys { IfOk result (λ rows. All HasKey rows.items) }
{
    let mut merged = Vec::new(alloc);
    let mut at = 0;
    let mut next = 0;
    while at < left.len() && next < right.len() {
        let step = first(left[at], at, right[next], next);
        merged.push(step.0)?;
        at = step.1;
        next = step.2;
    }
    append(&mut merged, &left[at..])?;
    append(&mut merged, &right[next..])?;
    Ok(merged)
}

/// The rows of all, in order.
fn entries(alloc: Global, shards: &[RowMap]) -> Result<Entries<'_>, NoMemory>
    requires { (count : ℕ) × (next : ℕ) × ArePlacedFrom count next shards.now }
    ensures rows { IfOk result (λ rows. lent_rows rows.items ≡ finite.entries (union shards.now)) }
    ensures keys { IfOk result (λ rows. All HasKey rows.items) }
{
    match shards {
        [] => Ok(Vec::new(alloc)),
        [rows] => rows.entries(),
        _ => {
            let (left, right) = shards.split_at(shards.len() / 2);
            let left = entries(alloc, left)?;
            let right = entries(alloc, right)?;
            merged(alloc, left.as_slice(), right.as_slice())
        }
    }
}

/// Copies of all rows, in order.
pub(crate) fn copies(alloc: Global, shards: &[RowMap]) -> Result<Items<Pair>, NoMemory>
    requires { (count : ℕ) × (next : ℕ) × ArePlacedFrom count next shards.now }
    ensures { IfOk result (λ rows. rows ≡ all_rows (union shards.now)) }
{
    let entries = entries(alloc, shards)?;
    let mut copies = Vec::with_capacity(alloc, entries.len())?;
    for entry in entries.as_slice() {
        copies.push(copy_row(alloc, entry.0, entry.1)?)?;
    }
    Ok(Items::new(copies))
}
