//! Pairs are put into a map of rows: rows are reserved first, which takes all the memory, and written then.

ghost use Rattle.std.specs.Prelude.{◌≡◌, ◌≤◌, ℕ, true, length, vec_len, is_some, All, OnOk, OnErr};
ghost use Rattle.std.specs.FinMap as map;
ghost use Rattle.ig_value.specs.Canon.{Canon};
ghost use Rattle.ig_caches.specs.IsRunnable.{IsItem, IsRow};
ghost use Rattle.ig_caches.specs.Reserved.{reserved, is_reserved, released, Reserves, AllStand};
ghost use Rattle.ig_caches.specs.RowEntries.{rows_of_entries, AreKept};
ghost use Rattle.ig_caches.specs.Rows.{Rows, with_row, with_rows};

use crate::call::Pair;
use crate::spelling::{spell, spell_growing, spell_short};
use crate::table::{self, Table};
use ig_base::NoMemory;
use ig_value::{Value, one_form, one_reader};
use std::alloc::Global;

/// Reserves a row under these bytes, unless one stands there. Its value is null, as that of no row that
/// a call leaves.
fn reserve(alloc: Global, rows: &mut Table, form: &[u8]) -> Result<(), NoMemory>
    ensures ok { OnOk result (rows_of_entries (λ k. k.items) rows.new.entries
        ≡ reserved (rows_of_entries (λ k. k.items) rows.old.entries) form.now) }
    ensures err { OnErr result (rows.new.entries ≡ rows.old.entries) }
{
    if table::contains(rows, form) {
        return Ok(());
    }
    let key = Vec::from_slice(alloc, form)?;
    drop(rows.insert(key, Value::Null)?);
    Ok(())
}

/// Reserves rows for those of the keys that have none. When out of memory, the rows for some of them
/// may be reserved.
pub(crate) fn reserve_all(
    alloc: Global,
    rows: &mut Table,
    room: &mut Vec<u8>,
    pairs: &[Pair],
) -> Result<(), NoMemory>
    requires { All IsRow pairs.now }
    ensures longer { vec_len room.old ≤ vec_len room.new }
    ensures reserves { Reserves (vec_len room.new) (rows_of_entries (λ k. k.items) rows.old.entries)
        (rows_of_entries (λ k. k.items) rows.new.entries) pairs.now }
    ensures stand { OnOk result
        (AllStand (vec_len room.new) (rows_of_entries (λ k. k.items) rows.new.entries) pairs.now) }
{
    for pair in pairs {
        let len = spell_growing(&pair.key, room)?;
        reserve(alloc, rows, &room[..len])?;
    }
    Ok(())
}

/// Whether the row under these bytes is a reserved one.
fn is_reserved(rows: &Table, form: &[u8]) -> bool
    ensures { result ≡ is_reserved (map.get (rows_of_entries (λ k. k.items) rows.now.entries) form.now) }
{
    match rows.get(form) {
        Some(value) => matches!(value, Value::Null),
        None => false,
    }
}

/// Takes out the row under these bytes if it is a reserved one.
fn release(rows: &mut Table, form: &[u8])
    ensures { rows_of_entries (λ k. k.items) rows.new.entries
        ≡ released (rows_of_entries (λ k. k.items) rows.old.entries) form.now }
{
    if is_reserved(rows, form) {
        drop(table::remove(rows, form));
    }
}

/// Takes out the rows that are reserved for these keys.
pub(crate) fn release_all(rows: &mut Table, room: &mut [u8], pairs: &[Pair])
    ensures { (before : Rows) (most : ℕ) → AreKept most before
        → Reserves (length room.old) before (rows_of_entries (λ k. k.items) rows.old.entries) pairs.now
        → rows_of_entries (λ k. k.items) rows.new.entries ≡ before }
{
    for pair in pairs {
        if let Some(len) = spell(&pair.key, room) {
            release(rows, &room[..len]);
        }
    }
}

/// Writes the row of a key that has one.
fn write(rows: &mut Table, room: &mut [u8], row: Pair)
    requires item { IsItem row.key }
    requires short { length (Canon row.key) ≤ length room.old }
    requires stands { is_some (map.get (rows_of_entries (λ k. k.items) rows.old.entries) (Canon row.key)) ≡ true }
    ensures { rows_of_entries (λ k. k.items) rows.new.entries
        ≡ with_row (rows_of_entries (λ k. k.items) rows.old.entries) row }
{
    one_form();
    one_reader();
    let Pair { key, value } = row;
    let len = spell_short(&key, room);
    drop(key);
    match table::replace(rows, &room[..len], value) {
        Ok(before) => drop(before),
        Err(value) => drop(value),
    }
}

/// Writes the rows of keys that have one, from left to right.
pub(crate) fn write_all(rows: &mut Table, room: &mut [u8], pairs: Vec<Pair>)
    requires rows { All IsRow pairs.items }
    requires stand { AllStand (length room.old) (rows_of_entries (λ k. k.items) rows.old.entries) pairs.items }
    ensures { rows_of_entries (λ k. k.items) rows.new.entries
        ≡ with_rows (rows_of_entries (λ k. k.items) rows.old.entries) pairs.items }
{
    for pair in pairs {
        write(rows, room, pair);
    }
}
