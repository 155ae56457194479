//! Rows in a map: the value of each under the canonical encoding of its key.

ghost use Rattle.std.specs.Prelude.{◌≡◌, ℕ, List, All, ◌&&◌, ◌||◌, Some, None, option_map, is_some, if◌then◌else◌, IfOk, IfErr, OnOk, OnErr};
ghost use Rattle.std.specs.Cmp.Lexicographic.{slice_cmp};
ghost use Rattle.std.specs.Ordering.{nat_cmp, eq_by_cmp};
ghost use Rattle.std.specs.FinMap as map;
ghost use Rattle.ig_value.specs.Spells.{Spells};
ghost use Rattle.ig_caches.specs.Effect.{is_wanted};
ghost use Rattle.ig_caches.specs.IsRunnable.{IsItem};
ghost use Rattle.ig_caches.specs.LentRows.{lent_rows, HasKey};
ghost use Rattle.ig_caches.specs.RowEntries.{key_of, row_under, rows_of_entries, AreKept, is_among};

use crate::call::Pair;
use ig_base::{NoMemory, NoRoom};
use ig_decode::{Decoded, decode};
use ig_value::{Value, one_form};
use std::alloc::{AllocFailed, Global};
use std::collections::{BTreeMap, BTreeSet};
use std::mem;

/// Values by the canonical encodings of their keys.
pub(crate) type Table = BTreeMap<Vec<u8>, Value>;

/// Canonical encodings that were met.
pub type Forms = BTreeSet<Vec<u8>>;

/// A copy of the value under these bytes.
pub(crate) fn copy_value(
    alloc: Global,
    rows: &Table,
    form: &[u8],
) -> Result<Option<Value>, NoMemory>
    ensures { IfOk result (λ value. value
        ≡ option_map (λ row. row.value) (map.get (rows_of_entries (λ k. k.items) rows.now.entries) form.now)) }
{
    match rows.get(form) {
        Some(value) => Ok(Some(value.copy(alloc)?)),
        None => Ok(None),
    }
}

/// Whether a value stands under these bytes.
pub(crate) fn contains(rows: &Table, form: &[u8]) -> bool
    ensures { result ≡ is_some (map.get (rows_of_entries (λ k. k.items) rows.now.entries) form.now) }
{
    rows.contains_key(form)
}

/// Whether the wanted value stands under these bytes.
pub(crate) fn has_value(rows: &Table, form: &[u8], wanted: &Value) -> bool
    requires { IsItem wanted.now }
    ensures { (most : ℕ) → AreKept most (rows_of_entries (λ k. k.items) rows.now.entries) → result ≡ is_wanted wanted.now
        (option_map (λ row. row.value) (map.get (rows_of_entries (λ k. k.items) rows.now.entries) form.now)) }
{
    one_form();
    match rows.get(form) {
        Some(value) => value.same(wanted),
        None => false,
    }
}

/// Puts the value under these bytes, and answers the value before. When out of memory, it hands the
/// value back and has changed nothing.
pub(crate) fn put(
    alloc: Global,
    rows: &mut Table,
    form: &[u8],
    value: Value,
) -> Result<Option<Value>, NoRoom<Value>>
    ensures before { IfOk result (λ before. before
        ≡ option_map (λ row. row.value) (map.get (rows_of_entries (λ k. k.items) rows.old.entries) form.now)) }
    ensures ok { OnOk result (rows_of_entries (λ k. k.items) rows.new.entries
        ≡ map.insert (rows_of_entries (λ k. k.items) rows.old.entries) form.now (row_under form.now value)) }
    ensures back { IfErr result (λ e. e.back ≡ value) }
    ensures err { OnErr result (rows.new.entries ≡ rows.old.entries) }
{
    if let Some(standing) = rows.get_mut(form) {
        return Ok(Some(mem::replace(standing, value)));
    }
    let Ok(key) = Vec::from_slice(alloc, form) else {
        return Err(NoRoom { back: value });
    };
    match rows.insert(key, value) {
        Ok(before) => Ok(before),
        Err(AllocFailed { value: (_, value) }) => Err(NoRoom { back: value }),
    }
}

/// Puts the value under these bytes in the place of the one that stands there, and answers that one.
/// Hands the value back if none stands there.
pub(crate) fn replace(rows: &mut Table, form: &[u8], value: Value) -> Result<Value, Value>
    ensures before { IfOk result (λ before. option_map (λ row. row.value)
        (map.get (rows_of_entries (λ k. k.items) rows.old.entries) form.now) ≡ Some before) }
    ensures ok { OnOk result (rows_of_entries (λ k. k.items) rows.new.entries
        ≡ map.insert (rows_of_entries (λ k. k.items) rows.old.entries) form.now (row_under form.now value)) }
    ensures back { IfErr result (λ back. back ≡ value) }
    ensures absent { OnErr result (option_map (λ row. row.value)
        (map.get (rows_of_entries (λ k. k.items) rows.old.entries) form.now) ≡ None) }
    ensures err { OnErr result (rows.new.entries ≡ rows.old.entries) }
{
    match rows.get_mut(form) {
        Some(standing) => Ok(mem::replace(standing, value)),
        None => Err(value),
    }
}

/// Removes the value under these bytes, and answers it.
pub(crate) fn remove(rows: &mut Table, form: &[u8]) -> Option<Value>
    ensures before { result
        ≡ option_map (λ row. row.value) (map.get (rows_of_entries (λ k. k.items) rows.old.entries) form.now) }
    ensures removed { rows_of_entries (λ k. k.items) rows.new.entries
        ≡ map.remove (rows_of_entries (λ k. k.items) rows.old.entries) form.now }
{
    rows.remove(form)
}

/// A copy of the row of the key, which has this canonical encoding, unless that was met already. Then
/// it has been met if the key has a row.
pub(crate) fn copy_new(
    alloc: Global,
    rows: &Table,
    key: &Value,
    form: &[u8],
    met: &mut Forms,
) -> Result<Option<Pair>, NoMemory>
    requires { key_of form.now ≡ key.now }
    ensures row { IfOk result (λ row. row ≡ (if is_among (λ k. k.items) met.old.keys form.now then None
        else map.get (rows_of_entries (λ k. k.items) rows.now.entries) form.now)) }
    ensures met { OnOk result ((q : List ℕ) → is_among (λ k. k.items) met.new.keys q
        ≡ (is_among (λ k. k.items) met.old.keys q || (eq_by_cmp (slice_cmp nat_cmp) q form.now
        && is_some (map.get (rows_of_entries (λ k. k.items) rows.now.entries) form.now)))) }
{
    let Some(value) = rows.get(form) else {
        return Ok(None);
    };
    if !met.insert(Vec::from_slice(alloc, form)?)? {
        return Ok(None);
    }
    Ok(Some(with_copy(alloc, key.copy(alloc)?, value)?))
}

/// The key with a copy of the value.
fn with_copy(alloc: Global, key: Value, value: &Value) -> Result<Pair, NoMemory>
    ensures { IfOk result (λ row. row ≡ record { key = key; value = value.now }) }
{
    match value.copy(alloc) {
        Ok(value) => Ok(Pair { key, value }),
        Err(error) => {
            drop(key);
            Err(error)
        }
    }
}

/// The rows in the order of their bytes: these, and the value.
pub(crate) fn entries(alloc: Global, rows: &Table) -> Result<Vec<(&[u8], &Value)>, NoMemory>
    requires { (most : ℕ) × AreKept most (rows_of_entries (λ k. k.items) rows.now.entries) }
    ensures rows { IfOk result (λ lent.
        lent_rows lent.items ≡ map.entries (rows_of_entries (λ k. k.items) rows.now.entries)) }
    ensures keys { IfOk result (λ lent. All HasKey lent.items) }
{
    let mut entries = Vec::with_capacity(alloc, rows.len())?;
    for (form, value) in rows.iter() {
        entries.push((form.as_slice(), value))?;
    }
    Ok(entries)
}

/// A copy of the row of this value, whose key is read from its encoding.
pub fn copy_row(alloc: Global, form: &[u8], value: &Value) -> Result<Pair, NoMemory>
    requires { Spells form.now (key_of form.now) }
    ensures { IfOk result (λ row. row ≡ row_under form.now value.now) }
{
    // No other refusal comes, since these bytes encode the key.
    let Ok(Decoded { value: key, .. }) = decode(alloc, form) else {
        return Err(NoMemory);
    };
    with_copy(alloc, key, value)
}

/// Copies of all rows, in the order of their bytes.
pub(crate) fn copy_all(alloc: Global, rows: &Table) -> Result<Vec<Pair>, NoMemory>
    requires { (most : ℕ) × AreKept most (rows_of_entries (λ k. k.items) rows.now.entries) }
    ensures { IfOk result (λ copies.
        copies.items ≡ map.values (rows_of_entries (λ k. k.items) rows.now.entries)) }
{
    let mut copies = Vec::with_capacity(alloc, rows.len())?;
    for (form, value) in rows.iter() {
        copies.push(copy_row(alloc, form.as_slice(), value)?)?;
    }
    Ok(copies)
}
