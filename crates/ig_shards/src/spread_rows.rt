//! The rows of one cache in all shards.

ghost use Rattle.std.specs.Prelude.{◌≡◌, ◌<◌, ◌≤◌, ◌-◌, ◌^◌, ◌&&◌, ◌||◌, ℕ, pos, min, List, sum_by, All, None, if◌then◌else◌, IfSome, IfNone, IfOk, OnOk, OnErr};
ghost use Rattle.std.specs.Cmp.Lexicographic.{slice_cmp};
ghost use Rattle.std.specs.Ordering.{nat_cmp, eq_by_cmp};
ghost use Rattle.std.specs.FinMap as finite;
ghost use Rattle.ig_value.specs.Canon.{Canon};
ghost use Rattle.ig_caches.specs.IsRunnable.{IsItem, IsRow};

use crate::merge;
use crate::place::shard_of_key;
use ig_base::{Items, NoMemory, NoRoom};
use ig_caches::{Forms, Pair, RowMap};
use ig_value::Value;
use std::alloc::Global;
use std::marker::Model;

/// The rows of one cache in all shards, each in the shard of its key. Contracts see the number of shards,
/// and the rows of all as one finite map.
#[derive(Drop)]
pub(crate) struct SpreadRows {
    pub(crate) alloc: Global,
    pub(crate) shards: Vec<RowMap>,
}

impl Model for SpreadRows {
    ghost use Rattle.std.specs.Prelude.{ℕ, ◌<◌, ◌≤◌, vec_len};
    ghost use Rattle.ig_caches.specs.Rows.{Rows};

    ghost Value = { ℕ × Rows };

    ghost use Rattle.std.specs.Coded.{coded×, coded_ℕ, coded_list};
    ghost use Rattle.std.specs.FinMap as map;
    ghost use Rattle.ig_caches.specs.contracts.call.Pair as pair;

    ghost coded = { coded× coded_ℕ (map.code (coded_list coded_ℕ) pair.the_row.coded) };

    ghost use Rattle.ig_shards.specs.Spread.{union, AreSpreadFrom};

    ghost view = { λ r. (vec_len r.shards, union r.shards.items) };

    ghost invariant = { λ r. (0 < vec_len r.shards) × (vec_len r.shards ≤ 256)
        × AreSpreadFrom (vec_len r.shards) 0 r.shards.items };
}

/// Removes all rows. Takes no memory.
fn clear_all(shards: &mut [RowMap])
    ensures { All (λ rows. rows ≡ finite.empty) shards.new }
{
    for rows in shards.iter_mut() {
        rows.clear();
    }
}

/// The number of rows of all, if it fits.
fn total(shards: &[RowMap]) -> Option<usize>
    ensures some { IfSome result (λ count. count ≡ sum_by finite.len shards.now) }
    ensures none { IfNone result (2 ^ 64 ≤ sum_by finite.len shards.now) }
{
    let mut count = 0usize;
    for rows in shards {
        count = count.checked_add(rows.len())?;
    }
    Some(count)
}

/// The number; it saturates at `i64::MAX`.
fn saturating(count: usize) -> i64
    ensures { result ≡ pos (min count (2 ^ 63 - 1)) }
{
    if count > i64::MAX as usize {
        return i64::MAX;
    }
    count as i64
}

impl SpreadRows {
    ghost use Rattle.ig_caches.specs.RowEntries.{is_among};
    ghost use Rattle.ig_caches.specs.Effect.{count_of};
    ghost use Rattle.ig_caches.specs.Rows.{row_of, value_of, has_row, with_row, without_row, all_rows};

    /// Whether the key has a row. Takes no memory.
    pub(crate) fn has(&mut self, key: &Value) -> bool
        ensures answer { result ≡ has_row self.old.1 key.now }
        ensures same { self.new ≡ self.old }
    {
        let shard = shard_of_key(key, self.shards.len() as u32) as usize;
        self.shards[shard].has(key)
    }

    /// A copy of the row of the key, if it has one whose encoding wasn't met before. Then it has been met.
    pub(crate) fn new_row(&mut self, key: &Value, met: &mut Forms) -> Result<Option<Pair>, NoMemory>
        requires { IsItem key.now }
        ensures row { IfOk result (λ row. row
            ≡ (if is_among (λ k. k.items) met.old.keys (Canon key.now) then None else row_of self.old.1 key.now)) }
        ensures met { OnOk result ((q : List ℕ) → is_among (λ k. k.items) met.new.keys q
            ≡ (is_among (λ k. k.items) met.old.keys q
            || (eq_by_cmp (slice_cmp nat_cmp) q (Canon key.now) && has_row self.old.1 key.now))) }
        ensures same { self.new ≡ self.old }
    {
        let shard = shard_of_key(key, self.shards.len() as u32) as usize;
        self.shards[shard].new_row(key, met)
    }

    /// Puts the row in the place of the row of its key. When out of memory, it has changed nothing.
    pub(crate) fn put(&mut self, row: Pair) -> Result<(), NoMemory>
        requires { IsRow row }
        ensures ok { OnOk result (self.new ≡ (self.old.0, with_row self.old.1 row)) }
        ensures err { OnErr result (self.new ≡ self.old) }
    {
        let shard = shard_of_key(&row.key, self.shards.len() as u32) as usize;
        match self.shards[shard].put(row) {
            Ok(before) => {
                drop(before);
                Ok(())
            }
            Err(NoRoom { back }) => {
                drop(back);
                Err(NoMemory)
            }
        }
    }

    /// Puts the row in the place of the row of its key, if there is one. Takes no memory.
    pub(crate) fn replace(&mut self, row: Pair)
        requires { IsRow row }
        ensures { self.new ≡ (self.old.0, if has_row self.old.1 row.key then with_row self.old.1 row else self.old.1) }
    {
        let shard = shard_of_key(&row.key, self.shards.len() as u32) as usize;
        match self.shards[shard].replace(row) {
            Ok(before) => drop(before),
            Err(row) => drop(row),
        }
    }

    /// Removes the row of the key. Takes no memory.
    pub(crate) fn remove(&mut self, key: &Value)
        ensures { self.new ≡ (self.old.0, without_row self.old.1 key.now) }
    {
        let shard = shard_of_key(key, self.shards.len() as u32) as usize;
        drop(self.shards[shard].remove(key));
    }

    /// Removes all rows. Takes no memory.
    pub(crate) fn clear(&mut self)
        ensures { self.new ≡ (self.old.0, finite.empty) }
    {
        clear_all(self.shards.as_mut_slice());
    }

    /// The number of rows; it saturates at `i64::MAX`. Takes no memory.
    pub(crate) fn count(&self) -> i64
        ensures { result ≡ count_of self.now.1 }
    {
        match total(self.shards.as_slice()) {
            Some(count) => saturating(count),
            None => i64::MAX,
        }
    }

    /// Copies of all rows, in the order of the canonical encodings of their keys.
    pub(crate) fn all(&self) -> Result<Items<Pair>, NoMemory>
        ensures { IfOk result (λ rows. rows ≡ all_rows self.now.1) }
    {
        merge::copies(self.alloc, self.shards.as_slice())
    }
}
