//! The rows of one cache.

ghost use Rattle.std.specs.Prelude.{◌≡◌, ◌<◌, ◌^◌, ◌&&◌, ◌||◌, ℕ, List, All, None, Some, if◌then◌else◌, IfOk, IfErr, OnOk, OnErr};
ghost use Rattle.std.specs.Cmp.Lexicographic.{slice_cmp};
ghost use Rattle.std.specs.Ordering.{nat_cmp, eq_by_cmp};
ghost use Rattle.ig_value.specs.Canon.{Canon};
ghost use Rattle.ig_caches.specs.declared.call.Pair.{Pair};
ghost use Rattle.ig_caches.specs.IsRunnable.{IsItem, IsRow};

use crate::call::Pair;
use crate::reserve::{release_all, reserve_all, write_all};
use crate::spelling::{spell, spell_growing};
use crate::table::{self, Forms, Table};
use ig_base::{Items, NoMemory, NoRoom};
use ig_value::{Value, one_form, one_reader};
use std::alloc::Global;
use std::collections::{BTreeMap, BTreeSet};
use std::marker::Model;

/// The rows of one cache, which contracts see as the finite map `Rows`. A call on one key looks at no
/// other row.
#[derive(Drop)]
pub struct RowMap {
    alloc: Global,
    rows: Table,
    // Room for the canonical encoding of one key. A key that doesn't fit has no row, since no key that
    // has one is longer than the room: so look-ups take no memory.
    room: Vec<u8>,
}

impl Model for RowMap {
    ghost use Rattle.std.specs.Prelude.{vec_len};
    ghost use Rattle.ig_caches.specs.Rows.{Rows};

    ghost Value = { Rows };

    ghost use Rattle.std.specs.Coded.{coded_ℕ, coded_list};
    ghost use Rattle.std.specs.FinMap as map;
    ghost use Rattle.ig_caches.specs.contracts.call.Pair as pair;

    ghost coded = { map.code (coded_list coded_ℕ) pair.the_row.coded };

    ghost use Rattle.ig_caches.specs.RowEntries.{rows_of_entries, AreKept};

    ghost view = { λ r. rows_of_entries (λ k. k.items) r.rows.entries };

    ghost invariant = { λ r. AreKept (vec_len r.room) (rows_of_entries (λ k. k.items) r.rows.entries) };
}

impl RowMap {
    ghost use Rattle.std.specs.FinMap as map;
    ghost use Rattle.ig_caches.specs.RowEntries.{is_among};
    ghost use Rattle.ig_caches.specs.LentRows.{lent_rows, HasKey};
    ghost use Rattle.ig_caches.specs.Rows.{row_of, value_of, has_row, with_row, without_row, with_rows, rows_of, all_rows};
    ghost use Rattle.ig_caches.specs.Effect.{is_wanted};

    /// No rows. Takes no memory.
    pub fn new(alloc: Global) -> RowMap
        ensures { result ≡ map.empty }
    {
        RowMap {
            alloc,
            rows: BTreeMap::new(alloc),
            room: Vec::new(alloc),
        }
    }

    /// The number of rows. Takes no memory.
    pub fn len(&self) -> usize
        ensures len { result ≡ map.len self.now }
        ensures small { result < 2 ^ 63 }
    {
        self.rows.len()
    }

    /// Whether the key has a row. Takes no memory.
    pub fn has(&mut self, key: &Value) -> bool
        ensures answer { result ≡ has_row self.old key.now }
        ensures same { self.new ≡ self.old }
    {
        let Some(len) = spell(key, self.room.as_mut_slice()) else {
            return false;
        };
        table::contains(&self.rows, &self.room[..len])
    }

    /// A copy of the value of the key.
    pub fn value(&mut self, key: &Value) -> Result<Option<Value>, NoMemory>
        ensures value { IfOk result (λ value. value ≡ value_of self.old key.now) }
        ensures same { self.new ≡ self.old }
    {
        let Some(len) = spell(key, self.room.as_mut_slice()) else {
            return Ok(None);
        };
        table::copy_value(self.alloc, &self.rows, &self.room[..len])
    }

    /// Puts the row in the place of the row of its key, and answers the value of that one. When out of
    /// memory, it hands the row back and has changed nothing.
    pub fn put(&mut self, row: Pair) -> Result<Option<Value>, NoRoom<Pair>>
        requires { IsRow row }
        ensures before { IfOk result (λ before. before ≡ value_of self.old row.key) }
        ensures ok { OnOk result (self.new ≡ with_row self.old row) }
        ensures back { IfErr result (λ e. e.back ≡ row) }
        ensures err { OnErr result (self.new ≡ self.old) }
    {
        one_form();
        one_reader();
        let Pair { key, value } = row;
        let Ok(len) = spell_growing(&key, &mut self.room) else {
            return Err(NoRoom {
                back: Pair { key, value },
            });
        };
        match table::put(self.alloc, &mut self.rows, &self.room[..len], value) {
            Ok(before) => {
                drop(key);
                Ok(before)
            }
            Err(NoRoom { back }) => Err(NoRoom {
                back: Pair { key, value: back },
            }),
        }
    }

    /// Puts the row in the place of the row of its key, if there is one, and answers the value of that
    /// one. Else it hands the row back. Takes no memory.
    pub fn replace(&mut self, row: Pair) -> Result<Value, Pair>
        requires { IsRow row }
        ensures before { IfOk result (λ before. value_of self.old row.key ≡ Some before) }
        ensures ok { OnOk result (self.new ≡ with_row self.old row) }
        ensures back { IfErr result (λ back. back ≡ row) }
        ensures absent { OnErr result (value_of self.old row.key ≡ None) }
        ensures err { OnErr result (self.new ≡ self.old) }
    {
        one_form();
        one_reader();
        let Pair { key, value } = row;
        let Some(len) = spell(&key, self.room.as_mut_slice()) else {
            return Err(Pair { key, value });
        };
        match table::replace(&mut self.rows, &self.room[..len], value) {
            Ok(before) => {
                drop(key);
                Ok(before)
            }
            Err(value) => Err(Pair { key, value }),
        }
    }

    /// Removes the row of the key, and answers its value. Takes no memory.
    pub fn remove(&mut self, key: &Value) -> Option<Value>
        ensures before { result ≡ value_of self.old key.now }
        ensures removed { self.new ≡ without_row self.old key.now }
    {
        let Some(len) = spell(key, self.room.as_mut_slice()) else {
            return None;
        };
        table::remove(&mut self.rows, &self.room[..len])
    }

    /// Whether the key has the wanted value. Takes no memory.
    pub fn has_value(&mut self, key: &Value, wanted: &Value) -> bool
        requires { IsItem wanted.now }
        ensures answer { result ≡ is_wanted wanted.now (value_of self.old key.now) }
        ensures same { self.new ≡ self.old }
    {
        let Some(len) = spell(key, self.room.as_mut_slice()) else {
            return false;
        };
        table::has_value(&self.rows, &self.room[..len], wanted)
    }

    /// A copy of the row of the key, if it has one whose encoding wasn't met before. Then it has been
    /// met.
    pub fn new_row(&mut self, key: &Value, met: &mut Forms) -> Result<Option<Pair>, NoMemory>
        requires { IsItem key.now }
        ensures row { IfOk result (λ row. row
            ≡ (if is_among (λ k. k.items) met.old.keys (Canon key.now) then None else row_of self.old key.now)) }
        ensures met { OnOk result ((q : List ℕ) → is_among (λ k. k.items) met.new.keys q
            ≡ (is_among (λ k. k.items) met.old.keys q
            || (eq_by_cmp (slice_cmp nat_cmp) q (Canon key.now) && has_row self.old key.now))) }
        ensures same { self.new ≡ self.old }
    {
        one_form();
        one_reader();
        let Some(len) = spell(key, self.room.as_mut_slice()) else {
            return Ok(None);
        };
        table::copy_new(self.alloc, &self.rows, key, &self.room[..len], met)
    }

    /// Copies of the rows of those of the keys that have one, each once, in the order in which the keys
    /// are first mentioned.
    pub fn rows(&mut self, keys: &[Value]) -> Result<Items<Pair>, NoMemory>
        requires { All IsItem keys.now }
        ensures rows { IfOk result (λ rows. rows ≡ rows_of self.old keys.now) }
        ensures same { self.new ≡ self.old }
    {
        let mut met = BTreeSet::new(self.alloc);
        let mut rows = Vec::new(self.alloc);
        for key in keys {
            if let Some(row) = self.new_row(key, &mut met)? {
                rows.push(row)?;
            }
        }
        Ok(Items::new(rows))
    }

    /// Puts the pairs from left to right: the last value of a key that is repeated stands. When out of
    /// memory, it hands the pairs back and has changed nothing.
    pub fn put_all(&mut self, pairs: Items<Pair>) -> Result<(), NoRoom<Items<Pair>>>
        requires { All IsRow pairs }
        ensures ok { OnOk result (self.new ≡ with_rows self.old pairs) }
        ensures back { IfErr result (λ e. e.back ≡ pairs) }
        ensures err { OnErr result (self.new ≡ self.old) }
    {
        one_form();
        one_reader();
        match reserve_all(self.alloc, &mut self.rows, &mut self.room, pairs.as_slice()) {
            Ok(()) => {
                write_all(&mut self.rows, self.room.as_mut_slice(), pairs.into_std());
                Ok(())
            }
            Err(_) => {
                release_all(&mut self.rows, self.room.as_mut_slice(), pairs.as_slice());
                Err(NoRoom { back: pairs })
            }
        }
    }

    /// Copies of all rows, in the order of the canonical encodings of their keys.
    pub fn all(&self) -> Result<Items<Pair>, NoMemory>
        ensures { IfOk result (λ rows. rows ≡ all_rows self.now) }
    {
        Ok(Items::new(table::copy_all(self.alloc, &self.rows)?))
    }

    /// The rows in the order of the canonical encodings of their keys: these bytes, and the value.
    pub fn entries(&self) -> Result<Vec<(&[u8], &Value)>, NoMemory>
        ensures rows { IfOk result (λ rows. lent_rows rows.items ≡ map.entries self.now) }
        ensures keys { IfOk result (λ rows. All HasKey rows.items) }
    {
        table::entries(self.alloc, &self.rows)
    }

    /// Removes all rows. Takes no memory.
    pub fn clear(&mut self)
        ensures { self.new ≡ map.empty }
    {
        self.rows.clear();
    }
}
