//! Calls on several rows of a cache, and on all of them, over all shards.

ghost use Rattle.std.specs.Prelude.{◌≡◌, ◌≤◌, [], length, if◌then◌else◌, All, IfOk, OnOk, OnErr, IfErr};
ghost use Rattle.std.specs.List.{list_all};
ghost use Rattle.ig_caches.specs.IsRunnable.{IsItem, IsRow, IsRunnable};
ghost use Rattle.ig_caches.specs.declared.call.Pair.{Pair};
ghost use Rattle.ig_caches.specs.Rows.{Rows, has_row, with_row, without_row, without_rows, with_rows, rows_of};
ghost use Rattle.ig_caches.specs.RunsOnRows.{IsOnRows, RunsOnRows};
ghost use Rattle.ig_caches.specs.declared.call.Call.TheVariants.{GetAll, PutAll, ContainsKeys, ClearKeys, RemoveKeys, Clear, RemoveAll, Scan, Size};
ghost use Rattle.ig_shards.specs.Marks.{IsMarked, AreNew, HasRows, IsReserved, IsLeft, IsOnSeveral};

use crate::spread_rows::SpreadRows;
use ig_base::{Items, NoMemory, NoRoom, Octets};
use ig_caches::{Call, Outcome, Pair, count_all};
use ig_value::Value;
use std::collections::BTreeSet;

impl SpreadRows {
    /// Whether each of the keys has a row. Takes no memory.
    fn has_all(&mut self, keys: &[Value]) -> bool
        ensures answer { result ≡ list_all (has_row self.old.1) keys.now }
        ensures same { self.new ≡ self.old }
    {
        for key in keys {
            if !self.has(key) {
                return false;
            }
        }
        true
    }

    /// Removes the rows of the keys. Takes no memory.
    fn remove_all(&mut self, keys: &[Value])
        ensures { self.new ≡ (self.old.0, without_rows self.old.1 keys.now) }
    {
        for key in keys {
            self.remove(key);
        }
    }

    /// Copies of the rows of those of the keys that have one, each once, in the order in which the keys are
    /// first mentioned.
    fn rows(&mut self, keys: &[Value]) -> Result<Items<Pair>, NoMemory>
        requires { All IsItem keys.now }
        ensures rows { IfOk result (λ rows. rows ≡ rows_of self.old.1 keys.now) }
        ensures same { self.new ≡ self.old }
    {
        let mut met = BTreeSet::new(self.alloc);
        let mut rows = Vec::new(self.alloc);
        for key in keys {
            if let Some(row) = self.new_row(key, &mut met)? {
                rows.push(row)?;
            }
        }
        Ok(Items::new(rows))
    }

    /// Puts rows with a value that stands for none under those of the keys that have no row, and marks them.
    /// When out of memory, some of them are put.
    fn reserve_each(&mut self, pairs: &[Pair], marks: &mut Vec<bool>) -> Result<(), NoMemory>
        requires rows { All IsRow pairs.now }
        requires unmarked { marks.old.items ≡ [] }
        ensures marked { IsMarked self.old.1 self.new.1 marks.new.items pairs.now }
        ensures new { AreNew self.old.1 marks.new.items pairs.now }
        ensures within { length marks.new.items ≤ length pairs.now }
        ensures ok { OnOk result (HasRows self.new.1 pairs.now) }
        ensures count { self.new.0 ≡ self.old.0 }
    {
        for pair in pairs {
            self.reserve_one(&pair.key, marks)?;
        }
        Ok(())
    }

    /// Puts a row under the key if it has none, and marks whether it had none. When out of memory, no row
    /// is put, but the key may be marked if it has none.
    fn reserve_one(&mut self, key: &Value, marks: &mut Vec<bool>) -> Result<(), NoMemory>
        requires { IsItem key.now }
        ensures ok { OnOk result (IsReserved self.old.1 self.new.1 marks.old.items marks.new.items key.now) }
        ensures err { OnErr result (IsLeft self.old.1 self.new.1 marks.old.items marks.new.items key.now) }
        ensures count { self.new.0 ≡ self.old.0 }
    {
        if self.has(key) {
            marks.push(false)?;
            return Ok(());
        }
        marks.push(true)?;
        self.put_none(key)
    }

    /// Puts a row with a value that stands for none.
    fn put_none(&mut self, key: &Value) -> Result<(), NoMemory>
        requires { IsItem key.now }
        ensures ok { OnOk result ((row : Pair) × (row.key ≡ key.now) × (self.new ≡ (self.old.0, with_row self.old.1 row))) }
        ensures err { OnErr result (self.new ≡ self.old) }
    {
        let key = key.copy(self.alloc)?;
        self.put(Pair {
            key,
            value: Value::Int(0),
        })
    }

    /// Removes the rows of the keys that are marked. Takes no memory.
    fn release(&mut self, pairs: &[Pair], marks: &[bool])
        requires { length marks.now ≤ length pairs.now }
        ensures { (old : Rows) → IsMarked old self.old.1 marks.now pairs.now → AreNew old marks.now pairs.now
            → self.new ≡ (self.old.0, old) }
    {
        for at in 0..marks.len() {
            self.release_one(&pairs[at].key, marks[at]);
        }
    }

    /// Removes the row of the key if it is marked. Takes no memory.
    fn release_one(&mut self, key: &Value, mark: bool)
        ensures { self.new ≡ (self.old.0, if mark then without_row self.old.1 key.now else self.old.1) }
    {
        if mark {
            self.remove(key);
        }
    }

    /// Puts rows under those of the keys that have none. When out of memory, it has changed nothing.
    fn reserve(&mut self, pairs: &[Pair]) -> Result<(), NoMemory>
        requires { All IsRow pairs.now }
        ensures ok { OnOk result (HasRows self.new.1 pairs.now) }
        ensures written { OnOk result (with_rows self.new.1 pairs.now ≡ with_rows self.old.1 pairs.now) }
        ensures count { OnOk result (self.new.0 ≡ self.old.0) }
        ensures err { OnErr result (self.new ≡ self.old) }
    {
        let mut marks = Vec::new(self.alloc);
        if self.reserve_each(pairs, &mut marks).is_ok() {
            return Ok(());
        }
        self.release(pairs, marks.as_slice());
        Err(NoMemory)
    }

    /// Writes the rows of keys that have one, from left to right. Takes no memory.
    fn write_all(&mut self, pairs: Vec<Pair>)
        requires rows { All IsRow pairs.items }
        requires stand { HasRows self.old.1 pairs.items }
        ensures { self.new ≡ (self.old.0, with_rows self.old.1 pairs.items) }
    {
        for pair in pairs {
            self.replace(pair);
        }
    }

    fn run_get_all(&mut self, cache: i32, keys: Items<Value>) -> Result<Outcome, NoRoom<Call>>
        requires { All IsItem keys }
        ensures runs { RunsOnRows (GetAll cache keys) self.old.1 result self.new.1 }
        ensures count { self.new.0 ≡ self.old.0 }
    {
        match self.rows(keys.as_slice()) {
            Ok(rows) => {
                drop(keys);
                Ok(Outcome::Pairs(rows))
            }
            Err(_) => Err(NoRoom {
                back: Call::GetAll { cache, keys },
            }),
        }
    }

    fn run_put_all(&mut self, cache: i32, pairs: Items<Pair>) -> Result<Outcome, NoRoom<Call>>
        requires { All IsRow pairs }
        ensures runs { RunsOnRows (PutAll cache pairs) self.old.1 result self.new.1 }
        ensures count { self.new.0 ≡ self.old.0 }
    {
        if self.reserve(pairs.as_slice()).is_err() {
            return Err(NoRoom {
                back: Call::PutAll { cache, pairs },
            });
        }
        self.write_all(pairs.into_std());
        Ok(Outcome::Done)
    }

    fn run_contains_keys(&mut self, cache: i32, keys: Items<Value>) -> Result<Outcome, NoRoom<Call>>
        ensures runs { RunsOnRows (ContainsKeys cache keys) self.old.1 result self.new.1 }
        ensures count { self.new.0 ≡ self.old.0 }
    {
        let yes = self.has_all(keys.as_slice());
        drop(keys);
        Ok(Outcome::Yes(yes))
    }

    fn run_clear_keys(&mut self, cache: i32, keys: Items<Value>) -> Result<Outcome, NoRoom<Call>>
        ensures runs { RunsOnRows (ClearKeys cache keys) self.old.1 result self.new.1 }
        ensures count { self.new.0 ≡ self.old.0 }
    {
        self.remove_all(keys.as_slice());
        drop(keys);
        Ok(Outcome::Done)
    }

    fn run_remove_keys(&mut self, cache: i32, keys: Items<Value>) -> Result<Outcome, NoRoom<Call>>
        ensures runs { RunsOnRows (RemoveKeys cache keys) self.old.1 result self.new.1 }
        ensures count { self.new.0 ≡ self.old.0 }
    {
        self.remove_all(keys.as_slice());
        drop(keys);
        Ok(Outcome::Done)
    }

    fn run_clear(&mut self, cache: i32) -> Result<Outcome, NoRoom<Call>>
        ensures runs { RunsOnRows (Clear cache) self.old.1 result self.new.1 }
        ensures count { self.new.0 ≡ self.old.0 }
    {
        self.clear();
        Ok(Outcome::Done)
    }

    fn run_remove_all(&mut self, cache: i32) -> Result<Outcome, NoRoom<Call>>
        ensures runs { RunsOnRows (RemoveAll cache) self.old.1 result self.new.1 }
        ensures count { self.new.0 ≡ self.old.0 }
    {
        self.clear();
        Ok(Outcome::Done)
    }

    fn run_scan(&mut self, cache: i32) -> Result<Outcome, NoRoom<Call>>
        ensures runs { RunsOnRows (Scan cache) self.old.1 result self.new.1 }
        ensures count { self.new.0 ≡ self.old.0 }
    {
        match self.all() {
            Ok(rows) => Ok(Outcome::Pairs(rows)),
            Err(_) => Err(NoRoom {
                back: Call::Scan { cache },
            }),
        }
    }

    fn run_size(&mut self, cache: i32, modes: Octets) -> Result<Outcome, NoRoom<Call>>
        ensures runs { RunsOnRows (Size cache modes) self.old.1 result self.new.1 }
        ensures count { self.new.0 ≡ self.old.0 }
    {
        let all = count_all(modes.as_slice());
        drop(modes);
        if !all {
            return Ok(Outcome::Count(0));
        }
        Ok(Outcome::Count(self.count()))
    }

    /// Runs a call on several rows, or on all.
    ///
    /// # Errors
    ///
    /// [`NoRoom`] with the call if memory runs out; nothing has changed.
    pub(crate) fn run(&mut self, call: Call) -> Result<Outcome, NoRoom<Call>>
        requires several { IsOnSeveral call }
        requires runnable { IsRunnable call }
        ensures runs { RunsOnRows call self.old.1 result self.new.1 }
        ensures count { self.new.0 ≡ self.old.0 }
    {
        match call {
            Call::GetAll { cache, keys } => self.run_get_all(cache, keys),
            Call::ContainsKeys { cache, keys } => self.run_contains_keys(cache, keys),
            Call::ClearKeys { cache, keys } => self.run_clear_keys(cache, keys),
            Call::RemoveKeys { cache, keys } => self.run_remove_keys(cache, keys),
            Call::PutAll { cache, pairs } => self.run_put_all(cache, pairs),
            Call::Clear { cache } => self.run_clear(cache),
            Call::RemoveAll { cache } => self.run_remove_all(cache),
            Call::Scan { cache } => self.run_scan(cache),
            Call::Size { cache, modes } => self.run_size(cache, modes),
            call => Err(NoRoom { back: call }),
        }
    }
}
