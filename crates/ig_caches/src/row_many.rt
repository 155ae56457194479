//! Calls on several rows of one cache, and on all of them.

ghost use Rattle.std.specs.Prelude.{◌≡◌, All, IsOk, IsTrue, IfOk};
ghost use Rattle.std.specs.List.{list_all, list_any};
ghost use Rattle.std.specs.FinMap as map;
ghost use Rattle.ig_caches.specs.declared.call.Call.TheVariants.{GetAll, PutAll, ContainsKeys, ClearKeys, RemoveKeys, Clear, RemoveAll, Scan, Size};
ghost use Rattle.ig_caches.specs.Effect.{asks_for_all, names_all, count_of};
ghost use Rattle.ig_caches.specs.Rows.{has_row, without_rows, all_rows};
ghost use Rattle.ig_caches.specs.IsRunnable.{IsItem, IsRow};
ghost use Rattle.ig_caches.specs.RunsOnRows.{RunsOnRows};

use crate::answer::Outcome;
use crate::call::{Call, Pair};
use crate::row_map::RowMap;
use ig_base::{Items, NoRoom, Octets};
use ig_value::Value;

/// Whether one of the modes asks for all rows.
fn names_all(modes: &[u8]) -> bool
    ensures { result ≡ list_any names_all modes.now }
{
    modes.iter().any(|mode| *mode == 0 || *mode == 2)
}

/// Whether the modes ask for all rows. Takes no memory.
pub fn count_all(modes: &[u8]) -> bool
    ensures { result ≡ asks_for_all modes.now }
{
    if modes.is_empty() {
        return true;
    }
    names_all(modes)
}

impl RowMap {
    /// Whether each of the keys has a row. Takes no memory.
    pub fn has_all(&mut self, keys: &[Value]) -> bool
        ensures answer { result ≡ list_all (has_row self.old) keys.now }
        ensures same { self.new ≡ self.old }
    {
        for key in keys {
            if !self.has(key) {
                return false;
            }
        }
        true
    }

    /// Removes the rows of the keys. Takes no memory.
    pub fn remove_all(&mut self, keys: &[Value])
        ensures { self.new ≡ without_rows self.old keys.now }
    {
        for key in keys {
            drop(self.remove(key));
        }
    }

    pub(crate) fn run_get_all(
        &mut self,
        cache: i32,
        keys: Items<Value>,
    ) -> Result<Outcome, NoRoom<Call>>
        requires { All IsItem keys }
        ensures { RunsOnRows (GetAll cache keys) self.old result self.new }
    {
        match self.rows(keys.as_slice()) {
            Ok(rows) => {
                drop(keys);
                Ok(Outcome::Pairs(rows))
            }
            Err(_) => Err(NoRoom {
                back: Call::GetAll { cache, keys },
            }),
        }
    }

    pub(crate) fn run_put_all(
        &mut self,
        cache: i32,
        pairs: Items<Pair>,
    ) -> Result<Outcome, NoRoom<Call>>
        requires { All IsRow pairs }
        ensures { RunsOnRows (PutAll cache pairs) self.old result self.new }
    {
        match self.put_all(pairs) {
            Ok(()) => Ok(Outcome::Done),
            Err(NoRoom { back }) => Err(NoRoom {
                back: Call::PutAll { cache, pairs: back },
            }),
        }
    }

    pub(crate) fn run_contains_keys(
        &mut self,
        cache: i32,
        keys: Items<Value>,
    ) -> Result<Outcome, NoRoom<Call>>
        ensures { RunsOnRows (ContainsKeys cache keys) self.old result self.new }
    {
        let yes = self.has_all(keys.as_slice());
        drop(keys);
        Ok(Outcome::Yes(yes))
    }

    pub(crate) fn run_clear_keys(
        &mut self,
        cache: i32,
        keys: Items<Value>,
    ) -> Result<Outcome, NoRoom<Call>>
        ensures { RunsOnRows (ClearKeys cache keys) self.old result self.new }
    {
        self.remove_all(keys.as_slice());
        drop(keys);
        Ok(Outcome::Done)
    }

    pub(crate) fn run_remove_keys(
        &mut self,
        cache: i32,
        keys: Items<Value>,
    ) -> Result<Outcome, NoRoom<Call>>
        ensures { RunsOnRows (RemoveKeys cache keys) self.old result self.new }
    {
        self.remove_all(keys.as_slice());
        drop(keys);
        Ok(Outcome::Done)
    }

    pub(crate) fn run_clear(&mut self, cache: i32) -> Result<Outcome, NoRoom<Call>>
        ensures { RunsOnRows (Clear cache) self.old result self.new }
    {
        self.clear();
        Ok(Outcome::Done)
    }

    pub(crate) fn run_remove_all(&mut self, cache: i32) -> Result<Outcome, NoRoom<Call>>
        ensures { RunsOnRows (RemoveAll cache) self.old result self.new }
    {
        self.clear();
        Ok(Outcome::Done)
    }

    pub(crate) fn run_scan(&mut self, cache: i32) -> Result<Outcome, NoRoom<Call>>
        ensures { RunsOnRows (Scan cache) self.old result self.new }
    {
        match self.all() {
            Ok(rows) => Ok(Outcome::Pairs(rows)),
            Err(_) => Err(NoRoom {
                back: Call::Scan { cache },
            }),
        }
    }

    pub(crate) fn run_size(&mut self, cache: i32, modes: Octets) -> Result<Outcome, NoRoom<Call>>
        ensures runs { RunsOnRows (Size cache modes) self.old result self.new }
        ensures sure { IsOk result }
    {
        let all = count_all(modes.as_slice());
        drop(modes);
        if !all {
            return Ok(Outcome::Count(0));
        }
        Ok(Outcome::Count(self.count()))
    }

    /// The number of rows; it saturates at `i64::MAX`. Takes no memory.
    pub fn count(&self) -> i64
        ensures { result ≡ count_of self.now }
    {
        self.len() as i64
    }
}
