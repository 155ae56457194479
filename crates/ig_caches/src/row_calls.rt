//! Calls on the rows of one cache.

ghost use Rattle.std.specs.Prelude.{◌≡◌, IsOk};
ghost use Rattle.ig_caches.specs.declared.call.Call.TheVariants.{Get, GetAndRemove, ContainsKey, ClearKey, RemoveKey, Put, PutIfAbsent, GetAndPut, GetAndReplace, GetAndPutIfAbsent, Replace, ReplaceIfEquals, RemoveIfEquals};
ghost use Rattle.ig_caches.specs.Effect.{or_null};
ghost use Rattle.ig_caches.specs.IsRunnable.{IsItem};
ghost use Rattle.ig_caches.specs.RunsOnRows.{RunsOnRows};

use crate::answer::Outcome;
use crate::call::{Call, Pair};
use crate::row_map::RowMap;
use ig_base::NoRoom;
use ig_value::Value;

/// The value, null without one.
fn value_or_null(value: Option<Value>) -> Value
    ensures { result ≡ or_null value }
{
    match value {
        Some(value) => value,
        None => Value::Null,
    }
}

impl RowMap {
    pub(crate) fn run_get(&mut self, cache: i32, key: Value) -> Result<Outcome, NoRoom<Call>>
        ensures { RunsOnRows (Get cache key) self.old result self.new }
    {
        match self.value(&key) {
            Ok(value) => {
                drop(key);
                Ok(Outcome::Found(value_or_null(value)))
            }
            Err(_) => Err(NoRoom {
                back: Call::Get { cache, key },
            }),
        }
    }

    pub(crate) fn run_contains(&mut self, cache: i32, key: Value) -> Result<Outcome, NoRoom<Call>>
        ensures runs { RunsOnRows (ContainsKey cache key) self.old result self.new }
        ensures sure { IsOk result }
    {
        let yes = self.has(&key);
        drop(key);
        Ok(Outcome::Yes(yes))
    }

    pub(crate) fn run_put(
        &mut self,
        cache: i32,
        key: Value,
        value: Value,
    ) -> Result<Outcome, NoRoom<Call>>
        requires { IsItem key × IsItem value }
        ensures { RunsOnRows (Put cache key value) self.old result self.new }
    {
        match self.put(Pair { key, value }) {
            Ok(before) => {
                drop(before);
                Ok(Outcome::Done)
            }
            Err(
                NoRoom {
                    back: Pair { key, value },
                },
            ) => Err(NoRoom {
                back: Call::Put { cache, key, value },
            }),
        }
    }

    pub(crate) fn run_put_if_absent(
        &mut self,
        cache: i32,
        key: Value,
        value: Value,
    ) -> Result<Outcome, NoRoom<Call>>
        requires { IsItem key × IsItem value }
        ensures { RunsOnRows (PutIfAbsent cache key value) self.old result self.new }
    {
        if self.has(&key) {
            drop(Pair { key, value });
            return Ok(Outcome::Yes(false));
        }
        match self.put(Pair { key, value }) {
            Ok(before) => {
                drop(before);
                Ok(Outcome::Yes(true))
            }
            Err(
                NoRoom {
                    back: Pair { key, value },
                },
            ) => Err(NoRoom {
                back: Call::PutIfAbsent { cache, key, value },
            }),
        }
    }

    pub(crate) fn run_get_and_put(
        &mut self,
        cache: i32,
        key: Value,
        value: Value,
    ) -> Result<Outcome, NoRoom<Call>>
        requires { IsItem key × IsItem value }
        ensures { RunsOnRows (GetAndPut cache key value) self.old result self.new }
    {
        match self.put(Pair { key, value }) {
            Ok(before) => Ok(Outcome::Found(value_or_null(before))),
            Err(
                NoRoom {
                    back: Pair { key, value },
                },
            ) => Err(NoRoom {
                back: Call::GetAndPut { cache, key, value },
            }),
        }
    }

    pub(crate) fn run_get_and_replace(
        &mut self,
        cache: i32,
        key: Value,
        value: Value,
    ) -> Result<Outcome, NoRoom<Call>>
        requires { IsItem key × IsItem value }
        ensures { RunsOnRows (GetAndReplace cache key value) self.old result self.new }
    {
        match self.replace(Pair { key, value }) {
            Ok(before) => Ok(Outcome::Found(before)),
            Err(absent) => {
                drop(absent);
                Ok(Outcome::Found(Value::Null))
            }
        }
    }

    pub(crate) fn run_get_and_put_if_absent(
        &mut self,
        cache: i32,
        key: Value,
        value: Value,
    ) -> Result<Outcome, NoRoom<Call>>
        requires { IsItem key × IsItem value }
        ensures { RunsOnRows (GetAndPutIfAbsent cache key value) self.old result self.new }
    {
        match self.value(&key) {
            Ok(Some(before)) => {
                drop(Pair { key, value });
                return Ok(Outcome::Found(before));
            }
            Ok(None) => {}
            Err(_) => {
                return Err(NoRoom {
                    back: Call::GetAndPutIfAbsent { cache, key, value },
                });
            }
        }
        match self.put(Pair { key, value }) {
            Ok(before) => {
                drop(before);
                Ok(Outcome::Found(Value::Null))
            }
            Err(
                NoRoom {
                    back: Pair { key, value },
                },
            ) => Err(NoRoom {
                back: Call::GetAndPutIfAbsent { cache, key, value },
            }),
        }
    }

    pub(crate) fn run_get_and_remove(
        &mut self,
        cache: i32,
        key: Value,
    ) -> Result<Outcome, NoRoom<Call>>
        ensures { RunsOnRows (GetAndRemove cache key) self.old result self.new }
    {
        let before = self.remove(&key);
        drop(key);
        Ok(Outcome::Found(value_or_null(before)))
    }

    pub(crate) fn run_replace(
        &mut self,
        cache: i32,
        key: Value,
        value: Value,
    ) -> Result<Outcome, NoRoom<Call>>
        requires { IsItem key × IsItem value }
        ensures { RunsOnRows (Replace cache key value) self.old result self.new }
    {
        match self.replace(Pair { key, value }) {
            Ok(before) => {
                drop(before);
                Ok(Outcome::Yes(true))
            }
            Err(row) => {
                drop(row);
                Ok(Outcome::Yes(false))
            }
        }
    }

    pub(crate) fn run_replace_if(
        &mut self,
        cache: i32,
        key: Value,
        wanted: Value,
        value: Value,
    ) -> Result<Outcome, NoRoom<Call>>
        requires { IsItem key × IsItem wanted × IsItem value }
        ensures { RunsOnRows (ReplaceIfEquals cache key wanted value) self.old result self.new }
    {
        if !self.has_value(&key, &wanted) {
            drop(Pair { key, value });
            drop(wanted);
            return Ok(Outcome::Yes(false));
        }
        match self.put(Pair { key, value }) {
            Ok(before) => {
                drop(before);
                drop(wanted);
                Ok(Outcome::Yes(true))
            }
            Err(
                NoRoom {
                    back: Pair { key, value },
                },
            ) => Err(NoRoom {
                back: Call::ReplaceIfEquals {
                    cache,
                    key,
                    wanted,
                    value,
                },
            }),
        }
    }

    pub(crate) fn run_clear_key(&mut self, cache: i32, key: Value) -> Result<Outcome, NoRoom<Call>>
        ensures { RunsOnRows (ClearKey cache key) self.old result self.new }
    {
        drop(self.remove(&key));
        drop(key);
        Ok(Outcome::Done)
    }

    pub(crate) fn run_remove(&mut self, cache: i32, key: Value) -> Result<Outcome, NoRoom<Call>>
        ensures { RunsOnRows (RemoveKey cache key) self.old result self.new }
    {
        let before = self.remove(&key);
        let yes = before.is_some();
        drop(before);
        drop(key);
        Ok(Outcome::Yes(yes))
    }

    pub(crate) fn run_remove_if(
        &mut self,
        cache: i32,
        key: Value,
        wanted: Value,
    ) -> Result<Outcome, NoRoom<Call>>
        requires { IsItem key × IsItem wanted }
        ensures { RunsOnRows (RemoveIfEquals cache key wanted) self.old result self.new }
    {
        let yes = self.has_value(&key, &wanted);
        drop(wanted);
        if !yes {
            drop(key);
            return Ok(Outcome::Yes(false));
        }
        drop(self.remove(&key));
        drop(key);
        Ok(Outcome::Yes(true))
    }
}
