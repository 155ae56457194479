//! Caches in the order of their creation, and the calls on all of them.

ghost use Rattle.std.specs.Prelude.{◌≡◌, ℕ, List, None, map, if◌then◌else◌, IsOk, IsTrue, IsFalse, IfOk, IfErr, OnOk, OnErr};
ghost use Rattle.ig_caches.specs.declared.call.Call.TheVariants.{Names, Create, GetOrCreate, Destroy};
ghost use Rattle.ig_types.specs.Join.{same_name};
ghost use Rattle.ig_caches.specs.declared.answer.Outcome.TheVariants as outcome;
ghost use Rattle.ig_caches.specs.declared.answer.Why.TheVariants as why;
ghost use Rattle.ig_caches.specs.Effect.{created, next_count};
ghost use Rattle.ig_caches.specs.PlainCaches.{cache_of, id_of};
ghost use Rattle.indexmap.specs.IndexMap.{values};

use crate::answer::{Answer, Outcome, Why};
use crate::call::Call;
use crate::row_map::RowMap;
use ig_base::{Items, NoMemory, NoRoom, Text, text_hash};
use ig_types::Registry;
use indexmap::IndexMap;
use std::alloc::{AllocFailed, Global};

/// The most caches that may stand.
pub(crate) const MAX_CACHES: usize = 1024;

/// A cache.
#[derive(Drop)]
pub(crate) struct Cache {
    pub(crate) name: Text,
    pub(crate) rows: RowMap,
}

/// Plain caches in memory. A cache is found by its identifier at once, however many stand.
#[derive(Drop)]
pub struct Caches {
    pub(crate) alloc: Global,
    // By identifier, in the order of creation.
    pub(crate) caches: IndexMap<i32, Cache>,
    pub(crate) registry: Registry,
    // How often caches were created and destroyed.
    pub(crate) minor: i32,
}

/// A copy of the text.
pub fn copy_text(alloc: Global, text: &Text) -> Result<Text, NoMemory>
    ensures { IfOk result (λ copy. copy ≡ text.now) }
{
    Ok(Text::new(String::from_str(alloc, text.as_str())?))
}

/// Copies of the names of the caches, in order.
fn copy_names(alloc: Global, caches: &IndexMap<i32, Cache>) -> Result<Vec<Text>, NoMemory>
    ensures { IfOk result (λ names. names.items ≡ map (λ kept. kept.name) (values caches.now)) }
{
    let mut names = Vec::with_capacity(alloc, caches.len())?;
    for cache in caches.values() {
        names.push(copy_text(alloc, &cache.name)?)?;
    }
    Ok(names)
}

/// The count after one more creation or destruction, if that may be counted.
fn next_count(count: i32) -> Option<i32>
    ensures { result ≡ next_count count }
{
    if count == i32::MAX {
        return None;
    }
    Some(count + 1)
}

/// Whether the cache has this name.
fn is_named(cache: &Cache, name: &Text) -> bool
    ensures { result ≡ same_name cache.now.name name.now }
{
    cache.name.as_str() == name.as_str()
}

/// What a get or create leads to if a cache has the identifier, by whether it has the name too.
fn outcome_of_standing(same: bool) -> Outcome
    ensures { result ≡ (if same then outcome.Done else outcome.Refused why.CacheExists) }
{
    if same {
        return Outcome::Done;
    }
    Outcome::Refused(Why::CacheExists)
}

impl Caches {
    ghost use Rattle.ig_caches.specs.RunsOn.{RunsOn};
    ghost use Rattle.ig_caches.specs.CachesView.{plain_caches, HasRoom};

    /// Removes a cache with its rows, as the call `Destroy` does. Takes no memory, so it never fails.
    pub fn destroy(&mut self, cache: i32) -> Result<Answer, NoRoom<Call>>
        ensures runs { RunsOn (Destroy cache) (plain_caches self.old) result (plain_caches self.new) }
        ensures sure { IsOk result }
    {
        let minor = self.minor;
        if !self.caches.contains_key(&cache) {
            return Ok(self.answer(Outcome::Refused(Why::NoCache)));
        }
        let Some(minor) = next_count(minor) else {
            return Ok(self.answer(Outcome::Refused(Why::TooManyChanges)));
        };
        drop(self.caches.shift_remove(&cache));
        self.minor = minor;
        Ok(self.answer(Outcome::Done))
    }

    /// Takes the memory for one more cache.
    pub fn make_room(&mut self) -> Result<(), NoMemory>
        ensures ok { OnOk result (HasRoom self.new) }
        ensures same { plain_caches self.new ≡ plain_caches self.old }
    {
        self.caches.reserve(1)?;
        Ok(())
    }

    /// Whether one more cache may stand, and its creation may be counted. Takes no memory.
    pub fn can_add(&self) -> bool
        ensures yes { IsTrue result → (name : List ℕ) → (created (plain_caches self.now) name).0 ≡ outcome.Done }
        ensures no { IsFalse result → (name : List ℕ) → (created (plain_caches self.now) name).1 ≡ plain_caches self.now }
    {
        if self.caches.len() >= MAX_CACHES {
            return false;
        }
        next_count(self.minor).is_some()
    }

    /// Adds a cache whose identifier isn't taken. Takes no memory where there is room for it.
    pub fn add(&mut self, id: i32, name: Text) -> Result<Outcome, NoRoom<Text>>
        requires its_id { id ≡ id_of name }
        requires absent { cache_of (plain_caches self.old).caches id ≡ None }
        ensures sure { HasRoom self.old → IsOk result }
        ensures ok { IfOk result (λ outcome.
            (outcome, plain_caches self.new) ≡ created (plain_caches self.old) name) }
        ensures back { IfErr result (λ e. e.back ≡ name) }
        ensures err { OnErr result (plain_caches self.new ≡ plain_caches self.old) }
    {
        let minor = self.minor;
        if self.caches.len() >= MAX_CACHES {
            drop(name);
            return Ok(Outcome::Refused(Why::TooManyCaches));
        }
        let Some(minor) = next_count(minor) else {
            drop(name);
            return Ok(Outcome::Refused(Why::TooManyChanges));
        };
        let cache = Cache {
            name,
            rows: RowMap::new(self.alloc),
        };
        match self.caches.insert(id, cache) {
            Ok(before) => {
                drop(before);
                self.minor = minor;
                Ok(Outcome::Done)
            }
            Err(
                AllocFailed {
                    value: (_, Cache { name, rows }),
                },
            ) => {
                drop(rows);
                Err(NoRoom { back: name })
            }
        }
    }

    pub(crate) fn create(&mut self, name: Text) -> Result<Answer, NoRoom<Call>>
        ensures { RunsOn (Create name) (plain_caches self.old) result (plain_caches self.new) }
    {
        let id = text_hash(name.as_str());
        if self.caches.contains_key(&id) {
            drop(name);
            return Ok(self.answer(Outcome::Refused(Why::CacheExists)));
        }
        match self.add(id, name) {
            Ok(outcome) => Ok(self.answer(outcome)),
            Err(NoRoom { back }) => Err(NoRoom {
                back: Call::Create { name: back },
            }),
        }
    }

    pub(crate) fn get_or_create(&mut self, name: Text) -> Result<Answer, NoRoom<Call>>
        ensures { RunsOn (GetOrCreate name) (plain_caches self.old) result (plain_caches self.new) }
    {
        let id = text_hash(name.as_str());
        if let Some(cache) = self.caches.get(&id) {
            let same = is_named(cache, &name);
            drop(name);
            return Ok(self.answer(outcome_of_standing(same)));
        }
        match self.add(id, name) {
            Ok(outcome) => Ok(self.answer(outcome)),
            Err(NoRoom { back }) => Err(NoRoom {
                back: Call::GetOrCreate { name: back },
            }),
        }
    }

    pub(crate) fn names(&self) -> Result<Answer, NoRoom<Call>>
        ensures { RunsOn Names (plain_caches self.now) result (plain_caches self.now) }
    {
        match copy_names(self.alloc, &self.caches) {
            Ok(names) => Ok(self.answer(Outcome::Names(Items::new(names)))),
            Err(_) => Err(NoRoom { back: Call::Names }),
        }
    }

    /// The outcome, with how often caches were created and destroyed.
    pub fn answer(&self, outcome: Outcome) -> Answer
        ensures minor { result.minor ≡ self.now.minor }
        ensures outcome { result.outcome ≡ outcome }
    {
        Answer {
            minor: self.minor,
            outcome,
        }
    }
}
