//! Caches that start with a list of names.

ghost use Rattle.std.specs.Prelude.{◌≡◌, ◌≤◌, [], length, None, IfSome, IfNone, IfOk, OnOk, IfErr};
ghost use Rattle.ig_caches.specs.CachesView.{plain_caches};
ghost use Rattle.ig_caches.specs.AddsName.{with_cache, IsNameFault};
ghost use Rattle.ig_caches.specs.Effect.{max_caches};
ghost use Rattle.ig_caches.specs.PlainCaches.{fresh_caches, cache_of, id_of};
ghost use Rattle.ig_caches.specs.Starts.{CanStart, IsStartFault, IsEmptyAt, IsFirst, IsNowhere};

use crate::caches::{Cache, Caches, MAX_CACHES};
use crate::fault::StartFault;
use crate::row_map::RowMap;
use ig_base::{Text, text_hash};
use ig_types::Registry;
use indexmap::IndexMap;
use std::alloc::Global;

/// The index of the first empty name.
fn first_empty(names: &[Text]) -> Option<usize>
    ensures some { IfSome result (λ at. IsFirst (IsEmptyAt names.now) at) }
    ensures none { IfNone result (IsNowhere (IsEmptyAt names.now)) }
{
    for (at, name) in names.iter().enumerate() {
        if name.as_str().is_empty() {
            return Some(at);
        }
    }
    None
}

impl Caches {
    /// Caches with these names, in this order, without rows or types.
    ///
    /// # Errors
    ///
    /// [`StartFault::TooMany`] if there are more than 1,024 names. Else [`StartFault::Empty`] for the
    /// first empty name, else [`StartFault::Taken`] for the first name whose identifier an earlier one
    /// has. [`StartFault::NoMemory`] if memory runs out.
    pub fn start(alloc: Global, names: Vec<Text>) -> Result<Caches, StartFault>
        ensures starts { OnOk result (CanStart names.items) }
        ensures fresh { IfOk result (λ caches. plain_caches caches ≡ fresh_caches names.items) }
        ensures fault { IfErr result (λ fault. IsStartFault names.items fault) }
    {
        if names.len() > MAX_CACHES {
            return Err(StartFault::TooMany);
        }
        if let Some(at) = first_empty(names.as_slice()) {
            return Err(StartFault::Empty { at });
        }
        Caches::with_names(alloc, names)
    }

    // Caches with these names, none of which is empty.
    fn with_names(alloc: Global, names: Vec<Text>) -> Result<Caches, StartFault>
        requires few { length names.items ≤ max_caches }
        requires no_empty { IsNowhere (IsEmptyAt names.items) }
        ensures starts { OnOk result (CanStart names.items) }
        ensures fresh { IfOk result (λ caches. plain_caches caches ≡ fresh_caches names.items) }
        ensures fault { IfErr result (λ fault. IsStartFault names.items fault) }
    {
        let mut caches = Caches::empty(alloc);
        for name in names {
            caches.add_name(name)?;
        }
        Ok(caches)
    }

    // No caches, and no types.
    fn empty(alloc: Global) -> Caches
        ensures { plain_caches result ≡ fresh_caches [] }
    {
        Caches {
            alloc,
            caches: IndexMap::new(alloc),
            registry: Registry::new(alloc),
            minor: 0,
        }
    }

    // Adds a cache without counting a creation.
    fn add_name(&mut self, name: Text) -> Result<(), StartFault>
        ensures ok { OnOk result (plain_caches self.new ≡ with_cache (plain_caches self.old) name) }
        ensures free { OnOk result (cache_of (plain_caches self.old).caches (id_of name) ≡ None) }
        ensures fault { IfErr result (λ fault. IsNameFault (plain_caches self.old).caches name fault) }
    {
        let at = self.caches.len();
        let id = text_hash(name.as_str());
        if self.caches.contains_key(&id) {
            drop(name);
            return Err(StartFault::Taken { at });
        }
        let rows = RowMap::new(self.alloc);
        match self.caches.insert(id, Cache { name, rows }) {
            Ok(before) => {
                drop(before);
                Ok(())
            }
            Err(failed) => {
                drop(failed);
                Err(StartFault::NoMemory)
            }
        }
    }
}
