//! A registry of descriptions and of names: the join of all descriptions of each type, and the name of
//! each type on each platform.

ghost use Rattle.std.specs.Prelude.{◌≡◌, ◌++◌, ◌∷◌, [], ◌↔◌, ℤ, List, Contains, Some, option_copied};
ghost use Rattle.std.specs.Prelude.{IsTrue, IfOk, IfErr, IfSome, OnOk, OnErr};
ghost use Rattle.std.specs.FinMap as map;
ghost use Rattle.std.specs.List.Sorted.{IsStrictlySortedBy};
ghost use Rattle.ig_types.specs.declared.meta.TypeMeta.{TypeMeta};
ghost use Rattle.ig_types.specs.IsInOrder.{IsInOrder};
ghost use Rattle.ig_types.specs.Clash.{IfClash};
ghost use Rattle.ig_types.specs.Join.{IsOutcome};
ghost use Rattle.ig_types.specs.Registered.{HoldsJoinsOf, IsPutClash, empty_registry, put_clash};
ghost use Rattle.ig_types.specs.Registered.{type_after_put, registry_after_put, admits_name, registry_after_name};
ghost use Rattle.ig_types.specs.AffinityPair.{IsAffinityPair, affinity_pairs_of, by_type};

use crate::affinity::affinity_pair;
use crate::clash::JoinFault;
use crate::joining::{is_below, join};
use crate::meta::TypeMeta;
use ig_base::{Items, NoMemory, NoRoom, Text};
use std::alloc::{AllocFailed, Global};
use std::collections::BTreeMap;
use std::marker::Model;

/// The join of all descriptions of each type by type identifier, and names by platform and type
/// identifier.
#[derive(Drop)]
pub struct Registry {
    alloc: Global,
    types: BTreeMap<i32, TypeMeta>,
    names: BTreeMap<(u8, i32), Text>,
}

impl Model for Registry {
    ghost use Rattle.std.specs.FinMap as map;
    ghost use Rattle.ig_types.specs.Registered.{Registered, IsWellFormed};
    ghost use Rattle.ig_types.specs.Coded.{coded_registered};

    ghost Value = { Registered };

    ghost coded = { coded_registered };

    ghost view = { λ r. record {
      types = map.from_entries r.types.entries;
      names = map.from_entries r.names.entries;
    } };

    ghost invariant = { λ r. IsWellFormed (record {
      types = map.from_entries r.types.entries;
      names = map.from_entries r.names.entries;
    }) };
}

impl Registry {
    /// An empty registry. It takes no memory.
    pub fn new(alloc: Global) -> Registry
        ensures empty { result ≡ empty_registry }
        ensures joins { HoldsJoinsOf result [] }
    {
        Registry {
            alloc,
            types: BTreeMap::new(alloc),
            names: BTreeMap::new(alloc),
        }
    }

    /// Joins the description to the one that is registered under its identifier, or registers it where
    /// there is none.
    ///
    /// # Errors
    ///
    /// [`JoinFault::Clash`] exactly if the two descriptions clash, with the registered one first, and
    /// [`JoinFault::NoMemory`] if memory runs out. Both leave the registry unchanged.
    pub fn put(&mut self, meta: &TypeMeta) -> Result<(), JoinFault>
        requires { IsInOrder meta.now }

        // Under each identifier the registry holds the join of all descriptions that were put.
        ensures joins { (ms : List TypeMeta) →
            HoldsJoinsOf self.old ms → OnOk result (HoldsJoinsOf self.new (ms ++ meta.now ∷ [])) }

        // Refused exactly if the description clashes with the registered one.
        ensures outcome { IsOutcome result (put_clash self.old meta.now) tt }
        ensures clash { IfErr result (λ fault. IfClash fault (IsPutClash self.old meta.now)) }

        ensures ok { OnOk result (self.new ≡ registry_after_put self.old meta.now) }
        ensures err { OnErr result (self.new ≡ self.old) }
    {
        let type_id = meta.type_id;
        if let Some(known) = self.get(type_id)
            && is_below(meta, known)
        {
            return Ok(());
        }
        let joined = self.joined(meta)?;
        self.types.insert(type_id, joined)?;
        Ok(())
    }

    /// The description that a put registers.
    fn joined(&self, meta: &TypeMeta) -> Result<TypeMeta, JoinFault>
        requires { IsInOrder meta.now }
        ensures outcome { IsOutcome result (put_clash self.now meta.now) (type_after_put self.now meta.now) }
        ensures clash { IfErr result (λ fault. IfClash fault (IsPutClash self.now meta.now)) }
    {
        match self.get(meta.type_id) {
            Some(known) => join(self.alloc, known, meta),
            None => Ok(meta.copy(self.alloc)?),
        }
    }

    /// The description that is registered under the identifier, if there is one.
    pub fn get(&self, type_id: i32) -> Option<&TypeMeta>
        ensures found { option_copied result ≡ map.get self.now.types type_id }
        ensures in_order { IfSome result (λ type. (type.now.type_id ≡ type_id) × IsInOrder type.now) }
    {
        self.types.get(&type_id)
    }

    /// Sets the name of a type on a platform if it has none there, and answers whether this is its name
    /// then. A name that is set never changes.
    ///
    /// # Errors
    ///
    /// [`NoRoom`] with the name if memory runs out; the registry is unchanged.
    pub fn set_name(&mut self, platform: u8, type_id: i32, name: Text) -> Result<bool, NoRoom<Text>>
        // No exactly if another name is set.
        ensures answer { IfOk result (λ yes. yes ≡ admits_name self.old (platform, type_id) name) }
        ensures is_set { IfOk result (λ yes.
            IsTrue yes ↔ (map.get self.new.names (platform, type_id) ≡ Some name)) }

        ensures ok { OnOk result (self.new ≡ registry_after_name self.old (platform, type_id) name) }
        ensures back { IfErr result (λ room. room.back ≡ name) }
        ensures err { OnErr result (self.new ≡ self.old) }
    {
        if let Some(present) = self.name(platform, type_id) {
            return Ok(present.as_str() == name.as_str());
        }
        match self.names.insert((platform, type_id), name) {
            Ok(_) => Ok(true),
            Err(AllocFailed { value: (_, name) }) => Err(NoRoom { back: name }),
        }
    }

    /// The name of a type on a platform, if one is set.
    pub fn name(&self, platform: u8, type_id: i32) -> Option<&Text>
        ensures { option_copied result ≡ map.get self.now.names (platform, type_id) }
    {
        self.names.get(&(platform, type_id))
    }

    /// For each type whose affinity key is the name of one of its fields: the type's identifier and the
    /// field's identifier, by ascending type identifier.
    ///
    /// # Errors
    ///
    /// [`NoMemory`] if there is no memory for the list.
    pub fn affinity_pairs(&self, alloc: Global) -> Result<Items<(i32, i32)>, NoMemory>
        ensures ascending { IfOk result (IsStrictlySortedBy by_type) }
        ensures exactly { IfOk result (λ pairs. (type_id field_id : ℤ) →
            Contains pairs (type_id, field_id) ↔ IsAffinityPair self.now type_id field_id) }
        ensures pairs { IfOk result (λ pairs. pairs ≡ affinity_pairs_of self.now) }
    {
        let mut pairs = Vec::new(alloc);
        for meta in self.types.values() {
            if let Some(pair) = affinity_pair(meta) {
                pairs.push(pair)?;
            }
        }
        Ok(Items::new(pairs))
    }
}
