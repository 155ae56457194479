//! Calls on the types that are registered.

ghost use Rattle.std.specs.Prelude.{◌≡◌};
ghost use Rattle.std.specs.List.{list_all, list_any};
ghost use Rattle.ig_types.specs.IsInOrder.{IsInOrder};
ghost use Rattle.ig_caches.specs.declared.call.Call.TheVariants.{TypeName, SetTypeName, TypeOf, PutType, Affinity};
ghost use Rattle.ig_caches.specs.PlainCaches.{has_id};
ghost use Rattle.ig_caches.specs.RunsOn.{RunsOn};
ghost use Rattle.ig_caches.specs.CachesView.{plain_caches};

use crate::answer::{Answer, Outcome, Why};
use crate::caches::{Caches, copy_text};
use crate::call::Call;
use ig_base::{Items, NoRoom, Text};
use ig_types::{JoinFault, TypeMeta};

impl Caches {
    pub(crate) fn type_name(&self, platform: u8, type_id: i32) -> Result<Answer, NoRoom<Call>>
        ensures { RunsOn (TypeName platform type_id) (plain_caches self.now) result (plain_caches self.now) }
    {
        let Some(name) = self.registry.name(platform, type_id) else {
            return Ok(self.answer(Outcome::Refused(Why::NoTypeName)));
        };
        match copy_text(self.alloc, name) {
            Ok(name) => Ok(self.answer(Outcome::Name(name))),
            Err(_) => Err(NoRoom {
                back: Call::TypeName { platform, type_id },
            }),
        }
    }

    pub(crate) fn type_of(&self, type_id: i32) -> Result<Answer, NoRoom<Call>>
        ensures { RunsOn (TypeOf type_id) (plain_caches self.now) result (plain_caches self.now) }
    {
        let Some(meta) = self.registry.get(type_id) else {
            return Ok(self.answer(Outcome::Meta(None)));
        };
        match meta.copy(self.alloc) {
            Ok(meta) => Ok(self.answer(Outcome::Meta(Some(meta)))),
            Err(_) => Err(NoRoom {
                back: Call::TypeOf { type_id },
            }),
        }
    }

    pub(crate) fn set_type_name(
        &mut self,
        platform: u8,
        type_id: i32,
        name: Text,
    ) -> Result<Answer, NoRoom<Call>>
        ensures { RunsOn (SetTypeName platform type_id name) (plain_caches self.old) result (plain_caches self.new) }
    {
        match self.registry.set_name(platform, type_id, name) {
            Ok(yes) => Ok(self.answer(Outcome::Yes(yes))),
            Err(NoRoom { back }) => Err(NoRoom {
                back: Call::SetTypeName {
                    platform,
                    type_id,
                    name: back,
                },
            }),
        }
    }

    pub(crate) fn put_type(&mut self, meta: TypeMeta) -> Result<Answer, NoRoom<Call>>
        requires { IsInOrder meta }
        ensures { RunsOn (PutType meta) (plain_caches self.old) result (plain_caches self.new) }
    {
        match self.registry.put(&meta) {
            Ok(()) => {
                drop(meta);
                Ok(self.answer(Outcome::Done))
            }
            Err(JoinFault::Clash(clash)) => {
                drop(meta);
                Ok(self.answer(Outcome::Refused(Why::Clash(clash))))
            }
            Err(JoinFault::NoMemory) => Err(NoRoom {
                back: Call::PutType { meta },
            }),
        }
    }

    /// Whether a cache has the identifier. Takes no memory.
    pub fn has(&self, id: i32) -> bool
        ensures { result ≡ list_any (has_id id) (plain_caches self.now).caches }
    {
        self.caches.contains_key(&id)
    }

    /// Whether each identifier is that of a cache.
    fn has_all(&self, ids: &[i32]) -> bool
        ensures { result ≡ list_all (λ id. list_any (has_id id) (plain_caches self.now).caches) ids.now }
    {
        for id in ids {
            if !self.has(*id) {
                return false;
            }
        }
        true
    }

    pub(crate) fn affinity(&self, caches: Items<i32>) -> Result<Answer, NoRoom<Call>>
        ensures { RunsOn (Affinity caches) (plain_caches self.now) result (plain_caches self.now) }
    {
        if !self.has_all(caches.as_slice()) {
            drop(caches);
            return Ok(self.answer(Outcome::Refused(Why::NoCache)));
        }
        match self.registry.affinity_pairs(self.alloc) {
            Ok(keys) => {
                drop(caches);
                Ok(self.answer(Outcome::Keys(keys)))
            }
            Err(_) => Err(NoRoom {
                back: Call::Affinity { caches },
            }),
        }
    }
}
