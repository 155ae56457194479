//! All shards of some caches.

ghost use Rattle.std.specs.Prelude.{◌≡◌, ◌<◌, ◌≤◌, IfOk, OnOk, IfErr, OnErr};
ghost use Rattle.ig_caches.specs.PlainCaches.{fresh_caches};
ghost use Rattle.ig_caches.specs.Starts.{CanStart, IsStartFault};
ghost use Rattle.ig_caches.specs.IsRunnable.{IsRunnable};
ghost use Rattle.ig_caches.specs.Answered.{answered, after};

use crate::run::run_on;
use crate::shard_rows::ShardRows;
use crate::touch::Touched;
use crate::touching::touched_by;
use ig_base::{Items, NoMemory, NoRoom, Text};
use ig_caches::{Answer, Call, Exec, StartFault};
use std::alloc::Global;
use std::marker::Model;

/// Plain caches whose rows are spread over shards.
#[derive(Drop)]
pub struct Shards {
    alloc: Global,
    parts: Vec<ShardRows>,
}

impl Model for Shards {
    ghost use Rattle.std.specs.Prelude.{vec_len};
    ghost use Rattle.ig_caches.specs.PlainCaches.{PlainCaches};
    ghost use Rattle.ig_shards.specs.CodedCaches.{coded_caches};

    ghost Value = { PlainCaches };

    ghost coded = { coded_caches };

    ghost use Rattle.ig_shards.specs.Parts.{together, AreAll};
    ghost use Rattle.ig_shards.specs.PartView.{parts_of};

    ghost view = { λ s. together (parts_of s.parts.items) };

    ghost invariant = { λ s. AreAll (vec_len s.parts) (parts_of s.parts.items) };
}

impl Shards {
    /// Caches with these names, in this order, without rows or types, over as many shards.
    ///
    /// # Errors
    ///
    /// As those of `Caches::start`, in the same order.
    pub fn start(alloc: Global, names: Vec<Text>, shards: u32) -> Result<Shards, StartFault>
        requires some { 1 ≤ shards }
        requires few { shards ≤ 256 }
        ensures starts { OnOk result (CanStart names.items) }
        ensures fresh { IfOk result (λ made. made ≡ fresh_caches names.items) }
        ensures fault { IfErr result (λ fault. IsStartFault names.items fault) }
    {
        let names = Items::new(names);
        let mut parts = Vec::new(alloc);
        for number in 0..shards {
            let part = ShardRows::start(alloc, &names, number, shards)?;
            let Ok(()) = parts.push(part) else {
                return Err(StartFault::NoMemory);
            };
        }
        Ok(Shards { alloc, parts })
    }
}

impl Exec for Shards {
    ghost caches = { λ c. c };

    fn run(&mut self, call: Call) -> Result<Answer, NoRoom<Call>> {
        match touched_by(&call, self.parts.len() as u32) {
            Touched::One(shard) => {
                let at = shard as usize;
                self.parts[at].run(call)
            }
            Touched::All => run_on(self.alloc, self.parts.as_mut_slice(), call),
        }
    }
}
