//! Running calls: each goes to the rows of its cache, or to all caches.

ghost use Rattle.std.specs.Prelude.{◌≡◌, IsOk, IfSome, IfNone, IfOk, OnOk, IfErr, OnErr};
ghost use Rattle.ig_caches.specs.Effect.{effect};
ghost use Rattle.ig_caches.specs.IsRunnable.{IsRunnable};
ghost use Rattle.ig_caches.specs.RunsOnRows.{IsOnRows, RunsOnRows, TakesNoMemory, IsOnAll, IsOnRowsOf};
ghost use Rattle.ig_caches.specs.RunsOn.{RunsOn};
ghost use Rattle.ig_caches.specs.CachesView.{plain_caches};
ghost use Rattle.ig_caches.specs.Answered.{answered, after};
ghost use Rattle.ig_caches.specs.RowsAt.{rows_at, with_rows_of};

use crate::answer::{Answer, Outcome, Why};
use crate::caches::Caches;
use crate::call::Call;
use crate::exec::Exec;
use crate::row_map::RowMap;
use ig_base::NoRoom;
use std::mem;

impl Call {
    /// The identifier of the cache on whose rows the call runs, or none if it runs on all caches.
    pub fn rows_cache(&self) -> Option<i32>
        ensures some { IfSome result (λ id. IsOnRowsOf id (effect self.now)) }
        ensures none { IfNone result (IsOnAll (effect self.now)) }
    {
        match self {
            Call::Get { cache, .. } => Some(*cache),
            Call::GetAndRemove { cache, .. } => Some(*cache),
            Call::ContainsKey { cache, .. } => Some(*cache),
            Call::ClearKey { cache, .. } => Some(*cache),
            Call::RemoveKey { cache, .. } => Some(*cache),
            Call::Put { cache, .. } => Some(*cache),
            Call::PutIfAbsent { cache, .. } => Some(*cache),
            Call::GetAndPut { cache, .. } => Some(*cache),
            Call::GetAndReplace { cache, .. } => Some(*cache),
            Call::GetAndPutIfAbsent { cache, .. } => Some(*cache),
            Call::Replace { cache, .. } => Some(*cache),
            Call::ReplaceIfEquals { cache, .. } => Some(*cache),
            Call::RemoveIfEquals { cache, .. } => Some(*cache),
            Call::GetAll { cache, .. } => Some(*cache),
            Call::ContainsKeys { cache, .. } => Some(*cache),
            Call::ClearKeys { cache, .. } => Some(*cache),
            Call::RemoveKeys { cache, .. } => Some(*cache),
            Call::PutAll { cache, .. } => Some(*cache),
            Call::Clear { cache } => Some(*cache),
            Call::RemoveAll { cache } => Some(*cache),
            Call::Scan { cache } => Some(*cache),
            Call::Size { cache, .. } => Some(*cache),
            _ => None,
        }
    }
}

impl RowMap {
    /// Runs a call on the rows. `ContainsKey` and `Size` take no memory.
    ///
    /// # Errors
    ///
    /// [`NoRoom`] with the call if memory runs out; nothing has changed.
    pub fn run(&mut self, call: Call) -> Result<Outcome, NoRoom<Call>>
        requires on_rows { IsOnRows call }
        requires runnable { IsRunnable call }
        ensures runs { RunsOnRows call self.old result self.new }
        ensures sure { TakesNoMemory call → IsOk result }
    {
        match call {
            Call::Get { cache, key } => self.run_get(cache, key),
            Call::GetAndRemove { cache, key } => self.run_get_and_remove(cache, key),
            Call::ContainsKey { cache, key } => self.run_contains(cache, key),
            Call::ClearKey { cache, key } => self.run_clear_key(cache, key),
            Call::RemoveKey { cache, key } => self.run_remove(cache, key),
            Call::Put { cache, key, value } => self.run_put(cache, key, value),
            Call::PutIfAbsent { cache, key, value } => self.run_put_if_absent(cache, key, value),
            Call::GetAndPut { cache, key, value } => self.run_get_and_put(cache, key, value),
            Call::GetAndReplace { cache, key, value } => self.run_get_and_replace(
                cache, key, value,
            ),
            Call::GetAndPutIfAbsent { cache, key, value } => {
                self.run_get_and_put_if_absent(cache, key, value)
            }
            Call::Replace { cache, key, value } => self.run_replace(cache, key, value),
            Call::ReplaceIfEquals {
                cache,
                key,
                wanted,
                value,
            } => self.run_replace_if(cache, key, wanted, value),
            Call::RemoveIfEquals { cache, key, wanted } => self.run_remove_if(cache, key, wanted),
            Call::GetAll { cache, keys } => self.run_get_all(cache, keys),
            Call::ContainsKeys { cache, keys } => self.run_contains_keys(cache, keys),
            Call::ClearKeys { cache, keys } => self.run_clear_keys(cache, keys),
            Call::RemoveKeys { cache, keys } => self.run_remove_keys(cache, keys),
            Call::PutAll { cache, pairs } => self.run_put_all(cache, pairs),
            Call::Clear { cache } => self.run_clear(cache),
            Call::RemoveAll { cache } => self.run_remove_all(cache),
            Call::Scan { cache } => self.run_scan(cache),
            Call::Size { cache, modes } => self.run_size(cache, modes),
            call => Err(NoRoom { back: call }),
        }
    }
}

impl Caches {
    fn run_on_all(&mut self, call: Call) -> Result<Answer, NoRoom<Call>>
        requires on_all { IsOnAll (effect call) }
        requires runnable { IsRunnable call }
        ensures { RunsOn call (plain_caches self.old) result (plain_caches self.new) }
    {
        match call {
            Call::Names => self.names(),
            Call::Create { name } => self.create(name),
            Call::GetOrCreate { name } => self.get_or_create(name),
            Call::Destroy { cache } => self.destroy(cache),
            Call::TypeName { platform, type_id } => self.type_name(platform, type_id),
            Call::SetTypeName {
                platform,
                type_id,
                name,
            } => self.set_type_name(platform, type_id, name),
            Call::TypeOf { type_id } => self.type_of(type_id),
            Call::PutType { meta } => self.put_type(meta),
            Call::Affinity { caches } => self.affinity(caches),
            call => Err(NoRoom { back: call }),
        }
    }

    fn run_on_rows(&mut self, id: i32, call: Call) -> Result<Answer, NoRoom<Call>>
        requires on_rows { IsOnRowsOf id (effect call) }
        requires runnable { IsRunnable call }
        ensures runs { RunsOn call (plain_caches self.old) result (plain_caches self.new) }
        ensures sure { TakesNoMemory call → IsOk result }
    {
        let minor = self.minor;
        let Some(cache) = self.caches.get_mut(&id) else {
            drop(call);
            return Ok(Answer {
                minor,
                outcome: Outcome::Refused(Why::NoCache),
            });
        };
        match cache.rows.run(call) {
            Ok(outcome) => Ok(Answer { minor, outcome }),
            Err(e) => Err(e),
        }
    }
}

impl Caches {
    /// Swaps the rows of the cache with these. Without such a cache it does nothing. Takes no memory.
    pub fn swap_rows(&mut self, cache: i32, rows: &mut RowMap)
        ensures taken { rows.new ≡ rows_at (plain_caches self.old).caches cache rows.old }
        ensures given { plain_caches self.new ≡ with_rows_of (plain_caches self.old) cache rows.old }
    {
        if let Some(standing) = self.caches.get_mut(&cache) {
            mem::swap(&mut standing.rows, rows);
        }
    }
}

impl Exec for Caches {
    ghost caches = { plain_caches };

    fn run(&mut self, call: Call) -> Result<Answer, NoRoom<Call>>
        requires { IsRunnable call }
        ensures answer { IfOk result (λ answer. answer ≡ answered (plain_caches self.old) call) }
        ensures after { OnOk result (plain_caches self.new ≡ after (plain_caches self.old) call) }
        ensures back { IfErr result (λ e. e.back ≡ call) }
        ensures unchanged { OnErr result (plain_caches self.new ≡ plain_caches self.old) }
        ensures sure { TakesNoMemory call → IsOk result }
    {
        match call.rows_cache() {
            Some(id) => self.run_on_rows(id, call),
            None => self.run_on_all(call),
        }
    }
}
