//! Running calls on the shards that they touch.

ghost use Rattle.std.specs.Prelude.{◌≡◌, ℕ, IfSome, IfNone, IsOk};
ghost use Rattle.ig_caches.specs.IsRunnable.{IsRunnable};
ghost use Rattle.ig_caches.specs.RunsOn.{RunsOn};
ghost use Rattle.ig_caches.specs.RunsOnRows.{IsOnRowsOf};
ghost use Rattle.ig_caches.specs.Effect.{effect};
ghost use Rattle.ig_shards.specs.Marks.{IsOnSeveral};
ghost use Rattle.ig_shards.specs.Parts.{together, places};
ghost use Rattle.ig_shards.specs.PartView.{part_of, parts_of};
ghost use Rattle.ig_shards.specs.RunsOnParts.{AreTouched};

use crate::shard_rows::ShardRows;
use crate::whole;
use ig_base::NoRoom;
use ig_caches::{Answer, Call, Exec};
use std::alloc::Global;

/// The identifier of the cache on several of whose rows, or on all of them, the call runs.
fn several(call: &Call) -> Option<i32>
    ensures some { IfSome result (λ id. IsOnSeveral call.now × IsOnRowsOf id (effect call.now)) }
    ensures none { IfNone result (IsOnSeveral call.now → ⊥) }
{
    match call {
        Call::GetAll { cache, .. } => Some(*cache),
        Call::ContainsKeys { cache, .. } => Some(*cache),
        Call::ClearKeys { cache, .. } => Some(*cache),
        Call::RemoveKeys { cache, .. } => Some(*cache),
        Call::PutAll { cache, .. } => Some(*cache),
        Call::Clear { cache } => Some(*cache),
        Call::RemoveAll { cache } => Some(*cache),
        Call::Scan { cache } => Some(*cache),
        Call::Size { cache, .. } => Some(*cache),
        _ => None,
    }
}

impl ShardRows {
    /// Runs a call on this shard alone.
    ///
    /// # Errors
    ///
    /// [`NoRoom`] with the call if memory runs out; nothing has changed.
    pub(crate) fn run(&mut self, call: Call) -> Result<Answer, NoRoom<Call>>
        requires { IsRunnable call }
        ensures runs { RunsOn call (part_of self.old).caches result (part_of self.new).caches }
        ensures number { self.new.number ≡ self.old.number }
        ensures shards { self.new.shards ≡ self.old.shards }
    {
        self.caches.run(call)
    }
}

/// Runs a call on the shards that it touches: the one, or all in ascending order. It answers and leaves what
/// plain caches do that have the rows of these shards together, the names, and the types where the first
/// shard is among them. All memory is taken before the first change.
///
/// # Errors
///
/// [`NoRoom`] with the call if memory runs out; nothing has changed.
pub fn run_on(alloc: Global, parts: &mut [ShardRows], call: Call) -> Result<Answer, NoRoom<Call>>
    requires runnable { IsRunnable call }
    requires touched { (shards : ℕ) × AreTouched shards call (parts_of parts.old) }
    ensures runs { RunsOn call (together (parts_of parts.old)) result (together (parts_of parts.new)) }
    ensures touched { (shards : ℕ) → AreTouched shards call (parts_of parts.old)
        → AreTouched shards call (parts_of parts.new) }
{
    match call {
        Call::Names => parts[0].run(Call::Names),
        Call::Create { name } => whole::create(alloc, parts, name),
        Call::GetOrCreate { name } => whole::get_or_create(alloc, parts, name),
        Call::Destroy { cache } => whole::destroy(parts, cache),
        call => match several(&call) {
            Some(cache) => whole::run_on_rows(alloc, parts, cache, call),
            None => parts[0].run(call),
        },
    }
}
