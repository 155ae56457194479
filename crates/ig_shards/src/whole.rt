//! Calls that need all shards.

ghost use Rattle.std.specs.Prelude.{◌≡◌, ◌<◌, ℕ, List, None, length, All, IfOk, OnOk, IfErr, OnErr};
ghost use Rattle.std.specs.FinMap as finite;
ghost use Rattle.ig_caches.specs.declared.call.Call.TheVariants.{Create, GetOrCreate, Destroy};
ghost use Rattle.ig_caches.specs.declared.answer.Outcome.TheVariants as outcome;
ghost use Rattle.ig_caches.specs.IsRunnable.{IsRunnable};
ghost use Rattle.ig_caches.specs.Effect.{effect, created};
ghost use Rattle.ig_caches.specs.PlainCaches.{cache_of, id_of};
ghost use Rattle.ig_caches.specs.CachesView.{HasRoom};
ghost use Rattle.ig_caches.specs.RunsOn.{RunsOn};
ghost use Rattle.ig_caches.specs.RunsOnRows.{IsOnRowsOf};
ghost use Rattle.ig_shards.specs.Marks.{IsOnSeveral};
ghost use Rattle.ig_shards.specs.Parts.{AreAll, together};
ghost use Rattle.ig_shards.specs.PartView.{parts_of};
ghost use Rattle.ig_shards.specs.RowsOfParts.{rows_or, with_rows_in_parts, created_in_parts, destroyed_in_parts};

use crate::shard_rows::ShardRows;
use crate::spread_rows::SpreadRows;
use ig_base::{NoMemory, NoRoom, Text, text_hash};
use ig_caches::{Answer, Call, Outcome, RowMap, Why, copy_text};
use std::alloc::Global;

/// Empty rows, as many.
fn no_rows(alloc: Global, count: usize) -> Result<Vec<RowMap>, NoMemory>
    ensures count { IfOk result (λ rows. length rows.items ≡ count) }
    ensures empty { IfOk result (λ rows. All (λ r. r ≡ finite.empty) rows.items) }
{
    let mut rows = Vec::with_capacity(alloc, count)?;
    while rows.len() < count {
        rows.push(RowMap::new(alloc))?;
    }
    Ok(rows)
}

/// Swaps the rows that the cache has in each shard with these.
fn swap_rows(parts: &mut [ShardRows], cache: i32, rows: &mut [RowMap])
    requires { length rows.old ≡ length parts.old }
    ensures taken { rows.new ≡ rows_or (parts_of parts.old) cache rows.old }
    ensures given { parts_of parts.new ≡ with_rows_in_parts (parts_of parts.old) cache rows.old }
{
    for at in 0..parts.len() {
        parts[at].caches.swap_rows(cache, &mut rows[at]);
    }
}

/// Runs a call on several rows of the cache, or on all of them: takes the rows out of the shards, runs it on
/// them, and puts them back.
pub(crate) fn run_on_rows(
    alloc: Global,
    parts: &mut [ShardRows],
    cache: i32,
    call: Call,
) -> Result<Answer, NoRoom<Call>>
    requires several { IsOnSeveral call }
    requires its_cache { IsOnRowsOf cache (effect call) }
    requires runnable { IsRunnable call }
    requires all { (shards : ℕ) × AreAll shards (parts_of parts.old) }
    ensures runs { RunsOn call (together (parts_of parts.old)) result (together (parts_of parts.new)) }
    ensures all { (shards : ℕ) → AreAll shards (parts_of parts.old) → AreAll shards (parts_of parts.new) }
{
    if !parts[0].caches.has(cache) {
        drop(call);
        return Ok(parts[0].caches.answer(Outcome::Refused(Why::NoCache)));
    }
    let Ok(mut shards) = no_rows(alloc, parts.len()) else {
        return Err(NoRoom { back: call });
    };
    swap_rows(parts, cache, shards.as_mut_slice());
    let mut rows = SpreadRows { alloc, shards };
    let ran = rows.run(call);
    let SpreadRows { mut shards, .. } = rows;
    swap_rows(parts, cache, shards.as_mut_slice());
    drop(shards);
    match ran {
        Ok(outcome) => Ok(parts[0].caches.answer(outcome)),
        Err(e) => Err(e),
    }
}

/// Takes the memory for one more cache in each shard.
fn make_room(parts: &mut [ShardRows]) -> Result<(), NoMemory>
    ensures ok { OnOk result (All (λ part. HasRoom part.caches) parts.new) }
    ensures same { parts_of parts.new ≡ parts_of parts.old }
{
    for part in parts.iter_mut() {
        part.caches.make_room()?;
    }
    Ok(())
}

/// Copies of the name, as many.
fn name_copies(alloc: Global, name: &Text, count: usize) -> Result<Vec<Text>, NoMemory>
    ensures count { IfOk result (λ names. length names.items ≡ count) }
    ensures same { IfOk result (λ names. All (λ n. n ≡ name.now) names.items) }
{
    let mut names = Vec::with_capacity(alloc, count)?;
    while names.len() < count {
        names.push(copy_text(alloc, name)?)?;
    }
    Ok(names)
}

/// Adds a cache to each shard. There is memory for it.
fn add_to_all(parts: &mut [ShardRows], id: i32, names: Vec<Text>)
    requires count { length names.items ≡ length parts.old }
    requires its_id { All (λ name. id ≡ id_of name) names.items }
    requires absent { All (λ part. cache_of part.caches.caches id ≡ None) (parts_of parts.old) }
    requires room { All (λ part. HasRoom part.caches) parts.old }
    ensures { (name : List ℕ) → All (λ n. n ≡ name) names.items
        → parts_of parts.new ≡ created_in_parts (parts_of parts.old) name }
{
    let mut at = 0;
    for name in names {
        drop(parts[at].caches.add(id, name));
        at += 1;
    }
}

/// Creates a cache whose identifier isn't taken, where one more may stand and be counted.
fn create_in_all(
    alloc: Global,
    parts: &mut [ShardRows],
    id: i32,
    name: Text,
) -> Result<Answer, NoRoom<Text>>
    requires its_id { id ≡ id_of name }
    requires absent { All (λ part. cache_of part.caches.caches id ≡ None) (parts_of parts.old) }
    requires some { 0 < length parts.old }
    ensures back { IfErr result (λ e. e.back ≡ name) }
    ensures err { OnErr result (parts_of parts.new ≡ parts_of parts.old) }
    ensures ok { OnOk result (parts_of parts.new ≡ created_in_parts (parts_of parts.old) name) }
    ensures answer { IfOk result (λ answer. (answer.outcome ≡ outcome.Done)
        × (answer.minor ≡ (together (parts_of parts.new)).minor)) }
{
    let Ok(names) = name_copies(alloc, &name, parts.len()) else {
        return Err(NoRoom { back: name });
    };
    if make_room(parts).is_err() {
        drop(names);
        return Err(NoRoom { back: name });
    }
    drop(name);
    add_to_all(parts, id, names);
    Ok(parts[0].caches.answer(Outcome::Done))
}

pub(crate) fn create(
    alloc: Global,
    parts: &mut [ShardRows],
    name: Text,
) -> Result<Answer, NoRoom<Call>>
    requires runnable { IsRunnable (Create name) }
    requires all { (shards : ℕ) × AreAll shards (parts_of parts.old) }
    ensures runs { RunsOn (Create name) (together (parts_of parts.old)) result (together (parts_of parts.new)) }
    ensures all { (shards : ℕ) → AreAll shards (parts_of parts.old) → AreAll shards (parts_of parts.new) }
{
    let id = text_hash(name.as_str());
    if parts[0].caches.has(id) {
        return parts[0].run(Call::Create { name });
    }
    if !parts[0].caches.can_add() {
        return parts[0].run(Call::Create { name });
    }
    match create_in_all(alloc, parts, id, name) {
        Ok(answer) => Ok(answer),
        Err(NoRoom { back }) => Err(NoRoom {
            back: Call::Create { name: back },
        }),
    }
}

pub(crate) fn get_or_create(
    alloc: Global,
    parts: &mut [ShardRows],
    name: Text,
) -> Result<Answer, NoRoom<Call>>
    requires runnable { IsRunnable (GetOrCreate name) }
    requires all { (shards : ℕ) × AreAll shards (parts_of parts.old) }
    ensures runs { RunsOn (GetOrCreate name) (together (parts_of parts.old)) result (together (parts_of parts.new)) }
    ensures all { (shards : ℕ) → AreAll shards (parts_of parts.old) → AreAll shards (parts_of parts.new) }
{
    let id = text_hash(name.as_str());
    if parts[0].caches.has(id) {
        return parts[0].run(Call::GetOrCreate { name });
    }
    if !parts[0].caches.can_add() {
        return parts[0].run(Call::GetOrCreate { name });
    }
    match create_in_all(alloc, parts, id, name) {
        Ok(answer) => Ok(answer),
        Err(NoRoom { back }) => Err(NoRoom {
            back: Call::GetOrCreate { name: back },
        }),
    }
}

/// Destroys the cache in each of the shards. Takes no memory.
fn destroy_in_each(parts: &mut [ShardRows], cache: i32)
    ensures { parts_of parts.new ≡ destroyed_in_parts (parts_of parts.old) cache }
{
    for part in parts.iter_mut() {
        drop(part.caches.destroy(cache));
    }
}

pub(crate) fn destroy(parts: &mut [ShardRows], cache: i32) -> Result<Answer, NoRoom<Call>>
    requires all { (shards : ℕ) × AreAll shards (parts_of parts.old) }
    ensures runs { RunsOn (Destroy cache) (together (parts_of parts.old)) result (together (parts_of parts.new)) }
    ensures all { (shards : ℕ) → AreAll shards (parts_of parts.old) → AreAll shards (parts_of parts.new) }
{
    let ran = parts[0].caches.destroy(cache);
    destroy_in_each(&mut parts[1..], cache);
    ran
}
