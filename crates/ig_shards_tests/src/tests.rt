ghost use Rattle.std.specs.Prelude.{◌≡◌, ◌≢◌, ◌≤◌, [], All, IfSome, IfOk};
ghost use Rattle.ig_caches.specs.IsRunnable.{IsItem, IsRow, IsRunnable};

use ig_base::{Items, Octets, Text, text_hash};
use ig_caches::{Caches, Call, Exec, Outcome, Pair, StartFault};
use ig_shards::{Shards, Touched, shard_of, touched};
use ig_types::{FieldMeta, TypeMeta};
use ig_value::Value;
use std::alloc::{AllocError, Global};
use std::test::Fail;

/// The names of the caches that random calls name.
static NAMES: [&str; 3] = ["main", "x", "yy"];

fn text(alloc: Global, text: &str) -> Result<Text, AllocError>
    ensures { IfOk result (λ made. made ≡ text.now) }
{
    Ok(Text::new(String::from_str(alloc, text)?))
}

/// The next random number, below the bound.
fn below(seed: &mut u64, bound: u64) -> u64 {
    *seed = seed
        .wrapping_mul(6_364_136_223_846_793_005)
        .wrapping_add(1_442_695_040_888_963_407);
    (*seed >> 33).checked_rem(bound).unwrap_or(0)
}

/// A small random number.
fn small(seed: &mut u64) -> i32 {
    i32::try_from(below(seed, 24)).unwrap_or(0)
}

/// The value of a number.
fn int(number: i32) -> Value
    ensures { IsItem result }
{
    Value::Int(number)
}

/// A random key or value.
fn item(seed: &mut u64) -> Value
    ensures { IsItem result }
{
    int(small(seed))
}

fn items(alloc: Global, seed: &mut u64) -> Result<Items<Value>, AllocError>
    ensures { IfOk result (λ items. All IsItem items) }
{
    let mut items = Vec::new(alloc);
    for _ in 0..below(seed, 6) {
        items.push(item(seed))?;
    }
    Ok(Items::new(items))
}

fn pair(seed: &mut u64) -> Pair
    ensures { IsRow result }
{
    let key = item(seed);
    let value = item(seed);
    Pair { key, value }
}

fn pairs(alloc: Global, seed: &mut u64) -> Result<Items<Pair>, AllocError>
    ensures { IfOk result (λ pairs. All IsRow pairs) }
{
    let mut pairs = Vec::new(alloc);
    for _ in 0..below(seed, 6) {
        pairs.push(pair(seed))?;
    }
    Ok(Items::new(pairs))
}

/// The kind of call on one key.
fn key_call(kind: u64, cache: i32, seed: &mut u64) -> Call
    ensures { IsRunnable result }
{
    let key = item(seed);
    match kind {
        0 => Call::Get { cache, key },
        1 => Call::GetAndRemove { cache, key },
        2 => Call::ContainsKey { cache, key },
        3 => Call::ClearKey { cache, key },
        4 => Call::RemoveKey { cache, key },
        5 => Call::RemoveIfEquals {
            cache,
            key,
            wanted: item(seed),
        },
        _ => put_call(kind, cache, key, seed),
    }
}

/// The same of the calls with a value.
fn put_call(kind: u64, cache: i32, key: Value, seed: &mut u64) -> Call
    requires { IsItem key }
    ensures { IsRunnable result }
{
    let value = item(seed);
    match kind {
        6 => Call::Put { cache, key, value },
        7 => Call::PutIfAbsent { cache, key, value },
        8 => Call::GetAndPut { cache, key, value },
        9 => Call::GetAndReplace { cache, key, value },
        10 => Call::GetAndPutIfAbsent { cache, key, value },
        11 => Call::Replace { cache, key, value },
        _ => Call::ReplaceIfEquals {
            cache,
            key,
            wanted: item(seed),
            value,
        },
    }
}

/// The kind of call on several rows, or on all.
fn rows_call(alloc: Global, kind: u64, cache: i32, seed: &mut u64) -> Result<Call, AllocError>
    ensures { IfOk result IsRunnable }
{
    match kind {
        17 => {
            let pairs = pairs(alloc, seed)?;
            Ok(Call::PutAll { cache, pairs })
        }
        18 => Ok(Call::Clear { cache }),
        19 => Ok(Call::RemoveAll { cache }),
        20 => Ok(Call::Scan { cache }),
        21 => Ok(Call::Size {
            cache,
            modes: Octets::empty(alloc),
        }),
        _ => keys_call(alloc, kind, cache, seed),
    }
}

/// The same of the calls on several keys.
fn keys_call(alloc: Global, kind: u64, cache: i32, seed: &mut u64) -> Result<Call, AllocError>
    ensures { IfOk result IsRunnable }
{
    let keys = items(alloc, seed)?;
    match kind {
        13 => Ok(Call::GetAll { cache, keys }),
        14 => Ok(Call::ContainsKeys { cache, keys }),
        15 => Ok(Call::ClearKeys { cache, keys }),
        _ => Ok(Call::RemoveKeys { cache, keys }),
    }
}

/// A name that isn't empty.
fn name(alloc: Global, word: &str) -> Result<Option<Text>, AllocError>
    ensures { IfOk result (λ name. IfSome name (λ n. n ≢ [])) }
{
    if word.is_empty() {
        return Ok(None);
    }
    Ok(Some(text(alloc, word)?))
}

/// The description of a type with one field.
fn meta(alloc: Global, seed: &mut u64) -> Result<TypeMeta, AllocError> {
    let mut fields = Vec::new(alloc);
    fields.push(FieldMeta {
        name: text(alloc, "a")?,
        kind: i32::try_from(below(seed, 2)).unwrap_or(0),
        id: 97,
    })?;
    Ok(TypeMeta {
        type_id: i32::try_from(below(seed, 3)).unwrap_or(0),
        name: text(alloc, "P")?,
        affinity: Some(text(alloc, "a")?),
        is_enum: false,
        fields: Items::new(fields),
        literals: Items::new(Vec::new(alloc)),
        schemas: Items::new(Vec::new(alloc)),
    })
}

/// The kind of call on all caches.
fn other_call(
    alloc: Global,
    kind: u64,
    word: &str,
    seed: &mut u64,
) -> Result<Option<Call>, AllocError>
    ensures { IfOk result (λ call. IfSome call IsRunnable) }
{
    let type_id = i32::try_from(below(seed, 3)).unwrap_or(0);
    match kind {
        22 => Ok(Some(Call::Names)),
        23 => Ok(name(alloc, word)?.map(|name| Call::Create { name })),
        24 => Ok(name(alloc, word)?.map(|name| Call::GetOrCreate { name })),
        25 => Ok(Some(Call::Destroy {
            cache: text_hash(word),
        })),
        26 => Ok(Some(Call::TypeName {
            platform: 0,
            type_id,
        })),
        27 => Ok(Some(Call::SetTypeName {
            platform: 0,
            type_id,
            name: text(alloc, word)?,
        })),
        28 => Ok(Some(Call::TypeOf { type_id })),
        29 => {
            let meta = meta(alloc, seed)?;
            if meta.is_in_order() {
                return Ok(Some(Call::PutType { meta }));
            }
            Ok(None)
        }
        _ => {
            let mut caches = Vec::new(alloc);
            caches.push(text_hash(word))?;
            Ok(Some(Call::Affinity {
                caches: Items::new(caches),
            }))
        }
    }
}

/// A random call.
fn call(alloc: Global, seed: &mut u64) -> Result<Option<Call>, AllocError>
    ensures { IfOk result (λ call. IfSome call IsRunnable) }
{
    let at = usize::try_from(below(seed, 3)).unwrap_or(0);
    let word = NAMES.get(at).copied().unwrap_or("main");
    let kind = below(seed, 31);
    if kind < 13 {
        return Ok(Some(key_call(kind, text_hash(word), seed)));
    }
    if kind < 22 {
        return Ok(Some(rows_call(alloc, kind, text_hash(word), seed)?));
    }
    other_call(alloc, kind, word, seed)
}

/// What the call answers.
fn shown<E: Exec>(alloc: Global, exec: &mut E, call: Call) -> Result<String, AllocError>
    requires { IsRunnable call }
{
    match exec.run(call) {
        Ok(answer) => format!(in alloc; "{answer:?}"),
        Err(_) => String::from_str(alloc, "no memory"),
    }
}

fn names(alloc: Global, words: &[&str]) -> Result<Vec<Text>, AllocError> {
    let mut names = Vec::new(alloc);
    for word in words {
        names.push(text(alloc, word)?)?;
    }
    Ok(names)
}

/// The number of the first of as many random calls that plain caches and shards answer in different ways.
fn difference(alloc: Global, shards: u32, calls: u32) -> Result<Option<u32>, AllocError>
    requires some { 1 ≤ shards }
    requires few { shards ≤ 256 }
{
    let Ok(mut plain) = Caches::start(alloc, names(alloc, &["main"])?) else {
        return Ok(Some(calls));
    };
    let Ok(mut spread) = Shards::start(alloc, names(alloc, &["main"])?, shards) else {
        return Ok(Some(calls));
    };
    let mut one = u64::from(shards);
    let mut two = u64::from(shards);
    for number in 0..calls {
        if let Some(first) = call(alloc, &mut one)? {
            if let Some(second) = call(alloc, &mut two)? {
                let want = shown(alloc, &mut plain, first)?;
                if shown(alloc, &mut spread, second)?.as_str() != want.as_str() {
                    return Ok(Some(number));
                }
            }
        } else {
            drop(call(alloc, &mut two)?);
        }
    }
    Ok(None)
}

#[test]
fn shards_answer_as_plain_caches(rt: HostRuntime) -> Result<(), Fail> {
    assert_eq!(rt; difference(rt.alloc(), 1, 10_000)?, None);
    assert_eq!(rt; difference(rt.alloc(), 2, 10_000)?, None);
    assert_eq!(rt; difference(rt.alloc(), 5, 10_000)?, None);
    assert_eq!(rt; difference(rt.alloc(), 64, 10_000)?, None);
    assert_eq!(rt; difference(rt.alloc(), 256, 10_000)?, None);
    Ok(())
}

#[test]
fn keys_lie_in_their_shards(rt: HostRuntime) -> Result<(), Fail> {
    assert_eq!(rt; shard_of(&[3, 1, 0, 0, 0], 64), 1);
    assert_eq!(rt; shard_of(&[3, 2, 0, 0, 0], 64), 32);
    assert_eq!(rt; shard_of(&[3, 3, 0, 0, 0], 64), 63);
    assert_eq!(rt; shard_of(&[3, 4, 0, 0, 0], 64), 30);
    assert_eq!(rt;
        shard_of(&[4, 255, 255, 255, 255, 255, 255, 255, 255], 5),
        4
    );
    Ok(())
}

/// The rows of the numbers, each a key that is its own value.
fn rows(alloc: Global, numbers: &[i32]) -> Result<Items<Pair>, AllocError>
    ensures { IfOk result (λ pairs. All IsRow pairs) }
{
    let mut pairs = Vec::new(alloc);
    for number in numbers {
        pairs.push(Pair {
            key: int(*number),
            value: int(*number),
        })?;
    }
    Ok(Items::new(pairs))
}

fn keys(alloc: Global, numbers: &[i32]) -> Result<Items<Value>, AllocError>
    ensures { IfOk result (λ items. All IsItem items) }
{
    let mut keys = Vec::new(alloc);
    for number in numbers {
        keys.push(int(*number))?;
    }
    Ok(Items::new(keys))
}

/// The keys among the rows of an answer, in order, with a space after each.
fn shown_keys(alloc: Global, outcome: &Outcome) -> Result<String, AllocError> {
    let mut shown = String::new(alloc);
    if let Outcome::Pairs(rows) = outcome {
        for row in rows.as_slice() {
            if let Value::Int(key) = &row.key {
                shown.push_str(format!(in alloc; "{key} ")?.as_str())?;
            }
        }
    }
    Ok(shown)
}

/// What the call shows of 64 shards in which the rows of the numbers were put.
fn keys_after(alloc: Global, numbers: &[i32], call: Call) -> Result<String, AllocError>
    requires { IsRunnable call }
{
    let cache = text_hash("main");
    let mut shown = String::new(alloc);
    if let Ok(mut shards) = Shards::start(alloc, names(alloc, &["main"])?, 64) {
        let pairs = rows(alloc, numbers)?;
        drop(shards.run(Call::PutAll { cache, pairs }));
        if let Ok(answer) = shards.run(call) {
            shown = shown_keys(alloc, &answer.outcome)?;
        }
    }
    Ok(shown)
}

#[test]
fn rows_come_in_order(rt: HostRuntime) -> Result<(), Fail> {
    let cache = text_hash("main");
    let scanned = keys_after(rt.alloc(), &[1, 256, -1], Call::Scan { cache })?;
    assert_eq!(rt; scanned.as_str(), "256 1 -1 ");
    let keys = keys(rt.alloc(), &[4, 9, 1])?;
    let found = keys_after(rt.alloc(), &[1, 2, 3, 4], Call::GetAll { cache, keys })?;
    assert_eq!(rt; found.as_str(), "4 1 ");
    Ok(())
}

#[test]
fn calls_touch_their_shards(rt: HostRuntime) -> Result<(), Fail> {
    let cache = text_hash("main");
    let get = Call::Get {
        cache,
        key: Value::Int(1),
    };
    let all = Call::PutAll {
        cache,
        pairs: rows(rt.alloc(), &[1, 2, 3, 4])?,
    };
    assert_eq!(rt; touched(&get, 64).ok(), Some(Touched::One(1)));
    assert_eq!(rt; touched(&all, 64).ok(), Some(Touched::All));
    Ok(())
}

/// What starting with the names leads to.
fn started(alloc: Global, names: Vec<Text>) -> Result<(), StartFault> {
    match Shards::start(alloc, names, 64) {
        Ok(_) => Ok(()),
        Err(fault) => Err(fault),
    }
}

/// As many names, all different.
fn many(alloc: Global, count: u32) -> Result<Vec<Text>, AllocError> {
    let mut names = Vec::new(alloc);
    for number in 0..count {
        names.push(Text::new(format!(in alloc; "{number}")?))?;
    }
    Ok(names)
}

#[test]
fn starts_and_their_faults(rt: HostRuntime) -> Result<(), Fail> {
    assert_eq!(rt;
        started(rt.alloc(), names(rt.alloc(), &["a", "b"])?),
        Ok(())
    );
    assert_eq!(rt;
        started(rt.alloc(), names(rt.alloc(), &["a", "a"])?),
        Err(StartFault::Taken { at: 1 })
    );
    assert_eq!(rt;
        started(rt.alloc(), names(rt.alloc(), &["a", ""])?),
        Err(StartFault::Empty { at: 1 })
    );
    assert_eq!(rt;
        started(rt.alloc(), many(rt.alloc(), 1025)?),
        Err(StartFault::TooMany)
    );
    Ok(())
}
