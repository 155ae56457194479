//! Reading the fields of requests, by their shape.

ghost use Rattle.std.specs.Prelude.{◌≡◌, ◌≤◌, ℕ, ℤ, List, [], ◌∷◌, length, Some};
ghost use Rattle.std.specs.List.{list_any, flat_map};
ghost use Rattle.ig_value.specs.declared.Value.{Value as a_value};
ghost use Rattle.ig_caches.specs.declared.call.Call.{Call as a_call};
ghost use Rattle.ig_caches.specs.declared.request.Request.{Request as a_request};
ghost use Rattle.ig_caches.specs.declared.request.Request.TheVariants.{Scan as a_scan, Run as a_run};
ghost use Rattle.ig_caches.specs.declared.call.Call.TheVariants.{PutAll as a_put_all};
ghost use Rattle.ig_fields.specs.ReadingFields.{is_null as null_test};
ghost use Rattle.ig_fields.specs.AsksRightly.{asked, served};
ghost use Rattle.ig_fields.specs.AskAnswers.{AnswersAs, Makes, unless_refused};
ghost use Rattle.ig_ops.specs.Requests.{pair_values, null_refused, null_among, scan_refused, cache_ask, key_ask, two_ask, three_ask, keys_ask, pairs_ask, modes_ask, scan_ask, cursor_ask};

use crate::pair_fields::PairFields;
use ig_base::{Items, Octets};
use ig_caches::{Call, Pair, Request};
use ig_fields::{UnlessNull, ask_fields, is_null, read_asked};
use ig_value::Value;
use ig_wire::{AskFault, Profile};
use std::alloc::Global;

/// A cache and flags.
type CacheFields = (i32, u8);

/// A cache and a key.
type KeyFields = (CacheFields, Value);

/// A cache and two values.
type TwoFields = (CacheFields, (Value, Value));

/// A cache and three values.
type ThreeFields = (CacheFields, (Value, (Value, Value)));

/// A cache and keys.
type KeysFields = (CacheFields, Items<Value>);

/// A cache and keys with their values.
type PairsFields = (CacheFields, Items<PairFields>);

/// A cache and modes.
type ModesFields = (CacheFields, Items<u8>);

/// A cache, a filter with its platform, a page size, a partition, and whether the scan is local.
type ScanFields = (CacheFields, (UnlessNull<u8>, (i32, (i32, u8))));

/// A request on a cache alone.
pub(crate) fn ask_cache<C: FnOnce(i32) -> Call>(
    alloc: Global,
    body: &[u8],
    call: C,
) -> Result<Request, AskFault>
    requires long { 10 ≤ length body.now }
    requires call { C.IsAlwaysCallable call }
    ensures { (f : ℤ → a_call) → Makes (C.post call) f
        → AnswersAs (asked (Some (cache_ask f)) body.now) result }
{
    let (cache, _) = ask_fields::<CacheFields>(alloc, body)?;
    Ok(Request::Run(call(cache)))
}

/// The request to run the call, unless one of its keys and values is null.
fn run_unless(null: bool, call: Call) -> Result<Request, AskFault>
    ensures { result ≡ served (a_run call) (null_refused null) }
{
    if null {
        drop(call);
        return Err(AskFault::Profile(Profile::NullItem));
    }
    Ok(Request::Run(call))
}

/// A request on one key.
pub(crate) fn ask_key<C: FnOnce((i32, Value)) -> Call>(
    alloc: Global,
    body: &[u8],
    call: C,
) -> Result<Request, AskFault>
    requires long { 10 ≤ length body.now }
    requires call { C.IsAlwaysCallable call }
    ensures { (f : ℤ → a_value → a_call) → Makes (C.post call) (λ x. f x.0 x.1)
        → AnswersAs (asked (Some (key_ask f)) body.now) result }
{
    let ((cache, _), key) = ask_fields::<KeyFields>(alloc, body)?;
    let null = is_null(&key);
    run_unless(null, call((cache, key)))
}

/// Whether one of the two is null.
fn is_null_among_two(key: &Value, value: &Value) -> bool
    ensures { result ≡ list_any null_test (key.now ∷ value.now ∷ []) }
{
    is_null(key) || is_null(value)
}

/// Whether one of the three is null.
fn is_null_among_three(key: &Value, wanted: &Value, value: &Value) -> bool
    ensures { result ≡ list_any null_test (key.now ∷ wanted.now ∷ value.now ∷ []) }
{
    is_null(key) || is_null_among_two(wanted, value)
}

/// A request with a key and a value, or a wanted value.
pub(crate) fn ask_two<C: FnOnce((i32, Value, Value)) -> Call>(
    alloc: Global,
    body: &[u8],
    call: C,
) -> Result<Request, AskFault>
    requires long { 10 ≤ length body.now }
    requires call { C.IsAlwaysCallable call }
    ensures { (f : ℤ → a_value → a_value → a_call) → Makes (C.post call) (λ x. f x.0 x.1 x.2)
        → AnswersAs (asked (Some (two_ask f)) body.now) result }
{
    let ((cache, _), (key, value)) = ask_fields::<TwoFields>(alloc, body)?;
    let null = is_null_among_two(&key, &value);
    run_unless(null, call((cache, key, value)))
}

/// A request with a key, a wanted value and a value.
pub(crate) fn ask_three<C: FnOnce((i32, Value, Value, Value)) -> Call>(
    alloc: Global,
    body: &[u8],
    call: C,
) -> Result<Request, AskFault>
    requires long { 10 ≤ length body.now }
    requires call { C.IsAlwaysCallable call }
    ensures { (f : ℤ → a_value → a_value → a_value → a_call)
        → Makes (C.post call) (λ x. f x.0 x.1 x.2 x.3)
        → AnswersAs (asked (Some (three_ask f)) body.now) result }
{
    let ((cache, _), (key, (wanted, value))) = ask_fields::<ThreeFields>(alloc, body)?;
    let null = is_null_among_three(&key, &wanted, &value);
    run_unless(null, call((cache, key, wanted, value)))
}

/// Whether one of the values is null.
fn any_null(values: &[Value]) -> bool
    ensures { result ≡ list_any null_test values.now }
{
    values.iter().any(|value| is_null(value))
}

/// Whether one of the keys and values is null.
fn any_null_pair(pairs: &[Pair]) -> bool
    ensures { result ≡ list_any null_test (flat_map pair_values pairs.now) }
{
    pairs
        .iter()
        .any(|pair| is_null_among_two(&pair.key, &pair.value))
}

/// A request on keys.
pub(crate) fn ask_keys<C: FnOnce((i32, Items<Value>)) -> Call>(
    alloc: Global,
    body: &[u8],
    call: C,
) -> Result<Request, AskFault>
    requires long { 10 ≤ length body.now }
    requires call { C.IsAlwaysCallable call }
    ensures { (f : ℤ → List a_value → a_call) → Makes (C.post call) (λ x. f x.0 x.1)
        → AnswersAs (asked (Some (keys_ask f)) body.now) result }
{
    let ((cache, _), keys) = ask_fields::<KeysFields>(alloc, body)?;
    let null = any_null(keys.as_slice());
    run_unless(null, call((cache, keys)))
}

/// The call that sets keys with their values, unless one of them is null.
fn pairs_request(cache: i32, pairs: Items<Pair>) -> Result<Request, Profile>
    ensures { result ≡ unless_refused (a_run (a_put_all cache pairs)) (null_among (flat_map pair_values pairs)) }
{
    if any_null_pair(pairs.as_slice()) {
        return Err(Profile::NullItem);
    }
    Ok(Request::Run(Call::PutAll { cache, pairs }))
}

/// The request that sets keys with their values.
pub(crate) fn ask_pairs(alloc: Global, body: &[u8]) -> Result<Request, AskFault>
    requires { 10 ≤ length body.now }
    ensures { AnswersAs (asked (Some pairs_ask) body.now) result }
{
    read_asked::<PairsFields, Request, _>(
        alloc,
        body,
        |((cache, _), pairs)| pairs_request(cache, pairs),
    )
}

/// The request for the number of rows.
pub(crate) fn ask_modes(alloc: Global, body: &[u8]) -> Result<Request, AskFault>
    requires { 10 ≤ length body.now }
    ensures { AnswersAs (asked (Some modes_ask) body.now) result }
{
    let ((cache, _), modes) = ask_fields::<ModesFields>(alloc, body)?;
    let modes = Octets::new(modes.into_std());
    Ok(Request::Run(Call::Size { cache, modes }))
}

/// The request for a scan's first page, unless it has a filter, no room for a row, or a partition.
fn scan_unless(filtered: bool, cache: i32, page: i32, partition: i32) -> Result<Request, AskFault>
    ensures { result ≡ served (a_scan cache page) (scan_refused filtered page partition) }
{
    if filtered {
        return Err(AskFault::Profile(Profile::Filter));
    }
    if page < 1 {
        return Err(AskFault::Profile(Profile::PageSize));
    }
    if partition >= 0 {
        return Err(AskFault::Profile(Profile::Partition));
    }
    Ok(Request::Scan { cache, page })
}

/// The request for a scan.
pub(crate) fn ask_scan(alloc: Global, body: &[u8]) -> Result<Request, AskFault>
    requires { 10 ≤ length body.now }
    ensures { AnswersAs (asked (Some scan_ask) body.now) result }
{
    let ((cache, _), (filter, (page, (partition, _)))) = ask_fields::<ScanFields>(alloc, body)?;
    let filtered = filter.is_some();
    drop(filter);
    scan_unless(filtered, cache, page, partition)
}

/// A request on a cursor.
pub(crate) fn ask_cursor<C: FnOnce(i64) -> Request>(
    alloc: Global,
    body: &[u8],
    ask: C,
) -> Result<Request, AskFault>
    requires long { 10 ≤ length body.now }
    requires call { C.IsAlwaysCallable ask }
    ensures { (f : ℤ → a_request) → Makes (C.post ask) f
        → AnswersAs (asked (Some (cursor_ask f)) body.now) result }
{
    let cursor = ask_fields::<i64>(alloc, body)?;
    Ok(ask(cursor))
}
