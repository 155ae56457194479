//! The bodies of the frames of requests.

ghost use Rattle.std.specs.Prelude.{◌≡◌, map, negsuc, None};
ghost use Rattle.ig_value.specs.Part.{i32 as signed_32};
ghost use Rattle.ig_fields.specs.Format.{byte, both, scalar, unless_null};
ghost use Rattle.ig_fields.specs.FieldBytes.{fields_bytes};
ghost use Rattle.ig_fields.specs.Ask.{filled_bytes};
ghost use Rattle.ig_ops.specs.Requests.{cache_fields, key_fields, two_fields, three_fields, keys_fields, rows_fields, pairs_fields, modes_fields, scan_fields, pair_fields, cache_written, call_form, form_of, ask_body};

use crate::pair_fields::PairFields;
use ig_caches::{Call, Pair, Request};
use ig_encode::{Output, ValueOutput, put_byte, put_i32};
use ig_fields::{FieldFormat, Message, put_ask_head, put_items};
use ig_value::{Code, Value};
use ig_wire::Operation;

/// What is written for flags, of which a client sets none.
const NO_FLAGS: u8 = 0;

/// What is written for a scan of all partitions.
const ALL_PARTITIONS: i32 = -1;

/// What is written for a scan that isn't local.
const NOT_LOCAL: u8 = 0;

/// The body of a request's frame: the operation, the identifier and the fields.
#[derive(Drop)]
pub(crate) struct AskBody<'a> {
    pub(crate) id: i64,
    pub(crate) request: &'a Request,
}

impl Message for AskBody<'_> {
    ghost bytes = { λ body. ask_body body.id body.request.now };

    fn put<S: ValueOutput>(&self, out: &mut S, into: &mut [u8]) {
        put_ask(self.id, self.request, out, into);
    }
}

/// Puts the head and the fields of a request.
fn put_ask<S: ValueOutput>(id: i64, request: &Request, out: &mut S, into: &mut [u8])
    ensures { (out.new, into.new)
        ≡ S.Output.after out.old into.old (ask_body id request.now) }
{
    put_ask_head(operation_of(request), id, out, into);
    put_fields(request, out, into);
}

/// The operation of a request.
fn operation_of(request: &Request) -> Operation
    ensures { result ≡ (form_of request.now).operation }
{
    match request {
        Request::Run(call) => call_operation(call),
        Request::Scan { .. } => Operation::Scan,
        Request::NextPage { .. } => Operation::NextPage,
        Request::Close { .. } => Operation::CloseResource,
    }
}

/// The operation of a call.
fn call_operation(call: &Call) -> Operation
    ensures { result ≡ (call_form call.now).operation }
{
    match call {
        Call::Get { .. } => Operation::Get,
        Call::Put { .. } => Operation::Put,
        Call::PutIfAbsent { .. } => Operation::PutIfAbsent,
        Call::GetAll { .. } => Operation::GetAll,
        Call::PutAll { .. } => Operation::PutAll,
        Call::GetAndPut { .. } => Operation::GetAndPut,
        Call::GetAndReplace { .. } => Operation::GetAndReplace,
        Call::GetAndRemove { .. } => Operation::GetAndRemove,
        Call::GetAndPutIfAbsent { .. } => Operation::GetAndPutIfAbsent,
        Call::Replace { .. } => Operation::Replace,
        Call::ReplaceIfEquals { .. } => Operation::ReplaceIfEquals,
        Call::ContainsKey { .. } => Operation::ContainsKey,
        Call::ContainsKeys { .. } => Operation::ContainsKeys,
        Call::Clear { .. } => Operation::Clear,
        Call::ClearKey { .. } => Operation::ClearKey,
        Call::ClearKeys { .. } => Operation::ClearKeys,
        Call::RemoveKey { .. } => Operation::RemoveKey,
        Call::RemoveIfEquals { .. } => Operation::RemoveIfEquals,
        Call::RemoveKeys { .. } => Operation::RemoveKeys,
        Call::RemoveAll { .. } => Operation::RemoveAll,
        Call::Size { .. } => Operation::GetSize,
        _ => Operation::CloseResource,
    }
}

/// Puts the fields of a request.
fn put_fields<S: ValueOutput>(request: &Request, out: &mut S, into: &mut [u8])
    ensures { (out.new, into.new)
        ≡ S.Output.after out.old into.old (filled_bytes (form_of request.now).filled) }
{
    match request {
        Request::Run(call) => put_call(call, out, into),
        Request::Scan { cache, page } => put_scan(cache, page, out, into),
        Request::NextPage { cursor } => <i64 as FieldFormat>::put(cursor, out, into),
        Request::Close { resource } => <i64 as FieldFormat>::put(resource, out, into),
    }
}

/// Puts the fields of a call.
fn put_call<S: ValueOutput>(call: &Call, out: &mut S, into: &mut [u8])
    ensures { (out.new, into.new)
        ≡ S.Output.after out.old into.old (filled_bytes (call_form call.now).filled) }
{
    match call {
        Call::Get { cache, key } => put_key(cache, key, out, into),
        Call::Put { cache, key, value } => put_two(cache, key, value, out, into),
        Call::PutIfAbsent { cache, key, value } => put_two(cache, key, value, out, into),
        Call::GetAll { cache, keys } => put_keys(cache, keys.as_slice(), out, into),
        Call::PutAll { cache, pairs } => put_pairs(cache, pairs.as_slice(), out, into),
        Call::GetAndPut { cache, key, value } => put_two(cache, key, value, out, into),
        Call::GetAndReplace { cache, key, value } => put_two(cache, key, value, out, into),
        Call::GetAndRemove { cache, key } => put_key(cache, key, out, into),
        Call::GetAndPutIfAbsent { cache, key, value } => put_two(cache, key, value, out, into),
        Call::Replace { cache, key, value } => put_two(cache, key, value, out, into),
        Call::ReplaceIfEquals {
            cache,
            key,
            wanted,
            value,
        } => put_three(cache, key, wanted, value, out, into),
        Call::ContainsKey { cache, key } => put_key(cache, key, out, into),
        Call::ContainsKeys { cache, keys } => put_keys(cache, keys.as_slice(), out, into),
        Call::Clear { cache } => put_cache(cache, out, into),
        Call::ClearKey { cache, key } => put_key(cache, key, out, into),
        Call::ClearKeys { cache, keys } => put_keys(cache, keys.as_slice(), out, into),
        Call::RemoveKey { cache, key } => put_key(cache, key, out, into),
        Call::RemoveIfEquals { cache, key, wanted } => put_two(cache, key, wanted, out, into),
        Call::RemoveKeys { cache, keys } => put_keys(cache, keys.as_slice(), out, into),
        Call::RemoveAll { cache } => put_cache(cache, out, into),
        Call::Size { cache, modes } => put_modes(cache, modes.as_slice(), out, into),
        _ => {}
    }
}

/// Puts a cache and its flags.
fn put_cache<S: ValueOutput>(cache: &i32, out: &mut S, into: &mut [u8])
    ensures { (out.new, into.new) ≡ S.Output.after out.old into.old
        (fields_bytes cache_fields (cache_written cache.now)) }
{
    <i32 as FieldFormat>::put(cache, out, into);
    put_byte(NO_FLAGS, out, into);
}

/// Puts a cache and a key.
fn put_key<S: ValueOutput>(cache: &i32, key: &Value, out: &mut S, into: &mut [u8])
    ensures { (out.new, into.new) ≡ S.Output.after out.old into.old
        (fields_bytes key_fields (cache_written cache.now, key.now)) }
{
    put_cache(cache, out, into);
    out.put_value(into, key);
}

/// Puts a cache, a key, and a value or a wanted value.
fn put_two<S: ValueOutput>(cache: &i32, key: &Value, value: &Value, out: &mut S, into: &mut [u8])
    ensures { (out.new, into.new) ≡ S.Output.after out.old into.old
        (fields_bytes two_fields (cache_written cache.now, (key.now, value.now))) }
{
    put_cache(cache, out, into);
    out.put_value(into, key);
    out.put_value(into, value);
}

/// Puts a cache, a key, a wanted value and a value.
fn put_three<S: ValueOutput>(
    cache: &i32,
    key: &Value,
    wanted: &Value,
    value: &Value,
    out: &mut S,
    into: &mut [u8],
)
    ensures { (out.new, into.new) ≡ S.Output.after out.old into.old
        (fields_bytes three_fields (cache_written cache.now, (key.now, (wanted.now, value.now)))) }
{
    put_cache(cache, out, into);
    out.put_value(into, key);
    out.put_value(into, wanted);
    out.put_value(into, value);
}

/// Puts a cache and keys.
fn put_keys<S: ValueOutput>(cache: &i32, keys: &[Value], out: &mut S, into: &mut [u8])
    ensures { (out.new, into.new) ≡ S.Output.after out.old into.old
        (fields_bytes keys_fields (cache_written cache.now, keys.now)) }
{
    put_cache(cache, out, into);
    put_items::<Value, S>(keys, out, into);
}

/// Puts a cache, and keys with their values.
fn put_pairs<S: ValueOutput>(cache: &i32, pairs: &[Pair], out: &mut S, into: &mut [u8])
    ensures { (out.new, into.new) ≡ S.Output.after out.old into.old
        (fields_bytes pairs_fields (cache_written cache.now, map pair_fields pairs.now)) }
{
    put_cache(cache, out, into);
    put_rows(pairs, out, into);
}

/// Puts keys with their values, and their count.
fn put_rows<S: ValueOutput>(pairs: &[Pair], out: &mut S, into: &mut [u8])
    ensures { (out.new, into.new) ≡ S.Output.after out.old into.old
        (fields_bytes rows_fields (map pair_fields pairs.now)) }
{
    put_items::<PairFields, S>(pairs, out, into);
}

/// Puts a cache and modes.
fn put_modes<S: ValueOutput>(cache: &i32, modes: &[u8], out: &mut S, into: &mut [u8])
    ensures { (out.new, into.new) ≡ S.Output.after out.old into.old
        (fields_bytes modes_fields (cache_written cache.now, modes.now)) }
{
    put_cache(cache, out, into);
    put_items::<u8, S>(modes, out, into);
}

/// Puts the fields of a scan without a filter.
fn put_scan<S: ValueOutput>(cache: &i32, page: &i32, out: &mut S, into: &mut [u8])
    ensures { (out.new, into.new) ≡ S.Output.after out.old into.old
        (fields_bytes scan_fields (cache_written cache.now, (None, (page.now, (negsuc 0, 0))))) }
{
    put_cache(cache, out, into);
    put_no_filter(out, into);
    put_page_size(page, out, into);
}

/// Puts the null that stands for a filter.
fn put_no_filter<S: ValueOutput>(out: &mut S, into: &mut [u8])
    ensures { (out.new, into.new) ≡ S.Output.after out.old into.old
        (fields_bytes (unless_null byte) None) }
{
    put_byte(Code::Null.byte(), out, into);
}

/// Puts the page size of a scan of all partitions, which isn't local.
fn put_page_size<S: ValueOutput>(page: &i32, out: &mut S, into: &mut [u8])
    ensures { (out.new, into.new) ≡ S.Output.after out.old into.old
        (fields_bytes (both (scalar signed_32) (both (scalar signed_32) byte)) (page.now, (negsuc 0, 0))) }
{
    <i32 as FieldFormat>::put(page, out, into);
    put_i32(ALL_PARTITIONS, out, into);
    put_byte(NOT_LOCAL, out, into);
}
