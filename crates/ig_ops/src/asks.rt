//! Requests, read and written.

ghost use Rattle.std.specs.Prelude.{◌≡◌, ◌≢◌, ◌↔◌, ◌<◌, ◌≤◌, ◌^◌, ◌++◌, true, length, IsTrue, IfOk, Ok};
ghost use Rattle.ig_base.specs.Frames.{Frame, max_body};
ghost use Rattle.ig_fields.specs.Ask.{row_at};
ghost use Rattle.ig_fields.specs.AsksRightly.{AsksRightly, asked};
ghost use Rattle.ig_fields.specs.AskAnswers.{AnswersAs};
ghost use Rattle.ig_ops.specs.Requests.{ask_of, ask_body, IsOpsRequest, IsServed};

use crate::ask_body::AskBody;
use crate::ask_shapes::{
    ask_cache, ask_cursor, ask_key, ask_keys, ask_modes, ask_pairs, ask_scan, ask_three, ask_two,
};
use ig_base::{NoMemory, Octets};
use ig_caches::{Call, Request};
use ig_fields::append_frame;
use ig_wire::{AskFault, Operation};
use std::alloc::Global;

/// The request that the fields ask for which come after the ten bytes of a request's head. `op` is the
/// code of its operation; offsets count from the frame's first length byte. The request can be served:
/// its call can be run if the body has less than 2^31 bytes. It never is `Run` of `Call::Scan`.
///
/// # Errors
///
/// [`AskFault::NotMine`] exactly if the operation isn't one of this crate, [`AskFault::Unread`] exactly
/// if the fields don't read or bytes follow them, [`AskFault::Profile`] exactly if they read and ask what
/// isn't served: a null key, value or wanted value, or a scan with a filter, a page size below 1, or a
/// partition; and [`AskFault::NoMemory`] if memory runs out.
pub fn read_fields(alloc: Global, op: i16, body: &[u8]) -> Result<Request, AskFault>
    requires { 10 ≤ length body.now }
    ensures right { AsksRightly (row_at ask_of op) body.now result }
    ensures reads { AnswersAs (asked (row_at ask_of op) body.now) result }
    ensures known { IfOk result IsOpsRequest }
    ensures served { length body.now < 2 ^ 31 → IfOk result IsServed }
{
    match Operation::of(op) {
        Some(operation) => read_asked_by(alloc, operation, body),
        None => Err(AskFault::NotMine),
    }
}

/// The same by the operation.
fn read_asked_by(alloc: Global, operation: Operation, body: &[u8]) -> Result<Request, AskFault>
    requires { 10 ≤ length body.now }
    ensures { AnswersAs (asked (ask_of operation) body.now) result }
{
    match operation {
        Operation::Get => ask_key(alloc, body, |(cache, key)| Call::Get { cache, key }),
        Operation::Put => ask_two(
            alloc,
            body,
            |(cache, key, value)| Call::Put { cache, key, value },
        ),
        Operation::PutIfAbsent => ask_two(
            alloc,
            body,
            |(cache, key, value)| Call::PutIfAbsent { cache, key, value },
        ),
        Operation::GetAll => ask_keys(alloc, body, |(cache, keys)| Call::GetAll { cache, keys }),
        Operation::PutAll => ask_pairs(alloc, body),
        Operation::GetAndPut => ask_two(
            alloc,
            body,
            |(cache, key, value)| Call::GetAndPut { cache, key, value },
        ),
        Operation::GetAndReplace => ask_two(
            alloc,
            body,
            |(cache, key, value)| Call::GetAndReplace { cache, key, value },
        ),
        Operation::GetAndRemove => ask_key(
            alloc,
            body,
            |(cache, key)| Call::GetAndRemove { cache, key },
        ),
        Operation::GetAndPutIfAbsent => ask_two(
            alloc,
            body,
            |(cache, key, value)| Call::GetAndPutIfAbsent { cache, key, value },
        ),
        Operation::Replace => ask_two(
            alloc,
            body,
            |(cache, key, value)| Call::Replace { cache, key, value },
        ),
        Operation::ReplaceIfEquals => ask_three(
            alloc,
            body,
            |(cache, key, wanted, value)| Call::ReplaceIfEquals {
                cache,
                key,
                wanted,
                value,
            },
        ),
        Operation::ContainsKey => ask_key(
            alloc,
            body,
            |(cache, key)| Call::ContainsKey { cache, key },
        ),
        Operation::ContainsKeys => ask_keys(
            alloc,
            body,
            |(cache, keys)| Call::ContainsKeys { cache, keys },
        ),
        Operation::Clear => ask_cache(alloc, body, |cache| Call::Clear { cache }),
        Operation::ClearKey => ask_key(alloc, body, |(cache, key)| Call::ClearKey { cache, key }),
        Operation::ClearKeys => ask_keys(
            alloc,
            body,
            |(cache, keys)| Call::ClearKeys { cache, keys },
        ),
        Operation::RemoveKey => ask_key(alloc, body, |(cache, key)| Call::RemoveKey { cache, key }),
        Operation::RemoveIfEquals => ask_two(
            alloc,
            body,
            |(cache, key, wanted)| Call::RemoveIfEquals { cache, key, wanted },
        ),
        Operation::RemoveKeys => ask_keys(
            alloc,
            body,
            |(cache, keys)| Call::RemoveKeys { cache, keys },
        ),
        Operation::RemoveAll => ask_cache(alloc, body, |cache| Call::RemoveAll { cache }),
        Operation::GetSize => ask_modes(alloc, body),
        Operation::Scan => ask_scan(alloc, body),
        Operation::NextPage => ask_cursor(alloc, body, |cursor| Request::NextPage { cursor }),
        Operation::CloseResource => ask_cursor(alloc, body, |resource| Request::Close { resource }),
        _ => Err(AskFault::NotMine),
    }
}

/// Appends the frame of the request, unless its body is above the limit of frames. Answers whether it
/// did. Where it did not, and on an error, the bytes are as before. Flags are 0, a scan has no filter and
/// no partition, and isn't local.
pub fn write_ask(
    alloc: Global,
    id: i64,
    request: &Request,
    out: &mut Octets,
) -> Result<bool, NoMemory>
    requires { IsOpsRequest request.now }
    ensures when { IfOk result (λ done. IsTrue done
        ↔ (length (ask_body id request.now) ≤ max_body)) }
    ensures done { result ≡ Ok true → out.new ≡ out.old ++ Frame (ask_body id request.now) }
    ensures unchanged { result ≢ Ok true → out.new ≡ out.old }
{
    append_frame(alloc, &AskBody { id, request }, out)
}
