//! Reads requests: the operations of all crates in one table.

ghost use Rattle.std.specs.Prelude.{◌≡◌, ◌≤◌, length, is_some, Option, Some};
ghost use Rattle.ig_wire.specs.Operations.{operation_at};
ghost use Rattle.ig_wire.specs.declared.operation.Operation.TheVariants.{PartitionMaps};
ghost use Rattle.ig_meta.specs.Requests.{ask_of as types_ask};
ghost use Rattle.ig_caches.specs.declared.request.Request.{Request as a_request};
ghost use Rattle.ig_fields.specs.AsksRightly.{asked};
ghost use Rattle.ig_fields.specs.AskAnswers.{AnswersAs};
ghost use Rattle.ig_deals.specs.Tables.{ask_of};
ghost use Rattle.ig_deals.specs.Asks.{request_in, id_in, operation_in};
ghost use Rattle.ig_capture.specs.Talks.{asked_operation};

use ig_caches::{Call, Request};
use ig_wire::{AskFault, Operation, Version, read_ask};
use std::alloc::Global;

/// The identifier of a request; its operation, unless it is refused; and what it asks at a version, or
/// why it is refused.
pub(crate) fn read_request(
    alloc: Global,
    version: Version,
    body: &[u8],
) -> (i64, Option<Operation>, Result<Request, AskFault>)
    requires long { 10 ≤ length body.now }
    ensures id { result.0 ≡ id_in body.now }
    ensures operation { result.1 ≡ asked_operation (operation_in body.now) result.2 }
    ensures asked { AnswersAs (request_in version body.now) result.2 }
{
    let (code, id) = read_ask(body);
    let Some(operation) = Operation::of(code) else {
        return (id, None, Err(AskFault::NotMine));
    };
    if !operation.since().is_up_to(version) {
        return (id, None, Err(AskFault::NotMine));
    }
    match read_fields(alloc, code, operation, body) {
        Ok(request) => (id, Some(operation), Ok(request)),
        Err(fault) => (id, None, Err(fault)),
    }
}

/// What the fields of an operation ask: the crate that has the operation reads them.
fn read_fields(
    alloc: Global,
    code: i16,
    operation: Operation,
    body: &[u8],
) -> Result<Request, AskFault>
    requires code { operation_at code ≡ Some operation }
    requires long { 10 ≤ length body.now }
    ensures asked { AnswersAs (asked (ask_of operation) body.now) result }
{
    if let Operation::PartitionMaps = operation {
        return read_parts(alloc, body);
    }
    if is_of_types(operation) {
        return ig_meta::read_fields(alloc, code, body);
    }
    ig_ops::read_fields(alloc, code, body)
}

/// What a request for partition maps asks.
fn read_parts(alloc: Global, body: &[u8]) -> Result<Request, AskFault>
    requires { 10 ≤ length body.now }
    ensures asked { AnswersAs (asked (ask_of PartitionMaps) body.now) result }
{
    let caches = ig_parts::read_parts_ask(alloc, body)?;
    Ok(Request::Run(Call::Affinity { caches }))
}

/// Whether an operation is on caches as wholes or on types of values.
pub(crate) fn is_of_types(operation: Operation) -> bool
    ensures { result ≡ is_some (types_ask operation) }
{
    matches!(
        operation,
        Operation::CacheNames
            | Operation::Create
            | Operation::GetOrCreate
            | Operation::Destroy
            | Operation::GetTypeName
            | Operation::RegisterTypeName
            | Operation::GetType
            | Operation::PutType
    )
}
