//! Requests.

ghost use Rattle.std.specs.Prelude.{◌≡◌, ◌≢◌, ◌↔◌, ◌≤◌, ◌++◌, true, length, IsTrue, IfOk, Ok};
ghost use Rattle.ig_base.specs.Frames.{Frame, max_body};
ghost use Rattle.ig_caches.specs.declared.Call.TheVariants as call;
ghost use Rattle.ig_caches.specs.declared.Request.TheVariants.{Run};
ghost use Rattle.ig_fields.specs.Format.{both, string as a_string};
ghost use Rattle.ig_fields.specs.FieldBytes.{fields_bytes};
ghost use Rattle.ig_fields.specs.Ask.{row_at, filled_bytes};
ghost use Rattle.ig_fields.specs.AsksRightly.{AsksRightly, asked};
ghost use Rattle.ig_fields.specs.AskAnswers.{AnswersAs, unless_refused};
ghost use Rattle.ig_meta.specs.Requests.{ask_of, type_name, name_profile, IsMetaRequest, form_of, ask_body};
ghost use Rattle.ig_meta.specs.Laws.{IsRunnableRequest};

use crate::type_fields::TypeFields;
use ig_base::{NoMemory, Octets, Text};
use ig_caches::{Call, Request};
use ig_encode::{Output, ValueOutput};
use ig_fields::{FieldFormat, Message, append_frame, put_ask_head, read_asked};
use ig_wire::{AskFault, Operation, Profile};
use std::alloc::Global;

/// What the request of an operation with this code asks. Its fields come after the ten bytes of the
/// request's head; offsets count from the frame's first length byte. The description of a type is in
/// order, in whatever order its members were read.
///
/// # Errors
///
/// [`AskFault::NotMine`] exactly if the operation is none of this crate's, [`AskFault::Unread`] exactly
/// if its fields don't read or bytes follow them, [`AskFault::Profile`] exactly if it creates a cache
/// with an empty name, and [`AskFault::NoMemory`] if memory runs out.
pub fn read_fields(alloc: Global, op: i16, body: &[u8]) -> Result<Request, AskFault>
    requires { 10 ≤ length body.now }
    ensures right { AsksRightly (row_at ask_of op) body.now result }
    ensures reads { AnswersAs (asked (row_at ask_of op) body.now) result }
    ensures known { IfOk result IsMetaRequest }
    ensures runnable { IfOk result IsRunnableRequest }
{
    match Operation::of(op) {
        Some(operation) => asked_by(alloc, operation, body),
        None => Err(AskFault::NotMine),
    }
}

/// The same by the operation.
fn asked_by(alloc: Global, operation: Operation, body: &[u8]) -> Result<Request, AskFault>
    requires { 10 ≤ length body.now }
    ensures { AnswersAs (asked (ask_of operation) body.now) result }
{
    match operation {
        Operation::CacheNames => {
            read_asked::<(), _, _>(alloc, body, |()| Ok(Request::Run(Call::Names)))
        }
        Operation::Create => read_asked::<Text, _, _>(alloc, body, create),
        Operation::GetOrCreate => read_asked::<Text, _, _>(alloc, body, get_or_create),
        Operation::Destroy => read_asked::<i32, _, _>(alloc, body, |cache| {
            Ok(Request::Run(Call::Destroy { cache }))
        }),
        Operation::GetTypeName => {
            read_asked::<(u8, i32), _, _>(alloc, body, |(platform, type_id)| {
                Ok(Request::Run(Call::TypeName { platform, type_id }))
            })
        }
        Operation::RegisterTypeName => {
            read_asked::<((u8, i32), Text), _, _>(alloc, body, |((platform, type_id), name)| {
                Ok(Request::Run(Call::SetTypeName {
                    platform,
                    type_id,
                    name,
                }))
            })
        }
        Operation::GetType => read_asked::<i32, _, _>(alloc, body, |type_id| {
            Ok(Request::Run(Call::TypeOf { type_id }))
        }),
        Operation::PutType => read_asked::<TypeFields, _, _>(alloc, body, |meta| {
            Ok(Request::Run(Call::PutType { meta }))
        }),
        _ => Err(AskFault::NotMine),
    }
}

/// The name of a cache to be created, unless it is empty.
fn some_name(name: Text) -> Result<Text, Profile>
    ensures { result ≡ unless_refused name (name_profile name) }
{
    if name.as_str().is_empty() {
        return Err(Profile::EmptyName);
    }
    Ok(name)
}

/// The creation of a cache.
fn create(name: Text) -> Result<Request, Profile>
    ensures { result ≡ unless_refused (Run (call.Create name)) (name_profile name) }
{
    match some_name(name) {
        Ok(name) => Ok(Request::Run(Call::Create { name })),
        Err(profile) => Err(profile),
    }
}

/// The creation of a cache unless there is one.
fn get_or_create(name: Text) -> Result<Request, Profile>
    ensures { result ≡ unless_refused (Run (call.GetOrCreate name)) (name_profile name) }
{
    match some_name(name) {
        Ok(name) => Ok(Request::Run(Call::GetOrCreate { name })),
        Err(profile) => Err(profile),
    }
}

/// The body of a request's frame: its identifier, and the request.
#[derive(Drop)]
struct AskBody<'a> {
    id: i64,
    request: &'a Request,
}

impl Message for AskBody<'_> {
    ghost bytes = { λ ask. ask_body ask.id ask.request.now };

    fn put<S: ValueOutput>(&self, out: &mut S, into: &mut [u8]) {
        match self.request {
            Request::Run(call) => put_call(self.id, call, out, into),
            _ => put_ask_head(Operation::CacheNames, self.id, out, into),
        }
    }
}

/// Puts the head and the fields of a call.
fn put_call<S: ValueOutput>(id: i64, call: &Call, out: &mut S, into: &mut [u8])
    ensures { (out.new, into.new)
        ≡ S.Output.after out.old into.old (ask_body id (Run call.now)) }
{
    put_ask_head(operation_of(call), id, out, into);
    put_fields(call, out, into);
}

/// The operation of a call.
fn operation_of(call: &Call) -> Operation
    ensures { result ≡ (form_of (Run call.now)).operation }
{
    match call {
        Call::Create { .. } => Operation::Create,
        Call::GetOrCreate { .. } => Operation::GetOrCreate,
        Call::Destroy { .. } => Operation::Destroy,
        Call::TypeName { .. } => Operation::GetTypeName,
        Call::SetTypeName { .. } => Operation::RegisterTypeName,
        Call::TypeOf { .. } => Operation::GetType,
        Call::PutType { .. } => Operation::PutType,
        _ => Operation::CacheNames,
    }
}

/// Puts the fields of a call.
fn put_fields<S: ValueOutput>(call: &Call, out: &mut S, into: &mut [u8])
    ensures { (out.new, into.new)
        ≡ S.Output.after out.old into.old (filled_bytes (form_of (Run call.now)).filled) }
{
    match call {
        Call::Create { name } => <Text as FieldFormat>::put(name, out, into),
        Call::GetOrCreate { name } => <Text as FieldFormat>::put(name, out, into),
        Call::Destroy { cache } => <i32 as FieldFormat>::put(cache, out, into),
        Call::TypeName { platform, type_id } => put_type_on(platform, type_id, out, into),
        Call::SetTypeName {
            platform,
            type_id,
            name,
        } => put_type_name(platform, type_id, name, out, into),
        Call::TypeOf { type_id } => <i32 as FieldFormat>::put(type_id, out, into),
        Call::PutType { meta } => <TypeFields as FieldFormat>::put(meta, out, into),
        _ => {}
    }
}

/// Puts a platform and a type.
fn put_type_on<S: ValueOutput>(platform: &u8, type_id: &i32, out: &mut S, into: &mut [u8])
    ensures { (out.new, into.new) ≡ S.Output.after out.old into.old
        (fields_bytes type_name (platform.now, type_id.now)) }
{
    <u8 as FieldFormat>::put(platform, out, into);
    <i32 as FieldFormat>::put(type_id, out, into);
}

/// Puts a platform, a type and its name there.
fn put_type_name<S: ValueOutput>(
    platform: &u8,
    type_id: &i32,
    name: &Text,
    out: &mut S,
    into: &mut [u8],
)
    ensures { (out.new, into.new) ≡ S.Output.after out.old into.old
        (fields_bytes (both type_name a_string) ((platform.now, type_id.now), name.now)) }
{
    put_type_on(platform, type_id, out, into);
    <Text as FieldFormat>::put(name, out, into);
}

/// Appends the frame of a request, unless its body is above the limit of frames. Answers whether it
/// did. Where it did not, and on an error, the bytes are as before.
///
/// # Errors
///
/// [`NoMemory`] if memory runs out.
pub fn write_ask(
    alloc: Global,
    id: i64,
    request: &Request,
    out: &mut Octets,
) -> Result<bool, NoMemory>
    requires { IsMetaRequest request.now }
    ensures when { IfOk result (λ done. IsTrue done
        ↔ (length (ask_body id request.now) ≤ max_body)) }
    ensures done { result ≡ Ok true → out.new ≡ out.old ++ Frame (ask_body id request.now) }
    ensures unchanged { result ≢ Ok true → out.new ≡ out.old }
{
    append_frame(alloc, &AskBody { id, request }, out)
}
