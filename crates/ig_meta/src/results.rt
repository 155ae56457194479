//! Results.

ghost use Rattle.std.specs.Prelude.{◌≡◌, ◌-◌, ◌≤◌, ◌^◌, ◌++◌, min, length, take, drop, Some, IfSome, IsSome, IfOk, OnOk, OnErr};
ghost use Rattle.ig_caches.specs.declared.Shown.TheVariants.{Out};
ghost use Rattle.ig_fields.specs.Ask.{row_at};
ghost use Rattle.ig_fields.specs.FieldBytes.{fields_bytes};
ghost use Rattle.ig_fields.specs.ShowsRightly.{ShowsRightly, shown_by};
ghost use Rattle.ig_fields.specs.ShownAnswers.{ShowsAs};
ghost use Rattle.ig_meta.specs.Results.{done_form, result_of, IsMetaShown, found_format, found_fields, shown_bytes};
ghost use Rattle.ig_meta.specs.TypeViews.{type_in};
ghost use Rattle.ig_meta.specs.Laws.{ShowsInOrder};

use crate::type_fields::TypeFields;
use ig_base::{Items, NoMemory, Octets, Text};
use ig_caches::{Outcome, Shown};
use ig_encode::{Output, ValueOutput, put_byte};
use ig_fields::{
    Either, FieldFormat, Message, append_message, message_len, message_part, put_items, read_shown,
};
use ig_types::TypeMeta;
use ig_wire::{Operation, ReadFault};
use std::alloc::Global;

/// The byte of a type that has no description.
const NOT_FOUND: u8 = 0;

/// The byte before a description.
const FOUND: u8 = 1;

/// What the result of the operation with this code shows, which stands in the body from this offset on.
/// Offsets of what doesn't read count from the frame's first length byte. The description of a type is
/// in order, in whatever order its members were read.
///
/// # Errors
///
/// [`ReadFault::Unread`] exactly if the result's fields don't read or bytes follow them, and
/// [`ReadFault::NoMemory`] if memory runs out.
pub fn read_result(alloc: Global, op: i16, body: &[u8], at: usize) -> Result<Shown, ReadFault>
    requires known { IsSome (row_at result_of op) }
    requires within { at ≤ length body.now }
    ensures right { IfSome (row_at result_of op) (λ form. ShowsRightly form body.now at result) }
    ensures reads { IfSome (row_at result_of op) (λ form. ShowsAs (shown_by form body.now at) result) }
    ensures shown { IfOk result IsMetaShown }
    ensures in_order { IfOk result ShowsInOrder }
{
    match Operation::of(op) {
        Some(operation) => shown_by(alloc, operation, body, at),
        None => Err(ReadFault::NoMemory),
    }
}

/// The same by the operation.
fn shown_by(alloc: Global, operation: Operation, body: &[u8], at: usize) -> Result<Shown, ReadFault>
    requires known { IsSome (result_of operation) }
    requires within { at ≤ length body.now }
    ensures { IfSome (result_of operation) (λ form. ShowsAs (shown_by form body.now at) result) }
{
    match operation {
        Operation::CacheNames => read_shown::<Items<Text>, _, _>(alloc, body, at, |names| {
            Shown::Out(Outcome::Names(names))
        }),
        Operation::GetTypeName => {
            read_shown::<Text, _, _>(alloc, body, at, |name| Shown::Out(Outcome::Name(name)))
        }
        Operation::RegisterTypeName => {
            read_shown::<bool, _, _>(alloc, body, at, |yes| Shown::Out(Outcome::Yes(yes)))
        }
        Operation::GetType => {
            read_shown::<Either<(), TypeFields>, _, _>(alloc, body, at, |found| {
                Shown::Out(Outcome::Meta(type_in(found)))
            })
        }
        Operation::Create => shown_done(alloc, body, at),
        Operation::GetOrCreate => shown_done(alloc, body, at),
        Operation::Destroy => shown_done(alloc, body, at),
        Operation::PutType => shown_done(alloc, body, at),
        _ => Err(ReadFault::NoMemory),
    }
}

/// What a result without fields shows.
fn shown_done(alloc: Global, body: &[u8], at: usize) -> Result<Shown, ReadFault>
    requires { at ≤ length body.now }
    ensures { ShowsAs (shown_by done_form body.now at) result }
{
    read_shown::<(), _, _>(alloc, body, at, |()| Shown::Out(Outcome::Done))
}

/// The description, if there is one.
fn type_in(found: Either<(), TypeMeta>) -> Option<TypeMeta>
    ensures { result ≡ type_in found }
{
    match found {
        Either::First(()) => None,
        Either::Second(meta) => Some(meta),
    }
}

/// A result as its bytes.
#[derive(Drop)]
struct ShownResult<'a> {
    shown: &'a Shown,
}

impl Message for ShownResult<'_> {
    ghost bytes = { λ result. shown_bytes result.shown.now };

    fn put<S: ValueOutput>(&self, out: &mut S, into: &mut [u8]) {
        if let Shown::Out(outcome) = self.shown {
            put_outcome(outcome, out, into);
        }
    }
}

/// Puts the bytes of an outcome.
fn put_outcome<S: ValueOutput>(outcome: &Outcome, out: &mut S, into: &mut [u8])
    ensures { (out.new, into.new)
        ≡ S.Output.after out.old into.old (shown_bytes (Out outcome.now)) }
{
    match outcome {
        Outcome::Names(names) => put_items::<Text, S>(names.as_slice(), out, into),
        Outcome::Name(name) => <Text as FieldFormat>::put(name, out, into),
        Outcome::Yes(yes) => <bool as FieldFormat>::put(yes, out, into),
        Outcome::Meta(found) => put_found(found, out, into),
        _ => {}
    }
}

/// Puts byte 0, or byte 1 and a description.
fn put_found<S: ValueOutput>(found: &Option<TypeMeta>, out: &mut S, into: &mut [u8])
    ensures { (out.new, into.new)
        ≡ S.Output.after out.old into.old (fields_bytes found_format (found_fields found.now)) }
{
    match found {
        None => put_byte(NOT_FOUND, out, into),
        Some(meta) => {
            put_byte(FOUND, out, into);
            <TypeFields as FieldFormat>::put(meta, out, into);
        }
    }
}

/// Appends the bytes of a result. On an error the bytes are as before.
///
/// # Errors
///
/// [`NoMemory`] if memory runs out.
pub fn write_result(alloc: Global, shown: &Shown, out: &mut Octets) -> Result<(), NoMemory>
    requires { IsMetaShown shown.now }
    ensures ok { OnOk result (out.new ≡ out.old ++ shown_bytes shown.now) }
    ensures err { OnErr result (out.new ≡ out.old) }
{
    let result = ShownResult { shown };
    let Ok(len) = usize::try_from(message_len(&result)) else {
        return Err(NoMemory);
    };
    append_message(alloc, &result, len, out)
}

/// The number of bytes of a result; it saturates at `u128::MAX`. Takes no memory.
pub fn result_len(shown: &Shown) -> u128
    requires { IsMetaShown shown.now }
    ensures { result ≡ min (length (shown_bytes shown.now)) (2 ^ 128 - 1) }
{
    message_len(&ShownResult { shown })
}

/// Fills the slice with the bytes of a result from an offset on. Answers how many bytes it filled: the
/// slice's length, or what is left, whichever is less. Takes no memory.
pub fn result_part(shown: &Shown, from: u64, into: &mut [u8]) -> usize
    requires { IsMetaShown shown.now }
    ensures count { result ≡ min (length into.old) (length (shown_bytes shown.now) - from) }
    ensures bytes { into.new
        ≡ take result (drop from (shown_bytes shown.now)) ++ drop result into.old }
{
    message_part(&ShownResult { shown }, from, into)
}
