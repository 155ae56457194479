//! The fields of requests and results, as parts of the bodies of frames.

ghost use Rattle.std.specs.Prelude.{◌≤◌, length, drop, Option, Some};
ghost use Rattle.ig_wire.specs.Fields.{whole};
ghost use Rattle.ig_wire.specs.ReadAnswers.{MessageAnswers};
ghost use Rattle.ig_wire.specs.declared.Profile.{Profile as a_profile};
ghost use Rattle.ig_fields.specs.Ask.{item_ask, item_form};
ghost use Rattle.ig_fields.specs.AsksRightly.{fields_after, asked};
ghost use Rattle.ig_fields.specs.ShowsRightly.{shown_by};
ghost use Rattle.ig_fields.specs.AskAnswers.{AnswersAs, placed_in, unless_refused, Makes};
ghost use Rattle.ig_fields.specs.ShownAnswers.{ShowsAs};

use crate::format::{FieldFormat, read_all};
use ig_wire::{ASK_HEAD, AskFault, Profile, ReadError, ReadFault, Unread};
use std::alloc::Global;

/// The fields of a request, which come after the ten bytes of its head in the frame's body.
pub fn ask_fields<F: FieldFormat>(alloc: Global, body: &[u8]) -> Result<F::Item, AskFault>
    requires { 10 ≤ length body.now }
    ensures { AnswersAs (placed_in body.now (whole (F.reads (fields_after body.now)))) result }
{
    match read_all::<F>(alloc, &body[ASK_HEAD as usize..]) {
        Ok(item) => Ok(item),
        Err(ReadError::NoMemory) => Err(AskFault::NoMemory),
        Err(ReadError::Stopped(stop)) => Err(AskFault::Unread {
            place: stop.place(body),
        }),
    }
}

/// The fields of a result, which stand in the frame's body from this offset on.
pub fn result_fields<F: FieldFormat>(
    alloc: Global,
    body: &[u8],
    at: usize,
) -> Result<F::Item, ReadFault>
    requires { at ≤ length body.now }
    ensures { MessageAnswers body.now result (whole (F.reads (drop at body.now))) }
{
    match read_all::<F>(alloc, &body[at..]) {
        Ok(item) => Ok(item),
        Err(ReadError::NoMemory) => Err(ReadFault::NoMemory),
        Err(ReadError::Stopped(stop)) => Err(ReadFault::Unread(Unread {
            place: stop.place(body),
        })),
    }
}

/// What the fields of a request ask, as the closure has it: the request, or why it isn't served.
pub fn read_asked<F: FieldFormat, A: Drop, C: FnOnce(F::Item) -> Result<A, Profile>>(
    alloc: Global,
    body: &[u8],
    ask: C,
) -> Result<A, AskFault>
    requires long { 10 ≤ length body.now }
    requires call { C.IsAlwaysCallable ask }
    ensures { (request : F.Item → A) (profile : F.Item → Option a_profile)
        → Makes (C.post ask) (λ x. unless_refused (request x) (profile x))
        → AnswersAs (asked (Some (item_ask F.format F.view request profile)) body.now) result }
{
    let item = ask_fields::<F>(alloc, body)?;
    match ask(item) {
        Ok(request) => Ok(request),
        Err(profile) => Err(AskFault::Profile(profile)),
    }
}

/// What the fields of a result show, as the closure has it.
pub fn read_shown<F: FieldFormat, A: Drop, C: FnOnce(F::Item) -> A>(
    alloc: Global,
    body: &[u8],
    at: usize,
    show: C,
) -> Result<A, ReadFault>
    requires within { at ≤ length body.now }
    requires call { C.IsAlwaysCallable show }
    ensures { (shown : F.Item → A) → Makes (C.post show) shown
        → ShowsAs (shown_by (item_form F.format F.view shown) body.now at) result }
{
    let item = result_fields::<F>(alloc, body, at)?;
    Ok(show(item))
}
