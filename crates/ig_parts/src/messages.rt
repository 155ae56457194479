//! Message 1101: partition maps, asked for and answered.

ghost use Rattle.std.specs.Prelude.{◌≡◌, ◌≢◌, ◌↔◌, ◌≤◌, ◌++◌, true, length, Some, IsTrue, IfOk, OnOk, OnErr, Ok};
ghost use Rattle.ig_base.specs.Frames.{Frame, max_body};
ghost use Rattle.ig_fields.specs.AsksRightly.{AsksRightly, asked};
ghost use Rattle.ig_fields.specs.AskAnswers.{AnswersAs};
ghost use Rattle.ig_fields.specs.ShowsRightly.{ShowsRightly, shown_by};
ghost use Rattle.ig_fields.specs.ShownAnswers.{ShowsAs};
ghost use Rattle.ig_parts.specs.Owner.{HasParts};
ghost use Rattle.ig_parts.specs.PartsMessages.{parts_row, ask_body, map_form, map_bytes};

use crate::map::PartMap;
use ig_base::{Items, NoMemory, Octets};
use ig_encode::{Output, ValueOutput};
use ig_fields::{
    Message, append_frame, append_message, ask_fields, message_len, put_ask_head, put_items,
    read_shown,
};
use ig_wire::{AskFault, Operation, ReadFault};
use std::alloc::Global;

/// The identifiers of the caches whose maps are asked for. Their list comes after the ten bytes of
/// the request's head; offsets count from the frame's first length byte.
///
/// # Errors
///
/// [`AskFault::Unread`] exactly if the list doesn't read or bytes follow it, and
/// [`AskFault::NoMemory`] if memory runs out.
pub fn read_parts_ask(alloc: Global, body: &[u8]) -> Result<Items<i32>, AskFault>
    requires { 10 ≤ length body.now }
    ensures right { AsksRightly (Some parts_row) body.now result }
    ensures reads { AnswersAs (asked (Some parts_row) body.now) result }
{
    ask_fields::<Items<i32>>(alloc, body)
}

/// The body of a request's frame: its identifier, and the caches.
#[derive(Drop)]
struct AskBody<'a> {
    id: i64,
    caches: &'a Items<i32>,
}

impl Message for AskBody<'_> {
    ghost bytes = { λ ask. ask_body ask.id ask.caches.now };

    fn put<S: ValueOutput>(&self, out: &mut S, into: &mut [u8]) {
        put_ask_head(Operation::PartitionMaps, self.id, out, into);
        put_items::<i32, S>(self.caches.as_slice(), out, into);
    }
}

/// Appends the frame of a request for the maps of these caches, unless its body is above the limit
/// of frames. Answers whether it did. Where it did not, and on an error, the bytes are as before.
pub fn write_parts_ask(
    alloc: Global,
    id: i64,
    caches: &Items<i32>,
    out: &mut Octets,
) -> Result<bool, NoMemory>
    ensures when { IfOk result (λ done. IsTrue done
        ↔ (length (ask_body id caches.now) ≤ max_body)) }
    ensures done { result ≡ Ok true → out.new ≡ out.old ++ Frame (ask_body id caches.now) }
    ensures unchanged { result ≢ Ok true → out.new ≡ out.old }
{
    append_frame(alloc, &AskBody { id, caches }, out)
}

/// The map that stands in the body from this offset on. Offsets of what doesn't read count from the
/// frame's first length byte. Each partition of the map is from 0 to 65,535.
///
/// # Errors
///
/// [`ReadFault::Unread`] exactly if the map doesn't read or bytes follow it, and
/// [`ReadFault::NoMemory`] if memory runs out.
pub fn read_parts(alloc: Global, body: &[u8], at: usize) -> Result<PartMap, ReadFault>
    requires { at ≤ length body.now }
    ensures right { ShowsRightly map_form body.now at result }
    ensures reads { ShowsAs (shown_by map_form body.now at) result }
    ensures parts { IfOk result HasParts }
{
    read_shown::<PartMap, PartMap, _>(alloc, body, at, |map| map)
}

/// Appends the bytes of a map. On an error the bytes are as before. Their number is [`message_len`]
/// of the map, and [`ig_fields::message_part`] gives any part of them.
///
/// A map is read as it is only if it keeps to the limits: partitions from 0 to 65,535, lists of
/// less than 2^31 items, and no pairs or nodes in a group that isn't applicable.
pub fn write_parts(alloc: Global, map: &PartMap, out: &mut Octets) -> Result<(), NoMemory>
    ensures ok { OnOk result (out.new ≡ out.old ++ map_bytes map.now) }
    ensures err { OnErr result (out.new ≡ out.old) }
{
    let Ok(len) = usize::try_from(message_len(map)) else {
        return Err(NoMemory);
    };
    append_message(alloc, map, len, out)
}
