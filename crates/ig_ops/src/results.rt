//! Results, read and written.

ghost use Rattle.std.specs.Prelude.{◌≡◌, ◌-◌, ◌≤◌, ◌^◌, ◌++◌, min, length, take, drop, IfOk, OnOk, OnErr};
ghost use Rattle.ig_fields.specs.Ask.{row_at};
ghost use Rattle.ig_ops.specs.Results.{result_of, shown_bytes, IsOpsShown};
ghost use Rattle.ig_ops.specs.ReadAnswers.{IsKnown, ShowsRow, RowShowsRightly};

use crate::result_shapes::{
    read_count, read_done, read_first_page, read_next_page, read_rows, read_truth, read_value,
};
use crate::shown_body::ShownBody;
use ig_base::{NoMemory, Octets};
use ig_caches::Shown;
use ig_fields::{append_message, message_len, message_part};
use ig_wire::{Operation, ReadFault};
use std::alloc::Global;

/// What the result shows that stands in the body of a reply's frame from this offset on. `op` is the
/// code of the request's operation; offsets of what doesn't read count from the frame's first length
/// byte.
///
/// # Errors
///
/// [`ReadFault::Unread`] exactly if the result doesn't read or bytes follow it, and
/// [`ReadFault::NoMemory`] if memory runs out.
pub fn read_result(alloc: Global, op: i16, body: &[u8], at: usize) -> Result<Shown, ReadFault>
    requires operation { IsKnown (row_at result_of op) }
    requires within { at ≤ length body.now }
    ensures right { RowShowsRightly (row_at result_of op) body.now at result }
    ensures reads { ShowsRow (row_at result_of op) body.now at result }
    ensures known { IfOk result IsOpsShown }
{
    match Operation::of(op) {
        Some(operation) => read_shown_by(alloc, operation, body, at),
        None => unreachable!(),
    }
}

/// The same by the operation.
fn read_shown_by(
    alloc: Global,
    operation: Operation,
    body: &[u8],
    at: usize,
) -> Result<Shown, ReadFault>
    requires operation { IsKnown (result_of operation) }
    requires within { at ≤ length body.now }
    ensures { ShowsRow (result_of operation) body.now at result }
{
    match operation {
        Operation::Get => read_value(alloc, body, at),
        Operation::Put => read_done(alloc, body, at),
        Operation::PutIfAbsent => read_truth(alloc, body, at),
        Operation::GetAll => read_rows(alloc, body, at),
        Operation::PutAll => read_done(alloc, body, at),
        Operation::GetAndPut => read_value(alloc, body, at),
        Operation::GetAndReplace => read_value(alloc, body, at),
        Operation::GetAndRemove => read_value(alloc, body, at),
        Operation::GetAndPutIfAbsent => read_value(alloc, body, at),
        Operation::Replace => read_truth(alloc, body, at),
        Operation::ReplaceIfEquals => read_truth(alloc, body, at),
        Operation::ContainsKey => read_truth(alloc, body, at),
        Operation::ContainsKeys => read_truth(alloc, body, at),
        Operation::Clear => read_done(alloc, body, at),
        Operation::ClearKey => read_done(alloc, body, at),
        Operation::ClearKeys => read_done(alloc, body, at),
        Operation::RemoveKey => read_truth(alloc, body, at),
        Operation::RemoveIfEquals => read_truth(alloc, body, at),
        Operation::RemoveKeys => read_done(alloc, body, at),
        Operation::RemoveAll => read_done(alloc, body, at),
        Operation::GetSize => read_count(alloc, body, at),
        Operation::Scan => read_first_page(alloc, body, at),
        Operation::NextPage => read_next_page(alloc, body, at),
        Operation::CloseResource => read_done(alloc, body, at),
        _ => unreachable!(),
    }
}

/// Appends the bytes of a result, which come after the head of a reply. On an error the bytes are as
/// before.
pub fn write_result(alloc: Global, shown: &Shown, out: &mut Octets) -> Result<(), NoMemory>
    requires { IsOpsShown shown.now }
    ensures ok { OnOk result (out.new ≡ out.old ++ shown_bytes shown.now) }
    ensures err { OnErr result (out.new ≡ out.old) }
{
    let body = ShownBody { shown };
    let Ok(len) = usize::try_from(message_len(&body)) else {
        return Err(NoMemory);
    };
    append_message(alloc, &body, len, out)
}

/// The number of bytes of a result; it saturates at `u128::MAX`. Takes no memory.
pub fn result_len(shown: &Shown) -> u128
    requires { IsOpsShown shown.now }
    ensures { result ≡ min (length (shown_bytes shown.now)) (2 ^ 128 - 1) }
{
    message_len(&ShownBody { shown })
}

/// Fills the slice with the bytes of a result from an offset on. Answers how many bytes it filled: the
/// slice's length, or what is left of the result, whichever is less. Takes no memory.
pub fn result_part(shown: &Shown, from: u64, into: &mut [u8]) -> usize
    requires { IsOpsShown shown.now }
    ensures count { result ≡ min (length into.old) (length (shown_bytes shown.now) - from) }
    ensures bytes { into.new ≡ take result (drop from (shown_bytes shown.now)) ++ drop result into.old }
{
    message_part(&ShownBody { shown }, from, into)
}
