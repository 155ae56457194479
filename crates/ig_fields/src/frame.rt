//! Messages as frames.

ghost use Rattle.std.specs.Prelude.{◌≡◌, ◌≢◌, ◌↔◌, ◌≤◌, ◌++◌, pos, true, length, IsTrue, IfOk, Ok};
ghost use Rattle.std.specs.Int.{w16, w32, w64};
ghost use Rattle.ig_base.specs.Numbers.{LE};
ghost use Rattle.ig_base.specs.Frames.{Frame, max_body};
ghost use Rattle.ig_wire.specs.Operations.{operation_code};

use crate::message::{Message, append_message, message_len};
use ig_base::{NoMemory, Octets};
use ig_encode::{Output, ValueOutput, put_count, put_i16, put_i64};
use ig_frame::MAX_FRAME;
use ig_wire::Operation;
use std::alloc::Global;

/// The number of bytes of a frame's length.
const LENGTH_BYTES: usize = 4;

/// A body after its length.
#[derive(Drop)]
struct Framed<'a, M> {
    len: usize,
    body: &'a M,
}

impl<M: Message> Message for Framed<'_, M> {
    ghost bytes = { λ framed. LE w32 (pos framed.len) ++ M.bytes framed.body.now };

    fn put<S: ValueOutput>(&self, out: &mut S, into: &mut [u8]) {
        put_count(self.len, out, into);
        self.body.put(out, into);
    }
}

/// Appends the frame with this body, unless the body is above the limit of frames. Answers whether it
/// did. Where it did not, and on an error, the bytes are as before.
pub fn append_frame<M: Message>(alloc: Global, body: &M, out: &mut Octets) -> Result<bool, NoMemory>
    ensures when { IfOk result (λ done. IsTrue done ↔ (length (M.bytes body.now) ≤ max_body)) }
    ensures done { result ≡ Ok true → out.new ≡ out.old ++ Frame (M.bytes body.now) }
    ensures unchanged { result ≢ Ok true → out.new ≡ out.old }
{
    let len = message_len(body);
    if len > MAX_FRAME as u128 {
        return Ok(false);
    }
    let len = len as usize;
    let framed = Framed { len, body };
    append_message(alloc, &framed, LENGTH_BYTES + len, out)?;
    Ok(true)
}

/// Puts the head of a request's body: the operation and the identifier.
pub fn put_ask_head<S: Output>(operation: Operation, id: i64, out: &mut S, into: &mut [u8])
    ensures { (out.new, into.new)
        ≡ S.after out.old into.old (LE w16 (operation_code operation) ++ LE w64 id) }
{
    put_i16(operation.code(), out, into);
    put_i64(id, out, into);
}
