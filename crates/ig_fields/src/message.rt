//! Messages as their bytes: the length, any part, and the whole.

ghost use Rattle.std.specs.Prelude.{◌≡◌, ℕ, ◌+◌, ◌-◌, ◌^◌, ◌++◌, min, List, length, take, drop, replicate, OnOk, OnErr};

use ig_base::{NoMemory, Octets};
use ig_encode::{Measure, Output, ValueOutput, Window};
use std::alloc::Global;
use std::mem;

/// What is written as bytes, once for each output: it gives its length, its bytes and any part of them.
pub trait Message {
    /// Its bytes.
    ghost bytes: { Self → List ℕ };

    /// Puts its bytes. Takes no memory.
    fn put<S: ValueOutput>(&self, out: &mut S, into: &mut [u8])
        ensures { (out.new, into.new) ≡ S.Output.after out.old into.old (bytes self.now) };
}

/// The number of bytes; it saturates at `u128::MAX`. Takes no memory.
pub fn message_len<M: Message>(message: &M) -> u128
    ensures { result ≡ min (length (M.bytes message.now)) (2 ^ 128 - 1) }
{
    let mut measure = Measure::counting();
    message.put(&mut measure, &mut []);
    measure.length.total()
}

/// Fills the slice with the bytes from an offset on. Answers how many bytes it filled: the slice's
/// length, or what is left, whichever is less. Takes no memory.
pub fn message_part<M: Message>(message: &M, from: u64, into: &mut [u8]) -> usize
    ensures count { result ≡ min (length into.old) (length (M.bytes message.now) - from) }
    ensures bytes { into.new
        ≡ take result (drop from (M.bytes message.now)) ++ drop result into.old }
{
    let mut window = Window::from(from);
    message.put(&mut window, into);
    window.filled()
}

/// Appends the bytes, which are this many. On an error the bytes are as before.
pub fn append_message<M: Message>(
    alloc: Global,
    message: &M,
    len: usize,
    out: &mut Octets,
) -> Result<(), NoMemory>
    requires { len ≡ length (M.bytes message.now) }
    ensures ok { OnOk result (out.new ≡ out.old ++ M.bytes message.now) }
    ensures err { OnErr result (out.new ≡ out.old) }
{
    let mut bytes = mem::replace(out, Octets::empty(alloc)).into_std();
    let start = bytes.len();
    let grown = grow(&mut bytes, len);
    if grown.is_ok() {
        fill(message, start, &mut bytes);
    }
    *out = Octets::new(bytes);
    grown
}

/// Appends this many bytes, which are 0.
fn grow(bytes: &mut Vec<u8>, more: usize) -> Result<(), NoMemory>
    ensures ok { OnOk result (bytes.new.items ≡ bytes.old.items ++ replicate more 0) }
    ensures err { OnErr result (bytes.new.items ≡ bytes.old.items) }
{
    let Some(len) = bytes.len().checked_add(more) else {
        return Err(NoMemory);
    };
    bytes.resize(len, 0)?;
    Ok(())
}

/// Writes the bytes over those from an offset on.
fn fill<M: Message>(message: &M, start: usize, bytes: &mut Vec<u8>)
    requires { start + length (M.bytes message.now) ≡ length bytes.old.items }
    ensures { bytes.new.items ≡ take start bytes.old.items ++ M.bytes message.now }
{
    let (_, room) = bytes.as_mut_slice().split_at_mut(start);
    message_part(message, 0, room);
}
