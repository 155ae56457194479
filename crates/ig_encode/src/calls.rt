//! The calls that encode.

ghost use Rattle.std.specs.Prelude.{◌≡◌, ◌-◌, ◌+◌, ◌^◌, ◌≤◌, ◌++◌, min, length, take, drop, replicate, OnOk, OnErr};
ghost use Rattle.std.specs.Int.{w32, cast_signed};
ghost use Rattle.std.specs.List.{flat_map};
ghost use Rattle.ig_base.specs.Hashes.{BytesHash};
ghost use Rattle.ig_value.specs.Canon.{Canon, IsSendable};
ghost use Rattle.ig_encode.specs.Marks.{IsMarkOf};

use crate::advance::move_path;
use crate::fill_walk::fill_value;
use crate::mark::Mark;
use crate::measure::Measure;
use crate::measure_walk::{measure_value, measure_values};
use crate::object::hash_of;
use crate::resume::fill_from;
use crate::window::Window;
use ig_base::{NoMemory, Octets};
use ig_value::{Object, Value};
use std::alloc::Global;
use std::mem;

/// The number of bytes of the canonical form; it saturates at `u128::MAX`. Takes no memory.
///
/// As all calls here it recurses as deep as the tree: for a tree beyond the limits
/// (`Value::keeps_to_limits`) its contract still holds, but the call stack may overflow.
pub fn canonical_len(value: &Value) -> u128
    ensures { result ≡ min (length (Canon value.now)) (2 ^ 128 - 1) }
{
    let mut measure = Measure::counting();
    measure_value(value, &mut measure);
    measure.length.total()
}

/// Fills the slice with the bytes of the canonical form from an offset on. Answers how many bytes
/// it filled: the slice's length, or what is left of the form, whichever is less. Takes no memory.
pub fn encode_part(value: &Value, from: u64, into: &mut [u8]) -> usize
    ensures count { result ≡ min (length into.old) (length (Canon value.now) - from) }
    ensures bytes { into.new ≡ take result (drop from (Canon value.now)) ++ drop result into.old }
{
    let mut window = Window::from(from);
    fill_value(value, &mut window, into);
    window.filled
}

/// Fills the slice with the next bytes of the canonical form, from the mark on, and moves the mark
/// past them. Answers how many bytes it filled, as [`encode_part`] does. Takes no memory.
///
/// What stands before the mark isn't written again, and isn't counted again either: a call walks
/// what it writes, counts the values from the mark to where the piece ends, and enters the one that
/// the piece ends in. So a value of n bytes that is shown piece by piece takes time of the order of
/// n for each level of values in one another, however it is built, but for two things. A mark keeps
/// 32 steps, so a value deeper than that, or at that depth a footer or an array whose items may be
/// null, is walked anew at each piece. A piece that ends in the footer of an object counts the last
/// field of it. The mark has to be one of this value.
pub fn encode_next(value: &Value, mark: &mut Mark, into: &mut [u8]) -> usize
    requires sendable { IsSendable value.now }
    requires mark { IsMarkOf value.now mark.old }
    ensures count { result
        ≡ min (length into.old) (length (Canon value.now) - mark.old.offset) }
    ensures bytes { into.new
        ≡ take result (drop mark.old.offset (Canon value.now)) ++ drop result into.old }
    ensures moved { mark.new.offset ≡ mark.old.offset + result }
    ensures mark { IsMarkOf value.now mark.new }
{
    let mut window = Window::from(mark.offset);
    fill_from(value, &mark.steps[..mark.depth], &mut window, into);
    let filled = window.filled;
    mark.offset += filled as u64;
    let moved = move_path(value, &mut mark.steps[..], mark.depth, mark.offset);
    mark.depth = moved.depth;
    filled
}

/// Appends the canonical form. It takes its memory first, so an error leaves the bytes as they
/// were.
///
/// A tree beyond the limits (`Value::keeps_to_limits`) is written too, as deep as the call stack
/// allows, but no decoder takes the bytes.
pub fn encode(alloc: Global, value: &Value, out: &mut Octets) -> Result<(), NoMemory>
    requires { IsSendable value.now }
    ensures ok { OnOk result (out.new ≡ out.old ++ Canon value.now) }
    ensures err { OnErr result (out.new ≡ out.old) }
{
    encode_known(alloc, value, canonical_len(value) as usize, out)
}

/// The same for a caller that knows the length of the canonical form, which isn't counted again.
pub fn encode_known(
    alloc: Global,
    value: &Value,
    len: usize,
    out: &mut Octets,
) -> Result<(), NoMemory>
    requires { len ≡ length (Canon value.now) }
    ensures ok { OnOk result (out.new ≡ out.old ++ Canon value.now) }
    ensures err { OnErr result (out.new ≡ out.old) }
{
    let mut bytes = mem::replace(out, Octets::empty(alloc)).into_std();
    let start = bytes.len();
    let grown = grow(&mut bytes, len);
    if grown.is_ok() {
        fill(value, start, &mut bytes);
    }
    *out = Octets::new(bytes);
    grown
}

/// The hash of an object, as the header of its canonical form has it: over the canonical forms of
/// its fields. Takes no memory, so it never refuses.
pub fn object_hash(object: &Object) -> Result<i32, NoMemory>
    ensures { result ≡ Ok (cast_signed w32 (BytesHash (flat_map Canon object.now.fields))) }
{
    let mut measure = Measure::hashing();
    measure_values(object.fields.as_slice(), &mut measure);
    Ok(hash_of(&measure))
}

/// Appends this many bytes, which are 0.
fn grow(bytes: &mut Vec<u8>, more: usize) -> Result<(), NoMemory>
    ensures ok { OnOk result (bytes.new.items ≡ bytes.old.items ++ replicate more 0) }
    ensures err { OnErr result (bytes.new.items ≡ bytes.old.items) }
{
    let Some(len) = bytes.len().checked_add(more) else {
        return Err(NoMemory);
    };
    bytes.resize(len, 0)?;
    Ok(())
}

/// Writes the canonical form over the bytes from an offset on.
fn fill(value: &Value, start: usize, bytes: &mut Vec<u8>)
    requires { start + length (Canon value.now) ≡ length bytes.old.items }
    ensures { bytes.new.items ≡ take start bytes.old.items ++ Canon value.now }
{
    let (_, room) = bytes.as_mut_slice().split_at_mut(start);
    encode_part(value, 0, room);
}
