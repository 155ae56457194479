//! The calls that decode.

ghost use Rattle.std.specs.Prelude.{◌≡◌, ◌↔◌, ◌≤◌, length, drop, IsTrue, IfOk};
ghost use Rattle.ig_value.specs.Reading.{value_at};
ghost use Rattle.ig_value.specs.Canon.{Canon};
ghost use Rattle.ig_decode.specs.ReaderAnswers.{ReaderAnswers};
ghost use Rattle.ig_decode.specs.Exactness.{KeepsExact};
ghost use Rattle.ig_decode.specs.DecodeAnswers.{IsRight, FindsWhatIsSpelled, RefusesWhatStops, Reads, HasByteForEachNode, IsCanonical};

use crate::answer::Decoded;
use crate::fault::{DecodeFault, ReadError, Refusal};
use crate::value::value_of;
use ig_base::NoMemory;
use ig_value::{DEEPEST, Value};
use std::alloc::Global;

/// Decodes the value that a prefix of the bytes encodes. Other bytes may follow it.
///
/// Where no prefix encodes a value, it refuses the bytes, with the offset of the first wrong item
/// and the cause. The only other error is out of memory.
pub fn decode(alloc: Global, bytes: &[u8]) -> Result<Decoded, DecodeFault>
    ensures right { IsRight bytes.now 0 result }
    ensures found { FindsWhatIsSpelled bytes.now 0 result }
    ensures refused { RefusesWhatStops bytes.now 0 result }
    ensures nodes { HasByteForEachNode result }
    ensures reads { Reads bytes.now 0 result }
{
    decode_at(alloc, bytes, 0)
}

/// The same from an offset on. The offset of a refusal counts from the beginning of the bytes.
pub fn decode_at(alloc: Global, bytes: &[u8], at: usize) -> Result<Decoded, DecodeFault>
    requires { at ≤ length bytes.now }
    ensures right { IsRight bytes.now at result }
    ensures found { FindsWhatIsSpelled bytes.now at result }
    ensures refused { RefusesWhatStops bytes.now at result }
    ensures nodes { HasByteForEachNode result }
    ensures reads { Reads bytes.now at result }
{
    let mut exact = true;
    match read_from(alloc, bytes, at, &mut exact) {
        Ok((value, rest)) => Ok(Decoded {
            value,
            used: bytes.len() - at - rest.len(),
            canonical: exact,
        }),
        Err(ReadError::NoMemory) => Err(DecodeFault::NoMemory),
        Err(ReadError::Fault { left, cause }) => Err(DecodeFault::Refused(Refusal {
            place: bytes.len() - left,
            cause,
        })),
    }
}

/// The value at an offset, and the bytes after it.
fn read_from<'a>(
    alloc: Global,
    bytes: &'a [u8],
    at: usize,
    exact: &mut bool,
) -> Result<(Value, &'a [u8]), ReadError>
    requires { at ≤ length bytes.now }
    ensures reads { ReaderAnswers (λ x. (x.0, x.1.now))
        result (value_at 32 (drop at bytes.now)) }
    ensures exact { IfOk result (λ x. KeepsExact
        exact.old exact.new (drop at bytes.now) (Canon x.0) x.1.now) }
{
    let (_, rest) = bytes.split_at(at);
    value_of(alloc, DEEPEST, rest, exact)
}

/// Whether the bytes, all of them, are the canonical form of a value.
pub fn is_canonical(alloc: Global, bytes: &[u8]) -> Result<bool, NoMemory>
    ensures { IfOk result (λ yes. IsTrue yes ↔ IsCanonical bytes.now) }
{
    match decode(alloc, bytes) {
        Ok(decoded) => Ok(decoded.canonical && decoded.used == bytes.len()),
        Err(DecodeFault::Refused(_)) => Ok(false),
        Err(DecodeFault::NoMemory) => Err(NoMemory),
    }
}
