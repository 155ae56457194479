//! Canonical encodings of keys in memory that is kept.

ghost use Rattle.std.specs.Prelude.{◌≡◌, ◌<◌, ◌≤◌, length, take, vec_len, IfSome, IfNone, IfOk};
ghost use Rattle.ig_value.specs.Canon.{Canon, IsSendable};

use ig_base::NoMemory;
use ig_encode::{canonical_len, encode_part};
use ig_value::Value;

/// Writes the canonical encoding of the key over the first bytes of the slice, and answers its length.
/// None exactly if the slice is too short. Takes no memory.
pub(crate) fn spell(key: &Value, into: &mut [u8]) -> Option<usize>
    ensures within { IfSome result (λ len. len ≤ length into.new) }
    ensures bytes { IfSome result (λ len. take len into.new ≡ Canon key.now) }
    ensures short { IfNone result (length into.old < length (Canon key.now)) }
{
    let len = encode_part(key, 0, into);
    if len < into.len() {
        return Some(len);
    }
    if canonical_len(key) > len as u128 {
        return None;
    }
    Some(len)
}

/// The same where the slice is long enough.
pub(crate) fn spell_short(key: &Value, into: &mut [u8]) -> usize
    requires { length (Canon key.now) ≤ length into.old }
    ensures within { result ≤ length into.new }
    ensures bytes { take result into.new ≡ Canon key.now }
{
    encode_part(key, 0, into)
}

/// The same in a vector, which becomes longer if it is too short.
pub(crate) fn spell_growing(key: &Value, into: &mut Vec<u8>) -> Result<usize, NoMemory>
    requires { IsSendable key.now }
    ensures within { IfOk result (λ len. len ≤ vec_len into.new) }
    ensures bytes { IfOk result (λ len. take len into.new.items ≡ Canon key.now) }
    ensures longer { vec_len into.old ≤ vec_len into.new }
{
    if let Some(len) = spell(key, into.as_mut_slice()) {
        return Ok(len);
    }
    into.resize(canonical_len(key) as usize, 0)?;
    Ok(encode_part(key, 0, into.as_mut_slice()))
}
