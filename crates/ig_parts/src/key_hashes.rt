//! The hash of a key.

ghost use Rattle.std.specs.Prelude.{◌≡◌, ◌/◌, ◌%◌, ◌^◌};
ghost use Rattle.ig_parts.specs.KeyHash.{folded_bits, KeyHash};

use ig_base::{NoMemory, text_hash};
use ig_encode::object_hash;
use ig_value::Value;

/// The hash of true.
const TRUE_HASH: i32 = 1231;
/// The hash of false.
const FALSE_HASH: i32 = 1237;

/// The lower half of the bits, with the upper half mixed in.
fn folded(bits: u64) -> i32
    ensures { result ≡ folded_bits bits }
{
    let lower = (bits ^ (bits >> 32)) % 0x1_0000_0000;
    (lower as u32).cast_signed()
}

/// The hash of a key by which it is routed, or `None` for a kind that isn't routed.
///
/// It takes no memory, so it never refuses.
#[tactic(auto, using(crate::proofs::KeyLemmas::hash_rows))]
pub fn key_hash(key: &Value) -> Result<Option<i32>, NoMemory>
    ensures { result ≡ Ok (KeyHash key.now) }
{
    Ok(Some(match key {
        Value::Byte(n) => i32::from(*n),
        Value::Short(n) => i32::from(*n),
        Value::Int(n) => *n,
        Value::Long(n) => folded(n.cast_unsigned()),
        Value::Char(n) => i32::from(*n),
        Value::Bool(yes) => { if *yes { TRUE_HASH } else { FALSE_HASH } }
        Value::Str(text) => text_hash(text.as_str()),
        Value::Uuid(id) => folded(id.most ^ id.least),
        Value::Object(object) => object_hash(object.get())?,
        _ => return Ok(None),
    }))
}
