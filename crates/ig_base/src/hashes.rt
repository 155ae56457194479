//! The hashes that make identifiers of names, of complex objects and of their schemas.

ghost use Rattle.std.specs.Prelude.{◌≡◌, ◌+◌, ◌*◌, ◌%◌, ◌^◌, ◌<◌, ◌≤◌, ◌++◌, ℕ, List, fold, length, IfOk, IfErr};
ghost use Rattle.std.specs.Int.{w32, cast_signed};
ghost use Rattle.std.specs.Char.Escape.{encode_utf16};
ghost use Rattle.std.specs.Str.{IsAscii, str_to_ascii_lowercase};
ghost use Rattle.ig_base.specs.Numbers.{LE};
ghost use Rattle.ig_base.specs.Hashes.{Java, java_step, units, IsFirstNotAscii, sign_extension, hash_after, BytesHash, hash_factor, fnv_step, Fnv};

use std::fmt;

/// The hash after the UTF-16 code units of one more character: one, or a surrogate pair.
fn char_after(hash: u32, c: char) -> u32
    ensures { result ≡ fold java_step hash (encode_utf16 c) }
{
    let code = c as u32;
    if code < 0x1_0000 {
        return unit_after(hash, code);
    }
    let past = code - 0x1_0000;
    let high = unit_after(hash, 0xD800 + past / 0x400);
    unit_after(high, 0xDC00 + past % 0x400)
}

/// The hash after one more code unit.
fn unit_after(hash: u32, unit: u32) -> u32
    ensures { result ≡ java_step hash unit }
{
    hash.wrapping_mul(31).wrapping_add(unit)
}

/// The hash of a text as an unsigned number.
#[tactic(auto, using(std::proofs::lemmas::Str::chars_from_encodes))]
fn unsigned_hash(text: &str) -> u32
    ensures { result ≡ Java (units text.now) }
{
    let mut hash = 0u32;
    for c in text.chars() {
        hash = char_after(hash, c);
    }
    hash
}

/// The hash of a text, as Java's `String.hashCode` has it: from 0, each UTF-16 code unit in turn is added
/// to 31 times the hash so far, modulo 2^32. Takes no memory.
pub fn text_hash(text: &str) -> i32
    ensures { result ≡ cast_signed w32 (Java (units text.now)) }
{
    unsigned_hash(text).cast_signed()
}

/// A name with a byte above 127, which has no identifier.
#[derive(Clone, Copy, Debug, PartialEq, Eq)]
pub struct NotAscii {
    /// The offset of the first such byte.
    pub at: usize,
}

impl fmt::Display for NotAscii {
    fn fmt<W: fmt::Write>(&self, f: &mut fmt::Formatter<W>) -> fmt::Result {
        write!(f, "the name isn't ASCII at byte {}", self.at)
    }
}

impl std::error::Error for NotAscii {}

/// The identifier of a type or of a field: the hash of its name in lower case, as [`text_hash`] has it.
/// Only a name of ASCII has one. Takes no memory.
pub fn name_id(name: &str) -> Result<i32, NotAscii>
    ensures ascii { IfOk result (λ id. IsAscii name.now) }
    ensures hash { IfOk result (λ id.
        id ≡ cast_signed w32 (Java (units (str_to_ascii_lowercase name.now)))) }
    ensures refused { IfErr result (λ fault. IsFirstNotAscii fault.at name.now) }
{
    let bytes = name.as_bytes();
    let mut hash = 0u32;
    for at in 0..bytes.len() {
        let byte = bytes[at];
        if byte > 127 {
            return Err(NotAscii { at });
        }
        hash = unit_after(hash, u32::from(byte.to_ascii_lowercase()));
    }
    Ok(hash.cast_signed())
}

/// The hash after one more byte, a signed number.
fn byte_after(hash: u32, byte: u8) -> u32
    ensures { result ≡ java_step hash (sign_extension byte) }
{
    unit_after(hash, i32::from(byte.cast_signed()).cast_unsigned())
}

/// The hash of a complex object's fields, given as their bytes: from 1, each signed byte in turn is
/// added to 31 times the hash so far, modulo 2^32. Takes no memory.
#[tactic(auto, unfolding(crate::specs::Hashes::hash_after))]
pub fn bytes_hash(bytes: &[u8]) -> i32
    ensures { result ≡ cast_signed w32 (BytesHash bytes.now) }
{
    let mut hash = 1u32;
    for byte in bytes {
        hash = byte_after(hash, *byte);
    }
    hash.cast_signed()
}

/// Laws of the hash over bytes, as a function whose contract they are. The hash after a prefix is all
/// that the rest needs. It is the hash before, times the factor of the bytes, plus their hash from 0;
/// so the hash of bytes that were cut anywhere is made of the hashes of the pieces.
pub fn hash_composes()
    ensures appended { (hash : ℕ) (a b : List ℕ)
        → hash_after hash (a ++ b) ≡ hash_after (hash_after hash a) b }
    ensures scaled { (hash : ℕ) (bytes : List ℕ) → hash < 2 ^ 32
        → hash_after hash bytes ≡ (hash * hash_factor bytes + hash_after 0 bytes) % 2 ^ 32 }
    ensures factors { (a b : List ℕ)
        → hash_factor (a ++ b) ≡ (hash_factor a * hash_factor b) % 2 ^ 32 }
    ensures in_range { (hash : ℕ) (bytes : List ℕ)
        → hash < 2 ^ 32 → hash_after hash bytes < 2 ^ 32 }
{}

/// The hash of a schema after one more byte.
fn fnv_byte(hash: u32, byte: u8) -> u32
    ensures { result ≡ fnv_step hash byte }
{
    (hash ^ u32::from(byte)).wrapping_mul(0x0100_0193)
}

/// The hash of a schema after the four bytes of one more field identifier, lowest first.
#[tactic(auto, unfolding(crate::specs::Numbers::LE))]
fn fnv_id(hash: u32, id: i32) -> u32
    ensures { result ≡ fold fnv_step hash (LE w32 id) }
{
    let [a, b, c, d] = i32::to_le_bytes(id);
    fnv_byte(fnv_byte(fnv_byte(fnv_byte(hash, a), b), c), d)
}

/// The identifier of the schema whose fields have these identifiers, in order: the 32-bit FNV-1a hash
/// of their little-endian bytes, and 0 without fields. Takes no memory.
#[tactic(auto, unfolding(crate::specs::Hashes::Fnv))]
pub fn schema_id(ids: &[i32]) -> i32
    ensures { result ≡ cast_signed w32 (Fnv ids.now) }
{
    if ids.is_empty() {
        return 0;
    }
    let mut hash = 0x811C_9DC5u32;
    for id in ids {
        hash = fnv_id(hash, *id);
    }
    hash.cast_signed()
}
