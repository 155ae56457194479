//! Little-endian numbers, read from a byte slice and appended to a buffer.

ghost use Rattle.std.specs.Prelude.{◌≡◌, ◌+◌, ◌<◌, ◌++◌, ◌↔◌, length, take, drop, ℤ, FitsSigned, IsNone, IfSome, OnOk, OnErr};
ghost use Rattle.std.specs.Int.{w16, w32, w64};
ghost use Rattle.ig_base.specs.Numbers.{LE, number_at};

use crate::memory::NoMemory;
use crate::octets::Octets;

/// Reads the Int16 at offset `at`. `None` exactly if fewer than two bytes stand there. Takes no memory.
#[tactic(auto, unfolding(crate::specs::Numbers::LE))]
pub fn get_i16(bytes: &[u8], at: usize) -> Option<i16>
    ensures none { IsNone result ↔ (length bytes.now < at + 2) }
    ensures spelled { IfSome result (λ n. LE w16 n ≡ take 2 (drop at bytes.now)) }
    ensures read { (z : ℤ) → FitsSigned w16 z → LE w16 z ≡ take 2 (drop at bytes.now)
        → result ≡ Some z }
    ensures exact { result ≡ number_at w16 bytes.now at }
{
    match bytes.get(at..)? {
        [a, b, ..] => Some(i16::from_le_bytes([*a, *b])),
        _ => None,
    }
}

/// Reads the Int32 at offset `at`. `None` exactly if fewer than four bytes stand there. Takes no memory.
#[tactic(auto, unfolding(crate::specs::Numbers::LE))]
pub fn get_i32(bytes: &[u8], at: usize) -> Option<i32>
    ensures none { IsNone result ↔ (length bytes.now < at + 4) }
    ensures spelled { IfSome result (λ n. LE w32 n ≡ take 4 (drop at bytes.now)) }
    ensures read { (z : ℤ) → FitsSigned w32 z → LE w32 z ≡ take 4 (drop at bytes.now)
        → result ≡ Some z }
    ensures exact { result ≡ number_at w32 bytes.now at }
{
    match bytes.get(at..)? {
        [a, b, c, d, ..] => Some(i32::from_le_bytes([*a, *b, *c, *d])),
        _ => None,
    }
}

/// Reads the Int64 at offset `at`. `None` exactly if fewer than eight bytes stand there. Takes no memory.
#[tactic(auto, unfolding(crate::specs::Numbers::LE))]
pub fn get_i64(bytes: &[u8], at: usize) -> Option<i64>
    ensures none { IsNone result ↔ (length bytes.now < at + 8) }
    ensures spelled { IfSome result (λ n. LE w64 n ≡ take 8 (drop at bytes.now)) }
    ensures read { (z : ℤ) → FitsSigned w64 z → LE w64 z ≡ take 8 (drop at bytes.now)
        → result ≡ Some z }
    ensures exact { result ≡ number_at w64 bytes.now at }
{
    match bytes.get(at..)? {
        [a, b, c, d, e, f, g, h, ..] => {
            Some(i64::from_le_bytes([*a, *b, *c, *d, *e, *f, *g, *h]))
        }
        _ => None,
    }
}

/// Appends the two bytes of an Int16. On an error the bytes are as before.
#[tactic(auto, unfolding(crate::specs::Numbers::LE))]
pub fn put_i16(out: &mut Octets, n: i16) -> Result<(), NoMemory>
    ensures ok { OnOk result (out.new ≡ out.old ++ LE w16 n) }
    ensures err { OnErr result (out.new ≡ out.old) }
{
    out.append(&i16::to_le_bytes(n))
}

/// Appends the four bytes of an Int32. On an error the bytes are as before.
#[tactic(auto, unfolding(crate::specs::Numbers::LE))]
pub fn put_i32(out: &mut Octets, n: i32) -> Result<(), NoMemory>
    ensures ok { OnOk result (out.new ≡ out.old ++ LE w32 n) }
    ensures err { OnErr result (out.new ≡ out.old) }
{
    out.append(&i32::to_le_bytes(n))
}

/// Appends the eight bytes of an Int64. On an error the bytes are as before.
#[tactic(auto, unfolding(crate::specs::Numbers::LE))]
pub fn put_i64(out: &mut Octets, n: i64) -> Result<(), NoMemory>
    ensures ok { OnOk result (out.new ≡ out.old ++ LE w64 n) }
    ensures err { OnErr result (out.new ≡ out.old) }
{
    out.append(&i64::to_le_bytes(n))
}
