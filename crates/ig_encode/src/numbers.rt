//! Numbers and bytes that stand outside of values, as in heads and results.

ghost use Rattle.std.specs.Prelude.{◌≡◌, ◌∷◌, []};
ghost use Rattle.std.specs.Int.{w16, w32, w64};
ghost use Rattle.ig_base.specs.Numbers.{LE};

use crate::output::Output;
use crate::spell::Spell;

/// Puts a byte.
pub fn put_byte<S: Output>(byte: u8, out: &mut S, into: &mut [u8])
    ensures { (out.new, into.new) ≡ S.after out.old into.old (byte ∷ []) }
{
    out.put(into, &[byte]);
}

/// Puts an Int16.
pub fn put_i16<S: Output>(number: i16, out: &mut S, into: &mut [u8])
    ensures { (out.new, into.new) ≡ S.after out.old into.old (LE w16 number) }
{
    number.put(out, into);
}

/// Puts an Int32.
pub fn put_i32<S: Output>(number: i32, out: &mut S, into: &mut [u8])
    ensures { (out.new, into.new) ≡ S.after out.old into.old (LE w32 number) }
{
    number.put(out, into);
}

/// Puts an Int64.
pub fn put_i64<S: Output>(number: i64, out: &mut S, into: &mut [u8])
    ensures { (out.new, into.new) ≡ S.after out.old into.old (LE w64 number) }
{
    number.put(out, into);
}

/// Puts bytes.
pub fn put_bytes<S: Output>(bytes: &[u8], out: &mut S, into: &mut [u8])
    ensures { (out.new, into.new) ≡ S.after out.old into.old bytes.now }
{
    out.put(into, bytes);
}
