//! The bytes of the parts that hold no value.

ghost use Rattle.std.specs.Prelude.{◌≡◌, ◌+◌, ◌<◌, ◌≤◌, ◌++◌, ◌∷◌, [], pos, List, ℕ, length};
ghost use Rattle.std.specs.Int.{w32};
ghost use Rattle.std.specs.List.{flat_map};
ghost use Rattle.ig_base.specs.Numbers.{LE};
ghost use Rattle.ig_value.specs.Part as scalar;
ghost use Rattle.ig_value.specs.Table.{byte_of};
ghost use Rattle.ig_value.specs.Spells.{scalar_bytes};
ghost use Rattle.ig_value.specs.Canon.{counted_bytes, optional_bytes, uuid_bytes, stamp_bytes, decimal_bytes};
ghost use Rattle.ig_encode.specs.Splice.{splice as spliced};
ghost use Rattle.ig_encode.specs.ScalarLengths.{wide_i8, wide_i16, wide_i32, wide_i64, wide_u16, wide_u32, wide_u64, wide_truth};

use crate::output::Output;
use crate::splice::copy_at;
use ig_base::{NodeId, Octets, Text};
use ig_value::{Code, Dec, Stamp};

/// A part with one encoding.
pub(crate) trait Spell {
    ghost bytes: { Self → List ℕ };

    /// Puts its bytes.
    fn put<S: Output>(&self, out: &mut S, into: &mut [u8])
        ensures { (out.new, into.new) ≡ S.after out.old into.old (bytes self.now) };
}

/// A part with a fixed number of bytes.
pub(crate) trait WriteElement: Spell {
    ghost byte_count: { ℕ };

    /// The number of bytes.
    fn width() -> usize
        ensures count { result ≡ byte_count }
        ensures some { 0 < result }
        ensures small { result ≤ 8 };

    /// Writes its bytes into the slice at an index.
    fn write_at(&self, into: &mut [u8], at: usize)
        requires { at + byte_count ≤ length into.old }
        ensures { into.new ≡ spliced into.old at (Self.bytes self.now) };

    ghost wide: { (x : Self) → length (Self.bytes x) ≡ byte_count };
}

#[tactic(auto, unfolding(ig_base::specs::Numbers::LE))]
impl Spell for i8 {
    ghost bytes = { scalar_bytes scalar.i8 };

    fn put<S: Output>(&self, out: &mut S, into: &mut [u8]) {
        out.put(into, &self.to_le_bytes());
    }
}

#[tactic(auto, unfolding(ig_base::specs::Numbers::LE))]
impl Spell for i16 {
    ghost bytes = { scalar_bytes scalar.i16 };

    fn put<S: Output>(&self, out: &mut S, into: &mut [u8]) {
        out.put(into, &self.to_le_bytes());
    }
}

#[tactic(auto, unfolding(ig_base::specs::Numbers::LE))]
impl Spell for i32 {
    ghost bytes = { scalar_bytes scalar.i32 };

    fn put<S: Output>(&self, out: &mut S, into: &mut [u8]) {
        out.put(into, &self.to_le_bytes());
    }
}

#[tactic(auto, unfolding(ig_base::specs::Numbers::LE))]
impl Spell for i64 {
    ghost bytes = { scalar_bytes scalar.i64 };

    fn put<S: Output>(&self, out: &mut S, into: &mut [u8]) {
        out.put(into, &self.to_le_bytes());
    }
}

#[tactic(auto, unfolding(ig_base::specs::Numbers::LE))]
impl Spell for u16 {
    ghost bytes = { scalar_bytes scalar.u16 };

    fn put<S: Output>(&self, out: &mut S, into: &mut [u8]) {
        out.put(into, &self.to_le_bytes());
    }
}

#[tactic(auto, unfolding(ig_base::specs::Numbers::LE))]
impl Spell for u32 {
    ghost bytes = { scalar_bytes scalar.u32 };

    fn put<S: Output>(&self, out: &mut S, into: &mut [u8]) {
        out.put(into, &self.to_le_bytes());
    }
}

#[tactic(auto, unfolding(ig_base::specs::Numbers::LE))]
impl Spell for u64 {
    ghost bytes = { scalar_bytes scalar.u64 };

    fn put<S: Output>(&self, out: &mut S, into: &mut [u8]) {
        out.put(into, &self.to_le_bytes());
    }
}

impl Spell for bool {
    ghost bytes = { scalar_bytes scalar.truth };

    fn put<S: Output>(&self, out: &mut S, into: &mut [u8]) {
        out.put(into, &[if *self { 1 } else { 0 }]);
    }
}

impl Spell for Text {
    ghost bytes = { counted_bytes };

    fn put<S: Output>(&self, out: &mut S, into: &mut [u8]) {
        put_bytes(self.as_str().as_bytes(), out, into);
    }
}

impl Spell for Octets {
    ghost bytes = { counted_bytes };

    fn put<S: Output>(&self, out: &mut S, into: &mut [u8]) {
        put_bytes(self.as_slice(), out, into);
    }
}

impl Spell for NodeId {
    ghost bytes = { uuid_bytes };

    fn put<S: Output>(&self, out: &mut S, into: &mut [u8]) {
        self.most.put(out, into);
        self.least.put(out, into);
    }
}

impl Spell for Stamp {
    ghost bytes = { stamp_bytes };

    fn put<S: Output>(&self, out: &mut S, into: &mut [u8]) {
        self.millis.put(out, into);
        self.nanos.put(out, into);
    }
}

impl Spell for Dec {
    ghost bytes = { decimal_bytes };

    fn put<S: Output>(&self, out: &mut S, into: &mut [u8]) {
        self.scale.put(out, into);
        self.bytes.put(out, into);
    }
}

#[tactic(auto, unfolding(ig_base::specs::Numbers::LE))]
impl WriteElement for i8 {
    ghost byte_count = { 1 };

    ghost wide = { wide_i8 };

    fn width() -> usize {
        1
    }

    #[inline(always)]
    fn write_at(&self, into: &mut [u8], at: usize) {
        copy_at(into, at, &self.to_le_bytes());
    }
}

#[tactic(auto, unfolding(ig_base::specs::Numbers::LE))]
impl WriteElement for i16 {
    ghost byte_count = { 2 };

    ghost wide = { wide_i16 };

    fn width() -> usize {
        2
    }

    #[inline(always)]
    fn write_at(&self, into: &mut [u8], at: usize) {
        copy_at(into, at, &self.to_le_bytes());
    }
}

#[tactic(auto, unfolding(ig_base::specs::Numbers::LE))]
impl WriteElement for i32 {
    ghost byte_count = { 4 };

    ghost wide = { wide_i32 };

    fn width() -> usize {
        4
    }

    #[inline(always)]
    fn write_at(&self, into: &mut [u8], at: usize) {
        copy_at(into, at, &self.to_le_bytes());
    }
}

#[tactic(auto, unfolding(ig_base::specs::Numbers::LE))]
impl WriteElement for i64 {
    ghost byte_count = { 8 };

    ghost wide = { wide_i64 };

    fn width() -> usize {
        8
    }

    #[inline(always)]
    fn write_at(&self, into: &mut [u8], at: usize) {
        copy_at(into, at, &self.to_le_bytes());
    }
}

#[tactic(auto, unfolding(ig_base::specs::Numbers::LE))]
impl WriteElement for u16 {
    ghost byte_count = { 2 };

    ghost wide = { wide_u16 };

    fn width() -> usize {
        2
    }

    #[inline(always)]
    fn write_at(&self, into: &mut [u8], at: usize) {
        copy_at(into, at, &self.to_le_bytes());
    }
}

#[tactic(auto, unfolding(ig_base::specs::Numbers::LE))]
impl WriteElement for u32 {
    ghost byte_count = { 4 };

    ghost wide = { wide_u32 };

    fn width() -> usize {
        4
    }

    #[inline(always)]
    fn write_at(&self, into: &mut [u8], at: usize) {
        copy_at(into, at, &self.to_le_bytes());
    }
}

#[tactic(auto, unfolding(ig_base::specs::Numbers::LE))]
impl WriteElement for u64 {
    ghost byte_count = { 8 };

    ghost wide = { wide_u64 };

    fn width() -> usize {
        8
    }

    #[inline(always)]
    fn write_at(&self, into: &mut [u8], at: usize) {
        copy_at(into, at, &self.to_le_bytes());
    }
}

#[tactic(auto, unfolding(ig_base::specs::Numbers::LE))]
impl WriteElement for bool {
    ghost byte_count = { 1 };

    ghost wide = { wide_truth };

    fn width() -> usize {
        1
    }

    #[inline(always)]
    fn write_at(&self, into: &mut [u8], at: usize) {
        copy_at(into, at, &[if *self { 1 } else { 0 }]);
    }
}

/// Puts a count of bytes or items, an Int32.
#[tactic(auto, unfolding(ig_base::specs::Numbers::LE))]
pub fn put_count<S: Output>(count: usize, out: &mut S, into: &mut [u8])
    ensures { (out.new, into.new) ≡ S.after out.old into.old (LE w32 (pos count)) }
{
    let bytes = count.to_le_bytes();
    out.put(into, &bytes[..4]);
}

/// Writes an Int32 count into the slice at an index.
#[tactic(auto, unfolding(ig_base::specs::Numbers::LE))]
#[inline(always)]
pub(crate) fn write_count(count: usize, into: &mut [u8], at: usize)
    requires { at + 4 ≤ length into.old }
    ensures { into.new ≡ spliced into.old at (LE w32 (pos count)) }
{
    let bytes = count.to_le_bytes();
    copy_at(into, at, &bytes[..4]);
}

/// Puts an Int32 count and the bytes.
fn put_bytes<S: Output>(bytes: &[u8], out: &mut S, into: &mut [u8])
    ensures { (out.new, into.new) ≡ S.after out.old into.old (counted_bytes bytes.now) }
{
    put_count(bytes.len(), out, into);
    out.put(into, bytes);
}
