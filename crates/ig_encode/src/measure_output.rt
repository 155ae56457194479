//! A measure as an output: it counts the bytes, hashes them where it has a digest, and keeps none.

ghost use Rattle.std.specs.Prelude.{◌≡◌, ◌*◌, ◌<◌, ◌≤◌, ◌+◌, ◌-◌, ◌^◌, List, ℕ, length, IsTrue, IsFalse, IfSome, IsNone};
ghost use Rattle.ig_base.specs.Hashes.{java_step, sign_extension};
ghost use Rattle.ig_encode.specs.MeasureOutput.{measured_after, measured_empty, measured_longer, measure_after, count_after, no_length, no_digest, digest_after, counting_start, hashing_start, fresh_of};

use crate::length::Length;
use crate::measure::{Digest, Measure};
use crate::output::Output;

impl Measure {
    /// The measure of no bytes, which only counts.
    pub fn counting() -> Measure
        ensures { result ≡ counting_start }
    {
        Measure {
            length: Length::zero(),
            digest: None,
        }
    }

    /// The measure of no bytes, which counts and hashes.
    pub fn hashing() -> Measure
        ensures { result ≡ hashing_start }
    {
        Measure {
            length: Length::zero(),
            digest: Some(Digest { pow: 1, sum: 0 }),
        }
    }

    /// Takes bytes by their measure, which hashes where this one does.
    pub(crate) fn absorb(&mut self, bytes: &Measure)
        ensures { (taken : List ℕ) → bytes.now ≡ measure_after (fresh_of self.old) taken
            → self.new ≡ measure_after self.old taken }
    {
        add(&mut self.length, &bytes.length);
        if let Some(digest) = &mut self.digest {
            if let Some(more) = &bytes.digest {
                compose(digest, more);
            }
        }
    }
}

impl Output for Measure {
    ghost after = { measured_after };

    ghost empty = { measured_empty };

    ghost longer = { measured_longer };

    fn put(&mut self, _into: &mut [u8], bytes: &[u8]) {
        count_more(&mut self.length, bytes.len());
        if let Some(digest) = &mut self.digest {
            hash_more(digest, bytes);
        }
    }

    fn count(&mut self, more: usize) -> bool {
        match self.digest {
            Some(_) => false,
            None => {
                count_more(&mut self.length, more);
                true
            }
        }
    }

    fn place(&mut self, _room: usize, _more: usize) -> Option<usize> {
        None
    }

    fn pass(&mut self, _into: &[u8], width: usize, count: usize) -> usize {
        match self.digest {
            Some(_) => 0,
            None => {
                carry(&mut self.length, width as u128 * count as u128);
                count
            }
        }
    }

    fn claim(&mut self, _room: usize, _width: usize, _count: usize) -> (usize, usize) {
        (0, 0)
    }

    fn is_full(&self, _into: &[u8]) -> bool {
        false
    }
}

/// Counts more bytes.
#[inline(always)]
pub(crate) fn count_more(length: &mut Length, more: usize)
    ensures { length.new ≡ count_after length.old more }
{
    match length.low.checked_add(more as u64) {
        Some(low) => length.low = low,
        None => carry(length, more as u128),
    }
}

/// Counts more bytes, which may carry into the high number.
#[inline(never)]
pub(crate) fn carry(length: &mut Length, more: u128)
    requires { more ≤ 2 ^ 128 - 2 ^ 64 }
    ensures { length.new ≡ count_after length.old more }
{
    let sum = length.low as u128 + more;
    length.low = (sum % 18_446_744_073_709_551_616) as u64;
    length.high = length.high.saturating_add(sum / 18_446_744_073_709_551_616);
}

/// Counts as many bytes as another length.
pub(crate) fn add(length: &mut Length, more: &Length)
    ensures { (n : ℕ) → more.now ≡ count_after no_length n → length.new ≡ count_after length.old n }
{
    let sum = length.low as u128 + more.low as u128;
    length.low = (sum % 18_446_744_073_709_551_616) as u64;
    let high = length.high.saturating_add(more.high);
    length.high = high.saturating_add(sum / 18_446_744_073_709_551_616);
}

/// Hashes bytes by their digest.
fn compose(digest: &mut Digest, more: &Digest)
    ensures { (bytes : List ℕ) → more.now ≡ digest_after no_digest bytes
        → digest.new ≡ digest_after digest.old bytes }
{
    digest.sum = digest.sum.wrapping_mul(more.pow).wrapping_add(more.sum);
    digest.pow = digest.pow.wrapping_mul(more.pow);
}

/// The hash after one more byte, a signed number.
fn byte_after(hash: u32, byte: u8) -> u32
    ensures { result ≡ java_step hash (sign_extension byte) }
{
    let signed = i32::from(byte.cast_signed()).cast_unsigned();
    hash.wrapping_mul(31).wrapping_add(signed)
}

/// Hashes more bytes. What eight of them do to a hash is found beside the hash before them, so that
/// a step waits for one product in place of eight.
fn hash_more(digest: &mut Digest, bytes: &[u8])
    ensures { digest.new ≡ digest_after digest.old bytes.now }
{
    let mut rest = bytes;
    while rest.len() >= 8 {
        let (eight, after) = rest.split_at(8);
        let mut step = Digest { pow: 1, sum: 0 };
        hash_each(&mut step, eight);
        compose(digest, &step);
        rest = after;
    }
    hash_each(digest, rest);
}

/// Hashes more bytes, one by one.
#[inline(always)]
#[tactic(auto, unfolding(crate::specs::MeasureOutput::digest_after))]
fn hash_each(digest: &mut Digest, bytes: &[u8])
    ensures { digest.new ≡ digest_after digest.old bytes.now }
{
    let mut pow = digest.pow;
    let mut sum = digest.sum;
    for byte in bytes {
        pow = pow.wrapping_mul(31);
        sum = byte_after(sum, *byte);
    }
    digest.pow = pow;
    digest.sum = sum;
}
