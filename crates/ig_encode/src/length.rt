//! Lengths that no number of items overflows.

/// A number of bytes: `high` times 2^64, plus `low`. The high number saturates.
#[derive(Clone, Copy, Debug, PartialEq, Eq)]
pub struct Length {
    pub low: u64,
    pub high: u128,
}

impl Length {
    ghost use Rattle.std.specs.Prelude.{◌≡◌, ◌+◌, ◌*◌, ◌-◌, ◌^◌, min};

    /// No bytes.
    pub fn zero() -> Length
        ensures low { result.low ≡ 0 }
        ensures high { result.high ≡ 0 }
    {
        Length { low: 0, high: 0 }
    }

    /// The number of bytes; it saturates at `u128::MAX`.
    pub fn total(&self) -> u128
        ensures { result ≡ min (self.now.high * 2 ^ 64 + self.now.low) (2 ^ 128 - 1) }
    {
        let high = self.high.saturating_mul(18_446_744_073_709_551_616);
        high.saturating_add(self.low as u128)
    }
}
