//! The bytes of a value from an offset on.

/// A slice being filled with the bytes from an offset on: how many bytes are still to be skipped,
/// and how many bytes of the slice are filled.
#[derive(Debug, Drop)]
pub struct Window {
    pub(crate) skip: u64,
    pub(crate) filled: usize,
}

impl Window {
    ghost use Rattle.std.specs.Prelude.{◌≡◌};

    /// A window that begins at this offset, over a slice of which nothing is filled.
    pub fn from(offset: u64) -> Window
        ensures skip { result.skip ≡ offset }
        ensures filled { result.filled ≡ 0 }
    {
        Window {
            skip: offset,
            filled: 0,
        }
    }

    /// How many bytes of the slice are filled.
    pub fn filled(&self) -> usize
        ensures { result ≡ self.now.filled }
    {
        self.filled
    }
}
