//! The result of decoding.

use ig_value::Value;

/// A decoded value.
#[derive(Debug, Drop)]
pub struct Decoded {
    pub value: Value,
    /// How many bytes encode it.
    pub used: usize,
    /// Whether these bytes are its canonical form.
    pub canonical: bool,
}
