//! How an object with fields is divided.

use ig_base::Footer;

/// How the bytes of an object with fields are divided. Offsets count from its first byte.
#[derive(Clone, Copy, Debug)]
pub(crate) struct Layout {
    /// The offset of the footer, where the fields end.
    pub(crate) schema_at: usize,
    /// The length of the object.
    pub(crate) length: usize,
    /// The form of the footer.
    pub(crate) form: Footer,
}
