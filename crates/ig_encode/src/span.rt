//! What a walk over an object's fields finds before a byte of the object is written.

use crate::length::Length;
use crate::measure::Measure;

/// How many bytes an offset has in a footer.
#[derive(Clone, Copy, Debug, PartialEq, Eq)]
pub(crate) enum OffsetWidth {
    One,
    Two,
    Four,
}

/// The offset of a field: its lowest 32 bits, and the least width that holds all of it.
#[derive(Clone, Copy, Debug, PartialEq, Eq)]
pub(crate) struct Offset {
    pub(crate) low: u32,
    pub(crate) width: OffsetWidth,
}

/// The fields of an object, counted: how many bytes they have, and the offset of the last of them
/// (0 without fields).
#[derive(Clone, Copy, Debug, PartialEq, Eq)]
pub(crate) struct Extent {
    pub(crate) length: Length,
    pub(crate) last: Offset,
}

/// The fields of an object and its footer, measured. How wide the footer's offsets are is known at
/// the last field only, so a footer of each width is measured.
#[derive(Debug, Drop)]
pub(crate) struct Span {
    pub(crate) fields: Measure,
    /// The offset of the last field; 0 without fields.
    pub(crate) last: Offset,
    pub(crate) narrow: Measure,
    pub(crate) middle: Measure,
    pub(crate) wide: Measure,
}
