//! The words that texts of values begin with.

use ig_value::Code;

/// What the word at the beginning of a text tells.
#[derive(Clone, Copy, Debug, PartialEq, Eq)]
pub enum Row {
    /// A value of this kind. Of an object, that its fields have identifiers.
    Kind(Code),
    /// An object whose fields are those of a schema.
    CompactObject,
}
