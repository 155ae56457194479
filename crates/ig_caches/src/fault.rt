//! Why caches don't start.

use thiserror::Error;

/// Why no caches were made of a list of names.
#[derive(Clone, Copy, Debug, PartialEq, Eq, Error)]
pub enum StartFault {
    /// The name at this index is empty.
    #[error("the name at index {at} is empty")]
    Empty { at: usize },
    /// The name at this index has the identifier of an earlier one.
    #[error("the name at index {at} has the identifier of an earlier name")]
    Taken { at: usize },
    /// There are more than 1,024 names.
    #[error("there are more than 1,024 names")]
    TooMany,
    /// There was no memory for the caches.
    #[error("out of memory")]
    NoMemory,
}
