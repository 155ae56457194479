//! Out of memory, as the one error that any allocating call may return.

use std::alloc::{AllocError, AllocFailed};
use std::fmt;

/// Out of memory: the call didn't get the memory that it needs.
#[derive(Clone, Copy, Debug, PartialEq, Eq)]
pub struct NoMemory;

impl fmt::Display for NoMemory {
    fn fmt<W: fmt::Write>(&self, f: &mut fmt::Formatter<W>) -> fmt::Result {
        write!(f, "no memory")
    }
}

impl std::error::Error for NoMemory {}

impl From<AllocError> for NoMemory {
    fn from(_error: AllocError) -> NoMemory {
        NoMemory
    }
}

impl<T: Drop> From<AllocFailed<T>> for NoMemory {
    fn from(_error: AllocFailed<T>) -> NoMemory {
        NoMemory
    }
}

/// Out of memory, from a call that took ownership of its argument and hands it back.
#[derive(Debug, Drop)]
pub struct NoRoom<T> {
    /// The argument, unchanged.
    pub back: T,
}

impl<T> fmt::Display for NoRoom<T> {
    fn fmt<W: fmt::Write>(&self, f: &mut fmt::Formatter<W>) -> fmt::Result {
        fmt::Display::fmt(&NoMemory, f)
    }
}

impl<T: fmt::Debug + Drop> std::error::Error for NoRoom<T> {}
