//! Why a text could not be read.

ghost use Rattle.std.specs.Prelude.{◌≡◌};
ghost use Rattle.ig_text.specs.declared.fault.ReadError.TheVariants.{NoMemory as out_of_memory};

use ig_base::NoMemory;
use std::alloc::{AllocError, AllocFailed};
use std::fmt;

/// Why a text could not be read.
#[derive(Clone, Copy, Debug, PartialEq, Eq)]
pub enum TextFault {
    /// The bytes aren't a text.
    Bad {
        /// The offset of the first wrong part: a word, a number, a quoted text or a mark.
        place: usize,
    },
    /// There was no memory for what the text says.
    NoMemory,
}

impl fmt::Display for TextFault {
    fn fmt<W: fmt::Write>(&self, f: &mut fmt::Formatter<W>) -> fmt::Result {
        match self {
            TextFault::Bad { place } => write!(f, "the text is wrong at offset {place}"),
            TextFault::NoMemory => write!(f, "no memory"),
        }
    }
}

impl std::error::Error for TextFault {}

/// Why a part could not be read.
#[derive(Clone, Copy, Debug)]
pub enum ReadError {
    NoMemory,
    /// The first wrong part, by the number of bytes that are left where it begins.
    Bad { left: usize },
}

impl From<NoMemory> for ReadError {
    ghost from_gives = { λ _ e. e ≡ out_of_memory };

    fn from(_error: NoMemory) -> ReadError {
        ReadError::NoMemory
    }
}

impl From<AllocError> for ReadError {
    ghost from_gives = { λ _ e. e ≡ out_of_memory };

    fn from(_error: AllocError) -> ReadError {
        ReadError::NoMemory
    }
}

impl<T: Drop> From<AllocFailed<T>> for ReadError {
    ghost from_gives = { λ _ e. e ≡ out_of_memory };

    fn from(_error: AllocFailed<T>) -> ReadError {
        ReadError::NoMemory
    }
}
