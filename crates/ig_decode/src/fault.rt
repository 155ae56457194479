//! Why bytes could not be read.

ghost use Rattle.std.specs.Prelude.{◌≡◌};
ghost use Rattle.ig_decode.specs.declared.fault.ReadError.TheVariants.{NoMemory, Fault};

use ig_value::Cause;
use std::alloc::{AllocError, AllocFailed};
use std::fmt;

/// The offset at which the bytes stop being a value, and why they do.
#[derive(Clone, Copy, Debug, PartialEq, Eq)]
pub struct Refusal {
    /// The offset of the first wrong item, from the beginning of the bytes.
    pub place: usize,
    pub cause: Cause,
}

/// Why decoding failed.
#[derive(Clone, Copy, Debug, PartialEq, Eq)]
pub enum DecodeFault {
    /// The bytes don't begin with a value.
    Refused(Refusal),
    /// There was no memory for the value.
    NoMemory,
}

impl fmt::Display for Refusal {
    fn fmt<W: fmt::Write>(&self, f: &mut fmt::Formatter<W>) -> fmt::Result {
        write!(f, "{} at offset {}", self.cause, self.place)
    }
}

impl std::error::Error for Refusal {}

impl fmt::Display for DecodeFault {
    fn fmt<W: fmt::Write>(&self, f: &mut fmt::Formatter<W>) -> fmt::Result {
        match self {
            DecodeFault::Refused(refusal) => write!(f, "{refusal}"),
            DecodeFault::NoMemory => write!(f, "no memory"),
        }
    }
}

impl std::error::Error for DecodeFault {}

/// The first wrong item, by the number of bytes that are left where it begins.
#[derive(Clone, Copy, Debug)]
pub(crate) struct Stop {
    pub(crate) left: usize,
    pub(crate) cause: Cause,
}

/// Why a part could not be read.
#[derive(Clone, Copy, Debug)]
pub(crate) enum ReadError {
    NoMemory,
    /// The first wrong item, as a [`Stop`] has it.
    Fault { left: usize, cause: Cause },
}

impl From<Stop> for ReadError {
    ghost from_gives = { λ s e. e ≡ Fault s.left s.cause };

    fn from(stop: Stop) -> ReadError {
        ReadError::Fault {
            left: stop.left,
            cause: stop.cause,
        }
    }
}

impl From<ig_base::NoMemory> for ReadError {
    ghost from_gives = { λ _ e. e ≡ NoMemory };

    fn from(_error: ig_base::NoMemory) -> ReadError {
        ReadError::NoMemory
    }
}

impl From<AllocError> for ReadError {
    ghost from_gives = { λ _ e. e ≡ NoMemory };

    fn from(_error: AllocError) -> ReadError {
        ReadError::NoMemory
    }
}

impl<T: Drop> From<AllocFailed<T>> for ReadError {
    ghost from_gives = { λ _ e. e ≡ NoMemory };

    fn from(_error: AllocFailed<T>) -> ReadError {
        ReadError::NoMemory
    }
}
