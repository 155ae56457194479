//! Why what takes memory could not be read.

ghost use Rattle.std.specs.Prelude.{◌≡◌};
ghost use Rattle.ig_wire.specs.declared.read_error.ReadError.TheVariants as error;

use crate::stop::Stop;
use std::alloc::{AllocError, AllocFailed};

/// Why a field that takes memory could not be read.
#[derive(Clone, Copy, Debug)]
pub enum ReadError {
    NoMemory,
    Stopped(Stop),
}

impl From<Stop> for ReadError {
    ghost from_gives = { λ stop e. e ≡ error.Stopped stop };

    fn from(stop: Stop) -> ReadError {
        ReadError::Stopped(stop)
    }
}

impl From<AllocError> for ReadError {
    ghost from_gives = { λ _ e. e ≡ error.NoMemory };

    fn from(_error: AllocError) -> ReadError {
        ReadError::NoMemory
    }
}

impl<T: Drop> From<AllocFailed<T>> for ReadError {
    ghost from_gives = { λ _ e. e ≡ error.NoMemory };

    fn from(_error: AllocFailed<T>) -> ReadError {
        ReadError::NoMemory
    }
}
