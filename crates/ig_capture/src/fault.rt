//! Why a capture could not be shown.

ghost use Rattle.std.specs.Prelude.{◌≡◌};
ghost use Rattle.ig_capture.specs.declared.fault.CaptureFault.TheVariants as faults;

use ig_base::NoMemory;
use std::alloc::AllocFailed;
use std::fmt;

/// What is malformed in a capture.
#[derive(Clone, Copy, Debug, PartialEq, Eq)]
pub enum CaptureBad {
    /// The records: the offset in the capture of the first field that is out of range or isn't whole, or of
    /// a record's bytes that aren't whole.
    Stream {
        place: u64,
    },
    /// A message: its session and side, and the offset in that side's stream of the frame that is wrong, or
    /// of the first wrong part of a reply.
    Message {
        session: u32,
        server: bool,
        place: u64,
    },
}

/// Why a capture could not be shown.
#[derive(Clone, Copy, Debug, PartialEq, Eq)]
pub enum CaptureFault {
    /// The capture is malformed.
    Bad(CaptureBad),
    /// There was no memory.
    NoMemory,
}

impl From<NoMemory> for CaptureFault {
    ghost from_gives = { λ _ fault. fault ≡ faults.NoMemory };

    fn from(_error: NoMemory) -> CaptureFault {
        CaptureFault::NoMemory
    }
}

impl<T: Drop> From<AllocFailed<T>> for CaptureFault {
    ghost from_gives = { λ _ fault. fault ≡ faults.NoMemory };

    fn from(_error: AllocFailed<T>) -> CaptureFault {
        CaptureFault::NoMemory
    }
}

impl fmt::Display for CaptureBad {
    fn fmt<W: fmt::Write>(&self, f: &mut fmt::Formatter<W>) -> fmt::Result {
        match self {
            CaptureBad::Stream { place } => write!(f, "malformed stream {place}"),
            CaptureBad::Message {
                session,
                server,
                place,
            } => {
                let side = if *server { "server" } else { "client" };
                write!(f, "malformed session {session} side {side} place {place}")
            }
        }
    }
}

impl fmt::Display for CaptureFault {
    fn fmt<W: fmt::Write>(&self, f: &mut fmt::Formatter<W>) -> fmt::Result {
        match self {
            CaptureFault::Bad(bad) => bad.fmt(f),
            CaptureFault::NoMemory => write!(f, "no memory"),
        }
    }
}

impl std::error::Error for CaptureBad {}

impl std::error::Error for CaptureFault {}
