//! Why a message can't be read.

use ig_base::NoMemory;
use std::error::Error;
use std::fmt;

/// A message that doesn't read.
#[derive(Clone, Copy, Debug, PartialEq, Eq)]
pub struct Unread {
    /// The offset, from the frame's first length byte on, at which the first wrong item begins.
    pub place: usize,
}

impl fmt::Display for Unread {
    fn fmt<W: fmt::Write>(&self, f: &mut fmt::Formatter<W>) -> fmt::Result {
        write!(
            f,
            "the message is malformed at offset {} of its frame",
            self.place
        )
    }
}

impl Error for Unread {}

/// Why a message from a server wasn't read.
#[derive(Clone, Copy, Debug, PartialEq, Eq)]
pub enum ReadFault {
    /// The server sent what doesn't read.
    Unread(Unread),
    /// There was no memory for what was read.
    NoMemory,
}

impl fmt::Display for ReadFault {
    fn fmt<W: fmt::Write>(&self, f: &mut fmt::Formatter<W>) -> fmt::Result {
        match self {
            ReadFault::Unread(unread) => fmt::Display::fmt(unread, f),
            ReadFault::NoMemory => fmt::Display::fmt(&NoMemory, f),
        }
    }
}

impl Error for ReadFault {}
