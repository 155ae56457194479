//! How a channel breaks, and why its calls are refused.

ghost use Rattle.std.specs.Prelude.{◌≡◌};
ghost use Rattle.ig_client.specs.declared.fault.ChannelFault.TheVariants as fault;
ghost use Rattle.ig_client.specs.declared.fault.HandshakeFault.TheVariants as handshake;

use ig_base::{NoMemory, Text};
use ig_wire::Version;
use std::alloc::AllocError;
use std::error::Error;
use std::fmt;

/// How a channel broke.
#[derive(Clone, Copy, Debug, PartialEq, Eq)]
pub enum Break {
    /// A read of the link failed.
    ReadFault,
    /// A write of the link failed.
    WriteFault,
    /// The server ended the connection.
    PeerEnded,
    /// The length of a frame is out of range.
    BadFrame {
        /// The offset of the length in what the server sent after its reply to the hello.
        place: u64,
        /// The length.
        length: i32,
    },
    /// The server sent a reply to a call that isn't pending.
    Unasked {
        /// The identifier in the reply.
        id: i64,
    },
    /// The client closed the channel.
    Closed,
}

/// Why a call of a channel is refused.
#[derive(Clone, Copy, Debug, PartialEq, Eq)]
pub enum ChannelFault {
    /// The channel broke in this call.
    Broke(Break),
    /// The channel broke before, first in this way.
    Down(Break),
    /// The reply doesn't read.
    BadReply {
        /// The offset, from the frame's first length byte on, at which the first wrong item begins.
        place: usize,
    },
    /// The frame of the request is above the limit.
    TooLong,
    /// As many calls are pending as may be.
    Full,
    /// All identifiers were used.
    Spent,
    /// Out of memory.
    NoMemory,
}

/// Why a handshake failed.
#[derive(Debug, Drop)]
pub enum HandshakeFault {
    /// The link failed or ended, or the length of the server's frame is out of range.
    Broke(Break),
    /// The server's frame isn't a reply to a hello.
    BadReply {
        /// The offset, from the frame's first length byte on, at which the first wrong item begins.
        place: usize,
    },
    /// The server refuses the hello.
    Refused {
        /// The highest version that it accepts.
        version: Version,
        /// Why it refuses the hello.
        text: Text,
    },
    /// Out of memory.
    NoMemory,
}

impl From<NoMemory> for HandshakeFault {
    ghost from_gives = { λ _ e. e ≡ handshake.NoMemory };

    fn from(_error: NoMemory) -> HandshakeFault {
        HandshakeFault::NoMemory
    }
}

impl From<AllocError> for HandshakeFault {
    ghost from_gives = { λ _ e. e ≡ handshake.NoMemory };

    fn from(_error: AllocError) -> HandshakeFault {
        HandshakeFault::NoMemory
    }
}

impl From<AllocError> for ChannelFault {
    ghost from_gives = { λ _ e. e ≡ fault.NoMemory };

    fn from(_error: AllocError) -> ChannelFault {
        ChannelFault::NoMemory
    }
}

impl From<NoMemory> for ChannelFault {
    ghost from_gives = { λ _ e. e ≡ fault.NoMemory };

    fn from(_error: NoMemory) -> ChannelFault {
        ChannelFault::NoMemory
    }
}

impl fmt::Display for Break {
    fn fmt<W: fmt::Write>(&self, f: &mut fmt::Formatter<W>) -> fmt::Result {
        match self {
            Break::ReadFault => write!(f, "reading the connection failed"),
            Break::WriteFault => write!(f, "writing the connection failed"),
            Break::PeerEnded => write!(f, "the server ended the connection"),
            Break::BadFrame { place, length } => write!(
                f,
                "the server's frame at offset {place} has the length {length}, which is out of range"
            ),
            Break::Unasked { id } => write!(
                f,
                "the server replied to call {id}, which isn't pending"
            ),
            Break::Closed => write!(f, "the channel was closed"),
        }
    }
}

impl Error for Break {}

impl fmt::Display for ChannelFault {
    fn fmt<W: fmt::Write>(&self, f: &mut fmt::Formatter<W>) -> fmt::Result {
        match self {
            ChannelFault::Broke(cause) => fmt::Display::fmt(cause, f),
            ChannelFault::Down(cause) => write!(f, "the channel broke before: {cause}"),
            ChannelFault::BadReply { place } => write!(
                f,
                "the server's reply is malformed at offset {place} of its frame"
            ),
            ChannelFault::TooLong => write!(f, "the request is longer than a frame may be"),
            ChannelFault::Full => write!(f, "too many calls of the channel are pending"),
            ChannelFault::Spent => write!(f, "the channel has used all identifiers"),
            ChannelFault::NoMemory => fmt::Display::fmt(&NoMemory, f),
        }
    }
}

impl Error for ChannelFault {}

impl fmt::Display for HandshakeFault {
    fn fmt<W: fmt::Write>(&self, f: &mut fmt::Formatter<W>) -> fmt::Result {
        match self {
            HandshakeFault::Broke(cause) => fmt::Display::fmt(cause, f),
            HandshakeFault::BadReply { place } => write!(
                f,
                "the server's reply to the hello is malformed at offset {place} of its frame"
            ),
            HandshakeFault::Refused { version, text } => {
                let text = text.as_str();
                write!(
                    f,
                    "the server, whose highest version is {version}, refused the hello: {text}"
                )
            }
            HandshakeFault::NoMemory => fmt::Display::fmt(&NoMemory, f),
        }
    }
}

impl Error for HandshakeFault {}
