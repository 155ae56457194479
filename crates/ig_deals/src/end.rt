//! How a session ends.

use ig_wire::HelloFault;
use std::error::Error;
use std::fmt;

/// How a session ended.
#[derive(Clone, Copy, Debug, PartialEq, Eq)]
pub enum SessionEnd {
    /// The input ended after a whole frame, and the hello was accepted.
    Ended,
    /// The input ended elsewhere: this many more bytes complete the length or frame that it ended
    /// in.
    Truncated { missing: u64 },
    /// The frame at this offset of the input has a length out of range.
    BadFrame { place: u64, length: i32 },
    /// The hello was refused, and the refusal was written.
    HelloRefused(HelloFault),
    /// A read of the input failed.
    ReadFault,
    /// A write of the output failed.
    WriteFault,
    /// 2^48 bytes of input were read, the most that a session takes.
    ByteLimit,
    /// Out of memory, for the input or for a reply.
    NoMemory,
}

impl fmt::Display for SessionEnd {
    fn fmt<W: fmt::Write>(&self, f: &mut fmt::Formatter<W>) -> fmt::Result {
        match self {
            SessionEnd::Ended => write!(f, "the input ended after a whole frame"),
            SessionEnd::Truncated { missing: 1 } => {
                write!(f, "the input ended with 1 byte missing")
            }
            SessionEnd::Truncated { missing } => {
                write!(f, "the input ended with {missing} bytes missing")
            }
            SessionEnd::BadFrame { place, length } => write!(
                f,
                "the frame at offset {place} has the length {length}, which is out of range"
            ),
            SessionEnd::HelloRefused(fault) => write!(f, "the hello was refused: {fault}"),
            SessionEnd::ReadFault => write!(f, "reading the input failed"),
            SessionEnd::WriteFault => write!(f, "writing the output failed"),
            SessionEnd::ByteLimit => {
                write!(
                    f,
                    "the client sent 2^48 bytes, the most that a session takes"
                )
            }
            SessionEnd::NoMemory => write!(f, "out of memory"),
        }
    }
}

impl Error for SessionEnd {}
