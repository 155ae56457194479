//! How the command `decode` ends.

/// How the command `decode` ends.
#[derive(Clone, Copy, Debug, PartialEq, Eq)]
pub enum DecodeEnd {
    /// The capture ended, and nothing in it is malformed.
    Ended,
    /// Something in the capture is malformed.
    Malformed,
    /// A read failed.
    ReadFault,
    /// A write failed.
    WriteFault,
    /// As many bytes were taken as may be.
    ByteLimit,
    /// Out of memory.
    NoMemory,
}
