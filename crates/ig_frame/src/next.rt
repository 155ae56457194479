//! What a stream has at a place.

/// What a stream has at its place.
#[derive(Clone, Copy, Debug, PartialEq, Eq)]
pub enum Next<'a> {
    /// A whole frame.
    Frame {
        /// The offset of the frame in the stream, at which its length begins.
        place: u64,
        /// Its body, without the four bytes of the length.
        body: &'a [u8],
    },
    /// No whole frame yet.
    More {
        /// How many bytes are missing: to the end of the length where fewer than four bytes are there,
        /// else to the end of the frame.
        missing: u64,
    },
    /// A length that is out of range.
    Bad {
        /// The offset of the length in the stream.
        place: u64,
        /// The length.
        length: i32,
    },
}
