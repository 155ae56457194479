//! The fields of a capture.

/// A field of a capture. After the bytes of a record comes the side of the next one.
#[derive(Clone, Copy, Debug, PartialEq, Eq)]
pub(crate) enum Field {
    /// The first four bytes.
    Magic,
    /// The side of a record.
    Side,
    /// Its session.
    Session {
        server: bool,
    },
    /// The number of its bytes.
    Count {
        server: bool,
        session: u32,
    },
    /// Its bytes, of which some are left.
    Bytes {
        server: bool,
        session: u32,
        count: u32,
        left: u32,
    },
}
