//! The limits that both ends keep to. The greatest length of a body is `MAX_FRAME` of `ig_frame`, and
//! the greatest depth of a value `DEEPEST` of `ig_value`.

/// How many cursors a session may have open.
pub const OPEN_CURSORS: usize = 128;

/// How many calls of a channel may wait for a reply.
pub const PENDING_CALLS: usize = 1_024;

/// How many caches may stand.
pub const CACHES: usize = 1_024;

/// How many creations and destructions of caches there may be.
pub const CACHE_CHANGES: i32 = i32::MAX;

/// How many bytes a session may take.
pub const SESSION_BYTES: u64 = 1 << 48;

/// How many bytes of a reply's frame are shown at once.
pub const PIECE: usize = 65_536;
