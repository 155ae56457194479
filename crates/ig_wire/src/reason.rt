//! The statuses of replies that tell a fault, with their texts.

use crate::ask::Profile;

/// Why a request gets a fault in place of a result.
#[derive(Clone, Copy, Debug, PartialEq, Eq)]
pub enum Reason {
    /// The operation isn't one of the version.
    InvalidOperation,
    /// The fields don't read, or bytes follow them. The offset in the frame follows the text.
    Malformed,
    /// They ask what isn't served.
    Profile(Profile),
    /// The cache's identifier names no cache.
    NoCache,
    /// The name's identifier is that of a cache.
    CacheExists,
    /// A creation while as many caches stand as may.
    TooManyCaches,
    /// A creation or destruction after as many as may be.
    TooManyCacheChanges,
    /// No name is registered for the type.
    NoTypeName,
    /// The type's description clashes with the one that is registered.
    TypeClash,
    /// There was no memory for the call.
    NoMemory,
    /// A scan leaves rows while as many cursors are open as may be.
    TooManyCursors,
    /// The number isn't that of an open cursor.
    NoResource,
    /// The reply would be longer than a frame may be.
    ReplyTooLong,
}

impl Reason {
    ghost use Rattle.std.specs.Prelude.{◌≡◌};
    ghost use Rattle.ig_wire.specs.Reasons.{reason_status, reason_text};

    /// The status of the reply.
    pub fn status(self) -> i32
        ensures { result ≡ reason_status self }
    {
        match self {
            Reason::InvalidOperation => 2,
            Reason::NoCache => 1000,
            Reason::CacheExists => 1001,
            Reason::TooManyCursors => 1010,
            Reason::NoResource => 1011,
            Reason::NoMemory => 9000,
            Reason::Malformed
            | Reason::Profile(_)
            | Reason::TooManyCaches
            | Reason::TooManyCacheChanges
            | Reason::NoTypeName
            | Reason::TypeClash
            | Reason::ReplyTooLong => 1,
        }
    }

    /// The text of the reply; of a malformed request, what the offset follows.
    pub fn text(self) -> &'static str
        ensures { result.now ≡ reason_text self }
    {
        match self {
            Reason::InvalidOperation => "invalid operation code",
            Reason::Malformed => "malformed request at ",
            Reason::Profile(profile) => profile.text(),
            Reason::NoCache => "cache does not exist",
            Reason::CacheExists => "cache exists",
            Reason::TooManyCaches => "too many caches",
            Reason::TooManyCacheChanges => "too many cache changes",
            Reason::NoTypeName => "type name not registered",
            Reason::TypeClash => "type clash",
            Reason::NoMemory => "no memory",
            Reason::TooManyCursors => "too many cursors",
            Reason::NoResource => "resource does not exist",
            Reason::ReplyTooLong => "reply too long",
        }
    }
}
