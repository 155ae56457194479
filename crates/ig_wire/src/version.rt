//! The versions of the protocol.

use std::fmt;

/// A version of the protocol, shown as `1.4.0`.
#[derive(Clone, Copy, Debug, PartialEq, Eq)]
pub struct Version {
    pub major: i16,
    pub minor: i16,
    pub patch: i16,
}

impl Version {
    ghost use Rattle.std.specs.Prelude.{◌≡◌};
    ghost use Rattle.ig_wire.specs.Versions.{is_same, is_up_to, is_spoken, is_accepted, has_login, has_flags, server_side};

    /// The first version.
    pub const V1_0_0: Version = Version {
        major: 1,
        minor: 0,
        patch: 0,
    };

    /// Adds a login to the hello.
    pub const V1_1_0: Version = Version {
        major: 1,
        minor: 1,
        patch: 0,
    };

    /// Adds the node's identifier to the reply to a hello, and flags and the topology to replies.
    pub const V1_4_0: Version = Version {
        major: 1,
        minor: 4,
        patch: 0,
    };

    /// The highest version that is spoken.
    pub const HIGHEST: Version = Version::V1_4_0;

    /// Whether it is one of the versions above.
    pub fn is_spoken(self) -> bool
        ensures { result ≡ is_spoken self }
    {
        self.is_same(Version::V1_0_0)
            || self.is_same(Version::V1_1_0)
            || self.is_same(Version::V1_4_0)
    }

    /// Whether a server whose highest version is this one accepts the version.
    pub fn is_accepted(self, highest: Version) -> bool
        ensures { result ≡ is_accepted highest self }
    {
        self.is_spoken() && self.is_up_to(highest)
    }

    /// Whether a hello may have a login.
    pub fn has_login(self) -> bool
        ensures { result ≡ has_login self }
    {
        Version::V1_1_0.is_up_to(self)
    }

    /// Whether a reply's head has flags, and the reply to a hello the node's identifier.
    pub fn has_flags(self) -> bool
        ensures { result ≡ has_flags self }
    {
        Version::V1_4_0.is_up_to(self)
    }

    /// The least length of the body of a reply to a request.
    pub fn least_reply(self) -> u32
        ensures { result ≡ (server_side self).later }
    {
        if self.has_flags() {
            LEAST_REPLY_WITH_FLAGS
        } else {
            LEAST_REPLY
        }
    }

    /// Whether it is this version.
    fn is_same(self, other: Version) -> bool
        ensures { result ≡ is_same self other }
    {
        self.major == other.major && self.minor == other.minor && self.patch == other.patch
    }

    /// Whether it is this version or an earlier one.
    pub fn is_up_to(self, other: Version) -> bool
        ensures { result ≡ is_up_to self other }
    {
        if self.major != other.major {
            return self.major < other.major;
        }
        if self.minor != other.minor {
            return self.minor < other.minor;
        }
        self.patch <= other.patch
    }
}

/// The least length of a reply's body below 1.4.0: an identifier and a status.
const LEAST_REPLY: u32 = 12;

/// The least length of a reply's body from 1.4.0 on: an identifier and flags.
const LEAST_REPLY_WITH_FLAGS: u32 = 10;

impl fmt::Display for Version {
    fn fmt<W: fmt::Write>(&self, f: &mut fmt::Formatter<W>) -> fmt::Result {
        write!(f, "{}.{}.{}", self.major, self.minor, self.patch)
    }
}
