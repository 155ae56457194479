//! What a hello says, and why one is refused.

use crate::version::Version;
use ig_base::Text;
use std::error::Error;
use std::fmt;

/// An accepted hello.
#[derive(Clone, Copy, Debug, PartialEq, Eq)]
pub struct Hello {
    /// The version that the session speaks from now on.
    pub version: Version,
    /// Whether a login stands after the client code. It isn't kept: nothing is asked of it.
    pub credentials: bool,
}

/// The name and the password that a client gives with its hello, from 1.1.0 on.
#[derive(Debug, Drop)]
pub struct Login {
    pub name: Text,
    pub password: Text,
}

/// Why a hello is refused: the first of these, in this order.
#[derive(Clone, Copy, Debug, PartialEq, Eq)]
pub enum HelloFault {
    /// Its first byte is this one, and not that of a hello.
    NotHello(u8),
    /// It asks for this version, which isn't accepted.
    Version(Version),
    /// Its client code is this one, and not that of a thin client.
    ClientCode(u8),
    /// What follows the client code isn't a login of the version.
    Credentials {
        /// The offset, from the frame's first length byte on, at which the first wrong item begins.
        place: usize,
    },
}

impl HelloFault {
    ghost use Rattle.std.specs.Prelude.{◌≡◌};
    ghost use Rattle.ig_wire.specs.HelloFaults.{fault_text};

    /// The text of the reply that refuses the hello.
    pub fn text(&self) -> &'static str
        ensures { result.now ≡ fault_text self.now }
    {
        match self {
            HelloFault::NotHello(_) => "not a handshake",
            HelloFault::Version(_) => "unsupported version",
            HelloFault::ClientCode(_) => "unsupported client code",
            HelloFault::Credentials { .. } => "malformed handshake",
        }
    }
}

impl fmt::Display for HelloFault {
    fn fmt<W: fmt::Write>(&self, f: &mut fmt::Formatter<W>) -> fmt::Result {
        match self {
            HelloFault::NotHello(byte) => {
                write!(f, "the client began with byte {byte}, which is no hello")
            }
            HelloFault::Version(version) => write!(
                f,
                "the client asked for protocol version {version}, which isn't accepted"
            ),
            HelloFault::ClientCode(code) => {
                write!(
                    f,
                    "the client gave client code {code}, which isn't a thin client's"
                )
            }
            HelloFault::Credentials { place } => {
                write!(
                    f,
                    "the client's login is malformed at offset {place} of its hello"
                )
            }
        }
    }
}

impl Error for HelloFault {}
