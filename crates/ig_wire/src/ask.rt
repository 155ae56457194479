//! The head of a request, and why the fields after it are refused.

ghost use Rattle.std.specs.Prelude.{◌≡◌, ◌≤◌, ◌++◌, ℤ, List, ℕ, length, drop, FitsSigned};
ghost use Rattle.std.specs.Int.{w16, w64};
ghost use Rattle.ig_base.specs.Numbers.{LE};

use ig_base::{NoMemory, get_i16, get_i64};
use std::error::Error;
use std::fmt;

/// The length of a request's head, which is the least length of its body: an operation and an
/// identifier.
pub const ASK_HEAD: u32 = 10;

/// Reads a request's operation and its identifier, which the fields follow. Takes no memory.
pub fn read_ask(body: &[u8]) -> (i16, i64)
    requires { 10 ≤ length body.now }
    ensures found { body.now ≡ LE w16 result.0 ++ LE w64 result.1 ++ drop 10 body.now }
    ensures only { (operation id : ℤ) (fields : List ℕ) → FitsSigned w16 operation → FitsSigned w64 id
        → body.now ≡ LE w16 operation ++ LE w64 id ++ fields
        → (result.0 ≡ operation) × (result.1 ≡ id) × (fields ≡ drop 10 body.now) }
{
    let operation = get_i16(body, 0).unwrap_or(0);
    let id = get_i64(body, 2).unwrap_or(0);
    (operation, id)
}

/// Why the fields of a request are refused.
#[derive(Clone, Copy, Debug, PartialEq, Eq)]
pub enum AskFault {
    /// The operation isn't one of this reader.
    NotMine,
    /// The fields don't read, or bytes follow them.
    Unread {
        /// The offset, from the frame's first length byte on, at which the first wrong item begins.
        place: usize,
    },
    /// They read, and ask what isn't served.
    Profile(Profile),
    /// There was no memory for the fields.
    NoMemory,
}

/// What is asked in a form that isn't served.
#[derive(Clone, Copy, Debug, PartialEq, Eq)]
pub enum Profile {
    /// A key, a value or a wanted value is null.
    NullItem,
    /// The name of a cache is empty.
    EmptyName,
    /// A scan has a filter.
    Filter,
    /// The page of a scan has no room for a row.
    PageSize,
    /// A scan is of one partition.
    Partition,
}

impl Profile {
    ghost use Rattle.ig_wire.specs.Profiles.{profile_text};

    /// The text of the reply to such a request.
    pub fn text(&self) -> &'static str
        ensures { result.now ≡ profile_text self.now }
    {
        match self {
            Profile::NullItem => "null key or value",
            Profile::EmptyName => "empty cache name",
            Profile::Filter => "filter not supported",
            Profile::PageSize => "page size below 1",
            Profile::Partition => "partition scan not supported",
        }
    }
}

impl fmt::Display for AskFault {
    fn fmt<W: fmt::Write>(&self, f: &mut fmt::Formatter<W>) -> fmt::Result {
        match self {
            AskFault::NotMine => write!(f, "the operation isn't one of this reader"),
            AskFault::Unread { place } => {
                write!(f, "the request is malformed at offset {place} of its frame")
            }
            AskFault::Profile(profile) => fmt::Display::fmt(profile, f),
            AskFault::NoMemory => fmt::Display::fmt(&NoMemory, f),
        }
    }
}

impl Error for AskFault {}

impl fmt::Display for Profile {
    fn fmt<W: fmt::Write>(&self, f: &mut fmt::Formatter<W>) -> fmt::Result {
        f.write_str(self.text())
    }
}

impl Error for Profile {}
