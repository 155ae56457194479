//! What comes next in a session.

use ig_caches::Request;
use ig_deals::SessionEnd;
use ig_replies::Terms;
use ig_wire::{AskFault, Hello, HelloFault};

/// What comes next in a session. A frame that comes next was read, and not yet passed.
#[derive(Debug, Drop)]
pub enum Coming {
    /// Bytes of replies are to be written first.
    Replies,
    /// Nothing more is read.
    Stops(SessionEnd),
    /// This many more bytes complete the next length or frame.
    Misses(u64),
    /// A hello, which is answered so.
    Greets(Result<Hello, HelloFault>),
    /// A request with this identifier, or why it is refused.
    Asks(Terms, i64, Result<Request, AskFault>),
}
