//! Captures as text: what the clients and servers of several sessions said to each other.
//!
//! A capture is four bytes and then records, each with a side, a session and bytes of that side's stream. A
//! message is shown when its last byte comes, as one line:
//!
//! ```text
//! 0 > hello 1.0.0
//! 0 < ok
//! 0 > 1 put #3343801 int:1 int:2
//! 0 < 1 done
//! ```
//!
//! A [`Capture`] is fed a capture in pieces of any length and appends these lines. It keeps what stands
//! unfinished: of each session the frames that aren't whole, and the identifiers and operations of the
//! requests without a reply.
//!
//! `CaptureText` in `specs/CaptureText.antt` is the text of a capture, `specs/Talks.antt` what a session
//! says, message by message, and `specs/Records.antt` the records. That the pieces give this text is the
//! contract of [`captures_are_shown`].
#![tactic(auto)]

mod capture;
mod client;
mod cuts;
mod fault;
mod field;
mod laws;
mod phase;
mod reading;
mod requests;
mod results;
mod server;
mod session;
mod sessions;
mod sides;
mod stop;
mod talk;
mod texts;
mod unanswered;
mod waiting;

pub use capture::Capture;
pub use fault::{CaptureBad, CaptureFault};
pub use laws::captures_are_shown;
