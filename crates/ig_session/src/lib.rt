//! The server's side of a connection: one session over one link.
//!
//! A [`Session`] takes bytes and gives bytes, and does no input or output. It reads a hello and then
//! requests, hands out the call of each request, and shows its reply. A [`Caller`] runs the calls.
//! [`serve_link`] serves a session over one link, [`serve_ends`] over a separate source and sink.
//!
//! ```text
//!   input --feed--> Session --Step::Run--> Caller
//!   output <-waiting-- |  <------answer------+
//! ```
//!
//! Contracts see a session as a `State` (`specs/States.antt`). Each call's contract is one equation with
//! a function on states (`specs/Steps.antt`, `specs/StepsAhead.antt`). `Stands` in
//! `specs/StandsFor.antt` says which input, which calls with what was given for them, and which output a
//! state stands for; the laws of [`sessions_stand`] say that each call keeps it for the longer lists, and
//! [`sessions_end`] that a session which ended has run as `Runs` of `ig_deals` says. `StandsAhead`, `RunsAhead`,
//! [`sessions_stand_ahead`] and [`sessions_end_ahead`] say the same where calls are answered in any order.
#![tactic(auto)]

mod ahead;
mod answering;
mod asking;
mod awaited;
mod caller;
mod coming;
mod greeting;
mod laws;
mod next;
mod outbox;
mod phase;
mod reading;
mod requests;
mod serve;
mod session;
mod step;

pub use caller::{Alone, Caller};
pub use ig_deals::{SessionCfg, SessionEnd};
pub use laws::{sessions_end, sessions_end_ahead, sessions_stand, sessions_stand_ahead};
pub use serve::{serve_ends, serve_link};
pub use session::Session;
pub use step::{Ahead, Step};
