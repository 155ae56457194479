//! The client's end of a connection: a channel gives each reply to the call that asked for it.
//!
//! A [`Channel`] greets a server over a link and then submits requests, each under an identifier of its
//! own: 1, 2, 3 and on. Whoever waits pumps, which reads what is there and files each reply under its
//! identifier, and takes its own reply.
//!
//! ```text
//! let mut channel = Channel::start(alloc, link, Version::V1_4_0, None)?;
//! let id = channel.submit(&request)?;
//! loop {
//!     if let Some(frame) = channel.take(id) {
//!         break frame;
//!     }
//!     channel.pump()?;
//! }
//! ```
//!
//! A channel that broke answers each call with its first break; replies that were filed can still be
//! taken. [`Pending`] is the channel without its link, for whoever moves the bytes otherwise. Behind a
//! turn a channel is shared by threads: it is a [`ig_turn::Plain`] object over [`ChannelAsk`].
#![tactic(auto)]

mod ask;
mod channel;
mod fault;
mod front;
mod greet;
mod laws;
mod offer;
mod pending;
mod plain;
mod replies;
mod request;
mod steps;

pub use ask::{ChannelAsk, ChannelGot, ChannelStart};
pub use channel::{Channel, NotStarted};
pub use fault::{Break, ChannelFault, HandshakeFault};
pub use laws::replies_are_cut;
pub use pending::Pending;
