//! Cuts a stream of bytes that comes in pieces into frames.
//!
//! A frame is the length of its body, an Int32, and the body. [`Frames`] is fed the pieces as they come
//! and lends each body in place, once it is whole:
//!
//! ```text
//! let mut frames = Frames::new(alloc, MAX_FRAME);
//! frames.feed(piece)?;
//! loop {
//!     match frames.next(least) {
//!         Next::Frame { place, body } => ..
//!         Next::More { .. } => break,
//!         Next::Bad { place, length } => return Err(..),
//!     }
//! }
//! ```
//!
//! Contracts see a `Frames` as a place in the stream and the bytes from there on, so a caller that
//! remembers what it fed knows what it gets, and no other one has to.
#![tactic(auto)]

mod cutting;
mod frames;
mod front;
mod next;

pub use cutting::{frames_cut_the_stream, place_in_the_stream};
pub use frames::{Frames, MAX_FRAME};
pub use next::Next;

#[cfg(test)]
mod tests;
