//! Links and doors: where bytes come from, where they go, and what each call says of them.
//!
//! Contracts see a [`Source`] as the bytes taken so far and those still to come, each if the source
//! tells them, how often a read has failed, and whether the source has ended. They see a [`Sink`] as
//! the bytes written so far, if it tells them, and how often a write has failed. A [`Link`] is both, can
//! be read without waiting, and is retired in the end. A [`Door`] opens links one after another.
//!
//! | | Source and sink | Link | Door |
//! |---|---|---|---|
//! | in memory, follows a script and tells its bytes | | [`MemLink`] | [`MemDoor`] |
//! | over std's readers and writers | [`PipeIn`], [`PipeOut`] | | |
//! | over TCP on this machine, tells no bytes | | [`TcpLink`] | [`TcpDoor`] |
//!
//! [`send_all`] writes a whole piece.
#![tactic(auto)]

mod connection;
mod door;
mod ends;
mod gathering;
mod link;
mod mem_door;
mod mem_link;
mod pipes;
mod send;
mod tcp_door;
mod tcp_link;

pub use door::{Door, Opened};
pub use ends::{Duplex, Gave, Sink, Source, Take};
pub use link::{Left, Link, Retired, TakeNow};
pub use mem_door::{DoorStep, MemDoor};
pub use mem_link::{MemLink, ReadStep, WriteStep};
pub use pipes::{PipeIn, PipeOut};
pub use send::{SendFault, send_all};
pub use tcp_door::TcpDoor;
pub use tcp_link::TcpLink;

#[cfg(test)]
mod tcp_tests;
#[cfg(test)]
mod tests;
