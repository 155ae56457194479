//! What a channel is asked and answers, at run time and as the history has it.

use crate::fault::ChannelFault;
use ig_base::{Items, Octets};
use ig_caches::Request;
use ig_wire::Version;

/// What a channel behind a turn is asked. In a history it stands as it is.
#[derive(Debug, Drop)]
pub enum ChannelAsk {
    /// Submits a request.
    Submit(Request),
    /// Submits a request for the partition maps of these caches.
    SubmitParts(Items<i32>),
    /// Reads what the server sent, and files it.
    Pump,
    /// Takes the reply to the call with this identifier.
    Take(i64),
    /// Closes the channel.
    Close,
}

/// What it answers. `A` is what is left of its link after it was retired; in a history that stands as the
/// [`ig_link::Retired`] that it shows.
#[derive(Debug, Drop)]
pub enum ChannelGot<A> {
    /// The request was sent under this identifier.
    Sent(i64),
    /// It was refused, and comes back.
    NotSent {
        ask: Request,
        cause: ChannelFault,
    },
    /// The request for partition maps was refused, and comes back.
    NotSentParts {
        caches: Items<i32>,
        cause: ChannelFault,
    },
    /// These bytes were read.
    Pumped(Octets),
    /// Nothing was read, or what was read broke the channel.
    NotPumped(ChannelFault),
    /// The frame of the reply, if it came and wasn't taken.
    Taken(Option<Octets>),
    /// What is left of the link, if the channel wasn't closed before.
    Closed(Option<A>),
}

/// What a channel was when its history began, as the history has it: its version, and its link after the
/// handshake.
pub struct ChannelStart {
    /// The version that it speaks.
    pub version: Version,
    /// The bytes that the link had given, if it told them.
    pub taken: Option<Octets>,
    /// The bytes that it still had to give, if it told them.
    pub left: Option<Octets>,
    /// The bytes that were written to it, if it told them.
    pub written: Option<Octets>,
    /// How often a read had failed.
    pub read_faults: u64,
    /// How often a write had failed.
    pub write_faults: u64,
    /// How often a read that doesn't wait had found nothing.
    pub pauses: u64,
    /// Whether its reads held: none would fail, and none would end before all bytes were taken.
    pub reads_hold: bool,
    /// Whether its writes held: none would fail.
    pub writes_hold: bool,
}
