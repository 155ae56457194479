//! Handshakes over links that follow scripts.

use crate::links::{ACCEPTED, ACCEPTED_BY_NODE, Read, link, login, started};
use ig_client::{Break, HandshakeFault, NotStarted};
use ig_link::{MemLink, WriteStep};
use ig_wire::{Login, Version};
use std::alloc::Global;
use std::test::Fail;

/// How a handshake ends.
#[derive(Clone, Copy, Debug, PartialEq, Eq)]
enum Ended {
    /// No hello was written.
    Unwritten,
    /// Accepted, by a server that names its node, or doesn't.
    Accepted(bool),
    Broke(Break),
    BadReply(usize),
    Refused(Version),
    NoMemory,
}

/// A handshake: the version, whether a login is given, the steps of the link, and how it ends.
static HANDSHAKES: [(Version, bool, &[Read], &[WriteStep], Ended); 13] = [
    (
        Version::V1_1_0,
        true,
        &[Read::Bytes(ACCEPTED)],
        &[],
        Ended::Accepted(false),
    ),
    (
        Version::V1_1_0,
        false,
        &[
            Read::Bytes(&[1]),
            Read::Pause,
            Read::Bytes(&[0, 0, 0]),
            Read::Bytes(&[1]),
        ],
        &[WriteStep::AtMost(1), WriteStep::AtMost(3)],
        Ended::Accepted(false),
    ),
    (
        Version::V1_4_0,
        true,
        &[Read::Bytes(ACCEPTED_BY_NODE)],
        &[],
        Ended::Accepted(true),
    ),
    (
        Version::V1_0_0,
        true,
        &[Read::Bytes(ACCEPTED)],
        &[],
        Ended::Unwritten,
    ),
    (
        Version::V1_4_0,
        false,
        &[Read::Bytes(ACCEPTED)],
        &[],
        Ended::BadReply(5),
    ),
    (
        Version::V1_0_0,
        false,
        &[Read::Bytes(&[18, 0, 0, 0, 1, 10])],
        &[],
        Ended::Broke(Break::PeerEnded),
    ),
    (
        Version::V1_1_0,
        false,
        &[Read::Bytes(&[13, 0, 0, 0, 0, 1, 0, 0, 0, 0, 0, 9, 1, 0, 0, 0, 97])],
        &[],
        Ended::Refused(Version::V1_0_0),
    ),
    (
        Version::V1_0_0,
        false,
        &[Read::Bytes(&[1, 0, 0, 0, 2])],
        &[],
        Ended::BadReply(4),
    ),
    (
        Version::V1_0_0,
        false,
        &[Read::Bytes(&[0, 0, 0, 0])],
        &[],
        Ended::Broke(Break::BadFrame {
            place: 0,
            length: 0,
        }),
    ),
    (
        Version::V1_0_0,
        false,
        &[Read::Bytes(&[1, 0, 0, 0])],
        &[],
        Ended::Broke(Break::PeerEnded),
    ),
    (
        Version::V1_0_0,
        false,
        &[Read::Bytes(&[1, 0]), Read::Fault],
        &[],
        Ended::Broke(Break::ReadFault),
    ),
    (
        Version::V1_0_0,
        false,
        &[Read::Bytes(ACCEPTED)],
        &[WriteStep::AtMost(5), WriteStep::Fault],
        Ended::Broke(Break::WriteFault),
    ),
    (
        Version::V1_0_0,
        false,
        &[],
        &[WriteStep::Fault],
        Ended::Broke(Break::WriteFault),
    ),
];

/// How the handshake over the link ends.
fn end_of(alloc: Global, link: MemLink, version: Version, login: Option<&Login>) -> Ended {
    match started(alloc, link, version, login) {
        None => Ended::Unwritten,
        Some(Ok(channel)) => Ended::Accepted(channel.node().is_some()),
        Some(Err(NotStarted { cause, .. })) => match cause {
            HandshakeFault::Broke(cause) => Ended::Broke(cause),
            HandshakeFault::BadReply { place } => Ended::BadReply(place),
            HandshakeFault::Refused { version, .. } => Ended::Refused(version),
            HandshakeFault::NoMemory => Ended::NoMemory,
        },
    }
}

#[test]
fn handshakes_end(rt: HostRuntime) -> Result<(), Fail> {
    let login = login(rt.alloc())?;
    for (version, has_login, reads, writes, ended) in &HANDSHAKES {
        let link = link(rt.alloc(), reads, writes)?;
        let login = if *has_login { Some(&login) } else { None };
        assert_eq!(rt; end_of(rt.alloc(), link, *version, login), *ended);
    }
    Ok(())
}
