//! Channels at their limits: as many calls as may be pending, and a link that fails at each of its writes
//! and at each of its reads.

ghost use Rattle.ig_client.specs.RequestBodies.{IsSubmittable};

use crate::links::{ACCEPTED, DONE_1, Read, link, octets, put, started};
use ig_caches::Request;
use ig_client::{Break, Channel, ChannelFault};
use ig_link::{MemLink, ReadStep, WriteStep};
use ig_wire::Version;
use std::alloc::Global;
use std::test::Fail;

/// How many calls are made until one is refused, and why.
fn submit_all(channel: &mut Channel<MemLink>, ask: &Request) -> (u32, Option<ChannelFault>)
    requires { IsSubmittable ask.now }
{
    for made in 0..2000 {
        if let Err(fault) = channel.submit(ask) {
            return (made, Some(fault));
        }
    }
    (2000, None)
}

/// A reply to call 2, in one step.
const DONE_2: &[u8] = &[12, 0, 0, 0, 2, 0, 0, 0, 0, 0, 0, 0, 0, 0, 0, 0];

#[test]
fn as_many_calls_are_pending_as_may_be(rt: HostRuntime) -> Result<(), Fail> {
    let reads = [Read::Bytes(ACCEPTED), Read::Bytes(DONE_2)];
    let link = link(rt.alloc(), &reads, &[])?;
    let Some(Ok(mut channel)) = started(rt.alloc(), link, Version::V1_0_0, None) else {
        return Err("not started".into());
    };
    let ask = put();
    assert!(rt; submit_all(&mut channel, &ask) == (1024, Some(ChannelFault::Full)));
    assert!(rt; channel.pump().is_ok());
    assert!(rt; channel.pump().is_ok());
    assert_eq!(rt; channel.submit(&ask), Ok(1025));
    assert_eq!(rt; channel.submit(&ask), Err(ChannelFault::Full));
    Ok(())
}

/// The break that a submit tells.
fn first_break(channel: &mut Channel<MemLink>, ask: &Request) -> Option<Break>
    requires { IsSubmittable ask.now }
{
    match channel.submit(ask) {
        Err(ChannelFault::Down(cause)) => Some(cause),
        _ => None,
    }
}

/// A call and its reply: how they broke.
fn broken_call(channel: &mut Channel<MemLink>, ask: &Request) -> Option<Break>
    requires { IsSubmittable ask.now }
{
    let Ok(id) = channel.submit(ask) else {
        return first_break(channel, ask);
    };
    for _ in 0..4 {
        if channel.take(id).is_some() {
            return None;
        }
        if channel.pump().is_err() {
            return first_break(channel, ask);
        }
    }
    None
}

/// A handshake, a call and its reply: how the call broke, if the channel was started.
fn broken_at(alloc: Global, link: MemLink) -> Option<Break> {
    match started(alloc, link, Version::V1_0_0, None) {
        Some(Ok(mut channel)) => broken_call(&mut channel, &put()),
        _ => None,
    }
}

/// A link whose write fails after this many bytes.
fn link_with_write_fault(alloc: Global, count: usize) -> Result<MemLink, Fail> {
    let mut writes = Vec::new(alloc);
    for _ in 0..count {
        writes.push(WriteStep::AtMost(1))?;
    }
    writes.push(WriteStep::Fault)?;
    let reads = [Read::Bytes(ACCEPTED), Read::Bytes(DONE_1)];
    link(alloc, &reads, writes.as_slice())
}

#[test]
fn each_write_fails_in_turn(rt: HostRuntime) -> Result<(), Fail> {
    for count in 0..42usize {
        let link = link_with_write_fault(rt.alloc(), count)?;
        let is_of_call = 12 <= count && count <= 40;
        let wanted = if is_of_call {
            Some(Break::WriteFault)
        } else {
            None
        };
        assert_eq!(rt; broken_at(rt.alloc(), link), wanted);
    }
    Ok(())
}

/// The reply to a hello, and the reply to call 1.
const REPLIES: [u8; 21] = [
    1, 0, 0, 0, 1, 12, 0, 0, 0, 1, 0, 0, 0, 0, 0, 0, 0, 0, 0, 0, 0,
];

/// A link whose read fails after this many bytes.
fn link_with_read_fault(alloc: Global, count: usize) -> Result<MemLink, Fail> {
    let mut reads = Vec::new(alloc);
    let bytes = &REPLIES[..count.min(REPLIES.len())];
    reads.push(ReadStep::Bytes(octets(alloc, bytes)?))?;
    reads.push(ReadStep::Fault)?;
    Ok(MemLink::new(alloc, reads, Vec::new(alloc), 64)?)
}

#[test]
fn each_read_fails_in_turn(rt: HostRuntime) -> Result<(), Fail> {
    for count in 0..22usize {
        let link = link_with_read_fault(rt.alloc(), count)?;
        let is_of_call = 5 <= count && count <= 20;
        let wanted = if is_of_call {
            Some(Break::ReadFault)
        } else {
            None
        };
        assert_eq!(rt; broken_at(rt.alloc(), link), wanted);
    }
    Ok(())
}
