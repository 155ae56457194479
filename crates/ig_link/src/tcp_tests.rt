//! Links and doors over loopback.

use super::*;
use std::net::{Ipv4Addr, TcpListener};
use std::test::Fail;
use std::thread;
use std::time::Duration;

/// The lengths of the pieces that are sent, in turn: small ones, which are gathered, and large ones.
static PIECES: [usize; 5] = [1, 7, 4_097, 33_000, 70_001];

/// Bytes that differ from place to place.
fn bytes(rt: &HostRuntime, count: usize) -> Result<Vec<u8>, Fail> {
    let mut bytes = Vec::with_capacity(rt.alloc(), count)?;
    for i in 0..count {
        bytes.push((i % 251) as u8)?;
    }
    Ok(bytes)
}

/// A port of this machine that nothing listens at.
fn free_port(rt: &HostRuntime) -> Result<u16, Fail> {
    let listener = TcpListener::bind(rt, (Ipv4Addr::LOCALHOST, 0))?;
    Ok(listener.local_addr()?.port())
}

/// Sends all bytes in uneven pieces. Returns whether that went well.
fn sends<K: Sink>(sink: &mut K, bytes: &[u8]) -> bool {
    let mut rest = bytes;
    for i in 0..bytes.len() {
        if rest.is_empty() {
            return true;
        }
        let (piece, more) = rest.split_at(PIECES[i % 5].min(rest.len()));
        if send_all(sink, piece).is_err() {
            return false;
        }
        rest = more;
    }
    rest.is_empty()
}

/// Whether exactly these bytes come next.
fn receives<S: Source>(source: &mut S, bytes: &[u8]) -> bool {
    let mut buf = [0u8; 5000];
    let mut rest = bytes;
    for _ in 0..bytes.len() {
        if rest.is_empty() {
            return true;
        }
        let n = rest.len().min(5000);
        let Take::Bytes(n) = source.read(&mut buf[..n]) else {
            return false;
        };
        let Some(more) = rest.strip_prefix(&buf[..n]) else {
            return false;
        };
        rest = more;
    }
    rest.is_empty()
}

/// A link to the port once something listens there, found by a read that finds nothing yet.
fn connected(rt: HostRuntime, port: u16) -> Option<TcpLink<HostRuntime>> {
    let mut buf = [0u8; 1];
    for _ in 0..2000 {
        let mut link = TcpLink::to(rt, port);
        if link.read_now(&mut buf) == TakeNow::NotYet {
            return Some(link);
        }
        let _ = link.retire();
        let _ = thread::sleep(&rt, Duration::from_millis(5));
    }
    None
}

/// A megabyte goes each way in uneven pieces, then the client's link is retired, the server's link ends and
/// the door ends after its one session.
#[test]
fn a_megabyte_goes_both_ways(rt: HostRuntime) -> Result<(), Fail> {
    let port = free_port(&rt)?;
    let bytes = bytes(&rt, 1_048_576)?;
    let bytes = bytes.as_slice();
    let server = move || {
        let mut door = TcpDoor::on(rt, rt.alloc(), port, 1);
        let Opened::Link(mut link) = door.accept() else {
            return false;
        };
        let went = receives(&mut link, bytes) && sends(&mut link, bytes);
        let ended = link.read(&mut [0u8; 1]) == Take::End;
        let retired = link.retire();
        went && ended
            && retired.ended
            && retired.read_faults == 0
            && retired.write_faults == 0
            && matches!(door.accept(), Opened::End)
    };
    let client = move || {
        let Some(mut link) = connected(rt, port) else {
            return false;
        };
        let went = sends(&mut link, bytes) && receives(&mut link, bytes);
        let retired = link.retire();
        went && retired.pauses == 1 && !retired.ended && retired.read_faults == 0
    };
    let (served, asked) = thread::join(&rt, server, client);
    assert!(rt; served);
    assert!(rt; asked);
    Ok(())
}

/// A reply that was written before the link is retired comes whole, though the link's input wasn't read.
#[test]
fn a_retired_link_loses_no_reply(rt: HostRuntime) -> Result<(), Fail> {
    let port = free_port(&rt)?;
    let bytes = bytes(&rt, 60_000)?;
    let bytes = bytes.as_slice();
    let server = move || {
        let mut door = TcpDoor::on(rt, rt.alloc(), port, 1);
        let Opened::Link(mut link) = door.accept() else {
            return false;
        };
        let went = link.read(&mut [0u8; 1]) == Take::Bytes(1) && sends(&mut link, bytes);
        let retired = link.retire();
        went && !retired.ended && retired.write_faults == 0
    };
    let client = move || {
        let Some(mut link) = connected(rt, port) else {
            return false;
        };
        let went = sends(&mut link, bytes) && receives(&mut link, bytes);
        let ended = link.read(&mut [0u8; 1]) == Take::End;
        let _ = link.retire();
        went && ended
    };
    let (served, asked) = thread::join(&rt, server, client);
    assert!(rt; served);
    assert!(rt; asked);
    Ok(())
}

/// A peer that closes in the middle of a frame is the end. What is written to it then is gathered, and a
/// later write fails, since a read couldn't hand that to the socket.
#[test]
fn a_peer_that_closes_in_mid_frame_is_the_end(rt: HostRuntime) -> Result<(), Fail> {
    let port = free_port(&rt)?;
    let server = move || {
        let mut door = TcpDoor::on(rt, rt.alloc(), port, 1);
        let Opened::Link(mut link) = door.accept() else {
            return false;
        };
        let mut buf = [0u8; 4];
        let half = receives(&mut link, &[9, 0, 0]) && link.read(&mut buf) == Take::End;
        let mut failed = false;
        for _ in 0..2000 {
            if link.write(&[1]) == Gave::Failed {
                failed = true;
                break;
            }
            let _ = link.read(&mut buf);
            let _ = thread::sleep(&rt, Duration::from_millis(1));
        }
        let retired = link.retire();
        half && failed && retired.write_faults == 1 && retired.read_faults == 0
    };
    let client = move || {
        let Some(mut link) = connected(rt, port) else {
            return false;
        };
        let sent = send_all(&mut link, &[9, 0, 0]).is_ok();
        let _ = link.retire();
        sent
    };
    let (served, asked) = thread::join(&rt, server, client);
    assert!(rt; served);
    assert!(rt; asked);
    Ok(())
}

/// A port that is taken is a failed accept, and a port that nothing listens at a failed read and a failed
/// write.
#[test]
fn a_taken_port_and_a_refused_connection_are_faults(rt: HostRuntime) -> Result<(), Fail> {
    let listener = TcpListener::bind(&rt, (Ipv4Addr::LOCALHOST, 0))?;
    let port = listener.local_addr()?.port();
    let mut door = TcpDoor::on(rt, rt.alloc(), port, 1);
    assert!(rt; matches!(door.accept(), Opened::Failed));
    let mut none = TcpDoor::on(rt, rt.alloc(), port, 0);
    assert!(rt; matches!(none.accept(), Opened::End));
    let mut link = TcpLink::to(rt, free_port(&rt)?);
    let mut buf = [0u8; 1];
    assert_eq!(rt; link.read(&mut buf), Take::Failed);
    assert_eq!(rt; link.read_now(&mut buf), TakeNow::Failed);
    assert_eq!(rt; link.write(&[1]), Gave::Failed);
    let retired = link.retire();
    assert_eq!(rt;
        (retired.read_faults, retired.write_faults, retired.pauses),
        (2, 1, 0)
    );
    assert!(rt; !retired.ended);
    Ok(())
}
