//! A door over TCP on this machine.

use crate::door::{Door, Opened};
use crate::tcp_link::TcpLink;
use std::alloc::Global;
use std::io;
use std::io::ErrorKind;
use std::net::{Ipv4Addr, Net, TcpListener, TcpStream};

/// A door at a port of 127.0.0.1, which opens a stated number of links and then ends. It doesn't tell
/// its links.
///
/// It binds the port at its first accept; a port that is taken is a failed accept, and the next accept
/// tries again. A connection that its peer gave up before it was accepted is passed over. After its last
/// link it closes the port.
#[derive(Drop)]
pub struct TcpDoor<R> {
    rt: R,
    alloc: Global,
    port: u16,
    sessions_left: u64,
    listener: Option<TcpListener>,
    faults: u64,
    opened: u64,
    ended: bool,
}

/// The next connection. One that its peer gave up before it came is passed over.
fn next_stream(listener: &TcpListener) -> io::Result<TcpStream> {
    for _ in 0..u64::MAX {
        match listener.accept() {
            Ok((stream, _)) => return Ok(stream),
            Err(e) if e.kind() == ErrorKind::ConnectionAborted => {}
            Err(e) => return Err(e),
        }
    }
    Err(ErrorKind::TimedOut.into())
}

impl<R: Net<Listener = TcpListener, Stream = TcpStream>> TcpDoor<R> {
    ghost use Rattle.std.specs.Prelude.{◌≡◌, None, false};
    ghost use Rattle.ig_link.specs.TcpDoor.{tcp_door};

    /// A door at this port that opens this many links.
    pub fn on(rt: R, alloc: Global, port: u16, sessions: u64) -> TcpDoor<R>
        ensures state { tcp_door result
            ≡ record { coming = None; faults = 0; opened = 0; ended = false } }
        ensures sessions { result.sessions_left ≡ sessions }
    {
        TcpDoor {
            rt,
            alloc,
            port,
            sessions_left: sessions,
            listener: None,
            faults: 0,
            opened: 0,
            ended: false,
        }
    }

    /// The next connection. Binds the port first if that is still to be done.
    fn next_connection(&mut self) -> io::Result<TcpStream>
        ensures state { tcp_door self.new ≡ tcp_door self.old }
        ensures sessions { self.new.sessions_left ≡ self.old.sessions_left }
    {
        if self.listener.is_none() {
            let bound = TcpListener::bind(&self.rt, (Ipv4Addr::LOCALHOST, self.port))?;
            self.listener = Some(bound);
        }
        match &self.listener {
            Some(listener) => next_stream(listener),
            None => Err(ErrorKind::NotConnected.into()),
        }
    }
}

impl<R: Net<Listener = TcpListener, Stream = TcpStream> + Copy + Send> Door for TcpDoor<R> {
    ghost use Rattle.ig_link.specs.AcceptsAs.{AcceptsAs};
    ghost use Rattle.ig_link.specs.TcpLink.{tcp_source, tcp_sink};
    ghost use Rattle.ig_link.specs.TcpDoor.{tcp_door, CountsSession};

    type Line = TcpLink<R>;

    ghost door = { tcp_door };

    fn accept(&mut self) -> Opened<TcpLink<R>>
        ensures answer { AcceptsAs tcp_source tcp_sink result (tcp_door self.old) (tcp_door self.new) }
        // It opens as many links as were stated.
        ensures sessions { CountsSession result self.old.ended
            self.old.sessions_left self.new.sessions_left }
    {
        if self.ended || self.sessions_left == 0 {
            self.ended = true;
            self.listener = None;
            return Opened::End;
        }
        match self.next_connection() {
            Ok(stream) => {
                self.sessions_left -= 1;
                self.opened = self.opened.saturating_add(1);
                Opened::Link(TcpLink::over(self.rt, self.alloc, stream))
            }
            Err(_) => {
                self.faults = self.faults.saturating_add(1);
                Opened::Failed
            }
        }
    }
}
