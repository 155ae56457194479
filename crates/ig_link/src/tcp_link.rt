//! A link over TCP on this machine. No clause says which bytes a socket gives or takes.

ghost use Rattle.std.specs.Prelude.{◌≡◌, ◌<◌, ◌≤◌, length, None, false, true};
ghost use Rattle.std.specs.Io.{ReadsAtMost};

use crate::connection::Connection;
use crate::ends::{Duplex, Gave, Sink, Source, Take};
use crate::gathering::Gathering;
use crate::link::{Link, Retired, TakeNow};
use std::alloc::Global;
use std::io;
use std::io::ErrorKind;
use std::net::{Ipv4Addr, Net, TcpListener, TcpStream};

/// How many written bytes a link that a door opened gathers.
const ROOM: usize = 64 * 1024;

/// Where a link stands: it is still to connect to this port, it is connected, or it was refused.
#[derive(Drop)]
enum Wire {
    Unconnected(u16),
    Connected(Connection<TcpStream>),
    Refused,
}

/// A link over TCP to a peer on this machine. It tells no bytes.
///
/// A link that a [`TcpDoor`](crate::TcpDoor) opened gathers what is written, up to 64 KiB, and hands it to the
/// socket at its next read, when there is no room for a piece, and when it is retired; so the replies to
/// a pipeline of requests leave in one system call. A piece of 32 KiB or more is written at once, after
/// what was gathered. If the socket doesn't take what was gathered, the next write fails, and every
/// later one. A link made by [`TcpLink::to`] gathers nothing.
///
/// A write of a piece that isn't small enough to wait for more is sent at once: the socket has
/// `TCP_NODELAY`. An interrupted call is tried again. A peer that goes away is the end or a failed read
/// or write. A link that is retired before its end closes its sending half and takes what its peer still
/// sends for a short time, since the system may throw away what was written and not yet received if it
/// closes a socket with unread input.
#[derive(Drop)]
pub struct TcpLink<R> {
    rt: R,
    wire: Wire,
    read_faults: u64,
    write_faults: u64,
    pauses: u64,
    ended: bool,
}

impl Wire {
    ghost use Rattle.std.specs.Prelude.{◌≡◌, ◌<◌, length};
    ghost use Rattle.std.specs.Io.{ReadsAtMost};
    ghost use Rattle.ig_link.specs.TcpLink.{buffer_of, WireFlushes, WireWrites};

    /// A connected wire over this socket, without delay of small packets.
    fn over(stream: TcpStream, gathering: Option<Gathering>) -> Wire
        ensures { buffer_of result ≡ gathering }
    {
        let _ = stream.set_nodelay(true);
        Wire::Connected(Connection::new(stream, gathering))
    }

    /// Connects if that is still to be done. A new connection gathers nothing.
    fn connect<R: Net<Listener = TcpListener, Stream = TcpStream>>(&mut self, rt: &R)
        ensures { buffer_of self.new ≡ buffer_of self.old }
    {
        if let Wire::Unconnected(port) = self {
            *self = match TcpStream::connect(rt, (Ipv4Addr::LOCALHOST, *port)) {
                Ok(stream) => Wire::over(stream, None),
                Err(_) => Wire::Refused,
            };
        }
    }

    /// Hands what was gathered to the socket.
    fn flush(&mut self)
        ensures { WireFlushes self.old self.new }
    {
        if let Wire::Connected(connection) = self {
            connection.flush();
        }
    }

    /// Connects if that is still to be done, and reads once.
    fn receive<R: Net<Listener = TcpListener, Stream = TcpStream>>(
        &mut self,
        rt: &R,
        buf: &mut [u8],
        sliced: bool,
    ) -> io::Result<usize>
        ensures bound { ReadsAtMost result buf.new }
        ensures flushed { WireFlushes self.old self.new }
    {
        self.connect(rt);
        match self {
            Wire::Connected(connection) => connection.receive(buf, sliced),
            _ => Err(ErrorKind::NotConnected.into()),
        }
    }

    /// Connects if that is still to be done, and takes bytes from the start of a piece.
    fn send<R: Net<Listener = TcpListener, Stream = TcpStream>>(
        &mut self,
        rt: &R,
        piece: &[u8],
    ) -> Gave
        requires { 0 < length piece.now }
        ensures { WireWrites result self.old self.new piece.now }
    {
        self.connect(rt);
        match self {
            Wire::Connected(connection) => connection.send(piece),
            _ => Gave::Failed,
        }
    }
}

impl<R: Net<Listener = TcpListener, Stream = TcpStream>> TcpLink<R> {
    ghost use Rattle.ig_link.specs.States.{untold_source, untold_sink};
    ghost use Rattle.ig_link.specs.TcpLink.{tcp_source, tcp_sink};

    /// A link to a port of 127.0.0.1. It connects at its first read or write; if the connection is refused,
    /// that call and every later one fails.
    pub fn to(rt: R, port: u16) -> TcpLink<R>
        ensures source { tcp_source result ≡ untold_source 0 0 false }
        ensures sink { tcp_sink result ≡ untold_sink 0 }
    {
        TcpLink {
            rt,
            wire: Wire::Unconnected(port),
            read_faults: 0,
            write_faults: 0,
            pauses: 0,
            ended: false,
        }
    }
}

impl<R> TcpLink<R> {
    ghost use Rattle.ig_link.specs.States.{untold_source, untold_sink};
    ghost use Rattle.ig_link.specs.TcpLink.{tcp_source, tcp_sink};

    /// A link over a connected socket, which gathers what is written. If memory for the buffer is out, it
    /// gathers nothing.
    pub(crate) fn over(rt: R, alloc: Global, stream: TcpStream) -> TcpLink<R>
        ensures source { tcp_source result ≡ untold_source 0 0 false }
        ensures sink { tcp_sink result ≡ untold_sink 0 }
    {
        TcpLink {
            rt,
            wire: Wire::over(stream, Some(Gathering::new(alloc, ROOM))),
            read_faults: 0,
            write_faults: 0,
            pauses: 0,
            ended: false,
        }
    }
}

impl<R: Net<Listener = TcpListener, Stream = TcpStream>> Source for TcpLink<R> {
    ghost use Rattle.std.specs.Prelude.{◌≡◌, ◌<◌, length};
    ghost use Rattle.ig_link.specs.ReadsAs.{ReadsAs};
    ghost use Rattle.ig_link.specs.TcpLink.{tcp_source, tcp_sink, WireFlushes};

    ghost source = { tcp_source };

    ghost sink_beside = { tcp_sink };

    fn read(&mut self, buf: &mut [u8]) -> Take
        requires { 0 < length buf.old }
        ensures answer { ReadsAs result (tcp_source self.old) (tcp_source self.new) buf.new }
        ensures beside { tcp_sink self.new ≡ tcp_sink self.old }
        // What was gathered was handed to the socket, or a write of the socket has failed.
        ensures flushed { WireFlushes self.old.wire self.new.wire }
    {
        if self.ended {
            self.wire.flush();
            return Take::End;
        }
        match self.wire.receive(&self.rt, buf, false) {
            Ok(0) => {
                self.ended = true;
                Take::End
            }
            Ok(n) => Take::Bytes(n),
            Err(_) => {
                self.read_faults = self.read_faults.saturating_add(1);
                Take::Failed
            }
        }
    }
}

impl<R: Net<Listener = TcpListener, Stream = TcpStream>> Sink for TcpLink<R> {
    ghost use Rattle.std.specs.Prelude.{◌≡◌, ◌<◌, length};
    ghost use Rattle.ig_link.specs.WritesAs.{WritesAs};
    ghost use Rattle.ig_link.specs.TcpLink.{tcp_source, tcp_sink, WireWrites};

    ghost sink = { tcp_sink };

    ghost source_beside = { tcp_source };

    fn write(&mut self, piece: &[u8]) -> Gave
        requires { 0 < length piece.now }
        ensures answer { WritesAs result (tcp_sink self.old) (tcp_sink self.new) piece.now }
        ensures beside { tcp_source self.new ≡ tcp_source self.old }
        // The piece was gathered or written; it fails if the socket didn't take what was gathered before.
        ensures wrote { WireWrites result self.old.wire self.new.wire piece.now }
    {
        match self.wire.send(&self.rt, piece) {
            Gave::Bytes(n) => Gave::Bytes(n),
            Gave::Failed => {
                self.write_faults = self.write_faults.saturating_add(1);
                Gave::Failed
            }
        }
    }
}

impl<R: Net<Listener = TcpListener, Stream = TcpStream>> Duplex for TcpLink<R> {
    ghost use Rattle.std.specs.Prelude.{refl};

    ghost reads_beside = { λ link. refl };

    ghost writes_beside = { λ link. refl };

    ghost untold_left = { λ link. refl };

    ghost untold_written = { λ link. refl };
}

impl<R: Net<Listener = TcpListener, Stream = TcpStream> + Drop> Link for TcpLink<R> {
    ghost use Rattle.std.specs.Prelude.{◌≡◌, ◌<◌, length};
    ghost use Rattle.ig_link.specs.ReadsNowAs.{ReadsNowAs};
    ghost use Rattle.ig_link.specs.TcpLink.{tcp_source, tcp_sink, WireFlushes};

    type Left = Retired;

    fn read_now(&mut self, buf: &mut [u8]) -> TakeNow
        requires { 0 < length buf.old }
        ensures answer { ReadsNowAs result (tcp_source self.old) (tcp_source self.new) buf.new }
        ensures beside { tcp_sink self.new ≡ tcp_sink self.old }
        // What was gathered was handed to the socket, or a write of the socket has failed.
        ensures flushed { WireFlushes self.old.wire self.new.wire }
    {
        if self.ended {
            self.wire.flush();
            return TakeNow::End;
        }
        match self.wire.receive(&self.rt, buf, true) {
            Ok(0) => {
                self.ended = true;
                TakeNow::End
            }
            Ok(n) => TakeNow::Bytes(n),
            Err(e) if e.kind() == ErrorKind::WouldBlock => {
                self.pauses = self.pauses.saturating_add(1);
                TakeNow::NotYet
            }
            Err(_) => {
                self.read_faults = self.read_faults.saturating_add(1);
                TakeNow::Failed
            }
        }
    }

    fn retire(self) -> Retired {
        let TcpLink {
            rt: _,
            mut wire,
            read_faults,
            write_faults,
            pauses,
            ended,
        } = self;
        wire.flush();
        if let Wire::Connected(connection) = &wire {
            if !ended {
                connection.linger();
            }
        }
        Retired {
            taken: None,
            written: None,
            read_faults,
            write_faults,
            pauses,
            ended,
        }
    }
}
