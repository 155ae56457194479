//! A connected socket with the buffer in which it gathers what is written. It is proved over any socket.

ghost use Rattle.std.specs.Prelude.{◌≡◌, ◌<◌, length};
ghost use Rattle.std.specs.Io.{ReadsAtMost};

use crate::ends::Gave;
use crate::gathering::Gathering;
use crate::pipes::{read_some, write_some};
use std::io;
use std::io::Write;
use std::net::{Shutdown, TcpStream};
use std::time::Duration;

/// How many microseconds a read that doesn't wait gives the system, which rounds them up to its ticks.
const SLICE: u64 = 1;

/// How many milliseconds a retired link waits for each further piece from its peer.
const LINGER: u64 = 20;

/// How many pieces, of at most `LINGER_PIECE` bytes, a retired link takes from its peer.
const LINGER_PIECES: u32 = 128;

const LINGER_PIECE: usize = 16 * 1024;

/// A connected socket: a writer from which bytes are read too. A read leaves what it is as a writer.
pub trait Socket: Write {
    /// Reads once. An interrupted read is tried again, and one that takes longer than was set would block.
    fn receive(&self, buf: &mut [u8]) -> io::Result<usize>
        ensures { ReadsAtMost result buf.new };

    /// Sets how long a read waits.
    fn set_wait(&self, wait: Option<Duration>) -> io::Result<()>;

    /// Closes the sending half.
    fn close_sending(&self) -> io::Result<()>;
}

impl Socket for TcpStream {
    fn receive(&self, buf: &mut [u8]) -> io::Result<usize> {
        let mut reader = self;
        read_some(&mut reader, buf)
    }

    fn set_wait(&self, wait: Option<Duration>) -> io::Result<()> {
        self.set_read_timeout(wait)
    }

    fn close_sending(&self) -> io::Result<()> {
        self.shutdown(Shutdown::Write)
    }
}

/// A connected socket; the buffer in which it gathers what is written, if it does; and whether its reads
/// wait for a slice alone.
#[derive(Drop)]
pub struct Connection<S> {
    stream: S,
    gathering: Option<Gathering>,
    sliced: bool,
}

impl<S> Connection<S> {
    ghost use Rattle.std.specs.Prelude.{◌≡◌};

    /// A connection over this socket, of which reads wait.
    pub fn new(stream: S, gathering: Option<Gathering>) -> Connection<S>
        ensures { result.gathering ≡ gathering }
    {
        Connection {
            stream,
            gathering,
            sliced: false,
        }
    }
}

impl<S: Socket> Connection<S> {
    ghost use Rattle.std.specs.Prelude.{◌<◌, length};
    ghost use Rattle.std.specs.Io.{ReadsAtMost};
    ghost use Rattle.ig_link.specs.Gathered.{BufferFlushes, BufferWrites};

    /// Hands what was gathered to the socket.
    pub fn flush(&mut self)
        ensures { BufferFlushes (S.contents self.old.stream) (S.contents self.new.stream)
            self.old.gathering self.new.gathering }
    {
        if let Some(gathering) = &mut self.gathering {
            let _ = gathering.flush(&mut self.stream);
        }
    }

    /// Sets whether reads wait for a slice alone.
    fn set_sliced(&mut self, sliced: bool) -> io::Result<()>
        ensures { self.new ≡ record self.old { sliced = self.new.sliced } }
    {
        if self.sliced != sliced {
            let wait = if sliced {
                Some(Duration::from_micros(SLICE))
            } else {
                None
            };
            self.stream.set_wait(wait)?;
            self.sliced = sliced;
        }
        Ok(())
    }

    /// Hands what was gathered to the socket, and then reads once: a read that waits, or one that waits for
    /// a slice alone.
    pub fn receive(&mut self, buf: &mut [u8], sliced: bool) -> io::Result<usize>
        ensures bound { ReadsAtMost result buf.new }
        ensures flushed { BufferFlushes (S.contents self.old.stream) (S.contents self.new.stream)
            self.old.gathering self.new.gathering }
    {
        self.flush();
        self.set_sliced(sliced)?;
        self.stream.receive(buf)
    }

    /// Takes bytes from the start of a piece: gathers them, or writes them to the socket.
    pub fn send(&mut self, piece: &[u8]) -> Gave
        requires { 0 < length piece.now }
        ensures { BufferWrites result (S.contents self.old.stream) (S.contents self.new.stream)
            self.old.gathering self.new.gathering piece.now }
    {
        match &mut self.gathering {
            Some(gathering) => gathering.write(&mut self.stream, piece),
            None => match write_some(&mut self.stream, piece) {
                Ok(n) if n > 0 => Gave::Bytes(n),
                _ => Gave::Failed,
            },
        }
    }

    /// Closes the sending half, and takes what the peer still sends for a short time.
    pub fn linger(&self) {
        if self.stream.close_sending().is_err() {
            return;
        }
        if self
            .stream
            .set_wait(Some(Duration::from_millis(LINGER)))
            .is_err()
        {
            return;
        }
        let mut unread = [0u8; LINGER_PIECE];
        for _ in 0..LINGER_PIECES {
            match self.stream.receive(&mut unread) {
                Ok(n) if n > 0 => {}
                _ => return,
            }
        }
    }
}
