//! A buffer that gathers what is written and hands it on to a writer later.

ghost use Rattle.std.specs.Prelude.{◌≡◌, ◌<◌, ◌≤◌, length, take, false};
ghost use Rattle.std.specs.Io.KnownBytes.{Appends};

use crate::ends::Gave;
use crate::pipes::write_some;
use std::alloc::Global;
use std::io::Write;
use std::marker::Model;

/// A piece of at least this many bytes isn't copied into the buffer.
const LARGE: usize = 32 * 1024;

/// A buffer of bytes that were written and not yet handed on, for one writer, which each call is given.
/// Contracts see the bytes that wait and whether a write of the writer has failed; after that nothing
/// more is written.
#[derive(Drop)]
pub struct Gathering {
    bytes: Vec<u8>,
    handed_on: usize,
    broken: bool,
}

impl Model for Gathering {
    ghost use Rattle.ig_link.specs.Gathered.{Gathered};

    ghost Value = { Gathered };

    ghost use Rattle.ig_link.specs.Gathering.{gathered, IsWithin};

    ghost view = { gathered };

    ghost invariant = { IsWithin };
}

/// Writes as many of the bytes as the writer takes, and returns how many and whether a write failed.
fn hand_on<W: Write>(writer: &mut W, bytes: &[u8]) -> (usize, bool)
    ensures fits { result.0 ≤ length bytes.now }
    ensures written { Appends (W.contents writer.old) (W.contents writer.new) (take result.0 bytes.now) }
    ensures whole { result.1 ≡ false → result.0 ≡ length bytes.now }
{
    let mut count = 0;
    while count < bytes.len() {
        match write_some(writer, &bytes[count..]) {
            Ok(n) if n > 0 => count += n,
            _ => return (count, true),
        }
    }
    (count, false)
}

impl Gathering {
    ghost use Rattle.std.specs.Prelude.{◌≡◌, ◌<◌, [], true, false, length};
    ghost use Rattle.std.specs.Io.KnownBytes.{Keeps};
    ghost use Rattle.ig_link.specs.Gathered.{GatheredWrite, GatheredFlush, KeepsPiece};

    /// An empty buffer with room for this many bytes; if memory is out, with no room, so that each piece
    /// is written at once.
    pub fn new(alloc: Global, room: usize) -> Gathering
        ensures { result ≡ record { waiting = []; broken = false } }
    {
        let mut bytes = Vec::new(alloc);
        let _ = bytes.reserve_exact(room);
        Gathering {
            bytes,
            handed_on: 0,
            broken: false,
        }
    }

    /// Hands on all bytes that wait. Returns whether all were written.
    pub fn flush<W: Write>(&mut self, writer: &mut W) -> bool
        ensures { GatheredFlush result
            (W.contents writer.old) (W.contents writer.new) self.old self.new }
    {
        if self.broken {
            return false;
        }
        let (count, failed) = hand_on(writer, &self.bytes[self.handed_on..]);
        if failed {
            self.handed_on += count;
            self.broken = true;
            return false;
        }
        self.bytes.clear();
        self.handed_on = 0;
        true
    }

    /// Adds a piece to the bytes that wait, if it isn't large and there is room for it.
    fn keep(&mut self, piece: &[u8]) -> bool
        ensures { KeepsPiece result self.old self.new piece.now }
    {
        piece.len() < LARGE
            && piece.len() <= self.bytes.capacity() - self.bytes.len()
            && self.bytes.extend_from_slice(piece).is_ok()
    }

    /// Takes some bytes from the start of a piece, which isn't empty: adds a small piece to the bytes that
    /// wait, which are handed on first if there is no room for it, and writes a large one at once after
    /// them.
    pub fn write<W: Write>(&mut self, writer: &mut W, piece: &[u8]) -> Gave
        requires { 0 < length piece.now }
        ensures { GatheredWrite result
            (W.contents writer.old) (W.contents writer.new) self.old self.new piece.now }
    {
        if self.broken {
            return Gave::Failed;
        }
        if self.keep(piece) {
            return Gave::Bytes(piece.len());
        }
        if !self.flush(writer) {
            return Gave::Failed;
        }
        if self.keep(piece) {
            return Gave::Bytes(piece.len());
        }
        match write_some(writer, piece) {
            Ok(n) if n > 0 => Gave::Bytes(n),
            _ => {
                self.broken = true;
                Gave::Failed
            }
        }
    }
}
