//! A source over a reader of std, and a sink over a writer of std.

ghost use Rattle.std.specs.Prelude.{◌≡◌, ◌≢◌, ◌<◌, length, None, false, true, IfOk, IfErr, OnOk, OnErr};
ghost use Rattle.std.specs.IoError.{error_kind};
ghost use Rattle.std.specs.Io.KnownBytes.{IsAtEnd, Keeps, ReadConsumes, WriteAppends};
ghost use Rattle.std.specs.Io.{ReadsAtMost, WritesAtMost};
ghost use Rattle.ig_link.specs.States.{SourceState, SinkState};
ghost use Rattle.ig_link.specs.ReadsAs.{ReadsAs};
ghost use Rattle.ig_link.specs.WritesAs.{WritesAs};

use crate::ends::{Gave, Sink, Source, Take};
use std::io;
use std::io::{ErrorKind, Read, Write};

/// A source over a reader of std. A read of 0 bytes is the end, after which the reader isn't read again.
/// An interrupted read is tried again, and any other error is a failed read.
///
/// It tells the bytes still to come if the reader does, as a `Cursor`; files, pipes and terminals tell
/// none. No contract of std says when a reader fails. So two things are tested and not proved: a read
/// fails only if the reader fails, and only an interrupted read is tried again.
#[derive(Drop)]
pub struct PipeIn<R> {
    reader: R,
    faults: u64,
    ended: bool,
}

/// A sink over a writer of std. An interrupted write is tried again. Any other error is a failed write,
/// and so is a write that takes 0 bytes.
///
/// It tells the bytes written if the writer does, as a `Vec<u8>`; files, pipes and terminals tell
/// none. No contract of std says when a writer fails. So two things are tested and not proved: a write
/// fails only if the writer fails or takes 0 bytes, and only an interrupted write is tried again.
#[derive(Drop)]
pub struct PipeOut<W> {
    writer: W,
    faults: u64,
}

/// One read, tried again while it is interrupted, at most `u64::MAX` times in all.
pub fn read_some<R: Read>(reader: &mut R, buf: &mut [u8]) -> io::Result<usize>
    ensures bound { ReadsAtMost result buf.new }
    ensures bytes { ReadConsumes (R.remaining reader.old) (R.remaining reader.new) result buf.new }
    ensures retried { IfErr result (λ e. error_kind e ≢ ErrorKind.Interrupted) }
{
    for _ in 0..u64::MAX {
        match reader.read(buf) {
            Err(e) if e.kind() == ErrorKind::Interrupted => {}
            answer => return answer,
        }
    }
    Err(io::Error::from(ErrorKind::TimedOut))
}

/// One write, tried again while it is interrupted, at most `u64::MAX` times in all.
pub fn write_some<W: Write>(writer: &mut W, piece: &[u8]) -> io::Result<usize>
    ensures bound { WritesAtMost result piece.now }
    ensures bytes { WriteAppends (W.contents writer.old) (W.contents writer.new) result piece.now }
    ensures retried { IfErr result (λ e. error_kind e ≢ ErrorKind.Interrupted) }
{
    for _ in 0..u64::MAX {
        match writer.write(piece) {
            Err(e) if e.kind() == ErrorKind::Interrupted => {}
            answer => return answer,
        }
    }
    Err(io::Error::from(ErrorKind::TimedOut))
}

impl<R: Read> PipeIn<R> {
    /// A source over this reader, which hasn't failed and hasn't ended.
    pub fn new(reader: R) -> PipeIn<R>
        ensures { result ≡ record { reader = reader; faults = 0; ended = false } }
    {
        PipeIn {
            reader,
            faults: 0,
            ended: false,
        }
    }

    /// How often a read has failed. The count saturates at `u64::MAX`.
    pub fn read_faults(&self) -> u64
        ensures { result ≡ self.now.faults }
    {
        self.faults
    }
}

impl<W: Write> PipeOut<W> {
    /// A sink over this writer, which hasn't failed.
    pub fn new(writer: W) -> PipeOut<W>
        ensures { result ≡ record { writer = writer; faults = 0 } }
    {
        PipeOut { writer, faults: 0 }
    }

    /// How often a write has failed. The count saturates at `u64::MAX`.
    pub fn write_faults(&self) -> u64
        ensures { result ≡ self.now.faults }
    {
        self.faults
    }
}

impl<R: Read> Source for PipeIn<R> {
    ghost use Rattle.std.specs.Prelude.{◌≡◌, ◌<◌, length};
    ghost use Rattle.std.specs.Io.KnownBytes.{IsAtEnd};
    ghost use Rattle.ig_link.specs.ReadsAs.{ReadsAs};
    ghost use Rattle.ig_link.specs.Pipes.{pipe_source};

    ghost source = { pipe_source R.remaining };

    fn read(&mut self, buf: &mut [u8]) -> Take
        requires { 0 < length buf.old }
        ensures answer { ReadsAs result
            (pipe_source R.remaining self.old) (pipe_source R.remaining self.new) buf.new }
        // The end is the reader's, and no later read reaches the reader.
        ensures end { result ≡ Take.End → self.old.ended ≡ false
            → IsAtEnd (R.remaining self.new.reader) }
        ensures stays { self.old.ended ≡ true → (result ≡ Take.End) × (self.new ≡ self.old) }
    {
        if self.ended {
            return Take::End;
        }
        match read_some(&mut self.reader, buf) {
            Ok(0) => {
                self.ended = true;
                Take::End
            }
            Ok(n) => Take::Bytes(n),
            Err(_) => {
                self.faults = self.faults.saturating_add(1);
                Take::Failed
            }
        }
    }
}

impl<W: Write> Sink for PipeOut<W> {
    ghost use Rattle.ig_link.specs.Pipes.{pipe_sink};

    ghost sink = { pipe_sink W.contents };

    fn write(&mut self, piece: &[u8]) -> Gave {
        match write_some(&mut self.writer, piece) {
            Ok(0) | Err(_) => {
                self.faults = self.faults.saturating_add(1);
                Gave::Failed
            }
            Ok(n) => Gave::Bytes(n),
        }
    }
}
