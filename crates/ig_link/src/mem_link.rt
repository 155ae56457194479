//! A link in memory that follows a script.

ghost use Rattle.std.specs.Prelude.{◌≡◌, ◌<◌, ◌≤◌, ◌+◌, ◌++◌, ℕ, List, [], false, true, vec_len, vec_capacity, length, take, drop, min, IfOk, IfSome, MatchOption, OnSome, IsNone, IsTrue, ◌↔◌};
ghost use Rattle.ig_link.specs.Script.{bytes_of, is_skipped, after_skipped};
ghost use Rattle.ig_link.specs.ScriptOffset.{step_from_offset, steps_from_offset};

use crate::ends::{Duplex, Gave, Sink, Source, Take};
use crate::link::{Link, Retired, TakeNow};
use ig_base::{NoMemory, Octets};
use std::alloc::Global;
use std::marker::Model;

/// A step of the reads of a [`MemLink`].
#[derive(Debug, Drop)]
pub enum ReadStep {
    /// These bytes, in as many reads as their buffers need. An empty step is skipped.
    Bytes(Octets),
    /// One read that doesn't wait finds nothing yet. A read that waits skips it.
    Pause,
    /// Until this many bytes were written, a read that doesn't wait finds nothing yet and one that waits
    /// finds the end, after which all reads do. Then it is skipped.
    AfterWritten(u64),
    /// One read fails.
    Fault,
}

/// A step of the writes of a [`MemLink`], used by one write.
#[derive(Clone, Copy, Debug, PartialEq, Eq)]
pub enum WriteStep {
    /// The write takes at most this many bytes; 0 counts as 1.
    AtMost(usize),
    /// The write fails.
    Fault,
}

/// A link in memory that follows a script: its read steps and its write steps are each used in order.
/// After the last read step it ends, and so it does for good at its first answer of the end. After the
/// last write step it takes every piece whole.
///
/// It tells the bytes taken and the bytes still to come. It tells the bytes written until they are
/// more than it has room for; bytes after that are taken and not kept.
#[derive(Drop)]
pub struct MemLink {
    reads: Vec<ReadStep>,
    next_read: usize,
    offset: usize,
    writes: Vec<WriteStep>,
    next_write: usize,
    taken: Vec<u8>,
    written: Vec<u8>,
    written_count: u64,
    room: usize,
    overrun: bool,
    read_faults: u64,
    write_faults: u64,
    pauses: u64,
    ended: bool,
}

impl Model for MemLink {
    ghost use Rattle.ig_link.specs.Script.{Script};

    ghost Value = { Script };

    ghost use Rattle.ig_link.specs.MemLink.{script, IsPrepared};

    ghost view = { script };

    ghost invariant = { IsPrepared };
}

/// The bytes from an offset on; none past the end.
fn bytes_from(bytes: &[u8], at: usize) -> &[u8]
    ensures { result.now ≡ drop at bytes.now }
{
    if at < bytes.len() { &bytes[at..] } else { &[] }
}

/// Copies as many bytes as fit to the start of a buffer, and returns how many.
fn copy_some(bytes: &[u8], buf: &mut [u8]) -> usize
    ensures count { result ≡ min (length bytes.now) (length buf.old) }
    ensures copied { take result buf.new ≡ take result bytes.now }
{
    let n = bytes.len().min(buf.len());
    buf[..n].copy_from_slice(&bytes[..n]);
    n
}

/// Whether a read skips a step of which the bytes up to an offset were taken.
fn is_skipped(step: &ReadStep, offset: usize, written_count: u64, waits: bool) -> bool
    ensures { result ≡ is_skipped written_count waits (step_from_offset offset step.now) }
{
    match step {
        ReadStep::Bytes(bytes) => offset >= bytes.len(),
        ReadStep::Pause => waits,
        ReadStep::AfterWritten(count) => *count <= written_count,
        ReadStep::Fault => false,
    }
}

/// Skips the steps that a read skips. Takes and returns the index of a step and the number of its bytes
/// that were taken.
fn skip_steps(
    reads: &[ReadStep],
    next: usize,
    offset: usize,
    written_count: u64,
    waits: bool,
) -> (usize, usize)
    requires { next ≤ length reads.now }
    ensures within { result.0 ≤ length reads.now }
    ensures steps { steps_from_offset result.1 (drop result.0 reads.now)
        ≡ after_skipped written_count waits (steps_from_offset offset (drop next reads.now)) }
{
    let mut next = next;
    let mut offset = offset;
    while next < reads.len() {
        if !is_skipped(&reads[next], offset, written_count, waits) {
            break;
        }
        next += 1;
        offset = 0;
    }
    (next, offset)
}

/// Adds the piece to what was written, unless that overruns the room now or did before.
fn keep(written: &mut Vec<u8>, overrun: &mut bool, room: usize, piece: &[u8])
    requires prepared { room ≤ vec_capacity written.old }
    requires within { vec_len written.old ≤ room }
    ensures kept { overrun.new ≡ false
        → (overrun.old ≡ false) × (written.new.items ≡ written.old.items ++ piece.now) }
    ensures overrun { overrun.new ≡ true → overrun.old ≡ false
        → room < length written.old.items + length piece.now }
    ensures prepared { room ≤ vec_capacity written.new }
    ensures within { vec_len written.new ≤ room }
{
    if *overrun {
        return;
    }
    if piece.len() > room - written.len() {
        *overrun = true;
        return;
    }
    let _ = written.extend_from_slice(piece);
}

/// The number of bytes that the steps give, `None` if a `usize` can't hold it.
fn total(reads: &[ReadStep]) -> Option<usize>
    ensures { IfSome result (λ n. n ≡ length (bytes_of reads.now)) }
{
    let mut sum = 0usize;
    for step in reads {
        if let ReadStep::Bytes(bytes) = step {
            sum = sum.checked_add(bytes.len())?;
        }
    }
    Some(sum)
}

impl MemLink {
    ghost use Rattle.std.specs.Prelude.{◌≡◌, [], IfOk, IsTrue, ◌↔◌, false, MatchOption, true};
    ghost use Rattle.ig_link.specs.Script.{initial_script};

    /// A link that follows these steps and keeps up to `room` written bytes. Takes the memory for all
    /// bytes that it can give and for `room` bytes here, and none later.
    pub fn new(
        alloc: Global,
        reads: Vec<ReadStep>,
        writes: Vec<WriteStep>,
        room: usize,
    ) -> Result<MemLink, NoMemory>
        ensures { IfOk result (λ link. link ≡ initial_script room reads.items writes.items) }
    {
        let Some(all) = total(&reads) else {
            return Err(NoMemory);
        };
        let taken = Vec::with_capacity(alloc, all)?;
        let written = Vec::with_capacity(alloc, room)?;
        Ok(MemLink {
            reads,
            next_read: 0,
            offset: 0,
            writes,
            next_write: 0,
            taken,
            written,
            written_count: 0,
            room,
            overrun: false,
            read_faults: 0,
            write_faults: 0,
            pauses: 0,
            ended: false,
        })
    }

    /// The bytes taken so far.
    pub fn taken(&self) -> &[u8]
        ensures { result.now ≡ self.now.taken }
    {
        self.taken.as_slice()
    }

    /// The bytes written so far, `None` once they were more than the link has room for.
    pub fn written(&self) -> Option<&[u8]>
        ensures { MatchOption result (self.now.overrun ≡ true)
            (λ w. (self.now.overrun ≡ false) × (w.now ≡ self.now.written)) }
    {
        if self.overrun {
            None
        } else {
            Some(self.written.as_slice())
        }
    }

    /// How often a read has failed. The count saturates at `u64::MAX`.
    pub fn read_faults(&self) -> u64
        ensures { result ≡ self.now.read_faults }
    {
        self.read_faults
    }

    /// How often a write has failed. The count saturates at `u64::MAX`.
    pub fn write_faults(&self) -> u64
        ensures { result ≡ self.now.write_faults }
    {
        self.write_faults
    }

    /// How often a read that doesn't wait has found nothing yet. The count saturates at `u64::MAX`.
    pub fn pauses(&self) -> u64
        ensures { result ≡ self.now.pauses }
    {
        self.pauses
    }
}

impl MemLink {
    ghost use Rattle.std.specs.Prelude.{◌<◌, ◌≤◌, ◌-◌, ◌^◌, length};
    ghost use Rattle.ig_link.specs.Script.{ScriptReads};

    /// The next read, which waits or doesn't, as the script has it.
    fn follow_read(&mut self, buf: &mut [u8], waits: bool) -> TakeNow
        requires { 0 < length buf.old }
        ensures { ScriptReads waits result self.old self.new buf.new }
    {
        if self.ended {
            return TakeNow::End;
        }
        (self.next_read, self.offset) = skip_steps(
            &self.reads,
            self.next_read,
            self.offset,
            self.written_count,
            waits,
        );
        match self.reads.get(self.next_read) {
            None => {
                self.ended = true;
                TakeNow::End
            }
            Some(ReadStep::AfterWritten(_)) => {
                if waits {
                    self.ended = true;
                    TakeNow::End
                } else {
                    self.pauses = self.pauses.saturating_add(1);
                    TakeNow::NotYet
                }
            }
            Some(ReadStep::Pause) => {
                self.next_read += 1;
                self.offset = 0;
                self.pauses = self.pauses.saturating_add(1);
                TakeNow::NotYet
            }
            Some(ReadStep::Fault) => {
                self.next_read += 1;
                self.offset = 0;
                self.read_faults = self.read_faults.saturating_add(1);
                TakeNow::Failed
            }
            Some(ReadStep::Bytes(bytes)) => {
                let left = bytes_from(bytes.as_slice(), self.offset);
                let n = copy_some(left, buf);
                let _ = self.taken.extend_from_slice(&left[..n]);
                self.offset += n;
                TakeNow::Bytes(n)
            }
        }
    }
}

impl MemLink {
    ghost use Rattle.std.specs.Prelude.{◌<◌, length};
    ghost use Rattle.ig_link.specs.Script.{ScriptWrites};

    /// The next write, as the script has it.
    fn follow_write(&mut self, piece: &[u8]) -> Gave
        requires { 0 < length piece.now }
        ensures { ScriptWrites result self.old self.new piece.now }
    {
        match self.writes.get(self.next_write) {
            None => {
                keep(&mut self.written, &mut self.overrun, self.room, piece);
                self.written_count = self.written_count.saturating_add(piece.len() as u64);
                Gave::Bytes(piece.len())
            }
            Some(WriteStep::Fault) => {
                self.next_write += 1;
                self.write_faults = self.write_faults.saturating_add(1);
                Gave::Failed
            }
            Some(WriteStep::AtMost(most)) => {
                let n = (*most).max(1).min(piece.len());
                self.next_write += 1;
                keep(&mut self.written, &mut self.overrun, self.room, &piece[..n]);
                self.written_count = self.written_count.saturating_add(n as u64);
                Gave::Bytes(n)
            }
        }
    }
}

impl Source for MemLink {
    ghost use Rattle.std.specs.Prelude.{◌≡◌, ◌<◌, length};
    ghost use Rattle.ig_link.specs.ReadsAs.{ReadsAs};
    ghost use Rattle.ig_link.specs.Script.{script_source, script_sink, ScriptReads, as_now};

    ghost source = { script_source };

    ghost sink_beside = { script_sink };

    fn read(&mut self, buf: &mut [u8]) -> Take
        requires { 0 < length buf.old }
        ensures answer { ReadsAs result (script_source self.old) (script_source self.new) buf.new }
        ensures beside { script_sink self.new ≡ script_sink self.old }
        // The answer is the script's.
        ensures step { ScriptReads true (as_now result) self.old self.new buf.new }
    {
        match self.follow_read(buf, true) {
            TakeNow::Bytes(n) => Take::Bytes(n),
            TakeNow::End => Take::End,
            TakeNow::Failed => Take::Failed,
            TakeNow::NotYet => unreachable!(),
        }
    }
}

impl Sink for MemLink {
    ghost use Rattle.std.specs.Prelude.{◌≡◌, ◌<◌, length};
    ghost use Rattle.ig_link.specs.WritesAs.{WritesAs};
    ghost use Rattle.ig_link.specs.Script.{script_source, script_sink, ScriptWrites};

    ghost sink = { script_sink };

    ghost source_beside = { script_source };

    fn write(&mut self, piece: &[u8]) -> Gave
        requires { 0 < length piece.now }
        ensures answer { WritesAs result (script_sink self.old) (script_sink self.new) piece.now }
        ensures beside { script_source self.new ≡ script_source self.old }
        // The answer is the script's.
        ensures step { ScriptWrites result self.old self.new piece.now }
    {
        self.follow_write(piece)
    }
}

impl Duplex for MemLink {
    ghost use Rattle.std.specs.Prelude.{refl};

    ghost reads_beside = { λ link. refl };

    ghost writes_beside = { λ link. refl };

    ghost untold_left = { λ link. refl };

    ghost untold_written = { λ link. refl };
}

impl Link for MemLink {
    ghost use Rattle.std.specs.Prelude.{◌≡◌, ◌<◌, false, length};
    ghost use Rattle.ig_link.specs.ReadsNowAs.{ReadsNowAs};
    ghost use Rattle.ig_link.specs.Script.{script_source, script_sink, ScriptReads};

    type Left = Retired;

    fn read_now(&mut self, buf: &mut [u8]) -> TakeNow
        requires { 0 < length buf.old }
        ensures answer { ReadsNowAs result (script_source self.old) (script_source self.new) buf.new }
        ensures beside { script_sink self.new ≡ script_sink self.old }
        // The answer is the script's.
        ensures step { ScriptReads false result self.old self.new buf.new }
    {
        self.follow_read(buf, false)
    }

    fn retire(self) -> Retired {
        let overrun = self.overrun;
        let read_faults = self.read_faults;
        let write_faults = self.write_faults;
        let pauses = self.pauses;
        let ended = self.ended;
        let taken = self.taken;
        let written = self.written;
        Retired {
            taken: Some(Octets::new(taken)),
            written: if overrun {
                None
            } else {
                Some(Octets::new(written))
            },
            read_faults,
            write_faults,
            pauses,
            ended,
        }
    }
}
