//! Showing a capture that comes in pieces.

ghost use Rattle.std.specs.Prelude.{◌≡◌, IfOk};
ghost use Rattle.ig_capture.specs.Reading as readings;
ghost use Rattle.ig_capture.specs.Feeds.{ShowsPiece, Feeds, StaysStopped, Finishes};

use crate::cuts::{put_cuts, put_wrong};
use crate::fault::{CaptureBad, CaptureFault};
use crate::field::Field;
use crate::reading::{Reading, read};
use crate::texts::emptied;
use ig_base::{NoMemory, Octets};
use std::alloc::Global;
use std::marker::Model;

/// A capture as far as it was fed, with two buffers that are used again.
#[derive(Drop)]
pub struct Capture {
    reading: Reading,
    stopped: Option<CaptureFault>,
    text: Octets,
    lines: Octets,
}

impl Model for Capture {
    ghost use Rattle.ig_capture.specs.Reading as readings;
    ghost use Rattle.ig_capture.specs.Feeds.{state_of};
    ghost use Rattle.ig_capture.specs.Coded.{coded_state};

    ghost Value = { readings.State };

    ghost coded = { coded_state };

    ghost view = { λ c. state_of c.reading c.stopped };
}

/// Reads a piece of a capture, and appends its text: the line of each message that ends in it, and the
/// line that says what is malformed, if something is. Out of memory, nothing is appended. `text` and
/// `lines` are buffers for the text of a message and for the lines.
fn show(
    reading: &mut Reading,
    piece: &[u8],
    text: &mut Octets,
    lines: &mut Octets,
    out: &mut Octets,
) -> Result<(), CaptureFault>
    ensures { ShowsPiece reading.old reading.new out.old out.new piece.now result }
{
    emptied(reading.alloc, lines);
    match read(reading, piece, text, lines) {
        Ok(()) => Ok(out.append(lines.as_slice())?),
        Err(CaptureFault::Bad(bad)) => {
            put_wrong(bad, lines)?;
            out.append(lines.as_slice())?;
            Err(CaptureFault::Bad(bad))
        }
        Err(CaptureFault::NoMemory) => Err(CaptureFault::NoMemory),
    }
}

impl Capture {
    /// Nothing was fed yet.
    pub fn new(alloc: Global) -> Result<Capture, NoMemory>
        ensures { IfOk result (λ capture. capture ≡ readings.fresh_state) }
    {
        Ok(Capture {
            reading: Reading::new(alloc)?,
            stopped: None,
            text: Octets::empty(alloc),
            lines: Octets::empty(alloc),
        })
    }

    /// Reads the next piece of the capture, and appends the line of each message that ends in it. Where
    /// something is malformed, its line is the last one, and every later call answers this fault again.
    ///
    /// # Errors
    ///
    /// [`CaptureFault::Bad`] exactly if something in the pieces is malformed: a field of a record that is
    /// whole and out of range, or a message. [`CaptureFault::NoMemory`] if memory runs out: nothing is
    /// appended, and every later call answers it again.
    pub fn feed(&mut self, piece: &[u8], out: &mut Octets) -> Result<(), CaptureFault>
        ensures feeds { Feeds self.old self.new out.old out.new piece.now result }
        ensures stays { StaysStopped self.old self.new out.old out.new result }
    {
        if let Some(fault) = self.stopped {
            return Err(fault);
        }
        match show(
            &mut self.reading,
            piece,
            &mut self.text,
            &mut self.lines,
            out,
        ) {
            Ok(()) => Ok(()),
            Err(fault) => {
                self.stopped = Some(fault);
                Err(fault)
            }
        }
    }

    /// Ends the capture: appends a line for each frame that isn't whole, or one that says that the
    /// capture ends inside its first four bytes or inside a record.
    ///
    /// # Errors
    ///
    /// [`CaptureFault::Bad`] exactly if something in the capture is malformed, and
    /// [`CaptureFault::NoMemory`] if memory runs out, with nothing appended.
    pub fn finish(self, out: &mut Octets) -> Result<(), CaptureFault>
        ensures finishes { Finishes self out.old out.new result }
        ensures stays { StaysStopped self self out.old out.new result }
    {
        let Capture {
            reading,
            stopped,
            text: _text,
            mut lines,
        } = self;
        if let Some(fault) = stopped {
            return Err(fault);
        }
        lines.clear();
        if let Field::Side = reading.field {
            put_cuts(reading.alloc, &reading.sessions, &mut lines)?;
            out.append(lines.as_slice())?;
            return Ok(());
        }
        let bad = CaptureBad::Stream {
            place: reading.place,
        };
        put_wrong(bad, &mut lines)?;
        out.append(lines.as_slice())?;
        Err(CaptureFault::Bad(bad))
    }
}
