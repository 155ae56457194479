//! Reading the records of a capture, in pieces of any length.

ghost use Rattle.std.specs.Prelude.{◌≡◌, ◌<◌, length, Some, IfOk};
ghost use Rattle.std.specs.Int.{w32};
ghost use Rattle.ig_base.specs.Numbers.{number_at};
ghost use Rattle.ig_capture.specs.Answers.{ShowsLines, ReadsByte};
ghost use Rattle.ig_capture.specs.Reading as readings;
ghost use Rattle.ig_capture.specs.Records as records;
ghost use Rattle.ig_capture.specs.Heads.{IsInHead, HasLeft, ReadsSome};
ghost use Rattle.ig_capture.specs.declared.fault.CaptureBad.TheVariants as bad;
ghost use Rattle.ig_capture.specs.declared.fault.CaptureFault.TheVariants as faults;
ghost use Rattle.ig_capture.specs.declared.field.Field.TheVariants.{Side};

use crate::fault::{CaptureBad, CaptureFault};
use crate::field::Field;
use crate::session::Session;
use crate::sessions::hear_at;
use ig_base::{NoMemory, Octets, get_i32};
use std::alloc::Global;
use std::marker::Model;

/// The four bytes that a capture begins with.
const MAGIC: &[u8] = b"IGC1";

/// A session's number is below this.
const SESSIONS: u32 = 1_024;

/// The most bytes of a record.
const MOST_BYTES: u32 = 65_536;

/// The field that is being read, the offset in the capture where it begins, and those of its bytes that
/// came; and the sessions so far, by number.
#[derive(Drop)]
pub(crate) struct Reading {
    pub(crate) alloc: Global,
    pub(crate) field: Field,
    pub(crate) place: u64,
    pub(crate) came: Octets,
    pub(crate) sessions: Vec<Session>,
}

impl Model for Reading {
    ghost use Rattle.ig_capture.specs.Reading as readings;
    ghost use Rattle.ig_capture.specs.Coded.{coded_reading};

    ghost Value = { readings.Reading };

    ghost coded = { coded_reading };

    ghost view = { λ r. record {
      field = r.field;
      place = r.place;
      came = r.came;
      sessions = r.sessions.items;
    } };

    ghost use Rattle.ig_capture.specs.Heads.{HasLeft};

    ghost invariant = { λ r. HasLeft r.field };
}

impl Reading {
    /// Nothing was read.
    pub(crate) fn new(alloc: Global) -> Result<Reading, NoMemory>
        ensures { IfOk result (λ reading. reading ≡ readings.fresh_reading) }
    {
        Ok(Reading {
            alloc,
            field: Field::Magic,
            place: 0,
            came: Octets::new(Vec::with_capacity(alloc, 4)?),
            sessions: Vec::new(alloc),
        })
    }

    /// Reads the first bytes of a piece, at least one, and appends the lines of the messages that end with
    /// them. Answers how many it read.
    fn read_some(
        &mut self,
        piece: &[u8],
        text: &mut Octets,
        lines: &mut Octets,
    ) -> Result<usize, CaptureFault>
        requires { 0 < length piece.now }
        ensures { ReadsSome piece.now self.old self.new lines.old lines.new result }
    {
        let Field::Bytes {
            server,
            session,
            count,
            left,
        } = self.field
        else {
            self.head_byte(piece[0])?;
            return Ok(1);
        };
        let len = piece.len().min(left as usize);
        match hear_at(
            self.alloc,
            session,
            server,
            &piece[..len],
            &mut self.sessions,
            text,
            lines,
        ) {
            Ok(()) => {
                self.fewer(server, session, count, left, len as u32);
                Ok(len)
            }
            Err(fault) => Err(fault),
        }
    }

    /// This many bytes of a record fewer are left.
    fn fewer(&mut self, server: bool, session: u32, count: u32, left: u32, len: u32)
        ensures { self.new ≡ readings.fewer_left server session count left len self.old }
    {
        if len < left {
            self.field = Field::Bytes {
                server,
                session,
                count,
                left: left - len,
            };
        } else {
            self.next_field(Field::Side, u64::from(count));
        }
    }

    /// A byte of a field other than the bytes of a record.
    fn head_byte(&mut self, byte: u8) -> Result<(), CaptureFault>
        requires { IsInHead self.old.field }
        ensures { ReadsByte (readings.read_byte self.old byte) self.new result }
    {
        if let Field::Side = self.field {
            return self.side_byte(byte);
        }
        self.came.push(byte)?;
        let Some(number) = get_i32(self.came.as_slice(), 0) else {
            return Ok(());
        };
        match self.field {
            Field::Magic => self.magic_read(),
            Field::Session { server } => self.session_read(server, number),
            Field::Count { server, session } => self.count_read(server, session, number),
            Field::Side | Field::Bytes { .. } => Ok(()),
        }
    }

    /// The first four bytes, which are there.
    fn magic_read(&mut self) -> Result<(), CaptureFault>
        ensures { ReadsByte (readings.magic_whole self.old self.old.came) self.new result }
    {
        if self.came.as_slice() != MAGIC {
            return Err(self.malformed());
        }
        self.next_field(Field::Side, 4);
        Ok(())
    }

    /// The session of a record, which is there.
    fn session_read(&mut self, server: bool, number: i32) -> Result<(), CaptureFault>
        requires { number_at w32 self.old.came 0 ≡ Some number }
        ensures { ReadsByte (readings.session_whole server self.old self.old.came) self.new result }
    {
        let Some(session) = within(number, 0, SESSIONS - 1) else {
            return Err(self.malformed());
        };
        self.next_field(Field::Count { server, session }, 4);
        Ok(())
    }

    /// The number of the bytes of a record, which is there.
    fn count_read(&mut self, server: bool, session: u32, number: i32) -> Result<(), CaptureFault>
        requires { number_at w32 self.old.came 0 ≡ Some number }
        ensures { ReadsByte (readings.count_whole server session self.old self.old.came) self.new result }
    {
        let Some(count) = within(number, 1, MOST_BYTES) else {
            return Err(self.malformed());
        };
        let field = Field::Bytes {
            server,
            session,
            count,
            left: count,
        };
        self.next_field(field, 4);
        Ok(())
    }

    /// The side of a record.
    fn side_byte(&mut self, byte: u8) -> Result<(), CaptureFault>
        ensures { ReadsByte (readings.byte_in self.old Side byte) self.new result }
    {
        if byte > 1 {
            return Err(self.malformed());
        }
        self.next_field(Field::Session { server: byte == 1 }, 1);
        Ok(())
    }

    /// The next field begins this many bytes further on.
    fn next_field(&mut self, field: Field, further: u64)
        requires { HasLeft field }
        ensures { self.new ≡ readings.next_field self.old field further }
    {
        self.field = field;
        self.place = self.place.saturating_add(further);
        self.came.clear();
    }

    /// The field is malformed.
    fn malformed(&self) -> CaptureFault
        ensures { result ≡ faults.Bad (bad.Stream self.now.place) }
    {
        CaptureFault::Bad(CaptureBad::Stream { place: self.place })
    }
}

/// Reads a piece, and appends the lines of the messages that end with its bytes. `text` is a buffer for the
/// text of a message.
pub(crate) fn read(
    reading: &mut Reading,
    piece: &[u8],
    text: &mut Octets,
    lines: &mut Octets,
) -> Result<(), CaptureFault>
    ensures { ShowsLines (readings.read_bytes reading.old piece.now) reading.new lines.old lines.new result }
{
    let mut at = 0;
    'bytes: while at < piece.len() {
        match reading.read_some(&piece[at..], text, lines) {
            Ok(len) => at += len,
            Err(fault) => return Err(fault),
        }
    }
    Ok(())
}

/// The number, if it is in this range.
fn within(number: i32, least: u32, most: u32) -> Option<u32>
    ensures { result ≡ records.within least most (Some number) }
{
    match u32::try_from(number) {
        Ok(n) if least <= n && n <= most => Some(n),
        _ => None,
    }
}
