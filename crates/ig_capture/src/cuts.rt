//! What the end of a capture adds.

ghost use Rattle.std.specs.Prelude.{◌≡◌, ◌++◌, OnOk};
ghost use Rattle.ig_capture.specs.EndText as ends;

use crate::fault::CaptureBad;
use crate::session::Session;
use crate::texts::{put_line, put_number};
use ig_base::{NoMemory, Octets};
use std::alloc::Global;

/// The name of a side.
fn side_name(server: bool) -> &'static [u8]
    ensures { result.now ≡ ends.side_text server }
{
    if server { b"server" } else { b"client" }
}

/// Appends the line that says what is malformed.
pub(crate) fn put_wrong(bad: CaptureBad, out: &mut Octets) -> Result<(), NoMemory>
    ensures { OnOk result (out.new ≡ out.old ++ ends.wrong_line bad) }
{
    put_wrong_place(bad, out)?;
    out.push(b'\n')
}

/// Appends what is malformed.
fn put_wrong_place(bad: CaptureBad, out: &mut Octets) -> Result<(), NoMemory>
    ensures { OnOk result (out.new ≡ out.old ++ ends.wrong_text bad) }
{
    match bad {
        CaptureBad::Stream { place } => {
            out.append(b"malformed stream ")?;
            put_number(place, out)
        }
        CaptureBad::Message {
            session,
            server,
            place,
        } => {
            out.append(b"malformed session ")?;
            put_number(u64::from(session), out)?;
            out.append(b" side ")?;
            out.append(side_name(server))?;
            out.append(b" place ")?;
            put_number(place, out)
        }
    }
}

/// Appends a line for each frame that isn't whole.
pub(crate) fn put_cuts(
    alloc: Global,
    sessions: &[Session],
    out: &mut Octets,
) -> Result<(), NoMemory>
    ensures { OnOk result (out.new ≡ out.old ++ ends.cuts_of sessions.now) }
{
    for (number, session) in sessions.iter().enumerate() {
        put_cut(alloc, number as u64, false, session.held(false), out)?;
        put_cut(alloc, number as u64, true, session.held(true), out)?;
    }
    Ok(())
}

/// Appends the line of a frame that isn't whole, of which this many bytes are there, if any are.
fn put_cut(
    alloc: Global,
    number: u64,
    server: bool,
    held: u64,
    out: &mut Octets,
) -> Result<(), NoMemory>
    ensures { OnOk result (out.new ≡ out.old ++ ends.cut_line number server held) }
{
    if held == 0 {
        return Ok(());
    }
    let mut text = Octets::empty(alloc);
    text.append(b"cut ")?;
    put_number(held, &mut text)?;
    put_line(number, server, text.as_slice(), out)
}
