//! The sessions of a capture, by number.

ghost use Rattle.std.specs.Prelude.{IfOk};
ghost use Rattle.ig_capture.specs.Answers.{ShowsLines};
ghost use Rattle.ig_capture.specs.Heads.{HasRoom};
ghost use Rattle.ig_capture.specs.Sessions as states;

use crate::fault::CaptureFault;
use crate::session::Session;
use ig_base::{NoMemory, Octets};
use std::alloc::Global;

/// Appends the lines of the messages that end with these bytes of a side of a session.
pub(crate) fn hear_at(
    alloc: Global,
    session: u32,
    server: bool,
    bytes: &[u8],
    sessions: &mut Vec<Session>,
    text: &mut Octets,
    lines: &mut Octets,
) -> Result<(), CaptureFault>
    ensures { ShowsLines (states.hear_at sessions.old.items session server bytes.now)
        sessions.new.items lines.old lines.new result }
{
    let number = session as usize;
    make_room(alloc, number, sessions)?;
    sessions[number].hear(session, server, bytes, text, lines)
}

/// Makes room for the session of this number, with those before it that said nothing yet.
fn make_room(alloc: Global, number: usize, sessions: &mut Vec<Session>) -> Result<(), NoMemory>
    ensures { IfOk result (λ done. HasRoom number sessions.old.items sessions.new.items) }
{
    'rooms: while sessions.len() <= number {
        sessions.push(Session::new(alloc))?;
    }
    Ok(())
}
