//! One side of a session: its stream is cut into frames, and each whole one is shown.

ghost use Rattle.std.specs.Prelude.{◌≡◌, ◌≤◌, ◌<◌, ◌^◌, length};
ghost use Rattle.ig_base.specs.Frames.{max_body};
ghost use Rattle.ig_frame.specs.Streams.{Stream as a_stream};
ghost use Rattle.ig_capture.specs.Answers.{ShowsLines, HearsFrame};
ghost use Rattle.ig_capture.specs.Sessions as sessions;
ghost use Rattle.ig_capture.specs.Sessions.{step_line};
ghost use Rattle.ig_capture.specs.Talks.{message, least};

use crate::fault::{CaptureBad, CaptureFault};
use crate::stop::Stop;
use crate::talk::Talk;
use crate::texts::{emptied, put_line};
use ig_base::{NoMemory, Octets};
use ig_frame::{Frames, Next};
use std::alloc::Global;

/// Appends the line of each whole frame that the stream begins with, up to the first that is malformed.
/// `text` is a buffer for the text of a message.
pub(crate) fn hear(
    session: u32,
    server: bool,
    frames: &mut Frames,
    talk: &mut Talk,
    text: &mut Octets,
    lines: &mut Octets,
) -> Result<(), CaptureFault>
    requires limit { frames.old.limit ≡ max_body }
    ensures hears { ShowsLines
        (sessions.hear session server (record { stream = frames.old; talk = talk.old }))
        (record { stream = frames.new; talk = talk.new }) lines.old lines.new result }
    ensures limit { frames.new.limit ≡ max_body }
{
    'frames: loop {
        match hear_frame(session, server, frames, talk, text, lines) {
            Ok(true) => {}
            Ok(false) => return Ok(()),
            Err(fault) => return Err(fault),
        }
    }
}

/// The line of the frame that the stream begins with, and the stream after it. Answers whether a whole
/// frame was there.
fn hear_frame(
    session: u32,
    server: bool,
    frames: &mut Frames,
    talk: &mut Talk,
    text: &mut Octets,
    lines: &mut Octets,
) -> Result<bool, CaptureFault>
    requires limit { frames.old.limit ≡ max_body }
    ensures hears { HearsFrame session server (record { stream = frames.old; talk = talk.old })
        (record { stream = frames.new; talk = talk.new }) lines.old lines.new result }
    ensures limit { frames.new.limit ≡ max_body }
{
    let least = talk.least(server);
    match frames.look(least) {
        Next::More { .. } => return Ok(false),
        Next::Bad { place, .. } => {
            return Err(CaptureFault::Bad(CaptureBad::Message {
                session,
                server,
                place,
            }));
        }
        Next::Frame { place, body } => {
            match hear_message(session, server, place, body, talk, text, lines) {
                Ok(()) => {}
                Err(fault) => return Err(fault),
            }
        }
    }
    frames.pass(least);
    Ok(true)
}

/// The line of a message.
fn hear_message(
    session: u32,
    server: bool,
    place: u64,
    body: &[u8],
    talk: &mut Talk,
    text: &mut Octets,
    lines: &mut Octets,
) -> Result<(), CaptureFault>
    requires least { least server talk.old.phase ≤ length body.now }
    requires short { length body.now < 2 ^ 31 }
    ensures { (stream : a_stream) → ShowsLines
        (step_line session server stream (message talk.old server place body.now))
        (record { stream = stream; talk = talk.new }) lines.old lines.new result }
{
    emptied(talk.alloc, text);
    match talk.hear(server, place, body, text) {
        Ok(()) => Ok(put_line(u64::from(session), server, text.as_slice(), lines)?),
        Err(Stop::NoMemory) => Err(CaptureFault::NoMemory),
        Err(Stop::At { place }) => Err(CaptureFault::Bad(CaptureBad::Message {
            session,
            server,
            place,
        })),
    }
}
