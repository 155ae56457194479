//! The command `decode`: a capture as text.

ghost use Rattle.std.specs.Prelude.{◌≡◌, ◌<◌, ◌≤◌, length, [], IfErr};
ghost use Rattle.ig_wire.specs.Limits.{most_session_bytes, piece_bytes};
ghost use Rattle.ig_capture.specs.Reading as readings;
ghost use Rattle.ignite_thin.specs.Decodes.{TakesText, SendsText, EndsText, Decodes};

use crate::decode_end::DecodeEnd;
use ig_base::{NoMemory, Octets};
use ig_capture::{Capture, CaptureFault, captures_are_shown};
use ig_link::{Sink, Source, Take, send_all};
use ig_wire::{PIECE, SESSION_BYTES};
use std::alloc::Global;

/// Reads the next piece of the capture, and appends its text to what is there, which is nothing. Returns
/// how many bytes were taken in all, or how the capture ends.
fn take_piece<S: Source>(
    capture: &mut Capture,
    source: &mut S,
    buf: &mut [u8],
    taken: u64,
    text: &mut Octets,
) -> Result<u64, DecodeEnd>
    requires room { length buf.old ≡ piece_bytes }
    requires within { taken ≤ most_session_bytes }
    requires none { text.old ≡ [] }
    ensures { TakesText capture.old capture.new (S.source source.old) (S.source source.new)
        taken text.new result }
{
    if taken >= SESSION_BYTES {
        return Err(DecodeEnd::ByteLimit);
    }
    let room = (SESSION_BYTES - taken).min(buf.len() as u64) as usize;
    match source.read(&mut buf[..room]) {
        Take::End => Err(DecodeEnd::Ended),
        Take::Failed => Err(DecodeEnd::ReadFault),
        Take::Bytes(n) => match capture.feed(&buf[..n], text) {
            Ok(()) => Ok(taken + n as u64),
            Err(CaptureFault::Bad(_)) => Err(DecodeEnd::Malformed),
            Err(CaptureFault::NoMemory) => Err(DecodeEnd::NoMemory),
        },
    }
}

/// Writes the text. The end is this one, unless a write fails.
fn send_text<K: Sink>(text: &Octets, sink: &mut K, end: DecodeEnd) -> DecodeEnd
    ensures { SendsText text.now (K.sink sink.old) (K.sink sink.new) end result }
{
    match send_all(sink, text.as_slice()) {
        Ok(()) => end,
        Err(_) => DecodeEnd::WriteFault,
    }
}

/// Ends the capture where its source has ended.
fn finish<K: Sink>(capture: Capture, text: &mut Octets, sink: &mut K) -> DecodeEnd
    requires none { text.old ≡ [] }
    ensures { EndsText capture (K.sink sink.old) (K.sink sink.new) result }
{
    match capture.finish(text) {
        Ok(()) => send_text(text, sink, DecodeEnd::Ended),
        Err(CaptureFault::Bad(_)) => send_text(text, sink, DecodeEnd::Malformed),
        Err(CaptureFault::NoMemory) => DecodeEnd::NoMemory,
    }
}

/// Writes the text of the capture that the source gives: of each piece when it was read.
pub(crate) fn decode<S: Source, K: Sink>(alloc: Global, source: &mut S, sink: &mut K) -> DecodeEnd
    ensures { Decodes (S.source source.old) (S.source source.new) (K.sink sink.old) (K.sink sink.new) result }
{
    let Ok(mut buf) = vec![in alloc; 0u8; PIECE] else {
        return DecodeEnd::NoMemory;
    };
    let Ok(mut capture) = Capture::new(alloc) else {
        return DecodeEnd::NoMemory;
    };
    captures_are_shown();
    let mut text = Octets::empty(alloc);
    let mut taken = 0;
    'pieces: loop {
        match take_piece(&mut capture, source, &mut buf, taken, &mut text) {
            Ok(more) => taken = more,
            Err(end) => match end {
                DecodeEnd::Ended => return finish(capture, &mut text, sink),
                DecodeEnd::Malformed => return send_text(&text, sink, end),
                _ => return end,
            },
        }
        match send_all(sink, text.as_slice()) {
            Ok(()) => text.clear(),
            Err(_) => return DecodeEnd::WriteFault,
        }
    }
}
