//! What a channel does with its link, step by step: each step knows a source's answer or a sink alone.

ghost use Rattle.std.specs.Prelude.{◌≡◌, ◌≤◌, length, None, Ok, Err, IfOk, IfErr};
ghost use Rattle.ig_base.specs.Numbers.{AreBytes};
ghost use Rattle.ig_client.specs.Steps.{Submits, SameSource, Sends, LinkSends, TakesRoom, Files, MayHold};
ghost use Rattle.ig_client.specs.RequestBodies.{IsSubmittable, request_body};
ghost use Rattle.ig_parts.specs.PartsMessages.{ask_body as parts_body};

use crate::fault::{Break, ChannelFault};
use crate::pending::Pending;
use ig_base::{Items, Octets};
use ig_caches::Request;
use ig_link::{Sink, TakeNow, send_all};
use std::alloc::Global;

/// Offers the request and writes its frame. Answers its identifier.
pub(crate) fn submit_over<K: Sink>(
    alloc: Global,
    pending: &mut Pending,
    link: &mut Option<K>,
    ask: &Request,
) -> Result<i64, ChannelFault>
    requires { IsSubmittable ask.now }
    ensures submits { Submits K.sink (λ id. request_body id ask.now) pending.old pending.new link.old link.new result }
    ensures beside { SameSource K.source_beside link.old link.new }
{
    let mut frame = Octets::empty(alloc);
    let id = pending.offer(ask, &mut frame)?;
    send_frame(pending, link, id, frame.as_slice())
}

/// The same of a request for partition maps.
pub(crate) fn submit_parts_over<K: Sink>(
    alloc: Global,
    pending: &mut Pending,
    link: &mut Option<K>,
    caches: &Items<i32>,
) -> Result<i64, ChannelFault>
    ensures submits { Submits K.sink (λ id. parts_body id caches.now) pending.old pending.new link.old link.new result }
    ensures beside { SameSource K.source_beside link.old link.new }
{
    let mut frame = Octets::empty(alloc);
    let id = pending.offer_parts(caches, &mut frame)?;
    send_frame(pending, link, id, frame.as_slice())
}

/// Writes the frame of a call that was offered to the link, which is there until the channel was closed.
fn send_frame<K: Sink>(
    pending: &mut Pending,
    link: &mut Option<K>,
    id: i64,
    frame: &[u8],
) -> Result<i64, ChannelFault>
    requires { pending.old.down ≡ None }
    ensures sends { LinkSends K.sink id frame.now pending.old pending.new link.old link.new result }
    ensures beside { SameSource K.source_beside link.old link.new }
{
    match link {
        Some(sink) => write_frame(pending, sink, id, frame),
        None => Err(ChannelFault::Down(Break::Closed)),
    }
}

/// Writes the frame of a call that was offered, and answers its identifier.
///
/// # Errors
///
/// [`ChannelFault::Broke`] with [`Break::WriteFault`] if a write fails; the channel is broken then.
fn write_frame<K: Sink>(
    pending: &mut Pending,
    sink: &mut K,
    id: i64,
    frame: &[u8],
) -> Result<i64, ChannelFault>
    requires { pending.old.down ≡ None }
    ensures sends { Sends id frame.now pending.old pending.new (K.sink sink.old) (K.sink sink.new) result }
    ensures beside { K.source_beside sink.new ≡ K.source_beside sink.old }
{
    match send_all(sink, frame) {
        Ok(()) => Ok(id),
        Err(_) => {
            pending.broke(Break::WriteFault);
            Err(ChannelFault::Broke(Break::WriteFault))
        }
    }
}

/// Room for the bytes that a pump reads next, all 0. There is none where no call is pending.
///
/// # Errors
///
/// [`ChannelFault::Down`] if the channel broke, and [`ChannelFault::NoMemory`] if memory runs out.
pub(crate) fn next_piece(alloc: Global, pending: &mut Pending) -> Result<Vec<u8>, ChannelFault>
    ensures ok { IfOk result (λ piece. TakesRoom pending.old pending.new (Ok piece.items)) }
    ensures err { IfErr result (λ cause. TakesRoom pending.old pending.new (Err cause)) }
{
    if let Some(cause) = pending.down() {
        return Err(ChannelFault::Down(cause));
    }
    let mut piece = Vec::new(alloc);
    if pending.pending() == 0 {
        return Ok(piece);
    }
    let room = pending.room()?;
    piece.resize(room, 0)?;
    Ok(piece)
}

/// Files what a read answered, and gives the bytes that it took. Takes no memory.
///
/// # Errors
///
/// [`ChannelFault::Broke`] if the read failed, the server ended the connection, or what it sent isn't
/// the reply to a pending call.
pub(crate) fn file_read(
    pending: &mut Pending,
    answer: TakeNow,
    piece: Vec<u8>,
) -> Result<Octets, ChannelFault>
    requires up { pending.old.down ≡ None }
    requires fits { length piece.items ≤ pending.old.room }
    requires taken { MayHold answer piece.items }
    ensures files { Files answer piece.items pending.old pending.new result }
    ensures bytes { AreBytes piece.items }
{
    let mut piece = piece;
    match answer {
        TakeNow::Bytes(n) => {
            piece.truncate(n);
            match pending.file(piece.as_slice()) {
                Ok(()) => Ok(Octets::new(piece)),
                Err(cause) => Err(ChannelFault::Broke(cause)),
            }
        }
        TakeNow::NotYet => {
            piece.clear();
            Ok(Octets::new(piece))
        }
        TakeNow::End => {
            pending.broke(Break::PeerEnded);
            Err(ChannelFault::Broke(Break::PeerEnded))
        }
        TakeNow::Failed => {
            pending.broke(Break::ReadFault);
            Err(ChannelFault::Broke(Break::ReadFault))
        }
    }
}
