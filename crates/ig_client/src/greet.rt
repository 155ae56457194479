//! The handshake: a client's hello, and the server's reply to it.

ghost use Rattle.std.specs.Prelude.{◌≡◌, ◌≤◌, length, drop, Ok, Err, IfOk, IfErr};
ghost use Rattle.std.specs.Option.{option_copied};
ghost use Rattle.ig_base.specs.Numbers.{AreBytes};
ghost use Rattle.ig_base.specs.Frames.{max_body};
ghost use Rattle.ig_wire.specs.Greets.{MayLogin, hello_bytes};
ghost use Rattle.ig_wire.specs.HelloReplies.{hello_reply_of};
ghost use Rattle.ig_client.specs.Greeted.{Greeted, Answered, ReadsFrame, ReadsOn};

use crate::fault::{Break, HandshakeFault};
use crate::front::{Front, front_of};
use ig_base::{NodeId, Octets};
use ig_link::{Duplex, Source, Take, send_all};
use ig_wire::{
    HelloReply, LEAST_HELLO_REPLY, Login, PIECE, ReadFault, Version, read_hello_reply, write_hello,
};
use std::alloc::Global;

/// The number of bytes of a frame's length.
const LENGTH_BYTES: usize = 4;

/// Writes the hello and reads the reply to it. Gives the server's node, if its version tells it.
///
/// # Errors
///
/// [`HandshakeFault::Broke`] if a write or a read fails, the server ends the connection, or the length
/// of its frame is out of range; [`HandshakeFault::BadReply`] exactly if the frame isn't a reply to a
/// hello; [`HandshakeFault::Refused`] exactly if it refuses the hello; [`HandshakeFault::NoMemory`] if
/// memory runs out.
pub(crate) fn greet<D: Duplex>(
    alloc: Global,
    link: &mut D,
    version: Version,
    login: Option<&Login>,
) -> Result<Option<NodeId>, HandshakeFault>
    requires login { MayLogin version (option_copied login) }
    requires small { length (hello_bytes version (option_copied login)) ≤ max_body }
    ensures { Greeted version (option_copied login.entry) (D.source link.old) (D.source link.new)
        (D.sink link.old) (D.sink link.new) result }
{
    let mut hello = Octets::empty(alloc);
    write_hello(alloc, version, login, &mut hello)?;
    if send_all(link, hello.as_slice()).is_err() {
        return Err(HandshakeFault::Broke(Break::WriteFault));
    }
    let frame = read_frame(alloc, link)?;
    node_in(alloc, version, frame.as_slice())
}

/// The node that the frame of the reply to a hello names, if it accepts the hello.
fn node_in(alloc: Global, version: Version, frame: &[u8]) -> Result<Option<NodeId>, HandshakeFault>
    requires { 4 ≤ length frame.now }
    ensures answer { Answered (hello_reply_of version (drop 4 frame.now)) (drop 4 frame.now) result }
    ensures bytes { AreBytes frame.now }
{
    node_of(alloc, version, &frame[LENGTH_BYTES..])
}

/// The node that the reply to a hello names, if it accepts the hello.
fn node_of(alloc: Global, version: Version, body: &[u8]) -> Result<Option<NodeId>, HandshakeFault>
    ensures { Answered (hello_reply_of version body.now) body.now result }
{
    match read_hello_reply(alloc, version, body) {
        Ok(HelloReply::Accepted { node }) => Ok(node),
        Ok(HelloReply::Refused { version, text, .. }) => {
            Err(HandshakeFault::Refused { version, text })
        }
        Err(ReadFault::Unread(unread)) => Err(HandshakeFault::BadReply {
            place: unread.place,
        }),
        Err(ReadFault::NoMemory) => Err(HandshakeFault::NoMemory),
    }
}

/// Reads the frame of the reply to a hello, and nothing of what follows it.
fn read_frame<S: Source>(alloc: Global, source: &mut S) -> Result<Vec<u8>, HandshakeFault>
    ensures ok { IfOk result (λ frame.
        ReadsFrame (S.source source.old) (S.source source.new) (Ok frame.items)) }
    ensures err { IfErr result (λ cause.
        ReadsFrame (S.source source.old) (S.source source.new) (Err cause)) }
    ensures beside { S.sink_beside source.new ≡ S.sink_beside source.old }
{
    let mut frame = Vec::new(alloc);
    read_on(&mut frame, source, LENGTH_BYTES)?;
    match front_of(frame.as_slice(), LEAST_HELLO_REPLY) {
        Front::Missing(count) => read_on(&mut frame, source, count)?,
        Front::Bad(length) => {
            return Err(HandshakeFault::Broke(Break::BadFrame { place: 0, length }));
        }
        Front::Whole(_) => {}
    }
    Ok(frame)
}

/// Reads this many more bytes.
fn read_on<S: Source>(
    bytes: &mut Vec<u8>,
    source: &mut S,
    count: usize,
) -> Result<(), HandshakeFault>
    ensures reads { ReadsOn count bytes.old.items bytes.new.items (S.source source.old)
        (S.source source.new) result }
    ensures beside { S.sink_beside source.new ≡ S.sink_beside source.old }
{
    let mut left = count;
    while left > 0 {
        let room = if left < PIECE { left } else { PIECE };
        let len = bytes.len();
        let Some(end) = len.checked_add(room) else {
            return Err(HandshakeFault::NoMemory);
        };
        bytes.resize(end, 0)?;
        match source.read(&mut bytes[len..]) {
            Take::Bytes(n) => {
                bytes.truncate(len + n);
                left -= n;
            }
            Take::End => return Err(HandshakeFault::Broke(Break::PeerEnded)),
            Take::Failed => return Err(HandshakeFault::Broke(Break::ReadFault)),
        }
    }
    Ok(())
}
