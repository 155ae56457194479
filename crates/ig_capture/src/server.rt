//! The messages of a server: the reply to the hello, and then replies to requests.

ghost use Rattle.std.specs.Prelude.{◌≡◌, ◌≤◌, ◌++◌, true, [], drop, length, Option, OnOk};
ghost use Rattle.ig_capture.specs.Answers.{ShowsStep, ShowsContent};
ghost use Rattle.ig_capture.specs.Talks.{server_message, greeting_step, reply_after, accepted_text, phase_after as phase_read, told_text, content_text, accepts_unspoken as accepts_other, least};
ghost use Rattle.ig_wire.specs.Heads.{head_of};

use crate::phase::Phase;
use crate::results::put_result;
use crate::stop::Stop;
use crate::talk::Talk;
use crate::texts::{put_id, put_version};
use ig_base::{NoMemory, Octets, Topology};
use ig_lines::write_fault;
use ig_text::PutText;
use ig_wire::{Fault, HelloReply, Operation, Version, read_head, read_hello_reply};
use std::alloc::Global;

/// The first byte of a reply that accepts the hello.
const ACCEPTED: u8 = 1;

/// Whether a reply to a hello accepts a version that isn't spoken.
fn accepts_unspoken(version: Version, body: &[u8]) -> bool
    requires { 1 ≤ length body.now }
    ensures { result ≡ accepts_other version body.now }
{
    body[0] == ACCEPTED && !version.is_spoken()
}

/// Appends the text of the reply to a hello.
fn put_greeting(reply: &HelloReply, text: &mut Octets) -> Result<(), NoMemory>
    ensures { OnOk result (text.new ≡ text.old ++ accepted_text reply.now) }
{
    match reply {
        HelloReply::Accepted { node: None } => text.append(b"ok"),
        HelloReply::Accepted { node: Some(node) } => {
            text.append(b"ok ")?;
            node.put(text)
        }
        HelloReply::Refused {
            version,
            text: reason,
            ..
        } => {
            text.append(b"refused ")?;
            put_version(*version, text)?;
            text.push(b' ')?;
            reason.put(text)
        }
    }
}

/// How far the session has come after the reply to a hello that asked for this version.
fn phase_after(version: Version, reply: &HelloReply) -> Phase
    ensures { result ≡ phase_read version reply.now }
{
    match reply {
        HelloReply::Accepted { .. } => Phase::Talking(version),
        HelloReply::Refused { .. } => Phase::Closed,
    }
}

/// Appends the topology, where it is told.
fn put_told(told: Option<Topology>, text: &mut Octets) -> Result<(), NoMemory>
    ensures { OnOk result (text.new ≡ text.old ++ told_text told) }
{
    let Some(topology) = told else {
        return Ok(());
    };
    text.append(b"told ")?;
    topology.version.put(text)?;
    text.push(b'.')?;
    topology.minor.put(text)?;
    text.push(b' ')
}

/// Appends what follows the head of a reply: the text of the fault, or of the result. Nothing may follow
/// a fault.
fn put_content(
    alloc: Global,
    fault: &Option<Fault>,
    operation: Option<Operation>,
    place: u64,
    body: &[u8],
    at: usize,
    text: &mut Octets,
) -> Result<(), Stop>
    requires { at ≤ length body.now }
    ensures { ShowsContent place body.now (content_text fault.now operation (drop at body.now))
        text.old text.new result }
{
    let Some(fault) = fault else {
        return put_result(alloc, operation, place, body, at, text);
    };
    if at < body.len() {
        return Err(Stop::At {
            place: place.saturating_add(4 + at as u64),
        });
    }
    Ok(write_fault(alloc, fault, text)?)
}

impl Talk {
    /// The next message of the server.
    pub(crate) fn hear_server(
        &mut self,
        place: u64,
        body: &[u8],
        text: &mut Octets,
    ) -> Result<(), Stop>
        requires least { least true self.old.phase ≤ length body.now }
        requires empty { text.old ≡ [] }
        ensures { ShowsStep (server_message self.old self.old.phase place body.now)
            self.new text.new result }
    {
        match self.phase {
            Phase::Asked(version) => self.hear_greeting(version, place, body, text),
            Phase::Talking(version) => self.hear_reply(version, place, body, text),
            Phase::Fresh => Err(Stop::At { place }),
            Phase::Closed => Err(Stop::At { place }),
        }
    }

    /// The reply to the hello.
    fn hear_greeting(
        &mut self,
        version: Version,
        place: u64,
        body: &[u8],
        text: &mut Octets,
    ) -> Result<(), Stop>
        requires long { 1 ≤ length body.now }
        requires empty { text.old ≡ [] }
        ensures { ShowsStep (greeting_step self.old version place body.now)
            self.new text.new result }
    {
        if accepts_unspoken(version, body) {
            return Err(Stop::At { place });
        }
        let reply = match read_hello_reply(self.alloc, version, body) {
            Ok(reply) => reply,
            Err(fault) => return Err(Stop::of(place, fault)),
        };
        put_greeting(&reply, text)?;
        self.phase = phase_after(version, &reply);
        Ok(())
    }

    /// A reply.
    fn hear_reply(
        &mut self,
        version: Version,
        place: u64,
        body: &[u8],
        text: &mut Octets,
    ) -> Result<(), Stop>
        requires empty { text.old ≡ [] }
        ensures { ShowsStep (reply_after self.old place body.now (head_of version body.now))
            self.new text.new result }
    {
        let (head, at) = match read_head(self.alloc, version, body) {
            Ok(found) => found,
            Err(fault) => return Err(Stop::of(place, fault)),
        };
        let Some(operation) = self.unanswered.take(head.id)? else {
            return Err(Stop::At { place });
        };
        put_id(head.id, text)?;
        put_told(head.told, text)?;
        put_content(self.alloc, &head.fault, operation, place, body, at, text)
    }
}
