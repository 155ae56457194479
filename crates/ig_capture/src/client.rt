//! The messages of a client: a hello, and then requests.

ghost use Rattle.std.specs.Prelude.{◌≡◌, ◌≤◌, ◌<◌, ◌^◌, ◌++◌, false, [], length, OnOk};
ghost use Rattle.ig_wire.specs.Greets.{version_at as version_read};
ghost use Rattle.ig_capture.specs.Answers.{ShowsStep, lacks_memory as has_no_memory};
ghost use Rattle.ig_capture.specs.Talks.{client_message, hello_step, request_step, hello_text, is_hello as begins_as_hello, line_ask as asked_line, asked_text, least};
ghost use Rattle.ig_caches.specs.declared.request.Request.{Request as a_request};
ghost use Rattle.ig_caches.specs.declared.request.Request.TheVariants.{Run};
ghost use Rattle.ig_wire.specs.declared.ask.AskFault.{AskFault as an_ask_fault};
ghost use Rattle.ig_wire.specs.declared.ask.AskFault.TheVariants as faults;
ghost use Rattle.ig_deals.specs.Faults.{refusal_of};
ghost use Rattle.ig_capture.specs.declared.phase.Phase.TheVariants.{Fresh};

use crate::phase::Phase;
use crate::requests::read_request;
use crate::stop::Stop;
use crate::talk::Talk;
use crate::texts::{put_id, put_version};
use ig_base::{NoMemory, Octets, get_i16};
use ig_caches::{Call, Request};
use ig_lines::{LineAsk, put_ask};
use ig_text::PutText;
use ig_wire::{AskFault, HELLO, LEAST_HELLO, Reason, THIN_CLIENT, Version};
use std::alloc::Global;

/// Whether a body begins as the hello of a thin client.
fn is_hello(body: &[u8]) -> bool
    requires { 8 ≤ length body.now }
    ensures { result ≡ begins_as_hello body.now }
{
    body[0] == HELLO && body[7] == THIN_CLIENT
}

/// The version whose three numbers stand after a hello's first byte.
fn hello_version(body: &[u8]) -> Version
    requires { 8 ≤ length body.now }
    ensures { result ≡ version_read body.now 1 }
{
    Version {
        major: get_i16(body, 1).unwrap_or(0),
        minor: get_i16(body, 3).unwrap_or(0),
        patch: get_i16(body, 5).unwrap_or(0),
    }
}

/// Appends the text of a hello.
fn put_hello(version: Version, body: &[u8], text: &mut Octets) -> Result<(), NoMemory>
    requires { version ≡ version_read body.now 1 }
    ensures { OnOk result (text.new ≡ text.old ++ hello_text body.now) }
{
    text.append(b"hello ")?;
    put_version(version, text)?;
    if body.len() > LEAST_HELLO as usize {
        return text.append(b" login");
    }
    Ok(())
}

/// The status that a request is refused with.
fn refusal_status(fault: AskFault) -> i32
    ensures { result ≡ (refusal_of fault).status }
{
    let reason = match fault {
        AskFault::NotMine => Reason::InvalidOperation,
        AskFault::Unread { .. } => Reason::Malformed,
        AskFault::Profile(profile) => Reason::Profile(profile),
        AskFault::NoMemory => Reason::NoMemory,
    };
    reason.status()
}

/// Whether memory ran out for what is asked.
fn lacks_memory(asked: &Result<Request, AskFault>) -> bool
    ensures { result ≡ has_no_memory asked.now }
{
    matches!(asked, Err(AskFault::NoMemory))
}

/// The line that asks the same as a request.
fn line_ask(request: Request) -> LineAsk
    ensures { result ≡ asked_line request }
{
    match request {
        Request::Run(call) => line_call(call),
        request => LineAsk::Ask(request),
    }
}

/// The line that asks the same as a call.
fn line_call(call: Call) -> LineAsk
    ensures { result ≡ asked_line (Run call) }
{
    match call {
        Call::Affinity { caches } => LineAsk::Parts(caches),
        call => LineAsk::Ask(Request::Run(call)),
    }
}

/// Appends what is asked, or the status that it is refused with.
fn put_asked(
    alloc: Global,
    asked: Result<Request, AskFault>,
    text: &mut Octets,
) -> Result<(), NoMemory>
    ensures { OnOk result (text.new ≡ text.old ++ asked_text asked) }
{
    match asked {
        Ok(request) => put_ask(alloc, &line_ask(request), text),
        Err(fault) => {
            text.append(b"refused ")?;
            refusal_status(fault).put(text)
        }
    }
}

impl Talk {
    /// The next message of the client.
    pub(crate) fn hear_client(
        &mut self,
        place: u64,
        body: &[u8],
        text: &mut Octets,
    ) -> Result<(), Stop>
        requires least { least false self.old.phase ≤ length body.now }
        requires short { length body.now < 2 ^ 31 }
        requires empty { text.old ≡ [] }
        ensures { ShowsStep (client_message self.old self.old.phase place body.now)
            self.new text.new result }
    {
        match self.phase {
            Phase::Fresh => self.hear_hello(place, body, text),
            Phase::Talking(version) => self.hear_request(version, body, text),
            Phase::Asked(_) => Err(Stop::At { place }),
            Phase::Closed => Err(Stop::At { place }),
        }
    }

    /// A hello.
    fn hear_hello(&mut self, place: u64, body: &[u8], text: &mut Octets) -> Result<(), Stop>
        requires long { 8 ≤ length body.now }
        requires empty { text.old ≡ [] }
        ensures { ShowsStep (hello_step self.old place body.now) self.new text.new result }
    {
        if !is_hello(body) {
            return Err(Stop::At { place });
        }
        let version = hello_version(body);
        put_hello(version, body, text)?;
        self.phase = Phase::Asked(version);
        Ok(())
    }

    /// A request.
    fn hear_request(&mut self, version: Version, body: &[u8], text: &mut Octets) -> Result<(), Stop>
        requires long { 10 ≤ length body.now }
        requires short { length body.now < 2 ^ 31 }
        requires empty { text.old ≡ [] }
        ensures { ShowsStep (request_step self.old version body.now) self.new text.new result }
    {
        let (id, operation, asked) = read_request(self.alloc, version, body);
        if lacks_memory(&asked) {
            return Err(Stop::NoMemory);
        }
        put_id(id, text)?;
        put_asked(self.alloc, asked, text)?;
        self.unanswered.add(id, operation)?;
        Ok(())
    }
}
