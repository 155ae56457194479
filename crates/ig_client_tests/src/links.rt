//! Links that follow scripts, channels over them, and what they are asked.

ghost use Rattle.std.specs.Prelude.{◌≡◌, true};
ghost use Rattle.std.specs.Option.{option_copied};
ghost use Rattle.ig_wire.specs.Greets.{MayLogin};
ghost use Rattle.ig_client.specs.RequestBodies.{IsSubmittable};

use ig_base::{Octets, Text};
use ig_caches::{Call, Request};
use ig_client::{Channel, NotStarted};
use ig_link::{MemLink, ReadStep, WriteStep};
use ig_value::Value;
use ig_wire::{Login, Version, hello_len};
use std::alloc::Global;
use std::test::Fail;

/// The limit of a frame's body.
const MAX_BODY: u128 = 8_388_608;

/// A step of a link's reads.
#[derive(Clone, Copy)]
pub(crate) enum Read {
    Bytes(&'static [u8]),
    Pause,
    /// Until this many bytes were written nothing is there.
    AfterWritten(u64),
    Fault,
}

/// The reply to a hello below 1.4.0.
pub(crate) const ACCEPTED: &[u8] = &[1, 0, 0, 0, 1];

/// The reply to a hello of 1.4.0, by the first node.
pub(crate) const ACCEPTED_BY_NODE: &[u8] = &[
    18, 0, 0, 0, 1, 10, 0, 0, 0, 0, 0, 0, 0, 0, 1, 0, 0, 0, 0, 0, 0, 0,
];

/// The reply to call 1 below 1.4.0, without an outcome.
pub(crate) const DONE_1: &[u8] = &[12, 0, 0, 0, 1, 0, 0, 0, 0, 0, 0, 0, 0, 0, 0, 0];

pub(crate) fn octets(alloc: Global, bytes: &[u8]) -> Result<Octets, Fail> {
    Ok(Octets::new(Vec::from_slice(alloc, bytes)?))
}

/// A link with these steps.
pub(crate) fn link(alloc: Global, reads: &[Read], writes: &[WriteStep]) -> Result<MemLink, Fail> {
    let mut steps = Vec::new(alloc);
    for read in reads {
        steps.push(match read {
            Read::Bytes(bytes) => ReadStep::Bytes(octets(alloc, *bytes)?),
            Read::Pause => ReadStep::Pause,
            Read::AfterWritten(count) => ReadStep::AfterWritten(*count),
            Read::Fault => ReadStep::Fault,
        })?;
    }
    Ok(MemLink::new(alloc, steps, Vec::from_slice(alloc, writes)?, 1 << 16)?)
}

/// A put of 1 to 2 in the cache `main`.
pub(crate) fn put() -> Request
    ensures { IsSubmittable result }
{
    Request::Run(Call::Put {
        cache: 0x0033_05B9,
        key: Value::Int(1),
        value: Value::Int(2),
    })
}

pub(crate) fn login(alloc: Global) -> Result<Login, Fail> {
    Ok(Login {
        name: Text::new(String::from_str(alloc, "u")?),
        password: Text::new(String::from_str(alloc, "p")?),
    })
}

/// Whether a hello of this version may have the login.
fn may_login(version: Version, login: Option<&Login>) -> bool
    ensures { result ≡ true → MayLogin version (option_copied login.entry) }
{
    match login {
        None => true,
        Some(_) => version.has_login(),
    }
}

/// A channel over the link, or why it wasn't started. Nothing where no such hello is written.
pub(crate) fn started(
    alloc: Global,
    link: MemLink,
    version: Version,
    login: Option<&Login>,
) -> Option<Result<Channel<MemLink>, NotStarted<MemLink>>> {
    if !may_login(version, login) {
        return None;
    }
    if hello_len(login) > MAX_BODY {
        return None;
    }
    Some(Channel::start(alloc, link, version, login))
}
