//! Reads the replies to hellos.

ghost use Rattle.std.specs.Prelude.{◌≡◌};
ghost use Rattle.ig_wire.specs.HelloReplies as replies;
ghost use Rattle.ig_wire.specs.FieldAnswers.{FieldAnswers};
ghost use Rattle.ig_wire.specs.ReadAnswers.{ReadAnswers, MessageAnswers};

use crate::fields::{i16_of, i32_of, node_of};
use crate::hello_reply::HelloReply;
use crate::owned::text_of;
use crate::read_error::ReadError;
use crate::stop::Stop;
use crate::unread::{ReadFault, Unread};
use crate::version::Version;
use std::alloc::Global;

/// The least length of the body of the reply to a hello: its first byte.
pub const LEAST_HELLO_REPLY: u32 = 1;

/// The first byte of a reply that refuses the hello.
pub(crate) const REFUSED: u8 = 0;

/// The first byte of a reply that accepts it.
pub(crate) const ACCEPTED: u8 = 1;

/// Reads the reply to a hello that asked for this version.
pub fn read_hello_reply(
    alloc: Global,
    version: Version,
    body: &[u8],
) -> Result<HelloReply, ReadFault>
    ensures { MessageAnswers body.now result (replies.hello_reply_of version body.now) }
{
    match reply_of(alloc, version, body) {
        Ok(reply) => Ok(reply),
        Err(ReadError::NoMemory) => Err(ReadFault::NoMemory),
        Err(ReadError::Stopped(stop)) => Err(ReadFault::Unread(Unread {
            place: stop.place(body),
        })),
    }
}

/// The reply that the bytes are, all of them.
fn reply_of(alloc: Global, version: Version, bytes: &[u8]) -> Result<HelloReply, ReadError>
    ensures { ReadAnswers (λ x. x) result (replies.hello_reply_of version bytes.now) }
{
    let (is_accepted, rest) = verdict_of(bytes)?;
    if !is_accepted {
        return refusal_of(alloc, rest);
    }
    Ok(acceptance_of(version.has_flags(), rest)?)
}

/// Whether the hello is accepted.
fn verdict_of(bytes: &[u8]) -> Result<(bool, &[u8]), Stop>
    ensures { FieldAnswers (λ x. (x.0, x.1.now)) result (replies.verdict_of bytes.now) }
{
    let left = bytes.len();
    match bytes.split_first() {
        None => Err(Stop { left }),
        Some((byte, rest)) => match *byte {
            REFUSED => Ok((false, rest)),
            ACCEPTED => Ok((true, rest)),
            _ => Err(Stop { left }),
        },
    }
}

/// The reply that accepts the hello, after its first byte.
fn acceptance_of(tells_node: bool, bytes: &[u8]) -> Result<HelloReply, Stop>
    ensures { FieldAnswers (λ x. x) result (replies.acceptance_of tells_node bytes.now) }
{
    if !tells_node {
        if !bytes.is_empty() {
            return Err(Stop { left: bytes.len() });
        }
        return Ok(HelloReply::Accepted { node: None });
    }
    let (node, rest) = node_of(bytes)?;
    if !rest.is_empty() {
        return Err(Stop { left: rest.len() });
    }
    Ok(HelloReply::Accepted { node: Some(node) })
}

/// The reply that refuses it, after its first byte.
fn refusal_of(alloc: Global, bytes: &[u8]) -> Result<HelloReply, ReadError>
    ensures { ReadAnswers (λ x. x) result (replies.refusal_of bytes.now) }
{
    let (version, rest) = version_of(bytes)?;
    let (text, rest) = text_of(alloc, rest)?;
    let code = code_of(rest)?;
    Ok(HelloReply::Refused {
        version,
        text,
        code,
    })
}

/// A version.
fn version_of(bytes: &[u8]) -> Result<(Version, &[u8]), Stop>
    ensures { FieldAnswers (λ x. (x.0, x.1.now)) result (replies.version_of bytes.now) }
{
    let (major, rest) = i16_of(bytes)?;
    let (minor, rest) = i16_of(rest)?;
    let (patch, rest) = i16_of(rest)?;
    Ok((
        Version {
            major,
            minor,
            patch,
        },
        rest,
    ))
}

/// A code, where bytes are left.
fn code_of(bytes: &[u8]) -> Result<Option<i32>, Stop>
    ensures { FieldAnswers (λ x. x) result (replies.code_of bytes.now) }
{
    if bytes.is_empty() {
        return Ok(None);
    }
    let (code, rest) = i32_of(bytes)?;
    if !rest.is_empty() {
        return Err(Stop { left: rest.len() });
    }
    Ok(Some(code))
}
