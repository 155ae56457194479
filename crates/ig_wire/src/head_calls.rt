//! Reads the heads of replies.

ghost use Rattle.std.specs.Prelude.{◌≡◌, true};
ghost use Rattle.ig_wire.specs.Heads as heads;
ghost use Rattle.ig_wire.specs.FieldAnswers.{FieldAnswers};
ghost use Rattle.ig_wire.specs.ReadAnswers.{ReadAnswers};
ghost use Rattle.ig_wire.specs.HeadAnswers.{HeadAnswers};

use crate::fields::{i16_of, i32_of, i64_of};
use crate::head::{Fault, ReplyHead};
use crate::owned::text_of;
use crate::read_error::ReadError;
use crate::stop::Stop;
use crate::unread::{ReadFault, Unread};
use crate::version::Version;
use ig_base::Topology;
use std::alloc::Global;

/// The flag of a reply that tells a fault in place of a result.
pub const ERROR: i16 = 1;

/// The flag of a reply that tells the version of the topology.
pub const TOPOLOGY: i16 = 2;

/// Reads the head of a reply. Answers it, and the offset in the body at which the result begins.
pub fn read_head(
    alloc: Global,
    version: Version,
    body: &[u8],
) -> Result<(ReplyHead, usize), ReadFault>
    ensures { HeadAnswers version body.now result }
{
    match head_of(alloc, version, body) {
        Ok((head, rest)) => Ok((head, body.len() - rest.len())),
        Err(ReadError::NoMemory) => Err(ReadFault::NoMemory),
        Err(ReadError::Stopped(stop)) => Err(ReadFault::Unread(Unread {
            place: stop.place(body),
        })),
    }
}

/// The head, and the bytes after it.
fn head_of(alloc: Global, version: Version, bytes: &[u8]) -> Result<(ReplyHead, &[u8]), ReadError>
    ensures { ReadAnswers (λ x. (x.0, x.1.now)) result (heads.head_of version bytes.now) }
{
    let (id, rest) = i64_of(bytes)?;
    let (told, fault, rest) = told_of(alloc, version.has_flags(), rest)?;
    Ok((ReplyHead { id, told, fault }, rest))
}

/// What a head tells after its identifier, and the bytes after it.
fn told_of(
    alloc: Global,
    has_flags: bool,
    bytes: &[u8],
) -> Result<(Option<Topology>, Option<Fault>, &[u8]), ReadError>
    ensures { ReadAnswers (λ x. ((x.0, x.1), x.2.now)) result (heads.told_of has_flags bytes.now) }
{
    if has_flags {
        flagged_of(alloc, bytes)
    } else {
        let (status, rest) = i32_of(bytes)?;
        if status == 0 {
            return Ok((None, None, rest));
        }
        let (fault, rest) = fault_after(alloc, status, rest)?;
        Ok((None, Some(fault), rest))
    }
}

/// The flags, and what they say is told.
fn flagged_of(
    alloc: Global,
    bytes: &[u8],
) -> Result<(Option<Topology>, Option<Fault>, &[u8]), ReadError>
    ensures { ReadAnswers (λ x. ((x.0, x.1), x.2.now)) result (heads.told_of true bytes.now) }
{
    let (has_topology, has_fault, rest) = flags_of(bytes)?;
    let (told, rest) = topology_of(has_topology, rest)?;
    let (fault, rest) = fault_of(alloc, has_fault, rest)?;
    Ok((told, fault, rest))
}

/// Whether the topology is told, and whether a fault.
fn flags_of(bytes: &[u8]) -> Result<(bool, bool, &[u8]), Stop>
    ensures { FieldAnswers (λ x. ((x.0, x.1), x.2.now)) result (heads.flags_of bytes.now) }
{
    let (flags, rest) = i16_of(bytes)?;
    match parts_of(flags) {
        Some((has_topology, has_fault)) => Ok((has_topology, has_fault, rest)),
        None => Err(Stop { left: bytes.len() }),
    }
}

/// Whether these flags tell the topology, and whether a fault. `None` where others are set.
fn parts_of(flags: i16) -> Option<(bool, bool)>
    ensures { result ≡ heads.parts_of flags }
{
    if flags == 0 {
        return Some((false, false));
    }
    if flags == ERROR {
        return Some((false, true));
    }
    if flags == TOPOLOGY {
        return Some((true, false));
    }
    if flags == ERROR + TOPOLOGY {
        return Some((true, true));
    }
    None
}

/// The version of the topology, where it is told.
fn topology_of(is_told: bool, bytes: &[u8]) -> Result<(Option<Topology>, &[u8]), Stop>
    ensures { FieldAnswers (λ x. (x.0, x.1.now)) result (heads.topology_of is_told bytes.now) }
{
    if !is_told {
        return Ok((None, bytes));
    }
    let (version, rest) = i64_of(bytes)?;
    let (minor, rest) = i32_of(rest)?;
    Ok((Some(Topology { version, minor }), rest))
}

/// A fault, where one is told.
fn fault_of(alloc: Global, is_told: bool, bytes: &[u8]) -> Result<(Option<Fault>, &[u8]), ReadError>
    ensures { ReadAnswers (λ x. (x.0, x.1.now)) result (heads.fault_of is_told bytes.now) }
{
    if !is_told {
        return Ok((None, bytes));
    }
    let (status, rest) = i32_of(bytes)?;
    let (fault, rest) = fault_after(alloc, status, rest)?;
    Ok((Some(fault), rest))
}

/// The fault with this status and the text that follows it.
fn fault_after(alloc: Global, status: i32, bytes: &[u8]) -> Result<(Fault, &[u8]), ReadError>
    ensures { ReadAnswers (λ x. (x.0, x.1.now)) result (heads.fault_after status bytes.now) }
{
    let (text, rest) = text_of(alloc, bytes)?;
    Ok((Fault { status, text }, rest))
}
