//! Writes the heads of replies.

ghost use Rattle.std.specs.Prelude.{◌≡◌, ◌++◌, ◌<◌, ◌^◌, length, OnOk, OnErr};
ghost use Rattle.ig_wire.specs.Versions.{has_flags};
ghost use Rattle.ig_wire.specs.Heads as heads;

use crate::head::{Fault, ReplyHead};
use crate::head_calls::{ERROR, TOPOLOGY};
use crate::put::put_string;
use crate::version::Version;
use ig_base::{NoMemory, Octets, Topology, put_i16, put_i32, put_i64};
use std::alloc::Global;

/// Appends the head of a reply, without the frame's length. On an error the bytes are as before.
pub fn write_head(
    alloc: Global,
    version: Version,
    head: &ReplyHead,
    out: &mut Octets,
) -> Result<(), NoMemory>
    requires may { heads.MayTell (has_flags version) head.now.told head.now.fault }
    requires small { heads.HasShortText head.now.fault }
    ensures ok { OnOk result (out.new ≡ out.old ++ heads.head_bytes version head.now) }
    ensures err { OnErr result (out.new ≡ out.old) }
{
    let mut piece = Octets::empty(alloc);
    put_head(&mut piece, version, head)?;
    out.append(piece.as_slice())
}

/// Appends the head.
fn put_head(out: &mut Octets, version: Version, head: &ReplyHead) -> Result<(), NoMemory>
    requires { heads.HasShortText head.now.fault }
    ensures { OnOk result (out.new ≡ out.old ++ heads.head_bytes version head.now) }
{
    put_i64(out, head.id)?;
    put_told(out, version.has_flags(), head.told, &head.fault)
}

/// Appends what follows the identifier.
fn put_told(
    out: &mut Octets,
    has_flags: bool,
    told: Option<Topology>,
    fault: &Option<Fault>,
) -> Result<(), NoMemory>
    requires { heads.HasShortText fault.now }
    ensures { OnOk result (out.new ≡ out.old ++ heads.told_bytes has_flags told fault.now) }
{
    if has_flags {
        put_i16(out, flag_number(told.is_some(), fault.is_some()))?;
        put_topology(out, told)?;
        put_fault(out, fault)
    } else if fault.is_some() {
        put_fault(out, fault)
    } else {
        put_i32(out, 0)
    }
}

/// The flags for these parts.
pub(crate) fn flag_number(told: bool, fault: bool) -> i16
    ensures { result ≡ heads.flag_number told fault }
{
    match (told, fault) {
        (false, false) => 0,
        (false, true) => ERROR,
        (true, false) => TOPOLOGY,
        (true, true) => ERROR + TOPOLOGY,
    }
}

/// Appends the version of the topology, where it is told.
fn put_topology(out: &mut Octets, told: Option<Topology>) -> Result<(), NoMemory>
    ensures { OnOk result (out.new ≡ out.old ++ heads.topology_bytes told) }
{
    match told {
        None => Ok(()),
        Some(topology) => {
            put_i64(out, topology.version)?;
            put_i32(out, topology.minor)
        }
    }
}

/// Appends a fault, where one is told.
fn put_fault(out: &mut Octets, fault: &Option<Fault>) -> Result<(), NoMemory>
    requires { heads.HasShortText fault.now }
    ensures { OnOk result (out.new ≡ out.old ++ heads.fault_bytes fault.now) }
{
    match fault {
        None => Ok(()),
        Some(fault) => {
            put_i32(out, fault.status)?;
            put_string(out, fault.text.as_str())
        }
    }
}
