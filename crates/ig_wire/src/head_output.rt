//! Puts the heads of replies to an output, which counts their bytes or shows them from an offset on.

ghost use Rattle.std.specs.Prelude.{◌≡◌, Some, true};
ghost use Rattle.ig_wire.specs.Versions.{has_flags as version_has_flags};
ghost use Rattle.ig_wire.specs.Fields.{string};
ghost use Rattle.ig_wire.specs.Heads as heads;
ghost use Rattle.ig_wire.specs.HeadViews.{owned_fault, owned_faults, owned_head};

use crate::head_view::{FaultView, HeadView};
use crate::head_writing::flag_number;
use crate::version::Version;
use ig_base::Topology;
use ig_encode::{Output, put_byte, put_bytes, put_count, put_i16, put_i32, put_i64};
use ig_value::Code;

/// Puts the head of a reply. What puts the result after it to the same output has the length of the
/// body, and any part of its bytes. Takes no memory.
pub fn put_head<S: Output>(version: Version, head: &HeadView<'_>, out: &mut S, into: &mut [u8])
    requires may { heads.MayTell (version_has_flags version) head.now.told
        (owned_faults head.now.fault) }
    requires small { heads.HasShortText (owned_faults head.now.fault) }
    ensures { (out.new, into.new) ≡ S.after out.old into.old
        (heads.head_bytes version (owned_head head.now)) }
{
    put_i64(head.id, out, into);
    if version.has_flags() {
        put_flagged(head.told, &head.fault, out, into);
    } else {
        put_status(&head.fault, out, into);
    }
}

/// Puts the flags, and what they say is told.
fn put_flagged<S: Output>(
    told: Option<Topology>,
    fault: &Option<FaultView<'_>>,
    out: &mut S,
    into: &mut [u8],
)
    ensures { (out.new, into.new) ≡ S.after out.old into.old
        (heads.told_bytes true told (owned_faults fault.now)) }
{
    put_i16(flag_number(told.is_some(), fault.is_some()), out, into);
    put_topology(told, out, into);
    put_fault(fault, out, into);
}

/// Puts the status, and the text of a fault.
fn put_status<S: Output>(fault: &Option<FaultView<'_>>, out: &mut S, into: &mut [u8])
    ensures { (out.new, into.new) ≡ S.after out.old into.old
        (heads.status_bytes (owned_faults fault.now)) }
{
    match fault {
        None => put_i32(0, out, into),
        Some(fault) => put_fault_view(fault, out, into),
    }
}

/// Puts the version of the topology, where it is told.
fn put_topology<S: Output>(told: Option<Topology>, out: &mut S, into: &mut [u8])
    ensures { (out.new, into.new) ≡ S.after out.old into.old (heads.topology_bytes told) }
{
    match told {
        None => {}
        Some(topology) => {
            put_i64(topology.version, out, into);
            put_i32(topology.minor, out, into);
        }
    }
}

/// Puts a fault, where one is told.
fn put_fault<S: Output>(fault: &Option<FaultView<'_>>, out: &mut S, into: &mut [u8])
    ensures { (out.new, into.new) ≡ S.after out.old into.old
        (heads.fault_bytes (owned_faults fault.now)) }
{
    match fault {
        None => {}
        Some(fault) => put_fault_view(fault, out, into),
    }
}

/// Puts the status and the text of a fault.
fn put_fault_view<S: Output>(fault: &FaultView<'_>, out: &mut S, into: &mut [u8])
    ensures { (out.new, into.new) ≡ S.after out.old into.old
        (heads.fault_bytes (Some (owned_fault fault.now))) }
{
    put_i32(fault.status, out, into);
    put_string(fault.text, out, into);
}

/// Puts a String.
fn put_string<S: Output>(text: &str, out: &mut S, into: &mut [u8])
    ensures { (out.new, into.new) ≡ S.after out.old into.old (string text.now) }
{
    put_byte(Code::Str.byte(), out, into);
    put_count(text.len(), out, into);
    put_bytes(text.as_bytes(), out, into);
}
