//! The replies to hellos.

ghost use Rattle.std.specs.Prelude.{◌≡◌, ◌≤◌, length, IfOk, Err};
ghost use Rattle.ig_wire.specs.Limits.{piece_bytes};
ghost use Rattle.ig_deals.specs.Hellos.{named_node};
ghost use Rattle.ig_session.specs.Steps.{greeting_frame, acceptance_frame};

use ig_base::{NoMemory, NodeId, Octets, Text};
use ig_deals::SessionCfg;
use ig_wire::{HelloFault, HelloReply, Version, write_hello_reply};
use std::alloc::Global;

/// The node that the reply to an accepted hello names: from 1.4.0 on.
fn node_named(cfg: &SessionCfg, version: Version) -> Option<NodeId>
    ensures { result ≡ named_node cfg.now version }
{
    if version.has_flags() {
        return Some(NodeId {
            most: 0,
            least: u64::from(cfg.node) + 1,
        });
    }
    None
}

/// The frame of the reply that accepts a hello of this version: from 1.4.0 on it names the node.
pub(crate) fn acceptance(
    alloc: Global,
    cfg: &SessionCfg,
    version: Version,
) -> Result<Octets, NoMemory>
    ensures frame { IfOk result (λ frame. frame ≡ acceptance_frame cfg.now version) }
    ensures short { IfOk result (λ frame. length frame ≤ piece_bytes) }
{
    let node = node_named(cfg, version);
    let mut frame = Octets::empty(alloc);
    write_hello_reply(alloc, version, &HelloReply::Accepted { node }, &mut frame)?;
    Ok(frame)
}

/// The frame of the reply that refuses a hello.
pub(crate) fn refusal(
    alloc: Global,
    cfg: &SessionCfg,
    fault: HelloFault,
) -> Result<Octets, NoMemory>
    ensures frame { IfOk result (λ frame. frame ≡ greeting_frame cfg.now (Err fault)) }
    ensures short { IfOk result (λ frame. length frame ≤ piece_bytes) }
{
    let text = String::from_str(alloc, fault.text())?;
    let reply = HelloReply::Refused {
        version: Version::HIGHEST,
        text: Text::new(text),
        code: None,
    };
    let mut frame = Octets::empty(alloc);
    write_hello_reply(alloc, Version::HIGHEST, &reply, &mut frame)?;
    Ok(frame)
}
