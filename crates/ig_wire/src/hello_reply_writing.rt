//! Writes the replies to hellos.

ghost use Rattle.std.specs.Prelude.{◌≡◌, ◌≤◌, ◌++◌, length, OnOk, OnErr};
ghost use Rattle.ig_base.specs.Frames.{Frame, max_body};
ghost use Rattle.ig_wire.specs.declared.hello_reply.HelloReply.TheVariants.{Accepted};
ghost use Rattle.ig_wire.specs.HelloReplies as replies;

use crate::hello_reply::HelloReply;
use crate::hello_reply_calls::{ACCEPTED, REFUSED};
use crate::put::{put_len, put_string, put_version, string_len};
use crate::version::Version;
use ig_base::{NoMemory, NodeId, Octets};
use ig_value::Code;
use std::alloc::Global;

/// The length of a node's identifier as a data object: its code and two halves of 64 bits.
const NODE_LEN: usize = 17;

/// The length of the first byte and a version.
const VERSION_END: usize = 7;

/// The length of a code.
const CODE_LEN: usize = 4;

/// The length of the body of a reply to a hello.
pub fn hello_reply_len(reply: &HelloReply) -> usize
    ensures { result ≡ length (replies.hello_reply_bytes reply.now) }
{
    match reply {
        HelloReply::Accepted { node } => 1 + node_len(*node),
        HelloReply::Refused { text, code, .. } => {
            VERSION_END + string_len(text.as_str()) + code_len(*code)
        }
    }
}

/// The length of a node's identifier, where it is told.
#[tactic(auto, unfolding(ig_base::specs::Numbers::LE))]
fn node_len(node: Option<NodeId>) -> usize
    ensures exact { result ≡ length (replies.node_bytes node) }
    ensures small { result ≤ 17 }
{
    match node {
        None => 0,
        Some(_) => NODE_LEN,
    }
}

/// The length of a code, where there is one.
#[tactic(auto, unfolding(ig_base::specs::Numbers::LE))]
fn code_len(code: Option<i32>) -> usize
    ensures exact { result ≡ length (replies.code_bytes code) }
    ensures small { result ≤ 4 }
{
    match code {
        None => 0,
        Some(_) => CODE_LEN,
    }
}

/// Appends the frame of the reply to a hello that asked for this version. On an error the bytes are as
/// before.
///
/// The node's identifier is there exactly from 1.4.0 on, and no code is.
pub fn write_hello_reply(
    alloc: Global,
    version: Version,
    reply: &HelloReply,
    out: &mut Octets,
) -> Result<(), NoMemory>
    requires may { replies.MayWrite version reply.now }
    requires small { length (replies.hello_reply_bytes reply.now) ≤ max_body }
    ensures ok { OnOk result (out.new
        ≡ out.old ++ Frame (replies.hello_reply_bytes reply.now)) }
    ensures err { OnErr result (out.new ≡ out.old) }
{
    let mut frame = Octets::empty(alloc);
    put_hello_reply(&mut frame, reply)?;
    out.append(frame.as_slice())
}

/// Appends the frame.
fn put_hello_reply(out: &mut Octets, reply: &HelloReply) -> Result<(), NoMemory>
    requires code { replies.HasNoCode reply.now }
    requires small { length (replies.hello_reply_bytes reply.now) ≤ max_body }
    ensures { OnOk result (out.new ≡ out.old ++ Frame (replies.hello_reply_bytes reply.now)) }
{
    match reply {
        HelloReply::Accepted { node } => put_accepted(out, *node),
        HelloReply::Refused { version, text, .. } => {
            let text = text.as_str();
            put_len(out, VERSION_END + string_len(text))?;
            out.push(REFUSED)?;
            put_version(out, *version)?;
            put_string(out, text)
        }
    }
}

/// Appends the frame of a reply that accepts a hello.
fn put_accepted(out: &mut Octets, node: Option<NodeId>) -> Result<(), NoMemory>
    ensures { OnOk result (out.new
        ≡ out.old ++ Frame (replies.hello_reply_bytes (Accepted node))) }
{
    match node {
        None => {
            put_len(out, 1)?;
            out.push(ACCEPTED)
        }
        Some(node) => {
            put_len(out, 1 + NODE_LEN)?;
            out.push(ACCEPTED)?;
            put_node(out, node)
        }
    }
}

/// Appends the identifier of a node, as a data object.
#[tactic(auto, unfolding(ig_base::specs::Numbers::LE))]
fn put_node(out: &mut Octets, node: NodeId) -> Result<(), NoMemory>
    ensures { OnOk result (out.new ≡ out.old ++ replies.node_bytes (Some node)) }
{
    out.push(Code::Uuid.byte())?;
    out.append(&node.most.to_le_bytes())?;
    out.append(&node.least.to_le_bytes())
}
