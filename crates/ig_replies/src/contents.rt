//! What replies say.

ghost use Rattle.std.specs.Prelude.{◌≡◌, ◌≤◌, ◌<◌, ◌^◌, length, IfOk};
ghost use Rattle.ig_wire.specs.Heads.{HasShortText};
ghost use Rattle.ig_deals.specs.Faults.{malformed_at, refusal_of, reason_of};
ghost use Rattle.ig_deals.specs.Replies.{fault_in, Fails};
ghost use Rattle.ig_deals.specs.Turns.{caches_in, content_of};
ghost use Rattle.ig_parts.specs.ServedMap.{served_map};
ghost use Rattle.ig_replies.specs.Contents.{malformed_by, content_said};

use crate::reply::Content;
use ig_base::{Items, NoMemory, Text, Topology};
use ig_caches::{Call, Outcome, Shown, Why};
use ig_deals::SessionCfg;
use ig_parts::{PartMap, served_map};
use ig_wire::{AskFault, Reason};
use std::alloc::Global;

/// Why a call was refused, as a reply tells it.
fn reason_of(why: Why) -> Reason
    ensures { result ≡ reason_of why }
{
    match why {
        Why::NoCache => Reason::NoCache,
        Why::CacheExists => Reason::CacheExists,
        Why::TooManyCaches => Reason::TooManyCaches,
        Why::TooManyChanges => Reason::TooManyCacheChanges,
        Why::NoTypeName => Reason::NoTypeName,
        Why::Clash(_) => Reason::TypeClash,
    }
}

/// The fault of a request that is refused before any call.
pub(crate) fn refusal(alloc: Global, fault: AskFault) -> Result<Content, NoMemory>
    ensures said { IfOk result (λ content. content_said content ≡ Fails (refusal_of fault)) }
    ensures short { IfOk result (λ content. HasShortText (fault_in (content_said content))) }
{
    match fault {
        AskFault::NotMine => Ok(Content::Refuses(Reason::InvalidOperation)),
        AskFault::Unread { place } => Ok(Content::Malformed(malformed_at(alloc, place)?)),
        AskFault::Profile(profile) => Ok(Content::Refuses(Reason::Profile(profile))),
        AskFault::NoMemory => Ok(Content::Refuses(Reason::NoMemory)),
    }
}

/// The text of a request whose fields don't read from this offset of its frame on.
fn malformed_at(alloc: Global, place: usize) -> Result<Text, NoMemory>
    ensures said { IfOk result (λ text. malformed_by text ≡ malformed_at place) }
    ensures short { IfOk result (λ text. length text < 2 ^ 31) }
{
    Ok(Text::new(format!(in alloc; "{}{place}", Reason::Malformed.text())?))
}

/// What the outcome of a call shows. A map is of the topology with this minor version.
pub(crate) fn content_of(
    alloc: Global,
    cfg: SessionCfg,
    call: &Call,
    minor: i32,
    outcome: Outcome,
) -> Result<Content, NoMemory>
    requires few { cfg.nodes ≤ 65536 }
    requires parts { cfg.parts ≤ 65536 }
    ensures said { IfOk result (λ content. content_said content
        ≡ content_of cfg call.now minor outcome) }
    ensures short { IfOk result (λ content. HasShortText (fault_in (content_said content))) }
{
    match outcome {
        Outcome::Refused(why) => Ok(Content::Refuses(reason_of(why))),
        Outcome::Keys(pairs) => {
            let told = Topology { version: 1, minor };
            Ok(Content::Maps(map_for(alloc, told, cfg, call, pairs)?))
        }
        outcome => Ok(Content::Shows(Shown::Out(outcome))),
    }
}

/// The partition map that a call asks for, with these pairs of types and fields.
fn map_for(
    alloc: Global,
    told: Topology,
    cfg: SessionCfg,
    call: &Call,
    pairs: Items<(i32, i32)>,
) -> Result<PartMap, NoMemory>
    requires few { cfg.nodes ≤ 65536 }
    requires parts { cfg.parts ≤ 65536 }
    ensures { IfOk result (λ map. map
        ≡ served_map told cfg.nodes cfg.parts (caches_in call.now) pairs) }
{
    let caches = caches_in(call);
    served_map(alloc, told, cfg.nodes, cfg.parts, caches, pairs.as_slice())
}

/// The caches whose partition maps a call asks for.
fn caches_in(call: &Call) -> &[i32]
    ensures { result.now ≡ caches_in call.now }
{
    match call {
        Call::Affinity { caches } => caches.as_slice(),
        _ => &[],
    }
}
