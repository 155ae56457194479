//! Replies.

use ig_base::{Text, Topology};
use ig_caches::Shown;
use ig_parts::PartMap;
use ig_wire::Reason;

/// What a reply says.
#[derive(Debug, Drop)]
pub enum Content {
    /// What a call led to, or a page.
    Shows(Shown),
    /// A partition map.
    Maps(PartMap),
    /// A fault with the status and the text of this reason.
    Refuses(Reason),
    /// The fault of a request whose fields don't read, with this text.
    Malformed(Text),
}

/// A reply to a request.
#[derive(Debug, Drop)]
pub struct Reply {
    /// The request's identifier.
    pub id: i64,
    /// The version of the topology, where it is told; from 1.4.0 on.
    pub told: Option<Topology>,
    pub content: Content,
}
