//! What the head of a reply says.

use ig_base::{Text, Topology};

/// What is told in place of a result.
#[derive(Debug, Drop)]
pub struct Fault {
    pub status: i32,
    pub text: Text,
}

/// The head of a reply to a request. A result follows it, but no fault.
#[derive(Debug, Drop)]
pub struct ReplyHead {
    /// The request's identifier.
    pub id: i64,
    /// The version of the topology, where it is told; from 1.4.0 on.
    pub told: Option<Topology>,
    /// What is told in place of a result.
    pub fault: Option<Fault>,
}
