//! The head of a reply with what it tells lent, as a session has it before the reply is written.

use ig_base::Topology;

/// What is told in place of a result, with its text lent.
#[derive(Clone, Copy, Debug)]
pub struct FaultView<'a> {
    pub status: i32,
    pub text: &'a str,
}

/// The head of a reply, as [`ReplyHead`](crate::ReplyHead) has it.
#[derive(Clone, Copy, Debug)]
pub struct HeadView<'a> {
    /// The request's identifier.
    pub id: i64,
    /// The version of the topology, where it is told; from 1.4.0 on.
    pub told: Option<Topology>,
    /// What is told in place of a result.
    pub fault: Option<FaultView<'a>>,
}
