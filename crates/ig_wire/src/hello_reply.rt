//! What the reply to a hello says.

use crate::version::Version;
use ig_base::{NodeId, Text};

/// The reply to a hello.
#[derive(Debug, Drop)]
pub enum HelloReply {
    /// The server accepts the hello.
    Accepted {
        /// The identifier of its node, which is told from 1.4.0 on.
        node: Option<NodeId>,
    },
    /// It refuses the hello, and reads no more.
    Refused {
        /// The highest version that it accepts.
        version: Version,
        /// Why it refuses the hello.
        text: Text,
        /// A code that some servers give; ours doesn't.
        code: Option<i32>,
    },
}
