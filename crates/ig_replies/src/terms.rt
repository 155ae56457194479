//! The terms of a session.

use ig_deals::{Manner, SessionCfg};
use ig_wire::Version;

/// What stays the same through a session after its hello.
#[derive(Clone, Copy, Debug)]
pub struct Terms {
    pub version: Version,
    /// Which replies tell the topology: none below 1.4.0.
    pub manner: Manner,
    pub cfg: SessionCfg,
}
