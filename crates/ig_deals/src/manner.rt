//! When replies tell the topology.

use ig_base::Topology;
use ig_wire::Version;

/// Which replies to grid calls tell the topology.
#[derive(Clone, Copy, Debug, PartialEq, Eq)]
pub enum Manner {
    /// None: the version has no room for it.
    Never,
    /// The first with an answer, and each whose minor version differs from the last that was told.
    AtChanges,
    /// Each with an answer.
    Always,
}

impl Manner {
    ghost use Rattle.std.specs.Prelude.{◌≡◌};
    ghost use Rattle.ig_deals.specs.Telling.{session_manner, crew_manner, tells, told_after};

    /// How a session of one seat tells the topology.
    pub fn of_session(version: Version) -> Manner
        ensures { result ≡ session_manner version }
    {
        if version.has_flags() {
            Manner::AtChanges
        } else {
            Manner::Never
        }
    }

    /// How a crew tells the topology: its replies come in any order, so each tells its own.
    pub fn of_crew(version: Version) -> Manner
        ensures { result ≡ crew_manner version }
    {
        if version.has_flags() {
            Manner::Always
        } else {
            Manner::Never
        }
    }

    /// What the reply to a grid call tells: `minor` is that of the call's answer, and `last` what was
    /// told last.
    pub fn tells(self, last: Option<i32>, minor: i32) -> Option<Topology>
        ensures { result ≡ tells self last minor }
    {
        match self {
            Manner::Never => None,
            Manner::AtChanges if last == Some(minor) => None,
            Manner::AtChanges | Manner::Always => Some(Topology { version: 1, minor }),
        }
    }

    /// What was told last after that reply; it is kept only where telling depends on it.
    pub fn told_after(self, last: Option<i32>, minor: i32) -> Option<i32>
        ensures { result ≡ told_after self last minor }
    {
        match self {
            Manner::AtChanges => Some(minor),
            Manner::Never | Manner::Always => last,
        }
    }
}
