//! What a session does next.

use ig_caches::Call;
use ig_deals::SessionEnd;

/// What a session does next, where calls are answered in the order of their requests.
#[derive(Debug, Drop)]
pub enum Step {
    /// It waits for input: this many more bytes complete the next length or frame.
    More { missing: u64 },
    /// This call is to be run, and its answer given to the session.
    Run(Call),
    /// Bytes of replies are to be written.
    Out,
    /// Nothing more is read or replied, and the session has ended so.
    Stop(SessionEnd),
}

/// The same where several calls may be out.
#[derive(Debug, Drop)]
pub enum Ahead {
    /// It waits for input: this many more bytes complete the next length or frame.
    More { missing: u64 },
    /// This call is to be run. Its number counts the calls of the session from 0 on.
    Run { nth: u64, call: Call },
    /// An answer to a call that is out must come first.
    Wait,
    /// Bytes of replies are to be written.
    Out,
    /// Nothing more is read or replied, and the session has ended so.
    Stop(SessionEnd),
}
