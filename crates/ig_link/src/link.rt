//! The trait of a link: both directions in one object, a read that doesn't wait, and the end of its use.

ghost use Rattle.std.specs.Prelude.{◌≡◌, ◌<◌, length};
ghost use Rattle.ig_link.specs.ReadsNowAs.{ReadsNowAs};
ghost use Rattle.ig_link.specs.Shows.{Shows};

use crate::ends::Duplex;
use ig_base::Octets;

/// The answer of a read that doesn't wait.
#[derive(Clone, Copy, Debug, PartialEq, Eq)]
pub enum TakeNow {
    /// This many bytes, at least one, were taken and now stand at the start of the buffer.
    Bytes(usize),
    /// No byte is there yet.
    NotYet,
    /// The source has ended. Every later read answers the same.
    End,
    /// The read failed. No byte was taken.
    Failed,
}

/// What a link showed when it was retired.
#[derive(Debug, Drop)]
pub struct Retired {
    /// The bytes taken, if the link told them.
    pub taken: Option<Octets>,
    /// The bytes written, if the link told them.
    pub written: Option<Octets>,
    /// How often a read had failed.
    pub read_faults: u64,
    /// How often a write had failed.
    pub write_faults: u64,
    /// How often a read that doesn't wait had found nothing yet.
    pub pauses: u64,
    /// Whether a read had answered the end.
    pub ended: bool,
}

/// What is left of a link after it was retired.
pub trait Left: Drop {
    ghost use Rattle.ig_link.specs.declared.link.Retired.{Retired};

    /// What it shows.
    ghost shows: { Self → Retired };

    /// What the link showed when it was retired. Takes no memory.
    fn shown(&self) -> &Retired
        ensures { result.now ≡ shows self.now };
}

/// Both directions of a link in one object, which can be read without waiting and is retired in the end.
///
/// It counts the reads that found nothing yet; the count saturates at `u64::MAX`.
pub trait Link: Duplex + Drop {
    /// What is left of the link after it was retired.
    type Left: Left + Send;

    /// Takes some bytes as `read` does, or answers that none is there yet. The buffer isn't empty.
    /// Exactly the answer `NotYet` is counted as a pause, and exactly `Failed` as a fault. What the link
    /// is as a sink stays the same.
    fn read_now(&mut self, buf: &mut [u8]) -> TakeNow
        requires { 0 < length buf.old }
        ensures answer { ReadsNowAs result (Self.source self.old) (Self.source self.new) buf.new }
        ensures beside { Self.sink_beside self.new ≡ Self.sink_beside self.old };

    /// Closes the link. What is left shows all that contracts saw of it. Takes no memory.
    fn retire(self) -> Self::Left
        ensures { Shows (Self.source self) (Self.sink self) (Self.Left.shows result) };
}

impl Left for Retired {
    ghost shows = { λ r. r };

    fn shown(&self) -> &Retired {
        self
    }
}
