//! The trait of a door, which opens links one after another.

ghost use Rattle.ig_link.specs.AcceptsAs.{DoorState, AcceptsAs};

use crate::link::Link;

/// The answer of an accept.
#[derive(Drop)]
pub enum Opened<L> {
    /// The next link.
    Link(L),
    /// No further link comes. Every later accept answers the same.
    End,
    /// The door failed. No link was opened.
    Failed,
}

/// A door: it opens links one after another. It counts the links that it opened and the accepts that
/// failed; both counts saturate at `u64::MAX`.
pub trait Door {
    /// The links that it opens.
    type Line: Link + Send;

    /// What contracts see of the door.
    ghost door: { Self → DoorState };

    /// Waits for the next link. It opens links in the order in which they were to come, if it tells them;
    /// nothing was read from them or written to them. It ends only if no link is still to come. Exactly
    /// the answer `Link` is counted as opened, and exactly `Failed` as a fault.
    fn accept(&mut self) -> Opened<Self::Line>
        ensures { AcceptsAs Self.Line.source Self.Line.sink result
            (door self.old) (door self.new) };
}
