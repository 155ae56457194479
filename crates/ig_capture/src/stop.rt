//! Why a message is not shown.

ghost use Rattle.std.specs.Prelude.{◌≡◌};
ghost use Rattle.ig_capture.specs.declared.stop.Stop.TheVariants as stops;

use ig_base::NoMemory;
use ig_wire::ReadFault;

/// Why a message is not shown.
#[derive(Clone, Copy, Debug)]
pub(crate) enum Stop {
    /// There was no memory.
    NoMemory,
    /// It is malformed at this offset in the stream.
    At { place: u64 },
}

impl Stop {
    ghost use Rattle.ig_capture.specs.Answers.{StopsAt};

    /// Why the message of a frame that begins at this offset didn't read.
    pub(crate) fn of(place: u64, fault: ReadFault) -> Stop
        ensures { StopsAt place fault result }
    {
        match fault {
            ReadFault::NoMemory => Stop::NoMemory,
            ReadFault::Unread(unread) => Stop::At {
                place: place.saturating_add(unread.place as u64),
            },
        }
    }
}

impl From<NoMemory> for Stop {
    ghost from_gives = { λ _ stop. stop ≡ stops.NoMemory };

    fn from(_error: NoMemory) -> Stop {
        Stop::NoMemory
    }
}
