//! The token with which one thread calls a turn.
ghost use Rattle.std.specs.Prelude.{◌≡◌};
ghost use Rattle.ig_turn.specs.History.{IsLegal, IsWholeSeat};

use crate::desk::Place;
use crate::plain::Plain;
use std::marker::Model;

/// The token with which one thread calls a turn. It knows a prefix of the turn's history, and which
/// calls in it are its own.
#[derive(Drop)]
pub struct TurnSeat<O: Plain> {
    pub(crate) number: u64,
    pub(crate) place: Place<O>,
}

impl<O: Plain> Model for TurnSeat<O> {
    ghost use Rattle.std.specs.Prelude.{◌≡◌, []};
    ghost use Rattle.ig_turn.specs.SeatState.{SeatState};
    ghost use Rattle.ig_turn.specs.Steps.{IsAtRest};

    ghost Value = { SeatState O.Start O.AskData O.GotData };

    ghost view = { λ s. record { table = s.place.table_id; start = s.place.me.0.start; number = s.place.me.0.number; seen = s.place.me.0.seen; own = s.place.me.0.own; ended = s.place.me.0.ended; born = s.place.me.0.born } };

    ghost invariant = { λ s. (s.number ≡ s.place.me.0.number) × (s.place.me.1 ≡ []) × IsAtRest O.runs s.place.me.0 };
}

impl<O: Plain> TurnSeat<O> {
    /// The seat's number, which no other seat of its turn has. The clauses also tell what holds of every
    /// seat, for who was lent one and knows nothing of it.
    pub fn number(&self) -> u64
        ensures number { result ≡ self.now.number }
        ensures legal { IsLegal O.runs self.now }
        ensures whole { IsWholeSeat self.now }
    {
        self.number
    }
}
