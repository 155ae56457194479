//! The lock and its calls: `Turn::new`, `run`, `split`, `join` and `meet`.
ghost use Rattle.std.specs.Prelude.{◌≡◌, ◌≢◌, ◌<◌, ◌^◌, [], ◌∷◌, ◌++◌, All, IfOk, IfErr, IsOk};
ghost use mathlib.Core.List.{IsPrefix};
ghost use Rattle.ig_turn.specs.History.{IsOf, IsLegal, IsLonger, IsWholeSeat, HasJoinedAll, Adds, entry, first_seat, with_born, newcomer, joined_with, with_seen};

use crate::desk::Desk;
use crate::plain::Plain;
use crate::seat::TurnSeat;
use ig_base::NoRoom;
use std::alloc::Global;
use std::marker::Model;
use std::mem;
use std::sync::Wait;

/// An object that many threads call, one call at a time.
#[derive(Drop)]
pub struct Turn<O: Plain> {
    desk: Desk<O>,
}

impl<O: Plain> Model for Turn<O> {
    ghost use Rattle.ig_turn.specs.SeatState.{TurnState};

    ghost Value = { TurnState O.Start };

    ghost view = { λ t. record { table = t.desk.table.shared.table_id; start = O.start_of t.desk.table.shared.key.value } };
}

impl<O: Plain> Turn<O> {
    /// Puts an object behind a turn. The seat is the first one, with number 0. Out of memory, the
    /// object comes back.
    pub fn new(alloc: Global, object: O) -> Result<(Turn<O>, TurnSeat<O>), NoRoom<O>>
        requires { O.stands object (O.start_of object) [] }
        ensures start { IfOk result (λ made. made.0.start ≡ O.start_of object) }
        ensures seat { IfOk result (λ made. made.1 ≡ first_seat made.0) }
        ensures legal { IfOk result (λ made. IsLegal O.runs made.1) }
        ensures whole { IfOk result (λ made. IsWholeSeat made.1) }
        ensures err { IfErr result (λ none. none.back ≡ object) }
    {
        let (desk, place) = Desk::new(alloc, object)?;
        Ok((Turn { desk }, TurnSeat { number: 0, place }))
    }

    /// Waits for the turn and asks the object. An ask that it hands back, out of memory, leaves no
    /// entry. A seat that has joined all others sees its calls one right after the other.
    /// It takes no memory but in the object's `act`. Once 2^62 tickets were drawn it never returns.
    pub fn run<R: Wait>(
        &self,
        rt: &R,
        seat: &mut TurnSeat<O>,
        ask: O::Ask,
    ) -> Result<O::Got, NoRoom<O::Ask>>
        requires own { IsOf self.now seat.old }
        requires fits { O.fits ask }
        ensures own { IsOf self.now seat.new }
        ensures ok { IfOk result (λ got. Adds seat.old seat.new (O.ask_data ask) (O.got_data got)) }
        ensures next { IfOk result (λ got. HasJoinedAll seat.old → seat.new.seen
            ≡ seat.old.seen ++ entry seat.old.number (O.ask_data ask) (O.got_data got) ∷ []) }
        ensures err { IfErr result (λ none. (none.back ≡ ask) × (seat.new ≡ seat.old)) }
        ensures sure { O.is_sure ask → IsOk result }
        ensures legal { IsLegal O.runs seat.new }
        ensures whole { IsWholeSeat seat.new }
    {
        self.desk.call(rt, &mut seat.place, ask)
    }

    /// A new seat, for another thread. It has seen what this one has, and made no call. Its number is
    /// above this seat's and above all in this seat's `born`. It takes no memory, and it may wait.
    /// Once 2^62 numbers were drawn it never returns.
    pub fn split<R: Wait>(&self, rt: &R, seat: &mut TurnSeat<O>) -> TurnSeat<O>
        requires own { IsOf self.now seat.old }
        ensures own { IsOf self.now seat.new × IsOf self.now result }
        ensures seat { seat.new ≡ with_born seat.old result.number }
        ensures result { result ≡ newcomer seat.old result.number }
        ensures above { (seat.old.number < result.number) × All (λ n. n < result.number) seat.old.born }
        ensures below { result.number < 2 ^ 62 }
        ensures legal { IsLegal O.runs seat.new × IsLegal O.runs result }
        ensures whole { IsWholeSeat seat.new × IsWholeSeat result }
    {
        let (number, place) = self.desk.split(rt, &mut seat.place);
        TurnSeat { number, place }
    }

    /// The other seat ends. This one has seen the longer of what both had, and keeps the other's calls
    /// under the other's number. It takes no memory and never waits.
    pub fn join(&self, seat: &mut TurnSeat<O>, other: TurnSeat<O>)
        requires own { IsOf self.now seat.old × IsOf self.now other }
        ensures own { IsOf self.now seat.new }
        ensures seat { seat.new ≡ joined_with seat.old other seat.new.seen }
        ensures seen { IsLonger seat.old.seen other.seen seat.new.seen }
        ensures legal { IsLegal O.runs seat.new }
        ensures whole { IsWholeSeat seat.new }
    {
        let TurnSeat { number: _, place } = other;
        self.desk.join(&mut seat.place, place);
    }

    /// The learner has then seen the longer of what both had. It takes no memory and never waits.
    pub fn meet(&self, teller: &mut TurnSeat<O>, learner: &mut TurnSeat<O>)
        requires own { IsOf self.now teller.old × IsOf self.now learner.old }
        ensures own { IsOf self.now teller.new × IsOf self.now learner.new }
        ensures teller { teller.new ≡ teller.old }
        ensures learner { learner.new ≡ with_seen learner.old learner.new.seen }
        ensures seen { IsLonger learner.old.seen teller.old.seen learner.new.seen }
        ensures told { IsPrefix teller.new.seen learner.new.seen }
        ensures different { teller.old.number ≢ learner.old.number }
        ensures legal { IsLegal O.runs learner.new }
        ensures whole { IsWholeSeat learner.new }
    {
        if teller.number == learner.number {
            // That is never so: a seat that takes another in has both numbers, and all its numbers differ.
            let note = self.desk.note(&mut teller.place);
            let place = mem::replace(&mut teller.place, note);
            self.desk.join(&mut learner.place, place);
            unreachable!()
        }
        self.desk.meet(&mut teller.place, &mut learner.place);
    }
}
