//! The lock itself: the words and the slot that a turn's seats share, and each call as atomic steps.
ghost use Rattle.std.specs.Prelude.{◌≡◌, ◌≢◌, ◌<◌, ◌≤◌, ℕ, true, length, List, [], ◌∷◌, ◌++◌, IfOk, IfErr, IfSome, IsOk, OnOk};
ghost use Rattle.ig_turn.specs.declared.view.Stage.TheVariants.{Idle, Waiting};
ghost use Rattle.ig_turn.specs.History.{entries_of, IsLonger};
ghost use Rattle.std.specs.List.{AllByRecursion};
ghost use Rattle.ig_turn.specs.Steps.{opening_view, left_of_split, right_of_split, settled_view, merged_view, informed_view, note_of};
ghost use Rattle.ig_turn.specs.Steps.{with_stage, view_with_number, view_with_call, held_pairs};
ghost use Rattle.ig_turn.specs.Steps.{IsAtRest, IsHolding, IsWholeView, IsLegalView, Carries, HasTaken, AddsView};

use crate::backoff::Backoff;
use crate::bell::Bell;
use crate::plain::Plain;
use crate::rule::{
    Commit, DrawNumber, DrawTicket, InTurn, Inform, Made, Merge, Note, Pass, Settle, SplitOff,
    TakeObject,
};
use crate::view::View;
use crate::waiter::Waiter;
use atomic_table::{Refused, Seat, Table};
use ig_base::NoRoom;
use std::alloc::{AllocFailed, Global};
use std::marker::Brand;
use std::snapshot::Snapshot;
use std::sync::Wait;
use std::thread;

// The words of the table, each a place in it.

/// The next ticket.
pub(crate) const TICKET: usize = 0;

/// The ticket that is served.
pub(crate) const SERVING: usize = 1;

/// The length of the history.
pub(crate) const COUNT: usize = 2;

/// The next number for a seat.
pub(crate) const SEATS: usize = 3;

/// No ticket is drawn and no number from here on.
pub(crate) const MOST: u64 = 1 << 62;

const OBJECT: usize = 0;

const LOW_BITS: u64 = 0xffff_ffff;

/// A seat of the table. It has no bytes: what it knows is in proofs alone.
pub(crate) type Place<O> = Seat<
    O,
    View<<O as Plain>::Start, <O as Plain>::AskData, <O as Plain>::GotData>,
>;

#[derive(Drop)]
pub(crate) struct Desk<O: Plain> {
    pub(crate) table: Table<O, View<O::Start, O::AskData, O::GotData>, Snapshot<O>, InTurn, Global>,
    bell: Bell,
    pub ghost sized: { (table.shared.table_id.words ≡ 4) × (table.shared.table_id.slots ≡ 1) },
}

// The object, out of the list in which a table that got no memory hands it back.
fn the_one<O: Plain>(mut slots: Vec<O>) -> O
    requires { length slots.items ≡ 1 }
    ensures { slots.items ≡ result ∷ [] }
{
    slots.pop().unwrap()
}

impl<O: Plain> Desk<O> {
    /// A table with the object in its slot, and its first seat.
    pub(crate) fn new(alloc: Global, object: O) -> Result<(Desk<O>, Place<O>), NoRoom<O>>
        requires { O.stands object (O.start_of object) [] }
        ensures start { IfOk result (λ made. made.0.table.shared.key.value ≡ object) }
        ensures place { IfOk result (λ made. (made.1.table_id ≡ made.0.table.shared.table_id) × (made.1.me ≡ (opening_view (O.start_of object), []))) }
        ensures err { IfErr result (λ none. none.back ≡ object) }
    {
        let key = Snapshot::of(&object);
        let mut slots = Vec::new(alloc);
        if let Err(failed) = slots.push(object) {
            let AllocFailed { value } = failed;
            return Err(NoRoom { back: value });
        }
        match Table::new(alloc, &[0, 0, 0, 1], slots, &key) {
            Ok((table, place)) => Ok((
                Desk {
                    table,
                    bell: Bell::new(),
                },
                place,
            )),
            Err(Refused { slots }) => Err(NoRoom {
                back: the_one(slots),
            }),
        }
    }

    // Draws a ticket once nobody has the turn. Where no ticket is left it waits forever.
    fn draw<R: Wait>(&self, rt: &R, place: &mut Place<O>) -> u64
        requires table { place.old.table_id ≡ self.now.table.shared.table_id }
        requires idle { place.old.me.0.stage ≡ Idle }
        ensures table { place.new.table_id ≡ place.old.table_id }
        ensures drawn { place.new.me ≡ (with_stage place.old.me.0 (Waiting result), place.old.me.1) }
    {
        let mut waiter = Waiter::new();
        for _ in rt.forever() {
            if let Some(ticket) = self.free_ticket(&waiter) {
                let found = self
                    .table
                    .shared
                    .compare_exchange::<DrawTicket>(place, TICKET, ticket, ticket + 1);
                if found == ticket {
                    self.stop_waiting(&waiter);
                    return ticket;
                }
            }
            self.wait(rt, &mut waiter);
        }
        unreachable!()
    }

    // The next ticket, if nobody has the turn, no other waiter has it reserved and a ticket is left.
    fn free_ticket(&self, waiter: &Waiter) -> Option<u64>
        ensures { IfSome result (λ ticket. ticket < MOST) }
    {
        let serving = self.table.shared.peek(SERVING);
        let ticket = self.table.shared.peek(TICKET);
        if ticket != serving || ticket >= MOST {
            return None;
        }
        if !waiter.has_reservation && self.bell.is_reserved() {
            return None;
        }
        Some(ticket)
    }

    // Waits a little before the next look: it pauses, or, where it has paused for long or others sleep
    // already, sleeps until the turn is passed, unless it may draw by then.
    fn wait<R: Wait>(&self, rt: &R, waiter: &mut Waiter) {
        if waiter.has_reservation {
            self.wait_reserved(rt, waiter);
            return;
        }
        if !waiter.backoff.is_completed() && !self.bell.is_asked() {
            waiter.backoff.spin();
            return;
        }
        let mark = self.bell.ask();
        if self.free_ticket(waiter).is_some() {
            return;
        }
        waiter.has_reservation = self.bell.sleep(rt, mark);
        waiter.has_slept = true;
        waiter.backoff = Backoff::new();
    }

    // The same, for the waiter that has the turn reserved.
    fn wait_reserved<R: Wait>(&self, rt: &R, waiter: &Waiter) {
        self.bell.ask_reserved();
        if self.free_ticket(waiter).is_none() {
            self.bell.sleep_reserved(rt);
        }
    }

    // Of a waiter that has drawn its ticket: the next turn is anybody's, and where others may sleep the
    // next pass wakes one.
    fn stop_waiting(&self, waiter: &Waiter) {
        if waiter.has_reservation {
            self.bell.give_up();
        }
        if waiter.has_slept {
            self.bell.ask();
        }
    }

    // Takes the object once the ticket is served. One that `draw` gave is served at once.
    fn take<R: Wait>(&self, rt: &R, place: &mut Place<O>, ticket: u64)
        requires table { place.old.table_id ≡ self.now.table.shared.table_id }
        requires waits { (place.old.me.0.stage ≡ Waiting ticket) × (place.old.me.0.live ≡ true) × (place.old.me.1 ≡ []) }
        ensures table { place.new.table_id ≡ place.old.table_id }
        ensures taken { HasTaken O.stands place.old.me ticket place.new.me }
    {
        for _ in rt.forever() {
            if self.table.shared.load::<TakeObject>(place, SERVING) == ticket {
                return;
            }
            thread::yield_now();
        }
        unreachable!()
    }

    /// A whole call: waits for the turn, asks the object, commits the answer and passes the turn.
    pub(crate) fn call<R: Wait>(
        &self,
        rt: &R,
        place: &mut Place<O>,
        ask: O::Ask,
    ) -> Result<O::Got, NoRoom<O::Ask>>
        requires table { place.old.table_id ≡ self.now.table.shared.table_id }
        requires idle { (place.old.me.0.stage ≡ Idle) × (place.old.me.0.drawn ≡ []) × (place.old.me.0.live ≡ true) × (place.old.me.1 ≡ []) }
        requires fits { O.fits ask }
        ensures table { (place.new.table_id ≡ place.old.table_id) × (place.new.me.1 ≡ []) }
        ensures ok { IfOk result (λ got. AddsView place.old.me.0 place.new.me.0 (O.ask_data ask) (O.got_data got)) }
        ensures legal { OnOk result (IsLegalView O.runs place.new.me.0 × IsWholeView place.new.me.0) }
        ensures err { IfErr result (λ none. (none.back ≡ ask) × (place.new.me.0 ≡ place.old.me.0)) }
        ensures sure { O.is_sure ask → IsOk result }
    {
        self.enter(rt, place);
        let asked = Snapshot::of(&ask);
        match self.act(place, ask) {
            Ok(got) => {
                self.commit::<Brand>(place, asked, &got);
                self.pass(place);
                Ok(got)
            }
            Err(none) => {
                self.pass(place);
                Err(none)
            }
        }
    }

    // Waits for the turn and takes the object.
    fn enter<R: Wait>(&self, rt: &R, place: &mut Place<O>)
        requires table { place.old.table_id ≡ self.now.table.shared.table_id }
        requires idle { (place.old.me.0.stage ≡ Idle) × (place.old.me.0.live ≡ true) × (place.old.me.1 ≡ []) }
        ensures table { place.new.table_id ≡ place.old.table_id }
        ensures taken { (ticket : ℕ) × HasTaken O.stands place.old.me ticket place.new.me }
    {
        let ticket = self.draw(rt, place);
        self.take(rt, place, ticket);
    }

    // Asks the object, which the seat has taken.
    fn act(&self, place: &mut Place<O>, ask: O::Ask) -> Result<O::Got, NoRoom<O::Ask>>
        requires table { place.old.table_id ≡ self.now.table.shared.table_id }
        requires fits { O.fits ask }
        requires carries { Carries O.stands place.old.me (held_pairs place.old.me.0.stage) }
        ensures table { place.new.table_id ≡ place.old.table_id }
        ensures view { place.new.me.0 ≡ place.old.me.0 }
        ensures ok { IfOk result (λ got. Carries O.stands place.new.me (held_pairs place.old.me.0.stage ++ (O.ask_data ask, O.got_data got) ∷ [])) }
        ensures err { IfErr result (λ none. (none.back ≡ ask) × Carries O.stands place.new.me (held_pairs place.old.me.0.stage)) }
        ensures sure { O.is_sure ask → IsOk result }
    {
        let object = place.slot_mut(&self.table.shared, OBJECT);
        object.act(ask)
    }

    // Adds the call that was made to the history.
    fn commit<M: Made<O::AskData, O::GotData>>(
        &self,
        place: &mut Place<O>,
        ask: Snapshot<O::Ask>,
        got: &O::Got,
    )
        requires table { place.old.table_id ≡ self.now.table.shared.table_id }
        requires made { M.calls ≡ (O.ask_data ask.value, O.got_data got.now) ∷ [] }
        requires holds { IsHolding place.old.me.0.stage 0 × (place.old.me.0.drawn ≡ []) × (place.old.me.0.live ≡ true) }
        ensures table { place.new.table_id ≡ place.old.table_id }
        ensures committed { place.new.me ≡ (view_with_call place.old.me.0 (O.ask_data ask.value) (O.got_data got.now), place.old.me.1) }
        ensures whole { IsWholeView place.new.me.0 }
    {
        self.table.shared.fetch_add::<Commit<M>>(place, COUNT, 1);
    }

    // Gives the object back, passes the turn and wakes a waiter, if there may be one.
    fn pass(&self, place: &mut Place<O>)
        requires table { place.old.table_id ≡ self.now.table.shared.table_id }
        requires holds { (commits : ℕ) × IsHolding place.old.me.0.stage commits × (place.old.me.0.live ≡ true) }
        requires carries { Carries O.stands place.old.me (held_pairs place.old.me.0.stage) }
        ensures table { place.new.table_id ≡ place.old.table_id }
        ensures passed { place.new.me ≡ (with_stage place.old.me.0 Idle, []) }
    {
        self.table.shared.fetch_add::<Pass>(place, SERVING, 1);
        self.bell.ring();
    }

    // Draws a number for a new seat. Where none is left it waits forever.
    fn draw_number<R: Wait>(&self, rt: &R, place: &mut Place<O>) -> u64
        requires table { place.old.table_id ≡ self.now.table.shared.table_id }
        requires none_drawn { (place.old.me.0.drawn ≡ []) × (place.old.me.0.live ≡ true) }
        ensures table { place.new.table_id ≡ place.old.table_id }
        ensures drawn { place.new.me ≡ (view_with_number place.old.me.0 result, place.old.me.1) }
        ensures below { result < MOST }
        ensures above { (place.old.me.0.number < result) × AllByRecursion (λ n. n < result) place.old.me.0.born }
        ensures unused { entries_of result place.old.me.0.seen ≡ [] }
    {
        for _ in rt.forever() {
            let number = self.table.shared.peek(SEATS);
            if number < MOST {
                let found = self
                    .table
                    .shared
                    .compare_exchange::<DrawNumber>(place, SEATS, number, number + 1);
                if found == number {
                    return number;
                }
            } else {
                self.table
                    .shared
                    .park(rt, SEATS, (number & LOW_BITS) as u32);
            }
        }
        unreachable!()
    }

    /// Splits a new seat off, which has the number that is answered.
    pub(crate) fn split<R: Wait>(&self, rt: &R, place: &mut Place<O>) -> (u64, Place<O>)
        requires table { place.old.table_id ≡ self.now.table.shared.table_id }
        requires rest { IsAtRest O.runs place.old.me.0 }
        ensures table { (place.new.table_id ≡ place.old.table_id) × (result.1.table_id ≡ place.old.table_id) }
        ensures left { place.new.me ≡ (left_of_split (view_with_number place.old.me.0 result.0), place.old.me.1) }
        ensures right { result.1.me ≡ (right_of_split (view_with_number place.old.me.0 result.0), []) }
        ensures below { result.0 < MOST }
        ensures above { (place.old.me.0.number < result.0) × AllByRecursion (λ n. n < result.0) place.old.me.0.born }
        ensures rest { IsAtRest O.runs place.new.me.0 × IsAtRest O.runs result.1.me.0 }
    {
        let number = self.draw_number(rt, place);
        let fresh = self.table.shared.split_seat::<SplitOff>(place);
        (number, fresh)
    }

    /// One seat takes in another, and has seen the longer of both lists.
    pub(crate) fn join(&self, place: &mut Place<O>, other: Place<O>)
        requires table { (place.old.table_id ≡ self.now.table.shared.table_id) × (other.table_id ≡ self.now.table.shared.table_id) }
        requires rest { IsAtRest O.runs place.old.me.0 × IsAtRest O.runs other.me.0 × (other.me.1 ≡ []) }
        ensures table { place.new.table_id ≡ place.old.table_id }
        ensures joined { place.new.me ≡ (settled_view (merged_view place.old.me.0 other.me.0), place.old.me.1) }
        ensures seen { IsLonger place.old.me.0.seen other.me.0.seen place.new.me.0.seen }
        ensures whole { IsWholeView place.new.me.0 }
    {
        self.table.shared.join_seat::<Merge<O>>(place, other);
        self.table.shared.load::<Settle>(place, COUNT);
    }

    /// A seat with no number, which knows what this one has seen.
    pub(crate) fn note(&self, place: &mut Place<O>) -> Place<O>
        requires table { place.old.table_id ≡ self.now.table.shared.table_id }
        ensures table { (place.new.table_id ≡ place.old.table_id) × (result.table_id ≡ place.old.table_id) }
        ensures left { place.new.me ≡ place.old.me }
        ensures note { result.me ≡ (note_of place.old.me.0, []) }
    {
        self.table.shared.split_seat::<Note>(place)
    }

    /// One seat tells another what it has seen, by a note.
    pub(crate) fn meet(&self, teller: &mut Place<O>, learner: &mut Place<O>)
        requires table { (teller.old.table_id ≡ self.now.table.shared.table_id) × (learner.old.table_id ≡ self.now.table.shared.table_id) }
        requires rest { IsAtRest O.runs learner.old.me.0 }
        ensures table { (teller.new.table_id ≡ teller.old.table_id) × (learner.new.table_id ≡ learner.old.table_id) }
        ensures teller { teller.new.me ≡ teller.old.me }
        ensures learner { learner.new.me ≡ (settled_view (informed_view learner.old.me.0 (note_of teller.old.me.0)), learner.old.me.1) }
        ensures seen { IsLonger learner.old.me.0.seen teller.old.me.0.seen learner.new.me.0.seen }
        ensures whole { IsWholeView learner.new.me.0 }
    {
        let note = self.note(teller);
        self.table.shared.join_seat::<Inform<O>>(learner, note);
        self.table.shared.load::<Settle>(learner, COUNT);
    }
}
