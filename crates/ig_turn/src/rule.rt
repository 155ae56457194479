//! The invariant of a turn's words and slot, and the atomic steps that keep it. Each step is a type:
//! it says what the seat that makes it knows afterwards.
ghost use Rattle.std.specs.Prelude.{List, []};
ghost use Rattle.ig_turn.specs.Ordered.{Ordered};
ghost use Rattle.ig_turn.specs.Steps.{opening_view, numberless_view, left_of_split, right_of_split, note_of, merged_view, informed_view, DrawsTicket, TakesObject, Commits, Passes, DrawsNumber, Settles};

use crate::plain::Plain;
use crate::view::View;
use atomic_table::{Join, Play, Split, TableRule};
use std::marker::{Brand, PhantomData};
use std::snapshot::Snapshot;

/// The invariant: all calls of a turn stand in one history, in which each seat knows its own.
pub(crate) struct InTurn;

impl<O: Plain> TableRule<O, View<O::Start, O::AskData, O::GotData>, Snapshot<O>> for InTurn {
    ghost holds = { λ object. Ordered O.stands (O.start_of object.value) };

    ghost first = { λ object. opening_view (O.start_of object.value) };
}

/// A compare-and-exchange of the next ticket: where it succeeds the seat has the ticket.
pub(crate) struct DrawTicket;

impl<O, X, A, G> Play<O, View<X, A, G>> for DrawTicket {
    ghost then = { DrawsTicket };
}

/// A load of the ticket that is served: where it is the seat's own, the seat takes the object out of
/// its slot, and knows the history that the object stands for.
pub(crate) struct TakeObject;

impl<O: Plain> Play<O, View<O::Start, O::AskData, O::GotData>> for TakeObject {
    ghost then = { TakesObject O.stands };
}

/// The call that a commit adds to the history. It is known in the proof alone, and picked at the commit.
pub(crate) trait Made<A, G> {
    ghost calls: { List (A × G) };
}

impl<A, G> Made<A, G> for Brand {
    ghost calls = { [] };
}

/// One added to the length of the history: the seat's call becomes the last entry of the history, of
/// what the seat has seen and of its own calls.
pub(crate) struct Commit<M> {
    made: PhantomData<M>,
}

impl<O, X, A, G, M: Made<A, G>> Play<O, View<X, A, G>> for Commit<M> {
    ghost then = { Commits M.calls };
}

/// One added to the ticket that is served: the seat gives the object back, and has no ticket.
pub(crate) struct Pass;

impl<O, X, A, G> Play<O, View<X, A, G>> for Pass {
    ghost then = { Passes };
}

/// A compare-and-exchange of the next number for a seat: where it succeeds the seat holds the number,
/// for a seat to be split off.
pub(crate) struct DrawNumber;

impl<O, X, A, G> Play<O, View<X, A, G>> for DrawNumber {
    ghost then = { DrawsNumber };
}

/// A load after a join or a note: of the two prefixes of the history that the seat knows, one is a
/// prefix of the other, and the longer one is what the seat has seen.
pub(crate) struct Settle;

impl<O, X, A, G> Play<O, View<X, A, G>> for Settle {
    ghost then = { Settles };
}

/// A split: the new seat gets the number that was drawn, and has seen what the old one has.
pub(crate) struct SplitOff;

impl<X, A, G> Split<View<X, A, G>> for SplitOff {
    ghost left = { left_of_split };

    ghost right = { right_of_split };
}

/// A split: the new seat is a note, which has no number and is there to tell what the old one has seen.
pub(crate) struct Note;

impl<X, A, G> Split<View<X, A, G>> for Note {
    ghost left = { λ v. v };

    ghost right = { note_of };
}

/// A join: the seat gets the calls and the numbers of the other, and knows both lists that they saw.
pub(crate) struct Merge<O> {
    object: PhantomData<O>,
}

impl<O: Plain> Join<View<O::Start, O::AskData, O::GotData>> for Merge<O> {
    ghost both = { merged_view };

    ghost spent = { numberless_view O.any_start [] };
}

/// A join of a note: the seat knows the list of the note beside its own.
pub(crate) struct Inform<O> {
    object: PhantomData<O>,
}

impl<O: Plain> Join<View<O::Start, O::AskData, O::GotData>> for Inform<O> {
    ghost both = { informed_view };

    ghost spent = { numberless_view O.any_start [] };
}
