//! What runs the calls of a session, and under which number they are recorded.

ghost use Rattle.std.specs.Prelude.{◌≡◌};

use ig_base::NoRoom;
use ig_caches::{Answer, Call, Exec};

/// Runs calls one after another, and records each under the number of a seat.
///
/// What it has recorded exists in proofs alone. A caller may own the object that runs the calls, as
/// [`Alone`] does, or borrow a seat at an object that others call too.
pub trait Caller {
    ghost use Rattle.std.specs.Prelude.{◌≡◌, ℕ, List, [], ◌∷◌, IfOk, OnErr, IfErr};
    ghost use Rattle.ig_base.specs.declared.entry.Entry.{Entry};
    ghost use Rattle.ig_caches.specs.declared.call.Call.{Call};
    ghost use Rattle.ig_caches.specs.declared.answer.Answer.{Answer};
    ghost use Rattle.ig_caches.specs.PlainCaches.{PlainCaches};
    ghost use Rattle.ig_caches.specs.IsRunnable.{IsRunnable};
    ghost use Rattle.ig_caches.specs.AnswersKind.{AnswersKind};
    ghost use Rattle.ig_session.specs.Histories.{StandsOn};

    /// The number of its seat, under which its entries are recorded.
    ghost seat: { Self → ℕ };

    /// The ghost names of the `&mut` references that it holds. A caller over a borrowed seat names
    /// that reference here: so whoever lent the seat knows it again when the borrow ends.
    ghost lent: { Self → List ℕ };

    /// The type of `kept`, which each caller chooses.
    ghost Kept: { Type 0 };

    /// What else no call changes: for a caller over a seat, what the seat knows besides the calls.
    ghost kept: { Self → Self.Kept };

    /// The histories that it may have: the caches at the start, and the entries of its own since.
    ghost stands: { Self → PlainCaches → List (Entry Call Answer) → Type 0 };

    /// Runs a call and adds one entry for it.
    ///
    /// # Errors
    ///
    /// [`NoRoom`] with the call if memory runs out. No entry is added.
    fn run(&mut self, call: Call) -> Result<Answer, NoRoom<Call>>
        requires { IsRunnable call }
        ensures ok { IfOk result (λ answer. StandsOn stands self.old self.new
            (record { seat = seat self.old; ask = call; got = answer } ∷ [])) }
        ensures fits { IfOk result (λ answer. AnswersKind call answer.outcome) }
        ensures err { OnErr result (StandsOn stands self.old self.new []) }
        ensures back { IfErr result (λ e. e.back ≡ call) }
        ensures seat { seat self.new ≡ seat self.old }
        ensures lent { lent self.new ≡ lent self.old }
        ensures kept { kept self.new ≡ kept self.old };
}

/// A caller that owns the object which runs its calls. Its entries have the number 0.
#[derive(Drop)]
pub struct Alone<E> {
    exec: E,
}

impl<E: Exec> Alone<E> {
    ghost use Rattle.std.specs.Prelude.{◌≡◌, []};
    ghost use Rattle.ig_session.specs.StandsAlone.{StandsAlone};

    /// A caller whose history begins with the object's caches, without entries.
    pub fn new(exec: E) -> Alone<E>
        ensures { StandsAlone E.caches result (E.caches exec) [] }
    {
        Alone { exec }
    }
}

impl<E: Exec> Caller for Alone<E> {
    ghost use Rattle.std.specs.Prelude.{[]};
    ghost use Rattle.ig_session.specs.StandsAlone.{StandsAlone};

    ghost seat = { λ _. 0 };

    ghost lent = { λ _. [] };

    ghost Kept = { Unit {0} };

    ghost kept = { λ _. tt };

    ghost stands = { StandsAlone E.caches };

    fn run(&mut self, call: Call) -> Result<Answer, NoRoom<Call>> {
        self.exec.run(call)
    }
}
