//! What can be put behind a turn.
ghost use Rattle.std.specs.Prelude.{◌≡◌, List, ◌++◌, IfOk, IfErr, IsOk};
ghost use Rattle.ig_turn.specs.GainsPair.{GainsPair, KeepsPairs};

use ig_base::NoRoom;

/// An object that is called with an ask and answers with a got. Its meaning is what it was at the
/// start, and the pairs of ask and got since.
pub trait Plain: Drop {
    /// What it is asked: a call with its arguments.
    type Ask;

    /// What it answers to an ask.
    type Got;

    /// An ask as the history has it: plain data, of which no value is made when the program runs.
    type AskData;

    /// A got as the history has it.
    type GotData;

    /// What the object was when its history began.
    type Start;

    ghost ask_data: { Self.Ask → Self.AskData };

    ghost got_data: { Self.Got → Self.GotData };

    // The object stands for this start and these pairs.
    ghost stands: { Self → Self.Start → List (Self.AskData × Self.GotData) → Type 0 };

    // The object may have this list of pairs.
    ghost runs: { Self.Start → List (Self.AskData × Self.GotData) → Type 0 };

    // The start of an object that has no pairs yet.
    ghost start_of: { Self → Self.Start };

    // Any start. It fills the place where a seat that was joined has none left.
    ghost any_start: { Self.Start };

    // The object may be asked this.
    ghost fits: { Self.Ask → Type 0 };

    // The object never hands this ask back.
    ghost is_sure: { Self.Ask → Type 0 };

    /// Answers the ask. Out of memory, it hands the ask back and stands for what it stood for before.
    fn act(&mut self, ask: Self::Ask) -> Result<Self::Got, NoRoom<Self::Ask>>
        requires { fits ask }
        ensures ok { IfOk result (λ got. GainsPair stands self.old self.new (ask_data ask, got_data got)) }
        ensures err { IfErr result (λ none. (none.back ≡ ask) × KeepsPairs stands self.old self.new) }
        ensures sure { is_sure ask → IsOk result };

    // Whatever list an object stands for, an object may have.
    ghost stands_runs: { (object : Self) (start : Self.Start) (pairs : List (Self.AskData × Self.GotData)) → stands object start pairs → runs start pairs };

    // A prefix of a list that an object may have, an object may have.
    ghost runs_prefix: { (start : Self.Start) (pairs more : List (Self.AskData × Self.GotData)) → runs start (pairs ++ more) → runs start pairs };
}
