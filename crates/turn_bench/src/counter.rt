//! A counter behind a turn.
use ig_base::NoRoom;
use ig_turn::Plain;

#[derive(Drop)]
pub struct Counter {
    pub count: u64,
}

impl Plain for Counter {
    ghost use Rattle.std.specs.Prelude.{◌≡◌, ◌+◌, ◌%◌, length};
    ghost use Rattle.turn_bench.specs.Counts.{CountsFrom, counts_front};

    type Ask = ();

    type Got = u64;

    type AskData = ();

    type GotData = u64;

    type Start = ();

    ghost ask_data = { λ ask. ask };

    ghost got_data = { λ got. got };

    ghost stands = { λ counter _ pairs. CountsFrom 0 pairs × (counter.count ≡ length pairs) };

    ghost runs = { λ _ pairs. CountsFrom 0 pairs };

    ghost start_of = { λ _. tt };

    ghost any_start = { tt };

    ghost fits = { λ _. Unit {0} };

    ghost is_sure = { λ _. ⊥ };

    fn act(&mut self, ask: ()) -> Result<u64, NoRoom<()>> {
        let count = self.count;
        if count == u64::MAX {
            return Err(NoRoom { back: ask });
        }
        self.count += 1;
        Ok(count)
    }

    ghost stands_runs = { λ counter _ pairs s. s.0 };

    ghost runs_prefix = { λ _ pairs more c. counts_front 0 pairs more c };
}
