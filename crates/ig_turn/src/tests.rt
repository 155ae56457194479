//! A map of numbers behind a turn: one thread, two seats, and eight threads.
ghost use Rattle.std.specs.Prelude.{◌≡◌, ◌<◌, pos, [], ◌∷◌, All, IfOk, IfSome};
ghost use Rattle.ig_turn.specs.History.{IsOf, entry, ended, first_seat, newcomer, with_born};

use crate::{Plain, Turn, TurnSeat};
use ig_base::NoRoom;
use std::alloc::{AllocError, Global};
use std::collections::{BTreeMap, LinkedList};
use std::sync::Wait;
use std::test::Fail;
use std::thread;
use std::thread::Threads;

// It counts its calls, and refuses one of them if it is told to.
#[derive(Drop)]
struct Cells {
    map: BTreeMap<i32, i32>,
    calls: u64,
    refuses: bool,
}

// A value to put at a key, or none.
type Ask = (i32, Option<i32>);

// The call's place, and what the key had.
type Got = (u64, Option<i32>);

fn empty(alloc: Global, refuses: bool) -> Cells
    ensures { (result.map.entries ≡ []) × (result.calls ≡ 0) }
{
    Cells {
        map: BTreeMap::new(alloc),
        calls: 0,
        refuses,
    }
}

impl Plain for Cells {
    ghost use Rattle.std.specs.Prelude.{◌≡◌, List, [], ℤ, FitsSigned};
    ghost use Rattle.std.specs.Int.{w32};
    ghost use Rattle.std.specs.Option.{ForSome};
    ghost use Rattle.ig_turn.specs.Cells.{RunsFrom, StandsFor, runs_front};

    type Ask = Ask;

    type Got = Got;

    type AskData = Ask;

    type GotData = Got;

    type Start = LinkedList<(i32, i32)>;

    ghost ask_data = { λ ask. ask };

    ghost got_data = { λ got. got };

    ghost stands = { λ cells start pairs. StandsFor cells.map.entries cells.calls start pairs };

    ghost runs = { λ start pairs. RunsFrom 0 start pairs };

    ghost start_of = { λ cells. cells.map.entries };

    ghost any_start = { [] };

    ghost fits = { λ ask. FitsSigned w32 ask.0 × ForSome ask.1 (λ value. FitsSigned w32 value) };

    ghost is_sure = { λ _. ⊥ };

    fn act(&mut self, ask: Ask) -> Result<Got, NoRoom<Ask>> {
        if self.refuses || self.calls == u64::MAX {
            self.refuses = false;
            return Err(NoRoom { back: ask });
        }
        let place = self.calls;
        let (key, value) = ask;
        let old = match value {
            None => self.map.get(&key).copied(),
            Some(value) => match self.map.insert(key, value) {
                Ok(old) => old,
                Err(_) => return Err(NoRoom { back: ask }),
            },
        };
        self.calls += 1;
        Ok((place, old))
    }

    ghost stands_runs = { λ cells start pairs s. s.runs };

    ghost runs_prefix = { λ start pairs more r. runs_front 0 start pairs more r };
}

// What one call was, as a thread remembers it.
#[derive(Clone, Copy, Debug, PartialEq, Eq, PartialOrd, Ord)]
struct Call {
    place: u64,
    key: i32,
    value: Option<i32>,
    old: Option<i32>,
}

// A thread's calls, with its seat.
#[derive(Drop)]
struct Worked {
    seat: TurnSeat<Cells>,
    calls: Vec<Call>,
}

const CALLS: i32 = 1000;

const THREADS: usize = 8;

// Makes its calls, until one is handed back.
fn work<R: Wait>(rt: &R, turn: &Turn<Cells>, worked: &mut Worked)
    requires { IsOf turn.now worked.old.seat }
    ensures { IsOf turn.now worked.new.seat }
{
    let number = (worked.seat.number() % 16) as i32;
    for i in 0..CALLS {
        let key = (i + number) % 7;
        let value = if i % 2 == 0 { Some(i) } else { None };
        let Ok((place, old)) = turn.run(rt, &mut worked.seat, (key, value)) else {
            break;
        };
        let call = Call {
            place,
            key,
            value,
            old,
        };
        if worked.calls.push(call).is_err() {
            break;
        }
    }
}

fn split_all<R: Wait>(
    rt: &R,
    alloc: Global,
    turn: &Turn<Cells>,
    seat: &mut TurnSeat<Cells>,
) -> Result<Vec<Worked>, AllocError>
    requires { IsOf turn.now seat.old }
    ensures seat { IsOf turn.now seat.new }
    ensures workers { IfOk result (λ workers. All (λ w. IsOf turn.now w.seat) workers.items) }
{
    let mut workers = Vec::new(alloc);
    for _ in 0..THREADS {
        workers.push(Worked {
            seat: turn.split(rt, seat),
            calls: Vec::new(alloc),
        })?;
    }
    Ok(workers)
}

fn work_all<R: Threads + Wait + Sync>(rt: &R, turn: &Turn<Cells>, workers: &mut [Worked])
    requires { All (λ w. IsOf turn.now w.seat) workers.old }
    ensures { All (λ w. IsOf turn.now w.seat) workers.new }
{
    thread::for_each_mut(rt, workers, THREADS, &|_, worked| work(rt, turn, worked));
}

fn join_all(
    turn: &Turn<Cells>,
    seat: &mut TurnSeat<Cells>,
    mut workers: Vec<Worked>,
    calls: &mut Vec<Call>,
) -> Result<(), AllocError>
    requires { IsOf turn.now seat.old × All (λ w. IsOf turn.now w.seat) workers.items }
{
    while let Some(
        Worked {
            seat: other,
            calls: made,
        },
    ) = workers.pop()
    {
        turn.join(seat, other);
        calls.extend_from_slice(made.as_slice())?;
    }
    Ok(())
}

#[test]
fn one_thread(rt: HostRuntime) -> Result<(), Fail> {
    let (turn, mut seat) = Turn::new(rt.alloc(), empty(rt.alloc(), true)).map_err(|_| "memory")?;
    let refused = turn.run(&rt, &mut seat, (1, Some(2)));
    assert!(rt; matches!(refused, Err(NoRoom { back: (1, Some(2)) })));
    let answered = turn.run(&rt, &mut seat, (1, Some(2)));
    assert!(rt; matches!(answered, Ok((0, None))));
    Ok(())
}

// The first seat of a turn puts a value and tells the other one, which looks it up and is joined. The history is these calls.
fn put_and_get<R: Wait>(
    rt: &R,
    turn: &Turn<Cells>,
    a: &mut TurnSeat<Cells>,
    mut b: TurnSeat<Cells>,
) -> Option<(Got, Got)>
    requires a { a.old ≡ with_born (first_seat turn.now) b.number }
    requires b { (b ≡ newcomer (first_seat turn.now) b.number) × (0 < b.number) }
    ensures seen { IfSome result (λ got. a.new.seen ≡ entry 0 (pos 1, Some (pos 2)) got.0 ∷ entry b.number (pos 1, None) got.1 ∷ []) }
    ensures ended { IfSome result (λ got. a.new.ended ≡ ended b.number (entry b.number (pos 1, None) got.1 ∷ []) ∷ []) }
{
    let Ok(put) = turn.run(rt, a, (1, Some(2))) else {
        return None;
    };
    turn.meet(a, &mut b);
    let Ok(got) = turn.run(rt, &mut b, (1, None)) else {
        return None;
    };
    turn.join(a, b);
    Some((put, got))
}

#[test]
fn two_seats(rt: HostRuntime) -> Result<(), Fail> {
    let (turn, mut a) = Turn::new(rt.alloc(), empty(rt.alloc(), false)).map_err(|_| "memory")?;
    let b = turn.split(&rt, &mut a);
    assert_eq!(rt; (a.number(), b.number()), (0, 1));
    let got = put_and_get(&rt, &turn, &mut a, b);
    assert_eq!(rt; got, Some(((0, None), (1, Some(2)))));
    Ok(())
}

#[test]
fn eight_threads(rt: HostRuntime) -> Result<(), Fail> {
    let (turn, mut seat) = Turn::new(rt.alloc(), empty(rt.alloc(), false)).map_err(|_| "memory")?;
    let mut workers = split_all(&rt, rt.alloc(), &turn, &mut seat)?;
    work_all(&rt, &turn, workers.as_mut_slice());
    let mut calls = Vec::new(rt.alloc());
    join_all(&turn, &mut seat, workers, &mut calls)?;
    calls.sort()?;
    let mut map = BTreeMap::new(rt.alloc());
    for (place, call) in calls.iter().enumerate() {
        let old = match call.value {
            None => map.get(&call.key).copied(),
            Some(value) => map.insert(call.key, value)?,
        };
        assert_eq!(rt; (place as u64, old), (call.place, call.old));
    }
    assert_eq!(rt; calls.len(), 8000);
    Ok(())
}
