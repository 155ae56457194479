//! Threads that call a counter behind a turn. The two words are the number of threads and the calls that each makes.
//! The time that they took goes to standard error.
#![tactic(auto)]

ghost use Rattle.std.specs.Prelude.{All, IfOk};
ghost use Rattle.ig_turn.specs.History.{IsOf};

mod counter;

use counter::Counter;
use ig_turn::{Turn, TurnSeat};
use std::alloc::{AllocError, Global};
use std::sync::Wait;
use std::thread::Threads;
use std::time::Instant;
use std::{env, io, thread};

fn number(words: &[String], place: usize) -> u64 {
    match words.get(place) {
        Some(word) => word.as_str().parse().unwrap_or(0),
        None => 0,
    }
}

fn seats<R: Wait>(
    rt: &R,
    alloc: Global,
    turn: &Turn<Counter>,
    seat: &mut TurnSeat<Counter>,
    count: u64,
) -> Result<Vec<TurnSeat<Counter>>, AllocError>
    requires { IsOf turn.now seat.old }
    ensures seat { IsOf turn.now seat.new }
    ensures seats { IfOk result (λ seats. All (IsOf turn.now) seats.items) }
{
    let mut seats = Vec::new(alloc);
    for _ in 0..count {
        seats.push(turn.split(rt, seat))?;
    }
    Ok(seats)
}

fn work<R: Wait>(rt: &R, turn: &Turn<Counter>, seat: &mut TurnSeat<Counter>, calls: u64)
    requires { IsOf turn.now seat.old }
    ensures { IsOf turn.now seat.new }
{
    for _ in 0..calls {
        if turn.run(rt, seat, ()).is_err() {
            return;
        }
    }
}

fn work_all<R: Threads + Wait + Sync>(
    rt: &R,
    turn: &Turn<Counter>,
    seats: &mut [TurnSeat<Counter>],
    calls: u64,
)
    requires { All (IsOf turn.now) seats.old }
{
    let threads = seats.len();
    if threads == 0 {
        return;
    }
    thread::for_each_mut(rt, seats, threads, &|_, seat| work(rt, turn, seat, calls));
}

fn main(rt: HostRuntime) -> io::Result<()> {
    let mut words = Vec::new(rt.alloc());
    for word in env::args(&rt)? {
        words.push(word)?;
    }
    let threads = number(words.as_slice(), 1);
    let calls = number(words.as_slice(), 2);
    let Ok((turn, mut seat)) = Turn::new(rt.alloc(), Counter { count: 0 }) else {
        return Ok(());
    };
    let mut seats = seats(&rt, rt.alloc(), &turn, &mut seat, threads)?;
    let start = Instant::now(&rt)?;
    work_all(&rt, &turn, seats.as_mut_slice(), calls);
    let took = start.elapsed(&rt)?.as_micros();
    let made = turn.run(&rt, &mut seat, ()).unwrap_or(0);
    println!(rt; "{made} calls by {threads} threads")?;
    eprintln!(rt; "{took} microseconds")?;
    Ok(())
}
