//! A server of the Apache Ignite thin client protocol.
//!
//! `ignite_thin pipe NAME ..` serves one session over standard input and output, and `ignite_thin decode`
//! shows a capture as text. `main` makes the real streams, calls `run_plain`, which carries the contract, and
//! says on standard error why it failed.
#![tactic(auto)]

mod decode;
mod decode_end;
mod plain;
mod statuses;
mod words;

use ig_link::{PipeIn, PipeOut};
use plain::run_plain;
use statuses::{ENDED, Help, NO_MEMORY, OUTPUT_FAILED, USAGE, meaning};
use std::env;
use std::io::ErrorKind;
use std::process::ExitCode;

/// Prints to standard output what the only word asks for, and returns the status. `None` where it
/// asks for nothing of that kind.
fn print_asked(rt: &HostRuntime, words: &[String]) -> Option<u8> {
    let [word] = words else {
        return None;
    };
    let printed = match word.as_str() {
        "--help" => rt.println(Help),
        "--version" => rt.println("ignite_thin 0.1.0"),
        _ => return None,
    };
    Some(if printed.is_ok() {
        ENDED
    } else {
        OUTPUT_FAILED
    })
}

/// Says on standard error why the program ends with a status other than 0.
fn report(rt: &HostRuntime, status: u8) {
    if status == USAGE {
        let _ = rt.eprintln(Help);
    } else if status != ENDED {
        let reason = meaning(status).unwrap_or("");
        let _ = eprintln!(rt; "ignite_thin: {reason}");
    }
}

/// The program's words, without its name, or the status that says why there are none: words that aren't
/// text are no command.
fn words_of(rt: &HostRuntime) -> Result<Vec<String>, u8> {
    let all = env::args(rt).map_err(|e| match e.kind() {
        ErrorKind::OutOfMemory => NO_MEMORY,
        _ => USAGE,
    })?;
    all.skip(1)
        .collect::<Vec<String>>(rt.alloc())
        .map_err(|_| NO_MEMORY)
}

/// Does what the words ask for, over standard input and output, and returns the program's status.
fn run(rt: &HostRuntime) -> u8 {
    let words = match words_of(rt) {
        Ok(words) => words,
        Err(status) => return status,
    };
    if let Some(status) = print_asked(rt, &words) {
        return status;
    }
    let mut source = PipeIn::new(rt.stdin());
    let mut sink = PipeOut::new(rt.stdout());
    run_plain(rt.alloc(), &words, &mut source, &mut sink)
}

fn main(rt: HostRuntime) -> ExitCode {
    let status = run(&rt);
    report(&rt, status);
    ExitCode::from(status)
}

#[cfg(test)]
mod exchanges;
#[cfg(test)]
mod tests;
