//! The commands that run to their end without waiting for other threads: `pipe` and `decode`.

ghost use Rattle.std.specs.Prelude.{◌≡◌, map, string_bytes, IfOk};
ghost use Rattle.ignite_thin.specs.Plain.{RunsPipeWords, RunsPlain};

use crate::decode::decode;
use crate::statuses::{NO_MEMORY, USAGE, decode_status, end_status, start_status};
use crate::words::{is_decode, pipe_words};
use ig_base::{NoMemory, Text};
use ig_link::{Sink, Source};
use ig_session::{Alone, SessionCfg, serve_ends};
use ig_shards::Shards;
use std::alloc::Global;

/// The session of a server that is node 0 of 1, with 1,024 partitions a cache.
const ONE_NODE: SessionCfg = SessionCfg {
    node: 0,
    nodes: 1,
    parts: 1024,
};

/// The number of shards over which the rows are spread.
const SHARDS: u32 = 64;

/// Copies of the words, as names of caches.
fn names_of(alloc: Global, words: &[String]) -> Result<Vec<Text>, NoMemory>
    ensures { IfOk result (λ names. names.items ≡ map string_bytes words.now) }
{
    let mut names = Vec::with_capacity(alloc, words.len())?;
    for word in words {
        names.push(Text::new(String::from_str(alloc, word.as_str())?))?;
    }
    Ok(names)
}

/// Serves one session with the caches of the names in `pipe NAME ..`.
fn pipe<S: Source, K: Sink>(alloc: Global, words: &[String], source: &mut S, sink: &mut K) -> u8
    ensures { RunsPipeWords (map string_bytes words.now) (S.source source.old) (S.source source.new)
        (K.sink sink.old) (K.sink sink.new) result }
{
    let Some(names) = pipe_words(words) else {
        return USAGE;
    };
    let Ok(names) = names_of(alloc, names) else {
        return NO_MEMORY;
    };
    match Shards::start(alloc, names, SHARDS) {
        Ok(shards) => {
            let mut caller = Alone::new(shards);
            end_status(serve_ends(alloc, &mut caller, source, sink, &ONE_NODE))
        }
        Err(fault) => start_status(fault),
    }
}

/// Runs the command that the words name over a source and a sink, and returns the program's status.
///
/// `pipe NAME ..` serves one session with the caches of these names, and its status says how the session
/// ended. `decode` writes the text of the capture that the source gives. Words that are no command leave
/// the source and the sink as they were, with status 1.
pub fn run_plain<S: Source, K: Sink>(
    alloc: Global,
    words: &[String],
    source: &mut S,
    sink: &mut K,
) -> u8
    ensures { RunsPlain (map string_bytes words.now) (S.source source.old) (S.source source.new)
        (K.sink sink.old) (K.sink sink.new) result }
{
    if is_decode(words) {
        return decode_status(decode(alloc, source, sink));
    }
    pipe(alloc, words, source, sink)
}
