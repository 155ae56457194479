//! The statuses that the program ends with, and what each of them says.

ghost use Rattle.std.specs.Prelude.{◌≡◌, ◌≤◌, ◌↔◌, IsSome};
ghost use Rattle.ignite_thin.specs.Statuses.{status_of, status_of_decode, status_of_start};

use crate::decode_end::DecodeEnd;
use ig_caches::StartFault;
use ig_session::SessionEnd;
use std::fmt;

/// The input ended well: of a session at a frame boundary, after a hello that was accepted; or a capture
/// of which nothing is malformed.
pub const ENDED: u8 = 0;

/// The words are no command. Nothing was read or written.
pub const USAGE: u8 = 1;

/// The input failed.
pub const INPUT_FAILED: u8 = 2;

/// The output failed.
pub const OUTPUT_FAILED: u8 = 3;

/// The input of a session ended elsewhere, a length was out of range or the hello was refused; or
/// something in a capture is malformed.
pub const BAD_INPUT: u8 = 4;

/// Out of memory.
pub const NO_MEMORY: u8 = 5;

/// 2^48 bytes were taken.
pub const BYTE_LIMIT: u8 = 6;

/// The status that says why no caches started with the names in the words.
pub fn start_status(fault: StartFault) -> u8
    ensures { result ≡ status_of_start fault }
{
    match fault {
        StartFault::TooMany => USAGE,
        StartFault::Empty { .. } | StartFault::Taken { .. } => USAGE,
        StartFault::NoMemory => NO_MEMORY,
    }
}

/// The status that says how `decode` ended.
pub fn decode_status(end: DecodeEnd) -> u8
    ensures { result ≡ status_of_decode end }
{
    match end {
        DecodeEnd::Ended => ENDED,
        DecodeEnd::Malformed => BAD_INPUT,
        DecodeEnd::ReadFault => INPUT_FAILED,
        DecodeEnd::WriteFault => OUTPUT_FAILED,
        DecodeEnd::ByteLimit => BYTE_LIMIT,
        DecodeEnd::NoMemory => NO_MEMORY,
    }
}

/// The status that says how a session ended.
pub fn end_status(end: SessionEnd) -> u8
    ensures { result ≡ status_of end }
{
    match end {
        SessionEnd::Ended => ENDED,
        SessionEnd::ReadFault => INPUT_FAILED,
        SessionEnd::WriteFault => OUTPUT_FAILED,
        SessionEnd::Truncated { .. } | SessionEnd::BadFrame { .. } => BAD_INPUT,
        SessionEnd::HelloRefused(_) => BAD_INPUT,
        SessionEnd::NoMemory => NO_MEMORY,
        SessionEnd::ByteLimit => BYTE_LIMIT,
    }
}

/// What a status says, in one line. `None` for a number that is no status of the program.
pub fn meaning(status: u8) -> Option<&'static str>
    ensures { IsSome result ↔ (status ≤ 6) }
{
    Some(match status {
        ENDED => {
            "the input ended at a frame boundary, after a hello that was accepted, \
             or nothing in the capture is malformed"
        }
        USAGE => "the words are no command",
        INPUT_FAILED => "the input failed",
        OUTPUT_FAILED => "the output failed",
        BAD_INPUT => {
            "the input was empty or ended inside a frame, a length was out of range, \
             the hello was refused, or the capture is malformed"
        }
        NO_MEMORY => "out of memory",
        BYTE_LIMIT => "2^48 bytes were taken",
        _ => return None,
    })
}

/// The text of `--help`.
#[derive(Drop)]
pub struct Help;

impl fmt::Display for Help {
    fn fmt<W: fmt::Write>(&self, f: &mut fmt::Formatter<W>) -> fmt::Result {
        f.write_str(COMMANDS)?;
        for status in ENDED..=BYTE_LIMIT {
            let text = meaning(status).unwrap_or("");
            write!(f, "\n    {status}   {text}")?;
        }
        Ok(())
    }
}

const COMMANDS: &str = "\
usage: ignite_thin pipe NAME ..
       ignite_thin decode
       ignite_thin --help | --version

pipe    serves one session over standard input and output, with 1 to 64 caches. A name isn't
        empty and doesn't begin with a hyphen, and no two have the same identifier: the Java
        hash of the name
decode  reads a capture from standard input, and writes each message in it as a line of text

The exit status:";
