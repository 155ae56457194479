//! Counts and texts, lent in place: they take no memory.

ghost use Rattle.std.specs.Prelude.{◌≡◌, ◌≤◌, length, drop, IfOk, IfErr};
ghost use Rattle.ig_value.specs.Reading.{count_at, counted_at, text_run_at};
ghost use Rattle.ig_decode.specs.ReaderAnswers.{AnswersWithoutMemory};
ghost use Rattle.ig_decode.specs.TextAnswers.{text_reading, IsText, IsNoText, FindsText, ReadsText};

use crate::count::StatedCount;
use crate::element::element_at;
use crate::fault::{Refusal, Stop};
use ig_value::{Cause, Code};

/// The text that the data object at an offset holds, lent in place, and the offset after it.
///
/// Only a data object of code 9 is a text: another code, null's too, is refused at the code byte as
/// [`Cause::Code`]. The other refusals are those of [`crate::decode_at`]. Offsets count from the
/// beginning of the bytes. Takes no memory.
pub fn text_at(bytes: &[u8], at: usize) -> Result<(&str, usize), Refusal>
    requires { at ≤ length bytes.now }
    ensures right { IfOk result (λ x. IsText bytes.now at x.0.now x.1) }
    ensures refused { IfErr result (λ r. IsNoText bytes.now at r) }
    ensures found { FindsText (λ t. t.now) bytes.now at result }
    ensures reads { ReadsText (λ t. t.now) bytes.now at result }
{
    match text_from(bytes, at) {
        Ok((text, after)) => Ok((text, bytes.len() - after.len())),
        Err(stop) => Err(Refusal {
            place: bytes.len() - stop.left,
            cause: stop.cause,
        }),
    }
}

/// The text at an offset, and the bytes after it.
fn text_from(bytes: &[u8], at: usize) -> Result<(&str, &[u8]), Stop>
    requires { at ≤ length bytes.now }
    ensures { AnswersWithoutMemory (λ x. (x.0.now, x.1.now)) result
        (text_reading (drop at bytes.now)) }
{
    let (_, rest) = bytes.split_at(at);
    coded_text(rest)
}

/// The text after its code, and the bytes after it.
fn coded_text(bytes: &[u8]) -> Result<(&str, &[u8]), Stop>
    ensures { AnswersWithoutMemory (λ x. (x.0.now, x.1.now)) result (text_reading bytes.now) }
{
    let left = bytes.len();
    match bytes.split_first() {
        None => Err(Stop {
            left,
            cause: Cause::Short,
        }),
        Some((byte, rest)) => {
            if *byte != Code::Str.byte() {
                return Err(Stop {
                    left,
                    cause: Cause::Code(*byte),
                });
            }
            counted_text(rest)
        }
    }
}

/// A text after the count of its bytes, and the bytes after it.
pub(crate) fn counted_text(bytes: &[u8]) -> Result<(&str, &[u8]), Stop>
    ensures { AnswersWithoutMemory (λ x. (x.0.now, x.1.now))
        result (counted_at text_run_at bytes.now) }
{
    let (count, rest) = count_of(bytes)?;
    let left = rest.len();
    let Some((counted, rest)) = count.run(rest) else {
        return Err(Stop {
            left,
            cause: Cause::Short,
        });
    };
    match simdutf8::basic::from_utf8(counted) {
        Ok(text) => Ok((text, rest)),
        Err(_) => Err(Stop {
            left,
            cause: Cause::Utf8,
        }),
    }
}

/// An Int32 count, which isn't negative.
pub(crate) fn count_of(bytes: &[u8]) -> Result<(StatedCount, &[u8]), Stop>
    ensures { AnswersWithoutMemory (λ x. (x.0.items, x.1.now)) result (count_at bytes.now) }
{
    let (count, rest) = element_at::<i32>(bytes)?;
    if count < 0 {
        return Err(Stop {
            left: bytes.len(),
            cause: Cause::Count(count),
        });
    }
    Ok((StatedCount::new(count as usize), rest))
}
