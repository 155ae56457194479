//! Reading a line.

ghost use Rattle.std.specs.Prelude.{◌≡◌};
ghost use Rattle.ig_text.specs.ReaderAnswers.{ReaderAnswers};
ghost use Rattle.ig_lines.specs.LineText.{IsTextResult};
ghost use Rattle.ig_lines.specs.ReadLine as reading;

use crate::arguments::up_to;
use crate::asks::ask_of_word;
use crate::line::Line;
use crate::word::Word;
use crate::words::word_of;
use ig_text::{ReadError, TextFault, mark};
use std::alloc::Global;

/// The greatest lane.
const LAST_LANE: u8 = 15;

/// The line whose text these bytes are: LANE, a word and its arguments, with one space before each.
///
/// A cache stands by its name or, after a `#`, by its identifier. It fails where they aren't the text of
/// a line, and tells the offset of the first part that is wrong; where only a part of them is a line,
/// that is the offset after it.
pub fn read_line(alloc: Global, text: &[u8]) -> Result<Line, TextFault>
    ensures is_text { IsTextResult text.now result }
    ensures place { reading.IsLineResult text.now result }
{
    match line(alloc, text) {
        Ok((line, rest)) => {
            if rest.is_empty() {
                return Ok(line);
            }
            drop(line);
            Err(TextFault::Bad {
                place: text.len() - rest.len(),
            })
        }
        Err(ReadError::Bad { left }) => Err(TextFault::Bad {
            place: text.len() - left,
        }),
        Err(ReadError::NoMemory) => Err(TextFault::NoMemory),
    }
}

/// A line, and the bytes after it.
fn line(alloc: Global, text: &[u8]) -> Result<(Line, &[u8]), ReadError>
    ensures { ReaderAnswers (λ x. (x.0, x.1.now)) result (reading.line_at text.now) }
{
    let (lane, rest) = up_to(LAST_LANE, text)?;
    let (_, rest) = mark(b' ', rest)?;
    let (word, rest) = word(rest)?;
    let (ask, rest) = ask_of_word(alloc, word, rest)?;
    Ok((Line { lane, ask }, rest))
}

/// A word, and the bytes after it.
fn word(text: &[u8]) -> Result<(Word, &[u8]), ReadError>
    ensures { ReaderAnswers (λ x. (x.0, x.1.now)) result (reading.word_at text.now) }
{
    let (front, rest) = text.split_at(word_len(text));
    match word_of(front) {
        Some(word) => Ok((word, rest)),
        None => Err(ReadError::Bad { left: text.len() }),
    }
}

/// How many bytes stand before the first space.
fn word_len(text: &[u8]) -> usize
    ensures { result ≡ reading.word_len text.now }
{
    for (index, byte) in text.iter().enumerate() {
        if *byte == b' ' {
            return index;
        }
    }
    text.len()
}
