//! Counted parts, and parts of more than one number.

ghost use Rattle.std.specs.Prelude.{◌≡◌, ℕ, List, length};
ghost use Rattle.ig_value.specs.Part as part;
ghost use Rattle.ig_value.specs.Table.{byte_of};
ghost use Rattle.ig_value.specs.Reading.{Read, count_at, counted_at, run_at, text_run_at, scalar_at, item_at, uuid_at, stamp_at, decimal_at, optional_at, many_at};
ghost use Rattle.ig_decode.specs.ReaderAnswers.{ReaderAnswers};
ghost use Rattle.ig_decode.specs.ArrayAt.{array_at};

use crate::count::{StatedCount, room_for};
use crate::element::{ReadElement, element_at, elements_at};
use crate::fault::ReadError;
use crate::text::{count_of, counted_text};
use ig_base::{Items, NodeId, Octets, Text};
use ig_value::{Cause, Code, Dec, Stamp};
use std::alloc::Global;

/// The content after a code, which can also be an item of an array beside nulls.
pub(crate) trait ReadContent: Drop + Sized {
    ghost reads: { List ℕ → Read Self };

    fn read(alloc: Global, bytes: &[u8]) -> Result<(Self, &[u8]), ReadError>
        ensures { ReaderAnswers (λ x. (x.0, x.1.now)) result (reads bytes.now) };
}

impl ReadContent for i64 {
    ghost reads = { scalar_at part.i64 };

    fn read(_alloc: Global, bytes: &[u8]) -> Result<(i64, &[u8]), ReadError> {
        Ok(element_at(bytes)?)
    }
}

impl ReadContent for Text {
    ghost reads = { counted_at text_run_at };

    fn read(alloc: Global, bytes: &[u8]) -> Result<(Text, &[u8]), ReadError> {
        let (text, rest) = counted_text(bytes)?;
        Ok((Text::new(String::from_str(alloc, text)?), rest))
    }
}

impl ReadContent for Octets {
    ghost reads = { counted_at run_at };

    fn read(alloc: Global, bytes: &[u8]) -> Result<(Octets, &[u8]), ReadError> {
        let (count, rest) = count_of(bytes)?;
        let left = rest.len();
        let Some((counted, rest)) = count.run(rest) else {
            return Err(ReadError::Fault {
                left,
                cause: Cause::Short,
            });
        };
        Ok((Octets::new(Vec::from_slice(alloc, counted)?), rest))
    }
}

impl ReadContent for NodeId {
    ghost reads = { uuid_at };

    fn read(_alloc: Global, bytes: &[u8]) -> Result<(NodeId, &[u8]), ReadError> {
        let (most, rest) = element_at(bytes)?;
        let (least, rest) = element_at(rest)?;
        Ok((NodeId { most, least }, rest))
    }
}

impl ReadContent for Stamp {
    ghost reads = { stamp_at };

    fn read(_alloc: Global, bytes: &[u8]) -> Result<(Stamp, &[u8]), ReadError> {
        let (millis, rest) = element_at(bytes)?;
        let (nanos, rest) = element_at(rest)?;
        Ok((Stamp { millis, nanos }, rest))
    }
}

impl ReadContent for Dec {
    ghost reads = { decimal_at };

    fn read(alloc: Global, bytes: &[u8]) -> Result<(Dec, &[u8]), ReadError> {
        let (scale, rest) = element_at(bytes)?;
        let (bytes, rest) = Octets::read(alloc, rest)?;
        Ok((Dec { scale, bytes }, rest))
    }
}

/// An array of elements: their count, and the elements.
pub(crate) fn array_of<E: ReadElement>(
    alloc: Global,
    bytes: &[u8],
) -> Result<(Items<E>, &[u8]), ReadError>
    ensures { ReaderAnswers (λ x. ((tt, x.0), x.1.now)) result (array_at
        (item_at E.WIDTH E.meaning) bytes.now) }
{
    let (count, rest) = count_of(bytes)?;
    elements_at(alloc, count, rest)
}

/// Null, or a code and its content.
fn optional_of<C: ReadContent>(
    alloc: Global,
    code: Code,
    bytes: &[u8],
) -> Result<(Option<C>, &[u8]), ReadError>
    ensures { ReaderAnswers (λ x. (x.0, x.1.now))
        result (optional_at (byte_of code) C.reads bytes.now) }
{
    match bytes.split_first() {
        None => Err(ReadError::Fault {
            left: 0,
            cause: Cause::Short,
        }),
        Some((byte, rest)) => {
            if *byte == Code::Null.byte() {
                Ok((None, rest))
            } else if *byte == code.byte() {
                let (content, rest) = C::read(alloc, rest)?;
                Ok((Some(content), rest))
            } else {
                Err(ReadError::Fault {
                    left: bytes.len(),
                    cause: Cause::Code(*byte),
                })
            }
        }
    }
}

/// As many nulls and contents as the count says.
fn optionals_at<C: ReadContent>(
    alloc: Global,
    code: Code,
    count: StatedCount,
    bytes: &[u8],
) -> Result<(Items<Option<C>>, &[u8]), ReadError>
    ensures { ReaderAnswers (λ x. (x.0, x.1.now))
        result (many_at (optional_at (byte_of code) C.reads) count.items bytes.now) }
{
    let mut items = room_for(alloc, count.room(bytes), bytes)?;
    let (mut left, mut rest) = (count, bytes);
    'each: while left.take_one() {
        let (item, after) = optional_of(alloc, code, rest)?;
        items.push(item)?;
        rest = after;
    }
    Ok((Items::new(items), rest))
}

/// An array of nulls and contents: their count, and the items.
pub(crate) fn optionals_of<C: ReadContent>(
    alloc: Global,
    code: Code,
    bytes: &[u8],
) -> Result<(Items<Option<C>>, &[u8]), ReadError>
    ensures { ReaderAnswers (λ x. ((tt, x.0), x.1.now))
        result (array_at (optional_at (byte_of code) C.reads) bytes.now) }
{
    let (count, rest) = count_of(bytes)?;
    optionals_at(alloc, code, count, rest)
}
