//! Numbers and truth values, and arrays of them.

ghost use Rattle.std.specs.Prelude.{◌≡◌, ℕ, ◌/◌, ◌<◌, ◌≤◌, min, List, [], length, Result, IfOk, vec_capacity};
ghost use Rattle.ig_value.specs.declared.cause.Cause.{Cause};
ghost use Rattle.ig_value.specs.Part as scalar;
ghost use Rattle.ig_value.specs.Reading.{scalar_of, item_at, many_at};
ghost use Rattle.ig_decode.specs.ReaderAnswers.{ReaderAnswers, AnswersWithoutMemory};
ghost use Rattle.std.proofs.Common.{lit<};

use crate::count::{StatedCount, room_for};
use crate::fault::{ReadError, Stop};
use ig_base::Items;
use ig_value::Cause;
use std::alloc::Global;

/// A number or a truth value, which has a fixed number of bytes.
pub(crate) trait ReadElement: Drop + Sized {
    /// The element that these bytes encode, or why they don't.
    ghost meaning: { List ℕ → Result Self Cause };

    /// The number of bytes.
    ghost WIDTH: { ℕ };

    const WIDTH: usize;

    fn of(bytes: &[u8]) -> Result<Self, Cause>
        requires { length bytes.now ≡ WIDTH }
        ensures { result ≡ meaning bytes.now };

    ghost some: { 0 < WIDTH };
}

impl ReadElement for i8 {
    ghost meaning = { scalar_of scalar.i8 };

    ghost WIDTH = { 1 };

    const WIDTH: usize = 1;

    ghost some = { lit< tt };

    fn of(bytes: &[u8]) -> Result<i8, Cause> {
        Ok(i8::from_le_bytes([bytes[0]]))
    }
}

impl ReadElement for i16 {
    ghost meaning = { scalar_of scalar.i16 };

    ghost WIDTH = { 2 };

    const WIDTH: usize = 2;

    ghost some = { lit< tt };

    fn of(bytes: &[u8]) -> Result<i16, Cause> {
        Ok(i16::from_le_bytes([bytes[0], bytes[1]]))
    }
}

impl ReadElement for i32 {
    ghost meaning = { scalar_of scalar.i32 };

    ghost WIDTH = { 4 };

    const WIDTH: usize = 4;

    ghost some = { lit< tt };

    fn of(bytes: &[u8]) -> Result<i32, Cause> {
        Ok(i32::from_le_bytes([bytes[0], bytes[1], bytes[2], bytes[3]]))
    }
}

impl ReadElement for i64 {
    ghost meaning = { scalar_of scalar.i64 };

    ghost WIDTH = { 8 };

    const WIDTH: usize = 8;

    ghost some = { lit< tt };

    fn of(bytes: &[u8]) -> Result<i64, Cause> {
        Ok(i64::from_le_bytes([
            bytes[0], bytes[1], bytes[2], bytes[3], bytes[4], bytes[5], bytes[6], bytes[7],
        ]))
    }
}

impl ReadElement for u16 {
    ghost meaning = { scalar_of scalar.u16 };

    ghost WIDTH = { 2 };

    const WIDTH: usize = 2;

    ghost some = { lit< tt };

    fn of(bytes: &[u8]) -> Result<u16, Cause> {
        Ok(u16::from_le_bytes([bytes[0], bytes[1]]))
    }
}

impl ReadElement for u32 {
    ghost meaning = { scalar_of scalar.u32 };

    ghost WIDTH = { 4 };

    const WIDTH: usize = 4;

    ghost some = { lit< tt };

    fn of(bytes: &[u8]) -> Result<u32, Cause> {
        Ok(u32::from_le_bytes([bytes[0], bytes[1], bytes[2], bytes[3]]))
    }
}

impl ReadElement for u64 {
    ghost meaning = { scalar_of scalar.u64 };

    ghost WIDTH = { 8 };

    const WIDTH: usize = 8;

    ghost some = { lit< tt };

    fn of(bytes: &[u8]) -> Result<u64, Cause> {
        Ok(u64::from_le_bytes([
            bytes[0], bytes[1], bytes[2], bytes[3], bytes[4], bytes[5], bytes[6], bytes[7],
        ]))
    }
}

impl ReadElement for bool {
    ghost meaning = { scalar_of scalar.truth };

    ghost WIDTH = { 1 };

    const WIDTH: usize = 1;

    ghost some = { lit< tt };

    fn of(bytes: &[u8]) -> Result<bool, Cause> {
        match bytes[0] {
            0 => Ok(false),
            1 => Ok(true),
            other => Err(Cause::Bool(other)),
        }
    }
}

/// The element that the bytes begin with, and the bytes after it.
pub(crate) fn element_at<E: ReadElement>(bytes: &[u8]) -> Result<(E, &[u8]), Stop>
    ensures { AnswersWithoutMemory (λ x. (x.0, x.1.now))
        result (item_at E.WIDTH E.meaning bytes.now) }
{
    let left = bytes.len();
    if left < E::WIDTH {
        return Err(Stop {
            left,
            cause: Cause::Short,
        });
    }
    let (front, rest) = bytes.split_at(E::WIDTH);
    match E::of(front) {
        Ok(element) => Ok((element, rest)),
        Err(cause) => Err(Stop { left, cause }),
    }
}

/// As many elements as the count says, and the bytes after them.
pub(crate) fn elements_at<E: ReadElement>(
    alloc: Global,
    count: StatedCount,
    bytes: &[u8],
) -> Result<(Items<E>, &[u8]), ReadError>
    ensures { ReaderAnswers (λ x. (x.0, x.1.now)) result (many_at
        (item_at E.WIDTH E.meaning) count.items bytes.now) }
{
    let whole = count.whole_items(E::WIDTH, bytes.len());
    let mut elements = room_for(alloc, whole, bytes)?;
    let mut rest = bytes;
    for _ in 0..whole {
        let (front, after) = rest.split_at(E::WIDTH);
        match E::of(front) {
            Ok(element) => elements.push_reserved(element),
            Err(cause) => {
                return Err(ReadError::Fault {
                    left: rest.len(),
                    cause,
                });
            }
        }
        rest = after;
    }
    if count.is_more_than(whole) {
        return Err(ReadError::Fault {
            left: rest.len(),
            cause: Cause::Short,
        });
    }
    Ok((Items::new(elements), rest))
}
