//! Reading the parts that hold no value.

ghost use Rattle.std.specs.Prelude.{List, ℕ, length, true, Ok as Read_ok};
ghost use Rattle.ig_value.specs.Part as scalar;
ghost use Rattle.ig_text.specs.ReadText as reading;
ghost use Rattle.ig_text.specs.ReaderAnswers.{ReaderAnswers};

use crate::fault::ReadError;
use crate::put::is_bare;
use crate::read::{after, fill, hex_len, mark, natural, pair, signed};
use ig_base::{Items, NodeId, Octets, Text};
use ig_value::{Dec, Stamp, kept_flags};
use std::alloc::Global;

/// The greatest length of a text or a list.
pub const LONGEST: usize = 2_147_483_647;

/// A part that is read from the front of a text.
pub trait ReadPart: Drop + Sized {
    ghost reads: { List ℕ → reading.Read Self };

    /// The part, and the bytes after it.
    fn read(alloc: Global, text: &[u8]) -> Result<(Self, &[u8]), ReadError>
        ensures { ReaderAnswers (λ x. (x.0, x.1.now)) result (reads text.now) };
}

impl ReadPart for i8 {
    ghost reads = { reading.scalar_at scalar.i8 };

    fn read(_alloc: Global, text: &[u8]) -> Result<(i8, &[u8]), ReadError> {
        let (number, rest) = signed(1 << 7, text)?;
        Ok((number as i8, rest))
    }
}

impl ReadPart for i16 {
    ghost reads = { reading.scalar_at scalar.i16 };

    fn read(_alloc: Global, text: &[u8]) -> Result<(i16, &[u8]), ReadError> {
        let (number, rest) = signed(1 << 15, text)?;
        Ok((number as i16, rest))
    }
}

impl ReadPart for i32 {
    ghost reads = { reading.scalar_at scalar.i32 };

    fn read(_alloc: Global, text: &[u8]) -> Result<(i32, &[u8]), ReadError> {
        let (number, rest) = signed(1 << 31, text)?;
        Ok((number as i32, rest))
    }
}

impl ReadPart for i64 {
    ghost reads = { reading.scalar_at scalar.i64 };

    fn read(_alloc: Global, text: &[u8]) -> Result<(i64, &[u8]), ReadError> {
        signed(1 << 63, text)
    }
}

impl ReadPart for u16 {
    ghost reads = { reading.scalar_at scalar.u16 };

    fn read(_alloc: Global, text: &[u8]) -> Result<(u16, &[u8]), ReadError> {
        let mut bytes = [0; 2];
        let (_, rest) = fill(true, text, &mut bytes)?;
        Ok((u16::from_be_bytes(bytes), rest))
    }
}

impl ReadPart for u32 {
    ghost reads = { reading.scalar_at scalar.u32 };

    fn read(_alloc: Global, text: &[u8]) -> Result<(u32, &[u8]), ReadError> {
        let mut bytes = [0; 4];
        let (_, rest) = fill(true, text, &mut bytes)?;
        Ok((u32::from_be_bytes(bytes), rest))
    }
}

impl ReadPart for u64 {
    ghost reads = { reading.scalar_at scalar.u64 };

    fn read(_alloc: Global, text: &[u8]) -> Result<(u64, &[u8]), ReadError> {
        let mut bytes = [0; 8];
        let (_, rest) = fill(true, text, &mut bytes)?;
        Ok((u64::from_be_bytes(bytes), rest))
    }
}

impl ReadPart for bool {
    ghost reads = { reading.truth_at };

    fn read(_alloc: Global, text: &[u8]) -> Result<(bool, &[u8]), ReadError> {
        if let Some(rest) = text.strip_prefix(b"true") {
            return Ok((true, rest));
        }
        if let Some(rest) = text.strip_prefix(b"false") {
            return Ok((false, rest));
        }
        Err(ReadError::Bad { left: text.len() })
    }
}

impl ReadPart for Octets {
    ghost reads = { reading.octets_at };

    fn read(alloc: Global, text: &[u8]) -> Result<(Octets, &[u8]), ReadError> {
        let left = text.len();
        let digits = hex_len(text);
        if digits % 2 != 0 {
            return Err(ReadError::Bad { left });
        }
        let (bytes, rest) = paired(alloc, digits / 2, text)?;
        if bytes.len() > LONGEST {
            return Err(ReadError::Bad { left });
        }
        Ok((Octets::new(bytes), rest))
    }
}

/// This many bytes, from two digits each, and the bytes after them.
fn paired(alloc: Global, count: usize, text: &[u8]) -> Result<(Vec<u8>, &[u8]), ReadError>
    ensures { ReaderAnswers (λ x. (x.0.items, x.1.now)) result
        (reading.run_at true count text.now) }
{
    let mut bytes = Vec::with_capacity(alloc, count)?;
    let mut rest = text;
    for _ in 0..count {
        let (byte, after) = pair(true, rest)?;
        bytes.push(byte)?;
        rest = after;
    }
    Ok((bytes, rest))
}

impl ReadPart for Text {
    ghost reads = { reading.quoted_at };

    fn read(alloc: Global, text: &[u8]) -> Result<(Text, &[u8]), ReadError> {
        let left = text.len();
        let (_, rest) = mark(b'"', text)?;
        let (bytes, rest) = until_quote(alloc, rest)?;
        if bytes.len() > LONGEST {
            return Err(ReadError::Bad { left });
        }
        match String::from_utf8(bytes) {
            Ok(string) => Ok((Text::new(string), rest)),
            Err(_) => Err(ReadError::Bad { left }),
        }
    }
}

/// The bytes that stand before the closing quote, and the bytes after it.
fn until_quote(alloc: Global, text: &[u8]) -> Result<(Vec<u8>, &[u8]), ReadError>
    ensures { ReaderAnswers (λ x. (x.0.items, x.1.now)) result
        (reading.until_at reading.char_at 34 (length text.now) text.now) }
{
    let mut bytes = Vec::new(alloc);
    let mut rest = text;
    let most = text.len();
    for _ in 0..most {
        if let Some(behind) = after(b'"', rest) {
            return Ok((bytes, behind));
        }
        let (byte, next) = quoted_byte(rest)?;
        bytes.push(byte)?;
        rest = next;
    }
    Err(ReadError::Bad { left: rest.len() })
}

/// A byte of a quoted text, and the bytes after it.
fn quoted_byte(text: &[u8]) -> Result<(u8, &[u8]), ReadError>
    ensures { ReaderAnswers (λ x. (x.0, x.1.now)) result (reading.char_at text.now) }
{
    match text.split_first() {
        Some((b'\\', rest)) => escaped_byte(rest),
        Some((byte, rest)) if is_bare(*byte) => Ok((*byte, rest)),
        _ => Err(ReadError::Bad { left: text.len() }),
    }
}

/// A byte after a backslash, and the bytes after it.
fn escaped_byte(text: &[u8]) -> Result<(u8, &[u8]), ReadError>
    ensures { ReaderAnswers (λ x. (x.0, x.1.now)) result (reading.escape_at text.now) }
{
    let (_, rest) = mark(b'x', text)?;
    let (byte, rest) = pair(true, rest)?;
    if is_bare(byte) {
        return Err(ReadError::Bad { left: text.len() });
    }
    Ok((byte, rest))
}

impl ReadPart for NodeId {
    ghost reads = { reading.uuid_at };

    fn read(_alloc: Global, text: &[u8]) -> Result<(NodeId, &[u8]), ReadError> {
        let (mut most, mut least) = ([0; 8], [0; 8]);
        let (_, rest) = fill(false, text, &mut most[..4])?;
        let (_, rest) = mark(b'-', rest)?;
        let (_, rest) = fill(false, rest, &mut most[4..6])?;
        let (_, rest) = mark(b'-', rest)?;
        let (_, rest) = fill(false, rest, &mut most[6..])?;
        let (_, rest) = mark(b'-', rest)?;
        let (_, rest) = fill(false, rest, &mut least[..2])?;
        let (_, rest) = mark(b'-', rest)?;
        let (_, rest) = fill(false, rest, &mut least[2..])?;
        let (most, least) = (u64::from_be_bytes(most), u64::from_be_bytes(least));
        Ok((NodeId { most, least }, rest))
    }
}

impl ReadPart for Stamp {
    ghost reads = { reading.stamp_at };

    fn read(alloc: Global, text: &[u8]) -> Result<(Stamp, &[u8]), ReadError> {
        let (millis, rest) = i64::read(alloc, text)?;
        let (_, rest) = mark(b':', rest)?;
        let (nanos, rest) = i32::read(alloc, rest)?;
        Ok((Stamp { millis, nanos }, rest))
    }
}

impl ReadPart for Dec {
    ghost reads = { reading.decimal_at };

    fn read(alloc: Global, text: &[u8]) -> Result<(Dec, &[u8]), ReadError> {
        let (scale, rest) = i32::read(alloc, text)?;
        let (_, rest) = mark(b':', rest)?;
        let (bytes, rest) = Octets::read(alloc, rest)?;
        Ok((Dec { scale, bytes }, rest))
    }
}

impl<T: ReadPart> ReadPart for Option<T> {
    ghost reads = { reading.optional_at T.reads };

    fn read(alloc: Global, text: &[u8]) -> Result<(Option<T>, &[u8]), ReadError> {
        if let Some(rest) = text.strip_prefix(b"null") {
            return Ok((None, rest));
        }
        let (part, rest) = T::read(alloc, text)?;
        Ok((Some(part), rest))
    }
}

/// The items of a list up to the byte that closes it, and the bytes after it.
pub fn items<T: ReadPart>(
    alloc: Global,
    close: u8,
    text: &[u8],
) -> Result<(Items<T>, &[u8]), ReadError>
    ensures { ReaderAnswers (λ x. (x.0, x.1.now)) result (reading.items_at T.reads close text.now) }
{
    let mut read = Vec::new(alloc);
    if let Some(rest) = after(close, text) {
        return Ok((Items::new(read), rest));
    }
    let (first, mut rest) = T::read(alloc, text)?;
    read.push(first)?;
    let most = rest.len();
    for _ in 0..most {
        if let Some(behind) = after(close, rest) {
            return counted(read, text.len(), behind);
        }
        let (_, next) = mark(b',', rest)?;
        let (item, next) = T::read(alloc, next)?;
        read.push(item)?;
        rest = next;
    }
    Err(ReadError::Bad { left: rest.len() })
}

/// The list, if an Int32 counts it.
pub fn counted<T: Drop>(
    read: Vec<T>,
    left: usize,
    rest: &[u8],
) -> Result<(Items<T>, &[u8]), ReadError>
    ensures { ReaderAnswers (λ x. (x.0, x.1.now)) result
        (reading.checked_read reading.is_countable left (Read_ok (read.items, rest.now))) }
{
    if read.len() > LONGEST {
        return Err(ReadError::Bad { left });
    }
    Ok((Items::new(read), rest))
}

/// The flags of an object, and the bytes after them.
pub(crate) fn bits(text: &[u8]) -> Result<(u16, &[u8]), ReadError>
    ensures { ReaderAnswers (λ x. (x.0, x.1.now)) result (reading.bits_at text.now) }
{
    let (number, rest) = natural(text)?;
    if number > 65_535 {
        return Err(ReadError::Bad { left: text.len() });
    }
    let bits = number as u16;
    if kept_flags(bits) != bits {
        return Err(ReadError::Bad { left: text.len() });
    }
    Ok((bits, rest))
}

/// The type of an object, and the bytes after it.
pub(crate) fn type_id(text: &[u8]) -> Result<(i32, &[u8]), ReadError>
    ensures { ReaderAnswers (λ x. (x.0, x.1.now)) result (reading.type_at text.now) }
{
    let (number, rest) = signed(1 << 31, text)?;
    let type_id = number as i32;
    if type_id == 0 {
        return Err(ReadError::Bad { left: text.len() });
    }
    Ok((type_id, rest))
}
