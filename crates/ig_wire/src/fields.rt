//! Reading the fields of messages. All take the bytes from the field on, and give those after it.

ghost use Rattle.std.specs.Prelude.{◌≡◌, length, if◌then◌else◌};
ghost use Rattle.std.specs.Int.{w16, w32, w64, from_le_bytes};
ghost use Rattle.ig_value.specs.Part.{u64};
ghost use Rattle.ig_value.specs.Reading.{scalar_at};
ghost use Rattle.ig_wire.specs.Fields.{placed, end_of as end_read, number_of, string_of as string_read, nullable_string_of as nullable_string_read, node_of as node_read};
ghost use Rattle.ig_wire.specs.FieldAnswers.{FieldAnswers};

use crate::stop::Stop;
use ig_base::{NodeId, get_i16, get_i32, get_i64};
use ig_decode::text_at;
use ig_value::Code;

/// An Int16.
pub(crate) fn i16_of(bytes: &[u8]) -> Result<(i16, &[u8]), Stop>
    ensures { FieldAnswers (λ x. (x.0, x.1.now)) result (number_of w16 bytes.now) }
{
    match get_i16(bytes, 0) {
        Some(n) => Ok((n, &bytes[2..])),
        None => Err(Stop { left: bytes.len() }),
    }
}

/// An Int32.
pub fn i32_of(bytes: &[u8]) -> Result<(i32, &[u8]), Stop>
    ensures { FieldAnswers (λ x. (x.0, x.1.now)) result (number_of w32 bytes.now) }
{
    match get_i32(bytes, 0) {
        Some(n) => Ok((n, &bytes[4..])),
        None => Err(Stop { left: bytes.len() }),
    }
}

/// An Int64.
pub fn i64_of(bytes: &[u8]) -> Result<(i64, &[u8]), Stop>
    ensures { FieldAnswers (λ x. (x.0, x.1.now)) result (number_of w64 bytes.now) }
{
    match get_i64(bytes, 0) {
        Some(n) => Ok((n, &bytes[8..])),
        None => Err(Stop { left: bytes.len() }),
    }
}

/// A String.
pub fn string_of(bytes: &[u8]) -> Result<(&str, &[u8]), Stop>
    ensures { FieldAnswers (λ x. (x.0.now, x.1.now)) result (string_read bytes.now) }
{
    match text_at(bytes, 0) {
        Ok((text, end)) => Ok((text, &bytes[end..])),
        Err(refusal) => Err(Stop {
            left: bytes.len().saturating_sub(refusal.place),
        }),
    }
}

/// Passes a String or a null.
pub(crate) fn nullable_string_end(bytes: &[u8]) -> Result<&[u8], Stop>
    ensures { FieldAnswers (λ rest. rest.now) result (end_read (nullable_string_read bytes.now)) }
{
    match bytes.split_first() {
        Some((byte, rest)) if *byte == Code::Null.byte() => Ok(rest),
        _ => match string_of(bytes) {
            Ok((_, rest)) => Ok(rest),
            Err(stop) => Err(stop),
        },
    }
}

/// An unsigned number of eight bytes.
fn u64_of(bytes: &[u8]) -> Result<(u64, &[u8]), Stop>
    ensures { FieldAnswers (λ x. (x.0, x.1.now)) result (placed (scalar_at u64 bytes.now)) }
{
    if bytes.len() < 8 {
        return Err(Stop { left: bytes.len() });
    }
    let (n, rest) = bytes.split_at(8);
    let n = u64::from_le_bytes([n[0], n[1], n[2], n[3], n[4], n[5], n[6], n[7]]);
    Ok((n, rest))
}

/// The identifier of a node: the data object of a UUID.
pub fn node_of(bytes: &[u8]) -> Result<(NodeId, &[u8]), Stop>
    ensures { FieldAnswers (λ x. (x.0, x.1.now)) result (node_read bytes.now) }
{
    let left = bytes.len();
    match bytes.split_first() {
        None => Err(Stop { left }),
        Some((byte, rest)) => {
            if *byte != Code::Uuid.byte() {
                return Err(Stop { left });
            }
            let (most, rest) = u64_of(rest)?;
            let (least, rest) = u64_of(rest)?;
            Ok((NodeId { most, least }, rest))
        }
    }
}
