//! The texts of results.

ghost use Rattle.std.specs.Prelude.{◌≡◌, ◌≤◌, ◌++◌, drop, length, codes, IsSome, OnOk};
ghost use Rattle.std.specs.Fmt.{decimal};
ghost use Rattle.ig_capture.specs.Answers.{ShowsContent};
ghost use Rattle.ig_capture.specs.Talks.{text_by, form_for, text_form};
ghost use Rattle.ig_wire.specs.declared.operation.Operation.TheVariants.{PartitionMaps};
ghost use Rattle.ig_meta.specs.Results.{result_of as types_result};
ghost use Rattle.ig_ops.specs.Results.{result_of as rows_result};

use crate::requests::is_of_types;
use crate::stop::Stop;
use crate::texts::put_number;
use ig_base::{NoMemory, Octets};
use ig_lines::{write_map, write_shown};
use ig_parts::read_parts;
use ig_wire::Operation;
use std::alloc::Global;

/// Appends the text of the result that stands in the body from this offset on. `operation` is that of
/// the request; there is none where it was refused. `place` is the offset of the frame in its stream.
pub(crate) fn put_result(
    alloc: Global,
    operation: Option<Operation>,
    place: u64,
    body: &[u8],
    at: usize,
    text: &mut Octets,
) -> Result<(), Stop>
    requires { at ≤ length body.now }
    ensures { ShowsContent place body.now (text_by (form_for operation) (drop at body.now))
        text.old text.new result }
{
    let Some(operation) = operation else {
        return Ok(put_unread(body.len() - at, text)?);
    };
    if let Operation::PartitionMaps = operation {
        return put_map_result(alloc, place, body, at, text);
    }
    if is_of_types(operation) {
        return put_types_result(alloc, operation, place, body, at, text);
    }
    put_rows_result(alloc, operation, place, body, at, text)
}

/// Appends the number of bytes of a result that isn't read.
fn put_unread(len: usize, text: &mut Octets) -> Result<(), NoMemory>
    ensures { OnOk result (text.new ≡ text.old ++ (codes "unread " ++ decimal len)) }
{
    text.append(b"unread ")?;
    put_number(len as u64, text)
}

/// Appends the text of a partition map.
fn put_map_result(
    alloc: Global,
    place: u64,
    body: &[u8],
    at: usize,
    text: &mut Octets,
) -> Result<(), Stop>
    requires { at ≤ length body.now }
    ensures { ShowsContent place body.now (text_by (text_form PartitionMaps) (drop at body.now))
        text.old text.new result }
{
    match read_parts(alloc, body, at) {
        Ok(map) => Ok(write_map(alloc, &map, text)?),
        Err(fault) => Err(Stop::of(place, fault)),
    }
}

/// Appends the text of a result of an operation on caches as wholes or on types of values.
fn put_types_result(
    alloc: Global,
    operation: Operation,
    place: u64,
    body: &[u8],
    at: usize,
    text: &mut Octets,
) -> Result<(), Stop>
    requires known { IsSome (types_result operation) }
    requires within { at ≤ length body.now }
    ensures { ShowsContent place body.now (text_by (text_form operation) (drop at body.now))
        text.old text.new result }
{
    match ig_meta::read_result(alloc, operation.code(), body, at) {
        Ok(shown) => Ok(write_shown(alloc, &shown, text)?),
        Err(fault) => Err(Stop::of(place, fault)),
    }
}

/// Appends the text of a result of any other operation but partition maps.
fn put_rows_result(
    alloc: Global,
    operation: Operation,
    place: u64,
    body: &[u8],
    at: usize,
    text: &mut Octets,
) -> Result<(), Stop>
    requires known { IsSome (rows_result operation) }
    requires within { at ≤ length body.now }
    ensures { ShowsContent place body.now (text_by (text_form operation) (drop at body.now))
        text.old text.new result }
{
    match ig_ops::read_result(alloc, operation.code(), body, at) {
        Ok(shown) => Ok(write_shown(alloc, &shown, text)?),
        Err(fault) => Err(Stop::of(place, fault)),
    }
}
