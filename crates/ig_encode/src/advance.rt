//! Moving the path of a mark on to an offset.

ghost use Rattle.std.specs.Prelude.{◌≡◌, ◌+◌, ◌<◌, ◌≤◌, length, take, slice_get, slice_index_or, None, IfSome};
ghost use Rattle.std.specs.List.{flat_map};
ghost use Rattle.ig_value.specs.Canon.{Canon};
ghost use Rattle.ig_encode.specs.Spans.{least_entries};
ghost use Rattle.ig_encode.specs.Marks.{IsStep, IsItemStep, IsPath, head_len, inner_values, inner_end};

use crate::footer::{footer_len, last_offset};
use crate::items::{Reached, reach_item};
use crate::mark::Step;
use crate::measure::Measure;
use crate::measure_walk::measure_value;
use crate::object::{HEADER_LEN, entry_len};
use crate::resume::{child_at, head_of, next_step};
use crate::window_output::items_before;
use ig_value::{Shape, Value};

/// What moving a path found: how many steps the path has then, and how many bytes the value has, if
/// it ends at or before the offset.
#[derive(Clone, Copy)]
pub(crate) struct Moved {
    pub(crate) depth: usize,
    pub(crate) end: Option<u64>,
}

/// Moves a path on to an offset, given how many of the steps there are. The deepest step is moved
/// first: a value in which the path goes further isn't counted.
pub(crate) fn move_path(value: &Value, steps: &mut [Step], known: usize, offset: u64) -> Moved
    requires known { known ≤ length steps.old }
    requires path { IsPath value.now offset (take known steps.old) }
    ensures depth { result.depth ≤ length steps.old }
    ensures path { IsPath value.now offset (take result.depth steps.new) }
    ensures end { IfSome result.end (λ end. (end ≡ length (Canon value.now)) × (end ≤ offset)) }
{
    if steps.is_empty() {
        let end = end_of(value, 0, offset);
        return Moved { depth: 0, end };
    }
    if known == 0 {
        return move_on(value, steps, first_step(value), offset);
    }
    let step = steps[0];
    let Some(child) = child_at(value, step.index) else {
        return move_tail(value, steps, known, offset);
    };
    let below = move_path(child, &mut steps[1..], known - 1, offset - step.before);
    match below.end {
        Some(end) => {
            let next = Step {
                index: step.index + 1,
                before: step.before + end,
            };
            move_on(value, steps, next, offset)
        }
        None => Moved {
            depth: 1 + below.depth,
            end: None,
        },
    }
}

/// The step to the first value inside.
fn first_step(value: &Value) -> Step
    ensures index { result.index ≡ 0 }
    ensures before { result.before ≡ head_len value.now }
{
    Step {
        index: 0,
        before: head_of(value),
    }
}

/// Makes a path that begins with a step at or after this one: past each value inside that ends at
/// or before the offset, and into the next one.
fn move_on(value: &Value, steps: &mut [Step], start: Step, offset: u64) -> Moved
    requires { start.before ≤ offset
        → IsStep (head_len value.now) (inner_values value.now) offset start }
    ensures depth { result.depth ≤ length steps.old }
    ensures path { IsPath value.now offset (take result.depth steps.new) }
    ensures end { IfSome result.end (λ end. (end ≡ length (Canon value.now)) × (end ≤ offset)) }
{
    if steps.is_empty() {
        return Moved {
            depth: 0,
            end: None,
        };
    }
    if start.before > offset {
        return Moved {
            depth: 0,
            end: None,
        };
    }
    let step = last_step(value, start, offset);
    steps[0] = step;
    match child_at(value, step.index) {
        Some(child) => {
            let first = first_step(child);
            let below = move_on(child, &mut steps[1..], first, offset - step.before);
            Moved {
                depth: 1 + below.depth,
                end: None,
            }
        }
        None => move_tail(value, steps, 1, offset),
    }
}

/// Moves a path on past the last value inside: to the end of the value, to an entry of the footer
/// of an object, or to an item of an array whose items may be null.
fn move_tail(value: &Value, steps: &mut [Step], known: usize, offset: u64) -> Moved
    requires some { 0 < known }
    requires known { known ≤ length steps.old }
    requires path { IsPath value.now offset (take known steps.old) }
    requires past { slice_get (inner_values value.now)
        (slice_index_or steps.old 0 (record { index = 0; before = 0 })).index ≡ None }
    ensures depth { result.depth ≤ length steps.old }
    ensures path { IsPath value.now offset (take result.depth steps.new) }
    ensures end { IfSome result.end (λ end. (end ≡ length (Canon value.now)) × (end ≤ offset)) }
{
    if let Some(reached) = reach_item(value, &steps[1..known], offset) {
        return move_to_item(value, steps, reached, offset);
    }
    let before = steps[0].before;
    let end = end_after(value, before, offset);
    if end.is_some() {
        return Moved { depth: 1, end };
    }
    let Value::Object(object) = value else {
        return Moved {
            depth: 1,
            end: None,
        };
    };
    if steps.len() < 2 {
        return Moved {
            depth: 1,
            end: None,
        };
    }
    let object = object.get();
    let start = next_step(&steps[1..known], HEADER_LEN as u64);
    let entry = last_entry(
        &object.shape,
        object.fields.as_slice(),
        before,
        start,
        offset,
    );
    steps[1] = entry;
    Moved {
        depth: 2,
        end: None,
    }
}

/// Moves such a path to the item that was reached, if there is a step for it.
fn move_to_item(value: &Value, steps: &mut [Step], reached: Reached, offset: u64) -> Moved
    requires step { IsStep (head_len value.now) (inner_values value.now) offset
        (slice_index_or steps.old 0 (record { index = 0; before = 0 })) }
    requires past { slice_get (inner_values value.now)
        (slice_index_or steps.old 0 (record { index = 0; before = 0 })).index ≡ None }
    requires some { 0 < length steps.old }
    requires item { IsItemStep value.now offset reached.step }
    requires end { IfSome reached.end (λ end. (end ≡ length (Canon value.now)) × (end ≤ offset)) }
    ensures depth { result.depth ≤ length steps.old }
    ensures path { IsPath value.now offset (take result.depth steps.new) }
    ensures end { IfSome result.end (λ end. (end ≡ length (Canon value.now)) × (end ≤ offset)) }
{
    let end = reached.end;
    if steps.len() < 2 {
        return Moved { depth: 1, end };
    }
    steps[1] = reached.step;
    Moved { depth: 2, end }
}

/// The last step to a field whose entry, in the footer of these fields, is at or before the offset.
/// The fields end at `end`.
fn last_entry(shape: &Shape, fields: &[Value], end: u64, start: Step, offset: u64) -> Step
    requires end { end ≡ 24 + length (flat_map Canon fields.now) }
    requires field { IsStep 24 fields.now offset start }
    requires reached { end + length (least_entries shape.now fields.now start.index) ≤ offset }
    ensures field { IsStep 24 fields.now offset result }
    ensures reached { end + length (least_entries shape.now fields.now result.index) ≤ offset }
{
    let width = last_offset(fields, end).width;
    let last = items_before(entry_len(shape, width), fields.len(), offset - end);
    let mut step = start;
    while step.index < last {
        match end_of(&fields[step.index], step.before, offset) {
            Some(next) => {
                step = Step {
                    index: step.index + 1,
                    before: next,
                };
            }
            None => return step,
        }
    }
    step
}

/// The last step at or before the offset that goes to a value inside, or past the last of them.
fn last_step(value: &Value, start: Step, offset: u64) -> Step
    requires { IsStep (head_len value.now) (inner_values value.now) offset start }
    ensures { IsStep (head_len value.now) (inner_values value.now) offset result }
{
    let mut step = start;
    while let Some(child) = child_at(value, step.index) {
        match end_of(child, step.before, offset) {
            Some(end) => {
                step = Step {
                    index: step.index + 1,
                    before: end,
                };
            }
            None => return step,
        }
    }
    step
}

/// The offset after a value that begins at this one, if it isn't past the bound.
fn end_of(value: &Value, before: u64, bound: u64) -> Option<u64>
    requires { before ≤ bound }
    ensures { IfSome result (λ end. (end ≡ before + length (Canon value.now)) × (end ≤ bound)) }
{
    let mut measure = Measure::counting();
    measure_value(value, &mut measure);
    if measure.length.high > 0 {
        return None;
    }
    sum_within(before, measure.length.low, bound)
}

/// The length of a value whose values inside end at this offset, if it isn't past the bound.
fn end_after(value: &Value, before: u64, bound: u64) -> Option<u64>
    requires before { before ≡ inner_end value.now }
    requires reached { before ≤ bound }
    ensures { IfSome result (λ end. (end ≡ length (Canon value.now)) × (end ≤ bound)) }
{
    match value {
        Value::Objects { .. } => Some(before),
        Value::Collection { .. } => Some(before),
        Value::Enums { .. } => Some(before),
        Value::Map { .. } => Some(before),
        Value::Object(object) => {
            let object = object.get();
            let footer = footer_len(&object.shape, object.fields.as_slice(), before)?;
            sum_within(before, footer, bound)
        }
        _ => end_of(value, 0, bound),
    }
}

/// The sum, if it isn't past the bound.
pub(crate) fn sum_within(before: u64, more: u64, bound: u64) -> Option<u64>
    requires { before ≤ bound }
    ensures { IfSome result (λ end. (end ≡ before + more) × (end ≤ bound)) }
{
    if more > bound - before {
        return None;
    }
    Some(before + more)
}
