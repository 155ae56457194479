//! Filling a slice from a mark on.

ghost use Rattle.std.specs.Prelude.{◌≡◌, ◌+◌, ◌<◌, ◌≤◌, ◌^◌, ◌++◌, length, drop, slice_get, Some, None, MatchOption, IfSome};
ghost use Rattle.std.specs.List.{flat_map};
ghost use Rattle.ig_value.specs.Canon.{Canon};
ghost use Rattle.ig_encode.specs.WindowOutput.{window_after};
ghost use Rattle.ig_encode.specs.Marks.{IsPath, IsTailPath, head_len, inner_values, inner_end, paired_values, tail_bytes, first_of};

use crate::fill_walk::{fill_pairs, fill_value, fill_values};
use crate::footer::{put_footer_from, put_least_footer};
use crate::items::fill_items;
use crate::mark::Step;
use crate::object::HEADER_LEN;
use crate::window::Window;
use ig_value::Value;

/// The value inside at this index, if any.
pub(crate) fn child_at(value: &Value, index: usize) -> Option<&Value>
    ensures child { MatchOption result (slice_get (inner_values value.now) index ≡ None)
        (λ child. slice_get (inner_values value.now) index ≡ Some child.now) }
    ensures small { IfSome result (λ child. index + 1 < 2 ^ 64) }
{
    match value {
        Value::Objects { items, .. } => item_at(items.as_slice(), index),
        Value::Collection { items, .. } => item_at(items.as_slice(), index),
        Value::Enums { items, .. } => item_at(items.as_slice(), index),
        Value::Map { pairs, .. } => child_of_pairs(pairs.as_slice(), index),
        Value::Object(object) => item_at(object.get().fields.as_slice(), index),
        _ => None,
    }
}

/// The value at this index, if any.
fn item_at(values: &[Value], index: usize) -> Option<&Value>
    ensures child { MatchOption result (slice_get values.now index ≡ None)
        (λ child. slice_get values.now index ≡ Some child.now) }
    ensures small { IfSome result (λ child. index + 1 < 2 ^ 64) }
{
    if index < values.len() {
        return Some(&values[index]);
    }
    None
}

/// The same for the keys and values of a map, by turns.
fn child_of_pairs(pairs: &[(Value, Value)], index: usize) -> Option<&Value>
    ensures child { MatchOption result (slice_get (paired_values pairs.now) index ≡ None)
        (λ child. slice_get (paired_values pairs.now) index ≡ Some child.now) }
    ensures small { IfSome result (λ child. index + 1 < 2 ^ 64) }
{
    let at = index / 2;
    if at >= pairs.len() {
        return None;
    }
    let pair = &pairs[at];
    if index % 2 == 0 {
        return Some(&pair.0);
    }
    Some(&pair.1)
}

/// How many bytes stand before the first value inside.
pub(crate) fn head_of(value: &Value) -> u64
    ensures { result ≡ head_len value.now }
{
    match value {
        Value::Objects { .. } => 9,
        Value::Enums { .. } => 9,
        Value::Collection { .. } => 6,
        Value::Map { .. } => 6,
        Value::Object(_) => 24,
        _ => 0,
    }
}

/// The first of these steps, or else one to the first of what stands from this offset on.
pub(crate) fn next_step(path: &[Step], before: u64) -> Step
    ensures { result ≡ first_of before path.now }
{
    if path.is_empty() {
        return Step { index: 0, before };
    }
    path[0]
}

/// Puts the canonical form of the value to a window whose offset the path goes to.
pub(crate) fn fill_from(value: &Value, path: &[Step], out: &mut Window, into: &mut [u8])
    requires { IsPath value.now out.old.skip path.now }
    ensures { (out.new, into.new) ≡ window_after out.old into.old (Canon value.now) }
{
    if path.is_empty() {
        fill_value(value, out, into);
        return;
    }
    let step = path[0];
    out.skip -= step.before;
    match child_at(value, step.index) {
        Some(child) => {
            fill_from(child, &path[1..], out, into);
            fill_after(value, step.index + 1, out, into);
        }
        None => fill_tail(value, step.before, &path[1..], out, into),
    }
}

/// Puts what stands after the values inside, which end at this offset, to a window that a path goes
/// to from there.
fn fill_tail(value: &Value, end: u64, path: &[Step], out: &mut Window, into: &mut [u8])
    requires end { end ≡ inner_end value.now }
    requires path { IsTailPath value.now end (end + out.old.skip) path.now }
    ensures { (out.new, into.new) ≡ window_after out.old into.old (tail_bytes value.now) }
{
    match value {
        Value::Objects { .. } => (),
        Value::Collection { .. } => (),
        Value::Enums { .. } => (),
        Value::Map { .. } => (),
        Value::Object(object) => {
            let object = object.get();
            let fields = object.fields.as_slice();
            let entry = next_step(path, HEADER_LEN as u64);
            put_footer_from(&object.shape, fields, end, entry, out, into);
        }
        _ => match path {
            [] => fill_value(value, out, into),
            [step, ..] => fill_items(value, *step, out, into),
        },
    }
}

/// Puts the values inside from this index on, and what stands after them.
fn fill_after(value: &Value, index: usize, out: &mut Window, into: &mut [u8])
    requires { index ≤ length (inner_values value.now) }
    ensures { (out.new, into.new) ≡ window_after out.old into.old
        (flat_map Canon (drop index (inner_values value.now)) ++ tail_bytes value.now) }
{
    match value {
        Value::Objects { items, .. } => fill_values(&items.as_slice()[index..], out, into),
        Value::Collection { items, .. } => fill_values(&items.as_slice()[index..], out, into),
        Value::Enums { items, .. } => fill_values(&items.as_slice()[index..], out, into),
        Value::Map { pairs, .. } => fill_from_pair(pairs.as_slice(), index, out, into),
        Value::Object(object) => {
            let object = object.get();
            let fields = object.fields.as_slice();
            fill_values(&fields[index..], out, into);
            put_least_footer(&object.shape, fields, out, into);
        }
        _ => fill_value(value, out, into),
    }
}

/// Puts the keys and values of a map, by turns, from this index on.
fn fill_from_pair(pairs: &[(Value, Value)], index: usize, out: &mut Window, into: &mut [u8])
    ensures { (out.new, into.new) ≡ window_after out.old into.old
        (flat_map Canon (drop index (paired_values pairs.now))) }
{
    let at = index / 2;
    if at >= pairs.len() {
        return;
    }
    if index % 2 == 0 {
        fill_pairs(&pairs[at..], out, into);
        return;
    }
    fill_value(&pairs[at].1, out, into);
    fill_pairs(&pairs[at + 1..], out, into);
}
