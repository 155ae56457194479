//! Arrays whose items may be null, from an item on.

ghost use Rattle.std.specs.Prelude.{◌≡◌, ◌+◌, ◌≤◌, [], ◌∷◌, ℕ, length, IfSome};
ghost use Rattle.ig_value.specs.Table.{byte_of};
ghost use Rattle.ig_value.specs.Canon.{Canon, optional_bytes};
ghost use Rattle.ig_encode.specs.ListBytes.{array_bytes};
ghost use Rattle.ig_encode.specs.WindowOutput.{window_after};
ghost use Rattle.ig_encode.specs.Marks.{IsStepTo, IsItemStep, IsTailPath, inner_end, first_of};

use crate::advance::sum_within;
use crate::coded::Item;
use crate::fill_walk::fill_value;
use crate::leaves::{put_each_optional, put_optional};
use crate::mark::Step;
use crate::measure::Measure;
use crate::resume::next_step;
use crate::window::Window;
use ig_value::{Code, Value};

/// The offset of the first item: a code and a count stand before it.
const ITEMS_HEAD: u64 = 5;

/// The last step at or before an offset, and the end of the array, if it is at or before it too.
#[derive(Clone, Copy)]
pub(crate) struct Reached {
    pub(crate) step: Step,
    pub(crate) end: Option<u64>,
}

/// Puts an array whose items may be null to a window whose offset the step goes to.
#[inline(never)]
pub(crate) fn fill_items(value: &Value, step: Step, out: &mut Window, into: &mut [u8])
    requires { IsTailPath value.now (inner_end value.now) (inner_end value.now + out.old.skip)
        (step ∷ []) }
    ensures { (out.new, into.new) ≡ window_after out.old into.old (Canon value.now) }
{
    match value {
        Value::Strs(xs) => put_from(Code::Str, xs.as_slice(), step, out, into),
        Value::Uuids(xs) => put_from(Code::Uuid, xs.as_slice(), step, out, into),
        Value::Dates(xs) => put_from(Code::Date, xs.as_slice(), step, out, into),
        Value::Decimals(xs) => put_from(Code::Decimal, xs.as_slice(), step, out, into),
        Value::Timestamps(xs) => put_from(Code::Timestamp, xs.as_slice(), step, out, into),
        Value::Times(xs) => put_from(Code::Time, xs.as_slice(), step, out, into),
        _ => fill_value(value, out, into),
    }
}

/// Puts an array of these parts to a window that skips all that stands before the step.
fn put_from<T: Item>(
    inner: Code,
    parts: &[Option<T>],
    step: Step,
    out: &mut Window,
    into: &mut [u8],
)
    requires { IsStepTo (optional_bytes (byte_of inner) T.Spell.bytes) 5 parts.now out.old.skip step }
    ensures { (byte : ℕ) → (out.new, into.new) ≡ window_after out.old into.old (byte
        ∷ array_bytes (optional_bytes (byte_of inner) T.Spell.bytes) parts.now) }
{
    out.skip -= step.before;
    put_each_optional(inner, &parts[step.index..], out, into);
}

/// The last step at or before the offset that goes to an item of an array whose items may be null,
/// or past the last of them. The path goes on from there. None of any other value, and while the
/// offset is before the first item.
#[inline(never)]
pub(crate) fn reach_item(value: &Value, path: &[Step], offset: u64) -> Option<Reached>
    requires { IsTailPath value.now (inner_end value.now) offset path.now }
    ensures step { IfSome result (λ reached. IsItemStep value.now offset reached.step) }
    ensures end { IfSome result (λ reached. IfSome reached.end (λ end.
        (end ≡ length (Canon value.now)) × (end ≤ offset))) }
{
    match value {
        Value::Strs(xs) => last_item(Code::Str, xs.as_slice(), path, offset),
        Value::Uuids(xs) => last_item(Code::Uuid, xs.as_slice(), path, offset),
        Value::Dates(xs) => last_item(Code::Date, xs.as_slice(), path, offset),
        Value::Decimals(xs) => last_item(Code::Decimal, xs.as_slice(), path, offset),
        Value::Timestamps(xs) => last_item(Code::Timestamp, xs.as_slice(), path, offset),
        Value::Times(xs) => last_item(Code::Time, xs.as_slice(), path, offset),
        _ => None,
    }
}

/// The same for an array of these parts.
fn last_item<T: Item>(
    inner: Code,
    parts: &[Option<T>],
    path: &[Step],
    offset: u64,
) -> Option<Reached>
    requires { (first_of 5 path.now).before ≤ offset → IsStepTo
        (optional_bytes (byte_of inner) T.Spell.bytes) 5 parts.now offset (first_of 5 path.now) }
    ensures step { IfSome result (λ reached. IsStepTo
        (optional_bytes (byte_of inner) T.Spell.bytes) 5 parts.now offset reached.step) }
    ensures end { (byte : ℕ) → IfSome result (λ reached. IfSome reached.end (λ end.
        (end ≡ length (byte ∷ array_bytes (optional_bytes (byte_of inner) T.Spell.bytes) parts.now))
        × (end ≤ offset))) }
{
    let mut step = next_step(path, ITEMS_HEAD);
    if step.before > offset {
        return None;
    }
    while step.index < parts.len() {
        match end_of_item(inner, &parts[step.index], step.before, offset) {
            Some(next) => {
                step = Step {
                    index: step.index + 1,
                    before: next,
                };
            }
            None => return Some(Reached { step, end: None }),
        }
    }
    let end = Some(step.before);
    Some(Reached { step, end })
}

/// The offset after an item that begins at this one, if it isn't past the bound.
fn end_of_item<T: Item>(inner: Code, part: &Option<T>, before: u64, bound: u64) -> Option<u64>
    requires { before ≤ bound }
    ensures { IfSome result (λ end. (end ≡ before
        + length (optional_bytes (byte_of inner) T.Spell.bytes part.now)) × (end ≤ bound)) }
{
    let mut measure = Measure::counting();
    put_optional(inner, part, &mut measure, &mut []);
    if measure.length.high > 0 {
        return None;
    }
    sum_within(before, measure.length.low, bound)
}
