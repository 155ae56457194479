//! How many bytes a value has that holds no value, where one look at it tells.

ghost use Rattle.std.specs.Prelude.{◌≡◌, ◌+◌, IsTrue, IsFalse, IfSome, length};
ghost use Rattle.ig_value.specs.Canon.{Canon};
ghost use Rattle.ig_encode.specs.MeasureOutput.{measure_after};

use crate::measure::Measure;
use crate::measure_output::count_more;
use ig_base::Text;
use ig_value::Value;

/// Counts a text or a value of a fixed length, where the measure only counts. Answers whether it
/// counted the value.
#[inline(always)]
pub(crate) fn count_leaf(value: &Value, out: &mut Measure) -> bool
    ensures counted { IsTrue result → out.new ≡ measure_after out.old (Canon value.now) }
    ensures unchanged { IsFalse result → out.new ≡ out.old }
{
    if out.digest.is_some() {
        return false;
    }
    match leaf_len(value) {
        Some(len) => {
            count_more(&mut out.length, len);
            true
        }
        None => false,
    }
}

/// The length of the canonical form of a text or of a value whose kind tells it.
#[inline(always)]
fn leaf_len(value: &Value) -> Option<usize>
    ensures { IfSome result (λ len. len ≡ length (Canon value.now)) }
{
    match value {
        Value::Str(text) => text_len(text),
        _ => fixed_len(value),
    }
}

/// The length of a text's canonical form, if a slice can have as many bytes.
#[inline(always)]
fn text_len(text: &Text) -> Option<usize>
    ensures { IfSome result (λ len. len ≡ 5 + length text.now) }
{
    text.as_str().as_bytes().len().checked_add(5)
}

/// The length of the canonical form, if each value of this kind has the same.
#[inline(always)]
fn fixed_len(value: &Value) -> Option<usize>
    ensures { IfSome result (λ len. len ≡ length (Canon value.now)) }
{
    match value {
        Value::Byte(_) => Some(2),
        Value::Short(_) => Some(3),
        Value::Int(_) => Some(5),
        Value::Long(_) => Some(9),
        Value::Float(_) => Some(5),
        Value::Double(_) => Some(9),
        Value::Char(_) => Some(3),
        Value::Bool(_) => Some(2),
        Value::Uuid(_) => Some(17),
        Value::Date(_) => Some(9),
        Value::Enum { .. } => Some(9),
        Value::Timestamp(_) => Some(13),
        Value::Time(_) => Some(9),
        Value::BinaryEnum { .. } => Some(9),
        Value::Null => Some(1),
        _ => None,
    }
}
