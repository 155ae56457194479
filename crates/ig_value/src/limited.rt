//! Whether a part that holds no value keeps to the limits.

ghost use Rattle.std.specs.Prelude.{◌≡◌, ◌↔◌, ◌<◌, ◌^◌, IsTrue, List, length};
ghost use Rattle.std.specs.Str.{IsUtf8};
ghost use Rattle.std.specs.List.{AllByRecursion};
ghost use Rattle.ig_value.specs.Part as scalar;
ghost use Rattle.ig_value.specs.Spells.{IsInRange};
ghost use Rattle.ig_value.specs.Limits.{AreCountable, IfThere, IsLimitedShape, IsLimitedHead, IsLimitedText, IsLimitedUuid, IsLimitedStamp, IsLimitedDecimal};

use crate::flags::kept_flags;
use crate::object::{Record, Shape};
use crate::value::{Dec, Stamp};
use ig_base::{NodeId, Octets, Text};

/// The greatest length of a text or a list: the format counts both by an Int32.
pub(crate) const LONGEST: usize = 2_147_483_647;

/// A part of a value that holds no value.
pub(crate) trait Limited {
    ghost IsLimited: { Self → Type 0 };

    /// Whether it keeps to the limits. A number always does.
    fn is_limited(&self) -> bool
        ensures { IsTrue result ↔ IsLimited self.now };
}

impl Limited for i8 {
    ghost IsLimited = { IsInRange scalar.i8 };

    fn is_limited(&self) -> bool {
        let _number = *self;
        true
    }
}

impl Limited for i16 {
    ghost IsLimited = { IsInRange scalar.i16 };

    fn is_limited(&self) -> bool {
        let _number = *self;
        true
    }
}

impl Limited for i32 {
    ghost IsLimited = { IsInRange scalar.i32 };

    fn is_limited(&self) -> bool {
        let _number = *self;
        true
    }
}

impl Limited for i64 {
    ghost IsLimited = { IsInRange scalar.i64 };

    fn is_limited(&self) -> bool {
        let _number = *self;
        true
    }
}

impl Limited for u16 {
    ghost IsLimited = { IsInRange scalar.u16 };

    fn is_limited(&self) -> bool {
        let _number = *self;
        true
    }
}

impl Limited for u32 {
    ghost IsLimited = { IsInRange scalar.u32 };

    fn is_limited(&self) -> bool {
        let _number = *self;
        true
    }
}

impl Limited for u64 {
    ghost IsLimited = { IsInRange scalar.u64 };

    fn is_limited(&self) -> bool {
        let _number = *self;
        true
    }
}

impl Limited for bool {
    ghost IsLimited = { IsInRange scalar.truth };

    fn is_limited(&self) -> bool {
        true
    }
}

impl Limited for NodeId {
    ghost IsLimited = { IsLimitedUuid };

    fn is_limited(&self) -> bool {
        let (_most, _least) = (self.most, self.least);
        true
    }
}

impl Limited for Stamp {
    ghost IsLimited = { IsLimitedStamp };

    fn is_limited(&self) -> bool {
        let (_millis, _nanos) = (self.millis, self.nanos);
        true
    }
}

impl Limited for Text {
    ghost IsLimited = { IsLimitedText };

    fn is_limited(&self) -> bool {
        are_countable(self.as_str().as_bytes())
    }
}

impl Limited for Octets {
    ghost IsLimited = { AreCountable };

    fn is_limited(&self) -> bool {
        are_countable(self.as_slice())
    }
}

impl Limited for Dec {
    ghost IsLimited = { IsLimitedDecimal };

    fn is_limited(&self) -> bool {
        let _scale = self.scale;
        self.bytes.is_limited()
    }
}

impl<T: Limited> Limited for Option<T> {
    ghost IsLimited = { IfThere T.IsLimited };

    fn is_limited(&self) -> bool {
        match self {
            None => true,
            Some(part) => part.is_limited(),
        }
    }
}

/// Whether an Int32 counts the bytes.
fn are_countable(bytes: &[u8]) -> bool
    ensures { IsTrue result ↔ AreCountable bytes.now }
{
    bytes.len() <= LONGEST
}

/// Whether an Int32 counts an object's fields, and all of the object but these keeps to the limits.
pub(crate) fn is_limited_head<V>(object: &Record<V>) -> bool
    ensures { IsTrue result ↔ ((length object.now.fields < 2 ^ 31) × IsLimitedHead object.now) }
{
    let (bits, type_id) = (object.bits, object.type_id);
    let fields = object.fields.as_slice().len();
    if kept_flags(bits) != bits {
        return false;
    }
    if type_id == 0 {
        return false;
    }
    if fields > LONGEST {
        return false;
    }
    is_limited_shape(&object.shape, fields)
}

/// Whether a shape keeps to the limits and is that of this many fields.
fn is_limited_shape(shape: &Shape, fields: usize) -> bool
    requires { fields < 2 ^ 31 }
    ensures { IsTrue result ↔ IsLimitedShape fields shape.now }
{
    match shape {
        Shape::Named(ids) => are_ids(ids.as_slice(), fields),
        Shape::Compact(schema) => is_schema(schema, fields),
    }
}

/// Whether these are identifiers of this many fields.
fn are_ids(ids: &[i32], fields: usize) -> bool
    requires { fields < 2 ^ 31 }
    ensures { IsTrue result ↔ (AllByRecursion (IsInRange scalar.i32) ids.now × (length ids.now ≡ fields)) }
{
    if ids.len() != fields {
        return false;
    }
    are_limited(ids)
}

/// Whether a schema may have this many fields.
fn is_schema(schema: &i32, fields: usize) -> bool
    ensures { IsTrue result ↔ (IsInRange scalar.i32 schema.now × (0 < fields)) }
{
    if fields == 0 {
        return false;
    }
    schema.is_limited()
}

/// Whether both parts keep to the limits.
pub(crate) fn both_limited<A: Limited, B: Limited>(first: &A, second: &B) -> bool
    ensures { IsTrue result ↔ (A.IsLimited first.now × B.IsLimited second.now) }
{
    first.is_limited() && second.is_limited()
}

/// Whether an Int32 counts the items and each keeps to the limits.
pub(crate) fn are_limited<T: Limited>(items: &[T]) -> bool
    ensures { IsTrue result ↔ ((length items.now < 2 ^ 31) × AllByRecursion T.IsLimited items.now) }
{
    if items.len() > LONGEST {
        return false;
    }
    for item in items {
        if !item.is_limited() {
            return false;
        }
    }
    true
}
