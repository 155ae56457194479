//! Comparing and copying parts that hold no value.

ghost use Rattle.std.specs.Prelude.{◌≡◌, ◌↔◌, IsTrue, IfOk};

use crate::object::Shape;
use crate::value::{Dec, Stamp};
use ig_base::{Items, NoMemory, NodeId, Octets, Text};
use std::alloc::Global;

/// A part that holds no value, and can be compared.
pub(crate) trait Same {
    /// Whether both are equal.
    fn same(&self, other: &Self) -> bool
        ensures { IsTrue result ↔ (self.now ≡ other.now) };
}

/// A part that owns memory and holds no value.
pub(crate) trait Leaf: Same + Drop + Sized {
    /// An equal part.
    fn copy(&self, alloc: Global) -> Result<Self, NoMemory>
        ensures { IfOk result (λ made. made ≡ self.now) };
}

impl Same for i8 {
    fn same(&self, other: &i8) -> bool {
        self == other
    }
}

impl Same for i16 {
    fn same(&self, other: &i16) -> bool {
        self == other
    }
}

impl Same for i32 {
    fn same(&self, other: &i32) -> bool {
        self == other
    }
}

impl Same for i64 {
    fn same(&self, other: &i64) -> bool {
        self == other
    }
}

impl Same for u16 {
    fn same(&self, other: &u16) -> bool {
        self == other
    }
}

impl Same for u32 {
    fn same(&self, other: &u32) -> bool {
        self == other
    }
}

impl Same for u64 {
    fn same(&self, other: &u64) -> bool {
        self == other
    }
}

impl Same for bool {
    fn same(&self, other: &bool) -> bool {
        self == other
    }
}

impl Same for NodeId {
    fn same(&self, other: &NodeId) -> bool {
        self == other
    }
}

impl Same for Stamp {
    fn same(&self, other: &Stamp) -> bool {
        self == other
    }
}

impl Same for Text {
    fn same(&self, other: &Text) -> bool {
        self.as_str() == other.as_str()
    }
}

impl Same for Octets {
    fn same(&self, other: &Octets) -> bool {
        self.as_slice() == other.as_slice()
    }
}

impl Same for Dec {
    fn same(&self, other: &Dec) -> bool {
        self.scale == other.scale && self.bytes.same(&other.bytes)
    }
}

impl Same for Shape {
    fn same(&self, other: &Shape) -> bool {
        match (self, other) {
            (Shape::Named(a), Shape::Named(b)) => same_items(a.as_slice(), b.as_slice()),
            (Shape::Compact(a), Shape::Compact(b)) => a == b,
            _ => false,
        }
    }
}

impl<T: Same> Same for Option<T> {
    fn same(&self, other: &Option<T>) -> bool {
        match (self, other) {
            (None, None) => true,
            (Some(a), Some(b)) => a.same(b),
            _ => false,
        }
    }
}

impl Leaf for Text {
    fn copy(&self, alloc: Global) -> Result<Text, NoMemory> {
        Ok(Text::new(String::from_str(alloc, self.as_str())?))
    }
}

impl Leaf for Octets {
    fn copy(&self, alloc: Global) -> Result<Octets, NoMemory> {
        Ok(Octets::new(Vec::from_slice(alloc, self.as_slice())?))
    }
}

impl Leaf for Dec {
    fn copy(&self, alloc: Global) -> Result<Dec, NoMemory> {
        Ok(Dec {
            scale: self.scale,
            bytes: self.bytes.copy(alloc)?,
        })
    }
}

impl Leaf for Shape {
    fn copy(&self, alloc: Global) -> Result<Shape, NoMemory> {
        Ok(match self {
            Shape::Named(ids) => Shape::Named(copy_plain(alloc, ids.as_slice())?),
            Shape::Compact(schema) => Shape::Compact(*schema),
        })
    }
}

impl<T: Leaf> Leaf for Option<T> {
    fn copy(&self, alloc: Global) -> Result<Option<T>, NoMemory> {
        match self {
            None => Ok(None),
            Some(x) => Ok(Some(x.copy(alloc)?)),
        }
    }
}

/// Whether both lists have equal items in the same order.
pub(crate) fn same_items<T: Same>(a: &[T], b: &[T]) -> bool
    ensures { IsTrue result ↔ (a.now ≡ b.now) }
{
    if a.len() != b.len() {
        return false;
    }
    for (x, y) in a.iter().zip(b) {
        if !x.same(y) {
            return false;
        }
    }
    true
}

/// A list of equal leaves.
pub(crate) fn copy_leaves<T: Leaf>(alloc: Global, items: &[T]) -> Result<Items<T>, NoMemory>
    ensures { IfOk result (λ made. made ≡ items.now) }
{
    let mut made = Vec::with_capacity(alloc, items.len())?;
    for item in items {
        made.push(item.copy(alloc)?)?;
    }
    Ok(Items::new(made))
}

/// A list of the same items.
pub(crate) fn copy_plain<T: Copy + Drop>(alloc: Global, items: &[T]) -> Result<Items<T>, NoMemory>
    ensures { IfOk result (λ made. made ≡ items.now) }
{
    Ok(Items::new(Vec::from_slice(alloc, items)?))
}
