//! How deep a tree is.

ghost use Rattle.std.specs.Prelude.{◌≡◌, ◌+◌, ◌<◌, ◌^◌, map};
ghost use Rattle.ig_value.specs.Limits.{Depth, greatest, pair_depth};

use crate::value::Value;

impl Value {
    /// The depth of the tree: 1, or one more than the greatest depth of a value inside. It visits
    /// the whole tree, by a recursion as deep as the tree: ask [`Value::keeps_to_limits`] first
    /// about a tree of unknown depth.
    #[cycle(depth)]
    pub fn depth(&self) -> u32
        requires { Depth self.now < 2 ^ 32 }
        ensures { result ≡ Depth self.now }
    {
        match self {
            Value::Objects { items, .. } => 1 + greatest_depth(items.as_slice()),
            Value::Collection { items, .. } => 1 + greatest_depth(items.as_slice()),
            Value::Map { pairs, .. } => 1 + greatest_pair_depth(pairs.as_slice()),
            Value::Enums { items, .. } => 1 + greatest_depth(items.as_slice()),
            Value::Object(object) => 1 + greatest_depth(object.get().fields.as_slice()),
            _ => 1,
        }
    }
}

/// The greatest depth of the values, or 0 without any.
#[cycle(depth)]
fn greatest_depth(values: &[Value]) -> u32
    requires { greatest (map Depth values.now) + 1 < 2 ^ 32 }
    ensures { result ≡ greatest (map Depth values.now) }
{
    let mut greatest = 0;
    for value in values {
        let depth = value.depth();
        if greatest < depth {
            greatest = depth;
        }
    }
    greatest
}

/// The greatest depth of the values in the pairs, or 0 without any.
#[cycle(depth)]
fn greatest_pair_depth(pairs: &[(Value, Value)]) -> u32
    requires { greatest (map pair_depth pairs.now) + 1 < 2 ^ 32 }
    ensures { result ≡ greatest (map pair_depth pairs.now) }
{
    let mut greatest = 0;
    for pair in pairs {
        let (first, second) = (pair.0.depth(), pair.1.depth());
        if greatest < first {
            greatest = first;
        }
        if greatest < second {
            greatest = second;
        }
    }
    greatest
}
