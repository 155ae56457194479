//! How far a value was shown.

/// A step from a value to one of those inside it. The fields of an object, the items of a list, and
/// the keys and values of a map, by turns, are counted from 0. Past the last of them one more step
/// may go to the field whose entry in a footer is next, or to an item of an array whose items may
/// be null.
#[derive(Clone, Copy, Debug, PartialEq, Eq)]
pub(crate) struct Step {
    pub(crate) index: usize,
    /// The offset of the value inside, or of the item, from the first byte of the one around it.
    pub(crate) before: u64,
}

/// The deepest path that a mark keeps.
pub(crate) const DEEPEST: usize = 32;

/// An offset in the canonical form of a value, with the path to it through the values inside, so
/// that writing goes on there without a walk over what stands before.
#[derive(Clone, Copy, Debug, PartialEq, Eq)]
pub struct Mark {
    pub(crate) offset: u64,
    pub(crate) depth: usize,
    pub(crate) steps: [Step; DEEPEST],
}

impl Mark {
    ghost use Rattle.std.specs.Prelude.{◌≡◌};
    ghost use Rattle.ig_value.specs.declared.value.Value.{Value};
    ghost use Rattle.ig_encode.specs.Marks.{IsMarkOf};

    /// The mark of a value of which nothing was shown.
    pub fn start() -> Mark
        ensures offset { result.offset ≡ 0 }
        ensures any { (value : Value) → IsMarkOf value result }
    {
        Mark {
            offset: 0,
            depth: 0,
            steps: [Step {
                index: 0,
                before: 0,
            }; DEEPEST],
        }
    }

    /// How many bytes of the value were shown.
    pub fn offset(&self) -> u64
        ensures { result ≡ self.now.offset }
    {
        self.offset
    }
}
