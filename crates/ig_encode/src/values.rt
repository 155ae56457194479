//! Outputs that take values.

ghost use Rattle.std.specs.Prelude.{◌≡◌};
ghost use Rattle.ig_value.specs.Canon.{Canon};

use crate::fill_walk::fill_value;
use crate::measure::Measure;
use crate::measure_walk::measure_value;
use crate::output::Output;
use crate::window::Window;
use ig_value::Value;

/// An output that takes values by their canonical form. Putting one takes no memory, and recurses
/// as deep as its tree.
pub trait ValueOutput: Output {
    /// Takes the canonical form of the value.
    fn put_value(&mut self, into: &mut [u8], value: &Value)
        ensures { (self.new, into.new) ≡ Self.Output.after self.old into.old (Canon value.now) };
}

impl ValueOutput for Measure {
    fn put_value(&mut self, _into: &mut [u8], value: &Value) {
        measure_value(value, self);
    }
}

impl ValueOutput for Window {
    fn put_value(&mut self, into: &mut [u8], value: &Value) {
        fill_value(value, self, into);
    }
}
