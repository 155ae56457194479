//! Formats of fields as types, which are read and written.

ghost use Rattle.std.specs.Prelude.{◌≡◌, ℕ, List};
ghost use Rattle.ig_wire.specs.Fields.{Field, whole};
ghost use Rattle.ig_wire.specs.ReadAnswers.{ReadAnswers};
ghost use Rattle.ig_fields.specs.Format.{Format, Fields};
ghost use Rattle.ig_fields.specs.ReadingFields.{fields_of};
ghost use Rattle.ig_fields.specs.FieldBytes.{fields_bytes};
ghost use Rattle.ig_fields.specs.Views.{ReadsAs, WritesAs};

use ig_encode::{Output, ValueOutput};
use ig_wire::{ReadError, Stop};
use std::alloc::Global;

/// A format of fields. Each crate may have formats of its own, beside those of this one:
///
/// | The type | The fields | Their item |
/// |---|---|---|
/// | `()` | none | `()` |
/// | `u8` | a Byte | `u8` |
/// | `bool` | a Byte, 0 or 1 | `bool` |
/// | `i32`, `i64` | an Int32, an Int64 | `i32`, `i64` |
/// | `Within<N>` | an Int32 from 0 to N | `i32` |
/// | `Text` | a String, the data object of code 9 | `Text` |
/// | `Option<Text>` | a String or null | `Option<Text>` |
/// | `NodeId` | a UUID, the data object of code 10 | `NodeId` |
/// | `Value` | a data object | `Value` |
/// | `(F, G)` | F and then G | a pair of their items |
/// | `Either<F, G>` | byte 0 and F, or byte 1 and G | one of their items |
/// | `UnlessNull<F>` | a data object and, unless it is null, F | an `Option` of both |
/// | `Items<F>` | an Int32 count, and as many of F | a list of items |
pub trait FieldFormat {
    /// What the fields hold.
    type Item: Drop;

    /// The format.
    ghost format: { Format };

    /// What fields of the format hold, as the program has it.
    ghost view: { Fields format → Self.Item };

    /// The fields that an item is written with.
    ghost fields: { Self.Item → Fields format };

    /// Reading them from a list of bytes.
    ghost reads: { List ℕ → Field Self.Item };

    /// Their bytes.
    ghost bytes: { Self.Item → List ℕ };

    /// What the fields hold that the bytes begin with, and the bytes after them.
    fn read(alloc: Global, input: &[u8]) -> Result<(Self::Item, &[u8]), ReadError>
        ensures { ReadAnswers (λ x. (x.0, x.1.now)) result (reads input.now) };

    /// Puts the bytes of the fields. Takes no memory.
    fn put<S: ValueOutput>(item: &Self::Item, out: &mut S, into: &mut [u8])
        ensures { (out.new, into.new) ≡ S.Output.after out.old into.old (bytes item.now) };

    ghost reads_as_format: { ReadsAs view reads (fields_of format) };

    ghost writes_as_format: { WritesAs fields bytes (fields_bytes format) };
}

/// What all of the bytes hold, as fields after which nothing may follow.
pub fn read_all<F: FieldFormat>(alloc: Global, bytes: &[u8]) -> Result<F::Item, ReadError>
    ensures { ReadAnswers (λ x. x) result (whole (F.reads bytes.now)) }
{
    let (item, rest) = F::read(alloc, bytes)?;
    if !rest.is_empty() {
        return Err(ReadError::Stopped(Stop { left: rest.len() }));
    }
    Ok(item)
}
