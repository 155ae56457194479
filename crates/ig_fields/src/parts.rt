//! Fields that are put together of others.

ghost use Rattle.std.specs.Prelude.{[], Ok, refl};
ghost use Rattle.ig_fields.specs.Format.{nothing, both, choice, unless_null};
ghost use Rattle.ig_fields.specs.ReadingFields.{both_of, choice_of, mapped_of, unless_null_of, fields_of};
ghost use Rattle.ig_fields.specs.FieldBytes.{both_bytes, choice_bytes, unless_null_bytes, fields_bytes};
ghost use Rattle.ig_fields.specs.Views.{same, both_view, both_as, both_written, either_of, side_of, either_view, side_fields, choice_as, choice_written, unless_view, unless_null_as, unless_null_written};

use crate::either::Either;
use crate::format::FieldFormat;
use crate::objects::is_null;
use ig_encode::{Output, ValueOutput, put_byte};
use ig_value::{Code, Value};
use ig_wire::{ReadError, Stop};
use std::alloc::Global;
use std::marker::PhantomData;

/// No fields.
impl FieldFormat for () {
    type Item = ();

    ghost format = { nothing };

    ghost view = { same };

    ghost fields = { same };

    ghost reads = { λ s. Ok (tt, s) };

    ghost bytes = { λ _. [] };

    fn read(_alloc: Global, input: &[u8]) -> Result<((), &[u8]), ReadError> {
        Ok(((), input))
    }

    fn put<S: ValueOutput>(_item: &(), _out: &mut S, _into: &mut [u8]) {}

    ghost reads_as_format = { λ _. refl };

    ghost writes_as_format = { λ _. refl };
}

/// The first, and then the second.
impl<F: FieldFormat, G: FieldFormat> FieldFormat for (F, G) {
    type Item = (F::Item, G::Item);

    ghost format = { both F.format G.format };

    ghost view = { both_view F.view G.view };

    ghost fields = { both_view F.fields G.fields };

    ghost reads = { both_of F.reads G.reads };

    ghost bytes = { both_bytes F.bytes G.bytes };

    fn read(alloc: Global, input: &[u8]) -> Result<((F::Item, G::Item), &[u8]), ReadError> {
        let (first, rest) = F::read(alloc, input)?;
        let (second, rest) = G::read(alloc, rest)?;
        Ok(((first, second), rest))
    }

    fn put<S: ValueOutput>(item: &(F::Item, G::Item), out: &mut S, into: &mut [u8]) {
        F::put(&item.0, out, into);
        G::put(&item.1, out, into);
    }

    ghost reads_as_format = { both_as F.view G.view G.reads (fields_of G.format) F.reads (fields_of F.format) F.reads_as_format G.reads_as_format };

    ghost writes_as_format = { both_written F.fields G.fields F.bytes (fields_bytes F.format) G.bytes (fields_bytes G.format) F.writes_as_format G.writes_as_format };
}

/// Byte 0 and the first, or byte 1 and the second.
impl<F: FieldFormat, G: FieldFormat> FieldFormat for Either<F, G> {
    type Item = Either<F::Item, G::Item>;

    ghost format = { choice F.format G.format };

    ghost view = { either_view F.view G.view };

    ghost fields = { side_fields F.fields G.fields };

    ghost reads = { λ s. mapped_of either_of (choice_of F.reads G.reads s) };

    ghost bytes = { λ x. choice_bytes F.bytes G.bytes (side_of x) };

    fn read(alloc: Global, input: &[u8]) -> Result<(Either<F::Item, G::Item>, &[u8]), ReadError> {
        let left = input.len();
        match input.split_first() {
            Some((0, rest)) => {
                let (item, rest) = F::read(alloc, rest)?;
                Ok((Either::First(item), rest))
            }
            Some((1, rest)) => {
                let (item, rest) = G::read(alloc, rest)?;
                Ok((Either::Second(item), rest))
            }
            _ => Err(ReadError::Stopped(Stop { left })),
        }
    }

    fn put<S: ValueOutput>(item: &Either<F::Item, G::Item>, out: &mut S, into: &mut [u8]) {
        match item {
            Either::First(item) => {
                put_byte(0, out, into);
                F::put(item, out, into);
            }
            Either::Second(item) => {
                put_byte(1, out, into);
                G::put(item, out, into);
            }
        }
    }

    ghost reads_as_format = { choice_as F.view G.view F.reads (fields_of F.format) G.reads (fields_of G.format) F.reads_as_format G.reads_as_format };

    ghost writes_as_format = { choice_written F.fields G.fields F.bytes (fields_bytes F.format) G.bytes (fields_bytes G.format) F.writes_as_format G.writes_as_format };
}

/// The format of a data object and, unless it is null, F.
pub struct UnlessNull<F> {
    format: PhantomData<F>,
}

impl<F: FieldFormat> FieldFormat for UnlessNull<F> {
    type Item = Option<(Value, F::Item)>;

    ghost format = { unless_null F.format };

    ghost view = { unless_view F.view };

    ghost fields = { unless_view F.fields };

    ghost reads = { unless_null_of F.reads };

    ghost bytes = { unless_null_bytes F.bytes };

    fn read(alloc: Global, input: &[u8]) -> Result<(Option<(Value, F::Item)>, &[u8]), ReadError> {
        let (value, rest) = <Value as FieldFormat>::read(alloc, input)?;
        if is_null(&value) {
            return Ok((None, rest));
        }
        let (item, rest) = F::read(alloc, rest)?;
        Ok((Some((value, item)), rest))
    }

    fn put<S: ValueOutput>(item: &Option<(Value, F::Item)>, out: &mut S, into: &mut [u8]) {
        match item {
            None => put_byte(Code::Null.byte(), out, into),
            Some((value, item)) => {
                out.put_value(into, value);
                F::put(item, out, into);
            }
        }
    }

    ghost reads_as_format = { unless_null_as F.view F.reads (fields_of F.format) F.reads_as_format };

    ghost writes_as_format = { unless_null_written F.fields F.bytes (fields_bytes F.format) F.writes_as_format };
}
