//! Numbers and truth values as fields.

ghost use Rattle.std.specs.Prelude.{[], ◌∷◌, refl};
ghost use Rattle.ig_value.specs.Part.{i32, i64, truth};
ghost use Rattle.ig_value.specs.Reading.{scalar_at};
ghost use Rattle.ig_value.specs.Spells.{scalar_bytes};
ghost use Rattle.ig_wire.specs.Fields.{placed};
ghost use Rattle.ig_fields.specs.Format.{byte, scalar, within};
ghost use Rattle.ig_fields.specs.SpellsFields.{is_within};
ghost use Rattle.ig_fields.specs.ReadingFields.{byte_field, int_field, tested_of};
ghost use Rattle.ig_fields.specs.Views.{same, mapped_same};

use crate::format::FieldFormat;
use ig_encode::{ValueOutput, put_byte, put_i32, put_i64};
use ig_wire::{ReadError, Stop, i32_of, i64_of};
use std::alloc::Global;

impl FieldFormat for u8 {
    type Item = u8;

    ghost format = { byte };

    ghost view = { same };

    ghost fields = { same };

    ghost reads = { byte_field };

    ghost bytes = { λ b. b ∷ [] };

    fn read(_alloc: Global, input: &[u8]) -> Result<(u8, &[u8]), ReadError> {
        match input.split_first() {
            Some((byte, rest)) => Ok((*byte, rest)),
            None => Err(ReadError::Stopped(Stop { left: 0 })),
        }
    }

    fn put<S: ValueOutput>(item: &u8, out: &mut S, into: &mut [u8]) {
        put_byte(*item, out, into);
    }

    ghost reads_as_format = { λ s. mapped_same (byte_field s) };

    ghost writes_as_format = { λ _. refl };
}

impl FieldFormat for i32 {
    type Item = i32;

    ghost format = { scalar i32 };

    ghost view = { same };

    ghost fields = { same };

    ghost reads = { int_field };

    ghost bytes = { scalar_bytes i32 };

    fn read(_alloc: Global, input: &[u8]) -> Result<(i32, &[u8]), ReadError> {
        Ok(i32_of(input)?)
    }

    fn put<S: ValueOutput>(item: &i32, out: &mut S, into: &mut [u8]) {
        put_i32(*item, out, into);
    }

    ghost reads_as_format = { λ s. mapped_same (int_field s) };

    ghost writes_as_format = { λ _. refl };
}

impl FieldFormat for i64 {
    type Item = i64;

    ghost format = { scalar i64 };

    ghost view = { same };

    ghost fields = { same };

    ghost reads = { λ s. placed (scalar_at i64 s) };

    ghost bytes = { scalar_bytes i64 };

    fn read(_alloc: Global, input: &[u8]) -> Result<(i64, &[u8]), ReadError> {
        Ok(i64_of(input)?)
    }

    fn put<S: ValueOutput>(item: &i64, out: &mut S, into: &mut [u8]) {
        put_i64(*item, out, into);
    }

    ghost reads_as_format = { λ s. mapped_same (placed (scalar_at i64 s)) };

    ghost writes_as_format = { λ _. refl };
}

impl FieldFormat for bool {
    type Item = bool;

    ghost format = { scalar truth };

    ghost view = { same };

    ghost fields = { same };

    ghost reads = { λ s. placed (scalar_at truth s) };

    ghost bytes = { scalar_bytes truth };

    fn read(_alloc: Global, input: &[u8]) -> Result<(bool, &[u8]), ReadError> {
        let left = input.len();
        match input.split_first() {
            Some((0, rest)) => Ok((false, rest)),
            Some((1, rest)) => Ok((true, rest)),
            _ => Err(ReadError::Stopped(Stop { left })),
        }
    }

    fn put<S: ValueOutput>(item: &bool, out: &mut S, into: &mut [u8]) {
        put_byte(if *item { 1 } else { 0 }, out, into);
    }

    ghost reads_as_format = { λ s. mapped_same (placed (scalar_at truth s)) };

    ghost writes_as_format = { λ _. refl };
}

/// The format of an Int32 from 0 to MOST.
pub struct Within<const MOST: u32>;

impl<const MOST: u32> FieldFormat for Within<MOST> {
    type Item = i32;

    ghost format = { within MOST };

    ghost view = { same };

    ghost fields = { same };

    ghost reads = { tested_of int_field (is_within MOST) };

    ghost bytes = { scalar_bytes i32 };

    fn read(_alloc: Global, input: &[u8]) -> Result<(i32, &[u8]), ReadError> {
        let left = input.len();
        let (number, rest) = i32_of(input)?;
        match u32::try_from(number) {
            Ok(natural) if natural <= MOST => Ok((number, rest)),
            _ => Err(ReadError::Stopped(Stop { left })),
        }
    }

    fn put<S: ValueOutput>(item: &i32, out: &mut S, into: &mut [u8]) {
        put_i32(*item, out, into);
    }

    ghost reads_as_format = { λ s. mapped_same (tested_of int_field (is_within MOST) s) };

    ghost writes_as_format = { λ _. refl };
}
