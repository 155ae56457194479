//! Descriptions of types as fields.

ghost use Rattle.std.specs.Prelude.{◌≡◌};
ghost use Rattle.ig_meta.specs.TypeFields.{type_format, type_of_fields, fields_of_type};
ghost use Rattle.ig_meta.specs.TypeViews.{type_from, type_reading, type_bytes, type_as, type_written};

use crate::distinct::Distinct;
use ig_base::{Items, Text};
use ig_encode::{ValueOutput, put_byte, put_i32};
use ig_fields::{Either, FieldFormat};
use ig_types::{FieldMeta, Literal, SchemaMeta, TypeMeta};
use ig_wire::ReadError;
use std::alloc::Global;

/// The byte of a type that isn't an enum.
const PLAIN: u8 = 0;

/// The byte of an enum, before its literals.
const ENUM: u8 = 1;

/// The identifier of a type, its name, and the name of its affinity key.
type Head = (i32, (Text, Option<Text>));

/// The literals of an enum, or nothing.
type EnumFormat = Either<(), Distinct<Literal>>;

/// The format of a description as those of its parts.
type Parts = (
    Head,
    (Distinct<FieldMeta>, (EnumFormat, Distinct<SchemaMeta>)),
);

/// The format of a description.
pub(crate) struct TypeFields;

/// What the parts hold.
type PartsRead = (
    Head,
    (
        Items<FieldMeta>,
        (Either<(), Items<Literal>>, Items<SchemaMeta>),
    ),
);

/// The description of these parts.
fn type_from(alloc: Global, parts: PartsRead) -> TypeMeta
    ensures { result ≡ type_from parts }
{
    let ((type_id, (name, affinity)), (fields, (literals, schemas))) = parts;
    let (is_enum, literals) = match literals {
        Either::First(()) => (false, Items::new(Vec::new(alloc))),
        Either::Second(literals) => (true, literals),
    };
    TypeMeta {
        type_id,
        name,
        affinity,
        is_enum,
        fields,
        literals,
        schemas,
    }
}

impl FieldFormat for TypeFields {
    type Item = TypeMeta;

    ghost format = { type_format };

    ghost view = { type_of_fields };

    ghost fields = { fields_of_type };

    ghost reads = { type_reading };

    ghost bytes = { type_bytes };

    fn read(alloc: Global, input: &[u8]) -> Result<(TypeMeta, &[u8]), ReadError> {
        let (parts, rest) = <Parts as FieldFormat>::read(alloc, input)?;
        Ok((type_from(alloc, parts), rest))
    }

    fn put<S: ValueOutput>(item: &TypeMeta, out: &mut S, into: &mut [u8]) {
        put_i32(item.type_id, out, into);
        <Text as FieldFormat>::put(&item.name, out, into);
        <Option<Text> as FieldFormat>::put(&item.affinity, out, into);
        <Distinct<FieldMeta> as FieldFormat>::put(&item.fields, out, into);
        if item.is_enum {
            put_byte(ENUM, out, into);
            <Distinct<Literal> as FieldFormat>::put(&item.literals, out, into);
        } else {
            put_byte(PLAIN, out, into);
        }
        <Distinct<SchemaMeta> as FieldFormat>::put(&item.schemas, out, into);
    }

    ghost reads_as_format = { type_as };

    ghost writes_as_format = { type_written };
}
