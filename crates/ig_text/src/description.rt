//! Reading the text of a description of a type.

ghost use Rattle.ig_text.specs.ReaderAnswers.{ReaderAnswers};
ghost use Rattle.ig_text.specs.DescriptionText as descriptions;

use crate::fault::ReadError;
use crate::parts::{ReadPart, items};
use crate::read::mark;
use ig_base::{Items, Text};
use ig_types::{FieldMeta, Literal, SchemaMeta, TypeMeta};
use std::alloc::Global;

impl ReadPart for FieldMeta {
    ghost reads = { descriptions.field_at };

    fn read(alloc: Global, text: &[u8]) -> Result<(FieldMeta, &[u8]), ReadError> {
        let (name, rest) = Text::read(alloc, text)?;
        let (_, rest) = mark(b'=', rest)?;
        let (kind, rest) = i32::read(alloc, rest)?;
        let (_, rest) = mark(b'/', rest)?;
        let (id, rest) = i32::read(alloc, rest)?;
        Ok((FieldMeta { name, kind, id }, rest))
    }
}

impl ReadPart for Literal {
    ghost reads = { descriptions.literal_at };

    fn read(alloc: Global, text: &[u8]) -> Result<(Literal, &[u8]), ReadError> {
        let (name, rest) = Text::read(alloc, text)?;
        let (_, rest) = mark(b'=', rest)?;
        let (ordinal, rest) = i32::read(alloc, rest)?;
        Ok((Literal { name, ordinal }, rest))
    }
}

impl ReadPart for SchemaMeta {
    ghost reads = { descriptions.schema_at };

    fn read(alloc: Global, text: &[u8]) -> Result<(SchemaMeta, &[u8]), ReadError> {
        let (id, rest) = i32::read(alloc, text)?;
        let (_, rest) = mark(b'=', rest)?;
        let (_, rest) = mark(b'[', rest)?;
        let (ids, rest) = items::<i32>(alloc, b']', rest)?;
        Ok((SchemaMeta { id, ids }, rest))
    }
}

/// Whether a type is an enum, and the bytes after it.
fn is_enum(text: &[u8]) -> Result<(bool, &[u8]), ReadError>
    ensures { ReaderAnswers (λ x. (x.0, x.1.now)) result (descriptions.enum_at text.now) }
{
    if let Some(rest) = text.strip_prefix(b"0") {
        return Ok((false, rest));
    }
    if let Some(rest) = text.strip_prefix(b"1") {
        return Ok((true, rest));
    }
    Err(ReadError::Bad { left: text.len() })
}

/// Parts between braces, and the bytes after them.
fn braced<T: ReadPart>(alloc: Global, text: &[u8]) -> Result<(Items<T>, &[u8]), ReadError>
    ensures { ReaderAnswers (λ x. (x.0, x.1.now)) result
        (descriptions.braced_at T.reads text.now) }
{
    let (_, rest) = mark(b'{', text)?;
    items::<T>(alloc, b'}', rest)
}

/// What stands before the lists of a description.
#[derive(Drop)]
struct Front {
    type_id: i32,
    name: Text,
    affinity: Option<Text>,
    is_enum: bool,
}

/// What stands before the lists, and the bytes after it.
fn head(alloc: Global, text: &[u8]) -> Result<(Front, &[u8]), ReadError>
    ensures { ReaderAnswers (λ x. ((x.0.type_id, (x.0.name, (x.0.affinity, x.0.is_enum))), x.1.now))
        result (descriptions.head_at text.now) }
{
    let (type_id, rest) = i32::read(alloc, text)?;
    let (_, rest) = mark(b':', rest)?;
    let (name, rest) = Text::read(alloc, rest)?;
    let (_, rest) = mark(b':', rest)?;
    let (affinity, rest) = <Option<Text>>::read(alloc, rest)?;
    let (_, rest) = mark(b':', rest)?;
    let (is_enum, rest) = is_enum(rest)?;
    let front = Front {
        type_id,
        name,
        affinity,
        is_enum,
    };
    Ok((front, rest))
}

impl ReadPart for TypeMeta {
    ghost reads = { descriptions.description_at };

    fn read(alloc: Global, text: &[u8]) -> Result<(TypeMeta, &[u8]), ReadError> {
        let left = text.len();
        let (meta, rest) = any_description(alloc, text)?;
        if !meta.is_in_order() {
            return Err(ReadError::Bad { left });
        }
        Ok((meta, rest))
    }
}

/// A description in any order, and the bytes after it.
fn any_description(alloc: Global, text: &[u8]) -> Result<(TypeMeta, &[u8]), ReadError>
    ensures { ReaderAnswers (λ x. (x.0, x.1.now)) result (descriptions.whole_at text.now) }
{
    let Some(rest) = text.strip_prefix(b"type:") else {
        return Err(ReadError::Bad { left: text.len() });
    };
    let (front, rest) = head(alloc, rest)?;
    let (fields, rest) = braced::<FieldMeta>(alloc, rest)?;
    let (literals, rest) = braced::<Literal>(alloc, rest)?;
    let (schemas, rest) = braced::<SchemaMeta>(alloc, rest)?;
    let meta = TypeMeta {
        type_id: front.type_id,
        name: front.name,
        affinity: front.affinity,
        is_enum: front.is_enum,
        fields,
        literals,
        schemas,
    };
    Ok((meta, rest))
}
