//! The description of a type as structs, the test of its order, and its copy.

ghost use Rattle.std.specs.Prelude.{◌≡◌, ◌↔◌, IsTrue, IfOk};

use crate::merging::with_copies;
use crate::order::is_ascending;
use ig_base::{Items, NoMemory, Text};
use std::alloc::Global;

/// A field of a type.
#[derive(Debug, Drop)]
pub struct FieldMeta {
    pub name: Text,
    /// The type code of the field's values.
    pub kind: i32,
    /// The field's identifier, which schemas and affinity pairs cite.
    pub id: i32,
}

/// A literal of an enum.
#[derive(Debug, Drop)]
pub struct Literal {
    pub name: Text,
    pub ordinal: i32,
}

/// A schema of a type: the fields that an object with this schema has.
#[derive(Debug, Drop)]
pub struct SchemaMeta {
    pub id: i32,
    /// The identifiers of the fields, in the order in which the object has them.
    pub ids: Items<i32>,
}

/// The description of a type.
///
/// Every call that takes a description requires that it is in order (`IsInOrder`), and every call that
/// returns one ensures it: fields and literals are strictly ascending by the UTF-8 bytes of their
/// names, schemas by their signed identifiers, and only an enum has literals. Type identifier 0, an
/// empty name, two fields with one identifier, and a schema identifier that is not the hash of its
/// list are accepted.
#[derive(Debug, Drop)]
pub struct TypeMeta {
    pub type_id: i32,
    pub name: Text,
    /// The affinity key: the name of the field whose value decides on which node an object lies.
    pub affinity: Option<Text>,
    pub is_enum: bool,
    pub fields: Items<FieldMeta>,
    pub literals: Items<Literal>,
    pub schemas: Items<SchemaMeta>,
}

/// A copy of the text.
pub(crate) fn copy_text(alloc: Global, text: &Text) -> Result<Text, NoMemory>
    ensures { IfOk result (λ copy. copy ≡ text.now) }
{
    Ok(Text::new(String::from_str(alloc, text.as_str())?))
}

impl TypeMeta {
    ghost use Rattle.ig_types.specs.IsInOrder.{IsInOrder};

    /// Whether the description is in order, as every call that takes one requires.
    pub fn is_in_order(&self) -> bool
        ensures { IsTrue result ↔ IsInOrder self.now }
    {
        if !is_ascending(self.fields.as_slice()) {
            return false;
        }
        if !is_ascending(self.literals.as_slice()) {
            return false;
        }
        if !is_ascending(self.schemas.as_slice()) {
            return false;
        }
        self.is_enum || self.literals.as_slice().is_empty()
    }

    /// A copy of the description.
    ///
    /// # Errors
    ///
    /// [`NoMemory`] if there is no memory for the copy.
    pub fn copy(&self, alloc: Global) -> Result<TypeMeta, NoMemory>
        ensures { IfOk result (λ copy. copy ≡ self.now) }
    {
        let affinity = match &self.affinity {
            Some(key) => Some(copy_text(alloc, key)?),
            None => None,
        };
        Ok(TypeMeta {
            type_id: self.type_id,
            name: copy_text(alloc, &self.name)?,
            affinity,
            is_enum: self.is_enum,
            fields: with_copies(alloc, Vec::new(alloc), self.fields.as_slice())?,
            literals: with_copies(alloc, Vec::new(alloc), self.literals.as_slice())?,
            schemas: with_copies(alloc, Vec::new(alloc), self.schemas.as_slice())?,
        })
    }
}
