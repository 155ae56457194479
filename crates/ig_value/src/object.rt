//! Complex objects: a type, and fields.

use ig_base::Items;

/// How an object's fields are told apart.
#[derive(Debug, Drop)]
pub enum Shape {
    /// The identifier of each field, in order.
    Named(Items<i32>),
    /// The fields are those of the schema with this identifier, which is kept elsewhere.
    Compact(i32),
}

/// An object whose fields hold a `V` each. A [`crate::Value`] holds objects whose fields hold
/// values.
#[derive(Debug, Drop)]
pub struct Record<V> {
    /// Flag 1, of a user type, and the flags from 64 up. Others say how the object is encoded, and
    /// don't stand here: [`crate::kept_flags`].
    pub bits: u16,
    /// The identifier of the type; never 0.
    pub type_id: i32,
    /// As many identifiers as fields, or a schema and at least one field.
    pub shape: Shape,
    pub fields: Items<V>,
}
