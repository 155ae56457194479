//! The header of a complex object, and the form of its footer.

/// The flag of an object of a type that the user declared.
pub const USER_TYPE: u16 = 1;
/// The flag of an object with fields, and so with a schema and a footer.
pub const HAS_SCHEMA: u16 = 2;
/// The flag of an object with raw data, which this project refuses.
pub const RAW_DATA: u16 = 4;
/// The flag of a footer whose offsets are one byte wide.
pub const ONE_BYTE_OFFSETS: u16 = 8;
/// The flag of a footer whose offsets are two bytes wide.
pub const TWO_BYTE_OFFSETS: u16 = 16;
/// The flag of a compact footer: offsets alone, without the identifiers of the fields.
pub const COMPACT_FOOTER: u16 = 32;

/// The header of a complex object: what its first 24 bytes say after the code byte. The fields stand
/// in this order, each number little-endian. Offsets and the length count from the code byte.
#[derive(Clone, Copy, Debug, PartialEq, Eq)]
pub struct Header {
    /// The version of the layout.
    pub version: u8,
    /// The flags.
    pub flags: u16,
    /// The identifier of the type.
    pub type_id: i32,
    /// The hash of the fields' bytes.
    pub hash: i32,
    /// The length of the whole object in bytes.
    pub length: i32,
    /// The identifier of the schema.
    pub schema: i32,
    /// The offset of the footer, where the fields end.
    pub schema_at: i32,
}

/// The form of an object's footer, which has one entry a field.
#[derive(Clone, Copy, Debug, PartialEq, Eq)]
pub struct Footer {
    /// Whether an entry is an offset alone; else the field's identifier stands before it.
    pub compact: bool,
    /// The bytes of an offset: 1, 2 or 4.
    pub width: u8,
}
