//! What all crates share: little-endian numbers, hashes, frames, and small types such as [`Octets`].
//!
//! Every number of the protocol is little-endian. `get_i16` to `put_i64` read and write them. The files
//! of `specs/` define what contracts speak of: `LE`, the bytes of a number, lowest first; `Frame`, the
//! length of a body in four bytes and then the body; `Cut`, the frames that a stream consists of and
//! the rest after the last whole one; `Java`, `BytesHash` and `Fnv`, the hashes of names, of complex
//! objects and of their schemas; `header_of`, the header that an object begins with.
//!
//! Contracts see [`Text`], [`Octets`] and [`Items`] as lists, so a tree of them is plain data.
#![tactic(auto)]

mod boxed;
mod entry;
mod frames;
mod hashes;
mod header;
mod items;
mod memory;
mod nodes;
mod numbers;
mod objects;
mod octets;
mod text;

pub use boxed::Boxed;
pub use entry::Entry;
pub use frames::{frame_is_read, frames_follow, one_cut};
pub use hashes::{NotAscii, bytes_hash, hash_composes, name_id, schema_id, text_hash};
pub use header::{
    COMPACT_FOOTER, Footer, HAS_SCHEMA, Header, ONE_BYTE_OFFSETS, RAW_DATA, TWO_BYTE_OFFSETS,
    USER_TYPE,
};
pub use items::Items;
pub use memory::{NoMemory, NoRoom};
pub use nodes::{NodeId, Topology};
pub use numbers::{get_i16, get_i32, get_i64, put_i16, put_i32, put_i64};
pub use objects::{footer_of, read_header};
pub use octets::Octets;
pub use text::Text;

#[cfg(test)]
mod tests;
