//! Values and descriptions of types as text, and text as these.
//!
//! ```text
//! Map { kind: 1, pairs: [(Int(1), Str("a b"))] }        map:1[int:1=str:"a\x20b"]
//! ```
//!
//! Each value has one text, and reading accepts exactly the texts of values that keep to the limits.
//! `TextOf` in `specs/TextOf.antt` is the text of a value, and `text_at` in `specs/ReadText.antt` reads
//! one from a list of bytes. That they agree is the contract of [`one_text`].
#![tactic(auto)]

mod description;
mod fault;
mod laws;
mod parts;
mod put;
mod put_description;
mod read;
mod row;
mod values;
mod words;
mod write;

pub use fault::{ReadError, TextFault};
pub use laws::{one_description, one_text};
pub use parts::{LONGEST, ReadPart, counted, items};
pub use put::{PutText, put_items, put_quoted};
pub use read::{after, mark, natural, signed};
pub use row::Row;
pub use values::read_value;
pub use write::write_value;
