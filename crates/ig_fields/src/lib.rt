//! The fields of messages: their formats, and reading and writing them.
//!
//! A format is said once, in `specs/Format.antt`: which bytes spell its fields, where bytes stop being
//! them, reading from left to right, and the bytes that are written; [`fields_agree`] and
//! [`messages_agree`] say that these agree for every format. At run time a format is a type:
//! [`FieldFormat`] reads it from bytes and puts its bytes to an output. A [`Message`] is written once,
//! and so has its length, its bytes and any part of them.
//!
//! The rows of tables of requests and results, and what they mean to a reader and to a writer, stand here
//! too (`specs/Ask.antt`), since several crates have such tables.
#![tactic(auto)]

mod answers;
mod either;
mod format;
mod frame;
mod laws;
mod list;
mod message;
mod numbers;
mod objects;
mod parts;

pub use answers::{ask_fields, read_asked, read_shown, result_fields};
pub use either::Either;
pub use format::{FieldFormat, read_all};
pub use frame::{append_frame, put_ask_head};
pub use laws::{fields_agree, messages_agree};
pub use list::{count_of, put_each, put_items};
pub use message::{Message, append_message, message_len, message_part};
pub use numbers::Within;
pub use objects::is_null;
pub use parts::UnlessNull;
