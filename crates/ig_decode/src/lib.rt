//! Decoding values: the one value that a prefix of the bytes encodes, or the offset at which they
//! stop being one, and why.
//!
//! ```text
//! 3 5 0 0 0 8 9        Int(5), from 5 bytes; the rest is left alone
//! 9 5 0 0 0 0x61       refused: the value isn't whole at offset 5
//! ```
//!
//! [`decode`] reads from left to right, and takes memory for what is there: a count that lies never
//! makes it ask for more items than bytes are left. Its contract is stated by the grammar of
//! `ig_value`: `Spells` says which bytes encode which value, and `Stops` where bytes stop being
//! one.
#![tactic(auto)]

mod answer;
mod calls;
mod count;
mod element;
mod fault;
mod layout;
mod object;
mod parts;
mod rows;
mod text;
mod value;

pub use answer::Decoded;
pub use calls::{decode, decode_at, is_canonical};
pub use count::StatedCount;
pub use fault::{DecodeFault, Refusal};
pub use ig_value::Cause;
pub use text::text_at;
