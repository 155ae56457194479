//! Encoding values: the one canonical form of a value, as a whole or from any offset on.
//!
//! A walk over the value puts its bytes, in order, to an [`Output`]: a [`Measure`], which counts
//! them and hashes them where an object's header needs it, or a [`Window`], which fills a slice
//! with those from an offset on. [`canonical_len`] counts, [`encode_part`] fills, and [`encode`]
//! takes memory once and fills it. Texts and lists of numbers before the offset are skipped as a
//! whole.
//!
//! An object's header tells the length and the hash of its fields, which come after it. One walk
//! over the fields finds both: a measure keeps what bytes do to a hash, so that those of an object
//! inside are taken by its measure. So each level of objects in one another costs one more walk.
//!
//! Crates above write their results the same way: a function over any [`ValueOutput`] that puts
//! numbers by [`put_i32`] and the like, and values by [`ValueOutput::put_value`], gives the length,
//! the bytes and any part of them.
#![tactic(auto)]

mod advance;
mod calls;
mod coded;
mod fill_walk;
mod footer;
mod heads;
mod items;
mod leaf_len;
mod leaves;
mod length;
mod mark;
mod measure;
mod measure_output;
mod measure_walk;
mod numbers;
mod object;
mod output;
mod resume;
mod span;
mod spell;
mod spell_heads;
mod splice;
mod values;
mod window;
mod window_output;

pub use calls::{canonical_len, encode, encode_known, encode_next, encode_part, object_hash};
pub use length::Length;
pub use mark::Mark;
pub use measure::{Digest, Measure};
pub use numbers::{put_byte, put_bytes, put_i16, put_i32, put_i64};
pub use output::Output;
pub use spell::put_count;
pub use values::ValueOutput;
pub use window::Window;
