//! Values of the protocol: the tree, its codes, and the grammar that says which bytes encode which
//! tree.
//!
//! `Spells` in `specs/Spells.antt` says which bytes encode which value, `Stops` at which offset and
//! for which cause bytes stop being a value, and `Canon` is the one encoding that this program
//! writes. Decoder and encoder stand on these definitions, in crates of their own. The laws of the
//! grammar are contracts of the functions in `laws.rt`.
#![tactic(auto)]

mod build;
mod cause;
mod code;
mod copy;
mod depth;
mod flags;
mod laws;
mod leaves;
mod limited;
mod limits;
mod object;
mod same;
mod value;

pub use build::BuildFault;
pub use cause::Cause;
pub use code::Code;
pub use flags::kept_flags;
pub use laws::{bounded_trees, one_form, one_reader, one_reading};
pub use object::{Record, Shape};
pub use value::{DEEPEST, Dec, Object, Stamp, Value};
