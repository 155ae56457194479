//! Descriptions of types, their join, and a registry of descriptions and names.
//!
//! Clients describe each type that they store: its name, its fields, its literals if it is an enum,
//! and its schemas ([`TypeMeta`]). Two descriptions of one type are joined by [`join`]: the result
//! says everything that either of them says, or the descriptions clash, and [`Clash`] names the first
//! difference. A [`Registry`] holds for each type the join of all descriptions that were put, and for
//! each platform and type a name. A field, a literal or a schema is a *member* of a description.
//!
//! ```text
//! put  type 5 `Point`: field x        get 5: `Point`: field x
//! put  type 5 `Point`: field y        get 5: `Point`: fields x, y
//! put  type 5 `Line`                  refused: the names clash
//! ```
//!
//! How descriptions are read from bytes and written is left to the caller, as is their order: a caller
//! that builds a description sorts its members, or asks [`TypeMeta::is_in_order`].
#![tactic(auto)]

mod affinity;
mod clash;
mod joining;
mod member;
mod merging;
mod meta;
mod order;
mod registry;

pub use clash::{Clash, JoinFault};
pub use joining::{join, join_associates, join_commutes};
pub use meta::{FieldMeta, Literal, SchemaMeta, TypeMeta};
pub use registry::Registry;
