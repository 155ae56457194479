//! Requests on the names of caches and on descriptions of types, and their results.
//!
//! | Code | Operation | The request's fields | The result's |
//! |---|---|---|---|
//! | 1050 | cache names | | a list of Strings |
//! | 1051 | create | a String | |
//! | 1052 | get or create | a String | |
//! | 1056 | destroy | an Int32 | |
//! | 3000 | get type name | a Byte, an Int32 | a String |
//! | 3001 | register type name | a Byte, an Int32, a String | a Byte, 0 or 1 |
//! | 3002 | get type | an Int32 | byte 0, or byte 1 and a description |
//! | 3003 | put type | a description | |
//!
//! The table stands in `specs/Requests.antt` and `specs/Results.antt`. A server reads requests by
//! [`read_fields`] and writes results by [`write_result`], whole, or in pieces by [`result_part`]; a
//! client writes requests by [`write_ask`] and reads results by [`read_result`].
//!
//! A description may list its members in any order: reading sorts them. A name or an identifier that
//! is repeated doesn't read.
#![tactic(auto)]

mod asks;
mod distinct;
mod key;
mod laws;
mod member;
mod results;
mod type_fields;

pub use asks::{read_fields, write_ask};
pub use laws::{meta_asks_agree, meta_results_agree, read_types_are_in_order};
pub use results::{read_result, result_len, result_part, write_result};
