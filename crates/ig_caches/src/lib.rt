//! Plain caches: named finite maps from keys to values, a registry of types, and the calls on them.
#![tactic(auto)]

mod answer;
mod caches;
mod call;
mod exec;
mod fault;
mod laws;
mod request;
mod reserve;
mod row_calls;
mod row_many;
mod row_map;
mod run;
mod spelling;
mod start;
mod table;
mod type_calls;

pub use answer::{Answer, Outcome, Why};
pub use caches::{Caches, copy_text};
pub use call::{Call, Pair};
pub use exec::Exec;
pub use fault::StartFault;
pub use laws::{answers_fit, keys_are_apart, scans_are_whole};
pub use request::{Page, Request, Shown};
pub use row_many::count_all;
pub use row_map::RowMap;
pub use table::{Forms, copy_row};
