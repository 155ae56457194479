//! What a client asks of a session, and what a reply shows.

use crate::answer::Outcome;
use crate::call::{Call, Pair};
use ig_base::Items;

/// A request. `Run` never holds `Call::Scan`: a scan is asked for by pages.
#[derive(Debug, Drop)]
pub enum Request {
    /// Runs a call.
    Run(Call),
    /// Asks for the first page of a scan: as many rows as `page` says.
    Scan { cache: i32, page: i32 },
    /// Asks for the next page of an open cursor.
    NextPage { cursor: i64 },
    /// Closes an open cursor.
    Close { resource: i64 },
}

/// A page of a scan.
#[derive(Debug, Drop)]
pub struct Page {
    /// The cursor's number, on the first page alone.
    pub cursor: Option<i64>,
    pub rows: Items<Pair>,
    /// Whether rows are left after this page.
    pub more: bool,
}

/// What a reply without a fault shows.
#[derive(Debug, Drop)]
pub enum Shown {
    /// The outcome of a call.
    Out(Outcome),
    /// A page.
    Page(Page),
}
