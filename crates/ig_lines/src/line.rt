//! Lines of a script.

use ig_base::Items;
use ig_caches::Request;

/// A line of a script.
#[derive(Debug, Drop)]
pub struct Line {
    /// The lane that asks, 0 to 15.
    pub lane: u8,
    pub ask: LineAsk,
}

/// What a line asks.
#[derive(Debug, Drop)]
pub enum LineAsk {
    /// A request.
    Ask(Request),
    /// Where the keys of these caches lie.
    Parts(Items<i32>),
}
