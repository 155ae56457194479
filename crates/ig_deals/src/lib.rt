//! What a session is asked, what its calls are given, and what it replies.
//!
//! The files of `specs/` define this as functions on lists, which contracts of a session cite:
//!
//! ```text
//!   bodies --asks--> requests --calls--> calls          run by the grid, which gives results
//!                        \                                   |
//!                         +------- dealt ------- results ----+
//!                                    |
//!                                  deals --replies (a turn at the desk each)--> frames
//! ```
//!
//! `Serves` says how the input, the output, the calls and the end of a whole session belong together.
//! The functions of `laws` do nothing; their contracts are the laws of these definitions.
//!
//! [`Desk`], [`OpenCursor`] and [`Manner`] are what a session remembers, as its code keeps it. Running
//! calls, reading bodies and writing frames is left to the session.
#![tactic(auto)]

mod cfg;
mod desk;
mod end;
mod laws;
mod manner;
mod open_cursor;
mod pieces;

pub use cfg::SessionCfg;
pub use desk::Desk;
pub use end::SessionEnd;
pub use laws::{
    asks_grow, deals_grow, ends_are_exact, own_reply_alone, pages_are_rows, replies_grow,
    requests_are_right,
};
pub use manner::Manner;
pub use open_cursor::OpenCursor;
pub use pieces::{piece_len, pieces_follow};
