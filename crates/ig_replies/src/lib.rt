//! What a session replies, and showing it piece by piece.
//!
//! ```text
//! an answer, at the desk  --answer, answer_scan, next_page, close, ..-->  ReplyFrame
//! ReplyFrame              --Queue::push-->  waits after the others
//! Queue::waiting          the bytes to be written next, at most 65,536
//! Queue::gone             this many of them were written
//! ```
//!
//! A [`ReplyFrame`] owns what it shows: the rows of a page are moved out of the cursor. So showing a reply
//! never touches the desk. The bytes of a frame are made piece by piece, in one buffer that the
//! [`Queue`] takes once.
#![tactic(auto)]

mod body;
mod contents;
mod frame_part;
mod head;
mod laws;
mod piece;
mod queue;
mod reply;
mod reply_frame;
mod result;
mod row_mark;
mod terms;
mod turns;

pub use body::body_len;
pub use laws::queues_are_in_order;
pub use queue::Queue;
pub use reply::{Content, Reply};
pub use reply_frame::ReplyFrame;
pub use terms::Terms;
pub use turns::{answer, answer_scan, close, lacks_memory, next_page, refuse};
