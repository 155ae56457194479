//! The words that both ends share.
#![tactic(auto)]

mod ask;
mod fields;
mod greeting;
mod head;
mod head_calls;
mod head_output;
mod head_view;
mod head_writing;
mod hello;
mod hello_reply;
mod hello_reply_calls;
mod hello_reply_writing;
mod hello_writing;
mod laws;
mod limits;
mod operation;
mod owned;
mod put;
mod read_error;
mod reason;
mod stop;
mod unread;
mod version;

pub use ask::{ASK_HEAD, AskFault, Profile, read_ask};
pub use fields::{i32_of, i64_of, node_of, string_of};
pub use greeting::{HELLO, LEAST_HELLO, THIN_CLIENT, read_hello};
pub use head::{Fault, ReplyHead};
pub use head_calls::{ERROR, TOPOLOGY, read_head};
pub use head_output::put_head;
pub use head_view::{FaultView, HeadView};
pub use head_writing::write_head;
pub use hello::{Hello, HelloFault, Login};
pub use hello_reply::HelloReply;
pub use hello_reply_calls::{LEAST_HELLO_REPLY, read_hello_reply};
pub use hello_reply_writing::{hello_reply_len, write_hello_reply};
pub use hello_writing::{hello_len, write_hello};
pub use laws::{greatest_counts, least_lengths, one_greeting, one_head, one_hello_reply, versions};
pub use limits::{CACHE_CHANGES, CACHES, OPEN_CURSORS, PENDING_CALLS, PIECE, SESSION_BYTES};
pub use operation::Operation;
pub use owned::text_of;
pub use read_error::ReadError;
pub use reason::Reason;
pub use stop::Stop;
pub use unread::{ReadFault, Unread};
pub use version::Version;
