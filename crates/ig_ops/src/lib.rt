//! Requests on the rows of caches, on scans and on cursors, and their results, both ways.
//!
//! These are the operations 0, 1000 to 1020, 2000 and 2001. What the fields of each ask, and what its
//! result shows, is one line of a table (`specs/Requests.antt`, `specs/Results.antt`); reading and
//! writing follow from the line's shape, so a client and a server can't disagree.
//!
//! ```text
//! read_fields   body of a request's frame    a Request, or why it isn't served
//! write_ask     a Request                    the frame of a request
//! read_result   body of a reply's frame      what the reply shows
//! write_result  what a reply shows           the bytes after the reply's head
//! ```
//!
//! A result is written once, for any output, and so has its length ([`result_len`]), its bytes
//! ([`write_result`]) and any part of them ([`result_part`]). A page that is made of rows that lie
//! elsewhere is written without a copy ([`page_part`]); shown piece by piece it goes on at the row that
//! it reached ([`PageMark`]), so that all pieces together cost the time of the page's length.
#![tactic(auto)]

mod ask_body;
mod ask_shapes;
mod asks;
mod laws;
mod page_mark;
mod pages;
mod pair_fields;
mod put_page;
mod result_shapes;
mod results;
mod shown_body;

pub use asks::{read_fields, write_ask};
pub use laws::{requests_agree, results_agree};
pub use page_mark::PageMark;
pub use pages::{page_from, page_len, page_part};
pub use results::{read_result, result_len, result_part, write_result};
pub use shown_body::ShownBody;
