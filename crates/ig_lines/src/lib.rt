//! Lines of scripts, and what replies show, as text.
//!
//! ```text
//! 0 put people int:1 str:"Ann"        the line of lane 0: sets the value of int:1 in the cache `people`
//! 0 put #-991808881 int:1 str:"Ann"   the same line, with the cache by its identifier
//! ```
//!
//! Each line has one text in which every cache stands by its identifier; [`put_line`] appends it. Reading
//! takes a cache by its name too. `LineOf` in `specs/LineText.antt` is the text of a line, `line_at` in
//! `specs/ReadLine.antt` reads one from a list of bytes, and `specs/Words.antt` is the table of the words
//! and their arguments.
#![tactic(auto)]

mod arguments;
mod asks;
mod laws;
mod line;
mod put_arguments;
mod reader;
mod shown;
mod word;
mod words;
mod writer;

pub use laws::one_line;
pub use line::{Line, LineAsk};
pub use reader::read_line;
pub use shown::{write_fault, write_map, write_shown};
pub use word::Word;
pub use writer::{put_ask, put_line};
