//! Marks in the rows that replies show. A piece goes on at the mark, and so costs the time of its own rows.

ghost use Rattle.std.specs.Prelude.{◌≡◌};
ghost use Rattle.ig_replies.specs.RowMarks.{cursor_in, rows_in, cursor_shown, rows_shown, IsRowMark};

use crate::reply::Content;
use ig_caches::{Pair, Shown};
use ig_ops::PageMark;

/// The mark of the first row that the content shows.
pub(crate) fn first_mark(content: &Content) -> PageMark
    ensures { IsRowMark content.now result }
{
    PageMark::first(cursor_shown(content))
}

/// Moves the mark to the last row that begins at this offset of the result or before it.
pub(crate) fn move_mark(content: &Content, mark: &mut PageMark, to: u64)
    requires { IsRowMark content.now mark.old }
    ensures { IsRowMark content.now mark.new }
{
    mark.advance(rows_shown(content), to);
}

/// The cursor of a first page.
fn cursor_shown(content: &Content) -> Option<i64>
    ensures { result ≡ cursor_shown content.now }
{
    match content {
        Content::Shows(shown) => cursor_in(shown),
        _ => None,
    }
}

/// The same of what a call led to, or of a page.
fn cursor_in(shown: &Shown) -> Option<i64>
    ensures { result ≡ cursor_in shown.now }
{
    match shown {
        Shown::Out(_) => None,
        Shown::Page(page) => page.cursor,
    }
}

/// The rows of a page.
fn rows_shown(content: &Content) -> &[Pair]
    ensures { result.now ≡ rows_shown content.now }
{
    match content {
        Content::Shows(shown) => rows_in(shown),
        _ => &[],
    }
}

/// The same of what a call led to, or of a page.
fn rows_in(shown: &Shown) -> &[Pair]
    ensures { result.now ≡ rows_in shown.now }
{
    match shown {
        Shown::Out(_) => &[],
        Shown::Page(page) => page.rows.as_slice(),
    }
}
