//! The results of replies: what comes after their heads.

ghost use Rattle.std.specs.Prelude.{◌≡◌, ◌-◌, ◌^◌, ◌++◌, min, length, take, drop};
ghost use Rattle.ig_deals.specs.Tables.{shown_bytes};
ghost use Rattle.ig_replies.specs.Contents.{content_bytes};
ghost use Rattle.ig_replies.specs.Results.{is_meta, is_meta_outcome};
ghost use Rattle.ig_replies.specs.RowMarks.{IsMarkIn, IsRowMark};

use crate::reply::Content;
use ig_caches::{Outcome, Shown};
use ig_fields::{message_len, message_part};
use ig_ops::{PageMark, ShownBody, page_from};

/// The number of bytes of the result; it saturates at `u128::MAX`. Takes no memory.
pub(crate) fn content_len(content: &Content) -> u128
    ensures { result ≡ min (length (content_bytes content.now)) (2 ^ 128 - 1) }
{
    match content {
        Content::Shows(shown) => shown_len(shown),
        Content::Maps(map) => message_len(map),
        Content::Refuses(_) => 0,
        Content::Malformed(_) => 0,
    }
}

/// The same of what a call led to, or of a page.
fn shown_len(shown: &Shown) -> u128
    ensures { result ≡ min (length (shown_bytes shown.now)) (2 ^ 128 - 1) }
{
    if is_meta(shown) {
        return ig_meta::result_len(shown);
    }
    message_len(&ShownBody { shown })
}

/// Fills the slice with the bytes of the result from an offset on. Answers how many bytes it filled:
/// the slice's length, or what is left of the result, whichever is less. It passes over the rows before
/// the mark. Takes no memory.
pub(crate) fn content_part(content: &Content, mark: &PageMark, from: u64, into: &mut [u8]) -> usize
    requires { IsRowMark content.now mark.now }
    ensures count { result ≡ min (length into.old) (length (content_bytes content.now) - from) }
    ensures bytes { into.new ≡ take result (drop from (content_bytes content.now)) ++ drop result into.old }
{
    match content {
        Content::Shows(shown) => shown_part(shown, mark, from, into),
        Content::Maps(map) => message_part(map, from, into),
        Content::Refuses(_) => 0,
        Content::Malformed(_) => 0,
    }
}

/// The same of what a call led to, or of a page.
fn shown_part(shown: &Shown, mark: &PageMark, from: u64, into: &mut [u8]) -> usize
    requires { IsMarkIn shown.now mark.now }
    ensures count { result ≡ min (length into.old) (length (shown_bytes shown.now) - from) }
    ensures bytes { into.new ≡ take result (drop from (shown_bytes shown.now)) ++ drop result into.old }
{
    match shown {
        Shown::Out(_) => whole_part(shown, from, into),
        Shown::Page(page) => {
            let rows = page.rows.as_slice();
            page_from(page.cursor, rows, page.more, mark, from, into)
        }
    }
}

/// The same, from the first byte of the result on.
fn whole_part(shown: &Shown, from: u64, into: &mut [u8]) -> usize
    ensures count { result ≡ min (length into.old) (length (shown_bytes shown.now) - from) }
    ensures bytes { into.new ≡ take result (drop from (shown_bytes shown.now)) ++ drop result into.old }
{
    if is_meta(shown) {
        return ig_meta::result_part(shown, from, into);
    }
    message_part(&ShownBody { shown }, from, into)
}

/// Whether a result is the names of caches, the name of a type or its description.
fn is_meta(shown: &Shown) -> bool
    ensures { result ≡ is_meta shown.now }
{
    match shown {
        Shown::Out(outcome) => is_meta_outcome(outcome),
        Shown::Page(_) => false,
    }
}

/// The same of the outcome of a call.
fn is_meta_outcome(outcome: &Outcome) -> bool
    ensures { result ≡ is_meta_outcome outcome.now }
{
    match outcome {
        Outcome::Names(_) => true,
        Outcome::Name(_) => true,
        Outcome::Meta(_) => true,
        _ => false,
    }
}
