//! Pages of rows that lie elsewhere.

ghost use Rattle.std.specs.Prelude.{◌≡◌, ◌-◌, ◌^◌, ◌++◌, min, length, take, drop};
ghost use Rattle.ig_value.specs.Part.{truth};
ghost use Rattle.ig_value.specs.Spells.{scalar_bytes};
ghost use Rattle.ig_ops.specs.Views.{page_bytes, row_bytes};
ghost use Rattle.ig_ops.specs.PageMarks.{IsPageMark};

use crate::page_mark::PageMark;
use crate::pair_fields::PairFields;
use crate::put_page::{put_page, put_truth};
use ig_caches::Pair;
use ig_encode::{Output, ValueOutput};
use ig_fields::{Message, message_len, message_part, put_each};

/// A page of rows.
#[derive(Drop)]
struct PageBody<'a> {
    cursor: Option<i64>,
    rows: &'a [Pair],
    more: bool,
}

impl Message for PageBody<'_> {
    ghost bytes = { λ page. page_bytes page.cursor page.rows.now page.more };

    fn put<S: ValueOutput>(&self, out: &mut S, into: &mut [u8]) {
        put_page(self.cursor, self.rows, self.more, out, into);
    }
}

/// The last rows of a page, and whether more are left.
#[derive(Drop)]
struct PageEnd<'a> {
    rows: &'a [Pair],
    more: bool,
}

impl Message for PageEnd<'_> {
    ghost bytes = { λ page. row_bytes page.rows.now ++ scalar_bytes truth page.more };

    fn put<S: ValueOutput>(&self, out: &mut S, into: &mut [u8]) {
        put_each::<PairFields, S>(self.rows, out, into);
        put_truth(self.more, out, into);
    }
}

/// The number of bytes of the page; it saturates at `u128::MAX`. The first page of a scan has its
/// cursor. Takes no memory.
pub fn page_len(cursor: Option<i64>, rows: &[Pair], more: bool) -> u128
    ensures { result ≡ min (length (page_bytes cursor rows.now more)) (2 ^ 128 - 1) }
{
    message_len(&PageBody { cursor, rows, more })
}

/// Fills the slice with the bytes of the page from an offset on. Answers how many bytes it filled: the
/// slice's length, or what is left of the page, whichever is less. Takes no memory.
///
/// It walks the rows before the offset; [`page_from`] doesn't.
pub fn page_part(
    cursor: Option<i64>,
    rows: &[Pair],
    more: bool,
    from: u64,
    into: &mut [u8],
) -> usize
    ensures count { result ≡ min (length into.old) (length (page_bytes cursor rows.now more) - from) }
    ensures bytes { into.new
        ≡ take result (drop from (page_bytes cursor rows.now more)) ++ drop result into.old }
{
    message_part(&PageBody { cursor, rows, more }, from, into)
}

/// Does what [`page_part`] does, and passes over the rows before the mark. Takes no memory.
///
/// Whoever shows a page piece by piece moves the mark to the end of each piece
/// ([`PageMark::advance`]): then a piece costs the time of its own rows.
pub fn page_from(
    cursor: Option<i64>,
    rows: &[Pair],
    more: bool,
    mark: &PageMark,
    from: u64,
    into: &mut [u8],
) -> usize
    requires { IsPageMark cursor rows.now mark.now }
    ensures count { result ≡ min (length into.old) (length (page_bytes cursor rows.now more) - from) }
    ensures bytes { into.new
        ≡ take result (drop from (page_bytes cursor rows.now more)) ++ drop result into.old }
{
    if from < mark.before {
        return page_part(cursor, rows, more, from, into);
    }
    let end = PageEnd {
        rows: &rows[mark.row..],
        more,
    };
    message_part(&end, from - mark.before, into)
}
