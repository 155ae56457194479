//! Places in pages.

use crate::pair_fields::PairFields;
use ig_caches::Pair;
use ig_encode::{Measure, Output, ValueOutput};
use ig_fields::{FieldFormat, Message, message_len};

/// A row of a page, and the offset of its first byte in the bytes of the page.
#[derive(Clone, Copy, Debug, PartialEq, Eq)]
pub struct PageMark {
    pub(crate) row: usize,
    pub(crate) before: u64,
}

/// A row as a message.
#[derive(Drop)]
struct RowBody<'a> {
    row: &'a Pair,
}

impl Message for RowBody<'_> {
    ghost use Rattle.ig_ops.specs.Views.{pair_bytes};

    ghost bytes = { λ body. pair_bytes body.row.now };

    fn put<S: ValueOutput>(&self, out: &mut S, into: &mut [u8]) {
        <PairFields as FieldFormat>::put(self.row, out, into);
    }
}

impl PageMark {
    ghost use Rattle.std.specs.Prelude.{◌≡◌, ◌+◌, ◌<◌, ◌≤◌, ◌⊎◌, ℕ, ℤ, Option, List, length, drop};
    ghost use Rattle.ig_caches.specs.declared.call.Pair.{Pair as a_pair};
    ghost use Rattle.ig_ops.specs.Views.{row_bytes};
    ghost use Rattle.ig_ops.specs.PageMarks.{IsPageMark, IsReached};

    /// The mark of the first row of a page, which has a cursor or not.
    pub fn first(cursor: Option<i64>) -> PageMark
        ensures { (rows : List a_pair) → IsPageMark cursor rows result }
    {
        let before = match cursor {
            Some(_) => 12,
            None => 4,
        };
        PageMark { row: 0, before }
    }

    /// The index of the row.
    pub fn row(&self) -> usize
        ensures { result ≡ self.now.row }
    {
        self.row
    }

    /// The number of bytes of the page before the row.
    pub fn before(&self) -> u64
        ensures { result ≡ self.now.before }
    {
        self.before
    }

    /// Moves to the last row that begins at the offset or before it, unless the mark is past it: then it
    /// stays. It walks the rows that it passes, and one more. Takes no memory.
    pub fn advance(&mut self, rows: &[Pair], to: u64)
        ensures mark { (cursor : Option ℤ) → IsPageMark cursor rows.now self.old
            → IsPageMark cursor rows.now self.new }
        ensures onward { self.old.row ≤ self.new.row }
        ensures within { self.new.row ≡ self.old.row ⊎ self.new.before ≤ to }
        ensures reached { IsReached rows.now self.new to }
    {
        while let Some(row) = rows.get(self.row) {
            let end = (self.before as u128).saturating_add(message_len(&RowBody { row }));
            if end > to as u128 {
                return;
            }
            self.row += 1;
            self.before = end as u64;
        }
    }
}
