//! An open cursor of a session.

use ig_base::{Items, NoMemory};
use ig_caches::Pair;
use std::marker::Model;

/// An open cursor: the rows of a scan that weren't shown yet.
///
/// Contracts see the cursor's number, how many rows a page of it has, and the rows that weren't shown.
/// They are kept in reverse, so that a page is cut off the end.
#[derive(Drop)]
pub struct OpenCursor {
    number: u64,
    page: u32,
    left: Vec<Pair>,
}

impl Model for OpenCursor {
    ghost use Rattle.std.specs.Prelude.{reverse};
    ghost use Rattle.std.specs.Coded.{codes};
    ghost use Rattle.ig_value.specs.contracts.value.Value as value;
    ghost use Rattle.ig_deals.specs.Desk.{Cursor};

    ghost Value = { Cursor };

    ghost coded = { Prim.hlevel (codes, value.the_row.coded) };

    ghost view = { λ c. record { number = c.number; page = c.page; rows = reverse c.left.items } };
}

impl OpenCursor {
    ghost use Rattle.std.specs.Prelude.{◌≡◌, IfOk, OnOk, OnErr};
    ghost use Rattle.ig_deals.specs.Desk.{has_number, page_of, has_more, after_page};

    /// A cursor of which no row was shown. Takes no memory.
    pub fn new(number: u64, page: u32, rows: Items<Pair>) -> OpenCursor
        ensures { result ≡ record { number = number; page = page; rows = rows } }
    {
        let mut left = rows.into_std();
        left.reverse();
        OpenCursor { number, page, left }
    }

    /// The cursor's number.
    pub fn number(&self) -> u64
        ensures { result ≡ self.now.number }
    {
        self.number
    }

    /// Whether the cursor has this number.
    pub fn has_number(&self, number: i64) -> bool
        ensures { result ≡ has_number number self.now }
    {
        match u64::try_from(number) {
            Ok(number) => self.number == number,
            Err(_) => false,
        }
    }

    /// Whether rows are left after the next page.
    pub fn has_more(&self) -> bool
        ensures { result ≡ has_more self.now }
    {
        (self.page as usize) < self.left.len()
    }

    /// Takes the rows of the next page out of the cursor. On an error the cursor is as before.
    pub fn take_page(&mut self) -> Result<Items<Pair>, NoMemory>
        ensures page { IfOk result (λ rows. rows ≡ page_of self.old) }
        ensures left { OnOk result (self.new ≡ after_page self.old) }
        ensures err { OnErr result (self.new ≡ self.old) }
    {
        let kept = self.left.len().saturating_sub(self.page as usize);
        let mut rows = self.left.split_off(kept)?;
        rows.reverse();
        Ok(Items::new(rows))
    }
}
