//! What a session remembers between its requests.

ghost use Rattle.std.specs.Prelude.{◌≡◌, ◌<◌, None, length, slice_index_or, slice_set, IfOk, OnOk, OnErr};
ghost use Rattle.ig_deals.specs.Desk.{Cursor, place_of_number, page_shown, after_page};

use crate::manner::Manner;
use crate::open_cursor::OpenCursor;
use ig_base::{NoMemory, Topology};
use ig_caches::Page;
use ig_wire::OPEN_CURSORS;
use std::alloc::Global;
use std::marker::Model;

/// The open cursors of a session, the number of the next one, and what its replies told last of the
/// topology.
#[derive(Drop)]
pub struct Desk {
    cursors: Vec<OpenCursor>,
    next: u64,
    told: Option<i32>,
}

impl Model for Desk {
    ghost use Rattle.std.specs.Prelude.{◌≤◌, vec_capacity};
    ghost use Rattle.std.specs.Coded.{codes};
    ghost use Rattle.ig_wire.specs.Limits.{most_cursors};
    ghost use Rattle.ig_deals.specs.contracts.open_cursor.OpenCursor as cursor;
    ghost use Rattle.ig_deals.specs.Desk.{Desk, AreApart};

    ghost Value = { Desk };

    ghost coded = { Prim.hlevel (codes, cursor.the_row.coded) };

    ghost view = { λ d. record { cursors = d.cursors.items; next = d.next; told = d.told } };

    ghost invariant = { λ d. (most_cursors ≤ vec_capacity d.cursors) × AreApart d.cursors.items };
}

/// The index of the cursor with a number.
#[tactic(auto, unfolding(crate::specs::Desk::place_of_number))]
fn index_of(cursors: &[OpenCursor], number: i64) -> Option<usize>
    ensures { result ≡ place_of_number cursors.now number }
{
    cursors.iter().position(|cursor| cursor.has_number(number))
}

/// Takes the next page, which isn't the first, out of the cursor at an index. On an error the cursors are
/// as before.
fn page_at(cursors: &mut [OpenCursor], index: usize) -> Result<Page, NoMemory>
    requires { index < length cursors.old }
    ensures page { IfOk result (λ page. (d : Cursor) → page ≡ page_shown None (slice_index_or cursors.old index d)) }
    ensures left { OnOk result ((d : Cursor) → cursors.new
        ≡ slice_set cursors.old index (after_page (slice_index_or cursors.old index d))) }
    ensures err { OnErr result (cursors.new ≡ cursors.old) }
{
    let cursor = &mut cursors[index];
    let more = cursor.has_more();
    let rows = cursor.take_page()?;
    Ok(Page {
        cursor: None,
        rows,
        more,
    })
}

impl Desk {
    ghost use Rattle.std.specs.Prelude.{◌≡◌, pos, None, ◌<◌, ◌^◌, ◌++◌, [], ◌∷◌, suc, length, nat_le, option_map, IfOk, OnOk, OnErr};
    ghost use Rattle.ig_wire.specs.Limits.{most_cursors};
    ghost use Rattle.ig_deals.specs.Desk.{fresh_desk, cursor_at, without, paged};
    ghost use Rattle.ig_deals.specs.Telling.{tells, told_after};

    /// A desk without cursors, of which the first gets the number 1; nothing was told. It takes the room
    /// for all cursors that may be open.
    pub fn new(alloc: Global) -> Result<Desk, NoMemory>
        ensures { IfOk result (λ desk. desk ≡ fresh_desk) }
    {
        let cursors = Vec::with_capacity(alloc, OPEN_CURSORS)?;
        Ok(Desk {
            cursors,
            next: 1,
            told: None,
        })
    }

    /// Whether as many cursors are open as may be.
    pub fn is_full(&self) -> bool
        ensures { result ≡ nat_le most_cursors (length self.now.cursors) }
    {
        self.cursors.len() >= OPEN_CURSORS
    }

    /// The number of the next cursor.
    pub fn next_number(&self) -> u64
        ensures { result ≡ self.now.next }
    {
        self.next
    }

    /// Draws that number.
    pub fn draw(&mut self)
        requires { self.old.next < 2 ^ 63 }
        ensures { self.new ≡ record self.old { next = suc self.old.next } }
    {
        self.next += 1;
    }

    /// Opens a cursor, after the other ones. Takes no memory.
    pub fn open(&mut self, cursor: OpenCursor)
        requires room { length self.old.cursors < most_cursors }
        requires unused { cursor_at self.old.cursors (pos cursor.number) ≡ None }
        ensures { self.new ≡ record self.old { cursors = self.old.cursors ++ cursor ∷ [] } }
    {
        let _room = self.cursors.push(cursor).is_ok();
    }

    /// Takes the open cursor with a number out of the others, if there is one. Takes no memory.
    pub fn take(&mut self, number: i64) -> Option<OpenCursor>
        ensures taken { result ≡ cursor_at self.old.cursors number }
        ensures left { self.new ≡ record self.old { cursors = without self.old.cursors number } }
    {
        match index_of(&self.cursors, number) {
            Some(index) => Some(self.cursors.remove(index)),
            None => None,
        }
    }

    /// Takes the next page, which isn't the first, out of the open cursor with a number, and this cursor out
    /// of the others, if there is one. On an error the desk is as before.
    ///
    /// # Errors
    ///
    /// [`NoMemory`] if there is none for the rows of the page.
    pub fn take_page(&mut self, number: i64) -> Result<Option<(Page, OpenCursor)>, NoMemory>
        ensures page { IfOk result (λ taken. taken ≡ option_map paged (cursor_at self.old.cursors number)) }
        ensures left { OnOk result (self.new ≡ record self.old { cursors = without self.old.cursors number }) }
        ensures err { OnErr result (self.new ≡ self.old) }
    {
        match index_of(&self.cursors, number) {
            Some(index) => {
                let page = page_at(&mut self.cursors, index)?;
                Ok(Some((page, self.cursors.remove(index))))
            }
            None => Ok(None),
        }
    }

    /// What the reply to a grid call tells of the topology whose answer has this minor version.
    pub fn tell(&mut self, manner: Manner, minor: i32) -> Option<Topology>
        ensures told { result ≡ tells manner self.old.told minor }
        ensures noted { self.new ≡ record self.old { told = told_after manner self.old.told minor } }
    {
        let told = manner.tells(self.told, minor);
        self.told = manner.told_after(self.told, minor);
        told
    }
}
