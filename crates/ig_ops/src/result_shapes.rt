//! Reading results, by their shape.

ghost use Rattle.std.specs.Prelude.{◌≤◌, length};
ghost use Rattle.ig_fields.specs.ShowsRightly.{shown_by};
ghost use Rattle.ig_fields.specs.ShownAnswers.{ShowsAs};
ghost use Rattle.ig_ops.specs.Results.{done_result, value_result, truth_result, rows_result, count_result, first_page_result, next_page_result};

use crate::pair_fields::PairFields;
use ig_base::Items;
use ig_caches::{Outcome, Page, Shown};
use ig_fields::read_shown;
use ig_value::Value;
use ig_wire::ReadFault;
use std::alloc::Global;

/// Rows, and whether more are left.
type PageFields = (Items<PairFields>, bool);

pub(crate) fn read_done(alloc: Global, body: &[u8], at: usize) -> Result<Shown, ReadFault>
    requires { at ≤ length body.now }
    ensures { ShowsAs (shown_by done_result body.now at) result }
{
    read_shown::<(), Shown, _>(alloc, body, at, |_| Shown::Out(Outcome::Done))
}

pub(crate) fn read_value(alloc: Global, body: &[u8], at: usize) -> Result<Shown, ReadFault>
    requires { at ≤ length body.now }
    ensures { ShowsAs (shown_by value_result body.now at) result }
{
    read_shown::<Value, Shown, _>(alloc, body, at, |value| Shown::Out(Outcome::Found(value)))
}

pub(crate) fn read_truth(alloc: Global, body: &[u8], at: usize) -> Result<Shown, ReadFault>
    requires { at ≤ length body.now }
    ensures { ShowsAs (shown_by truth_result body.now at) result }
{
    read_shown::<bool, Shown, _>(alloc, body, at, |yes| Shown::Out(Outcome::Yes(yes)))
}

pub(crate) fn read_rows(alloc: Global, body: &[u8], at: usize) -> Result<Shown, ReadFault>
    requires { at ≤ length body.now }
    ensures { ShowsAs (shown_by rows_result body.now at) result }
{
    read_shown::<Items<PairFields>, Shown, _>(
        alloc,
        body,
        at,
        |rows| Shown::Out(Outcome::Pairs(rows)),
    )
}

pub(crate) fn read_count(alloc: Global, body: &[u8], at: usize) -> Result<Shown, ReadFault>
    requires { at ≤ length body.now }
    ensures { ShowsAs (shown_by count_result body.now at) result }
{
    read_shown::<i64, Shown, _>(alloc, body, at, |count| Shown::Out(Outcome::Count(count)))
}

pub(crate) fn read_first_page(alloc: Global, body: &[u8], at: usize) -> Result<Shown, ReadFault>
    requires { at ≤ length body.now }
    ensures { ShowsAs (shown_by first_page_result body.now at) result }
{
    read_shown::<(i64, PageFields), Shown, _>(
        alloc,
        body,
        at,
        |(cursor, (rows, more))| Shown::Page(Page {
            cursor: Some(cursor),
            rows,
            more,
        }),
    )
}

pub(crate) fn read_next_page(alloc: Global, body: &[u8], at: usize) -> Result<Shown, ReadFault>
    requires { at ≤ length body.now }
    ensures { ShowsAs (shown_by next_page_result body.now at) result }
{
    read_shown::<PageFields, Shown, _>(
        alloc,
        body,
        at,
        |(rows, more)| Shown::Page(Page {
            cursor: None,
            rows,
            more,
        }),
    )
}
