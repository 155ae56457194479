//! Putting pages.

ghost use Rattle.std.specs.Prelude.{◌≡◌, ◌++◌};
ghost use Rattle.ig_value.specs.Part.{truth};
ghost use Rattle.ig_value.specs.Spells.{scalar_bytes};
ghost use Rattle.ig_fields.specs.FieldBytes.{listed_bytes};
ghost use Rattle.ig_ops.specs.Views.{pair_bytes, cursor_bytes};

use crate::pair_fields::PairFields;
use ig_caches::Pair;
use ig_encode::{Output, ValueOutput, put_byte, put_i64};
use ig_fields::put_items;

/// Puts a truth value: the byte 0 or 1.
pub(crate) fn put_truth<S: ValueOutput>(yes: bool, out: &mut S, into: &mut [u8])
    ensures { (out.new, into.new) ≡ S.Output.after out.old into.old (scalar_bytes truth yes) }
{
    put_byte(if yes { 1 } else { 0 }, out, into);
}

/// Puts the rows of a page with their count, and whether more are left.
fn put_rows<S: ValueOutput>(rows: &[Pair], more: bool, out: &mut S, into: &mut [u8])
    ensures { (out.new, into.new)
        ≡ S.Output.after out.old into.old (listed_bytes pair_bytes rows.now ++ scalar_bytes truth more) }
{
    put_items::<PairFields, S>(rows, out, into);
    put_truth(more, out, into);
}

/// Puts a page: its cursor, if it has one, its rows, and whether more are left.
pub(crate) fn put_page<S: ValueOutput>(
    cursor: Option<i64>,
    rows: &[Pair],
    more: bool,
    out: &mut S,
    into: &mut [u8],
)
    ensures { (out.new, into.new) ≡ S.Output.after out.old into.old
        (cursor_bytes cursor ++ (listed_bytes pair_bytes rows.now ++ scalar_bytes truth more)) }
{
    match cursor {
        Some(cursor) => {
            put_i64(cursor, out, into);
            put_rows(rows, more, out, into)
        }
        None => put_rows(rows, more, out, into),
    }
}
