//! Results as messages.

ghost use Rattle.std.specs.Prelude.{◌≡◌};
ghost use Rattle.ig_fields.specs.Ask.{filled_bytes};
ghost use Rattle.ig_ops.specs.Results.{outcome_filled, shown_bytes};

use crate::pair_fields::PairFields;
use crate::put_page::{put_page, put_truth};
use ig_caches::{Outcome, Shown};
use ig_encode::{Output, ValueOutput};
use ig_fields::{FieldFormat, Message, put_items};

/// A result as a message. Of a result that isn't one of this crate it has no bytes.
#[derive(Drop)]
pub struct ShownBody<'a> {
    pub shown: &'a Shown,
}

impl Message for ShownBody<'_> {
    ghost bytes = { λ body. shown_bytes body.shown.now };

    fn put<S: ValueOutput>(&self, out: &mut S, into: &mut [u8]) {
        match self.shown {
            Shown::Out(outcome) => put_outcome(outcome, out, into),
            Shown::Page(page) => put_page(page.cursor, page.rows.as_slice(), page.more, out, into),
        }
    }
}

/// Puts the outcome of a call.
fn put_outcome<S: ValueOutput>(outcome: &Outcome, out: &mut S, into: &mut [u8])
    ensures { (out.new, into.new)
        ≡ S.Output.after out.old into.old (filled_bytes (outcome_filled outcome.now)) }
{
    match outcome {
        Outcome::Found(value) => out.put_value(into, value),
        Outcome::Yes(yes) => put_truth(*yes, out, into),
        Outcome::Pairs(rows) => put_items::<PairFields, S>(rows.as_slice(), out, into),
        Outcome::Count(count) => <i64 as FieldFormat>::put(count, out, into),
        _ => {}
    }
}
