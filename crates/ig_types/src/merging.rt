//! One copy, one merge and one comparison for the three member lists of a description.

ghost use Rattle.std.specs.Prelude.{◌≡◌, ◌↔◌, ◌++◌, IfOk, IsTrue};
ghost use Rattle.std.specs.Prelude.{option_map};
ghost use Rattle.std.specs.List.Sorted.{IsStrictlySortedBy};
ghost use Rattle.ig_types.specs.IsBelow.{IsWithin};
ghost use Rattle.ig_types.specs.Members.{with_members, first_differing_pair};
ghost use Rattle.ig_types.specs.Join.{IsOutcome};

use crate::clash::JoinFault;
use crate::member::Member;
use ig_base::{Items, NoMemory};
use std::alloc::Global;
use std::cmp::Ordering;

/// The members, followed by copies of the rest.
pub(crate) fn with_copies<M: Member>(
    alloc: Global,
    mut members: Vec<M>,
    rest: &[M],
) -> Result<Items<M>, NoMemory>
    ensures { IfOk result (λ all. all ≡ members.items ++ rest.now) }
{
    for member in rest {
        members.push(member.copy(alloc)?)?;
    }
    Ok(Items::new(members))
}

/// Copies of the members of both lists, in the order of their keys, or the first clash: two members
/// with the same key that are not equal.
pub(crate) fn merge<M: Member>(
    alloc: Global,
    mut xs: &[M],
    mut ys: &[M],
) -> Result<Items<M>, JoinFault>
    requires first { IsStrictlySortedBy M.rank xs.now }
    requires second { IsStrictlySortedBy M.rank ys.now }
    ensures { IsOutcome result
        (option_map (λ p. M.clash p.0 p.1)
        (first_differing_pair M.rank M.same xs.entry.now ys.entry.now))
        (with_members M.rank xs.entry.now ys.entry.now) }
{
    let mut members = Vec::with_capacity(alloc, xs.len().max(ys.len()))?;
    loop {
        let Some((x, after_x)) = xs.split_first() else {
            return Ok(with_copies(alloc, members, ys)?);
        };
        let Some((y, after_y)) = ys.split_first() else {
            return Ok(with_copies(alloc, members, xs)?);
        };
        match x.compare(y) {
            Ordering::Less => {
                members.push(x.copy(alloc)?)?;
                xs = after_x;
            }
            Ordering::Greater => {
                members.push(y.copy(alloc)?)?;
                ys = after_y;
            }
            Ordering::Equal => {
                if !x.is_same(y) {
                    return Err(JoinFault::Clash(x.copy(alloc)?.clash(y.copy(alloc)?)));
                }
                members.push(x.copy(alloc)?)?;
                xs = after_x;
                ys = after_y;
            }
        }
    }
}

/// Whether each member of the first list is a member of the second.
pub(crate) fn is_within<M: Member>(mut xs: &[M], mut ys: &[M]) -> bool
    requires first { IsStrictlySortedBy M.rank xs.now }
    requires second { IsStrictlySortedBy M.rank ys.now }
    ensures { IsTrue result ↔ IsWithin xs.entry.now ys.entry.now }
{
    loop {
        let Some((x, after_x)) = xs.split_first() else {
            return true;
        };
        let Some((y, after_y)) = ys.split_first() else {
            return false;
        };
        match x.compare(y) {
            Ordering::Less => return false,
            Ordering::Greater => {}
            Ordering::Equal => {
                if !x.is_same(y) {
                    return false;
                }
                xs = after_x;
            }
        }
        ys = after_y;
    }
}
