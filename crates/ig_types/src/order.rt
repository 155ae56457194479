//! The test that a list of members is in order.

ghost use Rattle.std.specs.Prelude.{◌↔◌, IsTrue};
ghost use Rattle.std.specs.List.Sorted.{IsStrictlySortedBy};

use crate::member::Member;

/// Whether the members are strictly ascending by their keys.
pub(crate) fn is_ascending<M: Member>(members: &[M]) -> bool
    ensures { IsTrue result ↔ IsStrictlySortedBy M.rank members.now }
{
    let Some((mut last, mut rest)) = members.split_first() else {
        return true;
    };
    while let Some((next, after_next)) = rest.split_first() {
        if !last.compare(next).is_lt() {
            return false;
        }
        last = next;
        rest = after_next;
    }
    true
}
