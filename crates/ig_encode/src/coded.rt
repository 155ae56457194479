//! A code, and what stands behind it.

ghost use Rattle.std.specs.Prelude.{◌≡◌, ◌+◌, ◌∷◌, ◌++◌, [], pos, length};
ghost use Rattle.std.specs.Int.{w8, w32};
ghost use Rattle.ig_base.specs.Numbers.{LE};
ghost use Rattle.ig_value.specs.Table.{byte_of};
ghost use Rattle.ig_value.specs.Canon.{counted_bytes};

use crate::heads::Kinded;
use crate::output::Output;
use crate::spell::{Spell, WriteElement, put_count, write_count};
use crate::splice::copy_at;
use ig_base::{NodeId, Text};
use ig_value::{Code, Dec, Stamp};

/// A part that an array may hold, each behind its code, or null.
pub(crate) trait Item: Spell {
    /// Puts the code and the part.
    fn put_behind<S: Output>(&self, code: Code, out: &mut S, into: &mut [u8])
        ensures { (out.new, into.new)
            ≡ S.after out.old into.old (byte_of code ∷ Self.Spell.bytes self.now) };
}

impl Item for Text {
    #[inline(always)]
    fn put_behind<S: Output>(&self, code: Code, out: &mut S, into: &mut [u8]) {
        put_text(code, self, out, into);
    }
}

impl Item for i64 {
    #[inline(always)]
    fn put_behind<S: Output>(&self, code: Code, out: &mut S, into: &mut [u8]) {
        put_scalar(code, self, out, into);
    }
}

impl Item for NodeId {
    #[inline(always)]
    fn put_behind<S: Output>(&self, code: Code, out: &mut S, into: &mut [u8]) {
        put_row(code, self, out, into);
    }
}

impl Item for Stamp {
    #[inline(always)]
    fn put_behind<S: Output>(&self, code: Code, out: &mut S, into: &mut [u8]) {
        put_row(code, self, out, into);
    }
}

impl Item for Dec {
    #[inline(always)]
    fn put_behind<S: Output>(&self, code: Code, out: &mut S, into: &mut [u8]) {
        put_row(code, self, out, into);
    }
}

/// Puts a code.
#[inline(always)]
pub(crate) fn put_code<S: Output>(code: Code, out: &mut S, into: &mut [u8])
    ensures { (out.new, into.new) ≡ S.after out.old into.old (byte_of code ∷ []) }
{
    out.put(into, &[code.byte()]);
}

/// Puts a code and an element, with one look at the room where there is room for both.
#[inline(always)]
pub(crate) fn put_scalar<E: WriteElement, S: Output>(
    code: Code,
    element: &E,
    out: &mut S,
    into: &mut [u8],
)
    ensures { (out.new, into.new)
        ≡ S.after out.old into.old (byte_of code ∷ E.Spell.bytes element.now) }
{
    let width = 1 + E::width();
    if let Some(at) = out.place(into.len(), width) {
        copy_at(into, at, &[code.byte()]);
        element.write_at(into, at + 1);
        return;
    }
    if !out.count(width) {
        put_row(code, element, out, into);
    }
}

/// Puts a code and a text.
#[inline(never)]
pub(crate) fn put_text<S: Output>(code: Code, text: &Text, out: &mut S, into: &mut [u8])
    ensures { (out.new, into.new)
        ≡ S.after out.old into.old (byte_of code ∷ counted_bytes text.now) }
{
    let bytes = text.as_str().as_bytes();
    let Some(width) = bytes.len().checked_add(5) else {
        put_row(code, text, out, into);
        return;
    };
    if let Some(at) = out.place(into.len(), width) {
        copy_at(into, at, &[code.byte()]);
        write_count(bytes.len(), into, at + 1);
        copy_at(into, at + 5, bytes);
        return;
    }
    if !out.count(width) {
        put_row(code, text, out, into);
    }
}

/// Puts a code and a part.
#[inline(never)]
pub(crate) fn put_row<T: Spell, S: Output>(code: Code, part: &T, out: &mut S, into: &mut [u8])
    ensures { (out.new, into.new) ≡ S.after out.old into.old (byte_of code ∷ T.bytes part.now) }
{
    put_code(code, out, into);
    part.put(out, into);
}

/// Puts a code and two parts.
#[inline(never)]
pub(crate) fn put_both<T: Spell, U: Spell, S: Output>(
    code: Code,
    first: &T,
    second: &U,
    out: &mut S,
    into: &mut [u8],
)
    ensures { (out.new, into.new)
        ≡ S.after out.old into.old (byte_of code ∷ (T.bytes first.now ++ U.bytes second.now)) }
{
    put_code(code, out, into);
    first.put(out, into);
    second.put(out, into);
}

/// Puts a code, a type, and a count.
#[inline(never)]
pub(crate) fn put_typed<S: Output>(
    code: Code,
    type_id: &i32,
    count: usize,
    out: &mut S,
    into: &mut [u8],
)
    ensures { (out.new, into.new) ≡ S.after out.old into.old
        (byte_of code ∷ (LE w32 type_id.now ++ LE w32 (pos count))) }
{
    put_row(code, type_id, out, into);
    put_count(count, out, into);
}

/// Puts a code, a count, and a kind.
pub(crate) fn put_kinded<S: Output>(
    code: Code,
    kind: &i8,
    count: usize,
    out: &mut S,
    into: &mut [u8],
)
    ensures { (out.new, into.new) ≡ S.after out.old into.old
        (byte_of code ∷ (LE w32 (pos count) ++ LE w8 kind.now)) }
{
    let kinded = Kinded {
        items: count,
        kind: *kind,
    };
    put_scalar(code, &kinded, out, into);
}
