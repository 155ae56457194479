//! The bytes of counts and kinds.

ghost use Rattle.std.specs.Prelude.{◌≡◌, ◌+◌, ◌<◌, ◌≤◌, ◌++◌, pos, List, ℕ, length};
ghost use Rattle.ig_encode.specs.HeadBytes.{count_bytes, kind_bytes, wide_count, wide_kind};
ghost use Rattle.ig_encode.specs.Splice.{splice as spliced};

use crate::heads::{Count, Kinded};
use crate::output::Output;
use crate::spell::{Spell, WriteElement, put_count, write_count};

impl Spell for Count {
    ghost bytes = { count_bytes };

    fn put<S: Output>(&self, out: &mut S, into: &mut [u8]) {
        put_count(self.items, out, into);
    }
}

impl Spell for Kinded {
    ghost bytes = { kind_bytes };

    fn put<S: Output>(&self, out: &mut S, into: &mut [u8]) {
        put_count(self.items, out, into);
        self.kind.put(out, into);
    }
}

impl WriteElement for Count {
    ghost byte_count = { 4 };

    ghost wide = { wide_count };

    fn width() -> usize {
        4
    }

    #[inline(always)]
    fn write_at(&self, into: &mut [u8], at: usize) {
        write_count(self.items, into, at);
    }
}

impl WriteElement for Kinded {
    ghost byte_count = { 5 };

    ghost wide = { wide_kind };

    fn width() -> usize {
        5
    }

    #[inline(always)]
    fn write_at(&self, into: &mut [u8], at: usize) {
        write_count(self.items, into, at);
        self.kind.write_at(into, at + 4);
    }
}
