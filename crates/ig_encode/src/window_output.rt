//! A window as an output: it fills a slice with the bytes from an offset on.

ghost use Rattle.std.specs.Prelude.{◌≡◌, ◌+◌, ◌-◌, ◌*◌, ◌<◌, ◌≤◌, List, ℕ, length, min, IsTrue, IsFalse, IfSome, IsNone};
ghost use Rattle.ig_encode.specs.WindowOutput.{window_after, filled_empty, filled_longer};

use crate::output::Output;
use crate::splice::copy_at;
use crate::window::Window;

impl Output for Window {
    ghost after = { window_after };

    ghost empty = { filled_empty };

    ghost longer = { filled_longer };

    #[inline(always)]
    fn put(&mut self, into: &mut [u8], bytes: &[u8]) {
        if self.skip == 0 && self.filled <= into.len() && bytes.len() <= into.len() - self.filled {
            copy_at(into, self.filled, bytes);
            self.filled += bytes.len();
        } else {
            put_some(self, into, bytes);
        }
    }

    #[inline(always)]
    fn count(&mut self, more: usize) -> bool {
        if self.skip < more as u64 {
            return false;
        }
        self.skip -= more as u64;
        true
    }

    #[inline(always)]
    fn place(&mut self, room: usize, more: usize) -> Option<usize> {
        let at = self.filled;
        if self.skip > 0 || room < at || room - at < more {
            return None;
        }
        self.filled = at + more;
        Some(at)
    }

    fn pass(&mut self, into: &[u8], width: usize, count: usize) -> usize {
        if self.is_full(into) {
            return count;
        }
        let passed = items_before(width, count, self.skip);
        self.skip -= (passed * width) as u64;
        passed
    }

    fn claim(&mut self, room: usize, width: usize, count: usize) -> (usize, usize) {
        if self.skip > 0 || room <= self.filled {
            return (0, 0);
        }
        let at = self.filled;
        let whole = items_in(width, count, room - at);
        self.filled += whole * width;
        (at, whole)
    }

    fn is_full(&self, into: &[u8]) -> bool {
        into.len() <= self.filled && self.skip == 0
    }
}

/// Puts those of the bytes that are past the offset and that the slice has room for.
#[inline(never)]
fn put_some(window: &mut Window, into: &mut [u8], bytes: &[u8])
    ensures { (window.new, into.new) ≡ window_after window.old into.old bytes.now }
{
    let before = first_of(bytes.len(), window.skip);
    window.skip -= before as u64;
    let room = into.len().saturating_sub(window.filled);
    let count = if room < bytes.len() - before {
        room
    } else {
        bytes.len() - before
    };
    if count > 0 {
        copy_at(into, window.filled, &bytes[before..before + count]);
        window.filled += count;
    }
}

/// How many of the next `count` bytes to skip.
fn first_of(count: usize, skip: u64) -> usize
    ensures { result ≡ min count skip }
{
    if (count as u64) < skip {
        count
    } else {
        skip as usize
    }
}

/// How many of the next `count` items, of this width, to skip: those that lie before the offset as
/// a whole.
pub(crate) fn items_before(width: usize, count: usize, skip: u64) -> usize
    requires { 0 < width }
    ensures within { result ≤ count }
    ensures before { result * width ≤ skip }
{
    let whole = skip / width as u64;
    if whole < count as u64 {
        whole as usize
    } else {
        count
    }
}

/// How many of `count` items of this width there is room for.
fn items_in(width: usize, count: usize, room: usize) -> usize
    requires { 0 < width }
    ensures within { result ≤ count }
    ensures fits { result * width ≤ room }
{
    let whole = room / width;
    if whole < count { whole } else { count }
}
