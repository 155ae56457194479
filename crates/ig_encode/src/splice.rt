//! Writing over a slice.

ghost use Rattle.std.specs.Prelude.{◌≡◌, ◌+◌, ◌≤◌, length};
ghost use Rattle.ig_encode.specs.Splice.{splice as spliced};

/// Writes the bytes over those of the slice from an index on.
#[inline(always)]
pub(crate) fn copy_at(into: &mut [u8], at: usize, bytes: &[u8])
    requires { at + length bytes.now ≤ length into.old }
    ensures { into.new ≡ spliced into.old at bytes.now }
{
    into[at..at + bytes.len()].copy_from_slice(bytes);
}
