//! Writing the fields of messages.

ghost use Rattle.std.specs.Prelude.{◌≡◌, ◌<◌, ◌+◌, ◌^◌, ◌++◌, pos, length, OnOk};
ghost use Rattle.std.specs.Int.{w32};
ghost use Rattle.ig_base.specs.Numbers.{LE};
ghost use Rattle.ig_wire.specs.Versions.{version_bytes};
ghost use Rattle.ig_wire.specs.Fields.{string};

use crate::version::Version;
use ig_base::{NoMemory, Octets, put_i16, put_i32};
use ig_value::Code;

/// Appends a length.
pub(crate) fn put_len(out: &mut Octets, len: usize) -> Result<(), NoMemory>
    requires { len < 2 ^ 31 }
    ensures { OnOk result (out.new ≡ out.old ++ LE w32 (pos len)) }
{
    put_i32(out, len as i32)
}

/// Appends a String.
pub(crate) fn put_string(out: &mut Octets, text: &str) -> Result<(), NoMemory>
    requires { length text.now < 2 ^ 31 }
    ensures { OnOk result (out.new ≡ out.old ++ string text.now) }
{
    out.push(Code::Str.byte())?;
    put_len(out, text.len())?;
    out.append(text.as_bytes())
}

/// Appends the three numbers of a version.
pub(crate) fn put_version(out: &mut Octets, version: Version) -> Result<(), NoMemory>
    ensures { OnOk result (out.new ≡ out.old ++ version_bytes version) }
{
    put_i16(out, version.major)?;
    put_i16(out, version.minor)?;
    put_i16(out, version.patch)
}

/// The number of bytes of a String: its code, the count and the text.
#[tactic(auto, unfolding(ig_base::specs::Numbers::LE))]
pub(crate) fn string_len(text: &str) -> usize
    ensures exact { result ≡ length (string text.now) }
    ensures small { result < 2 ^ 63 + 5 }
{
    5 + text.len()
}
