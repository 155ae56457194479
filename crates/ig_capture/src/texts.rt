//! Texts that several messages have.

ghost use Rattle.std.specs.Prelude.{◌≡◌, ◌++◌, ◌∷◌, [], OnOk};
ghost use Rattle.std.specs.Fmt.{decimal};
ghost use Rattle.ig_value.specs.Part.{i64};
ghost use Rattle.ig_text.specs.Tokens.{scalar_text};
ghost use Rattle.ig_lines.specs.Arguments.{space};
ghost use Rattle.ig_capture.specs.Talks.{version_text};
ghost use Rattle.ig_capture.specs.Sessions.{message_line, arrow as arrow_of};

use ig_base::{NoMemory, Octets};
use ig_text::PutText;
use ig_wire::Version;
use itoa::Buffer;
use std::alloc::Global;

/// A buffer of more bytes than these is given back when it is emptied.
const KEPT: usize = 262_144;

/// Empties a buffer that is to be used again, and gives back the room of a large one.
pub(crate) fn emptied(alloc: Global, buffer: &mut Octets)
    ensures { buffer.new ≡ [] }
{
    if buffer.len() > KEPT {
        *buffer = Octets::empty(alloc);
    } else {
        buffer.clear();
    }
}

/// Appends a number in decimal.
pub(crate) fn put_number(number: u64, out: &mut Octets) -> Result<(), NoMemory>
    ensures { OnOk result (out.new ≡ out.old ++ decimal number) }
{
    out.append(Buffer::new().format(number).as_bytes())
}

/// Appends a version.
pub(crate) fn put_version(version: Version, out: &mut Octets) -> Result<(), NoMemory>
    ensures { OnOk result (out.new ≡ out.old ++ version_text version) }
{
    version.major.put(out)?;
    out.push(b'.')?;
    version.minor.put(out)?;
    out.push(b'.')?;
    version.patch.put(out)
}

/// Appends an identifier and a space.
pub(crate) fn put_id(id: i64, out: &mut Octets) -> Result<(), NoMemory>
    ensures { OnOk result (out.new ≡ out.old ++ (scalar_text i64 id ++ space ∷ [])) }
{
    id.put(out)?;
    out.push(b' ')
}

/// The arrow of a side.
fn arrow(server: bool) -> u8
    ensures { result ≡ arrow_of server }
{
    if server { b'<' } else { b'>' }
}

/// Appends the line of a message.
pub(crate) fn put_line(
    session: u64,
    server: bool,
    text: &[u8],
    out: &mut Octets,
) -> Result<(), NoMemory>
    ensures { OnOk result (out.new ≡ out.old ++ message_line session server text.now) }
{
    put_number(session, out)?;
    out.push(b' ')?;
    out.push(arrow(server))?;
    out.push(b' ')?;
    out.append(text)?;
    out.push(b'\n')
}
