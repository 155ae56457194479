//! Reads the header of a complex object, and what its flags say of the footer.

ghost use Rattle.std.specs.Prelude.{◌≡◌, ◌<◌, ◌↔◌, length, take, drop, IsNone, IfSome, IsTrue};
ghost use Rattle.ig_base.specs.Headers.{has_flag, offset_width, header_bytes, header_of};

use crate::header::{Footer, Header};
use crate::numbers::{get_i16, get_i32};

/// Reads the header of a complex object from its first 24 bytes. `None` exactly where fewer are given.
/// The first byte, the object's code, isn't looked at. Takes no memory.
#[tactic(auto, using(crate::proofs::HeaderLemmas::header_absent))]
pub fn read_header(bytes: &[u8]) -> Option<Header>
    ensures none { IsNone result ↔ (length bytes.now < 24) }
    ensures spelled { IfSome result (λ h. header_bytes h ≡ take 23 (drop 1 bytes.now)) }
    ensures exact { result ≡ header_of bytes.now }
{
    let version = *bytes.get(1)?;
    let flags = get_i16(bytes, 2)?.cast_unsigned();
    let type_id = get_i32(bytes, 4)?;
    let hash = get_i32(bytes, 8)?;
    let length = get_i32(bytes, 12)?;
    let schema = get_i32(bytes, 16)?;
    let schema_at = get_i32(bytes, 20)?;
    Some(Header {
        version,
        flags,
        type_id,
        hash,
        length,
        schema,
        schema_at,
    })
}

/// The form of the footer that an object's flags tell. `None` exactly where the flags tell two widths
/// of an offset, one byte and two. Takes no memory.
pub fn footer_of(flags: u16) -> Option<Footer>
    ensures none { IsNone result ↔ IsTrue (has_flag 8 flags) × IsTrue (has_flag 16 flags) }
    ensures compact { IfSome result (λ f. f.compact ≡ has_flag 32 flags) }
    ensures width { IfSome result (λ f. f.width ≡ offset_width flags) }
{
    let compact = flags / 32 % 2 == 1;
    let one_byte = flags / 8 % 2 == 1;
    let two_bytes = flags / 16 % 2 == 1;
    if one_byte {
        if two_bytes {
            return None;
        }
        return Some(Footer { compact, width: 1 });
    }
    let width = if two_bytes { 2 } else { 4 };
    Some(Footer { compact, width })
}
