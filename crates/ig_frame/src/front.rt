//! What bytes begin with.

ghost use Rattle.std.specs.Prelude.{◌≡◌};
ghost use Rattle.ig_base.specs.Frames.{front};
ghost use Rattle.ig_frame.specs.Finds.{Finds, len_in_range};

use ig_base::get_i32;

/// What bytes begin with.
#[derive(Clone, Copy)]
pub(crate) enum Found {
    /// A frame whose body has this length.
    Body(usize),
    /// A length that is out of range.
    Bad(i32),
    /// Less than a frame: this many bytes are missing.
    Missing(u64),
}

/// The length as a number of bytes, or `None` where it is below `least` or above `limit`.
fn body_len(length: i32, least: u32, limit: u32) -> Option<usize>
    ensures { result ≡ len_in_range least limit length }
{
    match u32::try_from(length) {
        Ok(len) if least <= len && len <= limit => Some(len as usize),
        _ => None,
    }
}

/// What bytes begin with, where a body has at least `least` and at most `limit` bytes.
#[tactic(auto, unfolding(ig_base::specs::Frames::front))]
pub(crate) fn front_of(bytes: &[u8], least: u32, limit: u32) -> Found
    ensures { Finds result bytes.now (front least limit bytes.now) }
{
    let Some(length) = get_i32(bytes, 0) else {
        return Found::Missing(4 - bytes.len() as u64);
    };
    let Some(len) = body_len(length, least, limit) else {
        return Found::Bad(length);
    };
    let there = bytes.len() - 4;
    if there < len {
        Found::Missing((len - there) as u64)
    } else {
        Found::Body(len)
    }
}
