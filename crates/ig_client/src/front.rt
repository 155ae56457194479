//! What the bytes of a frame that is being read are so far.

ghost use Rattle.std.specs.Prelude.{◌≡◌};
ghost use Rattle.ig_base.specs.Frames.{front, max_body};
ghost use Rattle.ig_client.specs.Fronts.{Finds, len_in_range};

use ig_base::get_i32;
use ig_frame::MAX_FRAME;

/// What the bytes begin with.
#[derive(Clone, Copy)]
pub(crate) enum Front {
    /// A frame whose body has this length.
    Whole(usize),
    /// A length that is out of range.
    Bad(i32),
    /// Less than a frame: this many bytes are missing, to the end of the length where fewer than four
    /// bytes are there, else to the end of the frame.
    Missing(usize),
}

/// The length as a number of bytes, or `None` where it is below `least` or above the limit.
fn body_len(length: i32, least: u32) -> Option<usize>
    ensures { result ≡ len_in_range least max_body length }
{
    match u32::try_from(length) {
        Ok(len) if least <= len && len <= MAX_FRAME => Some(len as usize),
        _ => None,
    }
}

/// What the bytes begin with, where a body has at least `least` bytes.
#[tactic(auto, unfolding(ig_base::specs::Frames::front))]
pub(crate) fn front_of(bytes: &[u8], least: u32) -> Front
    ensures { Finds result bytes.now (front least max_body bytes.now) }
{
    let Some(length) = get_i32(bytes, 0) else {
        return Front::Missing(4 - bytes.len());
    };
    let Some(len) = body_len(length, least) else {
        return Front::Bad(length);
    };
    let there = bytes.len() - 4;
    if there < len {
        Front::Missing(len - there)
    } else {
        Front::Whole(len)
    }
}
