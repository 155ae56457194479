//! The pieces in which a frame is shown.

ghost use Rattle.std.specs.Prelude.{◌≡◌, ◌-◌, ◌≤◌, min};
ghost use Rattle.ig_deals.specs.Pieces.{piece_left, PiecesAreNext, PiecesGoOn};

use ig_wire::PIECE;

/// How many bytes are shown of a frame of `len` bytes when `gone` of them are gone: up to the next
/// multiple of 65,536, or to the frame's end. Takes no memory.
pub fn piece_len(len: usize, gone: usize) -> usize
    requires { gone ≤ len }
    ensures { result ≡ min (piece_left gone) (len - gone) }
{
    let left = len - gone;
    let piece = PIECE - gone % PIECE;
    if piece < left { piece } else { left }
}

/// Each piece comes next in the frame and has at most 65,536 bytes. Where part of it goes, the rest is
/// shown.
pub fn pieces_follow()
    ensures next { PiecesAreNext }
    ensures on { PiecesGoOn }
{}
