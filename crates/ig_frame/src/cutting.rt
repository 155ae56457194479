//! Laws about what a `Frames` stands for. Each is a function without parameters whose contract is the law.

ghost use Rattle.std.specs.Prelude.{◌≡◌, ◌+◌, ◌++◌, ℕ, List, [], ◌∷◌, length};
ghost use Rattle.ig_base.specs.Numbers.{AreBytes};
ghost use Rattle.ig_base.specs.Frames.{Side, max_body, least_after, Body, HasNoFrame, Cut};
ghost use Rattle.ig_frame.specs.Streams.{Stream, new_stream, longer_stream, front_at, stream_after_frame, StandsFor, HandedOut};

use crate::frames::MAX_FRAME;
use ig_base::{frame_is_read, frames_follow};

/// A `Frames` stands for the stream that it was fed, at the offset after the frames that it handed out:
/// nothing at first, at 0; a longer stream after each piece, at the same offset; and the same stream
/// at the end of the frame after each one that was handed out. Whoever remembers the stream knows so
/// what the calls say of it; a `Frames` remembers no more than the bytes from its place on.
pub fn place_in_the_stream()
    ensures unfed { (limit : ℕ) → StandsFor (new_stream limit) [] 0 }
    ensures fed { (s : Stream) (input piece : List ℕ) (at : ℕ) → StandsFor s input at
        → StandsFor (longer_stream s piece) (input ++ piece) at }
    ensures passed { (s : Stream) (input body rest : List ℕ) (at least : ℕ) → StandsFor s input at
        → front_at least s ≡ Body body rest
        → StandsFor (stream_after_frame least s) input (at + 4 + length body) }
    ensures stays { (s : Stream) (least : ℕ) → HasNoFrame (front_at least s)
        → stream_after_frame least s ≡ s }
{
    frame_is_read();
}

/// A `Frames` whose limit is `MAX_FRAME` cuts the stream of a side, however it was cut into
/// pieces: the bodies handed out are those of the first frames of the stream, the place is the length
/// of these frames, and where no whole frame is there they are the cut of what was fed.
pub fn frames_cut_the_stream()
    ensures limit { MAX_FRAME ≡ max_body }
    ensures unfed { (side : Side) (limit : ℕ) → HandedOut side (new_stream limit) [] [] }
    ensures fed { (side : Side) (s : Stream) (input piece : List ℕ) (bodies : List (List ℕ))
        → HandedOut side s input bodies → HandedOut side (longer_stream s piece) (input ++ piece) bodies }
    ensures passed { (side : Side) (s : Stream) (input body rest : List ℕ) (bodies : List (List ℕ))
        → s.limit ≡ max_body → AreBytes s.rest → HandedOut side s input bodies
        → front_at (least_after side bodies) s ≡ Body body rest
        → HandedOut side (stream_after_frame (least_after side bodies) s) input
        (bodies ++ body ∷ []) }
    ensures cut { (side : Side) (s : Stream) (input : List ℕ) (bodies : List (List ℕ))
        → s.limit ≡ max_body → HandedOut side s input bodies
        → HasNoFrame (front_at (least_after side bodies) s) → Cut side input bodies s.rest }
{
    frames_follow();
}
