//! Laws about frames. Each is a function without parameters whose contract is the law.

ghost use Rattle.std.specs.Prelude.{◌≡◌, ◌+◌, ◌-◌, ◌++◌, ◌<◌, ◌≤◌, ◌^◌, ℕ, ℤ, pos, List, [], ◌∷◌, length, take, drop, FitsSigned};
ghost use Rattle.std.specs.Int.{w32};
ghost use Rattle.ig_base.specs.Numbers.{LE, AreBytes};
ghost use Rattle.ig_base.specs.Frames.{Frame, Side, IsBodyWithin, IsOutOfRange, front, max_body, Body, Bad, Incomplete, least_after, Begins, HasNoFrame, Cut};

/// What bytes begin with, where a body has at least `least` and at most `limit` bytes.
///
/// Bytes that begin with a frame are read as that frame, whatever comes after it, and what is read as
/// a frame is one. A length is refused exactly where its four bytes are there and it is out of range.
///
/// An incomplete frame lacks some bytes: to the end of the length where fewer than four are there,
/// else to the end of the frame. With fewer further bytes it stays incomplete, and lacks as many less.
/// With just the missing ones the length is known, or, where it was known, the frame is whole.
pub fn frame_is_read()
    ensures whole { (least limit : ℕ) (body more : List ℕ) → limit < 2 ^ 31
        → IsBodyWithin least limit body → front least limit (Frame body ++ more) ≡ Body body more }
    ensures found { (least limit : ℕ) (bytes body more : List ℕ) → AreBytes bytes
        → front least limit bytes ≡ Body body more
        → IsBodyWithin least limit body × (bytes ≡ Frame body ++ more) }
    ensures within { (least limit : ℕ) (bytes body more : List ℕ)
        → front least limit bytes ≡ Body body more
        → (4 + length body ≤ length bytes) × (body ≡ take (length body) (drop 4 bytes))
        × (more ≡ drop (4 + length body) bytes) }
    ensures refused { (least limit : ℕ) (bytes : List ℕ) (n : ℤ) → AreBytes bytes
        → front least limit bytes ≡ Bad n
        → (4 ≤ length bytes) × (LE w32 n ≡ take 4 bytes) × IsOutOfRange least limit n }
    ensures out_of_range { (least limit : ℕ) (n : ℤ) (more : List ℕ) → FitsSigned w32 n
        → IsOutOfRange least limit n → front least limit (LE w32 n ++ more) ≡ Bad n }

    ensures short { (least limit : ℕ) (bytes : List ℕ) → length bytes < 4
        → front least limit bytes ≡ Incomplete (4 - length bytes) }
    ensures begun { (least limit n : ℕ) (bytes : List ℕ) → least ≤ n → n ≤ limit → n < 2 ^ 31
        → length bytes < n
        → front least limit (LE w32 (pos n) ++ bytes) ≡ Incomplete (n - length bytes) }
    ensures some_missing { (least limit : ℕ) (bytes : List ℕ) (missing : ℕ)
        → front least limit bytes ≡ Incomplete missing → 0 < missing }
    ensures fewer { (least limit : ℕ) (bytes more : List ℕ) (missing : ℕ)
        → front least limit bytes ≡ Incomplete missing → length more < missing
        → front least limit (bytes ++ more) ≡ Incomplete (missing - length more) }
    ensures known { (least limit : ℕ) (bytes more : List ℕ) (missing : ℕ) → AreBytes (bytes ++ more)
        → length bytes < 4 → front least limit bytes ≡ Incomplete missing → length more ≡ missing
        → (n : ℤ) × FitsSigned w32 n × (LE w32 n ≡ bytes ++ more) }
    ensures completed { (least limit : ℕ) (bytes more : List ℕ) (missing : ℕ) → 4 ≤ length bytes
        → front least limit bytes ≡ Incomplete missing → length more ≡ missing
        → front least limit (bytes ++ more) ≡ Body (drop 4 bytes ++ more) [] }
{}

/// How the frames at the beginning of a stream grow in number: none at first; the same while more of
/// the stream comes; one more where a frame is found after them; and where none is found they are cut.
pub fn frames_follow()
    ensures none { (side : Side) (input : List ℕ) → Begins side input [] input }
    ensures more { (side : Side) (input after more : List ℕ) (bodies : List (List ℕ))
        → Begins side input bodies after → Begins side (input ++ more) bodies (after ++ more) }
    ensures next { (side : Side) (input after body rest : List ℕ) (bodies : List (List ℕ))
        → AreBytes after → Begins side input bodies after
        → front (least_after side bodies) max_body after ≡ Body body rest
        → Begins side input (bodies ++ body ∷ []) rest }
    ensures cut { (side : Side) (input after : List ℕ) (bodies : List (List ℕ))
        → Begins side input bodies after → HasNoFrame (front (least_after side bodies) max_body after)
        → Cut side input bodies after }
{}

/// Every stream of bytes has exactly one cut into frames: some bodies and a rest are its cut, and no
/// others are.
pub fn one_cut()
    ensures some { (side : Side) (input : List ℕ) → AreBytes input
        → (bodies : List (List ℕ)) × (after : List ℕ) × Cut side input bodies after }
    ensures only { (side : Side) (input after end : List ℕ) (bodies others : List (List ℕ))
        → Cut side input bodies after → Cut side input others end
        → (bodies ≡ others) × (after ≡ end) }
{}
