//! Where the bytes of a value go.

ghost use Rattle.std.specs.Prelude.{◌≡◌, ◌+◌, ◌*◌, ◌<◌, ◌≤◌, List, [], ◌++◌, ℕ, length, IsTrue, IsFalse, IfSome, IsNone};
ghost use Rattle.ig_encode.specs.Splice.{splice};

/// An output takes the bytes of a value in order, and may put some of them into a slice.
pub trait Output {
    /// The output and the slice after more bytes.
    ghost after: { Self → List ℕ → List ℕ → Self × List ℕ };

    /// Takes the next bytes.
    fn put(&mut self, into: &mut [u8], bytes: &[u8])
        ensures { (self.new, into.new) ≡ after self.old into.old bytes.now };

    /// Takes this many bytes without seeing them, where it needs no byte's value. Answers whether
    /// it took them.
    fn count(&mut self, more: usize) -> bool
        ensures counted { IsTrue result → (into bytes : List ℕ) → length bytes ≡ more
            → after self.old into bytes ≡ (self.new, into) }
        ensures unchanged { IsFalse result → self.new ≡ self.old };

    /// Takes this many bytes, which the caller puts into the slice itself, if there is room for all
    /// of them. Answers the index in the slice where they go.
    fn place(&mut self, room: usize, more: usize) -> Option<usize>
        ensures fits { IfSome result (λ at. at + more ≤ room) }
        ensures placed { IfSome result (λ at. (into bytes : List ℕ) → length into ≡ room
            → length bytes ≡ more → after self.old into bytes ≡ (self.new, splice into at bytes)) }
        ensures none { IsNone result → self.new ≡ self.old };

    /// Takes the bytes of the first of `count` items, each of this width, without looking at them.
    /// Answers how many items it took.
    fn pass(&mut self, into: &[u8], width: usize, count: usize) -> usize
        requires { 0 < width }
        ensures within { result ≤ count }
        ensures passed { (bytes : List ℕ) → length bytes ≡ result * width → (self.new, into.now)
            ≡ after self.old into.now bytes };

    /// Takes the bytes of the first of `count` items, each of this width, which the caller puts
    /// into the slice itself. Answers the index in the slice where they go, and how many items it
    /// took.
    fn claim(&mut self, room: usize, width: usize, count: usize) -> (usize, usize)
        requires { 0 < width }
        ensures within { result.1 ≤ count }
        ensures fits { result.0 + result.1 * width ≤ room }
        ensures claimed { (into bytes : List ℕ) → length into ≡ room → length bytes
            ≡ result.1 * width → after self.old into bytes
            ≡ (self.new, splice into result.0 bytes) };

    /// Whether no further byte changes anything.
    fn is_full(&self, into: &[u8]) -> bool
        ensures { IsTrue result → (bytes : List ℕ) → after self.now into.now bytes
            ≡ (self.now, into.now) };

    ghost empty: { (s : Self) (into : List ℕ) → after s into [] ≡ (s, into) };

    ghost longer: { (s : Self) (into p q : List ℕ) → after s into (p ++ q)
        ≡ after (after s into p).0 (after s into p).1 q };
}
