//! The laws of captures. The function does nothing; its contract is the law.

ghost use Rattle.std.specs.Prelude.{List, ℕ};
ghost use Rattle.ig_capture.specs.Reading.{State};
ghost use Rattle.ig_capture.specs.CaptureLaws.{FeedsCompose, GivesText, GivesLines};

/// Two pieces of a capture add what they add as one, so every cutting gives the same text. A capture that
/// was fed and finished gave its text; while nothing in it is malformed, it gave the lines of its
/// messages.
pub fn captures_are_shown()
    ensures cuttings { (s : State) (first second : List ℕ) → FeedsCompose s first second }
    ensures text { (capture : List ℕ) → GivesText capture }
    ensures lines { (capture : List ℕ) → GivesLines capture }
{}
