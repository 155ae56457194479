//! Laws about what a server sends. Each is a function without parameters whose contract is the law.

ghost use Rattle.ig_client.specs.Cutting.{CutsRightly};

/// What the contracts of this crate take for the frames of what a server sends after its reply to the
/// hello is the cut of these bytes into frames.
pub fn replies_are_cut()
    ensures { CutsRightly }
{}
