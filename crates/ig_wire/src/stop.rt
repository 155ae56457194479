//! Where bytes stop being a message.

/// The number of bytes of a frame's length.
const LENGTH_BYTES: usize = 4;

/// The first wrong item of a message.
#[derive(Clone, Copy, Debug)]
pub struct Stop {
    /// How many bytes are left where it begins.
    pub left: usize,
}

impl Stop {
    ghost use Rattle.std.specs.Prelude.{◌≡◌};
    ghost use Rattle.ig_wire.specs.Fields.{frame_place};

    /// The offset at which it begins, from the first length byte of the frame with this body on.
    pub fn place(self, body: &[u8]) -> usize
        ensures { result ≡ frame_place body.now self.left }
    {
        LENGTH_BYTES + body.len().saturating_sub(self.left)
    }
}
