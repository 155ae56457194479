//! The piece of a frame that is shown.

use crate::reply_frame::ReplyFrame;
use ig_base::NoMemory;
use ig_wire::PIECE;
use std::alloc::Global;
use std::marker::Model;

/// A piece of a frame, of at most 65,536 bytes. Contracts see what is left of it.
#[derive(Drop)]
pub(crate) struct Piece {
    bytes: Vec<u8>,
    gone: usize,
    len: usize,
}

impl Model for Piece {
    ghost use Rattle.std.specs.Prelude.{◌≡◌, ◌≤◌, ℕ, List, take, drop, length};
    ghost use Rattle.ig_wire.specs.Limits.{piece_bytes};

    ghost Value = { List ℕ };

    ghost view = { λ p. drop p.gone (take p.len p.bytes.items) };

    ghost invariant = { λ p. (p.gone ≤ p.len) × (p.len ≤ length p.bytes.items)
        × (length p.bytes.items ≡ piece_bytes) };
}

impl Piece {
    ghost use Rattle.std.specs.Prelude.{◌≡◌, ◌+◌, ◌<◌, ◌≤◌, [], take, drop, length, IfOk};
    ghost use Rattle.ig_wire.specs.Limits.{piece_bytes};

    /// An empty piece. It takes the room for every piece.
    pub(crate) fn empty(alloc: Global) -> Result<Piece, NoMemory>
        ensures { IfOk result (λ piece. piece ≡ []) }
    {
        let mut bytes = Vec::new(alloc);
        bytes.resize(PIECE, 0)?;
        Ok(Piece {
            bytes,
            gone: 0,
            len: 0,
        })
    }

    /// What is left of the piece.
    pub(crate) fn left(&self) -> &[u8]
        ensures { result.now ≡ self.now }
    {
        &self.bytes.as_slice()[self.gone..self.len]
    }

    /// Lets the first bytes of what is left go.
    pub(crate) fn pass(&mut self, count: usize)
        requires { count ≤ length self.old }
        ensures { self.new ≡ drop count self.old }
    {
        self.gone += count;
    }

    /// Takes the next bytes of the frame, in place of what was left. Takes no memory.
    pub(crate) fn refill(&mut self, frame: &mut ReplyFrame)
        ensures some { 0 < length frame.old.frame }
        ensures piece { self.new ≡ take piece_bytes (drop frame.old.gone frame.old.frame) }
        ensures moved { frame.new ≡ record frame.old { gone = frame.old.gone + length self.new } }
    {
        self.len = frame.fill(self.bytes.as_mut_slice());
        self.gone = 0;
    }
}
