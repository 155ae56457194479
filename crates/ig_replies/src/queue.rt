//! The queue of replies.

ghost use Rattle.std.specs.Prelude.{◌≡◌, List, [], ◌∷◌};
ghost use Rattle.std.specs.List.{AllByRecursion};
ghost use Rattle.ig_replies.specs.Showing.{Showing};
ghost use Rattle.ig_replies.specs.Queues.{IsFresh, IsQueue, IsSpentQueue, frames_of, waiting_in, waiting_spent};

use crate::piece::Piece;
use crate::reply_frame::ReplyFrame;
use ig_base::NoMemory;
use std::alloc::Global;
use std::collections::VecDeque;
use std::marker::Model;

/// Replies that are shown one after another, each in pieces of at most 65,536 bytes of its frame.
///
/// ```text
/// push     a reply waits after the others; the first one begins at once
/// waiting  the bytes to be written next
/// gone     this many of them were written
/// ```
#[derive(Drop)]
pub struct Queue {
    first: Option<ReplyFrame>,
    piece: Piece,
    later: VecDeque<ReplyFrame>,
}

impl Model for Queue {
    ghost use Rattle.ig_replies.specs.Queues.{IsQueue, waiting_in};
    ghost use Rattle.ig_replies.specs.Showing.{Waiting};

    ghost Value = { Waiting };

    ghost view = { λ q. waiting_in q.first q.piece q.later.items };

    ghost invariant = { λ q. IsQueue q.first q.piece q.later.items };
}

impl Queue {
    ghost use Rattle.std.specs.Prelude.{◌≡◌, ◌≤◌, [], length, Ok, IfOk, OnOk, OnErr, IsTrue, ◌↔◌};
    ghost use Rattle.ig_replies.specs.Showing.{waiting_none, piece_shown, after_gone, after_push, showing};

    /// An empty queue. It takes the room for the pieces.
    pub fn new(alloc: Global) -> Result<Queue, NoMemory>
        ensures { IfOk result (λ queue. queue ≡ waiting_none) }
    {
        Ok(Queue {
            first: None,
            piece: Piece::empty(alloc)?,
            later: VecDeque::new(alloc),
        })
    }

    /// Whether no reply waits.
    pub fn is_empty(&self) -> bool
        ensures { IsTrue result ↔ (self.now.frames ≡ []) }
    {
        self.first.is_none()
    }

    /// What is to be written next: up to 65,536 bytes of the first frame; nothing where no reply waits.
    pub fn waiting(&self) -> &[u8]
        ensures shown { result.now ≡ piece_shown self.now }
        ensures end { (result.now ≡ []) ↔ (self.now.frames ≡ []) }
    {
        self.piece.left()
    }

    /// Adds a reply of which nothing is gone after the others. Where no other waits it takes no memory, and
    /// gives no error. On an error the queue is as before.
    pub fn push(&mut self, frame: ReplyFrame) -> Result<(), NoMemory>
        requires { frame ≡ showing frame.frame }
        ensures ok { OnOk result (self.new ≡ after_push self.old frame.frame) }
        ensures first { self.old.frames ≡ [] → result ≡ Ok tt }
        ensures err { OnErr result (self.new ≡ self.old) }
    {
        if self.first.is_some() {
            self.later.push_back(frame)?;
            return Ok(());
        }
        begin(&mut self.first, &mut self.piece, frame);
        Ok(())
    }

    /// Says that the first bytes of what waits were written. Takes no memory.
    pub fn gone(&mut self, count: usize)
        requires { count ≤ length (piece_shown self.old) }
        ensures { self.new ≡ after_gone self.old count }
    {
        self.piece.pass(count);
        if !self.piece.left().is_empty() {
            return;
        }
        go_on(&mut self.first, &mut self.piece, &mut self.later);
    }
}

/// Goes on after a piece of which nothing is left: by the next piece of the first frame, or by the first
/// piece of the next frame.
fn go_on(first: &mut Option<ReplyFrame>, piece: &mut Piece, later: &mut VecDeque<ReplyFrame>)
    requires empty { piece.old ≡ [] }
    requires spent { IsSpentQueue first.old later.old.items }
    ensures queue { IsQueue first.new piece.new later.new.items }
    ensures waiting { waiting_in first.new piece.new later.new.items
        ≡ waiting_spent first.old later.old.items }
{
    let Some(frame) = first else {
        return;
    };
    piece.refill(frame);
    if !piece.left().is_empty() {
        return;
    }
    match later.pop_front() {
        Some(next) => begin(first, piece, next),
        None => *first = None,
    }
}

/// Begins to show a frame of which nothing is gone, in place of the one before.
fn begin(first: &mut Option<ReplyFrame>, piece: &mut Piece, frame: ReplyFrame)
    requires { IsFresh frame }
    ensures queue { (later : List Showing) → AllByRecursion IsFresh later
        → IsQueue first.new piece.new later }
    ensures waiting { (later : List Showing) → waiting_in first.new piece.new later
        ≡ record { frames = frame.frame ∷ frames_of later; gone = 0 } }
{
    let mut frame = frame;
    piece.refill(&mut frame);
    *first = Some(frame);
}
