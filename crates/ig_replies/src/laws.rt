//! Laws of queues. This function does nothing; its contract says what holds of all queues of frames.

ghost use Rattle.ig_replies.specs.Laws.{ShowsNext, GoneIsDropped, PushIsLast};

/// What a queue shows comes next of the bytes that are left; what goes is dropped of them; and a frame
/// that is pushed comes after all of them.
pub fn queues_are_in_order()
    ensures next { ShowsNext }
    ensures gone { GoneIsDropped }
    ensures last { PushIsLast }
{}
