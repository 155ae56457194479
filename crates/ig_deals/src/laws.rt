//! Laws of what a session is asked and what it replies. These functions do nothing; their contracts
//! say what holds of all lists.

ghost use Rattle.ig_deals.specs.Laws.{HeadIsRead, RequestsAreRight, OneRequestIsRight, AsksGrow, RefusedAsksNothing, CallsGrow, DealsGrow, AllAreDealt, FirstAreDealt, DealsStay, RepliesGrow, OneReplyEach, FramesGrow, FramesStay, OwnReplyAlone, PagesAreRows, FirstPageIsFirst, DesksStay, FreshIsDesk, LastIsCutOff, PartIsPrefix, EndsCut};

/// What a body asks is what its operation, its identifier and its fields say, and nothing else.
pub fn requests_are_right()
    ensures head { HeadIsRead }
    ensures right { RequestsAreRight }
    ensures only { OneRequestIsRight }
{}

/// More bodies ask more, and change nothing of what was asked. After a refused hello nothing is
/// asked.
pub fn asks_grow()
    ensures asks { AsksGrow }
    ensures none { RefusedAsksNothing }
    ensures calls { CallsGrow }
{}

/// Results are dealt to requests in order: where there is one for each call, every request is
/// dealt. More requests and more results change no deal.
pub fn deals_grow()
    ensures grow { DealsGrow }
    ensures all { AllAreDealt }
    ensures first { FirstAreDealt }
    ensures stay { DealsStay }
{}

/// Each deal gets one reply, in order, with the identifier of its request. More deals change no
/// reply, and more bodies and results change no frame.
pub fn replies_grow()
    ensures grow { RepliesGrow }
    ensures each { OneReplyEach }
    ensures frames { FramesGrow }
    ensures stay { FramesStay }
{}

/// A call that opens no cursor changes no reply but its own, where changes of the topology aren't
/// told: its answer may come in any order.
pub fn own_reply_alone()
    ensures alone { OwnReplyAlone }
{}

/// The pages of a scan show its rows from the first one on, each once and in order. No more cursors
/// are open than may be, and a new one gets a number that none has.
pub fn pages_are_rows()
    ensures pages { PagesAreRows }
    ensures first { FirstPageIsFirst }
    ensures desks { DesksStay }
    ensures fresh { FreshIsDesk }
{}

/// Where an end may cut off the output, at most the last call lacks its whole reply. At the other ends
/// the bodies that were read are the whole frames of the input.
pub fn ends_are_exact()
    ensures last { LastIsCutOff }
    ensures prefix { PartIsPrefix }
    ensures cut { EndsCut }
{}
