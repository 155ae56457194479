//! The loop that serves a session: it reads the input in pieces, feeds them to the session, runs its
//! calls, and writes the replies. A piece is read only where no whole frame is left and no reply waits.

ghost use Rattle.std.specs.Prelude.{◌≡◌, ◌<◌, ◌≤◌, ◌+◌, [], length};
ghost use Rattle.ig_wire.specs.Limits.{most_session_bytes, piece_bytes};
ghost use Rattle.ig_session.specs.Cfg.{IsCfg};
ghost use Rattle.ig_session.specs.Comings.{IsPaused};
ghost use Rattle.ig_session.specs.Soundness.{IsSound};
ghost use Rattle.ig_session.specs.Serving.{TakesPiece, AnswersAll, SendsWaiting, GivesAnswer, Served};
ghost use Rattle.ig_caches.specs.IsRunnable.{IsRunnable};
ghost use Rattle.ig_deals.specs.Deals.{Got as a_got, entry_of};
ghost use Rattle.ig_session.specs.Histories.{StandsOn};

use crate::caller::Caller;
use crate::session::Session;
use crate::step::Step;
use ig_caches::Call;
use ig_deals::{SessionCfg, SessionEnd};
use ig_link::{Duplex, Sink, Source, Take, send_all};
use ig_wire::{PIECE, SESSION_BYTES};
use std::alloc::Global;

/// Reads the next piece of the input and feeds it to the session, which waits for more input. Returns how
/// many bytes were taken in all, or the end of the session.
fn take_piece<S: Source>(
    session: &mut Session,
    source: &mut S,
    buf: &mut [u8],
    taken: u64,
) -> Result<u64, SessionEnd>
    requires sound { IsSound session.old }
    requires paused { IsPaused session.old }
    requires none { session.old.out ≡ [] }
    requires room { length buf.old ≡ piece_bytes }
    requires within { taken ≤ most_session_bytes }
    requires counts { session.old.stream.place + length session.old.stream.rest ≡ taken }
    ensures takes { TakesPiece session.old session.new (S.source source.old) (S.source source.new)
        taken result }
    ensures beside { S.sink_beside source.new ≡ S.sink_beside source.old }
{
    if taken >= SESSION_BYTES {
        return Err(SessionEnd::ByteLimit);
    }
    let room = (SESSION_BYTES - taken).min(buf.len() as u64) as usize;
    match source.read(&mut buf[..room]) {
        Take::End => Err(session.end_input()),
        Take::Failed => Err(SessionEnd::ReadFault),
        Take::Bytes(n) => match session.feed(&buf[..n]) {
            Ok(()) => Ok(taken + n as u64),
            Err(_) => Err(SessionEnd::NoMemory),
        },
    }
}

/// Writes all that waits.
fn send_waiting<K: Sink>(session: &mut Session, sink: &mut K) -> Result<(), SessionEnd>
    ensures sends { SendsWaiting session.old session.new (K.sink sink.old) (K.sink sink.new) result }
    ensures beside { K.source_beside sink.new ≡ K.source_beside sink.old }
{
    'pieces: while !session.waiting().is_empty() {
        let waiting = session.waiting();
        let count = waiting.len();
        match send_all(sink, waiting) {
            Ok(()) => session.gone(count),
            Err(_) => return Err(SessionEnd::WriteFault),
        }
    }
    Ok(())
}

/// Runs a call, and gives the answer to the session.
fn run_call<C: Caller>(session: &mut Session, caller: &mut C, call: Call) -> Result<(), SessionEnd>
    requires out { length session.old.out ≡ 1 }
    requires runnable { IsRunnable call }
    ensures runs { (got : a_got) × StandsOn C.stands caller.old caller.new
        (entry_of (C.seat caller.old) call got) × GivesAnswer session.old session.new got result }
    ensures seat { C.seat caller.new ≡ C.seat caller.old }
    ensures lent { C.lent caller.new ≡ C.lent caller.old }
    ensures kept { C.kept caller.new ≡ C.kept caller.old }
{
    let got = caller.run(call);
    match session.answer(got) {
        Ok(()) => Ok(()),
        Err(_) => Err(SessionEnd::NoMemory),
    }
}

/// Answers each whole frame, in order. Returns the end of the session if it comes before it waits for
/// more input.
fn answer_all<C: Caller, K: Sink>(
    session: &mut Session,
    caller: &mut C,
    sink: &mut K,
) -> Result<(), SessionEnd>
    requires none { session.old.out ≡ [] }
    ensures answers { AnswersAll C.stands (C.seat caller.old) caller.old caller.new
        session.old session.new (K.sink sink.old) (K.sink sink.new) result }
    ensures seat { C.seat caller.new ≡ C.seat caller.old }
    ensures lent { C.lent caller.new ≡ C.lent caller.old }
    ensures kept { C.kept caller.new ≡ C.kept caller.old }
    ensures beside { K.source_beside sink.new ≡ K.source_beside sink.old }
{
    'steps: loop {
        match session.next_request() {
            Err(_) => return Err(SessionEnd::NoMemory),
            Ok(Step::More { .. }) => return Ok(()),
            Ok(Step::Stop(end)) => return Err(end),
            Ok(Step::Out) => send_waiting(session, sink)?,
            Ok(Step::Run(call)) => run_call(session, caller, call)?,
        }
    }
}

/// Serves a session with a separate source and sink: reads the input in pieces of at most 65,536 bytes,
/// answers each whole frame, in order, before it reads again, and returns at the first thing that
/// ends the session. The replies to whole frames before a stop for the input are written.
pub fn serve_ends<C: Caller, S: Source, K: Sink>(
    alloc: Global,
    caller: &mut C,
    source: &mut S,
    sink: &mut K,
    cfg: &SessionCfg,
) -> SessionEnd
    requires { IsCfg cfg.now }
    ensures served { Served C.stands (C.seat caller.old) cfg.now caller.old caller.new
        (S.source source.old) (S.source source.new) (K.sink sink.old) (K.sink sink.new) result }
    ensures seat { C.seat caller.new ≡ C.seat caller.old }
    ensures lent { C.lent caller.new ≡ C.lent caller.old }
    ensures kept { C.kept caller.new ≡ C.kept caller.old }
{
    let Ok(mut buf) = vec![in alloc; 0u8; PIECE] else {
        return SessionEnd::NoMemory;
    };
    let Ok(mut session) = Session::new(alloc, *cfg) else {
        return SessionEnd::NoMemory;
    };
    let mut taken = 0;
    'pieces: loop {
        match take_piece(&mut session, source, &mut buf, taken) {
            Ok(more) => taken = more,
            Err(end) => return end,
        }
        if let Err(end) = answer_all(&mut session, caller, sink) {
            return end;
        }
    }
}

/// Serves a session over one link, as [`serve_ends`] does with a separate source and sink.
pub fn serve_link<C: Caller, L: Duplex>(
    alloc: Global,
    caller: &mut C,
    link: &mut L,
    cfg: &SessionCfg,
) -> SessionEnd
    requires { IsCfg cfg.now }
    ensures served { Served C.stands (C.seat caller.old) cfg.now caller.old caller.new
        (L.source link.old) (L.source link.new) (L.sink link.old) (L.sink link.new) result }
    ensures seat { C.seat caller.new ≡ C.seat caller.old }
    ensures lent { C.lent caller.new ≡ C.lent caller.old }
    ensures kept { C.kept caller.new ≡ C.kept caller.old }
{
    let Ok(mut buf) = vec![in alloc; 0u8; PIECE] else {
        return SessionEnd::NoMemory;
    };
    let Ok(mut session) = Session::new(alloc, *cfg) else {
        return SessionEnd::NoMemory;
    };
    let mut taken = 0;
    'pieces: loop {
        match take_piece(&mut session, link, &mut buf, taken) {
            Ok(more) => taken = more,
            Err(end) => return end,
        }
        if let Err(end) = answer_all(&mut session, caller, link) {
            return end;
        }
    }
}
