ghost use Rattle.std.specs.Prelude.{◌≡◌, ◌≢◌, ◌<◌, ℕ, true, [], length, IfOk, IfSome, IsSome};
ghost use Rattle.ig_caches.specs.IsRunnable.{IsRunnable};
ghost use Rattle.ig_session.specs.Awaiting.{awaited_at};

use ig_base::{Items, NoMemory, NoRoom, Octets, Text};
use ig_caches::{Answer, Caches, Call, Exec, Outcome};
use ig_link::{MemLink, ReadStep, WriteStep};
use ig_session::{Ahead, Alone, Session, SessionCfg, SessionEnd, Step, serve_link};
use ig_wire::{HelloFault, Version};
use std::alloc::Global;
use std::test::Fail;

const CFG: SessionCfg = SessionCfg {
    node: 0,
    nodes: 1,
    parts: 1024,
};

/// A hello, and a put of 1 to 2 in the cache `main`.
const HELLO_AND_PUT: [u8; 41] = [
    8, 0, 0, 0, 1, 1, 0, 0, 0, 0, 0, 2, 25, 0, 0, 0, 0xE9, 3, 1, 0, 0, 0, 0, 0, 0, 0, 0xB9, 5,
    0x33, 0, 0, 3, 1, 0, 0, 0, 3, 2, 0, 0, 0,
];

/// A hello, a put under the identifier 1, one under 2, and a scan by pages of two under 3.
const TWO_PUTS_AND_SCAN: [u8; 99] = [
    8, 0, 0, 0, 1, 1, 0, 0, 0, 0, 0, 2, 25, 0, 0, 0, 0xE9, 3, 1, 0, 0, 0, 0, 0, 0, 0, 0xB9, 5,
    0x33, 0, 0, 3, 1, 0, 0, 0, 3, 2, 0, 0, 0, 25, 0, 0, 0, 0xE9, 3, 2, 0, 0, 0, 0, 0, 0, 0, 0xB9,
    5, 0x33, 0, 0, 3, 3, 0, 0, 0, 3, 4, 0, 0, 0, 25, 0, 0, 0, 0xD0, 7, 3, 0, 0, 0, 0, 0, 0, 0,
    0xB9, 5, 0x33, 0, 0, 101, 2, 0, 0, 0, 0xFF, 0xFF, 0xFF, 0xFF, 0,
];

/// What the session with a scan answers.
const SCANNED: [u8; 86] = [
    1, 0, 0, 0, 1, 12, 0, 0, 0, 1, 0, 0, 0, 0, 0, 0, 0, 0, 0, 0, 0, 12, 0, 0, 0, 2, 0, 0, 0, 0, 0,
    0, 0, 0, 0, 0, 0, 45, 0, 0, 0, 3, 0, 0, 0, 0, 0, 0, 0, 0, 0, 0, 0, 1, 0, 0, 0, 0, 0, 0, 0, 2,
    0, 0, 0, 3, 1, 0, 0, 0, 3, 2, 0, 0, 0, 3, 3, 0, 0, 0, 3, 4, 0, 0, 0, 0,
];

/// A caller over the one cache `main`.
fn caches(alloc: Global) -> Result<Caches, Fail> {
    let mut names = Vec::new(alloc);
    names.push(Text::new(String::from_str(alloc, "main")?))?;
    Ok(Caches::start(alloc, names)?)
}

// ---- sessions over a link

/// A link that gives these bytes by `step` bytes, and takes at most as many at once.
fn link(alloc: Global, bytes: &[u8], step: usize) -> Result<MemLink, NoMemory>
    requires { 0 < step }
{
    let mut reads = Vec::new(alloc);
    let mut writes = Vec::new(alloc);
    for piece in bytes.chunks(step) {
        reads.push(ReadStep::Bytes(Octets::new(Vec::from_slice(alloc, piece)?)))?;
        writes.push(WriteStep::AtMost(step))?;
    }
    MemLink::new(alloc, reads, writes, 1 << 10)
}

/// How a session over the first bytes of these ends, and whether it writes this.
fn ends_so(
    alloc: Global,
    bytes: &[u8],
    len: usize,
    step: usize,
    written: &[u8],
) -> Result<(SessionEnd, bool), Fail>
    requires { 0 < step }
{
    let mut link = link(alloc, &bytes[..len.min(bytes.len())], step)?;
    let mut caller = Alone::new(caches(alloc)?);
    let end = serve_link(alloc, &mut caller, &mut link, &CFG);
    Ok((end, link.written() == Some(written)))
}

/// How the session with a scan ends where its input is cut off at a length, and how many bytes of its
/// output are written then.
static ENDS: [(usize, SessionEnd, usize); 8] = [
    (0, SessionEnd::Truncated { missing: 4 }, 0),
    (5, SessionEnd::Truncated { missing: 7 }, 0),
    (12, SessionEnd::Ended, 5),
    (14, SessionEnd::Truncated { missing: 2 }, 5),
    (18, SessionEnd::Truncated { missing: 23 }, 5),
    (41, SessionEnd::Ended, 21),
    (70, SessionEnd::Ended, 37),
    (99, SessionEnd::Ended, 86),
];

#[test]
fn sessions_end_where_their_input_ends(rt: HostRuntime) -> Result<(), Fail> {
    for (len, end, written) in &ENDS {
        let output = &SCANNED[..SCANNED.len().min(*written)];
        let ended = ends_so(rt.alloc(), &TWO_PUTS_AND_SCAN, *len, 65_536, output)?;
        assert_eq!(rt; ended, (*end, true));
    }
    Ok(())
}

#[test]
fn pieces_of_any_length_give_the_same_output(rt: HostRuntime) -> Result<(), Fail> {
    for step in [1, 2, 3, 5, 7, 11, 40, 98, 99] {
        let ended = ends_so(rt.alloc(), &TWO_PUTS_AND_SCAN, 99, step, &SCANNED)?;
        assert_eq!(rt; ended, (SessionEnd::Ended, true));
    }
    Ok(())
}

/// The reply to a hello of version 1.7.0.
const REFUSED: [u8; 35] = [
    31, 0, 0, 0, 0, 1, 0, 4, 0, 0, 0, 9, 19, 0, 0, 0, 117, 110, 115, 117, 112, 112, 111, 114, 116,
    101, 100, 32, 118, 101, 114, 115, 105, 111, 110,
];

/// After a refused hello nothing is read, whatever follows it. A length out of range ends the session at
/// its place.
#[test]
fn sessions_end_at_the_first_fault(rt: HostRuntime) -> Result<(), Fail> {
    let mut bytes = HELLO_AND_PUT;
    bytes[7] = 7;
    let version = Version {
        major: 1,
        minor: 7,
        patch: 0,
    };
    let refused = SessionEnd::HelloRefused(HelloFault::Version(version));
    let ended = ends_so(rt.alloc(), &bytes, 41, 41, &REFUSED)?;
    assert_eq!(rt; ended, (refused, true));
    bytes[7] = 0;
    bytes[12] = 9;
    let bad = SessionEnd::BadFrame {
        place: 12,
        length: 9,
    };
    let ended = ends_so(rt.alloc(), &bytes, 41, 41, &SCANNED[..5])?;
    assert_eq!(rt; ended, (bad, true));
    Ok(())
}

/// A link that gives the second half of its input only after the replies to the first half were written.
fn waiting_link(alloc: Global) -> Result<MemLink, NoMemory> {
    let mut reads = Vec::new(alloc);
    let first = Vec::from_slice(alloc, &TWO_PUTS_AND_SCAN[..41])?;
    reads.push(ReadStep::Bytes(Octets::new(first)))?;
    reads.push(ReadStep::AfterWritten(21))?;
    let second = Vec::from_slice(alloc, &TWO_PUTS_AND_SCAN[41..])?;
    reads.push(ReadStep::Bytes(Octets::new(second)))?;
    MemLink::new(alloc, reads, Vec::new(alloc), 1 << 10)
}

#[test]
fn whole_frames_are_answered_before_the_next_read(rt: HostRuntime) -> Result<(), Fail> {
    let mut link = waiting_link(rt.alloc())?;
    let mut caller = Alone::new(caches(rt.alloc())?);
    let end = serve_link(rt.alloc(), &mut caller, &mut link, &CFG);
    assert_eq!(rt; end, SessionEnd::Ended);
    assert!(rt; link.written() == Some(&SCANNED[..]));
    Ok(())
}

// ---- sessions step by step

/// A session that was fed this input. `None` where it is long.
fn session_with(alloc: Global, input: &[u8]) -> Result<Option<Session>, NoMemory>
    ensures { IfOk result (λ made. IfSome made (λ session. session.out ≡ [])) }
{
    if input.len() > 1_000_000 {
        return Ok(None);
    }
    let mut session = Session::new(alloc, CFG)?;
    session.feed(input)?;
    Ok(Some(session))
}

/// Takes away all that waits, and adds it to the output. Returns in how many pieces it is shown.
fn write(session: &mut Session, output: &mut Octets) -> Result<u32, NoMemory>
    ensures { session.new.out ≡ session.old.out }
{
    'pieces: for piece in 0..1_000 {
        let waiting = session.waiting();
        if waiting.is_empty() {
            return Ok(piece);
        }
        let count = waiting.len();
        output.append(waiting)?;
        session.gone(count);
    }
    Ok(1_000)
}

/// Runs the only call that is out, or has no memory for it, and gives the answer to the session.
fn run(session: &mut Session, caches: &mut Caches, call: Call, lacks: bool) -> Result<(), NoMemory>
    requires out { length session.old.out ≡ 1 }
    requires runnable { IsRunnable call }
    ensures { IfOk result (λ done. session.new.out ≡ []) }
{
    if lacks {
        return session.answer(Err(NoRoom { back: call }));
    }
    session.answer(caches.run(call))
}

/// Does what comes next in a session, and writes what waits then. Returns in how many pieces it is shown.
fn go_on(
    session: &mut Session,
    caches: &mut Caches,
    lacks: bool,
    output: &mut Octets,
) -> Result<u32, NoMemory>
    requires { session.old.out ≡ [] }
    ensures { IfOk result (λ pieces. session.new.out ≡ []) }
{
    match session.next_request()? {
        Step::Run(call) => {
            run(session, caches, call, lacks)?;
            write(session, output)
        }
        Step::Out => write(session, output),
        Step::More { .. } => Ok(0),
        Step::Stop(_) => Ok(0),
    }
}

/// In how many pieces each of the first three replies of a session is shown, and how many bytes they have.
fn pieces_of(
    alloc: Global,
    session: &mut Session,
    caches: &mut Caches,
    lacks: bool,
) -> Result<([u32; 3], usize), NoMemory>
    requires { session.old.out ≡ [] }
{
    let mut output = Octets::empty(alloc);
    let hello = go_on(session, caches, lacks, &mut output)?;
    let put = go_on(session, caches, lacks, &mut output)?;
    let get = go_on(session, caches, lacks, &mut output)?;
    Ok(([hello, put, get], output.len()))
}

/// The same of a session over this input, with the one cache `main`.
fn pieces_over(
    alloc: Global,
    input: &[u8],
    lacks: bool,
) -> Result<Option<([u32; 3], usize)>, Fail> {
    let mut caches = caches(alloc)?;
    let Some(mut session) = session_with(alloc, input)? else {
        return Ok(None);
    };
    let pieces = pieces_of(alloc, &mut session, &mut caches, lacks)?;
    Ok(Some(pieces))
}

/// The letters of a long text.
const LETTERS: u32 = 200_000;

/// A hello, a put of a long text under int 1, and a get of it.
fn long_input(alloc: Global) -> Result<Octets, NoMemory> {
    let text = vec![in alloc; b'a'; LETTERS as usize]?;
    let mut input = Octets::empty(alloc);
    input.append(&HELLO_AND_PUT[..12])?;
    input.append(&(LETTERS + 25).to_le_bytes())?;
    input.append(&HELLO_AND_PUT[16..36])?;
    input.push(9)?;
    input.append(&LETTERS.to_le_bytes())?;
    input.append(text.as_slice())?;
    input.append(&[20, 0, 0, 0, 0xE8, 3])?;
    input.append(&HELLO_AND_PUT[18..36])?;
    Ok(input)
}

#[test]
fn long_replies_are_shown_in_pieces(rt: HostRuntime) -> Result<(), Fail> {
    let input = long_input(rt.alloc())?;
    let pieces = pieces_over(rt.alloc(), input.as_slice(), false)?;
    assert_eq!(rt; pieces, Some(([1, 1, 4], 5 + 16 + 200_021)));
    Ok(())
}

/// Where the caller had no memory for a call, the reply says so.
#[test]
fn a_call_without_memory_is_replied(rt: HostRuntime) -> Result<(), Fail> {
    let pieces = pieces_over(rt.alloc(), &HELLO_AND_PUT, true)?;
    assert_eq!(rt; pieces, Some(([1, 1, 0], 5 + 30)));
    Ok(())
}

// ---- calls that are answered in any order

/// Whether the next call is handed out, under this number.
fn hands_out(session: &mut Session, nth: u64) -> Result<bool, NoMemory>
    ensures is_out { IfOk result (λ yes. yes ≡ true → IsSome (awaited_at session.new.out nth)) }
    ensures others { IfOk result (λ yes. (n : ℕ) → IsSome (awaited_at session.old.out n)
        → IsSome (awaited_at session.new.out n)) }
{
    let Ahead::Run { nth: next, .. } = session.ahead(4)? else {
        return Ok(false);
    };
    Ok(next == nth)
}

/// Whether `ahead` answers so: 'w' for `Wait`, 'o' for `Out`, 'm' for `More`.
fn answers(session: &mut Session, word: u8) -> Result<bool, NoMemory>
    ensures { IfOk result (λ yes. (n : ℕ) → IsSome (awaited_at session.old.out n)
        → IsSome (awaited_at session.new.out n)) }
{
    Ok(match session.ahead(4)? {
        Ahead::Wait => word == b'w',
        Ahead::Out => word == b'o',
        Ahead::More { .. } => word == b'm',
        Ahead::Run { .. } | Ahead::Stop(_) => false,
    })
}

/// Gives the answer to a call that is out, and writes the reply.
fn answer(
    session: &mut Session,
    nth: u64,
    outcome: Outcome,
    output: &mut Octets,
) -> Result<(), NoMemory>
    requires { IsSome (awaited_at session.old.out nth) }
    ensures { IfOk result (λ done. (n : ℕ) → n ≢ nth → IsSome (awaited_at session.old.out n)
        → IsSome (awaited_at session.new.out n)) }
{
    session.answer_nth(nth, Ok(Answer { minor: 0, outcome }))?;
    write(session, output)?;
    Ok(())
}

/// Answers the second of two calls first, where a scan waits for both. Returns false where a step is another one.
fn answer_two(session: &mut Session, output: &mut Octets) -> Result<bool, NoMemory> {
    if !hands_out(session, 0)? {
        return Ok(false);
    }
    if !hands_out(session, 1)? {
        return Ok(false);
    }
    if !answers(session, b'w')? {
        return Ok(false);
    }
    answer(session, 1, Outcome::Done, output)?;
    if !answers(session, b'w')? {
        return Ok(false);
    }
    answer(session, 0, Outcome::Done, output)?;
    Ok(true)
}

/// Answers the scan that comes next, with no rows. Returns false where a step is another one.
fn answer_scan(
    alloc: Global,
    session: &mut Session,
    output: &mut Octets,
) -> Result<bool, NoMemory> {
    if !hands_out(session, 2)? {
        return Ok(false);
    }
    if !answers(session, b'w')? {
        return Ok(false);
    }
    answer(
        session,
        2,
        Outcome::Pairs(Items::new(Vec::new(alloc))),
        output,
    )?;
    answers(session, b'm')
}

/// What a session writes whose second call is answered first. `None` where a step is another one.
fn in_any_order(alloc: Global) -> Result<Option<Octets>, NoMemory> {
    let Some(mut session) = session_with(alloc, &TWO_PUTS_AND_SCAN)? else {
        return Ok(None);
    };
    let mut output = Octets::empty(alloc);
    if !answers(&mut session, b'o')? {
        return Ok(None);
    }
    write(&mut session, &mut output)?;
    if !answer_two(&mut session, &mut output)? {
        return Ok(None);
    }
    if !answer_scan(alloc, &mut session, &mut output)? {
        return Ok(None);
    }
    Ok(Some(output))
}

/// The replies to the puts of that session in the order of their answers, and an empty page.
const IN_ANY_ORDER: [u8; 66] = [
    1, 0, 0, 0, 1, 12, 0, 0, 0, 2, 0, 0, 0, 0, 0, 0, 0, 0, 0, 0, 0, 12, 0, 0, 0, 1, 0, 0, 0, 0, 0,
    0, 0, 0, 0, 0, 0, 25, 0, 0, 0, 3, 0, 0, 0, 0, 0, 0, 0, 0, 0, 0, 0, 1, 0, 0, 0, 0, 0, 0, 0, 0,
    0, 0, 0, 0,
];

#[test]
fn replies_stand_in_the_order_of_answers(rt: HostRuntime) -> Result<(), Fail> {
    let Some(output) = in_any_order(rt.alloc())? else {
        assert!(rt; false);
        return Ok(());
    };
    assert_eq!(rt; output.as_slice(), &IN_ANY_ORDER[..]);
    Ok(())
}
