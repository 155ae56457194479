//! Channels over links that follow scripts: what each call answers, and what is written.

ghost use Rattle.ig_client.specs.RequestBodies.{IsSubmittable};

use crate::links::{ACCEPTED, ACCEPTED_BY_NODE, DONE_1, Read, link, login, put, started};
use ig_base::{Items, NoMemory, NoRoom, NodeId, Octets};
use ig_caches::Request;
use ig_client::{Break, Channel, ChannelAsk, ChannelFault, ChannelGot};
use ig_link::{MemLink, Retired, WriteStep};
use ig_turn::Plain;
use ig_wire::{Version, hello_len};
use std::alloc::Global;
use std::test::Fail;

/// A call of a channel, and what it answers.
#[derive(Clone, Copy)]
enum Step {
    /// A put of 1 to 2 in the cache `main`.
    Submit(Result<i64, ChannelFault>),
    /// A request for the partition maps of no caches.
    SubmitParts(Result<i64, ChannelFault>),
    /// How many bytes were read.
    Pump(Result<usize, ChannelFault>),
    Take(i64, Option<&'static [u8]>),
    /// Whether the link was retired.
    Close(bool),
}

/// A channel, its calls, and what its link shows as written if it is closed after them.
struct Row {
    version: Version,
    has_login: bool,
    reads: &'static [Read],
    writes: &'static [WriteStep],
    calls: &'static [Step],
    written: &'static [&'static [u8]],
}

const HELLO: &[u8] = &[8, 0, 0, 0, 1, 1, 0, 0, 0, 0, 0, 2];

const HELLO_1_1: &[u8] = &[8, 0, 0, 0, 1, 1, 0, 1, 0, 0, 0, 2];

const HELLO_WITH_LOGIN: &[u8] = &[
    20, 0, 0, 0, 1, 1, 0, 1, 0, 0, 0, 2, 9, 1, 0, 0, 0, 117, 9, 1, 0, 0, 0, 112,
];

const HELLO_1_4: &[u8] = &[8, 0, 0, 0, 1, 1, 0, 4, 0, 0, 0, 2];

const PUT_1: &[u8] = &[
    25, 0, 0, 0, 0xE9, 3, 1, 0, 0, 0, 0, 0, 0, 0, 0xB9, 5, 0x33, 0, 0, 3, 1, 0, 0, 0, 3, 2, 0, 0, 0,
];

const PUT_2: &[u8] = &[
    25, 0, 0, 0, 0xE9, 3, 2, 0, 0, 0, 0, 0, 0, 0, 0xB9, 5, 0x33, 0, 0, 3, 1, 0, 0, 0, 3, 2, 0, 0, 0,
];

const PUT_3: &[u8] = &[
    25, 0, 0, 0, 0xE9, 3, 3, 0, 0, 0, 0, 0, 0, 0, 0xB9, 5, 0x33, 0, 0, 3, 1, 0, 0, 0, 3, 2, 0, 0, 0,
];

const PUT_4: &[u8] = &[
    25, 0, 0, 0, 0xE9, 3, 4, 0, 0, 0, 0, 0, 0, 0, 0xB9, 5, 0x33, 0, 0, 3, 1, 0, 0, 0, 3, 2, 0, 0, 0,
];

const PARTS_2: &[u8] = &[14, 0, 0, 0, 0x4D, 4, 2, 0, 0, 0, 0, 0, 0, 0, 0, 0, 0, 0];

const PARTS_5: &[u8] = &[14, 0, 0, 0, 0x4D, 4, 5, 0, 0, 0, 0, 0, 0, 0, 0, 0, 0, 0];

const DONE_2: &[u8] = &[12, 0, 0, 0, 2, 0, 0, 0, 0, 0, 0, 0, 0, 0, 0, 0];

const DONE_3: &[u8] = &[12, 0, 0, 0, 3, 0, 0, 0, 0, 0, 0, 0, 0, 0, 0, 0];

const DONE_9: &[u8] = &[12, 0, 0, 0, 9, 0, 0, 0, 0, 0, 0, 0, 0, 0, 0, 0];

// Lengths that are out of range below 1.4.0, above the limit, and at 1.4.0.

const SHORT: &[u8] = &[11, 0, 0, 0];

const LONG: &[u8] = &[1, 0, 0x80, 0];

const SHORT_1_4: &[u8] = &[9, 0, 0, 0];

// Replies at 1.4.0: one that tells the topology, a value, a fault without and with the topology, a head
// alone, and a partition map without caches.

const TOLD_1: &[u8] = &[
    22, 0, 0, 0, 1, 0, 0, 0, 0, 0, 0, 0, 2, 0, 1, 0, 0, 0, 0, 0, 0, 0, 0, 0, 0, 0,
];

const FOUND_2: &[u8] = &[15, 0, 0, 0, 2, 0, 0, 0, 0, 0, 0, 0, 0, 0, 3, 2, 0, 0, 0];

const FAULT_3: &[u8] = &[
    39, 0, 0, 0, 3, 0, 0, 0, 0, 0, 0, 0, 1, 0, 0xE8, 3, 0, 0, 9, 20, 0, 0, 0, 99, 97, 99, 104, 101,
    32, 100, 111, 101, 115, 32, 110, 111, 116, 32, 101, 120, 105, 115, 116,
];

const TOLD_FAULT_3: &[u8] = &[
    51, 0, 0, 0, 3, 0, 0, 0, 0, 0, 0, 0, 3, 0, 1, 0, 0, 0, 0, 0, 0, 0, 0, 0, 0, 0, 0xE8, 3, 0, 0,
    9, 20, 0, 0, 0, 99, 97, 99, 104, 101, 32, 100, 111, 101, 115, 32, 110, 111, 116, 32, 101, 120,
    105, 115, 116,
];

const HEAD_4: &[u8] = &[10, 0, 0, 0, 4, 0, 0, 0, 0, 0, 0, 0, 0, 0];

const MAP_5: &[u8] = &[
    26, 0, 0, 0, 5, 0, 0, 0, 0, 0, 0, 0, 0, 0, 1, 0, 0, 0, 0, 0, 0, 0, 0, 0, 0, 0, 0, 0, 0, 0,
];

static ROWS: [Row; 16] = [
    // Three replies, none in the order of the calls.
    Row {
        version: Version::V1_0_0,
        has_login: false,
        reads: &[
            Read::Bytes(ACCEPTED),
            Read::Bytes(DONE_3),
            Read::Bytes(DONE_1),
            Read::Pause,
            Read::Bytes(DONE_2),
        ],
        writes: &[],
        calls: &[
            Step::Pump(Ok(0)),
            Step::Submit(Ok(1)),
            Step::Submit(Ok(2)),
            Step::Submit(Ok(3)),
            Step::Take(3, None),
            Step::Pump(Ok(4)),
            Step::Pump(Ok(12)),
            Step::Take(1, None),
            Step::Take(3, Some(DONE_3)),
            Step::Take(3, None),
            Step::Pump(Ok(4)),
            Step::Pump(Ok(12)),
            Step::Pump(Ok(0)),
            Step::Pump(Ok(4)),
            Step::Pump(Ok(12)),
            Step::Pump(Ok(0)),
            Step::Take(2, Some(DONE_2)),
            Step::Take(1, Some(DONE_1)),
            Step::Take(0, None),
            Step::Take(-1, None),
        ],
        written: &[HELLO, PUT_1, PUT_2, PUT_3],
    },
    // Replies that come only after both requests were written.
    Row {
        version: Version::V1_0_0,
        has_login: false,
        reads: &[
            Read::Bytes(ACCEPTED),
            Read::AfterWritten(70),
            Read::Bytes(DONE_2),
            Read::Bytes(DONE_1),
        ],
        writes: &[],
        calls: &[
            Step::Submit(Ok(1)),
            Step::Pump(Ok(0)),
            Step::Submit(Ok(2)),
            Step::Pump(Ok(4)),
            Step::Pump(Ok(12)),
            Step::Take(1, None),
            Step::Take(2, Some(DONE_2)),
            Step::Pump(Ok(4)),
            Step::Pump(Ok(12)),
            Step::Take(1, Some(DONE_1)),
        ],
        written: &[HELLO, PUT_1, PUT_2],
    },
    // A reply to a call that isn't pending: it was never made, or was answered before.
    Row {
        version: Version::V1_0_0,
        has_login: false,
        reads: &[Read::Bytes(ACCEPTED), Read::Bytes(DONE_9)],
        writes: &[],
        calls: &[
            Step::Submit(Ok(1)),
            Step::Pump(Ok(4)),
            Step::Pump(Err(ChannelFault::Broke(Break::Unasked { id: 9 }))),
            Step::Pump(Err(ChannelFault::Down(Break::Unasked { id: 9 }))),
            Step::Take(9, None),
            Step::Take(1, None),
        ],
        written: &[HELLO, PUT_1],
    },
    Row {
        version: Version::V1_0_0,
        has_login: false,
        reads: &[
            Read::Bytes(ACCEPTED),
            Read::Bytes(DONE_1),
            Read::Bytes(DONE_9),
        ],
        writes: &[],
        calls: &[
            Step::Submit(Ok(1)),
            Step::Submit(Ok(2)),
            Step::Pump(Ok(4)),
            Step::Pump(Ok(12)),
            Step::Pump(Ok(4)),
            Step::Pump(Err(ChannelFault::Broke(Break::Unasked { id: 9 }))),
            Step::Submit(Err(ChannelFault::Down(Break::Unasked { id: 9 }))),
            Step::Take(1, Some(DONE_1)),
        ],
        written: &[HELLO, PUT_1, PUT_2],
    },
    Row {
        version: Version::V1_0_0,
        has_login: false,
        reads: &[
            Read::Bytes(ACCEPTED),
            Read::Bytes(DONE_1),
            Read::Bytes(DONE_1),
        ],
        writes: &[],
        calls: &[
            Step::Submit(Ok(1)),
            Step::Submit(Ok(2)),
            Step::Pump(Ok(4)),
            Step::Pump(Ok(12)),
            Step::Pump(Ok(4)),
            Step::Pump(Err(ChannelFault::Broke(Break::Unasked { id: 1 }))),
            Step::Pump(Err(ChannelFault::Down(Break::Unasked { id: 1 }))),
        ],
        written: &[HELLO, PUT_1, PUT_2],
    },
    // Lengths out of range.
    Row {
        version: Version::V1_0_0,
        has_login: false,
        reads: &[Read::Bytes(ACCEPTED), Read::Bytes(SHORT)],
        writes: &[],
        calls: &[
            Step::Submit(Ok(1)),
            Step::Pump(Err(ChannelFault::Broke(Break::BadFrame {
                place: 0,
                length: 11,
            }))),
        ],
        written: &[HELLO, PUT_1],
    },
    Row {
        version: Version::V1_0_0,
        has_login: false,
        reads: &[
            Read::Bytes(ACCEPTED),
            Read::Bytes(DONE_1),
            Read::Bytes(LONG),
        ],
        writes: &[],
        calls: &[
            Step::Submit(Ok(1)),
            Step::SubmitParts(Ok(2)),
            Step::Pump(Ok(4)),
            Step::Pump(Ok(12)),
            Step::Pump(Err(ChannelFault::Broke(Break::BadFrame {
                place: 16,
                length: 8_388_609,
            }))),
            Step::Take(1, Some(DONE_1)),
            Step::Take(2, None),
        ],
        written: &[HELLO, PUT_1, PARTS_2],
    },
    // The server ends the connection; a read fails; a write fails after five bytes, or at once.
    Row {
        version: Version::V1_0_0,
        has_login: false,
        reads: &[Read::Bytes(ACCEPTED), Read::Bytes(&[12, 0])],
        writes: &[],
        calls: &[
            Step::Submit(Ok(1)),
            Step::Pump(Ok(2)),
            Step::Pump(Err(ChannelFault::Broke(Break::PeerEnded))),
            Step::SubmitParts(Err(ChannelFault::Down(Break::PeerEnded))),
        ],
        written: &[HELLO, PUT_1],
    },
    Row {
        version: Version::V1_0_0,
        has_login: false,
        reads: &[Read::Bytes(ACCEPTED), Read::Fault, Read::Bytes(DONE_1)],
        writes: &[],
        calls: &[
            Step::Submit(Ok(1)),
            Step::Pump(Err(ChannelFault::Broke(Break::ReadFault))),
            Step::Pump(Err(ChannelFault::Down(Break::ReadFault))),
            Step::Submit(Err(ChannelFault::Down(Break::ReadFault))),
        ],
        written: &[HELLO, PUT_1],
    },
    Row {
        version: Version::V1_0_0,
        has_login: false,
        reads: &[Read::Bytes(ACCEPTED), Read::Bytes(DONE_1)],
        writes: &[
            WriteStep::AtMost(12),
            WriteStep::AtMost(5),
            WriteStep::Fault,
        ],
        calls: &[
            Step::Submit(Err(ChannelFault::Broke(Break::WriteFault))),
            Step::Submit(Err(ChannelFault::Down(Break::WriteFault))),
            Step::Pump(Err(ChannelFault::Down(Break::WriteFault))),
            Step::Take(1, None),
        ],
        written: &[HELLO, &[25, 0, 0, 0, 0xE9]],
    },
    Row {
        version: Version::V1_0_0,
        has_login: false,
        reads: &[Read::Bytes(ACCEPTED)],
        writes: &[WriteStep::AtMost(12), WriteStep::Fault],
        calls: &[
            Step::SubmitParts(Err(ChannelFault::Broke(Break::WriteFault))),
            Step::Submit(Err(ChannelFault::Down(Break::WriteFault))),
        ],
        written: &[HELLO],
    },
    // A channel that is closed; one that broke before.
    Row {
        version: Version::V1_1_0,
        has_login: false,
        reads: &[
            Read::Bytes(ACCEPTED),
            Read::Bytes(DONE_1),
            Read::Bytes(DONE_2),
        ],
        writes: &[],
        calls: &[
            Step::Submit(Ok(1)),
            Step::Submit(Ok(2)),
            Step::Pump(Ok(4)),
            Step::Pump(Ok(12)),
            Step::Close(true),
            Step::Close(false),
            Step::Submit(Err(ChannelFault::Down(Break::Closed))),
            Step::SubmitParts(Err(ChannelFault::Down(Break::Closed))),
            Step::Pump(Err(ChannelFault::Down(Break::Closed))),
            Step::Take(1, Some(DONE_1)),
            Step::Take(2, None),
        ],
        written: &[],
    },
    Row {
        version: Version::V1_1_0,
        has_login: true,
        reads: &[Read::Bytes(ACCEPTED), Read::Fault],
        writes: &[],
        calls: &[
            Step::Submit(Ok(1)),
            Step::Pump(Err(ChannelFault::Broke(Break::ReadFault))),
            Step::Close(true),
            Step::Close(false),
            Step::Submit(Err(ChannelFault::Down(Break::ReadFault))),
        ],
        written: &[],
    },
    // Version 1.1.0 with and without a login.
    Row {
        version: Version::V1_1_0,
        has_login: true,
        reads: &[Read::Bytes(ACCEPTED), Read::Bytes(DONE_1)],
        writes: &[],
        calls: &[
            Step::Submit(Ok(1)),
            Step::Pump(Ok(4)),
            Step::Pump(Ok(12)),
            Step::Take(1, Some(DONE_1)),
        ],
        written: &[HELLO_WITH_LOGIN, PUT_1],
    },
    // Version 1.4.0: replies with heads, in another order than the calls; a length that is too short there.
    Row {
        version: Version::V1_4_0,
        has_login: false,
        reads: &[
            Read::Bytes(ACCEPTED_BY_NODE),
            Read::Bytes(MAP_5),
            Read::Bytes(TOLD_1),
            Read::Bytes(FAULT_3),
            Read::Bytes(FOUND_2),
            Read::Bytes(HEAD_4),
        ],
        writes: &[],
        calls: &[
            Step::Submit(Ok(1)),
            Step::Submit(Ok(2)),
            Step::Submit(Ok(3)),
            Step::Submit(Ok(4)),
            Step::SubmitParts(Ok(5)),
            Step::Pump(Ok(4)),
            Step::Pump(Ok(26)),
            Step::Pump(Ok(4)),
            Step::Pump(Ok(22)),
            Step::Pump(Ok(4)),
            Step::Pump(Ok(39)),
            Step::Pump(Ok(4)),
            Step::Pump(Ok(15)),
            Step::Pump(Ok(4)),
            Step::Pump(Ok(10)),
            Step::Take(1, Some(TOLD_1)),
            Step::Take(2, Some(FOUND_2)),
            Step::Take(3, Some(FAULT_3)),
            Step::Take(4, Some(HEAD_4)),
            Step::Take(5, Some(MAP_5)),
        ],
        written: &[HELLO_1_4, PUT_1, PUT_2, PUT_3, PUT_4, PARTS_5],
    },
    Row {
        version: Version::V1_4_0,
        has_login: false,
        reads: &[
            Read::Bytes(ACCEPTED_BY_NODE),
            Read::Bytes(TOLD_FAULT_3),
            Read::Bytes(SHORT_1_4),
        ],
        writes: &[],
        calls: &[
            Step::Submit(Ok(1)),
            Step::Submit(Ok(2)),
            Step::Submit(Ok(3)),
            Step::Pump(Ok(4)),
            Step::Pump(Ok(51)),
            Step::Pump(Err(ChannelFault::Broke(Break::BadFrame {
                place: 55,
                length: 9,
            }))),
            Step::Take(3, Some(TOLD_FAULT_3)),
        ],
        written: &[HELLO_1_4, PUT_1, PUT_2, PUT_3],
    },
];

/// The link of a channel, if it wasn't closed before.
fn closed(channel: &mut Channel<MemLink>) -> Option<Retired> {
    match channel.act(ChannelAsk::Close) {
        Ok(ChannelGot::Closed(retired)) => retired,
        _ => None,
    }
}

fn is_reply(frame: Option<Octets>, wanted: Option<&[u8]>) -> bool {
    match frame {
        Some(frame) => match wanted {
            Some(bytes) => frame.as_slice() == bytes,
            None => false,
        },
        None => wanted.is_none(),
    }
}

fn is_pumped(answer: Result<Octets, ChannelFault>, wanted: Result<usize, ChannelFault>) -> bool {
    match answer {
        Ok(bytes) => wanted == Ok(bytes.len()),
        Err(fault) => wanted == Err(fault),
    }
}

/// Whether the call answers as the step says.
fn is_followed(
    channel: &mut Channel<MemLink>,
    ask: &Request,
    caches: &Items<i32>,
    step: &Step,
) -> bool
    requires { IsSubmittable ask.now }
{
    match step {
        Step::Submit(answer) => channel.submit(ask) == *answer,
        Step::SubmitParts(answer) => channel.submit_parts(caches) == *answer,
        Step::Pump(answer) => is_pumped(channel.pump(), *answer),
        Step::Take(id, answer) => is_reply(channel.take(*id), *answer),
        Step::Close(is_open) => closed(channel).is_some() == *is_open,
    }
}

/// The first call that doesn't answer as its step says.
fn first_wrong(
    channel: &mut Channel<MemLink>,
    ask: &Request,
    caches: &Items<i32>,
    steps: &[Step],
) -> Option<usize>
    requires { IsSubmittable ask.now }
{
    for (at, step) in steps.iter().enumerate() {
        if !is_followed(channel, ask, caches, step) {
            return Some(at);
        }
    }
    None
}

/// What the object answers to a submit.
fn sent(got: Result<ChannelGot<Retired>, NoRoom<ChannelAsk>>) -> Option<Result<i64, ChannelFault>> {
    match got {
        Ok(ChannelGot::Sent(id)) => Some(Ok(id)),
        Ok(ChannelGot::NotSent { cause, .. }) => Some(Err(cause)),
        Ok(ChannelGot::NotSentParts { cause, .. }) => Some(Err(cause)),
        _ => None,
    }
}

fn is_got_pumped(
    got: Result<ChannelGot<Retired>, NoRoom<ChannelAsk>>,
    wanted: Result<usize, ChannelFault>,
) -> bool {
    match got {
        Ok(ChannelGot::Pumped(bytes)) => is_pumped(Ok(bytes), wanted),
        Ok(ChannelGot::NotPumped(cause)) => wanted == Err(cause),
        _ => false,
    }
}

fn is_got_taken(
    got: Result<ChannelGot<Retired>, NoRoom<ChannelAsk>>,
    wanted: Option<&[u8]>,
) -> bool {
    match got {
        Ok(ChannelGot::Taken(frame)) => is_reply(frame, wanted),
        _ => false,
    }
}

/// Whether the channel answers as the step says where it is asked as an object.
fn is_answered(alloc: Global, channel: &mut Channel<MemLink>, step: &Step) -> bool {
    match step {
        Step::Submit(answer) => sent(channel.act(ChannelAsk::Submit(put()))) == Some(*answer),
        Step::SubmitParts(answer) => {
            let caches = Items::new(Vec::new(alloc));
            sent(channel.act(ChannelAsk::SubmitParts(caches))) == Some(*answer)
        }
        Step::Pump(answer) => is_got_pumped(channel.act(ChannelAsk::Pump), *answer),
        Step::Take(id, answer) => is_got_taken(channel.act(ChannelAsk::Take(*id)), *answer),
        Step::Close(is_open) => closed(channel).is_some() == *is_open,
    }
}

/// The first ask that isn't answered as its step says.
fn first_unanswered(
    alloc: Global,
    channel: &mut Channel<MemLink>,
    steps: &[Step],
) -> Option<usize> {
    for (at, step) in steps.iter().enumerate() {
        if !is_answered(alloc, channel, step) {
            return Some(at);
        }
    }
    None
}

/// Whether these pieces were written, unless the channel was closed before.
fn is_written(
    alloc: Global,
    channel: &mut Channel<MemLink>,
    pieces: &[&[u8]],
) -> Result<bool, NoMemory> {
    let Some(retired) = closed(channel) else {
        return Ok(pieces.is_empty());
    };
    let Some(written) = &retired.written else {
        return Ok(false);
    };
    let mut wanted = Octets::empty(alloc);
    for piece in pieces {
        wanted.append(*piece)?;
    }
    Ok(written.as_slice() == wanted.as_slice())
}

/// A channel as the row has it.
fn channel_of(alloc: Global, row: &Row) -> Result<Option<Channel<MemLink>>, Fail> {
    let link = link(alloc, row.reads, row.writes)?;
    let login = login(alloc)?;
    let login = if row.has_login { Some(&login) } else { None };
    match started(alloc, link, row.version, login) {
        Some(Ok(channel)) => Ok(Some(channel)),
        _ => Ok(None),
    }
}

/// Whether a channel's calls answer as the row says.
fn holds(alloc: Global, row: &Row) -> Result<bool, Fail> {
    let Some(mut channel) = channel_of(alloc, row)? else {
        return Ok(false);
    };
    let caches = Items::new(Vec::new(alloc));
    if first_wrong(&mut channel, &put(), &caches, row.calls).is_some() {
        return Ok(false);
    }
    Ok(is_written(alloc, &mut channel, row.written)?)
}

/// Whether a channel that is asked as an object answers as the row says.
fn holds_of_object(alloc: Global, row: &Row) -> Result<bool, Fail> {
    let Some(mut channel) = channel_of(alloc, row)? else {
        return Ok(false);
    };
    if first_unanswered(alloc, &mut channel, row.calls).is_some() {
        return Ok(false);
    }
    Ok(is_written(alloc, &mut channel, row.written)?)
}

#[test]
fn replies_come_to_their_calls(rt: HostRuntime) -> Result<(), Fail> {
    for (at, row) in ROWS.iter().enumerate() {
        assert!(rt; holds(rt.alloc(), row)?, "row {at}");
    }
    Ok(())
}

#[test]
fn objects_answer_as_channels(rt: HostRuntime) -> Result<(), Fail> {
    for (at, row) in ROWS.iter().enumerate() {
        assert!(rt; holds_of_object(rt.alloc(), row)?, "row {at}");
    }
    Ok(())
}

/// What a channel of version 1.4.0 answers to a request, its node then, and what its link shows.
fn submit_and_retire(
    alloc: Global,
    link: MemLink,
    ask: &Request,
) -> Option<(Result<i64, ChannelFault>, Option<NodeId>, Retired)>
    requires { IsSubmittable ask.now }
{
    if hello_len(None) > 8_388_608 {
        return None;
    }
    let Ok(mut channel) = Channel::start(alloc, link, Version::V1_4_0, None) else {
        return None;
    };
    let answer = channel.submit(ask);
    let node = channel.node();
    Some((answer, node, channel.retire()))
}

#[test]
fn a_retired_link_shows_what_was_written(rt: HostRuntime) -> Result<(), Fail> {
    let link = link(rt.alloc(), &[Read::Bytes(ACCEPTED_BY_NODE)], &[])?;
    let Some((answer, node, retired)) = submit_and_retire(rt.alloc(), link, &put()) else {
        return Err("not started".into());
    };
    assert_eq!(rt; answer, Ok(1));
    assert_eq!(rt; node, Some(NodeId { most: 0, least: 1 }));
    let Some(written) = &retired.written else {
        return Err("not told".into());
    };
    assert_eq!(rt; written.len(), HELLO_1_4.len() + PUT_1.len());
    assert!(rt; written.as_slice().starts_with(HELLO_1_4));
    assert!(rt; written.as_slice().ends_with(PUT_1));
    Ok(())
}
