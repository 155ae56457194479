//! A channel behind a turn.

ghost use Rattle.std.specs.Prelude.{IfSome};
ghost use Rattle.ig_turn.specs.History.{IsOf};

use crate::links::{ACCEPTED, DONE_1, Read, link, put};
use ig_client::{Channel, ChannelAsk, ChannelGot};
use ig_link::MemLink;
use ig_turn::{Turn, TurnSeat};
use ig_wire::{Version, hello_len};
use std::alloc::Global;
use std::sync::Wait;
use std::test::Fail;

/// A channel of version 1.0.0 behind a turn, with its first seat.
type Shared = (Turn<Channel<MemLink>>, TurnSeat<Channel<MemLink>>);

fn shared(alloc: Global, link: MemLink) -> Option<Shared>
    ensures { IfSome result (λ made. IsOf made.0 made.1) }
{
    if hello_len(None) > 8_388_608 {
        return None;
    }
    let Ok(channel) = Channel::start(alloc, link, Version::V1_0_0, None) else {
        return None;
    };
    Turn::new(alloc, channel).ok()
}

/// Sends a put, pumps this often and takes the reply: how many bytes it has.
fn put_and_take<R: Wait>(
    rt: &R,
    turn: &Turn<Channel<MemLink>>,
    seat: &mut TurnSeat<Channel<MemLink>>,
    pumps: u32,
) -> Option<usize>
    requires { IsOf turn.now seat.old }
{
    let Ok(ChannelGot::Sent(id)) = turn.run(rt, seat, ChannelAsk::Submit(put())) else {
        return None;
    };
    for _ in 0..pumps {
        if turn.run(rt, seat, ChannelAsk::Pump).is_err() {
            return None;
        }
    }
    match turn.run(rt, seat, ChannelAsk::Take(id)) {
        Ok(ChannelGot::Taken(Some(frame))) => Some(frame.len()),
        _ => None,
    }
}

#[test]
fn a_channel_stands_behind_a_turn(rt: HostRuntime) -> Result<(), Fail> {
    let reads = [Read::Bytes(ACCEPTED), Read::Bytes(DONE_1)];
    let link = link(rt.alloc(), &reads, &[])?;
    let Some((turn, mut seat)) = shared(rt.alloc(), link) else {
        return Err("not shared".into());
    };
    assert_eq!(rt; put_and_take(&rt, &turn, &mut seat, 2), Some(16));
    Ok(())
}
