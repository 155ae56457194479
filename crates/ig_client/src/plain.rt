//! A channel as an object that can be put behind a turn.

ghost use Rattle.std.specs.Prelude.{◌≡◌};
ghost use Rattle.ig_client.specs.Plain.{submitted, submitted_parts, pump_got};

use crate::ask::{ChannelAsk, ChannelGot, ChannelStart};
use crate::channel::Channel;
use crate::fault::{Break, ChannelFault};
use crate::steps::{file_read, next_piece, submit_over, submit_parts_over};
use ig_base::{Items, NoRoom, Octets};
use ig_caches::Request;
use ig_link::{Link, Retired};
use ig_turn::Plain;

/// The answer to a submit. A request for which there is no memory comes back.
fn submitted<A>(
    answer: Result<i64, ChannelFault>,
    ask: Request,
) -> Result<ChannelGot<A>, NoRoom<ChannelAsk>>
    ensures { result ≡ submitted answer ask }
{
    match answer {
        Ok(id) => {
            drop(ask);
            Ok(ChannelGot::Sent(id))
        }
        Err(ChannelFault::NoMemory) => Err(NoRoom {
            back: ChannelAsk::Submit(ask),
        }),
        Err(cause) => Ok(ChannelGot::NotSent { ask, cause }),
    }
}

/// The answer to a submit of a request for partition maps.
fn submitted_parts<A>(
    answer: Result<i64, ChannelFault>,
    caches: Items<i32>,
) -> Result<ChannelGot<A>, NoRoom<ChannelAsk>>
    ensures { result ≡ submitted_parts answer caches }
{
    match answer {
        Ok(id) => Ok(ChannelGot::Sent(id)),
        Err(ChannelFault::NoMemory) => Err(NoRoom {
            back: ChannelAsk::SubmitParts(caches),
        }),
        Err(cause) => Ok(ChannelGot::NotSentParts { caches, cause }),
    }
}

/// The answer to a pump.
fn pumped<A>(answer: Result<Octets, ChannelFault>) -> Result<ChannelGot<A>, NoRoom<ChannelAsk>>
    ensures { result ≡ pump_got answer }
{
    match answer {
        Ok(bytes) => Ok(ChannelGot::Pumped(bytes)),
        Err(ChannelFault::NoMemory) => Err(NoRoom {
            back: ChannelAsk::Pump,
        }),
        Err(cause) => Ok(ChannelGot::NotPumped(cause)),
    }
}

impl<L: Link> Plain for Channel<L> {
    ghost use Rattle.ig_client.specs.Plain.{got_data, CanAsk, IsSure, any_start};
    ghost use Rattle.ig_client.specs.ChannelRun.{Runs};
    ghost use Rattle.ig_client.specs.Stands.{ChannelStands, start_of};
    ghost use Rattle.ig_client.specs.RunLaws.{runs_front};

    type Ask = ChannelAsk;

    type Got = ChannelGot<L::Left>;

    type AskData = ChannelAsk;

    type GotData = ChannelGot<Retired>;

    type Start = ChannelStart;

    ghost ask_data = { λ ask. ask };

    ghost got_data = { λ got. got_data L.Left.shows got };

    ghost stands = { λ channel start pairs. ChannelStands L.source L.sink channel.pending channel.link start pairs };

    ghost runs = { λ start pairs. Runs start pairs };

    ghost start_of = { λ channel. start_of channel.version L.source L.sink channel.link };

    ghost any_start = { any_start };

    ghost fits = { λ ask. CanAsk ask };

    ghost is_sure = { λ ask. IsSure ask };

    fn act(&mut self, ask: ChannelAsk) -> Result<ChannelGot<L::Left>, NoRoom<ChannelAsk>> {
        match ask {
            ChannelAsk::Submit(request) => submitted(
                submit_over(self.alloc, &mut self.pending, &mut self.link, &request),
                request,
            ),
            ChannelAsk::SubmitParts(caches) => submitted_parts(
                submit_parts_over(self.alloc, &mut self.pending, &mut self.link, &caches),
                caches,
            ),
            ChannelAsk::Pump => match next_piece(self.alloc, &mut self.pending) {
                Err(cause) => pumped(Err(cause)),
                Ok(mut piece) => {
                    if piece.is_empty() {
                        return pumped(Ok(Octets::new(piece)));
                    }
                    let Some(link) = &mut self.link else {
                        return pumped(Err(ChannelFault::Down(Break::Closed)));
                    };
                    let answer = link.read_now(piece.as_mut_slice());
                    pumped(file_read(&mut self.pending, answer, piece))
                }
            },
            ChannelAsk::Take(id) => Ok(ChannelGot::Taken(self.pending.take(id))),
            ChannelAsk::Close => {
                let Some(link) = self.link.take() else {
                    return Ok(ChannelGot::Closed(None));
                };
                if self.pending.down().is_none() {
                    self.pending.broke(Break::Closed);
                }
                Ok(ChannelGot::Closed(Some(link.retire())))
            }
        }
    }

    ghost stands_runs = { λ channel start pairs s. (s.bytes, record { last = s.last; given_are = s.given_are; each = s.each s.last s.given_are }) };

    ghost runs_prefix = { λ start pairs more r. runs_front start pairs more r };
}
