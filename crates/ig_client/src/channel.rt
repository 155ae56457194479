//! A channel: a client's connection, which gives each reply to the call that asked for it.

ghost use Rattle.std.specs.Prelude.{◌≡◌, ◌≤◌, length, Some, IsSome, IfOk, IfErr};
ghost use Rattle.std.specs.Option.{option_copied};
ghost use Rattle.ig_base.specs.Frames.{max_body};
ghost use Rattle.ig_link.specs.Shows.{Shows};
ghost use Rattle.ig_wire.specs.Greets.{MayLogin, hello_bytes};

use crate::fault::{Break, ChannelFault, HandshakeFault};
use crate::greet::greet;
use crate::pending::Pending;
use crate::steps::{file_read, next_piece, submit_over, submit_parts_over};
use ig_base::{Items, NodeId, Octets};
use ig_caches::Request;
use ig_link::Link;
use ig_wire::{Login, Version};
use std::alloc::Global;

/// A connection after its handshake.
#[derive(Drop)]
pub struct Channel<L: Link> {
    pub(crate) alloc: Global,
    pub(crate) version: Version,
    pub(crate) node: Option<NodeId>,
    pub(crate) pending: Pending,
    // None once the channel was closed.
    pub(crate) link: Option<L>,
}

/// Why a channel wasn't started, and what is left of its link.
#[derive(Drop)]
pub struct NotStarted<L: Link> {
    pub cause: HandshakeFault,
    pub retired: L::Left,
}

impl<L: Link> Channel<L> {
    ghost use Rattle.std.specs.Prelude.{[]};
    ghost use Rattle.ig_client.specs.declared.fault.HandshakeFault.TheVariants.{NoMemory};
    ghost use Rattle.ig_client.specs.declared.ask.ChannelAsk.TheVariants as asks;
    ghost use Rattle.ig_client.specs.declared.ask.ChannelGot.TheVariants as got;
    ghost use Rattle.ig_client.specs.RequestBodies.{IsSubmittable};
    ghost use Rattle.ig_client.specs.Greeted.{GreetedWell, GreetedInVain};
    ghost use Rattle.ig_client.specs.Stands.{start_of, ChannelStands, Gains, submit_pair, pump_pair};

    /// Greets the server and reads its reply.
    ///
    /// # Errors
    ///
    /// [`NotStarted`] with the retired link. Its cause is [`HandshakeFault::Broke`] if the link failed or
    /// ended or the length of the server's frame is out of range, [`HandshakeFault::BadReply`] exactly if
    /// the frame isn't a reply to a hello, [`HandshakeFault::Refused`] exactly if it refuses the hello,
    /// and [`HandshakeFault::NoMemory`] if memory runs out.
    pub fn start(
        alloc: Global,
        link: L,
        version: Version,
        login: Option<&Login>,
    ) -> Result<Channel<L>, NotStarted<L>>
        requires login { MayLogin version (option_copied login) }
        requires small { length (hello_bytes version (option_copied login)) ≤ max_body }
        ensures stands { IfOk result (λ channel. ChannelStands L.source L.sink channel.pending channel.link
            (start_of channel.version L.source L.sink channel.link) []) }
        ensures version { IfOk result (λ channel. channel.version ≡ version) }
        ensures link { IfOk result (λ channel. IsSome channel.link) }
        ensures greeted { IfOk result (λ channel. GreetedWell L.source L.sink version
            (option_copied login.entry) link channel.link channel.node) }
        ensures err { IfErr result (λ e. GreetedInVain version (option_copied login.entry)
            (L.source link) (L.sink link) e.cause (L.Left.shows e.retired)) }
    {
        let mut link = link;
        match greet(alloc, &mut link, version, login) {
            Ok(node) => Channel::over(alloc, link, version, node),
            Err(cause) => Err(NotStarted {
                cause,
                retired: link.retire(),
            }),
        }
    }

    /// The channel over a link whose handshake is done.
    fn over(
        alloc: Global,
        link: L,
        version: Version,
        node: Option<NodeId>,
    ) -> Result<Channel<L>, NotStarted<L>>
        ensures stands { IfOk result (λ channel. ChannelStands L.source L.sink channel.pending channel.link
            (start_of channel.version L.source L.sink channel.link) []) }
        ensures version { IfOk result (λ channel. channel.version ≡ version) }
        ensures same { IfOk result (λ channel. (channel.link ≡ Some link) × (channel.node ≡ node)) }
        ensures err { IfErr result (λ e. (e.cause ≡ NoMemory)
            × Shows (L.source link) (L.sink link) (L.Left.shows e.retired)) }
    {
        match Pending::new(alloc, version) {
            Ok(pending) => Ok(Channel {
                alloc,
                version,
                node,
                pending,
                link: Some(link),
            }),
            Err(_) => Err(NotStarted {
                cause: HandshakeFault::NoMemory,
                retired: link.retire(),
            }),
        }
    }

    /// The server's node, which it tells from version 1.4.0 on. Takes no memory.
    pub fn node(&self) -> Option<NodeId>
        ensures { result ≡ self.now.node }
    {
        self.node
    }

    /// Submits a request: writes its frame, and answers its identifier. All memory is taken before the
    /// first byte is written.
    ///
    /// # Errors
    ///
    /// The first that holds: [`ChannelFault::Down`] with the first break of the channel,
    /// [`ChannelFault::Spent`] if all identifiers were used, [`ChannelFault::Full`] if as many calls are
    /// pending as may be, [`ChannelFault::TooLong`] if the body of the frame is above the limit, and
    /// [`ChannelFault::Broke`] if a write fails. The last one alone changes the channel, which is down
    /// from then on. [`ChannelFault::NoMemory`] if memory runs out.
    pub fn submit(&mut self, ask: &Request) -> Result<i64, ChannelFault>
        requires { IsSubmittable ask.now }
        ensures pairs { Gains (ChannelStands L.source L.sink self.old.pending self.old.link)
            (ChannelStands L.source L.sink self.new.pending self.new.link) (submit_pair (asks.Submit ask.now) (got.NotSent ask.now) result) }
        ensures same { (self.new.version ≡ self.old.version) × (self.new.node ≡ self.old.node) }
        ensures link { IsSome self.old.link → IsSome self.new.link }
    {
        submit_over(self.alloc, &mut self.pending, &mut self.link, ask)
    }

    /// Submits a request for the partition maps of caches, as `submit` does a request.
    pub fn submit_parts(&mut self, caches: &Items<i32>) -> Result<i64, ChannelFault>
        ensures pairs { Gains (ChannelStands L.source L.sink self.old.pending self.old.link)
            (ChannelStands L.source L.sink self.new.pending self.new.link) (submit_pair (asks.SubmitParts caches.now) (got.NotSentParts caches.now) result) }
        ensures same { (self.new.version ≡ self.old.version) × (self.new.node ≡ self.old.node) }
        ensures link { IsSome self.old.link → IsSome self.new.link }
    {
        submit_parts_over(self.alloc, &mut self.pending, &mut self.link, caches)
    }

    /// Reads what is there, and files each whole frame under its identifier. Answers the bytes that were
    /// read: none where nothing was there yet, and where no call is pending; then nothing is read.
    ///
    /// # Errors
    ///
    /// [`ChannelFault::Down`] with the first break of the channel; [`ChannelFault::Broke`] if the read
    /// fails, the server ended the connection, or it sent a length out of range or a reply to a call that
    /// isn't pending: then the channel is down from then on. [`ChannelFault::NoMemory`] if memory runs
    /// out; nothing was read then.
    pub fn pump(&mut self) -> Result<Octets, ChannelFault>
        ensures pairs { Gains (ChannelStands L.source L.sink self.old.pending self.old.link)
            (ChannelStands L.source L.sink self.new.pending self.new.link) (pump_pair result) }
        ensures same { (self.new.version ≡ self.old.version) × (self.new.node ≡ self.old.node) }
        ensures link { IsSome self.old.link → IsSome self.new.link }
    {
        let mut piece = next_piece(self.alloc, &mut self.pending)?;
        if piece.is_empty() {
            return Ok(Octets::new(piece));
        }
        let Some(link) = &mut self.link else {
            return Err(ChannelFault::Down(Break::Closed));
        };
        let answer = link.read_now(piece.as_mut_slice());
        file_read(&mut self.pending, answer, piece)
    }

    /// The frame of the reply to the call with this identifier, its length included, if it came and
    /// wasn't taken; it is forgotten then. Takes no memory. Works on a channel that is down.
    pub fn take(&mut self, id: i64) -> Option<Octets>
        ensures pairs { Gains (ChannelStands L.source L.sink self.old.pending self.old.link)
            (ChannelStands L.source L.sink self.new.pending self.new.link) (Some (asks.Take id, got.Taken result)) }
        ensures same { (self.new.version ≡ self.old.version) × (self.new.node ≡ self.old.node) }
        ensures link { IsSome self.old.link → IsSome self.new.link }
    {
        self.pending.take(id)
    }

    /// Retires the link. The channel wasn't closed. Takes no memory.
    pub fn retire(self) -> L::Left
        requires { IsSome self.link }
        ensures { (link : L) → self.link ≡ Some link → Shows (L.source link) (L.sink link) (L.Left.shows result) }
    {
        let Channel { link, .. } = self;
        link.unwrap().retire()
    }
}
