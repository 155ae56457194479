//! Requests that are offered to a channel: each gets its identifier and its frame.

ghost use Rattle.std.specs.Prelude.{◌≡◌, take, Ok, IfErr, IfOk};

use crate::fault::ChannelFault;
use crate::pending::Pending;
use crate::request::write_request;
use ig_base::{Items, NoMemory, Octets};
use ig_caches::Request;
use ig_parts::write_parts_ask;
use std::alloc::Global;
use std::mem;

/// The first `len` bytes alone. Takes no memory.
fn cut_back(alloc: Global, bytes: &mut Octets, len: usize)
    ensures { bytes.new ≡ take len bytes.old }
{
    let mut all = mem::replace(bytes, Octets::empty(alloc)).into_std();
    all.truncate(len);
    *bytes = Octets::new(all);
}

impl Pending {
    ghost use Rattle.ig_client.specs.RequestBodies.{IsSubmittable, request_body};
    ghost use Rattle.ig_client.specs.PendingState.{Offers, next_id, with_call};
    ghost use Rattle.ig_client.specs.declared.fault.ChannelFault.TheVariants as fault;
    ghost use Rattle.ig_parts.specs.PartsMessages.{ask_body as parts_body};

    /// Offers a request: it gets the next identifier, which is pending from now on, and its frame is
    /// appended. On an error nothing changed.
    ///
    /// # Errors
    ///
    /// The first that holds: [`ChannelFault::Down`] if the channel broke, [`ChannelFault::Spent`] if all
    /// identifiers were used, [`ChannelFault::Full`] if as many calls are pending as may be, and
    /// [`ChannelFault::TooLong`] if the body of the frame is above the limit. [`ChannelFault::NoMemory`]
    /// if memory runs out.
    pub fn offer(&mut self, ask: &Request, out: &mut Octets) -> Result<i64, ChannelFault>
        requires { IsSubmittable ask.now }
        ensures { Offers (λ id. request_body id ask.now) self.old self.new out.old out.new result }
    {
        let id = self.next_id()?;
        let len = out.len();
        if !write_request(self.alloc, id, ask, out)? {
            return Err(ChannelFault::TooLong);
        }
        self.add_or_cut(id, out, len)
    }

    /// Offers a request for the partition maps of caches, as `offer` does a request.
    pub fn offer_parts(
        &mut self,
        caches: &Items<i32>,
        out: &mut Octets,
    ) -> Result<i64, ChannelFault>
        ensures { Offers (λ id. parts_body id caches.now) self.old self.new out.old out.new result }
    {
        let id = self.next_id()?;
        let len = out.len();
        if !write_parts_ask(self.alloc, id, caches, out)? {
            return Err(ChannelFault::TooLong);
        }
        self.add_or_cut(id, out, len)
    }

    /// Adds a call whose frame was appended after the first `len` bytes; cuts the frame off again where
    /// there is no memory for the call.
    fn add_or_cut(&mut self, id: i64, out: &mut Octets, len: usize) -> Result<i64, ChannelFault>
        requires { next_id self.old ≡ Ok id }
        ensures ok { IfOk result (λ given. (given ≡ id) × (self.new ≡ with_call self.old)
            × (out.new ≡ out.old)) }
        ensures err { IfErr result (λ cause. (cause ≡ fault.NoMemory) × (self.new ≡ self.old)
            × (out.new ≡ take len out.old)) }
    {
        match self.add(id) {
            Ok(()) => Ok(id),
            Err(NoMemory) => {
                cut_back(self.alloc, out, len);
                Err(ChannelFault::NoMemory)
            }
        }
    }
}
