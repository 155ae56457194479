//! The bodies of replies: their heads, and their lengths.

ghost use Rattle.std.specs.Prelude.{◌≡◌, ◌-◌, ◌^◌, min, length};
ghost use Rattle.ig_wire.specs.HeadViews.{owned_head, owned_faults};
ghost use Rattle.ig_deals.specs.Replies.{head_of, fault_in, reply_body};
ghost use Rattle.ig_replies.specs.Contents.{content_said, reply_said, MayBeShown};

use crate::head::Head;
use crate::reply::{Content, Reply};
use crate::result::content_len;
use ig_fields::message_len;
use ig_wire::{FaultView, HeadView, Reason, Version};

/// The fault of the content, if it is one.
fn fault_view(content: &Content) -> Option<FaultView<'_>>
    ensures { owned_faults result ≡ fault_in (content_said content.now) }
{
    match content {
        Content::Shows(_) => None,
        Content::Maps(_) => None,
        Content::Refuses(reason) => Some(FaultView {
            status: reason.status(),
            text: reason.text(),
        }),
        Content::Malformed(text) => Some(FaultView {
            status: Reason::Malformed.status(),
            text: text.as_str(),
        }),
    }
}

/// The head of the reply.
pub(crate) fn head_at(version: Version, reply: &Reply) -> Head<'_>
    requires { MayBeShown version reply.now }
    ensures version { result.version ≡ version }
    ensures view { owned_head result.view ≡ head_of (reply_said reply.now) }
{
    Head {
        version,
        view: HeadView {
            id: reply.id,
            told: reply.told,
            fault: fault_view(&reply.content),
        },
    }
}

/// The number of bytes of the reply's body; it saturates at `u128::MAX`. Takes no memory.
pub fn body_len(version: Version, reply: &Reply) -> u128
    requires { MayBeShown version reply.now }
    ensures { result ≡ min (length (reply_body version (reply_said reply.now))) (2 ^ 128 - 1) }
{
    message_len(&head_at(version, reply)).saturating_add(content_len(&reply.content))
}
