//! The heads of replies as messages.

ghost use Rattle.std.specs.Prelude.{pos, ◌++◌};
ghost use Rattle.std.specs.Int.{w32};
ghost use Rattle.ig_base.specs.Numbers.{LE};
ghost use Rattle.ig_wire.specs.Versions.{has_flags as version_has_flags};
ghost use Rattle.ig_wire.specs.Heads.{head_bytes, MayTell, HasShortText};
ghost use Rattle.ig_wire.specs.HeadViews.{owned_faults, owned_head};
ghost use Rattle.ig_replies.specs.HeadProps.{MayTell-prop, HasShortText-prop};

use ig_encode::{Output, ValueOutput, put_count};
use ig_fields::Message;
use ig_wire::{HeadView, Version, put_head};

/// The head of a reply at a version.
#[derive(Drop)]
pub(crate) struct Head<'a> {
    pub(crate) version: Version,
    pub(crate) view: HeadView<'a>,
    ghost may: { MayTell (version_has_flags version) view.told (owned_faults view.fault) } by { MayTell-prop (version_has_flags version) view.told (owned_faults view.fault) },
    ghost small: { HasShortText (owned_faults view.fault) } by { HasShortText-prop (owned_faults view.fault) },
}

impl Message for Head<'_> {
    ghost bytes = { λ head. head_bytes head.version (owned_head head.view) };

    fn put<S: ValueOutput>(&self, out: &mut S, into: &mut [u8]) {
        put_head(self.version, &self.view, out, into);
    }
}

/// What comes before the result of a reply: the length of the body, and the head.
#[derive(Drop)]
pub(crate) struct Lead<'a> {
    pub(crate) body_len: usize,
    pub(crate) head: Head<'a>,
}

impl Message for Lead<'_> {
    ghost bytes = { λ lead. LE w32 (pos lead.body_len)
        ++ head_bytes lead.head.version (owned_head lead.head.view) };

    fn put<S: ValueOutput>(&self, out: &mut S, into: &mut [u8]) {
        put_count(self.body_len, out, into);
        self.head.put(out, into);
    }
}
