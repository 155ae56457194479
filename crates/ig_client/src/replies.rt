//! The calls whose replies weren't taken, by identifier.

ghost use Rattle.std.specs.Prelude.{◌≡◌, ◌∷◌, [], None, Some, OnOk, OnErr};
ghost use Rattle.std.specs.FinMap as map;
ghost use Rattle.ig_client.specs.PendingState.{map_of, is_waiting, came, left_by};

use ig_base::{NoMemory, Octets};
use std::collections::BTreeMap;

/// Each call with the frame of its reply, if it came.
pub(crate) type Replies = BTreeMap<i64, Option<Octets>>;

/// Whether the call has no reply yet.
pub(crate) fn is_waiting(replies: &Replies, id: i64) -> bool
    ensures { result ≡ is_waiting (map.get (map_of replies.now.entries) id) }
{
    match replies.get(&id) {
        Some(None) => true,
        Some(Some(_)) => false,
        None => false,
    }
}

/// Adds a call without a reply. On an error nothing was added.
pub(crate) fn put_call(replies: &mut Replies, id: i64) -> Result<(), NoMemory>
    ensures ok { OnOk result
        (map_of replies.new.entries ≡ map.insert (map_of replies.old.entries) id None) }
    ensures err { OnErr result (replies.new.entries ≡ replies.old.entries) }
{
    replies.insert(id, None)?;
    Ok(())
}

/// Adds the frame of the reply to a call that has none yet. Takes no memory.
pub(crate) fn put_reply(replies: &mut Replies, id: i64, frame: Octets)
    requires { map.get (map_of replies.old.entries) id ≡ Some None }
    ensures { map_of replies.new.entries ≡ map.insert (map_of replies.old.entries) id (Some frame) }
{
    let _ = replies.insert(id, Some(frame));
}

/// The frame of the reply to the call, if it came; the call is removed then. Takes no memory.
pub(crate) fn take_reply(replies: &mut Replies, id: i64) -> Option<Octets>
    ensures frame { result ≡ came (map.get (map_of replies.old.entries) id) }
    ensures new { map_of replies.new.entries ≡ left_by id result (map_of replies.old.entries) }
{
    match replies.get(&id) {
        Some(Some(_)) => {}
        Some(None) => return None,
        None => return None,
    }
    replies.remove(&id)?
}
