//! Laws of hellos, their replies, and heads. These functions do nothing; their contracts say what
//! holds of all bytes.

ghost use Rattle.std.specs.Prelude.{◌≡◌};
ghost use Rattle.ig_base.specs.Frames.{client, server, server_1_4};
ghost use Rattle.ig_wire.specs.declared.version.TheConstants.Version as constants;
ghost use Rattle.ig_wire.specs.Versions.{version_1_0, version_1_1, version_1_4, highest_version};
ghost use Rattle.ig_wire.specs.Limits.{most_cursors, most_pending_calls, most_caches, most_cache_changes, most_session_bytes, piece_bytes};
ghost use Rattle.ig_wire.specs.Laws.{GreetingIsRight, OneGreeting, WrittenHelloIsRead, HelloTellsApart, WrittenReplyIsRead, ReadReplyIsSpelled, ReplyTellsApart, ReplyStopsRightly, ReplyStopIsRead, WrittenHeadIsRead, ReadHeadIsSpelled, HeadTellsApart, HeadStopsRightly, HeadStopIsRead};

use crate::ask::ASK_HEAD;
use crate::greeting::LEAST_HELLO;
use crate::hello_reply_calls::LEAST_HELLO_REPLY;
use crate::limits::{CACHE_CHANGES, CACHES, OPEN_CURSORS, PENDING_CALLS, PIECE, SESSION_BYTES};

/// The answer that reading a hello gives is the one right answer: the version accepted, or the first of
/// the four refusals. A hello that was written is accepted, and no two have the same bytes.
pub fn one_greeting()
    ensures right { GreetingIsRight }
    ensures only { OneGreeting }
    ensures written { WrittenHelloIsRead }
    ensures apart { HelloTellsApart }
{}

/// The reply to a hello is read as it was written, no two have the same bytes, and what doesn't read
/// stops being a reply at the offset that reading tells.
pub fn one_hello_reply()
    ensures written { WrittenReplyIsRead }
    ensures spelled { ReadReplyIsSpelled }
    ensures apart { ReplyTellsApart }
    ensures stops { ReplyStopsRightly }
    ensures stopped { ReplyStopIsRead }
{}

/// The same of the head of a reply to a request, which a result may follow.
pub fn one_head()
    ensures written { WrittenHeadIsRead }
    ensures spelled { ReadHeadIsSpelled }
    ensures apart { HeadTellsApart }
    ensures stops { HeadStopsRightly }
    ensures stopped { HeadStopIsRead }
{}

/// The least lengths of bodies are those by which a stream is cut into frames.
pub fn least_lengths()
    ensures hello { LEAST_HELLO ≡ client.first }
    ensures request { ASK_HEAD ≡ client.later }
    ensures hello_reply { LEAST_HELLO_REPLY ≡ server.first }
    ensures hello_reply_1_4 { LEAST_HELLO_REPLY ≡ server_1_4.first }
{}

/// The constants of the limits are those that contracts speak of.
pub fn greatest_counts()
    ensures cursors { OPEN_CURSORS ≡ most_cursors }
    ensures pending { PENDING_CALLS ≡ most_pending_calls }
    ensures caches { CACHES ≡ most_caches }
    ensures changes { CACHE_CHANGES ≡ most_cache_changes }
    ensures session { SESSION_BYTES ≡ most_session_bytes }
    ensures piece { PIECE ≡ piece_bytes }
{}

/// The constants of the versions are those that contracts speak of.
pub fn versions()
    ensures first { constants.V1_0_0 ≡ version_1_0 }
    ensures login { constants.V1_1_0 ≡ version_1_1 }
    ensures flags { constants.V1_4_0 ≡ version_1_4 }
    ensures highest { constants.HIGHEST ≡ highest_version }
{}
