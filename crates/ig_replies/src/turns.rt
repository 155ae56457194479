//! What requests are replied, and the desk after them.

ghost use Rattle.std.specs.Prelude.{◌≡◌, ◌<◌, ◌&&◌, pos, [], ◌∷◌, ◌++◌, length, Some, None, Ok, Err, IfOk, OnErr, IsTrue, if◌then◌else◌};
ghost use Rattle.ig_caches.specs.declared.request.Request.TheVariants.{Run, Scan, NextPage, Close};
ghost use Rattle.ig_deals.specs.Deals.{Had};
ghost use Rattle.ig_deals.specs.Faults.{refusal_of};
ghost use Rattle.ig_deals.specs.Desk.{Desk as a_desk, has_more, cursor_at};
ghost use Rattle.ig_deals.specs.Replies.{fault_in, reply_frame, fits, shortened};
ghost use Rattle.ig_deals.specs.Turns.{untold, telling, answers, no_memory, page_content, page_size, first_page, scanned, turn_for, request_turn};
ghost use Rattle.ig_wire.specs.Heads.{HasShortText};
ghost use Rattle.ig_wire.specs.Limits.{most_cursors};
ghost use Rattle.ig_replies.specs.Contents.{content_said, reply_said, MayBeShown};
ghost use Rattle.ig_replies.specs.RunTerms.{terms_of, AreTerms};
ghost use Rattle.ig_replies.specs.Showing.{showing};
ghost use Rattle.ig_replies.specs.Turned.{IsTurned, HasNumbers};

use crate::contents::{content_of, refusal};
use crate::reply::{Content, Reply};
use crate::reply_frame::ReplyFrame;
use crate::terms::Terms;
use ig_base::NoMemory;
use ig_caches::{Answer, Call, Outcome, Page, Shown};
use ig_deals::{Desk, OpenCursor};
use ig_wire::{AskFault, Reason};
use std::alloc::Global;

/// A reply that tells no topology.
fn say(terms: &Terms, id: i64, content: Content) -> ReplyFrame
    requires { HasShortText (fault_in (content_said content)) }
    ensures { result ≡ showing (reply_frame terms.now.version
        (shortened terms.now.version (untold id (content_said content)))) }
{
    let reply = Reply {
        id,
        told: None,
        content,
    };
    ReplyFrame::new(terms.version, reply).0
}

/// The reply to a grid call with an answer of this minor version; it may tell the topology.
fn tell(terms: &Terms, desk: &mut Desk, id: i64, minor: i32, content: Content) -> ReplyFrame
    requires right { AreTerms terms.now }
    requires text { HasShortText (fault_in (content_said content)) }
    ensures { IsTurned (terms_of terms.now)
        (answers (terms_of terms.now) desk.old id minor (content_said content)) result desk.new }
{
    let told = desk.tell(terms.manner, minor);
    ReplyFrame::new(terms.version, Reply { id, told, content }).0
}

/// The reply to a request that is refused before any call. The desk stays as it is.
///
/// # Errors
///
/// [`NoMemory`] if there is none for the text of a request that doesn't read.
pub fn refuse(
    alloc: Global,
    terms: &Terms,
    id: i64,
    fault: AskFault,
) -> Result<ReplyFrame, NoMemory>
    ensures { IfOk result (λ frame. (desk : a_desk) → IsTurned (terms_of terms.now)
        (turn_for (terms_of terms.now) desk id (Err (refusal_of fault)) None) frame desk) }
{
    Ok(say(terms, id, refusal(alloc, fault)?))
}

/// The reply to a call or a scan for which the grid had no memory. The desk stays as it is. Takes no
/// memory.
pub fn lacks_memory(terms: &Terms, id: i64) -> ReplyFrame
    ensures { (desk : a_desk) → IsTurned (terms_of terms.now)
        (no_memory (terms_of terms.now) desk id) result desk }
{
    say(terms, id, Content::Refuses(Reason::NoMemory))
}

/// The reply to a call other than a scan, which the grid answered. On an error the desk is as before.
///
/// # Errors
///
/// [`NoMemory`] if there is none for a partition map.
pub fn answer(
    alloc: Global,
    terms: &Terms,
    desk: &mut Desk,
    id: i64,
    call: &Call,
    given: Answer,
) -> Result<ReplyFrame, NoMemory>
    requires { AreTerms terms.now }
    ensures ok { IfOk result (λ frame. IsTurned (terms_of terms.now)
        (request_turn (terms_of terms.now) desk.old id (Run call.now) (Some (Had given)))
        frame desk.new) }
    ensures err { OnErr result (desk.new ≡ desk.old) }
{
    let Answer { minor, outcome } = given;
    let content = content_of(alloc, terms.cfg, call, minor, outcome)?;
    Ok(tell(terms, desk, id, minor, content))
}

/// The reply to a scan by pages of this many rows, which the grid answered: the first page. A cursor for
/// the rows that are left is open then.
///
/// # Errors
///
/// [`NoMemory`] if there is none for the rows of the page. The desk is as before.
pub fn answer_scan(
    alloc: Global,
    terms: &Terms,
    desk: &mut Desk,
    id: i64,
    cache: i32,
    page: i32,
    given: Answer,
) -> Result<ReplyFrame, NoMemory>
    requires right { AreTerms terms.now }
    requires numbers { HasNumbers desk.old }
    ensures ok { IfOk result (λ frame. IsTurned (terms_of terms.now)
        (request_turn (terms_of terms.now) desk.old id (Scan cache page) (Some (Had given)))
        frame desk.new) }
    ensures err { OnErr result (desk.new ≡ desk.old) }
{
    let Answer { minor, outcome } = given;
    match outcome {
        Outcome::Pairs(rows) => {
            let cursor = OpenCursor::new(desk.next_number(), page_size(page), rows);
            first_page(terms, desk, id, minor, cursor)
        }
        outcome => {
            let content = content_of(alloc, terms.cfg, &Call::Scan { cache }, minor, outcome)?;
            Ok(tell(terms, desk, id, minor, content))
        }
    }
}

/// How many rows a page has, where a scan asks for this many.
fn page_size(page: i32) -> u32
    ensures { result ≡ page_size page }
{
    match u32::try_from(page) {
        Ok(size) => size,
        Err(_) => 0,
    }
}

/// The first page of a new cursor, which has the next number.
fn first_page(
    terms: &Terms,
    desk: &mut Desk,
    id: i64,
    minor: i32,
    cursor: OpenCursor,
) -> Result<ReplyFrame, NoMemory>
    requires right { AreTerms terms.now }
    requires numbers { HasNumbers desk.old }
    requires next { cursor.number ≡ desk.old.next }
    ensures ok { IfOk result (λ frame. IsTurned (terms_of terms.now)
        (scanned (terms_of terms.now) desk.old id minor cursor) frame desk.new) }
    ensures err { OnErr result (desk.new ≡ desk.old) }
{
    if !cursor.has_more() {
        return show_first(terms, desk, id, minor, cursor, false);
    }
    if desk.is_full() {
        drop(cursor);
        let content = Content::Refuses(Reason::TooManyCursors);
        return Ok(tell(terms, desk, id, minor, content));
    }
    show_first(terms, desk, id, minor, cursor, true)
}

/// The same where a cursor may be open for the rows after the page, which `more` says whether there are.
fn show_first(
    terms: &Terms,
    desk: &mut Desk,
    id: i64,
    minor: i32,
    cursor: OpenCursor,
    more: bool,
) -> Result<ReplyFrame, NoMemory>
    requires right { AreTerms terms.now }
    requires numbers { HasNumbers desk.old }
    requires next { cursor.number ≡ desk.old.next }
    requires left { more ≡ has_more cursor }
    requires room { IsTrue more → length desk.old.cursors < most_cursors }
    ensures ok { IfOk result (λ frame. IsTurned (terms_of terms.now)
        (first_page (terms_of terms.now) desk.old minor cursor
        (telling (terms_of terms.now) desk.old id minor (page_content (Some (pos cursor.number)) cursor)))
        frame desk.new) }
    ensures err { OnErr result (desk.new ≡ desk.old) }
{
    let mut cursor = cursor;
    let number = cursor.number() as i64;
    let rows = cursor.take_page()?;
    let told = desk.tell(terms.manner, minor);
    desk.draw();
    let page = Page {
        cursor: Some(number),
        rows,
        more,
    };
    let content = Content::Shows(Shown::Page(page));
    Ok(show_page(terms, desk, Reply { id, told, content }, cursor, more))
}

/// The frame of a page of a cursor, which is open after it exactly where rows are left and a frame can
/// hold the page. `cursor` has the rows that are left.
fn show_page(
    terms: &Terms,
    desk: &mut Desk,
    page: Reply,
    cursor: OpenCursor,
    more: bool,
) -> ReplyFrame
    requires shown { MayBeShown terms.now.version page }
    requires room { IsTrue more → length desk.old.cursors < most_cursors }
    requires unused { cursor_at desk.old.cursors (pos cursor.number) ≡ None }
    ensures frame { result ≡ showing (reply_frame terms.now.version
        (shortened terms.now.version (reply_said page))) }
    ensures open { desk.new ≡ record desk.old {
      cursors = desk.old.cursors
          ++ (if more && fits terms.now.version (reply_said page) then cursor ∷ [] else []);
    } }
{
    let (frame, fits) = ReplyFrame::new(terms.version, page);
    if !more {
        drop(cursor);
        return frame;
    }
    if !fits {
        drop(cursor);
        return frame;
    }
    desk.open(cursor);
    frame
}

/// The next page of an open cursor, which is open after it exactly where rows are left and a frame can
/// hold the page. On an error the desk is as before.
///
/// # Errors
///
/// [`NoMemory`] if there is none for the rows of the page.
pub fn next_page(
    terms: &Terms,
    desk: &mut Desk,
    id: i64,
    number: i64,
) -> Result<ReplyFrame, NoMemory>
    requires { HasNumbers desk.old }
    ensures ok { IfOk result (λ frame. IsTurned (terms_of terms.now)
        (request_turn (terms_of terms.now) desk.old id (NextPage number) None) frame desk.new) }
    ensures err { OnErr result (desk.new ≡ desk.old) }
{
    let Some((page, cursor)) = desk.take_page(number)? else {
        return Ok(say(terms, id, Content::Refuses(Reason::NoResource)));
    };
    let more = page.more;
    let reply = Reply {
        id,
        told: None,
        content: Content::Shows(Shown::Page(page)),
    };
    Ok(show_page(terms, desk, reply, cursor, more))
}

/// Closes an open cursor. Takes no memory.
pub fn close(terms: &Terms, desk: &mut Desk, id: i64, resource: i64) -> ReplyFrame
    ensures { IsTurned (terms_of terms.now)
        (request_turn (terms_of terms.now) desk.old id (Close resource) None) result desk.new }
{
    match desk.take(resource) {
        Some(cursor) => {
            drop(cursor);
            say(terms, id, Content::Shows(Shown::Out(Outcome::Done)))
        }
        None => say(terms, id, Content::Refuses(Reason::NoResource)),
    }
}
