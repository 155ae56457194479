//! Writing what replies show.

ghost use Rattle.std.specs.Prelude.{◌≡◌, ◌++◌, ◌∷◌, OnOk, OnErr};
ghost use Rattle.ig_text.specs.Tokens.{quoted};
ghost use Rattle.ig_lines.specs.Arguments.{pair_text};
ghost use Rattle.ig_lines.specs.ShownText as texts;
ghost use Rattle.ig_lines.specs.ShownText.{ShownText, FaultText, MapText, IsPrinted, IsShownOutcome};

use crate::put_arguments::{put_each, put_number, put_pairs, put_spaced};
use ig_base::{NoMemory, Octets, Text};
use ig_caches::{Outcome, Page, Pair, Shown};
use ig_parts::PartMap;
use ig_text::PutText;
use ig_types::TypeMeta;
use ig_wire::Fault;
use std::alloc::Global;

/// Appends the text of a result. On an error the bytes are as before.
pub fn write_shown(alloc: Global, shown: &Shown, out: &mut Octets) -> Result<(), NoMemory>
    requires { IsPrinted shown.now }
    ensures ok { OnOk result (out.new ≡ out.old ++ ShownText shown.now) }
    ensures err { OnErr result (out.new ≡ out.old) }
{
    let mut text = Octets::empty(alloc);
    put_shown(shown, &mut text)?;
    out.append(text.as_slice())
}

/// Appends the text of a fault. On an error the bytes are as before.
pub fn write_fault(alloc: Global, fault: &Fault, out: &mut Octets) -> Result<(), NoMemory>
    ensures ok { OnOk result (out.new ≡ out.old ++ FaultText fault.now) }
    ensures err { OnErr result (out.new ≡ out.old) }
{
    let mut text = Octets::empty(alloc);
    put_fault(fault, &mut text)?;
    out.append(text.as_slice())
}

/// Appends the text of a partition map: its topology, and how many groups it has. On an error the bytes
/// are as before.
pub fn write_map(alloc: Global, map: &PartMap, out: &mut Octets) -> Result<(), NoMemory>
    ensures ok { OnOk result (out.new ≡ out.old ++ MapText map.now) }
    ensures err { OnErr result (out.new ≡ out.old) }
{
    let mut text = Octets::empty(alloc);
    put_map(map, &mut text)?;
    out.append(text.as_slice())
}

/// Appends the text of a result. After an error part of it may stand there.
#[tactic(auto, unfolding(crate::specs::ShownText::ShownText))]
fn put_shown(shown: &Shown, out: &mut Octets) -> Result<(), NoMemory>
    requires { IsPrinted shown.now }
    ensures { OnOk result (out.new ≡ out.old ++ ShownText shown.now) }
{
    match shown {
        Shown::Out(outcome) => put_outcome(outcome, out),
        Shown::Page(page) => put_page(page, out),
    }
}

/// Appends the text of an outcome.
fn put_outcome(outcome: &Outcome, out: &mut Octets) -> Result<(), NoMemory>
    requires { IsShownOutcome outcome.now }
    ensures { OnOk result (out.new ≡ out.old ++ texts.outcome_text outcome.now) }
{
    match outcome {
        Outcome::Done => out.append(b"done"),
        Outcome::Found(value) => value.put(out),
        Outcome::Yes(yes) => yes.put(out),
        Outcome::Pairs(pairs) => {
            out.append(b"pairs ")?;
            put_rows(pairs.as_slice(), out)
        }
        Outcome::Count(count) => {
            out.append(b"count")?;
            put_spaced(count, out)
        }
        Outcome::Names(names) => {
            out.append(b"names ")?;
            put_names(names.as_slice(), out)
        }
        Outcome::Name(name) => {
            out.append(b"name")?;
            put_spaced(name, out)
        }
        Outcome::Meta(found) => put_found(found, out),
        Outcome::Keys(_) => Ok(()),
        Outcome::Refused(_) => Ok(()),
    }
}

/// Appends the number of rows, and each of them after a space.
fn put_rows(rows: &[Pair], out: &mut Octets) -> Result<(), NoMemory>
    ensures { OnOk result (out.new ≡ out.old ++ texts.counted_text pair_text rows.now) }
{
    put_number(rows.len(), out)?;
    put_pairs(rows, out)
}

/// Appends the number of names, and each of them after a space.
fn put_names(names: &[Text], out: &mut Octets) -> Result<(), NoMemory>
    ensures { OnOk result (out.new ≡ out.old ++ texts.counted_text quoted names.now) }
{
    put_number(names.len(), out)?;
    put_each(names, out)
}

/// Appends a description, or `none`.
fn put_found(found: &Option<TypeMeta>, out: &mut Octets) -> Result<(), NoMemory>
    ensures { OnOk result (out.new ≡ out.old ++ texts.found_text found.now) }
{
    match found {
        None => out.append(b"none"),
        Some(meta) => meta.put(out),
    }
}

/// Appends a page.
fn put_page(page: &Page, out: &mut Octets) -> Result<(), NoMemory>
    ensures { OnOk result (out.new ≡ out.old ++ texts.page_text page.now) }
{
    out.append(b"page ")?;
    put_cursor(&page.cursor, out)?;
    out.push(b' ')?;
    put_rows(page.rows.as_slice(), out)?;
    if page.more {
        out.append(b" more")
    } else {
        out.append(b" end")
    }
}

/// Appends a cursor, or `-` for a next page.
fn put_cursor(cursor: &Option<i64>, out: &mut Octets) -> Result<(), NoMemory>
    ensures { OnOk result (out.new ≡ out.old ++ texts.cursor_text cursor.now) }
{
    match cursor {
        None => out.append(b"-"),
        Some(cursor) => cursor.put(out),
    }
}

/// Appends the text of a fault. After an error part of it may stand there.
#[tactic(auto, unfolding(crate::specs::ShownText::FaultText))]
fn put_fault(fault: &Fault, out: &mut Octets) -> Result<(), NoMemory>
    ensures { OnOk result (out.new ≡ out.old ++ FaultText fault.now) }
{
    out.append(b"error ")?;
    fault.status.put(out)?;
    put_spaced(&fault.text, out)
}

/// Appends the text of a partition map. After an error part of it may stand there.
#[tactic(auto, unfolding(crate::specs::ShownText::MapText))]
fn put_map(map: &PartMap, out: &mut Octets) -> Result<(), NoMemory>
    ensures { OnOk result (out.new ≡ out.old ++ MapText map.now) }
{
    out.append(b"parts ")?;
    map.told.version.put(out)?;
    out.push(b'.')?;
    map.told.minor.put(out)?;
    out.push(b' ')?;
    put_number(map.groups.as_slice().len(), out)
}
