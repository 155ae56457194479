//! Lines of every word, both ways, and lines that are refused.

use ig_base::{Items, Octets, Text, Topology};
use ig_caches::{Outcome, Page, Shown};
use ig_lines::{put_line, read_line, write_fault, write_map, write_shown};
use ig_parts::PartMap;
use ig_text::TextFault;
use ig_wire::Fault;
use std::alloc::Global;

/// Lines with each cache by its identifier.
static LINES: [&'static str; 38] = [
    "0 get #0 int:1",
    "0 get-and-remove #0 int:1",
    "0 contains #0 int:1",
    "0 clear-key #0 int:1",
    "0 remove #0 int:1",
    "0 put #-2147483648 int:1 int:2",
    "0 put-if-absent #0 int:1 int:2",
    "0 get-and-put #0 int:1 int:2",
    "0 get-and-replace #0 int:1 int:2",
    "0 get-and-put-if-absent #0 int:1 int:2",
    "0 replace #0 int:1 int:2",
    "0 replace-if #0 int:1 int:2 int:3",
    "0 remove-if #0 int:1 int:2",
    "0 get-all #0",
    "0 get-all #0 int:1 int:2",
    "0 contains-all #0 int:1",
    "0 clear-keys #0 int:1",
    "0 remove-keys #0 int:1",
    "0 put-all #0",
    "0 put-all #0 map:1[int:1=null]=int:2",
    "0 clear #0",
    "0 remove-all #0",
    "0 size #0",
    "0 size #0 0 255",
    "0 names",
    "0 create \"a\"",
    "0 get-or-create \"\\x22\"",
    "0 destroy #0",
    "0 scan #0 1",
    "0 scan #0 2147483647",
    "0 next -9223372036854775808",
    "0 close 1",
    "0 type-name 0 -1",
    "0 type 0",
    "0 set-type-name 255 1 \"\"",
    "0 put-type type:1:\"t\":null:0{}{}{}",
    "0 put-type type:1:\"t\":\"f\":1{\"f\"=3/7,\"g\"=-1/8}{\"A\"=0,\"B\"=1}{-5=[],6=[7,8]}",
    "0 parts",
];

/// Lines with caches by their names, and the same by their identifiers.
static NAMED: [(&'static str, &'static str); 3] = [
    ("0 get main int:1", "0 get #3343801 int:1"),
    (
        "15 put-all main int:1=int:2 int:3=str:\"a\\x20b\"",
        "15 put-all #3343801 int:1=int:2 int:3=str:\"a\\x20b\"",
    ),
    ("3 parts main #-1 main", "3 parts #3343801 #-1 #3343801"),
];

/// Texts that aren't those of lines, and the offset of the first wrong part.
static REFUSED: [(&'static str, usize); 24] = [
    ("", 0),
    ("16 names", 0),
    ("00 names", 0),
    ("0", 1),
    ("0  names", 2),
    ("0 name", 2),
    ("0 names ", 7),
    ("0 get-", 2),
    ("0 get #0", 8),
    ("0 get #0 null", 9),
    ("0 get #0 int:01", 13),
    ("0 get #0 int:1 int:2", 14),
    ("0 get # int:1", 7),
    ("0 get  int:1", 6),
    ("0 put-all #0 int:1=null", 19),
    ("0 put-all #0 int:1", 18),
    ("0 size #0 256", 10),
    ("0 create \"\"", 9),
    ("0 scan #0 0", 10),
    ("0 next 9223372036854775808", 7),
    ("0 put-type type:1:\"t\":null:2{}{}{}", 27),
    ("0 put-type type:1:\"t\":null:0{}{\"A\"=0}{}", 11),
    (
        "0 put-type type:1:\"t\":null:0{\"b\"=1/1,\"a\"=1/2}{}{}",
        11,
    ),
    ("0 parts ", 8),
];

/// Whether the text is that of a line which is written so.
fn is_written_as(alloc: Global, text: &str, canonical: &str) -> bool {
    let Ok(line) = read_line(alloc, text.as_bytes()) else {
        return false;
    };
    let mut out = Octets::empty(alloc);
    put_line(alloc, &line, &mut out) == Ok(()) && out.as_slice() == canonical.as_bytes()
}

/// The first line of the table that doesn't come back.
fn first_lost(alloc: Global, texts: &[&'static str]) -> Option<&'static str> {
    for text in texts {
        if !is_written_as(alloc, text, text) {
            return Some(*text);
        }
    }
    None
}

/// The first line of the table that isn't written with identifiers.
fn first_unlike(alloc: Global, rows: &[(&'static str, &'static str)]) -> Option<&'static str> {
    for (text, canonical) in rows {
        if !is_written_as(alloc, text, canonical) {
            return Some(*text);
        }
    }
    None
}

/// Whether the text is refused at this offset.
fn is_refused_at(alloc: Global, text: &str, at: usize) -> bool {
    match read_line(alloc, text.as_bytes()) {
        Err(TextFault::Bad { place }) => place == at,
        _ => false,
    }
}

/// The first text of the table that isn't refused at its offset.
fn first_accepted(alloc: Global, rows: &[(&'static str, usize)]) -> Option<&'static str> {
    for (text, at) in rows {
        if !is_refused_at(alloc, text, *at) {
            return Some(*text);
        }
    }
    None
}

#[test]
fn lines_come_back(rt: HostRuntime) {
    let lost = first_lost(rt.alloc(), &LINES);
    assert_eq!(rt; lost, None);
}

#[test]
fn caches_have_names(rt: HostRuntime) {
    let unlike = first_unlike(rt.alloc(), &NAMED);
    assert_eq!(rt; unlike, None);
}

#[test]
fn wrong_lines_are_refused(rt: HostRuntime) {
    let accepted = first_accepted(rt.alloc(), &REFUSED);
    assert_eq!(rt; accepted, None);
}

/// Whether an empty first page is written so.
fn shows_a_page(alloc: Global) -> bool {
    let page = Page {
        cursor: Some(7),
        rows: Items::new(Vec::new(alloc)),
        more: false,
    };
    let mut out = Octets::empty(alloc);
    write_shown(alloc, &Shown::Page(page), &mut out) == Ok(())
        && out.as_slice() == b"page 7 0 end".as_slice()
}

/// Whether a count is written so.
fn shows_a_count(alloc: Global) -> bool {
    let mut out = Octets::empty(alloc);
    let count = Shown::Out(Outcome::Count(-1));
    write_shown(alloc, &count, &mut out) == Ok(()) && out.as_slice() == b"count -1".as_slice()
}

/// Whether a fault is written so.
fn shows_a_fault(alloc: Global) -> bool {
    let fault = Fault {
        status: 1000,
        text: Text::new(String::new(alloc)),
    };
    let mut out = Octets::empty(alloc);
    write_fault(alloc, &fault, &mut out) == Ok(())
        && out.as_slice() == b"error 1000 \"\"".as_slice()
}

/// Whether a map without groups is written so.
fn shows_a_map(alloc: Global) -> bool {
    let map = PartMap {
        told: Topology {
            version: 3,
            minor: 1,
        },
        groups: Items::new(Vec::new(alloc)),
    };
    let mut out = Octets::empty(alloc);
    write_map(alloc, &map, &mut out) == Ok(()) && out.as_slice() == b"parts 3.1 0".as_slice()
}

#[test]
fn replies_are_shown(rt: HostRuntime) {
    assert!(rt; shows_a_page(rt.alloc()));
    assert!(rt; shows_a_count(rt.alloc()));
    assert!(rt; shows_a_fault(rt.alloc()));
    assert!(rt; shows_a_map(rt.alloc()));
}
