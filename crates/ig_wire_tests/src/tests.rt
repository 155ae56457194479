use ig_base::{NoMemory, NodeId, Octets, Text, Topology};
use ig_encode::{Measure, Window};
use ig_wire::*;
use std::alloc::Global;
use std::test::Fail;

/// Hellos, and how a server whose highest version is 1.4.0 answers them.
static HELLOS: [(&[u8], Result<Hello, HelloFault>); 14] = [
    (
        &[1, 1, 0, 0, 0, 0, 0, 2],
        Ok(Hello {
            version: Version::V1_0_0,
            credentials: false,
        }),
    ),
    (
        &[1, 1, 0, 1, 0, 0, 0, 2],
        Ok(Hello {
            version: Version::V1_1_0,
            credentials: false,
        }),
    ),
    (
        &[1, 1, 0, 4, 0, 0, 0, 2],
        Ok(Hello {
            version: Version::V1_4_0,
            credentials: false,
        }),
    ),
    (
        &[
            1, 1, 0, 1, 0, 0, 0, 2, 9, 1, 0, 0, 0, 0x75, 9, 1, 0, 0, 0, 0x70,
        ],
        Ok(Hello {
            version: Version::V1_1_0,
            credentials: true,
        }),
    ),
    (
        &[1, 1, 0, 1, 0, 0, 0, 2, 101, 101],
        Ok(Hello {
            version: Version::V1_1_0,
            credentials: true,
        }),
    ),
    (
        &[1, 1, 0, 4, 0, 0, 0, 2, 101, 9, 0, 0, 0, 0],
        Ok(Hello {
            version: Version::V1_4_0,
            credentials: true,
        }),
    ),
    (&[0, 1, 0, 7, 0, 0, 0, 3], Err(HelloFault::NotHello(0))),
    (
        &[1, 1, 0, 7, 0, 0, 0, 3],
        Err(HelloFault::Version(Version {
            major: 1,
            minor: 7,
            patch: 0,
        })),
    ),
    (
        &[1, 1, 0, 0, 0, 255, 255, 2],
        Err(HelloFault::Version(Version {
            major: 1,
            minor: 0,
            patch: -1,
        })),
    ),
    (
        &[1, 1, 0, 0, 0, 0, 0, 3, 101],
        Err(HelloFault::ClientCode(3)),
    ),
    (
        &[1, 1, 0, 0, 0, 0, 0, 2, 101],
        Err(HelloFault::Credentials { place: 12 }),
    ),
    (
        &[1, 1, 0, 1, 0, 0, 0, 2, 101, 3],
        Err(HelloFault::Credentials { place: 13 }),
    ),
    (
        &[1, 1, 0, 1, 0, 0, 0, 2, 101, 101, 101],
        Err(HelloFault::Credentials { place: 14 }),
    ),
    (
        &[1, 1, 0, 1, 0, 0, 0, 2, 9, 1, 0, 0, 0, 0xFF, 101],
        Err(HelloFault::Credentials { place: 17 }),
    ),
];

/// The first hello of the table that is answered otherwise.
fn first_wrong_hello() -> Option<usize> {
    HELLOS.iter().position(|(body, wanted)| body.len() < 8
        || read_hello(body, Version::HIGHEST) != *wanted)
}

/// Hellos are accepted, or refused for the first of the four reasons.
#[test]
fn hellos_are_answered(rt: HostRuntime) -> Result<(), Fail> {
    assert_eq!(rt; first_wrong_hello(), None);
    assert_eq!(rt;
        read_hello(&[1, 1, 0, 4, 0, 0, 0, 2], Version::V1_1_0),
        Err(HelloFault::Version(Version::V1_4_0))
    );
    Ok(())
}

/// Rows of `HELLOS` that have more than eight bytes, and how each is answered when it is cut after
/// eight bytes, after nine, and so on: whether it has a login, or where that login fails to read.
static CUTS: [(usize, &[Result<bool, usize>]); 7] = [
    (
        3,
        &[
            Ok(false),
            Err(13),
            Err(13),
            Err(13),
            Err(13),
            Err(17),
            Err(18),
            Err(19),
            Err(19),
            Err(19),
            Err(19),
            Err(23),
            Ok(true),
        ],
    ),
    (4, &[Ok(false), Err(13), Ok(true)]),
    (
        5,
        &[
            Ok(false),
            Err(13),
            Err(14),
            Err(14),
            Err(14),
            Err(14),
            Ok(true),
        ],
    ),
    (10, &[Ok(false), Err(12)]),
    (11, &[Ok(false), Err(13), Err(13)]),
    (12, &[Ok(false), Err(13), Ok(true), Err(14)]),
    (
        13,
        &[
            Ok(false),
            Err(13),
            Err(13),
            Err(13),
            Err(13),
            Err(17),
            Err(17),
            Err(17),
        ],
    ),
];

/// Whether the hello has a login, or where that fails to read.
fn login_answer(body: &[u8]) -> Result<bool, usize> {
    if body.len() < 8 {
        return Err(0);
    }
    match read_hello(body, Version::HIGHEST) {
        Ok(hello) => Ok(hello.credentials),
        Err(HelloFault::Credentials { place }) => Err(place),
        Err(_) => Err(0),
    }
}

/// The body of this row.
fn hello_at(row: usize) -> &'static [u8] {
    match HELLOS.get(row) {
        Some((body, _)) => body,
        None => &[],
    }
}

/// The first cut of this row that is answered otherwise.
fn first_wrong_cut(row: usize, cuts: &[Result<bool, usize>]) -> Option<usize> {
    let body = hello_at(row);
    cuts.iter().zip(8..=body.len()).position(|(wanted, end)| login_answer(
        body.get(..end).unwrap_or(&[]),
    ) != *wanted)
}

/// Hellos with more than a client code, cut after every byte.
#[test]
fn cut_after_every_byte(rt: HostRuntime) -> Result<(), Fail> {
    for (row, cuts) in &CUTS {
        assert_eq!(rt; hello_at(*row).len(), 7 + cuts.len());
        assert_eq!(rt; first_wrong_cut(*row, cuts), None);
    }
    Ok(())
}

/// A text of its own.
fn text(alloc: Global, text: &str) -> Result<Text, NoMemory> {
    Ok(Text::new(String::from_str(alloc, text)?))
}

/// Whether these bytes are a length, of which this is the first byte, and a body.
fn is_frame(bytes: &[u8], length: u8, body: &[u8]) -> bool {
    bytes.get(..4) == Some(&[length, 0, 0, 0]) && bytes.get(4..) == Some(body)
}

/// Hellos are written as the tables have them, with the length before them.
#[test]
fn hellos_are_written(rt: HostRuntime) -> Result<(), Fail> {
    let mut out = Octets::empty(rt.alloc());
    assert_eq!(rt; hello_len(None), 8);
    write_hello(rt.alloc(), Version::V1_0_0, None, &mut out)?;
    assert!(rt; out.as_slice() == [8, 0, 0, 0, 1, 1, 0, 0, 0, 0, 0, 2].as_slice());
    let login = Login {
        name: text(rt.alloc(), "u")?,
        password: text(rt.alloc(), "p")?,
    };
    out.clear();
    assert_eq!(rt; hello_len(Some(&login)), 20);
    write_hello(rt.alloc(), Version::V1_1_0, Some(&login), &mut out)?;
    assert!(rt; is_frame(out.as_slice(), 20, HELLOS[3].0));
    Ok(())
}

/// Replies to hellos that ask for a version, and the place at which they fail to read.
static REPLIES: [(Version, &[u8], Option<usize>); 13] = [
    (Version::V1_0_0, &[1], None),
    (Version::V1_0_0, &[1, 0], Some(5)),
    (Version::V1_0_0, &[2], Some(4)),
    (Version::V1_0_0, &[], Some(4)),
    (Version::V1_4_0, &[1], Some(5)),
    (Version::V1_4_0, &[1, 9], Some(5)),
    (
        Version::V1_4_0,
        &[1, 10, 0, 0, 0, 0, 0, 0, 0, 0, 1, 0, 0, 0, 0, 0, 0, 0],
        None,
    ),
    (
        Version::V1_4_0,
        &[1, 10, 0, 0, 0, 0, 0, 0, 0, 0, 1, 0, 0, 0, 0, 0, 0],
        Some(14),
    ),
    (
        Version::V1_4_0,
        &[1, 10, 0, 0, 0, 0, 0, 0, 0, 0, 1, 0, 0, 0, 0, 0, 0, 0, 7],
        Some(22),
    ),
    (
        Version::V1_4_0,
        &[0, 1, 0, 4, 0, 0, 0, 9, 1, 0, 0, 0, 0x61],
        None,
    ),
    (
        Version::V1_1_0,
        &[0, 1, 0, 4, 0, 0, 0, 9, 1, 0, 0, 0, 0x61, 5, 0, 0, 0],
        None,
    ),
    (
        Version::V1_1_0,
        &[0, 1, 0, 4, 0, 0, 0, 9, 1, 0, 0, 0, 0x61, 5, 0, 0],
        Some(17),
    ),
    (
        Version::V1_1_0,
        &[0, 1, 0, 4, 0, 0, 0, 9, 1, 0, 0, 0, 0x61, 5, 0, 0, 0, 1],
        Some(21),
    ),
];

/// The place at which the reply to a hello fails to read.
fn reply_place(alloc: Global, version: Version, body: &[u8]) -> Result<Option<usize>, NoMemory> {
    match read_hello_reply(alloc, version, body) {
        Ok(_) => Ok(None),
        Err(ReadFault::Unread(unread)) => Ok(Some(unread.place)),
        Err(ReadFault::NoMemory) => Err(NoMemory),
    }
}

#[test]
fn hello_replies_are_read(rt: HostRuntime) -> Result<(), Fail> {
    for (version, body, place) in &REPLIES {
        assert_eq!(rt; reply_place(rt.alloc(), *version, body)?, *place);
    }
    match read_hello_reply(rt.alloc(), Version::V1_4_0, REPLIES[6].1) {
        Ok(HelloReply::Accepted { node }) => {
            assert_eq!(rt; node, Some(NodeId { most: 0, least: 1 }));
        }
        _ => assert!(rt; false, "the reply accepts"),
    }
    Ok(())
}

/// The reply to a hello that asks for version 1.7.0.
static UNSUPPORTED: &[u8] = b"\0\x01\0\x04\0\0\0\x09\x13\0\0\0unsupported version";

/// Replies to hellos are written with the length before them.
#[test]
fn hello_replies_are_written(rt: HostRuntime) -> Result<(), Fail> {
    let mut out = Octets::empty(rt.alloc());
    let accepted = HelloReply::Accepted {
        node: Some(NodeId { most: 0, least: 1 }),
    };
    assert_eq!(rt; hello_reply_len(&accepted), 18);
    write_hello_reply(rt.alloc(), Version::V1_4_0, &accepted, &mut out)?;
    assert!(rt; is_frame(out.as_slice(), 18, REPLIES[6].1));
    out.clear();
    let fault = HelloFault::Version(Version {
        major: 1,
        minor: 7,
        patch: 0,
    });
    let refused = HelloReply::Refused {
        version: Version::HIGHEST,
        text: text(rt.alloc(), fault.text())?,
        code: None,
    };
    assert_eq!(rt; hello_reply_len(&refused), 31);
    write_hello_reply(rt.alloc(), Version::V1_0_0, &refused, &mut out)?;
    assert!(rt; is_frame(out.as_slice(), 31, UNSUPPORTED));
    Ok(())
}

/// Bodies of replies at a version, and the offset of the result, or the place at which the head fails
/// to read.
static HEADS: [(Version, &[u8], Result<usize, usize>); 17] = [
    (
        Version::V1_0_0,
        &[1, 0, 0, 0, 0, 0, 0, 0, 0, 0, 0, 0],
        Ok(12),
    ),
    (
        Version::V1_1_0,
        &[2, 0, 0, 0, 0, 0, 0, 0, 0, 0, 0, 0, 3, 2, 0, 0, 0],
        Ok(12),
    ),
    (
        Version::V1_0_0,
        &[3, 0, 0, 0, 0, 0, 0, 0, 0xE8, 3, 0, 0, 9, 1, 0, 0, 0, 0x61],
        Ok(18),
    ),
    (
        Version::V1_0_0,
        &[3, 0, 0, 0, 0, 0, 0, 0, 0xE8, 3, 0, 0, 101],
        Err(16),
    ),
    (
        Version::V1_0_0,
        &[3, 0, 0, 0, 0, 0, 0, 0, 0xE8, 3, 0],
        Err(12),
    ),
    (Version::V1_0_0, &[3, 0, 0, 0], Err(4)),
    (
        Version::V1_4_0,
        &[2, 0, 0, 0, 0, 0, 0, 0, 0, 0, 3, 2, 0, 0, 0],
        Ok(10),
    ),
    (
        Version::V1_4_0,
        &[
            1, 0, 0, 0, 0, 0, 0, 0, 2, 0, 1, 0, 0, 0, 0, 0, 0, 0, 0, 0, 0, 0,
        ],
        Ok(22),
    ),
    (
        Version::V1_4_0,
        &[
            3, 0, 0, 0, 0, 0, 0, 0, 1, 0, 0xE8, 3, 0, 0, 9, 1, 0, 0, 0, 0x61,
        ],
        Ok(20),
    ),
    (
        Version::V1_4_0,
        &[
            3, 0, 0, 0, 0, 0, 0, 0, 3, 0, 1, 0, 0, 0, 0, 0, 0, 0, 5, 0, 0, 0, 0xE8, 3, 0, 0, 9, 1,
            0, 0, 0, 0x61,
        ],
        Ok(32),
    ),
    (Version::V1_4_0, &[3, 0, 0, 0, 0, 0, 0, 0, 4, 0], Err(12)),
    (Version::V1_4_0, &[3, 0, 0, 0, 0, 0, 0, 0, 1, 1], Err(12)),
    (Version::V1_4_0, &[3, 0, 0, 0, 0, 0, 0, 0, 2], Err(12)),
    (
        Version::V1_4_0,
        &[3, 0, 0, 0, 0, 0, 0, 0, 2, 0, 1, 0, 0, 0, 0, 0, 0, 0, 5, 0],
        Err(22),
    ),
    (
        Version::V1_4_0,
        &[
            3, 0, 0, 0, 0, 0, 0, 0, 1, 0, 0xE8, 3, 0, 0, 9, 2, 0, 0, 0, 0x61,
        ],
        Err(23),
    ),
    (
        Version::V1_4_0,
        b"\x03\0\0\0\0\0\0\0\x03\0\x01\0\0\0\0\0\0\0\0\0\0\0\xE8\x03\0\0\x09\x14\0\0\0cache does not exist",
        Ok(51),
    ),
    (
        Version::V1_4_0,
        b"\x03\0\0\0\0\0\0\0\x01\0\xE9\x03\0\0\x09\x0C\0\0\0cache exists",
        Ok(31),
    ),
];

/// The head of a reply, written again, and the offset of the result; or the place of a fault.
fn again(
    alloc: Global,
    version: Version,
    body: &[u8],
) -> Result<(Octets, Result<usize, usize>), NoMemory> {
    let mut out = Octets::empty(alloc);
    match read_head(alloc, version, body) {
        Ok((head, at)) => {
            let is_sound = match &head.fault {
                Some(fault) => fault.text.as_str().len() < 1_000
                    && (version.has_flags() || fault.status != 0),
                None => true,
            };
            if is_sound && (version.has_flags() || head.told.is_none()) {
                write_head(alloc, version, &head, &mut out)?;
            }
            Ok((out, Ok(at)))
        }
        Err(ReadFault::Unread(unread)) => Ok((out, Err(unread.place))),
        Err(ReadFault::NoMemory) => Err(NoMemory),
    }
}

/// Heads are read, and written as they were read.
#[test]
fn heads_come_back(rt: HostRuntime) -> Result<(), Fail> {
    for (version, body, wanted) in &HEADS {
        let (bytes, place) = again(rt.alloc(), *version, body)?;
        assert_eq!(rt; place, *wanted);
        assert!(rt; bytes.as_slice() == &body[..wanted.unwrap_or(0)]);
    }
    Ok(())
}

/// What a head with both flags says.
#[test]
fn heads_say_what_they_tell(rt: HostRuntime) -> Result<(), Fail> {
    match read_head(rt.alloc(), Version::V1_4_0, HEADS[9].1) {
        Ok((head, _)) => {
            assert_eq!(rt; head.id, 3);
            assert_eq!(rt;
                head.told,
                Some(Topology {
                    version: 1,
                    minor: 5
                })
            );
            let fault = head.fault.ok_or("a fault is told")?;
            assert_eq!(rt; fault.status, 1_000);
            assert!(rt; fault.text.as_str() == "a");
        }
        Err(_) => assert!(rt; false, "the head reads"),
    }
    assert_eq!(rt;
        read_ask(&[0xE9, 3, 1, 0, 0, 0, 0, 0, 0, 0x80, 7]),
        (1_001, i64::MIN + 1)
    );
    Ok(())
}

/// A head is measured, and shown from its flags on.
#[test]
fn heads_are_shown(rt: HostRuntime) -> Result<(), Fail> {
    let head = HeadView {
        id: 3,
        told: Some(Topology {
            version: 1,
            minor: 5,
        }),
        fault: Some(FaultView {
            status: 1_000,
            text: "a",
        }),
    };
    let mut measure = Measure::counting();
    put_head(Version::V1_4_0, &head, &mut measure, &mut []);
    assert_eq!(rt; measure.length.total(), 32);
    let mut shown = [0; 24];
    let mut window = Window::from(8);
    put_head(Version::V1_4_0, &head, &mut window, &mut shown);
    assert_eq!(rt; window.filled(), 24);
    assert!(rt; HEADS[9].1.get(8..) == Some(shown.as_slice()));
    Ok(())
}

/// Each operation has its code, and each fault its text.
#[test]
fn tables_have_names(rt: HostRuntime) -> Result<(), Fail> {
    assert_eq!(rt; Operation::of(1_101), Some(Operation::PartitionMaps));
    assert_eq!(rt; Operation::of(1_021), None);
    assert_eq!(rt; Operation::of(-1), None);
    assert!(rt; Operation::GetAndPut.name() == "get and put");
    assert!(rt; Reason::Profile(Profile::Filter).text() == "filter not supported");
    let fault = HelloFault::Credentials { place: 12 };
    let shown = format!(in rt.alloc(); "{fault}")?;
    assert!(rt; shown.as_str() == "the client's login is malformed at offset 12 of its hello");
    let shown = format!(in rt.alloc(); "{}", ReadFault::Unread(Unread { place: 5 }))?;
    assert!(rt; shown.as_str() == "the message is malformed at offset 5 of its frame");
    Ok(())
}
