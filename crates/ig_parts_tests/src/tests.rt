use ig_base::{Boxed, Items, NodeId, Text, Topology};
use ig_parts::*;
use ig_value::{Record, Shape, Value};
use std::alloc::Global;
use std::test::Fail;

/// A hash, a number of partitions, and the partition.
static PARTITIONS: [(i32, u32, u32); 14] = [
    (-1, 1024, 0),
    (-1, 3, 1),
    (5, 1024, 5),
    (5, 1, 0),
    (5, 6, 5),
    (7, 6, 1),
    (-7, 6, 1),
    (i32::MIN, 1, 0),
    (i32::MIN, 3, 2),
    (i32::MIN, 65536, 32768),
    (i32::MAX, 65535, 32767),
    (65536, 1024, 1),
    (-65536, 1024, 1023),
    (0x1234_5678, 65536, 0x444C),
];

fn wrong_partition() -> Option<usize> {
    PARTITIONS.iter().position(|&(hash, parts, part)| parts == 0
        || parts > 65536
        || partition(hash, parts) != part)
}

#[test]
fn hashes_fall_into_partitions(rt: HostRuntime) {
    assert_eq!(rt; wrong_partition(), None);
}

/// A key by its kind and its text, and its hash, if it has one.
struct KeyRow {
    kind: &'static str,
    text: &'static str,
    hash: Option<i32>,
}

static HASHES: [KeyRow; 23] = [
    KeyRow {
        kind: "byte",
        text: "-1",
        hash: Some(-1),
    },
    KeyRow {
        kind: "byte",
        text: "127",
        hash: Some(127),
    },
    KeyRow {
        kind: "short",
        text: "-300",
        hash: Some(-300),
    },
    KeyRow {
        kind: "int",
        text: "-2147483648",
        hash: Some(i32::MIN),
    },
    KeyRow {
        kind: "int",
        text: "5",
        hash: Some(5),
    },
    KeyRow {
        kind: "long",
        text: "5",
        hash: Some(5),
    },
    KeyRow {
        kind: "long",
        text: "-1",
        hash: Some(0),
    },
    KeyRow {
        kind: "long",
        text: "-2",
        hash: Some(1),
    },
    KeyRow {
        kind: "long",
        text: "4294967296",
        hash: Some(1),
    },
    KeyRow {
        kind: "long",
        text: "-9223372036854775808",
        hash: Some(i32::MIN),
    },
    KeyRow {
        kind: "char",
        text: "65535",
        hash: Some(65535),
    },
    KeyRow {
        kind: "bool",
        text: "true",
        hash: Some(1231),
    },
    KeyRow {
        kind: "bool",
        text: "false",
        hash: Some(1237),
    },
    KeyRow {
        kind: "str",
        text: "",
        hash: Some(0),
    },
    KeyRow {
        kind: "str",
        text: "a",
        hash: Some(97),
    },
    KeyRow {
        kind: "str",
        text: "polygenelubricants",
        hash: Some(i32::MIN),
    },
    KeyRow {
        kind: "uuid",
        text: "18446744073709551615",
        hash: Some(1),
    },
    KeyRow {
        kind: "uuid",
        text: "4294967298",
        hash: Some(2),
    },
    KeyRow {
        kind: "named",
        text: "5",
        hash: Some(0x01E1_64FD),
    },
    KeyRow {
        kind: "named",
        text: "-1",
        hash: Some(0x01DE_A6E2),
    },
    KeyRow {
        kind: "person",
        text: "",
        hash: Some(0x3294_CCC9),
    },
    KeyRow {
        kind: "date",
        text: "5",
        hash: None,
    },
    KeyRow {
        kind: "null",
        text: "",
        hash: None,
    },
];

fn single<T: Drop>(alloc: Global, item: T) -> Result<Items<T>, Fail> {
    let mut items = Vec::new(alloc);
    items.push(item)?;
    Ok(Items::new(items))
}

/// An object of type 112 with this shape and one field.
fn object(alloc: Global, shape: Shape, field: Value) -> Result<Value, Fail> {
    let object = Record {
        bits: 1,
        type_id: 112,
        shape,
        fields: single(alloc, field)?,
    };
    Ok(Value::Object(Boxed::new(alloc, object)?))
}

/// An object whose field has the identifier 97.
fn named(alloc: Global, field: i32) -> Result<Value, Fail> {
    object(alloc, Shape::Named(single(alloc, 97)?), Value::Int(field))
}

/// A name and an age, with a compact footer.
fn person(alloc: Global) -> Result<Value, Fail> {
    let mut fields = Vec::new(alloc);
    fields.push(Value::Str(Text::new(String::from_str(alloc, "Ann")?)))?;
    fields.push(Value::Int(30))?;
    let person = Record {
        bits: 1,
        type_id: 0xC4E3_9B55_u32.cast_signed(),
        shape: Shape::Compact(0x7400_A905),
        fields: Items::new(fields),
    };
    Ok(Value::Object(Boxed::new(alloc, person)?))
}

fn key(alloc: Global, kind: &str, text: &str) -> Result<Value, Fail> {
    Ok(match kind {
        "byte" => Value::Byte(text.parse::<i8>().unwrap_or(0)),
        "short" => Value::Short(text.parse::<i16>().unwrap_or(0)),
        "int" => Value::Int(text.parse::<i32>().unwrap_or(0)),
        "long" => Value::Long(text.parse::<i64>().unwrap_or(0)),
        "char" => Value::Char(text.parse::<u16>().unwrap_or(0)),
        "bool" => Value::Bool(text == "true"),
        "str" => Value::Str(Text::new(String::from_str(alloc, text)?)),
        "uuid" => Value::Uuid(NodeId {
            most: text.parse::<u64>().unwrap_or(0),
            least: 1,
        }),
        "named" => named(alloc, text.parse::<i32>().unwrap_or(0))?,
        "person" => person(alloc)?,
        "compact" => object(alloc, Shape::Compact(9), Value::Int(5))?,
        "date" => Value::Date(text.parse::<i64>().unwrap_or(0)),
        _ => Value::Null,
    })
}

fn wrong_hash(alloc: Global) -> Result<Option<usize>, Fail> {
    for (at, row) in HASHES.iter().enumerate() {
        if key_hash(&key(alloc, row.kind, row.text)?)? != row.hash {
            return Ok(Some(at));
        }
    }
    Ok(None)
}

#[test]
fn keys_hash_by_kind(rt: HostRuntime) -> Result<(), Fail> {
    assert_eq!(rt; wrong_hash(rt.alloc())?, None);
    Ok(())
}

/// A cache, a key by its kind and its text, and the number of its node, or none.
struct OwnerRow {
    cache: i32,
    kind: &'static str,
    text: &'static str,
    node: Option<u64>,
}

/// By a map of two nodes and 1,024 partitions, where the affinity field of type 112 is 97.
static OWNERS: [OwnerRow; 12] = [
    OwnerRow {
        cache: 7,
        kind: "int",
        text: "5",
        node: Some(1),
    },
    OwnerRow {
        cache: 7,
        kind: "int",
        text: "4",
        node: Some(0),
    },
    OwnerRow {
        cache: -3,
        kind: "int",
        text: "4",
        node: Some(0),
    },
    OwnerRow {
        cache: 7,
        kind: "long",
        text: "-1",
        node: Some(0),
    },
    OwnerRow {
        cache: 7,
        kind: "str",
        text: "a",
        node: Some(1),
    },
    OwnerRow {
        cache: 7,
        kind: "named",
        text: "5",
        node: Some(1),
    },
    OwnerRow {
        cache: 7,
        kind: "named",
        text: "4",
        node: Some(0),
    },
    OwnerRow {
        cache: 7,
        kind: "person",
        text: "",
        node: Some(1),
    },
    OwnerRow {
        cache: 7,
        kind: "compact",
        text: "",
        node: None,
    },
    OwnerRow {
        cache: 7,
        kind: "null",
        text: "",
        node: None,
    },
    OwnerRow {
        cache: 8,
        kind: "int",
        text: "5",
        node: None,
    },
    OwnerRow {
        cache: 7,
        kind: "date",
        text: "5",
        node: None,
    },
];

const TOLD: Topology = Topology {
    version: 1,
    minor: 2,
};

fn numbered(node: Option<NodeId>) -> Option<u64> {
    match node {
        Some(node) => node.least.checked_sub(1),
        None => None,
    }
}

/// Whether the map and the map that was prepared give this node.
fn gives(alloc: Global, routes: &Routes, row: &OwnerRow) -> Result<bool, Fail> {
    let key = key(alloc, row.kind, row.text)?;
    let node = routes.owner(row.cache, &key)?;
    Ok(numbered(node) == row.node)
}

fn wrong_owner(alloc: Global, routes: &Routes) -> Result<Option<usize>, Fail> {
    for (at, row) in OWNERS.iter().enumerate() {
        if !gives(alloc, routes, row)? {
            return Ok(Some(at));
        }
    }
    Ok(None)
}

fn prepared(alloc: Global) -> Result<Routes, Fail> {
    let map = served_map(alloc, TOLD, 2, 1024, &[7, -3, 7], &[(112, 97)])?;
    Ok(Routes::new(alloc, map)?)
}

#[test]
fn keys_have_owners(rt: HostRuntime) -> Result<(), Fail> {
    let routes = prepared(rt.alloc())?;
    assert_eq!(rt; wrong_owner(rt.alloc(), &routes)?, None);
    Ok(())
}

/// What a group lists, in order: caches, nodes by number, and partitions, each list between brackets.
fn listed(alloc: Global, map: &PartMap) -> Result<String, Fail> {
    let mut text = String::new(alloc);
    for group in map.groups.as_slice() {
        text.push_str("caches")?;
        for keys in group.caches.as_slice() {
            let (cache, pairs) = (keys.cache, keys.pairs.as_slice().len());
            text.push_str(format!(in alloc; " {cache}/{pairs}")?.as_str())?;
        }
        for parts in group.nodes.as_slice() {
            text.push_str(node_text(alloc, parts)?.as_str())?;
        }
    }
    Ok(text)
}

fn node_text(alloc: Global, node: &NodeParts) -> Result<String, Fail> {
    let (most, least) = (node.node.most, node.node.least);
    let mut text = format!(in alloc; "; node {most}.{least}")?;
    for part in node.parts.as_slice() {
        text.push_str(format!(in alloc; " {part}")?.as_str())?;
    }
    Ok(text)
}

#[test]
fn servers_answer_maps(rt: HostRuntime) -> Result<(), Fail> {
    let alloc = rt.alloc();
    let map = served_map(alloc, TOLD, 2, 5, &[7, -3, 7], &[(112, 97)])?;
    assert_eq!(rt;
        listed(alloc, &map)?.as_str(),
        "caches 7/1 -3/1; node 0.1 0 2 4; node 0.2 1 3"
    );
    let alone = served_map(alloc, TOLD, 1, 3, &[7], &[])?;
    assert_eq!(rt;
        listed(alloc, &alone)?.as_str(),
        "caches 7/0; node 0.1 0 1 2"
    );
    let none = served_map(alloc, TOLD, 2, 5, &[], &[(112, 97)])?;
    assert_eq!(rt; listed(alloc, &none)?.as_str(), "");
    Ok(())
}

/// A map of this topology without groups.
fn map_of(alloc: Global, version: i64, minor: i32) -> PartMap {
    PartMap {
        told: Topology { version, minor },
        groups: Items::new(Vec::new(alloc)),
    }
}

/// The topologies of two maps, and the minor version of the newer one.
static OFFERS: [(i64, i32, i64, i32, i32); 6] = [
    (1, 0, 1, 2, 2),
    (1, 2, 1, 0, 2),
    (1, 3, 2, 1, 1),
    (2, 1, 1, 3, 1),
    (-1, 5, -2, 6, 5),
    (1, -2, 1, -1, -1),
];

fn wrong_newest(alloc: Global) -> Option<usize> {
    OFFERS.iter().position(|&(v, m, w, n, newer)| {
        newest(map_of(alloc, v, m), map_of(alloc, w, n)).told.minor != newer
    })
}

#[test]
fn the_newer_map_stays(rt: HostRuntime) {
    assert_eq!(rt; wrong_newest(rt.alloc()), None);
}
