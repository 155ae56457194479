use ig_base::{Items, NoMemory, Text};
use ig_types::*;
use std::alloc::{AllocError, Global};
use std::fmt::Debug;
use std::test::Fail;

fn text(alloc: Global, text: &str) -> Result<Text, AllocError> {
    Ok(Text::new(String::from_str(alloc, text)?))
}

fn number(word: Option<&str>) -> i32 {
    word.and_then(|word| word.parse::<i32>().ok()).unwrap_or(0)
}

/// The rest of the first item of a row that begins with a word: `a` for `key ` and `P; key a; enum`.
fn first_named<'a>(row: &'a str, word: &str) -> Option<&'a str> {
    row.split("; ").find_map(|item| item.strip_prefix(word))
}

fn field(alloc: Global, item: &str) -> Result<FieldMeta, AllocError> {
    let mut words = item.split(' ');
    let name = text(alloc, words.next().unwrap_or(""))?;
    let kind = number(words.next());
    let id = number(words.next());
    Ok(FieldMeta { name, kind, id })
}

fn literal(alloc: Global, item: &str) -> Result<Literal, AllocError> {
    let mut words = item.split(' ');
    let name = text(alloc, words.next().unwrap_or(""))?;
    let ordinal = number(words.next());
    Ok(Literal { name, ordinal })
}

fn schema(alloc: Global, item: &str) -> Result<SchemaMeta, AllocError> {
    let mut words = item.split(' ');
    let id = number(words.next());
    let mut ids = Vec::new(alloc);
    for word in words {
        ids.push(number(Some(word)))?;
    }
    let ids = Items::new(ids);
    Ok(SchemaMeta { id, ids })
}

fn fields(alloc: Global, row: &str) -> Result<Items<FieldMeta>, AllocError> {
    let mut fields = Vec::new(alloc);
    for item in row.split("; ") {
        if let Some(item) = item.strip_prefix("field ") {
            fields.push(field(alloc, item)?)?;
        }
    }
    Ok(Items::new(fields))
}

fn literals(alloc: Global, row: &str) -> Result<Items<Literal>, AllocError> {
    let mut literals = Vec::new(alloc);
    for item in row.split("; ") {
        if let Some(item) = item.strip_prefix("literal ") {
            literals.push(literal(alloc, item)?)?;
        }
    }
    Ok(Items::new(literals))
}

fn schemas(alloc: Global, row: &str) -> Result<Items<SchemaMeta>, AllocError> {
    let mut schemas = Vec::new(alloc);
    for item in row.split("; ") {
        if let Some(item) = item.strip_prefix("schema ") {
            schemas.push(schema(alloc, item)?)?;
        }
    }
    Ok(Items::new(schemas))
}

/// The description that a row says: name, affinity key, fields (name, kind, identifier), enum flag,
/// literals (name, ordinal) and schemas (identifier, identifiers of fields), as in
/// `P; key a; field a 3 97; enum; literal A 0; schema -1 1 2`.
fn described(alloc: Global, type_id: i32, row: &str) -> Result<TypeMeta, AllocError> {
    let affinity = match first_named(row, "key ") {
        Some(key) => Some(text(alloc, key)?),
        None => None,
    };
    Ok(TypeMeta {
        type_id,
        name: text(alloc, row.split("; ").next().unwrap_or(""))?,
        affinity,
        is_enum: first_named(row, "enum").is_some(),
        fields: fields(alloc, row)?,
        literals: literals(alloc, row)?,
        schemas: schemas(alloc, row)?,
    })
}

/// A clash of a kind, from what each of two descriptions says.
fn clash(alloc: Global, kind: &str, a: &str, b: &str) -> Result<Clash, AllocError> {
    Ok(match kind {
        "name" => Clash::Name(text(alloc, a)?, text(alloc, b)?),
        "affinity" => Clash::Affinity(text(alloc, a)?, text(alloc, b)?),
        "field" => Clash::Field(field(alloc, a)?, field(alloc, b)?),
        "literal" => Clash::Literal(literal(alloc, a)?, literal(alloc, b)?),
        "schema" => Clash::Schema(schema(alloc, a)?, schema(alloc, b)?),
        _ => Clash::EnumFlag(a == "enum", b == "enum"),
    })
}

fn shown(alloc: Global, value: &impl Debug) -> Result<String, AllocError> {
    format!(in alloc; "{value:?}")
}

/// The join of two rows, or its fault, as `{:?}` prints it.
fn outcome(alloc: Global, a: &str, b: &str) -> Result<String, AllocError> {
    let a = described(alloc, 5, a)?;
    let b = described(alloc, 5, b)?;
    if a.type_id != b.type_id || !a.is_in_order() || !b.is_in_order() {
        return String::from_str(alloc, "out of order");
    }
    match join(alloc, &a, &b) {
        Ok(joined) => shown(alloc, &joined),
        Err(fault) => shown(alloc, &fault),
    }
}

/// Two rows and their join.
static JOINS: [(&str, &str, &str); 7] = [
    ("P", "P", "P"),
    (
        "P; field a 3 97",
        "P; field b 9 98",
        "P; field a 3 97; field b 9 98",
    ),
    (
        "P; field b 9 98; field é 9 98",
        "P; field a 3 97; field b 9 98; field bb 1 0; field z 1 0",
        "P; field a 3 97; field b 9 98; field bb 1 0; field z 1 0; field é 9 98",
    ),
    ("P; key a", "P", "P; key a"),
    ("P", "P; key a", "P; key a"),
    (
        "P; enum; literal A 0",
        "P; enum; literal B 1",
        "P; enum; literal A 0; literal B 1",
    ),
    (
        "P; schema -7 97; schema 4",
        "P; schema -7 97; schema 0 1 2",
        "P; schema -7 97; schema 0 1 2; schema 4",
    ),
];

/// The first row with another join.
fn wrong_join(alloc: Global) -> Result<Option<&'static str>, NoMemory> {
    for &(a, b, want) in &JOINS {
        let want = described(alloc, 5, want)?.copy(alloc)?;
        if outcome(alloc, a, b)? != shown(alloc, &want)? {
            return Ok(Some(a));
        }
    }
    Ok(None)
}

#[test]
fn two_descriptions_join(rt: HostRuntime) -> Result<(), Fail> {
    join_commutes();
    join_associates();
    assert_eq!(rt; wrong_join(rt.alloc())?, None);
    Ok(())
}

/// Two rows that clash, the kind of their first clash, and what each of them says.
static CLASHES: [(&str, &str, &str, &str, &str); 8] = [
    ("O; key a; enum", "P; key b", "name", "O", "P"),
    ("P; key a; enum", "P; key b", "affinity", "a", "b"),
    (
        "P; enum; field a 3 97",
        "P; field a 4 97",
        "flag",
        "enum",
        "",
    ),
    ("P", "P; enum; literal A 0", "flag", "", "enum"),
    (
        "P; field a 3 97",
        "P; field a 4 97",
        "field",
        "a 3 97",
        "a 4 97",
    ),
    (
        "P; field a 3 1; field b 3 2; field c 3 3; enum; literal A 0",
        "P; field b 3 7; field c 4 3; enum; literal A 1",
        "field",
        "b 3 2",
        "b 3 7",
    ),
    (
        "P; enum; literal A 0; literal B 1; schema 1 1",
        "P; enum; literal A 0; literal B 2; schema 1 2",
        "literal",
        "B 1",
        "B 2",
    ),
    (
        "P; schema -1 1 2; schema 1 1",
        "P; schema -1 1; schema 1 2",
        "schema",
        "-1 1 2",
        "-1 1",
    ),
];

/// The first row with another clash.
fn wrong_clash(alloc: Global) -> Result<Option<&'static str>, AllocError> {
    for &(a, b, kind, of_a, of_b) in &CLASHES {
        let want = JoinFault::Clash(clash(alloc, kind, of_a, of_b)?);
        if outcome(alloc, a, b)? != shown(alloc, &want)? {
            return Ok(Some(a));
        }
    }
    Ok(None)
}

#[test]
fn the_first_clash_is_named(rt: HostRuntime) -> Result<(), Fail> {
    assert_eq!(rt; wrong_clash(rt.alloc())?, None);
    Ok(())
}

/// Two rows that clash, and what the refusal prints.
static TEXTS: [(&str, &str, &str); 7] = [
    (
        "O",
        "P",
        "the two descriptions clash: the type has the name `O` in one description and `P` in the other",
    ),
    (
        "P; key a",
        "P; key b",
        "the two descriptions clash: the type has the affinity key `a` in one description and `b` in the other",
    ),
    (
        "P; enum",
        "P",
        "the two descriptions clash: the type is an enum in one description and not in the other",
    ),
    (
        "P; field a 3 97",
        "P; field a 4 98",
        "the two descriptions clash: field `a` has kind 3 in one description and 4 in the other",
    ),
    (
        "P; field a 3 97",
        "P; field a 3 -98",
        "the two descriptions clash: field `a` has identifier 97 in one description and -98 in the other",
    ),
    (
        "P; enum; literal A 0",
        "P; enum; literal A 1",
        "the two descriptions clash: literal `A` has ordinal 0 in one description and 1 in the other",
    ),
    (
        "P; schema -1 1 2",
        "P; schema -1 1",
        "the two descriptions clash: schema -1 has different fields in the two descriptions",
    ),
];

/// What the refusal of a join prints.
fn refusal(alloc: Global, a: &str, b: &str) -> Result<String, AllocError> {
    let a = described(alloc, 5, a)?;
    let b = described(alloc, 5, b)?;
    if a.type_id != b.type_id || !a.is_in_order() || !b.is_in_order() {
        return String::from_str(alloc, "out of order");
    }
    match join(alloc, &a, &b) {
        Ok(_) => String::from_str(alloc, "joined"),
        Err(fault) => format!(in alloc; "{fault}"),
    }
}

/// The first row whose refusal prints another text.
fn wrong_text(alloc: Global) -> Result<Option<&'static str>, AllocError> {
    for &(a, b, text) in &TEXTS {
        if refusal(alloc, a, b)?.as_str() != text {
            return Ok(Some(a));
        }
    }
    Ok(None)
}

#[test]
fn a_refusal_says_what_clashes(rt: HostRuntime) -> Result<(), Fail> {
    assert_eq!(rt; wrong_text(rt.alloc())?, None);
    Ok(())
}

/// Puts the description of a row. Answers what is registered then, after the word `no` if the put was
/// refused.
fn put(alloc: Global, registry: &mut Registry, id: i32, row: &str) -> Result<String, AllocError> {
    let meta = described(alloc, id, row)?;
    if !meta.is_in_order() {
        return String::from_str(alloc, "out of order");
    }
    let word = if registry.put(&meta).is_ok() {
        ""
    } else {
        "no "
    };
    let registered = registry.get(id);
    format!(in alloc; "{word}{registered:?}")
}

/// What is put in turn, the word that answers it, and what is registered then.
static PUTS: [(i32, &str, &str, &str); 7] = [
    (5, "P; field a 3 97", "", "P; field a 3 97"),
    (
        5,
        "P; key b; field b 9 98",
        "",
        "P; key b; field a 3 97; field b 9 98",
    ),
    (
        5,
        "P; field a 3 97",
        "",
        "P; key b; field a 3 97; field b 9 98",
    ),
    (
        5,
        "P; field a 4 97",
        "no ",
        "P; key b; field a 3 97; field b 9 98",
    ),
    (5, "P; key a", "no ", "P; key b; field a 3 97; field b 9 98"),
    (-5, "P; key b; field b 9 98", "", "P; key b; field b 9 98"),
    (0, "P; key c; field b 9 98", "", "P; key c; field b 9 98"),
];

/// The first put that leaves something else.
fn wrong_put(alloc: Global, registry: &mut Registry) -> Result<Option<&'static str>, AllocError> {
    for &(id, row, word, registered) in &PUTS {
        let registered = Some(described(alloc, id, registered)?);
        if put(alloc, registry, id, row)? != format!(in alloc; "{word}{registered:?}")? {
            return Ok(Some(row));
        }
    }
    Ok(None)
}

#[test]
fn a_registry_joins_what_is_put(rt: HostRuntime) -> Result<(), Fail> {
    let mut registry = Registry::new(rt.alloc());
    assert!(rt; registry.get(5).is_none());
    assert_eq!(rt; wrong_put(rt.alloc(), &mut registry)?, None);
    let pairs = registry.affinity_pairs(rt.alloc())?;
    assert_eq!(rt; pairs.as_slice(), [(-5, 98), (5, 98)].as_slice());
    Ok(())
}

/// The names that are set in turn (platform, type identifier, name), the answer, and the name then.
static NAMES: [(u8, i32, &str, bool, &str); 5] = [
    (0, 5, "P", true, "P"),
    (0, 5, "Q", false, "P"),
    (0, 5, "P", true, "P"),
    (1, 5, "Q", true, "Q"),
    (0, -5, "", true, ""),
];

/// The first name that is answered otherwise.
fn wrong_name(alloc: Global) -> Result<Option<&'static str>, AllocError> {
    let mut registry = Registry::new(alloc);
    for &(platform, id, name, want, known) in &NAMES {
        let yes = registry.set_name(platform, id, text(alloc, name)?).ok();
        let found = registry.name(platform, id).map(Text::as_str);
        if yes != Some(want) || found != Some(known) {
            return Ok(Some(name));
        }
    }
    Ok(None)
}

#[test]
fn a_name_is_set_once(rt: HostRuntime) -> Result<(), Fail> {
    assert_eq!(rt; wrong_name(rt.alloc())?, None);
    Ok(())
}
