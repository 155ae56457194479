//! The clash of two descriptions of one type, and why a join fails.

ghost use Rattle.ig_types.specs.declared.clash.JoinFault.TheVariants as fault;
ghost use Rattle.std.specs.Prelude.{◌≡◌};

use crate::meta::{FieldMeta, Literal, SchemaMeta};
use ig_base::{NoMemory, Text};
use std::alloc::{AllocError, AllocFailed};
use std::error::Error;
use std::fmt;

/// How two descriptions of one type contradict each other: what the first says, and what the second
/// says.
///
/// If they do so in several ways, the clash is the first by the order of these variants. Among fields
/// and literals it is the one with the lowest name, among schemas the one with the lowest identifier.
#[derive(Debug, Drop)]
pub enum Clash {
    /// The type has two names.
    Name(Text, Text),
    /// The type has two affinity keys.
    Affinity(Text, Text),
    /// The type is an enum in one description and not in the other.
    EnumFlag(bool, bool),
    /// A field has two kinds or two identifiers.
    Field(FieldMeta, FieldMeta),
    /// A literal has two ordinals.
    Literal(Literal, Literal),
    /// A schema has two lists of fields.
    Schema(SchemaMeta, SchemaMeta),
}

/// Why a join failed.
#[derive(Debug, Drop)]
pub enum JoinFault {
    /// The two descriptions contradict each other.
    Clash(Clash),
    /// There was no memory for the result.
    NoMemory,
}

impl fmt::Display for Clash {
    fn fmt<W: fmt::Write>(&self, f: &mut fmt::Formatter<W>) -> fmt::Result {
        match self {
            Clash::Name(a, b) => write_texts(f, "the type has the name", a, b),
            Clash::Affinity(a, b) => write_texts(f, "the type has the affinity key", a, b),
            Clash::EnumFlag(_, _) => {
                f.write_str("the type is an enum in one description and not in the other")
            }
            Clash::Field(a, b) => write_field(f, a, b),
            Clash::Literal(a, b) => {
                let name = a.name.as_str();
                let first = a.ordinal;
                let second = b.ordinal;
                write!(
                    f,
                    "literal `{name}` has ordinal {first} in one description and {second} in the other"
                )
            }
            Clash::Schema(a, _) => {
                let id = a.id;
                write!(
                    f,
                    "schema {id} has different fields in the two descriptions"
                )
            }
        }
    }
}

impl Error for Clash {}

/// Writes that a property is one text in one description and another in the other.
fn write_texts<W: fmt::Write>(
    f: &mut fmt::Formatter<W>,
    property: &str,
    a: &Text,
    b: &Text,
) -> fmt::Result {
    let first = a.as_str();
    let second = b.as_str();
    write!(
        f,
        "{property} `{first}` in one description and `{second}` in the other"
    )
}

/// Writes that a field has two kinds, or else two identifiers.
fn write_field<W: fmt::Write>(
    f: &mut fmt::Formatter<W>,
    a: &FieldMeta,
    b: &FieldMeta,
) -> fmt::Result {
    let name = a.name.as_str();
    let (property, first, second) = if a.kind != b.kind {
        ("kind", a.kind, b.kind)
    } else {
        ("identifier", a.id, b.id)
    };
    write!(
        f,
        "field `{name}` has {property} {first} in one description and {second} in the other"
    )
}

impl fmt::Display for JoinFault {
    fn fmt<W: fmt::Write>(&self, f: &mut fmt::Formatter<W>) -> fmt::Result {
        match self {
            JoinFault::Clash(clash) => write!(f, "the two descriptions clash: {clash}"),
            JoinFault::NoMemory => f.write_str("out of memory"),
        }
    }
}

impl Error for JoinFault {}

impl From<NoMemory> for JoinFault {
    ghost from_gives = { λ _ e. e ≡ fault.NoMemory };

    fn from(_error: NoMemory) -> JoinFault {
        JoinFault::NoMemory
    }
}

impl From<AllocError> for JoinFault {
    ghost from_gives = { λ _ e. e ≡ fault.NoMemory };

    fn from(_error: AllocError) -> JoinFault {
        JoinFault::NoMemory
    }
}

impl<T: Drop> From<AllocFailed<T>> for JoinFault {
    ghost from_gives = { λ _ e. e ≡ fault.NoMemory };

    fn from(_error: AllocFailed<T>) -> JoinFault {
        JoinFault::NoMemory
    }
}
