//! Answers to calls.

use crate::call::Pair;
use ig_base::{Items, Text};
use ig_types::{Clash, TypeMeta};
use ig_value::Value;

/// Why a call was refused. A refused call changes nothing.
#[derive(Debug, Drop)]
pub enum Why {
    /// No cache has the identifier that the call names.
    NoCache,
    /// A cache has the name's identifier, and for a get or create another name.
    CacheExists,
    /// There are 1,024 caches.
    TooManyCaches,
    /// Caches were created and destroyed 2^31 - 1 times.
    TooManyChanges,
    /// The type has no name on the platform.
    NoTypeName,
    /// The description clashes with the one of its type.
    Clash(Clash),
}

/// What a call led to. Which variant answers which call is `AnswersKind`.
#[derive(Debug, Drop)]
pub enum Outcome {
    /// What was asked is done.
    Done,
    /// The value that was asked for, null without one.
    Found(Value),
    /// Yes or no.
    Yes(bool),
    /// Rows.
    Pairs(Items<Pair>),
    /// A number of rows; it saturates at `i64::MAX`.
    Count(i64),
    /// The names of the caches.
    Names(Items<Text>),
    /// The name of a type.
    Name(Text),
    /// The description of a type, if there is one.
    Meta(Option<TypeMeta>),
    /// Identifiers of types, each with that of a field.
    Keys(Items<(i32, i32)>),
    /// The call was refused.
    Refused(Why),
}

/// The answer to a call.
#[derive(Debug, Drop)]
pub struct Answer {
    /// How often caches had been created and destroyed when the call had run.
    pub minor: i32,
    pub outcome: Outcome,
}
