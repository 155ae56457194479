//! Calls: what a grid is asked.

use ig_base::{Items, Octets, Text};
use ig_types::TypeMeta;
use ig_value::Value;

/// A key and its value.
#[derive(Debug, Drop)]
pub struct Pair {
    pub key: Value,
    pub value: Value,
}

/// A call. `cache` is the identifier of a cache: the hash of its name. Two keys are equal, and two values
/// are, if their canonical encodings are.
///
/// Every call that runs one requires `IsRunnable`: no key, value or wanted value is null, each keeps to
/// the limits of values and has a canonical encoding of at most 2^31 - 1 bytes, the name of a cache to be
/// created isn't empty, and a description is in order.
#[derive(Debug, Drop)]
pub enum Call {
    /// Asks for the value of the key.
    Get {
        cache: i32,
        key: Value,
    },
    /// Removes the row of the key, and asks for its value.
    GetAndRemove {
        cache: i32,
        key: Value,
    },
    /// Asks whether the key has a row.
    ContainsKey {
        cache: i32,
        key: Value,
    },
    /// Removes the row of the key.
    ClearKey {
        cache: i32,
        key: Value,
    },
    /// Removes the row of the key, and asks whether there was one.
    RemoveKey {
        cache: i32,
        key: Value,
    },
    /// Sets the value of the key.
    Put {
        cache: i32,
        key: Value,
        value: Value,
    },
    /// Sets the value of the key if it has none, and asks whether it had none.
    PutIfAbsent {
        cache: i32,
        key: Value,
        value: Value,
    },
    /// Sets the value of the key, and asks for the one before.
    GetAndPut {
        cache: i32,
        key: Value,
        value: Value,
    },
    /// Sets the value of the key if it has one, and asks for the one before.
    GetAndReplace {
        cache: i32,
        key: Value,
        value: Value,
    },
    /// Sets the value of the key if it has none, and asks for the one before.
    GetAndPutIfAbsent {
        cache: i32,
        key: Value,
        value: Value,
    },
    /// Sets the value of the key if it has one, and asks whether it had one.
    Replace {
        cache: i32,
        key: Value,
        value: Value,
    },
    /// Sets the value of the key if it has the wanted one, and asks whether it had it.
    ReplaceIfEquals {
        cache: i32,
        key: Value,
        wanted: Value,
        value: Value,
    },
    /// Removes the row of the key if it has the wanted value, and asks whether it had it.
    RemoveIfEquals {
        cache: i32,
        key: Value,
        wanted: Value,
    },
    /// Asks for the rows of those of the keys that have one, each once, in the order in which the keys
    /// are first mentioned.
    GetAll {
        cache: i32,
        keys: Items<Value>,
    },
    /// Asks whether each of the keys has a row.
    ContainsKeys {
        cache: i32,
        keys: Items<Value>,
    },
    /// Removes the rows of the keys.
    ClearKeys {
        cache: i32,
        keys: Items<Value>,
    },
    /// Removes the rows of the keys.
    RemoveKeys {
        cache: i32,
        keys: Items<Value>,
    },
    /// Sets values from left to right: the last value of a key that is repeated stands.
    PutAll {
        cache: i32,
        pairs: Items<Pair>,
    },
    /// Removes all rows.
    Clear {
        cache: i32,
    },
    /// Removes all rows.
    RemoveAll {
        cache: i32,
    },
    /// Asks for all rows, in the order of the canonical encodings of their keys.
    Scan {
        cache: i32,
    },
    /// Asks for the number of rows, if there are no modes or one of them is 0 or 2, and else for 0.
    Size {
        cache: i32,
        modes: Octets,
    },
    /// Asks for the names of the caches, in the order of their creation.
    Names,
    /// Creates a cache.
    Create {
        name: Text,
    },
    /// Creates a cache if there is none of this name.
    GetOrCreate {
        name: Text,
    },
    /// Removes a cache with its rows.
    Destroy {
        cache: i32,
    },
    /// Asks for the name of a type on a platform.
    TypeName {
        platform: u8,
        type_id: i32,
    },
    /// Sets the name of a type on a platform if it has none there, and asks whether this is its name
    /// then.
    SetTypeName {
        platform: u8,
        type_id: i32,
        name: Text,
    },
    /// Asks for the description of a type.
    TypeOf {
        type_id: i32,
    },
    /// Joins a description to the one of its type.
    PutType {
        meta: TypeMeta,
    },
    /// Asks for the pairs of a type and the field that is its affinity key, if each identifier is that
    /// of a cache.
    Affinity {
        caches: Items<i32>,
    },
}
