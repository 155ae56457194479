//! Measures of bytes: how many they are and, where a header needs it, what they do to a hash.

use crate::length::Length;

/// What bytes do to the hash of a complex object's fields: a hash `h` before them is
/// `h * pow + sum` after them, modulo 2^32.
#[derive(Clone, Copy, Debug, PartialEq, Eq)]
pub struct Digest {
    /// 31 to the number of bytes.
    pub pow: u32,
    /// The hash of the bytes from 0.
    pub sum: u32,
}

/// Bytes that were counted and, with a digest, hashed. None of them is kept.
#[derive(Debug, Drop)]
pub struct Measure {
    pub length: Length,
    pub digest: Option<Digest>,
}
