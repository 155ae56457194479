//! Why bytes don't encode a value.

use std::fmt;

/// What is wrong with the first wrong part, from the left.
#[derive(Clone, Copy, Debug, PartialEq, Eq)]
pub enum Cause {
    /// The input ends before the part does.
    Short,
    /// This code byte can't stand here.
    Code(u8),
    /// A truth value with this byte, which is neither 0 nor 1.
    Bool(u8),
    /// A text isn't UTF-8.
    Utf8,
    /// A negative count.
    Count(i32),
    /// A value more than 32 levels deep.
    Depth,
    /// A complex object of another version of the layout than 1.
    ObjectVersion(u8),
    /// A complex object with raw data.
    RawData,
    /// A complex object whose type identifier is 0.
    Unregistered,
    /// A complex object with offsets of one byte and of two bytes.
    Flags,
    /// A complex object that is shorter than its header.
    Length,
    /// A complex object whose footer isn't there, or doesn't agree with the header.
    Footer,
    /// A field of a complex object doesn't stand where the footer says, or the fields don't end
    /// where the footer begins.
    Offset,
}

impl fmt::Display for Cause {
    fn fmt<W: fmt::Write>(&self, f: &mut fmt::Formatter<W>) -> fmt::Result {
        match self {
            Cause::Short => write!(f, "the value isn't whole"),
            Cause::Code(code) => write!(f, "no value has the code {code} here"),
            Cause::Bool(byte) => write!(f, "{byte} is no truth value"),
            Cause::Utf8 => write!(f, "the text isn't UTF-8"),
            Cause::Count(count) => write!(f, "the count {count} is negative"),
            Cause::Depth => write!(f, "the value is more than 32 levels deep"),
            Cause::ObjectVersion(version) => write!(f, "an object can't have version {version}"),
            Cause::RawData => write!(f, "an object can't have raw data"),
            Cause::Unregistered => write!(f, "an object's type can't be 0"),
            Cause::Flags => write!(f, "an object can't have offsets of two widths"),
            Cause::Length => write!(f, "the object's length is less than its header's"),
            Cause::Footer => write!(f, "the object's footer doesn't agree with its header"),
            Cause::Offset => write!(f, "a field isn't where the object's footer says"),
        }
    }
}

impl std::error::Error for Cause {}
