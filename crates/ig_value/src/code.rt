//! The code byte that begins each value.

ghost use Rattle.std.specs.Prelude.{◌≡◌};
ghost use Rattle.ig_value.specs.Table.{byte_of, code_at};

/// The kinds of value, by their codes. Each has the name of its variant of `Value`.
#[derive(Clone, Copy, Debug, PartialEq, Eq)]
pub enum Code {
    Byte = 1,
    Short = 2,
    Int = 3,
    Long = 4,
    Float = 5,
    Double = 6,
    Char = 7,
    Bool = 8,
    Str = 9,
    Uuid = 10,
    Date = 11,
    Bytes = 12,
    Shorts = 13,
    Ints = 14,
    Longs = 15,
    Floats = 16,
    Doubles = 17,
    Chars = 18,
    Bools = 19,
    Strs = 20,
    Uuids = 21,
    Dates = 22,
    Objects = 23,
    Collection = 24,
    Map = 25,
    Wrapped = 27,
    Enum = 28,
    Enums = 29,
    Decimal = 30,
    Decimals = 31,
    Timestamp = 33,
    Timestamps = 34,
    Time = 36,
    Times = 37,
    BinaryEnum = 38,
    Null = 101,
    Object = 103,
}

impl Code {
    /// The code of a byte, or `None` where no value has this code.
    pub fn of(byte: u8) -> Option<Code>
        ensures { result ≡ code_at byte }
    {
        Some(match byte {
            1 => Code::Byte,
            2 => Code::Short,
            3 => Code::Int,
            4 => Code::Long,
            5 => Code::Float,
            6 => Code::Double,
            7 => Code::Char,
            8 => Code::Bool,
            9 => Code::Str,
            10 => Code::Uuid,
            11 => Code::Date,
            12 => Code::Bytes,
            13 => Code::Shorts,
            14 => Code::Ints,
            15 => Code::Longs,
            16 => Code::Floats,
            17 => Code::Doubles,
            18 => Code::Chars,
            19 => Code::Bools,
            20 => Code::Strs,
            21 => Code::Uuids,
            22 => Code::Dates,
            23 => Code::Objects,
            24 => Code::Collection,
            25 => Code::Map,
            27 => Code::Wrapped,
            28 => Code::Enum,
            29 => Code::Enums,
            30 => Code::Decimal,
            31 => Code::Decimals,
            33 => Code::Timestamp,
            34 => Code::Timestamps,
            36 => Code::Time,
            37 => Code::Times,
            38 => Code::BinaryEnum,
            101 => Code::Null,
            103 => Code::Object,
            _ => return None,
        })
    }

    /// The byte of the code.
    pub fn byte(self) -> u8
        ensures { result ≡ byte_of self }
    {
        self as u8
    }
}
