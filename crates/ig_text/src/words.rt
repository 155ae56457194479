//! The table of words.

ghost use Rattle.std.specs.Prelude.{◌≡◌};
ghost use Rattle.std.specs.List.{find};
ghost use Rattle.ig_text.specs.ReadText.{begins_with};
ghost use Rattle.ig_text.specs.Words as words;

use crate::row::Row;
use ig_value::Code;

/// The word of a row, with the mark that ends it. No word is a prefix of another.
pub(crate) fn word(row: Row) -> &'static [u8]
    ensures { result.now ≡ words.word row }
{
    match row {
        Row::Kind(code) => word_of_code(code),
        Row::CompactObject => b"cobj:",
    }
}

/// The word of a kind of value.
fn word_of_code(code: Code) -> &'static [u8]
    ensures { result.now ≡ words.word_of_code code }
{
    match code {
        Code::Byte => b"byte:",
        Code::Short => b"short:",
        Code::Int => b"int:",
        Code::Long => b"long:",
        Code::Float => b"float:",
        Code::Double => b"double:",
        Code::Char => b"char:",
        Code::Bool => b"bool:",
        Code::Str => b"str:",
        Code::Uuid => b"uuid:",
        Code::Date => b"date:",
        Code::Bytes => b"bytes[",
        Code::Shorts => b"shorts[",
        Code::Ints => b"ints[",
        Code::Longs => b"longs[",
        Code::Floats => b"floats[",
        Code::Doubles => b"doubles[",
        Code::Chars => b"chars[",
        Code::Bools => b"bools[",
        Code::Strs => b"strs[",
        Code::Uuids => b"uuids[",
        Code::Dates => b"dates[",
        Code::Objects => b"objs:",
        Code::Collection => b"coll:",
        Code::Map => b"map:",
        Code::Wrapped => b"wrap:",
        Code::Enum => b"enum:",
        Code::Enums => b"enums:",
        Code::Decimal => b"dec:",
        Code::Decimals => b"decs[",
        Code::Timestamp => b"ts:",
        Code::Timestamps => b"tss[",
        Code::Time => b"time:",
        Code::Times => b"times[",
        Code::BinaryEnum => b"benum:",
        Code::Null => b"null",
        Code::Object => b"obj:",
    }
}

/// All rows.
static ROWS: [Row; 38] = [
    Row::CompactObject,
    Row::Kind(Code::Byte),
    Row::Kind(Code::Short),
    Row::Kind(Code::Int),
    Row::Kind(Code::Long),
    Row::Kind(Code::Float),
    Row::Kind(Code::Double),
    Row::Kind(Code::Char),
    Row::Kind(Code::Bool),
    Row::Kind(Code::Str),
    Row::Kind(Code::Uuid),
    Row::Kind(Code::Date),
    Row::Kind(Code::Bytes),
    Row::Kind(Code::Shorts),
    Row::Kind(Code::Ints),
    Row::Kind(Code::Longs),
    Row::Kind(Code::Floats),
    Row::Kind(Code::Doubles),
    Row::Kind(Code::Chars),
    Row::Kind(Code::Bools),
    Row::Kind(Code::Strs),
    Row::Kind(Code::Uuids),
    Row::Kind(Code::Dates),
    Row::Kind(Code::Objects),
    Row::Kind(Code::Collection),
    Row::Kind(Code::Map),
    Row::Kind(Code::Wrapped),
    Row::Kind(Code::Enum),
    Row::Kind(Code::Enums),
    Row::Kind(Code::Decimal),
    Row::Kind(Code::Decimals),
    Row::Kind(Code::Timestamp),
    Row::Kind(Code::Timestamps),
    Row::Kind(Code::Time),
    Row::Kind(Code::Times),
    Row::Kind(Code::BinaryEnum),
    Row::Kind(Code::Null),
    Row::Kind(Code::Object),
];

/// The row whose word the text begins with.
pub(crate) fn row_at(text: &[u8]) -> Option<Row>
    ensures { result ≡ words.row_at text.now }
{
    first_row(&ROWS, text)
}

/// The first of these rows whose word the text begins with.
fn first_row(rows: &[Row], text: &[u8]) -> Option<Row>
    ensures { result ≡ find (λ r. begins_with (words.word r) text.now) rows.now }
{
    for row in rows {
        if text.starts_with(word(*row)) {
            return Some(*row);
        }
    }
    None
}
