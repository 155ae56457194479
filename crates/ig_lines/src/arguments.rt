//! Reading the arguments of a line. Each stands after a space.

ghost use Rattle.std.specs.Prelude.{◌≡◌, ℕ, List, length};
ghost use Rattle.ig_value.specs.Part as scalar;
ghost use Rattle.ig_text.specs.ReadText.{Read, mapped_read, scalar_at, quoted_at};
ghost use Rattle.ig_text.specs.ReaderAnswers.{ReaderAnswers};
ghost use Rattle.ig_lines.specs.Arguments as arguments;
ghost use Rattle.ig_text.specs.DescriptionText.{adjacent_at};

use ig_base::{Items, Text, text_hash};
use ig_caches::Pair;
use ig_fields::is_null;
use ig_text::{ReadError, ReadPart, mark, natural};
use ig_types::TypeMeta;
use ig_value::Value;
use std::alloc::Global;
use std::str;

/// An argument of a line.
///
/// | The type | The argument | What it holds |
/// |---|---|---|
/// | `()` | none | `()` |
/// | `Cache` | a cache, by its identifier or its name | its identifier |
/// | `Value` | a value that isn't null | it |
/// | `Pair` | two such values with an equals sign between them | both |
/// | `u8` | a number up to 255 | it |
/// | `Page` | a number of rows from 1 on | it |
/// | `i32`, `i64` | a number | it |
/// | `Name` | a quoted text that isn't empty | it |
/// | `Text` | a quoted text | it |
/// | `TypeMeta` | a description in order | it |
/// | `(F, G)` | F and then G | a pair of what they hold |
/// | `Items<F>` | zero or more of F, up to the end | a list of what they hold |
pub(crate) trait Argument {
    /// What the argument holds.
    type Item: Drop;

    ghost reads: { List ℕ → Read Self.Item };

    /// What the argument in front holds, and the bytes after it.
    fn read(alloc: Global, text: &[u8]) -> Result<(Self::Item, &[u8]), ReadError>
        ensures { ReaderAnswers (λ x. (x.0, x.1.now)) result (reads text.now) };
}

/// A cache, by its identifier after a number sign, or by its name.
pub(crate) struct Cache;

/// How many rows a page has.
pub(crate) struct Page;

/// A name that isn't empty.
pub(crate) struct Name;

impl Argument for () {
    type Item = ();

    ghost reads = { arguments.argument_at arguments.nothing };

    fn read(_alloc: Global, text: &[u8]) -> Result<((), &[u8]), ReadError> {
        Ok(((), text))
    }
}

impl Argument for Cache {
    type Item = i32;

    ghost reads = { λ s. mapped_read arguments.id_of (arguments.argument_at arguments.cache s) };

    fn read(alloc: Global, text: &[u8]) -> Result<(i32, &[u8]), ReadError> {
        let (_, rest) = mark(b' ', text)?;
        if let Some(number) = rest.strip_prefix(b"#") {
            return <i32 as ReadPart>::read(alloc, number);
        }
        named_cache(rest)
    }
}

/// The identifier of the cache whose name stands in front, and the bytes after it.
fn named_cache(text: &[u8]) -> Result<(i32, &[u8]), ReadError>
    ensures { ReaderAnswers (λ x. (x.0, x.1.now)) result
        (mapped_read arguments.id_of (arguments.name_of (arguments.graphic_len text.now) text.now)) }
{
    let left = text.len();
    let (name, rest) = text.split_at(graphic_len(text));
    if name.is_empty() {
        return Err(ReadError::Bad { left });
    }
    match str::from_utf8(name) {
        Ok(name) => Ok((text_hash(name), rest)),
        Err(_) => Err(ReadError::Bad { left }),
    }
}

/// How many bytes of a name the text begins with.
fn graphic_len(text: &[u8]) -> usize
    ensures { result ≡ arguments.graphic_len text.now }
{
    for (index, byte) in text.iter().enumerate() {
        if !byte.is_ascii_graphic() {
            return index;
        }
    }
    text.len()
}

impl Argument for Value {
    type Item = Value;

    ghost reads = { arguments.argument_at arguments.item };

    fn read(alloc: Global, text: &[u8]) -> Result<(Value, &[u8]), ReadError> {
        let (_, rest) = mark(b' ', text)?;
        item(alloc, rest)
    }
}

/// A value that isn't null, and the bytes after it.
fn item(alloc: Global, text: &[u8]) -> Result<(Value, &[u8]), ReadError>
    ensures { ReaderAnswers (λ x. (x.0, x.1.now)) result (arguments.item_at text.now) }
{
    let (value, rest) = <Value as ReadPart>::read(alloc, text)?;
    if is_null(&value) {
        drop(value);
        return Err(ReadError::Bad { left: text.len() });
    }
    Ok((value, rest))
}

impl Argument for Pair {
    type Item = Pair;

    ghost reads = { arguments.argument_at arguments.pair };

    fn read(alloc: Global, text: &[u8]) -> Result<(Pair, &[u8]), ReadError> {
        let (_, rest) = mark(b' ', text)?;
        let (key, rest) = item(alloc, rest)?;
        let (_, rest) = mark(b'=', rest)?;
        let (value, rest) = item(alloc, rest)?;
        Ok((Pair { key, value }, rest))
    }
}

/// A number up to a limit, and the bytes after it.
pub(crate) fn up_to(limit: u8, text: &[u8]) -> Result<(u8, &[u8]), ReadError>
    ensures { ReaderAnswers (λ x. (x.0, x.1.now)) result
        (arguments.up_to_at limit text.now) }
{
    let (number, rest) = natural(text)?;
    if number > u64::from(limit) {
        return Err(ReadError::Bad { left: text.len() });
    }
    Ok((number as u8, rest))
}

impl Argument for u8 {
    type Item = u8;

    ghost reads = { arguments.argument_at arguments.small };

    fn read(_alloc: Global, text: &[u8]) -> Result<(u8, &[u8]), ReadError> {
        let (_, rest) = mark(b' ', text)?;
        up_to(255, rest)
    }
}

impl Argument for Page {
    type Item = i32;

    ghost reads = { arguments.argument_at arguments.page };

    fn read(alloc: Global, text: &[u8]) -> Result<(i32, &[u8]), ReadError> {
        let (_, number) = mark(b' ', text)?;
        let (page, rest) = <i32 as ReadPart>::read(alloc, number)?;
        if page < 1 {
            return Err(ReadError::Bad { left: number.len() });
        }
        Ok((page, rest))
    }
}

impl Argument for i32 {
    type Item = i32;

    ghost reads = { arguments.argument_at arguments.type_id };

    fn read(alloc: Global, text: &[u8]) -> Result<(i32, &[u8]), ReadError> {
        let (_, rest) = mark(b' ', text)?;
        <i32 as ReadPart>::read(alloc, rest)
    }
}

impl Argument for i64 {
    type Item = i64;

    ghost reads = { arguments.argument_at arguments.cursor };

    fn read(alloc: Global, text: &[u8]) -> Result<(i64, &[u8]), ReadError> {
        let (_, rest) = mark(b' ', text)?;
        <i64 as ReadPart>::read(alloc, rest)
    }
}

impl Argument for Name {
    type Item = Text;

    ghost reads = { arguments.argument_at arguments.name };

    fn read(alloc: Global, text: &[u8]) -> Result<(Text, &[u8]), ReadError> {
        let (_, quoted) = mark(b' ', text)?;
        let (name, rest) = <Text as ReadPart>::read(alloc, quoted)?;
        if name.as_str().is_empty() {
            return Err(ReadError::Bad { left: quoted.len() });
        }
        Ok((name, rest))
    }
}

impl Argument for Text {
    type Item = Text;

    ghost reads = { arguments.argument_at arguments.quoted_text };

    fn read(alloc: Global, text: &[u8]) -> Result<(Text, &[u8]), ReadError> {
        let (_, rest) = mark(b' ', text)?;
        <Text as ReadPart>::read(alloc, rest)
    }
}

impl Argument for TypeMeta {
    type Item = TypeMeta;

    ghost reads = { arguments.argument_at arguments.description };

    fn read(alloc: Global, text: &[u8]) -> Result<(TypeMeta, &[u8]), ReadError> {
        let (_, rest) = mark(b' ', text)?;
        <TypeMeta as ReadPart>::read(alloc, rest)
    }
}

impl<F: Argument, G: Argument> Argument for (F, G) {
    type Item = (F::Item, G::Item);

    ghost reads = { adjacent_at F.reads G.reads };

    fn read(alloc: Global, text: &[u8]) -> Result<((F::Item, G::Item), &[u8]), ReadError> {
        let (first, rest) = F::read(alloc, text)?;
        let (second, rest) = G::read(alloc, rest)?;
        Ok(((first, second), rest))
    }
}

impl<F: Argument> Argument for Items<F> {
    type Item = Items<F::Item>;

    ghost reads = { λ s. arguments.to_end_at F.reads (length s) s };

    fn read(alloc: Global, text: &[u8]) -> Result<(Items<F::Item>, &[u8]), ReadError> {
        let mut read = Vec::new(alloc);
        let mut rest = text;
        let most = text.len();
        for _ in 0..most {
            if rest.is_empty() {
                return Ok((Items::new(read), rest));
            }
            let (item, next) = F::read(alloc, rest)?;
            read.push(item)?;
            rest = next;
        }
        if rest.is_empty() {
            return Ok((Items::new(read), rest));
        }
        Err(ReadError::Bad { left: rest.len() })
    }
}
