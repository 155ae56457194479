//! What each word and its arguments ask.

ghost use Rattle.ig_caches.specs.declared.call.Call.{Call as a_call};
ghost use Rattle.ig_text.specs.ReadText.{mapped_read};
ghost use Rattle.ig_text.specs.ReaderAnswers.{ReaderAnswers, Makes};
ghost use Rattle.ig_lines.specs.declared.word.Word.TheVariants as words;
ghost use Rattle.ig_lines.specs.Commands.{run as run_call};
ghost use Rattle.ig_lines.specs.ReadLine as reading;

use crate::arguments::{Argument, Cache, Name, Page};
use crate::line::LineAsk;
use crate::word::Word;
use ig_base::{Items, Octets, Text};
use ig_caches::{Call, Pair, Request};
use ig_text::ReadError;
use ig_types::TypeMeta;
use ig_value::Value;
use std::alloc::Global;

/// A cache and a key.
type KeyArguments = (Cache, Value);

/// A cache and two values.
type TwoArguments = (Cache, (Value, Value));

/// A cache and three values.
type ThreeArguments = (Cache, (Value, (Value, Value)));

/// A cache and keys.
type KeysArguments = (Cache, Items<Value>);

/// A call, with what its arguments hold.
fn call<A: Argument, M: FnOnce(A::Item) -> Call>(
    alloc: Global,
    text: &[u8],
    make: M,
) -> Result<(LineAsk, &[u8]), ReadError>
    requires { M.IsAlwaysCallable make }
    ensures { (build : A.Item → a_call) → Makes (M.post make) build
        → ReaderAnswers (λ x. (x.0, x.1.now)) result
        (mapped_read (λ x. run_call (build x)) (A.reads text.now)) }
{
    let (item, rest) = A::read(alloc, text)?;
    Ok((LineAsk::Ask(Request::Run(make(item))), rest))
}

/// What the word asks with the arguments after it, and the bytes after them.
pub(crate) fn ask_of_word(
    alloc: Global,
    word: Word,
    text: &[u8],
) -> Result<(LineAsk, &[u8]), ReadError>
    ensures { ReaderAnswers (λ x. (x.0, x.1.now)) result (reading.ask_of_word word text.now) }
{
    match word {
        Word::Get => call::<KeyArguments, _>(alloc, text, |(cache, key)| Call::Get { cache, key }),
        Word::GetAndRemove => call::<KeyArguments, _>(
            alloc,
            text,
            |(cache, key)| Call::GetAndRemove { cache, key },
        ),
        Word::Contains => call::<KeyArguments, _>(
            alloc,
            text,
            |(cache, key)| Call::ContainsKey { cache, key },
        ),
        Word::ClearKey => call::<KeyArguments, _>(
            alloc,
            text,
            |(cache, key)| Call::ClearKey { cache, key },
        ),
        Word::Remove => call::<KeyArguments, _>(
            alloc,
            text,
            |(cache, key)| Call::RemoveKey { cache, key },
        ),
        Word::Put => call::<TwoArguments, _>(
            alloc,
            text,
            |(cache, (key, value))| Call::Put { cache, key, value },
        ),
        Word::PutIfAbsent => call::<TwoArguments, _>(
            alloc,
            text,
            |(cache, (key, value))| Call::PutIfAbsent { cache, key, value },
        ),
        Word::GetAndPut => call::<TwoArguments, _>(
            alloc,
            text,
            |(cache, (key, value))| Call::GetAndPut { cache, key, value },
        ),
        Word::GetAndReplace => call::<TwoArguments, _>(
            alloc,
            text,
            |(cache, (key, value))| Call::GetAndReplace { cache, key, value },
        ),
        Word::GetAndPutIfAbsent => call::<TwoArguments, _>(
            alloc,
            text,
            |(cache, (key, value))| Call::GetAndPutIfAbsent { cache, key, value },
        ),
        Word::Replace => call::<TwoArguments, _>(
            alloc,
            text,
            |(cache, (key, value))| Call::Replace { cache, key, value },
        ),
        Word::ReplaceIf => call::<ThreeArguments, _>(
            alloc,
            text,
            |(cache, (key, (wanted, value)))| Call::ReplaceIfEquals {
                cache,
                key,
                wanted,
                value,
            },
        ),
        Word::RemoveIf => call::<TwoArguments, _>(
            alloc,
            text,
            |(cache, (key, wanted))| Call::RemoveIfEquals { cache, key, wanted },
        ),
        Word::GetAll => call::<KeysArguments, _>(
            alloc,
            text,
            |(cache, keys)| Call::GetAll { cache, keys },
        ),
        Word::ContainsAll => call::<KeysArguments, _>(
            alloc,
            text,
            |(cache, keys)| Call::ContainsKeys { cache, keys },
        ),
        Word::ClearKeys => call::<KeysArguments, _>(
            alloc,
            text,
            |(cache, keys)| Call::ClearKeys { cache, keys },
        ),
        Word::RemoveKeys => call::<KeysArguments, _>(
            alloc,
            text,
            |(cache, keys)| Call::RemoveKeys { cache, keys },
        ),
        Word::PutAll => call::<(Cache, Items<Pair>), _>(
            alloc,
            text,
            |(cache, pairs)| Call::PutAll { cache, pairs },
        ),
        Word::Clear => call::<Cache, _>(alloc, text, |cache| Call::Clear { cache }),
        Word::RemoveAll => call::<Cache, _>(alloc, text, |cache| Call::RemoveAll { cache }),
        Word::Size => size(alloc, text),
        Word::Names => call::<(), _>(alloc, text, |_| Call::Names),
        Word::Create => call::<Name, _>(alloc, text, |name| Call::Create { name }),
        Word::GetOrCreate => call::<Name, _>(alloc, text, |name| Call::GetOrCreate { name }),
        Word::Destroy => call::<Cache, _>(alloc, text, |cache| Call::Destroy { cache }),
        Word::Scan => scan(alloc, text),
        Word::Next => next(alloc, text),
        Word::Close => close(alloc, text),
        Word::TypeName => call::<(u8, i32), _>(
            alloc,
            text,
            |(platform, type_id)| Call::TypeName { platform, type_id },
        ),
        Word::Type => call::<i32, _>(alloc, text, |type_id| Call::TypeOf { type_id }),
        Word::SetTypeName => call::<(u8, (i32, Text)), _>(
            alloc,
            text,
            |(platform, (type_id, name))| Call::SetTypeName {
                platform,
                type_id,
                name,
            },
        ),
        Word::PutType => call::<TypeMeta, _>(alloc, text, |meta| Call::PutType { meta }),
        Word::Parts => parts(alloc, text),
    }
}

/// How many rows a cache has, by modes.
fn size(alloc: Global, text: &[u8]) -> Result<(LineAsk, &[u8]), ReadError>
    ensures { ReaderAnswers (λ x. (x.0, x.1.now)) result (reading.ask_of_word words.Size text.now) }
{
    let (cache, rest) = Cache::read(alloc, text)?;
    let (modes, rest) = <Items<u8> as Argument>::read(alloc, rest)?;
    let modes = Octets::new(modes.into_std());
    Ok((
        LineAsk::Ask(Request::Run(Call::Size { cache, modes })),
        rest,
    ))
}

/// The first page of a scan.
fn scan(alloc: Global, text: &[u8]) -> Result<(LineAsk, &[u8]), ReadError>
    ensures { ReaderAnswers (λ x. (x.0, x.1.now)) result (reading.ask_of_word words.Scan text.now) }
{
    let (cache, rest) = Cache::read(alloc, text)?;
    let (page, rest) = Page::read(alloc, rest)?;
    Ok((LineAsk::Ask(Request::Scan { cache, page }), rest))
}

/// The next page of a cursor.
fn next(alloc: Global, text: &[u8]) -> Result<(LineAsk, &[u8]), ReadError>
    ensures { ReaderAnswers (λ x. (x.0, x.1.now)) result (reading.ask_of_word words.Next text.now) }
{
    let (cursor, rest) = <i64 as Argument>::read(alloc, text)?;
    Ok((LineAsk::Ask(Request::NextPage { cursor }), rest))
}

/// The close of a cursor.
fn close(alloc: Global, text: &[u8]) -> Result<(LineAsk, &[u8]), ReadError>
    ensures { ReaderAnswers (λ x. (x.0, x.1.now)) result (reading.ask_of_word words.Close text.now) }
{
    let (resource, rest) = <i64 as Argument>::read(alloc, text)?;
    Ok((LineAsk::Ask(Request::Close { resource }), rest))
}

/// Where the keys of caches lie.
fn parts(alloc: Global, text: &[u8]) -> Result<(LineAsk, &[u8]), ReadError>
    ensures { ReaderAnswers (λ x. (x.0, x.1.now)) result
        (reading.ask_of_word words.Parts text.now) }
{
    let (caches, rest) = <Items<Cache> as Argument>::read(alloc, text)?;
    Ok((LineAsk::Parts(caches), rest))
}
