//! Writing what a line asks.

ghost use Rattle.std.specs.Prelude.{◌≡◌, ◌++◌, ◌∷◌, OnOk, OnErr};
ghost use Rattle.std.specs.Fmt.{decimal};
ghost use Rattle.ig_value.specs.Part as scalar;
ghost use Rattle.ig_text.specs.TextOf.{TextOf};
ghost use Rattle.ig_text.specs.Tokens.{scalar_text};
ghost use Rattle.ig_lines.specs.Arguments.{space, numbered_text};
ghost use Rattle.ig_lines.specs.Commands.{call_command};
ghost use Rattle.ig_lines.specs.LineText.{AskText, LineOf, optional_command_text};
ghost use Rattle.ig_lines.specs.ShownText.{spaced};
ghost use Rattle.ig_lines.specs.Words.{text_of as words_text};

use crate::line::{Line, LineAsk};
use crate::put_arguments::{
    put_cache, put_caches, put_each, put_number, put_pairs, put_small, put_smalls, put_spaced,
};
use crate::word::Word;
use crate::words::text_of;
use ig_base::{NoMemory, Octets};
use ig_caches::{Call, Request};
use ig_text::PutText;
use ig_value::Value;
use std::alloc::Global;

/// Appends the text of the line, in which each cache stands by its identifier. On an error the bytes are
/// as before.
#[tactic(auto, unfolding(crate::specs::LineText::LineOf))]
pub fn put_line(alloc: Global, line: &Line, out: &mut Octets) -> Result<(), NoMemory>
    ensures ok { OnOk result (out.new ≡ out.old ++ LineOf line.now) }
    ensures err { OnErr result (out.new ≡ out.old) }
{
    let mut text = Octets::empty(alloc);
    put_number(usize::from(line.lane), &mut text)?;
    text.push(b' ')?;
    put_command(&line.ask, &mut text)?;
    out.append(text.as_slice())
}

/// Appends the text of what a line asks, in which each cache stands by its identifier. On an error the
/// bytes are as before. Neither a whole scan nor pairs of caches have a text: nothing is appended then.
pub fn put_ask(alloc: Global, ask: &LineAsk, out: &mut Octets) -> Result<(), NoMemory>
    ensures ok { OnOk result (out.new ≡ out.old ++ AskText ask.now) }
    ensures err { OnErr result (out.new ≡ out.old) }
{
    let mut text = Octets::empty(alloc);
    put_command(ask, &mut text)?;
    out.append(text.as_slice())
}

/// Appends the word and its arguments. After an error part of them may stand there.
#[tactic(auto, unfolding(crate::specs::LineText::AskText))]
fn put_command(ask: &LineAsk, out: &mut Octets) -> Result<(), NoMemory>
    ensures { OnOk result (out.new ≡ out.old ++ AskText ask.now) }
{
    match ask {
        LineAsk::Ask(Request::Run(call)) => put_call(call, out),
        LineAsk::Ask(Request::Scan { cache, page }) => {
            put_word(Word::Scan, *cache, out)?;
            put_spaced(page, out)
        }
        LineAsk::Ask(Request::NextPage { cursor }) => put_with(Word::Next, cursor, out),
        LineAsk::Ask(Request::Close { resource }) => put_with(Word::Close, resource, out),
        LineAsk::Parts(caches) => {
            out.append(text_of(Word::Parts))?;
            put_caches(caches.as_slice(), out)
        }
    }
}

/// Appends the word of a call and its arguments.
fn put_call(call: &Call, out: &mut Octets) -> Result<(), NoMemory>
    ensures { OnOk result (out.new ≡ out.old ++ optional_command_text (call_command call.now)) }
{
    match call {
        Call::Get { cache, key } => put_key(Word::Get, *cache, key, out),
        Call::GetAndRemove { cache, key } => put_key(Word::GetAndRemove, *cache, key, out),
        Call::ContainsKey { cache, key } => put_key(Word::Contains, *cache, key, out),
        Call::ClearKey { cache, key } => put_key(Word::ClearKey, *cache, key, out),
        Call::RemoveKey { cache, key } => put_key(Word::Remove, *cache, key, out),
        Call::Put { cache, key, value } => put_two(Word::Put, *cache, key, value, out),
        Call::PutIfAbsent { cache, key, value } => put_two(
            Word::PutIfAbsent,
            *cache,
            key,
            value,
            out,
        ),
        Call::GetAndPut { cache, key, value } => put_two(Word::GetAndPut, *cache, key, value, out),
        Call::GetAndReplace { cache, key, value } => put_two(
            Word::GetAndReplace,
            *cache,
            key,
            value,
            out,
        ),
        Call::GetAndPutIfAbsent { cache, key, value } => put_two(
            Word::GetAndPutIfAbsent,
            *cache,
            key,
            value,
            out,
        ),
        Call::Replace { cache, key, value } => put_two(Word::Replace, *cache, key, value, out),
        Call::ReplaceIfEquals {
            cache,
            key,
            wanted,
            value,
        } => {
            put_two(Word::ReplaceIf, *cache, key, wanted, out)?;
            put_spaced(value, out)
        }
        Call::RemoveIfEquals { cache, key, wanted } => {
            put_two(Word::RemoveIf, *cache, key, wanted, out)
        }
        Call::GetAll { cache, keys } => put_keys(Word::GetAll, *cache, keys.as_slice(), out),
        Call::ContainsKeys { cache, keys } => put_keys(
            Word::ContainsAll,
            *cache,
            keys.as_slice(),
            out,
        ),
        Call::ClearKeys { cache, keys } => put_keys(Word::ClearKeys, *cache, keys.as_slice(), out),
        Call::RemoveKeys { cache, keys } => put_keys(
            Word::RemoveKeys,
            *cache,
            keys.as_slice(),
            out,
        ),
        Call::PutAll { cache, pairs } => {
            put_word(Word::PutAll, *cache, out)?;
            put_pairs(pairs.as_slice(), out)
        }
        Call::Clear { cache } => put_word(Word::Clear, *cache, out),
        Call::RemoveAll { cache } => put_word(Word::RemoveAll, *cache, out),
        Call::Scan { .. } => Ok(()),
        Call::Size { cache, modes } => {
            put_word(Word::Size, *cache, out)?;
            put_smalls(modes.as_slice(), out)
        }
        Call::Names => out.append(text_of(Word::Names)),
        Call::Create { name } => put_with(Word::Create, name, out),
        Call::GetOrCreate { name } => put_with(Word::GetOrCreate, name, out),
        Call::Destroy { cache } => put_word(Word::Destroy, *cache, out),
        Call::TypeName { platform, type_id } => {
            put_type(Word::TypeName, *platform, type_id, out)
        }
        Call::SetTypeName {
            platform,
            type_id,
            name,
        } => {
            put_type(Word::SetTypeName, *platform, type_id, out)?;
            put_spaced(name, out)
        }
        Call::TypeOf { type_id } => put_with(Word::Type, type_id, out),
        Call::PutType { meta } => put_with(Word::PutType, meta, out),
        Call::Affinity { .. } => Ok(()),
    }
}

/// Appends a word and one argument.
fn put_with<T: PutText>(word: Word, part: &T, out: &mut Octets) -> Result<(), NoMemory>
    ensures { OnOk result (out.new ≡ out.old ++ (words_text word ++ space ∷ T.text part.now)) }
{
    out.append(text_of(word))?;
    put_spaced(part, out)
}

/// Appends a word and a cache.
fn put_word(word: Word, cache: i32, out: &mut Octets) -> Result<(), NoMemory>
    ensures { OnOk result (out.new ≡ out.old ++ (words_text word ++ space ∷ numbered_text cache)) }
{
    out.append(text_of(word))?;
    put_cache(cache, out)
}

/// Appends a word, a cache and a key.
fn put_key(word: Word, cache: i32, key: &Value, out: &mut Octets) -> Result<(), NoMemory>
    ensures { OnOk result (out.new ≡ out.old
        ++ (words_text word ++ (space ∷ numbered_text cache ++ space ∷ TextOf key.now))) }
{
    put_word(word, cache, out)?;
    put_spaced(key, out)
}

/// Appends a word, a cache and two values.
fn put_two(
    word: Word,
    cache: i32,
    first: &Value,
    second: &Value,
    out: &mut Octets,
) -> Result<(), NoMemory>
    ensures { OnOk result (out.new ≡ out.old ++ (words_text word
        ++ (space ∷ numbered_text cache ++ (space ∷ TextOf first.now ++ space ∷ TextOf second.now)))) }
{
    put_key(word, cache, first, out)?;
    put_spaced(second, out)
}

/// Appends a word, a cache and keys.
fn put_keys(word: Word, cache: i32, keys: &[Value], out: &mut Octets) -> Result<(), NoMemory>
    ensures { OnOk result (out.new ≡ out.old
        ++ (words_text word ++ (space ∷ numbered_text cache ++ spaced TextOf keys.now))) }
{
    put_word(word, cache, out)?;
    put_each(keys, out)
}

/// Appends a word, a platform and a type.
fn put_type(word: Word, platform: u8, type_id: &i32, out: &mut Octets) -> Result<(), NoMemory>
    ensures { OnOk result (out.new ≡ out.old
        ++ (words_text word ++ (space ∷ decimal platform ++ space ∷ scalar_text scalar.i32 type_id.now))) }
{
    out.append(text_of(word))?;
    put_small(platform, out)?;
    put_spaced(type_id, out)
}
