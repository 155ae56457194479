//! The table of the words of operations.

ghost use Rattle.std.specs.Prelude.{◌≡◌};
ghost use Rattle.std.specs.List.{find};
ghost use Rattle.std.specs.Str.{bytes_eq};
ghost use Rattle.ig_lines.specs.Words as words;

use crate::word::Word;

/// The text of a word.
pub(crate) fn text_of(word: Word) -> &'static [u8]
    ensures { result.now ≡ words.text_of word }
{
    match word {
        Word::Get => b"get",
        Word::GetAndRemove => b"get-and-remove",
        Word::Contains => b"contains",
        Word::ClearKey => b"clear-key",
        Word::Remove => b"remove",
        Word::Put => b"put",
        Word::PutIfAbsent => b"put-if-absent",
        Word::GetAndPut => b"get-and-put",
        Word::GetAndReplace => b"get-and-replace",
        Word::GetAndPutIfAbsent => b"get-and-put-if-absent",
        Word::Replace => b"replace",
        Word::ReplaceIf => b"replace-if",
        Word::RemoveIf => b"remove-if",
        Word::GetAll => b"get-all",
        Word::ContainsAll => b"contains-all",
        Word::ClearKeys => b"clear-keys",
        Word::RemoveKeys => b"remove-keys",
        Word::PutAll => b"put-all",
        Word::Clear => b"clear",
        Word::RemoveAll => b"remove-all",
        Word::Size => b"size",
        Word::Names => b"names",
        Word::Create => b"create",
        Word::GetOrCreate => b"get-or-create",
        Word::Destroy => b"destroy",
        Word::Scan => b"scan",
        Word::Next => b"next",
        Word::Close => b"close",
        Word::TypeName => b"type-name",
        Word::Type => b"type",
        Word::SetTypeName => b"set-type-name",
        Word::PutType => b"put-type",
        Word::Parts => b"parts",
    }
}

/// All words.
static WORDS: [Word; 33] = [
    Word::Get,
    Word::GetAndRemove,
    Word::Contains,
    Word::ClearKey,
    Word::Remove,
    Word::Put,
    Word::PutIfAbsent,
    Word::GetAndPut,
    Word::GetAndReplace,
    Word::GetAndPutIfAbsent,
    Word::Replace,
    Word::ReplaceIf,
    Word::RemoveIf,
    Word::GetAll,
    Word::ContainsAll,
    Word::ClearKeys,
    Word::RemoveKeys,
    Word::PutAll,
    Word::Clear,
    Word::RemoveAll,
    Word::Size,
    Word::Names,
    Word::Create,
    Word::GetOrCreate,
    Word::Destroy,
    Word::Scan,
    Word::Next,
    Word::Close,
    Word::TypeName,
    Word::Type,
    Word::SetTypeName,
    Word::PutType,
    Word::Parts,
];

/// The word with this text, if any.
pub(crate) fn word_of(text: &[u8]) -> Option<Word>
    ensures { result ≡ words.word_of text.now }
{
    first_word(&WORDS, text)
}

/// The first of these words with this text, if any.
fn first_word(listed: &[Word], text: &[u8]) -> Option<Word>
    ensures { result ≡ find (λ w. bytes_eq text.now (words.text_of w)) listed.now }
{
    for word in listed {
        if text == text_of(*word) {
            return Some(*word);
        }
    }
    None
}
