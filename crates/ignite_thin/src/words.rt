//! What the program's words ask for.

ghost use Rattle.std.specs.Prelude.{◌≡◌, map, string_bytes};
ghost use Rattle.std.specs.Option.{option_map};
ghost use Rattle.std.specs.List.{list_all};
ghost use Rattle.ignite_thin.specs.Words.{is_name, are_names, is_decode, pipe_names};

/// The most caches that `pipe` is given.
const NAMES: usize = 64;

/// Whether a word may name a cache: it isn't empty and doesn't begin with a hyphen.
fn is_cache_name(word: &str) -> bool
    ensures { result ≡ is_name word.now }
{
    match word.as_bytes() {
        [] => false,
        [first, ..] => *first != b'-',
    }
}

/// Whether each word may name a cache.
fn each_is_name(words: &[String]) -> bool
    ensures { result ≡ list_all (λ word. is_name (string_bytes word)) words.now }
{
    words.iter().all(|word| is_cache_name(word.as_str()))
}

/// Whether the words may name the caches of `pipe`: there are 1 to 64 of them, and each may name one.
fn are_cache_names(words: &[String]) -> bool
    ensures { result ≡ are_names (map string_bytes words.now) }
{
    if words.is_empty() {
        return false;
    }
    if words.len() > NAMES {
        return false;
    }
    each_is_name(words)
}

/// Whether the one word is `decode`.
pub fn is_decode(words: &[String]) -> bool
    ensures { result ≡ is_decode (map string_bytes words.now) }
{
    match words {
        [command] => command.as_str() == "decode",
        _ => false,
    }
}

/// The names of the caches where the words are `pipe NAME ..`, and `None` where they aren't.
pub fn pipe_words(words: &[String]) -> Option<&[String]>
    ensures { option_map (λ names. map string_bytes names.now) result
        ≡ pipe_names (map string_bytes words.now) }
{
    let [command, names @ ..] = words else {
        return None;
    };
    if command.as_str() != "pipe" {
        return None;
    }
    if !are_cache_names(names) {
        return None;
    }
    Some(names)
}
