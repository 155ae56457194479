//! Reading marks, numbers and hex from the front of a text.

ghost use Rattle.std.specs.Prelude.{◌≡◌, ◌<◌, ◌≤◌, ◌^◌, ◌∷◌, List, ℕ, true, false, length, IfSome, IsNone};
ghost use Rattle.std.specs.Char.{is_ascii_digit};
ghost use Rattle.std.specs.List.{prefix_len};
ghost use Rattle.ig_text.specs.ReadText as reading;
ghost use Rattle.ig_text.specs.ReaderAnswers.{ReaderAnswers};

use crate::fault::ReadError;

/// This byte, and the bytes after it.
pub fn mark(byte: u8, text: &[u8]) -> Result<((), &[u8]), ReadError>
    ensures { ReaderAnswers (λ x. (tt, x.1.now)) result (reading.mark_at byte text.now) }
{
    match after(byte, text) {
        Some(rest) => Ok(((), rest)),
        None => Err(ReadError::Bad { left: text.len() }),
    }
}

/// The bytes after this byte, if the text begins with it.
pub fn after(byte: u8, text: &[u8]) -> Option<&[u8]>
    ensures some { IfSome result (λ rest. text.now ≡ byte ∷ rest.now) }
    ensures none { IsNone result → (rest : List ℕ) → text.now ≡ byte ∷ rest → ⊥ }
{
    match text.split_first() {
        Some((first, rest)) if *first == byte => Some(rest),
        _ => None,
    }
}

/// How many decimal digits the text begins with.
fn digits_len(text: &[u8]) -> usize
    ensures { result ≡ prefix_len is_ascii_digit text.now }
{
    for (index, byte) in text.iter().enumerate() {
        if !byte.is_ascii_digit() {
            return index;
        }
    }
    text.len()
}

/// Whether these digits are a number's text: at most 19, and no zero in front of others.
fn is_plain(digits: &[u8]) -> bool
    ensures { result ≡ reading.is_plain digits.now }
{
    match digits {
        [] => false,
        [_] => true,
        [first, ..] => *first != b'0' && digits.len() <= 19,
    }
}

/// A number that isn't negative, and the bytes after it.
pub fn natural(text: &[u8]) -> Result<(u64, &[u8]), ReadError>
    ensures { ReaderAnswers (λ x. (x.0, x.1.now)) result (reading.natural_at text.now) }
{
    let (digits, rest) = text.split_at(digits_len(text));
    if !is_plain(digits) {
        return Err(ReadError::Bad { left: text.len() });
    }
    let mut number = 0;
    for digit in digits {
        number = number * 10 + u64::from(*digit - b'0');
    }
    Ok((number, rest))
}

/// A signed number, from minus the limit on and below the limit, and the bytes after it.
pub fn signed(limit: u64, text: &[u8]) -> Result<(i64, &[u8]), ReadError>
    requires { limit ≤ 2 ^ 63 }
    ensures { ReaderAnswers (λ x. (x.0, x.1.now)) result (reading.signed_at limit text.now) }
{
    let left = text.len();
    match text.split_first() {
        None => Err(ReadError::Bad { left }),
        Some((b'-', after)) => {
            let (number, rest) = natural(after)?;
            if number == 0 {
                return Err(ReadError::Bad { left });
            }
            if number > limit {
                return Err(ReadError::Bad { left });
            }
            Ok((-1 - (number - 1) as i64, rest))
        }
        Some(_) => {
            let (number, rest) = natural(text)?;
            if number >= limit {
                return Err(ReadError::Bad { left });
            }
            Ok((number as i64, rest))
        }
    }
}

/// The value of a hex digit. Letters are upper case or lower case, never both.
fn hex_value(upper: bool, byte: u8) -> Option<u8>
    ensures some { IfSome result (λ x. (reading.is_hex upper byte ≡ true)
        × (x ≡ reading.hex_value upper byte)) }
    ensures small { IfSome result (λ x. x < 16) }
    ensures none { IsNone result → reading.is_hex upper byte ≡ false }
{
    let letter = if upper { b'A' } else { b'a' };
    if byte.is_ascii_digit() {
        return Some(byte - b'0');
    }
    if letter <= byte && byte <= letter + 5 {
        return Some(byte - letter + 10);
    }
    None
}

/// A byte from two digits, and the bytes after them.
pub(crate) fn pair(upper: bool, text: &[u8]) -> Result<(u8, &[u8]), ReadError>
    ensures { ReaderAnswers (λ x. (x.0, x.1.now)) result (reading.pair_at upper text.now) }
{
    let left = text.len();
    let [first, second, rest @ ..] = text else {
        return Err(ReadError::Bad { left });
    };
    let Some(high) = hex_value(upper, *first) else {
        return Err(ReadError::Bad { left });
    };
    let Some(low) = hex_value(upper, *second) else {
        return Err(ReadError::Bad { left });
    };
    Ok((high * 16 + low, rest))
}

/// Bytes from two digits each, as many as there is room for in the slice, and the bytes after them.
pub(crate) fn fill<'a>(
    upper: bool,
    text: &'a [u8],
    into: &mut [u8],
) -> Result<((), &'a [u8]), ReadError>
    ensures { ReaderAnswers (λ x. (into.new, x.1.now)) result
        (reading.run_at upper (length into.old) text.now) }
{
    let mut rest = text;
    for byte in into.iter_mut() {
        let (read, after) = pair(upper, rest)?;
        *byte = read;
        rest = after;
    }
    Ok(((), rest))
}

/// How many upper case hex digits the text begins with.
pub(crate) fn hex_len(text: &[u8]) -> usize
    ensures { result ≡ prefix_len (reading.is_hex true) text.now }
{
    for (index, byte) in text.iter().enumerate() {
        if hex_value(true, *byte).is_none() {
            return index;
        }
    }
    text.len()
}
