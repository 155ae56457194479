//! Writing the arguments of a line. Each stands after a space.

ghost use Rattle.std.specs.Prelude.{◌≡◌, ◌++◌, ◌∷◌, List, ℕ, OnOk};
ghost use Rattle.std.specs.Fmt.{decimal};
ghost use Rattle.std.specs.List.{flat_map};
ghost use Rattle.ig_lines.specs.Arguments.{space, numbered_text, pair_text};
ghost use Rattle.ig_lines.specs.ShownText.{spaced};

use ig_base::{NoMemory, Octets};
use ig_caches::Pair;
use ig_text::PutText;
use itoa::Buffer;

/// Appends a space, and the text.
pub(crate) fn put_spaced<T: PutText>(part: &T, out: &mut Octets) -> Result<(), NoMemory>
    ensures { OnOk result (out.new ≡ out.old ++ space ∷ T.text part.now) }
{
    out.push(b' ')?;
    part.put(out)
}

/// Appends each of the texts after a space.
pub(crate) fn put_each<T: PutText>(parts: &[T], out: &mut Octets) -> Result<(), NoMemory>
    ensures { OnOk result (out.new ≡ out.old ++ spaced T.text parts.now) }
{
    for part in parts {
        put_spaced(part, out)?;
    }
    Ok(())
}

/// Appends a space, a number sign and the identifier of a cache.
pub(crate) fn put_cache(cache: i32, out: &mut Octets) -> Result<(), NoMemory>
    ensures { OnOk result (out.new ≡ out.old ++ space ∷ numbered_text cache) }
{
    out.append(b" #")?;
    cache.put(out)
}

/// Appends each cache.
pub(crate) fn put_caches(caches: &[i32], out: &mut Octets) -> Result<(), NoMemory>
    ensures { OnOk result (out.new ≡ out.old ++ spaced numbered_text caches.now) }
{
    for cache in caches {
        put_cache(*cache, out)?;
    }
    Ok(())
}

/// Appends a number that isn't negative.
pub(crate) fn put_number(number: usize, out: &mut Octets) -> Result<(), NoMemory>
    ensures { OnOk result (out.new ≡ out.old ++ decimal number) }
{
    out.append(Buffer::new().format(number).as_bytes())
}

/// Appends a space and a Byte in decimal.
pub(crate) fn put_small(number: u8, out: &mut Octets) -> Result<(), NoMemory>
    ensures { OnOk result (out.new ≡ out.old ++ space ∷ decimal number) }
{
    out.push(b' ')?;
    out.append(Buffer::new().format(number).as_bytes())
}

/// Appends Bytes, each in decimal after a space.
pub(crate) fn put_smalls(numbers: &[u8], out: &mut Octets) -> Result<(), NoMemory>
    ensures { OnOk result (out.new ≡ out.old ++ spaced decimal numbers.now) }
{
    for number in numbers {
        put_small(*number, out)?;
    }
    Ok(())
}

/// Appends a key and its value, with an equals sign between them, after a space.
fn put_pair(pair: &Pair, out: &mut Octets) -> Result<(), NoMemory>
    ensures { OnOk result (out.new ≡ out.old ++ space ∷ pair_text pair.now) }
{
    put_spaced(&pair.key, out)?;
    out.push(b'=')?;
    pair.value.put(out)
}

/// Appends each pair.
pub(crate) fn put_pairs(pairs: &[Pair], out: &mut Octets) -> Result<(), NoMemory>
    ensures { OnOk result (out.new ≡ out.old ++ spaced pair_text pairs.now) }
{
    for pair in pairs {
        put_pair(pair, out)?;
    }
    Ok(())
}
