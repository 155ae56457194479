//! Writing the texts of the parts that hold no value.

ghost use Rattle.std.specs.Prelude.{◌≡◌, ◌++◌, ◌∷◌, ◌<◌, List, ℕ, [], length, true, false, OnOk};
ghost use Rattle.std.specs.Fmt.{digit_glyph, decimal as decimal_digits};
ghost use Rattle.ig_value.specs.Part as scalar;
ghost use Rattle.ig_text.specs.Tokens as tokens;
ghost use Rattle.ig_text.specs.TextOf.{optional_text};

use ig_base::{NoMemory, NodeId, Octets, Text};
use ig_value::{Dec, Stamp};
use itoa::Buffer;

/// A part with a text.
pub trait PutText {
    ghost text: { Self → List ℕ };

    /// Appends the text. After an error part of it may stand there.
    fn put(&self, out: &mut Octets) -> Result<(), NoMemory>
        ensures { OnOk result (out.new ≡ out.old ++ text self.now) };
}

impl PutText for i8 {
    ghost text = { tokens.scalar_text scalar.i8 };

    fn put(&self, out: &mut Octets) -> Result<(), NoMemory> {
        out.append(Buffer::new().format(*self).as_bytes())
    }
}

impl PutText for i16 {
    ghost text = { tokens.scalar_text scalar.i16 };

    fn put(&self, out: &mut Octets) -> Result<(), NoMemory> {
        out.append(Buffer::new().format(*self).as_bytes())
    }
}

impl PutText for i32 {
    ghost text = { tokens.scalar_text scalar.i32 };

    fn put(&self, out: &mut Octets) -> Result<(), NoMemory> {
        out.append(Buffer::new().format(*self).as_bytes())
    }
}

impl PutText for i64 {
    ghost text = { tokens.scalar_text scalar.i64 };

    fn put(&self, out: &mut Octets) -> Result<(), NoMemory> {
        out.append(Buffer::new().format(*self).as_bytes())
    }
}

impl PutText for u16 {
    ghost text = { tokens.scalar_text scalar.u16 };

    fn put(&self, out: &mut Octets) -> Result<(), NoMemory> {
        put_hex(true, &self.to_be_bytes(), out)
    }
}

impl PutText for u32 {
    ghost text = { tokens.scalar_text scalar.u32 };

    fn put(&self, out: &mut Octets) -> Result<(), NoMemory> {
        put_hex(true, &self.to_be_bytes(), out)
    }
}

impl PutText for u64 {
    ghost text = { tokens.scalar_text scalar.u64 };

    fn put(&self, out: &mut Octets) -> Result<(), NoMemory> {
        put_hex(true, &self.to_be_bytes(), out)
    }
}

impl PutText for bool {
    ghost text = { tokens.truth_text };

    fn put(&self, out: &mut Octets) -> Result<(), NoMemory> {
        if *self {
            out.append(b"true")
        } else {
            out.append(b"false")
        }
    }
}

impl PutText for Text {
    ghost text = { tokens.quoted };

    fn put(&self, out: &mut Octets) -> Result<(), NoMemory> {
        put_quoted(self.as_str().as_bytes(), out)
    }
}

impl PutText for Octets {
    ghost text = { tokens.hex true };

    fn put(&self, out: &mut Octets) -> Result<(), NoMemory> {
        put_hex(true, self.as_slice(), out)
    }
}

impl PutText for NodeId {
    ghost text = { tokens.uuid_text };

    fn put(&self, out: &mut Octets) -> Result<(), NoMemory> {
        put_uuid(&self.most.to_be_bytes(), &self.least.to_be_bytes(), out)
    }
}

impl PutText for Stamp {
    ghost text = { tokens.stamp_text };

    fn put(&self, out: &mut Octets) -> Result<(), NoMemory> {
        self.millis.put(out)?;
        out.push(b':')?;
        self.nanos.put(out)
    }
}

impl PutText for Dec {
    ghost text = { tokens.decimal_text };

    fn put(&self, out: &mut Octets) -> Result<(), NoMemory> {
        self.scale.put(out)?;
        out.push(b':')?;
        self.bytes.put(out)
    }
}

impl<T: PutText> PutText for Option<T> {
    ghost text = { optional_text T.text };

    fn put(&self, out: &mut Octets) -> Result<(), NoMemory> {
        match self {
            None => out.append(b"null"),
            Some(part) => part.put(out),
        }
    }
}

/// Appends the bytes of a UUID's halves, with hyphens between their groups.
fn put_uuid(most: &[u8], least: &[u8], out: &mut Octets) -> Result<(), NoMemory>
    requires most { length most.now ≡ 8 }
    requires least { length least.now ≡ 8 }
    ensures { OnOk result (out.new ≡ out.old ++ tokens.groups_text most.now least.now) }
{
    put_group(&most[..4], out)?;
    put_group(&most[4..6], out)?;
    put_group(&most[6..], out)?;
    put_group(&least[..2], out)?;
    put_hex(false, &least[2..], out)
}

/// Appends bytes in hex, and a hyphen.
fn put_group(bytes: &[u8], out: &mut Octets) -> Result<(), NoMemory>
    ensures { OnOk result (out.new ≡ out.old ++ (tokens.hex false bytes.now ++ tokens.minus ∷ [])) }
{
    put_hex(false, bytes, out)?;
    out.push(b'-')
}

/// Appends bytes in hex.
pub(crate) fn put_hex(upper: bool, bytes: &[u8], out: &mut Octets) -> Result<(), NoMemory>
    ensures { OnOk result (out.new ≡ out.old ++ tokens.hex upper bytes.now) }
{
    for byte in bytes {
        put_pair(upper, *byte, out)?;
    }
    Ok(())
}

/// Appends the two digits of a byte.
fn put_pair(upper: bool, byte: u8, out: &mut Octets) -> Result<(), NoMemory>
    ensures { OnOk result (out.new ≡ out.old ++ tokens.hex_byte upper byte) }
{
    out.append(&[digit(upper, byte / 16), digit(upper, byte % 16)])
}

/// The digit of a value below 16.
fn digit(upper: bool, value: u8) -> u8
    requires { value < 16 }
    ensures { result ≡ digit_glyph upper value }
{
    if value < 10 {
        return b'0' + value;
    }
    if upper {
        b'A' - 10 + value
    } else {
        b'a' - 10 + value
    }
}

/// Whether a byte stands for itself between quotes.
pub(crate) fn is_bare(byte: u8) -> bool
    ensures { result ≡ tokens.is_bare byte }
{
    match byte {
        b'"' | b'\\' => false,
        33..=126 => true,
        _ => false,
    }
}

/// Appends a quoted text.
pub fn put_quoted(bytes: &[u8], out: &mut Octets) -> Result<(), NoMemory>
    ensures { OnOk result (out.new ≡ out.old ++ tokens.quoted bytes.now) }
{
    out.push(b'"')?;
    for byte in bytes {
        put_quoted_byte(*byte, out)?;
    }
    out.push(b'"')
}

/// Appends a byte of a quoted text.
fn put_quoted_byte(byte: u8, out: &mut Octets) -> Result<(), NoMemory>
    ensures { OnOk result (out.new ≡ out.old ++ tokens.quoted_byte byte) }
{
    if is_bare(byte) {
        return out.push(byte);
    }
    out.append(b"\\x")?;
    put_pair(true, byte, out)
}

/// Appends the items of a list, and the byte that closes it.
pub fn put_items<T: PutText>(items: &[T], close: u8, out: &mut Octets) -> Result<(), NoMemory>
    ensures { OnOk result (out.new ≡ out.old ++ tokens.items_text close T.text items.now) }
{
    let Some((first, rest)) = items.split_first() else {
        return out.push(close);
    };
    first.put(out)?;
    for item in rest {
        out.push(b',')?;
        item.put(out)?;
    }
    out.push(close)
}

/// Appends the flags of an object.
pub(crate) fn put_bits(bits: u16, out: &mut Octets) -> Result<(), NoMemory>
    ensures { OnOk result (out.new ≡ out.old ++ decimal_digits bits) }
{
    out.append(Buffer::new().format(bits).as_bytes())
}
