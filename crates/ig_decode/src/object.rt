//! The header and the footer of a complex object.

ghost use Rattle.std.specs.Prelude.{◌≡◌, ◌<◌, ◌≤◌, ◌↔◌, ◌-◌, ◌/◌, ◌%◌, ℕ, ℤ, pos, true, false, List, None, Some, length, take, drop, FitsSigned, IsTrue, IsNone, IfSome, IfOk, IfErr};
ghost use Rattle.std.specs.Int.{w32, byte_len, cast_signed, from_le_bytes};
ghost use Rattle.ig_base.specs.Headers.{header_bytes, header_of};
ghost use Rattle.ig_value.specs.Objects.{checks, first_wrong, is_uneven, width_flag};
ghost use Rattle.ig_value.specs.Reading.{alone};
ghost use Rattle.ig_decode.specs.FooterForms.{offsets_type, key_bytes, entry_bytes, IsFormOf};
ghost use Rattle.ig_decode.specs.ObjectAnswers.{StopsBeforeFields, head_checks, footer_checks, IsDivided, IsLaidOut, footer_ids, IsShapeIn, IsCanonicalAlone, full_flags, IsCanonicalHead};
ghost use Rattle.ig_decode.specs.ReaderAnswers.{followed, MayBeFollowed};

use crate::count::{StatedCount, room_for};
use crate::fault::{ReadError, Refusal, Stop};
use crate::layout::Layout;
use ig_base::{
    COMPACT_FOOTER, Footer, HAS_SCHEMA, Header, Items, ONE_BYTE_OFFSETS, RAW_DATA,
    TWO_BYTE_OFFSETS, bytes_hash, footer_of, read_header, schema_id,
};
use ig_value::{Cause, Record, Shape, Value, kept_flags};
use std::alloc::{AllocError, Global};

/// The bytes of an object's header.
pub(crate) const HEADER_LEN: usize = 24;
/// The offset of the schema's identifier in the header.
pub(crate) const SCHEMA_PLACE: usize = 16;
/// The offset in the header of the footer's offset.
pub(crate) const SCHEMA_AT_PLACE: usize = 20;

// ---- the form of a footer

/// The bytes of an offset.
fn width_len(form: Footer) -> usize
    ensures { result ≡ byte_len (offsets_type form) }
{
    match form.width {
        1 => 1,
        2 => 2,
        _ => 4,
    }
}

/// The bytes of an entry before its offset.
pub(crate) fn key_len(form: Footer) -> usize
    ensures { result ≡ key_bytes form }
{
    if form.compact { 0 } else { 4 }
}

/// The bytes of an entry.
pub(crate) fn entry_len(form: Footer) -> usize
    ensures { result ≡ entry_bytes form }
{
    key_len(form) + width_len(form)
}

/// How many entries a footer has.
pub(crate) fn entry_count(form: Footer, footer: &[u8]) -> StatedCount
    ensures { result.items ≡ length footer.now / entry_bytes form }
{
    StatedCount::new(footer.len() / entry_len(form))
}

/// The offset in the first entry, and the entries after it.
pub(crate) fn take_offset(form: Footer, entries: &[u8]) -> (usize, &[u8])
    requires { entry_bytes form ≤ length entries.now }
    ensures offset { result.0 ≡ from_le_bytes (offsets_type form)
        (take (byte_len (offsets_type form)) (drop (key_bytes form) entries.now)) }
    ensures more { result.1.now ≡ drop (entry_bytes form) entries.now }
{
    let (_, at_offset) = entries.split_at(key_len(form));
    let (offset, more) = at_offset.split_at(width_len(form));
    (offset_in(form, offset), more)
}

/// The offset with these bytes.
fn offset_in(form: Footer, bytes: &[u8]) -> usize
    requires { length bytes.now ≡ byte_len (offsets_type form) }
    ensures { result ≡ from_le_bytes (offsets_type form) bytes.now }
{
    match form.width {
        1 => usize::from(bytes[0]),
        2 => usize::from(u16::from_le_bytes([bytes[0], bytes[1]])),
        _ => u32::from_le_bytes([bytes[0], bytes[1], bytes[2], bytes[3]]) as usize,
    }
}

// ---- the header

/// The header of an object, if its bytes are there.
pub(crate) fn header_at(bytes: &[u8]) -> Result<Header, Stop>
    ensures found { IfOk result (λ header. header_of bytes.now ≡ Some header) }
    ensures spelled { IfOk result (λ header. header_bytes header ≡ take 23 (drop 1 bytes.now)) }
    ensures stopped { IfErr result (StopsBeforeFields bytes.now) }
{
    match read_header(bytes) {
        Some(header) => Ok(header),
        None => Err(Stop {
            left: bytes.len(),
            cause: Cause::Short,
        }),
    }
}

/// How the object with this header is divided, or `None` where it is a header alone.
///
/// Refused are a header that no object has, a length that goes beyond the bytes, and a footer that
/// isn't a number of whole entries between the fields and the end.
pub(crate) fn layout_of(header: &Header, bytes: &[u8]) -> Result<Option<Layout>, Stop>
    requires { header_of bytes.now ≡ Some header.now }
    ensures found { IfOk result (IsLaidOut header.now (length bytes.now)) }
    ensures stopped { IfErr result (StopsBeforeFields bytes.now) }
{
    match checked_layout(header, bytes.len()) {
        Ok(layout) => Ok(layout),
        Err(refusal) => Err(Stop {
            left: bytes.len() - refusal.place,
            cause: refusal.cause,
        }),
    }
}

/// The same with the offset of a refusal counted from the object's first byte, where `there` bytes
/// are left.
fn checked_layout(header: &Header, there: usize) -> Result<Option<Layout>, Refusal>
    ensures right { IfOk result (IsLaidOut header.now there) }
    ensures wrong { IfErr result (λ r. (ids : List ℤ) → first_wrong (checks header.now there ids)
        ≡ Some (r.place, r.cause)) }
{
    let form = checked_head(header, there)?;
    let length = header.length as usize;
    if length == HEADER_LEN {
        return Ok(None);
    }
    Ok(Some(checked_footer(header, length, form)?))
}

/// The form of the footer that the header tells, if an object in `there` bytes can have this
/// header, with fields or without.
fn checked_head(header: &Header, there: usize) -> Result<Footer, Refusal>
    ensures right { IfOk result (λ form. first_wrong (head_checks header.now there) ≡ None) }
    ensures form { IfOk result (λ form. IsFormOf header.now form) }
    ensures wrong { IfErr result (λ r. first_wrong (head_checks header.now there)
        ≡ Some (r.place, r.cause)) }
{
    if header.version != 1 {
        return Err(Refusal {
            place: 1,
            cause: Cause::ObjectVersion(header.version),
        });
    }
    if header.flags / RAW_DATA % 2 == 1 {
        return Err(Refusal {
            place: 2,
            cause: Cause::RawData,
        });
    }
    let Some(form) = footer_of(header.flags) else {
        return Err(Refusal {
            place: 2,
            cause: Cause::Flags,
        });
    };
    checked_size(header, there)?;
    Ok(form)
}

/// Whether the header has a type, and a length that lies within `there` bytes.
fn checked_size(header: &Header, there: usize) -> Result<(), Refusal>
    ensures right { IfOk result (λ _. first_wrong (drop 3 (head_checks header.now there)) ≡ None) }
    ensures wrong { IfErr result (λ r. first_wrong (drop 3 (head_checks header.now there))
        ≡ Some (r.place, r.cause)) }
{
    if header.type_id == 0 {
        return Err(Refusal {
            place: 4,
            cause: Cause::Unregistered,
        });
    }
    if header.length < 24 {
        return Err(Refusal {
            place: 12,
            cause: Cause::Length,
        });
    }
    if there < header.length as usize {
        return Err(Refusal {
            place: 0,
            cause: Cause::Short,
        });
    }
    Ok(())
}

/// The layout of an object with fields, if a number of whole entries stands between them and the
/// end.
fn checked_footer(header: &Header, length: usize, form: Footer) -> Result<Layout, Refusal>
    requires full { 24 < length }
    requires length { header.now.length ≡ pos length }
    requires form { IsFormOf header.now form }
    ensures right { IfOk result (IsDivided header.now length form) }
    ensures wrong { IfErr result (λ r. (n : ℕ) → first_wrong (footer_checks header.now n)
        ≡ Some (r.place, r.cause)) }
{
    if header.flags / HAS_SCHEMA % 2 == 0 {
        return Err(Refusal {
            place: 2,
            cause: Cause::Footer,
        });
    }
    match schema_offset(header, length, form) {
        Some(schema_at) => Ok(Layout {
            schema_at,
            length,
            form,
        }),
        None => Err(Refusal {
            place: 20,
            cause: Cause::Footer,
        }),
    }
}

/// Where the footer begins, if a number of whole entries lies between the fields and the end.
fn schema_offset(header: &Header, length: usize, form: Footer) -> Option<usize>
    requires length { header.now.length ≡ pos length }
    requires form { IsFormOf header.now form }
    ensures none { IsNone result → is_uneven header.now ≡ true }
    ensures even { IfSome result (λ at. is_uneven header.now ≡ false) }
    ensures some { IfSome result (λ at. 24 < at) }
    ensures more { IfSome result (λ at. at < length) }
    ensures whole { IfSome result (λ at. (length - at) % entry_bytes form ≡ 0) }
    ensures schema_at { IfSome result (λ at. header.now.schema_at ≡ pos at) }
{
    if header.schema_at <= 24 {
        return None;
    }
    let schema_at = header.schema_at as usize;
    if length <= schema_at {
        return None;
    }
    if (length - schema_at) % entry_len(form) != 0 {
        return None;
    }
    Some(schema_at)
}

/// The fields, the footer, and the bytes after the object.
pub(crate) fn parts_of<'a>(layout: &Layout, bytes: &'a [u8]) -> (&'a [u8], &'a [u8], &'a [u8])
    requires fields { 24 ≤ layout.now.schema_at }
    requires footer { layout.now.schema_at ≤ layout.now.length }
    requires within { layout.now.length ≤ length bytes.now }
    ensures fields { result.0.now ≡ take (layout.now.schema_at - 24) (drop 24 bytes.now) }
    ensures footer { result.1.now ≡ take (layout.now.length - layout.now.schema_at)
        (drop layout.now.schema_at bytes.now) }
    ensures rest { result.2.now ≡ drop layout.now.length bytes.now }
{
    let (_, fields) = bytes.split_at(HEADER_LEN);
    let (fields, footer) = fields.split_at(layout.schema_at - HEADER_LEN);
    let (footer, rest) = footer.split_at(layout.length - layout.schema_at);
    (fields, footer, rest)
}

// ---- the shape

/// How the fields are told apart, or `None` where the header has another schema than the footer.
pub(crate) fn shape_of(
    alloc: Global,
    header: &Header,
    form: Footer,
    footer: &[u8],
) -> Result<Option<Shape>, AllocError>
    ensures { IfOk result (IsShapeIn header.now form footer.now) }
{
    if form.compact {
        return Ok(Some(Shape::Compact(header.schema)));
    }
    let ids = ids_in(alloc, form, footer)?;
    if schema_id(ids.as_slice()) != header.schema {
        return Ok(None);
    }
    Ok(Some(Shape::Named(ids)))
}

/// The identifiers of the fields, one before each offset.
fn ids_in(alloc: Global, form: Footer, footer: &[u8]) -> Result<Items<i32>, AllocError>
    requires { form.compact ≡ false }
    ensures { IfOk result (λ ids. ids ≡ footer_ids form footer.now) }
{
    let count = entry_count(form, footer);
    let mut ids = room_for(alloc, count.room(footer), footer)?;
    let (mut left, mut entries) = (count, footer);
    'each: while left.take_one() {
        let (id, more) = take_id(form, entries);
        ids.push(id)?;
        entries = more;
    }
    Ok(Items::new(ids))
}

/// The identifier in the first entry, and the entries after it.
fn take_id(form: Footer, entries: &[u8]) -> (i32, &[u8])
    requires named { form.compact ≡ false }
    requires there { entry_bytes form ≤ length entries.now }
    ensures range { FitsSigned w32 result.0 }
    ensures id { result.0 ≡ cast_signed w32 (from_le_bytes w32 (take 4 entries.now)) }
    ensures more { result.1.now ≡ drop (entry_bytes form) entries.now }
{
    let (id, offset) = entries.split_at(key_len(form));
    let (_, more) = offset.split_at(width_len(form));
    (id_in(id), more)
}

/// The identifier with these bytes.
fn id_in(bytes: &[u8]) -> i32
    requires { length bytes.now ≡ 4 }
    ensures { result ≡ cast_signed w32 (from_le_bytes w32 bytes.now) }
{
    i32::from_le_bytes([bytes[0], bytes[1], bytes[2], bytes[3]])
}

// ---- what isn't in the header of a canonical form

/// The object that is this header alone.
pub(crate) fn alone_of(alloc: Global, header: &Header) -> Record<Value>
    ensures { result ≡ alone header.now }
{
    Record {
        bits: kept_flags(header.flags),
        type_id: header.type_id,
        shape: Shape::Named(Items::new(Vec::new(alloc))),
        fields: Items::new(Vec::new(alloc)),
    }
}

/// Whether all was canonical so far, and this header alone is too.
pub(crate) fn is_canonical_alone(exact: bool, header: &Header) -> bool
    ensures { IsTrue result ↔ IsTrue exact × IsCanonicalAlone header.now }
{
    if !exact {
        return false;
    }
    if header.flags != kept_flags(header.flags) {
        return false;
    }
    if header.hash != bytes_hash(&[]) {
        return false;
    }
    if header.schema != 0 {
        return false;
    }
    header.schema_at == 0
}

/// Whether all was canonical so far, and this header is too, over fields with these bytes and this
/// last offset. The fields are hashed only where all else is canonical.
pub(crate) fn is_canonical_head(exact: bool, header: &Header, last: usize, fields: &[u8]) -> bool
    ensures { IsTrue result ↔ IsTrue exact × IsCanonicalHead header.now last fields.now }
{
    if !exact {
        return false;
    }
    if header.flags != canonical_flags(header.flags, last) {
        return false;
    }
    header.hash == bytes_hash(fields)
}

/// The flags of a canonical form whose last offset is this one, with the value's own flags and the
/// footer's compactness from these.
fn canonical_flags(flags: u16, last: usize) -> u16
    ensures { result ≡ full_flags flags last }
{
    kept_flags(flags)
        + HAS_SCHEMA
        + flag_of_width(last)
        + flags / COMPACT_FOOTER % 2 * COMPACT_FOOTER
}

/// The flag of the narrowest offsets where this is the last.
fn flag_of_width(last: usize) -> u16
    ensures { result ≡ width_flag last }
{
    if last < 256 {
        return ONE_BYTE_OFFSETS;
    }
    if last < 65536 { TWO_BYTE_OFFSETS } else { 0 }
}

/// The same fault, where `more` bytes follow those that were read.
pub(crate) fn followed_by(error: ReadError, more: usize) -> ReadError
    requires { MayBeFollowed more error }
    ensures { result ≡ followed more error }
{
    match error {
        ReadError::NoMemory => ReadError::NoMemory,
        ReadError::Fault { left, cause } => ReadError::Fault {
            left: left + more,
            cause,
        },
    }
}
