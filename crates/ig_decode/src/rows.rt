//! The rows of the table of values whose content holds no value.

ghost use Rattle.std.specs.Prelude.{List, Option};
ghost use Rattle.ig_value.specs.declared.Value.{Value as a_value};
ghost use Rattle.ig_value.specs.Table.{byte_of};
ghost use Rattle.ig_value.specs.Reading.{Read, mapped_read, item_at, optional_at};
ghost use Rattle.ig_decode.specs.ReaderAnswers.{ReaderAnswers, Makes};
ghost use Rattle.ig_decode.specs.ArrayAt.{array_at};

use crate::element::{ReadElement, element_at};
use crate::fault::ReadError;
use crate::parts::{ReadContent, array_of, optionals_of};
use ig_base::Items;
use ig_value::{Code, Value};
use std::alloc::Global;

/// The value of a single element.
#[inline(always)]
pub(crate) fn element_row<E: ReadElement, F: FnOnce(E) -> Value>(
    bytes: &[u8],
    make: F,
) -> Result<(Value, &[u8]), ReadError>
    requires { F.IsAlwaysCallable make }
    ensures { (build : E → a_value) → Makes (F.post make) build
        → ReaderAnswers (λ x. (x.0, x.1.now)) result (mapped_read build
        (item_at E.WIDTH E.meaning bytes.now)) }
{
    let (element, rest) = element_at(bytes)?;
    Ok((make(element), rest))
}

/// The value of a content that is not a single element.
#[inline(always)]
pub(crate) fn content_row<C: ReadContent, F: FnOnce(C) -> Value>(
    alloc: Global,
    bytes: &[u8],
    make: F,
) -> Result<(Value, &[u8]), ReadError>
    requires { F.IsAlwaysCallable make }
    ensures { (build : C → a_value) → Makes (F.post make) build
        → ReaderAnswers (λ x. (x.0, x.1.now)) result (mapped_read build (C.reads bytes.now)) }
{
    let (content, rest) = C::read(alloc, bytes)?;
    Ok((make(content), rest))
}

/// The value of an array of elements.
#[inline(never)]
pub(crate) fn array_row<E: ReadElement, F: FnOnce(Items<E>) -> Value>(
    alloc: Global,
    bytes: &[u8],
    make: F,
) -> Result<(Value, &[u8]), ReadError>
    requires { F.IsAlwaysCallable make }
    ensures { (build : List E → a_value) → Makes (F.post make) build
        → ReaderAnswers (λ x. (x.0, x.1.now)) result
        (mapped_read (λ xs. build xs.1) (array_at (item_at E.WIDTH E.meaning) bytes.now)) }
{
    let (elements, rest) = array_of(alloc, bytes)?;
    Ok((make(elements), rest))
}

/// The value of an array of contents and nulls. Each content follows the inner code.
#[inline(never)]
pub(crate) fn optionals_row<C: ReadContent, F: FnOnce(Items<Option<C>>) -> Value>(
    alloc: Global,
    inner: Code,
    bytes: &[u8],
    make: F,
) -> Result<(Value, &[u8]), ReadError>
    requires { F.IsAlwaysCallable make }
    ensures { (build : List (Option C) → a_value) → Makes (F.post make) build
        → ReaderAnswers (λ x. (x.0, x.1.now)) result (mapped_read (λ xs. build xs.1)
        (array_at (optional_at (byte_of inner) C.reads) bytes.now)) }
{
    let (contents, rest) = optionals_of(alloc, inner, bytes)?;
    Ok((make(contents), rest))
}
