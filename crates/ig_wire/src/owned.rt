//! Reading fields that take memory.

ghost use Rattle.std.specs.Prelude.{◌≡◌};
ghost use Rattle.ig_wire.specs.Fields.{string_of as string_read};
ghost use Rattle.ig_wire.specs.ReadAnswers.{ReadAnswers};

use crate::fields::string_of;
use crate::read_error::ReadError;
use ig_base::Text;
use std::alloc::Global;

/// A String, as a text of its own.
pub fn text_of(alloc: Global, bytes: &[u8]) -> Result<(Text, &[u8]), ReadError>
    ensures { ReadAnswers (λ x. (x.0, x.1.now)) result (string_read bytes.now) }
{
    let (text, rest) = string_of(bytes)?;
    Ok((Text::new(String::from_str(alloc, text)?), rest))
}
