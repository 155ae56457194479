//! Data objects as fields.

ghost use Rattle.std.specs.Prelude.{◌≡◌, ◌∷◌, ◌++◌, List, ℕ, refl};
ghost use Rattle.ig_value.specs.declared.Code.TheVariants as code;
ghost use Rattle.ig_value.specs.Part.{u64};
ghost use Rattle.ig_value.specs.Table.{byte_of};
ghost use Rattle.ig_value.specs.Spells.{scalar_bytes};
ghost use Rattle.ig_value.specs.Canon.{Canon, uuid_bytes};
ghost use Rattle.ig_wire.specs.Fields.{string, nullable_string, string_of as string_read, nullable_string_of, node_of as node_read};
ghost use Rattle.ig_fields.specs.ReadingFields.{value_field, is_null as null_test};
ghost use Rattle.ig_fields.specs.Format.{string as a_string, nullable_string as a_nullable_string, node, value as a_value};
ghost use Rattle.ig_fields.specs.Views.{same, mapped_same};

use crate::format::FieldFormat;
use ig_base::{NodeId, Text};
use ig_decode::{DecodeFault, decode_at};
use ig_encode::{Output, ValueOutput, put_byte, put_bytes, put_count};
use ig_value::{Code, Value};
use ig_wire::{ReadError, Stop, node_of, text_of};
use std::alloc::Global;

impl FieldFormat for Text {
    type Item = Text;

    ghost format = { a_string };

    ghost view = { same };

    ghost fields = { same };

    ghost reads = { string_read };

    ghost bytes = { string };

    fn read(alloc: Global, input: &[u8]) -> Result<(Text, &[u8]), ReadError> {
        text_of(alloc, input)
    }

    fn put<S: ValueOutput>(item: &Text, out: &mut S, into: &mut [u8]) {
        let text = item.as_str().as_bytes();
        put_byte(Code::Str.byte(), out, into);
        put_count(text.len(), out, into);
        put_bytes(text, out, into);
    }

    ghost reads_as_format = { λ s. mapped_same (string_read s) };

    ghost writes_as_format = { λ _. refl };
}

/// A String, or the data object of null.
impl FieldFormat for Option<Text> {
    type Item = Option<Text>;

    ghost format = { a_nullable_string };

    ghost view = { same };

    ghost fields = { same };

    ghost reads = { nullable_string_of };

    ghost bytes = { nullable_string };

    fn read(alloc: Global, input: &[u8]) -> Result<(Option<Text>, &[u8]), ReadError> {
        match input.split_first() {
            Some((byte, rest)) if *byte == Code::Null.byte() => Ok((None, rest)),
            _ => {
                let (text, rest) = text_of(alloc, input)?;
                Ok((Some(text), rest))
            }
        }
    }

    fn put<S: ValueOutput>(item: &Option<Text>, out: &mut S, into: &mut [u8]) {
        match item {
            None => put_byte(Code::Null.byte(), out, into),
            Some(text) => <Text as FieldFormat>::put(text, out, into),
        }
    }

    ghost reads_as_format = { λ s. mapped_same (nullable_string_of s) };

    ghost writes_as_format = { λ _. refl };
}

impl FieldFormat for NodeId {
    type Item = NodeId;

    ghost format = { node };

    ghost view = { same };

    ghost fields = { same };

    ghost reads = { node_read };

    ghost bytes = { λ node. byte_of code.Uuid ∷ uuid_bytes node };

    fn read(_alloc: Global, input: &[u8]) -> Result<(NodeId, &[u8]), ReadError> {
        Ok(node_of(input)?)
    }

    fn put<S: ValueOutput>(item: &NodeId, out: &mut S, into: &mut [u8]) {
        put_byte(Code::Uuid.byte(), out, into);
        put_u64(item.most, out, into);
        put_u64(item.least, out, into);
    }

    ghost reads_as_format = { λ s. mapped_same (node_read s) };

    ghost writes_as_format = { λ _. refl };
}

/// Puts an unsigned number of eight bytes.
#[tactic(auto, unfolding(ig_base::specs::Numbers::LE))]
fn put_u64<S: Output>(number: u64, out: &mut S, into: &mut [u8])
    ensures { (out.new, into.new) ≡ S.after out.old into.old (scalar_bytes u64 number) }
{
    out.put(into, &number.to_le_bytes());
}

impl FieldFormat for Value {
    type Item = Value;

    ghost format = { a_value };

    ghost view = { same };

    ghost fields = { same };

    ghost reads = { value_field };

    ghost bytes = { Canon };

    fn read(alloc: Global, input: &[u8]) -> Result<(Value, &[u8]), ReadError> {
        match decode_at(alloc, input, 0) {
            Ok(decoded) => Ok((decoded.value, &input[decoded.used..])),
            Err(DecodeFault::NoMemory) => Err(ReadError::NoMemory),
            Err(DecodeFault::Refused(refusal)) => Err(ReadError::Stopped(Stop {
                left: input.len().saturating_sub(refusal.place),
            })),
        }
    }

    fn put<S: ValueOutput>(item: &Value, out: &mut S, into: &mut [u8]) {
        out.put_value(into, item);
    }

    ghost reads_as_format = { λ s. mapped_same (value_field s) };

    ghost writes_as_format = { λ _. refl };
}

/// Whether a value is null.
pub fn is_null(value: &Value) -> bool
    ensures { result ≡ null_test value.now }
{
    matches!(value, Value::Null)
}
