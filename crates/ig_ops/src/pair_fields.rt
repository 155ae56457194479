//! Keys with their values as fields.

ghost use Rattle.std.specs.Prelude.{refl};
ghost use Rattle.ig_value.specs.declared.Value.{Value};
ghost use Rattle.ig_fields.specs.Format.{both, value};
ghost use Rattle.ig_ops.specs.Requests.{pair_of, pair_fields};
ghost use Rattle.ig_ops.specs.Views.{pair_reading, pair_bytes};

use ig_caches::Pair;
use ig_encode::{Output, ValueOutput};
use ig_fields::FieldFormat;
use ig_value::Value;
use ig_wire::ReadError;
use std::alloc::Global;

/// The format of a key and its value: two data objects.
pub(crate) struct PairFields;

impl FieldFormat for PairFields {
    type Item = Pair;

    ghost format = { both value value };

    ghost view = { pair_of };

    ghost fields = { pair_fields };

    ghost reads = { pair_reading };

    ghost bytes = { pair_bytes };

    fn read(alloc: Global, input: &[u8]) -> Result<(Pair, &[u8]), ReadError> {
        let ((key, value), rest) = <(Value, Value) as FieldFormat>::read(alloc, input)?;
        Ok((Pair { key, value }, rest))
    }

    fn put<S: ValueOutput>(item: &Pair, out: &mut S, into: &mut [u8]) {
        out.put_value(into, &item.key);
        out.put_value(into, &item.value);
    }

    ghost reads_as_format = { λ _. refl };

    ghost writes_as_format = { λ _. refl };
}
