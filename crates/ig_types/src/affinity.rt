//! The field that an affinity key names.

ghost use Rattle.std.specs.Prelude.{◌≡◌, option_copied};
ghost use Rattle.std.specs.List.Sorted.{IsStrictlySortedBy};
ghost use Rattle.ig_types.specs.IsInOrder.{IsInOrder, by_field};
ghost use Rattle.ig_types.specs.AffinityPair.{affinity_pair, field_named};

use crate::meta::{FieldMeta, TypeMeta};

/// The identifier of the type and that of the field that its affinity key names, if it names one.
pub(crate) fn affinity_pair(meta: &TypeMeta) -> Option<(i32, i32)>
    requires { IsInOrder meta.now }
    ensures { result ≡ affinity_pair meta.now }
{
    let key = meta.affinity.as_ref()?;
    let field = field_named(meta.fields.as_slice(), key.as_str())?;
    Some((meta.type_id, field.id))
}

/// The field with the name, found by a binary search.
fn field_named<'a>(fields: &'a [FieldMeta], name: &str) -> Option<&'a FieldMeta>
    requires { IsStrictlySortedBy by_field fields.now }
    ensures { option_copied result ≡ field_named fields.now name.now }
{
    match fields.binary_search_by(|field| field.name.as_str().cmp(&name)) {
        Ok(at) => Some(&fields[at]),
        Err(_) => None,
    }
}
