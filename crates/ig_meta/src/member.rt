//! The members of a description as items of a list: a key, and what follows it.

ghost use Rattle.std.specs.Prelude.{◌≡◌, ℕ, List, refl};
ghost use Rattle.std.proofs.Common.{sym};
ghost use Rattle.std.specs.Ordering.{eq_by_cmp};
ghost use Rattle.std.specs.Cmp.Lexicographic.{texts_ties};
ghost use Rattle.ig_value.specs.Part.{i32};
ghost use Rattle.ig_wire.specs.Fields.{string_of};
ghost use Rattle.ig_fields.specs.Format.{Key, KeyValue, name, identifier, is_same_key, Format, scalar, both, listed, Fields};
ghost use Rattle.ig_fields.specs.ReadingFields.{both_of, listed_of, int_field, key_of, fields_of};
ghost use Rattle.ig_fields.specs.FieldBytes.{both_bytes, key_bytes, fields_bytes};
ghost use Rattle.ig_fields.specs.Views.{ReadsAs, WritesAs, same, mapped_same};
ghost use Rattle.ig_meta.specs.TypeFields.{field_of, literal_of, schema_of, field_parts, literal_parts, schema_parts};
ghost use Rattle.ig_meta.specs.MemberViews.{field_bytes, literal_bytes, schema_bytes};

use crate::key::{ListKey, Name};
use ig_base::{Items, Text};
use ig_encode::{Output, ValueOutput, put_i32};
use ig_fields::{FieldFormat, put_items};
use ig_types::{FieldMeta, Literal, SchemaMeta};

/// A member of a description.
pub(crate) trait Member: Drop + Sized {
    /// Its key, which is read first.
    type Key: ListKey;

    /// What follows the key.
    type Rest: FieldFormat;

    /// The format of the key.
    ghost kind: { Key };

    /// The format of what follows the key.
    ghost format: { Format };

    /// What a key of the format is, as the program has it.
    ghost key_view: { KeyValue kind → Self.Key };

    /// What follows a key, as the program has it.
    ghost rest_view: { Fields format → Self.Rest.Item };

    /// The member of a key and what follows it.
    ghost made: { Self.Key × Self.Rest.Item → Self };

    /// What a member is written with.
    ghost parts: { Self → KeyValue kind × Fields format };

    /// Its bytes.
    ghost bytes: { Self → List ℕ };

    fn make(key: Self::Key, rest: <Self::Rest as FieldFormat>::Item) -> Self
        ensures { result ≡ made (key, rest) };

    /// Puts its bytes. Takes no memory.
    fn put<S: ValueOutput>(&self, out: &mut S, into: &mut [u8])
        ensures { (out.new, into.new) ≡ S.Output.after out.old into.old (bytes self.now) };

    ghost reads_as_key: { ReadsAs key_view Self.Key.reads (key_of kind) };

    /// Two keys are equal if the order doesn't tell them apart.
    ghost same_as_key: { (x y : KeyValue kind)
        → eq_by_cmp Self.Key.cmp (key_view x) (key_view y) ≡ is_same_key kind x y };

    ghost reads_as_rest: { ReadsAs rest_view Self.Rest.reads (fields_of format) };

    ghost writes_as_parts: { WritesAs parts bytes
        (both_bytes (key_bytes kind) (fields_bytes format)) };
}

impl Member for FieldMeta {
    type Key = Name;

    type Rest = (i32, i32);

    ghost kind = { name };

    ghost format = { both (scalar i32) (scalar i32) };

    ghost key_view = { same };

    ghost rest_view = { same };

    ghost made = { field_of };

    ghost parts = { field_parts };

    ghost bytes = { field_bytes };

    fn make(key: Name, (kind, id): (i32, i32)) -> FieldMeta {
        FieldMeta {
            name: key.into_text(),
            kind,
            id,
        }
    }

    fn put<S: ValueOutput>(&self, out: &mut S, into: &mut [u8]) {
        <Text as FieldFormat>::put(&self.name, out, into);
        <(i32, i32) as FieldFormat>::put(&(self.kind, self.id), out, into);
    }

    ghost reads_as_key = { λ s. mapped_same (string_of s) };

    ghost same_as_key = { λ x y. sym (texts_ties x y) };

    ghost reads_as_rest = { λ s. mapped_same (both_of int_field int_field s) };

    ghost writes_as_parts = { λ _. refl };
}

impl Member for Literal {
    type Key = Name;

    type Rest = i32;

    ghost kind = { name };

    ghost format = { scalar i32 };

    ghost key_view = { same };

    ghost rest_view = { same };

    ghost made = { literal_of };

    ghost parts = { literal_parts };

    ghost bytes = { literal_bytes };

    fn make(key: Name, ordinal: i32) -> Literal {
        Literal {
            name: key.into_text(),
            ordinal,
        }
    }

    fn put<S: ValueOutput>(&self, out: &mut S, into: &mut [u8]) {
        <Text as FieldFormat>::put(&self.name, out, into);
        put_i32(self.ordinal, out, into);
    }

    ghost reads_as_key = { λ s. mapped_same (string_of s) };

    ghost same_as_key = { λ x y. sym (texts_ties x y) };

    ghost reads_as_rest = { λ s. mapped_same (int_field s) };

    ghost writes_as_parts = { λ _. refl };
}

impl Member for SchemaMeta {
    type Key = i32;

    type Rest = Items<i32>;

    ghost kind = { identifier };

    ghost format = { listed (scalar i32) };

    ghost key_view = { same };

    ghost rest_view = { same };

    ghost made = { schema_of };

    ghost parts = { schema_parts };

    ghost bytes = { schema_bytes };

    fn make(key: i32, ids: Items<i32>) -> SchemaMeta {
        SchemaMeta { id: key, ids }
    }

    fn put<S: ValueOutput>(&self, out: &mut S, into: &mut [u8]) {
        put_i32(self.id, out, into);
        put_items::<i32, S>(self.ids.as_slice(), out, into);
    }

    ghost reads_as_key = { λ s. mapped_same (int_field s) };

    ghost same_as_key = { λ _ _. refl };

    ghost reads_as_rest = { λ s. mapped_same (listed_of int_field s) };

    ghost writes_as_parts = { λ _. refl };
}
