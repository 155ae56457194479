//! The members of a description: fields, literals and schemas. Each member has a key, a field and a
//! literal its name, a schema its identifier, and each list is ordered by the keys.

ghost use Rattle.std.specs.Prelude.{◌≡◌, Bool, IfOk, Decides};
ghost use Rattle.std.specs.Cmp.{IsTotalOrder};
ghost use Rattle.std.specs.declared.cmp.Ordering.{Ordering};
ghost use Rattle.ig_types.specs.declared.clash.Clash.{Clash};
ghost use Rattle.ig_types.specs.declared.clash.Clash.TheVariants as clash;

use crate::clash::Clash;
use crate::meta::{FieldMeta, Literal, SchemaMeta, copy_text};
use ig_base::{Items, NoMemory};
use std::alloc::Global;
use std::cmp::Ordering;

/// A field, a literal or a schema.
pub(crate) trait Member: Drop + Sized {
    /// The order of two members by their keys.
    ghost rank: { Self → Self → Ordering };

    /// Whether two members are equal.
    ghost same: { Self → Self → Bool };

    /// The clash of two members with the same key that are not equal.
    ghost clash: { Self → Self → Clash };

    fn compare(&self, other: &Self) -> Ordering
        ensures { result ≡ rank self.now other.now };

    fn is_same(&self, other: &Self) -> bool
        ensures { result ≡ same self.now other.now };

    fn clash(self, other: Self) -> Clash
        ensures { result ≡ clash self other };

    fn copy(&self, alloc: Global) -> Result<Self, NoMemory>
        ensures { IfOk result (λ copy. copy ≡ self.now) };

    /// The order of the keys is total.
    ghost rank_is_total: { IsTotalOrder rank };

    /// The test of equality is exact.
    ghost same_is_exact: { (x y : Self) → Decides (same x y) (x ≡ y) };
}

impl Member for FieldMeta {
    ghost use Rattle.ig_types.specs.IsInOrder.{by_field};
    ghost use Rattle.ig_types.specs.Join.{same_field};
    ghost use Rattle.ig_types.specs.MemberLaws.{by_field_total, same_field_exact};

    ghost rank = { by_field };

    ghost same = { same_field };

    ghost clash = { λ x y. clash.Field x y };

    ghost rank_is_total = { by_field_total };

    ghost same_is_exact = { same_field_exact };

    fn compare(&self, other: &FieldMeta) -> Ordering {
        self.name.as_str().cmp(&other.name.as_str())
    }

    fn is_same(&self, other: &FieldMeta) -> bool {
        self.name.as_str() == other.name.as_str() && self.kind == other.kind && self.id == other.id
    }

    fn clash(self, other: FieldMeta) -> Clash {
        Clash::Field(self, other)
    }

    fn copy(&self, alloc: Global) -> Result<FieldMeta, NoMemory> {
        Ok(FieldMeta {
            name: copy_text(alloc, &self.name)?,
            kind: self.kind,
            id: self.id,
        })
    }
}

impl Member for Literal {
    ghost use Rattle.ig_types.specs.IsInOrder.{by_literal};
    ghost use Rattle.ig_types.specs.Join.{same_literal};
    ghost use Rattle.ig_types.specs.MemberLaws.{by_literal_total, same_literal_exact};

    ghost rank = { by_literal };

    ghost same = { same_literal };

    ghost clash = { λ x y. clash.Literal x y };

    ghost rank_is_total = { by_literal_total };

    ghost same_is_exact = { same_literal_exact };

    fn compare(&self, other: &Literal) -> Ordering {
        self.name.as_str().cmp(&other.name.as_str())
    }

    fn is_same(&self, other: &Literal) -> bool {
        self.name.as_str() == other.name.as_str() && self.ordinal == other.ordinal
    }

    fn clash(self, other: Literal) -> Clash {
        Clash::Literal(self, other)
    }

    fn copy(&self, alloc: Global) -> Result<Literal, NoMemory> {
        Ok(Literal {
            name: copy_text(alloc, &self.name)?,
            ordinal: self.ordinal,
        })
    }
}

impl Member for SchemaMeta {
    ghost use Rattle.ig_types.specs.IsInOrder.{by_schema};
    ghost use Rattle.ig_types.specs.Join.{same_schema};
    ghost use Rattle.ig_types.specs.MemberLaws.{by_schema_total, same_schema_exact};

    ghost rank = { by_schema };

    ghost same = { same_schema };

    ghost clash = { λ x y. clash.Schema x y };

    ghost rank_is_total = { by_schema_total };

    ghost same_is_exact = { same_schema_exact };

    fn compare(&self, other: &SchemaMeta) -> Ordering {
        self.id.cmp(&other.id)
    }

    fn is_same(&self, other: &SchemaMeta) -> bool {
        self.id == other.id && self.ids.as_slice() == other.ids.as_slice()
    }

    fn clash(self, other: SchemaMeta) -> Clash {
        Clash::Schema(self, other)
    }

    fn copy(&self, alloc: Global) -> Result<SchemaMeta, NoMemory> {
        Ok(SchemaMeta {
            id: self.id,
            ids: Items::new(self.ids.as_slice().to_vec(alloc)?),
        })
    }
}
