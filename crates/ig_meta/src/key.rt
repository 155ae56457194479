//! What tells the members of a description apart: a name, or an identifier.

ghost use Rattle.std.specs.Prelude.{◌≡◌, ℕ, List, Some, nat_eq, refl};
ghost use Rattle.std.specs.Ordering.{nat_cmp};
ghost use Rattle.std.specs.Cmp.{partial_equiv_from_equiv};
ghost use Rattle.std.specs.Cmp.Lexicographic.{pointwise, slice_cmp, nat_list_eq_equiv, nat_list_cmp_total, texts_ties, texts_po};
ghost use Rattle.ig_wire.specs.Fields.{Field, string_of};
ghost use Rattle.ig_wire.specs.ReadAnswers.{ReadAnswers};
ghost use Rattle.ig_fields.specs.ReadingFields.{int_field};

use ig_base::Text;
use ig_fields::FieldFormat;
use ig_wire::ReadError;
use std::alloc::Global;
use std::cmp::Ordering;
use std::marker::Model;

/// A key, by which members of a description are told apart and ordered.
pub(crate) trait ListKey: Ord + Drop {
    /// Reading a key from a list of bytes.
    ghost reads: { List ℕ → Field Self };

    /// The key that the bytes begin with, and the bytes after it.
    fn read(alloc: Global, input: &[u8]) -> Result<(Self, &[u8]), ReadError>
        ensures { ReadAnswers (λ x. (x.0, x.1.now)) result (reads input.now) };
}

/// A name, ordered by its bytes.
#[derive(Drop)]
pub(crate) struct Name {
    text: Text,
}

impl Model for Name {
    ghost Value = { List ℕ };

    ghost view = { λ n. n.text };
}

impl Name {
    /// Unwraps the text. Takes no memory.
    pub(crate) fn into_text(self) -> Text
        ensures { result ≡ self }
    {
        let Name { text } = self;
        text
    }
}

impl PartialEq for Name {
    ghost eq = { pointwise nat_eq };

    ghost laws = { partial_equiv_from_equiv nat_list_eq_equiv };

    fn eq(&self, other: &Name) -> bool {
        self.text.as_str() == other.text.as_str()
    }
}

impl Eq for Name {
    ghost laws = { nat_list_eq_equiv };
}

impl PartialOrd for Name {
    ghost partial_cmp = { λ x y. Some (slice_cmp nat_cmp x y) };

    ghost laws = { texts_po };

    fn partial_cmp(&self, other: &Name) -> Option<Ordering> {
        Some(self.cmp(other))
    }
}

impl Ord for Name {
    ghost cmp = { slice_cmp nat_cmp };

    ghost total = { nat_list_cmp_total };

    ghost matches_partial_cmp = { λ x y. refl };

    ghost matches_eq = { texts_ties };

    fn cmp(&self, other: &Name) -> Ordering {
        self.text.as_str().cmp(&other.text.as_str())
    }
}

impl ListKey for Name {
    ghost reads = { string_of };

    fn read(alloc: Global, input: &[u8]) -> Result<(Name, &[u8]), ReadError> {
        let (text, rest) = <Text as FieldFormat>::read(alloc, input)?;
        Ok((Name { text }, rest))
    }
}

impl ListKey for i32 {
    ghost reads = { int_field };

    fn read(alloc: Global, input: &[u8]) -> Result<(i32, &[u8]), ReadError> {
        <i32 as FieldFormat>::read(alloc, input)
    }
}
