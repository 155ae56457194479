//! The join of two descriptions of one type, its laws, and the test that one description says no more
//! than another.

ghost use Rattle.std.specs.Prelude.{◌≡◌, ◌↔◌, Some, IsTrue, IfSome, IfOk, IfErr, OnOk};
ghost use Rattle.ig_types.specs.IsBelow.{IsBelow, IsLeastAbove};
ghost use Rattle.ig_types.specs.IsInOrder.{IsInOrder};
ghost use Rattle.ig_types.specs.Clash.{AgreeOnAll, IfClash, IsFirstClash};
ghost use Rattle.ig_types.specs.Join.{IsOutcome, affinity_clash, clash_of, flag_clash, joined, name_clash};
ghost use Rattle.ig_types.specs.JoinLaws.{JoinAssociates, JoinCommutes};
ghost use Rattle.std.specs.Option.{option_or};

use crate::clash::{Clash, JoinFault};
use crate::merging::{is_within, merge};
use crate::meta::{TypeMeta, copy_text};
use ig_base::Text;
use std::alloc::Global;

/// Joins two descriptions of one type: the result is the least description that says everything that
/// either of them says.
///
/// # Errors
///
/// [`JoinFault::Clash`] exactly if the two descriptions clash, with their first clash by the order of
/// [`Clash`]'s variants and then by the members' names or identifiers. [`JoinFault::NoMemory`] if there
/// is no memory for the result.
pub fn join(alloc: Global, a: &TypeMeta, b: &TypeMeta) -> Result<TypeMeta, JoinFault>
    requires one_type { a.now.type_id ≡ b.now.type_id }
    requires first { IsInOrder a.now }
    requires second { IsInOrder b.now }

    // The least upper bound of both.
    ensures least { IfOk result (IsLeastAbove a.now b.now) }
    ensures in_order { IfOk result IsInOrder }

    // Refused exactly if they clash.
    ensures agreed { OnOk result (AgreeOnAll a.now b.now) }
    ensures clash { IfErr result (λ fault. IfClash fault (IsFirstClash a.now b.now)) }

    // The same by two functions that other definitions can call.
    ensures outcome { IsOutcome result (clash_of a.now b.now) (joined a.now b.now) }
{
    join_descriptions(alloc, a, b)
}

/// Law: if two descriptions join, they join in the other order too, and the results are equal.
pub fn join_commutes()
    ensures { JoinCommutes }
{}

/// Law: if three descriptions join from the left or from the right, they join from both, and the
/// results are equal.
pub fn join_associates()
    ensures { JoinAssociates }
{}

/// The join, in the order of [`Clash`]'s variants: each step gives a field of the result or a clash.
#[tactic(auto, unfolding(crate::specs::Join::clash_of, crate::specs::Join::joined))]
fn join_descriptions(alloc: Global, a: &TypeMeta, b: &TypeMeta) -> Result<TypeMeta, JoinFault>
    requires first { IsInOrder a.now }
    requires second { IsInOrder b.now }
    ensures { IsOutcome result (clash_of a.now b.now) (joined a.now b.now) }
{
    let name = join_names(alloc, &a.name, &b.name)?;
    let affinity = join_affinities(alloc, &a.affinity, &b.affinity)?;
    let is_enum = join_flags(a.is_enum, b.is_enum)?;
    let fields = merge(alloc, a.fields.as_slice(), b.fields.as_slice())?;
    let literals = merge(alloc, a.literals.as_slice(), b.literals.as_slice())?;
    let schemas = merge(alloc, a.schemas.as_slice(), b.schemas.as_slice())?;
    Ok(TypeMeta {
        type_id: a.type_id,
        name,
        affinity,
        is_enum,
        fields,
        literals,
        schemas,
    })
}

/// The common name, or the clash of two names.
fn join_names(alloc: Global, a: &Text, b: &Text) -> Result<Text, JoinFault>
    ensures { IsOutcome result (name_clash a.now b.now) a.now }
{
    if a.as_str() != b.as_str() {
        return Err(JoinFault::Clash(Clash::Name(copy_text(alloc, a)?, copy_text(alloc, b)?)));
    }
    Ok(copy_text(alloc, a)?)
}

/// The affinity key that either has, or the clash of two keys.
fn join_affinities(
    alloc: Global,
    a: &Option<Text>,
    b: &Option<Text>,
) -> Result<Option<Text>, JoinFault>
    ensures { IsOutcome result (affinity_clash a.now b.now) (option_or a.now b.now) }
{
    match (a, b) {
        (Some(a), Some(b)) if a.as_str() != b.as_str() => Err(JoinFault::Clash(Clash::Affinity(
            copy_text(alloc, a)?,
            copy_text(alloc, b)?,
        ))),
        (Some(key), _) | (None, Some(key)) => Ok(Some(copy_text(alloc, key)?)),
        (None, None) => Ok(None),
    }
}

/// The common enum flag, or the clash of two flags.
fn join_flags(a: bool, b: bool) -> Result<bool, JoinFault>
    ensures { IsOutcome result (flag_clash a b) a }
{
    if a == b {
        Ok(a)
    } else {
        Err(JoinFault::Clash(Clash::EnumFlag(a, b)))
    }
}

/// Whether the second description says everything that the first says.
pub(crate) fn is_below(a: &TypeMeta, b: &TypeMeta) -> bool
    requires one_type { a.now.type_id ≡ b.now.type_id }
    requires first { IsInOrder a.now }
    requires second { IsInOrder b.now }
    ensures { IsTrue result ↔ IsBelow a.now b.now }
{
    if a.name.as_str() != b.name.as_str() {
        return false;
    }
    if a.is_enum != b.is_enum {
        return false;
    }
    if !has_affinity(&b.affinity, &a.affinity) {
        return false;
    }
    if !is_within(a.fields.as_slice(), b.fields.as_slice()) {
        return false;
    }
    if !is_within(a.literals.as_slice(), b.literals.as_slice()) {
        return false;
    }
    is_within(a.schemas.as_slice(), b.schemas.as_slice())
}

/// Whether the affinity key is the wanted one, if one is wanted.
fn has_affinity(key: &Option<Text>, wanted: &Option<Text>) -> bool
    ensures { IsTrue result ↔ IfSome wanted.now (λ name. key.now ≡ Some name) }
{
    match (key, wanted) {
        (_, None) => true,
        (None, Some(_)) => false,
        (Some(key), Some(wanted)) => key.as_str() == wanted.as_str(),
    }
}
