//! Values put in, where skeletons type what is asked for.
ghost use Rattle.std.specs.Prelude.{IfOk, IsTrue, length, map};
ghost use Rattle.tw_putting.specs.Fits.{PutFits, PutSpineFits, PutTypeFits};
ghost use Rattle.tw_terms.specs.OpenView.{open_spine_of, open_term_of, open_type_of};
ghost use Rattle.tw_terms.specs.View.{skeleton_of};
ghost use Rattle.tests_substitution.specs.Kept.{IsBound};

use crate::skeletons::followed;
use crate::substitution::{Around, Asked, family_of};
use crate::typing::{spine_has, term_has, type_has};
use std::alloc::{AllocError, Global};
use tw_putting::{is_type_all_in, put_in, put_in_spine, put_in_type};
use tw_terms::{Open, OpenSpine, OpenTy, Skeleton};

/// Whether the term has the skeleton under the inner variables.
fn may_put(
    alloc: Global,
    around: Around<'_>,
    term: &Open,
    made: &Skeleton,
) -> Result<bool, AllocError>
    requires { IsBound around.signature.now (map skeleton_of around.outer.now) around.store.now.now }
    ensures { IfOk result (λ b. IsTrue b → PutFits around.entry.store.now.now (length around.entry.inner.now) (open_term_of term.now)) }
{
    let variables = followed(alloc, around.inner, around.outer)?;
    term_has(
        alloc,
        term,
        made,
        around.signature,
        around.store,
        &variables,
    )
}

/// `put_in` under the inner variables.
pub(crate) fn with_values(
    alloc: Global,
    around: Around<'_>,
    term: &Open,
    made: &Skeleton,
) -> Asked<Open>
    requires { IsBound around.signature.now (map skeleton_of around.outer.now) around.store.now.now }
{
    if !may_put(alloc, around, term, made)? {
        return Ok(None);
    }
    let binders = around.inner.len() as u64;
    Ok(Some(put_in(alloc, around.store, binders, term)?))
}

/// Whether the arguments take the skeleton to its family under the inner variables.
fn may_put_arguments(
    alloc: Global,
    around: Around<'_>,
    spine: &OpenSpine,
    taken: &Skeleton,
) -> Result<bool, AllocError>
    requires { IsBound around.signature.now (map skeleton_of around.outer.now) around.store.now.now }
    ensures { IfOk result (λ b. IsTrue b → PutSpineFits around.entry.store.now.now (length around.entry.inner.now) (open_spine_of spine.now)) }
{
    let variables = followed(alloc, around.inner, around.outer)?;
    let made = Skeleton::Base(family_of(taken));
    spine_has(
        alloc,
        spine,
        taken,
        &made,
        around.signature,
        around.store,
        &variables,
    )
}

/// `put_in_spine` under the inner variables.
pub(crate) fn arguments_with_values(
    alloc: Global,
    around: Around<'_>,
    spine: &OpenSpine,
    taken: &Skeleton,
) -> Asked<OpenSpine>
    requires { IsBound around.signature.now (map skeleton_of around.outer.now) around.store.now.now }
{
    if !may_put_arguments(alloc, around, spine, taken)? {
        return Ok(None);
    }
    let binders = around.inner.len() as u64;
    Ok(Some(put_in_spine(alloc, around.store, binders, spine)?))
}

/// Whether skeletons type the type under the inner variables.
fn may_put_type(alloc: Global, around: Around<'_>, ty: &OpenTy) -> Result<bool, AllocError>
    requires { IsBound around.signature.now (map skeleton_of around.outer.now) around.store.now.now }
    ensures { IfOk result (λ b. IsTrue b → PutTypeFits around.entry.store.now.now (length around.entry.inner.now) (open_type_of ty.now)) }
{
    let variables = followed(alloc, around.inner, around.outer)?;
    type_has(alloc, ty, around.signature, around.store, &variables)
}

/// `put_in_type` under the inner variables.
pub(crate) fn type_with_values(alloc: Global, around: Around<'_>, ty: &OpenTy) -> Asked<OpenTy>
    requires { IsBound around.signature.now (map skeleton_of around.outer.now) around.store.now.now }
{
    if !may_put_type(alloc, around, ty)? {
        return Ok(None);
    }
    let binders = around.inner.len() as u64;
    Ok(Some(put_in_type(alloc, around.store, binders, ty)?))
}

/// `is_type_all_in`.
pub(crate) fn type_is_all_in(around: Around<'_>, ty: &OpenTy) -> bool
    requires { IsBound around.signature.now (map skeleton_of around.outer.now) around.store.now.now }
{
    is_type_all_in(around.store, ty)
}
