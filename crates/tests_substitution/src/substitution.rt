//! Substitution where skeletons type what is asked for.
ghost use Rattle.std.specs.Prelude.{◌∷◌, ◌++◌, IfOk, IsTrue, length, map};
ghost use Rattle.lf.specs.Entries.{signature_of};
ghost use Rattle.lf.specs.Skeletons.{family_skeletons};
ghost use Rattle.lf.specs.SkeletonTyping.{TermSkeleton, TypeBySkeletons};
ghost use Rattle.lf.specs.Syntax.{skeleton};
ghost use Rattle.tw_hered.specs.Fits.{Applies, TermFits, TypeFits, put_at};
ghost use Rattle.tw_terms.specs.OpenView.{open_spine_of, open_term_of, open_type_of};
ghost use Rattle.tw_terms.specs.View.{skeleton_of};
ghost use Rattle.tests_substitution.specs.Kept.{heads_of};

use crate::skeletons::around_variable;
use crate::typing::{spine_has, term_has, type_has};
use std::alloc::{AllocError, Global};
use tw_metas::Store;
use tw_putting::{HeredFault, apply, instantiate, open_skeleton, substitute, substitute_type};
use tw_signature::Signature;
use tw_terms::{ConstId, Open, OpenSpine, OpenTy, Skeleton};

/// Where a call stands: the signature, and the skeletons of the variables, the newest first, those that are bound inside and those outside.
#[derive(Clone, Copy)]
pub(crate) struct Around<'a> {
    pub(crate) signature: &'a Signature,
    pub(crate) store: &'a Store,
    pub(crate) inner: &'a [Skeleton],
    pub(crate) outer: &'a [Skeleton],
}

/// What a call gave; none where skeletons don't type what it was to be asked.
pub(crate) type Asked<T> = Result<Option<T>, HeredFault>;

/// Whether the term has the skeleton, where a variable of the skeleton `put` stands between the inner and the outer ones.
fn term_has_around(
    alloc: Global,
    around: Around<'_>,
    put: &Skeleton,
    term: &Open,
    made: &Skeleton,
) -> Result<bool, AllocError>
    ensures { IfOk result (λ b. IsTrue b → TermSkeleton (heads_of around.entry.signature.now around.entry.store.now.now) (map skeleton_of around.entry.inner.now ++ (skeleton_of put.now ∷ map skeleton_of around.entry.outer.now)) (open_term_of term.now) (skeleton_of made.now)) }
{
    let inside = around_variable(alloc, around.inner, put, around.outer)?;
    term_has(alloc, term, made, around.signature, around.store, &inside)
}

/// Whether skeletons type the type there.
fn type_has_around(
    alloc: Global,
    around: Around<'_>,
    put: &Skeleton,
    ty: &OpenTy,
) -> Result<bool, AllocError>
    ensures { IfOk result (λ b. IsTrue b → TypeBySkeletons (family_skeletons (signature_of around.entry.signature.now)) (heads_of around.entry.signature.now around.entry.store.now.now) (map skeleton_of around.entry.inner.now ++ (skeleton_of put.now ∷ map skeleton_of around.entry.outer.now)) (open_type_of ty.now)) }
{
    let inside = around_variable(alloc, around.inner, put, around.outer)?;
    type_has(alloc, ty, around.signature, around.store, &inside)
}

/// Whether skeletons type the argument for the variable of this type, and a body of the skeleton.
fn may_substitute(
    alloc: Global,
    around: Around<'_>,
    body: &Open,
    made: &Skeleton,
    arg: &Open,
    ty: &OpenTy,
) -> Result<bool, AllocError>
    ensures { IfOk result (λ b. IsTrue b → TermFits (put_at (length around.entry.inner.now) (skeleton (open_type_of ty.now)) (open_term_of arg.now)) (open_term_of body.now)) }
{
    let put = open_skeleton(alloc, ty)?;
    if !term_has(
        alloc,
        arg,
        &put,
        around.signature,
        around.store,
        around.outer,
    )? {
        return Ok(false);
    }
    term_has_around(alloc, around, &put, body, made)
}

/// Whether skeletons type the argument for the variable of this type, and the body.
fn may_substitute_type(
    alloc: Global,
    around: Around<'_>,
    body: &OpenTy,
    arg: &Open,
    ty: &OpenTy,
) -> Result<bool, AllocError>
    ensures { IfOk result (λ b. IsTrue b → TypeFits (put_at (length around.entry.inner.now) (skeleton (open_type_of ty.now)) (open_term_of arg.now)) (open_type_of body.now)) }
{
    let put = open_skeleton(alloc, ty)?;
    if !term_has(
        alloc,
        arg,
        &put,
        around.signature,
        around.store,
        around.outer,
    )? {
        return Ok(false);
    }
    type_has_around(alloc, around, &put, body)
}

/// `substitute` for the variable of this type outside of the inner ones, in a body of the skeleton.
pub(crate) fn substituted(
    alloc: Global,
    around: Around<'_>,
    body: &Open,
    made: &Skeleton,
    arg: &Open,
    ty: &OpenTy,
) -> Asked<Open> {
    if !may_substitute(alloc, around, body, made, arg, ty)? {
        return Ok(None);
    }
    let index = around.inner.len() as u64;
    Ok(Some(substitute(alloc, body, index, arg, ty)?))
}

/// The same by `substitute_type`.
pub(crate) fn substituted_type(
    alloc: Global,
    around: Around<'_>,
    body: &OpenTy,
    arg: &Open,
    ty: &OpenTy,
) -> Asked<OpenTy> {
    if !may_substitute_type(alloc, around, body, arg, ty)? {
        return Ok(None);
    }
    let index = around.inner.len() as u64;
    Ok(Some(substitute_type(alloc, body, index, arg, ty)?))
}

/// The same by `instantiate`, without inner variables.
pub(crate) fn instantiated(
    alloc: Global,
    around: Around<'_>,
    body: &OpenTy,
    arg: &Open,
    ty: &OpenTy,
) -> Asked<OpenTy> {
    let around = Around {
        signature: around.signature,
        store: around.store,
        inner: &[],
        outer: around.outer,
    };
    if !may_substitute_type(alloc, around, body, arg, ty)? {
        return Ok(None);
    }
    Ok(Some(instantiate(alloc, body, arg, ty)?))
}

/// Whether skeletons type the term of this type, and arguments that lead from there to a family.
fn may_apply(
    alloc: Global,
    around: Around<'_>,
    term: &Open,
    spine: &OpenSpine,
    ty: &OpenTy,
) -> Result<bool, AllocError>
    ensures { IfOk result (λ b. IsTrue b → Applies (skeleton (open_type_of ty.now)) (open_term_of term.now) (open_spine_of spine.now)) }
{
    let taken = open_skeleton(alloc, ty)?;
    if !term_has(
        alloc,
        term,
        &taken,
        around.signature,
        around.store,
        around.outer,
    )? {
        return Ok(false);
    }
    let made = Skeleton::Base(family_of(&taken));
    spine_has(
        alloc,
        spine,
        &taken,
        &made,
        around.signature,
        around.store,
        around.outer,
    )
}

/// `apply`, where the result is of the family.
pub(crate) fn applied(
    alloc: Global,
    around: Around<'_>,
    term: &Open,
    spine: &OpenSpine,
    ty: &OpenTy,
) -> Asked<Open> {
    if !may_apply(alloc, around, term, spine, ty)? {
        return Ok(None);
    }
    Ok(Some(apply(alloc, term, spine, ty)?))
}

/// The family that all arguments lead to.
pub(crate) fn family_of(skeleton: &Skeleton) -> ConstId {
    match skeleton {
        Skeleton::Base(family) => *family,
        Skeleton::Arrow(_, range) => family_of(range),
    }
}
