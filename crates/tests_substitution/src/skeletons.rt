//! Skeletons of variables, families and heads.
ghost use Rattle.std.specs.Prelude.{◌≡◌, ◌∷◌, [], ◌++◌, IfOk, IfSome, OnOk, map, option_map, slice_get};
ghost use Rattle.lf.specs.Entries.{signature_of};
ghost use Rattle.lf.specs.Skeletons.{family_skeletons};
ghost use Rattle.lf.specs.SkeletonTyping.{HeadSkeleton};
ghost use Rattle.lf.specs.Syntax.{kind_skeleton as skeleton_of_kind, skeleton as skeleton_of_type};
ghost use Rattle.tw_terms.specs.OpenView.{open_head_of, open_type_of};
ghost use Rattle.tw_terms.specs.View.{kind_of, skeleton_of};
ghost use Rattle.tests_substitution.specs.Kept.{heads_of};

use std::alloc::{AllocError, Global};
use tw_metas::Store;
use tw_putting::open_skeleton;
use tw_signature::Signature;
use tw_terms::{ConstId, Kind, OpenHead, OpenTy, Skeleton, skeleton};

/// Adds copies of the skeletons.
fn push_all(
    alloc: Global,
    skeletons: &[Skeleton],
    all: &mut Vec<Skeleton>,
) -> Result<(), AllocError>
    ensures { OnOk result (map skeleton_of all.new.items ≡ map skeleton_of all.old.items ++ map skeleton_of skeletons.now) }
{
    for skeleton in skeletons {
        push_copy(alloc, skeleton, all)?;
    }
    Ok(())
}

/// Adds a copy of the skeleton.
fn push_copy(alloc: Global, skeleton: &Skeleton, all: &mut Vec<Skeleton>) -> Result<(), AllocError>
    ensures { OnOk result (map skeleton_of all.new.items ≡ map skeleton_of all.old.items ++ (skeleton_of skeleton.now ∷ [])) }
{
    all.push(skeleton.copy(alloc)?)?;
    Ok(())
}

/// The skeletons, and the others behind them.
pub(crate) fn followed(
    alloc: Global,
    first: &[Skeleton],
    others: &[Skeleton],
) -> Result<Vec<Skeleton>, AllocError>
    ensures { IfOk result (λ v. map skeleton_of v.items ≡ map skeleton_of first.now ++ map skeleton_of others.now) }
{
    let mut all = Vec::new(alloc);
    push_all(alloc, first, &mut all)?;
    push_all(alloc, others, &mut all)?;
    Ok(all)
}

/// The skeletons with one more in front.
pub(crate) fn under(
    alloc: Global,
    newest: &Skeleton,
    variables: &[Skeleton],
) -> Result<Vec<Skeleton>, AllocError>
    ensures { IfOk result (λ v. map skeleton_of v.items ≡ skeleton_of newest.now ∷ map skeleton_of variables.now) }
{
    let mut inside = Vec::new(alloc);
    push_copy(alloc, newest, &mut inside)?;
    push_all(alloc, variables, &mut inside)?;
    Ok(inside)
}

/// The skeletons with that of the type in front.
pub(crate) fn under_type(
    alloc: Global,
    ty: &OpenTy,
    variables: &[Skeleton],
) -> Result<Vec<Skeleton>, AllocError>
    ensures { IfOk result (λ v. map skeleton_of v.items ≡ skeleton_of_type (open_type_of ty.now) ∷ map skeleton_of variables.now) }
{
    let newest = open_skeleton(alloc, ty)?;
    under(alloc, &newest, variables)
}

/// The skeletons of variables, the newest first: those inside of this one, then this one, then those outside.
pub(crate) fn around_variable(
    alloc: Global,
    inner: &[Skeleton],
    newest: &Skeleton,
    outer: &[Skeleton],
) -> Result<Vec<Skeleton>, AllocError>
    ensures { IfOk result (λ v. map skeleton_of v.items ≡ map skeleton_of inner.now ++ (skeleton_of newest.now ∷ map skeleton_of outer.now)) }
{
    let behind = under(alloc, newest, outer)?;
    followed(alloc, inner, &behind)
}

/// The skeleton of a family of this kind.
fn kind_skeleton(alloc: Global, family: ConstId, kind: &Kind) -> Result<Skeleton, AllocError>
    ensures { IfOk result (λ s. skeleton_of s ≡ skeleton_of_kind family.0 (kind_of kind.now)) }
{
    match kind {
        Kind::Pi(domain, rest) => {
            let domain = Box::new(alloc, skeleton(alloc, domain)?)?;
            Ok(Skeleton::Arrow(
                domain,
                Box::new(alloc, kind_skeleton(alloc, family, rest)?)?,
            ))
        }
        Kind::Star => Ok(Skeleton::Base(family)),
    }
}

/// The skeleton of a family.
pub(crate) fn family_skeleton(
    alloc: Global,
    signature: &Signature,
    family: ConstId,
) -> Result<Option<Skeleton>, AllocError>
    ensures { IfOk result (λ o. option_map skeleton_of o ≡ family_skeletons (signature_of signature.now) family.0) }
{
    match signature.family_kind(family) {
        Some(kind) => Ok(Some(kind_skeleton(alloc, family, kind)?)),
        None => Ok(None),
    }
}

/// The skeleton of a variable.
fn variable_skeleton(
    alloc: Global,
    variables: &[Skeleton],
    variable: u64,
) -> Result<Option<Skeleton>, AllocError>
    ensures { IfOk result (λ o. option_map skeleton_of o ≡ slice_get (map skeleton_of variables.now) variable) }
{
    if variable >= variables.len() as u64 {
        return Ok(None);
    }
    let found = &variables[variable as usize];
    Ok(Some(found.copy(alloc)?))
}

/// The skeleton of a head.
pub(crate) fn head_skeleton(
    alloc: Global,
    signature: &Signature,
    store: &Store,
    variables: &[Skeleton],
    head: OpenHead,
) -> Result<Option<Skeleton>, AllocError>
    ensures { IfOk result (λ o. IfSome o (λ t. HeadSkeleton (heads_of signature.now store.now.now) (map skeleton_of variables.now) (open_head_of head) (skeleton_of t))) }
{
    match head {
        OpenHead::Const(id) => match signature.constant_type(id) {
            Some(ty) => Ok(Some(skeleton(alloc, ty)?)),
            None => Ok(None),
        },
        OpenHead::Var(variable) => variable_skeleton(alloc, variables, variable),
        OpenHead::Meta(meta) => match store.about(meta) {
            Some((_, ty)) => Ok(Some(open_skeleton(alloc, ty)?)),
            None => Ok(None),
        },
    }
}
