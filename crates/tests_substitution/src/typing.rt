//! Typing by skeletons, decided by running it.
ghost use Rattle.std.specs.Prelude.{IfOk, IsTrue, map};
ghost use Rattle.lf.specs.Entries.{signature_of};
ghost use Rattle.lf.specs.Skeletons.{family_skeletons};
ghost use Rattle.lf.specs.SkeletonTyping.{SpineSkeleton, TermSkeleton, TypeBySkeletons};
ghost use Rattle.lf.specs.Syntax.{atom};
ghost use Rattle.tw_terms.specs.OpenView.{open_spine_of, open_term_of, open_type_of};
ghost use Rattle.tw_terms.specs.View.{skeleton_of};
ghost use Rattle.tests_substitution.specs.Kept.{heads_of};

use crate::skeletons::{family_skeleton, head_skeleton, under, under_type};
use std::alloc::{AllocError, Global};
use tw_metas::Store;
use tw_signature::Signature;
use tw_terms::{ConstId, Open, OpenSpine, OpenTy, Skeleton};

/// Whether the term has the skeleton.
#[cycle(typed)]
pub(crate) fn term_has(
    alloc: Global,
    term: &Open,
    made: &Skeleton,
    signature: &Signature,
    store: &Store,
    variables: &[Skeleton],
) -> Result<bool, AllocError>
    ensures { IfOk result (λ b. IsTrue b → TermSkeleton (heads_of signature.now store.now.now) (map skeleton_of variables.now) (open_term_of term.now) (skeleton_of made.now)) }
{
    match (term, made) {
        (Open::Lam(body), Skeleton::Arrow(domain, range)) => {
            let inside = under(alloc, domain, variables)?;
            term_has(alloc, body, range, signature, store, &inside)
        }
        (Open::Root(head, spine), Skeleton::Base(_)) => {
            match head_skeleton(alloc, signature, store, variables, *head)? {
                Some(taken) => spine_has(alloc, spine, &taken, made, signature, store, variables),
                None => Ok(false),
            }
        }
        _ => Ok(false),
    }
}

/// Whether the arguments take one skeleton to another.
#[cycle(typed)]
pub(crate) fn spine_has(
    alloc: Global,
    spine: &OpenSpine,
    taken: &Skeleton,
    made: &Skeleton,
    signature: &Signature,
    store: &Store,
    variables: &[Skeleton],
) -> Result<bool, AllocError>
    ensures { IfOk result (λ b. IsTrue b → SpineSkeleton (heads_of signature.now store.now.now) (map skeleton_of variables.now) (open_spine_of spine.now) (skeleton_of taken.now) (skeleton_of made.now)) }
{
    let mut rest = taken;
    for arg in &spine.args {
        match rest {
            Skeleton::Arrow(domain, range) => {
                if !term_has(alloc, arg, domain, signature, store, variables)? {
                    return Ok(false);
                }
                rest = range;
            }
            Skeleton::Base(_) => return Ok(false),
        }
    }
    Ok(rest.same(made))
}

/// Whether skeletons type the type.
pub(crate) fn type_has(
    alloc: Global,
    ty: &OpenTy,
    signature: &Signature,
    store: &Store,
    variables: &[Skeleton],
) -> Result<bool, AllocError>
    ensures { IfOk result (λ b. IsTrue b → TypeBySkeletons (family_skeletons (signature_of signature.now)) (heads_of signature.now store.now.now) (map skeleton_of variables.now) (open_type_of ty.now)) }
{
    match ty {
        OpenTy::Pi(domain, range) => {
            if !type_has(alloc, domain, signature, store, variables)? {
                return Ok(false);
            }
            let inside = under_type(alloc, domain, variables)?;
            type_has(alloc, range, signature, store, &inside)
        }
        OpenTy::Atom(family, spine) => {
            atom_has(alloc, *family, spine, signature, store, variables)
        }
    }
}

/// Whether the arguments take the skeleton of the family to the end.
fn atom_has(
    alloc: Global,
    family: ConstId,
    spine: &OpenSpine,
    signature: &Signature,
    store: &Store,
    variables: &[Skeleton],
) -> Result<bool, AllocError>
    ensures { IfOk result (λ b. IsTrue b → TypeBySkeletons (family_skeletons (signature_of signature.now)) (heads_of signature.now store.now.now) (map skeleton_of variables.now) (atom family.0 (open_spine_of spine.now))) }
{
    match family_skeleton(alloc, signature, family)? {
        Some(taken) => {
            let made = Skeleton::Base(family);
            spine_has(alloc, spine, &taken, &made, signature, store, variables)
        }
        None => Ok(false),
    }
}
