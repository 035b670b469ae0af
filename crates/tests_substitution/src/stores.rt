//! Metavariables that are declared, and values that skeletons type, which they get one after another.
ghost use Rattle.std.specs.Prelude.{◌≡◌, IfOk, IsTrue, None, OnOk, map};
ghost use Rattle.lf.specs.SkeletonTyping.{TermSkeleton};
ghost use Rattle.lf.specs.Syntax.{skeleton};
ghost use Rattle.lf_unification.specs.OpenTyping.{MetavariablesIn, MetavariablesInSpine};
ghost use Rattle.tw_metas.specs.State.{value_of};
ghost use Rattle.tw_terms.specs.OpenView.{open_spine_of, open_term_of, open_type_of};
ghost use Rattle.tw_terms.specs.View.{skeleton_of};
ghost use Rattle.tests_substitution.specs.Kept.{IsBound, IsFree, KeepsBound, MayHave, heads_of};

use crate::typing::term_has;
use std::alloc::{AllocError, Global};
use tw_metas::Store;
use tw_putting::open_skeleton;
use tw_signature::Signature;
use tw_terms::{MetaId, Open, OpenContext, OpenHead, OpenSpine, OpenTy, Skeleton};

/// One metavariable more, of this type, in the empty context.
pub(crate) fn declare(alloc: Global, ty: &OpenTy, store: &mut Store) -> Result<(), AllocError>
    ensures { OnOk result (KeepsBound store.old.now store.new.now) }
{
    let ty = ty.copy(alloc)?;
    store.fresh(OpenContext::new(alloc), ty)?;
    Ok(())
}

/// Gives the metavariable the value, if it may have it.
pub(crate) fn bind(
    alloc: Global,
    signature: &Signature,
    outer: &[Skeleton],
    store: &mut Store,
    meta: MetaId,
    value: Open,
) -> Result<bool, AllocError>
    requires { IsBound signature.now (map skeleton_of outer.now) store.old.now }
    ensures { IfOk result (λ b. IsTrue b → IsBound signature.now (map skeleton_of outer.now) store.new.now) }
{
    if !may_have(alloc, signature, outer, store, meta, &value)? {
        return Ok(false);
    }
    store.bind(meta, value)?;
    Ok(true)
}

/// Whether the metavariable may have the value: it has none, and the value has the skeleton of its type and mentions only other metavariables without a value.
fn may_have(
    alloc: Global,
    signature: &Signature,
    outer: &[Skeleton],
    store: &Store,
    meta: MetaId,
    value: &Open,
) -> Result<bool, AllocError>
    ensures { IfOk result (λ b. IsTrue b → MayHave signature.now (map skeleton_of outer.now) store.now.now meta.0 (open_term_of value.now)) }
{
    let free = has_no_value(store, meta);
    if !free {
        return Ok(false);
    }
    let others = mentions_others(store, meta, value);
    if !others {
        return Ok(false);
    }
    match store.about(meta) {
        Some((_, ty)) => has_type(alloc, value, ty, signature, store, outer),
        None => Ok(false),
    }
}

/// Whether the metavariable has no value.
fn has_no_value(store: &Store, meta: MetaId) -> bool
    ensures { IsTrue result → value_of store.now.now meta.0 ≡ None }
{
    match store.value(meta) {
        Some(_) => false,
        None => true,
    }
}

/// Whether the term has the skeleton of the type.
fn has_type(
    alloc: Global,
    value: &Open,
    ty: &OpenTy,
    signature: &Signature,
    store: &Store,
    outer: &[Skeleton],
) -> Result<bool, AllocError>
    ensures { IfOk result (λ b. IsTrue b → TermSkeleton (heads_of signature.now store.now.now) (map skeleton_of outer.now) (open_term_of value.now) (skeleton (open_type_of ty.now))) }
{
    let made = open_skeleton(alloc, ty)?;
    term_has(alloc, value, &made, signature, store, outer)
}

/// Whether the term mentions only metavariables that have no value, and not this one.
#[cycle(mentions)]
fn mentions_others(store: &Store, meta: MetaId, term: &Open) -> bool
    ensures { IsTrue result → MetavariablesIn (IsFree store.now.now meta.0) (open_term_of term.now) }
{
    match term {
        Open::Lam(body) => mentions_others(store, meta, body),
        Open::Root(OpenHead::Meta(other), spine) => {
            if other.0 == meta.0 {
                return false;
            }
            match store.value(*other) {
                Some(_) => false,
                None => spine_mentions_others(store, meta, spine),
            }
        }
        Open::Root(OpenHead::Const(_), spine) => spine_mentions_others(store, meta, spine),
        Open::Root(OpenHead::Var(_), spine) => spine_mentions_others(store, meta, spine),
    }
}

#[cycle(mentions)]
fn spine_mentions_others(store: &Store, meta: MetaId, spine: &OpenSpine) -> bool
    ensures { IsTrue result → MetavariablesInSpine (IsFree store.now.now meta.0) (open_spine_of spine.now) }
{
    for arg in &spine.args {
        if !mentions_others(store, meta, arg) {
            return false;
        }
    }
    true
}
