//! Values put into a term as far as its head.
ghost use Rattle.std.specs.Prelude.{◌≡◌, ◌<◌, ℕ, IfOk, IfSome, IsErrOf, MatchOption};
ghost use Rattle.lf.specs.AtOnce.{shift_by};
ghost use Rattle.lf.specs.Depth.{depth, depth_limit};
ghost use Rattle.lf.specs.Substitution.{reduce};
ghost use Rattle.lf.specs.Syntax.{metavariable, nil, rename, root, skeleton};
ghost use Rattle.tw_terms.specs.OpenView.{open_spine_of, open_term_of, open_type_of};
ghost use Rattle.tw_putting.specs.Fits.{PutFits};
ghost use Rattle.tw_putting.specs.Unfolding.{AppliesUnder, BecomesConstant, HeadStays, Unfolds, UnfoldsDeep, UnfoldsTo};

use crate::environment::{Closure, Environment, placed};
use crate::head::enter;
use crate::normal::normal_term;
use bumpalo::Bump;
use std::alloc::Global;
use tw_hered::HeredFault;
use tw_metas::Store;
use tw_terms::{ConstId, MetaId, Open, OpenHead, OpenSpine, OpenTy};

/// The greatest depth of a result.
const DEPTH_LIMIT: u64 = 4_096;

/// The term with values put in as far as its head: it is a lambda then, or its head has no value. A term that is so already is handed back as it is. The values stand
/// outside the `binders` newest variables of the term.
///
/// Answers `TooDeep` only where what the term becomes so is deeper than 4,096, and `NoMemory` where memory is wanting.
pub fn unfold(alloc: Global, store: &Store, binders: u64, term: Open) -> Result<Open, HeredFault>
    requires { PutFits store.now.now binders (open_term_of term) }
    ensures ok { IfOk result (λ m. Unfolds store.now.now binders (open_term_of term) (open_term_of m)) }
    ensures too_deep { IsErrOf result HeredFault.TooDeep → UnfoldsDeep store.now.now binders (open_term_of term) }
{
    let mut here = term;
    for _ in 0..u64::MAX {
        match unfold_once(alloc, store, binders, &here) {
            Ok(Some(next)) => here = next,
            Ok(None) => return Ok(here),
            Err(fault) => return Err(fault),
        }
    }
    // Each turn puts one value in; no measure of the values is counted, so the turns are.
    Err(HeredFault::NoMemory)
}

/// The constant that is the head of the term with values put in as far as the head, where only metavariables without arguments stand before it. None where it isn't seen so: where a lambda, a
/// variable, a metavariable on arguments or one without a value is met. It takes no memory.
pub fn constant_head(store: &Store, term: &Open) -> Option<ConstId>
    ensures { IfSome result (λ c. (k : ℕ) → PutFits store.now.now k (open_term_of term.now) → BecomesConstant store.now.now k (open_term_of term.now) c.0) }
{
    match term {
        Open::Root(OpenHead::Const(constant), _) => Some(*constant),
        Open::Root(OpenHead::Meta(meta), spine) => {
            if spine.args.is_empty() {
                constant_value(store, *meta)
            } else {
                None
            }
        }
        Open::Root(OpenHead::Var(_), _) => None,
        Open::Lam(_) => None,
    }
}

/// The same of a metavariable without arguments.
fn constant_value(store: &Store, meta: MetaId) -> Option<ConstId>
    ensures { IfSome result (λ c. (k : ℕ) → PutFits store.now.now k (root (metavariable meta.0) nil) → BecomesConstant store.now.now k (root (metavariable meta.0) nil) c.0) }
{
    let mut here = meta;
    for _ in 0..u64::MAX {
        match store.value(here) {
            None => return None,
            Some(value) => match value {
                Open::Root(OpenHead::Const(constant), _) => return Some(*constant),
                Open::Root(OpenHead::Meta(next), spine) => {
                    if !spine.args.is_empty() {
                        return None;
                    }
                    here = *next;
                }
                _ => return None,
            },
        }
    }
    None
}

/// The term with the value of its head in the place of the head. None where the head has no value.
fn unfold_once(
    alloc: Global,
    store: &Store,
    binders: u64,
    term: &Open,
) -> Result<Option<Open>, HeredFault>
    requires { PutFits store.now.now binders (open_term_of term.now) }
    ensures ok { IfOk result (λ r. MatchOption r (HeadStays store.now.now (open_term_of term.now)) (λ m. UnfoldsTo store.now.now binders (open_term_of term.now) (open_term_of m))) }
    ensures too_deep { IsErrOf result HeredFault.TooDeep → UnfoldsDeep store.now.now binders (open_term_of term.now) }
{
    match term {
        Open::Root(OpenHead::Meta(meta), spine) => match store.value(*meta) {
            Some(value) => match store.about(*meta) {
                Some((_, ty)) => match value_under(alloc, binders, value, spine, ty) {
                    Ok(applied) => Ok(Some(applied)),
                    Err(fault) => Err(fault),
                },
                None => unreachable!(),
            },
            None => Ok(None),
        },
        Open::Root(OpenHead::Const(_), _) => Ok(None),
        Open::Root(OpenHead::Var(_), _) => Ok(None),
        Open::Lam(_) => Ok(None),
    }
}

/// The canonical form of `value`, of the skeleton of `ty`, moved over so many binders and applied to all the arguments that it takes. Metavariables stay. Where it is moved over none and takes
/// none, it is copied.
fn value_under(
    alloc: Global,
    binders: u64,
    value: &Open,
    spine: &OpenSpine,
    ty: &OpenTy,
) -> Result<Open, HeredFault>
    requires { AppliesUnder binders (skeleton (open_type_of ty.now)) (open_term_of value.now) (open_spine_of spine.now) }
    ensures ok { IfOk result (λ m. open_term_of m ≡ reduce (skeleton (open_type_of ty.now)) (rename (shift_by binders) (open_term_of value.now)) (open_spine_of spine.now)) }
    ensures too_deep { IsErrOf result HeredFault.TooDeep → depth_limit < depth (reduce (skeleton (open_type_of ty.now)) (rename (shift_by binders) (open_term_of value.now)) (open_spine_of spine.now)) }
{
    if binders == 0 && spine.args.is_empty() {
        copied(alloc, value)
    } else {
        apply_under(alloc, binders, value, spine, ty)
    }
}

/// A copy of the value. Answers `TooDeep` only where it is deeper than 4,096.
fn copied(alloc: Global, value: &Open) -> Result<Open, HeredFault>
    ensures ok { IfOk result (λ m. open_term_of m ≡ open_term_of value.now) }
    ensures too_deep { IsErrOf result HeredFault.TooDeep → depth_limit < depth (open_term_of value.now) }
{
    if value.depth() as u64 > DEPTH_LIMIT {
        return Err(HeredFault::TooDeep);
    }
    Ok(value.copy(alloc)?)
}

/// The same with an environment.
fn apply_under(
    alloc: Global,
    binders: u64,
    value: &Open,
    spine: &OpenSpine,
    ty: &OpenTy,
) -> Result<Open, HeredFault>
    requires { AppliesUnder binders (skeleton (open_type_of ty.now)) (open_term_of value.now) (open_spine_of spine.now) }
    ensures ok { IfOk result (λ m. open_term_of m ≡ reduce (skeleton (open_type_of ty.now)) (rename (shift_by binders) (open_term_of value.now)) (open_spine_of spine.now)) }
    ensures too_deep { IsErrOf result HeredFault.TooDeep → depth_limit < depth (reduce (skeleton (open_type_of ty.now)) (rename (shift_by binders) (open_term_of value.now)) (open_spine_of spine.now)) }
{
    let arena = Bump::new(alloc);
    let empty = Store::new(alloc);
    let outside = placed(&arena, Environment::Outside)?;
    let closure = Closure {
        ty,
        term: value,
        scope: outside,
        binders,
    };
    let entered = enter(&arena, closure, &spine.args, outside)?;
    normal_term(
        alloc,
        &arena,
        &empty,
        0,
        entered.body,
        entered.environment,
        DEPTH_LIMIT,
    )
}
