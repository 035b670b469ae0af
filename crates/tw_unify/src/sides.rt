//! The sides of an equation, with the bindings put in.
ghost use Rattle.std.specs.Prelude.{MatchBool, MatchResult};
ghost use Rattle.std.specs.Bool.{OnTrue};
ghost use Rattle.lf_unification.specs.Putting.{IsRigidHead};
ghost use Rattle.tw_terms.specs.OpenView.{open_head_of, open_term_of};
ghost use Rattle.tw_metas.specs.View.{equation_of};
ghost use Rattle.tw_putting.specs.Fits.{PutFits};
ghost use Rattle.tw_putting.specs.Stores.{Puts, ValuesAreBound};
ghost use Rattle.tw_unify.specs.Sides.{BecomeApart, BlamesDepth, BlamesSide, BlamesUnfolding, HaveShape, HeadsHaveShape, IsMetavariable, PutsAll, PutsBoth, SidesCanTake, UnfoldsBoth};

use crate::fault::UnifyFault;
use std::alloc::Global;
use tw_metas::{Equation, Store};
use tw_putting::{constant_head, is_all_in, put_in, unfold};
use tw_terms::{Open, OpenHead};

/// How the two sides of an equation begin.
#[derive(Clone, Copy, PartialEq, Eq, Debug)]
pub enum Shape {
    /// Both are lambdas.
    Lambdas,
    /// Both have the same constant or variable as their head.
    Alike,
    /// Their heads are constants or variables, and differ.
    Apart,
    /// A metavariable is the head of one of them.
    Flexible,
    /// A lambda and no lambda. Typed sides are never so.
    Mixed,
}

/// How the sides begin.
pub fn shape_of(left: &Open, right: &Open) -> Shape
    ensures { HaveShape (open_term_of left.now) (open_term_of right.now) result }
{
    match (left, right) {
        (Open::Lam(_), Open::Lam(_)) => Shape::Lambdas,
        (Open::Root(head, _), Open::Root(other, _)) => heads(*head, *other),
        _ => Shape::Mixed,
    }
}

/// The same of two roots.
fn heads(head: OpenHead, other: OpenHead) -> Shape
    ensures { HeadsHaveShape (open_head_of head) (open_head_of other) result }
{
    if is_meta(head) || is_meta(other) {
        Shape::Flexible
    } else if head.same(other) {
        Shape::Alike
    } else {
        Shape::Apart
    }
}

/// Whether the head is a metavariable.
fn is_meta(head: OpenHead) -> bool
    ensures { MatchBool result (IsMetavariable (open_head_of head)) (IsRigidHead (open_head_of head)) }
{
    match head {
        OpenHead::Meta(_) => true,
        OpenHead::Const(_) | OpenHead::Var(_) => false,
    }
}

/// Whether the heads of the sides, with values put in as far as these, are seen to be different constants. It takes no memory.
pub fn are_apart(store: &Store, equation: &Equation) -> bool
    requires { SidesCanTake store.now.now (equation_of equation.now) }
    ensures { OnTrue result (BecomeApart store.now.now (equation_of equation.now)) }
{
    match (
        constant_head(store, &equation.left),
        constant_head(store, &equation.right),
    ) {
        (Some(left), Some(right)) => left.0 != right.0,
        _ => false,
    }
}

/// The equation with values put into its sides as far as their heads. `TooDeep` only where what a side becomes so is deep.
pub fn unfold_sides(
    alloc: Global,
    store: &Store,
    equation: Equation,
) -> Result<Equation, UnifyFault>
    requires { SidesCanTake store.now.now (equation_of equation) }
    ensures { MatchResult result (λ e. UnfoldsBoth store.now.now (equation_of equation) (equation_of e)) (λ f. BlamesUnfolding f store.now.now (equation_of equation)) }
{
    let binders = equation.context.len() as u64;
    let left = unfold(alloc, store, binders, equation.left)?;
    let right = unfold(alloc, store, binders, equation.right)?;
    Ok(Equation {
        context: equation.context,
        left,
        right,
        ty: equation.ty,
    })
}

/// The equation with the bindings put into its sides. `TooDeep` only where a side is deep then.
pub fn put_both(alloc: Global, store: &Store, equation: Equation) -> Result<Equation, UnifyFault>
    requires fits { SidesCanTake store.now.now (equation_of equation) }
    requires bound { ValuesAreBound store.now.now }
    ensures { MatchResult result (λ e. PutsAll store.now.now (equation_of equation) (equation_of e)) (λ f. BlamesDepth f store.now.now (equation_of equation)) }
{
    let binders = equation.context.len() as u64;
    let left = put_side(alloc, store, binders, equation.left)?;
    let right = put_side(alloc, store, binders, equation.right)?;
    Ok(Equation {
        context: equation.context,
        left,
        right,
        ty: equation.ty,
    })
}

/// Both sides with the bindings put in. `TooDeep` only where a side is deep then.
pub fn put_sides(
    alloc: Global,
    store: &Store,
    equation: &Equation,
) -> Result<(Open, Open), UnifyFault>
    requires { SidesCanTake store.now.now (equation_of equation.now) }
    ensures { MatchResult result (λ p. PutsBoth store.now.now (equation_of equation.now) (open_term_of p.0) (open_term_of p.1)) (λ f. BlamesDepth f store.now.now (equation_of equation.now)) }
{
    let binders = equation.context.len() as u64;
    let left = put_in(alloc, store, binders, &equation.left)?;
    let right = put_in(alloc, store, binders, &equation.right)?;
    Ok((left, right))
}

/// A side with the bindings put in. It stays as it is where there is nothing to put in. `TooDeep` only where it is deep then.
fn put_side(alloc: Global, store: &Store, binders: u64, side: Open) -> Result<Open, UnifyFault>
    requires fits { PutFits store.now.now binders (open_term_of side) }
    requires bound { ValuesAreBound store.now.now }
    ensures { MatchResult result (λ m. Puts store.now.now binders (open_term_of side) (open_term_of m)) (λ f. BlamesSide f store.now.now binders (open_term_of side)) }
{
    if is_all_in(store, &side) {
        return Ok(side);
    }
    Ok(put_in(alloc, store, binders, &side)?)
}
