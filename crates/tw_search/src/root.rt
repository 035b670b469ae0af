//! The root of a search: the variables of the goal are metavariables, and the hole of the proof is one more.
ghost use Rattle.std.specs.Prelude.{◌≡◌, ◌∷◌, List, IfOk, OnOk, length};
ghost use Rattle.lf.specs.Syntax.{LfType};
ghost use Rattle.lf_search.specs.Goals.{spine_with_heads, type_with_heads, with_heads};
ghost use Rattle.tw_metas.specs.State.{empty_story};
ghost use Rattle.tw_terms.specs.OpenView.{open_head_of, open_spine_of, open_term_of, open_type_of};
ghost use Rattle.tw_terms.specs.View.{head_of, spine_of, term_of, type_of};
ghost use Rattle.tw_search.specs.Roots.{IsDeclaredAs, IsRoot, heads_at};

use std::alloc::{AllocError, Global};
use tw_metas::Store;
use tw_terms::numbers::one_more;
use tw_terms::{
    Context, Head, MetaId, Open, OpenContext, OpenHead, OpenSpine, OpenTy, Spine, Term, Ty,
};

/// Declares the variables of the goal, the outermost first, and the hole, which it gives.
pub(crate) fn declare_root(
    alloc: Global,
    store: &mut Store,
    variables: &Context,
    goal: &Ty,
) -> Result<MetaId, AllocError>
    requires { store.old ≡ empty_story }
    ensures root { IfOk result (λ m. IsRoot variables.now (type_of goal.now) store.new.now) }
    ensures hole { IfOk result (λ m. m.0 ≡ length variables.now) }
{
    let count = variables.len() as u64;
    let mut place = 0;
    while place < count {
        match variables.get(count - 1 - place) {
            Some(ty) => {
                declare(alloc, store, place, ty)?;
                place += 1;
            }
            None => unreachable!(),
        }
    }
    declare(alloc, store, count, goal)
}

/// Declares one more variable, which has so many outside of it.
fn declare(alloc: Global, store: &mut Store, count: u64, ty: &Ty) -> Result<MetaId, AllocError>
    ensures declared { OnOk result ((G : List LfType) → length G ≡ count → IsDeclaredAs G store.old.now → IsDeclaredAs (type_of ty.now ∷ G) store.new.now) }
    ensures number { IfOk result (λ m. m.0 ≡ length store.old.now.declared) }
{
    let over = type_over(alloc, count, 0, ty)?;
    store.fresh(OpenContext::new(alloc), over)
}

/// The type under so many binders, with metavariables for the variables outside of these, of which there are `count`.
fn type_over(alloc: Global, count: u64, binders: u64, ty: &Ty) -> Result<OpenTy, AllocError>
    ensures { IfOk result (λ a. open_type_of a ≡ type_with_heads (heads_at count binders) (type_of ty.now)) }
{
    match ty {
        Ty::Pi(domain, range) => {
            let inside = one_more(binders)?;
            let domain = type_over(alloc, count, binders, domain)?;
            let range = type_over(alloc, count, inside, range)?;
            Ok(OpenTy::Pi(Box::new(alloc, domain)?, Box::new(alloc, range)?))
        }
        Ty::Atom(family, spine) => {
            Ok(OpenTy::Atom(*family, spine_over(alloc, count, binders, spine)?))
        }
    }
}

/// The same of a term.
#[cycle(over)]
fn term_over(alloc: Global, count: u64, binders: u64, term: &Term) -> Result<Open, AllocError>
    ensures { IfOk result (λ m. open_term_of m ≡ with_heads (heads_at count binders) (term_of term.now)) }
{
    match term {
        Term::Lam(body) => {
            let inside = one_more(binders)?;
            let body = term_over(alloc, count, inside, body)?;
            Ok(Open::Lam(Box::new(alloc, body)?))
        }
        Term::Root(Head::Const(id), spine) => {
            let spine = spine_over(alloc, count, binders, spine)?;
            Ok(Open::Root(OpenHead::Const(*id), spine))
        }
        Term::Root(Head::Var(variable), spine) => {
            let spine = spine_over(alloc, count, binders, spine)?;
            Ok(Open::Root(variable_over(count, binders, *variable), spine))
        }
    }
}

/// The same of each argument.
#[cycle(over)]
fn spine_over(
    alloc: Global,
    count: u64,
    binders: u64,
    spine: &Spine,
) -> Result<OpenSpine, AllocError>
    ensures { IfOk result (λ s. open_spine_of s ≡ spine_with_heads (heads_at count binders) (spine_of spine.now)) }
{
    let mut args = Vec::with_capacity(alloc, spine.args.len())?;
    for arg in &spine.args {
        args.push(term_over(alloc, count, binders, arg)?)?;
    }
    Ok(OpenSpine { args })
}

/// The same of a variable.
fn variable_over(count: u64, binders: u64, variable: u64) -> OpenHead
    ensures { open_head_of result ≡ heads_at count binders variable }
{
    if variable < binders {
        return OpenHead::Var(variable);
    }
    let outside = variable - binders;
    if outside < count {
        OpenHead::Meta(MetaId(count - 1 - outside))
    } else {
        OpenHead::Var(variable - count)
    }
}
