//! Metavariables numbered by their places in an order that grows.
ghost use Rattle.std.specs.Prelude.{◌≡◌, ◌+◌, IfOk, OnOk, MatchOption, Some, slice_get};
ghost use Rattle.lf.specs.Subordination.{Member};
ghost use Rattle.tw_terms.specs.OpenView.{open_head_of, open_term_of, open_spine_of, open_type_of};
ghost use Rattle.tw_unify.specs.Showing.{Grows, IsNumbered, IsNumberedHead, IsNumberedSpine, IsNumberedType, NeedsHead, NeedsSpine, NeedsTerm, NeedsType};

use std::alloc::{AllocError, Global};
use tw_terms::{MetaId, Open, OpenHead, OpenSpine, OpenTy};

/// The place of the metavariable in the order.
fn place_of(order: &[u64], meta: u64) -> Option<u64>
    ensures { MatchOption result (Member meta order.now → ⊥) (λ k. slice_get order.now k ≡ Some meta) }
{
    for (place, other) in order.iter().enumerate() {
        if *other == meta {
            return Some(place as u64);
        }
    }
    None
}

/// The number of the metavariable. A new one comes behind the others.
pub fn number(order: &mut Vec<u64>, meta: u64) -> Result<u64, AllocError>
    ensures place { IfOk result (λ k. slice_get order.new.items k ≡ Some meta) }
    ensures grown { OnOk result (Grows (Member meta) order.old.items order.new.items) }
{
    match place_of(order, meta) {
        Some(place) => Ok(place),
        None => {
            let place = order.len() as u64;
            order.push(meta)?;
            Ok(place)
        }
    }
}

/// The head with its number.
fn number_head(order: &mut Vec<u64>, head: OpenHead) -> Result<OpenHead, AllocError>
    ensures numbered { IfOk result (λ h. IsNumberedHead order.new.items (open_head_of head) (open_head_of h)) }
    ensures grown { OnOk result (Grows (NeedsHead (open_head_of head)) order.old.items order.new.items) }
{
    match head {
        OpenHead::Meta(meta) => Ok(OpenHead::Meta(MetaId(number(order, meta.0)?))),
        OpenHead::Const(_) | OpenHead::Var(_) => Ok(head),
    }
}

/// The term with its metavariables numbered.
#[cycle(number)]
pub fn number_term(alloc: Global, order: &mut Vec<u64>, term: &Open) -> Result<Open, AllocError>
    ensures numbered { IfOk result (λ n. IsNumbered order.new.items (open_term_of term.now) (open_term_of n)) }
    ensures grown { OnOk result (Grows (NeedsTerm (open_term_of term.now)) order.old.items order.new.items) }
{
    match term {
        Open::Lam(body) => {
            let body = number_term(alloc, order, body)?;
            Ok(Open::Lam(Box::new(alloc, body)?))
        }
        Open::Root(head, spine) => {
            let head = number_head(order, *head)?;
            let spine = number_spine(alloc, order, spine)?;
            Ok(Open::Root(head, spine))
        }
    }
}

/// The same of a spine.
#[cycle(number)]
fn number_spine(
    alloc: Global,
    order: &mut Vec<u64>,
    spine: &OpenSpine,
) -> Result<OpenSpine, AllocError>
    ensures numbered { IfOk result (λ t. IsNumberedSpine order.new.items (open_spine_of spine.now) (open_spine_of t)) }
    ensures grown { OnOk result (Grows (NeedsSpine (open_spine_of spine.now)) order.old.items order.new.items) }
{
    let mut args = Vec::with_capacity(alloc, spine.args.len())?;
    for arg in &spine.args {
        args.push(number_term(alloc, order, arg)?)?;
    }
    Ok(OpenSpine { args })
}

/// The same of a type.
pub fn number_type(alloc: Global, order: &mut Vec<u64>, ty: &OpenTy) -> Result<OpenTy, AllocError>
    ensures numbered { IfOk result (λ b. IsNumberedType order.new.items (open_type_of ty.now) (open_type_of b)) }
    ensures grown { OnOk result (Grows (NeedsType (open_type_of ty.now)) order.old.items order.new.items) }
{
    match ty {
        OpenTy::Pi(domain, range) => {
            let domain = number_type(alloc, order, domain)?;
            let range = number_type(alloc, order, range)?;
            Ok(OpenTy::Pi(Box::new(alloc, domain)?, Box::new(alloc, range)?))
        }
        OpenTy::Atom(family, spine) => {
            let spine = number_spine(alloc, order, spine)?;
            Ok(OpenTy::Atom(*family, spine))
        }
    }
}
