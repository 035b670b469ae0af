//! Terms and types with the subgoals left out of their scope.
ghost use Rattle.std.specs.Prelude.{◌≡◌, ◌<◌, IfOk, get_or, length};
ghost use Rattle.lf.specs.AtOnce.{lift_renaming_by};
ghost use Rattle.lf.specs.Syntax.{rename, rename_head, rename_spine, rename_type};
ghost use Rattle.lf_unification.specs.Offering.{pi_over};
ghost use Rattle.tw_terms.specs.View.{head_of, term_of, spine_of, type_of};
ghost use Rattle.tw_clause.specs.Numbers.{numbering, renumber};
ghost use Rattle.tw_clause.specs.View.{subgoal_of};

use crate::clause::Subgoal;
use std::alloc::{AllocError, Global};
use tw_terms::numbers::one_more;
use tw_terms::{Context, Head, Spine, Term, Ty};

/// New numbers for the variables inside `level` quantifiers, where the scope is to be `count` variables and what stands outside. `before` has, for each number
/// of quantifiers, how many of so many are variables.
#[derive(Clone, Copy)]
pub struct Numbers<'a> {
    before: &'a [u64],
    level: u64,
    count: u64,
}

/// The numbers inside `level` quantifiers, where the scope is to be the variables among the first `inside` of them.
pub fn numbers_at<'a>(before: &'a [u64], level: usize, inside: usize) -> Numbers<'a>
    requires { inside < length before.now }
    ensures { numbering result ≡ renumber before.now level (get_or before.now inside 0) }
{
    Numbers {
        before,
        level: level as u64,
        count: before[inside],
    }
}

/// The new number of a variable: how many variables are newer. Fails where no context in memory is so long.
fn number(numbers: &Numbers, variable: u64) -> Result<u64, AllocError>
    ensures { IfOk result (λ n. n ≡ numbering numbers.now variable) }
{
    let place = numbers.level.saturating_sub(variable) as usize;
    let older = if place < numbers.before.len() {
        numbers.before[place]
    } else {
        0
    };
    let newer = numbers.count.saturating_sub(older);
    newer
        .checked_add(variable.saturating_sub(numbers.level))
        .ok_or(AllocError)
}

// The `under` newest variables stay.
pub fn renumber_type(
    alloc: Global,
    numbers: &Numbers,
    under: u64,
    ty: &Ty,
) -> Result<Ty, AllocError>
    ensures { IfOk result (λ a. type_of a ≡ rename_type (lift_renaming_by under (numbering numbers.now)) (type_of ty.now)) }
{
    match ty {
        Ty::Pi(domain, range) => {
            let inside = one_more(under)?;
            let domain = renumber_type(alloc, numbers, under, domain)?;
            let range = renumber_type(alloc, numbers, inside, range)?;
            Ok(Ty::Pi(Box::new(alloc, domain)?, Box::new(alloc, range)?))
        }
        Ty::Atom(family, spine) => {
            Ok(Ty::Atom(*family, renumber_spine(alloc, numbers, under, spine)?))
        }
    }
}

#[cycle(renumber)]
fn renumber_term(
    alloc: Global,
    numbers: &Numbers,
    under: u64,
    term: &Term,
) -> Result<Term, AllocError>
    ensures { IfOk result (λ m. term_of m ≡ rename (lift_renaming_by under (numbering numbers.now)) (term_of term.now)) }
{
    match term {
        Term::Lam(body) => {
            let inside = one_more(under)?;
            let body = renumber_term(alloc, numbers, inside, body)?;
            Ok(Term::Lam(Box::new(alloc, body)?))
        }
        Term::Root(head, spine) => {
            let spine = renumber_spine(alloc, numbers, under, spine)?;
            Ok(Term::Root(renumber_head(numbers, under, *head)?, spine))
        }
    }
}

#[cycle(renumber)]
pub fn renumber_spine(
    alloc: Global,
    numbers: &Numbers,
    under: u64,
    spine: &Spine,
) -> Result<Spine, AllocError>
    ensures { IfOk result (λ s. spine_of s ≡ rename_spine (lift_renaming_by under (numbering numbers.now)) (spine_of spine.now)) }
{
    let mut args = Vec::with_capacity(alloc, spine.args.len())?;
    for arg in &spine.args {
        args.push(renumber_term(alloc, numbers, under, arg)?)?;
    }
    Ok(Spine { args })
}

/// The head with its variables outside numbered anew. Fails where no context in memory is so long.
fn renumber_head(numbers: &Numbers, under: u64, head: Head) -> Result<Head, AllocError>
    ensures { IfOk result (λ h. head_of h ≡ rename_head (lift_renaming_by under (numbering numbers.now)) (head_of head)) }
{
    match head {
        Head::Const(id) => Ok(Head::Const(id)),
        Head::Var(variable) => {
            if variable < under {
                return Ok(Head::Var(variable));
            }
            let outside = number(numbers, variable - under)?;
            Ok(Head::Var(outside.checked_add(under).ok_or(AllocError)?))
        }
    }
}

/// A quantifier's type as a subgoal, with the new numbers.
pub fn subgoal(alloc: Global, numbers: &Numbers, ty: &Ty) -> Result<Subgoal, AllocError>
    ensures { IfOk result (λ g. subgoal_of g ≡ rename_type (numbering numbers.now) (type_of ty.now)) }
{
    let mut context = Context::new(alloc);
    let mut rest = ty;
    let mut under = 0;
    loop {
        match rest {
            Ty::Pi(domain, range) => {
                context.push(renumber_type(alloc, numbers, under, domain)?)?;
                under = one_more(under)?;
                rest = range;
            }
            Ty::Atom(family, spine) => {
                let args = renumber_spine(alloc, numbers, under, spine)?;
                return Ok(Subgoal {
                    context,
                    family: *family,
                    args,
                });
            }
        }
    }
}
