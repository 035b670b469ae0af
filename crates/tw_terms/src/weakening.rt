//! Types moved over variables that stand inside their context.
ghost use Rattle.std.specs.Prelude.{◌≡◌, suc, IfOk};
ghost use Rattle.lf.specs.AtOnce.{lift_renaming_by, shift_by};
ghost use Rattle.lf.specs.Syntax.{rename_head, rename, rename_spine, rename_type};
ghost use Rattle.tw_terms.specs.View.{head_of, term_of, spine_of, type_of};

use crate::canonical::{Head, Spine, Term, Ty};
use crate::numbers::one_more;
use std::alloc::{AllocError, Global};

/// The type where `by` more variables stand inside its context. Fails where no context in memory is so long, too.
pub fn weaken(alloc: Global, ty: &Ty, by: u64) -> Result<Ty, AllocError>
    ensures { IfOk result (λ a. type_of a ≡ rename_type (shift_by by) (type_of ty.now)) }
{
    weaken_type(alloc, ty, by, 0)
}

// The `under` newest variables stay.
fn weaken_type(alloc: Global, ty: &Ty, by: u64, under: u64) -> Result<Ty, AllocError>
    ensures { IfOk result (λ a. type_of a ≡ rename_type (lift_renaming_by under (shift_by by)) (type_of ty.now)) }
{
    match ty {
        Ty::Pi(domain, range) => {
            let inside = one_more(under)?;
            let domain = weaken_type(alloc, domain, by, under)?;
            let range = weaken_type(alloc, range, by, inside)?;
            Ok(Ty::Pi(Box::new(alloc, domain)?, Box::new(alloc, range)?))
        }
        Ty::Atom(family, spine) => { Ok(Ty::Atom(*family, weaken_spine(alloc, spine, by, under)?)) }
    }
}

#[cycle(weaken)]
fn weaken_term(alloc: Global, term: &Term, by: u64, under: u64) -> Result<Term, AllocError>
    ensures { IfOk result (λ m. term_of m ≡ rename (lift_renaming_by under (shift_by by)) (term_of term.now)) }
{
    match term {
        Term::Lam(body) => {
            let inside = one_more(under)?;
            let body = weaken_term(alloc, body, by, inside)?;
            Ok(Term::Lam(Box::new(alloc, body)?))
        }
        Term::Root(head, spine) => {
            let spine = weaken_spine(alloc, spine, by, under)?;
            Ok(Term::Root(weaken_head(*head, by, under)?, spine))
        }
    }
}

#[cycle(weaken)]
fn weaken_spine(alloc: Global, spine: &Spine, by: u64, under: u64) -> Result<Spine, AllocError>
    ensures { IfOk result (λ s. spine_of s ≡ rename_spine (lift_renaming_by under (shift_by by)) (spine_of spine.now)) }
{
    let mut args = Vec::with_capacity(alloc, spine.args.len())?;
    for arg in &spine.args {
        args.push(weaken_term(alloc, arg, by, under)?)?;
    }
    Ok(Spine { args })
}

/// The head under so many more variables. Fails where no context in memory is so long.
fn weaken_head(head: Head, by: u64, under: u64) -> Result<Head, AllocError>
    ensures { IfOk result (λ h. head_of h ≡ rename_head (lift_renaming_by under (shift_by by)) (head_of head)) }
{
    match head {
        Head::Const(id) => Ok(Head::Const(id)),
        Head::Var(variable) => {
            if variable < under {
                return Ok(Head::Var(variable));
            }
            Ok(Head::Var(variable.checked_add(by).ok_or(AllocError)?))
        }
    }
}
