//! A variable in place of the one that a lambda binds.
ghost use Rattle.std.specs.Prelude.{◌≡◌, IfOk};
ghost use Rattle.lf.specs.AtOnce.{lift_renaming_by};
ghost use Rattle.lf.specs.Syntax.{rename, rename_head, rename_spine, rename_type};
ghost use Rattle.lf.specs.Variables.{at_variable};
ghost use Rattle.tw_terms.specs.View.{head_of, spine_of, term_of, type_of};

use std::alloc::{AllocError, Global};
use tw_terms::numbers::one_more;
use tw_terms::{Head, Spine, Term, Ty};

/// The body of a lambda with this variable for the one that it binds. Fails where no context in memory is so long, too.
pub fn put_variable(alloc: Global, body: &Term, variable: u64) -> Result<Term, AllocError>
    ensures { IfOk result (λ m. term_of m ≡ rename (at_variable variable) (term_of body.now)) }
{
    put_in_term(alloc, body, variable, 0)
}

/// The same in the range of a type.
pub fn put_variable_in_type(alloc: Global, range: &Ty, variable: u64) -> Result<Ty, AllocError>
    ensures { IfOk result (λ a. type_of a ≡ rename_type (at_variable variable) (type_of range.now)) }
{
    put_in_type(alloc, range, variable, 0)
}

// The `under` newest variables stay.
fn put_in_type(alloc: Global, ty: &Ty, variable: u64, under: u64) -> Result<Ty, AllocError>
    ensures { IfOk result (λ a. type_of a ≡ rename_type (lift_renaming_by under (at_variable variable)) (type_of ty.now)) }
{
    match ty {
        Ty::Pi(domain, range) => {
            let inside = one_more(under)?;
            let domain = put_in_type(alloc, domain, variable, under)?;
            let range = put_in_type(alloc, range, variable, inside)?;
            Ok(Ty::Pi(Box::new(alloc, domain)?, Box::new(alloc, range)?))
        }
        Ty::Atom(family, spine) => {
            Ok(Ty::Atom(*family, put_in_spine(alloc, spine, variable, under)?))
        }
    }
}

#[cycle(put)]
fn put_in_term(alloc: Global, term: &Term, variable: u64, under: u64) -> Result<Term, AllocError>
    ensures { IfOk result (λ m. term_of m ≡ rename (lift_renaming_by under (at_variable variable)) (term_of term.now)) }
{
    match term {
        Term::Lam(body) => {
            let inside = one_more(under)?;
            let body = put_in_term(alloc, body, variable, inside)?;
            Ok(Term::Lam(Box::new(alloc, body)?))
        }
        Term::Root(head, spine) => {
            let spine = put_in_spine(alloc, spine, variable, under)?;
            Ok(Term::Root(put_in_head(*head, variable, under)?, spine))
        }
    }
}

#[cycle(put)]
fn put_in_spine(
    alloc: Global,
    spine: &Spine,
    variable: u64,
    under: u64,
) -> Result<Spine, AllocError>
    ensures { IfOk result (λ s. spine_of s ≡ rename_spine (lift_renaming_by under (at_variable variable)) (spine_of spine.now)) }
{
    let mut args = Vec::with_capacity(alloc, spine.args.len())?;
    for arg in &spine.args {
        args.push(put_in_term(alloc, arg, variable, under)?)?;
    }
    Ok(Spine { args })
}

/// The head with the variable put in. Fails where no context in memory is so long.
fn put_in_head(head: Head, variable: u64, under: u64) -> Result<Head, AllocError>
    ensures { IfOk result (λ h. head_of h ≡ rename_head (lift_renaming_by under (at_variable variable)) (head_of head)) }
{
    match head {
        Head::Const(id) => Ok(Head::Const(id)),
        Head::Var(own) => {
            if own < under {
                return Ok(Head::Var(own));
            }
            if own > under {
                return Ok(Head::Var(own - 1));
            }
            Ok(Head::Var(variable.checked_add(under).ok_or(AllocError)?))
        }
    }
}
