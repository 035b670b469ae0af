//! Eta-long variables, and lambdas, at the skeleton of a type.
ghost use Rattle.std.specs.Prelude.{◌≡◌, IfOk, ◌+◌};
ghost use Rattle.lf.specs.Eta.{append, arity as arity_of, eta_arguments};
ghost use Rattle.lf.specs.Syntax.{skeleton};
ghost use Rattle.tw_terms.specs.OpenView.{open_term_of, open_args_of, open_type_of};
ghost use Rattle.lf_unification.specs.Patterns.{eta_variable, lambdas_of};

use std::alloc::{AllocError, Global};
use tw_terms::{Open, OpenHead, OpenSpine, OpenTy};

/// The body under a lambda for each argument that a term of the type takes.
pub fn lambdas_over(alloc: Global, ty: &OpenTy, body: Open) -> Result<Open, AllocError>
    ensures { IfOk result (λ m. open_term_of m ≡ lambdas_of (skeleton (open_type_of ty.now)) (open_term_of body)) }
{
    let mut term = body;
    let mut rest = ty;
    while let OpenTy::Pi(_, range) = rest {
        term = Open::Lam(Box::new(alloc, term)?);
        rest = range;
    }
    Ok(term)
}

/// How many arguments a term of the type takes. Fails where no type in memory takes so many.
pub fn arity(ty: &OpenTy) -> Result<u64, AllocError>
    ensures { IfOk result (λ n. n ≡ arity_of (skeleton (open_type_of ty.now))) }
{
    let mut count: u64 = 0;
    let mut rest = ty;
    while let OpenTy::Pi(_, range) = rest {
        count = count.checked_add(1).ok_or(AllocError)?;
        rest = range;
    }
    Ok(count)
}

/// The eta-long form of a variable of the type.
#[cycle(eta)]
pub fn expand_variable(alloc: Global, ty: &OpenTy, variable: u64) -> Result<Open, AllocError>
    ensures { IfOk result (λ m. open_term_of m ≡ eta_variable (skeleton (open_type_of ty.now)) variable) }
{
    let count = arity(ty)?;
    let mut args = Vec::new(alloc);
    push_newest(alloc, ty, count, &mut args)?;
    let head = OpenHead::Var(moved(variable, count)?);
    lambdas_over(alloc, ty, Open::Root(head, OpenSpine { args }))
}

/// Adds the eta-long forms of the variables that the leading lambdas of a term of the type bind, which are `count`.
#[cycle(eta)]
pub fn push_newest(
    alloc: Global,
    ty: &OpenTy,
    count: u64,
    args: &mut Vec<Open>,
) -> Result<(), AllocError>
    requires { count ≡ arity_of (skeleton (open_type_of ty.now)) }
    ensures { IfOk result (λ _. open_args_of args.new.items ≡ append (open_args_of args.old.items) (eta_arguments (skeleton (open_type_of ty.now)))) }
{
    match ty {
        OpenTy::Pi(domain, range) => {
            args.push(expand_variable(alloc, domain, count - 1)?)?;
            push_newest(alloc, range, count - 1, args)
        }
        OpenTy::Atom(_, _) => Ok(()),
    }
}

/// The variable under so many more binders. Fails where no context in memory is so long.
fn moved(variable: u64, binders: u64) -> Result<u64, AllocError>
    ensures { IfOk result (λ v. v ≡ variable + binders) }
{
    variable.checked_add(binders).ok_or(AllocError)
}
