//! Lambdas, products and argument lists, and one binder more.
ghost use Rattle.std.specs.Prelude.{◌≡◌, ◌+◌, ◌++◌, ◌∷◌, [], IfOk};
ghost use Rattle.lf.specs.Syntax.{lambda as lambda_of, pi as pi_of};
ghost use Rattle.tw_terms.specs.OpenView.{open_term_of, open_type_of};

use std::alloc::{AllocError, Global};
use tw_terms::{Open, OpenTy};

/// One binder more. Fails where no context in memory is so long.
pub fn one_more(binders: u64) -> Result<u64, AllocError>
    ensures { IfOk result (λ n. n ≡ binders + 1) }
{
    binders.checked_add(1).ok_or(AllocError)
}

/// A lambda over the body.
pub fn lambda(alloc: Global, body: Open) -> Result<Open, AllocError>
    ensures { IfOk result (λ m. open_term_of m ≡ lambda_of (open_term_of body)) }
{
    Ok(Open::Lam(Box::new(alloc, body)?))
}

/// The product of a domain and a range.
pub fn pi(alloc: Global, domain: OpenTy, range: OpenTy) -> Result<OpenTy, AllocError>
    ensures { IfOk result (λ a. open_type_of a ≡ pi_of (open_type_of domain) (open_type_of range)) }
{
    let domain = Box::new(alloc, domain)?;
    Ok(OpenTy::Pi(domain, Box::new(alloc, range)?))
}

/// One more argument at the end.
pub fn push(args: &mut Vec<Open>, arg: Open) -> Result<(), AllocError>
    ensures { IfOk result (λ _. args.new.items ≡ args.old.items ++ arg ∷ []) }
{
    Ok(args.push(arg)?)
}
