//! Closed terms and types as open ones, and the skeletons of open types.
ghost use Rattle.std.specs.Prelude.{◌≡◌, IfOk};
ghost use Rattle.lf.specs.Syntax.{skeleton};
ghost use Rattle.tw_terms.specs.OpenView.{open_head_of, open_term_of, open_spine_of, open_type_of};
ghost use Rattle.tw_terms.specs.View.{head_of, term_of, spine_of, type_of, skeleton_of};

use std::alloc::{AllocError, Global};
use tw_terms::{Head, Open, OpenHead, OpenSpine, OpenTy, Skeleton, Spine, Term, Ty};

/// The term as an open one. Fails only for want of memory.
#[cycle(opening)]
pub fn open_term(alloc: Global, term: &Term) -> Result<Open, AllocError>
    ensures { IfOk result (λ m. open_term_of m ≡ term_of term.now) }
{
    match term {
        Term::Lam(body) => Ok(Open::Lam(Box::new(alloc, open_term(alloc, body)?)?)),
        Term::Root(head, spine) => Ok(Open::Root(open_head(*head), open_spine(alloc, spine)?)),
    }
}

/// The same of a spine.
#[cycle(opening)]
pub fn open_spine(alloc: Global, spine: &Spine) -> Result<OpenSpine, AllocError>
    ensures { IfOk result (λ s. open_spine_of s ≡ spine_of spine.now) }
{
    let mut args = Vec::with_capacity(alloc, spine.args.len())?;
    for arg in &spine.args {
        args.push(open_term(alloc, arg)?)?;
    }
    Ok(OpenSpine { args })
}

/// The same of a type.
pub fn open_type(alloc: Global, ty: &Ty) -> Result<OpenTy, AllocError>
    ensures { IfOk result (λ a. open_type_of a ≡ type_of ty.now) }
{
    match ty {
        Ty::Pi(domain, range) => {
            let domain = Box::new(alloc, open_type(alloc, domain)?)?;
            Ok(OpenTy::Pi(domain, Box::new(alloc, open_type(alloc, range)?)?))
        }
        Ty::Atom(family, spine) => Ok(OpenTy::Atom(*family, open_spine(alloc, spine)?)),
    }
}

/// The same of a head.
fn open_head(head: Head) -> OpenHead
    ensures { open_head_of result ≡ head_of head }
{
    match head {
        Head::Const(constant) => OpenHead::Const(constant),
        Head::Var(variable) => OpenHead::Var(variable),
    }
}

/// The skeleton of an open type. Fails only for want of memory.
pub fn open_skeleton(alloc: Global, ty: &OpenTy) -> Result<Skeleton, AllocError>
    ensures { IfOk result (λ s. skeleton_of s ≡ skeleton (open_type_of ty.now)) }
{
    match ty {
        OpenTy::Pi(domain, range) => {
            let domain = Box::new(alloc, open_skeleton(alloc, domain)?)?;
            Ok(Skeleton::Arrow(domain, Box::new(alloc, open_skeleton(alloc, range)?)?))
        }
        OpenTy::Atom(family, _) => Ok(Skeleton::Base(*family)),
    }
}
