//! Types, terms, kinds and bodies closed over a context: the types of their free variables, as of the answer to a query.
ghost use Rattle.std.specs.Prelude.{◌≡◌, IfOk};
ghost use Rattle.lf.specs.Entries.{BodyIsTyped};
ghost use Rattle.lf.specs.Syntax.{kind_pi};
ghost use Rattle.lf.specs.Typing.{IsContext, Signature};
ghost use Rattle.lf_elaboration.specs.Kinds.{kind_over};
ghost use Rattle.lf_elaboration.specs.Principal.{BodyIsTypedIn, body_over};
ghost use Rattle.lf_unification.specs.Offering.{lambda_over, pi_over};
ghost use Rattle.tw_signature.specs.View.{body_of};
ghost use Rattle.tw_terms.specs.View.{kind_of, term_of, type_of};

use std::alloc::{AllocError, Global};
use tw_signature::Body;
use tw_terms::{Context, Kind, Term, Ty};

/// The body closed over its quantifiers. Where it is typed over them, it is typed so.
pub fn closed_body(alloc: Global, quantifiers: &Context, body: Body) -> Result<Body, AllocError>
    ensures closed { IfOk result (λ b. body_of b ≡ body_over quantifiers.now (body_of body)) }
    ensures typed { IfOk result (λ b. (Σ : Signature) → IsContext Σ quantifiers.now → BodyIsTypedIn Σ quantifiers.now (body_of body) → BodyIsTyped Σ (body_of b)) }
{
    match body {
        Body::Family(kind) => Ok(Body::Family(closed_kind(alloc, quantifiers, kind)?)),
        Body::Constant(ty) => Ok(Body::Constant(closed_type(alloc, quantifiers, ty)?)),
        Body::Defined { term, ty, abbrev } => Ok(Body::Defined {
            term: closed_term(alloc, quantifiers, term)?,
            ty: closed_type(alloc, quantifiers, ty)?,
            abbrev,
        }),
    }
}

/// The type under a quantifier for each variable of the context.
pub fn closed_type(alloc: Global, quantifiers: &Context, ty: Ty) -> Result<Ty, AllocError>
    ensures { IfOk result (λ a. type_of a ≡ pi_over quantifiers.now (type_of ty)) }
{
    let mut closed = ty;
    for variable in 0..quantifiers.len() as u64 {
        match quantifiers.get(variable) {
            Some(domain) => {
                let domain = Box::new(alloc, domain.copy(alloc)?)?;
                closed = Ty::Pi(domain, Box::new(alloc, closed)?);
            }
            None => unreachable!(),
        }
    }
    Ok(closed)
}

/// The kind under a quantifier for each.
pub fn closed_kind(alloc: Global, quantifiers: &Context, kind: Kind) -> Result<Kind, AllocError>
    ensures { IfOk result (λ k. kind_of k ≡ kind_over quantifiers.now (kind_of kind)) }
{
    let mut closed = kind;
    for variable in 0..quantifiers.len() as u64 {
        match quantifiers.get(variable) {
            Some(domain) => {
                let domain = Box::new(alloc, domain.copy(alloc)?)?;
                closed = Kind::Pi(domain, Box::new(alloc, closed)?);
            }
            None => unreachable!(),
        }
    }
    Ok(closed)
}

/// The term under a lambda for each.
pub fn closed_term(alloc: Global, quantifiers: &Context, term: Term) -> Result<Term, AllocError>
    ensures { IfOk result (λ m. term_of m ≡ lambda_over quantifiers.now (term_of term)) }
{
    let mut closed = term;
    for _ in 0..quantifiers.len() as u64 {
        closed = Term::Lam(Box::new(alloc, closed)?);
    }
    Ok(closed)
}
