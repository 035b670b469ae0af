//! Open terms against types.
ghost use Rattle.std.specs.Prelude.{◌≡◌, ◌∷◌, IfOk, IfSome};
ghost use Rattle.std.specs.Bool.{OnTrue};
ghost use Rattle.lf.specs.Entries.{signature_of, IsCanonicalSignature};
ghost use Rattle.lf.specs.Syntax.{pi};
ghost use Rattle.tw_terms.specs.OpenView.{open_spine_of, open_term_of, open_type_of};
ghost use Rattle.tw_putting.specs.Stores.{types_of};
ghost use Rattle.tests_ready.specs.Checked.{HasSkeletons, IsTyped, SpineIsTyped, Stands};

use crate::heads::head_type;
use std::alloc::{AllocError, Global};
use tw_metas::Store;
use tw_putting::instantiate;
use tw_signature::Signature;
use tw_terms::{Open, OpenContext, OpenSpine, OpenTy};

/// The context with one variable more.
pub fn inside(alloc: Global, context: &OpenContext, ty: &OpenTy) -> Result<OpenContext, AllocError>
    ensures { IfOk result (λ d. d ≡ open_type_of ty.now ∷ context.now) }
{
    let mut inner = context.copy(alloc)?;
    inner.push(ty.copy(alloc)?)?;
    Ok(inner)
}

/// The domain and the range of a function type.
fn parts(ty: OpenTy) -> Option<(OpenTy, OpenTy)>
    ensures { IfSome result (λ p. open_type_of ty ≡ pi (open_type_of p.0) (open_type_of p.1)) }
{
    match ty {
        OpenTy::Pi(domain, range) => Some((Box::into_inner(domain), Box::into_inner(range))),
        OpenTy::Atom(_, _) => None,
    }
}

/// Whether the term has the type. Only metavariables below `limit` may stand in it.
#[cycle(terms)]
pub fn has_type(
    alloc: Global,
    signature: &Signature,
    store: &Store,
    limit: u64,
    context: &OpenContext,
    term: &Open,
    ty: &OpenTy,
) -> Result<bool, AllocError>
    requires canonical { IsCanonicalSignature signature.now }
    requires stands { Stands (signature_of signature.now) (types_of store.now.now) limit context.now }
    requires ty { HasSkeletons (signature_of signature.now) (types_of store.now.now) context.now (open_type_of ty.now) }
    ensures { IfOk result (λ b. OnTrue b (IsTyped (signature_of signature.now) (types_of store.now.now) limit context.now (open_term_of term.now) (open_type_of ty.now))) }
{
    match (term, ty) {
        (Open::Lam(body), OpenTy::Pi(domain, range)) => {
            let inner = inside(alloc, context, domain)?;
            has_type(alloc, signature, store, limit, &inner, body, range)
        }
        (Open::Root(head, spine), OpenTy::Atom(_, _)) => {
            match head_type(alloc, signature, store, limit, context, *head)? {
                Some(function) => {
                    takes(alloc, signature, store, limit, context, function, spine, ty)
                }
                None => Ok(false),
            }
        }
        _ => Ok(false),
    }
}

/// Whether the arguments take the function type to the type.
#[cycle(terms)]
fn takes(
    alloc: Global,
    signature: &Signature,
    store: &Store,
    limit: u64,
    context: &OpenContext,
    function: OpenTy,
    spine: &OpenSpine,
    ty: &OpenTy,
) -> Result<bool, AllocError>
    requires canonical { IsCanonicalSignature signature.now }
    requires stands { Stands (signature_of signature.now) (types_of store.now.now) limit context.now }
    requires function { HasSkeletons (signature_of signature.now) (types_of store.now.now) context.now (open_type_of function) }
    ensures { IfOk result (λ b. OnTrue b (SpineIsTyped (signature_of signature.now) (types_of store.now.now) limit context.now (open_spine_of spine.now) (open_type_of function) (open_type_of ty.now))) }
{
    let mut rest = function;
    for arg in &spine.args {
        let Some((domain, range)) = parts(rest) else {
            return Ok(false);
        };
        if !has_type(alloc, signature, store, limit, context, arg, &domain)? {
            return Ok(false);
        }
        let Ok(left) = instantiate(alloc, &range, arg, &domain) else {
            return Err(AllocError);
        };
        rest = left;
    }
    Ok(rest.same(ty))
}
