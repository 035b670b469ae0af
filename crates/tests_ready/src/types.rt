//! Open types and contexts.
ghost use Rattle.std.specs.Prelude.{◌≡◌, IfOk, Some};
ghost use Rattle.std.specs.Bool.{OnTrue};
ghost use Rattle.lf.specs.Entries.{signature_of, IsCanonicalSignature};
ghost use Rattle.tw_terms.specs.OpenView.{open_spine_of, open_type_of};
ghost use Rattle.tw_terms.specs.View.{kind_of};
ghost use Rattle.tw_putting.specs.Stores.{types_of};
ghost use Rattle.tests_ready.specs.Checked.{FitsKind, IsContextTyped, IsKindOf, IsTypeTyped, Stands, TypedBelow};

use crate::terms::{has_type, inside};
use std::alloc::{AllocError, Global};
use tw_metas::Store;
use tw_putting::open_type;
use tw_signature::Signature;
use tw_terms::{Kind, OpenContext, OpenSpine, OpenTy};

/// Whether the type is one in the context. Only metavariables below `limit` may stand in it.
pub fn is_type(
    alloc: Global,
    signature: &Signature,
    store: &Store,
    limit: u64,
    context: &OpenContext,
    ty: &OpenTy,
) -> Result<bool, AllocError>
    requires canonical { IsCanonicalSignature signature.now }
    requires stands { Stands (signature_of signature.now) (types_of store.now.now) limit context.now }
    ensures { IfOk result (λ b. OnTrue b (IsTypeTyped (signature_of signature.now) (types_of store.now.now) limit context.now (open_type_of ty.now))) }
{
    match ty {
        OpenTy::Pi(domain, range) => {
            if !is_type(alloc, signature, store, limit, context, domain)? {
                return Ok(false);
            }
            let inner = inside(alloc, context, domain)?;
            is_type(alloc, signature, store, limit, &inner, range)
        }
        OpenTy::Atom(family, spine) => match signature.family_kind(*family) {
            Some(kind) => fits_kind(alloc, signature, store, limit, context, kind, spine),
            None => Ok(false),
        },
    }
}

/// Whether the arguments take the kind of a family to `type`. No where it takes more than one.
fn fits_kind(
    alloc: Global,
    signature: &Signature,
    store: &Store,
    limit: u64,
    context: &OpenContext,
    kind: &Kind,
    spine: &OpenSpine,
) -> Result<bool, AllocError>
    requires canonical { IsCanonicalSignature signature.now }
    requires stands { Stands (signature_of signature.now) (types_of store.now.now) limit context.now }
    requires kind { IsKindOf (signature_of signature.now) (kind_of kind.now) }
    ensures { IfOk result (λ b. OnTrue b (FitsKind (signature_of signature.now) (types_of store.now.now) limit context.now (open_spine_of spine.now) (kind_of kind.now))) }
{
    match kind {
        Kind::Star => Ok(spine.args.is_empty()),
        Kind::Pi(domain, rest) => match (&**rest, spine.args.len()) {
            (Kind::Star, 1) => {
                let domain = open_type(alloc, domain)?;
                has_type(
                    alloc,
                    signature,
                    store,
                    limit,
                    context,
                    &spine.args[0],
                    &domain,
                )
            }
            _ => Ok(false),
        },
    }
}

/// Whether each type of the context is one in the variables outside it.
pub fn is_context(
    alloc: Global,
    signature: &Signature,
    store: &Store,
    limit: u64,
    context: &OpenContext,
) -> Result<bool, AllocError>
    requires canonical { IsCanonicalSignature signature.now }
    requires below { TypedBelow (signature_of signature.now) (types_of store.now.now) limit }
    ensures { IfOk result (λ b. OnTrue b (IsContextTyped (signature_of signature.now) (types_of store.now.now) context.now)) }
{
    let mut outer = OpenContext::new(alloc);
    let count = context.len() as u64;
    for place in 0..count {
        let ty = context.get(count - 1 - place).unwrap();
        if !is_type(alloc, signature, store, limit, &outer, ty)? {
            return Ok(false);
        }
        outer.push(ty.copy(alloc)?)?;
    }
    Ok(true)
}
