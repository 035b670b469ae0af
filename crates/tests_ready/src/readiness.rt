//! Stores and equations that are ready to be solved.
ghost use Rattle.std.specs.Prelude.{◌≡◌, IfOk, IfSome, length, map};
ghost use Rattle.std.specs.Bool.{OnTrue};
ghost use Rattle.lf.specs.Entries.{signature_of, IsCanonicalSignature};
ghost use Rattle.tw_metas.specs.View.{equation_of};
ghost use Rattle.tw_terms.specs.OpenView.{open_type_of};
ghost use Rattle.tw_putting.specs.Stores.{types_of};
ghost use Rattle.tw_putting.specs.Ready.{IsReady};
ghost use Rattle.tests_ready.specs.Checked.{AreEquationsTyped, IsEquationTyped, IsNew, TypedBelow, declaration_of};

use crate::terms::has_type;
use crate::types::{is_context, is_type};
use std::alloc::{AllocError, Global};
use tw_metas::{Equation, Store};
use tw_signature::Signature;
use tw_terms::{MetaId, OpenContext, OpenTy};

/// A store with metavariables of these types, in order, in the empty context.
pub fn declared(alloc: Global, types: &[OpenTy]) -> Result<Store, AllocError>
    ensures new { IfOk result (λ s. IsNew s.now) }
    ensures types { IfOk result (λ s. s.now.declared ≡ map declaration_of types.now) }
{
    let mut store = Store::new(alloc);
    for ty in types {
        store.fresh(OpenContext::new(alloc), ty.copy(alloc)?)?;
    }
    Ok(store)
}

/// Whether the types of the metavariables and the equations are typed, so that they can be solved. The type of a metavariable may mention earlier ones only.
pub fn are_ready(
    alloc: Global,
    signature: &Signature,
    store: &Store,
    equations: &[Equation],
) -> Result<bool, AllocError>
    requires { IsNew store.now.now }
    ensures { IfOk result (λ b. OnTrue b (IsReady (signature_of signature.now) (map equation_of equations.now) store.now.now)) }
{
    signature.is_canonical();
    match typed_metavariables(alloc, signature, store)? {
        Some(count) => are_typed(alloc, signature, store, count, equations),
        None => Ok(false),
    }
}

/// How many metavariables there are, where the type of each is one that mentions earlier ones only.
fn typed_metavariables(
    alloc: Global,
    signature: &Signature,
    store: &Store,
) -> Result<Option<u64>, AllocError>
    requires { IsCanonicalSignature signature.now }
    ensures { IfOk result (λ r. IfSome r (λ n. (n ≡ length store.now.now.declared) × TypedBelow (signature_of signature.now) (types_of store.now.now) n)) }
{
    let empty = OpenContext::new(alloc);
    for next in 0..u64::MAX {
        match store.about(MetaId(next)) {
            None => return Ok(Some(next)),
            Some((_, ty)) => {
                if !is_type(alloc, signature, store, next, &empty, ty)? {
                    return Ok(None);
                }
            }
        }
    }
    Err(AllocError)
}

/// Whether each equation is typed.
fn are_typed(
    alloc: Global,
    signature: &Signature,
    store: &Store,
    count: u64,
    equations: &[Equation],
) -> Result<bool, AllocError>
    requires canonical { IsCanonicalSignature signature.now }
    requires below { TypedBelow (signature_of signature.now) (types_of store.now.now) count }
    ensures { IfOk result (λ b. OnTrue b (AreEquationsTyped (signature_of signature.now) (types_of store.now.now) (map equation_of equations.now))) }
{
    for equation in equations {
        if !is_typed(alloc, signature, store, count, equation)? {
            return Ok(false);
        }
    }
    Ok(true)
}

/// Whether the local context, the type and both sides are typed.
fn is_typed(
    alloc: Global,
    signature: &Signature,
    store: &Store,
    count: u64,
    equation: &Equation,
) -> Result<bool, AllocError>
    requires canonical { IsCanonicalSignature signature.now }
    requires below { TypedBelow (signature_of signature.now) (types_of store.now.now) count }
    ensures { IfOk result (λ b. OnTrue b (IsEquationTyped (signature_of signature.now) (types_of store.now.now) (equation_of equation.now))) }
{
    let context = &equation.context;
    let ty = &equation.ty;
    if !is_context(alloc, signature, store, count, context)? {
        return Ok(false);
    }
    if !is_type(alloc, signature, store, count, context, ty)? {
        return Ok(false);
    }
    if !has_type(alloc, signature, store, count, context, &equation.left, ty)? {
        return Ok(false);
    }
    has_type(alloc, signature, store, count, context, &equation.right, ty)
}
