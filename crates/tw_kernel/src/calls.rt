//! The calls of the kernel.
ghost use Rattle.std.specs.Prelude.{◌≡◌, IfOk};
ghost use Rattle.lf.specs.DeepTyping.{TypingReachesDeep, TypeReachesDeep, KindReachesDeep, ContextReachesDeep};
ghost use Rattle.lf.specs.Depth.{depth_limit};
ghost use Rattle.lf.specs.Entries.{signature_of, IsCanonicalSignature};
ghost use Rattle.lf.specs.Typing.{HasType, IsType, IsKind, IsContext};
ghost use Rattle.tw_terms.specs.View.{term_of, type_of, kind_of};
ghost use Rattle.tw_kernel.specs.Outcome.{Decides};
ghost use Rattle.tw_kernel.specs.Verdicts.{verdict_of};

use crate::fault::Fault;
use crate::terms::has_type;
use crate::types::{is_kind, is_type};
use std::alloc::{AllocError, Global};
use tw_signature::Signature;
use tw_terms::{Context, DEPTH_LIMIT, Kind, Term, Ty};

/// What is known of a judgement of LF typing.
#[derive(Clone, Copy, PartialEq, Eq, Debug)]
pub enum Verdict {
    /// It holds.
    Typed,
    /// It does not hold.
    IllTyped,
    /// A term deeper than 4,096 stands in its derivation or, where there is none, in what the rules reach before the first fault.
    TooDeep,
}

/// Whether each type of the context is a type in the part before it. Fails only for want of memory.
pub fn check_context(
    alloc: Global,
    signature: &Signature,
    context: &Context,
) -> Result<Verdict, AllocError>
    ensures typed { IfOk result (λ v. v ≡ Verdict.Typed → IsContext (signature_of signature.now) context.now) }
    ensures ill_typed { IfOk result (λ v. v ≡ Verdict.IllTyped → IsContext (signature_of signature.now) context.now → ⊥) }
    ensures too_deep { IfOk result (λ v. v ≡ Verdict.TooDeep → ContextReachesDeep depth_limit (signature_of signature.now) context.now) }
{
    signature.is_canonical();
    answer(is_context(alloc, signature, context))
}

/// Whether the kind is one in this context. Fails only for want of memory.
pub fn check_kind(
    alloc: Global,
    signature: &Signature,
    context: &Context,
    kind: &Kind,
) -> Result<Verdict, AllocError>
    requires { IsContext (signature_of signature.now) context.now }
    ensures typed { IfOk result (λ v. v ≡ Verdict.Typed → IsKind (signature_of signature.now) context.now (kind_of kind.now)) }
    ensures ill_typed { IfOk result (λ v. v ≡ Verdict.IllTyped → IsKind (signature_of signature.now) context.now (kind_of kind.now) → ⊥) }
    ensures too_deep { IfOk result (λ v. v ≡ Verdict.TooDeep → KindReachesDeep depth_limit (signature_of signature.now) context.now (kind_of kind.now)) }
{
    signature.is_canonical();
    if kind.depth() > DEPTH_LIMIT {
        return Ok(Verdict::TooDeep);
    }
    let mut inner = Context::new(alloc);
    answer(is_kind(alloc, signature, context, &mut inner, kind))
}

/// Whether the type is one in this context. Fails only for want of memory.
pub fn check_type(
    alloc: Global,
    signature: &Signature,
    context: &Context,
    ty: &Ty,
) -> Result<Verdict, AllocError>
    requires { IsContext (signature_of signature.now) context.now }
    ensures typed { IfOk result (λ v. v ≡ Verdict.Typed → IsType (signature_of signature.now) context.now (type_of ty.now)) }
    ensures ill_typed { IfOk result (λ v. v ≡ Verdict.IllTyped → IsType (signature_of signature.now) context.now (type_of ty.now) → ⊥) }
    ensures too_deep { IfOk result (λ v. v ≡ Verdict.TooDeep → TypeReachesDeep depth_limit (signature_of signature.now) context.now (type_of ty.now)) }
{
    signature.is_canonical();
    if ty.depth() > DEPTH_LIMIT {
        return Ok(Verdict::TooDeep);
    }
    answer(is_type_in(alloc, signature, context, ty))
}

/// Whether the term has the type in this context. Fails only for want of memory.
pub fn check_term(
    alloc: Global,
    signature: &Signature,
    context: &Context,
    term: &Term,
    ty: &Ty,
) -> Result<Verdict, AllocError>
    requires context { IsContext (signature_of signature.now) context.now }
    requires ty { IsType (signature_of signature.now) context.now (type_of ty.now) }
    ensures typed { IfOk result (λ v. v ≡ Verdict.Typed → HasType (signature_of signature.now) context.now (term_of term.now) (type_of ty.now)) }
    ensures ill_typed { IfOk result (λ v. v ≡ Verdict.IllTyped → HasType (signature_of signature.now) context.now (term_of term.now) (type_of ty.now) → ⊥) }
    ensures too_deep { IfOk result (λ v. v ≡ Verdict.TooDeep → TypingReachesDeep depth_limit (signature_of signature.now) context.now (term_of term.now) (type_of ty.now)) }
{
    signature.is_canonical();
    if term.depth() > DEPTH_LIMIT {
        return Ok(Verdict::TooDeep);
    }
    if ty.depth() > DEPTH_LIMIT {
        return Ok(Verdict::TooDeep);
    }
    let mut inner = Context::new(alloc);
    answer(has_type(alloc, signature, context, &mut inner, term, ty))
}

fn is_context(alloc: Global, signature: &Signature, context: &Context) -> Result<(), Fault>
    requires { IsCanonicalSignature signature.now }
    ensures { Decides result (IsContext (signature_of signature.now) context.now) (ContextReachesDeep depth_limit (signature_of signature.now) context.now) }
{
    let mut outer = Context::new(alloc);
    let count = context.len() as u64;
    for place in 0..count {
        let ty = context.get(count - 1 - place).unwrap();
        if ty.depth() > DEPTH_LIMIT {
            return Err(Fault::TooDeep);
        }
        is_type_in(alloc, signature, &outer, ty)?;
        outer.push(ty.copy(alloc)?)?;
    }
    Ok(())
}

/// Whether the type is one in this context.
fn is_type_in(alloc: Global, signature: &Signature, context: &Context, ty: &Ty) -> Result<(), Fault>
    requires canonical { IsCanonicalSignature signature.now }
    requires context { IsContext (signature_of signature.now) context.now }
    ensures { Decides result (IsType (signature_of signature.now) context.now (type_of ty.now)) (TypeReachesDeep depth_limit (signature_of signature.now) context.now (type_of ty.now)) }
{
    let mut inner = Context::new(alloc);
    is_type(alloc, signature, context, &mut inner, ty)
}

fn answer(outcome: Result<(), Fault>) -> Result<Verdict, AllocError>
    ensures { result ≡ verdict_of outcome }
{
    match outcome {
        Ok(()) => Ok(Verdict::Typed),
        Err(Fault::IllTyped) => Ok(Verdict::IllTyped),
        Err(Fault::TooDeep) => Ok(Verdict::TooDeep),
        Err(Fault::NoMemory) => Err(AllocError),
    }
}
