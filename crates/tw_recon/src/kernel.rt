//! The kernel's yes.
ghost use Rattle.std.specs.Prelude.{◌≡◌, ◌<◌, ◌≤◌, ◌⊎◌, [], IfErr, IsErrOf, OnOk};
ghost use Rattle.lf.specs.DeepTyping.{KindReachesDeep, TypeReachesDeep, TypingReachesDeep};
ghost use Rattle.lf.specs.Depth.{depth, depth_limit, kind_depth, type_depth};
ghost use Rattle.lf.specs.Entries.{signature_of, BodyIsTyped, BodyIsWithin};
ghost use Rattle.lf.specs.Typing.{HasType, IsKind, IsType};
ghost use Rattle.tw_signature.specs.View.{body_of};
ghost use Rattle.tw_terms.specs.View.{kind_of, term_of, type_of};
ghost use Rattle.tw_recon.specs.Causes.{BodyReachesDeep};

use crate::fault::ReconFault;
use std::alloc::Global;
use tw_kernel::{Verdict, check_kind, check_term, check_type};
use tw_signature::{Body, Signature};
use tw_terms::{Context, DEPTH_LIMIT, Kind, Term, Ty};

/// Whether the kernel says yes to a typed body: it may say that it is too deep.
pub fn approve(alloc: Global, signature: &Signature, body: &Body) -> Result<(), ReconFault>
    requires { BodyIsTyped (signature_of signature.now) (body_of body.now) }
    ensures typed { OnOk result (BodyIsTyped (signature_of signature.now) (body_of body.now)) }
    ensures within { OnOk result (BodyIsWithin depth_limit (body_of body.now)) }
    ensures fault { IfErr result (λ f. (f ≡ ReconFault.TooDeep) ⊎ (f ≡ ReconFault.NoMemory)) }
    ensures too_deep { IsErrOf result ReconFault.TooDeep → BodyReachesDeep (signature_of signature.now) (body_of body.now) }
{
    match body {
        Body::Family(kind) => approve_kind(alloc, signature, kind),
        Body::Constant(ty) => approve_type(alloc, signature, ty),
        Body::Defined { term, ty, .. } => {
            approve_type(alloc, signature, ty)?;
            approve_term(alloc, signature, term, ty)
        }
    }
}

fn approve_kind(alloc: Global, signature: &Signature, kind: &Kind) -> Result<(), ReconFault>
    requires { IsKind (signature_of signature.now) [] (kind_of kind.now) }
    ensures typed { OnOk result (IsKind (signature_of signature.now) [] (kind_of kind.now)) }
    ensures within { OnOk result (kind_depth (kind_of kind.now) ≤ depth_limit) }
    ensures fault { IfErr result (λ f. (f ≡ ReconFault.TooDeep) ⊎ (f ≡ ReconFault.NoMemory)) }
    ensures too_deep { IsErrOf result ReconFault.TooDeep → (depth_limit < kind_depth (kind_of kind.now)) ⊎ KindReachesDeep depth_limit (signature_of signature.now) [] (kind_of kind.now) }
{
    if kind.depth() > DEPTH_LIMIT {
        return Err(ReconFault::TooDeep);
    }
    verdict(check_kind(alloc, signature, &Context::new(alloc), kind)?)
}

fn approve_type(alloc: Global, signature: &Signature, ty: &Ty) -> Result<(), ReconFault>
    requires { IsType (signature_of signature.now) [] (type_of ty.now) }
    ensures typed { OnOk result (IsType (signature_of signature.now) [] (type_of ty.now)) }
    ensures within { OnOk result (type_depth (type_of ty.now) ≤ depth_limit) }
    ensures fault { IfErr result (λ f. (f ≡ ReconFault.TooDeep) ⊎ (f ≡ ReconFault.NoMemory)) }
    ensures too_deep { IsErrOf result ReconFault.TooDeep → (depth_limit < type_depth (type_of ty.now)) ⊎ TypeReachesDeep depth_limit (signature_of signature.now) [] (type_of ty.now) }
{
    if ty.depth() > DEPTH_LIMIT {
        return Err(ReconFault::TooDeep);
    }
    verdict(check_type(alloc, signature, &Context::new(alloc), ty)?)
}

fn approve_term(
    alloc: Global,
    signature: &Signature,
    term: &Term,
    ty: &Ty,
) -> Result<(), ReconFault>
    requires ty { IsType (signature_of signature.now) [] (type_of ty.now) }
    requires typed { HasType (signature_of signature.now) [] (term_of term.now) (type_of ty.now) }
    ensures typed { OnOk result (HasType (signature_of signature.now) [] (term_of term.now) (type_of ty.now)) }
    ensures within { OnOk result (depth (term_of term.now) ≤ depth_limit) }
    ensures fault { IfErr result (λ f. (f ≡ ReconFault.TooDeep) ⊎ (f ≡ ReconFault.NoMemory)) }
    ensures too_deep { IsErrOf result ReconFault.TooDeep → (depth_limit < depth (term_of term.now)) ⊎ TypingReachesDeep depth_limit (signature_of signature.now) [] (term_of term.now) (type_of ty.now) }
{
    if term.depth() > DEPTH_LIMIT {
        return Err(ReconFault::TooDeep);
    }
    verdict(check_term(alloc, signature, &Context::new(alloc), term, ty)?)
}

/// What an answer of the kernel to a judgement that holds comes to.
fn verdict(verdict: Verdict) -> Result<(), ReconFault>
    requires { verdict ≡ Verdict.IllTyped → ⊥ }
    ensures typed { OnOk result (verdict ≡ Verdict.Typed) }
    ensures fault { IfErr result (λ f. (f ≡ ReconFault.TooDeep) ⊎ (f ≡ ReconFault.NoMemory)) }
    ensures too_deep { IsErrOf result ReconFault.TooDeep → verdict ≡ Verdict.TooDeep }
{
    match verdict {
        Verdict::Typed => Ok(()),
        Verdict::IllTyped => unreachable!(),
        Verdict::TooDeep => Err(ReconFault::TooDeep),
    }
}
