//! Terms against their types, and spines against the types of their heads, from left to right.
ghost use Rattle.std.specs.Prelude.{◌≡◌, ◌++◌, ◌↔◌, MatchResult, OnOk};
ghost use Rattle.lf.specs.Depth.{depth_limit};
ghost use Rattle.lf.specs.DeepTyping.{TypingReachesDeep, SpineReachesDeep};
ghost use Rattle.lf.specs.Entries.{signature_of, IsCanonicalSignature};
ghost use Rattle.lf.specs.Syntax.{LfType, Spine as LfSpine, app};
ghost use Rattle.lf.specs.Typing.{HasType, SpineType, IsType, IsContext};
ghost use Rattle.tw_terms.specs.View.{term_of, spine_of, type_of};
ghost use Rattle.tw_kernel.specs.Outcome.{Blames, Decides, TakesArgument};

use crate::fault::Fault;
use crate::heads::head_type;
use std::alloc::Global;
use tw_hered::substitute_ty;
use tw_signature::Signature;
use tw_terms::{Context, Spine, Term, Ty, skeleton};

/// Whether the term has the type in the context of `inner` and, outside it, `outer`. Where it does, `inner` is as before.
#[cycle(check)]
pub fn has_type(
    alloc: Global,
    signature: &Signature,
    outer: &Context,
    inner: &mut Context,
    term: &Term,
    ty: &Ty,
) -> Result<(), Fault>
    requires canonical { IsCanonicalSignature signature.now }
    requires context { IsContext (signature_of signature.now) (inner.old ++ outer.now) }
    requires ty { IsType (signature_of signature.now) (inner.old ++ outer.now) (type_of ty.now) }
    ensures decided { Decides result (HasType (signature_of signature.now) (inner.old ++ outer.now) (term_of term.now) (type_of ty.now)) (TypingReachesDeep depth_limit (signature_of signature.now) (inner.old ++ outer.now) (term_of term.now) (type_of ty.now)) }
    ensures context { OnOk result (inner.new ≡ inner.old) }
{
    match (term, ty) {
        (Term::Lam(body), Ty::Pi(domain, range)) => {
            inner.push(domain.copy(alloc)?)?;
            has_type(alloc, signature, outer, inner, body, range)?;
            let _ = inner.pop();
            Ok(())
        }
        (Term::Root(head, spine), Ty::Atom(_, _)) => {
            let function = head_type(alloc, signature, outer, inner, *head)?;
            let given = spine_type(alloc, signature, outer, inner, spine, function)?;
            if given.same(ty) {
                Ok(())
            } else {
                Err(Fault::IllTyped)
            }
        }
        _ => Err(Fault::IllTyped),
    }
}

/// The type to which the spine takes a type.
#[cycle(check)]
fn spine_type(
    alloc: Global,
    signature: &Signature,
    outer: &Context,
    inner: &mut Context,
    spine: &Spine,
    function: Ty,
) -> Result<Ty, Fault>
    requires canonical { IsCanonicalSignature signature.now }
    requires context { IsContext (signature_of signature.now) (inner.old ++ outer.now) }
    requires ty { IsType (signature_of signature.now) (inner.old ++ outer.now) (type_of function) }
    ensures given { MatchResult result (λ b. (C : LfType) → (SpineType (signature_of signature.now) (inner.old ++ outer.now) (spine_of spine.now) (type_of function) C ↔ (type_of b ≡ C))) (λ fault. Blames fault ((C : LfType) × SpineType (signature_of signature.now) (inner.old ++ outer.now) (spine_of spine.now) (type_of function) C) (SpineReachesDeep depth_limit (signature_of signature.now) (inner.old ++ outer.now) (spine_of spine.now) (type_of function))) }
    ensures context { OnOk result (inner.new ≡ inner.old) }
{
    let mut ty = function;
    for arg in &spine.args {
        ty = take_argument(alloc, signature, outer, inner, &ty, arg)?;
    }
    Ok(ty)
}

/// The type that is left when a type takes one argument.
#[cycle(check)]
fn take_argument(
    alloc: Global,
    signature: &Signature,
    outer: &Context,
    inner: &mut Context,
    ty: &Ty,
    arg: &Term,
) -> Result<Ty, Fault>
    requires canonical { IsCanonicalSignature signature.now }
    requires context { IsContext (signature_of signature.now) (inner.old ++ outer.now) }
    requires ty { IsType (signature_of signature.now) (inner.old ++ outer.now) (type_of ty.now) }
    ensures taken { MatchResult result (λ c. TakesArgument (signature_of signature.now) (inner.old ++ outer.now) (type_of ty.now) (term_of arg.now) (type_of c)) (λ fault. Blames fault ((C : LfType) × TakesArgument (signature_of signature.now) (inner.old ++ outer.now) (type_of ty.now) (term_of arg.now) C) ((S : LfSpine) → SpineReachesDeep depth_limit (signature_of signature.now) (inner.old ++ outer.now) (app (term_of arg.now) S) (type_of ty.now))) }
    ensures context { OnOk result (inner.new ≡ inner.old) }
{
    match ty {
        Ty::Pi(domain, range) => {
            has_type(alloc, signature, outer, inner, arg, domain)?;
            let shape = skeleton(alloc, domain)?;
            Ok(substitute_ty(alloc, range, 0, arg, &shape)?)
        }
        Ty::Atom(_, _) => Err(Fault::IllTyped),
    }
}
