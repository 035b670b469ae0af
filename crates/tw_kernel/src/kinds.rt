//! Spines against the kinds of families.
ghost use Rattle.std.specs.Prelude.{◌≡◌, ◌++◌, MatchResult, IfOk, OnOk, IsErrOf};
ghost use Rattle.lf.specs.AtOnce.{lift_by};
ghost use Rattle.lf.specs.Deep.{DeepKindSubstitution};
ghost use Rattle.lf.specs.DeepTyping.{KindSpineReachesDeep};
ghost use Rattle.lf.specs.Depth.{depth_limit};
ghost use Rattle.lf.specs.Entries.{signature_of, IsCanonicalSignature};
ghost use Rattle.lf.specs.Substitution.{single, substitute_kind, reduce};
ghost use Rattle.lf.specs.Syntax.{Kind as LfKind, Spine as LfSpine, app, kind_pi};
ghost use Rattle.lf.specs.Typing.{SpineFitsKind, IsKind, IsContext};
ghost use Rattle.tw_terms.specs.View.{term_of, spine_of, type_of, kind_of, skeleton_of};
ghost use Rattle.tw_hered.specs.Fits.{KindFits};
ghost use Rattle.tw_kernel.specs.Outcome.{Blames, Decides, KindTakesArgument};

use crate::fault::Fault;
use crate::terms::has_type;
use std::alloc::{AllocError, Global};
use tw_hered::{HeredFault, substitute_ty};
use tw_signature::Signature;
use tw_terms::numbers::one_more;
use tw_terms::{Context, Kind, Skeleton, Spine, Term, Ty, skeleton};

/// Whether the spine takes the kind to `type` in the context of `inner` and, outside it, `outer`. Where it does, `inner` is as before.
pub fn fits_kind(
    alloc: Global,
    signature: &Signature,
    outer: &Context,
    inner: &mut Context,
    spine: &Spine,
    family: Kind,
) -> Result<(), Fault>
    requires canonical { IsCanonicalSignature signature.now }
    requires context { IsContext (signature_of signature.now) (inner.old ++ outer.now) }
    requires kind { IsKind (signature_of signature.now) (inner.old ++ outer.now) (kind_of family) }
    ensures decided { Decides result (SpineFitsKind (signature_of signature.now) (inner.old ++ outer.now) (spine_of spine.now) (kind_of family)) (KindSpineReachesDeep depth_limit (signature_of signature.now) (inner.old ++ outer.now) (spine_of spine.now) (kind_of family)) }
    ensures context { OnOk result (inner.new ≡ inner.old) }
{
    let mut kind = family;
    for arg in &spine.args {
        kind = take_argument(alloc, signature, outer, inner, &kind, arg)?;
    }
    match kind {
        Kind::Star => Ok(()),
        Kind::Pi(_, _) => Err(Fault::IllTyped),
    }
}

/// The kind that is left when a kind takes one argument.
fn take_argument(
    alloc: Global,
    signature: &Signature,
    outer: &Context,
    inner: &mut Context,
    kind: &Kind,
    arg: &Term,
) -> Result<Kind, Fault>
    requires canonical { IsCanonicalSignature signature.now }
    requires context { IsContext (signature_of signature.now) (inner.old ++ outer.now) }
    requires kind { IsKind (signature_of signature.now) (inner.old ++ outer.now) (kind_of kind.now) }
    ensures taken { MatchResult result (λ l. KindTakesArgument (signature_of signature.now) (inner.old ++ outer.now) (kind_of kind.now) (term_of arg.now) (kind_of l)) (λ fault. Blames fault ((L : LfKind) × KindTakesArgument (signature_of signature.now) (inner.old ++ outer.now) (kind_of kind.now) (term_of arg.now) L) ((S : LfSpine) → KindSpineReachesDeep depth_limit (signature_of signature.now) (inner.old ++ outer.now) (app (term_of arg.now) S) (kind_of kind.now))) }
    ensures context { OnOk result (inner.new ≡ inner.old) }
{
    match kind {
        Kind::Pi(domain, rest) => {
            has_type(alloc, signature, outer, inner, arg, domain)?;
            let shape = skeleton(alloc, domain)?;
            Ok(instantiate_kind(alloc, rest, 0, arg, &shape)?)
        }
        Kind::Star => Err(Fault::IllTyped),
    }
}

/// The kind with the argument put in for a variable. `TooDeep` only where a term of the substitution is.
fn instantiate_kind(
    alloc: Global,
    kind: &Kind,
    index: u64,
    arg: &Term,
    shape: &Skeleton,
) -> Result<Kind, HeredFault>
    requires { KindFits (lift_by index (single (skeleton_of shape.now) (term_of arg.now))) (kind_of kind.now) }
    ensures ok { IfOk result (λ l. kind_of l ≡ substitute_kind reduce (lift_by index (single (skeleton_of shape.now) (term_of arg.now))) (kind_of kind.now)) }
    ensures too_deep { IsErrOf result HeredFault.TooDeep → DeepKindSubstitution depth_limit (lift_by index (single (skeleton_of shape.now) (term_of arg.now))) (kind_of kind.now) }
{
    match kind {
        Kind::Pi(domain, rest) => {
            let inside = one_more(index)?;
            let domain = substitute_ty(alloc, domain, index, arg, shape)?;
            let rest = instantiate_kind(alloc, rest, inside, arg, shape)?;
            Ok(pi(alloc, domain, rest)?)
        }
        Kind::Star => Ok(Kind::Star),
    }
}

fn pi(alloc: Global, domain: Ty, rest: Kind) -> Result<Kind, AllocError>
    ensures { IfOk result (λ k. kind_of k ≡ kind_pi (type_of domain) (kind_of rest)) }
{
    let domain = Box::new(alloc, domain)?;
    Ok(Kind::Pi(domain, Box::new(alloc, rest)?))
}
