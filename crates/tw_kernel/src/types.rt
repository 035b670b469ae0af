//! Types and kinds.
ghost use Rattle.std.specs.Prelude.{◌≡◌, ◌++◌, OnOk};
ghost use Rattle.lf.specs.DeepTyping.{TypeReachesDeep, KindReachesDeep};
ghost use Rattle.lf.specs.Depth.{depth_limit};
ghost use Rattle.lf.specs.Entries.{signature_of, IsCanonicalSignature};
ghost use Rattle.lf.specs.Typing.{IsType, IsKind, IsContext};
ghost use Rattle.tw_terms.specs.View.{type_of, kind_of};
ghost use Rattle.tw_kernel.specs.Outcome.{Decides};

use crate::fault::Fault;
use crate::kinds::fits_kind;
use std::alloc::Global;
use tw_signature::Signature;
use tw_terms::{Context, Kind, Ty};

/// Whether the type is one in the context of `inner` and, outside it, `outer`. Where it is, `inner` is as before.
pub fn is_type(
    alloc: Global,
    signature: &Signature,
    outer: &Context,
    inner: &mut Context,
    ty: &Ty,
) -> Result<(), Fault>
    requires canonical { IsCanonicalSignature signature.now }
    requires context { IsContext (signature_of signature.now) (inner.old ++ outer.now) }
    ensures decided { Decides result (IsType (signature_of signature.now) (inner.old ++ outer.now) (type_of ty.now)) (TypeReachesDeep depth_limit (signature_of signature.now) (inner.old ++ outer.now) (type_of ty.now)) }
    ensures context { OnOk result (inner.new ≡ inner.old) }
{
    match ty {
        Ty::Pi(domain, range) => {
            is_type(alloc, signature, outer, inner, domain)?;
            inner.push(domain.copy(alloc)?)?;
            is_type(alloc, signature, outer, inner, range)?;
            let _ = inner.pop();
            Ok(())
        }
        Ty::Atom(family, spine) => match signature.family_kind(*family) {
            Some(kind) => {
                let kind = kind.copy(alloc)?;
                fits_kind(alloc, signature, outer, inner, spine, kind)
            }
            None => Err(Fault::IllTyped),
        },
    }
}

/// Whether the kind is one in the context of `inner` and, outside it, `outer`. Where it is, `inner` is as before.
pub fn is_kind(
    alloc: Global,
    signature: &Signature,
    outer: &Context,
    inner: &mut Context,
    kind: &Kind,
) -> Result<(), Fault>
    requires canonical { IsCanonicalSignature signature.now }
    requires context { IsContext (signature_of signature.now) (inner.old ++ outer.now) }
    ensures decided { Decides result (IsKind (signature_of signature.now) (inner.old ++ outer.now) (kind_of kind.now)) (KindReachesDeep depth_limit (signature_of signature.now) (inner.old ++ outer.now) (kind_of kind.now)) }
    ensures context { OnOk result (inner.new ≡ inner.old) }
{
    match kind {
        Kind::Pi(domain, rest) => {
            is_type(alloc, signature, outer, inner, domain)?;
            inner.push(domain.copy(alloc)?)?;
            is_kind(alloc, signature, outer, inner, rest)?;
            let _ = inner.pop();
            Ok(())
        }
        Kind::Star => Ok(()),
    }
}
