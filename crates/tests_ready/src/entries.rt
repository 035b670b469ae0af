//! Families and constants that the kernel accepts.
ghost use Rattle.std.specs.Prelude.{◌≡◌, ◌∷◌, IfOk, MatchBool, vec_len};
ghost use Rattle.lf.specs.Entries.{Entry as Entered, declare_constant, declare_family, kind_quantifiers, quantifiers};
ghost use Rattle.tw_terms.specs.View.{kind_of, type_of};

use std::alloc::{AllocError, Global};
use tw_fixity::Name;
use tw_kernel::{Verdict, check_kind, check_type};
use tw_signature::{Body, Entry, Signature};
use tw_terms::{Context, DEPTH_LIMIT, Kind, Ty};

/// Declares a family whose first arguments are implicit, where the kind is one, not deeper than 4,096 and takes that many. Otherwise nothing changes.
pub fn add_family(
    alloc: Global,
    signature: &mut Signature,
    name: Name,
    kind: Kind,
    implicit: u32,
) -> Result<bool, AllocError>
    ensures { IfOk result (λ b. MatchBool b ((e : Entered) × (e.name ≡ name) × (e.body ≡ declare_family (kind_of kind)) × (e.implicit ≡ implicit) × (signature.new ≡ e ∷ signature.old)) (signature.new ≡ signature.old)) }
{
    let context = Context::new(alloc);
    match check_kind(alloc, signature, &context, &kind)? {
        Verdict::Typed => (),
        Verdict::IllTyped | Verdict::TooDeep => return Ok(false),
    }
    if kind.depth() > DEPTH_LIMIT {
        return Ok(false);
    }
    let hints = kind_hints(alloc, &kind)?;
    if implicit as usize > hints.len() {
        return Ok(false);
    }
    signature.add(Entry {
        name,
        body: Body::Family(kind),
        implicit,
        hints,
    })?;
    Ok(true)
}

/// The same of a constant.
pub fn add_constant(
    alloc: Global,
    signature: &mut Signature,
    name: Name,
    ty: Ty,
    implicit: u32,
) -> Result<bool, AllocError>
    ensures { IfOk result (λ b. MatchBool b ((e : Entered) × (e.name ≡ name) × (e.body ≡ declare_constant (type_of ty)) × (e.implicit ≡ implicit) × (signature.new ≡ e ∷ signature.old)) (signature.new ≡ signature.old)) }
{
    let context = Context::new(alloc);
    match check_type(alloc, signature, &context, &ty)? {
        Verdict::Typed => (),
        Verdict::IllTyped | Verdict::TooDeep => return Ok(false),
    }
    if ty.depth() > DEPTH_LIMIT {
        return Ok(false);
    }
    let hints = type_hints(alloc, &ty)?;
    if implicit as usize > hints.len() {
        return Ok(false);
    }
    signature.add(Entry {
        name,
        body: Body::Constant(ty),
        implicit,
        hints,
    })?;
    Ok(true)
}

// no preferred name for any quantifier
fn type_hints(alloc: Global, ty: &Ty) -> Result<Vec<Option<Name>>, AllocError>
    ensures { IfOk result (λ v. vec_len v ≡ quantifiers (type_of ty.now)) }
{
    match ty {
        Ty::Pi(_, range) => {
            let mut hints = type_hints(alloc, range)?;
            hints.push(None)?;
            Ok(hints)
        }
        Ty::Atom(_, _) => Ok(Vec::new(alloc)),
    }
}

fn kind_hints(alloc: Global, kind: &Kind) -> Result<Vec<Option<Name>>, AllocError>
    ensures { IfOk result (λ v. vec_len v ≡ kind_quantifiers (kind_of kind.now)) }
{
    match kind {
        Kind::Pi(_, range) => {
            let mut hints = kind_hints(alloc, range)?;
            hints.push(None)?;
            Ok(hints)
        }
        Kind::Star => Ok(Vec::new(alloc)),
    }
}
