//! Terms, types and kinds put together of their parts.
ghost use Rattle.std.specs.Prelude.{◌≡◌, ◌<◌, [], ◌∷◌, ◌++◌, map, IfOk, IsErrOf, OnOk};
ghost use Rattle.lf.specs.Depth.{depth_limit, kind_depth};
ghost use Rattle.lf.specs.Entries.{signature_of, IsCanonicalSignature};
ghost use Rattle.lf.specs.Eta.{add_last};
ghost use Rattle.lf.specs.Substitution.{single};
ghost use Rattle.lf.specs.Syntax.{lambda as lambda_of, pi as pi_of, skeleton};
ghost use Rattle.lf.specs.Typing.{instantiate_kind as instantiate_kind_of};
ghost use Rattle.lf_elaboration.specs.Skeletons.{KindHasSkeletons};
ghost use Rattle.tw_terms.specs.OpenView.{open_spine_of, open_term_of, open_type_of};
ghost use Rattle.tw_elaborate.specs.Arrows.{arrows_to, kind_arrows_to};
ghost use Rattle.tw_elaborate.specs.Comparing.{ComparesKinds, IsProduct};
ghost use Rattle.tw_hered.specs.Fits.{KindFits};
ghost use Rattle.tw_elaborate.specs.Fresh.{Keeps};
ghost use Rattle.tw_elaborate.specs.IndicesDeep.{KindIndicesDeep};
ghost use Rattle.tw_open.specs.View.{open_kind_of};
ghost use Rattle.tw_elaborate.specs.Unascribed.{IsUnascribed};
ghost use Rattle.tw_elaborate.specs.View.{made};
ghost use Rattle.tw_written.specs.View.{written_type_of};

use crate::equations::compare_kinds;
use crate::state::Elaboration;
use std::alloc::{AllocError, Global};
use tw_hered::HeredFault;
use tw_open::{OpenKind, instantiate_kind, kind_pi, lambda, pi, shift_kind, with_argument};
use tw_putting::shift_type;
use tw_signature::Signature;
use tw_terms::{Open, OpenSpine, OpenTy};
use tw_written::{WrittenKind, WrittenType};

/// A function and its type.
#[inline(never)]
pub fn function(
    alloc: Global,
    domain: OpenTy,
    body: Open,
    range: OpenTy,
) -> Result<(Open, OpenTy), AllocError>
    ensures { IfOk result (λ p. (open_term_of p.0 ≡ lambda_of (open_term_of body)) × (open_type_of p.1 ≡ pi_of (open_type_of domain) (open_type_of range))) }
{
    Ok((lambda(alloc, body)?, pi(alloc, domain, range)?))
}

/// One type more, behind the others.
pub fn push_domain(domains: &mut Vec<OpenTy>, domain: OpenTy) -> Result<(), AllocError>
    ensures { OnOk result (domains.new.items ≡ domains.old.items ++ (domain ∷ [])) }
{
    domains.push(domain)?;
    Ok(())
}

/// One kind more, behind the others.
pub fn push_kind(kinds: &mut Vec<OpenKind>, kind: OpenKind) -> Result<(), AllocError>
    ensures { OnOk result (kinds.new.items ≡ kinds.old.items ++ (kind ∷ [])) }
{
    kinds.push(kind)?;
    Ok(())
}

/// The type without the kinds `type` that are written behind it.
pub fn unascribed<'a>(written: &'a WrittenType) -> &'a WrittenType
    ensures { IsUnascribed (written_type_of written.now) (written_type_of result.now) }
{
    let mut rest = written;
    while let WrittenType::Ascribed(ty, kind) = rest {
        match &**kind {
            WrittenKind::Star => rest = ty,
            WrittenKind::Arrow(_, _) | WrittenKind::Quantified(_, _) => return rest,
        }
    }
    rest
}

/// Arrows from these types, in order, to the type at the end. No variable of theirs is in scope in what follows, so that each part moves over the arrows before it.
#[inline(never)]
pub fn arrows(alloc: Global, domains: Vec<OpenTy>, end: &OpenTy) -> Result<OpenTy, AllocError>
    ensures { IfOk result (λ a. open_type_of a ≡ arrows_to (map open_type_of domains.items) (open_type_of end.now)) }
{
    let mut left = domains;
    let mut ty = shift_type(alloc, end, left.len() as u64, 0)?;
    while let Some(domain) = left.pop() {
        let moved = shift_type(alloc, &domain, left.len() as u64, 0)?;
        ty = pi(alloc, moved, ty)?;
    }
    Ok(ty)
}

/// The same with a kind at the end.
#[inline(never)]
pub fn kind_arrows(
    alloc: Global,
    domains: Vec<OpenTy>,
    end: &OpenKind,
) -> Result<OpenKind, AllocError>
    ensures { IfOk result (λ k. open_kind_of k ≡ kind_arrows_to (map open_type_of domains.items) (open_kind_of end.now)) }
{
    let mut left = domains;
    let mut kind = shift_kind(alloc, end, left.len() as u64, 0)?;
    while let Some(domain) = left.pop() {
        let moved = shift_type(alloc, &domain, left.len() as u64, 0)?;
        kind = kind_pi(alloc, moved, kind)?;
    }
    Ok(kind)
}

/// The arguments of a family and one more, and the kind that is left.
#[inline(never)]
pub fn family_application(
    alloc: Global,
    spine: OpenSpine,
    domain: &OpenTy,
    range: &OpenKind,
    arg: Open,
) -> Result<(OpenSpine, OpenKind), HeredFault>
    requires { KindFits (single (skeleton (open_type_of domain.now)) (open_term_of arg)) (open_kind_of range.now) }
    ensures ok { IfOk result (λ p. (open_spine_of p.0 ≡ add_last (open_spine_of spine) (open_term_of arg)) × (open_kind_of p.1 ≡ instantiate_kind_of (open_type_of domain.now) (open_term_of arg) (open_kind_of range.now))) }
    ensures too_deep { IsErrOf result HeredFault.TooDeep → depth_limit < kind_depth (instantiate_kind_of (open_type_of domain.now) (open_term_of arg) (open_kind_of range.now)) }
{
    let rest = instantiate_kind(alloc, range, 0, &arg, domain)?;
    Ok((with_argument(spine, arg)?, rest))
}

/// Compares the kind of a family, which takes an argument, with the one that is written. Else memory counts as used up.
#[inline(never)]
pub fn compare_ascribed(
    alloc: Global,
    signature: &Signature,
    state: &mut Elaboration,
    found: &OpenKind,
    expected: &OpenKind,
) -> Result<(), HeredFault>
    requires canonical { IsCanonicalSignature signature.now }
    requires found { KindHasSkeletons (signature_of signature.now) (made state.old) state.old.locals (open_kind_of found.now) }
    ensures product { OnOk result (IsProduct (open_kind_of found.now)) }
    ensures ok { OnOk result (ComparesKinds (signature_of signature.now) (open_kind_of found.now) (open_kind_of expected.now) state.old state.new) }
    ensures too_deep { IsErrOf result HeredFault.TooDeep → KindIndicesDeep (signature_of signature.now) (open_kind_of found.now) }
    ensures keeps { Keeps state.old state.new }
{
    match found {
        OpenKind::Pi(_, _) => compare_kinds(alloc, signature, state, found, expected),
        // A type with its kind is elaborated as a type, and what has a skeleton has no other kind there; no clause says that what is written has one.
        OpenKind::Star => Err(HeredFault::NoMemory),
    }
}
