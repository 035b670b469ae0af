//! Equations between two types, or two kinds, of one skeleton: equal where their indices are.
ghost use Rattle.std.specs.Prelude.{◌≡◌, ◌↔◌, [], ◌∷◌, ◌++◌, IsErrOf, IsTrue, OnOk};
ghost use Rattle.lf.specs.Entries.{signature_of, IsCanonicalSignature};
ghost use Rattle.lf.specs.Syntax.{atom, skeleton as skeleton_of_type};
ghost use Rattle.lf_elaboration.specs.Skeletons.{KindHasSkeletons, TypeHasSkeletons};
ghost use Rattle.lf_elaboration.specs.State.{index_equations as index_equations_of, with_equations};
ghost use Rattle.tw_terms.specs.OpenView.{open_spine_of, open_type_of};
ghost use Rattle.tw_terms.specs.View.{skeleton_of};
ghost use Rattle.tw_elaborate.specs.Comparing.{ComparesIn, ComparesKinds, ComparesTypes};
ghost use Rattle.tw_elaborate.specs.Compared.{ComparesNext};
ghost use Rattle.tw_elaborate.specs.Fresh.{Keeps};
ghost use Rattle.tw_elaborate.specs.IndicesDeep.{IndicesDeep, KindIndicesDeep, TypesDeep};
ghost use Rattle.tw_open.specs.View.{open_kind_of};
ghost use Rattle.tw_elaborate.specs.View.{made};

use crate::state::Elaboration;
use std::alloc::{AllocError, Global};
use tw_hered::HeredFault;
use tw_open::{OpenKind, Wanted, index_equations, open_kind};
use tw_signature::Signature;
use tw_terms::{ConstId, OpenContext, OpenSpine, OpenTy, Skeleton};

/// Whether the type has this skeleton.
pub fn has_skeleton(ty: &OpenTy, skeleton: &Skeleton) -> bool
    ensures { IsTrue result ↔ (skeleton_of_type (open_type_of ty.now) ≡ skeleton_of skeleton.now) }
{
    match (ty, skeleton) {
        (OpenTy::Pi(domain, range), Skeleton::Arrow(left, right)) => {
            has_skeleton(domain, left) && has_skeleton(range, right)
        }
        (OpenTy::Atom(family, _), Skeleton::Base(other)) => family.0 == other.0,
        _ => false,
    }
}

/// Two types that are still to be compared, and the variables in scope there.
#[derive(Drop)]
struct Comparison<'a> {
    context: OpenContext,
    found: &'a OpenTy,
    expected: &'a OpenTy,
}

/// Adds the equations between the type that was found and the expected one, where they aren't the same. Where their skeletons differ, memory counts as used up.
pub fn compare_types(
    alloc: Global,
    signature: &Signature,
    state: &mut Elaboration,
    found: &OpenTy,
    expected: &OpenTy,
) -> Result<(), HeredFault>
    requires canonical { IsCanonicalSignature signature.now }
    requires found { TypeHasSkeletons (signature_of signature.now) (made state.old) state.old.locals (open_type_of found.now) }
    ensures ok { OnOk result (ComparesTypes (signature_of signature.now) (open_type_of found.now) (open_type_of expected.now) state.old state.new) }
    ensures too_deep { IsErrOf result HeredFault.TooDeep → TypesDeep (signature_of signature.now) (open_type_of found.now) (open_type_of expected.now) }
    ensures keeps { Keeps state.old state.new }
{
    let context = state.locals.copy(alloc)?;
    compare_in(alloc, signature, state, context, found, expected)
}

/// The same where these variables are in scope.
#[inline(never)]
fn compare_in(
    alloc: Global,
    signature: &Signature,
    state: &mut Elaboration,
    context: OpenContext,
    found: &OpenTy,
    expected: &OpenTy,
) -> Result<(), HeredFault>
    requires canonical { IsCanonicalSignature signature.now }
    requires found { TypeHasSkeletons (signature_of signature.now) (made state.old) context (open_type_of found.now) }
    ensures ok { OnOk result (ComparesIn (signature_of signature.now) context (open_type_of found.now) (open_type_of expected.now) state.old state.new) }
    ensures too_deep { IsErrOf result HeredFault.TooDeep → TypesDeep (signature_of signature.now) (open_type_of found.now) (open_type_of expected.now) }
    ensures keeps { Keeps state.old state.new }
{
    if found.same(expected) {
        return Ok(());
    }
    let mut left = Vec::new(alloc);
    let whole = Comparison {
        context,
        found,
        expected,
    };
    push_comparison(&mut left, whole)?;
    while let Some(next) = left.pop() {
        compare_next(alloc, signature, state, next, &mut left)?;
    }
    Ok(())
}

/// One more is to be compared, before the others.
fn push_comparison<'a>(
    left: &mut Vec<Comparison<'a>>,
    next: Comparison<'a>,
) -> Result<(), AllocError>
    ensures { OnOk result (left.new.items ≡ left.old.items ++ (next.entry ∷ [])) }
{
    left.push(next)?;
    Ok(())
}

/// Compares two atoms, or leaves the parts of two function types to be compared: the domains first.
#[inline(never)]
fn compare_next<'a>(
    alloc: Global,
    signature: &Signature,
    state: &mut Elaboration,
    next: Comparison<'a>,
    left: &mut Vec<Comparison<'a>>,
) -> Result<(), HeredFault>
    requires canonical { IsCanonicalSignature signature.now }
    requires found { TypeHasSkeletons (signature_of signature.now) (made state.old) next.context (open_type_of next.found.now) }
    ensures ok { OnOk result (ComparesNext (signature_of signature.now) next.entry left.old.items left.new.items state.old state.new) }
    ensures too_deep { IsErrOf result HeredFault.TooDeep → IndicesDeep (signature_of signature.now) (open_type_of next.entry.found.now) }
    ensures keeps { Keeps state.old state.new }
{
    match (next.found, next.expected) {
        (OpenTy::Pi(domain, range), OpenTy::Pi(other_domain, other_range)) => {
            let mut inside = next.context.copy(alloc)?;
            inside.push(domain.copy(alloc)?)?;
            let ranges = Comparison {
                context: inside,
                found: range,
                expected: other_range,
            };
            push_comparison(left, ranges)?;
            let domains = Comparison {
                context: next.context,
                found: domain,
                expected: other_domain,
            };
            push_comparison(left, domains)?;
            Ok(())
        }
        (OpenTy::Atom(family, args), OpenTy::Atom(other, other_args)) => {
            if family.0 != other.0 {
                // Behind the skeleton pass both types have one skeleton; no clause says it of the expected one.
                return Err(HeredFault::NoMemory);
            }
            compare_indices(
                alloc,
                signature,
                state,
                &next.context,
                *family,
                args,
                other_args,
            )
        }
        // Behind the skeleton pass both types have one skeleton; no clause says it of the expected one.
        _ => Err(HeredFault::NoMemory),
    }
}

/// Adds the equations between the arguments of two atoms of one family, where these differ.
fn compare_indices(
    alloc: Global,
    signature: &Signature,
    state: &mut Elaboration,
    context: &OpenContext,
    family: ConstId,
    left: &OpenSpine,
    right: &OpenSpine,
) -> Result<(), HeredFault>
    requires canonical { IsCanonicalSignature signature.now }
    requires found { TypeHasSkeletons (signature_of signature.now) (made state.old) context.now (atom family.0 (open_spine_of left.now)) }
    ensures ok { OnOk result (made state.new ≡ with_equations (index_equations_of (signature_of signature.now) ((signature_of signature.now).kinds family.0) context.now (open_spine_of left.now) (open_spine_of right.now)) (made state.old)) }
    ensures too_deep { IsErrOf result HeredFault.TooDeep → IndicesDeep (signature_of signature.now) (atom family.0 (open_spine_of left.now)) }
    ensures keeps { Keeps state.old state.new }
{
    match signature.family_kind(family) {
        Some(kind) => {
            let kind = open_kind(alloc, kind)?;
            let found = &mut state.equations;
            index_equations(alloc, context, kind, left, right, Wanted::Differing, found)
        }
        None => Ok(()),
    }
}

/// Adds the equations between the kind that was found and the expected one, where they differ. Where their skeletons differ, memory counts as used up.
#[inline(never)]
pub fn compare_kinds(
    alloc: Global,
    signature: &Signature,
    state: &mut Elaboration,
    found: &OpenKind,
    expected: &OpenKind,
) -> Result<(), HeredFault>
    requires canonical { IsCanonicalSignature signature.now }
    requires found { KindHasSkeletons (signature_of signature.now) (made state.old) state.old.locals (open_kind_of found.now) }
    ensures ok { OnOk result (ComparesKinds (signature_of signature.now) (open_kind_of found.now) (open_kind_of expected.now) state.old state.new) }
    ensures too_deep { IsErrOf result HeredFault.TooDeep → KindIndicesDeep (signature_of signature.now) (open_kind_of found.now) }
    ensures keeps { Keeps state.old state.new }
{
    let mut context = state.locals.copy(alloc)?;
    let mut found = found;
    let mut expected = expected;
    while let OpenKind::Pi(domain, range) = found {
        let OpenKind::Pi(other_domain, other_range) = expected else {
            // Behind the skeleton pass both kinds take as many arguments; no clause says it of the expected one.
            return Err(HeredFault::NoMemory);
        };
        let outside = context.copy(alloc)?;
        compare_in(alloc, signature, state, outside, domain, other_domain)?;
        context.push(domain.copy(alloc)?)?;
        found = range;
        expected = other_range;
    }
    match expected {
        OpenKind::Star => Ok(()),
        // Behind the skeleton pass both kinds take as many arguments; no clause says it of the expected one.
        OpenKind::Pi(_, _) => Err(HeredFault::NoMemory),
    }
}
