//! Whether a type is an instance of another one, whose variables each have a strict occurrence in it.
ghost use Rattle.std.specs.Prelude.{◌≡◌, ◌≤◌, ◌^◌, IfOk, IsErrOf, option_map};
ghost use Rattle.lf.specs.Depth.{type_depth};
ghost use Rattle.lf.specs.Entries.{signature_of};
ghost use Rattle.lf.specs.Substitution.{single};
ghost use Rattle.lf.specs.Syntax.{skeleton as skeleton_of_type};
ghost use Rattle.lf.specs.Typing.{IsContext, IsType, instantiate_type};
ghost use Rattle.tw_hered.specs.Fits.{TypeFits};
ghost use Rattle.tw_terms.specs.View.{term_of, type_of};
ghost use Rattle.tw_world.specs.Instances.{GoesDeep, Settles, Takes, TakesDeep};

use crate::finding::find_in_type;
use std::alloc::Global;
use tw_hered::{HeredFault, instantiate};
use tw_kernel::{Verdict, check_term};
use tw_signature::Signature;
use tw_terms::{Context, Skeleton, Term, Ty, skeleton};

/// Whether there are terms for all variables of a pattern with which it becomes the instance. The `left` newest of the variables have none yet; `rest` is the pattern, closed over
/// these, with the terms of the others put in. Answers `TooDeep` only where the typing of a term that would be put in goes
/// deeper than 4,096, or what comes out is deeper than any number says.
pub fn settle(
    alloc: Global,
    sig: &Signature,
    outer: &Context,
    pattern: &Ty,
    instance: &Ty,
    rest: &Ty,
    left: u64,
) -> Result<bool, HeredFault>
    requires context { IsContext (signature_of sig.now) outer.now }
    requires rest { IsType (signature_of sig.now) outer.now (type_of rest.now) }
    ensures settled { IfOk result (λ b. Settles (signature_of sig.now) outer.now (type_of pattern.now) (type_of instance.now) left (type_of rest.now) b) }
    ensures too_deep { IsErrOf result HeredFault.TooDeep → GoesDeep (signature_of sig.now) outer.now (type_of pattern.now) (type_of instance.now) left (type_of rest.now) }
{
    sig.is_canonical();
    if left == 0 {
        return Ok(rest.same(instance));
    }
    let Some(value) = find_in_type(alloc, left - 1, 0, pattern, instance)? else {
        return Ok(false);
    };
    match take(alloc, sig, outer, rest, &value)? {
        Some(next) => settle(alloc, sig, outer, pattern, instance, &next, left - 1),
        None => Ok(false),
    }
}

/// The type with the term put in for the variable of its first quantifier, if it is one of its domain.
fn take(
    alloc: Global,
    sig: &Signature,
    outer: &Context,
    ty: &Ty,
    value: &Term,
) -> Result<Option<Ty>, HeredFault>
    requires context { IsContext (signature_of sig.now) outer.now }
    requires ty { IsType (signature_of sig.now) outer.now (type_of ty.now) }
    ensures takes { IfOk result (λ r. Takes (signature_of sig.now) outer.now (type_of ty.now) (term_of value.now) (option_map type_of r)) }
    ensures too_deep { IsErrOf result HeredFault.TooDeep → TakesDeep (signature_of sig.now) outer.now (type_of ty.now) (term_of value.now) }
{
    match ty {
        Ty::Pi(domain, range) => match check_term(alloc, sig, outer, value, domain)? {
            Verdict::Typed => Ok(Some(put_in(alloc, domain, range, value)?)),
            Verdict::IllTyped => Ok(None),
            Verdict::TooDeep => Err(HeredFault::TooDeep),
        },
        Ty::Atom(_, _) => Ok(None),
    }
}

/// The range of a type with a term of its domain put in. Answers `TooDeep` only where the result is deeper than any number says.
fn put_in(alloc: Global, domain: &Ty, range: &Ty, value: &Term) -> Result<Ty, HeredFault>
    requires { TypeFits (single (skeleton_of_type (type_of domain.now)) (term_of value.now)) (type_of range.now) }
    ensures put { IfOk result (λ t. type_of t ≡ instantiate_type (type_of domain.now) (term_of value.now) (type_of range.now)) }
    ensures too_deep { IsErrOf result HeredFault.TooDeep → 2 ^ 64 ≤ type_depth (instantiate_type (type_of domain.now) (term_of value.now) (type_of range.now)) }
{
    let skel: Skeleton = skeleton(alloc, domain)?;
    instantiate(alloc, range, value, &skel, u64::MAX)
}
