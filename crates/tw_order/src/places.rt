//! The arguments at the places of a family, and their types.
ghost use Rattle.std.specs.Prelude.{◌≡◌, option_map, Decides, IfOk};
ghost use Rattle.lf.specs.Entries.{signature_of};
ghost use Rattle.lf_checks.specs.Order.{argument_at, place_type};
ghost use Rattle.tw_terms.specs.View.{kind_of, spine_of, term_of, type_of};
ghost use Rattle.tw_order.specs.Places.{AtomStands, FamilyTakes, IsPlaceType, KindTakesAll, domain_of, IsLessAt, IsSameAt};
ghost use Rattle.tw_order.specs.Taking.{IsFound};

use crate::atoms::target_spine;
use crate::scope::Scope;
use crate::smaller::smaller;
use crate::taking::kind_past_argument;
use std::alloc::{AllocError, Global};
use tw_signature::Signature;
use tw_terms::{Kind, Spine, Term, Ty, target};

/// A call, and the target of the clause that makes it, which is an atom; both stand under the quantifiers of the call.
#[derive(Clone, Copy)]
pub struct Call<'a> {
    pub scope: Scope<'a>,
    pub goal: &'a Ty,
    pub head: &'a Ty,
}

/// The argument at a place, counted from 1, if there is one.
fn argument(spine: &Spine, place: u32) -> Option<&Term>
    ensures { option_map (λ m. term_of m.now) result ≡ argument_at place (spine_of spine.now) }
{
    if place == 0 {
        return None;
    }
    spine.args.get(place as usize - 1)
}

/// Whether two places of a call and its clause have the same argument.
pub fn same_places(goal: &Ty, head: &Ty, one: u32, other: u32) -> bool
    ensures { Decides result (IsSameAt (type_of goal.now) (type_of head.now) one other) }
{
    let Some(term) = argument(target_spine(goal), one) else {
        return false;
    };
    let Some(than) = argument(target_spine(head), other) else {
        return false;
    };
    term.same(than)
}

/// Whether the argument of the call is smaller than that of the clause. Fails only for want of memory.
pub fn smaller_places(
    alloc: Global,
    sig: &Signature,
    call: &Call,
    one: u32,
    other: u32,
) -> Result<bool, AllocError>
    requires { AtomStands (signature_of sig.now) call.now.scope.context.now (type_of call.now.head.now) }
    ensures { IfOk result (λ b. Decides b (IsLessAt (signature_of sig.now) call.now one other)) }
{
    let Some(term) = argument(target_spine(call.goal), one) else {
        return Ok(false);
    };
    let Some(than) = argument(target_spine(call.head), other) else {
        return Ok(false);
    };
    match family_place(alloc, sig, call.head, other)? {
        Some(ty) => smaller(alloc, sig, &call.scope, term, than, &ty),
        None => Ok(false),
    }
}

/// The type of the argument at a place of an atom's family, if there is one.
fn family_place(
    alloc: Global,
    sig: &Signature,
    atom: &Ty,
    place: u32,
) -> Result<Option<Ty>, AllocError>
    requires { FamilyTakes (signature_of sig.now) (type_of atom.now) }
    ensures { IfOk result (λ o. IsFound (IsPlaceType (signature_of sig.now) (type_of atom.now) place) (option_map type_of o)) }
{
    match sig.family_kind(target(atom)) {
        Some(kind) => kind_place(alloc, target_spine(atom), kind, place),
        None => Ok(None),
    }
}

/// The same of a family of this kind.
fn kind_place(
    alloc: Global,
    spine: &Spine,
    kind: &Kind,
    place: u32,
) -> Result<Option<Ty>, AllocError>
    requires { KindTakesAll (kind_of kind.now) (spine_of spine.now) }
    ensures { IfOk result (λ o. option_map type_of o ≡ place_type place (spine_of spine.now) (kind_of kind.now)) }
{
    if place == 0 {
        return Ok(None);
    }
    let mut left = place;
    let mut rest = kind.copy(alloc)?;
    for arg in &spine.args {
        if left == 1 {
            return first_domain(alloc, &rest);
        }
        left -= 1;
        rest = kind_past_argument(alloc, &rest, arg)?;
    }
    Ok(None)
}

/// The type of the first argument of a kind, if it takes one.
fn first_domain(alloc: Global, kind: &Kind) -> Result<Option<Ty>, AllocError>
    ensures { IfOk result (λ o. option_map type_of o ≡ domain_of (kind_of kind.now)) }
{
    match kind {
        Kind::Pi(domain, _) => Ok(Some(domain.copy(alloc)?)),
        Kind::Star => Ok(None),
    }
}
