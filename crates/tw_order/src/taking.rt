//! The types of heads and variables, and what is left of a type or a kind that takes an argument.
ghost use Rattle.std.specs.Prelude.{◌≡◌, option_map, Decides, IfOk};
ghost use Rattle.lf.specs.AtOnce.{lift_by};
ghost use Rattle.lf.specs.Entries.{signature_of};
ghost use Rattle.lf.specs.Substitution.{reduce, single, substitute_kind, substitute_type};
ghost use Rattle.lf.specs.Syntax.{kind_pi};
ghost use Rattle.lf.specs.Typing.{TypeAt};
ghost use Rattle.tw_hered.specs.Fits.{KindFits, TypeFits};
ghost use Rattle.tw_terms.specs.View.{head_of, kind_of, skeleton_of, term_of, type_of};
ghost use Rattle.tw_order.specs.Scopes.{fixed_in};
ghost use Rattle.tw_order.specs.Taking.{IsFound, IsPassable, KindTakes, Takes, kind_past, type_past};

use crate::scope::{Scope, is_parameter};
use std::alloc::{AllocError, Global};
use tw_hered::substitute_ty;
use tw_signature::Signature;
use tw_terms::numbers::one_more;
use tw_terms::{Context, Head, Kind, Skeleton, Term, Ty, skeleton, weaken};

/// The type of a head in whose arguments smaller terms stand, if it is one: a constant or a parameter.
pub fn head_type(
    alloc: Global,
    sig: &Signature,
    scope: &Scope,
    head: Head,
) -> Result<Option<Ty>, AllocError>
    ensures { IfOk result (λ o. IsFound (IsPassable (signature_of sig.now) scope.now.context.now (fixed_in scope.now) (head_of head)) (option_map type_of o)) }
{
    match head {
        Head::Const(id) => match sig.constant_type(id) {
            Some(ty) => Ok(Some(ty.copy(alloc)?)),
            None => Ok(None),
        },
        Head::Var(variable) => {
            if !is_parameter(scope, variable) {
                return Ok(None);
            }
            variable_type(alloc, scope.context, variable)
        }
    }
}

/// The type of a variable, moved to the whole scope, if it has one.
fn variable_type(alloc: Global, context: &Context, variable: u64) -> Result<Option<Ty>, AllocError>
    ensures { IfOk result (λ o. IsFound (TypeAt context.now variable) (option_map type_of o)) }
{
    match context.get(variable) {
        Some(ty) => Ok(Some(weaken(alloc, ty, one_more(variable)?)?)),
        None => Ok(None),
    }
}

/// Whether a variable has this type.
pub fn has_type(
    alloc: Global,
    context: &Context,
    variable: u64,
    ty: &Ty,
) -> Result<bool, AllocError>
    ensures { IfOk result (λ b. Decides b (TypeAt context.now variable (type_of ty.now))) }
{
    match variable_type(alloc, context, variable)? {
        Some(own) => Ok(own.same(ty)),
        None => Ok(false),
    }
}

/// The type that is left when a type takes an argument. One that comes out deeper than any typing that was checked wants memory.
pub fn past_argument(alloc: Global, ty: &Ty, arg: &Term) -> Result<Ty, AllocError>
    requires { Takes (type_of ty.now) (term_of arg.now) }
    ensures { IfOk result (λ a. type_of a ≡ type_past (term_of arg.now) (type_of ty.now)) }
{
    match ty {
        Ty::Pi(domain, range) => {
            let shape = skeleton(alloc, domain)?;
            put_in(alloc, range, 0, arg, &shape)
        }
        Ty::Atom(_, _) => ty.copy(alloc),
    }
}

/// The same of a kind.
pub fn kind_past_argument(alloc: Global, kind: &Kind, arg: &Term) -> Result<Kind, AllocError>
    requires { KindTakes (kind_of kind.now) (term_of arg.now) }
    ensures { IfOk result (λ k. kind_of k ≡ kind_past (term_of arg.now) (kind_of kind.now)) }
{
    match kind {
        Kind::Pi(domain, rest) => {
            let shape = skeleton(alloc, domain)?;
            put_in_kind(alloc, rest, 0, arg, &shape)
        }
        Kind::Star => Ok(Kind::Star),
    }
}

/// The kind with an argument put in for a variable.
fn put_in_kind(
    alloc: Global,
    kind: &Kind,
    index: u64,
    arg: &Term,
    shape: &Skeleton,
) -> Result<Kind, AllocError>
    requires { KindFits (lift_by index (single (skeleton_of shape.now) (term_of arg.now))) (kind_of kind.now) }
    ensures { IfOk result (λ k. kind_of k ≡ substitute_kind reduce (lift_by index (single (skeleton_of shape.now) (term_of arg.now))) (kind_of kind.now)) }
{
    match kind {
        Kind::Pi(domain, rest) => {
            let inside = one_more(index)?;
            let domain = put_in(alloc, domain, index, arg, shape)?;
            let rest = put_in_kind(alloc, rest, inside, arg, shape)?;
            pi(alloc, domain, rest)
        }
        Kind::Star => Ok(Kind::Star),
    }
}

fn pi(alloc: Global, domain: Ty, rest: Kind) -> Result<Kind, AllocError>
    ensures { IfOk result (λ k. kind_of k ≡ kind_pi (type_of domain) (kind_of rest)) }
{
    let domain = Box::new(alloc, domain)?;
    Ok(Kind::Pi(domain, Box::new(alloc, rest)?))
}

/// The type with an argument put in for a variable. One that comes out deeper than 4,096 isn't made, and memory counts as used up.
fn put_in(
    alloc: Global,
    ty: &Ty,
    index: u64,
    arg: &Term,
    shape: &Skeleton,
) -> Result<Ty, AllocError>
    requires { TypeFits (lift_by index (single (skeleton_of shape.now) (term_of arg.now))) (type_of ty.now) }
    ensures { IfOk result (λ a. type_of a ≡ substitute_type reduce (lift_by index (single (skeleton_of shape.now) (term_of arg.now))) (type_of ty.now)) }
{
    match substitute_ty(alloc, ty, index, arg, shape) {
        Ok(ty) => Ok(ty),
        Err(_) => Err(AllocError),
    }
}
