//! Whether a term is smaller than another.
ghost use Rattle.std.specs.Prelude.{◌≡◌, ◌<◌, true, Decides, IfOk};
ghost use Rattle.lf.specs.Entries.{signature_of};
ghost use Rattle.lf.specs.Syntax.{LfType, app, lambda, nil, pi, root};
ghost use Rattle.tw_terms.specs.View.{head_of, spine_of, term_of, type_of};
ghost use Rattle.tw_order.specs.Scopes.{local_in};
ghost use Rattle.tw_order.specs.Smaller.{IsInArguments, IsInBody, IsInFirst, IsSmaller, IsSmallerOrEqual};
ghost use Rattle.tw_order.specs.Taking.{RootStands, SpineStands, TermStands};

use crate::put::{put_variable, put_variable_in_type};
use crate::scope::Scope;
use crate::taking::{has_type, head_type, past_argument};
use std::alloc::{AllocError, Global};
use tw_signature::Signature;
use tw_terms::{Head, Spine, Term, Ty};

/// Whether a term is smaller than another one, which has this type. Fails only for want of memory. Under a lambda each local variable of its type is tried, so that k of one type and d nested
/// lambdas have up to k to the d terms to come to.
#[cycle(smaller)]
pub fn smaller(
    alloc: Global,
    sig: &Signature,
    scope: &Scope,
    term: &Term,
    than: &Term,
    ty: &Ty,
) -> Result<bool, AllocError>
    requires { TermStands (signature_of sig.now) scope.now.context.now (term_of than.now) (type_of ty.now) }
    ensures { IfOk result (λ b. Decides b (IsSmaller (signature_of sig.now) scope.now (term_of term.now) (term_of than.now) (type_of ty.now))) }
{
    match than {
        Term::Root(head, spine) => under_head(alloc, sig, scope, term, *head, spine),
        Term::Lam(body) => match ty {
            Ty::Pi(domain, range) => { under_lambda(alloc, sig, scope, term, body, domain, range) }
            Ty::Atom(_, _) => Ok(false),
        },
    }
}

/// Whether it is smaller than this head on these arguments.
#[cycle(smaller)]
fn under_head(
    alloc: Global,
    sig: &Signature,
    scope: &Scope,
    term: &Term,
    head: Head,
    spine: &Spine,
) -> Result<bool, AllocError>
    requires { RootStands (signature_of sig.now) scope.now.context.now (head_of head) (spine_of spine.now) }
    ensures { IfOk result (λ b. (A : LfType) → Decides b (IsSmaller (signature_of sig.now) scope.now (term_of term.now) (root (head_of head) (spine_of spine.now)) A)) }
{
    match head_type(alloc, sig, scope, head)? {
        Some(function) => in_arguments(alloc, sig, scope, term, spine, function),
        None => Ok(false),
    }
}

/// Whether it is one of the arguments of a head of this type, or smaller than one.
#[cycle(smaller)]
fn in_arguments(
    alloc: Global,
    sig: &Signature,
    scope: &Scope,
    term: &Term,
    spine: &Spine,
    function: Ty,
) -> Result<bool, AllocError>
    requires { SpineStands (signature_of sig.now) scope.now.context.now (spine_of spine.now) (type_of function) }
    ensures { IfOk result (λ b. Decides b (IsInArguments (signature_of sig.now) scope.now (term_of term.now) (spine_of spine.now) (type_of function))) }
{
    let mut ty = function;
    for arg in &spine.args {
        if in_argument(alloc, sig, scope, term, arg, &ty)? {
            return Ok(true);
        }
        ty = past_argument(alloc, &ty, arg)?;
    }
    Ok(false)
}

/// Whether it is the first argument of a head of this type, or smaller.
#[cycle(smaller)]
fn in_argument(
    alloc: Global,
    sig: &Signature,
    scope: &Scope,
    term: &Term,
    arg: &Term,
    ty: &Ty,
) -> Result<bool, AllocError>
    requires { SpineStands (signature_of sig.now) scope.now.context.now (app (term_of arg.now) nil) (type_of ty.now) }
    ensures { IfOk result (λ b. Decides b (IsInFirst (signature_of sig.now) scope.now (term_of term.now) (term_of arg.now) (type_of ty.now))) }
{
    match ty {
        Ty::Pi(domain, _) => smaller_or_equal(alloc, sig, scope, term, arg, domain),
        Ty::Atom(_, _) => Ok(false),
    }
}

/// Whether it is the other, or smaller.
#[cycle(smaller)]
fn smaller_or_equal(
    alloc: Global,
    sig: &Signature,
    scope: &Scope,
    term: &Term,
    than: &Term,
    ty: &Ty,
) -> Result<bool, AllocError>
    requires { TermStands (signature_of sig.now) scope.now.context.now (term_of than.now) (type_of ty.now) }
    ensures { IfOk result (λ b. Decides b (IsSmallerOrEqual (signature_of sig.now) scope.now (term_of term.now) (term_of than.now) (type_of ty.now))) }
{
    if term.same(than) {
        return Ok(true);
    }
    smaller(alloc, sig, scope, term, than, ty)
}

/// Whether it is smaller than the lambda with this body: the body with a local variable of the domain in it, or smaller.
#[cycle(smaller)]
fn under_lambda(
    alloc: Global,
    sig: &Signature,
    scope: &Scope,
    term: &Term,
    body: &Term,
    domain: &Ty,
    range: &Ty,
) -> Result<bool, AllocError>
    requires { TermStands (signature_of sig.now) scope.now.context.now (lambda (term_of body.now)) (pi (type_of domain.now) (type_of range.now)) }
    ensures { IfOk result (λ b. Decides b (IsSmaller (signature_of sig.now) scope.now (term_of term.now) (lambda (term_of body.now)) (pi (type_of domain.now) (type_of range.now)))) }
{
    for variable in 0..scope.locals {
        if in_body(alloc, sig, scope, term, body, domain, range, variable)? {
            return Ok(true);
        }
    }
    Ok(false)
}

/// The same with this variable in the body.
#[cycle(smaller)]
fn in_body(
    alloc: Global,
    sig: &Signature,
    scope: &Scope,
    term: &Term,
    body: &Term,
    domain: &Ty,
    range: &Ty,
    variable: u64,
) -> Result<bool, AllocError>
    requires { TermStands (signature_of sig.now) scope.now.context.now (lambda (term_of body.now)) (pi (type_of domain.now) (type_of range.now)) }
    ensures { IfOk result (λ b. Decides b (IsInBody (signature_of sig.now) scope.now (term_of term.now) (term_of body.now) (type_of domain.now) (type_of range.now) variable)) }
{
    if !has_type(alloc, scope.context, variable, domain)? {
        return Ok(false);
    }
    let body = put_variable(alloc, body, variable)?;
    let range = put_variable_in_type(alloc, range, variable)?;
    smaller_or_equal(alloc, sig, scope, term, &body, &range)
}
