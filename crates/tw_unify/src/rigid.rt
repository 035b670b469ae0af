//! Equations between two lambdas, and between two roots with one constant or variable as their heads.
ghost use Rattle.std.specs.Prelude.{◌≡◌, IfOk, IsErrOf, MatchResult, OnOk, map};
ghost use Rattle.lf.specs.Entries.{signature_of, IsCanonicalSignature};
ghost use Rattle.lf.specs.Syntax.{lambda as lambda_of, pi as pi_of};
ghost use Rattle.lf_unification.specs.Offering.{argument_equations as equations_of_arguments};
ghost use Rattle.lf_unification.specs.Outside.{IsLambda};
ghost use Rattle.tw_terms.specs.OpenView.{open_head_of, open_term_of, open_spine_of, open_type_of};
ghost use Rattle.tw_metas.specs.View.{equation_of};
ghost use Rattle.tw_putting.specs.Domains.{AnyDeep, domains as domains_of, most_levels};
ghost use Rattle.tw_unify.specs.Outcomes.{stacked};
ghost use Rattle.tw_unify.specs.Rigid.{AreAlike, AreLambdas, ArgumentsFit, BlamesArguments, Decomposes, HasArguments, HasHead, IsPi, IsRoot, LeftFits, Opens};

use crate::fault::UnifyFault;
use crate::heads::head_type;
use crate::work::put_on_top;
use std::alloc::{AllocError, Global};
use tw_metas::Equation;
use tw_putting::domains;
use tw_signature::Signature;
use tw_terms::{Open, OpenContext, OpenHead, OpenSpine, OpenTy};

/// Opens the lambdas of both sides, whose type is one of functions.
pub fn open_lambdas(work: &mut Vec<Equation>, equation: Equation) -> Result<(), AllocError>
    requires { AreLambdas (equation_of equation) }
    ensures { OnOk result (Opens (equation_of equation) (stacked work.old.items) (stacked work.new.items)) }
{
    let Equation {
        mut context,
        left,
        right,
        ty,
    } = equation;
    let (domain, range) = domain_and_range(ty);
    context.push(domain)?;
    work.push(Equation {
        context,
        left: body_of(left),
        right: body_of(right),
        ty: range,
    })?;
    Ok(())
}

/// The body of a lambda.
fn body_of(side: Open) -> Open
    requires { IsLambda (open_term_of side) }
    ensures { open_term_of side ≡ lambda_of (open_term_of result) }
{
    match side {
        Open::Lam(body) => Box::into_inner(body),
        Open::Root(_, _) => unreachable!(),
    }
}

/// The parts of a type of functions.
fn domain_and_range(ty: OpenTy) -> (OpenTy, OpenTy)
    requires { IsPi (open_type_of ty) }
    ensures { open_type_of ty ≡ pi_of (open_type_of result.0) (open_type_of result.1) }
{
    match ty {
        OpenTy::Pi(domain, range) => (Box::into_inner(domain), Box::into_inner(range)),
        OpenTy::Atom(_, _) => unreachable!(),
    }
}

/// Puts the equations of the arguments in the place of an equation between two roots with the same constant or variable as their heads. Answers `TooDeep` only where the type of one of
/// these equations is deeper than 8,500.
pub fn decompose(
    alloc: Global,
    signature: &Signature,
    work: &mut Vec<Equation>,
    equation: Equation,
) -> Result<(), UnifyFault>
    requires canonical { IsCanonicalSignature signature.now }
    requires fits { LeftFits (signature_of signature.now) (equation_of equation) }
    requires alike { AreAlike (equation_of equation) }
    ensures { MatchResult result (λ _. Decomposes (signature_of signature.now) (equation_of equation) (stacked work.old.items) (stacked work.new.items)) (λ f. BlamesArguments f (signature_of signature.now) (equation_of equation)) }
{
    let head = head_of(&equation.left);
    let function = head_type(alloc, signature, &equation.context, head)?;
    let Equation {
        context,
        left,
        right,
        ty: _ty,
    } = equation;
    let left = arguments_of(left);
    let right = arguments_of(right);
    let arguments = argument_equations(alloc, &context, &function, left, right)?;
    put_on_top(work, arguments)?;
    Ok(())
}

/// The head of a root.
fn head_of(side: &Open) -> OpenHead
    requires { IsRoot (open_term_of side.now) }
    ensures { HasHead (open_term_of side.now) (open_head_of result) }
{
    match side {
        Open::Root(head, _) => *head,
        Open::Lam(_) => unreachable!(),
    }
}

/// The arguments of a root.
fn arguments_of(side: Open) -> OpenSpine
    requires { IsRoot (open_term_of side) }
    ensures { HasArguments (open_term_of side) (open_spine_of result) }
{
    match side {
        Open::Root(_, spine) => spine,
        Open::Lam(_) => unreachable!(),
    }
}

/// The equations of the arguments of two spines that the type takes, in order. They share the context, and the type goes along them in an environment. Answers `TooDeep` only where the type
/// of an argument is deeper than 8,500.
fn argument_equations(
    alloc: Global,
    context: &OpenContext,
    ty: &OpenTy,
    left: OpenSpine,
    right: OpenSpine,
) -> Result<Vec<Equation>, UnifyFault>
    requires { ArgumentsFit context.now (open_type_of ty.now) (open_spine_of left) }
    ensures ok { IfOk result (λ v. map equation_of v.items ≡ equations_of_arguments context.now (open_type_of ty.now) (open_spine_of left) (open_spine_of right)) }
    ensures too_deep { IsErrOf result UnifyFault.TooDeep → AnyDeep most_levels (domains_of (open_type_of ty.now) (open_spine_of left)) }
{
    let mut types = domains(alloc, ty, &left.args)?;
    types.reverse();
    let mut lefts = left.args;
    lefts.reverse();
    let mut rights = right.args;
    rights.reverse();
    let mut found = Vec::with_capacity(alloc, types.len())?;
    while let Some(ty) = types.pop() {
        match (lefts.pop(), rights.pop()) {
            (Some(left), Some(right)) => {
                let context = context.copy(alloc)?;
                found.push(Equation {
                    context,
                    left,
                    right,
                    ty,
                })?;
            }
            _ => return Ok(found),
        }
    }
    Ok(found)
}
