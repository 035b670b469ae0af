//! Canonical forms of terms and types in an environment, built from their heads inward.
ghost use Rattle.std.specs.Prelude.{◌≡◌, ◌≤◌, ◌<◌, ◌++◌, ◌∷◌, [], length, IfOk, IsErrOf};
ghost use Rattle.lf.specs.Syntax.{pi as pi_of};
ghost use Rattle.lf.specs.Depth.{depth, spine_depth, type_depth};
ghost use Rattle.lf_closures.specs.Environments.{move_by, value_in, spine_value_in, type_value_in, applied_in};
ghost use Rattle.lf_closures.specs.Typing.{ClosureFits, SpineClosureFits, TypeClosureFits, ClosureApplies};
ghost use Rattle.tw_terms.specs.View.{term_of, spine_of, args_of, type_of, skeleton_of};
ghost use Rattle.tw_hered.specs.View.{environment_of};
ghost use Rattle.tw_hered.specs.Made.{IsMade};
ghost use Rattle.tw_hered.specs.Waiting.{whole, AllFit, AllShallow, value_of_next, NextFits, NextIsShallow};

use crate::environment::{Closure, Environment, under_binder};
use crate::fault::HeredFault;
use crate::head::{Entered, Exposed, enter, expose, is_unmade};
use crate::waiting::{Next, Waiting, begin_arguments, begin_body, put_back};
use bumpalo::Bump;
use std::alloc::{AllocError, Global};
use tw_terms::{DEPTH_LIMIT, Spine, Term, Ty};

/// The greatest depth of a result.
pub const LEVELS: u64 = DEPTH_LIMIT as u64;

/// How many calls of `apply_made` nest at most, one in another; past these arguments are taken as closures. Each takes some of the machine's stack.
pub const NESTED: u32 = 1_000;

/// How many steps the arguments that are made take at most in one call from outside; past these arguments are taken as closures. So one that is large, and dropped
/// when it is made, costs no more than that.
pub const STEPS: u64 = 1 << 22;

/// The canonical form of the term in the environment. Answers `TooDeep` where it is deeper than `levels`. Of calls that make arguments first, `nested` may nest,
/// and what they make takes no more than `steps`. A term that is made as an argument itself takes from these, and counts memory as used up where none is left.
/// What stands around the term that is made next waits on the heap. Terms are counted, and memory counts as used up after 2 ^ 64 - 1 of them.
#[cycle(normal)]
pub fn normal_term<'a>(
    alloc: Global,
    arena: &'a Bump,
    term: &'a Term,
    environment: &'a Environment<'a>,
    levels: u64,
    nested: u32,
    as_argument: bool,
    steps: &mut u64,
) -> Result<Term, HeredFault>
    requires { ClosureFits (environment_of environment.now) (term_of term.now) }
    ensures ok { IfOk result (λ m. term_of m ≡ value_in (environment_of environment.now) (term_of term.now)) }
    ensures shallow { IfOk result (λ m. depth (term_of m) ≤ levels) }
    ensures too_deep { IsErrOf result HeredFault.TooDeep → levels < depth (value_in (environment_of environment.now) (term_of term.now)) }
{
    let mut waiting = Vec::new(alloc);
    let mut here = Entered {
        body: term,
        environment,
    };
    for _ in 0..u64::MAX {
        match step(
            alloc,
            arena,
            &mut waiting,
            here,
            levels,
            nested,
            as_argument,
            steps,
        ) {
            Ok(next) => match next {
                Next::Going(entered) => here = entered,
                Next::Made(whole) => return Ok(whole),
            },
            Err(fault) => return Err(fault),
        }
    }
    // Each turn makes a step; no measure of the term is proved to fall, so the turns are counted.
    Err(HeredFault::NoMemory)
}

/// Makes the head of the next term, and gives it to what waits for it. Answers `TooDeep` where `levels` lambdas and heads stand around the term.
#[cycle(normal)]
#[inline(never)]
fn step<'a>(
    alloc: Global,
    arena: &'a Bump,
    waiting: &mut Vec<Waiting<'a>>,
    here: Entered<'a>,
    levels: u64,
    nested: u32,
    as_argument: bool,
    steps: &mut u64,
) -> Result<Next<'a>, HeredFault>
    requires waiting { AllFit waiting.old.items }
    requires fits { ClosureFits (environment_of here.environment.now) (term_of here.body.now) }
    ensures value { IfOk result (λ r. value_of_next waiting.new.items r ≡ whole waiting.old.items (value_in (environment_of here.entry.environment.now) (term_of here.entry.body.now))) }
    ensures waiting { IfOk result (λ r. AllFit waiting.new.items) }
    ensures fits { IfOk result (λ r. NextFits r) }
    ensures shallow { IfOk result (λ r. length waiting.old.items ≤ levels → AllShallow levels waiting.old.items → NextIsShallow levels waiting.new.items r) }
    ensures too_deep { IsErrOf result HeredFault.TooDeep → levels < depth (whole waiting.old.items (value_in (environment_of here.entry.environment.now) (term_of here.entry.body.now))) }
{
    let around = waiting.len() as u64;
    if around >= levels {
        return Err(HeredFault::TooDeep);
    }
    let makes = nested > 0 && *steps > 0;
    match expose(
        arena,
        here.body,
        here.environment,
        makes,
        as_argument,
        steps,
    )? {
        Exposed::Lam(body, outer) => {
            let inside = under_binder(arena, outer)?;
            Ok(begin_body(waiting, body, inside)?)
        }
        Exposed::Root(head, spine, scope) => {
            Ok(begin_arguments(alloc, waiting, head, &spine.args, scope)?)
        }
        Exposed::Applied(closure, args, scope) => {
            let left = levels - around;
            match apply_made(
                alloc,
                arena,
                closure,
                args,
                scope,
                left,
                nested,
                as_argument,
                steps,
            ) {
                Ok(made) => Ok(put_back(alloc, waiting, made)?),
                Err(fault) => Err(fault),
            }
        }
    }
}

/// The canonical form of a closure on arguments. Those that are functions which apply closures are made first, so that none is run anew at each use; one that comes
/// out too deep, or takes too much, is taken as a closure, since it may be dropped. Answers `TooDeep` where the whole is deeper than `levels`.
#[cycle(normal)]
#[inline(never)]
fn apply_made<'a>(
    alloc: Global,
    arena: &'a Bump,
    closure: Closure<'a>,
    args: &'a [Term],
    scope: &'a Environment<'a>,
    levels: u64,
    nested: u32,
    as_argument: bool,
    steps: &mut u64,
) -> Result<Term, HeredFault>
    requires { ClosureApplies (skeleton_of closure.skeleton.now) (term_of closure.term.now) (move_by closure.binders (environment_of closure.scope.now)) (args_of args.now) (environment_of scope.now) }
    ensures ok { IfOk result (λ m. term_of m ≡ applied_in (skeleton_of closure.entry.skeleton.now) (term_of closure.entry.term.now) (move_by closure.entry.binders (environment_of closure.entry.scope.now)) (args_of args.now) (environment_of scope.now)) }
    ensures shallow { IfOk result (λ m. depth (term_of m) ≤ levels) }
    ensures too_deep { IsErrOf result HeredFault.TooDeep → levels < depth (applied_in (skeleton_of closure.entry.skeleton.now) (term_of closure.entry.term.now) (move_by closure.entry.binders (environment_of closure.entry.scope.now)) (args_of args.now) (environment_of scope.now)) }
{
    let Some(fewer) = nested.checked_sub(1) else {
        // The machine's stack is memory too, and no nested call is left.
        return Err(HeredFault::NoMemory);
    };
    let mut made = Vec::with_capacity(alloc, args.len())?;
    for arg in args {
        let argument = made_argument(alloc, arena, arg, scope, fewer, steps)?;
        push_made(&mut made, argument)?;
    }
    let closure = Closure {
        skeleton: &*closure.skeleton,
        term: &*closure.term,
        scope: &*closure.scope,
        binders: closure.binders,
    };
    let entered = enter(&*arena, closure, &*args, &made, &*scope)?;
    normal_term(
        alloc,
        &*arena,
        entered.body,
        entered.environment,
        levels,
        fewer,
        as_argument,
        steps,
    )
}

/// The canonical form of an argument that is a function which applies a closure; none of another argument, nor where its canonical form is too deep or takes too much.
#[cycle(normal)]
#[inline(never)]
fn made_argument<'a>(
    alloc: Global,
    arena: &'a Bump,
    arg: &'a Term,
    scope: &'a Environment<'a>,
    nested: u32,
    steps: &mut u64,
) -> Result<Option<Term>, AllocError>
    requires { ClosureFits (environment_of scope.now) (term_of arg.now) }
    ensures { IfOk result (λ m. IsMade (environment_of scope.now) m arg.now) }
{
    if !is_unmade(arg, scope)? {
        return Ok(None);
    }
    match normal_term(alloc, arena, arg, scope, LEVELS, nested, true, steps) {
        Ok(term) => Ok(Some(term)),
        Err(_) => Ok(None),
    }
}

/// One more argument at the end.
fn push_made(made: &mut Vec<Option<Term>>, argument: Option<Term>) -> Result<(), AllocError>
    ensures { IfOk result (λ _. made.new.items ≡ made.old.items ++ argument ∷ []) }
{
    Ok(made.push(argument)?)
}

/// The canonical forms of the arguments of a family. Answers `TooDeep` where one is deeper than `levels`.
fn normal_spine<'a>(
    alloc: Global,
    arena: &'a Bump,
    spine: &'a Spine,
    environment: &'a Environment<'a>,
    levels: u64,
    steps: &mut u64,
) -> Result<Spine, HeredFault>
    requires { SpineClosureFits (environment_of environment.now) (spine_of spine.now) }
    ensures ok { IfOk result (λ s. spine_of s ≡ spine_value_in (environment_of environment.now) (spine_of spine.now)) }
    ensures shallow { IfOk result (λ s. spine_depth (spine_of s) ≤ levels) }
    ensures too_deep { IsErrOf result HeredFault.TooDeep → levels < spine_depth (spine_value_in (environment_of environment.now) (spine_of spine.now)) }
{
    let mut args = Vec::with_capacity(alloc, spine.args.len())?;
    for arg in &spine.args {
        match normal_term(alloc, arena, arg, environment, levels, NESTED, false, steps) {
            Ok(arg) => push(&mut args, arg)?,
            Err(fault) => return Err(fault),
        }
    }
    Ok(Spine { args })
}

/// The canonical form of the type in the environment. Answers `TooDeep` where it is deeper than `levels`.
pub fn normal_type<'a>(
    alloc: Global,
    arena: &'a Bump,
    ty: &'a Ty,
    environment: &'a Environment<'a>,
    levels: u64,
    steps: &mut u64,
) -> Result<Ty, HeredFault>
    requires { TypeClosureFits (environment_of environment.now) (type_of ty.now) }
    ensures ok { IfOk result (λ a. type_of a ≡ type_value_in (environment_of environment.now) (type_of ty.now)) }
    ensures shallow { IfOk result (λ a. type_depth (type_of a) ≤ levels) }
    ensures too_deep { IsErrOf result HeredFault.TooDeep → levels < type_depth (type_value_in (environment_of environment.now) (type_of ty.now)) }
{
    if levels == 0 {
        return Err(HeredFault::TooDeep);
    }
    match ty {
        Ty::Pi(domain, range) => {
            let domain = match normal_type(alloc, arena, domain, environment, levels - 1, steps) {
                Ok(domain) => domain,
                Err(fault) => return Err(fault),
            };
            let inside = under_binder(arena, environment)?;
            match normal_type(alloc, arena, range, inside, levels - 1, steps) {
                Ok(range) => Ok(pi(alloc, domain, range)?),
                Err(fault) => Err(fault),
            }
        }
        Ty::Atom(family, spine) => {
            match normal_spine(alloc, arena, spine, environment, levels - 1, steps) {
                Ok(spine) => Ok(Ty::Atom(*family, spine)),
                Err(fault) => Err(fault),
            }
        }
    }
}

/// The product of a domain and a range.
fn pi(alloc: Global, domain: Ty, range: Ty) -> Result<Ty, AllocError>
    ensures { IfOk result (λ a. type_of a ≡ pi_of (type_of domain) (type_of range)) }
{
    let domain = Box::new(alloc, domain)?;
    Ok(Ty::Pi(domain, Box::new(alloc, range)?))
}

/// One more argument at the end.
pub fn push(args: &mut Vec<Term>, arg: Term) -> Result<(), AllocError>
    ensures { IfOk result (λ _. args.new.items ≡ args.old.items ++ arg ∷ []) }
{
    Ok(args.push(arg)?)
}
