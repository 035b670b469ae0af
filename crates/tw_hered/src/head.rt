//! The head of a term in an environment: closures are entered one after another, and nothing is copied.
ghost use Rattle.std.specs.Prelude.{◌≡◌, IfOk, option_map};
ghost use Rattle.std.specs.List.{list_any};
ghost use Rattle.lf_closures.specs.Environments.{move_by, value_in, applied_in};
ghost use Rattle.lf_closures.specs.Typing.{ClosureFits, ClosureApplies};
ghost use Rattle.tw_terms.specs.View.{term_of, args_of, skeleton_of};
ghost use Rattle.tw_hered.specs.View.{environment_of, value_of_step, StepFits, value_of_exposed, ExposedFits};
ghost use Rattle.tw_hered.specs.Made.{AreMade, applies_closure, first_made, rest_made, with_argument};

use crate::environment::{Closure, Environment, Found, find, moved_by, placed};
use bumpalo::Bump;
use std::alloc::AllocError;
use tw_terms::{Head, Skeleton, Spine, Term};

/// What a term comes to: a lambda, or a head that stays, over arguments that are still in the environment; or a closure whose arguments are made first.
#[derive(Clone, Copy)]
pub enum Exposed<'a> {
    Lam(&'a Term, &'a Environment<'a>),
    Root(Head, &'a Spine, &'a Environment<'a>),
    /// A closure on arguments of which some are functions that apply closures themselves: each is made once, before the closure's body is entered.
    Applied(Closure<'a>, &'a [Term], &'a Environment<'a>),
}

/// The outcome of one step: a head that stays, or the body of a closure with its arguments in the environment.
#[derive(Clone, Copy)]
pub enum Step<'a> {
    Exposed(Exposed<'a>),
    Entered(Entered<'a>),
}

/// A term in an environment.
#[derive(Clone, Copy)]
pub struct Entered<'a> {
    pub body: &'a Term,
    pub environment: &'a Environment<'a>,
}

/// The body of a closure, where each lambda took the closure of an argument, or the argument's canonical form where it is made.
pub fn enter<'a>(
    arena: &'a Bump,
    closure: Closure<'a>,
    args: &'a [Term],
    made: &'a [Option<Term>],
    scope: &'a Environment<'a>,
) -> Result<Entered<'a>, AllocError>
    requires applies { ClosureApplies (skeleton_of closure.skeleton.now) (term_of closure.term.now) (move_by closure.binders (environment_of closure.scope.now)) (args_of args.now) (environment_of scope.now) }
    requires made { AreMade (environment_of scope.now) made.now args.now }
    ensures value { IfOk result (λ x. value_in (environment_of x.environment.now) (term_of x.body.now) ≡ applied_in (skeleton_of closure.entry.skeleton.now) (term_of closure.entry.term.now) (move_by closure.entry.binders (environment_of closure.entry.scope.now)) (args_of args.now) (environment_of scope.now)) }
    ensures fits { IfOk result (λ x. ClosureFits (environment_of x.environment.now) (term_of x.body.now)) }
{
    let mut environment = moved_by(arena, closure.binders, closure.scope)?;
    let mut body = closure.term;
    let mut rest = closure.skeleton;
    let mut left = made;
    for arg in args {
        match rest {
            Skeleton::Arrow(domain, range) => match body {
                Term::Lam(inner) => {
                    let (ready, others) = next_made(left);
                    environment = taken(arena, domain, arg, ready, scope, environment)?;
                    left = others;
                    rest = range;
                    body = inner;
                }
                Term::Root(_, _) => unreachable!(),
            },
            Skeleton::Base(_) => unreachable!(),
        }
    }
    Ok(Entered { body, environment })
}

/// The first of what is made, if it is, and what comes behind it.
fn next_made<'a>(made: &'a [Option<Term>]) -> (Option<&'a Term>, &'a [Option<Term>])
    ensures first { option_map (λ m. m.now) result.0 ≡ first_made made.now }
    ensures rest { result.1.now ≡ rest_made made.now }
{
    match made.split_first() {
        Some((first, rest)) => (first.as_ref(), rest),
        None => (None, made),
    }
}

/// The environment with an argument in front: in its canonical form where it is made, and else as a closure.
fn taken<'a>(
    arena: &'a Bump,
    skeleton: &'a Skeleton,
    arg: &'a Term,
    made: Option<&'a Term>,
    scope: &'a Environment<'a>,
    rest: &'a Environment<'a>,
) -> Result<&'a Environment<'a>, AllocError>
    ensures { IfOk result (λ e. environment_of e.now ≡ with_argument (skeleton_of skeleton.now) (term_of arg.now) (option_map (λ m. m.now) made.entry) (environment_of scope.now) (environment_of rest.now)) }
{
    match made {
        Some(term) => {
            let outside = placed(arena, Environment::Outside)?;
            let extended = Environment::Extended {
                skeleton,
                term,
                scope: outside,
                rest,
            };
            placed(arena, extended)
        }
        None => {
            let extended = Environment::Extended {
                skeleton,
                term: arg,
                scope,
                rest,
            };
            placed(arena, extended)
        }
    }
}

/// Whether the term is a function that applies a closure at once, so that its body would be run anew at each use. Fails only where no context in memory is so long.
pub fn is_unmade<'a>(term: &'a Term, environment: &'a Environment<'a>) -> Result<bool, AllocError>
    ensures { IfOk result (λ b. b ≡ applies_closure (environment_of environment.now) 0 (term_of term.now)) }
{
    let mut bound: u64 = 0;
    let mut body = term;
    while let Term::Lam(inner) = body {
        bound = bound.checked_add(1).ok_or(AllocError)?;
        body = inner;
    }
    match body {
        Term::Root(Head::Var(variable), _) if bound > 0 => {
            let inside = Environment::Under(bound, environment);
            match find(&inside, *variable)? {
                Found::Closure(_) => Ok(true),
                Found::Variable(_) => Ok(false),
            }
        }
        _ => Ok(false),
    }
}

/// Whether one of the arguments does.
fn has_unmade<'a>(args: &'a [Term], environment: &'a Environment<'a>) -> Result<bool, AllocError>
    ensures { IfOk result (λ b. b ≡ list_any (λ t. applies_closure (environment_of environment.now) 0 (term_of t)) args.now) }
{
    for arg in args {
        if is_unmade(arg, environment)? {
            return Ok(true);
        }
    }
    Ok(false)
}

/// One step: a variable that stands for a closure is replaced by the closure's body.
#[inline(never)]
fn take_step<'a>(
    arena: &'a Bump,
    term: &'a Term,
    environment: &'a Environment<'a>,
    makes: bool,
) -> Result<Step<'a>, AllocError>
    requires { ClosureFits (environment_of environment.now) (term_of term.now) }
    ensures value { IfOk result (λ s. value_of_step s ≡ value_in (environment_of environment.now) (term_of term.now)) }
    ensures fits { IfOk result (λ s. StepFits s) }
{
    match term {
        Term::Lam(body) => Ok(Step::Exposed(Exposed::Lam(body, environment))),
        Term::Root(Head::Const(constant), spine) => {
            Ok(Step::Exposed(Exposed::Root(Head::Const(*constant), spine, environment)))
        }
        Term::Root(Head::Var(variable), spine) => match find(environment, *variable)? {
            Found::Variable(renamed) => {
                Ok(Step::Exposed(Exposed::Root(Head::Var(renamed), spine, environment)))
            }
            Found::Closure(closure) => {
                if makes && has_unmade(&spine.args, environment)? {
                    return Ok(Step::Exposed(Exposed::Applied(closure, &spine.args, environment)));
                }
                Ok(Step::Entered(enter(arena, closure, &spine.args, &[], environment)?))
            }
        },
    }
}

/// Takes one of the steps that are left. Fails where none is.
fn spend(steps: &mut u64) -> Result<(), AllocError> {
    *steps = steps.checked_sub(1).ok_or(AllocError)?;
    Ok(())
}

/// The term with the head of its canonical form, or, where the caller `makes` arguments, the first closure on the way that has some to be made. Steps are counted, and
/// memory counts as used up after 2 ^ 64 - 1 of them. In a term that is made as an argument each also takes one of `steps`, and memory counts as used up where none is left.
#[inline(never)]
pub fn expose<'a>(
    arena: &'a Bump,
    term: &'a Term,
    environment: &'a Environment<'a>,
    makes: bool,
    as_argument: bool,
    steps: &mut u64,
) -> Result<Exposed<'a>, AllocError>
    requires { ClosureFits (environment_of environment.now) (term_of term.now) }
    ensures value { IfOk result (λ x. value_of_exposed x ≡ value_in (environment_of environment.now) (term_of term.now)) }
    ensures fits { IfOk result (λ x. ExposedFits x) }
{
    let mut here = Entered {
        body: term,
        environment,
    };
    for _ in 0..u64::MAX {
        if as_argument {
            spend(steps)?;
        }
        match take_step(arena, here.body, here.environment, makes)? {
            Step::Exposed(exposed) => return Ok(exposed),
            Step::Entered(entered) => here = entered,
        }
    }
    Err(AllocError)
}
