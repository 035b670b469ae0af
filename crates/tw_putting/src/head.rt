//! The head of a term in an environment: closures and values of metavariables are entered one after another, and nothing is copied.
ghost use Rattle.std.specs.Prelude.{◌≡◌, IfOk};
ghost use Rattle.lf.specs.Syntax.{skeleton};
ghost use Rattle.lf_closures.specs.Environments.{move_by};
ghost use Rattle.lf_closures.specs.Typing.{TakesAll};
ghost use Rattle.tw_terms.specs.OpenView.{open_term_of, open_args_of, open_type_of};
ghost use Rattle.tw_putting.specs.Frames.{Enters, WalkFits};
ghost use Rattle.tw_putting.specs.Values.{put_value};
ghost use Rattle.tw_putting.specs.View.{environment_of, value_of_step, StepFits, value_of_exposed, ExposedFits};

use crate::environment::{Closure, Environment, Found, find, moved_by, placed};
use bumpalo::Bump;
use std::alloc::AllocError;
use tw_metas::Store;
use tw_terms::{Open, OpenHead, OpenSpine, OpenTy};

/// A term whose head is that of its canonical form: a lambda, or a head that stays, over arguments that are still in the environment.
#[derive(Clone, Copy)]
pub enum Exposed<'a> {
    Lam(&'a Open, &'a Environment<'a>),
    Root(OpenHead, &'a OpenSpine, &'a Environment<'a>),
}

/// The outcome of one step: a head that stays, or the body of a closure or a value with its arguments in the environment.
#[derive(Clone, Copy)]
pub enum Step<'a> {
    Exposed(Exposed<'a>),
    Entered(Entered<'a>),
}

/// A term in an environment.
#[derive(Clone, Copy)]
pub struct Entered<'a> {
    pub body: &'a Open,
    pub environment: &'a Environment<'a>,
}

/// The body of a closure, where each lambda took the closure of an argument.
pub fn enter<'a>(
    arena: &'a Bump,
    closure: Closure<'a>,
    args: &'a [Open],
    scope: &'a Environment<'a>,
) -> Result<Entered<'a>, AllocError>
    requires { TakesAll (skeleton (open_type_of closure.ty.now)) (open_term_of closure.term.now) (open_args_of args.now) }
    ensures { IfOk result (λ x. Enters (skeleton (open_type_of closure.entry.ty.now)) (open_term_of closure.entry.term.now) (move_by closure.entry.binders (environment_of closure.entry.scope.now)) (open_args_of args.now) (environment_of scope.now) (open_term_of x.body.now) (environment_of x.environment.now)) }
{
    let mut environment = moved_by(arena, closure.binders, closure.scope)?;
    let mut body = closure.term;
    let mut rest = closure.ty;
    for arg in args {
        match rest {
            OpenTy::Pi(domain, range) => match body {
                Open::Lam(inner) => {
                    let extended = Environment::Extended {
                        ty: domain,
                        term: arg,
                        scope,
                        rest: environment,
                    };
                    environment = placed(arena, extended)?;
                    rest = range;
                    body = inner;
                }
                Open::Root(_, _) => unreachable!(),
            },
            OpenTy::Atom(_, _) => unreachable!(),
        }
    }
    Ok(Entered { body, environment })
}

/// One step: a variable that stands for a closure is replaced by the closure's body, and a metavariable by its value's, moved over the `binders`
/// that stand around the result.
#[inline(never)]
fn take_step<'a>(
    arena: &'a Bump,
    store: &'a Store,
    binders: u64,
    term: &'a Open,
    environment: &'a Environment<'a>,
) -> Result<Step<'a>, AllocError>
    requires { WalkFits store.now.now binders (environment_of environment.now) (open_term_of term.now) }
    ensures value { IfOk result (λ s. value_of_step store.now.now binders s ≡ put_value store.now.now binders (environment_of environment.now) (open_term_of term.now)) }
    ensures fits { IfOk result (λ s. StepFits store.now.now binders s) }
{
    match term {
        Open::Lam(body) => Ok(Step::Exposed(Exposed::Lam(body, environment))),
        Open::Root(OpenHead::Const(constant), spine) => Ok(Step::Exposed(Exposed::Root(
            OpenHead::Const(*constant),
            spine,
            environment,
        ))),
        Open::Root(OpenHead::Var(variable), spine) => match find(environment, *variable)? {
            Found::Variable(renamed) => Ok(Step::Exposed(Exposed::Root(
                OpenHead::Var(renamed),
                spine,
                environment,
            ))),
            Found::Closure(closure) => {
                Ok(Step::Entered(enter(arena, closure, &spine.args, environment)?))
            }
        },
        Open::Root(OpenHead::Meta(meta), spine) => match store.value(*meta) {
            None => Ok(Step::Exposed(Exposed::Root(OpenHead::Meta(*meta), spine, environment))),
            Some(value) => match store.about(*meta) {
                None => unreachable!(),
                Some((_, ty)) => {
                    let scope = placed(arena, Environment::Outside)?;
                    let closure = Closure {
                        ty,
                        term: value,
                        scope,
                        binders,
                    };
                    Ok(Step::Entered(enter(arena, closure, &spine.args, environment)?))
                }
            },
        },
    }
}

/// The term with the head of its canonical form. Steps are counted, and memory counts as used up after 2 ^ 64 - 1 of them.
#[inline(never)]
pub fn expose<'a>(
    arena: &'a Bump,
    store: &'a Store,
    binders: u64,
    term: &'a Open,
    environment: &'a Environment<'a>,
) -> Result<Exposed<'a>, AllocError>
    requires { WalkFits store.now.now binders (environment_of environment.now) (open_term_of term.now) }
    ensures value { IfOk result (λ x. value_of_exposed store.now.now binders x ≡ put_value store.now.now binders (environment_of environment.now) (open_term_of term.now)) }
    ensures fits { IfOk result (λ x. ExposedFits store.now.now binders x) }
{
    let mut here = Entered {
        body: term,
        environment,
    };
    for _ in 0..u64::MAX {
        match take_step(arena, store, binders, here.body, here.environment)? {
            Step::Exposed(exposed) => return Ok(exposed),
            Step::Entered(entered) => here = entered,
        }
    }
    Err(AllocError)
}
