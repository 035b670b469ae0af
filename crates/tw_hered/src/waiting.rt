//! What waits for a canonical form: the lambdas and heads that stand around it in the result, so that a walk nests on the heap and not on the machine's stack.
ghost use Rattle.std.specs.Prelude.{◌≡◌, ℕ, ◌<◌, ◌≤◌, ◌-◌, length, IfOk};
ghost use Rattle.lf.specs.Syntax.{lambda, root};
ghost use Rattle.lf.specs.Depth.{depth};
ghost use Rattle.lf_closures.specs.Environments.{value_in, spine_value_in};
ghost use Rattle.lf_closures.specs.Typing.{ClosureFits, SpineClosureFits};
ghost use Rattle.tw_terms.specs.View.{head_of, term_of, args_of};
ghost use Rattle.tw_hered.specs.View.{environment_of};
ghost use Rattle.tw_hered.specs.Waiting.{whole, AllFit, AllShallow, value_of_next, NextFits, NextIsShallow};

use crate::environment::Environment;
use crate::head::Entered;
use std::alloc::{AllocError, Global};
use tw_terms::{Head, Spine, Term};

/// What waits for a canonical form.
#[derive(Drop)]
pub enum Waiting<'a> {
    /// A lambda, for its body.
    Lambda,
    /// A head, whose arguments so far are `made`, for the next one; behind it come those in `rest`, which are still in the environment.
    Argument {
        head: Head,
        made: Vec<Term>,
        rest: &'a [Term],
        environment: &'a Environment<'a>,
    },
}

/// How a walk goes on: with the next term whose canonical form is made, or nowhere, since the whole is made.
#[derive(Drop)]
pub enum Next<'a> {
    Going(Entered<'a>),
    Made(Term),
}

/// Goes on with the body of a lambda, in the environment inside it.
#[inline(never)]
pub fn begin_body<'a>(
    waiting: &mut Vec<Waiting<'a>>,
    body: &'a Term,
    inside: &'a Environment<'a>,
) -> Result<Next<'a>, AllocError>
    requires waiting { AllFit waiting.old.items }
    requires fits { ClosureFits (environment_of inside.now) (term_of body.now) }
    ensures value { IfOk result (λ r. value_of_next waiting.new.items r ≡ whole waiting.old.items (lambda (value_in (environment_of inside.now) (term_of body.now)))) }
    ensures waiting { IfOk result (λ r. AllFit waiting.new.items) }
    ensures fits { IfOk result (λ r. NextFits r) }
    ensures shallow { IfOk result (λ r. (n : ℕ) → length waiting.old.items < n → AllShallow n waiting.old.items → NextIsShallow n waiting.new.items r) }
{
    waiting.push(Waiting::Lambda)?;
    Ok(Next::Going(Entered {
        body,
        environment: inside,
    }))
}

/// Goes on with the first argument of a head, if it has one, and else with what waits for the head alone.
#[inline(never)]
pub fn begin_arguments<'a>(
    alloc: Global,
    waiting: &mut Vec<Waiting<'a>>,
    head: Head,
    args: &'a [Term],
    environment: &'a Environment<'a>,
) -> Result<Next<'a>, AllocError>
    requires waiting { AllFit waiting.old.items }
    requires fits { SpineClosureFits (environment_of environment.now) (args_of args.now) }
    ensures value { IfOk result (λ r. value_of_next waiting.new.items r ≡ whole waiting.old.items (root (head_of head) (spine_value_in (environment_of environment.now) (args_of args.now)))) }
    ensures waiting { IfOk result (λ r. AllFit waiting.new.items) }
    ensures fits { IfOk result (λ r. NextFits r) }
    ensures shallow { IfOk result (λ r. (n : ℕ) → length waiting.old.items < n → AllShallow n waiting.old.items → NextIsShallow n waiting.new.items r) }
{
    match args.split_first() {
        Some((first, rest)) => {
            waiting.push(Waiting::Argument {
                head,
                made: Vec::with_capacity(alloc, args.len())?,
                rest,
                environment,
            })?;
            Ok(Next::Going(Entered {
                body: first,
                environment,
            }))
        }
        None => {
            let args = Vec::new(alloc);
            put_back(alloc, waiting, Term::Root(head, Spine { args }))
        }
    }
}

/// Gives what is made to what waits for it, until an argument is due or the whole is made.
#[inline(never)]
pub fn put_back<'a>(
    alloc: Global,
    waiting: &mut Vec<Waiting<'a>>,
    made: Term,
) -> Result<Next<'a>, AllocError>
    requires { AllFit waiting.old.items }
    ensures value { IfOk result (λ r. value_of_next waiting.new.items r ≡ whole waiting.old.items (term_of made)) }
    ensures waiting { IfOk result (λ r. AllFit waiting.new.items) }
    ensures fits { IfOk result (λ r. NextFits r) }
    ensures shallow { IfOk result (λ r. (n : ℕ) → length waiting.old.items ≤ n → AllShallow n waiting.old.items → depth (term_of made) ≤ n - length waiting.old.items → NextIsShallow n waiting.new.items r) }
{
    let mut term = made;
    while let Some(last) = waiting.pop() {
        match last {
            Waiting::Lambda => term = Term::Lam(Box::new(alloc, term)?),
            Waiting::Argument {
                head,
                mut made,
                rest,
                environment,
            } => {
                made.push(term)?;
                match rest.split_first() {
                    Some((first, rest)) => {
                        waiting.push(Waiting::Argument {
                            head,
                            made,
                            rest,
                            environment,
                        })?;
                        return Ok(Next::Going(Entered {
                            body: first,
                            environment,
                        }));
                    }
                    None => term = Term::Root(head, Spine { args: made }),
                }
            }
        }
    }
    Ok(Next::Made(term))
}
