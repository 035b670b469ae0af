//! Environments: what stands for the variables of a term, without putting it in.
ghost use Rattle.std.specs.Prelude.{◌≡◌, IfOk};
ghost use Rattle.lf_closures.specs.Environments.{under_one_more, move_by, found};
ghost use Rattle.tw_hered.specs.View.{environment_of, found_of};

use bumpalo::Bump;
use std::alloc::AllocError;
use tw_terms::{Skeleton, Term};

/// What stands for each variable.
#[derive(Clone, Copy)]
pub enum Environment<'a> {
    /// Each variable stays.
    Outside,
    /// So many of the newest variables stay, and the environment stands outside them.
    Under(u64, &'a Environment<'a>),
    /// What the environment gives is moved over so many more binders.
    Moved(u64, &'a Environment<'a>),
    /// The newest variable gets a closure: a term of the skeleton, in `scope`. The environment `rest` gives the others.
    Extended {
        skeleton: &'a Skeleton,
        term: &'a Term,
        scope: &'a Environment<'a>,
        rest: &'a Environment<'a>,
    },
}

/// A term of a skeleton in an environment, still to be moved over so many binders.
#[derive(Clone, Copy)]
pub struct Closure<'a> {
    pub skeleton: &'a Skeleton,
    pub term: &'a Term,
    pub scope: &'a Environment<'a>,
    pub binders: u64,
}

/// What an environment has for a variable.
#[derive(Clone, Copy)]
pub enum Found<'a> {
    Variable(u64),
    Closure(Closure<'a>),
}

/// The environment, placed in the arena.
#[inline(never)]
pub fn placed<'a>(
    arena: &'a Bump,
    environment: Environment<'a>,
) -> Result<&'a Environment<'a>, AllocError>
    ensures { IfOk result (λ e. e.now ≡ environment.entry) }
{
    match arena.try_alloc(environment) {
        Ok(environment) => Ok(environment),
        // An arena has no other failure.
        Err(_) => Err(AllocError),
    }
}

/// The environment under one more binder. Fails where no context in memory is so long.
pub fn under_binder<'a>(
    arena: &'a Bump,
    environment: &'a Environment<'a>,
) -> Result<&'a Environment<'a>, AllocError>
    ensures { IfOk result (λ e. environment_of e.now ≡ under_one_more (environment_of environment.now)) }
{
    match environment {
        Environment::Under(count, rest) => {
            let count = count.checked_add(1).ok_or(AllocError)?;
            placed(arena, Environment::Under(count, rest))
        }
        Environment::Outside => placed(arena, Environment::Under(1, environment)),
        Environment::Moved(_, _) => placed(arena, Environment::Under(1, environment)),
        Environment::Extended { .. } => placed(arena, Environment::Under(1, environment)),
    }
}

/// The environment moved over so many binders. Fails where no context in memory is so long.
pub fn moved_by<'a>(
    arena: &'a Bump,
    binders: u64,
    environment: &'a Environment<'a>,
) -> Result<&'a Environment<'a>, AllocError>
    ensures { IfOk result (λ e. environment_of e.now ≡ move_by binders (environment_of environment.now)) }
{
    if binders == 0 {
        return Ok(environment);
    }
    match environment {
        Environment::Moved(inner, rest) => {
            let all = inner.checked_add(binders).ok_or(AllocError)?;
            placed(arena, Environment::Moved(all, rest))
        }
        Environment::Outside => placed(arena, Environment::Moved(binders, environment)),
        Environment::Under(_, _) => placed(arena, Environment::Moved(binders, environment)),
        Environment::Extended { .. } => placed(arena, Environment::Moved(binders, environment)),
    }
}

/// What the environment has for a variable. Fails where no context in memory is so long.
pub fn find<'a>(environment: &'a Environment<'a>, variable: u64) -> Result<Found<'a>, AllocError>
    ensures { IfOk result (λ f. found_of f ≡ found (environment_of environment.now) variable) }
{
    let mut here = environment;
    let mut index = variable;
    let mut binders: u64 = 0;
    loop {
        match here {
            Environment::Outside => {
                return Ok(Found::Variable(index.checked_add(binders).ok_or(AllocError)?));
            }
            Environment::Under(count, rest) => {
                if index < *count {
                    return Ok(Found::Variable(index.checked_add(binders).ok_or(AllocError)?));
                }
                index -= *count;
                binders = binders.checked_add(*count).ok_or(AllocError)?;
                here = rest;
            }
            Environment::Moved(count, rest) => {
                binders = binders.checked_add(*count).ok_or(AllocError)?;
                here = rest;
            }
            Environment::Extended {
                skeleton,
                term,
                scope,
                rest,
            } => {
                if index == 0 {
                    return Ok(Found::Closure(Closure {
                        skeleton,
                        term,
                        scope,
                        binders,
                    }));
                }
                index -= 1;
                here = rest;
            }
        }
    }
}
