//! Terms with some variables renamed, as a value is read off the place where it stands.
ghost use Rattle.std.specs.Prelude.{◌≡◌, ◌+◌, IfOk};
ghost use Rattle.lf.specs.AtOnce.{lift_renaming_by};
ghost use Rattle.lf.specs.Syntax.{lambda, rename, rename_head, rename_spine};
ghost use Rattle.tw_terms.specs.View.{head_of, spine_of, term_of};
ghost use Rattle.tw_world.specs.Finding.{inverted, to_front};
ghost use Rattle.tw_world.specs.Changes.{change_of};

use std::alloc::{AllocError, Global};
use tw_terms::numbers::one_more;
use tw_terms::{Head, Spine, Term};

/// What becomes of a variable: one comes in front of all others, or each comes nearer by so many.
#[derive(Clone, Copy)]
pub enum Change {
    Front(u64),
    Nearer(u64),
}

/// The value whose application to these variables stands here under so many bound ones. Takes a copy of the term for each variable.
pub fn invert(
    alloc: Global,
    bound: u64,
    variables: &[u64],
    instance: &Term,
) -> Result<Term, AllocError>
    ensures { IfOk result (λ m. term_of m ≡ inverted bound variables.now (term_of instance.now)) }
{
    let mut value = instance.copy(alloc)?;
    let mut left = variables.len();
    while left > 0 {
        left -= 1;
        value = abstract_variable(alloc, &value, variables[left])?;
    }
    move_term(alloc, &value, Change::Nearer(bound), 0)
}

/// The lambda that gives the term back at this variable.
fn abstract_variable(alloc: Global, term: &Term, variable: u64) -> Result<Term, AllocError>
    ensures { IfOk result (λ m. term_of m ≡ lambda (rename (to_front variable) (term_of term.now))) }
{
    let body = move_term(alloc, term, Change::Front(variable), 0)?;
    Ok(Term::Lam(Box::new(alloc, body)?))
}

/// The term with its variables changed; the `under` newest stay. Fails where no context in memory is so long, too.
#[cycle(moving)]
fn move_term(alloc: Global, term: &Term, change: Change, under: u64) -> Result<Term, AllocError>
    ensures { IfOk result (λ m. term_of m ≡ rename (lift_renaming_by under (change_of change)) (term_of term.now)) }
{
    match term {
        Term::Lam(body) => {
            let inside = one_more(under)?;
            let body = move_term(alloc, body, change, inside)?;
            Ok(Term::Lam(Box::new(alloc, body)?))
        }
        Term::Root(head, spine) => {
            let spine = move_spine(alloc, spine, change, under)?;
            Ok(Term::Root(move_head(*head, change, under)?, spine))
        }
    }
}

/// The same in each argument.
#[cycle(moving)]
fn move_spine(alloc: Global, spine: &Spine, change: Change, under: u64) -> Result<Spine, AllocError>
    ensures { IfOk result (λ s. spine_of s ≡ rename_spine (lift_renaming_by under (change_of change)) (spine_of spine.now)) }
{
    let mut args = Vec::with_capacity(alloc, spine.args.len())?;
    for arg in &spine.args {
        args.push(move_term(alloc, arg, change, under)?)?;
    }
    Ok(Spine { args })
}

/// The same of a head.
fn move_head(head: Head, change: Change, under: u64) -> Result<Head, AllocError>
    ensures { IfOk result (λ h. head_of h ≡ rename_head (lift_renaming_by under (change_of change)) (head_of head)) }
{
    match head {
        Head::Const(id) => Ok(Head::Const(id)),
        Head::Var(variable) => {
            if variable < under {
                return Ok(Head::Var(variable));
            }
            let outside = changed(change, variable - under)?;
            Ok(Head::Var(sum(outside, under)?))
        }
    }
}

/// What becomes of a variable.
fn changed(change: Change, variable: u64) -> Result<u64, AllocError>
    ensures { IfOk result (λ n. n ≡ change_of change variable) }
{
    match change {
        Change::Front(newest) => {
            if variable == newest {
                Ok(0)
            } else {
                one_more(variable)
            }
        }
        Change::Nearer(count) => Ok(variable.saturating_sub(count)),
    }
}

/// The sum. Fails past the last number, which is more than any list in memory has.
fn sum(one: u64, other: u64) -> Result<u64, AllocError>
    ensures { IfOk result (λ n. n ≡ one + other) }
{
    one.checked_add(other).ok_or(AllocError)
}
