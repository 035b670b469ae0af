//! What of a text is still to be walked through. It nests on the heap, so that a text may have any number of levels.
ghost use Rattle.std.specs.Prelude.{◌≡◌, ◌∷◌, [], MatchOption, OnOk, drop, map};
ghost use Rattle.tw_print.specs.ArgumentView.{argument_of};
ghost use Rattle.tw_print.specs.Names.{Scene};
ghost use Rattle.tw_shown.specs.Due.{Puts, stacked};

use std::alloc::AllocError;
use tw_print::Argument;
use tw_terms::{Term, Ty};

/// What is due: a part of the text, or a change of the variables in scope.
#[derive(Drop)]
pub enum Due {
    /// A term, at its type where it is a lambda, and how deep its parts may nest.
    Term(Term, Option<Ty>, u64),
    /// A type, and how deep its parts may nest.
    Type(Ty, u64),
    /// A variable of this type comes in scope.
    Enter(Ty),
    /// The newest variable leaves the scope.
    Leave,
}

/// One thing more is due, before the others.
pub fn push(due: &mut Vec<Due>, next: Due) -> Result<(), AllocError>
    ensures { OnOk result (stacked due.new.items ≡ next ∷ stacked due.old.items) }
{
    due.push(next)?;
    Ok(())
}

/// What is due next is taken off.
pub fn pop(due: &mut Vec<Due>) -> Option<Due>
    ensures { MatchOption result (stacked due.old.items ≡ []) (λ d. stacked due.old.items ≡ d ∷ stacked due.new.items) }
{
    due.pop()
}

/// The arguments behind the first `hidden` are due.
#[inline(never)]
pub fn push_arguments(
    due: &mut Vec<Due>,
    arguments: Vec<Argument>,
    hidden: usize,
    inner: u64,
) -> Result<(), AllocError>
    ensures { OnOk result ((s : Scene) → Puts s inner (drop hidden (map argument_of arguments.items)) (stacked due.old.items) (stacked due.new.items)) }
{
    let mut left = arguments;
    while left.len() > hidden {
        match left.pop() {
            Some(argument) => push(due, Due::Term(argument.term, argument.ty, inner))?,
            None => return Ok(()),
        }
    }
    Ok(())
}
