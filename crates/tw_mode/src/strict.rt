//! Strict occurrences of variables, as marks of the outermost ones in scope.
ghost use Rattle.std.specs.Prelude.{◌≡◌, ◌≤◌, [], length, OnOk};
ghost use Rattle.lf_checks.specs.Strict.{pattern_arguments, strict, strict_spine};
ghost use Rattle.lf_checks.specs.Tests.{both, either};
ghost use Rattle.lf.specs.Variables.{same_number};
ghost use Rattle.tw_signature.specs.Marks.{marked};
ghost use Rattle.tw_terms.specs.View.{spine_of, term_of};
ghost use Rattle.tw_mode.specs.Scopes.{bound_in, fixed_in};

use crate::marks::{is_marked, mark_variable};
use crate::scope::{Scope, inside};
use std::alloc::{AllocError, Global};
use tw_clause::{is_newest, is_pattern};
use tw_terms::{Head, Spine, Term};

/// Marks the variables with a strict occurrence in a term. Fails for want of memory, as where no context in memory is so long.
#[cycle(strict)]
pub fn mark_strict(
    alloc: Global,
    scope: &Scope,
    term: &Term,
    marks: &mut [bool],
) -> Result<(), AllocError>
    requires fixed { length scope.now.fixed.now ≤ scope.now.depth }
    requires marks { length marks.old ≤ scope.now.depth }
    ensures { OnOk result (marks.new ≡ marked scope.now.depth (λ i. strict (bound_in scope.now) (fixed_in scope.now) i (term_of term.now)) marks.old) }
{
    match term {
        Term::Lam(body) => mark_strict(alloc, &inside(scope)?, body, marks),
        Term::Root(Head::Const(_), spine) => mark_strict_spine(alloc, scope, spine, marks),
        Term::Root(Head::Var(head), spine) => {
            mark_pattern(alloc, scope, *head, spine, marks)?;
            if is_rigid(scope, *head) {
                mark_strict_spine(alloc, scope, spine, marks)
            } else {
                Ok(())
            }
        }
    }
}

/// The same in each argument.
#[cycle(strict)]
fn mark_strict_spine(
    alloc: Global,
    scope: &Scope,
    spine: &Spine,
    marks: &mut [bool],
) -> Result<(), AllocError>
    requires fixed { length scope.now.fixed.now ≤ scope.now.depth }
    requires marks { length marks.old ≤ scope.now.depth }
    ensures { OnOk result (marks.new ≡ marked scope.now.depth (λ i. strict_spine (bound_in scope.now) (fixed_in scope.now) i (spine_of spine.now)) marks.old) }
{
    for arg in &spine.args {
        mark_strict(alloc, scope, arg, marks)?;
    }
    Ok(())
}

/// Marks a variable that stands before distinct bound variables.
fn mark_pattern(
    alloc: Global,
    scope: &Scope,
    variable: u64,
    spine: &Spine,
    marks: &mut [bool],
) -> Result<(), AllocError>
    ensures { OnOk result (marks.new ≡ marked scope.now.depth (λ i. both (same_number variable i) (pattern_arguments (bound_in scope.now) [] (spine_of spine.now))) marks.old) }
{
    if is_pattern(alloc, Some(scope.bound), spine)? {
        mark_variable(variable, scope.depth, marks);
    }
    Ok(())
}

/// Whether a variable is bound or fixed.
fn is_rigid(scope: &Scope, variable: u64) -> bool
    ensures { result ≡ either (bound_in scope.now variable) (fixed_in scope.now variable) }
{
    is_newest(scope.bound, variable) || is_marked(scope.fixed, scope.depth, variable, false)
}
