//! The names of an answer's free variables.
ghost use Rattle.std.specs.Prelude.{◌≡◌, None, IfOk, OnOk, map, replicate, slice_get};
ghost use Rattle.lf.specs.Entries.{signature_of};
ghost use Rattle.tw_print.specs.ShowEnv.{scene_of};
ghost use Rattle.tw_print.specs.Showable.{IsShowableContext};
ghost use Rattle.tw_shown.specs.Naming.{lacks_name};
ghost use Rattle.tw_signature.specs.Goal.{goal_of};
ghost use Rattle.tw_prune.specs.Walks.{eta_variable_under};
ghost use Rattle.tw_terms.specs.View.{term_of};
ghost use Rattle.tw_query.specs.Rows.{AreShowable, row_of};
ghost use Rattle.tw_query.specs.Text.{free_names, query_names, shown_in_rows, with_given};

use crate::rows::Row;
use crate::sole::sole_variable;
use std::alloc::{AllocError, Global};
use tw_fixity::{Name, Scope, copy_option};
use tw_print::ShowEnv;
use tw_shown::{name_shown, shown_in_term};
use tw_signature::Goal;
use tw_terms::Context;

/// The names of the free variables, the innermost first: one that is alone the value of a variable of the query has its name, and the others take one when they are first shown.
pub(crate) fn free_names(
    alloc: Global,
    env: &ShowEnv,
    goal: &Goal,
    free: &Context,
    rows: &[Row],
) -> Result<Vec<Option<Name>>, AllocError>
    requires context { IsShowableContext (signature_of env.now.sig.now) free.now }
    requires rows { AreShowable (signature_of env.now.sig.now) free.now (map row_of rows.now) }
    ensures { IfOk result (λ v. v.items ≡ free_names (scene_of env.now) (goal_of goal.now) free.now (map row_of rows.now)) }
{
    if free.len() == 0 {
        return Ok(Vec::new(alloc));
    }
    let mut names = nameless(alloc, free.len())?;
    for row in rows {
        give(alloc, &mut names, row)?;
    }
    let shown = shown_in_rows(alloc, env, free, rows)?;
    let taken = query_names(alloc, goal)?;
    name_shown(alloc, env, free, &shown, &mut names, taken)?;
    Ok(names)
}

/// So many variables without a name.
fn nameless(alloc: Global, count: usize) -> Result<Vec<Option<Name>>, AllocError>
    ensures { IfOk result (λ v. v.items ≡ replicate count None) }
{
    let mut names = Vec::new(alloc);
    for _ in 0..count {
        names.push(None)?;
    }
    Ok(names)
}

/// Gives the name of the line to the free variable that is its value alone, unless that has one.
fn give(alloc: Global, names: &mut [Option<Name>], row: &Row) -> Result<(), AllocError>
    ensures { OnOk result (names.new ≡ with_given (eta_variable_under 0 (term_of row.now.value.now)) row.now.name.now names.old) }
{
    match sole_variable(row.value)? {
        Some(variable) => {
            if lacks_name(names, variable) {
                names[variable as usize] = Some(row.name.copy(alloc)?);
            }
            Ok(())
        }
        None => Ok(()),
    }
}

/// Whether there is a variable of this number without a name.
fn lacks_name(names: &[Option<Name>], variable: u64) -> bool
    ensures { result ≡ lacks_name (slice_get names.now variable) }
{
    match names.get(variable as usize) {
        Some(None) => true,
        _ => false,
    }
}

/// The free variables that the lines show, from the left.
fn shown_in_rows(
    alloc: Global,
    env: &ShowEnv,
    free: &Context,
    rows: &[Row],
) -> Result<Vec<u64>, AllocError>
    requires context { IsShowableContext (signature_of env.now.sig.now) free.now }
    requires rows { AreShowable (signature_of env.now.sig.now) free.now (map row_of rows.now) }
    ensures { IfOk result (λ v. v.items ≡ shown_in_rows (scene_of env.now) free.now (map row_of rows.now)) }
{
    let mut shown = Vec::new(alloc);
    for row in rows {
        let more = shown_in_term(alloc, env, free, row.value, &row.ty)?;
        shown.extend_from_slice(&more)?;
    }
    Ok(shown)
}

/// The names of the query's variables, and of its proof.
fn query_names(alloc: Global, goal: &Goal) -> Result<Scope, AllocError>
    ensures { IfOk result (λ s. s ≡ query_names (goal_of goal.now)) }
{
    let mut scope = scope_of(alloc, &goal.names)?;
    scope.push(copy_option(alloc, &goal.proof)?)?;
    Ok(scope)
}

/// The scope of variables with these names, the innermost first.
pub(crate) fn scope_of(alloc: Global, names: &[Option<Name>]) -> Result<Scope, AllocError>
    ensures { IfOk result (λ s. s ≡ names.now) }
{
    let mut scope = Scope::new(alloc);
    for place in (0..names.len()).rev() {
        scope.push(copy_option(alloc, &names[place])?)?;
    }
    Ok(scope)
}
