//! The arguments that metavariables must lose.
ghost use Rattle.std.specs.Prelude.{◌≡◌, ◌++◌, IfOk, None, map};
ghost use Rattle.tw_terms.specs.OpenView.{open_term_of, open_spine_of};
ghost use Rattle.tw_prune.specs.Meaning.{AreLosses, HasEachLoss};
ghost use Rattle.tw_prune.specs.View.{table_of, loss_of};
ghost use Rattle.tw_prune.specs.Walks.{last_lacking as last_lacking_from, losses_in, losses_in_spine};

use crate::inverse::Inverse;
use crate::patterns::distinct_variables;
use std::alloc::{AllocError, Global};
use tw_terms::{MetaId, Open, OpenHead, OpenSpine};

/// A metavariable, and the place of the argument that it must lose, counted from 0.
#[derive(Clone, Copy, Debug)]
pub struct Loss {
    pub meta: MetaId,
    pub place: u64,
}

/// What metavariables in the term must lose for it to be inverted: for each that stands on a pattern, in no argument of a metavariable, the
/// last argument that is a variable that `pattern` lacks. The pattern is of distinct variables of a local context of `inner` variables.
pub fn losses(
    alloc: Global,
    pattern: &[u64],
    inner: u64,
    term: &Open,
) -> Result<Vec<Loss>, AllocError>
    ensures found { IfOk result (λ v. AreLosses inner pattern.now (open_term_of term.now) (map loss_of v.items)) }
    ensures each { IfOk result (λ v. HasEachLoss inner pattern.now (open_term_of term.now) (map loss_of v.items)) }
{
    losses_under(alloc, &Inverse::of(alloc, pattern, inner)?, term)
}

/// The same by the inverse of the pattern.
pub fn losses_under(alloc: Global, inverse: &Inverse, term: &Open) -> Result<Vec<Loss>, AllocError>
    ensures { IfOk result (λ v. map loss_of v.items ≡ losses_in (table_of inverse.now) 0 (open_term_of term.now)) }
{
    let mut losses = Vec::new(alloc);
    collect(alloc, inverse, 0, term, &mut losses)?;
    Ok(losses)
}

/// Adds those of the term. The walk has passed so many binders. Fails where no context in memory is so long, too.
#[cycle(collect)]
fn collect(
    alloc: Global,
    inverse: &Inverse,
    binders: u64,
    term: &Open,
    losses: &mut Vec<Loss>,
) -> Result<(), AllocError>
    ensures { IfOk result (λ _. map loss_of losses.new.items ≡ map loss_of losses.old.items ++ losses_in (table_of inverse.now) binders (open_term_of term.now)) }
{
    match term {
        Open::Lam(body) => {
            let inside = binders.checked_add(1).ok_or(AllocError)?;
            collect(alloc, inverse, inside, body, losses)
        }
        Open::Root(OpenHead::Meta(meta), spine) => {
            let bound = binders
                .checked_add(inverse.places.len() as u64)
                .ok_or(AllocError)?;
            if let Some(variables) = distinct_variables(alloc, bound, spine)? {
                if let Some(place) = last_lacking(inverse, binders, &variables) {
                    losses.push(Loss { meta: *meta, place })?;
                }
            }
            Ok(())
        }
        Open::Root(OpenHead::Const(_), spine) => {
            collect_from_spine(alloc, inverse, binders, spine, losses)
        }
        Open::Root(OpenHead::Var(_), spine) => {
            collect_from_spine(alloc, inverse, binders, spine, losses)
        }
    }
}

/// Adds those of each argument.
#[cycle(collect)]
fn collect_from_spine(
    alloc: Global,
    inverse: &Inverse,
    binders: u64,
    spine: &OpenSpine,
    losses: &mut Vec<Loss>,
) -> Result<(), AllocError>
    ensures { IfOk result (λ _. map loss_of losses.new.items ≡ map loss_of losses.old.items ++ losses_in_spine (table_of inverse.now) binders (open_spine_of spine.now)) }
{
    for arg in &spine.args {
        collect(alloc, inverse, binders, arg, losses)?;
    }
    Ok(())
}

/// The place of the last variable that the pattern lacks.
fn last_lacking(inverse: &Inverse, binders: u64, variables: &[u64]) -> Option<u64>
    ensures { result ≡ last_lacking_from (table_of inverse.now) binders 0 None variables.now }
{
    let mut last = None;
    for (place, variable) in variables.iter().enumerate() {
        if !inverse.has(binders, *variable) {
            last = Some(place as u64);
        }
    }
    last
}
