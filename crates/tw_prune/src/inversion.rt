//! Inversion: which value a metavariable on a pattern has, and what is in the way where it has none.
ghost use Rattle.std.specs.Prelude.{◌≡◌, IfOk};
ghost use Rattle.tw_terms.specs.OpenView.{open_term_of, open_spine_of};
ghost use Rattle.tw_prune.specs.Meaning.{AnswerMeans};
ghost use Rattle.tw_prune.specs.View.{table_of};
ghost use Rattle.tw_prune.specs.Walks.{escapes as escapes_from, escapes_in_spine as escapes_from_spine};

use crate::drops::losses_under;
use crate::inverse::Inverse;
use crate::unrename::unrename;
use std::alloc::{AllocError, Global};
use tw_terms::{MetaId, Open, OpenHead, OpenSpine};

/// What inversion finds. Where several of the last three hold, `Never` comes before `Drop`, and `Drop` before `Outside`.
#[derive(Debug, Drop)]
pub enum Inverted {
    /// This term stands under the lambdas of the value. Applied to the pattern it is the term, and no other is.
    Inverted(Open),
    /// The metavariable stands on a pattern, in no argument of a metavariable, and must lose its argument at this place, counted from 0, but none after it.
    Drop(MetaId, u64),
    /// A variable of the local context that the pattern lacks stands in no argument of a metavariable, so that no instance of the term is inverted.
    Never,
    /// A metavariable, in no argument of another, has arguments that are no pattern and hold a variable of the local context that the pattern lacks.
    Outside,
}

/// The inversion of the term for a pattern, the distinct variables `pattern` of a local context of `inner` variables.
///
/// The variables past the local context are those of the metavariables' own context, and may stay.
/// Of the places that `losses` finds, `Drop` has the first.
pub fn invert(
    alloc: Global,
    pattern: &[u64],
    inner: u64,
    term: &Open,
) -> Result<Inverted, AllocError>
    ensures { IfOk result (λ r. AnswerMeans inner pattern.now (open_term_of term.now) r) }
{
    let inverse = Inverse::of(alloc, pattern, inner)?;
    if let Some(body) = unrename(alloc, &inverse, 0, term)? {
        return Ok(Inverted::Inverted(body));
    }
    if escapes(&inverse, 0, term)? {
        return Ok(Inverted::Never);
    }
    let losses = losses_under(alloc, &inverse, term)?;
    match losses.first() {
        Some(loss) => Ok(Inverted::Drop(loss.meta, loss.place)),
        None => Ok(Inverted::Outside),
    }
}

/// Whether a variable that the pattern lacks stands in no argument of a metavariable. The walk has passed so many binders.
/// Fails where no context in memory is so long.
#[cycle(escapes)]
fn escapes(inverse: &Inverse, binders: u64, term: &Open) -> Result<bool, AllocError>
    ensures { IfOk result (λ r. r ≡ escapes_from (table_of inverse.now) binders (open_term_of term.now)) }
{
    match term {
        Open::Lam(body) => escapes(inverse, binders.checked_add(1).ok_or(AllocError)?, body),
        Open::Root(OpenHead::Const(_), spine) => escapes_in_spine(inverse, binders, spine),
        Open::Root(OpenHead::Var(variable), spine) => {
            if inverse.has(binders, *variable) {
                escapes_in_spine(inverse, binders, spine)
            } else {
                Ok(true)
            }
        }
        Open::Root(OpenHead::Meta(_), _) => Ok(false),
    }
}

/// The same of some argument.
#[cycle(escapes)]
fn escapes_in_spine(inverse: &Inverse, binders: u64, spine: &OpenSpine) -> Result<bool, AllocError>
    ensures { IfOk result (λ r. r ≡ escapes_from_spine (table_of inverse.now) binders (open_spine_of spine.now)) }
{
    for arg in &spine.args {
        if escapes(inverse, binders, arg)? {
            return Ok(true);
        }
    }
    Ok(false)
}
