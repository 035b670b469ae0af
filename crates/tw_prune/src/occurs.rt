//! Occurrences of a metavariable on a pattern.
ghost use Rattle.std.specs.Prelude.{◌≡◌, IfOk};
ghost use Rattle.std.specs.Bool.{OnTrue, OnFalse};
ghost use Rattle.tw_terms.specs.OpenView.{open_term_of, open_spine_of};
ghost use Rattle.tw_prune.specs.Occurrence.{OccursInside, NeverOccursInside};
ghost use Rattle.tw_prune.specs.Walks.{stands_in as stands_in_of, stands_in_spine as stands_in_spine_of, stands_inside as stands_inside_of};

use crate::patterns::distinct_variables;
use std::alloc::{AllocError, Global};
use tw_terms::{MetaId, Open, OpenHead, OpenSpine};

/// Whether the metavariable stands on a pattern properly inside the term, in no argument of a metavariable. The term stands in a local context of `inner` variables.
pub fn occurs_inside(
    alloc: Global,
    meta: MetaId,
    inner: u64,
    term: &Open,
) -> Result<bool, AllocError>
    ensures found { IfOk result (λ r. OnTrue r (OccursInside meta.0 inner (open_term_of term.now))) }
    ensures none { IfOk result (λ r. OnFalse r (NeverOccursInside meta.0 inner (open_term_of term.now))) }
{
    stands_inside(alloc, meta, inner, term)
}

/// Whether the metavariable stands so: a term that is a metavariable on arguments has nothing else in no argument of one.
fn stands_inside(alloc: Global, meta: MetaId, bound: u64, term: &Open) -> Result<bool, AllocError>
    ensures { IfOk result (λ r. r ≡ stands_inside_of meta.0 bound (open_term_of term.now)) }
{
    match term {
        Open::Lam(_) => stands_in(alloc, meta, bound, term),
        Open::Root(OpenHead::Const(_), _) => stands_in(alloc, meta, bound, term),
        Open::Root(OpenHead::Var(_), _) => stands_in(alloc, meta, bound, term),
        Open::Root(OpenHead::Meta(_), _) => Ok(false),
    }
}

/// Whether the metavariable stands on a pattern in the term, in no argument of a metavariable. Fails where no context in memory is so
/// long, too.
#[cycle(stands)]
fn stands_in(alloc: Global, meta: MetaId, bound: u64, term: &Open) -> Result<bool, AllocError>
    ensures { IfOk result (λ r. r ≡ stands_in_of meta.0 bound (open_term_of term.now)) }
{
    match term {
        Open::Lam(body) => stands_in(alloc, meta, bound.checked_add(1).ok_or(AllocError)?, body),
        Open::Root(OpenHead::Const(_), spine) => stands_in_spine(alloc, meta, bound, spine),
        Open::Root(OpenHead::Var(_), spine) => stands_in_spine(alloc, meta, bound, spine),
        Open::Root(OpenHead::Meta(other), spine) => {
            if other.0 != meta.0 {
                return Ok(false);
            }
            Ok(distinct_variables(alloc, bound, spine)?.is_some())
        }
    }
}

/// The same of some argument.
#[cycle(stands)]
fn stands_in_spine(
    alloc: Global,
    meta: MetaId,
    bound: u64,
    spine: &OpenSpine,
) -> Result<bool, AllocError>
    ensures { IfOk result (λ r. r ≡ stands_in_spine_of meta.0 bound (open_spine_of spine.now)) }
{
    for arg in &spine.args {
        if stands_in(alloc, meta, bound, arg)? {
            return Ok(true);
        }
    }
    Ok(false)
}
