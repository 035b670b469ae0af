//! Terms that are a single metavariable.
ghost use Rattle.std.specs.Prelude.{◌≡◌, ℕ, IfOk, MatchOption, option_map};
ghost use Rattle.lf.specs.Eta.{eta_long};
ghost use Rattle.lf.specs.Syntax.{Skeleton, metavariable};
ghost use Rattle.tw_terms.specs.OpenView.{open_term_of};
ghost use Rattle.tw_abstract.specs.Naming.{sole_under as sole_under_of};

use std::alloc::AllocError;
use tw_prune::are_newest;
use tw_terms::{MetaId, Open, OpenHead};

/// The metavariable of which the term is the eta-long form; None where it is that of none. Fails only for want of memory.
pub fn sole_metavariable(term: &Open) -> Result<Option<MetaId>, AllocError>
    ensures { IfOk result (λ r. MatchOption r ((m : ℕ) (a : Skeleton) → open_term_of term.now ≡ eta_long a (metavariable m) → ⊥) (λ m. (a : Skeleton) × (open_term_of term.now ≡ eta_long a (metavariable m.0)))) }
{
    sole_under(term, 0)
}

/// The same after so many of the term's lambdas. Fails where no term in memory has so many.
fn sole_under(term: &Open, count: u64) -> Result<Option<MetaId>, AllocError>
    ensures { IfOk result (λ r. option_map (λ m. m.0) r ≡ sole_under_of count (open_term_of term.now)) }
{
    match term {
        Open::Lam(body) => sole_under(body, count.checked_add(1).ok_or(AllocError)?),
        Open::Root(OpenHead::Meta(meta), spine) => {
            if are_newest(spine, count)? {
                Ok(Some(*meta))
            } else {
                Ok(None)
            }
        }
        Open::Root(_, _) => Ok(None),
    }
}
