//! What the occurs check met before is forgotten where it would be known no longer.
ghost use Rattle.tw_metas.specs.State.{State};
ghost use Rattle.tw_unify.specs.Reaching.{IsKnown, IsMarked, marking_of};

use std::alloc::Global;
use tw_terms::MetaId;
use tw_unify::Walk;

/// What was met before is forgotten where this metavariable is of it, which is bound now.
pub(crate) fn pass_over(alloc: Global, met: &mut Walk, meta: MetaId)
    ensures unmarked { IsMarked (marking_of met.new) meta.0 → ⊥ }
    ensures known { (s : State) → IsKnown s (marking_of met.old) → IsKnown s (marking_of met.new) }
{
    met.forget_with(alloc, meta);
}
