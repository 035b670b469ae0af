//! Metavariables whose types are not those under the bindings.
ghost use Rattle.std.specs.Prelude.{◌≡◌, IfOk, MatchBool, MatchOption};
ghost use Rattle.tw_terms.specs.OpenView.{open_term_of};
ghost use Rattle.tw_putting.specs.Whole.{IsConsistent};
ghost use Rattle.tw_unify.specs.Flexible.{IsReachedFrom};
ghost use Rattle.tw_unify.specs.Moving.{AreRenewed, IsFresh, NeedsRenewal};

use crate::reach::Walk;
use std::alloc::{AllocError, Global};
use tw_metas::Store;
use tw_putting::is_type_all_in;
use tw_terms::{MetaId, Open};

/// An unbound metavariable that is reached from one of the terms, through types and values, and whose type mentions a bound one. None where there is none.
/// Fails only for want of memory.
pub fn find_stale(
    alloc: Global,
    store: &Store,
    left: &Open,
    right: &Open,
) -> Result<Option<MetaId>, AllocError>
    requires { IsConsistent store.now.now }
    ensures { IfOk result (λ r. MatchOption r (AreRenewed store.now.now (open_term_of left.now) × AreRenewed store.now.now (open_term_of right.now)) (λ k. NeedsRenewal store.now.now k.0 × IsReachedFrom store.now.now (open_term_of left.now) (open_term_of right.now) k.0)) }
{
    let mut walk = Walk::new(alloc);
    walk.term(left)?;
    walk.term(right)?;
    while let Some(next) = walk.due.pop() {
        let meta = MetaId(next);
        if is_stale(store, meta) {
            return Ok(Some(meta));
        }
        walk.type_of(store, meta)?;
        walk.value_of(store, meta)?;
        // A set has fewer than 2^63 members, and each turn takes another one of them.
        let _count = walk.marks.len();
    }
    Ok(None)
}

/// Whether the metavariable is not bound and its type mentions a bound one.
fn is_stale(store: &Store, meta: MetaId) -> bool
    requires { IsConsistent store.now.now }
    ensures { MatchBool result (NeedsRenewal store.now.now meta.0) (IsFresh store.now.now meta.0) }
{
    match (store.value(meta), store.about(meta)) {
        (None, Some((_, ty))) => !is_type_all_in(store, ty),
        _ => false,
    }
}
