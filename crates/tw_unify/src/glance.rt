//! A glance at a term, which often shows that a metavariable is not reached from it.
ghost use Rattle.std.specs.Prelude.{◌<◌, ◌≤◌, IfSome};
ghost use Rattle.std.specs.Bool.{OnTrue};
ghost use Rattle.lf.specs.Syntax.{nil, root};
ghost use Rattle.tw_terms.specs.OpenView.{open_head_of, open_term_of};
ghost use Rattle.tw_putting.specs.Stores.{bindings_of, types_of};
ghost use Rattle.tw_unify.specs.Reaching.{HasBareType, IsAvoided};

use tw_metas::Store;
use tw_terms::{MetaId, Open, OpenHead, OpenTy};

/// How many terms a glance visits at most.
const VISITS: u32 = 96;

/// Whether a glance shows that the metavariable is not reached from the term: few terms stand in it and in the values of
/// the metavariables that it meets, and each of these is another one, whose type has no arguments. Takes no memory.
pub fn is_avoided_at_once(store: &Store, term: &Open, meta: MetaId) -> bool
    ensures { OnTrue result (IsAvoided (types_of store.now.now) (bindings_of store.now.now) (open_term_of term.now) meta.0) }
{
    look(store, term, meta, VISITS).is_some()
}

/// How many visits are left after a glance at the term. None where they don't do, or where it shows nothing.
#[cycle(looks)]
fn look(store: &Store, term: &Open, meta: MetaId, visits: u32) -> Option<u32>
    ensures fewer { IfSome result (λ left. left < visits) }
    ensures avoided { IfSome result (λ left. IsAvoided (types_of store.now.now) (bindings_of store.now.now) (open_term_of term.now) meta.0) }
{
    if visits == 0 {
        return None;
    }
    match term {
        Open::Lam(body) => look(store, body, meta, visits - 1),
        Open::Root(head, spine) => {
            let mut left = look_at_head(store, *head, meta, visits - 1)?;
            for arg in &spine.args {
                left = look(store, arg, meta, left)?;
            }
            Some(left)
        }
    }
}

/// The same at a head, and at its value if it is a metavariable that is bound.
#[cycle(looks)]
fn look_at_head(store: &Store, head: OpenHead, meta: MetaId, visits: u32) -> Option<u32>
    ensures fewer { IfSome result (λ left. left ≤ visits) }
    ensures avoided { IfSome result (λ left. IsAvoided (types_of store.now.now) (bindings_of store.now.now) (root (open_head_of head) nil) meta.0) }
{
    match head {
        OpenHead::Meta(found) => {
            if found.0 == meta.0 || !has_bare_type(store, found) {
                return None;
            }
            match store.value(found) {
                Some(value) => look(store, value, meta, visits),
                None => Some(visits),
            }
        }
        _ => Some(visits),
    }
}

/// Whether the type of the metavariable is a family without arguments.
fn has_bare_type(store: &Store, meta: MetaId) -> bool
    ensures { OnTrue result (HasBareType (types_of store.now.now) meta.0) }
{
    match store.about(meta) {
        Some((_, OpenTy::Atom(_, spine))) => spine.args.is_empty(),
        _ => false,
    }
}
