//! The occurs check, which goes through types and values.
ghost use Rattle.std.specs.Prelude.{◌≡◌, ℕ, ◌⊎◌, [], OnOk, IfOk, MatchBool};
ghost use Rattle.std.specs.Bool.{OnTrue};
ghost use Rattle.std.specs.HashSet.{IsEmpty};
ghost use Rattle.lf_unification.specs.OpenTyping.{MetavariablesIn, MetavariablesInSpine, MetavariablesInType};
ghost use Rattle.lf_unification.specs.Reach.{Mentions, SpineMentions, TypeMentions, IsReached};
ghost use Rattle.tw_metas.specs.State.{State};
ghost use Rattle.tw_terms.specs.OpenView.{open_term_of, open_spine_of, open_type_of};
ghost use Rattle.tw_putting.specs.Stores.{types_of, bindings_of};
ghost use Rattle.tw_putting.specs.Whole.{IsConsistent};
ghost use Rattle.tw_unify.specs.Reaching.{marking_of, IsClosed, IsKnown, IsMarked, Spreads, StandsInType, StandsInValue, TypeIsMet, ValueIsMet, IsAvoided};

use std::alloc::{AllocError, Global};
use std::collections::HashSet;
use tw_metas::Store;
use tw_terms::{MetaId, Open, OpenHead, OpenSpine, OpenTy};

/// The metavariables that were met, and those of them whose types and values are still to be walked. It may be kept from call to call for as long as nothing is taken back in the store, and no metavariable that was met is bound to what wasn't met.
#[derive(Drop)]
pub struct Walk {
    pub marks: HashSet<u64>,
    pub due: Vec<u64>,
}

/// Whether the metavariable stands in the term or, step by step, in the type or the value of a metavariable that is reached from it.
/// Fails only for want of memory.
pub fn is_reached(
    alloc: Global,
    store: &Store,
    term: &Open,
    meta: MetaId,
) -> Result<bool, AllocError>
    requires { IsConsistent store.now.now }
    ensures { IfOk result (λ b. MatchBool b (IsReached (types_of store.now.now) (bindings_of store.now.now) (open_term_of term.now) meta.0) (IsAvoided (types_of store.now.now) (bindings_of store.now.now) (open_term_of term.now) meta.0)) }
{
    let mut walk = Walk::new(alloc);
    walk.go_from(store, term)?;
    Ok(walk.is_marked(meta))
}

/// The same beside what was met before, none of which is walked again unless the metavariable is one of it.
pub fn is_reached_now(
    alloc: Global,
    store: &Store,
    met: &mut Walk,
    term: &Open,
    meta: MetaId,
) -> Result<bool, AllocError>
    requires consistent { IsConsistent store.now.now }
    requires closed { IsClosed (types_of store.now.now) (bindings_of store.now.now) (marking_of met.old) }
    ensures reached { IfOk result (λ b. MatchBool b (IsReached (types_of store.now.now) (bindings_of store.now.now) (open_term_of term.now) meta.0) (IsAvoided (types_of store.now.now) (bindings_of store.now.now) (open_term_of term.now) meta.0)) }
    ensures closed { OnOk result (IsClosed (types_of store.now.now) (bindings_of store.now.now) (marking_of met.new)) }
    ensures met { OnOk result (MetavariablesIn (IsMarked (marking_of met.new)) (open_term_of term.now)) }
    ensures spread { OnOk result ((k : ℕ) → IsMarked (marking_of met.new) k → IsMarked (marking_of met.old) k ⊎ IsReached (types_of store.now.now) (bindings_of store.now.now) (open_term_of term.now) k) }
{
    let known = met.is_marked(meta);
    met.go_from(store, term)?;
    if known {
        is_reached(alloc, store, term, meta)
    } else {
        Ok(met.is_marked(meta))
    }
}

impl Walk {
    /// A walk that met nothing.
    pub fn new(alloc: Global) -> Walk
        ensures marks { IsEmpty result.marks }
        ensures due { result.due.items ≡ [] }
        ensures known { (s : State) → IsKnown s (marking_of result) }
    {
        Walk {
            marks: HashSet::new(alloc),
            due: Vec::new(alloc),
        }
    }

    /// Goes through a term and all that is reached from it, but for what was met before.
    fn go_from(&mut self, store: &Store, term: &Open) -> Result<(), AllocError>
        requires consistent { IsConsistent store.now.now }
        requires closed { IsClosed (types_of store.now.now) (bindings_of store.now.now) (marking_of self.old) }
        ensures closed { OnOk result (IsClosed (types_of store.now.now) (bindings_of store.now.now) (marking_of self.new)) }
        ensures met { OnOk result (MetavariablesIn (IsMarked (marking_of self.new)) (open_term_of term.now)) }
        ensures reached { OnOk result ((k : ℕ) → IsMarked (marking_of self.new) k → IsMarked (marking_of self.old) k ⊎ IsReached (types_of store.now.now) (bindings_of store.now.now) (open_term_of term.now) k) }
    {
        self.term(term)?;
        while let Some(next) = self.due.pop() {
            self.type_of(store, MetaId(next))?;
            self.value_of(store, MetaId(next))?;
            // A set has fewer than 2^63 members, and each turn takes another one of them.
            let _count = self.marks.len();
        }
        Ok(())
    }

    /// Whether the metavariable was met.
    pub fn is_marked(&self, meta: MetaId) -> bool
        ensures { MatchBool result (IsMarked (marking_of self.now) meta.0) (IsMarked (marking_of self.now) meta.0 → ⊥) }
    {
        !self.marks.is_empty() && self.marks.contains(&meta.0)
    }

    /// Whether nothing was met, so that nothing is known that could be lost.
    pub fn is_empty(&self) -> bool
        ensures { OnTrue result ((s : State) → IsKnown s (marking_of self.now)) }
    {
        self.marks.is_empty() && self.due.is_empty()
    }

    /// Forgets all that was met. Where nothing was met it makes nothing.
    pub fn forget(&mut self, alloc: Global)
        ensures { (s : State) → IsKnown s (marking_of self.new) }
    {
        if !self.is_empty() {
            *self = Walk::new(alloc);
        }
    }

    /// Forgets all that was met where the metavariable is of it.
    pub fn forget_with(&mut self, alloc: Global, meta: MetaId)
        ensures unmarked { IsMarked (marking_of self.new) meta.0 → ⊥ }
        ensures closed { (s : State) → IsClosed (types_of s) (bindings_of s) (marking_of self.old) → IsClosed (types_of s) (bindings_of s) (marking_of self.new) }
        ensures known { (s : State) → IsKnown s (marking_of self.old) → IsKnown s (marking_of self.new) }
        ensures fewer { (k : ℕ) → IsMarked (marking_of self.new) k → IsMarked (marking_of self.old) k }
    {
        if self.is_marked(meta) {
            *self = Walk::new(alloc);
        }
    }

    /// Goes through the type of a metavariable.
    pub fn type_of(&mut self, store: &Store, meta: MetaId) -> Result<(), AllocError>
        ensures spread { OnOk result (Spreads (StandsInType (types_of store.now.now) meta.0) (marking_of self.old) (marking_of self.new)) }
        ensures met { OnOk result (TypeIsMet (types_of store.now.now) meta.0 (marking_of self.new)) }
    {
        match store.about(meta) {
            Some((_, ty)) => self.ty(ty),
            None => Ok(()),
        }
    }

    /// Goes through the value of a metavariable.
    pub fn value_of(&mut self, store: &Store, meta: MetaId) -> Result<(), AllocError>
        requires { IsConsistent store.now.now }
        ensures spread { OnOk result (Spreads (StandsInValue (bindings_of store.now.now) meta.0) (marking_of self.old) (marking_of self.new)) }
        ensures met { OnOk result (ValueIsMet (bindings_of store.now.now) meta.0 (marking_of self.new)) }
    {
        match store.value(meta) {
            Some(value) => self.term(value),
            None => Ok(()),
        }
    }

    /// Meets a metavariable.
    fn meet(&mut self, meta: MetaId) -> Result<(), AllocError>
        ensures spread { OnOk result (Spreads (λ k. k ≡ meta.0) (marking_of self.old) (marking_of self.new)) }
        ensures met { OnOk result (IsMarked (marking_of self.new) meta.0) }
    {
        if self.marks.insert(meta.0)? {
            self.due.push(meta.0)?;
        }
        Ok(())
    }

    /// Goes through a term.
    #[cycle(walk)]
    pub fn term(&mut self, term: &Open) -> Result<(), AllocError>
        ensures spread { OnOk result (Spreads (λ k. Mentions k (open_term_of term.now)) (marking_of self.old) (marking_of self.new)) }
        ensures met { OnOk result (MetavariablesIn (IsMarked (marking_of self.new)) (open_term_of term.now)) }
    {
        match term {
            Open::Lam(body) => self.term(body),
            Open::Root(OpenHead::Meta(meta), spine) => {
                self.meet(*meta)?;
                self.spine(spine)
            }
            Open::Root(_, spine) => self.spine(spine),
        }
    }

    /// Goes through the arguments of a spine.
    #[cycle(walk)]
    fn spine(&mut self, spine: &OpenSpine) -> Result<(), AllocError>
        ensures spread { OnOk result (Spreads (λ k. SpineMentions k (open_spine_of spine.now)) (marking_of self.old) (marking_of self.new)) }
        ensures met { OnOk result (MetavariablesInSpine (IsMarked (marking_of self.new)) (open_spine_of spine.now)) }
    {
        for arg in &spine.args {
            self.term(arg)?;
        }
        Ok(())
    }

    /// Goes through a type.
    fn ty(&mut self, ty: &OpenTy) -> Result<(), AllocError>
        ensures spread { OnOk result (Spreads (λ k. TypeMentions k (open_type_of ty.now)) (marking_of self.old) (marking_of self.new)) }
        ensures met { OnOk result (MetavariablesInType (IsMarked (marking_of self.new)) (open_type_of ty.now)) }
    {
        match ty {
            OpenTy::Pi(domain, range) => {
                self.ty(domain)?;
                self.ty(range)
            }
            OpenTy::Atom(_, spine) => self.spine(spine),
        }
    }
}
