//! Which of the postponed equations have to be looked at again.
ghost use Rattle.std.specs.Prelude.{◌≡◌, ◌<◌, length, replicate, None, IfOk, OnOk};
ghost use Rattle.std.specs.Bool.{OnFalse, OnTrue};
ghost use Rattle.std.specs.HashMap.{IsEmpty};
ghost use Rattle.tw_metas.specs.State.{State, without_equation};
ghost use Rattle.tw_metas.specs.View.{equation_of};
ghost use Rattle.tw_putting.specs.Whole.{IsConsistent};
ghost use Rattle.tw_unify.specs.Watching.{AreEarly, Changes, IsEarly, IsLeftAt, IsPast, Watches, diary_of};

use crate::reach::Walk;
use crate::work::Advance;
use std::alloc::{AllocError, Global};
use std::collections::HashMap;
use tw_metas::{Equation, Store};
use tw_terms::MetaId;

/// When the postponed equations were found to be left, and when metavariables were bound. A time is how many bindings were noted since the call began: none is where nothing is postponed.
#[derive(Drop)]
pub struct Watch {
    /// By place; none where the equation isn't known to have been left.
    pub found: Vec<Option<u64>>,
    pub bound: HashMap<u64, u64>,
    pub time: u64,
    /// Where to look next.
    pub next: usize,
}

impl Watch {
    /// Nothing was bound yet, and the same is known of each of the equations.
    pub fn new(
        alloc: Global,
        equations: &[Box<Equation>],
        found: Option<u64>,
    ) -> Result<Watch, AllocError>
        ensures found { IfOk result (λ w. w.found.items ≡ replicate (length equations.now) found) }
        ensures bound { IfOk result (λ w. IsEmpty w.bound) }
        ensures time { IfOk result (λ w. w.time ≡ 0) }
    {
        let mut all = Vec::new(alloc);
        all.resize(equations.len(), found)?;
        Ok(Watch {
            found: all,
            bound: HashMap::new(alloc),
            time: 0,
            next: 0,
        })
    }

    /// Notes what came of an equation at work. Where nothing is postponed no equation hangs on what is bound. Other bindings are counted, and memory counts as used up after 2 ^ 64 - 1 of them.
    pub fn note(&mut self, came: Advance) -> Result<(), AllocError>
        ensures { OnOk result ((s t : State) → Watches s (diary_of self.old) → Changes came s t → Watches t (diary_of self.new)) }
    {
        match came {
            Advance::Went | Advance::Refuted => Ok(()),
            Advance::Bound(meta) => {
                if self.found.is_empty() {
                    return Ok(());
                }
                self.bound.insert(meta.0, self.time)?;
                self.time = self.time.checked_add(1).ok_or(AllocError)?;
                Ok(())
            }
            Advance::Postponed => {
                self.found.push(None)?;
                Ok(())
            }
        }
    }

    /// The equation at this place is left now.
    pub fn renew(&mut self, at: usize)
        requires { at < length self.old.found.items }
        ensures { (s : State) → Watches s (diary_of self.old) → IsLeftAt s at → Watches s (diary_of self.new) }
    {
        self.found[at] = Some(self.time);
    }

    /// The equation at this place was taken out.
    pub fn forget(&mut self, at: usize)
        requires { at < length self.old.found.items }
        ensures { (s : State) → Watches s (diary_of self.old) → Watches (without_equation s at) (diary_of self.new) }
    {
        self.found.remove(at);
        self.next = at;
    }

    /// Whether the metavariable was bound since.
    fn is_late(&self, since: u64, meta: u64) -> bool
        ensures { OnFalse result (IsEarly (diary_of self.now) since meta) }
    {
        match self.bound.get(&meta) {
            Some(time) => *time >= since,
            None => false,
        }
    }
}

/// Whether no metavariable that is reached from the sides, through types and values, was bound since. Fails only for want of memory.
pub fn is_untouched(
    alloc: Global,
    store: &Store,
    watch: &Watch,
    equation: &Equation,
    since: u64,
) -> Result<bool, AllocError>
    requires consistent { IsConsistent store.now.now }
    requires past { IsPast (diary_of watch.now) }
    ensures { IfOk result (λ b. OnTrue b (AreEarly store.now.now (diary_of watch.now) since (equation_of equation.now))) }
{
    if since == watch.time {
        return Ok(true);
    }
    let mut walk = Walk::new(alloc);
    walk.term(&equation.left)?;
    walk.term(&equation.right)?;
    while let Some(next) = walk.due.pop() {
        if watch.is_late(since, next) {
            return Ok(false);
        }
        walk.type_of(store, MetaId(next))?;
        walk.value_of(store, MetaId(next))?;
        // A set has fewer than 2^63 members, and each turn takes another one of them.
        let _count = walk.marks.len();
    }
    Ok(true)
}
