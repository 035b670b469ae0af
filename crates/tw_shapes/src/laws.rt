//! Laws of stores, without code.
ghost use Rattle.tw_shapes.specs.Laws.{StaysWithin, UnifyingNarrows, SkeletonStays};

/// A shape of some variables is one of more variables, so `fresh` and `unify` keep it within the store.
pub fn stays_within()
    ensures { StaysWithin }
{}

/// Whatever `unify` answers, each solution of the store after it is one of the store before.
pub fn unifying_narrows()
    ensures { UnifyingNarrows }
{}

/// Where solutions only narrow, the skeleton that `solved` gave stays the only one.
pub fn skeleton_stays()
    ensures { SkeletonStays }
{}
