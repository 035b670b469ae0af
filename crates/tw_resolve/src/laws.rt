//! The laws of resolution. They have no code: each function carries one law as its contract.
ghost use Rattle.tw_resolve.specs.Fitting.{OrderIsFree, ResolvedFits};
ghost use Rattle.tw_resolve.specs.Resolved.{BodiesAreResolved, FoundAreDeclared, GoalsAreConstants, SkeletonsAreResolved};

/// The skeletons that a declaration has in just one way are of declared families.
pub fn found_are_declared()
    ensures { FoundAreDeclared }
{}

/// What has skeletons in just one way is resolved, and what is resolved has these skeletons.
pub fn skeletons_are_resolved()
    ensures { SkeletonsAreResolved }
{}

/// What has skeletons in just one way is resolved as a whole, and what is resolved has skeletons.
pub fn bodies_are_resolved()
    ensures { BodiesAreResolved }
{}

/// A goal that doesn't end in `type` is resolved as the declaration of a constant of this type.
pub fn goals_are_constants()
    ensures { GoalsAreConstants }
{}

/// What is resolved and has skeletons fits: it has the same in the text.
pub fn resolved_fits()
    ensures { ResolvedFits }
{}

/// The order of the free variables changes nothing of what is resolved and completed.
pub fn order_is_free()
    ensures { OrderIsFree }
{}
