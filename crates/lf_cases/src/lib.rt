//! Cases, covered inputs and outputs, splits and goals. The laws have no code: each function carries one law as its contract.
#![tactic(auto)]

ghost use Rattle.lf_cases.specs.Laws.{BelowIsSubordination, KindPlacesAreBelow, SubgoalsAreBelow, BelowGrows, UnionIsSelfContained, DownwardIsSelfContained, SelfContainedOverFewer, VariableIsEntry, HeadsAreKnown, InputGoalCovers, SplitsCover, CoveredInputsOverMore, CoveredOutputsOverMore};

/// The subordination of a signature and blocks is a test of subordination.
pub fn below_is_subordination()
    ensures { BelowIsSubordination }
{}

/// A subgoal's family is below the family of its clause: a callee is below its caller.
pub fn subgoals_are_below()
    ensures { SubgoalsAreBelow }
{}

/// What is below stays below where the signature and the blocks grow.
pub fn below_grows()
    ensures { BelowGrows }
{}

/// A union of self-contained sets is self-contained.
pub fn union_is_self_contained()
    ensures { UnionIsSelfContained }
{}

/// A set of declared families that holds all below its own is self-contained.
pub fn downward_is_self_contained()
    ensures { DownwardIsSelfContained }
{}

/// A self-contained set is so over fewer blocks.
pub fn self_contained_over_fewer()
    ensures { SelfContainedOverFewer }
{}

/// By a test of it, the places of a kind have only families below its own.
pub fn kind_places_are_below()
    ensures { KindPlacesAreBelow }
{}

/// In a context of worlds beside a set, a variable whose family is in the set is an entry of an instance, with this family.
pub fn variable_is_entry()
    ensures { VariableIsEntry }
{}

/// A run of splits that ends well covers its goal.
pub fn splits_cover()
    ensures { SplitsCover }
{}

/// Splitting: the head of a term of a family is a constant, a local variable or an entry of an instance.
pub fn heads_are_known()
    ensures { HeadsAreKnown }
{}

/// Where the types of input places mention input places only, and clauses cover the goal of input coverage, the inputs are covered.
pub fn input_goal_covers()
    ensures { InputGoalCovers }
{}

/// Inputs that are covered beside a set of families are covered beside each greater one.
pub fn covered_inputs_over_more()
    ensures { CoveredInputsOverMore }
{}

/// So are outputs.
pub fn covered_outputs_over_more()
    ensures { CoveredOutputsOverMore }
{}
