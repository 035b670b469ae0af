//! The checks of clauses: clauses and their subgoals, marks, strict occurrences, ground sets, modes, worlds, orders, and first faults. The laws have no code: each
//! function carries one law as its contract.
#![tactic(auto)]

ghost use Rattle.lf_checks.specs.Laws.{CallsHaveRank, RankForbidsCycles, WaysAreDecided, WellModedUnfolds, StrictOccurrencesDetermine, InputsMentionInputs, CallerServesCallee, SmallerHasSmallerInstances};
ghost use Rattle.lf_checks.specs.CheckLaws.{ClausesAreListed, TypesAreFound, SubgoalsAreNumbered, PartsHaveSubgoals, GroundIsWalked, ModedBySubgoals, ModeFaultRefutes, ModeFaultIsOne, FirstModeFaultIsOne, ModedGroupIsListed, SomeValuesAreDetermined, InstancesDetermineTerms, FirstWorldFaultIsOne, WorldedGroupIsListed, SmallerIsDecided, FirstOrderFaultIsOne, DescendingGroupIsListed, JoinedBlocksAreOfFamilies, PartsHaveVariables, SubgoalsAreCounted, FamiliesMetHaveRows, SubgoalFamiliesAreMet, EndPassesOrFails};

/// A context of the caller's worlds is one of the callee's.
pub fn caller_serves_callee()
    ensures { CallerServesCallee }
{}

/// A smaller term has smaller instances.
pub fn smaller_has_smaller_instances()
    ensures { SmallerHasSmallerInstances }
{}

/// Where no call leads back, there is a rank that falls at each call.
pub fn calls_have_rank()
    ensures { CallsHaveRank }
{}

/// Where a rank falls at each call, no call leads back.
pub fn rank_forbids_cycles()
    ensures { RankForbidsCycles }
{}

/// Where equal calls are decided, so are the ways that they lead.
pub fn ways_are_decided()
    ensures { WaysAreDecided }
{}

/// A clause is well-moded exactly where what is asked of it holds and its hypotheses are well-moded.
pub fn well_moded_unfolds()
    ensures { WellModedUnfolds }
{}

/// Equal instances give a variable with a strict occurrence the same value.
pub fn strict_occurrences_determine()
    ensures { StrictOccurrencesDetermine }
{}

/// By sound marks without `*`, the types of input places mention input places only.
pub fn inputs_mention_inputs()
    ensures { InputsMentionInputs }
{}

/// The list of a group has exactly its clauses.
pub fn clauses_are_listed()
    ensures { ClausesAreListed }
{}

/// The type of a variable is found.
pub fn types_are_found()
    ensures { TypesAreFound }
{}

/// Each subgoal has one number, in solving order from 1.
pub fn subgoals_are_numbered()
    ensures { SubgoalsAreNumbered }
{}

/// The parts of a clause have its subgoals, by their numbers.
pub fn parts_have_subgoals()
    ensures { PartsHaveSubgoals }
{}

/// The parts of a clause have its variables, in their context.
pub fn parts_have_variables()
    ensures { PartsHaveVariables }
{}

/// The number of a subgoal is one more than the number of subgoals before it.
pub fn subgoals_are_counted()
    ensures { SubgoalsAreCounted }
{}

/// All families met have rows exactly where each has one, and the first without has none.
pub fn families_met_have_rows()
    ensures { FamiliesMetHaveRows }
{}

/// The check of modes meets the family of each clause and subgoal.
pub fn subgoal_families_are_met()
    ensures { SubgoalFamiliesAreMet }
{}

/// What is ground before a subgoal is what the walk over the subgoals has.
pub fn ground_is_walked()
    ensures { GroundIsWalked }
{}

/// A clause is well-moded exactly where its marks, each subgoal and its end are right.
pub fn moded_by_subgoals()
    ensures { ModedBySubgoals }
{}

/// A clause with a fault of modes isn't well-moded.
pub fn mode_fault_refutes()
    ensures { ModeFaultRefutes }
{}

/// The numbers of a clause's first fault of modes are fixed.
pub fn mode_fault_is_one()
    ensures { ModeFaultIsOne }
{}

/// At the end of a clause all is ground, or there is a fault.
pub fn end_passes_or_fails()
    ensures { EndPassesOrFails }
{}

/// There is at most one first fault of modes, and none where all clauses pass.
pub fn first_mode_fault_is_one()
    ensures { FirstModeFaultIsOne }
{}

/// All listed clauses are well-moded exactly where all clauses of the group are.
pub fn moded_group_is_listed()
    ensures { ModedGroupIsListed }
{}

/// Equal instances of an entry's type give a `some` variable that is strict in it the same value.
pub fn some_values_are_determined()
    ensures { SomeValuesAreDetermined }
{}

/// An instance of a strict block determines its `some` terms.
pub fn instances_determine_terms()
    ensures { InstancesDetermineTerms }
{}

/// There is at most one first fault of worlds, and none where all clauses pass.
pub fn first_world_fault_is_one()
    ensures { FirstWorldFaultIsOne }
{}

/// All listed clauses are well-worlded exactly where all clauses of the group are.
pub fn worlded_group_is_listed()
    ensures { WorldedGroupIsListed }
{}

/// Whether a term is smaller than another is decided.
pub fn smaller_is_decided()
    ensures { SmallerIsDecided }
{}

/// There is at most one first fault of orders, and none where the group descends.
pub fn first_order_fault_is_one()
    ensures { FirstOrderFaultIsOne }
{}

/// All listed clauses descend exactly where the group does.
pub fn descending_group_is_listed()
    ensures { DescendingGroupIsListed }
{}

/// The joined blocks of families are fixed, and are the blocks of their worlds.
pub fn joined_blocks_are_of_families()
    ensures { JoinedBlocksAreOfFamilies }
{}
