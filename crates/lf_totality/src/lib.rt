//! The laws of total families of LF. They have no code: each function carries one law as its contract.
#![tactic(auto)]

ghost use Rattle.lf_totality.specs.Laws.{CheckedGroupIsRight, GroupBySizesIsRight, GroupWithFactsIsRight, LastingIsTotal, LastingGoesOn, LastingOverMore, RecordStaysRight, CheckedStaysChecked, GroundFirstIsClosed, GroundAfterIsClosed, TypedTuplesAreLow, LowOutputsCover, NoOutputsAreCovered, HeldOutputsAreCovered, OutputGoalCovers, ClauseGoalsCover, SubgoalContextIsWorld};
ghost use Rattle.lf_totality.specs.Conclude.{RecordFreezes, CalleesAreHeld, RecordIsOne, FewerModed, BlocksServeFewer, AppendedEntryExtends, CheckedBesideFewer, DescendingCallsDrop, ChecksConclude};
ghost use Rattle.lf_totality.specs.Examples.{AdditionLasts, AdditionStaysChecked, NumbersHaveSums, CopyingLasts, TermsHaveCopies, BlockCaseIsCovered, PlusIsCoveredBySplits, PlusOutputGoal, CopyOutputGoal};
ghost use Rattle.lf_totality.specs.ExamplesRecords.{AdditionHasRecord, OtherRecordsAreRefused};
ghost use Rattle.lf_totality.specs.ExamplesFacts.{FactMakesCallsDrop};
ghost use Rattle.lf_totality.specs.ExamplesGroups.{MutualGroupLasts, CallerOfRecordLasts, StrictBlockServes};
ghost use Rattle.lf_totality.specs.ExamplesBlocks.{StrictBlockLasts, NumbersHaveDerivations};
ghost use Rattle.lf_totality.specs.ExamplesSplits.{NoCaseStands, ClausesStand, InstancesStand, EntryInstanceStands, BlocksStayApart, HeadsAreOrdered, OutputsStand, LinearClausesStand};
ghost use Rattle.lf_totality.specs.ExamplesMissing.{ZeroIsMissing, GoalIsNotMissing, LinearClauses};
ghost use Rattle.lf_totality.specs.ExamplesReached.{CandidatesStand, ZeroIsReached, EqualityIsUnsplit, AppliedIsUnsplit, AppliedHasValue, UngivenIsNotGround, SomeOutputIsNotLinear, NarrowZeroIsMissing, NarrowZeroIsReached, EntryIsLinear, FullClauses, MentionedIsRaised, GoalIsClosed, SomeVariableIsRaised, EntryOutputGoal, MoreCandidatesStand};
ghost use Rattle.lf_totality.specs.Refusals.{FreePlaceIsExempt, UnsoundMarksAreRefused, MarksMustFit, EmptyIsNotTotal, LoopIsRefused, UngroundIsRefused, MissingWorldIsRefused, CycleIsRefused, SomeVariableCoversNothing, SomeVariableIsNoParameter};

/// The totality theorem: the record of a checked group is right, each of its families lasts.
pub fn checked_group_is_right()
    ensures { CheckedGroupIsRight }
{}

/// The same where the sizes of calls drop.
pub fn group_by_sizes_is_right()
    ensures { GroupBySizesIsRight }
{}

/// The same where calls descend by facts about sizes, which hold since the subgoals before a call are solved.
pub fn group_with_facts_is_right()
    ensures { GroupWithFactsIsRight }
{}

/// What lasts is total now.
pub fn lasting_is_total()
    ensures { LastingIsTotal }
{}

/// What lasts goes on through each legal extension.
pub fn lasting_goes_on()
    ensures { LastingGoesOn }
{}

/// What lasts over a set of families lasts over each greater one.
pub fn lasting_over_more()
    ensures { LastingOverMore }
{}

/// A record stays right in each extension that adds nothing to its frozen families.
pub fn record_stays_right()
    ensures { RecordStaysRight }
{}

/// A checked record stays checked in such an extension.
pub fn checked_stays_checked()
    ensures { CheckedStaysChecked }
{}

/// What is concluded of a group whose checks have passed: its record is checked, and right where those before it are.
pub fn checks_conclude()
    ensures { ChecksConclude }
{}

/// What a record has below its families is self-contained, and it freezes what a record freezes.
pub fn record_freezes()
    ensures { RecordFreezes }
{}

/// What is below a callee is below its caller, as the record and those before it have it.
pub fn callees_are_held()
    ensures { CalleesAreHeld }
{}

/// Two records of one group are the same.
pub fn record_is_one()
    ensures { RecordIsOne }
{}

/// A clause that is well-moded is so where fewer families have hypotheses that are looked at as clauses.
pub fn fewer_moded()
    ensures { FewerModed }
{}

/// Blocks that serve a callee serve it where fewer families are below it.
pub fn blocks_serve_fewer()
    ensures { BlocksServeFewer }
{}

/// An entry with another target than those of a set is a legal extension over the set.
pub fn appended_entry_extends()
    ensures { AppendedEntryExtends }
{}

/// A group stays checked beside fewer records that hold every callee still.
pub fn checked_beside_fewer()
    ensures { CheckedBesideFewer }
{}

/// Calls that descend by their orders have sizes that drop.
pub fn descending_calls_drop()
    ensures { DescendingCallsDrop }
{}

/// The local context of a well-worlded subgoal extends a context of worlds to one.
pub fn subgoal_context_is_world()
    ensures { SubgoalContextIsWorld }
{}

/// The type of a variable that is ground at first mentions only such variables.
pub fn ground_first_is_closed()
    ensures { GroundFirstIsClosed }
{}

/// The same after a subgoal.
pub fn ground_after_is_closed()
    ensures { GroundAfterIsClosed }
{}

/// In a context of worlds an output uses only local variables whose families are below its own.
pub fn typed_tuples_are_low()
    ensures { TypedTuplesAreLow }
{}

/// The outputs of a subgoal are covered where such tuples are.
pub fn low_outputs_cover()
    ensures { LowOutputsCover }
{}

/// A case of a subgoal's outputs that the clause covers gives values for each tuple that it holds.
pub fn held_outputs_are_covered()
    ensures { HeldOutputsAreCovered }
{}

/// The outputs of a constant's subgoal are covered where the goal of output coverage is.
pub fn output_goal_covers()
    ensures { OutputGoalCovers }
{}

/// The same of any clause, a block entry too, where the goal of each way in which it comes is covered.
pub fn clause_goals_cover()
    ensures { ClauseGoalsCover }
{}

/// A subgoal without outputs is covered.
pub fn no_outputs_are_covered()
    ensures { NoOutputsAreCovered }
{}

/// Addition of natural numbers lasts.
pub fn addition_lasts()
    ensures { AdditionLasts }
{}

/// After later declarations the record of addition is checked still.
pub fn addition_stays_checked()
    ensures { AdditionStaysChecked }
{}

/// The record of addition is that of its group.
pub fn addition_has_record()
    ensures { AdditionHasRecord }
{}

/// A record that has too much or too little below it, or frozen, is not.
pub fn other_records_are_refused()
    ensures { OtherRecordsAreRefused }
{}

/// So each two numbers have a sum, with its proof.
pub fn numbers_have_sums()
    ensures { NumbersHaveSums }
{}

/// Copying of lambda terms lasts in the worlds of its block.
pub fn copying_lasts()
    ensures { CopyingLasts }
{}

/// So in each context of the block each term has a copy, with its proof.
pub fn terms_have_copies()
    ensures { TermsHaveCopies }
{}

/// A block's entry covers the case of a block variable.
pub fn block_case_is_covered()
    ensures { BlockCaseIsCovered }
{}

/// The inputs of addition are covered by a split into zero and successor.
pub fn plus_is_covered_by_splits()
    ensures { PlusIsCoveredBySplits }
{}

/// The goal of output coverage of the subgoal of addition.
pub fn plus_output_goal()
    ensures { PlusOutputGoal }
{}

/// That of copying under a binder: the output is raised over the bound variable alone.
pub fn copy_output_goal()
    ensures { CopyOutputGoal }
{}

/// A mutual group lasts, with an equal call that is on no cycle.
pub fn mutual_group_lasts()
    ensures { MutualGroupLasts }
{}

/// A group lasts that calls a family of an earlier record under other worlds.
pub fn caller_of_record_lasts()
    ensures { CallerOfRecordLasts }
{}

/// A call whose argument is an output drops by a fact about sizes, and not by its order.
pub fn fact_makes_calls_drop()
    ensures { FactMakesCallsDrop }
{}

/// A block with a strict `some` variable serves a subgoal, and one whose `some` variable stands in no entry serves none.
pub fn strict_block_serves()
    ensures { StrictBlockServes }
{}

/// A group lasts whose block has a strict `some` variable, and an entry that is one of its clauses.
pub fn strict_block_lasts()
    ensures { StrictBlockLasts }
{}

/// So in each context of the block each number has a derivation.
pub fn numbers_have_derivations()
    ensures { NumbersHaveDerivations }
{}

/// Without a clause for zero the case of zero is missing.
pub fn zero_is_missing()
    ensures { ZeroIsMissing }
{}

/// The goal itself is not missing, and nor is a case that shares an instance with a clause.
pub fn goal_is_not_missing()
    ensures { GoalIsNotMissing }
{}

/// A clause that is linear, and one that is not.
pub fn linear_clauses()
    ensures { LinearClauses }
{}

/// The candidates of a clause in a case: where it has a rigid head, and nowhere else.
pub fn candidates_stand()
    ensures { CandidatesStand }
{}

/// Candidates by block entries, and of outputs under a local context.
pub fn more_candidates_stand()
    ensures { MoreCandidatesStand }
{}

/// Without a clause for zero the strategy reaches the case of zero.
pub fn zero_is_reached()
    ensures { ZeroIsReached }
{}

/// The strategy can't split the case of two equal variables.
pub fn equality_is_unsplit()
    ensures { EqualityIsUnsplit }
{}

/// An output that a subgoal doesn't ask for is missing.
pub fn narrow_zero_is_missing()
    ensures { NarrowZeroIsMissing }
{}

/// The strategy reaches it.
pub fn narrow_zero_is_reached()
    ensures { NarrowZeroIsReached }
{}

/// A block's entry that is linear.
pub fn entry_is_linear()
    ensures { EntryIsLinear }
{}

/// A head that gives no case, and one that gives one.
pub fn no_case_stands()
    ensures { NoCaseStands }
{}

/// A list of all clauses of a family, and one in which one is missing.
pub fn clauses_stand()
    ensures { ClausesStand }
{}

/// A case that is an instance of a clause, at which the strategy doesn't stop, and one that is none.
pub fn instances_stand()
    ensures { InstancesStand }
{}

/// The case of a block variable is an instance of its block's entry.
pub fn entry_instance_stands()
    ensures { EntryInstanceStands }
{}

/// A case of outputs that can't be split, and one that can.
pub fn outputs_stand()
    ensures { OutputsStand }
{}

/// Clauses that are linear, of a constant and of an entry, and such that are not.
pub fn linear_clauses_stand()
    ensures { LinearClausesStand }
{}

/// A clause that is full, and one that is not.
pub fn full_clauses()
    ensures { FullClauses }
{}

/// An output is raised over a local variable that its type mentions, though its family isn't below.
pub fn mentioned_is_raised()
    ensures { MentionedIsRaised }
{}

/// k X is no instance of {F:nat -> nat} k (F z), which meets it without a candidate.
pub fn applied_is_unsplit()
    ensures { AppliedIsUnsplit }
{}

/// But values of F make it one, which nothing determines.
pub fn applied_has_value()
    ensures { AppliedHasValue }
{}

/// A variable for which no term is given isn't ground before a subgoal.
pub fn ungiven_is_not_ground()
    ensures { UngivenIsNotGround }
{}

/// The heads of a family, in order.
pub fn heads_are_ordered()
    ensures { HeadsAreOrdered }
{}

/// A split keeps block variables apart.
pub fn blocks_stay_apart()
    ensures { BlocksStayApart }
{}

/// An entry that asks for a `some` variable as an output is not linear.
pub fn some_output_is_not_linear()
    ensures { SomeOutputIsNotLinear }
{}

/// A goal of outputs keeps what the types of the ground variables mention.
pub fn goal_is_closed()
    ensures { GoalIsClosed }
{}

/// So it is where a `some` variable brings the local variable into the type.
pub fn some_variable_is_raised()
    ensures { SomeVariableIsRaised }
{}

/// The goal of output coverage of a block's entry.
pub fn entry_output_goal()
    ensures { EntryOutputGoal }
{}

/// A loop does not descend.
pub fn loop_is_refused()
    ensures { LoopIsRefused }
{}

/// A clause with an output that is not ground is not well-moded.
pub fn unground_is_refused()
    ensures { UngroundIsRefused }
{}

/// A family is not total by marks that don't fit its kind.
pub fn marks_must_fit()
    ensures { MarksMustFit }
{}

/// A family without inhabitants is not total, but one whose input has none is.
pub fn empty_is_not_total()
    ensures { EmptyIsNotTotal }
{}

/// Marks are not sound where an input mentions an output.
pub fn unsound_marks_are_refused()
    ensures { UnsoundMarksAreRefused }
{}

/// A variable in a free place needs no value.
pub fn free_place_is_exempt()
    ensures { FreePlaceIsExempt }
{}

/// A subgoal under a binder is not well-worlded without a block.
pub fn missing_world_is_refused()
    ensures { MissingWorldIsRefused }
{}

/// A cycle of equal calls does not descend.
pub fn cycle_is_refused()
    ensures { CycleIsRefused }
{}

/// An entry covers nothing by what stands in an argument of a `some` variable.
pub fn some_variable_covers_nothing()
    ensures { SomeVariableCoversNothing }
{}

/// Nothing is smaller under a `some` variable.
pub fn some_variable_is_no_parameter()
    ensures { SomeVariableIsNoParameter }
{}
