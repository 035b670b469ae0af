//! The laws of splits of coverage. They have no code: each function carries one law as its contract.
#![tactic(auto)]

ghost use Rattle.lf_coverage.specs.Laws.{HeadSplitIsSplit, SplitCasesAreTyped, SplitCaseIsInstance, InstancesCompose, ReachedIsInstance, MeetStoreIsReady, SplitStoreIsReady, StoresHaveSkeletons, InputGoalIsTypedCase, InputGoalIsTyped, InstanceStaysTyped, SplitCasesStayTyped, ReachedStaysTyped, HeadSplitsCover, NeverGivesNone, NeverGivesNoCase, NeverSharesAll, NeverIsApart, NeverIsApartBeside, SolvedSharesInstance, SolvedGivesCase, SolvedIsSplit, LeftIsOutside, UnifiedSplitIsHeadSplit, LeafIsInstanceCase, LeavesCover, HeadIsTypedPattern, SubgoalIsTypedPattern};
ghost use Rattle.lf_coverage.specs.RunLaws.{EmptyWorldHasNoBlock, ReachedHasNoBlock, InstanceIsTypedCase, CandidateIsVariable, NeverIsMissing, SplitItemsKeepFamilies, SolvedKeepsFamilies, SolvedSplitIsUnified, SolvedSplitIsAnswer, SolvedRunCovers, SolvedRunCoversInputs};
ghost use Rattle.lf_coverage.specs.Subordinate.{BelowOnesTakeBelow, HeadsQuantifyBelow, InputsQuantifyBelow};
ghost use Rattle.lf_coverage.specs.SubordinateRuns.{OccurringIsBelow, RaisedQuantifiesBelow, SplitItemsQuantifyBelow, OutputsQuantifyBelow, SolvedQuantifiesBelow, AnsweredSplitIsSolved, AnsweredSplitIsAnswer, RunQuantifiesBelow, InputRunQuantifiesBelow, AnsweredRunCovers, AnsweredRunCoversInputs};
ghost use Rattle.lf_coverage.specs.Examples.{PlusIsSplitByHeads, PlusIsSplitByUnification, PlusIsCoveredByHeads, SuccessorGivesNone, HeadsAreAll, CopyHeadsAreInOrder, NumbersGetDeep, StoresOfMeeting};
ghost use Rattle.lf_coverage.specs.ExamplesSubordinate.{ArgumentsAreNotEnough, FunctionsAreSplit, OutputsAreRaisedBelow, AdditionIsTested, PlusRunIsAnswered, OddCaseComesByNone, LooseCaseIsSplit};
ghost use Rattle.lf_coverage.specs.ExamplesRuns.{PlusRunCovers, PlusCasesAreAnswer, PlusIsMissing};
ghost use Rattle.lf_coverage.specs.ExamplesLocal.{CopyLocalIsTyped};
ghost use Rattle.lf_coverage.specs.ExamplesTyped.{PlusGoalsAreTyped, OddCaseIsUntyped, ZeroIsApart, SuccessorIsSplit};
ghost use Rattle.lf_coverage.specs.ExamplesLeaves.{PlusEndsAtLeaves, EntryIsLeaf, GoalIsOutputLeaf};
ghost use Rattle.lf_coverage.specs.ExamplesRenumbering.{TurnedIsSolved, NumbersDiffer, NewTakesAnother};
ghost use Rattle.lf_coverage.specs.RenumberingLaws.{NumbersExtend, NumbersAreRenumbering, UndoingReturns, ReadyUnderNumbers, StepUnderNumbers, NeverUnderNumbers, SolvedUnderNumbers, LeftUnderNumbers, DeepUnderNumbers, FoundUnderNumbers, NeverGivesNoCaseUnderNumbers, SolvedIsSplitUnderNumbers, LeftIsOutsideUnderNumbers, TooDeepUnderNumbers, NeverIsApartUnderNumbers, SolvedSharesInstanceUnderNumbers, OpenUnderNumbers};
ghost use Rattle.lf_coverage.specs.TermMatching.{TermsMatch, ArgumentsMatch};
ghost use Rattle.lf_coverage.specs.ExamplesStuck.{PatternsStand, BoundIsTaken, AppliedIsReached, SolvedHasCandidate, LowerIsUnsplit, ZerosAreTested, LowerIsTested};
ghost use Rattle.lf_coverage.specs.Stuck.{StrictIsPattern, HeadsAreOfStrategy, NoCandidateMatches, NoCandidateIsInstance, UnsplitSharesNone, NeverUnsplit, CaseProceeds, ComesAsInstance, FirstSplitsReach, InputRunIsStrategys, InputRunIsNeverStuck, InputRunProceeds};
ghost use Rattle.lf_coverage.specs.ExamplesStrategy.{HeadsAreStrategys, CasesAreStrategys, PlusSplitsAtFirst, SuccessorIsNotStuck, SolvedIsNotStuck};
ghost use Rattle.lf_coverage.specs.FullMatching.{FullPlacesMatch, InputsMatch, HeadsAreStrict, PatternValuesAreTyped};
ghost use Rattle.lf_coverage.specs.ExamplesMatching.{ValuesAreFound, PlusMatches, PlusIsInstance, TwoAreNotOne};
ghost use Rattle.lf_coverage.specs.MatchingLaws.{InstanceIsFound, ValuesAreDetermined, InstanceMatches, MatchIsInstance, InstanceIsDecided, HeadGroundHoldsTypes, GoalGroundHoldsTypes, HeadMatchIsTyped, HeadMatchingDecides, HeadMatchIsLeaf, GoalMatchingDecides};
ghost use Rattle.lf_coverage.specs.OutputLaws.{OutputGoalIsTypedCase, OutputGoalIsTyped, ModedGoalsAreTyped, StrictGoalsAreTyped, NeverIsMissingOutput, OpenOutputsAreCovered, SolvedRunCoversOutputs, SolvedRunAnswersOutputs, SolvedRunGivesOutputs, SolvedRunsGiveOutputs};
ghost use Rattle.lf_coverage.specs.AnsweredOutputs.{AnsweredRunIsSolved, OutputGoalQuantifiesBelow, AnsweredRunCoversOutputs, AnsweredRunGivesOutputs, OutputRunStaysTyped, StrictRunStaysTyped};
ghost use Rattle.lf_coverage.specs.ExamplesOutputs.{PlusOutputsAreTyped, CopyOutputsAreTyped, OpenGoalIsUntyped, EntryGoalIsUntyped, PlusOutputsAreCovered};
ghost use Rattle.lf_coverage.specs.ExamplesAnsweredOutputs.{PlusOutputRunCovers, CopyOutputRunStaysTyped};
ghost use Rattle.lf_coverage.specs.ExamplesCopying.{CopyIsSplitByHeads, CopyCasesAreAnswer, CopyCasesAreInstances, CopyCasesAreReached, CopyRunCovers, CopyEntryIsMissing};
ghost use Rattle.lf_coverage.specs.ExamplesTwins.{TwinsAreSplit, TwinCasesAreAnswers, TwinCasesAreReached, TwinRunCovers, TwinsAreOneInstance, TwinsAreMatched};
ghost use Rattle.lf_coverage.specs.RefutedSplits.{RunInExtension, RefutedGivesNone, SolvedGivesCaseBeside, RefutedSplitIsAnswer, RefutedRunCovers};
ghost use Rattle.lf_coverage.specs.ExamplesRefuted.{KeptIsSplit, KeptIsWithin, PlusRunIsAtCandidate, SuccessorIsRefuted};
ghost use Rattle.lf_coverage.specs.CandidateRuns.{CandidateIsInSet, CandidateRunCoversBeside, CandidateRunCoversClosed, CandidateRunCovers, ClosedSetsAreWithin, CandidateRunCoversOutputs, CandidateRunAnswersOutputs};
ghost use Rattle.lf_coverage.specs.PatternStores.{StepKeepsPatterns, StepKeepsTypePatterns, SolvedKeepsPatterns};
ghost use Rattle.lf_coverage.specs.PatternCases.{SolvedCaseIsPattern, PatternCaseHasPatterns};
ghost use Rattle.lf_coverage.specs.ExamplesPatterns.{BoundAreDistinct, EquationsOfPatterns, StuckIsNoPattern, NatHasNoIndices};
ghost use Rattle.lf_coverage.specs.PatternHeads.{HeadArgumentsArePatterns, VariablesArePatterns, HeadTermIsPattern};
ghost use Rattle.lf_coverage.specs.PatternRuns.{RunKeepsPatterns, InputRunHasPatterns};
ghost use Rattle.lf_coverage.specs.PatternSplits.{SplitStoreIsPattern, SplitCaseIsPattern};
ghost use Rattle.lf_coverage.specs.PatternHeadRuns.{SplitsByPatternsKeepThem, InputSplitsHavePatterns, InputSplitsAreNeverStuck};

/// The heads of a split give all its cases.
pub fn head_split_is_split()
    ensures { HeadSplitIsSplit }
{}

/// And these cases are typed.
pub fn split_cases_are_typed()
    ensures { SplitCasesAreTyped }
{}

/// What the strategy reaches by a split is an instance of the case that is split.
pub fn split_case_is_instance()
    ensures { SplitCaseIsInstance }
{}

/// A typed instance of a typed instance of a goal is one of the goal.
pub fn instances_compose()
    ensures { InstancesCompose }
{}

/// So each case that the strategy reaches is one.
pub fn reached_is_instance()
    ensures { ReachedIsInstance }
{}

/// The store of a typed case and a typed pattern is well formed.
pub fn meet_store_is_ready()
    ensures { MeetStoreIsReady }
{}

/// So is that of a typed case and a head for one of its variables.
pub fn split_store_is_ready()
    ensures { SplitStoreIsReady }
{}

/// And skeletons type what the equations of both stand in.
pub fn stores_have_skeletons()
    ensures { StoresHaveSkeletons }
{}

/// The goal of inputs is typed by itself.
pub fn input_goal_is_typed_case()
    ensures { InputGoalIsTypedCase }
{}

/// The goal of inputs is typed beside each head of its family.
pub fn input_goal_is_typed()
    ensures { InputGoalIsTyped }
{}

/// And so is each typed instance of what is typed so.
pub fn instance_stays_typed()
    ensures { InstanceStaysTyped }
{}

/// So is each case of a split by heads.
pub fn split_cases_stay_typed()
    ensures { SplitCasesStayTyped }
{}

/// And each case that the strategy reaches.
pub fn reached_stays_typed()
    ensures { ReachedStaysTyped }
{}

/// In the empty world no typed item is a block variable.
pub fn empty_world_has_no_block()
    ensures { EmptyWorldHasNoBlock }
{}

/// And no case that the strategy reaches there has one.
pub fn reached_has_no_block()
    ensures { ReachedHasNoBlock }
{}

/// A typed instance of a typed case is a typed case, with a typed local context.
pub fn instance_is_typed_case()
    ensures { InstanceIsTypedCase }
{}

/// A candidate is one of the free variables of its case.
pub fn candidate_is_variable()
    ensures { CandidateIsVariable }
{}

/// A case that is reached, and is never solved with any pattern, is missing.
pub fn never_is_missing()
    ensures { NeverIsMissing }
{}

/// The items after a split have families that were there.
pub fn split_items_keep_families()
    ensures { SplitItemsKeepFamilies }
{}

/// And so have those of the case that is read off the solved store.
pub fn solved_keeps_families()
    ensures { SolvedKeepsFamilies }
{}

/// What is quantified in the types of heads and of a goal's items is below; so the families in arguments' types are.
pub fn heads_quantify_below()
    ensures arguments { BelowOnesTakeBelow }
    ensures heads { HeadsQuantifyBelow }
    ensures inputs { InputsQuantifyBelow }
{}

/// A split at each head of which unification answers is one by unification.
pub fn solved_split_is_unified()
    ensures { SolvedSplitIsUnified }
{}

/// Its cases are those that the split is to answer.
pub fn solved_split_is_answer()
    ensures { SolvedSplitIsAnswer }
{}

/// A run of such splits that ends at instances of patterns covers its goal.
pub fn solved_run_covers()
    ensures goal { SolvedRunCovers }
    ensures inputs { SolvedRunCoversInputs }
{}

/// A run of splits by heads that ends well covers its goal.
pub fn head_splits_cover()
    ensures { HeadSplitsCover }
{}

/// What unification never solves gives no case.
pub fn never_gives_none()
    ensures { NeverGivesNone }
{}

/// And no typed instance makes the variable that head.
pub fn never_gives_no_case()
    ensures { NeverGivesNoCase }
{}

/// A case and a constant's clause that unification never solves share no typed instance with a value for each variable of the clause.
pub fn never_shares_all()
    ensures { NeverSharesAll }
{}

/// And where nothing is given they are apart.
pub fn never_is_apart()
    ensures { NeverIsApart }
{}

/// And so where terms are given, if the case is typed beside the clause.
pub fn never_is_apart_beside()
    ensures { NeverIsApartBeside }
{}

/// What is solved, a case and a constant's clause share.
pub fn solved_shares_instance()
    ensures { SolvedSharesInstance }
{}

/// What it solves gives the case that is read off the solved store.
pub fn solved_gives_case()
    ensures { SolvedGivesCase }
{}

/// And this is the case that the strategy's split gives.
pub fn solved_is_split()
    ensures { SolvedIsSplit }
{}

/// What it leaves over is outside the pattern fragment.
pub fn left_is_outside()
    ensures { LeftIsOutside }
{}

/// A split on which unification answers at each head is a split by heads.
pub fn unified_split_is_head_split()
    ensures { UnifiedSplitIsHeadSplit }
{}

/// What a typed case holds that is an instance of a clause is covered.
pub fn leaf_is_instance_case()
    ensures { LeafIsInstanceCase }
{}

/// A run of splits by unification whose leaves are such instances covers its goal.
pub fn leaves_cover()
    ensures { LeavesCover }
{}

/// The head of a clause is a typed pattern at its inputs, where these are strict.
pub fn head_is_typed_pattern()
    ensures { HeadIsTypedPattern }
{}

/// A subgoal that is checked is a typed pattern at its outputs.
pub fn subgoal_is_typed_pattern()
    ensures { SubgoalIsTypedPattern }
{}

/// The inputs of addition are split by the heads zero and successor.
pub fn plus_is_split_by_heads()
    ensures { PlusIsSplitByHeads }
{}

/// So unification answers at both.
pub fn plus_is_split_by_unification()
    ensures { PlusIsSplitByUnification }
{}

/// A head on which unification never solves, and which gives no case.
pub fn successor_gives_none()
    ensures { SuccessorGivesNone }
{}

/// The heads of a variable in the worlds of a block, in order.
pub fn copy_heads_are_in_order()
    ensures { CopyHeadsAreInOrder }
{}

/// The stores of two cases and what is to cover them.
pub fn stores_of_meeting()
    ensures { StoresOfMeeting }
{}

/// A case that is too deep, and one that isn't.
pub fn numbers_get_deep()
    ensures { NumbersGetDeep }
{}

/// The inputs of addition are covered by a run of splits by heads.
pub fn plus_is_covered_by_heads()
    ensures { PlusIsCoveredByHeads }
{}

/// A list of cases that forgets a head is no split.
pub fn heads_are_all()
    ensures { HeadsAreAll }
{}

/// The inputs of addition are covered by a run of splits by unification that ends at instances of its clauses.
pub fn plus_ends_at_leaves()
    ensures { PlusEndsAtLeaves }
{}

/// A run that covers the inputs of addition beside each set that the contract names, and the cases of its split.
pub fn plus_run_covers()
    ensures covers { PlusRunCovers }
    ensures answer { PlusCasesAreAnswer }
{}

/// A goal without clauses is missing, and a case is apart from a clause.
pub fn plus_is_missing()
    ensures { PlusIsMissing }
{}

/// The case of a block variable is an instance of its block's entry.
pub fn entry_is_leaf()
    ensures { EntryIsLeaf }
{}

/// The goal of a subgoal's outputs that are all new is a leaf, and covered.
pub fn goal_is_output_leaf()
    ensures { GoalIsOutputLeaf }
{}

/// A local context that is typed, and one that isn't.
pub fn copy_local_is_typed()
    ensures { CopyLocalIsTyped }
{}

/// Goals of addition are typed beside a clause and its subgoal, and their stores are ready.
pub fn plus_goals_are_typed()
    ensures { PlusGoalsAreTyped }
{}

/// A case with skeletons that isn't typed.
pub fn odd_case_is_untyped()
    ensures { OddCaseIsUntyped }
{}

/// A case and a clause that are never solved, and apart.
pub fn zero_is_apart()
    ensures { ZeroIsApart }
{}

/// A case that a split gives.
pub fn successor_is_split()
    ensures { SuccessorIsSplit }
{}

/// What occurs in a type is below it, and so what is quantified in the types of new variables and of what solving leaves free.
pub fn splits_quantify_below()
    ensures occurring { OccurringIsBelow }
    ensures raised { RaisedQuantifiesBelow }
    ensures items { SplitItemsQuantifyBelow }
    ensures outputs { OutputsQuantifyBelow }
    ensures solved { SolvedQuantifiesBelow }
{}

/// So the families in arguments' types are below their own in each split at each head of which unification answers.
pub fn answered_split_is_solved()
    ensures split { AnsweredSplitIsSolved }
    ensures answer { AnsweredSplitIsAnswer }
{}

/// And so it is in each case that comes by such splits.
pub fn run_quantifies_below()
    ensures goal { RunQuantifiesBelow }
    ensures inputs { InputRunQuantifiesBelow }
{}

/// A run of such splits covers its goal, whatever families are in the types along it.
pub fn answered_run_covers()
    ensures goal { AnsweredRunCovers }
    ensures inputs { AnsweredRunCoversInputs }
{}

/// What arguments alone don't tell, splits of functions, a test, and a run that nothing more is asked of.
pub fn plus_run_is_answered()
    ensures arguments { ArgumentsAreNotEnough }
    ensures functions { FunctionsAreSplit }
    ensures outputs { OutputsAreRaisedBelow }
    ensures test { AdditionIsTested }
    ensures run { PlusRunIsAnswered }
    ensures odd { OddCaseComesByNone }
    ensures loose { LooseCaseIsSplit }
{}

/// Different numbers for finitely many metavariables are a renumbering's, and a store with them is one under it; what is undone is as it was.
pub fn numbers_extend()
    ensures extend { NumbersExtend }
    ensures store { NumbersAreRenumbering }
    ensures undone { UndoingReturns }
{}

/// A store that is ready to be solved is so under other numbers of its metavariables.
pub fn ready_under_numbers()
    ensures { ReadyUnderNumbers }
{}

/// A step of a store is one under other numbers.
pub fn step_under_numbers()
    ensures { StepUnderNumbers }
{}

/// What has no typed unifier has none under other numbers.
pub fn never_under_numbers()
    ensures { NeverUnderNumbers }
{}

/// What is solved is solved under other numbers, what leaves equations leaves them, and what is deep is so.
pub fn solved_under_numbers()
    ensures solved { SolvedUnderNumbers }
    ensures left { LeftUnderNumbers }
    ensures deep { DeepUnderNumbers }
{}

/// Unification of a head with a variable may be done under any numbers: it finds none, or the case, or what the split stops at, or is too deep.
pub fn split_under_numbers()
    ensures found { FoundUnderNumbers }
    ensures never { NeverGivesNoCaseUnderNumbers }
    ensures solved { SolvedIsSplitUnderNumbers }
    ensures left { LeftIsOutsideUnderNumbers }
    ensures deep { TooDeepUnderNumbers }
{}

/// So may that of a case with a constant's clause: they are apart, or share an instance, or it is open whether they do.
pub fn meeting_under_numbers()
    ensures never { NeverIsApartUnderNumbers }
    ensures solved { SolvedSharesInstanceUnderNumbers }
    ensures open { OpenUnderNumbers }
{}

/// Addition with X and Y numbered the other way round, two metavariables of one number, and a new one that takes another.
pub fn numbers_are_turned()
    ensures solved { TurnedIsSolved }
    ensures differ { NumbersDiffer }
    ensures new { NewTakesAnother }
{}

/// A term of a clause and one of a case that share an instance: without a candidate the one is made the other.
pub fn terms_match()
    ensures { TermsMatch }
{}

/// And so are arguments.
pub fn arguments_match()
    ensures { ArgumentsMatch }
{}

/// A most general unifier that isn't made of patterns gives a case where the strategy is stuck.
pub fn applied_is_reached()
    ensures patterns { PatternsStand }
    ensures bound { BoundIsTaken }
    ensures stuck { AppliedIsReached }
    ensures solved { SolvedHasCandidate }
    ensures lower { LowerIsUnsplit }
    ensures zeros { ZerosAreTested }
    ensures test { LowerIsTested }
{}

/// And so are the arguments of a case and the tuple of a linear and full clause.
pub fn full_places_match()
    ensures { FullPlacesMatch }
{}

/// So a case of inputs that shares an instance with a linear and full clause has a candidate, or the clause matches it.
pub fn inputs_match()
    ensures { InputsMatch }
{}

/// And each variable in the head of such a clause has a strict occurrence, as an instance asks.
pub fn heads_are_strict()
    ensures { HeadsAreStrict }
{}

/// And a value that makes a variable on distinct bound variables a typed term is typed.
pub fn pattern_values_are_typed()
    ensures { PatternValuesAreTyped }
{}

/// Where a case is an instance of a pattern, matching finds the values.
pub fn instance_is_found()
    ensures { InstanceIsFound }
{}

/// So there is at most one value for each variable that is ground.
pub fn values_are_determined()
    ensures { ValuesAreDetermined }
{}

/// An instance of a pattern matches it.
pub fn instance_matches()
    ensures { InstanceMatches }
{}

/// And what matches a pattern is an instance of it.
pub fn match_is_instance()
    ensures { MatchIsInstance }
{}

/// So whether a case is an instance of a pattern is decided.
pub fn instance_is_decided()
    ensures { InstanceIsDecided }
{}

/// What is ground by the covered places of a head holds its types.
pub fn head_ground_holds_types()
    ensures { HeadGroundHoldsTypes }
{}

/// So does what is ground by those of a subgoal, with what is given.
pub fn goal_ground_holds_types()
    ensures { GoalGroundHoldsTypes }
{}

/// Values are read off under binders.
pub fn values_are_found()
    ensures { ValuesAreFound }
{}

/// plus (s X') Y _ matches plus-s.
pub fn plus_matches()
    ensures { PlusMatches }
{}

/// Of a head the terms that are found are typed by themselves.
pub fn head_match_is_typed()
    ensures { HeadMatchIsTyped }
{}

/// So matching by terms alone decides whether a case is an instance of a head.
pub fn head_matching_decides()
    ensures { HeadMatchingDecides }
{}

/// And of a subgoal whose inputs are given.
pub fn goal_matching_decides()
    ensures { GoalMatchingDecides }
{}

/// So plus (s X') Y _ is an instance of plus-s, and plus X Y _ is none of plus-z.
pub fn plus_is_instance()
    ensures { PlusIsInstance }
{}

/// And such a case is a leaf of a run.
pub fn head_match_is_leaf()
    ensures { HeadMatchIsLeaf }
{}

/// eq X Y doesn't match eq-r.
pub fn two_are_not_one()
    ensures { TwoAreNotOne }
{}

/// A case of inputs that shares an instance with a linear and full head, and has no candidate with it, matches it by terms.
pub fn no_candidate_matches()
    ensures { NoCandidateMatches }
{}

/// So it is an instance of the head.
pub fn no_candidate_is_instance()
    ensures { NoCandidateIsInstance }
{}

/// So a case that is not split shares an instance with none of such heads, and is open with one.
pub fn unsplit_shares_none()
    ensures { UnsplitSharesNone }
{}

/// So the strategy is never stuck where nothing is open.
pub fn never_unsplit()
    ensures { NeverUnsplit }
{}

/// A case is an instance of a head, or is split, or shares an instance with none.
pub fn case_proceeds()
    ensures { CaseProceeds }
{}

/// What comes by answered splits is an instance of the goal.
pub fn comes_as_instance()
    ensures { ComesAsInstance }
{}

/// From the goal of inputs come cases of the strategy, if their variables are applied to distinct bound variables.
pub fn input_run_is_strategys()
    ensures { InputRunIsStrategys }
{}

/// So a run from it is never stuck at them.
pub fn input_run_is_never_stuck()
    ensures { InputRunIsNeverStuck }
{}

/// And where unification comes to an end they are covered, split or missing.
pub fn input_run_proceeds()
    ensures { InputRunProceeds }
{}

/// plus-z and plus-s are heads for the strategy, and k (F z) isn't.
pub fn heads_are_strategys()
    ensures { HeadsAreStrategys }
{}

/// plus (s X) Y _ is a case of it, and eq z (F z) isn't.
pub fn cases_are_strategys()
    ensures { CasesAreStrategys }
{}

/// plus (s X) Y _ has no candidate with plus-s, and is an instance of it.
pub fn successor_is_not_stuck()
    ensures { SuccessorIsNotStuck }
{}

/// eq z Y has a candidate with eq z z.
pub fn solved_is_not_stuck()
    ensures { SolvedIsNotStuck }
{}

/// The heads of linear and full clauses with patterns are those of the strategy.
pub fn heads_are_of_strategy()
    ensures { HeadsAreOfStrategy }
{}

/// A linear head whose variables are all strict has patterns.
pub fn strict_is_pattern()
    ensures { StrictIsPattern }
{}

/// What comes by the strategy's splits is reached.
pub fn first_splits_reach()
    ensures { FirstSplitsReach }
{}

/// The strategy splits plus X Y _ by z and s.
pub fn plus_splits_at_first()
    ensures { PlusSplitsAtFirst }
{}

/// The goal of the outputs of a subgoal is typed by itself.
pub fn output_goal_is_typed_case()
    ensures { OutputGoalIsTypedCase }
{}

/// And that of a constant's subgoal is typed beside it.
pub fn output_goal_is_typed()
    ensures { OutputGoalIsTyped }
{}

/// So the checks of modes give it, for each subgoal of a clause.
pub fn moded_goals_are_typed()
    ensures alone { ModedGoalsAreTyped }
    ensures beside { StrictGoalsAreTyped }
{}

/// What is ground and open has no values, so that nothing is to be covered.
pub fn open_outputs_are_covered()
    ensures { OpenOutputsAreCovered }
{}

/// A case reached from it that is never solved with the subgoal is missing.
pub fn never_is_missing_output()
    ensures { NeverIsMissingOutput }
{}

/// A run from the goal of outputs covers it, and so the outputs.
pub fn solved_run_covers_outputs()
    ensures goal { SolvedRunCoversOutputs }
    ensures answer { SolvedRunAnswersOutputs }
    ensures constant { SolvedRunGivesOutputs }
    ensures every { SolvedRunsGiveOutputs }
{}

/// Goals of outputs that are typed beside a subgoal, one with a local context; two that aren't; and a run from one.
pub fn outputs_are_typed()
    ensures plus { PlusOutputsAreTyped }
    ensures copy { CopyOutputsAreTyped }
    ensures unclosed { OpenGoalIsUntyped }
    ensures entry { EntryGoalIsUntyped }
    ensures covered { PlusOutputsAreCovered }
{}

/// Copying: the split of its goal, head by head.
pub fn copy_is_split_by_heads()
    ensures { CopyIsSplitByHeads }
{}

/// And these cases are its answer, each by a most general typed instance.
pub fn copy_cases_are_answer()
    ensures { CopyCasesAreAnswer }
{}

/// Each is an instance of a clause, the third of the block's entry.
pub fn copy_cases_are_instances()
    ensures { CopyCasesAreInstances }
{}

/// The strategy reaches them.
pub fn copy_cases_are_reached()
    ensures { CopyCasesAreReached }
{}

/// So the clauses cover the goal in the worlds of the block.
pub fn copy_run_covers()
    ensures { CopyRunCovers }
{}

/// Without the entry's clause the case of a block variable is missing.
pub fn copy_entry_is_missing()
    ensures { CopyEntryIsMissing }
{}

/// Two block variables that may be one instance: the splits of the cases with one and with two.
pub fn twins_are_split()
    ensures { TwinsAreSplit }
{}

/// So their run covers the goal.
pub fn twin_run_covers()
    ensures { TwinRunCovers }
{}

/// At one instance they hold what another case holds with different ones.
pub fn twins_are_one_instance()
    ensures { TwinsAreOneInstance }
{}

/// And identified they share an instance with the entry's clause.
pub fn twins_are_matched()
    ensures { TwinsAreMatched }
{}

/// The cases of two block variables are those that are to be answered.
pub fn twin_cases_are_answers()
    ensures { TwinCasesAreAnswers }
{}

/// And the strategy reaches them.
pub fn twin_cases_are_reached()
    ensures { TwinCasesAreReached }
{}

/// Steps stay steps in each extension of the signature, so what they refute gives no case there, and what they solve gives one.
pub fn refuted_gives_none()
    ensures runs { RunInExtension }
    ensures none { RefutedGivesNone }
    ensures case { SolvedGivesCaseBeside }
{}

/// So the cases of a split are those of the variable beside each set that holds the families of its type.
pub fn refuted_split_is_answer()
    ensures { RefutedSplitIsAnswer }
{}

/// And a run of such splits covers its goal.
pub fn refuted_run_covers()
    ensures { RefutedRunCovers }
{}

/// A number is split beside a set that doesn't hold the family of another variable, and different constants are refuted.
pub fn kept_is_split()
    ensures kept { KeptIsSplit }
    ensures refuted { SuccessorIsRefuted }
    ensures run { PlusRunIsAtCandidate }
    ensures within { KeptIsWithin }
{}

/// A candidate is of a family of each set beside which its case is to be covered.
pub fn candidate_is_in_set()
    ensures { CandidateIsInSet }
{}

/// So a run that splits at candidates covers its goal.
pub fn candidate_run_covers()
    ensures beside { CandidateRunCoversBeside }
    ensures within { ClosedSetsAreWithin }
    ensures closed { CandidateRunCoversClosed }
    ensures runs { CandidateRunCovers }
    ensures closed_outputs { CandidateRunCoversOutputs }
    ensures outputs { CandidateRunAnswersOutputs }
{}

/// Each step of unification takes a store of patterns to one, and so does solving; declared types that have patterns stay so.
pub fn steps_keep_patterns()
    ensures step { StepKeepsPatterns }
    ensures types { StepKeepsTypePatterns }
    ensures solved { SolvedKeepsPatterns }
{}

/// So the case that is read off is one of patterns, where the split store is; and it stands on patterns as matching asks.
pub fn solved_case_is_pattern()
    ensures solved { SolvedCaseIsPattern }
    ensures matching { PatternCaseHasPatterns }
{}

/// F z isn't a metavariable on distinct bound variables, so eq z (F z) is no case of patterns; nat has no indices.
pub fn stuck_is_no_pattern()
    ensures distinct { BoundAreDistinct }
    ensures equations { EquationsOfPatterns }
    ensures stuck { StuckIsNoPattern }
    ensures indices { NatHasNoIndices }
{}

/// The new variables of a head stand on distinct variables of those that the split variable takes, and a variable is a pattern.
pub fn head_arguments_are_patterns()
    ensures arguments { HeadArgumentsArePatterns }
    ensures variables { VariablesArePatterns }
    ensures head { HeadTermIsPattern }
{}

/// Over families without indices each case of a run by unification stands on patterns, from the goal of inputs on.
pub fn run_keeps_patterns()
    ensures run { RunKeepsPatterns }
    ensures inputs { InputRunHasPatterns }
{}

/// A run from the goal of a constant's outputs by splits on which unification answers covers them, whatever families are in the types along it.
pub fn answered_run_covers_outputs()
    ensures solved { AnsweredRunIsSolved }
    ensures below { OutputGoalQuantifiesBelow }
    ensures goal { AnsweredRunCoversOutputs }
    ensures constant { AnsweredRunGivesOutputs }
{}

/// Each case of it is a typed instance of the goal, and typed beside the subgoal.
pub fn output_run_stays_typed()
    ensures ground { OutputRunStaysTyped }
    ensures moded { StrictRunStaysTyped }
{}

/// The run from plus-s's outputs covers them, and copying's stays typed.
pub fn answered_outputs_are_covered()
    ensures plus { PlusOutputRunCovers }
    ensures copying { CopyOutputRunStaysTyped }
{}

/// Where the types of a head on its new variables have patterns, the split store is one of patterns, its equations of indices too, and so is the case.
pub fn split_case_is_pattern()
    ensures store { SplitStoreIsPattern }
    ensures case { SplitCaseIsPattern }
{}

/// So along a run whose heads have patterns each case is one of patterns, over families with indices too; from the goal of inputs it is never stuck.
pub fn splits_by_patterns_keep_them()
    ensures run { SplitsByPatternsKeepThem }
    ensures inputs { InputSplitsHavePatterns }
    ensures never_stuck { InputSplitsAreNeverStuck }
{}

ghost use Rattle.lf_coverage.specs.RefutingNumbers.{RunUnderNumbers, RefutedUnderNumbers, RefutedGivesNoneUnderNumbers, RefutedIsApartUnderNumbers, FoundSplitIsRefuted, RefutedSplitIsFound, FoundSplitIsAnswer, FoundRunIsRefuted};
ghost use Rattle.lf_coverage.specs.RefutingNumbersStores.{NumberedStoreIsFound};
ghost use Rattle.lf_coverage.specs.CoveredOutputRuns.{OutputGoalIsBeside, OutputPlacesAreBelow, CandidateRunGivesOutputs, CandidateRunGivesOwnOutputs, FoundRunGivesOutputs};

/// Steps refute a store whatever numbers its metavariables have.
pub fn refuted_under_numbers()
    ensures run { RunUnderNumbers }
    ensures store { RefutedUnderNumbers }
    ensures none { RefutedGivesNoneUnderNumbers }
    ensures apart { RefutedIsApartUnderNumbers }
{}

/// So a split is one at each head of which unification answers or refutes, where solving the stores in numbers of their own says so; and a run is.
pub fn found_split_is_refuted()
    ensures split { FoundSplitIsRefuted }
    ensures any_numbers { RefutedSplitIsFound }
    ensures own_numbers { NumberedStoreIsFound }
    ensures answer { FoundSplitIsAnswer }
    ensures run { FoundRunIsRefuted }
{}

/// A run at candidates from the goal of a constant's outputs to instances of the subgoal gives what totality asks of it.
pub fn candidate_run_gives_outputs()
    ensures beside { OutputGoalIsBeside }
    ensures places { OutputPlacesAreBelow }
    ensures constant { CandidateRunGivesOutputs }
    ensures own { CandidateRunGivesOwnOutputs }
    ensures found { FoundRunGivesOutputs }
{}

ghost use Rattle.lf_coverage.specs.ExamplesMeetings.{MeetingsAreAnswered, SuccessorIsApart};
ghost use Rattle.lf_coverage.specs.ExamplesHeadPatterns.{HeadsHavePatterns};

/// Unification answers for eq (s X) Y, eq z Y and eq z (F z) with eq z z: never, solved, and open.
pub fn meetings_are_answered()
    ensures answered { MeetingsAreAnswered }
    ensures apart { SuccessorIsApart }
{}

/// The head s has patterns, and {x:nat} a (F x) has none.
pub fn heads_have_patterns()
    ensures { HeadsHavePatterns }
{}

ghost use Rattle.lf_coverage.specs.ExamplesRefutingNumbers.{SuccessorHasNumbers, NumberedIsFound, SuccessorIsFound, ClashIsRefuted, PlusIsFound};
ghost use Rattle.lf_coverage.specs.ExamplesCoveredOutputRuns.{PlusGoalIsBeside, PlusCandidateRunGives, OpenGoalIsTypedCase};
ghost use Rattle.lf_coverage.specs.ExamplesIndices.{UsualFamiliesHavePatterns, NestedHasNone, NestedIsNoPattern, TypeHoldsEquation, VectorsAreLayers};
ghost use Rattle.lf_coverage.specs.IndicesRuns.{IndexedRunSplitsByPatterns, IndexedRunHasPatterns, IndexedRunIsNeverStuck, IndexedRunProceeds};
ghost use Rattle.lf_coverage.specs.IndicesLeft.{SplitIsHeldByTypes, IndexedRunIsHeldByTypes};
ghost use Rattle.lf_coverage.specs.IndicesNever.{RunNeverLeaves};
ghost use Rattle.lf_coverage.specs.IndicesLayers.{LayeredRunNeverLeaves};

/// X = s X' where X has the number 1, which is solved, and s X = z where X has 0, which is refuted; and a split of plus X Y _ in such numbers.
pub fn plus_is_found()
    ensures numbers { SuccessorHasNumbers }
    ensures own_numbers { NumberedIsFound }
    ensures solved { SuccessorIsFound }
    ensures refuted { ClashIsRefuted }
    ensures split { PlusIsFound }
{}

/// The sets beside which plus-s's outputs are to be covered, and the run at candidates that covers them; and a goal that is typed by itself alone.
pub fn plus_goal_is_beside()
    ensures beside { PlusGoalIsBeside }
    ensures covered { PlusCandidateRunGives }
    ensures alone { OpenGoalIsTypedCase }
{}

/// The constants of vectors, of a typed language and of its derivations have patterns; not a constant that stands on an existential variable.
pub fn usual_families_have_patterns()
    ensures usual { UsualFamiliesHavePatterns }
    ensures nested { NestedHasNone }
    ensures case { NestedIsNoPattern }
{}

/// Where the types of the constants of the families that are split have patterns, each split of a run by unification from the goal of inputs keeps
/// them, over families with indices too; so the run is never stuck.
pub fn indexed_run_has_patterns()
    ensures splits { IndexedRunSplitsByPatterns }
    ensures cases { IndexedRunHasPatterns }
    ensures never_stuck { IndexedRunIsNeverStuck }
    ensures proceeds { IndexedRunProceeds }
{}

/// What a split by a head of patterns leaves over is held by types alone: by a circle through a type, or by one that doesn't let go an argument.
pub fn split_is_held_by_types()
    ensures split { SplitIsHeldByTypes }
    ensures run { IndexedRunIsHeldByTypes }
    ensures example { TypeHoldsEquation }
{}

/// Over families without indices no split of a run from the goal of inputs leaves an equation outside the pattern fragment; nor over families whose indices
/// are of such, where the types of the constants have patterns.
pub fn run_never_leaves()
    ensures plain { RunNeverLeaves }
    ensures layered { LayeredRunNeverLeaves }
    ensures example { VectorsAreLayers }
{}
