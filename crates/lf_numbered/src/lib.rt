//! The laws of coverage of cases whose block variables have numbers. They have no code: each function carries one law as its contract.
#![tactic(auto)]

ghost use Rattle.lf_numbered.specs.EntryLaws.{WithEntriesIsSignature, OldTypingsStay, EarlierEntriesStay, OwnTermsAreKept, OwnTermsStay, ReadingKeepsTyping, NumberedHasSameInstances, NumberedIsTyped};
ghost use Rattle.lf_numbered.specs.NumberedArguments.{NumberedHoldsSameTuples};
ghost use Rattle.lf_numbered.specs.TypedNumbered.{NumberedCaseIsTyped};
ghost use Rattle.lf_numbered.specs.NewBlock.{NewBlockIsTyped};
ghost use Rattle.lf_numbered.specs.ExamplesNumbered.{TurnedIsTyped, BlocksAreIdentified, CopiesAreNumbered};
ghost use Rattle.lf_numbered.specs.ExamplesEntries.{CopyEntriesHaveTypes, SomeEntriesHaveTypes, LaterEntryHasType, EntryStandsOnItsTerms, EntryIsRead, EntryCaseIsTyped, NewBlockComesLast};
ghost use Rattle.lf_numbered.specs.NumberedHeads.{NumberedHeadsAreAll, EntryOnOwnTermsIsRead};
ghost use Rattle.lf_numbered.specs.NewInstance.{NewInstanceIsOfNewBlock, NewInstanceStaysApart, HeadsAreOverEntries};
ghost use Rattle.lf_numbered.specs.ExamplesInstances.{EntryIsHead, SecondIsApart, BindingMovesOwnTerms};

/// The entries of block variables as constants.
pub fn entries_have_types()
    ensures copy { CopyEntriesHaveTypes }
    ensures some { SomeEntriesHaveTypes }
    ensures later { LaterEntryHasType }
{}

/// An entry stands on the terms of its block variable and on no others.
pub fn entry_stands_on_its_terms()
    ensures { EntryStandsOnItsTerms }
{}

/// An entry is read as the variable of the context that it stands for.
pub fn entry_is_read()
    ensures { EntryIsRead }
{}

/// A case with a block variable by number is typed, and has its ground instance.
pub fn entry_case_is_typed()
    ensures { EntryCaseIsTyped }
{}

/// A new block variable moves no constant.
pub fn new_block_comes_last()
    ensures { NewBlockComesLast }
{}

/// A signature with the entries of typed blocks as constants is a signature.
pub fn with_entries_is_signature()
    ensures { WithEntriesIsSignature }
{}

/// What is typed without these constants stays typed, and what is typed with some of them with more.
pub fn old_typings_stay()
    ensures old { OldTypingsStay }
    ensures earlier { EarlierEntriesStay }
{}

/// Terms on own terms stay so where values are put in, and where a further block variable comes.
pub fn own_terms_are_kept()
    ensures put { OwnTermsAreKept }
    ensures behind { OwnTermsStay }
{}

/// A term of a case with block variables by number, read under a ground instance, is typed there.
pub fn reading_keeps_typing()
    ensures { ReadingKeepsTyping }
{}

/// A case with block variables among its items, and the case with these by number, have the same ground instances.
pub fn numbered_has_same_instances()
    ensures { NumberedHasSameInstances }
{}

/// And the variables of the numbered case are typed.
pub fn numbered_is_typed()
    ensures { NumberedIsTyped }
{}

/// An older block variable may stand on the entry of a newer one, and two may be identified.
pub fn blocks_are_identified()
    ensures turned { TurnedIsTyped }
    ensures identified { BlocksAreIdentified }
    ensures numbered { CopiesAreNumbered }
{}

/// And they hold the same tuples.
pub fn numbered_holds_same_tuples()
    ensures { NumberedHoldsSameTuples }
{}

/// A typed case is typed with one more block variable.
pub fn new_block_is_typed()
    ensures { NewBlockIsTyped }
{}

/// The numbered form of a typed case is typed.
pub fn numbered_case_is_typed()
    ensures { NumberedCaseIsTyped }
{}

/// The head of a free variable's value is a constant, an entry constant, a variable that it takes, or an entry of a new instance.
pub fn numbered_heads_are_all()
    ensures { NumberedHeadsAreAll }
{}

/// A new instance is that of a new block variable.
pub fn new_instance_is_of_new_block()
    ensures { NewInstanceIsOfNewBlock }
{}

/// And block variables stay apart, where none stood for it.
pub fn new_instance_stays_apart()
    ensures { NewInstanceStaysApart }
{}

/// An entry's constant is a head, a second block variable is apart from the first, and a binding moves own terms.
pub fn entry_is_head()
    ensures head { EntryIsHead }
    ensures apart { SecondIsApart }
    ensures moved { BindingMovesOwnTerms }
{}

/// So each instance makes a free variable a head over the entries of the case, or of the case with one more block variable.
pub fn heads_are_over_entries()
    ensures { HeadsAreOverEntries }
{}

/// An entry's constant on its block variable's terms is read as the head.
pub fn entry_on_own_terms_is_read()
    ensures { EntryOnOwnTermsIsRead }
{}

ghost use Rattle.lf_numbered.specs.OwnStores.{NumberedStoreIsReady, NumberedStoreHasSkeletons, FillingsStayOnOwnTerms, NumberedSplitStaysTyped, NewBlockStaysTyped, NumberedRunStaysTyped};
ghost use Rattle.lf_numbered.specs.OwnStoresExamples.{EntryIsOffered, StoreIsOnOwnTerms, CaseIsReadOff, OwnEntryIsSplit};
ghost use Rattle.lf_numbered.specs.EntryPatternsLaws.{NumberedLeafIsCovered, NumberedRunCovers, NumberedCoversCase, NumberedRunCoversCase, SplitIsNumberedSplit, HeadRunIsByNumber, VariableIsTyped, LeafIsNumberedLeaf};
ghost use Rattle.lf_numbered.specs.EntryPatternsExamples.{CopyIsInstance, LaterIsLeaf, TwinRunByNumber, CopyRunByNumber, CasesArePutIn, EntriesAreMatched, LaterIsCovered};
ghost use Rattle.lf_numbered.specs.EntryPatternsOutputs.{NumberedOutputGoalIsTyped, OwnBlockHasNumberZero, NumberedRunCoversOutputs, NumberedRunsGiveOutputs, NumberedRunAnswers};
ghost use Rattle.lf_numbered.specs.EntryPatternsMatching.{NumberedInstanceIsFound, NumberedInstanceMatches, NumberedHeadMatchingDecides, NumberedValueIsFound, FoundValuesMakeInstance};
ghost use Rattle.lf_numbered.specs.EntryPatternsSplits.{InstancesMakeSplit, PutInHoldsAs, NewBlockHoldsAs};
ghost use Rattle.lf_numbered.specs.OwnValues.{NewValuesAreOnOwnTerms, OwnTermsExtend, SolvedComesOnOwnTerms, AnswerKeepsOwnTerms};
ghost use Rattle.lf_numbered.specs.OwnValuesExamples.{PrunedStaysOnOwnTerms, EntryIsReadBack};
ghost use Rattle.lf_numbered.specs.OwnValuesAnswer.{AnswerIsInstance};
ghost use Rattle.lf_numbered.specs.OwnValuesTuples.{TupleIsOfAnswer};
ghost use Rattle.lf_numbered.specs.OwnValuesExamplesAnswer.{EntryAnswerIsInstance};
ghost use Rattle.lf_numbered.specs.OwnValuesReading.{ReadBackIsTyped, ReadBackIsGround, SolvedIsReadBack, InstancesAreReadBack};
ghost use Rattle.lf_numbered.specs.WritingLaws.{EntriesExtend, InstanceIsWritten, ValuesAreWritten, WrittenIsReadBack, WrittenValuesAreTyped, WrittenReadsBack};
ghost use Rattle.lf_numbered.specs.ExamplesWriting.{CopyIsWritten, HeadIsOnOtherTerms, RoomIsFree, CopyHasValues};
ghost use Rattle.lf_numbered.specs.WritingRoom.{RoomIsMade, RoomIsLeft};
ghost use Rattle.lf_numbered.specs.WritingInstances.{ReadBackIsInstance};
ghost use Rattle.lf_numbered.specs.NumberedSplits.{AnsweredByNumberIsSplit};
ghost use Rattle.lf_numbered.specs.NumberedSplitsExamples.{OpenIsSplitByEntry, OpenIsCovered};
ghost use Rattle.lf_numbered.specs.NumberedSplitsRuns.{AnsweredByNumberStaysTyped, AnsweredByNumberCovers, AnsweredByNumberCoversCase, AnsweredByNumberIsAnswer, AnsweredByNumberGivesOutputs};

/// The split store of a typed case by number and a head that is offered, an entry's constant on its own terms too, is well formed, and skeletons type what
/// its equations stand in.
pub fn numbered_store_is_ready()
    ensures form { NumberedStoreIsReady }
    ensures skeletons { NumberedStoreHasSkeletons }
{}

/// After each run from it, a typed unifier on own terms at what is unbound is on own terms at all metavariables, with their types.
pub fn fillings_stay_on_own_terms()
    ensures { FillingsStayOnOwnTerms }
{}

/// Where unification solves it, the case that is read off is typed and on own terms; so is a case with one more block variable, and each that comes by both.
pub fn numbered_split_stays_typed()
    ensures split { NumberedSplitStaysTyped }
    ensures block { NewBlockStaysTyped }
    ensures run { NumberedRunStaysTyped }
{}

/// An entry is offered on the own terms of its block variable alone: its store has no new variable for these; it is solved, and the case
/// that is read off is typed.
pub fn entry_is_offered()
    ensures offered { EntryIsOffered }
    ensures store { StoreIsOnOwnTerms }
    ensures read { CaseIsReadOff }
    ensures split { OwnEntryIsSplit }
{}

/// What a case with block variables by number holds that is an instance of a pattern, also of a block's entry, the pattern covers.
pub fn numbered_leaf_is_covered()
    ensures { NumberedLeafIsCovered }
{}

/// A run of such cases that ends at instances of patterns covers its goal.
pub fn numbered_run_covers()
    ensures { NumberedRunCovers }
{}

/// A case is covered where its numbered form is.
pub fn numbered_covers_case()
    ensures { NumberedCoversCase }
{}

/// A run of its numbered form covers a case.
pub fn numbered_run_covers_case()
    ensures { NumberedRunCoversCase }
{}

/// A split of a case is one of its numbered form.
pub fn split_is_numbered_split()
    ensures { SplitIsNumberedSplit }
{}

/// A worked case: cp b.x b.x is an instance of the entry of b's block, and cp b.x c.x isn't.
pub fn copy_is_instance()
    ensures { CopyIsInstance }
{}

/// A worked case: the goal of an entry's outputs, whose own block variable comes to stand on the entry of a newer one and keeps the number 0.
pub fn later_is_leaf()
    ensures { LaterIsLeaf }
{}

/// The goal of a subgoal's outputs by number is typed, for a constant's and for an entry's; the entry's own block variable has the number 0.
pub fn numbered_output_goal_is_typed()
    ensures typed { NumberedOutputGoalIsTyped }
    ensures zeroth { OwnBlockHasNumberZero }
{}

/// A run by number from it covers the goal.
pub fn numbered_run_covers_outputs()
    ensures { NumberedRunCoversOutputs }
{}

/// Over the entries of its block variables a case that is an instance of a constant's pattern has the values that matching finds, so it matches by terms.
pub fn numbered_instance_matches()
    ensures found { NumberedInstanceIsFound }
    ensures matches { NumberedInstanceMatches }
{}

/// Matching by terms decides whether such a case is an instance of the head of a constant's clause.
pub fn numbered_head_matching_decides()
    ensures { NumberedHeadMatchingDecides }
{}

/// Cases among which each ground instance of a case is held, with block variables apart, are a split of it.
pub fn instances_make_split()
    ensures { InstancesMakeSplit }
{}

/// A ground instance of a case that is read off, with the same values, holds what the old case holds; so does one of the case with a new block variable.
pub fn put_in_holds_as()
    ensures values { PutInHoldsAs }
    ensures block { NewBlockHoldsAs }
{}

/// A run by heads is one by number.
pub fn head_run_is_by_number()
    ensures { HeadRunIsByNumber }
{}

/// A worked run by number, with two block variables that may be one instance.
pub fn twin_run_by_number()
    ensures { TwinRunByNumber }
{}

/// So the outputs of an entry's subgoal, and of a constant's, are covered where such runs end at instances of the subgoal.
pub fn numbered_runs_give_outputs()
    ensures { NumberedRunsGiveOutputs }
{}

/// And runs by number from a typed goal answer that it is covered.
pub fn numbered_run_answers()
    ensures { NumberedRunAnswers }
{}

/// What a block variable gives the variables of its block is typed, and on own terms.
pub fn variable_is_typed()
    ensures { VariableIsTyped }
{}

/// A leaf by items, of the head of a clause, is one by number.
pub fn leaf_is_numbered_leaf()
    ensures { LeafIsNumberedLeaf }
{}

/// A worked run by number: copying.
pub fn copy_run_by_number()
    ensures { CopyRunByNumber }
{}

/// Worked values that are put into cases by number, and that matching finds in them.
pub fn cases_are_put_in()
    ensures values { CasesArePutIn }
    ensures matched { EntriesAreMatched }
{}

/// A worked case: the goal of an entry's outputs, whose type mentions a `some` variable, is covered by the entry's subgoal.
pub fn later_is_covered()
    ensures { LaterIsCovered }
{}

/// Matching finds the values of an instance by number of any pattern, of an entry too.
pub fn numbered_value_is_found()
    ensures { NumberedValueIsFound }
{}

/// A case by number is an instance of a pattern just where the values that matching finds make it one.
pub fn found_values_make_instance()
    ensures { FoundValuesMakeInstance }
{}

/// Along a run of steps the values of new metavariables stand on own terms where the old ones' do; so a typed unifier on own terms extends to one, and
/// where the run solves it comes from the answer by such terms.
pub fn values_stay_on_own_terms()
    ensures new { NewValuesAreOnOwnTerms }
    ensures extend { OwnTermsExtend }
    ensures solved { SolvedComesOnOwnTerms }
    ensures answer { AnswerKeepsOwnTerms }
{}

/// A metavariable that is pruned over an entry's constant: the new one's value stands on own terms.
pub fn pruned_stays_on_own_terms()
    ensures { PrunedStaysOnOwnTerms }
{}

/// A term on own terms over the constants of entries, read back into a context that has the entries as variables, has its type there, read back; and
/// values of free variables are read back as ground values. So where unification solves, each typed unifier on own terms is.
pub fn values_are_read_back()
    ensures typed { ReadBackIsTyped }
    ensures ground { ReadBackIsGround }
    ensures solved { SolvedIsReadBack }
    ensures instances { InstancesAreReadBack }
{}

/// Under a bound variable the constant of an entry on its own terms is read back as the entry.
pub fn entry_is_read_back()
    ensures { EntryIsReadBack }
{}

/// So where unification over the entries solves, a typed unifier on own terms is, read back, a ground instance of each case that has the answer's free
/// variables and block variables; and this holds the tuples of the case that was split.
pub fn answer_is_instance()
    ensures instance { AnswerIsInstance }
    ensures tuples { TupleIsOfAnswer }
{}

/// A split by an entry's constant: where its answer is read off, the unifier is a ground instance of the case.
pub fn entry_answer_is_instance()
    ensures { EntryAnswerIsInstance }
{}

/// A ground instance with block variables apart is written over the constants of its entries, in a signature that extends the case's.
pub fn instance_is_written()
    ensures extends { EntriesExtend }
    ensures written { InstanceIsWritten }
{}

/// The written values are typed values of the case's free variables, on own terms, and under them a term of the case is what it is under the instance,
/// written.
pub fn values_are_written()
    ensures values { ValuesAreWritten }
    ensures typed { WrittenValuesAreTyped }
{}

/// What is written is read back as it was.
pub fn written_is_read_back()
    ensures { WrittenIsReadBack }
{}

/// In {x:exp} {u:cp x x} {y:exp}, where b stands for x and u, x is written as b.x and u as b.u, and y stays.
pub fn copy_is_written()
    ensures { CopyIsWritten }
{}

/// What is written is read back as the reading of entry constants asks; so what is typed there, on own terms, is typed when it is read back.
pub fn written_reads_back()
    ensures { WrittenReadsBack }
{}

/// A ground instance in whatever extension is moved into one that leaves the numbers of the entry constants free.
pub fn room_is_made()
    ensures { RoomIsMade }
{}

/// The constant of an entry, offered as a head, may be solved on terms that aren't its block variable's: b.x (s z) for b on z.
pub fn head_is_on_other_terms()
    ensures { HeadIsOnOtherTerms }
{}

/// Values over the written context, read back, are a ground instance, and each term is there what it is under them, read back.
pub fn read_back_is_instance()
    ensures { ReadBackIsInstance }
{}

/// A ground instance over an extension with room is moved back.
pub fn room_is_left()
    ensures { RoomIsLeft }
{}

/// Room for two entries from 4 on moves 4 to 6; and in the context of copy_is_written cp b.x _ is typed over what is written.
pub fn room_is_free()
    ensures room { RoomIsFree }
    ensures values { CopyHasValues }
{}

/// A split at each head of which unification over the signature with entries answers, of a case whose block variables have numbers, is a split.
pub fn answered_by_number_is_split()
    ensures { AnsweredByNumberIsSplit }
{}

/// Each case of such a split is typed; and a run of such splits that ends at instances of patterns covers its goal, the numbered form of a case too. So it
/// answers that a goal is covered, and that the outputs of a subgoal are, an entry's too.
pub fn answered_by_number_covers()
    ensures typed { AnsweredByNumberStaysTyped }
    ensures run { AnsweredByNumberCovers }
    ensures case { AnsweredByNumberCoversCase }
    ensures answer { AnsweredByNumberIsAnswer }
    ensures outputs { AnsweredByNumberGivesOutputs }
{}

/// In the worlds of {x:exp} {u:p x} a variable of exp, which has no constant, is split by the entry x of a new block variable; and u covers p X.
pub fn open_is_split_by_entry()
    ensures split { OpenIsSplitByEntry }
    ensures run { OpenIsCovered }
{}

ghost use Rattle.lf_numbered.specs.EntryTermsLaws.{NumberedInstanceMatchesAny, HeadMatchIsNumberedInstance, NumberedHeadIsDecided, GoalMatchIsNumberedInstance, NumberedGoalIsDecided, NumberedHeadMatchIsLeaf, NumberedGoalMatchIsLeaf, ConstantMatchesByNumber};
ghost use Rattle.lf_numbered.specs.EntryTermsExamples.{CopyMatchesEntry, PairMatchesEntry, PairIsInstance, AskedMatches, AskedIsInstance};

/// A case by number that is an instance of a pattern, of an entry's clause too, matches it by terms, with what one of its block variables gives.
pub fn numbered_instance_matches_any()
    ensures { NumberedInstanceMatchesAny }
{}

/// Of a constant's clause matching by number is matching over the signature with entries.
pub fn constant_matches_by_number()
    ensures { ConstantMatchesByNumber }
{}

/// A case of inputs by number that matches the head of a clause by terms, of an entry too, is an instance of it; so matching by terms decides whether it is.
pub fn numbered_head_is_decided()
    ensures instance { HeadMatchIsNumberedInstance }
    ensures decided { NumberedHeadIsDecided }
{}

/// A case by number that is typed beside a pattern of any clause, and matches it by terms, is an instance of it; so matching by terms decides whether the
/// goal of a subgoal's outputs is an instance of the subgoal, of an entry's too.
pub fn numbered_goal_is_decided()
    ensures instance { GoalMatchIsNumberedInstance }
    ensures decided { NumberedGoalIsDecided }
{}

/// So a case by number that matches one of the patterns by terms is a leaf of a run.
pub fn numbered_match_is_leaf()
    ensures head { NumberedHeadMatchIsLeaf }
    ensures goal { NumberedGoalMatchIsLeaf }
{}

/// By terms cp b.x b.x matches the entry u : cp x x, and cp b.x c.x doesn't; and q z b.y the entry v : q n y for b on z, and q N b.y doesn't.
pub fn copy_matches_entry()
    ensures copy { CopyMatchesEntry }
    ensures pair { PairMatchesEntry }
    ensures instance { PairIsInstance }
{}

/// The goal q N D of the outputs of an entry's subgoal q n D matches it by its own block variable, of number 0 alone, and is typed beside it, and so an
/// instance.
pub fn asked_matches()
    ensures matched { AskedMatches }
    ensures instance { AskedIsInstance }
{}

ghost use Rattle.lf_numbered.specs.EntryTermsBesideGiven.{BesideWithAllTried, BesideIsDecided};

/// A case by number that is typed beside a subgoal, as the goal of its outputs is, is so with what its block variable of number 0 gives; so matching by
/// terms decides whether it is an instance of the subgoal, of an entry's too.
pub fn beside_is_decided()
    ensures with_tried { BesideWithAllTried }
    ensures decided { BesideIsDecided }
{}

ghost use Rattle.lf_numbered.specs.NumberedBeside.{WorldsOfAtoms, TakersTakeBelow, OffersQuantifyBelow, UnifiedByNumberIsAnswered, InputsTakeBelow, OutputsTakeBelow, NumberedTakesBelow};
ghost use Rattle.lf_numbered.specs.NumberedBesideRuns.{UnifiedByNumberIsSplit, UnifiedByNumberCovers, UnifiedByNumberIsAnswer, UnifiedByNumberCoversInputs, UnifiedByNumberGivesOutputs};
ghost use Rattle.lf_numbered.specs.NumberedBesideExamples.{TakingIsLess, HighBlockTakesMore, OpenInputsAreCovered};

/// By a test of subordination, in worlds whose `some` variables take only what quantifies over what is below, each split by number looks only at types
/// that do; the cases that are read off do too, and so do the goals.
pub fn numbered_splits_take_below()
    ensures atoms { WorldsOfAtoms }
    ensures taken { TakersTakeBelow }
    ensures offers { OffersQuantifyBelow }
    ensures split { UnifiedByNumberIsAnswered }
    ensures inputs { InputsTakeBelow }
    ensures outputs { OutputsTakeBelow }
    ensures numbered { NumberedTakesBelow }
{}

/// So a split by number at each head of which unification answers is a split, and a run of such splits covers: from the goal of inputs, and from the goal
/// of the outputs of any clause's subgoal, nothing is asked of the families in the types of arguments.
pub fn unified_by_number_covers()
    ensures split { UnifiedByNumberIsSplit }
    ensures run { UnifiedByNumberCovers }
    ensures answer { UnifiedByNumberIsAnswer }
    ensures inputs { UnifiedByNumberCoversInputs }
    ensures outputs { UnifiedByNumberGivesOutputs }
{}

/// {x:c} a takes only what is below, where c isn't below a; {y : {u:d} a} c takes more, and worlds with such a `some` variable aren't meant. In the worlds
/// of {x:exp} {u:p x} the goal p X is covered.
pub fn open_inputs_are_covered()
    ensures taking { TakingIsLess }
    ensures worlds { HighBlockTakesMore }
    ensures run { OpenInputsAreCovered }
{}

ghost use Rattle.lf_numbered.specs.NumberedBesideGiven.{NumberedMeetStoreIsReady, NumberedOutputGoalIsBeside, NumberedStrictGoalsAreBeside};
ghost use Rattle.lf_numbered.specs.NumberedBesideLater.{AskedIsBeside, OpenIsNotBeside, AnsweredIsBeside, AskedIsSplit, LaterRunGivesOutputs, LaterAnswersGiveOutputs};
ghost use Rattle.lf_numbered.specs.NumberedBesideInstances.{SpareIsSplit, NewBlockHoldsSame};

/// By number the goal of the outputs of any clause's subgoal is typed beside it, of an entry's too, as the checks of modes give; and the equations of a case
/// that is typed beside a pattern are a store that is ready for unification over the signature with entries.
pub fn numbered_output_goal_is_beside()
    ensures goal { NumberedOutputGoalIsBeside }
    ensures moded { NumberedStrictGoalsAreBeside }
    ensures store { NumberedMeetStoreIsReady }
{}

/// q N D, the goal of the outputs of v's subgoal, where v stands on `some` {n:exp}, is typed beside it by number and not by items. Its split by the entry of
/// another block makes a run that covers the outputs of v.
pub fn later_outputs_are_covered()
    ensures beside { AskedIsBeside }
    ensures open { OpenIsNotBeside }
    ensures stays { AnsweredIsBeside }
    ensures split { AskedIsSplit }
    ensures run { LaterRunGivesOutputs }
    ensures answers { LaterAnswersGiveOutputs }
{}

/// p b.x is a split of the case that has a variable more, which occurs nowhere; and where b.x is x, the case with a new block variable for y holds x still.
pub fn spare_is_split()
    ensures instances { SpareIsSplit }
    ensures new_block { NewBlockHoldsSame }
{}

ghost use Rattle.lf_numbered.specs.NumberedBesideFamilies.{WorldsWithoutSome, UnifiedByNumberKeepsFamilies, UnifiedEachIsAnswer, UnifiedEachCoversInputs, UnifiedEachGivesOutputs};
ghost use Rattle.lf_numbered.specs.NumberedBesideFamiliesExamples.{SomeIsOutside, ExpIsIn, OpenEachIsCovered};

/// In worlds whose `some` variables are of families of each set beside which coverage is asked, as in worlds without any, no family is looked at along a
/// run by number: from the goal of inputs, and from that of the outputs of any clause's subgoal.
pub fn unified_each_covers()
    ensures without { WorldsWithoutSome }
    ensures kept { UnifiedByNumberKeepsFamilies }
    ensures answer { UnifiedEachIsAnswer }
    ensures inputs { UnifiedEachCoversInputs }
    ensures outputs { UnifiedEachGivesOutputs }
{}

/// The `some` variable {n:exp} of v isn't of a family in the set of v's own. In the worlds of {x:exp} {u:p x} the run of p X looks at no family.
pub fn open_each_is_covered()
    ensures worlds { SomeIsOutside }
    ensures items { ExpIsIn }
    ensures run { OpenEachIsCovered }
{}

ghost use Rattle.lf_numbered.specs.NumberedBesideStays.{NumberedRunStaysBeside, NumberedOutputRunStaysBeside};

/// What is typed beside a pattern by number stays so along a run, with new block variables and splits: so is each case of a run from the goal of outputs.
pub fn numbered_run_stays_beside()
    ensures run { NumberedRunStaysBeside }
    ensures outputs { NumberedOutputRunStaysBeside }
{}

ghost use Rattle.lf_numbered.specs.NumberedBesideHigh.{HighIsLost};

/// A variable of {v:d} {y:{u:d} a} c, where d isn't below a, isn't split by k : a -> c, whose new variable is raised over y alone: [v] [y] k (y v) is lost.
pub fn high_variable_is_lost()
    ensures { HighIsLost }
{}

ghost use Rattle.lf_numbered.specs.EntryTermsInputs.{ClauseIsClosed, InputGoalIsBesideByNumber, BesideHasTypedPlaces};
ghost use Rattle.lf_numbered.specs.EntryTermsRuns.{InputRunIsDecided, BesideRunIsDecided};

/// By number the goal of inputs is typed beside the head of each clause, closed over what is outside it; and what is typed beside such a head has arguments
/// of the types of their places.
pub fn input_goal_is_beside_by_number()
    ensures closed { ClauseIsClosed }
    ensures goal { InputGoalIsBesideByNumber }
    ensures places { BesideHasTypedPlaces }
{}

/// So along a run by number matching by terms decides whether a case is an instance of a head, of an entry's too, and in a run from the goal of outputs
/// of the subgoal.
pub fn numbered_run_is_decided()
    ensures inputs { InputRunIsDecided }
    ensures outputs { BesideRunIsDecided }
{}

ghost use Rattle.lf_numbered.specs.EntryTermsRunsExamples.{AnsweredIsDecided, PairGoalIsDecided};

/// q b.x b.w, which comes by a split from the goal q N D of outputs, is by terms an instance of the subgoal; and the goal of inputs q X Y, also with a new
/// block variable b, none of the entry w : {Y:exp} q Y y.
pub fn answered_is_decided()
    ensures outputs { AnsweredIsDecided }
    ensures inputs { PairGoalIsDecided }
{}

ghost use Rattle.lf_numbered.specs.NumberedCallsLaws.{InstanceCovers, ApartCoversNone, AnsweredByNumberIsSplitAnswer, AnsweredByNumberIsCovered, CoveredIsCoveredGoal, ReachedByNumberIsTyped, NumberedCandidateIsFree, MissingIsCoveredByNone, MissingIsUncovered, InstanceShares, InstanceIsNotApart, MissingIsNoInstance, NumberedInputGoalIsTyped, ReachedIsLikeGoal};

/// A case by number that is an instance of a pattern is covered by it; of one that is apart from it the pattern covers no tuple, also where block variables
/// are one instance.
pub fn matched_by_number()
    ensures covers { InstanceCovers }
    ensures apart { ApartCoversNone }
{}

/// An instance of a pattern shares one with it, itself; so it isn't apart from it, and a missing case is no instance.
pub fn instances_meet()
    ensures shares { InstanceShares }
    ensures apart { InstanceIsNotApart }
    ensures missing { MissingIsNoInstance }
{}

/// The goal of inputs by number is typed.
pub fn input_goal_by_number()
    ensures { NumberedInputGoalIsTyped }
{}

/// The cases that unification gives for the heads of a typed case are the answer of its split; and a candidate is one of its free variables.
pub fn split_by_number()
    ensures answer { AnsweredByNumberIsSplitAnswer }
    ensures candidate { NumberedCandidateIsFree }
{}

/// A run of such splits from a typed goal answers that it is covered, and then the goal is whose numbered form it is. What the strategy reaches is typed,
/// and like the goal. No pattern covers what a missing case holds; so it isn't covered where it has a ground instance.
pub fn cover_by_number()
    ensures covered { AnsweredByNumberIsCovered }
    ensures goal { CoveredIsCoveredGoal }
    ensures typed { ReachedByNumberIsTyped }
    ensures like { ReachedIsLikeGoal }
    ensures none { MissingIsCoveredByNone }
    ensures uncovered { MissingIsUncovered }
{}

ghost use Rattle.lf_numbered.specs.NumberedCallsExamples.{CopiesAreMatched, CopiesAreReached, CopiesAreGoals, OpenIsAnswered, OpenIsMissing, AppliedIsOpen, DeepIsTooDeep, LeavingIsOutside};

/// In the worlds of {x:exp} {u:cp x x} the case cp b.x b.x is an instance of u, and cp b.x c.x, whose block variables may be one, is stuck at it; so it can't
/// be split.
pub fn copies_are_answered()
    ensures matched { CopiesAreMatched }
    ensures reached { CopiesAreReached }
    ensures goals { CopiesAreGoals }
{}

/// In the worlds of {x:exp} {u:p x} the goal p X is split into p b.x, and covered by u; without u it is missing. It is open whether eq z (F z) and eq z z
/// meet; a split of X : eq z (F z) leaves F z = z; and a goal with 4,096 times s is too deep.
pub fn calls_are_answered()
    ensures open { OpenIsAnswered }
    ensures missing { OpenIsMissing }
    ensures applied { AppliedIsOpen }
    ensures left { LeavingIsOutside }
    ensures deep { DeepIsTooDeep }
{}

ghost use Rattle.lf_numbered.specs.NumberedCallsRows.{CopiesAreEquated, OwnTermsAreNoCandidates};

/// The store of cp b.x c.x and u : cp x x has c.x = b.x where b and c are different, and b.x = b.x where they are one. In p (b.y M), where b stands on N,
/// only M is a candidate of p (y c).
pub fn rows_by_number()
    ensures equated { CopiesAreEquated }
    ensures candidates { OwnTermsAreNoCandidates }
{}

ghost use Rattle.lf_numbered.specs.NumberedMeets.{IdentifiedHasInstances, SharedHasPlace, NoPlaceSharesNone};

/// An instance that a case by number and a pattern share is one of the case with block variables made one, and the pattern has a place beside that. So where
/// it has none, they share nothing.
pub fn shared_has_place()
    ensures instances { IdentifiedHasInstances }
    ensures place { SharedHasPlace }
    ensures none { NoPlaceSharesNone }
{}

ghost use Rattle.lf_numbered.specs.NumberedMeetsExamples.{FirstIsNeeded, OtherSharesNone};

/// Where a case has no first block variable, it may share an instance with an entry of the first block variable alone, which has no place beside it. Where
/// the first one has another block, it shares none.
pub fn first_block_is_needed()
    ensures needed { FirstIsNeeded }
    ensures other { OtherSharesNone }
{}

ghost use Rattle.lf_numbered.specs.NumberedMeetsTyped.{MovedConstantsAreTyped};

/// In an instance of a case by number each constant of the case's entries becomes one that has its type.
pub fn moved_constants_are_typed()
    ensures { MovedConstantsAreTyped }
{}

ghost use Rattle.lf_numbered.specs.NumberedTuples.{TupleIsUnifier, RefutedHoldsNoTuple, RefutedIsApartTuple, OneBlockIsApartTuple};

/// A tuple that a case with block variables apart holds, and a constant's pattern has, is a typed unifier of their store; so where steps refute
/// the store there is none.
pub fn tuple_is_unifier()
    ensures unifier { TupleIsUnifier }
    ensures refuted { RefutedHoldsNoTuple }
    ensures apart { RefutedIsApartTuple }
    ensures one { OneBlockIsApartTuple }
{}

ghost use Rattle.lf_numbered.specs.NumberedTuplesExamples.{CopiesAreApart};

/// cp b.x c.x is apart from the head of cp-app: steps refute b.x = app E1 E2; not so cp X Y.
pub fn copies_are_apart()
    ensures { CopiesAreApart }
{}

ghost use Rattle.lf_numbered.specs.NumberedReached.{SplitCaseHoldsBack, ReachedHoldsBack, ReachedMissingIsUncovered};

/// What a case that the strategy reaches by number holds, the goal holds, each block variable standing for the same. So a missing case that is reached and
/// has a ground instance shows that the goal isn't covered.
pub fn reached_holds_for_goal()
    ensures split { SplitCaseHoldsBack }
    ensures reached { ReachedHoldsBack }
    ensures uncovered { ReachedMissingIsUncovered }
{}

ghost use Rattle.lf_numbered.specs.NumberedReachedExamples.{OpenHoldsBack, NewBlockKeepsBlocks, EntryIsNumberedInstance};

/// In the worlds of {x:exp} {u:p x} the case p X holds what p b.x holds, which its split gives and which is an instance of it; and not the other way round.
pub fn open_holds_for_entry()
    ensures open { OpenHoldsBack }
    ensures keeps { NewBlockKeepsBlocks }
    ensures instance { EntryIsNumberedInstance }
{}

ghost use Rattle.lf_numbered.specs.NumberedReachedInstances.{SplitCaseIsNumberedInstance, ListedIsNumberedInstance};

/// A case that a split by number gives, or lists, is a typed instance of the case that is split, and each block variable keeps its number.
pub fn split_is_instance_by_number()
    ensures split { SplitCaseIsNumberedInstance }
    ensures listed { ListedIsNumberedInstance }
{}

ghost use Rattle.lf_numbered.specs.MeetsAnswers.{SolvedByNumberShares, MetIsMeeting, MeetingByNumberIsAnswered, PlacesAreSearched};

/// Where unification solves the store of a case by number and a pattern, at one place, they share a typed instance.
pub fn solved_by_number_shares()
    ensures { SolvedByNumberShares }
{}

/// Where steps refute the store at each place, or unification answers otherwise at one, `instance_of` has an answer of a case by number and a pattern.
pub fn meeting_by_number_is_answered()
    ensures meets { MetIsMeeting }
    ensures answered { MeetingByNumberIsAnswered }
    ensures searched { PlacesAreSearched }
{}

ghost use Rattle.lf_numbered.specs.MeetsAnswersExamples.{OpenCopiesShare, TwoCopiesShare, OneCopyIsRefuted};

/// cp X Y and u : cp x x share cp b.x b.x for a new block variable b; cp b.x c.x and u share it where b and c are one. At each place of
/// cp-app steps refute the store of cp b.x b.x.
pub fn copies_share_by_number()
    ensures open { OpenCopiesShare }
    ensures two { TwoCopiesShare }
    ensures refuted { OneCopyIsRefuted }
{}

ghost use Rattle.lf_numbered.specs.MeetsAnswersRuns.{EachPlaceIsAnswered, InputRunFits, BesideFits};
ghost use Rattle.lf_numbered.specs.NumberedAnswersRuns.{InputRunHasNeeds, BesideRunHasNeeds, InputRunIsAnswered, BesideRunIsAnswered};

/// Where unification answers at each place, `instance_of` has an answer: of each case of a run from a goal of inputs and a head, and of each case of a run
/// from what is typed beside a subgoal and this. These have what it needs, so nothing else is asked.
pub fn runs_are_answered()
    ensures each { EachPlaceIsAnswered }
    ensures inputs_fit { InputRunFits }
    ensures beside_fits { BesideFits }
    ensures inputs_need { InputRunHasNeeds }
    ensures beside_needs { BesideRunHasNeeds }
    ensures inputs { InputRunIsAnswered }
    ensures outputs { BesideRunIsAnswered }
{}

ghost use Rattle.lf_numbered.specs.NumberedNeeds.{NeededInstanceIsDecided, NeededInstanceCovers};

/// Where a case by number has what `instance_of` needs for a pattern, matching by terms decides whether it is an instance of it; and one is covered by the
/// pattern, and a leaf of a run.
pub fn needed_instance_is_decided()
    ensures decided { NeededInstanceIsDecided }
    ensures covers { NeededInstanceCovers }
{}

ghost use Rattle.lf_numbered.specs.NumberedNeeds.{SplitKeepsNeeds, ListedKeepNeeds, ReachedHasNeeds};

/// What the calls by number need of a case and patterns is kept by each split, and so along the strategy.
pub fn splits_keep_needs()
    ensures split { SplitKeepsNeeds }
    ensures listed { ListedKeepNeeds }
    ensures reached { ReachedHasNeeds }
{}

ghost use Rattle.lf_numbered.specs.NumberedNeeds.{ClauseHeadsAreTyped, InputGoalHasNeeds, OutputGoalHasNeeds};

/// The goal of inputs has what `cover` by number needs for heads of its family, as those of clauses, and the goal of outputs for its subgoal.
pub fn goals_have_needs()
    ensures heads { ClauseHeadsAreTyped }
    ensures inputs { InputGoalHasNeeds }
    ensures outputs { OutputGoalHasNeeds }
{}

ghost use Rattle.lf_numbered.specs.NumberedNeeds.{ReachedIsNumberedInstance};

/// Each case that the strategy reaches by number is a typed instance of the goal, and each block variable keeps its number.
pub fn reached_is_instance_by_number()
    ensures { ReachedIsNumberedInstance }
{}

ghost use Rattle.lf_numbered.specs.NumberedNeedsExamples.{PlusHasNeeds, OtherFamilyIsRefused, OtherTypeIsRefused, OpenSubgoalIsRefused, UntypedBlockIsRefused};

/// Addition's goals may be handed in. p X may not with q X, of another family, nor p c with p X, where c has another type, nor the goal of a subgoal where
/// what is ground lacks the variables in its types, nor any case with an entry whose block isn't typed.
pub fn needs_are_worked()
    ensures plus { PlusHasNeeds }
    ensures family { OtherFamilyIsRefused }
    ensures argument { OtherTypeIsRefused }
    ensures open { OpenSubgoalIsRefused }
    ensures block { UntypedBlockIsRefused }
{}

ghost use Rattle.lf_numbered.specs.NumberedNeedsLaws.{HeadIsFor, SubgoalIsFor, ReachedIsDecided, ReachedMayBeSplit, NeededSplitIsAnswer, NeededRunIsCovered, MissingIsHonest};

/// A typed head of the case's family with typed arguments, and a typed block if it is an entry's, is a pattern for the case, and so is a typed subgoal beside
/// which it is typed.
pub fn patterns_are_for()
    ensures head { HeadIsFor }
    ensures subgoal { SubgoalIsFor }
{}

/// Where a goal and patterns have what `cover` by number needs, each instance along the strategy is decided by terms, and each case may be split at its first
/// candidate; what unification gives is the answer of a split; a run that ends at instances answers that the goal is covered; and a missing case is a typed
/// instance of the goal that shares none with a pattern.
pub fn needed_answers()
    ensures decided { ReachedIsDecided }
    ensures candidate { ReachedMayBeSplit }
    ensures split { NeededSplitIsAnswer }
    ensures covered { NeededRunIsCovered }
    ensures missing { MissingIsHonest }
{}

ghost use Rattle.lf_numbered.specs.NeededRuns.{HeadIsBesideClosed, NeededStrategyRunIsCovered};

/// And a run of the strategy to instances of patterns has the answer that its goal is covered, for any goal and
/// patterns that have what `cover` needs: beside one of these patterns, or beside the closed type of a head's clause,
/// the goal is typed.
pub fn needed_runs_are_covered()
    ensures closed { HeadIsBesideClosed }
    ensures covered { NeededStrategyRunIsCovered }
{}

ghost use Rattle.lf_numbered.specs.NeededRunsExamples.{SuccessorIsCovered, EntryAloneCovers};

/// So plus (s X) Y _ is covered by plus-z and plus-s, and p X, in the worlds of {x:exp} {u:p x}, by the entry u alone.
pub fn needed_runs_are_worked()
    ensures successor { SuccessorIsCovered }
    ensures entry { EntryAloneCovers }
{}

ghost use Rattle.lf_numbered.specs.NeededMade.{MadeBySolving};

/// For h : {H:nat -> nat} t ([x] [y] H x) z and a variable of the type t ([x] [y] s (G x y)) (G z z) the equation
/// G' z = z is left, where G' is G without y: solving made it, and it is no variable of the case that the equation is
/// shown over.
pub fn left_metavariable_is_made_by_solving()
    ensures { MadeBySolving }
{}

ghost use Rattle.lf_numbered.specs.NeededForms.{EntriesAreFreeFrom, FreeCaseIsNumbered, InputGoalIsNumbered};

/// A signature of entries declares nothing from their count on; a case of free variables alone is its own numbered
/// form, and so is each goal of inputs.
pub fn forms_in_hand_are_needed_ones()
    ensures free { EntriesAreFreeFrom }
    ensures case { FreeCaseIsNumbered }
    ensures goal { InputGoalIsNumbered }
{}

ghost use Rattle.lf_numbered.specs.NumberedNeedsRows.{OpenHasNeeds, AskedHasNeeds};

/// p X may be handed in with u : p x, and p b.x, which its split gives; so may the goal of the outputs of an entry's subgoal, where the entry's own block
/// variable has the number 0.
pub fn entries_have_needs()
    ensures open { OpenHasNeeds }
    ensures asked { AskedHasNeeds }
{}

ghost use Rattle.lf_numbered.specs.MeetsInstance.{SharedIsUnifier, RefutedSharesNone, SharedBesideIsUnifier, RefutedBesideSharesNone};

/// A typed instance that a case by number and a pattern share solves the store of the pattern's place beside the case, over a signature with more block
/// variables; so they share none where steps refute each such store. It is so where nothing is given, and with given terms where the case is typed beside it.
pub fn shared_is_unifier()
    ensures unifier { SharedIsUnifier }
    ensures refuted { RefutedSharesNone }
    ensures beside { SharedBesideIsUnifier }
    ensures refuted_beside { RefutedBesideSharesNone }
{}

ghost use Rattle.lf_numbered.specs.MeetsInstanceExamples.{TwoCopiesShareNone};

/// cp b.x c.x, for two block variables of {x:exp} {u:cp x x}, shares nothing with the head of cp-app: steps refute the store where b and c are apart, and
/// that where they are one.
pub fn two_copies_share_none()
    ensures { TwoCopiesShareNone }
{}

ghost use Rattle.lf_numbered.specs.MeetsTuple.{ConstantsTupleMeets, RefutedConstantHasNoTuple};

/// A tuple that a case holds, whatever instances its block variables stand for, and a constant's pattern has, is a unifier where block variables
/// are one; so where steps refute the store for each way in which they are, there is none.
pub fn identified_tuple_meets()
    ensures constants { ConstantsTupleMeets }
    ensures refuted { RefutedConstantHasNoTuple }
{}

ghost use Rattle.lf_numbered.specs.MeetsTuple.{EntriesTupleMeets, TupleMeets, RefutedHasNoTuple, RefutedIsApart};

/// So of each pattern, of a block's entry too, and with given terms where the case is typed beside it: a tuple that both have is a unifier at a place of the
/// pattern beside the case, with block variables one; and where steps refute the store at each such place, there is no such tuple.
pub fn tuple_meets()
    ensures entries { EntriesTupleMeets }
    ensures given { TupleMeets }
    ensures refuted { RefutedHasNoTuple }
    ensures apart { RefutedIsApart }
{}

ghost use Rattle.lf_numbered.specs.MeetsTupleExamples.{CopiesAreApplied, CopiesAreRefuted, CopiesHaveNoApplied, CopiesShareTuple};

/// In no context has the head of cp-app a tuple that cp b.x c.x holds, also where b and c are one: steps refute b.x = app E1 E2. The entry u has one there.
pub fn copies_have_no_applied()
    ensures stores { CopiesAreApplied }
    ensures refuted { CopiesAreRefuted }
    ensures none { CopiesHaveNoApplied }
    ensures shared { CopiesShareTuple }
{}

ghost use Rattle.lf_numbered.specs.MeetsReady.{IdentifiedIsTyped, PlacedCaseIsTyped};

/// A typed case with block variables one is typed over the signature with entries, and so it is beside each place of a typed pattern.
pub fn identified_case_is_typed()
    ensures identified { IdentifiedIsTyped }
    ensures placed { PlacedCaseIsTyped }
{}

ghost use Rattle.lf_numbered.specs.MeetsReady.{PlacedStoreIsReady, MeetStoreByNumberIsReady};

/// Where a case by number is typed beside a pattern at its place, also with block variables one, their equations are a well formed store.
pub fn meet_stores_by_number_are_ready()
    ensures placed { PlacedStoreIsReady }
    ensures by_number { MeetStoreByNumberIsReady }
{}

ghost use Rattle.lf_numbered.specs.MeetsReady.{TypedPlacesAreBeside, InputMeetStoreIsReady, InputRunHasTypedPlaces, InputRunMeetStoreIsReady};

/// A case whose arguments have the types of their places is typed beside each place of a pattern; so is each case of a run by number from a goal of inputs.
pub fn input_meet_stores_are_ready()
    ensures beside { TypedPlacesAreBeside }
    ensures ready { InputMeetStoreIsReady }
    ensures places { InputRunHasTypedPlaces }
    ensures runs { InputRunMeetStoreIsReady }
{}

ghost use Rattle.lf_numbered.specs.MeetsReady.{ApartStoreIsReady, RefutedInputIsApartTuple, OneBlockInputIsApartTuple};

/// So is the store of a constant's pattern where no block variables are one; and where it is refuted, the case holds no tuple of the pattern so.
pub fn apart_store_is_ready()
    ensures ready { ApartStoreIsReady }
    ensures refuted { RefutedInputIsApartTuple }
    ensures one { OneBlockInputIsApartTuple }
{}

ghost use Rattle.lf_numbered.specs.MeetsReady.{IdentifiedStaysAtPlace, GivenCaseIsAtPlace, GivenMeetStoreIsReady, OutputRunMeetStoreIsReady};

/// What is typed beside a pattern at its place, also with given terms, stays so with block variables one; so its stores with the pattern are well formed, and so
/// are those of the cases of a run by number from a goal of outputs.
pub fn given_meet_stores_are_ready()
    ensures identified { IdentifiedStaysAtPlace }
    ensures place { GivenCaseIsAtPlace }
    ensures ready { GivenMeetStoreIsReady }
    ensures runs { OutputRunMeetStoreIsReady }
{}

ghost use Rattle.lf_numbered.specs.MeetsReadyExamples.{CopyStoresAreReady, TwoCopiesAreReady};

/// The stores of cp b.x c.x with the entry u : cp x x and with the head of cp-app are well formed, where b and c are apart and where they are one.
pub fn copy_stores_are_ready()
    ensures all { CopyStoresAreReady }
    ensures worked { TwoCopiesAreReady }
{}

ghost use Rattle.lf_numbered.specs.MeetsReadyExamples.{SkeletonsAreNotEnough, LengthsAreNotEnough, IdentifiedLeavesOwnTerms};

/// A store isn't well formed where the case's arguments only have skeletons, nor where its local context is only of equal length; and with block variables one a
/// case needn't stand on own terms.
pub fn skeletons_are_not_enough()
    ensures loose { SkeletonsAreNotEnough }
    ensures lengths { LengthsAreNotEnough }
    ensures own { IdentifiedLeavesOwnTerms }
{}

ghost use Rattle.lf_numbered.specs.MeetsReady.{SharedInputStoreIsReady, SharedGivenStoreIsReady};

/// So at each place of an instance that the case and the pattern share their store is well formed.
pub fn shared_stores_are_ready()
    ensures inputs { SharedInputStoreIsReady }
    ensures given { SharedGivenStoreIsReady }
{}

ghost use Rattle.lf_numbered.specs.NumberedCandidates.{NumberedCandidateIsInSet, NumberedCandidateTakesBelow};

/// A candidate by number is of a family of each set beside which its case is to be covered, whatever the worlds are, and takes what quantifies only over what is below.
pub fn numbered_candidate_is_in_set()
    ensures families { NumberedCandidateIsInSet }
    ensures below { NumberedCandidateTakesBelow }
{}

ghost use Rattle.lf_numbered.specs.NumberedCandidatesRuns.{TakerByNumberIsSplit, UnifiedTakerIsAnswered};

/// A split by number is one beside each set that has the variable's family, though it doesn't have those of all that the variable takes.
pub fn taker_by_number_is_split()
    ensures split { TakerByNumberIsSplit }
    ensures answered { UnifiedTakerIsAnswered }
{}

ghost use Rattle.lf_numbered.specs.NumberedCandidatesRuns.{FirstIsCandidateByNumber, NumberedCandidateRunCovers, NumberedCandidateRunCoversHeads, NumberedCandidateRunCoversInputs, NumberedCandidateRunCoversOutputs, NumberedCandidateRunGivesOutputs, NumberedStrategyRunCovers};

/// So a run by number that splits at candidates covers its goal beside each set beside which this is asked, in all worlds.
pub fn numbered_candidate_run_covers()
    ensures first { FirstIsCandidateByNumber }
    ensures run { NumberedCandidateRunCovers }
    ensures strategy { NumberedStrategyRunCovers }
    ensures inputs { NumberedCandidateRunCoversInputs }
    ensures heads { NumberedCandidateRunCoversHeads }
    ensures outputs { NumberedCandidateRunCoversOutputs }
    ensures gives { NumberedCandidateRunGivesOutputs }
{}

ghost use Rattle.lf_numbered.specs.CoveredAnswerGives.{AnswersGiveOutputs, CoveredAnswerGivesInputs, CoveredAnswerGivesOutputs, NumberedInputGoalIsBesideFamilies, NumberedOutputGoalIsBesideFamilies, TestedAreAllBelow};

/// Where the numbered goal of a family's inputs is answered to be covered by heads of its clauses, the inputs are
/// covered beside the families below it; and the outputs of a subgoal beside those below its clause's family, where
/// this is the answer for each way in which the clause comes. These sets are ones beside which the goals are to be
/// covered, and all in them is below the family.
pub fn covered_answer_gives()
    ensures inputs_beside { NumberedInputGoalIsBesideFamilies }
    ensures outputs_beside { NumberedOutputGoalIsBesideFamilies }
    ensures inputs { CoveredAnswerGivesInputs }
    ensures answers { AnswersGiveOutputs }
    ensures outputs { CoveredAnswerGivesOutputs }
    ensures below { TestedAreAllBelow }
{}

ghost use Rattle.lf_numbered.specs.CoveredAnswerPasses.{CoveredAnswerPassesInputs, CoveredAnswersPassOutputs};

/// So the answers give what is asked of the coverage of a group before its record is made: of the inputs of a family
/// with sound marks, and of the outputs of each subgoal of a well-moded and well-worlded clause.
pub fn covered_answers_pass()
    ensures inputs { CoveredAnswerPassesInputs }
    ensures outputs { CoveredAnswersPassOutputs }
{}

ghost use Rattle.lf_numbered.specs.CoveredAnswerExamples.{EntryAnswerGivesOutputs, EntryAnswerPasses, PlusAnswerGivesInputs, PlusAnswerPasses};

/// The goal plus X Y _ is answered to be covered, so the inputs of plus are; and the goal q N D of the outputs of v in
/// some {n:exp} block {v:({D:t n} q n D -> r)}, so these are.
pub fn covered_answers_give()
    ensures inputs { PlusAnswerGivesInputs }
    ensures outputs { EntryAnswerGivesOutputs }
    ensures inputs_pass { PlusAnswerPasses }
    ensures outputs_pass { EntryAnswerPasses }
{}

ghost use Rattle.lf_numbered.specs.NumberedCandidatesExamples.{JudgedIsSplit, SomeTypeIsOutside, JudgedIsCovered, RaisedMayBeOutside};

/// In the worlds of some {T:tp} block {x:exp} {d:of x T} {u:q x} a run at a candidate covers q X, though the type of T is in no set that this needs.
pub fn judged_run_by_number()
    ensures split { JudgedIsSplit }
    ensures outside { SomeTypeIsOutside }
    ensures run { JudgedIsCovered }
    ensures raised { RaisedMayBeOutside }
{}

ghost use Rattle.lf_numbered.specs.NumberedCandidatesRaised.{RaisedIsCandidate, RaisedIsCovered};

/// Under x:exp the candidate of p (Y x) is Y : {x:exp} bx, and the set of bx alone is one beside which the goal is to be covered; and so it is.
pub fn raised_is_candidate()
    ensures candidate { RaisedIsCandidate }
    ensures run { RaisedIsCovered }
{}

ghost use Rattle.lf_numbered.specs.WorkedCallsEntries.{OwnTermGivesNoCase};

/// p M, for a block variable b of some {n:exp} block {x:exp} on M, is split into p (c.x N) alone, for a new block variable c on N: b.x gives no case, since in
/// M = b.x M the variable M occurs on the right.
pub fn own_term_gives_no_case()
    ensures { OwnTermGivesNoCase }
{}

ghost use Rattle.lf_numbered.specs.WorkedCallsOrder.{NewEntryComesFirst, EntryIsOfferedTwice};

/// p X beside a block variable b of {x:exp} {u:p x} is split into p c.x, for a new block variable c, and p b.x, in this order; and in worlds that have the
/// block twice, p X is split into p b.x and again p b.x.
pub fn entries_come_in_order()
    ensures first { NewEntryComesFirst }
    ensures twice { EntryIsOfferedTwice }
{}

ghost use Rattle.lf_numbered.specs.WorkedCallsFunctions.{FunctionEntryClashes, NewEntryIsLeft};

/// For a block variable b of {h:nat -> nat} the equation b.h X = s N is a clash: so a-s : {N:nat} a (s N) gives no case of Y : a (b.h X), and a (b.h X) is
/// apart from a (s N). In the worlds of {x:exp} {u:p x} a split at Y : p (F b.x) leaves F b.x = c.x, over the case with the new block variable c.
pub fn entries_clash()
    ensures function { FunctionEntryClashes }
    ensures left { NewEntryIsLeft }
{}

ghost use Rattle.lf_numbered.specs.WorkedCallsStuck.{AppliedIsStuck, SomeVariableGivesNoCandidate, NoPlacesAreStuck, EntryDeterminesNothing, SomeTermsDetermineNothing};

/// Each of these cases shares an instance with the one pattern, is no instance of it and has no candidate: k X with {F:nat -> nat} k (F z); p X with u : p n
/// of some {n:exp} block {u:p n}; the goal of exp with the entry x of block {x:exp}; p b.x with u : {Y:exp -> exp} p (Y x) of block {x:exp} {u:{Y:exp -> exp}
/// p (Y x)}; and p N, for a block variable on [x] x, with u : {Z:exp} p (f Z) of some {f:exp -> exp} block {u:{Z:exp} p (f Z)}.
pub fn stuck_cases_are_unsplit()
    ensures applied { AppliedIsStuck }
    ensures candidate { SomeVariableGivesNoCandidate }
    ensures places { NoPlacesAreStuck }
    ensures entry { EntryDeterminesNothing }
    ensures terms { SomeTermsDetermineNothing }
{}

ghost use Rattle.lf_numbered.specs.WorkedCallsOne.{MadeOneIsSolved, MadeOneIsOpen, OtherBlocksStayApart};

/// For two block variables b and c of one block, eq b.x c.x and eq X X clash where b and c are different, and X is b.x where they are one; e b.x c.x (F a) and
/// e X X a clash too, or F a = a is left. So both cases are stuck. For block variables of two blocks with the same entries, eq b.x c.x is apart from eq X X.
pub fn blocks_are_made_one()
    ensures solved { MadeOneIsSolved }
    ensures open { MadeOneIsOpen }
    ensures apart { OtherBlocksStayApart }
{}

ghost use Rattle.lf_numbered.specs.WorkedCallsGoals.{OutputGoalIsClosed, SomeOutputIsUnsplit, MissingHasNoInstance};

/// The goal r Y of an output of {N:nat} {F:nat -> nat} {V:vec (F N)} {Y:nat} r Y -> p (F N) V keeps variables for V and for F and N, which aren't ground. The
/// goal q b.x Y of an output of u : q x n -> r x, where n is a `some` variable, can't be split. In the empty world p X, over a type without a term, is
/// answered to be missing, and it is covered too, as it has no instance.
pub fn goals_by_number()
    ensures closed { OutputGoalIsClosed }
    ensures some { SomeOutputIsUnsplit }
    ensures missing { MissingHasNoInstance }
{}

ghost use Rattle.lf_numbered.specs.WorkedCallsRun.{UnaskedEntryIsNoHindrance};

/// A whole run by number in the worlds of {x:exp} {u:w x} {v:q x}: q E is split into q a, q (b E) and q b.x, each of which is an instance of a clause's head.
/// So q E is covered, also beside the set of exp and q alone, which lacks w.
pub fn unasked_entry_is_no_hindrance()
    ensures { UnaskedEntryIsNoHindrance }
{}

ghost use Rattle.lf_numbered.specs.WorkedCallsStores.{TwinsGiveNoCase, EntriesAreTaken};

/// The split of check b.x c.x Z at Z : same b.x c.x has no case by alike : {X:exp} same X X, since b.x and c.x clash. The equation E y2 y1 = b.h y1 y2 is
/// solved, and E y1 = b.h y1 y2 is refuted.
pub fn entries_are_rigid()
    ensures twins { TwinsGiveNoCase }
    ensures taken { EntriesAreTaken }
{}

ghost use Rattle.lf_numbered.specs.WorkedCallsRaised.{MentionedOutputIsSplit};

/// In the worlds of some {f:a -> b} block {u:({x:a} q (f x) (g (f x))) -> r}, where a isn't below b, the goal of the output of u's subgoal is q (F x) (Y x),
/// with Y : {x:a} d (F x). It is split by g into q Z (g Z), an instance of the subgoal.
pub fn mentioned_output_is_split()
    ensures { MentionedOutputIsSplit }
{}

ghost use Rattle.lf_numbered.specs.WorkedCallsIndex.{IndexIsSplitFirst};

/// For the goal f N X, with X : odd N, and the clause f-1 : f (s z) o the index N is split first. So f z X is reached and answered to be missing, though no
/// term has the type odd z.
pub fn index_is_split_first()
    ensures { IndexIsSplitFirst }
{}

ghost use Rattle.lf_numbered.specs.WorkedCallsAnswers.{WorkedRunsAreAnswers};

/// By number, check X Y Z is covered by u : check x x (alike x), and cp X _ is covered by cp-lam, cp-app and u : cp x x.
pub fn worked_runs_are_answers()
    ensures { WorkedRunsAreAnswers }
{}

ghost use Rattle.lf_numbered.specs.WorkedCallsSome.{SomeTermIsNoHindrance};

/// In the worlds of some {t:tp} block {x:exp} {v:q x} the goal q E is split into q b.x, for b on a variable T : tp, and v covers it, also beside the set of
/// exp and q alone, which lacks tp. No constant has the type tp.
pub fn some_term_is_no_hindrance()
    ensures { SomeTermIsNoHindrance }
{}

ghost use Rattle.lf_numbered.specs.WorkedCallsWhole.{WholeRunIsAnswered};

/// f N Y, with Y : t N, is split at its first candidate Y into f M (d M) and f N e.y, for e of some {n:exp} block {y:t n} on N. The latter is split at N into
/// f a e.y, f (b N') e.y and f c.x e.y, where the older e stands on the entry c.x of the newer c. So f-d, f-a, f-b and the entry u of c cover the goal.
pub fn whole_run_is_answered()
    ensures { WholeRunIsAnswered }
{}

ghost use Rattle.lf_numbered.specs.WorkedCallsLocals.{LostUnderLocals};

/// With k : a -> c, where d isn't below a, the goal {v:d} {y:{u:d} a} q (Y v y) has a run of the strategy to an
/// instance of q (k (W y)), and isn't covered, since k (y v) is lost: so a goal's local context has to quantify only
/// over what is below, which all that `cover` needs beside doesn't give.
pub fn term_is_lost_under_locals()
    ensures { LostUnderLocals }
{}

ghost use Rattle.lf_numbered.specs.MeetsAnswers.{PlacesRefuteEach};
ghost use Rattle.lf_numbered.specs.NumberedAnswers.{ClauseHeadsHaveTypedBlocks, BesideHasTypedBlock, NeededBlocksAreTyped, NeededFits, NeededPlacesAreReady, RefutedByNumberIsApart, NeededMetIsMeeting};

/// Where a case and a pattern have what `instance_of` by number needs, their store is well formed at each place; so they are apart where steps refute it at
/// each place to be looked at, and the pattern meets the case where unification answers otherwise at one.
pub fn needed_meetings_are_answered()
    ensures heads { ClauseHeadsHaveTypedBlocks }
    ensures beside { BesideHasTypedBlock }
    ensures blocks { NeededBlocksAreTyped }
    ensures places { PlacesRefuteEach }
    ensures fits { NeededFits }
    ensures ready { NeededPlacesAreReady }
    ensures apart { RefutedByNumberIsApart }
    ensures met { NeededMetIsMeeting }
{}

ghost use Rattle.lf_numbered.specs.NumberedAnswers.{NeededIsAnswered, ReachedIsAnswered};

/// So where unification answers at each of these places, `instance_of` has one of its four answers; also for each case that the strategy reaches from a goal,
/// and each pattern of the list.
pub fn needed_calls_are_answered()
    ensures needed { NeededIsAnswered }
    ensures reached { ReachedIsAnswered }
{}

ghost use Rattle.lf_numbered.specs.NumberedAnswersExamples.{TwoCopiesAreApart, TwoCopiesAreStuck};

/// So cp b.x c.x, for two block variables of {x:exp} {u:cp x x}, is apart from the head of cp-app, where steps refute both stores, and stuck at u : cp x x,
/// where they refute four of five.
pub fn two_copies_are_answered()
    ensures apart { TwoCopiesAreApart }
    ensures stuck { TwoCopiesAreStuck }
{}

ghost use Rattle.lf_numbered.specs.OnlyCase.{OfferHasOneCase, FoundIsNotRefuted};

/// Two cases that solving finds for one head of a split by number are the same but for their variables; and where it
/// finds one, no steps refute.
pub fn found_case_is_only_one()
    ensures one { OfferHasOneCase }
    ensures found { FoundIsNotRefuted }
{}

ghost use Rattle.lf_numbered.specs.SameCaseHolds.{SameCaseHoldsSame, SplitListsHoldSame};
ghost use Rattle.lf_numbered.specs.SameCaseExamples.{OpenHoldsMore};

/// Two typed cases by number that are the same but for their variables hold the same tuples, in each legal extension
/// and each context of whatever worlds; and so do two lists of the cases of a split, case by case. plus X Y _ and plus
/// (s X) Y _ don't.
pub fn same_case_holds_same()
    ensures case { SameCaseHoldsSame }
    ensures list { SplitListsHoldSame }
    ensures more { OpenHoldsMore }
{}

ghost use Rattle.lf_numbered.specs.OnlyOrder.{PlaceIsOfOneOffer, PlacesAreOfOneBlock, OfferHasOnePlace, ListedOffersAreOne};

/// A place in the order of a split by number is that of one head; so the heads that are listed, and their places, are
/// determined. Two places of one head differ at most in that of its block, so it has one where each block stands once.
pub fn listed_offers_are_only_ones()
    ensures offer { PlaceIsOfOneOffer }
    ensures places { PlacesAreOfOneBlock }
    ensures place { OfferHasOnePlace }
    ensures listed { ListedOffersAreOne }
{}

ghost use Rattle.lf_numbered.specs.OnlyList.{SplitHasOneList, SplitCaseIsListed};

/// So two lists of the cases of a split are as long, and their cases, in order, the same but for their variables; and
/// each case that it gives is listed.
pub fn listed_cases_are_only_ones()
    ensures list { SplitHasOneList }
    ensures case { SplitCaseIsListed }
{}

ghost use Rattle.lf_numbered.specs.OnlyExamples.{ExchangedIsSame, IdleIsNotSame, ZeroComesFirst};

/// The split of plus X Y _ at X lists the case by z and that by s, in this order and no other, and no fewer. The latter
/// with its variables exchanged is the same case, and the former with one more, which occurs nowhere, isn't.
pub fn zero_comes_first()
    ensures list { ZeroComesFirst }
    ensures exchanged { ExchangedIsSame }
    ensures idle { IdleIsNotSame }
{}

ghost use Rattle.lf_numbered.specs.SharedInstances.{InstanceHoldsBack};

/// Each ground instance of an instance of a typed case by number is one of the case, which holds there the same tuple,
/// also where block variables of the case have become one.
pub fn instance_holds_back()
    ensures { InstanceHoldsBack }
{}

ghost use Rattle.lf_numbered.specs.SharedTuples.{SharedInstanceHasTuple, MetHasTuple, MetSharesTuple, SharedTupleIsNotApart};

/// So each tuple that an instance holds which a case and a pattern share, the case holds and the pattern has; and
/// where there is one, they aren't apart.
pub fn shared_instance_has_tuple()
    ensures tuple { SharedInstanceHasTuple }
    ensures ground { MetHasTuple }
    ensures met { MetSharesTuple }
    ensures apart { SharedTupleIsNotApart }
{}

ghost use Rattle.lf_numbered.specs.SharedTuples.{UnsplitIsMet};

/// Where the strategy can't split a case, and this shares an instance with a pattern of the list that has a ground one
/// in a context of whatever worlds, the goal holds the tuple of this and the pattern has it.
pub fn unsplit_is_met()
    ensures { UnsplitIsMet }
{}

ghost use Rattle.lf_numbered.specs.MetEquations.{UnifierSolvesLeft, StandingTupleHasUnifier, StandingTupleSolvesLeft, UnsolvedLeftHasNoTuple, TupleStandsSomewhere};

/// Each tuple that a case holds and a pattern has stands at a place of the pattern beside it, and is a typed unifier there;
/// so it makes the sides of each equation that unification leaves the same.
pub fn tuples_solve_what_is_left()
    ensures left { UnifierSolvesLeft }
    ensures unifier { StandingTupleHasUnifier }
    ensures solves { StandingTupleSolvesLeft }
    ensures none { UnsolvedLeftHasNoTuple }
    ensures stands { TupleStandsSomewhere }
{}

ghost use Rattle.lf_numbered.specs.MetDeep.{UnifierSolvesReached, StandingTupleUnifiesDeep};

/// So it is a typed unifier of each store that steps reach there, and where the equations are deep it unifies what is
/// deep.
pub fn tuples_unify_what_is_deep()
    ensures reached { UnifierSolvesReached }
    ensures deep { StandingTupleUnifiesDeep }
{}

ghost use Rattle.lf_numbered.specs.SharedTuplesExamples.{CopiesShareGround, AppliedZeroIsMet};
ghost use Rattle.lf_numbered.specs.MetEquationsExamples.{CopiesStandAtOne, AppliedZeroSolvesLeft};

/// cp b.x c.x and u : cp x x share the tuple x, x of {x:exp} {u:cp x x}, which stands where b and c are one; so they
/// aren't apart. The goal eq z (F z) can't be split with eq z z, and the tuple z, z is one of both; it solves what unification
/// leaves, F z = z.
pub fn worked_tuples_are_shared()
    ensures copies { CopiesShareGround }
    ensures zeros { AppliedZeroIsMet }
    ensures stands { CopiesStandAtOne }
    ensures left { AppliedZeroSolvesLeft }
{}

ghost use Rattle.lf_numbered.specs.LeftUnifiers.{OverHeadIsTyped, HeadIsUnifier, UnifierHasHead};

/// Each ground instance with block variables apart that gives a variable a head that is offered is a typed unifier of
/// this head's store, and of each store that unification comes to; and a typed unifier of the head's store gives the
/// variable the head.
pub fn heads_are_unifiers()
    ensures typed { OverHeadIsTyped }
    ensures unifier { HeadIsUnifier }
    ensures back { UnifierHasHead }
{}

ghost use Rattle.lf_numbered.specs.LeftEquations.{LeftIsTrue, LeftHoldsTrue, RunLeftHoldsTrue, HeadIsGiven, NewHeadIsGiven, HeadIsOffered};

/// An equation that a split by number leaves is a condition on tuples: each tuple of the case with this head for the
/// variable makes it true, and where a whole run stops so, it is a tuple of the goal.
pub fn left_equations_are_true()
    ensures instances { LeftIsTrue }
    ensures tuples { LeftHoldsTrue }
    ensures run { RunLeftHoldsTrue }
    ensures given { HeadIsGiven }
    ensures new_given { NewHeadIsGiven }
    ensures offered { HeadIsOffered }
{}

ghost use Rattle.lf_numbered.specs.DeepCases.{SplitCaseIsCaseOf, ReachedIsCaseOf, DeepSplitIsOfCase, DeepRunIsOfGoal};

/// Where a split or a run by number is too deep, the case that is deep is one of the case that is split, or of the
/// goal; or the equations of a head that are deep are unified by each tuple with this head.
pub fn deep_cases_are_cases()
    ensures split_case { SplitCaseIsCaseOf }
    ensures reached_case { ReachedIsCaseOf }
    ensures split { DeepSplitIsOfCase }
    ensures run { DeepRunIsOfGoal }
{}

ghost use Rattle.lf_numbered.specs.LeftExamples.{CircleIsLeft, CircleIsTrue, OlderIsGiven, OlderIsHead};

/// With refl : {Z:nat} eq Z Z the split of X : eq T (K W), where K and W have T in their types, leaves K W = T: solved
/// for T, the types would be circular. It is true of p z ([x] z) n (refl z), and a = z isn't. And X is the head b.x
/// where it is the variable x of the instance that b stands for; a new block variable b stands for it where there is
/// none.
pub fn circle_is_left()
    ensures left { CircleIsLeft }
    ensures tuple { CircleIsTrue }
    ensures head { OlderIsHead }
    ensures given { OlderIsGiven }
{}

ghost use Rattle.lf_numbered.specs.LeftExamplesRun.{CircleHasHead, CircleIsNotRefuted, CircleIsUnified, CircleRunIsLeft, CircleTuplesAreTrue};

/// A whole run for p z ([x] z) n (refl z) stops at K W = T, which each tuple of its goal p T K W X with refl for X
/// makes true. So steps don't refute the head's store, and the case over which the equation is shown is typed.
pub fn circle_run_is_left()
    ensures run { CircleRunIsLeft }
    ensures tuples { CircleTuplesAreTrue }
    ensures unifier { CircleIsUnified }
    ensures not_refuted { CircleIsNotRefuted }
    ensures head { CircleHasHead }
{}

ghost use Rattle.lf_numbered.specs.NeededLeft.{NeededCandidateTakes, NeededDeepRunMeets, NeededLeftHoldsTrue, OfferedTakesBelow, ReachedIsBeside};

/// Where what `cover` needs is so, an equation that a run leaves is true of each tuple with the head, which is one of
/// the goal, and each such tuple unifies equations that are deep: beside each set beside which the goal is to be
/// covered. What a candidate and its heads take is in the set, and below.
pub fn needed_left_holds_true()
    ensures offered { OfferedTakesBelow }
    ensures beside { ReachedIsBeside }
    ensures takes { NeededCandidateTakes }
    ensures left { NeededLeftHoldsTrue }
    ensures deep { NeededDeepRunMeets }
{}

ghost use Rattle.lf_numbered.specs.NeededLeftExamples.{CircleAloneIsRefused, CircleHasTuple, CircleIsNeeded, NeededCircleIsTrue};

/// The goal p T K W X, covered at all places, may be handed in with p Z ([x] Z) W (refl Z); the run stops at K W = T,
/// which each tuple of the goal with refl for X makes true, as p z ([x] z) n (refl z) is one. Covered at X alone it may
/// not be handed in.
pub fn circle_is_needed()
    ensures run { CircleIsNeeded }
    ensures tuples { NeededCircleIsTrue }
    ensures tuple { CircleHasTuple }
    ensures alone { CircleAloneIsRefused }
{}

ghost use Rattle.lf_numbered.specs.NeededLeftUnsolved.{TwiceHasNoTuple};

/// Of eq (F z) (F z) and the head eq z (s z) unification leaves F z = z and F z = s z, which have no typed unifier; so
/// no tuple of both stands there.
pub fn unsolved_left_has_no_tuple()
    ensures { TwiceHasNoTuple }
{}

ghost use Rattle.lf_numbered.specs.DeepExamples.{DeepZeroIsItsCase, DeeperIsNoCase, EntryIsCaseOf};

/// p b.x is a case of p X, and p X is none of p b.x; a goal with 4,096 times s is a case of itself, where a run from it
/// is too deep, and the case with one s more is deep too, and none of the goal.
pub fn deep_zero_is_its_case()
    ensures entry { EntryIsCaseOf }
    ensures deep { DeepZeroIsItsCase }
    ensures deeper { DeeperIsNoCase }
{}

ghost use Rattle.lf_numbered.specs.ReadyPlaces.{PlacedStoreHasSkeletons, NeededPlacesAreReadyToSolve, NeededOffersAreReadyToSolve};

/// At each place of a pattern beside a case, where these have what `instance_of` by number needs, the store has all
/// that solving asks: the signature with the entries is one, the store is well formed over it, and skeletons type what
/// its equations stand in. So has that of each head that `split` looks at.
pub fn needed_places_are_ready_to_solve()
    ensures placed { PlacedStoreHasSkeletons }
    ensures needed { NeededPlacesAreReadyToSolve }
    ensures offers { NeededOffersAreReadyToSolve }
{}

ghost use Rattle.lf_numbered.specs.ReadyPlacesExamples.{CopyPlacesAreReadyToSolve, OnePlaceHasItsTerms, LooseIsNotReadyToSolve};

/// So it has for u : cp x x beside cp b.x c.x, at each of its five places; and for f N Y beside f Y c.y, for b on X and
/// c on Y, also where c is b, so that Y = X. The store of f _ D, where D : t a, and f N Y has not: skeletons type what
/// D = Y : t N stands in, but D isn't of the type t N.
pub fn places_are_ready_to_solve()
    ensures copies { CopyPlacesAreReadyToSolve }
    ensures terms { OnePlaceHasItsTerms }
    ensures loose { LooseIsNotReadyToSolve }
{}

ghost use Rattle.lf_numbered.specs.EntryTypes.{FurtherIsWithEntries, NewTypesComeLast};
ghost use Rattle.lf_numbered.specs.EntryTypesExamples.{TurnedHasTypes, PairsHaveTypes};

/// A signature with the types of the entries' constants behind it, as a list that begins at the first free number, is
/// the one with a constant for each entry of each block variable; a new block variable's come last. For b of some
/// {n:exp} block {y:t n} and c of {x:exp} {u:{Y:t x} f x Y} they are {n:exp} t n, exp and {Y:t c.x} f c.x Y.
pub fn further_is_with_entries()
    ensures entries { FurtherIsWithEntries }
    ensures new { NewTypesComeLast }
    ensures turned { TurnedHasTypes }
    ensures pairs { PairsHaveTypes }
{}

ghost use Rattle.lf_numbered.specs.Orders.{OwnOrderIsOne, AnyOrderServes, SolvedInAnyOrder, FollowingIsOrder};
ghost use Rattle.lf_numbered.specs.OrdersExamples.{FourHaveTwoOrders};

/// A well formed store is well formed with each order of its metavariables in which declared types and values mention
/// only what stands behind; so what solving leaves may be read off in any. In such an order of N : nat, D : t N, B : t
/// N -> nat, which is bound to [x] z, and M : v (B D), M stands before D.
pub fn any_order_serves()
    ensures own { OwnOrderIsOne }
    ensures any { AnyOrderServes }
    ensures solved { SolvedInAnyOrder }
    ensures following { FollowingIsOrder }
    ensures four { FourHaveTwoOrders }
{}

ghost use Rattle.lf_numbered.specs.EntryTypesWalk.{WalkIsSubstitution, NumberedIsWalked, ReadDropsFirst};
ghost use Rattle.lf_numbered.specs.EntryTypesExamples.{EntryIsWalked, ItemsAreWalked};

/// The numbered form of a typed case is the one that a walk makes: it puts in place of each entry variable and its
/// arguments the entry's constant on its block variable's terms and these arguments. x (s y) becomes 5 z (s y), where
/// x becomes 5 on z.
pub fn numbered_is_walked()
    ensures walk { WalkIsSubstitution }
    ensures numbered { NumberedIsWalked }
    ensures read { ReadDropsFirst }
    ensures entry { EntryIsWalked }
    ensures items { ItemsAreWalked }
{}

ghost use Rattle.lf_numbered.specs.EntryTypesPut.{OneByOneIsAtOnce, SubstitutionIsPut, GivenIsPut, EntryTypeIsPut, PlacedTypeIsPut};
ghost use Rattle.lf_numbered.specs.EntryTypesExamples.{TermsArePut};

/// Terms that are put in one after the other, the newest variable first, are put in at once; so is what stands for all
/// variables of a type, and so the type of an entry's constant is made, and an entry's clause at a block variable. y
/// and s z make d 0 1 the type d y (s z).
pub fn one_by_one_is_at_once()
    ensures at_once { OneByOneIsAtOnce }
    ensures all { SubstitutionIsPut }
    ensures given { GivenIsPut }
    ensures entries { EntryTypeIsPut }
    ensures placed { PlacedTypeIsPut }
    ensures worked { TermsArePut }
{}
