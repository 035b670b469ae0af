//! Laws of what is put in, without code.
ghost use Rattle.tw_putting.specs.Laws.{PuttingHasOneResult, AllInStays, DeepResultsAreDeep, DeclaringKeepsSkeletons, BindingKeepsSkeletons, OpenTypingGivesSkeletons};

/// The values can be put into what skeletons type, and there is one result.
pub fn putting_has_one_result()
    ensures { PuttingHasOneResult }
{}

/// Where no metavariable is bound, putting in gives what was there.
pub fn all_in_stays()
    ensures { AllInStays }
{}

/// What gives a result that is too deep is deep, as unification has it.
pub fn deep_results_are_deep()
    ensures { DeepResultsAreDeep }
{}

/// A store that skeletons type stays so where a metavariable is declared.
pub fn declaring_keeps_skeletons()
    ensures { DeclaringKeepsSkeletons }
{}

/// A store that skeletons type stays so where a metavariable is bound to a value of its skeleton that mentions only others, none of them bound.
pub fn binding_keeps_skeletons()
    ensures { BindingKeepsSkeletons }
{}

/// What is typed up to fillings has the declared skeletons.
pub fn open_typing_gives_skeletons()
    ensures { OpenTypingGivesSkeletons }
{}
