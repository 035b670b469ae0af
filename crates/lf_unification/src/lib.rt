//! The laws of pattern unification with postponed equations, and of search, over canonical LF. They have no code: each function
//! carries one law as its contract.
#![tactic(auto)]

ghost use Rattle.lf_unification.specs.Laws.{FillingGoesThrough, FilledTermIsTyped, PuttingInKeeps, StepKeepsUnifiers, StepKeepsForm, RunKeepsUnifiers, RefutedIsNever, RunSolves, SidesStay, LeftOverStays, KeepingComposes, TypesOfSidesAgree, InversionIsTotal, BindingIsNotCircular, WellFormedHasUnifier, SolvedHasUnifier, SolvedIsMostGeneral, NeverGoesBack, TriedAreDeclared, DueIsTried, OfferKeepsForm, SolvingGivesChild, ChildHasUnifier, LeafAnswers, LeafIsTyped, AnswerIsTyped, NothingIsMissed};

/// Filling goes through hereditary substitution.
pub fn filling_goes_through()
    ensures { FillingGoesThrough }
{}

/// A term typed up to the fillings of a typed store is typed under each typed unifier.
pub fn filled_term_is_typed()
    ensures { FilledTermIsTyped }
{}

/// Putting the bindings into a term keeps its type and its fillings.
pub fn putting_in_keeps()
    ensures { PuttingInKeeps }
{}

/// Each permitted step of unification keeps the typed unifiers of a typed store.
pub fn step_keeps_unifiers()
    ensures { StepKeepsUnifiers }
{}

/// Each permitted step keeps a store well formed.
pub fn step_keeps_form()
    ensures { StepKeepsForm }
{}

/// A run of steps from a well-formed store keeps the typed unifiers and the form.
pub fn run_keeps_unifiers()
    ensures { RunKeepsUnifiers }
{}

/// A well-formed store that a run of steps refutes has no typed unifier.
pub fn refuted_is_never()
    ensures { RefutedIsNever }
{}

/// A run of steps from a well-formed store solves it where no equation is left, and leaves the others where each is left over.
pub fn run_solves()
    ensures { RunSolves }
{}

/// No equation is turned: each one that is left comes from a given one, the left side from the left one.
pub fn sides_stay()
    ensures { SidesStay }
{}

/// An equation that is left over stays so while nothing that is reached from it is bound.
pub fn left_over_stays()
    ensures { LeftOverStays }
{}

/// Keeping the typed unifiers is reflexive and transitive.
pub fn keeping_composes()
    ensures { KeepingComposes }
{}

/// A term has one atomic type, so the equation between the types of two equal sides holds.
pub fn types_of_sides_agree()
    ensures { TypesOfSidesAgree }
{}

/// Inversion has an answer on every term.
pub fn inversion_is_total()
    ensures { InversionIsTotal }
{}

/// A metavariable that can be bound is not reached from its value.
pub fn binding_is_not_circular()
    ensures { BindingIsNotCircular }
{}

/// A well-formed store without equations has a typed unifier, read off its order of dependency.
pub fn well_formed_has_unifier()
    ensures { WellFormedHasUnifier }
{}

/// What is solved had a typed unifier.
pub fn solved_has_unifier()
    ensures { SolvedHasUnifier }
{}

/// From a store without bindings, the bindings of what is solved are most general, and those of what is left are so relative to the
/// equations left.
pub fn solved_is_most_general()
    ensures { SolvedIsMostGeneral }
{}

/// Where the typed unifiers are kept, a store has none if and only if the other has none.
pub fn never_goes_back()
    ensures { NeverGoesBack }
{}

/// The constants that a search tries are the declared ones, the oldest first, each once.
pub fn tried_are_declared()
    ensures { TriedAreDeclared }
{}

/// A try is due just where the next step of a search makes one.
pub fn due_is_tried()
    ensures { DueIsTried }
{}

/// To offer a head to a hole that is not bound keeps a store well formed.
pub fn offer_keeps_form()
    ensures { OfferKeepsForm }
{}

/// The store that solving leaves makes a child of the search.
pub fn solving_gives_child()
    ensures { SolvingGivesChild }
{}

/// Where nothing is postponed in a child, what was offered has a typed unifier.
pub fn child_has_unifier()
    ensures { ChildHasUnifier }
{}

/// Each typed unifier of a leaf gives an answer.
pub fn leaf_answers()
    ensures { LeafAnswers }
{}

/// From a well-formed query each leaf is well formed: what unifies it and is typed at its free metavariables is typed at all.
pub fn leaf_is_typed()
    ensures { LeafIsTyped }
{}

/// From a well-formed query, the answer read off a leaf where nothing is postponed is a typed instance of the query.
pub fn answer_is_typed()
    ensures { AnswerIsTyped }
{}

/// A search that ended has each closed answer as an instance of a leaf, where what is postponed holds.
pub fn nothing_is_missed()
    ensures { NothingIsMissed }
{}
