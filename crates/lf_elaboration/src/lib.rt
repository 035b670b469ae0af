//! The laws of elaboration: what is written, with its names and skeletons known, as an open term, type or kind of LF, with equations
//! where types are compared. They have no code: each function carries one law as its contract.
#![tactic(auto)]

ghost use Rattle.lf_elaboration.specs.BodySkeletons.{CompletedHasSkeletons};
ghost use Rattle.lf_elaboration.specs.Examples.{SameHasNoEquation, NumberIsNotPrincipal, BackwardHasSites, UntypedHasSite, FreesInOrder, PlusSuccessorIsElaborated, FullIsElaborated, EquationsAreAll, HoleIsRaised, ShortIsExpanded, DefinitionIsExpanded, KindIsElaborated};
ghost use Rattle.lf_elaboration.specs.EquationLaws.{EquationsDiffer, FullHasNoEquation};
ghost use Rattle.lf_elaboration.specs.Laws.{ElaboratedTypeIsMade, ElaboratedKindIsMade, InferredTermIsMade, CheckedTermIsMade, NothingHasSkeletons, ElaboratedHasSkeletons, StateIsScoped, FreesAreMade, SkeletonIsElaborated, ElaboratedHadSkeleton, ElaborationIsUnique, CompletionIsInstance, InstanceIsCompletion, SolvedTypeIsTyped, SolvedTermIsTyped, SolvedKindIsTyped, SolvedBodyIsTyped, UnifierIsOfSolved};
ghost use Rattle.lf_elaboration.specs.SiteLaws.{MetavariablesAreCounted, SpotsAreAll};
ghost use Rattle.lf_elaboration.specs.PrincipalLaws.{PrincipalMayStand, ContextIsReordered, GivenDetermineAll, QuantifiersAreUndetermined, NeverHasNoCompletion, ReadOffIsPrincipal, ReorderedIsPrincipal};

/// What is elaborated has skeletons, in each local context that has them, and so has the state behind.
pub fn elaborated_has_skeletons()
    ensures { ElaboratedHasSkeletons }
{}

/// Nothing has skeletons, and with it the free variables.
pub fn nothing_has_skeletons()
    ensures { NothingHasSkeletons }
{}

/// A state that has skeletons mentions only what it declares.
pub fn state_is_scoped()
    ensures { StateIsScoped }
{}

/// The free variables of declared skeletons are made.
pub fn frees_are_made()
    ensures { FreesAreMade }
{}

/// What is written and has a skeleton is elaborated.
pub fn skeleton_is_elaborated()
    ensures { SkeletonIsElaborated }
{}

/// What is elaborated had a skeleton.
pub fn elaborated_had_skeleton()
    ensures { ElaboratedHadSkeleton }
{}

/// What has a completion has skeletons.
pub fn completed_has_skeletons()
    ensures { CompletedHasSkeletons }
{}

/// Elaboration has one outcome.
pub fn elaboration_is_unique()
    ensures { ElaborationIsUnique }
{}

/// No equation is made of two equal sides.
pub fn equations_differ()
    ensures { EquationsDiffer }
{}

/// Where nothing is left out and there is a completion, no equation is made.
pub fn full_has_no_equation()
    ensures { FullHasNoEquation }
{}

/// Each completion of what is written is what a typed unifier of the store makes of it.
pub fn completion_is_instance()
    ensures { CompletionIsInstance }
{}

/// Each typed unifier of the store makes a completion.
pub fn instance_is_completion()
    ensures { InstanceIsCompletion }
{}

/// What is read off a solved store is a principal completion.
pub fn read_off_is_principal()
    ensures { ReadOffIsPrincipal }
{}

/// In another order of its quantifiers a principal completion is principal as well.
pub fn reordered_is_principal()
    ensures { ReorderedIsPrincipal }
{}

/// A context in any order in which each variable stands inside of those that its type mentions.
pub fn context_is_reordered()
    ensures { ContextIsReordered }
{}

/// Each quantifier that is read off is what stands for a metavariable that stays free.
pub fn quantifiers_are_undetermined()
    ensures { QuantifiersAreUndetermined }
{}

/// A typed unifier of a solved store is determined by its terms for the metavariables that solving began with.
pub fn given_determine_all()
    ensures { GivenDetermineAll }
{}

/// What is declared of a principal completion is typed.
pub fn principal_may_stand()
    ensures { PrincipalMayStand }
{}

/// Where the store has no typed unifier, what is written has no completion.
pub fn never_has_no_completion()
    ensures { NeverHasNoCompletion }
{}

/// A type that is elaborated from nothing is a type, up to the fillings of the well-formed store that is left.
pub fn elaborated_type_is_made()
    ensures { ElaboratedTypeIsMade }
{}

/// So is a kind.
pub fn elaborated_kind_is_made()
    ensures { ElaboratedKindIsMade }
{}

/// A term whose type is found has that type.
pub fn inferred_term_is_made()
    ensures { InferredTermIsMade }
{}

/// A term that is elaborated at an elaborated type has that type.
pub fn checked_term_is_made()
    ensures { CheckedTermIsMade }
{}

/// Where the equations are solved, the filled type is one of LF over the metavariables that stay free.
pub fn solved_type_is_typed()
    ensures { SolvedTypeIsTyped }
{}

/// And the filled term has it.
pub fn solved_term_is_typed()
    ensures { SolvedTermIsTyped }
{}

/// The filled kind is one of LF.
pub fn solved_kind_is_typed()
    ensures { SolvedKindIsTyped }
{}

/// What is declared then is typed: the metavariables that stay free are its implicit quantifiers.
pub fn solved_body_is_typed()
    ensures { SolvedBodyIsTyped }
{}

/// A typed unifier of what was to be solved is one of the solved store.
pub fn unifier_is_of_solved()
    ensures { UnifierIsOfSolved }
{}

/// What is elaborated makes as many metavariables as its spots count.
pub fn metavariables_are_counted()
    ensures { MetavariablesAreCounted }
{}

/// So the spots of a declaration are all, and each free variable has the last number of its own.
pub fn spots_are_all()
    ensures { SpotsAreAll }
{}

/// plus X Y Z -> plus (s X) Y (s Z), elaborated.
pub fn plus_successor_is_elaborated()
    ensures { PlusSuccessorIsElaborated }
{}

/// Implicit arguments that are compared: two equations.
pub fn full_is_elaborated()
    ensures { FullIsElaborated }
{}

/// A state without one of them isn't the state behind.
pub fn equations_are_all()
    ensures { EquationsAreAll }
{}

/// Two types that are the same have no equation.
pub fn same_has_no_equation()
    ensures { SameHasNoEquation }
{}

/// A hole under binders.
pub fn hole_is_raised()
    ensures { HoleIsRaised }
{}

/// A constant that is eta-short.
pub fn short_is_expanded()
    ensures { ShortIsExpanded }
{}

/// A definition, and a function on it.
pub fn definition_is_expanded()
    ensures { DefinitionIsExpanded }
{}

/// A kind with a hole.
pub fn kind_is_elaborated()
    ensures { KindIsElaborated }
{}

/// A completion that is not principal.
pub fn number_is_not_principal()
    ensures { NumberIsNotPrincipal }
{}

/// vec _ <- full W: its places aren't in the order of elaboration.
pub fn backward_has_sites()
    ensures { BackwardHasSites }
{}

/// [x] x, alone and at a type.
pub fn untyped_has_site()
    ensures { UntypedHasSite }
{}

/// plus Y X X <- vec Y: free variables in the order of the text.
pub fn frees_in_order()
    ensures { FreesInOrder }
{}
