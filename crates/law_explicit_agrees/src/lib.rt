//! An explicit declaration is completed as it would be reconstructed. No function here has code: each carries one law as its contract.
#![tactic(auto)]

ghost use Rattle.law_explicit_agrees.specs.Agreement.{ExplicitIsPrincipal, ExplicitMismatchHasNoCompletion};
ghost use Rattle.law_explicit_agrees.specs.Definitions.{DefinitionHasNoOtherCause, DefinitionIsReconstructedAlone, ExplicitDefinitionIsPrincipal, ExplicitDefinitionIsReconstructed};
ghost use Rattle.law_explicit_agrees.specs.Reconstructed.{ExplicitHasNoOtherCause, ExplicitIsReconstructed, ExplicitMismatchIsMismatch, ReconstructedIsCompleted};
ghost use Rattle.law_explicit_agrees.specs.Shallow.{ExplicitIsDeepOnlySo};

/// What an explicit declaration is completed to is its principal completion.
pub fn explicit_is_principal()
    ensures { ExplicitIsPrincipal }
{}

/// Where it gives no entry, it has no completion.
pub fn explicit_mismatch_has_no_completion()
    ensures { ExplicitMismatchHasNoCompletion }
{}

/// So it is what the declaration would be reconstructed to.
pub fn explicit_is_reconstructed()
    ensures { ExplicitIsReconstructed }
{}

/// Where it gives no entry, reconstruction refuses it as a mismatch.
pub fn explicit_mismatch_is_mismatch()
    ensures { ExplicitMismatchIsMismatch }
{}

/// What the type and the term of an explicit definition give is its principal completion.
pub fn explicit_definition_is_principal()
    ensures { ExplicitDefinitionIsPrincipal }
{}

/// So it is what the definition would be reconstructed to.
pub fn explicit_definition_is_reconstructed()
    ensures { ExplicitDefinitionIsReconstructed }
{}

/// It would be reconstructed to nothing else.
pub fn reconstructed_is_completed()
    ensures { ReconstructedIsCompleted }
{}

/// And reconstruction refuses it for nothing else, but for what is too deep and for want of memory.
pub fn explicit_has_no_other_cause()
    ensures { ExplicitHasNoOtherCause }
{}

/// An explicit declaration that gives an entry is too deep only where the entry or its typing is.
pub fn explicit_is_deep_only_so()
    ensures { ExplicitIsDeepOnlySo }
{}

/// A definition would be reconstructed to nothing else than what its type and its term give.
pub fn definition_is_reconstructed_alone()
    ensures { DefinitionIsReconstructedAlone }
{}

/// And reconstruction refuses it for nothing, but for what is too deep and for want of memory.
pub fn definition_has_no_other_cause()
    ensures { DefinitionHasNoOtherCause }
{}
