//! Laws of reconstruction. They have no code: each function carries one law as its contract.
ghost use Rattle.tw_recon.specs.Families.{CompletedKindIsAsWritten, FamilyIsAsWritten};

/// What completes a written kind has just its quantifiers.
pub fn completed_kind_is_as_written()
    ensures { CompletedKindIsAsWritten }
{}

/// The entry of a declared family has the quantifiers of its text behind the implicit ones, with their names.
pub fn family_is_as_written()
    ensures { FamilyIsAsWritten }
{}
