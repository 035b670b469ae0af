//! The laws of subordination. They have no code: each function carries one law as its contract.
ghost use Rattle.tw_subord.specs.Laws.{EntriesAloneMatter, RowsAreSubordination, TermsUseWhatIsBelow};

/// Which family is below which hangs on no label and on no `some` variable of a block. A law: it has no code.
pub fn entries_alone_matter()
    ensures { EntriesAloneMatter }
{}

/// What the rows tell is reflexive, transitive, and self-contained at each declared family. A law: it has no code.
pub fn rows_are_subordination()
    ensures { RowsAreSubordination }
{}

/// Strengthening: a term uses no variable but those whose families are below that of its type. A law: it has no code.
pub fn terms_use_what_is_below()
    ensures { TermsUseWhatIsBelow }
{}
