//! Each session is in order, so what it prints reads back. No function here has code: each carries one law as its contract.
#![tactic(auto)]

ghost use Rattle.law_session_order.specs.Laws.{TokensAreSpelled, DeclaredIsNamed, DefinedIsNamed, FreeAreNamed, PreferredAreNames, NewIsInOrder, SettingKeepsOrder, MakingKeepsOrder, AcceptingKeepsOrder, AcceptingFromKeepsOrder, StepKeepsOrder, RunIsInOrder, KeptReadsBack, OpenReadsBack, RunReadsBack, NewReadsBack, ReportReadsBack, ReportFromReadsBack, ReadBackIsAccepted, KeptIsAccepted, OpenIsAccepted, NewIsAccepted, SignatureReadsBack, CheckReportReadsBack, CheckReportFromReadsBack};

/// What a text has as names are identifiers without a fixed meaning.
pub fn tokens_are_spelled()
    ensures { TokensAreSpelled }
{}

/// What is declared has a name, and has names as its hints.
pub fn declared_is_named()
    ensures { DeclaredIsNamed }
{}

/// What is defined has a name, if any, and has names as its hints.
pub fn defined_is_named()
    ensures { DefinedIsNamed }
{}

/// The free variables of a declaration are names.
pub fn free_are_named()
    ensures { FreeAreNamed }
{}

/// What is preferred for variables are names.
pub fn preferred_are_names()
    ensures { PreferredAreNames }
{}

/// A new session is in order, and so is one that was reset.
pub fn new_is_in_order()
    ensures { NewIsInOrder }
{}

/// What the user sets keeps a session in order.
pub fn setting_keeps_order()
    ensures { SettingKeepsOrder }
{}

/// A declaration that is made keeps a session in order.
pub fn making_keeps_order()
    ensures { MakingKeepsOrder }
{}

/// A text that is accepted keeps a session in order.
pub fn accepting_keeps_order()
    ensures { AcceptingKeepsOrder }
{}

/// A declaration that is accepted in a text of several keeps a session in order.
pub fn accepting_from_keeps_order()
    ensures { AcceptingFromKeepsOrder }
{}

/// A step of the program keeps its session in order.
pub fn step_keeps_order()
    ensures { StepKeepsOrder }
{}

/// In a run that begins with a new session each session is in order.
pub fn run_is_in_order()
    ensures { RunIsInOrder }
{}

/// The printed line of an entry of a session in order, in which nothing is implicit, reads back over the entries before it.
pub fn kept_reads_back()
    ensures { KeptReadsBack }
{}

/// The printed line of an entry whose names aren't shadowed and have no implicit arguments reads back, whatever else a session in order
/// holds.
pub fn open_reads_back()
    ensures { OpenReadsBack }
{}

/// In a run that begins with a new session, each session in which nothing is implicit reads back what it prints.
pub fn run_reads_back()
    ensures { RunReadsBack }
{}

/// The printed line of an entry that is about to be kept reads back.
pub fn new_reads_back()
    ensures { NewReadsBack }
{}

/// What is reported of an accepted declaration reads back.
pub fn report_reads_back()
    ensures { ReportReadsBack }
{}

/// What is reported of a declaration that is accepted in a text of several reads back.
pub fn report_from_reads_back()
    ensures { ReportFromReadsBack }
{}

/// What is reported of an accepted definition without a name reads back.
pub fn check_report_reads_back()
    ensures { CheckReportReadsBack }
{}

/// What is reported of a definition without a name that is accepted in a text of several reads back.
pub fn check_report_from_reads_back()
    ensures { CheckReportFromReadsBack }
{}

/// The lines of a session in which nothing is implicit and no name is an operator declare the same entries in the same order.
pub fn signature_reads_back()
    ensures { SignatureReadsBack }
{}

/// A line that reads back, within the limits, is accepted over a canonical signature.
pub fn read_back_is_accepted()
    ensures { ReadBackIsAccepted }
{}

/// The line of an entry of a session is accepted by one that has the entries before it and the same operators.
pub fn kept_is_accepted()
    ensures { KeptIsAccepted }
{}

/// The same of a line whose names aren't shadowed and have no implicit arguments, whatever else the sessions hold.
pub fn open_is_accepted()
    ensures { OpenIsAccepted }
{}

/// The line of an entry that was just declared is accepted by the session before.
pub fn new_is_accepted()
    ensures { NewIsAccepted }
{}
