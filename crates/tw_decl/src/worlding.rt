//! Declarations of worlds: the families' clauses are checked in them, and they are kept and reported.
ghost use Rattle.std.specs.Prelude.{◌≡◌, map, IfErr, IfOk, OnErr, OnOk};
ghost use Rattle.tw_clause.specs.View.{name_of, worlds_of};
ghost use Rattle.tw_parse_checks.specs.Checks.{call_of, worlds};
ghost use Rattle.tw_decl.specs.Applications.{IsApplied, application_of as application_of_call};
ghost use Rattle.tw_decl.specs.Declaration.{SetsWorlds};
ghost use Rattle.tw_decl.specs.Obstacles.{IsNotWorlded};
ghost use Rattle.tw_decl.specs.Reports.{lines_alone, reported};
ghost use Rattle.tw_decl.specs.Steps.{ShowsWorldFault, WorldsFail, application_of};
ghost use Rattle.tw_decl.specs.View.{AreAmong, told, with_worlds};
ghost use Rattle.tw_decl.specs.Worlds.{AreWorlded, GivesWorlds, worlds_line};

use crate::applications::{Application, applications_of, applied, first_unknown};
use crate::below::subordination;
use crate::modes::clause_word;
use crate::refusal::Refusal;
use crate::report::{Report, told};
use crate::session::Session;
use crate::worlds::{blocks_named, worlds_line};
use std::alloc::{AllocError, Global};
use tw_clause::{ClauseName, Worlds};
use tw_lexer::Place;
use tw_parse::ExtName;
use tw_parse_checks::ExtPattern;
use tw_terms::ConstId;
use tw_world::{WorldFault, check_worlds};

// The families that call patterns name, each with just its arguments, where each name is known, labels too.
fn families_of(
    alloc: Global,
    session: &Session,
    first: Place,
    labels: &[ExtName],
    patterns: &[ExtPattern],
    applications: &[Application],
) -> Result<Vec<ConstId>, Refusal>
    requires { map application_of applications.now ≡ map application_of_call (map call_of patterns.now) }
    ensures applied { IfOk result (λ ids. IsApplied session.now (worlds labels.now (map call_of patterns.now)) (map (λ f. f.0) ids.items)) }
    ensures cause { IfErr result (IsNotWorlded session.now labels.now (map call_of patterns.now) first) }
{
    let found = match first_unknown(alloc, session, labels) {
        Ok(found) => found,
        Err(_) => return Err(Refusal::Memory),
    };
    match applied(alloc, session, first, found, applications) {
        Ok(families) => Ok(families),
        Err(refusal) => Err(refusal),
    }
}

// The families that get worlds, and the blocks that their labels name.
fn given(
    alloc: Global,
    session: &Session,
    first: Place,
    labels: &[ExtName],
    patterns: &[ExtPattern],
    applications: &[Application],
) -> Result<(Vec<ConstId>, Worlds), Refusal>
    requires { map application_of applications.now ≡ map application_of_call (map call_of patterns.now) }
    ensures gives { IfOk result (λ r. GivesWorlds session.now labels.now (map call_of patterns.now) (map (λ f. f.0) r.0.items) (worlds_of r.1)) }
    ensures cause { IfErr result (IsNotWorlded session.now labels.now (map call_of patterns.now) first) }
{
    let families = match families_of(alloc, session, first, labels, patterns, applications) {
        Ok(families) => families,
        Err(refusal) => return Err(refusal),
    };
    match blocks_named(alloc, session, labels) {
        Ok(Some(worlds)) => Ok((families, worlds)),
        Ok(None) => Err(Refusal::BadDecl(first)),
        Err(_) => Err(Refusal::Memory),
    }
}

// A clause that isn't well-worlded.
fn clause_fault(
    alloc: Global,
    session: &Session,
    first: Place,
    clause: &ClauseName,
    subgoal: u64,
) -> Refusal
    ensures { ShowsWorldFault session.now first (name_of clause.now) subgoal result }
{
    match clause_word(alloc, session, clause) {
        Ok(word) => Refusal::WorldFault(first, word, subgoal),
        Err(_) => Refusal::Memory,
    }
}

// Tests that the clauses of these families are well-worlded.
fn worlded(
    alloc: Global,
    session: &Session,
    first: Place,
    families: &[ConstId],
    worlds: &Worlds,
) -> Result<(), Refusal>
    requires { AreAmong session.now.checked.blocks (worlds_of worlds.now) }
    ensures worlded { OnOk result (AreWorlded session.now (map (λ f. f.0) families.now) (worlds_of worlds.now)) }
    ensures cause { IfErr result (WorldsFail session.now (map (λ f. f.0) families.now) (worlds_of worlds.now) first) }
{
    session.is_sound();
    let subord = match subordination(alloc, session) {
        Ok(subord) => subord,
        Err(_) => return Err(Refusal::Memory),
    };
    match check_worlds(
        alloc,
        session.signature(),
        &subord,
        session.worlds(),
        families,
        worlds,
    ) {
        Ok(()) => Ok(()),
        Err(WorldFault::Fault { clause, subgoal }) => {
            Err(clause_fault(alloc, session, first, &clause, subgoal))
        }
        Err(WorldFault::TooDeep) => Err(Refusal::TooDeep(first)),
        Err(WorldFault::NoMemory) => Err(Refusal::Memory),
    }
}

// Keeps the worlds of families, and reports them. After want of memory nothing has changed.
fn keep(
    alloc: Global,
    session: &mut Session,
    labels: &[ExtName],
    applications: &[Application],
    families: &[ConstId],
    worlds: &Worlds,
) -> Result<Report, AllocError>
    requires { AreAmong session.old.checked.blocks (worlds_of worlds.now) }
    ensures says { IfOk result (λ report. reported report ≡ lines_alone (told session.old (worlds_line labels.now (map application_of applications.now)))) }
    ensures keeps { OnOk result (session.new ≡ with_worlds session.old (map (λ f. f.0) families.now) (worlds_of worlds.now)) }
    ensures err { OnErr result (session.new ≡ session.old) }
{
    let line = worlds_line(alloc, labels, applications)?;
    let report = told(alloc, session, line);
    session.set_worlds(alloc, families, worlds)?;
    Ok(report)
}

/// Gives families their worlds. After a refusal nothing has changed.
pub fn set_worlds(
    alloc: Global,
    session: &mut Session,
    first: Place,
    labels: &[ExtName],
    patterns: &[ExtPattern],
) -> Result<Report, Refusal>
    ensures ok { IfOk result (λ report. SetsWorlds session.old labels.now (map call_of patterns.now) (reported report) session.new) }
    ensures err { OnErr result (session.new ≡ session.old) }
    ensures cause { IfErr result (IsNotWorlded session.old labels.now (map call_of patterns.now) first) }
{
    let applications = match applications_of(alloc, patterns) {
        Ok(applications) => applications,
        Err(_) => return Err(Refusal::Memory),
    };
    let (families, worlds) = match given(alloc, session, first, labels, patterns, &applications) {
        Ok(given) => given,
        Err(refusal) => return Err(refusal),
    };
    match worlded(alloc, session, first, &families, &worlds) {
        Ok(()) => {}
        Err(refusal) => return Err(refusal),
    }
    match keep(alloc, session, labels, &applications, &families, &worlds) {
        Ok(report) => Ok(report),
        Err(_) => Err(Refusal::Memory),
    }
}
