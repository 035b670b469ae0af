//! Declarations of modes: the family's clauses are checked by them, and they are kept and reported.
ghost use Rattle.std.specs.Prelude.{◌≡◌, ◌∷◌, [], map, IfErr, IfOk, OnErr, OnOk};
ghost use Rattle.lf.specs.Entries.{entry as entry_numbered};
ghost use Rattle.tw_clause.specs.View.{mark_of as plain_mark, name_of};
ghost use Rattle.tw_parse.specs.View.{declaration_of};
ghost use Rattle.tw_parse_checks.specs.Checks.{check_of};
ghost use Rattle.tw_signature.specs.View.{entry_of};
ghost use Rattle.tw_recon.specs.Reconstruction.{IsReconstructed};
ghost use Rattle.tw_decl.specs.Declaration.{SetsMode};
ghost use Rattle.tw_decl.specs.Applications.{IsApplied, applications as applications_in};
ghost use Rattle.tw_decl.specs.Modes.{GivesFull, GivesMarks, IsMode, IsModed, completed, mark_of, mode_line};
ghost use Rattle.tw_decl.specs.Obstacles.{IsNotFull, IsNotModed, IsNotSet};
ghost use Rattle.tw_decl.specs.Reports.{lines_alone, reported};
ghost use Rattle.tw_decl.specs.Steps.{FullOutcome, ShowsFault, ShowsUnmoded, application_of};
ghost use Rattle.tw_decl.specs.View.{told, with_mode};

use crate::applications::{Application, applications, applied};
use crate::entering::given;
use crate::modes::{clause_word, is_its_label, marks_of, mode_line, mode_words, unknown_besides};
use crate::refusal::Refusal;
use crate::report::{Report, told};
use crate::session::Session;
use std::alloc::{AllocError, Global};
use tw_clause::{ClauseName, Mark3};
use tw_lexer::Place;
use tw_mode::{ModeFault, check_mode, full_marks, short_marks};
use tw_parse::ExtDecl;
use tw_parse_checks::{ExtCheck, ExtMark};
use tw_signature::{Body, Entry};
use tw_terms::ConstId;

// The family that a mode's check names with just its arguments, where each name is known.
fn family_of(
    alloc: Global,
    session: &Session,
    first: Place,
    check: &ExtCheck,
    applications: &[Application],
) -> Result<ConstId, Refusal>
    requires mode { IsMode (check_of check.now) }
    requires named { map application_of applications.now ≡ applications_in (check_of check.now) }
    ensures applied { IfOk result (λ id. IsApplied session.now (check_of check.now) (id.0 ∷ [])) }
    ensures cause { IfErr result (IsNotSet session.now (check_of check.now) first) }
{
    let found = match unknown_besides(alloc, session, check) {
        Ok(found) => found,
        Err(_) => return Err(Refusal::Memory),
    };
    if is_its_label(session, check, &found) {
        return Err(Refusal::BadDecl(first));
    }
    let families = match applied(alloc, session, first, found, applications) {
        Ok(families) => families,
        Err(refusal) => return Err(refusal),
    };
    match families.as_slice() {
        [family] => Ok(*family),
        _ => unreachable!(),
    }
}

// The marks that the short form gives. Fails only for want of memory.
fn short(
    alloc: Global,
    session: &Session,
    family: ConstId,
    written: &[ExtMark],
) -> Result<Vec<Mark3>, AllocError>
    ensures { IfOk result (λ marks. map plain_mark marks.items ≡ completed (entry_numbered session.now.signature family.0) (map mark_of written.now)) }
{
    let explicit = marks_of(alloc, written)?;
    let Some(entry) = session.signature().entry(family) else {
        return Ok(explicit);
    };
    match &entry.body {
        Body::Family(kind) => short_marks(alloc, kind, entry.implicit, &explicit),
        Body::Constant(_) | Body::Defined { .. } => Ok(explicit),
    }
}

// The marks that the full form gives by what its constant is reconstructed to.
fn marks_by(
    alloc: Global,
    written: &[ExtMark],
    entry: &Entry,
) -> Result<Option<Vec<Mark3>>, AllocError>
    ensures { IfOk result (FullOutcome (map mark_of written.now) (entry_of entry.now)) }
{
    let Body::Constant(ty) = &entry.body else {
        return Ok(None);
    };
    let marks = marks_of(alloc, written)?;
    full_marks(alloc, ty, entry.implicit, &marks)
}

// The marks that the full form gives.
fn full(
    alloc: Global,
    session: &Session,
    first: Place,
    written: &[ExtMark],
    declaration: &ExtDecl,
) -> Result<Vec<Mark3>, Refusal>
    ensures gives { IfOk result (λ marks. GivesFull session.now.signature (map mark_of written.now) (declaration_of declaration.now) (map plain_mark marks.items)) }
    ensures cause { IfErr result (IsNotFull session.now (declaration_of declaration.now) first) }
{
    let entry = match given(alloc, session, first, declaration) {
        Ok(entry) => entry,
        Err(refusal) => return Err(refusal),
    };
    match marks_by(alloc, written, &entry) {
        Ok(Some(marks)) => Ok(marks),
        Ok(None) => Err(Refusal::BadDecl(first)),
        Err(_) => Err(Refusal::Memory),
    }
}

// The marks that a check gives the family that it names with just its arguments.
fn marks(
    alloc: Global,
    session: &Session,
    first: Place,
    check: &ExtCheck,
    family: ConstId,
) -> Result<Vec<Mark3>, Refusal>
    requires mode { IsMode (check_of check.now) }
    requires applied { IsApplied session.now (check_of check.now) (family.0 ∷ []) }
    ensures gives { IfOk result (λ marks. GivesMarks session.now.signature (check_of check.now) family.0 (map plain_mark marks.items)) }
    ensures cause { IfErr result (IsNotSet session.now (check_of check.now) first) }
{
    match check {
        ExtCheck::ModeShort(_, written) => match short(alloc, session, family, written) {
            Ok(marks) => Ok(marks),
            Err(_) => Err(Refusal::Memory),
        },
        ExtCheck::ModeFull(written, _, _, declaration) => {
            match full(alloc, session, first, written, declaration) {
                Ok(marks) => Ok(marks),
                Err(refusal) => Err(refusal),
            }
        }
        ExtCheck::Terminates(_, _) | ExtCheck::Worlds(_, _) | ExtCheck::Block(_, _, _) => {
            unreachable!()
        }
    }
}

/// A family without a mode.
pub fn no_mode(alloc: Global, session: &Session, first: Place, family: ConstId) -> Refusal
    ensures { ShowsUnmoded session.now first family.0 result }
{
    match mode_words(alloc, session, family) {
        Ok(text) => Refusal::NotDeclared(first, text),
        Err(_) => Refusal::Memory,
    }
}

// A clause that isn't well-moded.
fn clause_fault(
    alloc: Global,
    session: &Session,
    first: Place,
    clause: &ClauseName,
    subgoal: u64,
    argument: u64,
) -> Refusal
    ensures { ShowsFault session.now first (name_of clause.now) subgoal argument result }
{
    match clause_word(alloc, session, clause) {
        Ok(word) => Refusal::ModeFault(first, word, subgoal, argument),
        Err(_) => Refusal::Memory,
    }
}

// Tests that the family's clauses are well-moded by these marks.
fn moded(
    alloc: Global,
    session: &Session,
    first: Place,
    family: ConstId,
    marks: &[Mark3],
) -> Result<(), Refusal>
    ensures moded { OnOk result (IsModed session.now family.0 (map plain_mark marks.now)) }
    ensures cause { IfErr result (IsNotModed session.now family.0 (map plain_mark marks.now) first) }
{
    match check_mode(alloc, session.signature(), session.modes(), family, marks) {
        Ok(()) => Ok(()),
        Err(ModeFault::NoMode(other)) => Err(no_mode(alloc, session, first, other)),
        Err(
            ModeFault::Fault {
                clause,
                subgoal,
                argument,
            },
        ) => Err(clause_fault(alloc, session, first, &clause, subgoal, argument)),
        Err(ModeFault::NoMemory) => Err(Refusal::Memory),
    }
}

// Keeps the marks of a family, and reports them. After want of memory nothing has changed.
fn keep(
    alloc: Global,
    session: &mut Session,
    applications: &[Application],
    family: ConstId,
    marks: Vec<Mark3>,
) -> Result<Report, AllocError>
    ensures says { IfOk result (λ report. reported report ≡ lines_alone (told session.old (mode_line (map application_of applications.now) (map plain_mark marks.items)))) }
    ensures keeps { OnOk result (session.new ≡ with_mode session.old family.0 (map plain_mark marks.items)) }
    ensures err { OnErr result (session.new ≡ session.old) }
{
    let line = mode_line(alloc, applications, &marks)?;
    let report = told(alloc, session, line);
    session.set_mode(family, marks)?;
    Ok(report)
}

/// Gives a family its mode. After a refusal nothing has changed.
pub fn set_mode(
    alloc: Global,
    session: &mut Session,
    first: Place,
    check: &ExtCheck,
) -> Result<Report, Refusal>
    requires { IsMode (check_of check.now) }
    ensures ok { IfOk result (λ report. SetsMode session.old (check_of check.now) (reported report) session.new) }
    ensures err { OnErr result (session.new ≡ session.old) }
    ensures cause { IfErr result (IsNotSet session.old (check_of check.now) first) }
{
    let applications = match applications(alloc, check) {
        Ok(applications) => applications,
        Err(_) => return Err(Refusal::Memory),
    };
    let family = match family_of(alloc, session, first, check, &applications) {
        Ok(family) => family,
        Err(refusal) => return Err(refusal),
    };
    let given = match marks(alloc, session, first, check, family) {
        Ok(given) => given,
        Err(refusal) => return Err(refusal),
    };
    match moded(alloc, session, first, family, &given) {
        Ok(()) => {}
        Err(refusal) => return Err(refusal),
    }
    match keep(alloc, session, &applications, family, given) {
        Ok(report) => Ok(report),
        Err(_) => Err(Refusal::Memory),
    }
}
