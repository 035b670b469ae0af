//! Declarations of entries: reconstructed, kept and reported.
ghost use Rattle.std.specs.Prelude.{◌≡◌, IfOk, IfErr, OnErr, OnOk};
ghost use Rattle.tw_parse.specs.View.{declaration_of};
ghost use Rattle.tw_recon.specs.Reconstruction.{IsReconstructed};
ghost use Rattle.tw_signature.specs.View.{entry_of};
ghost use Rattle.lf.specs.Entries.{signature_of, IsCanonicalEntry};
ghost use Rattle.tw_print.specs.ShowEnv.{scene_of};
ghost use Rattle.tw_decl.specs.View.{scene_of as scene_of_view};
ghost use Rattle.tw_decl.specs.Declaration.{Enters, entry_line, entry_report, is_unnamed, keeping};
ghost use Rattle.tw_decl.specs.Obstacles.{IsNotEntered};
ghost use Rattle.tw_decl.specs.Reports.{reported};
ghost use Rattle.tw_decl.specs.Steps.{IsRefusedFor, ShowsLeft, ShowsType};

use crate::refusal::Refusal;
use crate::report::{REPORTS_FROM, Report, lines_alone};
use crate::session::Session;
use std::alloc::{AllocError, Global};
use tw_equation::show_equation;
use tw_fixity::Name;
use tw_lexer::Place;
use tw_metas::LeftEquation;
use tw_parse::ExtDecl;
use tw_print::{ShowEnv, show_entry};
use tw_recon::{ReconFault, reconstruct};
use tw_signature::Entry;

/// What texts depend on.
pub fn environment(session: &Session) -> ShowEnv<'_>
    ensures { scene_of result ≡ scene_of_view session.now }
{
    ShowEnv {
        sig: session.signature(),
        fixities: session.fixities(),
        names: session.names(),
        implicit: session.parameters().implicit,
    }
}

// A form that isn't known stands here: `type` is shown.
fn no_type(alloc: Global, at: Place) -> Refusal
    ensures { ShowsType at result }
{
    match Name::from_text(alloc, "type") {
        Ok(shown) => Refusal::Unsupported(at, shown),
        Err(_) => Refusal::Memory,
    }
}

/// The refusal of a declaration of which an equation is left.
pub fn leftover(alloc: Global, session: &Session, first: Place, left: &LeftEquation) -> Refusal
    ensures { ShowsLeft session.now first left.now result }
{
    match show_equation(alloc, &environment(session), left) {
        Ok(text) => Refusal::Leftover(first, text),
        Err(_) => Refusal::Memory,
    }
}

/// The refusal of a declaration whose reconstruction has a fault, where its first token stands here.
pub fn not_reconstructed(
    alloc: Global,
    session: &Session,
    first: Place,
    fault: ReconFault,
) -> Refusal
    ensures { IsRefusedFor session.now first fault result }
{
    match fault {
        ReconFault::Unknown(name, place) => Refusal::Unknown(place, name),
        ReconFault::TypeLevel(None) => no_type(alloc, first),
        ReconFault::TypeLevel(Some(place)) => no_type(alloc, place),
        ReconFault::Loose => Refusal::Loose(first),
        ReconFault::Mismatch => Refusal::Mismatch(first),
        ReconFault::Leftover(left) => leftover(alloc, session, first, &left),
        ReconFault::TooDeep => Refusal::TooDeep(first),
        ReconFault::NoMemory => Refusal::Memory,
    }
}

// The line of an entry that is kept.
fn line_of(alloc: Global, session: &Session, entry: &Entry) -> Result<Vec<u8>, AllocError>
    requires { IsCanonicalEntry (signature_of session.now.signature) (entry_of entry.now) }
    ensures { IfOk result (λ line. line.items ≡ entry_line session.now (entry_of entry.now)) }
{
    let mut text = show_entry(alloc, &environment(session), entry)?;
    text.push(b'\n')?;
    Ok(text)
}

/// What is reported of an entry that is kept.
pub fn report_of(alloc: Global, session: &Session, entry: &Entry) -> Result<Report, AllocError>
    requires { IsCanonicalEntry (signature_of session.now.signature) (entry_of entry.now) }
    ensures { IfOk result (λ report. reported report ≡ entry_report session.now (entry_of entry.now)) }
{
    if session.parameters().chatter < REPORTS_FROM {
        return Ok(lines_alone(Vec::new(alloc)));
    }
    let text = line_of(alloc, session, entry)?;
    Ok(lines_alone(text))
}

/// The entry of a declaration: what it leaves out is reconstructed.
pub fn given(
    alloc: Global,
    session: &Session,
    first: Place,
    declaration: &ExtDecl,
) -> Result<Entry, Refusal>
    ensures reconstructs { IfOk result (λ e. IsReconstructed session.now.signature (declaration_of declaration.now) (entry_of e)) }
    ensures stands { IfOk result (λ e. IsCanonicalEntry (signature_of session.now.signature) (entry_of e)) }
    ensures cause { IfErr result (IsNotEntered session.now (declaration_of declaration.now) first) }
{
    match reconstruct(alloc, session.signature(), declaration) {
        Ok(entry) => Ok(entry),
        Err(fault) => Err(not_reconstructed(alloc, session, first, fault)),
    }
}

// Whether it is a definition without a name.
fn is_unnamed(declaration: &ExtDecl) -> bool
    ensures { result ≡ is_unnamed (declaration_of declaration.now) }
{
    matches!(declaration, ExtDecl::Define(None, _, _, _))
}

// Keeps the entry of a declaration, and reports it. Without memory nothing has changed.
fn keep(
    alloc: Global,
    session: &mut Session,
    declaration: &ExtDecl,
    entry: Entry,
) -> Result<Report, AllocError>
    requires { IsCanonicalEntry (signature_of session.old.signature) (entry_of entry) }
    ensures says { IfOk result (λ report. reported report ≡ entry_report session.old (entry_of entry)) }
    ensures keeps { OnOk result (session.new ≡ keeping session.old (declaration_of declaration.now) (entry_of entry)) }
    ensures err { OnErr result (session.new ≡ session.old) }
{
    let report = report_of(alloc, session, &entry)?;
    if !is_unnamed(declaration) {
        session.keep(alloc, entry)?;
    }
    Ok(report)
}

/// Enters what is declared. After a refusal nothing has changed.
pub fn enter(
    alloc: Global,
    session: &mut Session,
    first: Place,
    declaration: &ExtDecl,
) -> Result<Report, Refusal>
    ensures ok { IfOk result (λ report. Enters session.old (declaration_of declaration.now) (reported report) session.new) }
    ensures err { OnErr result (session.new ≡ session.old) }
    ensures cause { IfErr result (IsNotEntered session.old (declaration_of declaration.now) first) }
{
    let entry = match given(alloc, session, first, declaration) {
        Ok(entry) => entry,
        Err(refusal) => return Err(refusal),
    };
    match keep(alloc, session, declaration, entry) {
        Ok(report) => Ok(report),
        Err(_) => Err(Refusal::Memory),
    }
}
