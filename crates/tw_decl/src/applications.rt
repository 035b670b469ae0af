//! The families that a check names, each on so many arguments.
ghost use Rattle.std.specs.Prelude.{◌≡◌, ◌∷◌, ◌++◌, [], None, Some, map, IfErr, IfOk, OnOk};
ghost use Rattle.lf.specs.Entries.{entry as entry_numbered};
ghost use Rattle.tw_names.specs.Earliest.{earlier, earliest};
ghost use Rattle.tw_parse_checks.specs.Checks.{Check, call_of, check_of};
ghost use Rattle.tw_names.specs.declared.unknown.Mention.{Mention as PlainMention};
ghost use Rattle.tw_decl.specs.Applications.{IsApplied, IsItsLabel, application_of as application_of_call, applications as applications_in, families_named, on, takes_just, unknown, unknown_besides, unknown_names};
ghost use Rattle.tw_decl.specs.Obstacles.{IsNotApplied};
ghost use Rattle.tw_decl.specs.Operators.{spaced};
ghost use Rattle.tw_decl.specs.Steps.{AreTaken, IsTaken, application_of};

use crate::labels::is_known;
use crate::preferences::is_family;
use crate::refusal::Refusal;
use crate::session::Session;
use std::alloc::{AllocError, Global};
use tw_lexer::Place;
use tw_names::{Mention, is_no_later};
use tw_parse::ExtName;
use tw_parse_checks::{ExtCheck, ExtPattern};
use tw_signature::Signature;
use tw_terms::ConstId;

/// A family, and how many arguments of it are written.
#[derive(Clone, Copy)]
pub struct Application<'a> {
    pub family: &'a ExtName,
    pub count: usize,
}

// One family on its arguments.
fn one(alloc: Global, family: &ExtName, count: usize) -> Result<Vec<Application<'_>>, AllocError>
    ensures { IfOk result (λ v. map application_of v.items ≡ on family.now count ∷ []) }
{
    let mut applications = Vec::new(alloc);
    applications.push(Application { family, count })?;
    Ok(applications)
}

/// Those of call patterns. Fails only for want of memory.
pub fn applications_of<'a>(
    alloc: Global,
    patterns: &'a [ExtPattern],
) -> Result<Vec<Application<'a>>, AllocError>
    ensures { IfOk result (λ v. map application_of v.items ≡ map application_of_call (map call_of patterns.now)) }
{
    let mut applications = Vec::new(alloc);
    for pattern in patterns {
        applications.push(Application {
            family: &pattern.family,
            count: pattern.names.len(),
        })?;
    }
    Ok(applications)
}

/// Those of a check. Fails only for want of memory.
pub fn applications(alloc: Global, check: &ExtCheck) -> Result<Vec<Application<'_>>, AllocError>
    ensures { IfOk result (λ v. map application_of v.items ≡ applications_in (check_of check.now)) }
{
    match check {
        ExtCheck::ModeShort(family, marks) => one(alloc, family, marks.len()),
        ExtCheck::ModeFull(_, family, count, _) => one(alloc, family, *count),
        ExtCheck::Terminates(_, patterns) => applications_of(alloc, patterns),
        ExtCheck::Worlds(_, patterns) => applications_of(alloc, patterns),
        ExtCheck::Block(_, _, _) => Ok(Vec::new(alloc)),
    }
}

// The earlier of what was found before and this name.
fn earlier(alloc: Global, before: Option<Mention>, name: &ExtName) -> Result<Mention, AllocError>
    ensures { IfOk result (λ m. m ≡ earlier before (record { name = name.now.name; at = name.now.at })) }
{
    if let Some(found) = before {
        if is_no_later(found.at, name.at) {
            return Ok(found);
        }
    }
    Ok(Mention {
        name: name.name.copy(alloc)?,
        at: name.at,
    })
}

// The earlier of what was found before and this name, if nothing has it.
fn unless_known(
    alloc: Global,
    session: &Session,
    before: Option<Mention>,
    name: &ExtName,
) -> Result<Option<Mention>, AllocError>
    ensures { IfOk result (λ m. m ≡ earliest before (unknown session.now name.now)) }
{
    if is_known(session, &name.name) {
        return Ok(before);
    }
    Ok(Some(earlier(alloc, before, name)?))
}

/// The first of these names that nothing has. Fails only for want of memory.
pub fn first_unknown(
    alloc: Global,
    session: &Session,
    names: &[ExtName],
) -> Result<Option<Mention>, AllocError>
    ensures { IfOk result (λ m. m ≡ earliest None (unknown_names session.now names.now)) }
{
    let mut found = None;
    for name in names {
        found = unless_known(alloc, session, found, name)?;
    }
    Ok(found)
}

// The earliest of what was found before and the families whose names nothing has.
fn first_unknown_family(
    alloc: Global,
    session: &Session,
    before: Option<Mention>,
    applications: &[Application],
) -> Result<Option<Mention>, AllocError>
    ensures { IfOk result (λ m. m ≡ earliest before (unknown_names session.now (families_named (map application_of applications.now)))) }
{
    let mut found = before;
    for application in applications {
        found = unless_known(alloc, session, found, application.family)?;
    }
    Ok(found)
}

/// Whether the entry of this number is a family with just so many explicit arguments.
pub fn takes_just(signature: &Signature, count: usize, id: ConstId) -> bool
    ensures { result ≡ takes_just count (entry_numbered signature.now id.0) }
{
    signature.is_canonical();
    let Some(entry) = signature.entry(id) else {
        return false;
    };
    is_family(signature, id) && entry.hints.len().saturating_sub(entry.implicit as usize) == count
}

// The family of this name, if it takes just so many arguments.
fn taken(signature: &Signature, application: &Application) -> Option<ConstId>
    ensures { IsTaken signature.now (application_of application.now) result }
{
    match signature.lookup(&application.family.name) {
        Some(id) if takes_just(signature, application.count, id) => Some(id),
        _ => None,
    }
}

// The families of these names, if each takes just so many arguments.
fn all_taken(
    alloc: Global,
    signature: &Signature,
    applications: &[Application],
) -> Result<Option<Vec<ConstId>>, AllocError>
    ensures { IfOk result (AreTaken signature.now (map application_of applications.now)) }
{
    let mut families = Vec::new(alloc);
    for application in applications {
        match taken(signature, application) {
            Some(id) => families.push(id)?,
            None => return Ok(None),
        }
    }
    Ok(Some(families))
}

/// The families that a check names, each with just its arguments, where each name is known; this was found before of what isn't, and it is no label in place of a family.
pub fn applied(
    alloc: Global,
    session: &Session,
    first: Place,
    before: Option<Mention>,
    applications: &[Application],
) -> Result<Vec<ConstId>, Refusal>
    ensures applied { (c : Check) → before ≡ earliest None (unknown_besides session.now c) → map application_of applications.now ≡ applications_in c → IfOk result (λ ids. IsApplied session.now c (map (λ id. id.0) ids.items)) }
    ensures cause { (c : Check) → before ≡ earliest None (unknown_besides session.now c) → ((m : PlainMention) → before ≡ Some m → IsItsLabel session.now c m → ⊥) → map application_of applications.now ≡ applications_in c → IfErr result (IsNotApplied session.now c first) }
{
    match first_unknown_family(alloc, session, before, applications) {
        Ok(None) => {}
        Ok(Some(mention)) => return Err(Refusal::Unknown(mention.at, mention.name)),
        Err(_) => return Err(Refusal::Memory),
    }
    match all_taken(alloc, session.signature(), applications) {
        Ok(Some(families)) => Ok(families),
        Ok(None) => Err(Refusal::BadDecl(first)),
        Err(_) => Err(Refusal::Memory),
    }
}

/// Puts families behind a line, each behind one space.
pub fn push_families(line: &mut Vec<u8>, applications: &[Application]) -> Result<(), AllocError>
    ensures { OnOk result (line.new.items ≡ line.old.items ++ spaced (families_named (map application_of applications.now))) }
{
    for application in applications {
        line.push(b' ')?;
        line.extend_from_slice(application.family.name.as_bytes())?;
    }
    Ok(())
}

/// A keyword, and the families behind it. Fails only for want of memory.
pub fn family_words(
    alloc: Global,
    keyword: &[u8],
    applications: &[Application],
) -> Result<Vec<u8>, AllocError>
    ensures { IfOk result (λ words. words.items ≡ keyword.now ++ spaced (families_named (map application_of applications.now))) }
{
    let mut words = keyword.to_vec(alloc)?;
    push_families(&mut words, applications)?;
    Ok(words)
}
