//! Modes: what a declaration of them asks of its family, and its line.
ghost use Rattle.std.specs.Prelude.{◌≡◌, ◌↔◌, ◌++◌, codes, decimal, false, map, true, IfOk, IsTrue, None, Some};
ghost use Rattle.lf.specs.Entries.{entry as entry_numbered};
ghost use Rattle.tw_clause.specs.View.{mark_of as plain_mark, name_of};
ghost use Rattle.tw_names.specs.Earliest.{earliest};
ghost use Rattle.tw_names.specs.Unknown.{unknown_in};
ghost use Rattle.tw_parse.specs.View.{declaration_of};
ghost use Rattle.tw_parse_checks.specs.Checks.{check_of};
ghost use Rattle.tw_print.specs.Names.{constant_word, is_plain, name_in};
ghost use Rattle.tw_names.specs.declared.unknown.Mention.{Mention as PlainMention};
ghost use Rattle.tw_signature.specs.Names.{number_of};
ghost use Rattle.tw_decl.specs.Applications.{IsItsLabel, unknown_besides};
ghost use Rattle.tw_decl.specs.Labels.{is_label};
ghost use Rattle.tw_decl.specs.Modes.{clause_word, mark_of, mark_word, mode_line};
ghost use Rattle.tw_decl.specs.Steps.{application_of};
ghost use Rattle.tw_decl.specs.View.{scene_of};

use crate::applications::{Application, family_words, first_unknown};
use crate::labels::is_label;
use crate::session::Session;
use std::alloc::{AllocError, Global};
use tw_clause::{ClauseName, Mark3};
use tw_fixity::Name;
use tw_names::{Mention, first_mention};
use tw_parse::{ExtDecl, ExtName};
use tw_parse_checks::{ExtCheck, ExtMark};
use tw_signature::Signature;
use tw_terms::ConstId;

/// The mark that is written.
pub fn mark_of(mark: ExtMark) -> Mark3
    ensures { plain_mark result ≡ mark_of mark }
{
    match mark {
        ExtMark::Input => Mark3::Plus,
        ExtMark::Output => Mark3::Minus,
        ExtMark::Free => Mark3::Free,
    }
}

/// The marks that are written. Fails only for want of memory.
pub fn marks_of(alloc: Global, written: &[ExtMark]) -> Result<Vec<Mark3>, AllocError>
    ensures { IfOk result (λ marks. map plain_mark marks.items ≡ map mark_of written.now) }
{
    let mut marks = Vec::new(alloc);
    for mark in written {
        marks.push(mark_of(*mark))?;
    }
    Ok(marks)
}

// The first name of a declaration that names nothing.
fn unknown_in(
    alloc: Global,
    signature: &Signature,
    declaration: &ExtDecl,
) -> Result<Option<Mention>, AllocError>
    ensures { IfOk result (λ m. m ≡ earliest None (unknown_in signature.now (declaration_of declaration.now))) }
{
    match declaration {
        ExtDecl::Declare(_, _, term) => first_mention(alloc, signature, &None, term),
        ExtDecl::Define(_, ty, term, _) => first_mention(alloc, signature, ty, term),
        ExtDecl::NamePref(_, _, _) | ExtDecl::Fixity(_, _) => Ok(None),
    }
}

/// The first name of a check, beside its families, that names nothing. Fails only for want of memory.
pub fn unknown_besides(
    alloc: Global,
    session: &Session,
    check: &ExtCheck,
) -> Result<Option<Mention>, AllocError>
    ensures { IfOk result (λ m. m ≡ earliest None (unknown_besides session.now (check_of check.now))) }
{
    match check {
        ExtCheck::ModeFull(_, _, _, declaration) => {
            unknown_in(alloc, session.signature(), declaration)
        }
        ExtCheck::Worlds(labels, _) => first_unknown(alloc, session, labels),
        ExtCheck::ModeShort(_, _) | ExtCheck::Terminates(_, _) | ExtCheck::Block(_, _, _) => {
            Ok(None)
        }
    }
}

// Whether a name stands where this family does, and a block alone has it.
fn is_label_at(session: &Session, family: &ExtName, mention: &Mention) -> bool
    ensures { IsTrue result ↔ ((mention.now.at ≡ family.now.at) × (is_label session.now.checked.blocks family.now.name ≡ true) × (number_of session.now.signature family.now.name ≡ None)) }
{
    mention.at == family.at
        && is_label(session.blocks(), &family.name)
        && session.signature().lookup(&family.name).is_none()
}

/// Whether it is the name of a full form's family, which a block alone has.
pub fn is_its_label(session: &Session, check: &ExtCheck, mention: &Option<Mention>) -> bool
    ensures yes { result ≡ true → (m : PlainMention) × (mention.now ≡ Some m) × IsItsLabel session.now (check_of check.now) m }
    ensures no { result ≡ false → (m : PlainMention) → mention.now ≡ Some m → IsItsLabel session.now (check_of check.now) m → ⊥ }
{
    match (check, mention) {
        (ExtCheck::ModeFull(_, family, _, _), Some(mention)) => {
            is_label_at(session, family, mention)
        }
        _ => false,
    }
}

// The name of a constant, which is empty where no entry has this number.
fn name_of_constant(session: &Session, id: ConstId) -> &[u8]
    ensures { result.now ≡ name_in (entry_numbered session.now.signature id.0) }
{
    match session.signature().entry(id) {
        Some(entry) => entry.name.as_bytes(),
        None => b"",
    }
}

// Whether a constant is the newest of its name.
fn is_plain(session: &Session, id: ConstId) -> bool
    ensures { result ≡ is_plain (scene_of session.now) id.0 }
{
    match session
        .signature()
        .lookup_bytes(name_of_constant(session, id))
    {
        Some(newest) => newest.0 == id.0,
        None => false,
    }
}

// The name of a constant as it is shown: between percent signs where it is shadowed. Fails only for want of memory.
fn constant_word(alloc: Global, session: &Session, id: ConstId) -> Result<Vec<u8>, AllocError>
    ensures { IfOk result (λ word. word.items ≡ constant_word (scene_of session.now) id.0) }
{
    let name = name_of_constant(session, id);
    if is_plain(session, id) {
        return Vec::from_slice(alloc, name);
    }
    let mut word = Vec::from_slice(alloc, b"%")?;
    word.extend_from_slice(name)?;
    word.push(b'%')?;
    Ok(word)
}

/// `mode` and a family. Fails only for want of memory.
pub fn mode_words(alloc: Global, session: &Session, family: ConstId) -> Result<Vec<u8>, AllocError>
    ensures { IfOk result (λ words. words.items ≡ codes "mode " ++ constant_word (scene_of session.now) family.0) }
{
    let mut words = b"mode ".to_vec(alloc)?;
    let family = constant_word(alloc, session, family)?;
    words.extend_from_slice(&family)?;
    Ok(words)
}

/// The name of a clause as it is shown. Fails only for want of memory.
pub fn clause_word(
    alloc: Global,
    session: &Session,
    clause: &ClauseName,
) -> Result<Vec<u8>, AllocError>
    ensures { IfOk result (λ word. word.items ≡ clause_word (scene_of session.now) (name_of clause.now)) }
{
    match clause {
        ClauseName::Constant(id) => constant_word(alloc, session, *id),
        ClauseName::BlockEntry(label, entry) => entry_word(alloc, label, *entry),
    }
}

// The label of a block, and the number of an entry.
fn entry_word(alloc: Global, label: &Name, entry: u64) -> Result<Vec<u8>, AllocError>
    ensures { IfOk result (λ word. word.items ≡ label.now ++ codes "/" ++ decimal entry) }
{
    let mut word = Vec::from_slice(alloc, label.as_bytes())?;
    let number = format!(in alloc; "/{entry}")?;
    word.extend_from_slice(number.as_bytes())?;
    Ok(word)
}

// A mark behind one space.
fn mark_word(mark: Mark3) -> &'static [u8]
    ensures { result.now ≡ mark_word (plain_mark mark) }
{
    match mark {
        Mark3::Plus => b" +",
        Mark3::Minus => b" -",
        Mark3::Free => b" *",
    }
}

/// The line of a declaration of modes. Fails only for want of memory.
pub fn mode_line(
    alloc: Global,
    applications: &[Application],
    marks: &[Mark3],
) -> Result<Vec<u8>, AllocError>
    ensures { IfOk result (λ line. line.items ≡ mode_line (map application_of applications.now) (map plain_mark marks.now)) }
{
    let mut line = family_words(alloc, b"%mode", applications)?;
    for mark in marks {
        line.extend_from_slice(mark_word(*mark))?;
    }
    line.extend_from_slice(b".\n")?;
    Ok(line)
}
