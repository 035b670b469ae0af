//! The first name of a text that names nothing.
ghost use Rattle.std.specs.Prelude.{◌≡◌, ◌<◌, ◌+◌, List, ◌∷◌, ◌++◌, reverse, OnOk, IfOk};
ghost use Rattle.lf.specs.Entries.{Entry};
ghost use Rattle.tw_fixity.specs.Names.{Names};
ghost use Rattle.tw_parse.specs.View.{term_of};
ghost use Rattle.tw_names.specs.Scope.{binder_name, named};
ghost use Rattle.tw_names.specs.Unknown.{is_uppercase, is_no_later, unless_named, unknown_names};
ghost use Rattle.tw_names.specs.Earliest.{earliest};
ghost use Rattle.tw_names.specs.Waiting.{names_left, scope_left, size, work};

use crate::scope::{binder_name, named};
use crate::waiting::{Waiting, wait_for_binder, wait_for_both};
use std::alloc::{AllocError, Global};
use tw_fixity::{Name, Scope};
use tw_lexer::Place;
use tw_parse::ExtTerm;
use tw_signature::Signature;

/// A name where it stands.
#[derive(Drop)]
pub struct Mention {
    pub name: Name,
    pub at: Place,
}

/// The earliest of what was found before and of the unknown names of the term.
pub fn first_unknown(
    alloc: Global,
    signature: &Signature,
    scope: &mut Scope,
    term: &ExtTerm,
    before: Option<Mention>,
) -> Result<Option<Mention>, AllocError>
    ensures first { IfOk result (λ m. m ≡ earliest before (unknown_names signature.now scope.old (term_of term.now))) }
    ensures scope { OnOk result (scope.new ≡ scope.old) }
{
    let mut waiting = Vec::new(alloc);
    let mut found = before;
    waiting.push(Waiting::Term(term))?;
    while let Some(next) = waiting.pop() {
        match next {
            Waiting::Term(term) => {
                found = looked_through(alloc, signature, scope, &mut waiting, term, found)?;
            }
            Waiting::Under(name, body) => enter(alloc, scope, &mut waiting, name, body)?,
            Waiting::End => scope.pop(),
        }
    }
    Ok(found)
}

/// Goes under a binder.
#[inline(never)]
fn enter<'a>(
    alloc: Global,
    scope: &mut Scope,
    waiting: &mut Vec<Waiting<'a>>,
    name: &Name,
    body: &'a ExtTerm,
) -> Result<(), AllocError>
    ensures names { (es : List Entry) → OnOk result (names_left es scope.new (reverse waiting.new.items) ≡ unknown_names es (binder_name name.now ∷ scope.old) (term_of body.now) ++ names_left es scope.old (reverse waiting.old.items)) }
    ensures scope { OnOk result (scope_left scope.new (reverse waiting.new.items) ≡ scope_left scope.old (reverse waiting.old.items)) }
    ensures work { OnOk result (work waiting.new.items ≡ size (term_of body.now) + 1 + work waiting.old.items) }
{
    scope.push(binder_name(alloc, name)?)?;
    waiting.push(Waiting::End)?;
    waiting.push(Waiting::Term(body))?;
    Ok(())
}

/// The earlier of what was found before and the term itself, where it is an unknown name. What stands in it waits.
#[inline(never)]
fn looked_through<'a>(
    alloc: Global,
    signature: &Signature,
    scope: &Scope,
    waiting: &mut Vec<Waiting<'a>>,
    term: &'a ExtTerm,
    before: Option<Mention>,
) -> Result<Option<Mention>, AllocError>
    ensures names { IfOk result (λ m. earliest m (names_left signature.now scope.now (reverse waiting.new.items)) ≡ earliest before (unknown_names signature.now scope.now (term_of term.now) ++ names_left signature.now scope.now (reverse waiting.old.items))) }
    ensures scope { OnOk result ((N : Names) → scope_left N (reverse waiting.new.items) ≡ scope_left N (reverse waiting.old.items)) }
    ensures work { OnOk result (work waiting.new.items < size (term_of term.now) + work waiting.old.items) }
{
    match term {
        ExtTerm::Ident(name, at) => mentioned(alloc, signature, scope, name, *at, before),
        ExtTerm::Hole(_) | ExtTerm::Star => Ok(before),
        ExtTerm::Arrow(domain, range) => {
            wait_for_both(waiting, domain, range)?;
            Ok(before)
        },
        ExtTerm::Pi(name, _, domain, body) => {
            wait_for_binder(waiting, name, domain, body)?;
            Ok(before)
        }
        ExtTerm::Lam(name, _, domain, body) => {
            wait_for_binder(waiting, name, domain, body)?;
            Ok(before)
        }
        ExtTerm::App(function, argument) => {
            wait_for_both(waiting, argument, function)?;
            Ok(before)
        }
        ExtTerm::Ascribe(inner, ty) => {
            wait_for_both(waiting, ty, inner)?;
            Ok(before)
        }
    }
}

/// The earlier of what was found before and this name, if it is unknown.
fn mentioned(
    alloc: Global,
    signature: &Signature,
    scope: &Scope,
    name: &Name,
    at: Place,
    before: Option<Mention>,
) -> Result<Option<Mention>, AllocError>
    ensures { IfOk result (λ m. m ≡ earliest before (unless_named (named signature.now scope.now name.now) (record { name = name.now; at = at }))) }
{
    if named(signature, scope, name).is_some() {
        return Ok(before);
    }
    if is_uppercase(name) {
        return Ok(before);
    }
    if let Some(found) = before {
        if is_no_later(found.at, at) {
            return Ok(Some(found));
        }
    }
    Ok(Some(Mention {
        name: name.copy(alloc)?,
        at,
    }))
}

/// Whether the name may be that of a free variable.
pub fn is_uppercase(name: &Name) -> bool
    ensures { result ≡ is_uppercase name.now }
{
    match name.as_bytes().first() {
        Some(byte) => *byte == b'_' || (b'A' <= *byte && *byte <= b'Z'),
        None => false,
    }
}

/// Whether the first place doesn't come after the second.
pub fn is_no_later(first: Place, second: Place) -> bool
    ensures { result ≡ is_no_later first second }
{
    first.line < second.line || (first.line == second.line && first.column <= second.column)
}
