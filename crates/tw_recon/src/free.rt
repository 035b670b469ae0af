//! The first free variable of a text.
ghost use Rattle.std.specs.Prelude.{◌≡◌, ◌<◌, ◌+◌, ◌∷◌, ◌++◌, [], List, IfOk, MatchOption, None, OnOk, reverse};
ghost use Rattle.lf.specs.Entries.{Entry};
ghost use Rattle.tw_names.specs.Earliest.{earliest};
ghost use Rattle.tw_names.specs.Scope.{binder_name, named};
ghost use Rattle.tw_names.specs.Waiting.{size};
ghost use Rattle.tw_parse.specs.View.{term_of};
ghost use Rattle.tw_recon.specs.FreeNames.{HasNoFreeVariable, IsFirstFreeVariable, free_names, where_free};
ghost use Rattle.tw_recon.specs.Waiting.{frees_left, work};

use crate::waiting::{Waiting, wait_for_binder, wait_for_both};
use std::alloc::{AllocError, Global};
use tw_fixity::{Name, Scope};
use tw_lexer::Place;
use tw_names::{Mention, binder_name, is_no_later, is_uppercase, named};
use tw_parse::ExtTerm;
use tw_signature::Signature;

/// The free variable that stands first in the text, with its place, if there is one. Fails for want of memory alone.
pub fn first_free_variable(
    alloc: Global,
    signature: &Signature,
    text: &ExtTerm,
) -> Result<Option<Mention>, AllocError>
    ensures { IfOk result (λ m. MatchOption m (HasNoFreeVariable signature.now (term_of text.now)) (IsFirstFreeVariable signature.now (term_of text.now))) }
{
    let mut scope = Scope::new(alloc);
    let first = first_free(alloc, signature, &mut scope, text)?;
    Ok(first)
}

/// The earliest of the free variables of the term.
fn first_free(
    alloc: Global,
    signature: &Signature,
    scope: &mut Scope,
    term: &ExtTerm,
) -> Result<Option<Mention>, AllocError>
    ensures { IfOk result (λ m. m ≡ earliest None (free_names signature.now scope.old (term_of term.now))) }
{
    let mut waiting = Vec::new(alloc);
    let mut found = None;
    waiting.push(Waiting::Term(term))?;
    while let Some(next) = waiting.pop() {
        match next {
            Waiting::Term(term) => {
                found = looked_through(alloc, signature, scope, &mut waiting, term, found)?;
            }
            Waiting::Under(name, body) => enter(alloc, scope, &mut waiting, name, body)?,
            Waiting::End => scope.pop(),
        }
    }
    Ok(found)
}

/// Goes under a binder.
#[inline(never)]
fn enter<'a>(
    alloc: Global,
    scope: &mut Scope,
    waiting: &mut Vec<Waiting<'a>>,
    name: &Name,
    body: &'a ExtTerm,
) -> Result<(), AllocError>
    ensures names { (es : List Entry) → OnOk result (frees_left es scope.new (reverse waiting.new.items) ≡ free_names es (binder_name name.now ∷ scope.old) (term_of body.now) ++ frees_left es scope.old (reverse waiting.old.items)) }
    ensures work { OnOk result (work waiting.new.items ≡ size (term_of body.now) + 1 + work waiting.old.items) }
{
    scope.push(binder_name(alloc, name)?)?;
    waiting.push(Waiting::End)?;
    waiting.push(Waiting::Term(body))?;
    Ok(())
}

/// The earlier of what was found before and the term itself, where it is a free variable. What stands in it waits.
#[inline(never)]
fn looked_through<'a>(
    alloc: Global,
    signature: &Signature,
    scope: &Scope,
    waiting: &mut Vec<Waiting<'a>>,
    term: &'a ExtTerm,
    before: Option<Mention>,
) -> Result<Option<Mention>, AllocError>
    ensures names { IfOk result (λ m. earliest m (frees_left signature.now scope.now (reverse waiting.new.items)) ≡ earliest before (free_names signature.now scope.now (term_of term.now) ++ frees_left signature.now scope.now (reverse waiting.old.items))) }
    ensures work { OnOk result (work waiting.new.items < size (term_of term.now) + work waiting.old.items) }
{
    match term {
        ExtTerm::Ident(name, at) => mentioned(alloc, signature, scope, name, *at, before),
        ExtTerm::Hole(_) | ExtTerm::Star => Ok(before),
        ExtTerm::Arrow(domain, range) => {
            wait_for_both(waiting, domain, range)?;
            Ok(before)
        }
        ExtTerm::Pi(name, _, domain, body) => {
            wait_for_binder(waiting, name, domain, body)?;
            Ok(before)
        }
        ExtTerm::Lam(name, _, domain, body) => {
            wait_for_binder(waiting, name, domain, body)?;
            Ok(before)
        }
        ExtTerm::App(function, argument) => {
            wait_for_both(waiting, argument, function)?;
            Ok(before)
        }
        ExtTerm::Ascribe(inner, ty) => {
            wait_for_both(waiting, ty, inner)?;
            Ok(before)
        }
    }
}

/// The earlier of what was found before and this name, if it is a free variable.
fn mentioned(
    alloc: Global,
    signature: &Signature,
    scope: &Scope,
    name: &Name,
    at: Place,
    before: Option<Mention>,
) -> Result<Option<Mention>, AllocError>
    ensures { IfOk result (λ m. m ≡ earliest before (where_free (named signature.now scope.now name.now) (record { name = name.now; at = at }))) }
{
    if named(signature, scope, name).is_some() {
        return Ok(before);
    }
    if !is_uppercase(name) {
        return Ok(before);
    }
    if let Some(found) = before {
        if is_no_later(found.at, at) {
            return Ok(Some(found));
        }
    }
    Ok(Some(Mention {
        name: name.copy(alloc)?,
        at,
    }))
}
