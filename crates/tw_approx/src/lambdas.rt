//! Lambdas that stand at the level of types.
ghost use Rattle.std.specs.Prelude.{◌≡◌, ◌<◌, ◌+◌, ◌++◌, ◌∷◌, [], reverse, IfOk, OnOk};
ghost use Rattle.tw_approx.specs.Lambdas.{lambdas_in, lambdas_left, size_of, work};
ghost use Rattle.tw_approx.specs.Levels.{earlier, earliest, lambdas_in_domain, lambdas_in_term, lambdas_in_type};
ghost use Rattle.tw_names.specs.Waiting.{size, size_of_domain};
ghost use Rattle.tw_parse.specs.View.{boxed_domain, term_of};

use std::alloc::{AllocError, Global};
use tw_lexer::Place;
use tw_names::is_no_later;
use tw_parse::ExtTerm;

/// A text that is to be gone over, and the level at which it stands.
#[derive(Clone, Copy)]
pub enum Part<'a> {
    Term(&'a ExtTerm),
    /// A type, a family or a kind.
    Type(&'a ExtTerm),
}

/// The earliest of what was found before and of the lambdas that stand at the level of types. Parts that are still to be gone over wait on the heap.
pub fn first_lambda<'a>(
    alloc: Global,
    part: Part<'a>,
    before: Option<Place>,
) -> Result<Option<Place>, AllocError>
    ensures { IfOk result (λ p. p ≡ earliest before (lambdas_in part.entry)) }
{
    let mut waiting = Vec::new(alloc);
    let mut found = before;
    waiting.push(part)?;
    while let Some(next) = waiting.pop() {
        found = first_here(&mut waiting, next, found)?;
    }
    Ok(found)
}

/// The earlier of what was found before and the part itself, where it is such a lambda. Its own parts wait.
#[inline(never)]
fn first_here<'a>(
    waiting: &mut Vec<Part<'a>>,
    part: Part<'a>,
    before: Option<Place>,
) -> Result<Option<Place>, AllocError>
    ensures first { IfOk result (λ p. earliest p (lambdas_left (reverse waiting.new.items)) ≡ earliest before (lambdas_in part.entry ++ lambdas_left (reverse waiting.old.items))) }
    ensures work { OnOk result (work waiting.new.items < size_of part.entry + work waiting.old.items) }
{
    match part {
        Part::Term(term) => {
            open_term(waiting, term)?;
            Ok(before)
        }
        Part::Type(term) => open_type(waiting, term, before),
    }
}

/// The parts of a term wait.
#[inline(never)]
fn open_term<'a>(waiting: &mut Vec<Part<'a>>, term: &'a ExtTerm) -> Result<(), AllocError>
    ensures lambdas { OnOk result (lambdas_left (reverse waiting.new.items) ≡ lambdas_in_term (term_of term.now) ++ lambdas_left (reverse waiting.old.items)) }
    ensures work { OnOk result (work waiting.new.items < size (term_of term.now) + work waiting.old.items) }
{
    match term {
        ExtTerm::Ident(_, _) | ExtTerm::Hole(_) | ExtTerm::Star => Ok(()),
        ExtTerm::Arrow(domain, range) => wait_for(waiting, Part::Type(domain), Part::Type(range)),
        ExtTerm::Pi(_, _, domain, range) => { wait_for_domain(waiting, domain, Part::Type(range)) }
        ExtTerm::Lam(_, _, domain, body) => wait_for_domain(waiting, domain, Part::Term(body)),
        ExtTerm::App(function, argument) => {
            wait_for(waiting, Part::Term(argument), Part::Term(function))
        }
        ExtTerm::Ascribe(inner, ty) => wait_for(waiting, Part::Type(ty), Part::Term(inner)),
    }
}

/// The earlier of what was found before and a type itself, where it is a lambda. Its parts wait.
#[inline(never)]
fn open_type<'a>(
    waiting: &mut Vec<Part<'a>>,
    term: &'a ExtTerm,
    before: Option<Place>,
) -> Result<Option<Place>, AllocError>
    ensures first { IfOk result (λ p. earliest p (lambdas_left (reverse waiting.new.items)) ≡ earliest before (lambdas_in_type (term_of term.now) ++ lambdas_left (reverse waiting.old.items))) }
    ensures work { OnOk result (work waiting.new.items < size (term_of term.now) + work waiting.old.items) }
{
    match term {
        ExtTerm::Ident(_, _) | ExtTerm::Hole(_) | ExtTerm::Star => Ok(before),
        ExtTerm::Arrow(domain, range) => {
            wait_for(waiting, Part::Type(domain), Part::Type(range))?;
            Ok(before)
        }
        ExtTerm::Pi(_, _, domain, range) => {
            wait_for_domain(waiting, domain, Part::Type(range))?;
            Ok(before)
        }
        ExtTerm::Lam(_, at, domain, body) => {
            wait_for_domain(waiting, domain, Part::Type(body))?;
            Ok(Some(earlier(before, *at)))
        }
        ExtTerm::App(function, argument) => {
            wait_for(waiting, Part::Term(argument), Part::Type(function))?;
            Ok(before)
        }
        ExtTerm::Ascribe(inner, kind) => {
            wait_for(waiting, Part::Type(kind), Part::Type(inner))?;
            Ok(before)
        }
    }
}

/// Two parts wait, the first to be gone over before the second. The last one is gone over next.
#[inline(never)]
fn wait_for<'a>(
    waiting: &mut Vec<Part<'a>>,
    first: Part<'a>,
    second: Part<'a>,
) -> Result<(), AllocError>
    ensures { OnOk result (waiting.new.items ≡ waiting.old.items ++ second.entry ∷ first.entry ∷ []) }
{
    waiting.push(second)?;
    waiting.push(first)?;
    Ok(())
}

/// The type at a binder waits, if it is written, and what stands under the binder.
#[inline(never)]
fn wait_for_domain<'a>(
    waiting: &mut Vec<Part<'a>>,
    domain: &'a Option<Box<ExtTerm>>,
    body: Part<'a>,
) -> Result<(), AllocError>
    ensures lambdas { OnOk result (lambdas_left (reverse waiting.new.items) ≡ lambdas_in_domain (boxed_domain domain.now) ++ (lambdas_in body.entry ++ lambdas_left (reverse waiting.old.items))) }
    ensures work { OnOk result (work waiting.new.items ≡ size_of_domain (boxed_domain domain.now) + size_of body.entry + work waiting.old.items) }
{
    match domain {
        Some(ty) => wait_for(waiting, Part::Type(ty), body),
        None => Ok(waiting.push(body)?),
    }
}

fn earlier(before: Option<Place>, at: Place) -> Place
    ensures { result ≡ earlier before at }
{
    match before {
        Some(found) => { if is_no_later(found, at) { found } else { at } }
        None => at,
    }
}
