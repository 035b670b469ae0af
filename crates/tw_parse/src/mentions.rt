//! Whether a name stands in a term.
ghost use Rattle.std.specs.Prelude.{◌≡◌, ◌<◌, ◌≤◌, ◌+◌, ◌||◌, ◌++◌, ◌∷◌, [], false, reverse, IfOk, OnOk};
ghost use Rattle.std.specs.Str.{bytes_eq};
ghost use Rattle.tw_parse.specs.Dropping.{weight};
ghost use Rattle.tw_parse.specs.Mentions.{mentions_any, weight_of_all};
ghost use Rattle.tw_parse.specs.Queries.{mentions};
ghost use Rattle.tw_parse.specs.View.{term_of};

use crate::term::ExtTerm;
use std::alloc::{AllocError, Global};
use tw_fixity::Name;

/// Whether a name stands in a term, also as that of a binder. Terms that are still to be looked through wait on the heap.
pub fn mentions(alloc: Global, term: &ExtTerm, name: &[u8]) -> Result<bool, AllocError>
    ensures { IfOk result (λ found. found ≡ mentions name.now (term_of term.now)) }
{
    let mut waiting: Vec<&ExtTerm> = Vec::new(alloc);
    waiting.push(term)?;
    while let Some(next) = waiting.pop() {
        if stands_here(&mut waiting, next, name)? {
            return Ok(true);
        }
    }
    Ok(false)
}

// Whether a name is the term or that of its binder. If it isn't, the parts of the term wait.
#[inline(never)]
fn stands_here<'a>(
    waiting: &mut Vec<&'a ExtTerm>,
    term: &'a ExtTerm,
    name: &[u8],
) -> Result<bool, AllocError>
    ensures found { IfOk result (λ here. here || mentions_any name.now (reverse waiting.new.items) ≡ mentions name.now (term_of term.now) || mentions_any name.now (reverse waiting.old.items)) }
    ensures weight { OnOk result (weight_of_all waiting.new.items < weight term.now + weight_of_all waiting.old.items) }
{
    match term {
        ExtTerm::Ident(other, _) => Ok(other.as_bytes() == name),
        ExtTerm::Hole(_) | ExtTerm::Star => Ok(false),
        ExtTerm::Arrow(left, right) => wait_for_both(waiting, left, right),
        ExtTerm::App(left, right) => wait_for_both(waiting, left, right),
        ExtTerm::Ascribe(left, right) => wait_for_both(waiting, left, right),
        ExtTerm::Pi(binder, _, domain, body) => match domain {
            Some(domain) => stands_at_typed(waiting, binder, domain, body, name),
            None => stands_at_untyped(waiting, binder, body, name),
        },
        ExtTerm::Lam(binder, _, domain, body) => match domain {
            Some(domain) => stands_at_typed(waiting, binder, domain, body, name),
            None => stands_at_untyped(waiting, binder, body, name),
        },
    }
}

// Two terms wait, the first to be looked through before the second.
#[inline(never)]
fn wait_for_both<'a>(
    waiting: &mut Vec<&'a ExtTerm>,
    first: &'a ExtTerm,
    second: &'a ExtTerm,
) -> Result<bool, AllocError>
    ensures here { IfOk result (λ here. here ≡ false) }
    ensures waiting { OnOk result (waiting.new.items ≡ waiting.old.items ++ second.entry ∷ first.entry ∷ []) }
{
    waiting.push(second)?;
    waiting.push(first)?;
    Ok(false)
}

// Whether a name is that of a binder. If it isn't, the type at the binder and what stands under it wait.
#[inline(never)]
fn stands_at_typed<'a>(
    waiting: &mut Vec<&'a ExtTerm>,
    binder: &Name,
    domain: &'a ExtTerm,
    body: &'a ExtTerm,
    name: &[u8],
) -> Result<bool, AllocError>
    ensures found { IfOk result (λ here. here || mentions_any name.now (reverse waiting.new.items) ≡ (bytes_eq binder.now name.now || (mentions name.now (term_of domain.now) || mentions name.now (term_of body.now))) || mentions_any name.now (reverse waiting.old.items)) }
    ensures weight { OnOk result (weight_of_all waiting.new.items ≤ weight domain.now + weight body.now + weight_of_all waiting.old.items) }
{
    if binder.as_bytes() == name {
        return Ok(true);
    }
    wait_for_both(waiting, domain, body)
}

// The same of a binder without a type.
#[inline(never)]
fn stands_at_untyped<'a>(
    waiting: &mut Vec<&'a ExtTerm>,
    binder: &Name,
    body: &'a ExtTerm,
    name: &[u8],
) -> Result<bool, AllocError>
    ensures found { IfOk result (λ here. here || mentions_any name.now (reverse waiting.new.items) ≡ (bytes_eq binder.now name.now || mentions name.now (term_of body.now)) || mentions_any name.now (reverse waiting.old.items)) }
    ensures weight { OnOk result (weight_of_all waiting.new.items ≤ weight body.now + weight_of_all waiting.old.items) }
{
    if binder.as_bytes() == name {
        return Ok(true);
    }
    waiting.push(body)?;
    Ok(false)
}
