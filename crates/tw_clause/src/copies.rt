//! Copies of lists of open terms.
ghost use Rattle.std.specs.Prelude.{◌≡◌, IfOk, map, option_map};
ghost use Rattle.tw_terms.specs.OpenView.{open_term_of};

use std::alloc::{AllocError, Global};
use tw_terms::Open;

/// Equal terms. Fails only for want of memory.
pub fn copy_terms(alloc: Global, terms: &[Open]) -> Result<Vec<Open>, AllocError>
    ensures { IfOk result (λ ms. map open_term_of ms.items ≡ map open_term_of terms.now) }
{
    let mut copies = Vec::with_capacity(alloc, terms.len())?;
    for term in terms {
        copies.push(term.copy(alloc)?)?;
    }
    Ok(copies)
}

fn copy_optional_term(alloc: Global, term: &Option<Open>) -> Result<Option<Open>, AllocError>
    ensures { IfOk result (λ m. option_map open_term_of m ≡ option_map open_term_of term.now) }
{
    match term {
        Some(term) => Ok(Some(term.copy(alloc)?)),
        None => Ok(None),
    }
}

/// The same where a place may have no term.
pub fn copy_optional_terms(
    alloc: Global,
    terms: &[Option<Open>],
) -> Result<Vec<Option<Open>>, AllocError>
    ensures { IfOk result (λ ms. map (option_map open_term_of) ms.items ≡ map (option_map open_term_of) terms.now) }
{
    let mut copies = Vec::with_capacity(alloc, terms.len())?;
    for term in terms {
        copies.push(copy_optional_term(alloc, term)?)?;
    }
    Ok(copies)
}
