//! The type of the constant by which the full form of a check is reconstructed.
ghost use Rattle.std.specs.Prelude.{◌≡◌, IfOk, reverse};
ghost use Rattle.tw_parse.specs.View.{term_of};
ghost use Rattle.tw_parse_checks.specs.Meanings.{family_on};
ghost use Rattle.tw_parse_checks.specs.Parts.{bound_by, bound_over, seen};

use crate::bound::Bound;
use std::alloc::{AllocError, Global};
use tw_parse::{ExtName, ExtTerm, Part};

/// The family on its names.
pub fn family_on(alloc: Global, family: &ExtName, names: &[ExtName]) -> Result<ExtTerm, AllocError>
    ensures { IfOk result (λ term. term_of term ≡ family_on family.now names.now) }
{
    let mut term = ExtTerm::Ident(family.name.copy(alloc)?, family.at);
    for y in names {
        let function = Box::new(alloc, term)?;
        let argument = Box::new(alloc, ExtTerm::Ident(y.name.copy(alloc)?, y.at))?;
        term = ExtTerm::App(function, argument);
    }
    Ok(term)
}

// A quantified variable of this type before what stands behind it.
fn bound_by(
    alloc: Global,
    variable: ExtName,
    domain: Option<Part>,
    behind: Part,
) -> Result<Part, AllocError>
    ensures { IfOk result (λ part. seen part ≡ bound_by variable domain (seen behind)) }
{
    let ExtName { name, at } = variable;
    match domain {
        Some(Part::AtFault(place)) => Ok(Part::AtFault(place)),
        Some(Part::Term(domain)) => match behind {
            Part::AtFault(place) => Ok(Part::AtFault(place)),
            Part::Term(body) => {
                let domain = Box::new(alloc, domain)?;
                let body = Box::new(alloc, body)?;
                Ok(Part::Term(ExtTerm::Pi(name, at, Some(domain), body)))
            }
        },
        None => match behind {
            Part::AtFault(place) => Ok(Part::AtFault(place)),
            Part::Term(body) => {
                let body = Box::new(alloc, body)?;
                Ok(Part::Term(ExtTerm::Pi(name, at, None, body)))
            }
        },
    }
}

/// Quantified variables of these types before what stands behind them, or the first fault of the types.
pub fn bound_over(alloc: Global, bound: Bound, behind: Part) -> Result<Part, AllocError>
    ensures { IfOk result (λ part. seen part ≡ bound_over (reverse bound.variables.items) (reverse bound.domains.items) (seen behind)) }
{
    let Bound {
        mut variables,
        mut domains,
    } = bound;
    let mut part = behind;
    while let Some(variable) = variables.pop() {
        let Some(domain) = domains.pop() else {
            return Ok(part);
        };
        part = bound_by(alloc, variable, domain, part)?;
    }
    Ok(part)
}
