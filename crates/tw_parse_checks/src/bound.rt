//! Variables with their types, in the order of the text.
ghost use Rattle.std.specs.Prelude.{◌≡◌, ◌++◌, ◌∷◌, [], OnOk};

use std::alloc::AllocError;
use tw_parse::{ExtName, Part};

/// The names with the places of their brackets, and the types that are written.
#[derive(Debug, Drop)]
pub struct Bound {
    pub variables: Vec<ExtName>,
    pub domains: Vec<Option<Part>>,
}

/// Puts a variable behind the others.
pub fn bind(bound: &mut Bound, variable: ExtName, domain: Option<Part>) -> Result<(), AllocError>
    ensures variables { OnOk result (bound.new.variables.items ≡ bound.old.variables.items ++ variable ∷ []) }
    ensures domains { OnOk result (bound.new.domains.items ≡ bound.old.domains.items ++ domain ∷ []) }
{
    bound.variables.push(variable)?;
    bound.domains.push(domain)?;
    Ok(())
}
