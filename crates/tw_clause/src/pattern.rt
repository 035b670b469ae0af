//! Arguments that are distinct variables, each one of the newest.
ghost use Rattle.std.specs.Prelude.{◌≡◌, [], IfOk, Some, option_map};
ghost use Rattle.lf_checks.specs.Strict.{is_bound, pattern_arguments};
ghost use Rattle.lf_checks.specs.Tests.{is_in};
ghost use Rattle.tw_terms.specs.View.{spine_of, term_of};
ghost use Rattle.tw_clause.specs.Patterns.{newest, newest_of, pattern_heads};

use crate::eta::{is_eta_variable, variable_at_head};
use std::alloc::{AllocError, Global};
use tw_terms::{Spine, Term};

/// Whether all arguments are variables up to eta, each another one, where so many newest variables count, or all. Takes the square of the number of arguments.
pub fn is_pattern(alloc: Global, bound: Option<u64>, spine: &Spine) -> Result<bool, AllocError>
    ensures { IfOk result (λ b. b ≡ pattern_arguments (newest_of bound) [] (spine_of spine.now)) }
{
    let variables = pattern_variables(alloc, bound, spine)?;
    Ok(variables.is_some())
}

/// The variables that the arguments are up to eta, in order, where each is another one of so many newest variables, or of all; else none.
pub fn pattern_variables(
    alloc: Global,
    bound: Option<u64>,
    spine: &Spine,
) -> Result<Option<Vec<u64>>, AllocError>
    ensures { IfOk result (λ r. option_map (λ v. v.items) r ≡ pattern_heads (newest_of bound) (spine_of spine.now)) }
{
    let mut seen = Vec::new(alloc);
    for arg in &spine.args {
        match variable_at_head(arg)? {
            Some(variable) if is_unseen(bound, arg, variable, &seen)? => seen.push(variable)?,
            _ => return Ok(None),
        }
    }
    Ok(Some(seen))
}

/// Whether the argument is this variable up to eta, which counts and wasn't seen.
fn is_unseen(
    bound: Option<u64>,
    arg: &Term,
    variable: u64,
    seen: &[u64],
) -> Result<bool, AllocError>
    ensures { IfOk result (λ b. b ≡ is_bound (newest_of bound) seen.now (term_of arg.now) (Some variable)) }
{
    Ok(
        is_eta_variable(arg, 0, variable)?
            && is_among(bound, variable)
            && !has_number(seen, variable),
    )
}

/// Whether a variable is one of so many newest ones, or of all.
fn is_among(bound: Option<u64>, variable: u64) -> bool
    ensures { result ≡ newest_of bound variable }
{
    match bound {
        Some(count) => is_newest(count, variable),
        None => true,
    }
}

/// Whether a variable is one of so many newest ones.
pub fn is_newest(count: u64, variable: u64) -> bool
    ensures { result ≡ newest count variable }
{
    variable < count
}

/// Whether the number is one of the list.
fn has_number(numbers: &[u64], number: u64) -> bool
    ensures { result ≡ is_in number numbers.now }
{
    for other in numbers {
        if *other == number {
            return true;
        }
    }
    false
}
