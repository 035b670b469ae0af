//! Patterns: spines of distinct variables of the local context, each in its eta-long form.
ghost use Rattle.std.specs.Prelude.{◌≡◌, ◌↔◌, IfOk, IfSome, IsTrue, option_map, false};
ghost use Rattle.tw_terms.specs.OpenView.{open_term_of, open_spine_of};
ghost use Rattle.tw_prune.specs.Recognition.{IsPatternOf, HasEachPattern};
ghost use Rattle.tw_prune.specs.Walks.{eta_variable_under, are_newest as are_newest_of, variables_in, are_new, distinct_variables as distinct_variables_of};

use std::alloc::{AllocError, Global};
use std::collections::HashSet;
use tw_terms::{Open, OpenHead, OpenSpine};

/// The variables of the spine, where it is a pattern in a local context of `inner` variables, and None where it is none.
pub fn pattern_of(
    alloc: Global,
    inner: u64,
    spine: &OpenSpine,
) -> Result<Option<Vec<u64>>, AllocError>
    ensures found { IfOk result (λ r. IfSome r (λ xs. IsPatternOf inner (open_spine_of spine.now) xs.items)) }
    ensures each { IfOk result (λ r. HasEachPattern inner (open_spine_of spine.now) (option_map (λ xs. xs.items) r)) }
{
    distinct_variables(alloc, inner, spine)
}

/// The variables of which the arguments are the eta-long forms, where these are distinct ones below the bound.
pub fn distinct_variables(
    alloc: Global,
    bound: u64,
    spine: &OpenSpine,
) -> Result<Option<Vec<u64>>, AllocError>
    ensures { IfOk result (λ r. option_map (λ xs. xs.items) r ≡ distinct_variables_of bound (open_spine_of spine.now)) }
{
    let Some(variables) = variables(alloc, spine)? else {
        return Ok(None);
    };
    if are_distinct(alloc, bound, &variables)? {
        Ok(Some(variables))
    } else {
        Ok(None)
    }
}

/// The variables of which the arguments are the eta-long forms.
fn variables(alloc: Global, spine: &OpenSpine) -> Result<Option<Vec<u64>>, AllocError>
    ensures { IfOk result (λ r. option_map (λ xs. xs.items) r ≡ variables_in (open_spine_of spine.now)) }
{
    let mut variables = Vec::with_capacity(alloc, spine.args.len())?;
    for arg in &spine.args {
        match eta_variable(arg, 0)? {
            Some(variable) => variables.push(variable)?,
            None => return Ok(None),
        }
    }
    Ok(Some(variables))
}

/// Whether the variables are distinct and below the bound.
fn are_distinct(alloc: Global, bound: u64, variables: &[u64]) -> Result<bool, AllocError>
    ensures { IfOk result (λ r. r ≡ are_new (λ _. false) bound variables.now) }
{
    let mut seen = HashSet::new(alloc);
    for variable in variables {
        if *variable >= bound || !seen.insert(*variable)? {
            return Ok(false);
        }
    }
    Ok(true)
}

/// The variable of which the term is the eta-long form, after so many of its lambdas. Fails where no term in memory has so many.
#[cycle(eta)]
fn eta_variable(term: &Open, count: u64) -> Result<Option<u64>, AllocError>
    ensures { IfOk result (λ r. r ≡ eta_variable_under count (open_term_of term.now)) }
{
    match term {
        Open::Lam(body) => eta_variable(body, count.checked_add(1).ok_or(AllocError)?),
        Open::Root(OpenHead::Var(variable), spine) => {
            if *variable >= count && are_newest(spine, count)? {
                Ok(Some(*variable - count))
            } else {
                Ok(None)
            }
        }
        Open::Root(_, _) => Ok(None),
    }
}

/// Whether the arguments are the eta-long forms of the `count` newest variables, the newest last.
#[cycle(eta)]
pub fn are_newest(spine: &OpenSpine, count: u64) -> Result<bool, AllocError>
    ensures { IfOk result (λ r. r ≡ are_newest_of count (open_spine_of spine.now)) }
{
    let mut left = count;
    for arg in &spine.args {
        if left == 0 {
            return Ok(false);
        }
        left -= 1;
        match eta_variable(arg, 0)? {
            Some(variable) if variable == left => (),
            _ => return Ok(false),
        }
    }
    Ok(left == 0)
}
