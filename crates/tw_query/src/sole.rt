//! Terms that are a variable alone, up to eta.
ghost use Rattle.std.specs.Prelude.{◌≡◌, IfOk};
ghost use Rattle.tw_prune.specs.Walks.{are_newest as are_newest_of, eta_variable_under};
ghost use Rattle.tw_terms.specs.View.{spine_of, term_of};

use std::alloc::AllocError;
use tw_terms::numbers::one_more;
use tw_terms::{Head, Spine, Term};

/// The variable of which the term is the eta-long form. Fails where no term in memory has so many lambdas.
pub(crate) fn sole_variable(term: &Term) -> Result<Option<u64>, AllocError>
    ensures { IfOk result (λ v. v ≡ eta_variable_under 0 (term_of term.now)) }
{
    variable_under(term, 0)
}

/// The same after so many of its lambdas.
#[cycle(eta)]
fn variable_under(term: &Term, count: u64) -> Result<Option<u64>, AllocError>
    ensures { IfOk result (λ v. v ≡ eta_variable_under count (term_of term.now)) }
{
    match term {
        Term::Lam(body) => variable_under(body, one_more(count)?),
        Term::Root(Head::Var(variable), spine) => {
            if *variable >= count && are_newest(spine, count)? {
                Ok(Some(*variable - count))
            } else {
                Ok(None)
            }
        }
        Term::Root(Head::Const(_), _) => Ok(None),
    }
}

/// Whether the arguments are the eta-long forms of the `count` newest variables, the newest last.
#[cycle(eta)]
fn are_newest(spine: &Spine, count: u64) -> Result<bool, AllocError>
    ensures { IfOk result (λ b. b ≡ are_newest_of count (spine_of spine.now)) }
{
    let mut left = count;
    for arg in &spine.args {
        if left == 0 {
            return Ok(false);
        }
        left -= 1;
        match variable_under(arg, 0)? {
            Some(variable) if variable == left => (),
            _ => return Ok(false),
        }
    }
    Ok(left == 0)
}
