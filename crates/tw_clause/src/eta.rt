//! Terms that are variables up to eta.
ghost use Rattle.std.specs.Prelude.{◌≡◌, IfOk};
ghost use Rattle.lf_checks.specs.Strict.{eta_at, head_variable, lower, new_arguments};
ghost use Rattle.tw_terms.specs.View.{spine_of, term_of};

use std::alloc::AllocError;
use tw_terms::numbers::one_more;
use tw_terms::{Head, Spine, Term};

/// Whether the term, under so many lambdas so far, is the variable applied to the new variables, up to eta. Fails where no context in memory is so long.
#[cycle(eta)]
pub fn is_eta_variable(term: &Term, lambdas: u64, variable: u64) -> Result<bool, AllocError>
    ensures { IfOk result (λ b. b ≡ eta_at lambdas variable (term_of term.now)) }
{
    match term {
        Term::Lam(body) => is_eta_variable(body, one_more(lambdas)?, one_more(variable)?),
        Term::Root(Head::Const(_), _) => Ok(false),
        Term::Root(Head::Var(head), spine) => {
            if *head == variable {
                are_new_variables(spine, lambdas)
            } else {
                Ok(false)
            }
        }
    }
}

/// Whether the arguments are so many newest variables, the oldest first.
#[cycle(eta)]
fn are_new_variables(spine: &Spine, count: u64) -> Result<bool, AllocError>
    ensures { IfOk result (λ b. b ≡ new_arguments count (spine_of spine.now)) }
{
    let mut left = count;
    for arg in &spine.args {
        if left == 0 {
            return Ok(false);
        }
        left -= 1;
        if !is_eta_variable(arg, 0, left)? {
            return Ok(false);
        }
    }
    Ok(left == 0)
}

/// The variable at the head of a term, outside its lambdas, if there is one.
pub fn variable_at_head(term: &Term) -> Result<Option<u64>, AllocError>
    ensures { IfOk result (λ v. v ≡ head_variable 0 (term_of term.now)) }
{
    let mut rest = term;
    let mut lambdas = 0;
    loop {
        match rest {
            Term::Lam(body) => {
                lambdas = one_more(lambdas)?;
                rest = body;
            }
            Term::Root(Head::Const(_), _) => return Ok(None),
            Term::Root(Head::Var(head), _) => return Ok(outside(lambdas, *head)),
        }
    }
}

/// The variable, seen outside so many binders, if it stands there.
fn outside(binders: u64, variable: u64) -> Option<u64>
    ensures { result ≡ lower binders variable }
{
    if variable < binders {
        None
    } else {
        Some(variable - binders)
    }
}
