//! Whether all variables of a term are in a set.
ghost use Rattle.std.specs.Prelude.{◌≡◌, ◌≤◌, suc, length, IfOk, Decides};
ghost use Rattle.lf.specs.Variables.{under, Uses, UsesSpine, UsesType};
ghost use Rattle.tw_terms.specs.View.{spine_of, term_of, type_of};
ghost use Rattle.tw_mode.specs.Allowed.{allowed_in};

use crate::marks::is_marked;
use std::alloc::AllocError;
use tw_clause::is_newest;
use tw_terms::numbers::one_more;
use tw_terms::{Head, Spine, Term, Ty};

/// A set of variables: the newest are in it; of the others those that are marked, the outermost first. One without a mark is in it where `other` says so.
#[derive(Clone, Copy)]
pub struct Allowed<'a> {
    pub marks: &'a [bool],
    pub depth: u64,
    pub bound: u64,
    pub other: bool,
}

/// The set under one more variable, which is in it. Fails where no context in memory is so long.
pub fn under_one<'a>(allowed: &Allowed<'a>) -> Result<Allowed<'a>, AllocError>
    requires { length allowed.now.marks.now ≤ allowed.now.depth }
    ensures set { IfOk result (λ a. allowed_in a ≡ under (allowed_in allowed.now)) }
    ensures covers { IfOk result (λ a. length a.marks.now ≤ a.depth) }
{
    Ok(Allowed {
        marks: allowed.marks,
        depth: one_more(allowed.depth)?,
        bound: one_more(allowed.bound)?,
        other: allowed.other,
    })
}

/// Whether a variable is in the set.
fn has_variable(allowed: &Allowed, variable: u64) -> bool
    ensures { result ≡ allowed_in allowed.now variable }
{
    is_newest(allowed.bound, variable)
        || is_marked(allowed.marks, allowed.depth, variable, allowed.other)
}

/// Whether each variable of a type is in the set. Fails where no context in memory is so long.
pub fn uses_type(allowed: &Allowed, ty: &Ty) -> Result<bool, AllocError>
    requires { length allowed.now.marks.now ≤ allowed.now.depth }
    ensures { IfOk result (λ b. Decides b (UsesType (allowed_in allowed.now) (type_of ty.now))) }
{
    match ty {
        Ty::Pi(domain, range) => {
            if uses_type(allowed, domain)? {
                uses_type(&under_one(allowed)?, range)
            } else {
                Ok(false)
            }
        }
        Ty::Atom(_, spine) => uses_spine(allowed, spine),
    }
}

/// The same of a term.
#[cycle(uses)]
pub fn uses_term(allowed: &Allowed, term: &Term) -> Result<bool, AllocError>
    requires { length allowed.now.marks.now ≤ allowed.now.depth }
    ensures { IfOk result (λ b. Decides b (Uses (allowed_in allowed.now) (term_of term.now))) }
{
    match term {
        Term::Lam(body) => uses_term(&under_one(allowed)?, body),
        Term::Root(Head::Const(_), spine) => uses_spine(allowed, spine),
        Term::Root(Head::Var(head), spine) => {
            if has_variable(allowed, *head) {
                uses_spine(allowed, spine)
            } else {
                Ok(false)
            }
        }
    }
}

/// The same of each argument.
#[cycle(uses)]
fn uses_spine(allowed: &Allowed, spine: &Spine) -> Result<bool, AllocError>
    requires { length allowed.now.marks.now ≤ allowed.now.depth }
    ensures { IfOk result (λ b. Decides b (UsesSpine (allowed_in allowed.now) (spine_of spine.now))) }
{
    for arg in &spine.args {
        if !uses_term(allowed, arg)? {
            return Ok(false);
        }
    }
    Ok(true)
}
