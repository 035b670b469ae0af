//! Which leading quantifiers of an open type are variables: those whose variable occurs in the rest.
ghost use Rattle.std.specs.Prelude.{◌≡◌, IfOk};
ghost use Rattle.lf.specs.Variables.{same_number};
ghost use Rattle.lf_unification.specs.Search.{occurs, occurs_spine, occurs_type};
ghost use Rattle.tw_terms.specs.OpenView.{open_head_of, open_spine_of, open_term_of, open_type_of};
ghost use Rattle.lf_checks.specs.Parts.{shape};
ghost use Rattle.tw_search.specs.Offers.{is_variable};

use std::alloc::{AllocError, Global};
use tw_terms::numbers::one_more;
use tw_terms::{Open, OpenHead, OpenSpine, OpenTy};

/// For each leading quantifier, the outermost first: whether its variable occurs in the rest.
pub(crate) fn open_shape_of(alloc: Global, ty: &OpenTy) -> Result<Vec<bool>, AllocError>
    ensures { IfOk result (λ v. v.items ≡ shape (open_type_of ty.now)) }
{
    let mut marks = Vec::new(alloc);
    let mut rest = ty;
    loop {
        match rest {
            OpenTy::Pi(_, range) => {
                let occurs = type_has(range, 0)?;
                marks.push(occurs)?;
                rest = range;
            }
            OpenTy::Atom(_, _) => return Ok(marks),
        }
    }
}

/// Whether the variable occurs in the type. Fails where no context in memory is so long.
fn type_has(ty: &OpenTy, variable: u64) -> Result<bool, AllocError>
    ensures { IfOk result (λ b. b ≡ occurs_type variable (open_type_of ty.now)) }
{
    match ty {
        OpenTy::Pi(domain, range) => {
            let inside = one_more(variable)?;
            if type_has(domain, variable)? {
                return Ok(true);
            }
            type_has(range, inside)
        }
        OpenTy::Atom(_, spine) => spine_has(spine, variable),
    }
}

/// The same in a term.
#[cycle(has)]
fn term_has(term: &Open, variable: u64) -> Result<bool, AllocError>
    ensures { IfOk result (λ b. b ≡ occurs variable (open_term_of term.now)) }
{
    match term {
        Open::Lam(body) => {
            let inside = one_more(variable)?;
            term_has(body, inside)
        }
        Open::Root(head, spine) => {
            if is_variable(*head, variable) {
                return Ok(true);
            }
            spine_has(spine, variable)
        }
    }
}

/// The same in each argument.
#[cycle(has)]
fn spine_has(spine: &OpenSpine, variable: u64) -> Result<bool, AllocError>
    ensures { IfOk result (λ b. b ≡ occurs_spine variable (open_spine_of spine.now)) }
{
    for arg in &spine.args {
        if term_has(arg, variable)? {
            return Ok(true);
        }
    }
    Ok(false)
}

/// Whether the head is this variable.
fn is_variable(head: OpenHead, variable: u64) -> bool
    ensures { result ≡ is_variable variable (open_head_of head) }
{
    match head {
        OpenHead::Var(other) => variable == other,
        OpenHead::Const(_) => false,
        OpenHead::Meta(_) => false,
    }
}
