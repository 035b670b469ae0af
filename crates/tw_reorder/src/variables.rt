//! The free variables of terms and types, in order of first occurrence.
ghost use Rattle.std.specs.Prelude.{◌≡◌, IfOk, map};
ghost use Rattle.tw_abstract.specs.Occurrences.{noted, with_new};
ghost use Rattle.tw_terms.specs.View.{head_of, spine_of, term_of, type_of};
ghost use Rattle.tw_reorder.specs.Variables.{head_variables, spine_variables, type_variables, variables, variables_of_all};

use std::alloc::AllocError;
use tw_abstract::Positions;
use tw_terms::numbers::one_more;
use tw_terms::{Head, MetaId, Spine, Term, Ty};

/// Adds one variable, where it isn't there yet.
pub fn note(found: &mut Positions, variable: u64) -> Result<(), AllocError>
    ensures { IfOk result (λ _. found.new ≡ with_new found.old variable) }
{
    if found.variable(MetaId(variable)).is_none() {
        found.push(MetaId(variable))?;
    }
    Ok(())
}

// Adds that of a head, unless one of so many binders binds it.
fn note_head(found: &mut Positions, head: Head, binders: u64) -> Result<(), AllocError>
    ensures { IfOk result (λ _. found.new ≡ noted found.old (head_variables binders (head_of head))) }
{
    match head {
        Head::Const(_) => Ok(()),
        Head::Var(variable) => {
            if variable < binders {
                return Ok(());
            }
            note(found, variable - binders)
        }
    }
}

/// Adds the variables of the term that aren't found yet, in order of first occurrence. Those of so many binders around it don't count.
#[cycle(noting)]
pub fn note_term(found: &mut Positions, term: &Term, binders: u64) -> Result<(), AllocError>
    ensures { IfOk result (λ _. found.new ≡ noted found.old (variables binders (term_of term.now))) }
{
    match term {
        Term::Lam(body) => note_term(found, body, one_more(binders)?),
        Term::Root(head, spine) => {
            note_head(found, *head, binders)?;
            note_spine(found, spine, binders)
        }
    }
}

// The same of each argument.
#[cycle(noting)]
fn note_spine(found: &mut Positions, spine: &Spine, binders: u64) -> Result<(), AllocError>
    ensures { IfOk result (λ _. found.new ≡ noted found.old (spine_variables binders (spine_of spine.now))) }
{
    for arg in &spine.args {
        note_term(found, arg, binders)?;
    }
    Ok(())
}

/// The same of a type.
pub fn note_type(found: &mut Positions, ty: &Ty, binders: u64) -> Result<(), AllocError>
    ensures { IfOk result (λ _. found.new ≡ noted found.old (type_variables binders (type_of ty.now))) }
{
    match ty {
        Ty::Pi(domain, range) => {
            let inside = one_more(binders)?;
            note_type(found, domain, binders)?;
            note_type(found, range, inside)
        }
        Ty::Atom(_, spine) => note_spine(found, spine, binders),
    }
}

/// The same of terms.
pub fn note_terms(found: &mut Positions, terms: &[Term]) -> Result<(), AllocError>
    ensures { IfOk result (λ _. found.new ≡ noted found.old (variables_of_all (map term_of terms.now))) }
{
    for term in terms {
        note_term(found, term, 0)?;
    }
    Ok(())
}
