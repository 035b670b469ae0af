//! Which leading quantifiers of a type are variables: those whose variable occurs in the rest. A list of marks has one for each variable of the outer part of
//! the scope, the outermost first.
ghost use Rattle.std.specs.Prelude.{◌≡◌, ◌≤◌, IfOk, OnOk, length};
ghost use Rattle.lf.specs.Variables.{same_number};
ghost use Rattle.lf_unification.specs.Search.{occurs, occurs_spine, occurs_type};
ghost use Rattle.lf_checks.specs.Parts.{shape as shape_of_type};
ghost use Rattle.tw_terms.specs.View.{head_of, term_of, spine_of, type_of};
ghost use Rattle.tw_signature.specs.Marks.{is_variable, marked};

use std::alloc::{AllocError, Global};
use tw_terms::numbers::one_more;
use tw_terms::{Head, Spine, Term, Ty};

/// For each leading quantifier, the outermost first: whether its variable occurs in the rest. One pass through the type.
pub fn shape_of(alloc: Global, ty: &Ty) -> Result<Vec<bool>, AllocError>
    ensures { IfOk result (λ marks. marks.items ≡ shape_of_type (type_of ty.now)) }
{
    let mut marks = Vec::new(alloc);
    let mut rest = ty;
    loop {
        match rest {
            Ty::Pi(domain, range) => {
                mark_type(domain, marks.len() as u64, &mut marks)?;
                marks.push(false)?;
                rest = range;
            }
            Ty::Atom(_, spine) => {
                mark_spine(spine, marks.len() as u64, &mut marks)?;
                return Ok(marks);
            }
        }
    }
}

/// Marks the variables that occur in a type with so many variables in scope. Fails where no context in memory is so long.
fn mark_type(ty: &Ty, depth: u64, marks: &mut [bool]) -> Result<(), AllocError>
    requires { length marks.old ≤ depth }
    ensures { OnOk result (marks.new ≡ marked depth (λ i. occurs_type i (type_of ty.now)) marks.old) }
{
    match ty {
        Ty::Pi(domain, range) => {
            let inside = one_more(depth)?;
            mark_type(domain, depth, marks)?;
            mark_type(range, inside, marks)
        }
        Ty::Atom(_, spine) => mark_spine(spine, depth, marks),
    }
}

/// The same in a term.
#[cycle(mark)]
pub fn mark_term(term: &Term, depth: u64, marks: &mut [bool]) -> Result<(), AllocError>
    requires { length marks.old ≤ depth }
    ensures { OnOk result (marks.new ≡ marked depth (λ i. occurs i (term_of term.now)) marks.old) }
{
    match term {
        Term::Lam(body) => {
            let inside = one_more(depth)?;
            mark_term(body, inside, marks)
        }
        Term::Root(head, spine) => {
            mark_head(*head, depth, marks);
            mark_spine(spine, depth, marks)
        }
    }
}

/// The same in each argument.
#[cycle(mark)]
pub fn mark_spine(spine: &Spine, depth: u64, marks: &mut [bool]) -> Result<(), AllocError>
    requires { length marks.old ≤ depth }
    ensures { OnOk result (marks.new ≡ marked depth (λ i. occurs_spine i (spine_of spine.now)) marks.old) }
{
    for arg in &spine.args {
        mark_term(arg, depth, marks)?;
    }
    Ok(())
}

/// The same of a head.
fn mark_head(head: Head, depth: u64, marks: &mut [bool])
    ensures { marks.new ≡ marked depth (λ i. is_variable i (head_of head)) marks.old }
{
    match head {
        Head::Const(_) => (),
        Head::Var(variable) => mark_variable(variable, depth, marks),
    }
}

/// The same of a variable.
fn mark_variable(variable: u64, depth: u64, marks: &mut [bool])
    ensures { marks.new ≡ marked depth (λ i. same_number i variable) marks.old }
{
    if variable >= depth {
        return;
    }
    let place = depth - 1 - variable;
    if place >= marks.len() as u64 {
        return;
    }
    marks[place as usize] = true;
}
