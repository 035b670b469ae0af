//! Which variables occur. A list of marks has one for each variable of a part of the scope, the outermost first.
ghost use Rattle.std.specs.Prelude.{◌≡◌, ◌==◌, ◌≤◌, ◌++◌, IfOk, OnOk, length, drop};
ghost use Rattle.tw_terms.specs.View.{head_of, term_of, spine_of, type_of, kind_of};
ghost use Rattle.tw_print.specs.Variables.{is_variable, occurs, occurs_in_spine, occurs_in_type, occurs_in_kind};
ghost use Rattle.tw_print.specs.Marks.{marked, marks_of, kind_marks_of, head_mark};

use std::alloc::{AllocError, Global};
use tw_terms::numbers::one_more;
use tw_terms::{Head, Kind, Spine, Term, Ty};

/// For each leading quantifier of a type, whether its variable occurs in the rest. One pass through the type.
pub fn quantifier_marks(alloc: Global, ty: &Ty) -> Result<Vec<bool>, AllocError>
    ensures { IfOk result (λ ms. ms.items ≡ marks_of (type_of ty.now)) }
{
    let mut marks = Vec::new(alloc);
    mark_rest(ty, &mut marks)?;
    Ok(marks)
}

/// The same for a kind.
pub fn kind_marks(alloc: Global, kind: &Kind) -> Result<Vec<bool>, AllocError>
    ensures { IfOk result (λ ms. ms.items ≡ kind_marks_of (kind_of kind.now)) }
{
    let mut marks = Vec::new(alloc);
    mark_kind_rest(kind, &mut marks)?;
    Ok(marks)
}

/// The mark of the outermost quantifier.
pub fn first_mark(marks: &[bool]) -> bool
    ensures { result ≡ head_mark marks.now }
{
    match marks.first() {
        Some(mark) => *mark,
        None => false,
    }
}

/// The marks of the others.
pub fn other_marks(marks: &[bool]) -> &[bool]
    ensures { result.now ≡ drop 1 marks.now }
{
    if marks.is_empty() {
        return marks;
    }
    &marks[1..]
}

/// Marks the variables of the quantifiers around that occur in a type, and adds the marks of its own quantifiers.
fn mark_rest(ty: &Ty, marks: &mut Vec<bool>) -> Result<(), AllocError>
    ensures { OnOk result (marks.new.items ≡ marked (length marks.old.items) (λ i. occurs_in_type i (type_of ty.now)) marks.old.items ++ marks_of (type_of ty.now)) }
{
    let depth = marks.len() as u64;
    match ty {
        Ty::Pi(domain, range) => {
            mark_type(domain, depth, marks)?;
            marks.push(false)?;
            mark_rest(range, marks)
        }
        Ty::Atom(_, spine) => mark_spine(spine, depth, marks),
    }
}

/// The same in a kind.
fn mark_kind_rest(kind: &Kind, marks: &mut Vec<bool>) -> Result<(), AllocError>
    ensures { OnOk result (marks.new.items ≡ marked (length marks.old.items) (λ i. occurs_in_kind i (kind_of kind.now)) marks.old.items ++ kind_marks_of (kind_of kind.now)) }
{
    match kind {
        Kind::Pi(domain, rest) => {
            mark_type(domain, marks.len() as u64, marks)?;
            marks.push(false)?;
            mark_kind_rest(rest, marks)
        }
        Kind::Star => Ok(()),
    }
}

/// Marks the variables that occur in a type with so many variables in scope. Fails where no context in memory is so long.
pub fn mark_type(ty: &Ty, depth: u64, marks: &mut [bool]) -> Result<(), AllocError>
    requires { length marks.old ≤ depth }
    ensures { OnOk result (marks.new ≡ marked depth (λ i. occurs_in_type i (type_of ty.now)) marks.old) }
{
    match ty {
        Ty::Pi(domain, range) => {
            let inside = one_more(depth)?;
            mark_type(domain, depth, marks)?;
            mark_type(range, inside, marks)
        }
        Ty::Atom(_, spine) => mark_spine(spine, depth, marks),
    }
}

/// The same in a term.
#[cycle(mark)]
pub fn mark_term(term: &Term, depth: u64, marks: &mut [bool]) -> Result<(), AllocError>
    requires { length marks.old ≤ depth }
    ensures { OnOk result (marks.new ≡ marked depth (λ i. occurs i (term_of term.now)) marks.old) }
{
    match term {
        Term::Lam(body) => {
            let inside = one_more(depth)?;
            mark_term(body, inside, marks)
        }
        Term::Root(head, spine) => {
            mark_head(*head, depth, marks);
            mark_spine(spine, depth, marks)
        }
    }
}

/// The same in each argument.
#[cycle(mark)]
fn mark_spine(spine: &Spine, depth: u64, marks: &mut [bool]) -> Result<(), AllocError>
    requires { length marks.old ≤ depth }
    ensures { OnOk result (marks.new ≡ marked depth (λ i. occurs_in_spine i (spine_of spine.now)) marks.old) }
{
    for arg in &spine.args {
        mark_term(arg, depth, marks)?;
    }
    Ok(())
}

/// The same of a head.
fn mark_head(head: Head, depth: u64, marks: &mut [bool])
    ensures { marks.new ≡ marked depth (λ i. is_variable i (head_of head)) marks.old }
{
    match head {
        Head::Const(_) => (),
        Head::Var(variable) => mark_variable(variable, depth, marks),
    }
}

/// The same of a variable.
fn mark_variable(variable: u64, depth: u64, marks: &mut [bool])
    ensures { marks.new ≡ marked depth (λ i. variable == i) marks.old }
{
    if variable >= depth {
        return;
    }
    let place = depth - 1 - variable;
    if place >= marks.len() as u64 {
        return;
    }
    marks[place as usize] = true;
}
