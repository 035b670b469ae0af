//! What stands for a variable of a type in an instance of this type, found by a strict occurrence.
ghost use Rattle.std.specs.Prelude.{◌≡◌, IfOk, None, cond, option_map};
ghost use Rattle.lf.specs.Variables.{same_number};
ghost use Rattle.tw_terms.specs.View.{spine_of, term_of, type_of};
ghost use Rattle.tw_clause.specs.Patterns.{newest};
ghost use Rattle.tw_world.specs.Finding.{arguments_of, standing, value_at, value_in, value_in_spine, value_in_type};

use crate::moving::invert;
use std::alloc::{AllocError, Global};
use tw_clause::{is_newest, pattern_variables};
use tw_terms::numbers::one_more;
use tw_terms::{Head, Spine, Term, Ty};

/// The value that the first strict occurrence of a variable in the pattern gives it, where so many newest variables are bound; none where it has no strict occurrence. It is
/// the variable's value wherever there is one with which the pattern becomes the instance.
pub fn find_in_type(
    alloc: Global,
    variable: u64,
    bound: u64,
    pattern: &Ty,
    instance: &Ty,
) -> Result<Option<Term>, AllocError>
    ensures { IfOk result (λ r. option_map term_of r ≡ value_in_type bound variable (type_of pattern.now) (type_of instance.now)) }
{
    match (pattern, instance) {
        (Ty::Pi(domain, range), Ty::Pi(other, rest)) => {
            match find_in_type(alloc, variable, bound, domain, other)? {
                Some(value) => Ok(Some(value)),
                None => find_in_type(alloc, one_more(variable)?, one_more(bound)?, range, rest),
            }
        }
        (Ty::Atom(_, spine), Ty::Atom(_, other)) => {
            find_in_spine(alloc, variable, bound, spine, other)
        }
        _ => Ok(None),
    }
}

/// The same in a term.
#[cycle(find)]
fn find_in_term(
    alloc: Global,
    variable: u64,
    bound: u64,
    pattern: &Term,
    instance: &Term,
) -> Result<Option<Term>, AllocError>
    ensures { IfOk result (λ r. option_map term_of r ≡ value_in bound variable (term_of pattern.now) (term_of instance.now)) }
{
    match pattern {
        Term::Lam(body) => match instance {
            Term::Lam(inner) => {
                find_in_term(alloc, one_more(variable)?, one_more(bound)?, body, inner)
            }
            Term::Root(_, _) => Ok(None),
        },
        Term::Root(Head::Const(_), spine) => find_under(alloc, variable, bound, spine, instance),
        Term::Root(Head::Var(head), spine) => {
            find_at_variable(alloc, variable, bound, *head, spine, instance)
        }
    }
}

/// The same of a root whose head is a variable.
#[cycle(find)]
fn find_at_variable(
    alloc: Global,
    variable: u64,
    bound: u64,
    head: u64,
    spine: &Spine,
    instance: &Term,
) -> Result<Option<Term>, AllocError>
    ensures { IfOk result (λ r. option_map term_of r ≡ value_at bound variable head (spine_of spine.now) (term_of instance.now)) }
{
    match value_here(alloc, variable, bound, head, spine, instance)? {
        Some(value) => Ok(Some(value)),
        None => find_if_bound(alloc, variable, bound, head, spine, instance),
    }
}

/// The same in the arguments of a variable, if it is bound.
#[cycle(find)]
fn find_if_bound(
    alloc: Global,
    variable: u64,
    bound: u64,
    head: u64,
    spine: &Spine,
    instance: &Term,
) -> Result<Option<Term>, AllocError>
    ensures { IfOk result (λ r. option_map term_of r ≡ cond (newest bound head) (value_in_spine bound variable (spine_of spine.now) (arguments_of (term_of instance.now))) None) }
{
    if is_newest(bound, head) {
        find_under(alloc, variable, bound, spine, instance)
    } else {
        Ok(None)
    }
}

/// The same in the arguments of a root.
#[cycle(find)]
fn find_under(
    alloc: Global,
    variable: u64,
    bound: u64,
    spine: &Spine,
    instance: &Term,
) -> Result<Option<Term>, AllocError>
    ensures { IfOk result (λ r. option_map term_of r ≡ value_in_spine bound variable (spine_of spine.now) (arguments_of (term_of instance.now))) }
{
    match instance {
        Term::Lam(_) => Ok(None),
        Term::Root(_, other) => find_in_spine(alloc, variable, bound, spine, other),
    }
}

/// The same in the arguments, one after the other.
#[cycle(find)]
fn find_in_spine(
    alloc: Global,
    variable: u64,
    bound: u64,
    spine: &Spine,
    other: &Spine,
) -> Result<Option<Term>, AllocError>
    ensures { IfOk result (λ r. option_map term_of r ≡ value_in_spine bound variable (spine_of spine.now) (spine_of other.now)) }
{
    let mut place = 0;
    while place < spine.args.len() {
        if place >= other.args.len() {
            return Ok(None);
        }
        let arg = &spine.args[place];
        let other_arg = &other.args[place];
        if let Some(value) = find_in_term(alloc, variable, bound, arg, other_arg)? {
            return Ok(Some(value));
        }
        place += 1;
    }
    Ok(None)
}

/// The value that stands at this head, if it is the variable.
fn value_here(
    alloc: Global,
    variable: u64,
    bound: u64,
    head: u64,
    spine: &Spine,
    instance: &Term,
) -> Result<Option<Term>, AllocError>
    ensures { IfOk result (λ r. option_map term_of r ≡ cond (same_number head variable) (standing bound (spine_of spine.now) (term_of instance.now)) None) }
{
    if head == variable {
        value_standing(alloc, bound, spine, instance)
    } else {
        Ok(None)
    }
}

/// The value of a variable whose application to these arguments became this term, if they are distinct bound variables.
fn value_standing(
    alloc: Global,
    bound: u64,
    spine: &Spine,
    instance: &Term,
) -> Result<Option<Term>, AllocError>
    ensures { IfOk result (λ r. option_map term_of r ≡ standing bound (spine_of spine.now) (term_of instance.now)) }
{
    match pattern_variables(alloc, Some(bound), spine)? {
        Some(variables) => Ok(Some(invert(alloc, bound, &variables, instance)?)),
        None => Ok(None),
    }
}
