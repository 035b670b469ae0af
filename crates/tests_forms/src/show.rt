//! Terms, types, kinds and skeletons as forms. Binders have names that are made for them.
use crate::closed::{opened_spine, opened_term, opened_type};
use crate::names::Names;
use std::alloc::{AllocError, Global};
use tw_terms::{ConstId, Kind, Open, OpenHead, OpenSpine, OpenTy, Skeleton, Spine, Term, Ty};

/// Begins a part of an answer, which comes after a semicolon unless it is the first.
pub fn begin_part(line: &mut String) -> Result<(), AllocError> {
    if line.is_empty() {
        Ok(())
    } else {
        line.push_str("; ")
    }
}

/// From how many on a head that stands again and again on a single argument is shown as repeated.
const LONG: u32 = 8;

/// Adds the term.
pub fn show_term(
    alloc: Global,
    line: &mut String,
    names: &mut Names,
    term: &Open,
) -> Result<(), AllocError> {
    show_behind(alloc, line, names, term, 0)
}

// Adds the term without so many heads, each of which stands on a single argument.
#[cycle(showing)]
fn show_behind(
    alloc: Global,
    line: &mut String,
    names: &mut Names,
    term: &Open,
    skipped: u32,
) -> Result<(), AllocError> {
    match term {
        Open::Lam(body) => show_lambda(alloc, line, names, body),
        Open::Root(head, spine) if spine.args.is_empty() => names.show_head(line, *head),
        Open::Root(_, spine) if skipped > 0 => {
            show_arguments(alloc, line, names, spine, skipped - 1)
        }
        Open::Root(head, spine) => {
            let count = repetitions(term);
            line.push('(')?;
            if count < LONG {
                show_application(alloc, line, names, *head, spine)?;
            } else {
                show_repetition(alloc, line, names, *head, spine, count)?;
            }
            line.push(')')
        }
    }
}

#[cycle(showing)]
fn show_lambda(
    alloc: Global,
    line: &mut String,
    names: &mut Names,
    body: &Open,
) -> Result<(), AllocError> {
    line.push_str("(\\ ")?;
    names.push_made(alloc)?;
    show_newest(line, names)?;
    line.push(' ')?;
    show_behind(alloc, line, names, body, 0)?;
    names.pop_made();
    line.push(')')
}

#[cycle(showing)]
fn show_application(
    alloc: Global,
    line: &mut String,
    names: &mut Names,
    head: OpenHead,
    spine: &OpenSpine,
) -> Result<(), AllocError> {
    names.show_head(line, head)?;
    show_spine(alloc, line, names, spine)
}

#[cycle(showing)]
fn show_repetition(
    alloc: Global,
    line: &mut String,
    names: &mut Names,
    head: OpenHead,
    spine: &OpenSpine,
    count: u32,
) -> Result<(), AllocError> {
    write!(line, "repeat {} t (", count)?;
    names.show_head(line, head)?;
    line.push_str(" t) ")?;
    show_arguments(alloc, line, names, spine, count.saturating_sub(1))
}

// the arguments, each without so many heads
#[cycle(showing)]
fn show_arguments(
    alloc: Global,
    line: &mut String,
    names: &mut Names,
    spine: &OpenSpine,
    skipped: u32,
) -> Result<(), AllocError> {
    for arg in &spine.args {
        show_behind(alloc, line, names, arg, skipped)?;
    }
    Ok(())
}

// the head and its only argument, if the term is that
fn only_argument(term: &Open) -> Option<(OpenHead, &Open)> {
    match term {
        Open::Lam(_) => None,
        Open::Root(head, spine) => match spine.args.as_slice() {
            [arg] => Some((*head, arg)),
            _ => None,
        },
    }
}

// how many times the term's head stands on a single argument, one in the other
fn repetitions(term: &Open) -> u32 {
    let Some((head, mut rest)) = only_argument(term) else {
        return 0;
    };
    for count in 1..u32::MAX {
        match only_argument(rest) {
            Some((next, arg)) if next.same(head) => rest = arg,
            _ => return count,
        }
    }
    u32::MAX
}

fn show_newest(line: &mut String, names: &Names) -> Result<(), AllocError> {
    names.show_head(line, OpenHead::Var(0))
}

/// Adds the arguments, each after a space.
#[cycle(showing)]
pub fn show_spine(
    alloc: Global,
    line: &mut String,
    names: &mut Names,
    spine: &OpenSpine,
) -> Result<(), AllocError> {
    for arg in &spine.args {
        line.push(' ')?;
        show_behind(alloc, line, names, arg, 0)?;
    }
    Ok(())
}

fn show_atom(
    alloc: Global,
    line: &mut String,
    names: &mut Names,
    family: ConstId,
    spine: &OpenSpine,
) -> Result<(), AllocError> {
    if spine.args.is_empty() {
        return names.show_constant(line, family);
    }
    line.push('(')?;
    names.show_constant(line, family)?;
    show_spine(alloc, line, names, spine)?;
    line.push(')')
}

/// Adds the type.
#[cycle(showing_types)]
pub fn show_type(
    alloc: Global,
    line: &mut String,
    names: &mut Names,
    ty: &OpenTy,
) -> Result<(), AllocError> {
    match ty {
        OpenTy::Pi(domain, range) => {
            show_domain(alloc, line, names, domain)?;
            show_type(alloc, line, names, range)?;
            names.pop_made();
            line.push(')')
        }
        OpenTy::Atom(family, spine) => show_atom(alloc, line, names, *family, spine),
    }
}

/// Adds the beginning of a product, up to its range, and brings its variable into scope.
#[cycle(showing_types)]
pub fn show_domain(
    alloc: Global,
    line: &mut String,
    names: &mut Names,
    domain: &OpenTy,
) -> Result<(), AllocError> {
    let mut inner = String::new(alloc);
    show_type(alloc, &mut inner, names, domain)?;
    names.push_made(alloc)?;
    line.push_str("(> ")?;
    show_newest(line, names)?;
    line.push(' ')?;
    line.push_str(inner.as_str())?;
    line.push(' ')
}

/// Adds the term without metavariables.
pub fn show_closed_term(
    alloc: Global,
    line: &mut String,
    names: &mut Names,
    term: &Term,
) -> Result<(), AllocError> {
    show_term(alloc, line, names, &opened_term(alloc, term)?)
}

/// Adds the arguments without metavariables, each after a space.
pub fn show_closed_spine(
    alloc: Global,
    line: &mut String,
    names: &mut Names,
    spine: &Spine,
) -> Result<(), AllocError> {
    show_spine(alloc, line, names, &opened_spine(alloc, spine)?)
}

/// Adds the type without metavariables.
pub fn show_closed_type(
    alloc: Global,
    line: &mut String,
    names: &mut Names,
    ty: &Ty,
) -> Result<(), AllocError> {
    show_type(alloc, line, names, &opened_type(alloc, ty)?)
}

/// Adds the kind.
pub fn show_kind(
    alloc: Global,
    line: &mut String,
    names: &mut Names,
    kind: &Kind,
) -> Result<(), AllocError> {
    match kind {
        Kind::Pi(domain, range) => {
            show_domain(alloc, line, names, &opened_type(alloc, domain)?)?;
            show_kind(alloc, line, names, range)?;
            names.pop_made();
            line.push(')')
        }
        Kind::Star => line.push_str("type"),
    }
}

/// Adds the skeleton.
pub fn show_skeleton(
    line: &mut String,
    names: &Names,
    skeleton: &Skeleton,
) -> Result<(), AllocError> {
    match skeleton {
        Skeleton::Base(family) => names.show_constant(line, *family),
        Skeleton::Arrow(domain, range) => {
            line.push_str("(-> ")?;
            show_skeleton(line, names, domain)?;
            line.push(' ')?;
            show_skeleton(line, names, range)?;
            line.push(')')
        }
    }
}
