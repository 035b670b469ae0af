//! Rows of arguments, and types and kinds that are written one behind the other: both are gone over without recursion.
ghost use Rattle.std.specs.Prelude.{◌≡◌, IfOk};
ghost use Rattle.tw_approx.specs.Ascribed.{ascribed_to};
ghost use Rattle.tw_approx.specs.Reading.{state_of, IsApplied};
ghost use Rattle.tw_approx.specs.ReadingRows.{IsResumed};
ghost use Rattle.tw_approx.specs.Walks.{IsSound};
ghost use Rattle.tw_parse.specs.Applied.{written_terms};
ghost use Rattle.tw_parse.specs.View.{term_of};
ghost use Rattle.tw_shapes.specs.Shapes as plain;
ghost use Rattle.tw_shapes.specs.Shapes.{count_of, IsWithin};
ghost use Rattle.tw_shapes.specs.View.{shape_of};

use crate::walk::Walk;
use std::alloc::{AllocError, Global};
use tw_parse::ExtTerm;
use tw_shapes::{Parts, Shape};

/// A row of arguments, as far as it is read: the shape of what is put to some of them, and those that are left, the last one first.
#[derive(Drop)]
pub struct ArgumentRow<'a> {
    pub function: Shape,
    pub arguments: Vec<&'a ExtTerm>,
}

/// The row with one argument more, which has this shape.
pub fn resumed<'a>(
    alloc: Global,
    walk: &mut Walk,
    row: ArgumentRow<'a>,
    argument: Shape,
) -> Result<Option<ArgumentRow<'a>>, AllocError>
    requires sound { IsSound (state_of walk.old) }
    requires function { IsWithin (count_of walk.old.shapes) (shape_of row.function) }
    requires argument { IsWithin (count_of walk.old.shapes) (shape_of argument) }
    ensures { IfOk result (IsResumed (state_of walk.old) (state_of walk.new) row.entry (shape_of argument)) }
{
    let arguments = row.arguments;
    match applied(alloc, walk, row.function, argument)? {
        Some(function) => Ok(Some(ArgumentRow {
            function,
            arguments,
        })),
        None => Ok(None),
    }
}

/// What a term is on an argument.
fn applied(
    alloc: Global,
    walk: &mut Walk,
    function: Shape,
    argument: Shape,
) -> Result<Option<Shape>, AllocError>
    requires sound { IsSound (state_of walk.old) }
    requires function { IsWithin (count_of walk.old.shapes) (shape_of function) }
    requires argument { IsWithin (count_of walk.old.shapes) (shape_of argument) }
    ensures { IfOk result (λ o. IsApplied (state_of walk.old) (state_of walk.new) (shape_of function) (shape_of argument) o) }
{
    match function.parts() {
        Parts::Arrow(domain, range) => {
            if walk.shapes.unify(&domain, &argument)? {
                Ok(Some(Box::into_inner(range)))
            } else {
                Ok(None)
            }
        }
        Parts::Variable(variable) => {
            applied_unknown(alloc, walk, Shape::Variable(variable), argument)
        }
        Parts::Base(family) => applied_unknown(alloc, walk, Shape::Base(family), argument),
    }
}

/// The same where the term's shape may not be known.
fn applied_unknown(
    alloc: Global,
    walk: &mut Walk,
    function: Shape,
    argument: Shape,
) -> Result<Option<Shape>, AllocError>
    requires sound { IsSound (state_of walk.old) }
    requires function { IsWithin (count_of walk.old.shapes) (shape_of function) }
    requires argument { IsWithin (count_of walk.old.shapes) (shape_of argument) }
    ensures { IfOk result (λ o. IsApplied (state_of walk.old) (state_of walk.new) (shape_of function) (shape_of argument) o) }
{
    let range = walk.shapes.fresh()?;
    let expected = arrow(alloc, argument, Shape::Variable(range))?;
    if walk.shapes.unify(&function, &expected)? {
        Ok(Some(Shape::Variable(range)))
    } else {
        Ok(None)
    }
}

/// The shape of a function from one shape to another.
pub fn arrow(alloc: Global, domain: Shape, range: Shape) -> Result<Shape, AllocError>
    ensures { IfOk result (λ s. shape_of s ≡ plain.arrow (shape_of domain) (shape_of range)) }
{
    Ok(Shape::Arrow(Box::new(alloc, domain)?, Box::new(alloc, range)?))
}

/// What stands before the types or kinds that are written for it, and these, the last one first. Fails only for want of memory.
pub fn ascriptions<'a>(
    alloc: Global,
    term: &'a ExtTerm,
) -> Result<(&'a ExtTerm, Vec<&'a ExtTerm>), AllocError>
    ensures { IfOk result (λ p. ascribed_to (term_of p.0.now) (written_terms p.1.items) ≡ term_of term.now) }
{
    let mut types: Vec<&'a ExtTerm> = Vec::new(alloc);
    let mut rest = term;
    while let ExtTerm::Ascribe(inner, ty) = rest {
        types.push(ty)?;
        rest = inner;
    }
    Ok((rest, types))
}
