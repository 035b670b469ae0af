//! Families that still want arguments.
ghost use Rattle.std.specs.Prelude.{◌≡◌, drop, map, IfOk, option_map};
ghost use Rattle.lf.specs.Syntax.{skeleton};
ghost use Rattle.tw_terms.specs.View.{type_of, kind_of};
ghost use Rattle.tw_approx.specs.Reading.{due_of, shape_from, is_none_due};
ghost use Rattle.tw_approx.specs.Skeletons.{behind, due};
ghost use Rattle.tw_shapes.specs.View.{shape_of};

use std::alloc::{AllocError, Global};
use tw_shapes::Shape;
use tw_terms::{Kind, Ty};

/// The shapes of the arguments that are due, the next one first.
#[derive(Drop)]
pub enum Due {
    Nothing,
    Next(Shape, Box<Due>),
}

impl Due {
    /// Whether no argument is due.
    pub fn is_nothing(&self) -> bool
        ensures { result ≡ is_none_due (due_of self.now) }
    {
        match self {
            Due::Nothing => true,
            Due::Next(_, _) => false,
        }
    }
}

/// What a written family or type is: what it is due with the shape of the type that it then makes, or a hole for a type of this shape.
#[derive(Drop)]
pub enum FamilyShape {
    Known(Due, Shape),
    Unknown(Shape),
}

/// The shape of a type: it has no variable.
pub fn closed_shape(alloc: Global, ty: &Ty) -> Result<Shape, AllocError>
    ensures { IfOk result (λ s. shape_of s ≡ shape_from (skeleton (type_of ty.now))) }
{
    match ty {
        Ty::Pi(domain, range) => {
            let domain = Box::new(alloc, closed_shape(alloc, domain)?)?;
            Ok(Shape::Arrow(domain, Box::new(alloc, closed_shape(alloc, range)?)?))
        }
        Ty::Atom(family, _) => Ok(Shape::Base(*family)),
    }
}

/// What a family of this kind is due.
pub fn family_due(alloc: Global, kind: &Kind) -> Result<Due, AllocError>
    ensures { IfOk result (λ d. due_of d ≡ map shape_from (due (kind_of kind.now))) }
{
    match kind {
        Kind::Pi(domain, rest) => {
            let domain = closed_shape(alloc, domain)?;
            Ok(Due::Next(domain, Box::new(alloc, family_due(alloc, rest)?)?))
        }
        Kind::Star => Ok(Due::Nothing),
    }
}

/// What is left of a type behind its first quantifiers, if there are so many.
pub fn type_behind<'a>(ty: &'a Ty, quantifiers: u32) -> Option<&'a Ty>
    ensures { option_map (λ t. skeleton (type_of t.now)) result ≡ behind quantifiers (skeleton (type_of ty.now)) }
{
    let mut rest = ty;
    let mut left = quantifiers;
    while left > 0 {
        match rest {
            Ty::Pi(_, range) => rest = range,
            Ty::Atom(_, _) => return None,
        }
        left -= 1;
    }
    Some(rest)
}

/// What is left of a kind behind its first quantifiers, or behind all of them.
pub fn kind_behind<'a>(kind: &'a Kind, quantifiers: u32) -> &'a Kind
    ensures { due (kind_of result.now) ≡ drop quantifiers (due (kind_of kind.now)) }
{
    let mut rest = kind;
    let mut left = quantifiers;
    while left > 0 {
        match rest {
            Kind::Pi(_, range) => rest = range,
            Kind::Star => return rest,
        }
        left -= 1;
    }
    rest
}
