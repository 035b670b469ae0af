//! Equations between shapes, and the step that solves one.
ghost use Rattle.std.specs.Prelude.{◌≡◌, ◌≢◌, ℕ, ◌<◌, length, reverse, IfOk, OnErr};
ghost use Rattle.tw_shapes.specs.Shapes.{IsWithin, base, arrow};
ghost use Rattle.tw_shapes.specs.Shapes as shapes;
ghost use Rattle.tw_shapes.specs.Order.{IsOrdered, without_bindings};
ghost use Rattle.tw_shapes.specs.Equations as plain;
ghost use Rattle.tw_shapes.specs.View.{shape_of, store_of};
ghost use Rattle.tw_shapes.specs.EquationView.{equation_of, equations_of, between, ComparedIs, StepIs, FreeStepIs, NextIs, SettledIs, AnswerIs};

use crate::bindings::Bindings;
use crate::shape::{Parts, Shape, ShapeId};
use std::alloc::{AllocError, Global};
use tw_terms::ConstId;

/// Two shapes that are to be equal.
#[derive(Drop)]
pub struct Equation {
    pub left: Shape,
    pub right: Shape,
}

/// What a step came to.
#[derive(Drop)]
pub enum Step {
    /// The equation was replaced by those between its parts.
    Goes,
    /// It has no solution.
    Fails,
    /// It says what this free variable is.
    Binds(ShapeId, Shape),
}

// Takes an equation apart, or finds that it has no solution or what it binds. New equations come last in `pending`.
fn take_apart(
    bindings: &Bindings,
    alloc: Global,
    equation: Equation,
    pending: &mut Vec<Equation>,
) -> Result<Step, AllocError>
    requires ordered { IsOrdered (store_of bindings.now) }
    requires within { plain.EquationWithin (length bindings.now.places.items) (equation_of equation) }
    requires all_within { plain.AllWithin (length bindings.now.places.items) (equations_of pending.old.items) }
    ensures { IfOk result (λ r. StepIs (store_of bindings.now) (equation_of equation) (equations_of pending.old.items) (equations_of pending.new.items) r) }
{
    let Equation { left, right } = equation;
    match left.parts() {
        Parts::Variable(variable) => follow(bindings, alloc, variable, right, pending),
        Parts::Base(family) => at_base(bindings, alloc, family, right, pending),
        Parts::Arrow(domain, range) => at_arrow(bindings, alloc, domain, range, right, pending),
    }
}

// The step at an equation between a family and another shape.
fn at_base(
    bindings: &Bindings,
    alloc: Global,
    family: ConstId,
    other: Shape,
    pending: &mut Vec<Equation>,
) -> Result<Step, AllocError>
    requires ordered { IsOrdered (store_of bindings.now) }
    requires within { IsWithin (length bindings.now.places.items) (shape_of other) }
    requires all_within { plain.AllWithin (length bindings.now.places.items) (equations_of pending.old.items) }
    ensures { IfOk result (λ r. StepIs (store_of bindings.now) (between (base family.0) (shape_of other)) (equations_of pending.old.items) (equations_of pending.new.items) r) }
{
    match other.parts() {
        Parts::Variable(variable) => follow(
            bindings,
            alloc,
            variable,
            Shape::Base(family),
            pending,
        ),
        Parts::Base(other_family) => Ok(compared(family, other_family)),
        Parts::Arrow(_, _) => Ok(Step::Fails),
    }
}

// The step at an equation between families.
fn compared(left: ConstId, right: ConstId) -> Step
    ensures { ComparedIs left.0 right.0 result }
{
    if left.0 == right.0 {
        Step::Goes
    } else {
        Step::Fails
    }
}

// The step at an equation between an arrow and another shape.
fn at_arrow(
    bindings: &Bindings,
    alloc: Global,
    domain: Box<Shape>,
    range: Box<Shape>,
    other: Shape,
    pending: &mut Vec<Equation>,
) -> Result<Step, AllocError>
    requires ordered { IsOrdered (store_of bindings.now) }
    requires domain { IsWithin (length bindings.now.places.items) (shape_of domain.value) }
    requires range { IsWithin (length bindings.now.places.items) (shape_of range.value) }
    requires within { IsWithin (length bindings.now.places.items) (shape_of other) }
    requires all_within { plain.AllWithin (length bindings.now.places.items) (equations_of pending.old.items) }
    ensures { IfOk result (λ r. StepIs (store_of bindings.now) (between (arrow (shape_of domain.value) (shape_of range.value)) (shape_of other)) (equations_of pending.old.items) (equations_of pending.new.items) r) }
{
    match other.parts() {
        Parts::Variable(variable) => follow(
            bindings,
            alloc,
            variable,
            Shape::Arrow(domain, range),
            pending,
        ),
        Parts::Base(_) => Ok(Step::Fails),
        Parts::Arrow(other_domain, other_range) => {
            pending.push(Equation {
                left: Box::into_inner(range),
                right: Box::into_inner(other_range),
            })?;
            pending.push(Equation {
                left: Box::into_inner(domain),
                right: Box::into_inner(other_domain),
            })?;
            Ok(Step::Goes)
        }
    }
}

// The step at an equation between a variable and another shape.
fn follow(
    bindings: &Bindings,
    alloc: Global,
    variable: ShapeId,
    other: Shape,
    pending: &mut Vec<Equation>,
) -> Result<Step, AllocError>
    requires ordered { IsOrdered (store_of bindings.now) }
    requires declared { variable.0 < length bindings.now.places.items }
    requires within { IsWithin (length bindings.now.places.items) (shape_of other) }
    requires all_within { plain.AllWithin (length bindings.now.places.items) (equations_of pending.old.items) }
    ensures { IfOk result (λ r. StepIs (store_of bindings.now) (between (shapes.variable variable.0) (shape_of other)) (equations_of pending.old.items) (equations_of pending.new.items) r) }
{
    match bindings.value(variable) {
        Some(value) => {
            let left = value.copy(alloc)?;
            pending.push(Equation { left, right: other })?;
            Ok(Step::Goes)
        }
        None => {
            let value = bindings.resolved(alloc, &other)?;
            free_step(alloc, variable, value)
        }
    }
}

// The step at a free variable and a shape of free variables.
fn free_step(alloc: Global, variable: ShapeId, value: Shape) -> Result<Step, AllocError>
    ensures { IfOk result (λ r. FreeStepIs variable.0 (shape_of value) r) }
{
    if !value.mentions(alloc, variable)? {
        return Ok(Step::Binds(variable, value));
    }
    match &value {
        Shape::Variable(_) => Ok(Step::Goes),
        Shape::Base(_) => Ok(Step::Fails),
        Shape::Arrow(_, _) => Ok(Step::Fails),
    }
}

// Takes equations apart, the last one first, until one fails or binds a variable, or none is left.
fn next(bindings: &Bindings, alloc: Global, pending: &mut Vec<Equation>) -> Result<Step, AllocError>
    requires ordered { IsOrdered (store_of bindings.now) }
    requires within { plain.AllWithin (length bindings.now.places.items) (equations_of pending.old.items) }
    ensures { IfOk result (λ r. NextIs (store_of bindings.now) (equations_of pending.old.items) (equations_of pending.new.items) r) }
{
    'equations: while let Some(equation) = pending.pop() {
        match take_apart(bindings, alloc, equation, pending)? {
            Step::Goes => (),
            Step::Fails => return Ok(Step::Fails),
            Step::Binds(variable, value) => return Ok(Step::Binds(variable, value)),
        }
    }
    Ok(Step::Goes)
}

// Adds bindings that say what the equations say: whether that could be done. The variables that it binds are added to `bound`.
fn settle(
    bindings: &mut Bindings,
    alloc: Global,
    mut pending: Vec<Equation>,
    bound: &mut Vec<usize>,
) -> Result<bool, AllocError>
    requires ordered { IsOrdered (store_of bindings.old) }
    requires within { plain.AllWithin (length bindings.old.places.items) (equations_of pending.items) }
    ensures ordered { IsOrdered (store_of bindings.new) }
    ensures part { plain.Narrows (store_of bindings.old) (store_of bindings.new) (equations_of pending.items) }
    ensures answer { IfOk result (λ b. SettledIs (store_of bindings.old) (store_of bindings.new) (equations_of pending.items) b) }
    ensures before { without_bindings (store_of bindings.new) (reverse bound.new.items) ≡ without_bindings (store_of bindings.old) (reverse bound.old.items) }
{
    'rounds: loop {
        match next(bindings, alloc, &mut pending)? {
            Step::Goes => return Ok(true),
            Step::Fails => return Ok(false),
            Step::Binds(variable, value) => {
                bound.reserve(1)?;
                bindings.bind(variable, value)?;
                bound.push(variable.0 as usize)?;
            }
        }
    }
}

/// Adds bindings that say what the equations say: whether that could be done. Where it could not, or memory is wanting, nothing changes.
pub fn solve(
    bindings: &mut Bindings,
    alloc: Global,
    pending: Vec<Equation>,
) -> Result<bool, AllocError>
    requires ordered { IsOrdered (store_of bindings.old) }
    requires within { plain.AllWithin (length bindings.old.places.items) (equations_of pending.items) }
    ensures ordered { IsOrdered (store_of bindings.new) }
    ensures ok { IfOk result (λ b. AnswerIs (store_of bindings.old) (store_of bindings.new) (equations_of pending.items) b) }
    ensures err { OnErr result (store_of bindings.new ≡ store_of bindings.old) }
{
    let mut bound = Vec::new(alloc);
    match settle(bindings, alloc, pending, &mut bound) {
        Ok(unified) => {
            if !unified {
                bindings.undo(bound);
            }
            Ok(unified)
        }
        Err(error) => {
            bindings.undo(bound);
            Err(error)
        }
    }
}
