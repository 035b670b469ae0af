//! What the variables are bound to.
ghost use Rattle.std.specs.Prelude.{◌≡◌, ◌≢◌, ℕ, suc, ◌<◌, ◌≤◌, length, reverse, Option, Some, None, IfOk, OnOk, OnErr, MatchBool, MatchOption};
ghost use Rattle.std.specs.Option.{option_map};
ghost use Rattle.lf.specs.Syntax as lf;
ghost use Rattle.tw_shapes.specs.Shapes.{Solves, value_of, filled, AllVariables, IsWithin, IsAlways, IsDeeper, IsOpen, IsSettled, with_binding};
ghost use Rattle.tw_shapes.specs.Order.{IsOrdered, IsFollowed, count_unbound, length_of_walk, without_binding, without_bindings};
ghost use Rattle.tw_shapes.specs.Building.{IsLeaf};
ghost use Rattle.tw_shapes.specs.BuildingView.{arrows_of};
ghost use Rattle.tw_terms.specs.View.{skeleton_of};
ghost use Rattle.tw_shapes.specs.View.{shape_of, store_of};

use crate::building::{Begun, Built, close};
use crate::shape::{Shape, ShapeId};
use std::alloc::{AllocError, Global};
use tw_terms::Skeleton;

/// The place of each variable's binding, if it is bound, and the bindings in the order in which they were made.
#[derive(Drop)]
pub struct Bindings {
    pub places: Vec<Option<usize>>,
    pub values: Vec<Shape>,
}

impl Bindings {
    /// What a variable is bound to, if it is.
    pub fn value(&self, variable: ShapeId) -> Option<&Shape>
        ensures { option_map (λ v. shape_of v.now) result ≡ value_of (store_of self.now) variable.0 }
    {
        match self.places.get(variable.0 as usize) {
            Some(Some(place)) => self.values.get(*place),
            _ => None,
        }
    }

    /// The shape, or what a chain of bindings comes to from it. It takes no memory.
    fn followed<'a>(&'a self, shape: &'a Shape) -> &'a Shape
        requires { IsOrdered (store_of self.now) }
        ensures same { (θ : ℕ → lf.Skeleton) → Solves θ (store_of self.now) → filled θ (shape_of result.now) ≡ filled θ (shape_of shape.now) }
        ensures end { IsFollowed (store_of self.now) (shape_of result.now) }
        ensures within { IsWithin (length self.now.places.items) (shape_of shape.now) → IsWithin (length self.now.places.items) (shape_of result.now) }
        ensures shorter { length_of_walk (store_of self.now) (shape_of result.now) ≤ length_of_walk (store_of self.now) (shape_of shape.now) }
    {
        let mut rest = shape;
        loop {
            match rest {
                Shape::Variable(variable) => match self.value(*variable) {
                    Some(value) => rest = value,
                    None => return rest,
                },
                Shape::Base(_) => return rest,
                Shape::Arrow(_, _) => return rest,
            }
        }
    }

    /// The shape with its bindings followed: what it mentions is free. Fails only for want of memory.
    pub fn resolved(&self, alloc: Global, shape: &Shape) -> Result<Shape, AllocError>
        requires ordered { IsOrdered (store_of self.now) }
        requires within { IsWithin (length self.now.places.items) (shape_of shape.now) }
        ensures same { IfOk result (λ r. (θ : ℕ → lf.Skeleton) → Solves θ (store_of self.now) → filled θ (shape_of r) ≡ filled θ (shape_of shape.now)) }
        ensures free { IfOk result (λ r. AllVariables (λ n. value_of (store_of self.now) n ≡ None) (shape_of r)) }
        ensures within { IfOk result (λ r. IsWithin (length self.now.places.items) (shape_of r)) }
    {
        let mut begun = Vec::new(alloc);
        let mut rest = shape;
        loop {
            let leaf = self.first_leaf(&mut begun, rest)?;
            match close(alloc, &mut begun, leaf)? {
                Built::Whole(resolved) => return Ok(resolved),
                Built::Next(range) => rest = range,
            }
        }
    }

    /// The leaf at which the shape begins, with its bindings followed. The arrows before it are begun.
    fn first_leaf<'a>(
        &'a self,
        begun: &mut Vec<Begun<'a>>,
        shape: &'a Shape,
    ) -> Result<Shape, AllocError>
        requires ordered { IsOrdered (store_of self.now) }
        ensures { IfOk result (λ s. IsLeaf (store_of self.now) (arrows_of begun.old.items) (shape_of shape.now) (arrows_of begun.new.items) (shape_of s)) }
    {
        let mut rest = shape;
        loop {
            match self.followed(rest) {
                Shape::Base(family) => return Ok(Shape::Base(*family)),
                Shape::Variable(variable) => return Ok(Shape::Variable(*variable)),
                Shape::Arrow(domain, range) => {
                    begun.push(Begun::Domain(range))?;
                    rest = domain;
                }
            }
        }
    }

    /// Whether each solution makes the shape the same skeleton. Fails only for want of memory.
    pub fn is_settled(&self, alloc: Global, shape: &Shape) -> Result<bool, AllocError>
        requires { IsOrdered (store_of self.now) }
        ensures { IfOk result (λ b. MatchBool b (IsSettled (store_of self.now) (shape_of shape.now)) (IsOpen (store_of self.now) (shape_of shape.now))) }
    {
        let mut left = Vec::new(alloc);
        left.push(shape)?;
        while let Some(next) = left.pop() {
            match self.followed(next) {
                Shape::Base(_) => (),
                Shape::Variable(_) => return Ok(false),
                Shape::Arrow(domain, range) => {
                    left.push(range)?;
                    left.push(domain)?;
                }
            }
        }
        Ok(true)
    }

    /// The skeleton that the shape is in each solution; none where it is deeper than so many levels. Fails only for want of memory.
    pub fn skeleton(
        &self,
        alloc: Global,
        shape: &Shape,
        levels: u32,
    ) -> Result<Option<Skeleton>, AllocError>
        requires ordered { IsOrdered (store_of self.now) }
        requires settled { IsSettled (store_of self.now) (shape_of shape.now) }
        ensures { IfOk result (λ o. MatchOption o (IsDeeper levels (store_of self.now) (shape_of shape.now)) (λ k. IsAlways (store_of self.now) (shape_of shape.now) (skeleton_of k))) }
    {
        if levels == 0 {
            return Ok(None);
        }
        match self.followed(shape) {
            Shape::Base(family) => Ok(Some(Skeleton::Base(*family))),
            Shape::Variable(_) => unreachable!(),
            Shape::Arrow(domain, range) => {
                let Some(domain) = self.skeleton(alloc, domain, levels - 1)? else {
                    return Ok(None);
                };
                let Some(range) = self.skeleton(alloc, range, levels - 1)? else {
                    return Ok(None);
                };
                let domain = Box::new(alloc, domain)?;
                Ok(Some(Skeleton::Arrow(domain, Box::new(alloc, range)?)))
            }
        }
    }

    /// Binds a free variable to a shape of other free variables. Without memory nothing changes.
    pub fn bind(&mut self, variable: ShapeId, value: Shape) -> Result<(), AllocError>
        requires ordered { IsOrdered (store_of self.old) }
        requires declared { variable.0 < length self.old.places.items }
        requires free { value_of (store_of self.old) variable.0 ≡ None }
        ensures ok { OnOk result (store_of self.new ≡ with_binding (store_of self.old) variable.0 (shape_of value)) }
        ensures err { OnErr result (store_of self.new ≡ store_of self.old) }
        ensures fewer { OnOk result (count_unbound self.old.places.items ≡ suc (count_unbound self.new.places.items)) }
    {
        let place = self.values.len();
        self.values.push(value)?;
        self.places[variable.0 as usize] = Some(place);
        Ok(())
    }

    /// Takes the newest bindings back, which are those of these variables, the newest last. It takes no memory.
    pub fn undo(&mut self, mut bound: Vec<usize>)
        ensures { store_of self.new ≡ without_bindings (store_of self.old) (reverse bound.items) }
    {
        'bound: while let Some(variable) = bound.pop() {
            self.undo_one(variable);
        }
    }

    // Takes the newest binding back, which is this variable's.
    fn undo_one(&mut self, variable: usize)
        ensures { store_of self.new ≡ without_binding (store_of self.old) variable }
    {
        self.values.pop();
        if variable < self.places.len() {
            self.places[variable] = None;
        }
    }
}
