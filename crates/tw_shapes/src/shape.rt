//! Shapes: skeletons in which a variable may stand for what isn't written.
ghost use Rattle.std.specs.Prelude.{◌≡◌, ◌≢◌, ◌+◌, ◌≤◌, IfOk};
ghost use Rattle.std.specs.Bool.{OnTrue, OnFalse};
ghost use Rattle.tw_shapes.specs.Shapes.{AllVariables, Mentions};
ghost use Rattle.tw_shapes.specs.Building.{put_into, size, size_left};
ghost use Rattle.tw_shapes.specs.BuildingView.{arrows_of};
ghost use Rattle.tw_shapes.specs.View.{shape_of};
ghost use Rattle.tw_shapes.specs.Dropping.{whole_of};

use crate::building::{Begun, Built, close};
use std::alloc::{AllocError, Global};
use std::mem;
use tw_terms::ConstId;

/// The number of a shape variable, which is its place in the store.
#[derive(Clone, Copy, PartialEq, Eq, Debug)]
pub struct ShapeId(pub u64);

/// A skeleton, of which a variable stands for a part that isn't written.
#[derive(Debug)]
pub enum Shape {
    Variable(ShapeId),
    Base(ConstId),
    Arrow(Box<Shape>, Box<Shape>),
}

/// A shape taken apart.
#[derive(Drop, Debug)]
pub enum Parts {
    Variable(ShapeId),
    Base(ConstId),
    Arrow(Box<Shape>, Box<Shape>),
}

impl Shape {
    /// An equal shape. Fails only for want of memory.
    pub fn copy(&self, alloc: Global) -> Result<Shape, AllocError>
        ensures { IfOk result (λ s. shape_of s ≡ shape_of self.now) }
    {
        let mut begun = Vec::new(alloc);
        let mut rest = self;
        loop {
            let leaf = rest.first_leaf(&mut begun)?;
            match close(alloc, &mut begun, leaf)? {
                Built::Whole(copy) => return Ok(copy),
                Built::Next(range) => rest = range,
            }
        }
    }

    /// The leaf at which the shape begins. The arrows before it are begun.
    fn first_leaf<'a>(&'a self, begun: &mut Vec<Begun<'a>>) -> Result<Shape, AllocError>
        ensures same { IfOk result (λ s. put_into (arrows_of begun.new.items) (shape_of s) ≡ put_into (arrows_of begun.old.items) (shape_of self.now)) }
        ensures smaller { IfOk result (λ s. size (shape_of s) + size_left (arrows_of begun.new.items) ≤ size (shape_of self.now) + size_left (arrows_of begun.old.items)) }
    {
        let mut rest = self;
        loop {
            match rest {
                Shape::Variable(variable) => return Ok(Shape::Variable(*variable)),
                Shape::Base(family) => return Ok(Shape::Base(*family)),
                Shape::Arrow(domain, range) => {
                    begun.push(Begun::Domain(range))?;
                    rest = domain;
                }
            }
        }
    }

    /// Whether the variable stands somewhere in the shape. Fails only for want of memory.
    pub fn mentions(&self, alloc: Global, variable: ShapeId) -> Result<bool, AllocError>
        ensures some { IfOk result (λ b. OnTrue b (Mentions variable.0 (shape_of self.now))) }
        ensures none { IfOk result (λ b. OnFalse b (AllVariables (λ n. n ≢ variable.0) (shape_of self.now))) }
    {
        let mut left = Vec::new(alloc);
        left.push(self)?;
        while let Some(next) = left.pop() {
            match next {
                Shape::Variable(other) => {
                    if other.0 == variable.0 {
                        return Ok(true);
                    }
                }
                Shape::Base(_) => (),
                Shape::Arrow(domain, range) => {
                    left.push(range)?;
                    left.push(domain)?;
                }
            }
        }
        Ok(false)
    }

    /// What the shape is put together of.
    #[tactic(auto, using(crate::proofs::Weights::weights))]
    pub fn parts(self) -> Parts
        ensures { self ≡ whole_of result }
    {
        match self {
            Shape::Variable(variable) => Parts::Variable(variable),
            Shape::Base(family) => Parts::Base(family),
            Shape::Arrow(domain, range) => Parts::Arrow(domain, range),
        }
    }
}

// A shape is dropped in a loop, so that none takes stack, however it nests, and never in the frame of a caller, which may nest itself: what stands first comes to the front, and the rest is put behind, until
// a leaf stands first, which goes.
impl Drop for Shape {
    #[inline(never)]
    #[tactic(auto, using(crate::proofs::Weights::weights))]
    fn drop(mut self) {
        loop {
            match self.parts() {
                Parts::Variable(_) | Parts::Base(_) => return,
                Parts::Arrow(mut domain, range) => {
                    match mem::replace(&mut *domain, Shape::Base(ConstId(0))).parts() {
                        Parts::Variable(_) | Parts::Base(_) => self = Box::into_inner(range),
                        Parts::Arrow(first, second) => {
                            *domain = Shape::Arrow(second, range);
                            self = Shape::Arrow(first, domain);
                        }
                    }
                }
            }
        }
    }
}
