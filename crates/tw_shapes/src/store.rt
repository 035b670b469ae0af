//! The store of shape variables.
ghost use Rattle.std.specs.Prelude.{◌≡◌, ℕ, ◌<◌, ◌≤◌, IfOk, OnOk, OnErr, MatchBool, MatchOption};
ghost use Rattle.lf.specs.Syntax as lf;
ghost use Rattle.lf.specs.Depth.{depth_limit};
ghost use Rattle.tw_terms.specs.View.{skeleton_of};
ghost use Rattle.tw_shapes.specs.View.{shape_of};

use crate::bindings::Bindings;
use crate::equations::{Equation, solve};
use crate::shape::{Shape, ShapeId};
use std::alloc::{AllocError, Global};
use std::marker::Model;
use tw_terms::{DEPTH_LIMIT, Skeleton};

/// Shape variables, and what the equations so far say of them. Contracts see the bindings; what counts of them is which assignments solve the store.
#[derive(Drop)]
pub struct Shapes {
    alloc: Global,
    bindings: Bindings,
}

impl Model for Shapes {
    ghost use Rattle.tw_shapes.specs.Shapes.{Store};
    ghost use Rattle.tw_shapes.specs.Order.{IsOrdered};
    ghost use Rattle.tw_shapes.specs.View.{store_of};
    ghost use Rattle.tw_shapes.specs.Codes.{store_code};

    ghost Value = { Store };

    ghost coded = { store_code };

    ghost view = { λ s. store_of s.bindings };

    ghost invariant = { λ s. IsOrdered (store_of s.bindings) };
}

impl Shapes {
    ghost use Rattle.tw_shapes.specs.Shapes.{empty_store, Solves, with_variable, count_of, value_of, IsWithin, IsUnused, HasSolution, Unifies, IsAlways, IsDeeper, IsOpen, IsSettled, SameSolutions};

    /// The store without variables, which each assignment solves. It keeps the allocator.
    pub fn new(alloc: Global) -> Shapes
        ensures empty { result ≡ empty_store }
        ensures open { (θ : ℕ → lf.Skeleton) → Solves θ result }
    {
        Shapes {
            alloc,
            bindings: Bindings {
                places: Vec::new(alloc),
                values: Vec::new(alloc),
            },
        }
    }

    /// One variable more, of which nothing is said. Its number is how many there were. Without memory nothing changes.
    pub fn fresh(&mut self) -> Result<ShapeId, AllocError>
        ensures ok { OnOk result (self.new ≡ with_variable self.old) }
        ensures number { IfOk result (λ m. m.0 ≡ count_of self.old) }
        ensures same { SameSolutions self.old self.new }
        ensures unused { IfOk result (λ m. IsUnused self.new m.0) }
        ensures within { IfOk result (λ m. m.0 < count_of self.new) }
        ensures count { count_of self.old ≤ count_of self.new }
        ensures err { OnErr result (self.new ≡ self.old) }
    {
        let number = self.bindings.places.len() as u64;
        self.bindings.places.push(None)?;
        Ok(ShapeId(number))
    }

    /// Makes both shapes equal, in the most general way: whether that can be done. Where it can't, or memory is wanting, nothing changes.
    /// The shapes are of variables that `fresh` gave.
    /// It takes time, and memory for what it binds, in the size of the shapes with their bindings followed, where each use of a variable counts anew:
    /// with `X1 = X0 -> X0`, `X2 = X1 -> X1`, .. that doubles each time.
    pub fn unify(&mut self, left: &Shape, right: &Shape) -> Result<bool, AllocError>
        requires left { IsWithin (count_of self.old) (shape_of left.now) }
        requires right { IsWithin (count_of self.old) (shape_of right.now) }
        ensures ok { IfOk result (λ b. Unifies self.old self.new (shape_of left.now) (shape_of right.now) b) }
        ensures count { count_of self.new ≡ count_of self.old }
        ensures err { OnErr result (self.new ≡ self.old) }
    {
        let alloc = self.alloc;
        let mut pending = Vec::new(alloc);
        let equation = Equation {
            left: left.copy(alloc)?,
            right: right.copy(alloc)?,
        };
        pending.push(equation)?;
        solve(&mut self.bindings, alloc, pending)
    }

    /// Whether each solution makes the shape the same skeleton. Fails only for want of memory.
    pub fn is_settled(&self, shape: &Shape) -> Result<bool, AllocError>
        ensures { IfOk result (λ b. MatchBool b (IsSettled self.now (shape_of shape.now)) (IsOpen self.now (shape_of shape.now))) }
    {
        self.bindings.is_settled(self.alloc, shape)
    }

    /// The skeleton that the shape is in each solution; none where it is deeper than 4,096. Fails only for want of memory.
    pub fn solved(&self, shape: &Shape) -> Result<Option<Skeleton>, AllocError>
        requires { IsSettled self.now (shape_of shape.now) }
        ensures { IfOk result (λ o. MatchOption o (IsDeeper depth_limit self.now (shape_of shape.now)) (λ k. IsAlways self.now (shape_of shape.now) (skeleton_of k))) }
    {
        self.bindings.skeleton(self.alloc, shape, DEPTH_LIMIT)
    }

    /// Each store has a solution. A law: it has no code.
    pub fn has_solution(&self)
        ensures { HasSolution self.now }
    {
        let _ = &self.bindings;
    }
}
