//! The state of a walk over a text.
ghost use Rattle.std.specs.Prelude.{◌≡◌, IfOk, OnOk, MatchBool};
ghost use Rattle.tw_shapes.specs.Shapes.{count_of, IsWithin};
ghost use Rattle.tw_shapes.specs.View.{shape_of};
ghost use Rattle.tw_approx.specs.Reading.{state_of, IsOmitted};
ghost use Rattle.tw_approx.specs.Walks.{IsSound, empty_state, inside, outside};

use crate::variables::FreeVariables;
use std::alloc::{AllocError, Global};
use tw_fixity::{Name, Scope};
use tw_shapes::{Shape, ShapeId, Shapes};

/// What is known on the way over a text.
#[derive(Drop)]
pub struct Walk {
    /// The names of the variables in scope.
    pub scope: Scope,
    /// Their shapes, the innermost last.
    pub context: Vec<Shape>,
    /// The store of shape variables.
    pub shapes: Shapes,
    /// The free variables so far.
    pub variables: FreeVariables,
    /// The shape variables of holes and untyped binders, in the order in which the text is gone over.
    pub omitted: Vec<ShapeId>,
}

impl Walk {
    /// The walk before a text.
    pub fn new(alloc: Global) -> Walk
        ensures { state_of result ≡ empty_state }
    {
        Walk {
            scope: Scope::new(alloc),
            context: Vec::new(alloc),
            shapes: Shapes::new(alloc),
            variables: FreeVariables::new(alloc),
            omitted: Vec::new(alloc),
        }
    }

    /// The shape of something that isn't written: a new variable.
    pub fn omit(&mut self) -> Result<Shape, AllocError>
        requires { IsSound (state_of self.old) }
        ensures { IfOk result (λ s. IsOmitted (state_of self.old) (state_of self.new) (shape_of s)) }
    {
        let variable = self.shapes.fresh()?;
        self.omitted.push(variable)?;
        Ok(Shape::Variable(variable))
    }

    /// Goes under one more variable, of this shape.
    pub fn enter(&mut self, name: Option<Name>, shape: Shape) -> Result<(), AllocError>
        ensures { OnOk result (state_of self.new ≡ inside name (shape_of shape) (state_of self.old)) }
    {
        self.scope.push(name)?;
        self.context.push(shape)?;
        Ok(())
    }

    /// Goes back from the innermost variable.
    pub fn leave(&mut self)
        ensures { state_of self.new ≡ outside (state_of self.old) }
    {
        self.scope.pop();
        let _ = self.context.pop();
    }
}
