//! Equations between open terms.
ghost use Rattle.std.specs.Prelude.{◌≡◌, IfOk};
ghost use Rattle.tw_metas.specs.View.{equation_of};

use std::alloc::{AllocError, Global};
use tw_terms::{Open, OpenContext, OpenTy};

/// An equation between two open terms of one type. They stand in the context.
#[derive(Debug, Drop)]
pub struct Equation {
    pub context: OpenContext,
    pub left: Open,
    pub right: Open,
    pub ty: OpenTy,
}

impl Equation {
    /// An equal equation. Fails only for want of memory.
    pub fn copy(&self, alloc: Global) -> Result<Equation, AllocError>
        ensures { IfOk result (λ e. equation_of e ≡ equation_of self.now) }
    {
        Ok(Equation {
            context: self.context.copy(alloc)?,
            left: self.left.copy(alloc)?,
            right: self.right.copy(alloc)?,
            ty: self.ty.copy(alloc)?,
        })
    }
}
