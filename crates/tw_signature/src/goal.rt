//! The goal of a query.
ghost use Rattle.std.specs.Prelude.{◌≡◌, IfOk};
ghost use Rattle.tw_signature.specs.Goal.{goal_of};

use std::alloc::{AllocError, Global};
use tw_fixity::{Name, copy_option, copy_options};
use tw_terms::{Context, Ty};

/// A query after reconstruction: its variables, each with the name of the first free variable of the text that it alone stands for, if there is one; the
/// variables with names, in the order of the text; the name of the proof, if one is asked for; and the goal over the variables. Variables are numbered from
/// the newest.
#[derive(Drop)]
pub struct Goal {
    pub variables: Context,
    pub names: Vec<Option<Name>>,
    pub shown: Vec<u64>,
    pub proof: Option<Name>,
    pub goal: Ty,
}

impl Goal {
    /// An equal goal. Fails only for want of memory.
    pub fn copy(&self, alloc: Global) -> Result<Goal, AllocError>
        ensures { IfOk result (λ g. goal_of g ≡ goal_of self.now) }
    {
        Ok(Goal {
            variables: self.variables.copy(alloc)?,
            names: copy_options(alloc, &self.names)?,
            shown: Vec::from_slice(alloc, &self.shown)?,
            proof: copy_option(alloc, &self.proof)?,
            goal: self.goal.copy(alloc)?,
        })
    }
}
