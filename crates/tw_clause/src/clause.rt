//! Clauses, with their subgoals in solving order.
ghost use Rattle.std.specs.Prelude.{◌≡◌, IfOk, map, option_map};
ghost use Rattle.tw_clause.specs.View.{origin_of, parts_of, subgoal_of};

use crate::block::Origin;
use std::alloc::{AllocError, Global};
use tw_terms::{ConstId, Context, Spine};

/// A subgoal: a family on arguments, in a local context over the clause's variables.
#[derive(Drop, Debug)]
pub struct Subgoal {
    pub context: Context,
    pub family: ConstId,
    pub args: Spine,
}

/// A type seen as a clause. Head and subgoals stand over `variables`, and these over what stands outside the type.
#[derive(Drop, Debug)]
pub struct Clause {
    /// The block and the entry that the clause was read off, if it is one of an entry.
    pub origin: Option<Origin>,
    pub variables: Context,
    /// For each leading quantifier, the outermost first: whether it is a variable. Any other is a subgoal.
    pub shape: Vec<bool>,
    pub family: ConstId,
    pub head: Spine,
    /// In solving order: that of the last quantifier is the first.
    pub subgoals: Vec<Subgoal>,
}

impl Subgoal {
    /// An equal subgoal. Fails only for want of memory.
    pub fn copy(&self, alloc: Global) -> Result<Subgoal, AllocError>
        ensures { IfOk result (λ g. subgoal_of g ≡ subgoal_of self.now) }
    {
        Ok(Subgoal {
            context: self.context.copy(alloc)?,
            family: self.family,
            args: self.args.copy(alloc)?,
        })
    }
}

impl Clause {
    /// An equal clause. Fails only for want of memory.
    pub fn copy(&self, alloc: Global) -> Result<Clause, AllocError>
        ensures parts { IfOk result (λ c. parts_of c ≡ parts_of self.now) }
        ensures origin { IfOk result (λ c. option_map origin_of c.origin ≡ option_map origin_of self.now.origin) }
    {
        Ok(Clause {
            origin: copy_origin(alloc, &self.origin)?,
            variables: self.variables.copy(alloc)?,
            shape: Vec::from_slice(alloc, &self.shape)?,
            family: self.family,
            head: self.head.copy(alloc)?,
            subgoals: copy_subgoals(alloc, &self.subgoals)?,
        })
    }
}

fn copy_origin(alloc: Global, origin: &Option<Origin>) -> Result<Option<Origin>, AllocError>
    ensures { IfOk result (λ o. option_map origin_of o ≡ option_map origin_of origin.now) }
{
    match origin {
        Some(origin) => Ok(Some(origin.copy(alloc)?)),
        None => Ok(None),
    }
}

fn copy_subgoals(alloc: Global, subgoals: &[Subgoal]) -> Result<Vec<Subgoal>, AllocError>
    ensures { IfOk result (λ gs. map subgoal_of gs.items ≡ map subgoal_of subgoals.now) }
{
    let mut copies = Vec::with_capacity(alloc, subgoals.len())?;
    for subgoal in subgoals {
        copies.push(subgoal.copy(alloc)?)?;
    }
    Ok(copies)
}
