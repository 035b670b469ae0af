//! Cases of coverage: what the arguments of a family are over free variables and instances of blocks.
ghost use Rattle.std.specs.Prelude.{◌≡◌, IfOk, map};
ghost use Rattle.tw_clause.specs.Cases.{block_variable_of, case_of};

use crate::block::Block;
use crate::copies::{copy_optional_terms, copy_terms};
use std::alloc::{AllocError, Global};
use tw_terms::{ConstId, Open, OpenContext};

/// An instance of a block that isn't known further: the terms that stand for its `some` variables.
#[derive(Drop, Debug)]
pub struct BlockVar {
    pub block: Block,
    pub some: Vec<Open>,
}

/// A case. In it `Meta(k)` is the variable k, counted from 0, also in the types of other variables. A variable number below the length of `local` is a
/// local variable; a greater one is an entry of a block variable, the last entry of the last block variable first. The types of the variables and the
/// `some` terms stand outside `local`.
#[derive(Drop, Debug)]
pub struct Case {
    pub variables: OpenContext,
    pub blocks: Vec<BlockVar>,
    pub local: OpenContext,
    /// For the outputs of a subgoal: the term that stands for each variable of the clause that is ground before it. It stands outside `local`.
    pub given: Vec<Option<Open>>,
    pub family: ConstId,
    /// The arguments of the family, with none at a place that isn't covered.
    pub args: Vec<Option<Open>>,
}

impl BlockVar {
    /// An equal block variable. Fails only for want of memory.
    pub fn copy(&self, alloc: Global) -> Result<BlockVar, AllocError>
        ensures { IfOk result (λ b. block_variable_of b ≡ block_variable_of self.now) }
    {
        Ok(BlockVar {
            block: self.block.copy(alloc)?,
            some: copy_terms(alloc, &self.some)?,
        })
    }
}

impl Case {
    /// An equal case. Fails only for want of memory.
    pub fn copy(&self, alloc: Global) -> Result<Case, AllocError>
        ensures { IfOk result (λ c. case_of c ≡ case_of self.now) }
    {
        Ok(Case {
            variables: self.variables.copy(alloc)?,
            blocks: copy_blocks(alloc, &self.blocks)?,
            local: self.local.copy(alloc)?,
            given: copy_optional_terms(alloc, &self.given)?,
            family: self.family,
            args: copy_optional_terms(alloc, &self.args)?,
        })
    }
}

fn copy_blocks(alloc: Global, blocks: &[BlockVar]) -> Result<Vec<BlockVar>, AllocError>
    ensures { IfOk result (λ bs. map block_variable_of bs.items ≡ map block_variable_of blocks.now) }
{
    let mut copies = Vec::with_capacity(alloc, blocks.len())?;
    for block in blocks {
        copies.push(block.copy(alloc)?)?;
    }
    Ok(copies)
}
