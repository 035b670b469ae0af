//! Blocks of local assumptions, and worlds as lists of blocks.
ghost use Rattle.std.specs.Prelude.{◌≡◌, IfOk};
ghost use Rattle.tw_clause.specs.View.{block_of, origin_of, worlds_of};

use std::alloc::{AllocError, Global};
use tw_fixity::Name;
use tw_terms::Context;

/// A block of local assumptions under its label: its `some` variables, and its entries over these and over the entries before.
#[derive(Drop, Debug)]
pub struct Block {
    pub label: Name,
    pub some: Context,
    pub entries: Context,
}

/// The entry of a block that a clause was read off. Entries are counted from 1, the outermost first.
#[derive(Drop, Debug)]
pub struct Origin {
    pub block: Block,
    pub entry: u32,
}

/// The blocks that a local context may consist of.
#[derive(Drop, Debug)]
pub struct Worlds {
    pub blocks: Vec<Block>,
}

impl Block {
    /// An equal block. Fails only for want of memory.
    pub fn copy(&self, alloc: Global) -> Result<Block, AllocError>
        ensures { IfOk result (λ b. block_of b ≡ block_of self.now) }
    {
        Ok(Block {
            label: self.label.copy(alloc)?,
            some: self.some.copy(alloc)?,
            entries: self.entries.copy(alloc)?,
        })
    }
}

impl Origin {
    /// An equal origin. Fails only for want of memory.
    pub fn copy(&self, alloc: Global) -> Result<Origin, AllocError>
        ensures { IfOk result (λ o. origin_of o ≡ origin_of self.now) }
    {
        Ok(Origin {
            block: self.block.copy(alloc)?,
            entry: self.entry,
        })
    }
}

impl Worlds {
    /// Equal worlds. Fails only for want of memory.
    pub fn copy(&self, alloc: Global) -> Result<Worlds, AllocError>
        ensures { IfOk result (λ w. worlds_of w ≡ worlds_of self.now) }
    {
        let mut blocks = Vec::with_capacity(alloc, self.blocks.len())?;
        for block in &self.blocks {
            blocks.push(block.copy(alloc)?)?;
        }
        Ok(Worlds { blocks })
    }
}
