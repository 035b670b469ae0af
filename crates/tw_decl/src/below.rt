//! Which families are below which, over what is declared.
ghost use Rattle.std.specs.Prelude.{◌≡◌, ◌↔◌, ◌<◌, ℕ, Contains, IfOk, length, map, true};
ghost use Rattle.lf.specs.Entries.{signature_of};
ghost use Rattle.lf.specs.Subordination.{Below};
ghost use Rattle.tw_clause.specs.View.{block_of};
ghost use Rattle.tw_decl.specs.Steps.{entries_alone};
ghost use Rattle.tw_subord.specs.Rows.{is_below, row};
ghost use Rattle.tw_subord.specs.View.{worlds_of_types};
ghost use Rattle.tw_terms.specs.View.{type_of};

use crate::session::Session;
use std::alloc::{AllocError, Global};
use tw_clause::Block;
use tw_subord::{BlockTypes, Subord};
use tw_terms::{Context, Ty};

// The types of entries, the newest first. Fails only for want of memory.
fn types_of(alloc: Global, entries: &Context) -> Result<Vec<Ty>, AllocError>
    ensures { IfOk result (λ types. map type_of types.items ≡ entries.now) }
{
    let mut types = Vec::new(alloc);
    let count = entries.len() as u64;
    let mut next = 0;
    while next < count {
        let Some(ty) = entries.get(next) else {
            unreachable!()
        };
        types.push(ty.copy(alloc)?)?;
        next += 1;
    }
    Ok(types)
}

// The types of the entries of blocks. Fails only for want of memory.
fn types_of_blocks(alloc: Global, blocks: &[Block]) -> Result<Vec<BlockTypes>, AllocError>
    ensures { IfOk result (λ types. worlds_of_types types.items ≡ entries_alone (map block_of blocks.now)) }
{
    let mut types = Vec::with_capacity(alloc, blocks.len())?;
    for block in blocks {
        types.push(BlockTypes {
            types: types_of(alloc, &block.entries)?,
        })?;
    }
    Ok(types)
}

/// Which families are below which, over the signature and all blocks that are declared. Takes what `Subord::of` does, and a copy of the types of the blocks. Fails only for want of memory.
pub fn subordination(alloc: Global, session: &Session) -> Result<Subord, AllocError>
    ensures decided { IfOk result (λ s. (a b : ℕ) → (is_below s a b ≡ true) ↔ Below (signature_of session.now.signature) session.now.checked.blocks a b) }
    ensures listed { IfOk result (λ s. (a b : ℕ) → b < length session.now.signature → (Contains (row s b) a) ↔ Below (signature_of session.now.signature) session.now.checked.blocks a b) }
{
    let types = types_of_blocks(alloc, session.blocks())?;
    let subord = Subord::of(alloc, session.signature(), &types)?;
    Ok(subord)
}
