//! Clauses read off types, entries of blocks, and signatures.
ghost use Rattle.std.specs.Prelude.{◌≡◌, ◌<◌, ◌≤◌, IfOk, None, Some, length, map, option_map};
ghost use Rattle.lf.specs.Constants.{constants_of};
ghost use Rattle.lf_checks.specs.Parts.{parts};
ghost use Rattle.tw_terms.specs.View.{type_of};
ghost use Rattle.tw_clause.specs.Entries.{entry_clause_at};
ghost use Rattle.tw_clause.specs.View.{block_of, origin_of, parts_of, type_parts};

use crate::block::{Block, Origin};
use crate::clause::Clause;
use crate::collected::Collected;
use crate::counts::count_variables;
use crate::renumbering::{numbers_at, renumber_spine};
use std::alloc::{AllocError, Global};
use tw_signature::{Signature, shape_of};
use tw_terms::{ConstId, Context, Ty};

/// The clause of a type, closed or not: outside its variables it has what stands outside the type, by number. Costs the size of the type. Fails only for
/// want of memory.
pub fn clause_of(alloc: Global, ty: &Ty) -> Result<Clause, AllocError>
    ensures parts { IfOk result (λ c. parts_of c ≡ type_parts (type_of ty.now)) }
    ensures origin { IfOk result (λ c. c.origin ≡ None) }
{
    let shape = shape_of(alloc, ty)?;
    let before = count_variables(alloc, &shape)?;
    let whole = shape.len();
    let mut collected = Collected {
        variables: Context::new(alloc),
        subgoals: Vec::new(alloc),
    };
    let mut rest = ty;
    let mut level = 0;
    loop {
        match rest {
            Ty::Pi(domain, range) => {
                let inside = numbers_at(&before, level, level);
                let in_whole = numbers_at(&before, level, whole);
                collected.add(alloc, shape[level], &inside, &in_whole, domain)?;
                level += 1;
                rest = range;
            }
            Ty::Atom(family, spine) => {
                let head = renumber_spine(alloc, &numbers_at(&before, level, level), 0, spine)?;
                let Collected {
                    variables,
                    mut subgoals,
                } = collected;
                subgoals.reverse();
                return Ok(Clause {
                    origin: None,
                    variables,
                    shape,
                    family: *family,
                    head,
                    subgoals,
                });
            }
        }
    }
}

/// The clause of an entry of a block, the first entry being 1: outside its variables it has the entries before it and then the `some` variables of the block,
/// by number. Costs the size of the block. Fails only for want of memory.
pub fn clause_of_entry(alloc: Global, block: &Block, entry: u32) -> Result<Clause, AllocError>
    requires first { 0 < entry }
    requires last { entry ≤ length block.now.entries }
    ensures parts { IfOk result (λ c. option_map parts (entry_clause_at (block_of block.now) entry block.now.entries) ≡ Some (parts_of c)) }
    ensures origin { IfOk result (λ c. option_map origin_of c.origin ≡ Some (block_of block.now, entry)) }
{
    let newer = block.entries.len() as u64 - entry as u64;
    match block.entries.get(newer) {
        Some(ty) => {
            let mut clause = clause_of(alloc, ty)?;
            clause.origin = Some(Origin {
                block: block.copy(alloc)?,
                entry,
            });
            Ok(clause)
        }
        None => unreachable!(),
    }
}

/// The declared constants whose target is the family, the oldest first. Costs as many steps as there are. Fails only for want of memory.
pub fn clauses(alloc: Global, sig: &Signature, family: ConstId) -> Result<Vec<ConstId>, AllocError>
    ensures { IfOk result (λ cs. map (λ c. c.0) cs.items ≡ constants_of sig.now family.0) }
{
    Vec::from_slice(alloc, sig.constants_of(family))
}
