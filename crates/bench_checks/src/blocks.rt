//! Worlds with many blocks, of which the last one has the hypotheses of the clauses as instances.
ghost use Rattle.std.specs.Prelude.{IfOk};
ghost use Rattle.lf.specs.Entries.{signature_of};
ghost use Rattle.lf.specs.Subordination.{AreTypedBlocks, IsTypedBlock};
ghost use Rattle.tw_clause.specs.View.{block_of, worlds_of};

use crate::signatures::{FIRST, call, number};
use std::alloc::{AllocError, Global};
use tw_clause::{Block, Worlds};
use tw_fixity::Name;
use tw_kernel::{Verdict, check_context, check_type};
use tw_signature::Signature;
use tw_terms::{ConstId, Context, Ty};

/// So many blocks of the first family, of which all but the last have no instance among the hypotheses of this kind.
pub(crate) fn many_blocks(
    alloc: Global,
    signature: &Signature,
    kind: &str,
    count: u64,
) -> Result<Worlds, AllocError>
    ensures { IfOk result (λ w. AreTypedBlocks (signature_of signature.now) (worlds_of w)) }
{
    let mut blocks = Vec::new(alloc);
    for place in 0..count {
        let is_last = place == count - 1;
        let has_some = is_last == (kind == "instances");
        blocks.push(labelled(alloc, signature, place, has_some)?)?;
    }
    Ok(Worlds { blocks })
}

// `some {x:n} {y:n} block {u:f x y}`, or `block {x:n}`, with a label of its own
fn labelled(
    alloc: Global,
    signature: &Signature,
    place: u64,
    has_some: bool,
) -> Result<Block, AllocError>
    ensures { IfOk result (λ b. IsTypedBlock (signature_of signature.now) (block_of b)) }
{
    let text = format!(in alloc; "l{place}")?;
    let label = Name::from_text(alloc, &text)?;
    let mut some = Context::new(alloc);
    if has_some {
        some.push(number(alloc))?;
        some.push(number(alloc))?;
        let entry = call(alloc, ConstId(FIRST), 0)?;
        typed(alloc, signature, label, some, entry)
    } else {
        typed(alloc, signature, label, some, number(alloc))
    }
}

// the block with this one entry; what isn't typed counts as want of memory
fn typed(
    alloc: Global,
    signature: &Signature,
    label: Name,
    some: Context,
    entry: Ty,
) -> Result<Block, AllocError>
    ensures { IfOk result (λ b. IsTypedBlock (signature_of signature.now) (block_of b)) }
{
    match check_context(alloc, signature, &some)? {
        Verdict::Typed => (),
        Verdict::IllTyped | Verdict::TooDeep => return Err(AllocError),
    }
    match check_type(alloc, signature, &some, &entry)? {
        Verdict::Typed => (),
        Verdict::IllTyped | Verdict::TooDeep => return Err(AllocError),
    }
    let mut entries = Context::new(alloc);
    entries.push(entry)?;
    Ok(Block {
        label,
        some,
        entries,
    })
}
