//! The quantifiers of types and kinds, each as the target of its domain and the target of its range.
ghost use Rattle.std.specs.Prelude.{◌≡◌, ◌++◌, OnOk, IfOk, length};
ghost use Rattle.lf.specs.Entries.{signature_of};
ghost use Rattle.lf.specs.Variables.{target};
ghost use Rattle.tw_terms.specs.View.{type_of, kind_of};
ghost use Rattle.tw_subord.specs.Pairs.{pairs_of, type_pairs, kind_pairs, number_pairs, numbered_pairs, block_pairs, blocks_pairs};

use crate::subord::BlockTypes;
use std::alloc::{AllocError, Global};
use tw_signature::Signature;
use tw_terms::{ConstId, Kind, Ty};

/// The target of a quantifier's domain, and that of its range.
#[derive(Clone, Copy)]
pub struct Pair {
    pub below: u64,
    pub above: u64,
}

/// The pairs of each type and kind of the signature, and of each type of the blocks. Linear in their size.
pub fn all_pairs(
    alloc: Global,
    signature: &Signature,
    blocks: &[BlockTypes],
) -> Result<Vec<Pair>, AllocError>
    ensures { IfOk result (λ v. pairs_of v.items ≡ numbered_pairs (signature_of signature.now) (length signature.now) ++ blocks_pairs blocks.now) }
{
    let mut pairs = Vec::new(alloc);
    for number in 0..signature.len() {
        note_number(signature, ConstId(number), &mut pairs)?;
    }
    for block in blocks {
        note_block(block, &mut pairs)?;
    }
    Ok(pairs)
}

/// Adds those of an entry.
fn note_number(
    signature: &Signature,
    number: ConstId,
    pairs: &mut Vec<Pair>,
) -> Result<(), AllocError>
    ensures { OnOk result (pairs_of pairs.new.items ≡ pairs_of pairs.old.items ++ number_pairs (signature_of signature.now) number.0) }
{
    if let Some(ty) = signature.constant_type(number) {
        note_type(ty, pairs)?;
    }
    if let Some(kind) = signature.family_kind(number) {
        note_kind(number, kind, pairs)?;
    }
    Ok(())
}

/// Adds those of the types of a block.
fn note_block(block: &BlockTypes, pairs: &mut Vec<Pair>) -> Result<(), AllocError>
    ensures { OnOk result (pairs_of pairs.new.items ≡ pairs_of pairs.old.items ++ block_pairs block.now) }
{
    for ty in &block.types {
        note_type(ty, pairs)?;
    }
    Ok(())
}

/// Adds those of a type, and gives its target. The stack nests as deep as the type does.
fn note_type(ty: &Ty, pairs: &mut Vec<Pair>) -> Result<ConstId, AllocError>
    ensures target { IfOk result (λ family. family.0 ≡ target (type_of ty.now)) }
    ensures pairs { OnOk result (pairs_of pairs.new.items ≡ pairs_of pairs.old.items ++ type_pairs (type_of ty.now)) }
{
    match ty {
        Ty::Pi(domain, range) => {
            let below = note_type(domain, pairs)?;
            let above = note_type(range, pairs)?;
            pairs.push(Pair {
                below: below.0,
                above: above.0,
            })?;
            Ok(above)
        }
        Ty::Atom(family, _) => Ok(*family),
    }
}

/// Adds those of the kind of a family.
fn note_kind(family: ConstId, kind: &Kind, pairs: &mut Vec<Pair>) -> Result<(), AllocError>
    ensures { OnOk result (pairs_of pairs.new.items ≡ pairs_of pairs.old.items ++ kind_pairs family.0 (kind_of kind.now)) }
{
    match kind {
        Kind::Pi(domain, range) => {
            let below = note_type(domain, pairs)?;
            pairs.push(Pair {
                below: below.0,
                above: family.0,
            })?;
            note_kind(family, range, pairs)
        }
        Kind::Star => Ok(()),
    }
}
