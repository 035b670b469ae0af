//! Subordination over a signature and the blocks of a case.
use crate::blocks::block_types;
use crate::reading::{read_family, read_worlds};
use std::alloc::{AllocError, Global};
use tests_forms::{Case, FormFault, Names};
use tw_clause::Worlds;
use tw_signature::Signature;
use tw_subord::Subord;
use tw_terms::ConstId;

/// Adds whether the family `lower` is below `upper`.
pub(crate) fn below(
    alloc: Global,
    signature: &Signature,
    names: &mut Names,
    case: &Case,
    line: &mut String,
) -> Result<(), FormFault> {
    let lower = read_family(names, case, "lower")?;
    let upper = read_family(names, case, "upper")?;
    let subord = read_subord(alloc, signature, names, case)?;
    let answer = if subord.below(lower, upper) {
        "yes"
    } else {
        "no"
    };
    Ok(line.push_str(answer)?)
}

/// Adds the families below `upper`, in order.
pub(crate) fn families(
    alloc: Global,
    signature: &Signature,
    names: &mut Names,
    case: &Case,
    line: &mut String,
) -> Result<(), FormFault> {
    let upper = read_family(names, case, "upper")?;
    let subord = read_subord(alloc, signature, names, case)?;
    Ok(put_families(line, names, subord.families_below(upper))?)
}

fn put_families(line: &mut String, names: &Names, numbers: &[u64]) -> Result<(), AllocError> {
    for number in numbers {
        names.show_constant(line, ConstId(*number))?;
        line.push(' ')?;
    }
    Ok(())
}

fn read_subord(
    alloc: Global,
    signature: &Signature,
    names: &mut Names,
    case: &Case,
) -> Result<Subord, FormFault> {
    let worlds = read_worlds(alloc, names, case)?;
    Ok(subord_over(alloc, signature, &worlds)?)
}

/// Subordination over the signature and these blocks.
pub(crate) fn subord_over(
    alloc: Global,
    signature: &Signature,
    worlds: &Worlds,
) -> Result<Subord, AllocError> {
    let types = block_types(alloc, worlds)?;
    Subord::of(alloc, signature, &types)
}
