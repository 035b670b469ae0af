//! How many metavariables a name or a skeleton leaves open.
ghost use Rattle.std.specs.Prelude.{◌≡◌, ◌+◌, ◌++◌, ◌∷◌, [], IfOk, OnOk};
ghost use Rattle.lf.specs.Entries.{entry, kind_quantifiers, signature_of};
ghost use Rattle.lf_elaboration.specs.Sites.{arguments_in, implicit_in, indices as indices_of};
ghost use Rattle.tw_terms.specs.View.{kind_of, skeleton_of};

use std::alloc::{AllocError, Global};
use tw_signature::Signature;
use tw_terms::{ConstId, Kind, Skeleton};

/// The implicit arguments of a constant or family.
pub fn implicit_arguments(signature: &Signature, id: ConstId) -> u64
    ensures { result ≡ implicit_in (entry signature.now id.0) }
{
    match signature.entry(id) {
        Some(entry) => entry.implicit as u64,
        None => 0,
    }
}

/// The arguments of the families of the skeleton. Parts of it wait on the heap. Fails for want of memory, and past 2 ^ 64 - 1 arguments, which no memory holds.
pub fn indices(alloc: Global, signature: &Signature, skeleton: &Skeleton) -> Result<u64, AllocError>
    ensures { IfOk result (λ n. n ≡ indices_of signature.now (skeleton_of skeleton.now)) }
{
    let mut waiting: Vec<&Skeleton> = Vec::new(alloc);
    let mut count: u64 = 0;
    waiting.push(skeleton)?;
    while let Some(next) = waiting.pop() {
        match next {
            Skeleton::Base(family) => count = added(count, family_arguments(signature, *family)?)?,
            Skeleton::Arrow(domain, range) => wait_for_both(&mut waiting, domain, range)?,
        }
    }
    Ok(count)
}

#[inline(never)]
fn wait_for_both<'a>(
    waiting: &mut Vec<&'a Skeleton>,
    domain: &'a Skeleton,
    range: &'a Skeleton,
) -> Result<(), AllocError>
    ensures { OnOk result (waiting.new.items ≡ waiting.old.items ++ range.entry ∷ domain.entry ∷ []) }
{
    waiting.push(range)?;
    waiting.push(domain)?;
    Ok(())
}

/// The sum. Fails past 2 ^ 64 - 1, which no memory holds.
fn added(count: u64, more: u64) -> Result<u64, AllocError>
    ensures { IfOk result (λ n. n ≡ count + more) }
{
    count.checked_add(more).ok_or(AllocError)
}

/// The arguments of the family; none where it isn't declared.
fn family_arguments(signature: &Signature, family: ConstId) -> Result<u64, AllocError>
    ensures { IfOk result (λ n. n ≡ arguments_in ((signature_of signature.now).kinds family.0)) }
{
    match signature.family_kind(family) {
        Some(kind) => kind_arguments(kind),
        None => Ok(0),
    }
}

/// The arguments that the kind takes. Fails past 2 ^ 64 - 1, which no memory holds.
fn kind_arguments(kind: &Kind) -> Result<u64, AllocError>
    ensures { IfOk result (λ n. n ≡ kind_quantifiers (kind_of kind.now)) }
{
    let mut rest = kind;
    for count in 0..u64::MAX {
        match rest {
            Kind::Star => return Ok(count),
            Kind::Pi(_, range) => rest = range,
        }
    }
    Err(AllocError)
}
