//! The free variables, which are metavariables in the empty context.
ghost use Rattle.std.specs.Prelude.{◌≡◌, [], ◌∷◌, ◌++◌, map, IfOk, IsErrOf, OnOk};
ghost use Rattle.lf.specs.Entries.{signature_of, IsCanonicalSignature};
ghost use Rattle.lf_elaboration.specs.Elaboration.{NewFrees};
ghost use Rattle.tw_terms.specs.View.{skeleton_of};
ghost use Rattle.tw_elaborate.specs.Fits.{Stands};
ghost use Rattle.tw_elaborate.specs.Frees.{IsNewFree};
ghost use Rattle.tw_elaborate.specs.Fresh.{Keeps};
ghost use Rattle.tw_elaborate.specs.NewDeep.{NewFreesDeep, NewTypeDeep};
ghost use Rattle.tw_elaborate.specs.View.{made, numbers_of};

use crate::frames::LEVELS;
use crate::fresh::new_type;
use crate::state::Elaboration;
use std::alloc::{AllocError, Global};
use tw_hered::HeredFault;
use tw_signature::Signature;
use tw_terms::{MetaId, OpenContext, Skeleton};

/// A metavariable of the most general type for each skeleton, in order. Where a family isn't declared, memory counts as used up.
pub fn new_frees(
    alloc: Global,
    signature: &Signature,
    state: &mut Elaboration,
    skeletons: &[Skeleton],
) -> Result<Vec<MetaId>, HeredFault>
    requires canonical { IsCanonicalSignature signature.now }
    requires stands { Stands (signature_of signature.now) (made state.old) state.old.locals }
    requires no_locals { state.old.locals ≡ [] }
    ensures ok { IfOk result (λ ms. NewFrees signature.now (map skeleton_of skeletons.now) (made state.old) (made state.new) (numbers_of ms.items)) }
    ensures too_deep { IsErrOf result HeredFault.TooDeep → NewFreesDeep signature.now (map skeleton_of skeletons.now) (made state.old) }
    ensures keeps { Keeps state.old state.new }
{
    let mut numbers = Vec::new(alloc);
    for skeleton in skeletons {
        let meta = new_free(alloc, signature, state, skeleton)?;
        push_number(&mut numbers, meta)?;
    }
    Ok(numbers)
}

/// One number more, behind the others.
fn push_number(numbers: &mut Vec<MetaId>, meta: MetaId) -> Result<(), AllocError>
    ensures { OnOk result (numbers.new.items ≡ numbers.old.items ++ (meta ∷ [])) }
{
    numbers.push(meta)?;
    Ok(())
}

/// A metavariable of the most general type of the skeleton, in the empty context.
fn new_free(
    alloc: Global,
    signature: &Signature,
    state: &mut Elaboration,
    skeleton: &Skeleton,
) -> Result<MetaId, HeredFault>
    requires canonical { IsCanonicalSignature signature.now }
    requires stands { Stands (signature_of signature.now) (made state.old) state.old.locals }
    requires no_locals { state.old.locals ≡ [] }
    ensures ok { IfOk result (λ m. IsNewFree signature.now (skeleton_of skeleton.now) m.0 state.old state.new) }
    ensures too_deep { IsErrOf result HeredFault.TooDeep → NewTypeDeep signature.now [] (skeleton_of skeleton.now) (made state.old) }
    ensures keeps { Keeps state.old state.new }
{
    let ty = new_type(alloc, signature, state, skeleton, LEVELS)?;
    Ok(state.store.fresh(OpenContext::new(alloc), ty)?)
}
