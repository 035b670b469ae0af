//! Holes, for which metavariables stand.
ghost use Rattle.std.specs.Prelude.{List, ℕ, IfOk, IsErrOf, ◌≡◌};
ghost use Rattle.lf.specs.Entries.{Entry as Entered, signature_of, IsCanonicalSignature};
ghost use Rattle.lf_elaboration.specs.Elaboration.{Checks, Infers};
ghost use Rattle.lf_elaboration.specs.Written.{Place, hole};
ghost use Rattle.tw_terms.specs.OpenView.{open_term_of, open_type_of};
ghost use Rattle.tw_terms.specs.View.{skeleton_of};
ghost use Rattle.tw_elaborate.specs.Fits.{Stands};
ghost use Rattle.tw_elaborate.specs.Fresh.{Keeps};
ghost use Rattle.tw_elaborate.specs.NewDeep.{NewTypeDeep};
ghost use Rattle.tw_elaborate.specs.View.{made};

use crate::equations::has_skeleton;
use crate::frames::LEVELS;
use crate::fresh::{new_term, new_type};
use crate::state::Elaboration;
use std::alloc::{AllocError, Global};
use tw_hered::HeredFault;
use tw_signature::Signature;
use tw_terms::{Open, OpenTy, Skeleton};

/// A new metavariable of the most general type of the skeleton, and that type.
#[inline(never)]
pub fn term_hole(
    alloc: Global,
    signature: &Signature,
    state: &mut Elaboration,
    skeleton: &Skeleton,
) -> Result<(Open, OpenTy), HeredFault>
    requires canonical { IsCanonicalSignature signature.now }
    requires stands { Stands (signature_of signature.now) (made state.old) state.old.locals }
    ensures ok { IfOk result (λ p. (numbers : List ℕ) (at : Place) → Infers signature.now numbers state.old.locals (hole (skeleton_of skeleton.now) at) (made state.old) (made state.new) (open_term_of p.0) (open_type_of p.1)) }
    ensures too_deep { IsErrOf result HeredFault.TooDeep → NewTypeDeep signature.now state.old.locals (skeleton_of skeleton.now) (made state.old) }
    ensures keeps { Keeps state.old state.new }
{
    let ty = new_type(alloc, signature, state, skeleton, LEVELS)?;
    Ok((new_term(alloc, state, &ty)?, ty))
}

/// A new metavariable of the expected type. Where its skeleton isn't the hole's, memory counts as used up.
#[inline(never)]
pub fn checked_hole(
    alloc: Global,
    state: &mut Elaboration,
    skeleton: &Skeleton,
    expected: &OpenTy,
) -> Result<Open, AllocError>
    ensures ok { IfOk result (λ m. (es : List Entered) (numbers : List ℕ) (at : Place) → Checks es numbers state.old.locals (hole (skeleton_of skeleton.now) at) (open_type_of expected.now) (made state.old) (made state.new) (open_term_of m)) }
    ensures keeps { Keeps state.old state.new }
{
    if !has_skeleton(expected, skeleton) {
        // The skeleton pass gave the hole the skeleton of what is expected there; no clause of what is written says so.
        return Err(AllocError);
    }
    new_term(alloc, state, expected)
}
