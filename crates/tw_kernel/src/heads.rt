//! The types of heads.
ghost use Rattle.std.specs.Prelude.{◌≡◌, ◌++◌, ◌<◌, MatchResult, option_map, slice_get};
ghost use Rattle.lf.specs.Depth.{type_depth, depth_limit};
ghost use Rattle.lf.specs.Entries.{signature_of};
ghost use Rattle.lf.specs.Syntax.{LfType};
ghost use Rattle.lf.specs.Typing.{HeadHasType};
ghost use Rattle.tw_terms.specs.View.{head_of, type_of};
ghost use Rattle.tw_kernel.specs.Outcome.{Blames};

use crate::fault::Fault;
use std::alloc::Global;
use tw_signature::Signature;
use tw_terms::numbers::one_more;
use tw_terms::{Context, DEPTH_LIMIT, Head, Ty, weaken};

/// The type of a head in the context of `inner` and, outside it, `outer`. `TooDeep` only where this type is.
pub fn head_type(
    alloc: Global,
    signature: &Signature,
    outer: &Context,
    inner: &Context,
    head: Head,
) -> Result<Ty, Fault>
    ensures { MatchResult result (λ a. HeadHasType (signature_of signature.now) (inner.now ++ outer.now) (head_of head) (type_of a)) (λ fault. Blames fault ((A : LfType) × HeadHasType (signature_of signature.now) (inner.now ++ outer.now) (head_of head) A) ((A : LfType) × HeadHasType (signature_of signature.now) (inner.now ++ outer.now) (head_of head) A × (depth_limit < type_depth A))) }
{
    match head {
        Head::Const(id) => match signature.constant_type(id) {
            Some(ty) => Ok(ty.copy(alloc)?),
            None => Err(Fault::IllTyped),
        },
        Head::Var(variable) => match type_in(outer, inner, variable) {
            Some(ty) => {
                if ty.depth() > DEPTH_LIMIT {
                    return Err(Fault::TooDeep);
                }
                Ok(weaken(alloc, ty, one_more(variable)?)?)
            }
            None => Err(Fault::IllTyped),
        },
    }
}

/// The type of this variable of `inner` or, past it, of `outer`, in which the variables outside it count from 0.
fn type_in<'a>(outer: &'a Context, inner: &'a Context, variable: u64) -> Option<&'a Ty>
    ensures { option_map (λ a. type_of a.now) result ≡ slice_get (inner.now ++ outer.now) variable }
{
    let count = inner.len() as u64;
    if variable < count {
        inner.get(variable)
    } else {
        outer.get(variable - count)
    }
}
