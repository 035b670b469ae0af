//! The types of constants and variables.
ghost use Rattle.std.specs.Prelude.{◌≡◌, IfOk, option_map};
ghost use Rattle.lf.specs.Entries.{signature_of};
ghost use Rattle.tw_terms.specs.OpenView.{open_head_of, open_type_of};
ghost use Rattle.tw_terms.specs.View.{type_of};
ghost use Rattle.tw_unify.specs.Rigid.{HeadFits, RigidHeadHasType};

use std::alloc::{AllocError, Global};
use tw_putting::{open_type, shift_type};
use tw_signature::{Body, Signature};
use tw_terms::{ConstId, OpenContext, OpenHead, OpenTy, Ty};

/// The type of a declared constant. A definition has none.
fn constant_type(signature: &Signature, id: ConstId) -> Option<&Ty>
    ensures { option_map (λ a. type_of a.now) result ≡ (signature_of signature.now).types id.0 }
{
    match &signature.entry(id)?.body {
        Body::Constant(ty) => Some(ty),
        Body::Family(_) | Body::Defined { .. } => None,
    }
}

/// The type of a constant or variable in the local context, which has a skeleton there. Fails only for want of memory.
pub fn head_type(
    alloc: Global,
    signature: &Signature,
    context: &OpenContext,
    head: OpenHead,
) -> Result<OpenTy, AllocError>
    requires { HeadFits (signature_of signature.now) context.now (open_head_of head) }
    ensures { IfOk result (λ a. RigidHeadHasType (signature_of signature.now) context.now (open_head_of head) (open_type_of a)) }
{
    let count = context.len() as u64;
    match head {
        OpenHead::Const(id) => match constant_type(signature, id) {
            Some(ty) => open_type(alloc, ty),
            None => unreachable!(),
        },
        OpenHead::Var(variable) => match context.get(variable) {
            Some(ty) => shift_type(alloc, ty, variable + 1, 0),
            None => unreachable!(),
        },
        OpenHead::Meta(_) => unreachable!(),
    }
}
