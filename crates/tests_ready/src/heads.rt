//! The types of heads.
ghost use Rattle.std.specs.Prelude.{IfOk, IfSome};
ghost use Rattle.lf.specs.Entries.{signature_of, IsCanonicalSignature};
ghost use Rattle.tw_terms.specs.OpenView.{open_head_of, open_type_of};
ghost use Rattle.tw_putting.specs.Stores.{types_of};
ghost use Rattle.tests_ready.specs.Checked.{HeadIsTyped, Stands, VariableHasType};

use std::alloc::{AllocError, Global};
use tw_metas::Store;
use tw_putting::{open_type, shift_type};
use tw_signature::Signature;
use tw_terms::{OpenContext, OpenHead, OpenTy};

/// The type of a variable in the local context.
fn variable_type(
    alloc: Global,
    context: &OpenContext,
    variable: u64,
) -> Result<Option<OpenTy>, AllocError>
    ensures { IfOk result (λ r. IfSome r (λ a. VariableHasType context.now variable (open_type_of a))) }
{
    match context.get(variable) {
        Some(ty) => {
            let by = variable.checked_add(1).ok_or(AllocError)?;
            Ok(Some(shift_type(alloc, ty, by, 0)?))
        }
        None => Ok(None),
    }
}

/// The type of a constant, of a variable, or of a metavariable below `limit`; None where there is none.
pub fn head_type(
    alloc: Global,
    signature: &Signature,
    store: &Store,
    limit: u64,
    context: &OpenContext,
    head: OpenHead,
) -> Result<Option<OpenTy>, AllocError>
    requires canonical { IsCanonicalSignature signature.now }
    requires stands { Stands (signature_of signature.now) (types_of store.now.now) limit context.now }
    ensures { IfOk result (λ r. IfSome r (λ a. HeadIsTyped (signature_of signature.now) (types_of store.now.now) limit context.now (open_head_of head) (open_type_of a))) }
{
    match head {
        OpenHead::Const(id) => match signature.constant_type(id) {
            Some(ty) => Ok(Some(open_type(alloc, ty)?)),
            None => Ok(None),
        },
        OpenHead::Var(variable) => variable_type(alloc, context, variable),
        OpenHead::Meta(meta) => {
            if meta.0 >= limit {
                return Ok(None);
            }
            match store.about(meta) {
                Some((_, ty)) => Ok(Some(ty.copy(alloc)?)),
                None => Ok(None),
            }
        }
    }
}
