//! The variables of an equation's own context.
ghost use Rattle.std.specs.Prelude.{◌≡◌, ◌≤◌, OnOk, IfOk, length, take};
ghost use Rattle.lf.specs.Entries.{signature_of};
ghost use Rattle.tw_equation.specs.Text.{with_locals};
ghost use Rattle.tw_equation.specs.Locals.{Entered};
ghost use Rattle.tw_abstract.specs.Positions.{index};
ghost use Rattle.tw_print.specs.Showable.{IsShowableContext};
ghost use Rattle.tw_print.specs.ShowEnv.{scene_of};
ghost use Rattle.tw_print.specs.Names.{lower_base};
ghost use Rattle.tw_print.specs.Shown.{quantifier_name};
ghost use Rattle.tw_terms.specs.View.{type_of};

use crate::fits::enter;
use std::alloc::{AllocError, Global};
use tw_abstract::{Positions, generalized_type};
use tw_fixity::{Name, Scope};
use tw_print::ShowEnv;
use tw_shown::shown_marks;
use tw_signature::Signature;
use tw_terms::{Context, OpenContext, Ty};

/// Adds the variables to the context of the metavariables.
pub fn enter_locals(
    alloc: Global,
    signature: &Signature,
    positions: &Positions,
    local: &OpenContext,
    context: &mut Context,
) -> Result<(), AllocError>
    requires { IsShowableContext (signature_of signature.now) context.old }
    ensures entered { OnOk result (Entered (index positions.now) local.now context.old context.new) }
    ensures showable { OnOk result (IsShowableContext (signature_of signature.now) context.new) }
{
    let count = local.len();
    for outside in 0..count {
        let ty = local.get((count - 1 - outside) as u64).unwrap();
        let Some(ty) = generalized_type(alloc, positions, outside as u64, ty)? else {
            // An equation that is shown comes with each metavariable that it mentions; no clause says so.
            return Err(AllocError);
        };
        enter(alloc, signature, context, ty)?;
    }
    Ok(())
}

/// The name of a variable; one that isn't shown has none.
fn local_name(
    alloc: Global,
    env: &ShowEnv,
    scope: &Scope,
    ty: &Ty,
    is_shown: bool,
) -> Result<Option<Name>, AllocError>
    ensures { IfOk result (λ n. n ≡ quantifier_name (scene_of env.now) scope.now is_shown (lower_base (scene_of env.now) (type_of ty.now))) }
{
    if !is_shown {
        return Ok(None);
    }
    Ok(Some(env.fresh_name(alloc, scope, env.lower_base(ty))?))
}

/// Names those of the context's first variables that are shown, and brings all of these in scope.
pub fn name_locals(
    alloc: Global,
    env: &ShowEnv,
    context: &Context,
    count: usize,
    shown: &[u64],
    scope: &mut Scope,
) -> Result<(), AllocError>
    requires { count ≤ length context.now }
    ensures { OnOk result (scope.new ≡ with_locals (scene_of env.now) (take count context.now) shown.now scope.old) }
{
    let marks = shown_marks(alloc, shown, count)?;
    for variable in (0..count).rev() {
        let ty = context.get(variable as u64).unwrap();
        let name = local_name(alloc, env, scope, ty, marks[variable])?;
        scope.push(name)?;
    }
    Ok(())
}
