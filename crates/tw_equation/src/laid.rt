//! The metavariables of an equation as the variables of a context.
ghost use Rattle.std.specs.Prelude.{◌≡◌, [], IfOk, Some, length, map, option_map};
ghost use Rattle.lf.specs.Entries.{signature_of};
ghost use Rattle.tw_equation.specs.LaidView.{laid_of, placed_of};
ghost use Rattle.tw_equation.specs.Text.{laid_out, next_one, ready_type};
ghost use Rattle.tw_print.specs.Showable.{IsShowableContext};
ghost use Rattle.tw_terms.specs.OpenView.{open_type_of};
ghost use Rattle.tw_terms.specs.View.{type_of};
ghost use Rattle.tw_metas.specs.Named.{shown_type_of};

use crate::fits::enter;
use std::alloc::{AllocError, Global};
use tw_abstract::{Positions, generalized_type};
use tw_signature::Signature;
use tw_terms::{Context, MetaId, OpenContext, OpenTy, Ty};

/// Metavariables as variables: which one each is, and their types.
#[derive(Drop)]
pub struct Laid {
    pub positions: Positions,
    pub context: Context,
}

/// The type of a metavariable, if this is not laid out and the type mentions only such as are.
fn ready_type(
    alloc: Global,
    positions: &Positions,
    meta: MetaId,
    ty: &OpenTy,
) -> Result<Option<Ty>, AllocError>
    ensures { IfOk result (λ o. option_map type_of o ≡ ready_type positions.now meta.0 (open_type_of ty.now)) }
{
    if positions.variable(meta).is_some() {
        return Ok(None);
    }
    generalized_type(alloc, positions, 0, ty)
}

/// The first metavariable of which this holds, with its type.
fn next_one(
    alloc: Global,
    positions: &Positions,
    metas: &[(OpenContext, OpenTy)],
) -> Result<Option<(MetaId, Ty)>, AllocError>
    ensures { IfOk result (λ o. option_map placed_of o ≡ next_one positions.now 0 (map shown_type_of metas.now)) }
{
    for (place, meta) in metas.iter().enumerate() {
        let id = MetaId(place as u64);
        if let Some(ty) = ready_type(alloc, positions, id, &meta.1)? {
            return Ok(Some((id, ty)));
        }
    }
    Ok(None)
}

/// The metavariables, laid out one after the other. Where they need each other, or skeletons don't type them, memory counts as used up.
pub fn lay_out(
    alloc: Global,
    signature: &Signature,
    metas: &[(OpenContext, OpenTy)],
) -> Result<Laid, AllocError>
    ensures laid { IfOk result (λ l. laid_out (length metas.now) (map shown_type_of metas.now) (record { order = []; context = [] }) ≡ Some (laid_of l)) }
    ensures showable { IfOk result (λ l. IsShowableContext (signature_of signature.now) l.context) }
{
    let mut positions = Positions::new(alloc);
    let mut context = Context::new(alloc);
    for count in 0..metas.len() {
        let Some((meta, ty)) = next_one(alloc, &positions, metas)? else {
            // The metavariables of a store have an order in which the type of each mentions only earlier ones; no clause says it of the list that is shown.
            return Err(AllocError);
        };
        enter(alloc, signature, &mut context, ty)?;
        positions.push(meta)?;
    }
    Ok(Laid { positions, context })
}
