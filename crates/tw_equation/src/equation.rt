//! The text of an equation that is left.
ghost use Rattle.std.specs.Prelude.{◌≡◌, IfOk, OnOk, map};
ghost use Rattle.lf.specs.Entries.{signature_of};
ghost use Rattle.tw_abstract.specs.Positions.{index};
ghost use Rattle.tw_metas.specs.View.{equation_of};
ghost use Rattle.tw_print.specs.ShowEnv.{scene_of};
ghost use Rattle.tw_print.specs.Showable.{IsShowableContext};
ghost use Rattle.tw_terms.specs.View.{term_of, type_of};
ghost use Rattle.tw_metas.specs.Named.{shown_type_of};
ghost use Rattle.tw_equation.specs.Sides.{AreGeneralized, AreShowable};
ghost use Rattle.tw_equation.specs.Text.{equation_text, shown_in_sides};

use crate::fits::{term_fits, type_fits};
use crate::laid::lay_out;
use crate::locals::{enter_locals, name_locals};
use crate::naming::meta_names;
use std::alloc::{AllocError, Global};
use tw_abstract::{Positions, generalized_term, generalized_type};
use tw_metas::{Equation, LeftEquation};
use tw_print::{ShowEnv, show_equal};
use tw_shown::{outside, shown_in_term};
use tw_signature::Signature;
use tw_terms::{Context, Term, Ty};

/// The sides of an equation and their type, with variables for metavariables.
#[derive(Drop)]
struct Sides {
    left: Term,
    right: Term,
    ty: Ty,
}

/// The sides of an equation. Where a metavariable isn't laid out, memory counts as used up: an equation that is shown comes with each that it mentions, but no clause says so.
fn sides_of(alloc: Global, positions: &Positions, equation: &Equation) -> Result<Sides, AllocError>
    ensures { IfOk result (λ s. AreGeneralized (index positions.now) (equation_of equation.now) s) }
{
    let count = equation.context.len() as u64;
    let Some(left) = generalized_term(alloc, positions, count, &equation.left)? else {
        return Err(AllocError);
    };
    let Some(right) = generalized_term(alloc, positions, count, &equation.right)? else {
        return Err(AllocError);
    };
    let Some(ty) = generalized_type(alloc, positions, count, &equation.ty)? else {
        return Err(AllocError);
    };
    Ok(Sides { left, right, ty })
}

/// Tests that skeletons type the sides in a context. Where they don't, memory counts as used up: they type each equation of a store, but no clause says it of what is shown.
fn sides_fit(
    alloc: Global,
    signature: &Signature,
    context: &Context,
    sides: &Sides,
) -> Result<(), AllocError>
    ensures { OnOk result (AreShowable (signature_of signature.now) context.now sides.now) }
{
    if !type_fits(alloc, signature, context, &sides.ty)? {
        return Err(AllocError);
    }
    if !term_fits(alloc, signature, context, &sides.left, &sides.ty)? {
        return Err(AllocError);
    }
    if !term_fits(alloc, signature, context, &sides.right, &sides.ty)? {
        return Err(AllocError);
    }
    Ok(())
}

/// The variables that the sides show, from the left.
fn shown_in_sides(
    alloc: Global,
    env: &ShowEnv,
    context: &Context,
    sides: &Sides,
) -> Result<Vec<u64>, AllocError>
    requires context { IsShowableContext (signature_of env.now.sig.now) context.now }
    requires sides { AreShowable (signature_of env.now.sig.now) context.now sides.now }
    ensures { IfOk result (λ v. v.items ≡ shown_in_sides (scene_of env.now) context.now (term_of sides.now.left) (term_of sides.now.right) (type_of sides.now.ty)) }
{
    let mut shown = shown_in_term(alloc, env, context, &sides.left, &sides.ty)?;
    let right = shown_in_term(alloc, env, context, &sides.right, &sides.ty)?;
    shown.extend_from_slice(&right)?;
    Ok(shown)
}

/// The text `M = N` of an equation that is left. Fails only for want of memory.
pub fn show_equation(
    alloc: Global,
    env: &ShowEnv,
    left: &LeftEquation,
) -> Result<Vec<u8>, AllocError>
    ensures { IfOk result (λ t. t.items ≡ equation_text (scene_of env.now) (map shown_type_of left.now.metas.items) left.now.names.items (equation_of left.now.equation)) }
{
    let laid = lay_out(alloc, env.sig, &left.metas)?;
    let sides = sides_of(alloc, &laid.positions, &left.equation)?;
    let local = &left.equation.context;
    let mut context = laid.context.copy(alloc)?;
    enter_locals(alloc, env.sig, &laid.positions, local, &mut context)?;
    sides_fit(alloc, env.sig, &context, &sides)?;
    let shown = shown_in_sides(alloc, env, &context, &sides)?;
    let outer = outside(alloc, &shown, local.len() as u64)?;
    let mut scope = meta_names(alloc, env, &laid, &left.names, &outer)?;
    name_locals(alloc, env, &context, local.len(), &shown, &mut scope)?;
    show_equal(
        alloc,
        env,
        context,
        scope,
        &sides.left,
        &sides.right,
        &sides.ty,
    )
}
