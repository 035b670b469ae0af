//! The variables that whole texts show.
ghost use Rattle.std.specs.Prelude.{◌≡◌, [], IfOk};
ghost use Rattle.lf.specs.Entries.{signature_of};
ghost use Rattle.lf.specs.Syntax.{skeleton};
ghost use Rattle.tw_terms.specs.View.{term_of, type_of};
ghost use Rattle.tw_print.specs.Showable.{HasSkeleton, IsShowableContext, IsShowableType};
ghost use Rattle.tw_print.specs.ShowEnv.{scene_of};
ghost use Rattle.tw_shown.specs.Shown.{shown_in_term, shown_in_type};

use crate::showing::{walk_term, walk_type};
use crate::walk::Walk;
use std::alloc::{AllocError, Global};
use tw_print::{ShowEnv, all_levels};
use tw_terms::{Context, Term, Ty};

/// A walk that begins in this context.
fn begin(alloc: Global, context: &Context) -> Result<Walk, AllocError>
    ensures shown { IfOk result (λ w. w.shown.items ≡ []) }
    ensures context { IfOk result (λ w. w.context ≡ context.now) }
    ensures binders { IfOk result (λ w. w.binders ≡ 0) }
{
    Ok(Walk {
        shown: Vec::new(alloc),
        context: context.copy(alloc)?,
        binders: 0,
    })
}

/// The variables of the context that the text of a term at its type shows, as they come from the left. One that is shown twice comes twice.
/// Fails only for want of memory, and where the type of a lambda comes out deeper than 8,192, which the machine's stack would not hold.
pub fn shown_in_term(
    alloc: Global,
    env: &ShowEnv,
    context: &Context,
    term: &Term,
    ty: &Ty,
) -> Result<Vec<u64>, AllocError>
    requires context { IsShowableContext (signature_of env.now.sig.now) context.now }
    requires ty { IsShowableType (signature_of env.now.sig.now) context.now (type_of ty.now) }
    requires term { HasSkeleton (signature_of env.now.sig.now) context.now (term_of term.now) (skeleton (type_of ty.now)) }
    ensures { IfOk result (λ v. v.items ≡ shown_in_term (scene_of env.now) context.now (term_of term.now) (type_of ty.now)) }
{
    env.sig.is_canonical();
    let mut walk = begin(alloc, context)?;
    walk_term(alloc, env, &mut walk, term, ty, all_levels())?;
    Ok(walk.shown)
}

/// The same of a type.
pub fn shown_in_type(
    alloc: Global,
    env: &ShowEnv,
    context: &Context,
    ty: &Ty,
) -> Result<Vec<u64>, AllocError>
    requires context { IsShowableContext (signature_of env.now.sig.now) context.now }
    requires ty { IsShowableType (signature_of env.now.sig.now) context.now (type_of ty.now) }
    ensures { IfOk result (λ v. v.items ≡ shown_in_type (scene_of env.now) context.now (type_of ty.now)) }
{
    env.sig.is_canonical();
    let mut walk = begin(alloc, context)?;
    walk_type(alloc, env, &mut walk, ty, all_levels())?;
    Ok(walk.shown)
}
