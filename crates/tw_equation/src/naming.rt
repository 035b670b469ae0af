//! The names of metavariables.
ghost use Rattle.std.specs.Prelude.{◌≡◌, [], IfOk, map, slice_get};
ghost use Rattle.tw_equation.specs.LaidView.{laid_of};
ghost use Rattle.tw_equation.specs.Text.{given_names, meta_names, onto};
ghost use Rattle.tw_print.specs.ShowEnv.{scene_of};
ghost use Rattle.tw_print.specs.Shown.{hint_in};

use crate::laid::Laid;
use std::alloc::{AllocError, Global};
use tw_fixity::{Name, Scope, copy_option};
use tw_print::ShowEnv;
use tw_shown::name_shown;
use tw_terms::MetaId;

/// The scope of these names, each in front of those before it.
fn taken_names(alloc: Global, names: &[Option<Name>]) -> Result<Scope, AllocError>
    ensures { IfOk result (λ s. s ≡ onto names.now []) }
{
    let mut scope = Scope::new(alloc);
    for name in names {
        scope.push(copy_option(alloc, name)?)?;
    }
    Ok(scope)
}

/// The name that is given to a metavariable, if there is one.
fn given_name(
    alloc: Global,
    names: &[Option<Name>],
    meta: MetaId,
) -> Result<Option<Name>, AllocError>
    ensures { IfOk result (λ n. n ≡ hint_in (slice_get names.now meta.0)) }
{
    match names.get(meta.0 as usize) {
        Some(name) => copy_option(alloc, name),
        None => Ok(None),
    }
}

/// The given names of metavariables in this order, the last one's first.
fn given_names(
    alloc: Global,
    names: &[Option<Name>],
    order: &[MetaId],
) -> Result<Vec<Option<Name>>, AllocError>
    ensures { IfOk result (λ v. v.items ≡ given_names names.now (map (λ m. m.0) order.now)) }
{
    let mut given = Vec::new(alloc);
    for place in (0..order.len()).rev() {
        given.push(given_name(alloc, names, order[place])?)?;
    }
    Ok(given)
}

/// The scope of variables with these names, the innermost first.
fn scope_of(alloc: Global, names: &[Option<Name>]) -> Result<Scope, AllocError>
    ensures { IfOk result (λ s. s ≡ names.now) }
{
    let mut scope = Scope::new(alloc);
    for place in (0..names.len()).rev() {
        scope.push(copy_option(alloc, &names[place])?)?;
    }
    Ok(scope)
}

/// The scope of the metavariables, where these variables are shown.
pub fn meta_names(
    alloc: Global,
    env: &ShowEnv,
    laid: &Laid,
    names: &[Option<Name>],
    shown: &[u64],
) -> Result<Scope, AllocError>
    ensures { IfOk result (λ s. s ≡ meta_names (scene_of env.now) (laid_of laid.now) names.now shown.now) }
{
    let mut given = given_names(alloc, names, laid.positions.metas())?;
    let taken = taken_names(alloc, names)?;
    name_shown(alloc, env, &laid.context, shown, &mut given, taken)?;
    scope_of(alloc, &given)
}
