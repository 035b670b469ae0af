//! Canonical forms of terms and types in an environment with the values of metavariables put in, built from their heads inward.
ghost use Rattle.std.specs.Prelude.{◌≡◌, ◌≤◌, ◌<◌, IfOk, IsErrOf};
ghost use Rattle.lf.specs.Depth.{depth, spine_depth, type_depth};
ghost use Rattle.tw_terms.specs.OpenView.{open_term_of, open_spine_of, open_type_of};
ghost use Rattle.tw_putting.specs.Frames.{WalkFits, WalkSpineFits, WalkTypeFits};
ghost use Rattle.tw_putting.specs.Values.{put_value, put_spine_value, put_type_value};
ghost use Rattle.tw_putting.specs.View.{environment_of};

use crate::environment::{Environment, under_binder};
use crate::head::{Exposed, expose};
use crate::parts::{lambda, one_more, pi, push};
use bumpalo::Bump;
use std::alloc::Global;
use tw_hered::HeredFault;
use tw_metas::Store;
use tw_terms::{Open, OpenSpine, OpenTy};

/// The canonical form of the term in the environment, with the values put in, under so many binders. Answers `TooDeep` where it is deeper than `levels`.
#[cycle(normal)]
pub fn normal_term<'a>(
    alloc: Global,
    arena: &'a Bump,
    store: &'a Store,
    binders: u64,
    term: &'a Open,
    environment: &'a Environment<'a>,
    levels: u64,
) -> Result<Open, HeredFault>
    requires { WalkFits store.now.now binders (environment_of environment.now) (open_term_of term.now) }
    ensures ok { IfOk result (λ m. open_term_of m ≡ put_value store.now.now binders (environment_of environment.now) (open_term_of term.now)) }
    ensures shallow { IfOk result (λ m. depth (open_term_of m) ≤ levels) }
    ensures too_deep { IsErrOf result HeredFault.TooDeep → levels < depth (put_value store.now.now binders (environment_of environment.now) (open_term_of term.now)) }
{
    if levels == 0 {
        return Err(HeredFault::TooDeep);
    }
    match expose(arena, store, binders, term, environment)? {
        Exposed::Lam(body, around) => {
            let inside = under_binder(arena, around)?;
            let more = one_more(binders)?;
            match normal_term(alloc, arena, store, more, body, inside, levels - 1) {
                Ok(body) => Ok(lambda(alloc, body)?),
                Err(fault) => Err(fault),
            }
        }
        Exposed::Root(head, spine, around) => {
            match normal_spine(alloc, arena, store, binders, spine, around, levels - 1) {
                Ok(spine) => Ok(Open::Root(head, spine)),
                Err(fault) => Err(fault),
            }
        }
    }
}

/// The same of each argument.
#[cycle(normal)]
pub fn normal_spine<'a>(
    alloc: Global,
    arena: &'a Bump,
    store: &'a Store,
    binders: u64,
    spine: &'a OpenSpine,
    environment: &'a Environment<'a>,
    levels: u64,
) -> Result<OpenSpine, HeredFault>
    requires { WalkSpineFits store.now.now binders (environment_of environment.now) (open_spine_of spine.now) }
    ensures ok { IfOk result (λ s. open_spine_of s ≡ put_spine_value store.now.now binders (environment_of environment.now) (open_spine_of spine.now)) }
    ensures shallow { IfOk result (λ s. spine_depth (open_spine_of s) ≤ levels) }
    ensures too_deep { IsErrOf result HeredFault.TooDeep → levels < spine_depth (put_spine_value store.now.now binders (environment_of environment.now) (open_spine_of spine.now)) }
{
    let mut args = Vec::with_capacity(alloc, spine.args.len())?;
    for arg in &spine.args {
        match normal_term(alloc, arena, store, binders, arg, environment, levels) {
            Ok(arg) => push(&mut args, arg)?,
            Err(fault) => return Err(fault),
        }
    }
    Ok(OpenSpine { args })
}

/// The canonical form of the type in the environment, with the values put in. Answers `TooDeep` where it is deeper than `levels`.
pub fn normal_type<'a>(
    alloc: Global,
    arena: &'a Bump,
    store: &'a Store,
    binders: u64,
    ty: &'a OpenTy,
    environment: &'a Environment<'a>,
    levels: u64,
) -> Result<OpenTy, HeredFault>
    requires { WalkTypeFits store.now.now binders (environment_of environment.now) (open_type_of ty.now) }
    ensures ok { IfOk result (λ a. open_type_of a ≡ put_type_value store.now.now binders (environment_of environment.now) (open_type_of ty.now)) }
    ensures shallow { IfOk result (λ a. type_depth (open_type_of a) ≤ levels) }
    ensures too_deep { IsErrOf result HeredFault.TooDeep → levels < type_depth (put_type_value store.now.now binders (environment_of environment.now) (open_type_of ty.now)) }
{
    if levels == 0 {
        return Err(HeredFault::TooDeep);
    }
    match ty {
        OpenTy::Pi(domain, range) => {
            let domain = match normal_type(
                alloc,
                arena,
                store,
                binders,
                domain,
                environment,
                levels - 1,
            ) {
                Ok(domain) => domain,
                Err(fault) => return Err(fault),
            };
            let inside = under_binder(arena, environment)?;
            let more = one_more(binders)?;
            match normal_type(alloc, arena, store, more, range, inside, levels - 1) {
                Ok(range) => Ok(pi(alloc, domain, range)?),
                Err(fault) => Err(fault),
            }
        }
        OpenTy::Atom(family, spine) => {
            match normal_spine(alloc, arena, store, binders, spine, environment, levels - 1) {
                Ok(spine) => Ok(OpenTy::Atom(*family, spine)),
                Err(fault) => Err(fault),
            }
        }
    }
}
