//! Substitution for one variable, and the application of a term to all its arguments.
ghost use Rattle.std.specs.Prelude.{◌≡◌, ◌≤◌, ◌<◌, IfOk, IsErrOf, MatchOption};
ghost use Rattle.lf.specs.Syntax.{atom, nil, skeleton};
ghost use Rattle.lf.specs.Substitution.{single, substitute as put_in, substitute_type as put_in_type, reduce};
ghost use Rattle.lf.specs.Depth.{depth, type_depth, depth_limit};
ghost use Rattle.lf.specs.Deep.{DeepSubstitution, DeepReduction};
ghost use Rattle.lf_closures.specs.Environments.{outside, under, extended};
ghost use Rattle.tw_hered.specs.Fits.{put_at, TermFits, TypeFits, Applies};
ghost use Rattle.tw_terms.specs.OpenView.{open_term_of, open_spine_of, open_type_of};
ghost use Rattle.tw_putting.specs.Domains.{most_levels};
ghost use Rattle.tw_putting.specs.View.{environment_of};

use crate::environment::{Closure, Environment, placed};
use crate::head::enter;
use crate::normal::{normal_term, normal_type};
use bumpalo::Bump;
use std::alloc::{AllocError, Global};
use tw_hered::HeredFault;
use tw_metas::Store;
use tw_terms::{ConstId, Open, OpenSpine, OpenTy};

/// The greatest depth of a result.
const DEPTH_LIMIT: u64 = 4_096;

/// The greatest depth of what `instantiate` and `domains` give. The machine's stack nests as deep.
pub const STACK_LEVELS: u64 = 8_500;

/// Hereditary substitution of `arg`, a term of the skeleton of `ty`, for the variable `index` of `body`. Metavariables stay.
///
/// `arg` stands outside the `index` newest variables of `body`: these stay, variable `index` becomes `arg` moved over them, and each variable past it comes one nearer.
/// Answers `TooDeep` only where a term of the derivation is deeper than 4,096, and `NoMemory` where memory is wanting.
pub fn substitute(
    alloc: Global,
    body: &Open,
    index: u64,
    arg: &Open,
    ty: &OpenTy,
) -> Result<Open, HeredFault>
    requires { TermFits (put_at index (skeleton (open_type_of ty.now)) (open_term_of arg.now)) (open_term_of body.now) }
    ensures ok { IfOk result (λ m. open_term_of m ≡ put_in reduce (put_at index (skeleton (open_type_of ty.now)) (open_term_of arg.now)) (open_term_of body.now)) }
    ensures shallow { IfOk result (λ m. depth (open_term_of m) ≤ depth_limit) }
    ensures too_deep { IsErrOf result HeredFault.TooDeep → DeepSubstitution depth_limit (put_at index (skeleton (open_type_of ty.now)) (open_term_of arg.now)) (open_term_of body.now) }
{
    let arena = Bump::new(alloc);
    let store = Store::new(alloc);
    let environment = environment_for(&arena, index, arg, ty)?;
    normal_term(alloc, &arena, &store, 0, body, environment, DEPTH_LIMIT)
}

/// The same in a type. Answers `TooDeep` only where the type that comes out is deeper than 4,096.
pub fn substitute_type(
    alloc: Global,
    body: &OpenTy,
    index: u64,
    arg: &Open,
    ty: &OpenTy,
) -> Result<OpenTy, HeredFault>
    requires { TypeFits (put_at index (skeleton (open_type_of ty.now)) (open_term_of arg.now)) (open_type_of body.now) }
    ensures ok { IfOk result (λ a. open_type_of a ≡ put_in_type reduce (put_at index (skeleton (open_type_of ty.now)) (open_term_of arg.now)) (open_type_of body.now)) }
    ensures shallow { IfOk result (λ a. type_depth (open_type_of a) ≤ depth_limit) }
    ensures too_deep { IsErrOf result HeredFault.TooDeep → depth_limit < type_depth (put_in_type reduce (put_at index (skeleton (open_type_of ty.now)) (open_term_of arg.now)) (open_type_of body.now)) }
{
    if let Some(family) = bare_family(body) {
        return Ok(bare_atom(alloc, family));
    }
    let arena = Bump::new(alloc);
    let store = Store::new(alloc);
    let environment = environment_for(&arena, index, arg, ty)?;
    normal_type(alloc, &arena, &store, 0, body, environment, DEPTH_LIMIT)
}

/// The type with `arg` put in for its newest variable. Answers `TooDeep` only where that type is deeper than 8,500, and `NoMemory` where memory is wanting.
pub fn instantiate(
    alloc: Global,
    body: &OpenTy,
    arg: &Open,
    ty: &OpenTy,
) -> Result<OpenTy, HeredFault>
    requires { TypeFits (single (skeleton (open_type_of ty.now)) (open_term_of arg.now)) (open_type_of body.now) }
    ensures ok { IfOk result (λ a. open_type_of a ≡ put_in_type reduce (single (skeleton (open_type_of ty.now)) (open_term_of arg.now)) (open_type_of body.now)) }
    ensures too_deep { IsErrOf result HeredFault.TooDeep → most_levels < type_depth (put_in_type reduce (single (skeleton (open_type_of ty.now)) (open_term_of arg.now)) (open_type_of body.now)) }
{
    let arena = Bump::new(alloc);
    let store = Store::new(alloc);
    let environment = environment_for(&arena, 0, arg, ty)?;
    normal_type(alloc, &arena, &store, 0, body, environment, STACK_LEVELS)
}

/// The canonical form of `term`, of the skeleton of `ty`, applied to all the arguments that it takes. Metavariables stay.
///
/// Answers `TooDeep` only where a term of the derivation is deeper than 4,096, and `NoMemory` where memory is wanting.
pub fn apply(alloc: Global, term: &Open, spine: &OpenSpine, ty: &OpenTy) -> Result<Open, HeredFault>
    requires { Applies (skeleton (open_type_of ty.now)) (open_term_of term.now) (open_spine_of spine.now) }
    ensures ok { IfOk result (λ m. open_term_of m ≡ reduce (skeleton (open_type_of ty.now)) (open_term_of term.now) (open_spine_of spine.now)) }
    ensures shallow { IfOk result (λ m. depth (open_term_of m) ≤ depth_limit) }
    ensures too_deep { IsErrOf result HeredFault.TooDeep → DeepReduction depth_limit (skeleton (open_type_of ty.now)) (open_term_of term.now) (open_spine_of spine.now) }
{
    let arena = Bump::new(alloc);
    let store = Store::new(alloc);
    let outside = placed(&arena, Environment::Outside)?;
    let closure = Closure {
        ty,
        term,
        scope: outside,
        binders: 0,
    };
    let entered = enter(&arena, closure, &spine.args, outside)?;
    normal_term(
        alloc,
        &arena,
        &store,
        0,
        entered.body,
        entered.environment,
        DEPTH_LIMIT,
    )
}

/// The family of a type without arguments: nothing can be put into it.
fn bare_family(ty: &OpenTy) -> Option<ConstId>
    ensures { MatchOption result (Unit {0}) (λ f. open_type_of ty.now ≡ atom f.0 nil) }
{
    match ty {
        OpenTy::Atom(family, spine) => {
            if spine.args.is_empty() {
                Some(*family)
            } else {
                None
            }
        }
        OpenTy::Pi(_, _) => None,
    }
}

/// The type of this family without arguments.
fn bare_atom(alloc: Global, family: ConstId) -> OpenTy
    ensures { open_type_of result ≡ atom family.0 nil }
{
    let args = Vec::new(alloc);
    OpenTy::Atom(family, OpenSpine { args })
}

/// The environment that puts `arg` in for the variable `index`.
fn environment_for<'a>(
    arena: &'a Bump,
    index: u64,
    arg: &'a Open,
    ty: &'a OpenTy,
) -> Result<&'a Environment<'a>, AllocError>
    ensures { IfOk result (λ e. environment_of e.now ≡ under index (extended (skeleton (open_type_of ty.now)) (open_term_of arg.now) outside outside)) }
{
    let outside = placed(arena, Environment::Outside)?;
    let extended = Environment::Extended {
        ty,
        term: arg,
        scope: outside,
        rest: outside,
    };
    let image = placed(arena, extended)?;
    placed(arena, Environment::Under(index, image))
}
