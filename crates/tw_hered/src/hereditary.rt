//! Substitution for one variable, and the application of a term to all its arguments.
ghost use Rattle.std.specs.Prelude.{◌≡◌, ◌≤◌, ◌<◌, IfOk, IsErrOf};
ghost use Rattle.lf.specs.Substitution.{single, substitute as put_in, substitute_type, reduce};
ghost use Rattle.lf.specs.Depth.{depth, type_depth, depth_limit};
ghost use Rattle.lf.specs.Deep.{DeepSubstitution, DeepTypeSubstitution, DeepReduction};
ghost use Rattle.tw_terms.specs.View.{term_of, spine_of, type_of, skeleton_of};
ghost use Rattle.lf_closures.specs.Environments.{outside, under, extended, value_in};
ghost use Rattle.lf_closures.specs.Typing.{ClosureFits};
ghost use Rattle.tw_hered.specs.Fits.{put_at, TermFits, TypeFits, Applies};
ghost use Rattle.tw_hered.specs.View.{environment_of};

use crate::environment::{Closure, Environment, placed};
use crate::fault::HeredFault;
use crate::head::enter;
use crate::normal::{LEVELS, NESTED, STEPS, normal_term, normal_type};
use bumpalo::Bump;
use std::alloc::{AllocError, Global};
use tw_terms::{Skeleton, Spine, Term, Ty};

/// Hereditary substitution of `arg`, a term of the skeleton `skel`, for the variable `index` of `body`.
///
/// `arg` stands outside the `index` newest variables of `body`: these stay, variable `index` becomes `arg` moved over them, and each variable past it comes one nearer.
/// Answers `TooDeep` only where a term of the derivation is deeper than 4,096, and `NoMemory` where memory is wanting.
pub fn substitute(
    alloc: Global,
    body: &Term,
    index: u64,
    arg: &Term,
    skel: &Skeleton,
) -> Result<Term, HeredFault>
    requires { TermFits (put_at index (skeleton_of skel.now) (term_of arg.now)) (term_of body.now) }
    ensures ok { IfOk result (λ m. term_of m ≡ put_in reduce (put_at index (skeleton_of skel.now) (term_of arg.now)) (term_of body.now)) }
    ensures shallow { IfOk result (λ m. depth (term_of m) ≤ depth_limit) }
    ensures too_deep { IsErrOf result HeredFault.TooDeep → DeepSubstitution depth_limit (put_at index (skeleton_of skel.now) (term_of arg.now)) (term_of body.now) }
{
    let arena = Bump::new(alloc);
    let environment = environment_for(&arena, index, arg, skel)?;
    canonical(alloc, &arena, body, environment)
}

/// The same in a type.
pub fn substitute_ty(
    alloc: Global,
    body: &Ty,
    index: u64,
    arg: &Term,
    skel: &Skeleton,
) -> Result<Ty, HeredFault>
    requires { TypeFits (put_at index (skeleton_of skel.now) (term_of arg.now)) (type_of body.now) }
    ensures ok { IfOk result (λ a. type_of a ≡ substitute_type reduce (put_at index (skeleton_of skel.now) (term_of arg.now)) (type_of body.now)) }
    ensures shallow { IfOk result (λ a. type_depth (type_of a) ≤ depth_limit) }
    ensures too_deep { IsErrOf result HeredFault.TooDeep → DeepTypeSubstitution depth_limit (put_at index (skeleton_of skel.now) (term_of arg.now)) (type_of body.now) }
{
    let arena = Bump::new(alloc);
    let environment = environment_for(&arena, index, arg, skel)?;
    let mut steps = STEPS;
    normal_type(alloc, &arena, body, environment, LEVELS, &mut steps)
}

/// The type with `arg` put in for its newest variable, up to a depth that the caller states. Answers `TooDeep` only where that type is deeper than `levels`, and
/// `NoMemory` where memory is wanting. It takes no more of the machine's stack however deep a term of the type comes out; copying and dropping it takes some.
pub fn instantiate(
    alloc: Global,
    body: &Ty,
    arg: &Term,
    skel: &Skeleton,
    levels: u64,
) -> Result<Ty, HeredFault>
    requires { TypeFits (single (skeleton_of skel.now) (term_of arg.now)) (type_of body.now) }
    ensures ok { IfOk result (λ a. type_of a ≡ substitute_type reduce (single (skeleton_of skel.now) (term_of arg.now)) (type_of body.now)) }
    ensures shallow { IfOk result (λ a. type_depth (type_of a) ≤ levels) }
    ensures too_deep { IsErrOf result HeredFault.TooDeep → levels < type_depth (substitute_type reduce (single (skeleton_of skel.now) (term_of arg.now)) (type_of body.now)) }
{
    let arena = Bump::new(alloc);
    let environment = environment_for(&arena, 0, arg, skel)?;
    let mut steps = STEPS;
    normal_type(alloc, &arena, body, environment, levels, &mut steps)
}

/// The canonical form of `term`, of the skeleton `skel`, applied to all the arguments that it takes.
///
/// Answers `TooDeep` only where a term of the derivation is deeper than 4,096, and `NoMemory` where memory is wanting.
pub fn apply_spine(
    alloc: Global,
    term: &Term,
    spine: &Spine,
    skel: &Skeleton,
) -> Result<Term, HeredFault>
    requires { Applies (skeleton_of skel.now) (term_of term.now) (spine_of spine.now) }
    ensures ok { IfOk result (λ m. term_of m ≡ reduce (skeleton_of skel.now) (term_of term.now) (spine_of spine.now)) }
    ensures shallow { IfOk result (λ m. depth (term_of m) ≤ depth_limit) }
    ensures too_deep { IsErrOf result HeredFault.TooDeep → DeepReduction depth_limit (skeleton_of skel.now) (term_of term.now) (spine_of spine.now) }
{
    let arena = Bump::new(alloc);
    let outside = placed(&arena, Environment::Outside)?;
    let closure = Closure {
        skeleton: skel,
        term,
        scope: outside,
        binders: 0,
    };
    let entered = enter(&arena, closure, &spine.args, &[], outside)?;
    canonical(alloc, &arena, entered.body, entered.environment)
}

/// The canonical form of the term in the environment. Answers `TooDeep` where it is deeper than 4,096.
fn canonical<'a>(
    alloc: Global,
    arena: &'a Bump,
    term: &'a Term,
    environment: &'a Environment<'a>,
) -> Result<Term, HeredFault>
    requires { ClosureFits (environment_of environment.now) (term_of term.now) }
    ensures ok { IfOk result (λ m. term_of m ≡ value_in (environment_of environment.now) (term_of term.now)) }
    ensures shallow { IfOk result (λ m. depth (term_of m) ≤ depth_limit) }
    ensures too_deep { IsErrOf result HeredFault.TooDeep → depth_limit < depth (value_in (environment_of environment.now) (term_of term.now)) }
{
    let levels = LEVELS;
    let mut steps = STEPS;
    normal_term(
        alloc,
        arena,
        term,
        environment,
        levels,
        NESTED,
        false,
        &mut steps,
    )
}

/// The environment that puts `arg` in for the variable `index`.
fn environment_for<'a>(
    arena: &'a Bump,
    index: u64,
    arg: &'a Term,
    skel: &'a Skeleton,
) -> Result<&'a Environment<'a>, AllocError>
    ensures { IfOk result (λ e. environment_of e.now ≡ under index (extended (skeleton_of skel.now) (term_of arg.now) outside outside)) }
{
    let outside = placed(arena, Environment::Outside)?;
    let extended = Environment::Extended {
        skeleton: skel,
        term: arg,
        scope: outside,
        rest: outside,
    };
    let image = placed(arena, extended)?;
    placed(arena, Environment::Under(index, image))
}
