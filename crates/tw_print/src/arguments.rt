//! The arguments of heads, with the types by which lambdas are shown.
ghost use Rattle.std.specs.Prelude.{◌≡◌, IfOk, map, option_map};
ghost use Rattle.lf.specs.Entries.{signature_of, entry as entry_numbered, type_of as type_of_entry, kind_of as kind_of_entry};
ghost use Rattle.lf.specs.Substitution.{single, reduce, substitute_type};
ghost use Rattle.tw_hered.specs.Fits.{TypeFits};
ghost use Rattle.tw_terms.specs.View.{head_of, term_of, args_of, type_of, kind_of, skeleton_of};
ghost use Rattle.tw_print.specs.Arguments as spec;
ghost use Rattle.tw_print.specs.ArgumentView.{argument_of, any_lambda, lambda_test};
ghost use Rattle.tw_print.specs.SceneView.{scene_in};
ghost use Rattle.tw_print.specs.Showable.{Takes};

use crate::levels::STACK_LEVELS;
use crate::scene::Scene;
use std::alloc::{AllocError, Global};
use tw_hered::instantiate;
use tw_signature::Body;
use tw_terms::{ConstId, Context, Head, Kind, Skeleton, Spine, Term, Ty, skeleton, weaken};

/// An argument, with its type where it is a lambda.
#[derive(Drop)]
pub struct Argument {
    pub term: Term,
    pub ty: Option<Ty>,
}

/// The arguments of a spine at the type of its head. They have no types unless one of them is a lambda.
pub fn typed_arguments(
    alloc: Global,
    scene: &Scene,
    context: &Context,
    args: Vec<Term>,
    head: Ty,
) -> Result<Vec<Argument>, AllocError>
    requires { Takes (signature_of (scene_in scene.now).entries) context.now (args_of args.items) (type_of head) }
    ensures { IfOk result (λ xs. map argument_of xs.items ≡ spec.arguments (type_of head) (args_of args.items)) }
{
    let mut arguments = Vec::with_capacity(alloc, args.len())?;
    let mut rest = args;
    rest.reverse();
    let mut left = head;
    while let Some(term) = rest.pop() {
        match left {
            Ty::Pi(domain, range) => {
                let shape = skeleton(alloc, &domain)?;
                left = instantiated(alloc, &range, &term, &shape)?;
                arguments.push(typed_argument(term, Box::into_inner(domain)))?;
            }
            Ty::Atom(_, _) => unreachable!(),
        }
    }
    Ok(arguments)
}

/// The type with `arg` put in for its newest variable. One that comes out deeper than 8,192 isn't made, since the machine's stack would hold no copy of it, and past that
/// memory counts as used up.
pub fn instantiated(alloc: Global, body: &Ty, arg: &Term, skel: &Skeleton) -> Result<Ty, AllocError>
    requires { TypeFits (single (skeleton_of skel.now) (term_of arg.now)) (type_of body.now) }
    ensures { IfOk result (λ a. type_of a ≡ substitute_type reduce (single (skeleton_of skel.now) (term_of arg.now)) (type_of body.now)) }
{
    match instantiate(alloc, body, arg, skel, STACK_LEVELS) {
        Ok(ty) => Ok(ty),
        Err(_) => Err(AllocError),
    }
}

/// An argument of this type.
fn typed_argument(term: Term, ty: Ty) -> Argument
    ensures { argument_of result ≡ spec.with_type (term_of term) (type_of ty) }
{
    match term {
        Term::Lam(_) => Argument { term, ty: Some(ty) },
        Term::Root(_, _) => Argument { term, ty: None },
    }
}

/// The arguments of a spine without lambdas.
pub fn bare_arguments(alloc: Global, args: Vec<Term>) -> Result<Vec<Argument>, AllocError>
    ensures { IfOk result (λ xs. map argument_of xs.items ≡ spec.bare_arguments (args_of args.items)) }
{
    let mut arguments = Vec::with_capacity(alloc, args.len())?;
    let mut rest = args;
    rest.reverse();
    while let Some(term) = rest.pop() {
        arguments.push(Argument { term, ty: None })?;
    }
    Ok(arguments)
}

/// Whether one of the arguments is a lambda.
pub fn has_lambda(args: &[Term]) -> bool
    ensures { result ≡ any_lambda (args_of args.now) }
{
    for term in args {
        if is_lambda(term) {
            return true;
        }
    }
    false
}

fn is_lambda(term: &Term) -> bool
    ensures { result ≡ lambda_test (term_of term.now) }
{
    match term {
        Term::Lam(_) => true,
        Term::Root(_, _) => false,
    }
}

/// The type of a head, moved into the context. Fails where no context in memory is so long, too.
pub fn head_type(
    alloc: Global,
    scene: &Scene,
    context: &Context,
    head: Head,
) -> Result<Ty, AllocError>
    ensures { IfOk result (λ a. type_of a ≡ spec.head_type (scene_in scene.now) context.now (head_of head)) }
{
    match head {
        Head::Const(id) => match constant_type(scene, id) {
            Some(ty) => ty.copy(alloc),
            // What is shown has declared constants only; no clause of this call asks for it.
            None => Err(AllocError),
        },
        Head::Var(variable) => match context.get(variable) {
            Some(ty) => weaken(alloc, ty, variable.checked_add(1).ok_or(AllocError)?),
            // What is shown has variables of its context only; no clause of this call asks for it.
            None => Err(AllocError),
        },
    }
}

/// The type of a declared constant.
fn constant_type<'a>(scene: &Scene<'a>, id: ConstId) -> Option<&'a Ty>
    ensures { option_map (λ a. type_of a.now) result ≡ type_of_entry (entry_numbered (scene_in scene.now).entries id.0) }
{
    match &scene.entry(id)?.body {
        Body::Constant(ty) => Some(ty),
        Body::Family(_) | Body::Defined { .. } => None,
    }
}

/// The kind of a declared family.
fn family_kind<'a>(scene: &Scene<'a>, id: ConstId) -> Option<&'a Kind>
    ensures { option_map (λ k. kind_of k.now) result ≡ kind_of_entry (entry_numbered (scene_in scene.now).entries id.0) }
{
    match &scene.entry(id)?.body {
        Body::Family(kind) => Some(kind),
        Body::Constant(_) | Body::Defined { .. } => None,
    }
}

/// A type that has the quantifiers of a family's kind.
pub fn family_type(alloc: Global, scene: &Scene, family: ConstId) -> Result<Ty, AllocError>
    ensures { IfOk result (λ a. type_of a ≡ spec.family_type (scene_in scene.now) family.0) }
{
    match family_kind(scene, family) {
        Some(kind) => kind_as_type(alloc, kind, ConstId(scene.len()?)),
        // What is shown has declared families only; no clause of this call asks for it.
        None => Err(AllocError),
    }
}

fn kind_as_type(alloc: Global, kind: &Kind, target: ConstId) -> Result<Ty, AllocError>
    ensures { IfOk result (λ a. type_of a ≡ spec.kind_as_type target.0 (kind_of kind.now)) }
{
    match kind {
        Kind::Pi(domain, rest) => {
            let domain = Box::new(alloc, domain.copy(alloc)?)?;
            let range = kind_as_type(alloc, rest, target)?;
            Ok(Ty::Pi(domain, Box::new(alloc, range)?))
        }
        Kind::Star => Ok(Ty::Atom(
            target,
            Spine {
                args: Vec::new(alloc),
            },
        )),
    }
}
