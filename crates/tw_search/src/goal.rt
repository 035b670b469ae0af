//! A goal: a hole of the proof, with its type taken apart.
ghost use Rattle.std.specs.Prelude.{◌≡◌, IfOk};
ghost use Rattle.lf.specs.Syntax.{atom};
ghost use Rattle.lf.specs.Variables.{target, target_arguments};
ghost use Rattle.lf_unification.specs.Offering.{pi_over};
ghost use Rattle.tw_terms.specs.OpenView.{open_spine_of, open_type_of};
ghost use Rattle.tw_search.specs.Goals.{IsDeclared, IsOpened, indices_of};

use std::alloc::{AllocError, Global};
use tw_metas::Store;
use tw_terms::{ConstId, MetaId, OpenContext, OpenSpine, OpenTy};

/// A hole, the local context of its goal, and the goal's family. Its indices are read off the hole's type (`indices`), where they stand already.
#[derive(Drop)]
pub(crate) struct OpenGoal {
    pub(crate) hole: MetaId,
    pub(crate) locals: OpenContext,
    pub(crate) family: ConstId,
}

/// The goal of a hole. It copies the local context, and fails only for want of memory.
pub(crate) fn open_goal(alloc: Global, store: &Store, hole: MetaId) -> Result<OpenGoal, AllocError>
    requires { IsDeclared store.now.now hole.0 }
    ensures { IfOk result (λ g. IsOpened store.now.now hole.0 g) }
{
    match store.about(hole) {
        Some((_, ty)) => opened(alloc, hole, ty),
        None => unreachable!(),
    }
}

/// The leading quantifiers of the type are the local context.
fn opened(alloc: Global, hole: MetaId, ty: &OpenTy) -> Result<OpenGoal, AllocError>
    ensures hole { IfOk result (λ g. g.hole ≡ hole) }
    ensures ty { IfOk result (λ g. pi_over g.locals (atom g.family.0 (target_arguments (open_type_of ty.now))) ≡ open_type_of ty.now) }
{
    let mut locals = OpenContext::new(alloc);
    let mut rest = ty;
    loop {
        match rest {
            OpenTy::Pi(domain, range) => {
                locals.push(domain.copy(alloc)?)?;
                rest = range;
            }
            OpenTy::Atom(family, _) => {
                return Ok(OpenGoal {
                    hole,
                    locals,
                    family: *family,
                });
            }
        }
    }
}

/// The indices of the goal of a hole, as they stand in the store.
pub(crate) fn indices(store: &Store, hole: MetaId) -> &OpenSpine
    requires { IsDeclared store.now.now hole.0 }
    ensures { open_spine_of result.now ≡ indices_of store.now.now hole.0 }
{
    match store.about(hole) {
        Some((_, ty)) => open_target_arguments(ty),
        None => unreachable!(),
    }
}

/// The arguments of the atom that a type targets.
fn open_target_arguments(ty: &OpenTy) -> &OpenSpine
    ensures { open_spine_of result.now ≡ target_arguments (open_type_of ty.now) }
{
    let mut rest = ty;
    loop {
        match rest {
            OpenTy::Pi(_, range) => rest = range,
            OpenTy::Atom(_, spine) => return spine,
        }
    }
}

/// The family that a type targets.
pub(crate) fn open_target(ty: &OpenTy) -> ConstId
    ensures { result.0 ≡ target (open_type_of ty.now) }
{
    let mut rest = ty;
    loop {
        match rest {
            OpenTy::Pi(_, range) => rest = range,
            OpenTy::Atom(family, _) => return *family,
        }
    }
}
