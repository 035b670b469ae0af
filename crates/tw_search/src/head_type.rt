//! The type of a head that is offered, part by part: a constant's is read as it was declared, without a copy.
ghost use Rattle.std.specs.Prelude.{◌≡◌, IfOk};
ghost use Rattle.lf.specs.Variables.{target_arguments as target_arguments_of};
ghost use Rattle.lf_search.specs.AppliedHeads.{spine_with_applied, type_with_applied};
ghost use Rattle.tw_terms.specs.OpenView.{open_spine_of, open_type_of};
ghost use Rattle.tw_search.specs.Applied.{taken_at};
ghost use Rattle.tw_search.specs.HeadTypes.{arguments_of, head_type_of, part_of};

use crate::closed_placing::{closed_spine_over, closed_type_over};
use crate::placing::{spine_over, type_over};
use std::alloc::{AllocError, Global};
use tw_terms::{ConstId, MetaId, OpenSpine, OpenTy, Spine, Ty};

/// A type: a constant's, or that of a local variable, moved to the goal's context.
#[derive(Clone, Copy)]
pub(crate) enum HeadType<'a> {
    Closed(&'a Ty),
    Open(&'a OpenTy),
}

/// The arguments of an atom of such a type.
#[derive(Clone, Copy)]
pub(crate) enum Arguments<'a> {
    Closed(&'a Spine),
    Open(&'a OpenSpine),
}

/// One level of such a type.
#[derive(Clone, Copy)]
pub(crate) enum Part<'a> {
    Pi(HeadType<'a>, HeadType<'a>),
    Atom(ConstId, Arguments<'a>),
}

/// The first level of the type.
pub(crate) fn first_level<'a>(ty: HeadType<'a>) -> Part<'a>
    ensures { part_of result ≡ head_type_of ty.entry }
{
    match ty {
        HeadType::Closed(Ty::Pi(domain, range)) => {
            Part::Pi(HeadType::Closed(domain), HeadType::Closed(range))
        }
        HeadType::Closed(Ty::Atom(family, spine)) => {
            Part::Atom(*family, Arguments::Closed(spine))
        }
        HeadType::Open(OpenTy::Pi(domain, range)) => {
            Part::Pi(HeadType::Open(domain), HeadType::Open(range))
        }
        HeadType::Open(OpenTy::Atom(family, spine)) => Part::Atom(*family, Arguments::Open(spine)),
    }
}

/// The arguments of the atom that the type targets.
pub(crate) fn target_arguments<'a>(ty: HeadType<'a>) -> Arguments<'a>
    ensures { arguments_of result ≡ target_arguments_of (head_type_of ty.entry) }
{
    let mut rest = ty;
    loop {
        match first_level(rest) {
            Part::Pi(_, range) => rest = range,
            Part::Atom(_, arguments) => return arguments,
        }
    }
}

/// The type with the metavariables put in for its variables, the newest of which is the last one. Fails only for want of memory.
pub(crate) fn placed_type<'a>(
    alloc: Global,
    arguments: &OpenSpine,
    metas: &[MetaId],
    ty: HeadType<'a>,
) -> Result<OpenTy, AllocError>
    ensures { IfOk result (λ a. open_type_of a ≡ type_with_applied (taken_at (open_spine_of arguments.now) metas.now 0) (head_type_of ty.entry)) }
{
    match ty {
        HeadType::Closed(ty) => closed_type_over(alloc, arguments, metas, 0, ty),
        HeadType::Open(ty) => type_over(alloc, arguments, metas, 0, ty),
    }
}

/// The same of arguments.
pub(crate) fn placed_arguments<'a>(
    alloc: Global,
    arguments: &OpenSpine,
    metas: &[MetaId],
    of: Arguments<'a>,
) -> Result<OpenSpine, AllocError>
    ensures { IfOk result (λ s. open_spine_of s ≡ spine_with_applied (taken_at (open_spine_of arguments.now) metas.now 0) (arguments_of of.entry)) }
{
    match of {
        Arguments::Closed(spine) => closed_spine_over(alloc, arguments, metas, 0, spine),
        Arguments::Open(spine) => spine_over(alloc, arguments, metas, 0, spine),
    }
}
