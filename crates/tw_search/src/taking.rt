//! A head applied to new metavariables, one for each quantifier of its type.
ghost use Rattle.std.specs.Prelude.{◌≡◌, ℕ, [], IfOk, length, map};
ghost use Rattle.lf.specs.Variables.{target_arguments};
ghost use Rattle.lf_search.specs.AppliedHeads.{spine_with_applied, type_with_applied};
ghost use Rattle.lf_unification.specs.Offering.{local_arguments as local_arguments_of};
ghost use Rattle.tw_terms.specs.OpenView.{open_spine_of, open_term_of, open_type_of};
ghost use Rattle.tw_open.specs.Fits.{TypeStands};
ghost use Rattle.tw_open.specs.Fresh.{IsNew, OnlyDeclares};
ghost use Rattle.tw_open.specs.View.{made_with};
ghost use Rattle.tw_search.specs.Applied.{taken_at};
ghost use Rattle.tw_search.specs.HeadTypes.{head_type_of};
ghost use Rattle.tw_search.specs.Reducing.{IsAtom};
ghost use Rattle.tw_search.specs.Taking.{TakesAll, numbers_from};

use crate::closed_placing::closed_spine_over;
use crate::head_type::{HeadType, Part, first_level, placed_type};
use std::alloc::{AllocError, Global};
use tw_metas::Store;
use tw_open::{local_arguments, new_term_of};
use tw_terms::{MetaId, Open, OpenContext, OpenHead, OpenSpine, OpenTy, Ty};

/// What a head is applied to: the new metavariables in eta-long form, their numbers, and the local variables that each of them stands on.
#[derive(Drop)]
pub(crate) struct Taken {
    pub(crate) spine: OpenSpine,
    pub(crate) metas: Vec<MetaId>,
    pub(crate) arguments: OpenSpine,
}

/// A new metavariable for the domain, in which these are put in for the quantifiers outside of it, and its eta-long form.
fn take_one<'a>(
    alloc: Global,
    store: &mut Store,
    locals: &OpenContext,
    arguments: &OpenSpine,
    metas: &[MetaId],
    domain: HeadType<'a>,
) -> Result<(MetaId, Open), AllocError>
    ensures ok { IfOk result (λ p. IsNew locals.now (type_with_applied (taken_at (open_spine_of arguments.now) metas.now 0) (head_type_of domain.entry)) (open_term_of p.1) store.old.now store.new.now) }
    ensures number { IfOk result (λ p. p.0.0 ≡ length store.old.now.declared) }
    ensures keeps { OnlyDeclares store.old store.new }
{
    if locals.len() == 0 {
        return take_closed(alloc, store, locals, arguments, metas, domain);
    }
    let ty = placed_type(alloc, arguments, metas, domain)?;
    new_term_of(alloc, store, locals, ty)
}

/// The same where no local variable is in scope. Of an atom no type is placed part by part.
fn take_closed<'a>(
    alloc: Global,
    store: &mut Store,
    locals: &OpenContext,
    arguments: &OpenSpine,
    metas: &[MetaId],
    domain: HeadType<'a>,
) -> Result<(MetaId, Open), AllocError>
    requires { locals.now ≡ [] }
    ensures ok { IfOk result (λ p. IsNew locals.now (type_with_applied (taken_at (open_spine_of arguments.now) metas.now 0) (head_type_of domain.entry)) (open_term_of p.1) store.old.now store.new.now) }
    ensures number { IfOk result (λ p. p.0.0 ≡ length store.old.now.declared) }
    ensures keeps { OnlyDeclares store.old store.new }
{
    match domain {
        HeadType::Closed(Ty::Atom(family, spine)) => {
            let spine = closed_spine_over(alloc, arguments, metas, 0, spine)?;
            take_atom(alloc, store, locals, OpenTy::Atom(*family, spine))
        }
        _ => {
            let ty = placed_type(alloc, arguments, metas, domain)?;
            new_term_of(alloc, store, locals, ty)
        }
    }
}

/// The same of an atom: the metavariable is declared at once, and is its own eta-long form.
fn take_atom(
    alloc: Global,
    store: &mut Store,
    locals: &OpenContext,
    ty: OpenTy,
) -> Result<(MetaId, Open), AllocError>
    requires none { locals.now ≡ [] }
    requires atom { IsAtom (open_type_of ty) }
    ensures ok { IfOk result (λ p. IsNew locals.now (open_type_of ty) (open_term_of p.1) store.old.now store.new.now) }
    ensures number { IfOk result (λ p. p.0.0 ≡ length store.old.now.declared) }
    ensures keeps { OnlyDeclares store.old store.new }
{
    let meta = store.fresh(OpenContext::new(alloc), ty)?;
    let spine = OpenSpine {
        args: Vec::new(alloc),
    };
    Ok((meta, Open::Root(OpenHead::Meta(meta), spine)))
}

/// The local variables as arguments.
fn arguments_on(alloc: Global, locals: &OpenContext) -> Result<OpenSpine, AllocError>
    ensures { IfOk result (λ s. open_spine_of s ≡ local_arguments_of locals.now) }
{
    if locals.len() == 0 {
        return Ok(OpenSpine {
            args: Vec::new(alloc),
        });
    }
    local_arguments(alloc, locals)
}

/// New metavariables for all quantifiers of the type. There is room for so many at once. It fails only for want of memory.
pub(crate) fn take_all<'a>(
    alloc: Global,
    store: &mut Store,
    locals: &OpenContext,
    ty: HeadType<'a>,
    room: usize,
) -> Result<Taken, AllocError>
    requires { TypeStands (made_with [] store.old.now) locals.now (head_type_of ty) }
    ensures ok { IfOk result (λ t. (a : ℕ) × TakesAll locals.now (head_type_of ty.entry) store.old.now store.new.now (open_spine_of t.spine) a (spine_with_applied (taken_at (open_spine_of t.arguments) t.metas.items 0) (target_arguments (head_type_of ty.entry)))) }
    ensures arguments { IfOk result (λ t. open_spine_of t.arguments ≡ local_arguments_of locals.now) }
    ensures metas { IfOk result (λ t. map (λ m. m.0) t.metas.items ≡ numbers_from (length store.old.now.declared) (head_type_of ty.entry)) }
    ensures keeps { OnlyDeclares store.old store.new }
{
    let arguments = arguments_on(alloc, locals)?;
    let mut metas = Vec::with_capacity(alloc, room)?;
    let mut args = Vec::with_capacity(alloc, room)?;
    let mut rest = ty;
    loop {
        match first_level(rest) {
            Part::Pi(domain, range) => {
                let (meta, arg) = take_one(alloc, store, locals, &arguments, &metas, domain)?;
                metas.push(meta)?;
                args.push(arg)?;
                rest = range;
            }
            Part::Atom(_, _) => {
                let spine = OpenSpine { args };
                return Ok(Taken {
                    spine,
                    metas,
                    arguments,
                });
            }
        }
    }
}
