//! A new metavariable, which stands for a term over the variables in scope.
ghost use Rattle.std.specs.Prelude.{◌≡◌, IfOk, length};
ghost use Rattle.tw_terms.specs.OpenView.{open_term_of, open_type_of};
ghost use Rattle.tw_open.specs.Fresh.{IsNew, OnlyDeclares};

use crate::raising::{closed_over, expanded, local_arguments};
use std::alloc::{AllocError, Global};
use tw_metas::Store;
use tw_terms::{MetaId, Open, OpenContext, OpenHead, OpenTy};

/// A new metavariable of the type closed over the variables in scope, and its eta-long form at these. Fails only for want of memory.
pub fn new_term(
    alloc: Global,
    store: &mut Store,
    locals: &OpenContext,
    ty: &OpenTy,
) -> Result<(MetaId, Open), AllocError>
    ensures ok { IfOk result (λ p. IsNew locals.now (open_type_of ty.now) (open_term_of p.1) store.old.now store.new.now) }
    ensures number { IfOk result (λ p. p.0.0 ≡ length store.old.now.declared) }
    ensures keeps { OnlyDeclares store.old store.new }
{
    let copied = ty.copy(alloc)?;
    new_term_of(alloc, store, locals, copied)
}

/// The same of a type that moves into the store.
pub fn new_term_of(
    alloc: Global,
    store: &mut Store,
    locals: &OpenContext,
    ty: OpenTy,
) -> Result<(MetaId, Open), AllocError>
    ensures ok { IfOk result (λ p. IsNew locals.now (open_type_of ty) (open_term_of p.1) store.old.now store.new.now) }
    ensures number { IfOk result (λ p. p.0.0 ≡ length store.old.now.declared) }
    ensures keeps { OnlyDeclares store.old store.new }
{
    let next = MetaId(store.declared_count() as u64);
    let spine = local_arguments(alloc, locals)?;
    let term = expanded(alloc, OpenHead::Meta(next), spine, &ty)?;
    let closed = closed_over(alloc, locals, ty)?;
    let meta = store.fresh(OpenContext::new(alloc), closed)?;
    Ok((meta, term))
}
