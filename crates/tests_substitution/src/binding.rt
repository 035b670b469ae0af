//! The metavariables of a case, and their values.
ghost use Rattle.std.specs.Prelude.{◌≤◌, IfOk, IsTrue, OnOk, map};
ghost use Rattle.tw_terms.specs.View.{skeleton_of};
ghost use Rattle.tests_substitution.specs.Kept.{IsBound, KeepsBound};

use crate::stores::{bind, declare};
use std::alloc::{AllocError, Global};
use tests_forms::{Case, Field, Form, FormFault, Names, number_of, read_forms, read_term};
use tw_metas::Store;
use tw_signature::Signature;
use tw_terms::{MetaId, Open, OpenHead, OpenSpine, OpenTy, Skeleton};

/// Declares metavariables of these types, and then those of the chain of the case.
pub(crate) fn declare_all(
    alloc: Global,
    names: &Names,
    case: &Case,
    types: &[OpenTy],
    store: &mut Store,
) -> Result<(), FormFault>
    ensures { OnOk result (KeepsBound store.old.now store.new.now) }
{
    for ty in types {
        declare(alloc, ty, store)?;
    }
    declare_chain(alloc, names, case, store)?;
    Ok(())
}

/// Declares so many metavariables of the type n as the word `chain` says.
fn declare_chain(
    alloc: Global,
    names: &Names,
    case: &Case,
    store: &mut Store,
) -> Result<(), FormFault>
    ensures { OnOk result (KeepsBound store.old.now store.new.now) }
{
    let count = chain_length(case)?;
    let args = Vec::new(alloc);
    let number = OpenTy::Atom(names.constant("n")?, OpenSpine { args });
    for _ in 0..count {
        declare(alloc, &number, store)?;
    }
    Ok(())
}

fn chain_length(case: &Case) -> Result<u64, FormFault> {
    let text = case.text("chain")?;
    if text.is_empty() {
        return Ok(0);
    }
    number_of(text)
}

/// Gives the metavariables their values, if each may have its own: those of the words `bind META TERM`, in the context of the variables in scope, and then to each of
/// the chain the next one.
pub(crate) fn bind_all(
    alloc: Global,
    signature: &Signature,
    names: &mut Names,
    case: &Case,
    outer: &[Skeleton],
    store: &mut Store,
) -> Result<bool, FormFault>
    requires { IsBound signature.now (map skeleton_of outer.now) store.old.now }
    ensures { IfOk result (λ b. IsTrue b → IsBound signature.now (map skeleton_of outer.now) store.new.now) }
{
    for field in &case.fields {
        if !bind_field(alloc, signature, names, field, outer, store)? {
            return Ok(false);
        }
    }
    let count = chain_length(case)?;
    Ok(bind_chain(alloc, signature, count, outer, store)?)
}

fn bind_field(
    alloc: Global,
    signature: &Signature,
    names: &mut Names,
    field: &Field,
    outer: &[Skeleton],
    store: &mut Store,
) -> Result<bool, FormFault>
    requires { IsBound signature.now (map skeleton_of outer.now) store.old.now }
    ensures { IfOk result (λ b. IsTrue b → IsBound signature.now (map skeleton_of outer.now) store.new.now) }
{
    if field.word.as_str() != "bind" {
        return Ok(true);
    }
    let forms = read_forms(alloc, field.text.as_str())?;
    bind_forms(alloc, signature, names, &forms, outer, store)
}

fn bind_forms(
    alloc: Global,
    signature: &Signature,
    names: &mut Names,
    forms: &[Form],
    outer: &[Skeleton],
    store: &mut Store,
) -> Result<bool, FormFault>
    requires { IsBound signature.now (map skeleton_of outer.now) store.old.now }
    ensures { IfOk result (λ b. IsTrue b → IsBound signature.now (map skeleton_of outer.now) store.new.now) }
{
    match forms {
        [Form::Word(word), form] => {
            let meta = names.meta(word.as_str())?;
            bind_form(alloc, signature, names, meta, form, outer, store)
        }
        _ => Err(FormFault::NoMeaning),
    }
}

fn bind_form(
    alloc: Global,
    signature: &Signature,
    names: &mut Names,
    meta: MetaId,
    form: &Form,
    outer: &[Skeleton],
    store: &mut Store,
) -> Result<bool, FormFault>
    requires { IsBound signature.now (map skeleton_of outer.now) store.old.now }
    ensures { IfOk result (λ b. IsTrue b → IsBound signature.now (map skeleton_of outer.now) store.new.now) }
{
    let value = read_term(alloc, names, form)?;
    Ok(bind(alloc, signature, outer, store, meta, value)?)
}

/// Gives each of so many metavariables the next one as its value, but the last.
fn bind_chain(
    alloc: Global,
    signature: &Signature,
    count: u64,
    outer: &[Skeleton],
    store: &mut Store,
) -> Result<bool, AllocError>
    requires { IsBound signature.now (map skeleton_of outer.now) store.old.now }
    ensures { IfOk result (λ b. IsTrue b → IsBound signature.now (map skeleton_of outer.now) store.new.now) }
{
    for next in 1..count {
        if !bind_before(alloc, signature, next, outer, store)? {
            return Ok(false);
        }
    }
    Ok(true)
}

/// Gives the metavariable before this one this one as its value.
fn bind_before(
    alloc: Global,
    signature: &Signature,
    next: u64,
    outer: &[Skeleton],
    store: &mut Store,
) -> Result<bool, AllocError>
    requires after { 1 ≤ next }
    requires bound { IsBound signature.now (map skeleton_of outer.now) store.old.now }
    ensures { IfOk result (λ b. IsTrue b → IsBound signature.now (map skeleton_of outer.now) store.new.now) }
{
    let args = Vec::new(alloc);
    let value = Open::Root(OpenHead::Meta(MetaId(next)), OpenSpine { args });
    bind(alloc, signature, outer, store, MetaId(next - 1), value)
}
