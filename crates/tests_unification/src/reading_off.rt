//! What is read off a store that is solved.
ghost use Rattle.std.specs.Prelude.{ℕ, List, IfOk, IfSome};
ghost use Rattle.tw_abstract.specs.Quantifiers.{AreQuantifiers};
ghost use Rattle.tw_abstract.specs.Reading.{IsSettled};

use crate::abstracting::metas_of;
use crate::solving::{NOT_ASKED, read_equations};
use std::alloc::{AllocError, Global};
use tests_forms::{
    Case, FormFault, Names, begin_part, read_metas, show_closed_term, show_closed_type,
};
use tests_ready::{are_ready, declared};
use tw_abstract::{Quantifiers, read_quantifiers, read_term, read_type};
use tw_hered::HeredFault;
use tw_metas::{Equation, Store};
use tw_signature::Signature;
use tw_terms::{MetaId, OpenContext, OpenHead, OpenTy, Term, Ty};
use tw_unify::{Unified, solve};

// the store with metavariables of these types, in which the equations are solved
fn settled(
    alloc: Global,
    signature: &Signature,
    types: &[OpenTy],
    equations: Vec<Equation>,
) -> Result<Option<Store>, AllocError>
    ensures { IfOk result (λ o. IfSome o (λ s. IsSettled s.now)) }
{
    let mut store = declared(alloc, types)?;
    if !are_ready(alloc, signature, &store, &equations)? {
        return Ok(None);
    }
    signature.is_canonical();
    match solve(alloc, &mut store, signature, equations) {
        Ok(Unified::Solved) => Ok(Some(store)),
        _ => Ok(None),
    }
}

// the type of a metavariable
fn type_read(
    alloc: Global,
    store: &Store,
    quantifiers: &Quantifiers,
    meta: u64,
) -> Result<Option<Ty>, HeredFault>
    requires settled { IsSettled store.now.now }
    requires quantifiers { (sites : List ℕ) × AreQuantifiers store.now.now sites quantifiers.now.positions quantifiers.now.context }
{
    match store.about(MetaId(meta)) {
        Some((_, ty)) => Ok(Some(read_type(alloc, store, quantifiers, 0, ty)?)),
        None => Ok(None),
    }
}

// the value of a metavariable
fn value_read(
    alloc: Global,
    store: &Store,
    quantifiers: &Quantifiers,
    meta: u64,
) -> Result<Option<Term>, HeredFault>
    requires settled { IsSettled store.now.now }
    requires quantifiers { (sites : List ℕ) × AreQuantifiers store.now.now sites quantifiers.now.positions quantifiers.now.context }
{
    match store.value(MetaId(meta)) {
        Some(value) => Ok(Some(read_term(alloc, store, quantifiers, 0, value)?)),
        None => Ok(None),
    }
}

/// The quantifiers of the case's store with their types, the outermost first, and the types and values that it asks for.
pub(crate) fn read_off(
    alloc: Global,
    signature: &Signature,
    names: &mut Names,
    case: &Case,
) -> Result<String, FormFault> {
    case.has_only(&["meta", "equation", "sites", "types", "values"])?;
    let types = read_metas(alloc, names, case)?;
    let equations = read_equations(alloc, names, &OpenContext::new(alloc), case)?;
    let Some(store) = settled(alloc, signature, &types, equations)? else {
        return Ok(String::from_str(alloc, NOT_ASKED)?);
    };
    let mut line = String::new(alloc);
    match show_read(alloc, &mut line, names, &store, case) {
        Ok(()) => Ok(line),
        Err(fault) => Err(fault),
    }
}

fn show_read(
    alloc: Global,
    line: &mut String,
    names: &mut Names,
    store: &Store,
    case: &Case,
) -> Result<(), FormFault>
    requires { IsSettled store.now.now }
{
    let quantifiers = match read_quantifiers(
        alloc,
        store,
        &metas_of(alloc, names, case, "sites")?,
    ) {
        Ok(quantifiers) => quantifiers,
        Err(fault) => return faulty(line, fault),
    };
    let types = metas_of(alloc, names, case, "types")?;
    let values = metas_of(alloc, names, case, "values")?;
    show_quantifiers(alloc, line, names, &quantifiers)?;
    for meta in &types {
        begin_part(line)?;
        names.show_head(line, OpenHead::Meta(*meta))?;
        line.push_str(" : ")?;
        match type_read(alloc, store, &quantifiers, meta.0) {
            Ok(Some(ty)) => show_closed_type(alloc, line, names, &ty)?,
            Ok(None) => line.push_str("none")?,
            Err(fault) => faulty(line, fault)?,
        }
    }
    for meta in &values {
        begin_part(line)?;
        names.show_head(line, OpenHead::Meta(*meta))?;
        line.push_str(" = ")?;
        match value_read(alloc, store, &quantifiers, meta.0) {
            Ok(Some(term)) => show_closed_term(alloc, line, names, &term)?,
            Ok(None) => line.push_str("none")?,
            Err(fault) => faulty(line, fault)?,
        }
    }
    Ok(())
}

fn faulty(line: &mut String, fault: HeredFault) -> Result<(), FormFault> {
    match fault {
        HeredFault::TooDeep => Ok(line.push_str("too deep")?),
        HeredFault::NoMemory => Err(FormFault::NoMemory),
    }
}

// Each quantifier with its type, by the names of the metavariables, which are in scope from then on.
fn show_quantifiers(
    alloc: Global,
    line: &mut String,
    names: &mut Names,
    quantifiers: &Quantifiers,
) -> Result<(), FormFault> {
    for (place, meta) in quantifiers.positions.metas().iter().enumerate() {
        begin_part(line)?;
        let mut name = String::new(alloc);
        names.show_head(&mut name, OpenHead::Meta(*meta))?;
        line.push_str(name.as_str())?;
        line.push_str(" : ")?;
        let count = quantifiers.context.len();
        let inside = count.checked_sub(place).ok_or(FormFault::NoMeaning)?;
        let inside = inside.checked_sub(1).ok_or(FormFault::NoMeaning)?;
        match quantifiers.context.get(inside as u64) {
            Some(ty) => show_closed_type(alloc, line, names, ty)?,
            None => return Err(FormFault::NoMeaning),
        }
        names.push_variable(alloc, name.as_str())?;
    }
    Ok(())
}
