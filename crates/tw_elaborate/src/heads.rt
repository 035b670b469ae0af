//! Names in terms and types, with their types: free variables, variables in scope, constants, definitions and families.
ghost use Rattle.std.specs.Prelude.{◌≡◌, List, ℕ, IfOk, IsErrOf};
ghost use Rattle.lf.specs.Depth.{depth_limit};
ghost use Rattle.lf.specs.Entries.{Entry as Entered, signature_of, IsCanonicalSignature};
ghost use Rattle.lf.specs.Substitution.{reduce};
ghost use Rattle.lf.specs.Syntax.{skeleton};
ghost use Rattle.lf_elaboration.specs.Elaboration.{ElaboratesFamily, Infers};
ghost use Rattle.lf_elaboration.specs.Written.{Place, bound as bound_variable, declared as declared_name, family as family_name, free as free_name};
ghost use Rattle.tw_terms.specs.OpenView.{open_spine_of, open_term_of, open_type_of};
ghost use Rattle.tw_elaborate.specs.Deep.{FamilyDeep, InfersDeep, TakesDeep};
ghost use Rattle.tw_elaborate.specs.Fits.{GivesArguments, Stands};
ghost use Rattle.tw_elaborate.specs.Fresh.{Keeps};
ghost use Rattle.tw_elaborate.specs.Plain.{IsDefined};
ghost use Rattle.tw_elaborate.specs.Operators.{IsTerm, operator_of};
ghost use Rattle.tw_open.specs.View.{open_kind_of};
ghost use Rattle.tw_elaborate.specs.View.{made, numbers_of};

use crate::fresh::{kind_take_new, take_new};
use crate::operators::Operator;
use crate::state::Elaboration;
use std::alloc::{AllocError, Global};
use tw_hered::HeredFault;
use tw_open::{OpenKind, open_kind};
use tw_putting::{open_term, open_type, shift_type, substitute};
use tw_signature::{Body, Signature};
use tw_terms::{ConstId, MetaId, Open, OpenHead, OpenSpine, OpenTy};

/// A free variable, which is a metavariable in the empty context, and its type. Where there is no such one, memory counts as used up.
#[inline(never)]
pub fn free(
    alloc: Global,
    frees: &[MetaId],
    state: &Elaboration,
    variable: u64,
) -> Result<(Operator, OpenTy), AllocError>
    ensures ok { IfOk result (λ p. (es : List Entered) (at : Place) → Infers es (numbers_of frees.now) state.now.locals (free_name variable at) (made state.now) (made state.now) (operator_of (skeleton (open_type_of p.1)) p.0) (open_type_of p.1)) }
    ensures stays { IfOk result (λ p. IsTerm p.0 → ⊥) }
{
    let Some(meta) = frees.get(variable as usize) else {
        // Resolution numbers the free variables by the rows for which the metavariables were made, so none is missing; no clause of what is written says so.
        return Err(AllocError);
    };
    let Some((_, ty)) = state.store.about(*meta) else {
        // The store keeps each metavariable that was made; no clause says that those of the free variables are of this store.
        return Err(AllocError);
    };
    let spine = OpenSpine {
        args: Vec::new(alloc),
    };
    let ty = shift_type(alloc, ty, state.locals.len() as u64, 0)?;
    Ok((Operator::Head(OpenHead::Meta(*meta), spine), ty))
}

/// A variable in scope and its type. Where there is no such one, memory counts as used up.
#[inline(never)]
pub fn bound(
    alloc: Global,
    state: &Elaboration,
    variable: u64,
) -> Result<(Operator, OpenTy), AllocError>
    ensures ok { IfOk result (λ p. (es : List Entered) (numbers : List ℕ) → Infers es numbers state.now.locals (bound_variable variable) (made state.now) (made state.now) (operator_of (skeleton (open_type_of p.1)) p.0) (open_type_of p.1)) }
    ensures stays { IfOk result (λ p. IsTerm p.0 → ⊥) }
{
    let Some(ty) = state.locals.get(variable) else {
        // Resolution finds each variable in the scope over which elaboration goes; no clause of what is written says so.
        return Err(AllocError);
    };
    let by = variable.checked_add(1).ok_or(AllocError)?;
    let ty = shift_type(alloc, ty, by, 0)?;
    let spine = OpenSpine {
        args: Vec::new(alloc),
    };
    Ok((Operator::Head(OpenHead::Var(variable), spine), ty))
}

/// A constant, or the term that a definition stands for, on new metavariables for its implicit arguments. Where there is no such one, memory counts as used up.
#[inline(never)]
pub fn declared(
    alloc: Global,
    signature: &Signature,
    state: &mut Elaboration,
    id: ConstId,
) -> Result<(Operator, OpenTy), HeredFault>
    requires canonical { IsCanonicalSignature signature.now }
    requires stands { Stands (signature_of signature.now) (made state.old) state.old.locals }
    ensures ok { IfOk result (λ p. (numbers : List ℕ) (at : Place) → Infers signature.now numbers state.old.locals (declared_name id.0 at) (made state.old) (made state.new) (operator_of (skeleton (open_type_of p.1)) p.0) (open_type_of p.1)) }
    ensures defined { IfOk result (λ p. IsTerm p.0 → IsDefined signature.now id.0) }
    ensures too_deep { IsErrOf result HeredFault.TooDeep → (numbers : List ℕ) (at : Place) → InfersDeep signature.now numbers state.old.locals (declared_name id.0 at) (made state.old) }
    ensures keeps { Keeps state.old state.new }
{
    let Some(entry) = signature.entry(id) else {
        // Resolution takes each constant from this signature; no clause of what is written says so.
        return Err(HeredFault::NoMemory);
    };
    let implicit = entry.implicit as u64;
    match &entry.body {
        Body::Constant(ty) => {
            let ty = open_type(alloc, ty)?;
            let (spine, rest) = take_new(alloc, state, implicit, ty)?;
            Ok((Operator::Head(OpenHead::Const(id), spine), rest))
        }
        Body::Defined {
            term,
            ty,
            abbrev: _,
        } => {
            let whole = open_type(alloc, ty)?;
            let (spine, rest) = take_new(alloc, state, implicit, open_type(alloc, ty)?)?;
            let term = on_arguments(alloc, open_term(alloc, term)?, &spine, &whole)?;
            Ok((Operator::Term(term), rest))
        }
        // What has a skeleton has no family as a term; no clause says that what is written has one.
        Body::Family(_) => Err(HeredFault::NoMemory),
    }
}

/// The term, which has the skeleton of the type, on some of its arguments: each takes a lambda away.
fn on_arguments(
    alloc: Global,
    term: Open,
    spine: &OpenSpine,
    ty: &OpenTy,
) -> Result<Open, HeredFault>
    requires { GivesArguments (skeleton (open_type_of ty.now)) (open_term_of term) (open_spine_of spine.now) }
    ensures ok { IfOk result (λ m. open_term_of m ≡ reduce (skeleton (open_type_of ty.now)) (open_term_of term) (open_spine_of spine.now)) }
    ensures too_deep { IsErrOf result HeredFault.TooDeep → TakesDeep depth_limit (skeleton (open_type_of ty.now)) (open_term_of term) (open_spine_of spine.now) }
{
    let mut body = term;
    let mut rest = ty;
    for arg in &spine.args {
        match (body, rest) {
            (Open::Lam(inner), OpenTy::Pi(domain, range)) => {
                body = substitute(alloc, &inner, 0, arg, domain)?;
                rest = range;
            }
            // Each argument has a lambda and a quantifier; the loop doesn't carry it.
            _ => return Err(HeredFault::NoMemory),
        }
    }
    Ok(body)
}

/// A family on new metavariables for its implicit arguments, and the kind that is left. Where there is no such one, memory counts as used up.
#[inline(never)]
pub fn named_family(
    alloc: Global,
    signature: &Signature,
    state: &mut Elaboration,
    id: ConstId,
) -> Result<(OpenSpine, OpenKind), HeredFault>
    requires canonical { IsCanonicalSignature signature.now }
    requires stands { Stands (signature_of signature.now) (made state.old) state.old.locals }
    ensures ok { IfOk result (λ p. (numbers : List ℕ) (at : Place) → ElaboratesFamily signature.now numbers state.old.locals (family_name id.0 at) (made state.old) (made state.new) id.0 (open_spine_of p.0) (open_kind_of p.1)) }
    ensures too_deep { IsErrOf result HeredFault.TooDeep → (numbers : List ℕ) (at : Place) → FamilyDeep signature.now numbers state.old.locals (family_name id.0 at) (made state.old) }
    ensures keeps { Keeps state.old state.new }
{
    let Some(entry) = signature.entry(id) else {
        // Resolution takes each family from this signature; no clause of what is written says so.
        return Err(HeredFault::NoMemory);
    };
    match &entry.body {
        Body::Family(kind) => {
            kind_take_new(alloc, state, entry.implicit as u64, open_kind(alloc, kind)?)
        }
        // What has a skeleton has no constant as a family; no clause says that what is written has one.
        Body::Constant(_) | Body::Defined { .. } => Err(HeredFault::NoMemory),
    }
}
