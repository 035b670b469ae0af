//! What is read off a leaf without equations.
ghost use Rattle.std.specs.Prelude.{◌≡◌, ◌≤◌, ◌∷◌, [], ℕ, IfOk, IsErrOf, List, None, OnOk, is_some, length, map, option_map, reverse};
ghost use Rattle.lf.specs.Depth.{depth_limit};
ghost use Rattle.lf.specs.Syntax.{LfType};
ghost use Rattle.lf_search.specs.Coming.{AnswerIsDeep};
ghost use Rattle.tw_metas.specs.State.{value_of};
ghost use Rattle.tw_putting.specs.Whole.{whole};
ghost use Rattle.tw_terms.specs.View.{term_of};
ghost use Rattle.tw_search.specs.Leaves.{AreValuesRead, CanRead, IsLeaf, IsProofRead, IsReadOff, IsValueRead, ValueIsDeep, sites_of};

use std::alloc::{AllocError, Global};
use tw_abstract::{Quantifiers, read_quantifiers, read_term};
use tw_hered::HeredFault;
use tw_metas::Store;
use tw_prune::expand_variable;
use tw_putting::closed_term;
use tw_terms::{Context, MetaId, Term};

/// An answer: the free variables with their types, the value of each variable of the goal, the outermost first, and the proof, which is read only where the goal has a name for it.
#[derive(Drop, Debug)]
pub struct Answer {
    pub free: Context,
    pub values: Vec<Term>,
    pub proof: Option<Term>,
}

/// The answer of a leaf without equations, whose first metavariables are so many variables of the goal and then the hole of the proof. The proof is read only where it is wanted: it may be far
/// greater than the values, with the implicit arguments of each of its steps.
///
/// Answers `TooDeep` only where the answer is deeper than 4,096: a value, the proof, or the type of a free variable.
pub(crate) fn read_answer(
    alloc: Global,
    store: &Store,
    variables: u64,
    with_proof: bool,
) -> Result<Answer, HeredFault>
    requires { IsLeaf store.now.now variables }
    ensures read { IfOk result (λ a. IsReadOff store.now.now variables a.free (reverse (map term_of a.values.items)) (option_map term_of a.proof)) }
    ensures proof { IfOk result (λ a. is_some a.proof ≡ with_proof) }
    ensures too_deep { IsErrOf result HeredFault.TooDeep → (G : List LfType) → length G ≡ variables → AnswerIsDeep depth_limit G (whole [] store.now.now) }
{
    let sites = sites(alloc, variables, with_proof)?;
    let quantifiers = read_quantifiers(alloc, store, &sites)?;
    let values = read_values(alloc, store, &quantifiers, variables)?;
    let proof = read_proof(alloc, store, &quantifiers, variables, with_proof)?;
    Ok(Answer {
        free: quantifiers.context,
        values,
        proof,
    })
}

/// The proof, where it is wanted.
fn read_proof(
    alloc: Global,
    store: &Store,
    quantifiers: &Quantifiers,
    variables: u64,
    wanted: bool,
) -> Result<Option<Term>, HeredFault>
    requires { CanRead store.now.now variables quantifiers.now.positions quantifiers.now.context }
    ensures read { IfOk result (λ p. IsProofRead store.now.now quantifiers.now.positions variables (option_map term_of p)) }
    ensures wanted { IfOk result (λ p. is_some p ≡ wanted) }
    ensures too_deep { IsErrOf result HeredFault.TooDeep → ValueIsDeep store.now.now variables }
{
    if !wanted {
        return Ok(None);
    }
    let proof = read_value(alloc, store, quantifiers, variables, MetaId(variables))?;
    Ok(Some(proof))
}

/// The values of the variables, the outermost first.
fn read_values(
    alloc: Global,
    store: &Store,
    quantifiers: &Quantifiers,
    variables: u64,
) -> Result<Vec<Term>, HeredFault>
    requires { CanRead store.now.now variables quantifiers.now.positions quantifiers.now.context }
    ensures read { IfOk result (λ v. AreValuesRead store.now.now quantifiers.now.positions (reverse (map term_of v.items))) }
    ensures count { IfOk result (λ v. length (reverse (map term_of v.items)) ≡ variables) }
    ensures too_deep { IsErrOf result HeredFault.TooDeep → (m : ℕ) × (m ≤ variables) × ValueIsDeep store.now.now m }
{
    let mut values = Vec::new(alloc);
    for variable in 0..variables {
        let value = read_value(alloc, store, quantifiers, variables, MetaId(variable))?;
        add(&mut values, value)?;
    }
    Ok(values)
}

/// The value of a metavariable, in the scope of the quantifiers.
fn read_value(
    alloc: Global,
    store: &Store,
    quantifiers: &Quantifiers,
    variables: u64,
    meta: MetaId,
) -> Result<Term, HeredFault>
    requires can { CanRead store.now.now variables quantifiers.now.positions quantifiers.now.context }
    requires first { meta.0 ≤ variables }
    ensures read { IfOk result (λ t. IsValueRead store.now.now quantifiers.now.positions meta.0 (term_of t)) }
    ensures too_deep { IsErrOf result HeredFault.TooDeep → ValueIsDeep store.now.now meta.0 }
{
    match store.value(meta) {
        Some(value) => read_term(alloc, store, quantifiers, 0, value),
        None => Ok(free_value(alloc, store, quantifiers, variables, meta)?),
    }
}

/// The variable that stands for a metavariable that is free, eta-long.
fn free_value(
    alloc: Global,
    store: &Store,
    quantifiers: &Quantifiers,
    variables: u64,
    meta: MetaId,
) -> Result<Term, AllocError>
    requires can { CanRead store.now.now variables quantifiers.now.positions quantifiers.now.context }
    requires first { meta.0 ≤ variables }
    requires free { value_of store.now.now meta.0 ≡ None }
    ensures { IfOk result (λ t. IsValueRead store.now.now quantifiers.now.positions meta.0 (term_of t)) }
{
    match store.about(meta) {
        Some((_, ty)) => match quantifiers.positions.variable(meta) {
            Some(variable) => {
                match closed_term(alloc, &expand_variable(alloc, ty, variable)?)? {
                    Some(term) => Ok(term),
                    None => unreachable!(),
                }
            }
            None => unreachable!(),
        },
        None => unreachable!(),
    }
}

/// The metavariables of the variables, and of the hole, where the proof is read.
fn sites(alloc: Global, variables: u64, with_proof: bool) -> Result<Vec<MetaId>, AllocError>
    ensures { IfOk result (λ v. map (λ m. m.0) v.items ≡ sites_of variables with_proof) }
{
    let mut sites = Vec::new(alloc);
    for variable in 0..variables {
        sites.push(MetaId(variable))?;
    }
    if with_proof {
        sites.push(MetaId(variables))?;
    }
    Ok(sites)
}

/// One more, behind the others.
fn add(values: &mut Vec<Term>, value: Term) -> Result<(), AllocError>
    ensures { OnOk result (reverse (map term_of values.new.items) ≡ term_of value ∷ reverse (map term_of values.old.items)) }
{
    values.push(value)?;
    Ok(())
}
