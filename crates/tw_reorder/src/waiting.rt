//! What each variable of a context needs, and the order.
ghost use Rattle.std.specs.Prelude.{◌≡◌, ◌+◌, ◌<◌, suc, ℕ, IfOk, length, map, slice_get};
ghost use Rattle.lf.specs.Subordination.{Member};
ghost use Rattle.lf.specs.Typing.{IsContext, Signature};
ghost use Rattle.tw_abstract.specs.Occurrences.{noted};
ghost use Rattle.tw_abstract.specs.Order.{IsOrder};
ghost use Rattle.tw_abstract.specs.OrderView.{waiting_of};
ghost use Rattle.tw_reorder.specs.Waiting.{needs, needs_at, outermost_first, through_types, waiting};

use crate::variables::{note, note_type};
use std::alloc::{AllocError, Global};
use tw_abstract::{Candidate, Positions, quantifier_order};
use tw_terms::{Context, MetaId};

// A variable in the type of another one, counted in the whole context. Fails where no context in memory is so long.
fn further_out(variable: u64, by: u64) -> Result<MetaId, AllocError>
    ensures { IfOk result (λ m. m.0 ≡ variable + suc by) }
{
    let outside = by.checked_add(1).ok_or(AllocError)?;
    Ok(MetaId(variable.checked_add(outside).ok_or(AllocError)?))
}

// These variables, counted so.
fn all_further_out(alloc: Global, variables: &[MetaId], by: u64) -> Result<Vec<MetaId>, AllocError>
    ensures { IfOk result (λ v. map (λ n. n.0) v.items ≡ map (λ i. i + suc by) (map (λ n. n.0) variables.now)) }
{
    let mut moved = Vec::new(alloc);
    for variable in variables {
        moved.push(further_out(variable.0, by)?)?;
    }
    Ok(moved)
}

// The variables in the type of a variable, counted in the whole context.
fn needs(alloc: Global, context: &Context, variable: u64) -> Result<Vec<MetaId>, AllocError>
    ensures { IfOk result (λ v. map (λ n. n.0) v.items ≡ needs context.now variable) }
{
    let Some(ty) = context.get(variable) else {
        return Ok(Vec::new(alloc));
    };
    let mut found = Positions::new(alloc);
    note_type(&mut found, ty, 0)?;
    all_further_out(alloc, found.metas(), variable)
}

// Adds these variables.
fn note_all(found: &mut Positions, variables: &[MetaId]) -> Result<(), AllocError>
    ensures { IfOk result (λ _. found.new ≡ noted found.old (map (λ n. n.0) variables.now)) }
{
    for variable in variables {
        note(found, variable.0)?;
    }
    Ok(())
}

// The variable at a place.
fn variable_at(found: &Positions, place: usize) -> Option<u64>
    ensures { result ≡ slice_get found.now place }
{
    match found.metas().get(place) {
        Some(meta) => Some(meta.0),
        None => None,
    }
}

// Adds the variables in the type of the one at this place, if there is one.
fn note_needs(
    alloc: Global,
    context: &Context,
    found: &mut Positions,
    place: usize,
) -> Result<(), AllocError>
    ensures { IfOk result (λ _. found.new ≡ noted found.old (needs_at context.now (slice_get found.old place))) }
{
    let Some(variable) = variable_at(found, place) else {
        return Ok(());
    };
    let needs = needs(alloc, context, variable)?;
    note_all(found, &needs)
}

// Adds the variables in the types of those so far.
fn note_types(alloc: Global, context: &Context, found: &mut Positions) -> Result<(), AllocError>
    ensures { IfOk result (λ _. found.new ≡ through_types context.now (length context.now) 0 found.old) }
{
    for place in 0..context.len() {
        note_needs(alloc, context, found, place)?;
    }
    Ok(())
}

// Adds the others.
fn note_others(found: &mut Positions, count: usize) -> Result<(), AllocError>
    ensures { IfOk result (λ _. found.new ≡ noted found.old (outermost_first count)) }
{
    for place in (0..count).rev() {
        note(found, place as u64)?;
    }
    Ok(())
}

// Each with what it needs.
fn candidates(
    alloc: Global,
    context: &Context,
    found: &[MetaId],
) -> Result<Vec<Candidate>, AllocError>
    ensures { IfOk result (λ v. map waiting_of v.items ≡ map (waiting context.now) (map (λ n. n.0) found.now)) }
{
    let mut candidates = Vec::new(alloc);
    for meta in found {
        let needs = needs(alloc, context, meta.0)?;
        candidates.push(Candidate { meta: *meta, needs })?;
    }
    Ok(candidates)
}

/// The order of a context's variables, of which these occur first. Fails only for want of memory.
pub fn order(alloc: Global, context: &Context, first: Positions) -> Result<Positions, AllocError>
    requires context { (Σ : Signature) × IsContext Σ context.now }
    requires within { (v : ℕ) → Member v first → v < length context.now }
    ensures { IfOk result (λ o. IsOrder (map (waiting context.now) (noted (through_types context.now (length context.now) 0 first) (outermost_first (length context.now)))) o) }
{
    let mut found = first;
    note_types(alloc, context, &mut found)?;
    note_others(&mut found, context.len())?;
    let candidates = candidates(alloc, context, found.metas())?;
    match quantifier_order(alloc, &candidates)? {
        Some(order) => Ok(order),
        None => unreachable!(),
    }
}
