//! The families that a clause calls.
ghost use Rattle.std.specs.Prelude.{◌≡◌, [], ◌∷◌, cond, option_map, IfOk};
ghost use Rattle.lf.specs.Variables.{target as target_of_type};
ghost use Rattle.lf_checks.specs.ModeRows.{called, called_by_hypotheses, first_unmoded};
ghost use Rattle.lf_checks.specs.Parts.{shape as shape_of_type};
ghost use Rattle.tw_terms.specs.View.{type_of};
ghost use Rattle.tw_mode.specs.Rows.{moded_in};

use crate::table::Table;
use std::alloc::{AllocError, Global};
use tw_signature::shape_of;
use tw_terms::{ConstId, Ty, target};

/// The first family without a mode that a clause of this type calls, if there is one: for each subgoal in solving order its family, and then what its hypotheses of
/// moded families call, the oldest hypothesis first. Takes the size of the type. Fails only for want of memory.
#[cycle(called)]
pub fn unmoded(alloc: Global, table: &Table, ty: &Ty) -> Result<Option<ConstId>, AllocError>
    ensures { IfOk result (λ f. option_map (λ c. c.0) f ≡ first_unmoded (moded_in table.now) (called (moded_in table.now) (type_of ty.now))) }
{
    let shape = shape_of(alloc, ty)?;
    unmoded_subgoal(alloc, table, &shape, ty)
}

/// The same, where the shape of the type says which quantifiers are variables.
#[cycle(called)]
fn unmoded_subgoal(
    alloc: Global,
    table: &Table,
    shape: &[bool],
    ty: &Ty,
) -> Result<Option<ConstId>, AllocError>
    requires shape { shape.now ≡ shape_of_type (type_of ty.now) }
    ensures { IfOk result (λ f. option_map (λ c. c.0) f ≡ first_unmoded (moded_in table.now) (called (moded_in table.now) (type_of ty.now))) }
{
    match ty {
        Ty::Pi(domain, range) => {
            let first = unmoded_subgoal(alloc, table, &shape[1..], range)?;
            if first.is_some() {
                return Ok(first);
            }
            unmoded_unless(alloc, table, shape[0], domain)
        }
        Ty::Atom(_, _) => Ok(None),
    }
}

/// The first that a quantifier calls, which is no subgoal where it is a variable: its own family before those of its hypotheses.
#[cycle(called)]
fn unmoded_unless(
    alloc: Global,
    table: &Table,
    is_variable: bool,
    domain: &Ty,
) -> Result<Option<ConstId>, AllocError>
    ensures { IfOk result (λ f. option_map (λ c. c.0) f ≡ first_unmoded (moded_in table.now) (cond is_variable [] (target_of_type (type_of domain.now) ∷ called_by_hypotheses (moded_in table.now) (type_of domain.now)))) }
{
    if is_variable {
        return Ok(None);
    }
    if !table.has(target(domain)) {
        return Ok(Some(target(domain)));
    }
    unmoded_hypothesis(alloc, table, domain)
}

/// The first that the hypotheses of a subgoal call.
#[cycle(called)]
fn unmoded_hypothesis(
    alloc: Global,
    table: &Table,
    goal: &Ty,
) -> Result<Option<ConstId>, AllocError>
    ensures { IfOk result (λ f. option_map (λ c. c.0) f ≡ first_unmoded (moded_in table.now) (called_by_hypotheses (moded_in table.now) (type_of goal.now))) }
{
    match goal {
        Ty::Pi(domain, range) => {
            let first = unmoded_in(alloc, table, domain)?;
            if first.is_some() {
                return Ok(first);
            }
            unmoded_hypothesis(alloc, table, range)
        }
        Ty::Atom(_, _) => Ok(None),
    }
}

/// The first that a hypothesis calls, if its family has a mode.
#[cycle(called)]
fn unmoded_in(alloc: Global, table: &Table, domain: &Ty) -> Result<Option<ConstId>, AllocError>
    ensures { IfOk result (λ f. option_map (λ c. c.0) f ≡ first_unmoded (moded_in table.now) (cond (moded_in table.now (target_of_type (type_of domain.now))) (called (moded_in table.now) (type_of domain.now)) [])) }
{
    if !table.has(target(domain)) {
        return Ok(None);
    }
    unmoded(alloc, table, domain)
}
