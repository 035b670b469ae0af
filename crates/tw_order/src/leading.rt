//! Equal calls between families, and where they lead.
ghost use Rattle.std.specs.Prelude.{◌≡◌, ◌<◌, ◌↔◌, ◌⊎◌, ℕ, Some, length, slice_get, Decides, IfOk, MatchOption, OnOk};
ghost use Rattle.lf.specs.Subordination.{Member};
ghost use Rattle.tw_order.specs.Leading.{HasEdge, Leads, IsDue};
ghost use Rattle.tw_order.specs.declared.leading.Edge.{Edge as PlainEdge};

use std::alloc::{AllocError, Global};

/// An equal call from a clause of one family to another family, by their numbers.
#[derive(Clone, Copy)]
pub struct Edge {
    pub caller: u64,
    pub callee: u64,
}

/// Whether the list has an equal call from one family to another.
fn has_edge(edges: &[Edge], caller: u64, callee: u64) -> bool
    ensures { Decides result (HasEdge edges.now caller callee) }
{
    for edge in edges {
        if edge.caller == caller && edge.callee == callee {
            return true;
        }
    }
    false
}

/// Adds an equal call, unless the list has it.
pub fn add_edge(edges: &mut Vec<Edge>, caller: u64, callee: u64) -> Result<(), AllocError>
    ensures { OnOk result ((a b : ℕ) → HasEdge edges.new.items a b ↔ (HasEdge edges.old.items a b ⊎ ((caller ≡ a) × (callee ≡ b)))) }
{
    if has_edge(edges, caller, callee) {
        return Ok(());
    }
    edges.push(Edge { caller, callee })?;
    Ok(())
}

/// Whether equal calls lead from one family to another. Takes the square of the number of calls.
pub fn leads(alloc: Global, edges: &[Edge], from: u64, to: u64) -> Result<bool, AllocError>
    ensures { IfOk result (λ b. Decides b (Leads edges.now from to)) }
{
    let mut reached = Vec::new(alloc);
    reached.push(from)?;
    let mut left = Vec::from_slice(alloc, edges)?;
    while let Some(place) = due(&left, &reached) {
        let edge = left.remove(place);
        reached.push(edge.callee)?;
    }
    Ok(has_number(&reached, to))
}

/// The place of the first of these calls whose caller is reached.
fn due(left: &[Edge], reached: &[u64]) -> Option<usize>
    ensures { MatchOption result ((e : PlainEdge) → IsDue left.now reached.now e → ⊥) (λ k. (k < length left.now) × ((e : PlainEdge) × (slice_get left.now k ≡ Some e) × Member e.caller reached.now)) }
{
    for (place, edge) in left.iter().enumerate() {
        if has_number(reached, edge.caller) {
            return Some(place);
        }
    }
    None
}

/// Whether the number is one of the list.
fn has_number(numbers: &[u64], number: u64) -> bool
    ensures { Decides result (Member number numbers.now) }
{
    for other in numbers {
        if *other == number {
            return true;
        }
    }
    false
}
