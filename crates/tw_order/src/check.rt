//! The check of orders of a group.
ghost use Rattle.std.specs.Prelude.{◌≡◌, [], ◌∷◌, List, map};
ghost use Rattle.lf.specs.Entries.{signature_of};
ghost use Rattle.lf.specs.Subordination.{AreTypedBlocks, Block as PlainBlock};
ghost use Rattle.lf_checks.specs.Descent.{CallDescends};
ghost use Rattle.tw_clause.specs.View.{worlds_of};
ghost use Rattle.tw_order.specs.Calls.{AreEqualCalls};
ghost use Rattle.tw_order.specs.Listing.{AllStand, ClauseStands, clause_in, named_of};
ghost use Rattle.tw_order.specs.Outcomes.{ListOutcome, OrderOutcome};
ghost use Rattle.tw_order.specs.Rows.{families_of, orders_by};

use crate::calls::{clause_fault, equal_calls};
use crate::fault::OrderFault;
use crate::leading::Edge;
use crate::listed::{Listed, list_group};
use std::alloc::Global;
use tw_clause::{Order, Worlds};
use tw_signature::Signature;
use tw_terms::ConstId;

/// Whether each call to the group in a clause of the group descends by these orders: it is less than the head, or the same where no equal calls of the group lead back. The clauses are those of the
/// signature and of the entries of the worlds. Else the first clause with a call that doesn't, and in it the first subgoal in solving order.
pub fn check_order(
    alloc: Global,
    sig: &Signature,
    group: &[(ConstId, Order)],
    worlds: &Worlds,
) -> Result<(), OrderFault>
    requires { AreTypedBlocks (signature_of sig.now) (worlds_of worlds.now) }
    ensures { OrderOutcome sig.now (worlds_of worlds.now) (orders_by group.now) (families_of group.now) result }
{
    sig.is_canonical();
    let listed = list_group(alloc, sig, worlds, group)?;
    let edges = equal_calls(alloc, group, &listed)?;
    all_descend(alloc, sig, group, &edges, &listed)
}

/// The same of listed clauses.
fn all_descend(
    alloc: Global,
    sig: &Signature,
    group: &[(ConstId, Order)],
    edges: &[Edge],
    listed: &[Listed],
) -> Result<(), OrderFault>
    requires { AllStand (signature_of sig.now) listed.now }
    ensures { (W : List PlainBlock) → AreEqualCalls (signature_of sig.now) W group.now edges.now → ListOutcome (CallDescends (signature_of sig.now) W (orders_by group.now) (families_of group.now)) (families_of group.now) (map named_of listed.now) result }
{
    for clause in listed {
        clause_descends(alloc, sig, group, edges, clause)?;
    }
    Ok(())
}

/// The same of one clause.
fn clause_descends(
    alloc: Global,
    sig: &Signature,
    group: &[(ConstId, Order)],
    edges: &[Edge],
    clause: &Listed,
) -> Result<(), OrderFault>
    requires { ClauseStands (signature_of sig.now) (clause_in clause.now) }
    ensures { (W : List PlainBlock) → AreEqualCalls (signature_of sig.now) W group.now edges.now → ListOutcome (CallDescends (signature_of sig.now) W (orders_by group.now) (families_of group.now)) (families_of group.now) (named_of clause.now ∷ []) result }
{
    match clause_fault(alloc, sig, group, edges, clause)? {
        Some(subgoal) => Err(OrderFault::Fault {
            clause: clause.name.copy(alloc)?,
            subgoal,
        }),
        None => Ok(()),
    }
}
