//! The calls of a clause to its group: which are equal to its head, and which descend.
ghost use Rattle.std.specs.Prelude.{◌≡◌, ◌↔◌, ◌⊎◌, ℕ, List, map, option_map, Decides, IfOk, OnOk};
ghost use Rattle.lf.specs.Entries.{quantifiers, signature_of};
ghost use Rattle.lf.specs.Subordination.{Block as PlainBlock};
ghost use Rattle.lf.specs.Typing.{IsType};
ghost use Rattle.lf.specs.Variables.{binders, target as target_of_type};
ghost use Rattle.lf_checks.specs.Clause.{scope};
ghost use Rattle.lf_checks.specs.Descent.{CallDescends};
ghost use Rattle.lf_checks.specs.Order.{Alike};
ghost use Rattle.lf_checks.specs.OrderFaults.{ClauseDescends, GroupCallPasses, OrderFault as PlainFault};
ghost use Rattle.tw_clause.specs.Orders.{order_of};
ghost use Rattle.tw_terms.specs.View.{type_of};
ghost use Rattle.tw_order.specs.Calls.{AreEqualCalls, DescendsBy, IsEqualAmong, IsEqualIn, IsEqualTo, Outcome};
ghost use Rattle.tw_order.specs.Leading.{HasEdge};
ghost use Rattle.tw_order.specs.Listing.{ClauseStands, clause_in};
ghost use Rattle.tw_order.specs.Rows.{families_of, or_empty, orders_by, row_order};

use crate::atoms::{count_quantifiers, moved_target, under_quantifiers};
use crate::goals::goals;
use crate::leading::{Edge, add_edge, leads};
use crate::listed::Listed;
use crate::orders::{alike, less, same};
use crate::places::Call;
use crate::rows::order_in;
use crate::scope::Scope;
use std::alloc::{AllocError, Global};
use tw_clause::Order;
use tw_signature::Signature;
use tw_terms::{ConstId, Context, Ty, target};

/// The equal calls of clauses to the group: one from the family of the clause to that of the subgoal, for each subgoal that is the same as the head by the orders of both.
pub fn equal_calls(
    alloc: Global,
    group: &[(ConstId, Order)],
    listed: &[Listed],
) -> Result<Vec<Edge>, AllocError>
    ensures { IfOk result (λ v. (a b : ℕ) → HasEdge v.items a b ↔ IsEqualAmong group.now (map clause_in listed.now) a b) }
{
    let mut edges = Vec::new(alloc);
    for clause in listed {
        add_calls(alloc, group, clause, &mut edges)?;
    }
    Ok(edges)
}

/// Adds those of one clause.
fn add_calls(
    alloc: Global,
    group: &[(ConstId, Order)],
    clause: &Listed,
    edges: &mut Vec<Edge>,
) -> Result<(), AllocError>
    ensures { OnOk result ((a b : ℕ) → HasEdge edges.new.items a b ↔ (HasEdge edges.old.items a b ⊎ IsEqualIn group.now (clause_in clause.now) a b)) }
{
    let goals = goals(alloc, clause.ty)?;
    for goal in &goals {
        add_call(alloc, group, clause, goal, edges)?;
    }
    Ok(())
}

/// Adds that of one subgoal, if it is an equal call to the group.
fn add_call(
    alloc: Global,
    group: &[(ConstId, Order)],
    clause: &Listed,
    goal: &Ty,
    edges: &mut Vec<Edge>,
) -> Result<(), AllocError>
    ensures { OnOk result ((a b : ℕ) → HasEdge edges.new.items a b ↔ (HasEdge edges.old.items a b ⊎ IsEqualTo group.now (clause_in clause.now) (type_of goal.now) a b)) }
{
    let Some(callee) = order_in(group, target(goal)) else {
        return Ok(());
    };
    let none = Order::Lex(Vec::new(alloc));
    let caller = or_none(order_in(group, target(clause.ty)), &none);
    let head = moved_target(alloc, clause.ty, goal)?;
    if same(goal, &head, callee, caller) {
        add_edge(edges, target(clause.ty).0, target(goal).0)?;
    }
    Ok(())
}

/// The order, or the other where there is none.
fn or_none<'a>(order: Option<&'a Order>, none: &'a Order) -> &'a Order
    requires { order_of none.now ≡ or_empty None }
    ensures { order_of result.now ≡ or_empty (option_map (λ o. order_of o.now) order.entry) }
{
    match order {
        Some(order) => order,
        None => none,
    }
}

/// The number of the first subgoal of a clause that is a call to the group and doesn't descend.
pub fn clause_fault(
    alloc: Global,
    sig: &Signature,
    group: &[(ConstId, Order)],
    edges: &[Edge],
    clause: &Listed,
) -> Result<Option<u64>, AllocError>
    requires { ClauseStands (signature_of sig.now) (clause_in clause.now) }
    ensures { IfOk result (λ f. (W : List PlainBlock) → AreEqualCalls (signature_of sig.now) W group.now edges.now → Outcome (ClauseDescends (CallDescends (signature_of sig.now) W (orders_by group.now) (families_of group.now)) (families_of group.now) (clause_in clause.now)) (PlainFault (CallDescends (signature_of sig.now) W (orders_by group.now) (families_of group.now)) (families_of group.now) (clause_in clause.now)) f) }
{
    let context = under_quantifiers(alloc, &clause.outer, clause.ty)?;
    let goals = goals(alloc, clause.ty)?;
    for (place, goal) in goals.iter().enumerate() {
        if !passes(alloc, sig, group, edges, clause, &context, goal)? {
            return Ok(Some(place as u64 + 1));
        }
    }
    Ok(None)
}

/// Whether a subgoal is no call to the group, or descends.
fn passes(
    alloc: Global,
    sig: &Signature,
    group: &[(ConstId, Order)],
    edges: &[Edge],
    clause: &Listed,
    context: &Context,
    goal: &Ty,
) -> Result<bool, AllocError>
    requires context { context.now ≡ scope (clause_in clause.now) }
    requires clause { ClauseStands (signature_of sig.now) (clause_in clause.now) }
    requires goal { IsType (signature_of sig.now) (scope (clause_in clause.now)) (type_of goal.now) }
    ensures { IfOk result (λ b. (W : List PlainBlock) → AreEqualCalls (signature_of sig.now) W group.now edges.now → Decides b (GroupCallPasses (CallDescends (signature_of sig.now) W (orders_by group.now) (families_of group.now)) (families_of group.now) (clause_in clause.now) (type_of goal.now))) }
{
    let Some(callee) = order_in(group, target(goal)) else {
        return Ok(true);
    };
    let none = Order::Lex(Vec::new(alloc));
    let caller = or_none(order_in(group, target(clause.ty)), &none);
    if !alike(callee, caller) {
        return Ok(false);
    }
    descends(alloc, sig, edges, clause, context, goal, callee, caller)
}

/// Whether a call is less than the head by these orders, or the same where no equal calls lead back.
fn descends(
    alloc: Global,
    sig: &Signature,
    edges: &[Edge],
    clause: &Listed,
    context: &Context,
    goal: &Ty,
    callee: &Order,
    caller: &Order,
) -> Result<bool, AllocError>
    requires context { context.now ≡ scope (clause_in clause.now) }
    requires clause { ClauseStands (signature_of sig.now) (clause_in clause.now) }
    requires goal { IsType (signature_of sig.now) (scope (clause_in clause.now)) (type_of goal.now) }
    ensures { IfOk result (λ b. Decides b (DescendsBy (signature_of sig.now) edges.now (order_of callee.now) (order_of caller.now) (clause_in clause.now) (type_of goal.now))) }
{
    let inner = under_quantifiers(alloc, context, goal)?;
    let head = moved_target(alloc, clause.ty, goal)?;
    let call = Call {
        scope: Scope {
            context: &inner,
            locals: count_quantifiers(goal)?,
            own: count_quantifiers(clause.ty)?,
            entries: clause.entries,
        },
        goal,
        head: &head,
    };
    if less(alloc, sig, &call, callee, caller)? {
        return Ok(true);
    }
    if !same(goal, &head, callee, caller) {
        return Ok(false);
    }
    Ok(!leads(alloc, edges, target(goal).0, target(clause.ty).0)?)
}
