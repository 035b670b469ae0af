//! Orders, compared component by component.
ghost use Rattle.std.specs.Prelude.{◌≡◌, ◌<◌, ◌⊎◌, drop, length, Decides, IfOk};
ghost use Rattle.lf.specs.Entries.{signature_of};
ghost use Rattle.lf_checks.specs.Order.{Alike, AllAlike, AllSame, Less, LessLexicographic, LessSimultaneous, NoneGreater, Same, next_order};
ghost use Rattle.tw_clause.specs.Orders.{order_of};
ghost use Rattle.tw_terms.specs.View.{type_of};
ghost use Rattle.tw_order.specs.Components.{orders_in};
ghost use Rattle.tw_order.specs.Places.{AtomStands, IsLessAt, IsSameAt};

use crate::places::{Call, same_places, smaller_places};
use std::alloc::{AllocError, Global};
use tw_clause::Order;
use tw_signature::Signature;
use tw_terms::Ty;

/// The first of some components.
fn first(orders: &[Order]) -> &Order
    requires { 0 < length orders.now }
    ensures { orders_in orders.now ≡ next_order (order_of result.now) (orders_in (drop 1 orders.now)) }
{
    &orders[0]
}

/// The others.
fn others(orders: &[Order]) -> &[Order]
    requires { 0 < length orders.now }
    ensures { result.now ≡ drop 1 orders.now }
{
    &orders[1..]
}

/// Whether two orders differ in nothing but the numbers of their places.
#[cycle(alike)]
pub fn alike(one: &Order, other: &Order) -> bool
    ensures { Decides result (Alike (order_of one.now) (order_of other.now)) }
{
    match one {
        Order::Arg(_) => match other {
            Order::Arg(_) => true,
            Order::Lex(_) | Order::Simul(_) => false,
        },
        Order::Lex(ones) => match other {
            Order::Lex(more) => all_alike(ones, more),
            Order::Arg(_) | Order::Simul(_) => false,
        },
        Order::Simul(ones) => match other {
            Order::Simul(more) => all_alike(ones, more),
            Order::Arg(_) | Order::Lex(_) => false,
        },
    }
}

/// The same of the components of each.
#[cycle(alike)]
fn all_alike(ones: &[Order], more: &[Order]) -> bool
    ensures { Decides result (AllAlike (orders_in ones.now) (orders_in more.now)) }
{
    if ones.is_empty() {
        return more.is_empty();
    }
    if more.is_empty() {
        return false;
    }
    alike(first(ones), first(more)) && all_alike(others(ones), others(more))
}

/// Whether a call is the same as the head of its clause by these orders.
#[cycle(same)]
pub fn same(goal: &Ty, head: &Ty, one: &Order, other: &Order) -> bool
    ensures { Decides result (Same (IsSameAt (type_of goal.now) (type_of head.now)) (order_of one.now) (order_of other.now)) }
{
    match one {
        Order::Arg(place) => match other {
            Order::Arg(other_place) => same_places(goal, head, *place, *other_place),
            Order::Lex(_) | Order::Simul(_) => false,
        },
        Order::Lex(ones) => match other {
            Order::Lex(more) => all_same(goal, head, ones, more),
            Order::Arg(_) | Order::Simul(_) => false,
        },
        Order::Simul(ones) => match other {
            Order::Simul(more) => all_same(goal, head, ones, more),
            Order::Arg(_) | Order::Lex(_) => false,
        },
    }
}

/// The same by the components of each.
#[cycle(same)]
fn all_same(goal: &Ty, head: &Ty, ones: &[Order], more: &[Order]) -> bool
    ensures { Decides result (AllSame (IsSameAt (type_of goal.now) (type_of head.now)) (orders_in ones.now) (orders_in more.now)) }
{
    if ones.is_empty() {
        return more.is_empty();
    }
    if more.is_empty() {
        return false;
    }
    same(goal, head, first(ones), first(more)) && all_same(goal, head, others(ones), others(more))
}

/// Whether it is less than the head by these orders.
#[cycle(less)]
pub fn less(
    alloc: Global,
    sig: &Signature,
    call: &Call,
    one: &Order,
    other: &Order,
) -> Result<bool, AllocError>
    requires { AtomStands (signature_of sig.now) call.now.scope.context.now (type_of call.now.head.now) }
    ensures { IfOk result (λ b. Decides b (Less (IsLessAt (signature_of sig.now) call.now) (IsSameAt (type_of call.now.goal.now) (type_of call.now.head.now)) (order_of one.now) (order_of other.now))) }
{
    match one {
        Order::Arg(place) => match other {
            Order::Arg(other_place) => smaller_places(alloc, sig, call, *place, *other_place),
            Order::Lex(_) | Order::Simul(_) => Ok(false),
        },
        Order::Lex(ones) => match other {
            Order::Lex(more) => less_lexicographic(alloc, sig, call, ones, more),
            Order::Arg(_) | Order::Simul(_) => Ok(false),
        },
        Order::Simul(ones) => match other {
            Order::Simul(more) => less_simultaneous(alloc, sig, call, ones, more),
            Order::Arg(_) | Order::Lex(_) => Ok(false),
        },
    }
}

/// Whether a component is less, and those before it are the same.
#[cycle(less)]
fn less_lexicographic(
    alloc: Global,
    sig: &Signature,
    call: &Call,
    ones: &[Order],
    more: &[Order],
) -> Result<bool, AllocError>
    requires { AtomStands (signature_of sig.now) call.now.scope.context.now (type_of call.now.head.now) }
    ensures { IfOk result (λ b. Decides b (LessLexicographic (IsLessAt (signature_of sig.now) call.now) (IsSameAt (type_of call.now.goal.now) (type_of call.now.head.now)) (orders_in ones.now) (orders_in more.now))) }
{
    if ones.is_empty() {
        return Ok(false);
    }
    if more.is_empty() {
        return Ok(false);
    }
    let one = first(ones);
    let other = first(more);
    if less(alloc, sig, call, one, other)? {
        return Ok(true);
    }
    if !same(call.goal, call.head, one, other) {
        return Ok(false);
    }
    less_lexicographic(alloc, sig, call, others(ones), others(more))
}

/// Whether each component is less or the same, and one is less.
#[cycle(less)]
fn less_simultaneous(
    alloc: Global,
    sig: &Signature,
    call: &Call,
    ones: &[Order],
    more: &[Order],
) -> Result<bool, AllocError>
    requires { AtomStands (signature_of sig.now) call.now.scope.context.now (type_of call.now.head.now) }
    ensures { IfOk result (λ b. Decides b (LessSimultaneous (IsLessAt (signature_of sig.now) call.now) (IsSameAt (type_of call.now.goal.now) (type_of call.now.head.now)) (orders_in ones.now) (orders_in more.now))) }
{
    if ones.is_empty() {
        return Ok(false);
    }
    if more.is_empty() {
        return Ok(false);
    }
    let one = first(ones);
    let other = first(more);
    if less(alloc, sig, call, one, other)? {
        return none_greater(alloc, sig, call, others(ones), others(more));
    }
    if !same(call.goal, call.head, one, other) {
        return Ok(false);
    }
    less_simultaneous(alloc, sig, call, others(ones), others(more))
}

/// Whether each component is less or the same.
#[cycle(less)]
fn none_greater(
    alloc: Global,
    sig: &Signature,
    call: &Call,
    ones: &[Order],
    more: &[Order],
) -> Result<bool, AllocError>
    requires { AtomStands (signature_of sig.now) call.now.scope.context.now (type_of call.now.head.now) }
    ensures { IfOk result (λ b. Decides b (NoneGreater (IsLessAt (signature_of sig.now) call.now) (IsSameAt (type_of call.now.goal.now) (type_of call.now.head.now)) (orders_in ones.now) (orders_in more.now))) }
{
    if ones.is_empty() {
        return Ok(true);
    }
    if more.is_empty() {
        return Ok(false);
    }
    if !less_or_same(alloc, sig, call, first(ones), first(more))? {
        return Ok(false);
    }
    none_greater(alloc, sig, call, others(ones), others(more))
}

/// Whether a call is less than the head by these orders, or the same.
#[cycle(less)]
fn less_or_same(
    alloc: Global,
    sig: &Signature,
    call: &Call,
    one: &Order,
    other: &Order,
) -> Result<bool, AllocError>
    requires { AtomStands (signature_of sig.now) call.now.scope.context.now (type_of call.now.head.now) }
    ensures { IfOk result (λ b. Decides b (Less (IsLessAt (signature_of sig.now) call.now) (IsSameAt (type_of call.now.goal.now) (type_of call.now.head.now)) (order_of one.now) (order_of other.now) ⊎ Same (IsSameAt (type_of call.now.goal.now) (type_of call.now.head.now)) (order_of one.now) (order_of other.now))) }
{
    if less(alloc, sig, call, one, other)? {
        return Ok(true);
    }
    Ok(same(call.goal, call.head, one, other))
}
