//! Termination orders as they are written, read as orders over the places of a family.
ghost use Rattle.std.specs.Prelude.{◌≡◌, ◌<◌, ◌+◌, ◌^◌, suc, length, map, option_copied, slice_get, IfOk};
ghost use Rattle.lf_checks.specs.Marks.{input_places, is_input};
ghost use Rattle.lf_checks.specs.Order.{chosen_at};
ghost use Rattle.tw_clause.specs.View.{mark_of};
ghost use Rattle.tw_parse_checks.specs.Checks.{order_of as written_of};
ghost use Rattle.tw_decl.specs.Steps.{IsOrderAt};
ghost use Rattle.tw_decl.specs.Termination.{order_at, place_from, place_of};

use std::alloc::{AllocError, Global};
use tw_clause::{Mark3, Order};
use tw_parse::ExtName;
use tw_parse_checks::ExtOrder;

// The number of the first of the names that is this one, counted on from so many implicit arguments; 0 where none is.
fn place_from(names: &[ExtName], implicit: u32, name: &ExtName) -> u32
    requires { length names.now + implicit < 2 ^ 32 }
    ensures { result ≡ place_from (suc implicit) names.now name.now.name }
{
    let mut place = implicit;
    for other in names {
        place += 1;
        if other.name.as_bytes() == name.name.as_bytes() {
            return place;
        }
    }
    0
}

// The same of a name that may be missing.
fn place_of(names: &[ExtName], implicit: u32, name: Option<&ExtName>) -> u32
    requires { length names.now + implicit < 2 ^ 32 }
    ensures { result ≡ place_of (suc implicit) names.now (option_copied name.entry) }
{
    match name {
        Some(name) => place_from(names, implicit, name),
        None => 0,
    }
}

// Whether it is `+`.
fn is_plus(mark: Mark3) -> bool
    ensures { result ≡ is_input (mark_of mark) }
{
    match mark {
        Mark3::Plus => true,
        Mark3::Minus | Mark3::Free => false,
    }
}

// Whether a place is an input by these marks.
fn is_input(marks: &[Mark3], place: u32) -> bool
    ensures { result ≡ chosen_at (input_places (map mark_of marks.now)) place }
{
    if place == 0 {
        return false;
    }
    let index = place as usize - 1;
    if index >= marks.len() {
        return false;
    }
    is_plus(marks[index])
}

// The name with this number, from 0.
fn variable(variables: &[ExtName], number: usize) -> Option<&ExtName>
    ensures { option_copied result ≡ slice_get variables.now number }
{
    variables.get(number)
}

/// The order over the places of a family with these marks that its call pattern gives it, if each of them is an input. The pattern has this number and these names behind so many implicit arguments.
pub fn order_at(
    alloc: Global,
    order: &ExtOrder,
    number: usize,
    names: &[ExtName],
    implicit: u32,
    marks: &[Mark3],
) -> Result<Option<Order>, AllocError>
    requires { length names.now + implicit < 2 ^ 32 }
    ensures { IfOk result (IsOrderAt (input_places (map mark_of marks.now)) (order_at number (suc implicit) names.now (written_of order.now))) }
{
    match order {
        ExtOrder::Each(variables) => {
            let place = place_of(names, implicit, variable(variables, number));
            if is_input(marks, place) {
                Ok(Some(Order::Arg(place)))
            } else {
                Ok(None)
            }
        }
        ExtOrder::Lex(components) => {
            let mut orders = Vec::new(alloc);
            for component in components {
                match order_at(alloc, component, number, names, implicit, marks)? {
                    Some(order) => orders.push(order)?,
                    None => return Ok(None),
                }
            }
            Ok(Some(Order::Lex(orders)))
        }
        ExtOrder::Simul(components) => {
            let mut orders = Vec::new(alloc);
            for component in components {
                match order_at(alloc, component, number, names, implicit, marks)? {
                    Some(order) => orders.push(order)?,
                    None => return Ok(None),
                }
            }
            Ok(Some(Order::Simul(orders)))
        }
    }
}
