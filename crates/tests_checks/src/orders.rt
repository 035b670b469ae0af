//! The check of orders.
ghost use Rattle.lf.specs.Entries.{signature_of};
ghost use Rattle.lf.specs.Subordination.{AreTypedBlocks};
ghost use Rattle.tw_clause.specs.View.{worlds_of};

use crate::blocks::typed_worlds;
use crate::showing::put_fault;
use std::alloc::Global;
use tests_forms::{Case, Form, FormFault, Names, number_of, read_forms};
use tw_clause::{Order, Worlds};
use tw_order::{OrderFault, check_order};
use tw_signature::Signature;
use tw_terms::ConstId;

/// Adds what the check of orders says of the group of a case.
pub(crate) fn put_answer(
    alloc: Global,
    signature: &Signature,
    names: &mut Names,
    case: &Case,
    line: &mut String,
) -> Result<(), FormFault> {
    let worlds = typed_worlds(alloc, signature, names, case)?;
    match case.kind.as_str() {
        "check" => check_in(alloc, signature, names, case, &worlds, line),
        _ => Err(FormFault::NoMeaning),
    }
}

fn check_in(
    alloc: Global,
    signature: &Signature,
    names: &Names,
    case: &Case,
    worlds: &Worlds,
    line: &mut String,
) -> Result<(), FormFault>
    requires { AreTypedBlocks (signature_of signature.now) (worlds_of worlds.now) }
{
    let group = read_rows(alloc, names, case)?;
    let verdict = check_order(alloc, signature, &group, worlds);
    put_verdict(line, names, &verdict)
}

// Adds `ok`, or the clause with the number of its subgoal.
fn put_verdict(
    line: &mut String,
    names: &Names,
    verdict: &Result<(), OrderFault>,
) -> Result<(), FormFault> {
    match verdict {
        Ok(()) => Ok(line.push_str("ok")?),
        Err(OrderFault::NoMemory) => Err(FormFault::NoMemory),
        Err(OrderFault::Fault { clause, subgoal }) => {
            Ok(put_fault(line, names, clause, *subgoal)?)
        }
    }
}

// The families of a group with their orders, as `(plus (lex 1 2)) (ev 1)`.
fn read_rows(
    alloc: Global,
    names: &Names,
    case: &Case,
) -> Result<Vec<(ConstId, Order)>, FormFault> {
    let forms = read_forms(alloc, case.text("group")?)?;
    rows_of(alloc, names, &forms)
}

fn rows_of(
    alloc: Global,
    names: &Names,
    forms: &[Form],
) -> Result<Vec<(ConstId, Order)>, FormFault> {
    let mut rows = Vec::new(alloc);
    for form in forms {
        rows.push(row_of(alloc, names, form)?)?;
    }
    Ok(rows)
}

// A family and its order.
fn row_of(alloc: Global, names: &Names, form: &Form) -> Result<(ConstId, Order), FormFault> {
    let (family, rest) = form.parts().ok_or(FormFault::NoMeaning)?;
    let family = names.constant(family)?;
    let order = rest.first().ok_or(FormFault::NoMeaning)?;
    Ok((family, order_of(alloc, order)?))
}

// An order: a place, or `lex` or `simul` with components.
#[cycle(ordering)]
fn order_of(alloc: Global, form: &Form) -> Result<Order, FormFault> {
    match form {
        Form::Word(word) => place_of(word.as_str()),
        Form::Group(forms) => match forms.as_slice() {
            [Form::Word(word), rest @ ..] if word.as_str() == "lex" => {
                Ok(Order::Lex(components(alloc, rest)?))
            }
            [Form::Word(word), rest @ ..] if word.as_str() == "simul" => {
                Ok(Order::Simul(components(alloc, rest)?))
            }
            _ => Err(FormFault::NoMeaning),
        },
    }
}

#[cycle(ordering)]
fn components(alloc: Global, forms: &[Form]) -> Result<Vec<Order>, FormFault> {
    let mut components = Vec::new(alloc);
    for form in forms {
        components.push(order_of(alloc, form)?)?;
    }
    Ok(components)
}

fn place_of(word: &str) -> Result<Order, FormFault> {
    match u32::try_from(number_of(word)?) {
        Ok(place) => Ok(Order::Arg(place)),
        Err(_) => Err(FormFault::NoMeaning),
    }
}
