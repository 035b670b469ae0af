//! Two lists, one behind the other, by equations made by hand. A list is z, or p of a number and a list.
use crate::problems::{Problem, ZERO, alone, meta, numbers, open_number};
use std::alloc::{AllocError, Global};
use tw_metas::Equation;
use tw_terms::{ConstId, Open, OpenContext, OpenHead, OpenSpine};

/// A number before a list.
const BEFORE: OpenHead = OpenHead::Const(ConstId(3));

fn before(alloc: Global, first: Open, rest: Open) -> Result<Open, AllocError> {
    let mut args = Vec::new(alloc);
    args.push(first)?;
    args.push(rest)?;
    Ok(Open::Root(BEFORE, OpenSpine { args }))
}

// an equation between lists, with no local variable
fn equation(alloc: Global, left: Open, right: Open) -> Equation {
    Equation {
        context: OpenContext::new(alloc),
        left,
        right,
        ty: open_number(alloc),
    }
}

/// A list of `count` elements is bound element by element; then a list of as many comes behind it, also element by element.
///
/// Of the metavariables the first `count + 1` are what is left of the first list before each element. For each element there are three more: the element that is read off, what is
/// left behind it, and what is left of the result. The last one is the whole result.
pub(crate) fn append(alloc: Global, count: u64) -> Result<Problem, AllocError> {
    let rows = count.saturating_add(1);
    let metas = rows
        .saturating_add(count.saturating_mul(3))
        .saturating_add(1);
    let mut equations = Vec::new(alloc);
    for place in 0..count {
        let list = before(
            alloc,
            alone(alloc, ZERO),
            meta(alloc, place.saturating_add(1)),
        )?;
        equations.push(equation(alloc, meta(alloc, place), list))?;
    }
    equations.push(equation(alloc, meta(alloc, count), alone(alloc, ZERO)))?;
    let mut list = 0;
    let mut result = metas.saturating_sub(1);
    for place in 0..count {
        let element = rows.saturating_add(place.saturating_mul(3));
        let rest = element.saturating_add(1);
        let more = element.saturating_add(2);
        let head = before(alloc, meta(alloc, element), meta(alloc, rest))?;
        equations.push(equation(alloc, head, meta(alloc, list)))?;
        let head = before(alloc, meta(alloc, element), meta(alloc, more))?;
        equations.push(equation(alloc, head, meta(alloc, result)))?;
        list = rest;
        result = more;
    }
    equations.push(equation(alloc, alone(alloc, ZERO), meta(alloc, list)))?;
    equations.push(equation(alloc, second(alloc, count)?, meta(alloc, result)))?;
    Ok(Problem {
        types: numbers(alloc, metas)?,
        equations,
    })
}

// the second list, of so many elements
fn second(alloc: Global, count: u64) -> Result<Open, AllocError> {
    let mut list = alone(alloc, ZERO);
    for _ in 0..count {
        list = before(alloc, alone(alloc, ZERO), list)?;
    }
    Ok(list)
}
