//! The problems, over numbers n with z and s: rows, towers, chains, and equations that wake.
use crate::lists::append;
use crate::proofs_under::{add_proofs, proof};
use std::alloc::{AllocError, Global};
use tests_ready::{add_constant, add_family};
use tw_fixity::Name;
use tw_metas::Equation;
use tw_signature::Signature;
use tw_terms::{ConstId, Kind, MetaId, Open, OpenContext, OpenHead, OpenSpine, OpenTy, Spine, Ty};

pub(crate) const ZERO: OpenHead = OpenHead::Const(ConstId(1));

pub(crate) const NEXT: OpenHead = OpenHead::Const(ConstId(2));

/// A constant that takes many numbers.
const MANY: OpenHead = OpenHead::Const(ConstId(3));

/// The types of the metavariables, and the equations.
#[derive(Drop)]
pub struct Problem {
    pub types: Vec<OpenTy>,
    pub equations: Vec<Equation>,
}

pub(crate) fn number(alloc: Global) -> Ty {
    Ty::Atom(
        ConstId(0),
        Spine {
            args: Vec::new(alloc),
        },
    )
}

pub(crate) fn open_number(alloc: Global) -> OpenTy {
    OpenTy::Atom(
        ConstId(0),
        OpenSpine {
            args: Vec::new(alloc),
        },
    )
}

// functions of so many numbers
fn functions(alloc: Global, count: u64) -> Result<Ty, AllocError> {
    let mut ty = number(alloc);
    for _ in 0..count {
        ty = Ty::Pi(Box::new(alloc, number(alloc))?, Box::new(alloc, ty)?);
    }
    Ok(ty)
}

// one constant more; where it is refused, memory counts as used up
fn add(alloc: Global, signature: &mut Signature, name: &str, count: u64) -> Result<(), AllocError> {
    let name = Name::from_text(alloc, name)?;
    let ty = functions(alloc, count)?;
    if add_constant(alloc, signature, name, ty, 0)? {
        Ok(())
    } else {
        Err(AllocError)
    }
}

/// The signature: n, z, s, and what the kind has besides: a constant that takes so many numbers, one that takes two, or proofs.
pub(crate) fn signature(alloc: Global, kind: &str, size: u64) -> Result<Signature, AllocError> {
    let mut signature = Signature::new(alloc);
    let name = Name::from_text(alloc, "n")?;
    if !add_family(alloc, &mut signature, name, Kind::Star, 0)? {
        return Err(AllocError);
    }
    add(alloc, &mut signature, "z", 0)?;
    add(alloc, &mut signature, "s", 1)?;
    match kind {
        "spine" => add(alloc, &mut signature, "c", size)?,
        "append" => add(alloc, &mut signature, "p", 2)?,
        "proof" => add_proofs(alloc, &mut signature)?,
        _ => (),
    }
    Ok(signature)
}

pub(crate) fn alone(alloc: Global, head: OpenHead) -> Open {
    Open::Root(
        head,
        OpenSpine {
            args: Vec::new(alloc),
        },
    )
}

fn on(alloc: Global, head: OpenHead, arg: Open) -> Result<Open, AllocError> {
    let mut args = Vec::new(alloc);
    args.push(arg)?;
    Ok(Open::Root(head, OpenSpine { args }))
}

pub(crate) fn meta(alloc: Global, number: u64) -> Open {
    alone(alloc, OpenHead::Meta(MetaId(number)))
}

// an equation between numbers, in the context of one number
fn equation(alloc: Global, left: Open, right: Open) -> Result<Equation, AllocError> {
    let mut context = OpenContext::new(alloc);
    context.push(open_number(alloc))?;
    Ok(Equation {
        context,
        left,
        right,
        ty: open_number(alloc),
    })
}

// so many metavariables for numbers
pub(crate) fn numbers(alloc: Global, count: u64) -> Result<Vec<OpenTy>, AllocError> {
    let mut types = Vec::new(alloc);
    for _ in 0..count {
        types.push(open_number(alloc))?;
    }
    Ok(types)
}

// c of so many arguments: metavariables, or z
fn spine(alloc: Global, count: u64, metas: bool) -> Result<Open, AllocError> {
    let mut args = Vec::new(alloc);
    for place in 0..count {
        let arg = if metas {
            meta(alloc, place)
        } else {
            alone(alloc, ZERO)
        };
        args.push(arg)?;
    }
    Ok(Open::Root(MANY, OpenSpine { args }))
}

// s so many times
pub(crate) fn tower(alloc: Global, count: u64, top: Open) -> Result<Open, AllocError> {
    let mut tower = top;
    for _ in 0..count {
        tower = on(alloc, NEXT, tower)?;
    }
    Ok(tower)
}

// each metavariable is the next one, and then the first one is z
fn chain(alloc: Global, count: u64) -> Result<Vec<Equation>, AllocError> {
    let mut equations = Vec::new(alloc);
    for next in 1..count {
        equations.push(equation(alloc, meta(alloc, next - 1), meta(alloc, next))?)?;
    }
    equations.push(equation(alloc, meta(alloc, 0), alone(alloc, ZERO))?)?;
    Ok(equations)
}

// each metavariable is z
fn flat(alloc: Global, count: u64) -> Result<Vec<Equation>, AllocError> {
    let mut equations = Vec::new(alloc);
    for place in 0..count {
        equations.push(equation(alloc, meta(alloc, place), alone(alloc, ZERO))?)?;
    }
    Ok(equations)
}

// metavariables for functions
fn function_types(alloc: Global, count: u64) -> Result<Vec<OpenTy>, AllocError> {
    let mut types = Vec::new(alloc);
    for _ in 0..count {
        types.push(OpenTy::Pi(
            Box::new(alloc, open_number(alloc))?,
            Box::new(alloc, open_number(alloc))?,
        ))?;
    }
    Ok(types)
}

// so many equations that stay left, behind them as many that are postponed, and what wakes these
fn waking(alloc: Global, count: u64) -> Result<Vec<Equation>, AllocError> {
    let mut equations = Vec::new(alloc);
    for _ in 0..count {
        let stuck = on(alloc, OpenHead::Meta(MetaId(0)), alone(alloc, ZERO))?;
        equations.push(equation(alloc, stuck, alone(alloc, ZERO))?)?;
    }
    for place in 0..count {
        let head = OpenHead::Meta(MetaId(place.saturating_add(1)));
        let late = on(alloc, head, alone(alloc, ZERO))?;
        equations.push(equation(alloc, late, alone(alloc, ZERO))?)?;
    }
    for place in 0..count {
        let head = OpenHead::Meta(MetaId(place.saturating_add(1)));
        let first = on(alloc, head, alone(alloc, OpenHead::Var(0)))?;
        equations.push(equation(alloc, first, alone(alloc, OpenHead::Var(0)))?)?;
    }
    Ok(equations)
}

fn single(alloc: Global, left: Open, right: Open) -> Result<Vec<Equation>, AllocError> {
    let mut equations = Vec::new(alloc);
    equations.push(equation(alloc, left, right)?)?;
    Ok(equations)
}

/// The problem of this kind; an unknown kind has no equation.
pub(crate) fn problem_of(alloc: Global, kind: &str, size: u64) -> Result<Problem, AllocError> {
    match kind {
        "spine" => Ok(Problem {
            types: numbers(alloc, size)?,
            equations: single(alloc, spine(alloc, size, true)?, spine(alloc, size, false)?)?,
        }),
        "tower" => Ok(Problem {
            types: numbers(alloc, 1)?,
            equations: single(
                alloc,
                tower(alloc, size, meta(alloc, 0))?,
                tower(alloc, size, alone(alloc, ZERO))?,
            )?,
        }),
        "chain" => Ok(Problem {
            types: numbers(alloc, size)?,
            equations: chain(alloc, size)?,
        }),
        "flat" => Ok(Problem {
            types: numbers(alloc, size)?,
            equations: flat(alloc, size)?,
        }),
        "proof" => proof(alloc, size),
        "append" => append(alloc, size),
        "waking" => Ok(Problem {
            types: function_types(alloc, size.saturating_add(1))?,
            equations: waking(alloc, size)?,
        }),
        _ => Ok(Problem {
            types: Vec::new(alloc),
            equations: Vec::new(alloc),
        }),
    }
}
