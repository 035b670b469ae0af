//! Signatures with many families, or with many clauses of one. Each clause is `f (s X) (s Y) <- f X Y` of its family f, or has this subgoal under hypotheses.
use std::alloc::{AllocError, Global};
use tests_ready::{add_constant, add_family};
use tw_fixity::Name;
use tw_signature::Signature;
use tw_terms::{ConstId, Head, Kind, Spine, Term, Ty};

/// The family of numbers.
pub(crate) const NUMBER: ConstId = ConstId(0);

const NEXT: Head = Head::Const(ConstId(1));

/// The first entry behind the numbers.
pub(crate) const FIRST: u64 = 2;

/// What stands in the local context of a subgoal: so many hypotheses, each a number or a call as the subgoal itself.
#[derive(Clone, Copy)]
pub(crate) struct Hypotheses {
    pub(crate) count: u64,
    pub(crate) are_numbers: bool,
}

fn atom(family: ConstId, args: Vec<Term>) -> Ty {
    Ty::Atom(family, Spine { args })
}

/// The type of numbers.
pub(crate) fn number(alloc: Global) -> Ty {
    atom(NUMBER, Vec::new(alloc))
}

fn variable(alloc: Global, variable: u64) -> Term {
    Term::Root(
        Head::Var(variable),
        Spine {
            args: Vec::new(alloc),
        },
    )
}

// the number after a variable
fn next(alloc: Global, of: u64) -> Result<Term, AllocError> {
    let mut args = Vec::new(alloc);
    args.push(variable(alloc, of))?;
    Ok(Term::Root(NEXT, Spine { args }))
}

// the type over one quantifier more
fn over(alloc: Global, domain: Ty, range: Ty) -> Result<Ty, AllocError> {
    Ok(Ty::Pi(Box::new(alloc, domain)?, Box::new(alloc, range)?))
}

// a kind with one number more
fn of_number(alloc: Global, kind: Kind) -> Result<Kind, AllocError> {
    Ok(Kind::Pi(Box::new(alloc, number(alloc))?, Box::new(alloc, kind)?))
}

/// The call of a family with the two variables that stand outside so many others.
pub(crate) fn call(alloc: Global, family: ConstId, newer: u64) -> Result<Ty, AllocError> {
    let mut args = Vec::new(alloc);
    args.push(variable(alloc, newer.saturating_add(1)))?;
    args.push(variable(alloc, newer))?;
    Ok(atom(family, args))
}

// the call under hypotheses
fn subgoal(alloc: Global, family: ConstId, hypotheses: Hypotheses) -> Result<Ty, AllocError> {
    let mut ty = call(alloc, family, hypotheses.count)?;
    for newer in 0..hypotheses.count {
        let older = hypotheses.count - 1 - newer;
        ty = over(alloc, hypothesis(alloc, family, hypotheses, older)?, ty)?;
    }
    Ok(ty)
}

// the hypothesis that stands under so many older ones
fn hypothesis(
    alloc: Global,
    family: ConstId,
    hypotheses: Hypotheses,
    older: u64,
) -> Result<Ty, AllocError> {
    if hypotheses.are_numbers {
        Ok(number(alloc))
    } else {
        call(alloc, family, older)
    }
}

// the clause of a family
fn clause(alloc: Global, family: ConstId, hypotheses: Hypotheses) -> Result<Ty, AllocError> {
    let mut args = Vec::new(alloc);
    args.push(next(alloc, 2)?)?;
    args.push(next(alloc, 1)?)?;
    let head = atom(family, args);
    let ty = over(alloc, subgoal(alloc, family, hypotheses)?, head)?;
    let ty = over(alloc, number(alloc), ty)?;
    over(alloc, number(alloc), ty)
}

// what is refused counts as want of memory
fn taken(is_taken: bool) -> Result<(), AllocError> {
    if is_taken { Ok(()) } else { Err(AllocError) }
}

// a family of two numbers
fn declare_family(alloc: Global, signature: &mut Signature, number: u64) -> Result<(), AllocError> {
    let text = format!(in alloc; "f{number}")?;
    let name = Name::from_text(alloc, &text)?;
    let kind = of_number(alloc, of_number(alloc, Kind::Star)?)?;
    taken(add_family(alloc, signature, name, kind, 0)?)
}

// a clause of a family
fn declare_clause(
    alloc: Global,
    signature: &mut Signature,
    number: u64,
    family: u64,
    hypotheses: Hypotheses,
) -> Result<(), AllocError> {
    let text = format!(in alloc; "c{number}")?;
    let name = Name::from_text(alloc, &text)?;
    let ty = clause(alloc, ConstId(family), hypotheses)?;
    taken(add_constant(alloc, signature, name, ty, 0)?)
}

// the numbers, without the first one
fn numbers(alloc: Global, signature: &mut Signature) -> Result<(), AllocError> {
    let name = Name::from_text(alloc, "n")?;
    taken(add_family(alloc, signature, name, Kind::Star, 0)?)?;
    let name = Name::from_text(alloc, "s")?;
    let ty = over(alloc, number(alloc), number(alloc))?;
    taken(add_constant(alloc, signature, name, ty, 0)?)
}

// of each clause of a kind
fn hypotheses_of(kind: &str, size: u64) -> Hypotheses {
    let count = match kind {
        "hypotheses" => 1,
        "context" | "instances" => size,
        _ => 0,
    };
    Hypotheses {
        count,
        are_numbers: kind != "instances",
    }
}

/// So many families with a clause each. For the kinds `clauses` and `hypotheses` one family with so many clauses, whose subgoals have no hypothesis or one; for `context` and `instances`
/// one with a single clause, whose subgoal has so many hypotheses: numbers, or calls as the subgoal itself.
pub(crate) fn signature(alloc: Global, kind: &str, size: u64) -> Result<Signature, AllocError> {
    let mut signature = Signature::new(alloc);
    numbers(alloc, &mut signature)?;
    let hypotheses = hypotheses_of(kind, size);
    match kind {
        "clauses" | "hypotheses" => one_family(alloc, &mut signature, size, hypotheses)?,
        "context" | "instances" => one_family(alloc, &mut signature, 1, hypotheses)?,
        _ => many_families(alloc, &mut signature, size, hypotheses)?,
    }
    Ok(signature)
}

fn one_family(
    alloc: Global,
    signature: &mut Signature,
    size: u64,
    hypotheses: Hypotheses,
) -> Result<(), AllocError> {
    declare_family(alloc, signature, 0)?;
    for number in 0..size {
        declare_clause(alloc, signature, number, FIRST, hypotheses)?;
    }
    Ok(())
}

fn many_families(
    alloc: Global,
    signature: &mut Signature,
    size: u64,
    hypotheses: Hypotheses,
) -> Result<(), AllocError> {
    for number in 0..size {
        declare_family(alloc, signature, number)?;
        declare_clause(alloc, signature, number, family(number), hypotheses)?;
    }
    Ok(())
}

// where the family with this number stands, if each has one clause
fn family(number: u64) -> u64 {
    number.saturating_mul(2).saturating_add(FIRST)
}

/// The families of two numbers.
pub(crate) fn families_of(
    alloc: Global,
    kind: &str,
    size: u64,
) -> Result<Vec<ConstId>, AllocError> {
    let mut families = Vec::new(alloc);
    let count = if kind == "families" { size } else { 1 };
    for number in 0..count {
        families.push(ConstId(family(number)))?;
    }
    Ok(families)
}
