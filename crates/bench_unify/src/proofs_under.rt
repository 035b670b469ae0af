//! A proof of many steps under hypotheses, whose types have large indices: the equations that leaving out the indices gives.
use crate::problems::{Problem, ZERO, alone, number, open_number, tower};
use std::alloc::{AllocError, Global};
use tests_ready::{add_constant, add_family};
use tw_fixity::Name;
use tw_metas::Equation;
use tw_signature::Signature;
use tw_terms::{
    ConstId, Head, Kind, MetaId, Open, OpenContext, OpenHead, OpenSpine, OpenTy, Spine, Term, Ty,
};

/// The family of the proofs of a number, and a step from a proof to another one of the same number.
const PROOF: ConstId = ConstId(3);

const STEP: OpenHead = OpenHead::Const(ConstId(4));

/// So many hypotheses are in scope.
const HYPOTHESES: u64 = 20;

/// So many times s stands in an index.
const INDEX: u64 = 199;

// pf x, for the variable x
fn proof_of(alloc: Global, variable: u64) -> Result<Ty, AllocError> {
    let mut args = Vec::new(alloc);
    let head = Head::Var(variable);
    let spine = Spine {
        args: Vec::new(alloc),
    };
    args.push(Term::Root(head, spine))?;
    Ok(Ty::Atom(PROOF, Spine { args }))
}

/// Adds `pf : n -> type` and `step : {x:n} pf x -> pf x`. Where one is refused, memory counts as used up.
pub(crate) fn add_proofs(alloc: Global, signature: &mut Signature) -> Result<(), AllocError> {
    let kind = Kind::Pi(
        Box::new(alloc, number(alloc))?,
        Box::new(alloc, Kind::Star)?,
    );
    let name = Name::from_text(alloc, "pf")?;
    if !add_family(alloc, signature, name, kind, 0)? {
        return Err(AllocError);
    }
    let given = Box::new(alloc, proof_of(alloc, 0)?)?;
    let step = Ty::Pi(given, Box::new(alloc, proof_of(alloc, 1)?)?);
    let step = Ty::Pi(Box::new(alloc, number(alloc))?, Box::new(alloc, step)?);
    let name = Name::from_text(alloc, "step")?;
    if add_constant(alloc, signature, name, step, 0)? {
        Ok(())
    } else {
        Err(AllocError)
    }
}

fn index(alloc: Global) -> Result<Open, AllocError> {
    tower(alloc, INDEX, alone(alloc, ZERO))
}

// the type of each hypothesis
fn hypothesis(alloc: Global) -> Result<OpenTy, AllocError> {
    let mut args = Vec::new(alloc);
    args.push(index(alloc)?)?;
    Ok(OpenTy::Atom(PROOF, OpenSpine { args }))
}

// a type over all hypotheses
fn over_hypotheses(alloc: Global, ty: OpenTy) -> Result<OpenTy, AllocError> {
    let mut ty = ty;
    for _ in 0..HYPOTHESES {
        ty = OpenTy::Pi(Box::new(alloc, hypothesis(alloc)?)?, Box::new(alloc, ty)?);
    }
    Ok(ty)
}

// a metavariable on all hypotheses
fn raised(alloc: Global, meta: u64) -> Result<Open, AllocError> {
    let mut args = Vec::new(alloc);
    for variable in (0..HYPOTHESES).rev() {
        args.push(alone(alloc, OpenHead::Var(variable)))?;
    }
    Ok(Open::Root(OpenHead::Meta(MetaId(meta)), OpenSpine { args }))
}

// a step from a proof
fn step(alloc: Global, given: Open) -> Result<Open, AllocError> {
    let mut args = Vec::new(alloc);
    args.push(index(alloc)?)?;
    args.push(given)?;
    Ok(Open::Root(STEP, OpenSpine { args }))
}

/// For each of `count` steps an index that is found, and a proof that is: two equations under all hypotheses.
pub(crate) fn proof(alloc: Global, count: u64) -> Result<Problem, AllocError> {
    let mut context = OpenContext::new(alloc);
    for _ in 0..HYPOTHESES {
        context.push(hypothesis(alloc)?)?;
    }
    let mut types = Vec::new(alloc);
    let mut equations = Vec::new(alloc);
    for place in 0..count {
        let first = place.saturating_mul(2);
        types.push(over_hypotheses(alloc, open_number(alloc))?)?;
        types.push(over_hypotheses(alloc, hypothesis(alloc)?)?)?;
        equations.push(Equation {
            context: context.copy(alloc)?,
            left: raised(alloc, first)?,
            right: index(alloc)?,
            ty: open_number(alloc),
        })?;
        equations.push(Equation {
            context: context.copy(alloc)?,
            left: step(alloc, raised(alloc, first.saturating_add(1))?)?,
            right: step(alloc, alone(alloc, OpenHead::Var(0)))?,
            ty: hypothesis(alloc)?,
        })?;
    }
    Ok(Problem { types, equations })
}
