//! The equations between the arguments of two atoms of a family that is declared. Its kind goes along the arguments in an environment; where no domain of it has arguments in it, nothing is
//! put into the kind.
ghost use Rattle.std.specs.Prelude.{◌≡◌, IfOk, IsErrOf, map};
ghost use Rattle.std.specs.Bool.{OnTrue};
ghost use Rattle.lf.specs.Depth.{depth_limit};
ghost use Rattle.lf_unification.specs.Offering.{spine_equations};
ghost use Rattle.tw_metas.specs.View.{equation_of};
ghost use Rattle.tw_terms.specs.OpenView.{open_spine_of, open_term_of, open_type_of};
ghost use Rattle.tw_terms.specs.View.{kind_of, type_of};
ghost use Rattle.tw_open.specs.Deep.{HasDeepType};
ghost use Rattle.tw_open.specs.Indices.{IndicesFit};
ghost use Rattle.tw_open.specs.Plain.{IsPlain, IsPlainType};
ghost use Rattle.tw_open.specs.Telescope.{as_type, equations_of};

use crate::raising::pi;
use std::alloc::{AllocError, Global};
use tw_hered::HeredFault;
use tw_metas::Equation;
use tw_putting::{domains, open_type, shift_type};
use tw_terms::{Kind, Open, OpenContext, OpenSpine, OpenTy, Ty};

/// The equations of the arguments that the kind takes, the first one's side on the left. The second one's arguments move into them.
/// Answers `TooDeep` only where the type of one of these equations is deeper than 4,096.
pub fn kind_equations(
    alloc: Global,
    locals: &OpenContext,
    kind: &Kind,
    left: &OpenSpine,
    right: OpenSpine,
) -> Result<Vec<Equation>, HeredFault>
    requires { IndicesFit locals.now (kind_of kind.now) (open_spine_of left.now) }
    ensures ok { IfOk result (λ v. map equation_of v.items ≡ spine_equations locals.now (kind_of kind.now) (open_spine_of left.now) (open_spine_of right)) }
    ensures too_deep { IsErrOf result HeredFault.TooDeep → HasDeepType depth_limit (spine_equations locals.now (kind_of kind.now) (open_spine_of left.now) (open_spine_of right)) }
{
    if is_plain(kind) {
        return Ok(plain_equations(alloc, locals, kind, left, right)?);
    }
    match kind {
        Kind::Pi(domain, range) => {
            let ty = kind_as_type(alloc, range, domain)?;
            let count = left.args.len().min(right.args.len());
            let types = domains(alloc, &ty, &left.args[..count])?;
            Ok(typed_equations(alloc, locals, types, left, right)?)
        }
        Kind::Star => Ok(Vec::new(alloc)),
    }
}

/// The kind of this domain and range as a type that takes the same arguments. The last domain stands once more at its end, where nothing is read off.
fn kind_as_type(alloc: Global, range: &Kind, domain: &Ty) -> Result<OpenTy, AllocError>
    ensures { IfOk result (λ a. open_type_of a ≡ as_type (type_of domain.now) (kind_of range.now)) }
{
    let first = open_type(alloc, domain)?;
    let rest = match range {
        Kind::Pi(domain, range) => kind_as_type(alloc, range, domain)?,
        Kind::Star => shift_type(alloc, &first, 1, 0)?,
    };
    pi(alloc, first, rest)
}

/// The equations of arguments of these types, as many as there are of each.
fn typed_equations(
    alloc: Global,
    locals: &OpenContext,
    mut types: Vec<OpenTy>,
    left: &OpenSpine,
    right: OpenSpine,
) -> Result<Vec<Equation>, AllocError>
    ensures { IfOk result (λ v. map equation_of v.items ≡ equations_of locals.now (map open_type_of types.items) (open_spine_of left.now) (open_spine_of right)) }
{
    let mut found = Vec::with_capacity(alloc, types.len())?;
    types.reverse();
    let mut others = right.args;
    others.reverse();
    for arg in &left.args {
        match (types.pop(), others.pop()) {
            (Some(ty), Some(other)) => {
                let equation = equation_between(alloc, locals, ty, arg, other)?;
                found.push(equation)?;
            }
            _ => return Ok(found),
        }
    }
    Ok(found)
}

/// The same where no domain of the kind has arguments in it.
fn plain_equations(
    alloc: Global,
    locals: &OpenContext,
    kind: &Kind,
    left: &OpenSpine,
    right: OpenSpine,
) -> Result<Vec<Equation>, AllocError>
    requires { IsPlain (kind_of kind.now) }
    ensures { IfOk result (λ v. map equation_of v.items ≡ spine_equations locals.now (kind_of kind.now) (open_spine_of left.now) (open_spine_of right)) }
{
    let mut found = Vec::with_capacity(alloc, left.args.len())?;
    let mut others = right.args;
    others.reverse();
    let mut rest = kind;
    for arg in &left.args {
        match rest {
            Kind::Pi(domain, range) => match others.pop() {
                Some(other) => {
                    let equation = equation_at(alloc, locals, domain, arg, other)?;
                    found.push(equation)?;
                    rest = range;
                }
                None => return Ok(found),
            },
            Kind::Star => return Ok(found),
        }
    }
    Ok(found)
}

/// The equation of two terms of a closed type.
fn equation_at(
    alloc: Global,
    locals: &OpenContext,
    ty: &Ty,
    left: &Open,
    right: Open,
) -> Result<Equation, AllocError>
    ensures { IfOk result (λ e. equation_of e ≡ record { local = locals.now; left = open_term_of left.now; right = open_term_of right; of_type = type_of ty.now }) }
{
    let ty = open_type(alloc, ty)?;
    equation_between(alloc, locals, ty, left, right)
}

/// The equation of two terms of the type.
fn equation_between(
    alloc: Global,
    locals: &OpenContext,
    ty: OpenTy,
    left: &Open,
    right: Open,
) -> Result<Equation, AllocError>
    ensures { IfOk result (λ e. equation_of e ≡ record { local = locals.now; left = open_term_of left.now; right = open_term_of right; of_type = open_type_of ty }) }
{
    Ok(Equation {
        context: locals.copy(alloc)?,
        left: left.copy(alloc)?,
        right,
        ty,
    })
}

/// Whether no domain of the kind has arguments in it. It takes no memory.
pub fn is_plain(kind: &Kind) -> bool
    ensures { OnTrue result (IsPlain (kind_of kind.now)) }
{
    match kind {
        Kind::Pi(domain, range) => {
            if is_plain_type(domain) {
                is_plain(range)
            } else {
                false
            }
        }
        Kind::Star => true,
    }
}

/// Whether no atom of the type has arguments in it, so that nothing can be put into it. It takes no memory.
pub fn is_plain_type(ty: &Ty) -> bool
    ensures { OnTrue result (IsPlainType (type_of ty.now)) }
{
    match ty {
        Ty::Pi(domain, range) => {
            if is_plain_type(domain) {
                is_plain_type(range)
            } else {
                false
            }
        }
        Ty::Atom(_, spine) => spine.args.is_empty(),
    }
}
