//! What elaboration makes of a declaration.
use crate::writing::{read_body, read_frees};
use std::alloc::{AllocError, Global};
use tests_forms::{Case, FormFault, Names, show_domain, show_term, show_type};
use tw_elaborate::{Elaborated, HeredFault, OpenBody, OpenKind, elaborate};
use tw_metas::Equation;
use tw_signature::Signature;
use tw_terms::{MetaId, OpenTy, Skeleton};
use tw_written::WrittenBody;

/// The body, the free variables, the metavariables with their types, and the equations; where the word `shown` says `body`, that alone, and where it says
/// `quantifiers`, how many lead the type of a constant.
pub(crate) fn elaborated(
    alloc: Global,
    signature: &Signature,
    names: &mut Names,
    case: &Case,
) -> Result<String, FormFault> {
    case.has_only(&[
        "free", "kind", "type", "term", "on", "of", "abbrev", "shown",
    ])?;
    let skeletons = read_frees(alloc, names, case)?;
    elaborated_over(alloc, signature, names, case, &skeletons)
}

// The same over the skeletons of the free variables.
fn elaborated_over(
    alloc: Global,
    signature: &Signature,
    names: &mut Names,
    case: &Case,
    skeletons: &[Skeleton],
) -> Result<String, FormFault> {
    let body = read_body(alloc, names, case)?;
    names.forget_all_but_constants(alloc);
    shown(alloc, signature, names, case, skeletons, &body)
}

fn shown(
    alloc: Global,
    signature: &Signature,
    names: &mut Names,
    case: &Case,
    skeletons: &[Skeleton],
    body: &WrittenBody,
) -> Result<String, FormFault> {
    let mut line = String::new(alloc);
    match elaborate_into(alloc, signature, names, case, skeletons, body, &mut line) {
        Ok(()) => Ok(line),
        Err(fault) => Err(fault),
    }
}

fn elaborate_into(
    alloc: Global,
    signature: &Signature,
    names: &mut Names,
    case: &Case,
    skeletons: &[Skeleton],
    body: &WrittenBody,
    line: &mut String,
) -> Result<(), FormFault> {
    signature.is_canonical();
    match elaborate(alloc, signature, skeletons, body) {
        Ok(elaborated) => show_elaborated(alloc, line, names, case, &elaborated),
        Err(HeredFault::TooDeep) => Ok(line.push_str("too deep")?),
        Err(HeredFault::NoMemory) => Err(FormFault::NoMemory),
    }
}

fn show_elaborated(
    alloc: Global,
    line: &mut String,
    names: &mut Names,
    case: &Case,
    elaborated: &Elaborated,
) -> Result<(), FormFault> {
    match case.text("shown")? {
        "" => {
            show_body(alloc, line, names, &elaborated.body)?;
            Ok(show_made(alloc, line, names, elaborated)?)
        }
        "body" => Ok(show_body(alloc, line, names, &elaborated.body)?),
        "quantifiers" => show_count(line, &elaborated.body),
        _ => Err(FormFault::NoMeaning),
    }
}

fn show_body(
    alloc: Global,
    line: &mut String,
    names: &mut Names,
    body: &OpenBody,
) -> Result<(), AllocError> {
    match body {
        OpenBody::Family(kind) => show_kind(alloc, line, names, kind),
        OpenBody::Constant(ty) => show_type(alloc, line, names, ty),
        OpenBody::Definition(term, ty, abbrev) => {
            line.push_str(if *abbrev { "abbrev " } else { "" })?;
            show_term(alloc, line, names, term)?;
            line.push_str(" : ")?;
            show_type(alloc, line, names, ty)
        }
    }
}

fn show_kind(
    alloc: Global,
    line: &mut String,
    names: &mut Names,
    kind: &OpenKind,
) -> Result<(), AllocError> {
    match kind {
        OpenKind::Pi(domain, range) => {
            show_domain(alloc, line, names, domain)?;
            show_kind(alloc, line, names, range)?;
            names.pop_made();
            line.push(')')
        }
        OpenKind::Star => line.push_str("type"),
    }
}

fn show_made(
    alloc: Global,
    line: &mut String,
    names: &mut Names,
    elaborated: &Elaborated,
) -> Result<(), AllocError> {
    for meta in &elaborated.frees {
        write!(line, "; free ?{}", meta.0)?;
    }
    for number in 0..u64::MAX {
        match elaborated.state.store.about(MetaId(number)) {
            Some((_, ty)) => show_meta(alloc, line, names, number, ty)?,
            None => break,
        }
    }
    for equation in &elaborated.state.equations {
        show_equation(alloc, line, names, equation)?;
    }
    Ok(())
}

fn show_meta(
    alloc: Global,
    line: &mut String,
    names: &mut Names,
    number: u64,
    ty: &OpenTy,
) -> Result<(), AllocError> {
    write!(line, "; ?{} : ", number)?;
    show_type(alloc, line, names, ty)
}

fn show_equation(
    alloc: Global,
    line: &mut String,
    names: &mut Names,
    equation: &Equation,
) -> Result<(), AllocError> {
    for _ in 0..equation.context.len() {
        names.push_made(alloc)?;
    }
    line.push_str("; ")?;
    show_term(alloc, line, names, &equation.left)?;
    line.push_str(" = ")?;
    show_term(alloc, line, names, &equation.right)?;
    line.push_str(" : ")?;
    show_type(alloc, line, names, &equation.ty)?;
    names.leave_scope(0);
    Ok(())
}

fn show_count(line: &mut String, body: &OpenBody) -> Result<(), FormFault> {
    match body {
        OpenBody::Constant(ty) => Ok(write!(line, "{} quantifiers", quantifiers(ty))?),
        OpenBody::Family(_) | OpenBody::Definition(_, _, _) => Err(FormFault::NoMeaning),
    }
}

// how many quantifiers stand before an atom
fn quantifiers(ty: &OpenTy) -> u32 {
    let mut rest = ty;
    for count in 0..u32::MAX {
        match rest {
            OpenTy::Pi(_, range) => rest = range,
            OpenTy::Atom(_, _) => return count,
        }
    }
    u32::MAX
}
