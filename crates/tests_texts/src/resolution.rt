//! What names are resolved to, behind the skeleton pass.
use crate::line::Line;
use crate::reading::read_decl;
use crate::texts::numbered;
use crate::world::World;
use crate::written::{put_body, put_kind, put_term, put_type};
use std::alloc::{AllocError, Global};
use tests_forms::FormFault;
use tw_approx::{Approx, ApproxFault, approximate};
use tw_names::ends_in_type;
use tw_parse::{ExtDecl, ExtTerm};
use tw_resolve::{Resolving, resolve, resolve_goal, resolve_kind, resolve_term, resolve_type};
use tw_signature::Signature;
use tw_terms::{ConstId, Skeleton};
use tw_written::WrittenBody;

// what the skeleton pass gives; none where it finds no skeletons
fn found(
    alloc: Global,
    signature: &Signature,
    decl: &ExtDecl,
) -> Result<Option<Approx>, AllocError> {
    match approximate(alloc, signature, decl) {
        Ok(found) => Ok(Some(found)),
        Err(ApproxFault::NoMemory) => Err(AllocError),
        Err(_) => Ok(None),
    }
}

// so many skeletons behind the others
fn add_skeletons(omitted: &mut Vec<Skeleton>, count: u64) -> Result<(), AllocError> {
    for _ in 0..count {
        omitted.push(Skeleton::Base(ConstId(0)))?;
    }
    Ok(())
}

fn body_line(
    alloc: Global,
    signature: &Signature,
    body: &Option<WrittenBody>,
) -> Result<String, AllocError> {
    let mut line = Line::new(alloc);
    match body {
        Some(body) => put_body(&mut line, signature, body),
        None => line.put("none"),
    }
    line.whole()
}

/// What a declaration is resolved to, where so many skeletons more are given than it leaves out.
pub(crate) fn declaration(alloc: Global, world: &World, text: &str) -> Result<String, FormFault> {
    let (more, text) = numbered(text)?;
    let decl = read_decl(alloc, &world.fixities, text)?;
    match found(alloc, &world.signature, &decl)? {
        Some(found) => Ok(resolved(alloc, &world.signature, &decl, found, more)?),
        None => Ok(String::from_str(alloc, "no skeletons")?),
    }
}

fn resolved(
    alloc: Global,
    signature: &Signature,
    decl: &ExtDecl,
    found: Approx,
    more: u64,
) -> Result<String, AllocError> {
    let Approx { free, mut omitted } = found;
    add_skeletons(&mut omitted, more)?;
    let body = resolve(alloc, signature, decl, &free, omitted)?;
    body_line(alloc, signature, &body)
}

/// The same of what stands behind a declaration's colon, as a goal.
pub(crate) fn goal(alloc: Global, world: &World, text: &str) -> Result<String, FormFault> {
    let (more, text) = numbered(text)?;
    let decl = read_decl(alloc, &world.fixities, text)?;
    match &decl {
        ExtDecl::Declare(_, _, goal) => goal_line(alloc, world, &decl, goal, more),
        _ => Err(FormFault::NoMeaning),
    }
}

fn goal_line(
    alloc: Global,
    world: &World,
    decl: &ExtDecl,
    goal: &ExtTerm,
    more: u64,
) -> Result<String, FormFault> {
    match found(alloc, &world.signature, decl)? {
        Some(found) => Ok(resolved_goal(alloc, &world.signature, goal, found, more)?),
        None => Ok(String::from_str(alloc, "no skeletons")?),
    }
}

fn resolved_goal(
    alloc: Global,
    signature: &Signature,
    goal: &ExtTerm,
    found: Approx,
    more: u64,
) -> Result<String, AllocError> {
    let Approx { free, mut omitted } = found;
    add_skeletons(&mut omitted, more)?;
    let body = resolve_goal(alloc, signature, goal, &free, omitted)?;
    body_line(alloc, signature, &body)
}

fn put_text(
    alloc: Global,
    line: &mut Line,
    signature: &Signature,
    resolving: &mut Resolving,
    text: &ExtTerm,
) -> Result<(), AllocError> {
    if ends_in_type(text) {
        put_kind_of(alloc, line, signature, resolving, text)
    } else {
        put_type_of(alloc, line, signature, resolving, text)
    }
}

fn put_kind_of(
    alloc: Global,
    line: &mut Line,
    signature: &Signature,
    resolving: &mut Resolving,
    text: &ExtTerm,
) -> Result<(), AllocError> {
    match resolve_kind(alloc, signature, resolving, text)? {
        Some(kind) => put_kind(line, signature, &kind),
        None => line.put("none"),
    }
    Ok(())
}

fn put_type_of(
    alloc: Global,
    line: &mut Line,
    signature: &Signature,
    resolving: &mut Resolving,
    text: &ExtTerm,
) -> Result<(), AllocError> {
    match resolve_type(alloc, signature, resolving, text)? {
        Some(ty) => put_type(line, signature, &ty),
        None => line.put("none"),
    }
    Ok(())
}

fn put_term_of(
    alloc: Global,
    line: &mut Line,
    signature: &Signature,
    resolving: &mut Resolving,
    text: &ExtTerm,
) -> Result<(), AllocError> {
    match resolve_term(alloc, signature, resolving, text)? {
        Some(term) => put_term(line, signature, &term),
        None => line.put("none"),
    }
    Ok(())
}

fn put_definition(
    alloc: Global,
    line: &mut Line,
    signature: &Signature,
    resolving: &mut Resolving,
    ty: &Option<ExtTerm>,
    term: &ExtTerm,
) -> Result<(), AllocError> {
    if let Some(ty) = ty {
        put_text(alloc, line, signature, resolving, ty)?;
        line.put(" = ");
    }
    put_term_of(alloc, line, signature, resolving, term)
}

fn put_declaration(
    alloc: Global,
    line: &mut Line,
    signature: &Signature,
    resolving: &mut Resolving,
    decl: &ExtDecl,
) -> Result<(), FormFault> {
    match decl {
        ExtDecl::Declare(_, _, text) => Ok(put_text(alloc, line, signature, resolving, text)?),
        ExtDecl::Define(_, ty, term, _) => {
            Ok(put_definition(alloc, line, signature, resolving, ty, term)?)
        }
        ExtDecl::NamePref(_, _, _) | ExtDecl::Fixity(_, _) => Err(FormFault::NoMeaning),
    }
}

/// What the text of a declaration is resolved to, where no free variable is known and so many skeletons are given.
pub(crate) fn alone(alloc: Global, world: &World, text: &str) -> Result<String, FormFault> {
    let (count, text) = numbered(text)?;
    let decl = read_decl(alloc, &world.fixities, text)?;
    let mut resolving = resolving_over(alloc, count)?;
    let mut line = Line::new(alloc);
    put_declaration(alloc, &mut line, &world.signature, &mut resolving, &decl)?;
    Ok(line.whole()?)
}

// so many skeletons, and no free variable
fn resolving_over(alloc: Global, count: u64) -> Result<Resolving, AllocError> {
    let mut omitted = Vec::new(alloc);
    add_skeletons(&mut omitted, count)?;
    Resolving::new(alloc, &[], omitted)
}
