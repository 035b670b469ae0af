//! The skeletons of what isn't written.
use crate::line::Line;
use crate::reading::{read_decl, read_query};
use crate::world::World;
use std::alloc::{AllocError, Global};
use tests_forms::FormFault;
use tw_approx::{Approx, ApproxFault, approximate, approximate_query};
use tw_fixity::Name;
use tw_lexer::Place;
use tw_signature::Signature;
use tw_terms::{ConstId, Skeleton};

/// Puts the name of the entry behind the line.
pub(crate) fn put_entry(line: &mut Line, signature: &Signature, id: ConstId) {
    match signature.entry(id) {
        Some(entry) => line.put_name(&entry.name),
        None => line.put("?"),
    }
}

/// Puts the skeleton behind the line, with `>` for an arrow.
pub(crate) fn put_skeleton(line: &mut Line, signature: &Signature, skeleton: &Skeleton) {
    match skeleton {
        Skeleton::Base(family) => put_entry(line, signature, *family),
        Skeleton::Arrow(domain, range) => {
            line.put("(");
            put_skeleton(line, signature, domain);
            line.put(">");
            put_skeleton(line, signature, range);
            line.put(")");
        }
    }
}

fn put_found(line: &mut Line, signature: &Signature, found: &Approx) {
    line.put("found");
    for row in &found.free {
        line.put(" ");
        line.put_name(&row.name);
        line.put(":");
        put_skeleton(line, signature, &row.skeleton);
    }
    for skeleton in &found.omitted {
        line.put(" _:");
        put_skeleton(line, signature, skeleton);
    }
}

fn put_fault(line: &mut Line, fault: &ApproxFault) {
    match fault {
        ApproxFault::Unknown(name, at) => put_unknown(line, name, *at),
        ApproxFault::TypeLevel(None) => line.put("type level"),
        ApproxFault::TypeLevel(Some(at)) => {
            line.put("type level");
            line.put_place(*at);
        }
        ApproxFault::Clash => line.put("clash"),
        ApproxFault::Loose => line.put("loose"),
        ApproxFault::TooDeep => line.put("too deep"),
        ApproxFault::NoMemory => line.put("no memory"),
    }
}

/// Puts the name that is unknown, and where it stands, behind the line.
pub(crate) fn put_unknown(line: &mut Line, name: &Name, at: Place) {
    line.put("unknown ");
    line.put_name(name);
    line.put_place(at);
}

fn answer_line(
    alloc: Global,
    signature: &Signature,
    answer: &Result<Approx, ApproxFault>,
) -> Result<String, AllocError> {
    let mut line = Line::new(alloc);
    match answer {
        Ok(found) => put_found(&mut line, signature, found),
        Err(fault) => put_fault(&mut line, fault),
    }
    line.whole()
}

/// The skeletons of the free variables and of what isn't written in a declaration.
pub(crate) fn of_decl(alloc: Global, world: &World, text: &str) -> Result<String, FormFault> {
    let decl = read_decl(alloc, &world.fixities, text)?;
    let answer = approximate(alloc, &world.signature, &decl);
    Ok(answer_line(alloc, &world.signature, &answer)?)
}

/// The same of a query.
pub(crate) fn of_query(alloc: Global, world: &World, text: &str) -> Result<String, FormFault> {
    let query = read_query(alloc, &world.fixities, text)?;
    let answer = approximate_query(alloc, &world.signature, &query);
    Ok(answer_line(alloc, &world.signature, &answer)?)
}
