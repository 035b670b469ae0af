//! The spots of what is written: where metavariables are made, in the order in which elaboration makes them.
ghost use Rattle.std.specs.Prelude.{◌≡◌, ◌<◌, ◌+◌, ◌++◌, ◌∷◌, [], reverse, Some, OnOk};
ghost use Rattle.lf_elaboration.specs.Sites.{body_spots as spots_of_body, domain_spots as spots_of_domain, term_spots as spots_of_term, type_spots as spots_of_type};
ghost use Rattle.tw_written.specs.Parts.{domain_size, size, spots_in, spots_left, term_size, type_size, work};
ghost use Rattle.tw_written.specs.SiteView.{spots_of};
ghost use Rattle.tw_written.specs.View.{place_of, written_body_of, written_domain_of, written_of, written_type_of};

use crate::counts::{implicit_arguments, indices};
use crate::part::{Part, wait_for};
use crate::site::Spot;
use crate::{Written, WrittenBody, WrittenDomain, WrittenKind, WrittenType};
use std::alloc::{AllocError, Global};
use tw_lexer::Place;
use tw_signature::Signature;
use tw_terms::numbers::one_more;

/// Adds those of a declaration.
pub fn body_spots(
    alloc: Global,
    signature: &Signature,
    spots: &mut Vec<Spot>,
    written: &WrittenBody,
) -> Result<(), AllocError>
    ensures { OnOk result (spots_of spots.new.items ≡ spots_of spots.old.items ++ spots_of_body signature.now (written_body_of written.now)) }
{
    match written {
        WrittenBody::Family(kind) => part_spots(alloc, signature, spots, Part::Kind(kind)),
        WrittenBody::Constant(ty) => part_spots(alloc, signature, spots, Part::Type(ty)),
        WrittenBody::Definition(term, _) => {
            part_spots(alloc, signature, spots, Part::Term(term, false))
        }
        WrittenBody::DefinitionOf(term, ty, _) => {
            part_spots(alloc, signature, spots, Part::Type(ty))?;
            part_spots(alloc, signature, spots, Part::Term(term, true))
        }
    }
}

/// Adds those of a part.
#[inline(never)]
fn part_spots<'a>(
    alloc: Global,
    signature: &Signature,
    spots: &mut Vec<Spot>,
    part: Part<'a>,
) -> Result<(), AllocError>
    ensures { OnOk result (spots_of spots.new.items ≡ spots_of spots.old.items ++ spots_in signature.now part.entry) }
{
    let mut waiting = Vec::new(alloc);
    waiting.push(part)?;
    while let Some(next) = waiting.pop() {
        first_spots(alloc, signature, spots, &mut waiting, next)?;
    }
    Ok(())
}

/// Adds those of a part itself. Its own parts wait.
#[inline(never)]
fn first_spots<'a>(
    alloc: Global,
    signature: &Signature,
    spots: &mut Vec<Spot>,
    waiting: &mut Vec<Part<'a>>,
    part: Part<'a>,
) -> Result<(), AllocError>
    ensures spots { OnOk result (spots_of spots.new.items ++ spots_left signature.now (reverse waiting.new.items) ≡ spots_of spots.old.items ++ (spots_in signature.now part.entry ++ spots_left signature.now (reverse waiting.old.items))) }
    ensures work { OnOk result (work waiting.new.items < size part.entry + work waiting.old.items) }
{
    match part {
        Part::Term(term, expected) => {
            term_spots(alloc, signature, spots, waiting, expected, term)
        }
        Part::Domain(domain) => domain_spots(alloc, signature, spots, waiting, domain),
        Part::Type(ty) => type_spots(alloc, signature, spots, waiting, ty),
        Part::Kind(kind) => match kind {
            WrittenKind::Star => Ok(()),
            WrittenKind::Arrow(domain, range) => {
                wait_for(waiting, Part::Type(domain), Part::Kind(range))
            }
            WrittenKind::Quantified(domain, range) => {
                wait_for(waiting, Part::Domain(domain), Part::Kind(range))
            }
        },
    }
}

/// One more.
fn add(spots: &mut Vec<Spot>, at: Place, count: u64) -> Result<(), AllocError>
    ensures { OnOk result (spots_of spots.new.items ≡ spots_of spots.old.items ++ (record { at = Some (place_of at); count = count } ∷ [])) }
{
    Ok(spots.push(Spot {
        at: Some(at),
        count,
    })?)
}

/// `expected` tells whether the type is given from outside.
#[inline(never)]
fn term_spots<'a>(
    alloc: Global,
    signature: &Signature,
    spots: &mut Vec<Spot>,
    waiting: &mut Vec<Part<'a>>,
    expected: bool,
    written: &'a Written,
) -> Result<(), AllocError>
    ensures spots { OnOk result (spots_of spots.new.items ++ spots_left signature.now (reverse waiting.new.items) ≡ spots_of spots.old.items ++ (spots_of_term signature.now expected (written_of written.now) ++ spots_left signature.now (reverse waiting.old.items))) }
    ensures work { OnOk result (work waiting.new.items < term_size (written_of written.now) + work waiting.old.items) }
{
    match written {
        Written::Free(_, _) | Written::Bound(_) => Ok(()),
        Written::Declared(id, at) => add(spots, *at, implicit_arguments(signature, *id)),
        Written::Hole(_, at) if expected => add(spots, *at, 1),
        Written::Hole(skeleton, at) => {
            let count = indices(alloc, signature, skeleton)?;
            add(spots, *at, one_more(count)?)
        }
        Written::Function(domain, body) => {
            wait_for(waiting, Part::Domain(domain), Part::Term(body, expected))
        }
        Written::Applied(function, arg) => {
            wait_for(waiting, Part::Term(function, false), Part::Term(arg, true))
        }
        Written::Ascribed(term, ty) => wait_for(waiting, Part::Type(ty), Part::Term(term, true)),
    }
}

#[inline(never)]
fn domain_spots<'a>(
    alloc: Global,
    signature: &Signature,
    spots: &mut Vec<Spot>,
    waiting: &mut Vec<Part<'a>>,
    written: &'a WrittenDomain,
) -> Result<(), AllocError>
    ensures spots { OnOk result (spots_of spots.new.items ++ spots_left signature.now (reverse waiting.new.items) ≡ spots_of spots.old.items ++ (spots_of_domain signature.now (written_domain_of written.now) ++ spots_left signature.now (reverse waiting.old.items))) }
    ensures work { OnOk result (work waiting.new.items < domain_size (written_domain_of written.now) + work waiting.old.items) }
{
    match written {
        WrittenDomain::OfSkeleton(skeleton, at) => {
            add(spots, *at, indices(alloc, signature, skeleton)?)
        }
        WrittenDomain::OfType(ty) => Ok(waiting.push(Part::Type(ty))?),
    }
}

#[inline(never)]
fn type_spots<'a>(
    alloc: Global,
    signature: &Signature,
    spots: &mut Vec<Spot>,
    waiting: &mut Vec<Part<'a>>,
    written: &'a WrittenType,
) -> Result<(), AllocError>
    ensures spots { OnOk result (spots_of spots.new.items ++ spots_left signature.now (reverse waiting.new.items) ≡ spots_of spots.old.items ++ (spots_of_type signature.now (written_type_of written.now) ++ spots_left signature.now (reverse waiting.old.items))) }
    ensures work { OnOk result (work waiting.new.items < type_size (written_type_of written.now) + work waiting.old.items) }
{
    match written {
        WrittenType::Hole(skeleton, at) => add(spots, *at, indices(alloc, signature, skeleton)?),
        WrittenType::Family(id, at) => add(spots, *at, implicit_arguments(signature, *id)),
        WrittenType::Arrow(domain, range) => {
            wait_for(waiting, Part::Type(domain), Part::Type(range))
        }
        WrittenType::Quantified(domain, range) => {
            wait_for(waiting, Part::Domain(domain), Part::Type(range))
        }
        WrittenType::Applied(family, arg) => {
            wait_for(waiting, Part::Type(family), Part::Term(arg, true))
        }
        WrittenType::Ascribed(ty, kind) => wait_for(waiting, Part::Kind(kind), Part::Type(ty)),
    }
}
