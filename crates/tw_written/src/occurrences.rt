//! The free variables of what is written, each where it stands.
ghost use Rattle.std.specs.Prelude.{◌≡◌, ◌<◌, ◌+◌, ◌++◌, reverse, OnOk};
ghost use Rattle.lf_elaboration.specs.Sites.{body_frees as frees_of_body, domain_frees as frees_of_domain, kind_frees as frees_of_kind, term_frees as frees_of_term, type_frees as frees_of_type};
ghost use Rattle.tw_written.specs.Parts.{domain_size, frees_in, frees_left, kind_size, size, term_size, type_size, work};
ghost use Rattle.tw_written.specs.SiteView.{sites_of};
ghost use Rattle.tw_written.specs.View.{written_body_of, written_domain_of, written_kind_of, written_of, written_type_of};

use crate::part::{Part, wait_for};
use crate::site::Site;
use crate::{Written, WrittenBody, WrittenDomain, WrittenKind, WrittenType};
use std::alloc::{AllocError, Global};

/// Adds those of a declaration.
pub fn body_frees(
    alloc: Global,
    found: &mut Vec<Site>,
    written: &WrittenBody,
) -> Result<(), AllocError>
    ensures { OnOk result (sites_of found.new.items ≡ sites_of found.old.items ++ frees_of_body (written_body_of written.now)) }
{
    match written {
        WrittenBody::Family(kind) => part_frees(alloc, found, Part::Kind(kind)),
        WrittenBody::Constant(ty) => part_frees(alloc, found, Part::Type(ty)),
        WrittenBody::Definition(term, _) => part_frees(alloc, found, Part::Term(term, false)),
        WrittenBody::DefinitionOf(term, ty, _) => {
            part_frees(alloc, found, Part::Term(term, true))?;
            part_frees(alloc, found, Part::Type(ty))
        }
    }
}

/// Adds those of a part.
#[inline(never)]
fn part_frees<'a>(alloc: Global, found: &mut Vec<Site>, part: Part<'a>) -> Result<(), AllocError>
    ensures { OnOk result (sites_of found.new.items ≡ sites_of found.old.items ++ frees_in part.entry) }
{
    let mut waiting = Vec::new(alloc);
    waiting.push(part)?;
    while let Some(next) = waiting.pop() {
        first_frees(found, &mut waiting, next)?;
    }
    Ok(())
}

/// Adds a part itself, where it is a free variable. Its own parts wait.
#[inline(never)]
fn first_frees<'a>(
    found: &mut Vec<Site>,
    waiting: &mut Vec<Part<'a>>,
    part: Part<'a>,
) -> Result<(), AllocError>
    ensures frees { OnOk result (sites_of found.new.items ++ frees_left (reverse waiting.new.items) ≡ sites_of found.old.items ++ (frees_in part.entry ++ frees_left (reverse waiting.old.items))) }
    ensures work { OnOk result (work waiting.new.items < size part.entry + work waiting.old.items) }
{
    match part {
        Part::Term(term, _) => term_frees(found, waiting, term),
        Part::Domain(domain) => domain_frees(waiting, domain),
        Part::Type(ty) => type_frees(waiting, ty),
        Part::Kind(kind) => kind_frees(waiting, kind),
    }
}

#[inline(never)]
fn term_frees<'a>(
    found: &mut Vec<Site>,
    waiting: &mut Vec<Part<'a>>,
    written: &'a Written,
) -> Result<(), AllocError>
    ensures frees { OnOk result (sites_of found.new.items ++ frees_left (reverse waiting.new.items) ≡ sites_of found.old.items ++ (frees_of_term (written_of written.now) ++ frees_left (reverse waiting.old.items))) }
    ensures work { OnOk result (work waiting.new.items < term_size (written_of written.now) + work waiting.old.items) }
{
    match written {
        Written::Free(variable, at) => Ok(found.push(Site::new(*at, *variable))?),
        Written::Bound(_) | Written::Declared(_, _) | Written::Hole(_, _) => Ok(()),
        Written::Function(domain, body) => {
            wait_for(waiting, Part::Domain(domain), Part::Term(body, false))
        }
        Written::Applied(function, arg) => {
            wait_for(waiting, Part::Term(function, false), Part::Term(arg, true))
        }
        Written::Ascribed(term, ty) => wait_for(waiting, Part::Term(term, true), Part::Type(ty)),
    }
}

#[inline(never)]
fn domain_frees<'a>(
    waiting: &mut Vec<Part<'a>>,
    written: &'a WrittenDomain,
) -> Result<(), AllocError>
    ensures frees { OnOk result (frees_left (reverse waiting.new.items) ≡ frees_of_domain (written_domain_of written.now) ++ frees_left (reverse waiting.old.items)) }
    ensures work { OnOk result (work waiting.new.items < domain_size (written_domain_of written.now) + work waiting.old.items) }
{
    match written {
        WrittenDomain::OfSkeleton(_, _) => Ok(()),
        WrittenDomain::OfType(ty) => Ok(waiting.push(Part::Type(ty))?),
    }
}

#[inline(never)]
fn type_frees<'a>(waiting: &mut Vec<Part<'a>>, written: &'a WrittenType) -> Result<(), AllocError>
    ensures frees { OnOk result (frees_left (reverse waiting.new.items) ≡ frees_of_type (written_type_of written.now) ++ frees_left (reverse waiting.old.items)) }
    ensures work { OnOk result (work waiting.new.items < type_size (written_type_of written.now) + work waiting.old.items) }
{
    match written {
        WrittenType::Hole(_, _) | WrittenType::Family(_, _) => Ok(()),
        WrittenType::Arrow(domain, range) => {
            wait_for(waiting, Part::Type(domain), Part::Type(range))
        }
        WrittenType::Quantified(domain, range) => {
            wait_for(waiting, Part::Domain(domain), Part::Type(range))
        }
        WrittenType::Applied(family, arg) => {
            wait_for(waiting, Part::Type(family), Part::Term(arg, true))
        }
        WrittenType::Ascribed(ty, kind) => wait_for(waiting, Part::Type(ty), Part::Kind(kind)),
    }
}

#[inline(never)]
fn kind_frees<'a>(waiting: &mut Vec<Part<'a>>, written: &'a WrittenKind) -> Result<(), AllocError>
    ensures frees { OnOk result (frees_left (reverse waiting.new.items) ≡ frees_of_kind (written_kind_of written.now) ++ frees_left (reverse waiting.old.items)) }
    ensures work { OnOk result (work waiting.new.items < kind_size (written_kind_of written.now) + work waiting.old.items) }
{
    match written {
        WrittenKind::Star => Ok(()),
        WrittenKind::Arrow(domain, range) => {
            wait_for(waiting, Part::Type(domain), Part::Kind(range))
        }
        WrittenKind::Quantified(domain, range) => {
            wait_for(waiting, Part::Domain(domain), Part::Kind(range))
        }
    }
}
