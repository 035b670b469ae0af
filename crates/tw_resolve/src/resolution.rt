//! Written terms, types and kinds with their names resolved.
ghost use Rattle.std.specs.Prelude.{◌≡◌, List, Some, None, IfOk, OnOk, option_map};
ghost use Rattle.lf.specs.Syntax.{Skeleton as PlainSkeleton};
ghost use Rattle.tw_parse.specs.Syntax.{pi, lambda};
ghost use Rattle.tw_parse.specs.View.{term_of, boxed_domain};
ghost use Rattle.tw_approx.specs.Readings.{found};
ghost use Rattle.tw_resolve.specs.Rest.{rest_of};
ghost use Rattle.tw_resolve.specs.Resolving.{resolved_term, resolved_type, resolved_domain, resolved_kind, on_argument, of_kind, is_type_hole, is_higher};
ghost use Rattle.tw_written.specs.View.{place_of, written_of, written_domain_of as domain_of, written_type_of as type_of, written_kind_of as kind_of};

use crate::resolving::Resolving;
use crate::rows::{Next, advance};
use std::alloc::{AllocError, Global};
use tw_approx::ascriptions;
use tw_fixity::Name;
use tw_lexer::Place;
use tw_names::{binder_name, nested};
use tw_parse::ExtTerm;
use tw_signature::Signature;
use tw_written::{Written, WrittenDomain, WrittenKind, WrittenType};

/// A written term; none where it has no resolution.
#[cycle(resolved)]
pub fn resolved_term(
    alloc: Global,
    signature: &Signature,
    resolving: &mut Resolving,
    term: &ExtTerm,
    frames: u32,
) -> Result<Option<Written>, AllocError>
    ensures read { IfOk result (λ o. found (option_map written_of o) (rest_of resolving.new) ≡ resolved_term signature.now resolving.old.free resolving.old.scope (term_of term.now) (rest_of resolving.old)) }
    ensures scope { OnOk result (resolving.new.scope ≡ resolving.old.scope) }
    ensures free { OnOk result (resolving.new.free ≡ resolving.old.free) }
{
    let frames = nested(frames)?;
    match term {
        ExtTerm::Ident(name, at) => Ok(resolving.name(signature, name, *at)),
        ExtTerm::Hole(at) => match resolving.take() {
            Some(skeleton) => Ok(Some(Written::Hole(skeleton, *at))),
            None => Ok(None),
        },
        ExtTerm::Lam(name, at, domain, body) => {
            function(alloc, signature, resolving, name, *at, domain, body, frames)
        }
        ExtTerm::App(_, _) => application(alloc, signature, resolving, term, frames),
        ExtTerm::Ascribe(_, _) => ascribed_term(alloc, signature, resolving, term, frames),
        ExtTerm::Star | ExtTerm::Arrow(_, _) | ExtTerm::Pi(_, _, _, _) => Ok(None),
    }
}

/// A lambda.
#[inline(never)]
#[cycle(resolved)]
fn function(
    alloc: Global,
    signature: &Signature,
    resolving: &mut Resolving,
    name: &Name,
    at: Place,
    domain: &Option<Box<ExtTerm>>,
    body: &ExtTerm,
    frames: u32,
) -> Result<Option<Written>, AllocError>
    ensures read { IfOk result (λ o. found (option_map written_of o) (rest_of resolving.new) ≡ resolved_term signature.now resolving.old.free resolving.old.scope (lambda name.now at (boxed_domain domain.now) (term_of body.now)) (rest_of resolving.old)) }
    ensures scope { OnOk result (resolving.new.scope ≡ resolving.old.scope) }
    ensures free { OnOk result (resolving.new.free ≡ resolving.old.free) }
{
    let frames = nested(frames)?;
    let Some(domain) = resolved_domain(alloc, signature, resolving, at, domain, frames)? else {
        return Ok(None);
    };
    resolving.scope.push(binder_name(alloc, name)?)?;
    let body = resolved_term(alloc, signature, resolving, body, frames)?;
    resolving.scope.pop();
    match body {
        Some(body) => Ok(Some(Written::Function(domain, Box::new(alloc, body)?))),
        None => Ok(None),
    }
}

/// A row of arguments, put to what stands before them. A row that is an argument of another one nests on the heap.
#[inline(never)]
#[cycle(resolved)]
fn application(
    alloc: Global,
    signature: &Signature,
    resolving: &mut Resolving,
    term: &ExtTerm,
    frames: u32,
) -> Result<Option<Written>, AllocError>
    ensures read { IfOk result (λ o. found (option_map written_of o) (rest_of resolving.new) ≡ resolved_term signature.now resolving.old.free resolving.old.scope (term_of term.now) (rest_of resolving.old)) }
    ensures scope { OnOk result (resolving.new.scope ≡ resolving.old.scope) }
    ensures free { OnOk result (resolving.new.free ≡ resolving.old.free) }
{
    let frames = nested(frames)?;
    let mut waiting = Vec::new(alloc);
    let mut next = term;
    for _ in 0..u64::MAX {
        let (head, arguments) = next.spine(alloc)?;
        let Some(function) = resolved_term(alloc, signature, resolving, head, frames)? else {
            return Ok(None);
        };
        match advance(alloc, &mut waiting, function, arguments)? {
            Next::Argument(argument) => next = argument,
            Next::Nothing(whole) => return Ok(Some(whole)),
        }
    }
    // No text in memory has so many arguments; no clause of a text says so.
    Err(AllocError)
}

/// A term at a type, or at several, one behind the other. Their types are resolved from the inside out.
#[inline(never)]
#[cycle(resolved)]
fn ascribed_term(
    alloc: Global,
    signature: &Signature,
    resolving: &mut Resolving,
    term: &ExtTerm,
    frames: u32,
) -> Result<Option<Written>, AllocError>
    ensures read { IfOk result (λ o. found (option_map written_of o) (rest_of resolving.new) ≡ resolved_term signature.now resolving.old.free resolving.old.scope (term_of term.now) (rest_of resolving.old)) }
    ensures scope { OnOk result (resolving.new.scope ≡ resolving.old.scope) }
    ensures free { OnOk result (resolving.new.free ≡ resolving.old.free) }
{
    let frames = nested(frames)?;
    let (inner, mut types) = ascriptions(alloc, term)?;
    let Some(mut found) = resolved_term(alloc, signature, resolving, inner, frames)? else {
        return Ok(None);
    };
    while let Some(ty) = types.pop() {
        let Some(ty) = resolved_type(alloc, signature, resolving, ty, frames)? else {
            return Ok(None);
        };
        let before = Box::new(alloc, found)?;
        found = Written::Ascribed(before, Box::new(alloc, ty)?);
    }
    Ok(Some(found))
}

/// A written type or family.
#[cycle(resolved)]
pub fn resolved_type(
    alloc: Global,
    signature: &Signature,
    resolving: &mut Resolving,
    term: &ExtTerm,
    frames: u32,
) -> Result<Option<WrittenType>, AllocError>
    ensures read { IfOk result (λ o. found (option_map type_of o) (rest_of resolving.new) ≡ resolved_type signature.now resolving.old.free resolving.old.scope (term_of term.now) (rest_of resolving.old)) }
    ensures scope { OnOk result (resolving.new.scope ≡ resolving.old.scope) }
    ensures free { OnOk result (resolving.new.free ≡ resolving.old.free) }
{
    let frames = nested(frames)?;
    match term {
        ExtTerm::Ident(name, at) => Ok(resolving.family(signature, name, *at)),
        ExtTerm::Hole(at) => match resolving.take() {
            Some(skeleton) => Ok(Some(WrittenType::Hole(skeleton, *at))),
            None => Ok(None),
        },
        ExtTerm::Arrow(domain, range) => {
            let Some(domain) = resolved_type(alloc, signature, resolving, domain, frames)? else {
                return Ok(None);
            };
            let Some(range) = resolved_type(alloc, signature, resolving, range, frames)? else {
                return Ok(None);
            };
            let domain = Box::new(alloc, domain)?;
            Ok(Some(WrittenType::Arrow(domain, Box::new(alloc, range)?)))
        }
        ExtTerm::Pi(name, at, domain, range) => {
            quantifier(
                alloc, signature, resolving, name, *at, domain, range, frames,
            )
        }
        ExtTerm::App(_, _) => applied_family(alloc, signature, resolving, term, frames),
        ExtTerm::Ascribe(_, _) => ascribed_type(alloc, signature, resolving, term, frames),
        ExtTerm::Star | ExtTerm::Lam(_, _, _, _) => Ok(None),
    }
}

/// A quantifier in a type.
#[inline(never)]
#[cycle(resolved)]
fn quantifier(
    alloc: Global,
    signature: &Signature,
    resolving: &mut Resolving,
    name: &Name,
    at: Place,
    domain: &Option<Box<ExtTerm>>,
    range: &ExtTerm,
    frames: u32,
) -> Result<Option<WrittenType>, AllocError>
    ensures read { IfOk result (λ o. found (option_map type_of o) (rest_of resolving.new) ≡ resolved_type signature.now resolving.old.free resolving.old.scope (pi name.now at (boxed_domain domain.now) (term_of range.now)) (rest_of resolving.old)) }
    ensures scope { OnOk result (resolving.new.scope ≡ resolving.old.scope) }
    ensures free { OnOk result (resolving.new.free ≡ resolving.old.free) }
{
    let frames = nested(frames)?;
    let Some(domain) = resolved_domain(alloc, signature, resolving, at, domain, frames)? else {
        return Ok(None);
    };
    resolving.scope.push(binder_name(alloc, name)?)?;
    let range = resolved_type(alloc, signature, resolving, range, frames)?;
    resolving.scope.pop();
    match range {
        Some(range) => Ok(Some(WrittenType::Quantified(domain, Box::new(alloc, range)?))),
        None => Ok(None),
    }
}

/// A family on arguments.
#[inline(never)]
#[cycle(resolved)]
fn applied_family(
    alloc: Global,
    signature: &Signature,
    resolving: &mut Resolving,
    term: &ExtTerm,
    frames: u32,
) -> Result<Option<WrittenType>, AllocError>
    ensures read { IfOk result (λ o. found (option_map type_of o) (rest_of resolving.new) ≡ resolved_type signature.now resolving.old.free resolving.old.scope (term_of term.now) (rest_of resolving.old)) }
    ensures scope { OnOk result (resolving.new.scope ≡ resolving.old.scope) }
    ensures free { OnOk result (resolving.new.free ≡ resolving.old.free) }
{
    let frames = nested(frames)?;
    let (head, mut arguments) = term.spine(alloc)?;
    let Some(mut family) = resolved_type(alloc, signature, resolving, head, frames)? else {
        return Ok(None);
    };
    while let Some(argument) = arguments.pop() {
        let Some(argument) = resolved_term(alloc, signature, resolving, argument, frames)? else {
            return Ok(None);
        };
        match on_argument(alloc, family, argument)? {
            Some(result) => family = result,
            None => return Ok(None),
        }
    }
    Ok(Some(family))
}

/// A family or a type with its kind, or with several, one behind the other. They are resolved from the inside out.
#[inline(never)]
#[cycle(resolved)]
fn ascribed_type(
    alloc: Global,
    signature: &Signature,
    resolving: &mut Resolving,
    term: &ExtTerm,
    frames: u32,
) -> Result<Option<WrittenType>, AllocError>
    ensures read { IfOk result (λ o. found (option_map type_of o) (rest_of resolving.new) ≡ resolved_type signature.now resolving.old.free resolving.old.scope (term_of term.now) (rest_of resolving.old)) }
    ensures scope { OnOk result (resolving.new.scope ≡ resolving.old.scope) }
    ensures free { OnOk result (resolving.new.free ≡ resolving.old.free) }
{
    let frames = nested(frames)?;
    let (inner, mut kinds) = ascriptions(alloc, term)?;
    let Some(mut family) = resolved_type(alloc, signature, resolving, inner, frames)? else {
        return Ok(None);
    };
    while let Some(kind) = kinds.pop() {
        let Some(kind) = resolved_kind(alloc, signature, resolving, kind, frames)? else {
            return Ok(None);
        };
        match of_kind(alloc, family, kind)? {
            Some(result) => family = result,
            None => return Ok(None),
        }
    }
    Ok(Some(family))
}

/// A family on one argument. No hole stands for a family.
fn on_argument(
    alloc: Global,
    family: WrittenType,
    argument: Written,
) -> Result<Option<WrittenType>, AllocError>
    ensures { (o : List PlainSkeleton) → IfOk result (λ r. found (option_map type_of r) o ≡ on_argument (type_of family) (written_of argument) o) }
{
    if is_hole(&family) {
        return Ok(None);
    }
    let family = Box::new(alloc, family)?;
    Ok(Some(WrittenType::Applied(family, Box::new(alloc, argument)?)))
}

/// A family or a type with its kind.
fn of_kind(
    alloc: Global,
    family: WrittenType,
    kind: WrittenKind,
) -> Result<Option<WrittenType>, AllocError>
    ensures { (o : List PlainSkeleton) → IfOk result (λ r. found (option_map type_of r) o ≡ of_kind (type_of family) (kind_of kind) o) }
{
    if is_hole(&family) && is_higher(&kind) {
        return Ok(None);
    }
    let family = Box::new(alloc, family)?;
    Ok(Some(WrittenType::Ascribed(family, Box::new(alloc, kind)?)))
}

fn is_hole(family: &WrittenType) -> bool
    ensures { result ≡ is_type_hole (type_of family.now) }
{
    match family {
        WrittenType::Hole(_, _) => true,
        WrittenType::Arrow(_, _)
        | WrittenType::Quantified(_, _)
        | WrittenType::Family(_, _)
        | WrittenType::Applied(_, _)
        | WrittenType::Ascribed(_, _) => false,
    }
}

/// Whether it is another kind than `type`.
fn is_higher(kind: &WrittenKind) -> bool
    ensures { result ≡ is_higher (kind_of kind.now) }
{
    match kind {
        WrittenKind::Star => false,
        WrittenKind::Arrow(_, _) | WrittenKind::Quantified(_, _) => true,
    }
}

/// The domain of a binder, whose bracket stands at this place.
#[cycle(resolved)]
fn resolved_domain(
    alloc: Global,
    signature: &Signature,
    resolving: &mut Resolving,
    at: Place,
    domain: &Option<Box<ExtTerm>>,
    frames: u32,
) -> Result<Option<WrittenDomain>, AllocError>
    ensures read { IfOk result (λ o. found (option_map domain_of o) (rest_of resolving.new) ≡ resolved_domain signature.now resolving.old.free resolving.old.scope (place_of at) (boxed_domain domain.now) (rest_of resolving.old)) }
    ensures scope { OnOk result (resolving.new.scope ≡ resolving.old.scope) }
    ensures free { OnOk result (resolving.new.free ≡ resolving.old.free) }
{
    match domain {
        Some(ty) => match resolved_type(alloc, signature, resolving, ty, frames)? {
            Some(ty) => Ok(Some(WrittenDomain::OfType(Box::new(alloc, ty)?))),
            None => Ok(None),
        },
        None => match resolving.take() {
            Some(skeleton) => Ok(Some(WrittenDomain::OfSkeleton(skeleton, at))),
            None => Ok(None),
        },
    }
}

/// A written kind.
#[cycle(resolved)]
pub fn resolved_kind(
    alloc: Global,
    signature: &Signature,
    resolving: &mut Resolving,
    term: &ExtTerm,
    frames: u32,
) -> Result<Option<WrittenKind>, AllocError>
    ensures read { IfOk result (λ o. found (option_map kind_of o) (rest_of resolving.new) ≡ resolved_kind signature.now resolving.old.free resolving.old.scope (term_of term.now) (rest_of resolving.old)) }
    ensures scope { OnOk result (resolving.new.scope ≡ resolving.old.scope) }
    ensures free { OnOk result (resolving.new.free ≡ resolving.old.free) }
{
    let frames = nested(frames)?;
    match term {
        ExtTerm::Star => Ok(Some(WrittenKind::Star)),
        ExtTerm::Arrow(domain, range) => {
            let Some(domain) = resolved_type(alloc, signature, resolving, domain, frames)? else {
                return Ok(None);
            };
            let Some(range) = resolved_kind(alloc, signature, resolving, range, frames)? else {
                return Ok(None);
            };
            let domain = Box::new(alloc, domain)?;
            Ok(Some(WrittenKind::Arrow(domain, Box::new(alloc, range)?)))
        }
        ExtTerm::Pi(name, at, domain, range) => {
            kind_quantifier(
                alloc, signature, resolving, name, *at, domain, range, frames,
            )
        }
        ExtTerm::Ident(_, _)
        | ExtTerm::Hole(_)
        | ExtTerm::Lam(_, _, _, _)
        | ExtTerm::App(_, _)
        | ExtTerm::Ascribe(_, _) => Ok(None),
    }
}

/// A quantifier in a kind.
#[inline(never)]
#[cycle(resolved)]
fn kind_quantifier(
    alloc: Global,
    signature: &Signature,
    resolving: &mut Resolving,
    name: &Name,
    at: Place,
    domain: &Option<Box<ExtTerm>>,
    range: &ExtTerm,
    frames: u32,
) -> Result<Option<WrittenKind>, AllocError>
    ensures read { IfOk result (λ o. found (option_map kind_of o) (rest_of resolving.new) ≡ resolved_kind signature.now resolving.old.free resolving.old.scope (pi name.now at (boxed_domain domain.now) (term_of range.now)) (rest_of resolving.old)) }
    ensures scope { OnOk result (resolving.new.scope ≡ resolving.old.scope) }
    ensures free { OnOk result (resolving.new.free ≡ resolving.old.free) }
{
    let frames = nested(frames)?;
    let Some(domain) = resolved_domain(alloc, signature, resolving, at, domain, frames)? else {
        return Ok(None);
    };
    resolving.scope.push(binder_name(alloc, name)?)?;
    let range = resolved_kind(alloc, signature, resolving, range, frames)?;
    resolving.scope.pop();
    match range {
        Some(range) => Ok(Some(WrittenKind::Quantified(domain, Box::new(alloc, range)?))),
        None => Ok(None),
    }
}
