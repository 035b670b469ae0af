//! Shapes of what is written, which solve the equations of its skeletons.
ghost use Rattle.std.specs.Prelude.{◌≡◌, [], map, reverse, slice_get, true, Some, None, IfOk, option_map};
ghost use Rattle.lf.specs.Entries.{entry};
ghost use Rattle.tw_approx.specs.Reading.{state_of, shape_from, due_of, TermIsRead, FamilyIsRead, TypeIsRead, DomainIsRead, KindIsRead, NameIsRead, FamilyNameIsRead, RangeIsRead, RestIsRead, IsAscribed, IsFamilyApplied, IsFamilyAscribed, IsWhole, FamilyWithin, UnifiesAll};
ghost use Rattle.tw_approx.specs.ReadingRows.{IsBegun};
ghost use Rattle.tw_approx.specs.Skeletons.{entry_skeleton};
ghost use Rattle.tw_approx.specs.declared.family.FamilyShape.TheVariants.{Known};
ghost use Rattle.tw_approx.specs.Walks.{State, IsSound, ShapesWithin};
ghost use Rattle.tw_names.specs.Scope.{named};
ghost use Rattle.tw_names.specs.Unknown.{is_uppercase};
ghost use Rattle.tw_lexer.specs.declared.place.Place.{Place};
ghost use Rattle.tw_parse.specs.Syntax.{arrow as written_arrow, pi, lambda};
ghost use Rattle.tw_parse.specs.View.{term_of, boxed_domain};
ghost use Rattle.tw_shapes.specs.Shapes as plain;
ghost use Rattle.tw_shapes.specs.Shapes.{count_of, IsWithin};
ghost use Rattle.tw_shapes.specs.View.{shape_of};

use crate::chains::{ArgumentRow, arrow, ascriptions, resumed};
use crate::family::{Due, FamilyShape, closed_shape, family_due, kind_behind, type_behind};
use crate::walk::Walk;
use std::alloc::{AllocError, Global};
use tw_fixity::{Name, Scope};
use tw_names::{binder_name, is_uppercase, named, nested};
use tw_parse::ExtTerm;
use tw_shapes::{Shape, Shapes};
use tw_signature::{Body, Entry, Signature};
use tw_terms::{ConstId, Head};

/// The shape of the skeleton of a written term; none where it has none.
#[cycle(shapes)]
pub fn term_shape(
    alloc: Global,
    signature: &Signature,
    walk: &mut Walk,
    term: &ExtTerm,
    frames: u32,
) -> Result<Option<Shape>, AllocError>
    requires { IsSound (state_of walk.old) }
    ensures { IfOk result (λ o. TermIsRead signature.now (state_of walk.old) (state_of walk.new) (term_of term.now) o) }
{
    let frames = nested(frames)?;
    match term {
        ExtTerm::Ident(name, _) => name_shape(alloc, signature, walk, name),
        ExtTerm::Hole(_) => Ok(Some(walk.omit()?)),
        ExtTerm::Lam(name, _, domain, body) => {
            lambda_shape(alloc, signature, walk, name, domain, body, frames)
        }
        ExtTerm::App(_, _) => application_shape(alloc, signature, walk, term, frames),
        ExtTerm::Ascribe(_, _) => ascription_shape(alloc, signature, walk, term, frames),
        ExtTerm::Star | ExtTerm::Arrow(_, _) | ExtTerm::Pi(_, _, _, _) => Ok(None),
    }
}

/// Of a lambda.
#[cycle(shapes)]
fn lambda_shape(
    alloc: Global,
    signature: &Signature,
    walk: &mut Walk,
    name: &Name,
    domain: &Option<Box<ExtTerm>>,
    body: &ExtTerm,
    frames: u32,
) -> Result<Option<Shape>, AllocError>
    requires { IsSound (state_of walk.old) }
    ensures { (at : Place) → IfOk result (λ o. TermIsRead signature.now (state_of walk.old) (state_of walk.new) (lambda name.now at (boxed_domain domain.now) (term_of body.now)) o) }
{
    let Some(domain) = domain_shape(alloc, signature, walk, domain, frames)? else {
        return Ok(None);
    };
    walk.enter(binder_name(alloc, name)?, domain.copy(alloc)?)?;
    let Some(range) = term_shape(alloc, signature, walk, body, frames)? else {
        return Ok(None);
    };
    walk.leave();
    Ok(Some(arrow(alloc, domain, range)?))
}

/// Of an application. An argument that is an application is a row of its own, for which the outer one waits on the heap.
#[inline(never)]
#[cycle(shapes)]
fn application_shape(
    alloc: Global,
    signature: &Signature,
    walk: &mut Walk,
    term: &ExtTerm,
    frames: u32,
) -> Result<Option<Shape>, AllocError>
    requires { IsSound (state_of walk.old) }
    ensures { IfOk result (λ o. TermIsRead signature.now (state_of walk.old) (state_of walk.new) (term_of term.now) o) }
{
    let frames = nested(frames)?;
    let mut waiting = Vec::new(alloc);
    let Some(mut row) = begin(alloc, signature, walk, term, frames)? else {
        return Ok(None);
    };
    for _ in 0..u64::MAX {
        match row.arguments.pop() {
            Some(argument) => match argument {
                ExtTerm::App(_, _) => {
                    waiting.push(row)?;
                    match begin(alloc, signature, walk, argument, frames)? {
                        Some(begun) => row = begun,
                        None => return Ok(None),
                    }
                }
                ExtTerm::Ident(_, _)
                | ExtTerm::Hole(_)
                | ExtTerm::Star
                | ExtTerm::Arrow(_, _)
                | ExtTerm::Pi(_, _, _, _)
                | ExtTerm::Lam(_, _, _, _)
                | ExtTerm::Ascribe(_, _) => {
                    let Some(shape) = term_shape(alloc, signature, walk, argument, frames)? else {
                        return Ok(None);
                    };
                    match resumed(alloc, walk, row, shape)? {
                        Some(rest) => row = rest,
                        None => return Ok(None),
                    }
                }
            },
            None => match waiting.pop() {
                Some(outer) => match resumed(alloc, walk, outer, row.function)? {
                    Some(rest) => row = rest,
                    None => return Ok(None),
                },
                None => return Ok(Some(row.function)),
            },
        }
    }
    // No text in memory has so many rows and arguments; no clause of a text says so.
    Err(AllocError)
}

/// A row of which what stands before the arguments is read.
#[inline(never)]
#[cycle(shapes)]
fn begin<'a>(
    alloc: Global,
    signature: &Signature,
    walk: &mut Walk,
    term: &'a ExtTerm,
    frames: u32,
) -> Result<Option<ArgumentRow<'a>>, AllocError>
    requires { IsSound (state_of walk.old) }
    ensures { IfOk result (IsBegun signature.now (state_of walk.old) (state_of walk.new) (term_of term.now)) }
{
    let (head, arguments) = term.spine(alloc)?;
    match term_shape(alloc, signature, walk, head, frames)? {
        Some(function) => Ok(Some(ArgumentRow {
            function,
            arguments,
        })),
        None => Ok(None),
    }
}

/// Of a term with its type, or with several, one behind the other. They are read from the inside out.
#[inline(never)]
#[cycle(shapes)]
fn ascription_shape(
    alloc: Global,
    signature: &Signature,
    walk: &mut Walk,
    term: &ExtTerm,
    frames: u32,
) -> Result<Option<Shape>, AllocError>
    requires { IsSound (state_of walk.old) }
    ensures { IfOk result (λ o. TermIsRead signature.now (state_of walk.old) (state_of walk.new) (term_of term.now) o) }
{
    let frames = nested(frames)?;
    let (inner, mut types) = ascriptions(alloc, term)?;
    let Some(mut shape) = term_shape(alloc, signature, walk, inner, frames)? else {
        return Ok(None);
    };
    while let Some(ty) = types.pop() {
        let Some(expected) = type_shape(alloc, signature, walk, ty, frames)? else {
            return Ok(None);
        };
        match ascribed(walk, shape, expected)? {
            Some(result) => shape = result,
            None => return Ok(None),
        }
    }
    Ok(Some(shape))
}

/// What a name is in a term.
fn name_shape(
    alloc: Global,
    signature: &Signature,
    walk: &mut Walk,
    name: &Name,
) -> Result<Option<Shape>, AllocError>
    requires { IsSound (state_of walk.old) }
    ensures { IfOk result (λ o. NameIsRead signature.now (state_of walk.old) (state_of walk.new) name.now (named signature.now walk.old.scope name.now) o) }
{
    match named(signature, &walk.scope, name) {
        Some(Head::Const(id)) => constant_shape(alloc, signature, id),
        Some(Head::Var(variable)) => variable_shape(alloc, &walk.context, variable),
        None => free_shape(alloc, walk, name),
    }
}

/// What a constant or a definition is where it is used.
fn constant_shape(
    alloc: Global,
    signature: &Signature,
    id: ConstId,
) -> Result<Option<Shape>, AllocError>
    ensures { IfOk result (λ o. option_map shape_of o ≡ option_map shape_from (entry_skeleton (entry signature.now id.0))) }
{
    let Some(entry) = signature.entry(id) else {
        return Ok(None);
    };
    let ty = match &entry.body {
        Body::Family(_) => return Ok(None),
        Body::Constant(ty) => ty,
        Body::Defined { ty, .. } => ty,
    };
    match type_behind(ty, entry.implicit) {
        Some(rest) => Ok(Some(closed_shape(alloc, rest)?)),
        None => Ok(None),
    }
}

/// What a variable in scope is.
fn variable_shape(
    alloc: Global,
    context: &[Shape],
    variable: u64,
) -> Result<Option<Shape>, AllocError>
    ensures { IfOk result (λ o. option_map shape_of o ≡ slice_get (reverse (map shape_of context.now)) variable) }
{
    let len = context.len();
    if variable as usize >= len {
        return Ok(None);
    }
    Ok(Some(context[len - 1 - variable as usize].copy(alloc)?))
}

/// What a name is that names nothing: a free variable, where it is in upper case.
fn free_shape(alloc: Global, walk: &mut Walk, name: &Name) -> Result<Option<Shape>, AllocError>
    requires { IsSound (state_of walk.old) }
    ensures { IfOk result (λ o. NameIsRead [] (state_of walk.old) (state_of walk.new) name.now None o) }
{
    if is_uppercase(name) {
        Ok(Some(uppercase_shape(alloc, walk, name)?))
    } else {
        Ok(None)
    }
}

/// What a free variable is.
fn uppercase_shape(alloc: Global, walk: &mut Walk, name: &Name) -> Result<Shape, AllocError>
    requires sound { IsSound (state_of walk.old) }
    requires uppercase { is_uppercase name.now ≡ true }
    ensures { IfOk result (λ s. NameIsRead [] (state_of walk.old) (state_of walk.new) name.now None (Some s)) }
{
    match walk.variables.find(name) {
        Some(variable) => Ok(Shape::Variable(variable)),
        None => {
            let variable = walk.shapes.fresh()?;
            walk.variables.push(alloc, name, variable)?;
            Ok(Shape::Variable(variable))
        }
    }
}

/// What a term is with its type.
pub fn ascribed(walk: &mut Walk, shape: Shape, expected: Shape) -> Result<Option<Shape>, AllocError>
    requires sound { IsSound (state_of walk.old) }
    requires shape { IsWithin (count_of walk.old.shapes) (shape_of shape) }
    requires expected { IsWithin (count_of walk.old.shapes) (shape_of expected) }
    ensures { IfOk result (λ o. IsAscribed (state_of walk.old) (state_of walk.new) (shape_of shape) (shape_of expected) o) }
{
    if walk.shapes.unify(&shape, &expected)? {
        Ok(Some(shape))
    } else {
        Ok(None)
    }
}

/// The shape of a written type.
#[cycle(shapes)]
pub fn type_shape(
    alloc: Global,
    signature: &Signature,
    walk: &mut Walk,
    term: &ExtTerm,
    frames: u32,
) -> Result<Option<Shape>, AllocError>
    requires { IsSound (state_of walk.old) }
    ensures { IfOk result (λ o. TypeIsRead signature.now (state_of walk.old) (state_of walk.new) (term_of term.now) o) }
{
    let frames = nested(frames)?;
    match family_shape(alloc, signature, walk, term, frames)? {
        Some(family) => Ok(whole(family)),
        None => Ok(None),
    }
}

/// A family that is due nothing, as a type.
fn whole(family: FamilyShape) -> Option<Shape>
    ensures { (s : State) → IsSound s → FamilyWithin (count_of s.store) family → IsWhole s s family result }
{
    match family {
        FamilyShape::Known(due, target) => known_whole(due, target),
        FamilyShape::Unknown(target) => Some(target),
    }
}

/// The same of a family that is due this.
fn known_whole(due: Due, target: Shape) -> Option<Shape>
    ensures { (s : State) → IsSound s → FamilyWithin (count_of s.store) (Known due target) → IsWhole s s (Known due target) result }
{
    match due {
        Due::Nothing => Some(target),
        Due::Next(_, _) => None,
    }
}

/// What a written family or type is.
#[cycle(shapes)]
fn family_shape(
    alloc: Global,
    signature: &Signature,
    walk: &mut Walk,
    term: &ExtTerm,
    frames: u32,
) -> Result<Option<FamilyShape>, AllocError>
    requires { IsSound (state_of walk.old) }
    ensures { IfOk result (λ o. FamilyIsRead signature.now (state_of walk.old) (state_of walk.new) (term_of term.now) o) }
{
    let frames = nested(frames)?;
    match term {
        ExtTerm::Ident(name, _) => named_family(alloc, signature, &walk.scope, name),
        ExtTerm::Hole(_) => Ok(Some(FamilyShape::Unknown(walk.omit()?))),
        ExtTerm::Arrow(domain, range) => arrow_shape(alloc, signature, walk, domain, range, frames),
        ExtTerm::Pi(name, _, domain, range) => {
            pi_shape(alloc, signature, walk, name, domain, range, frames)
        }
        ExtTerm::App(_, _) => applied_family(alloc, signature, walk, term, frames),
        ExtTerm::Ascribe(_, _) => ascribed_family(alloc, signature, walk, term, frames),
        ExtTerm::Star | ExtTerm::Lam(_, _, _, _) => Ok(None),
    }
}

/// What a name is as a family.
#[inline(never)]
fn named_family(
    alloc: Global,
    signature: &Signature,
    scope: &Scope,
    name: &Name,
) -> Result<Option<FamilyShape>, AllocError>
    ensures { (s : State) → IsSound s → IfOk result (λ o. FamilyNameIsRead signature.now s name.now (named signature.now scope.now name.now) o) }
{
    let Some(Head::Const(id)) = named(signature, scope, name) else {
        return Ok(None);
    };
    let Some(entry) = signature.entry(id) else {
        return Ok(None);
    };
    match &entry.body {
        Body::Family(kind) => {
            let due = family_due(alloc, kind_behind(kind, entry.implicit))?;
            Ok(Some(FamilyShape::Known(due, Shape::Base(id))))
        }
        Body::Constant(_) | Body::Defined { .. } => Ok(None),
    }
}

/// An arrow as a type.
#[cycle(shapes)]
fn arrow_shape(
    alloc: Global,
    signature: &Signature,
    walk: &mut Walk,
    domain: &ExtTerm,
    range: &ExtTerm,
    frames: u32,
) -> Result<Option<FamilyShape>, AllocError>
    requires { IsSound (state_of walk.old) }
    ensures { IfOk result (λ o. FamilyIsRead signature.now (state_of walk.old) (state_of walk.new) (written_arrow (term_of domain.now) (term_of range.now)) o) }
{
    match type_shape(alloc, signature, walk, domain, frames)? {
        Some(domain) => range_shape(alloc, signature, walk, None, domain, range, frames),
        None => Ok(None),
    }
}

/// A quantifier as a type.
#[inline(never)]
#[cycle(shapes)]
fn pi_shape(
    alloc: Global,
    signature: &Signature,
    walk: &mut Walk,
    name: &Name,
    domain: &Option<Box<ExtTerm>>,
    range: &ExtTerm,
    frames: u32,
) -> Result<Option<FamilyShape>, AllocError>
    requires { IsSound (state_of walk.old) }
    ensures { (at : Place) → IfOk result (λ o. FamilyIsRead signature.now (state_of walk.old) (state_of walk.new) (pi name.now at (boxed_domain domain.now) (term_of range.now)) o) }
{
    let frames = nested(frames)?;
    match domain_shape(alloc, signature, walk, domain, frames)? {
        Some(domain) => {
            let name = binder_name(alloc, name)?;
            range_shape(alloc, signature, walk, name, domain, range, frames)
        }
        None => Ok(None),
    }
}

/// The type of what a domain of this shape leads to.
#[cycle(shapes)]
fn range_shape(
    alloc: Global,
    signature: &Signature,
    walk: &mut Walk,
    name: Option<Name>,
    domain: Shape,
    range: &ExtTerm,
    frames: u32,
) -> Result<Option<FamilyShape>, AllocError>
    requires sound { IsSound (state_of walk.old) }
    requires domain { IsWithin (count_of walk.old.shapes) (shape_of domain) }
    ensures { IfOk result (λ o. RangeIsRead signature.now (state_of walk.old) (state_of walk.new) name (shape_of domain) (term_of range.now) o) }
{
    walk.enter(name, domain.copy(alloc)?)?;
    let Some(range) = type_shape(alloc, signature, walk, range, frames)? else {
        return Ok(None);
    };
    walk.leave();
    let target = arrow(alloc, domain, range)?;
    Ok(Some(FamilyShape::Known(Due::Nothing, target)))
}

/// What a family is on arguments.
#[inline(never)]
#[cycle(shapes)]
fn applied_family(
    alloc: Global,
    signature: &Signature,
    walk: &mut Walk,
    term: &ExtTerm,
    frames: u32,
) -> Result<Option<FamilyShape>, AllocError>
    requires { IsSound (state_of walk.old) }
    ensures { IfOk result (λ o. FamilyIsRead signature.now (state_of walk.old) (state_of walk.new) (term_of term.now) o) }
{
    let frames = nested(frames)?;
    let (head, mut arguments) = term.spine(alloc)?;
    let Some(mut family) = family_shape(alloc, signature, walk, head, frames)? else {
        return Ok(None);
    };
    while let Some(argument) = arguments.pop() {
        let Some(argument) = term_shape(alloc, signature, walk, argument, frames)? else {
            return Ok(None);
        };
        match on_argument(walk, family, argument)? {
            Some(result) => family = result,
            None => return Ok(None),
        }
    }
    Ok(Some(family))
}

/// What a family is on one argument.
fn on_argument(
    walk: &mut Walk,
    family: FamilyShape,
    argument: Shape,
) -> Result<Option<FamilyShape>, AllocError>
    requires sound { IsSound (state_of walk.old) }
    requires family { FamilyWithin (count_of walk.old.shapes) family }
    requires argument { IsWithin (count_of walk.old.shapes) (shape_of argument) }
    ensures { IfOk result (λ o. IsFamilyApplied (state_of walk.old) (state_of walk.new) family (shape_of argument) o) }
{
    match family {
        FamilyShape::Known(due, target) => known_on_argument(walk, due, target, argument),
        FamilyShape::Unknown(target) => {
            walk.omit()?;
            Ok(Some(FamilyShape::Unknown(target)))
        }
    }
}

/// The same of a family that is due this.
fn known_on_argument(
    walk: &mut Walk,
    due: Due,
    target: Shape,
    argument: Shape,
) -> Result<Option<FamilyShape>, AllocError>
    requires sound { IsSound (state_of walk.old) }
    requires due { ShapesWithin (count_of walk.old.shapes) (due_of due) }
    requires target { IsWithin (count_of walk.old.shapes) (shape_of target) }
    requires argument { IsWithin (count_of walk.old.shapes) (shape_of argument) }
    ensures { IfOk result (λ o. IsFamilyApplied (state_of walk.old) (state_of walk.new) (Known due target) (shape_of argument) o) }
{
    match due {
        Due::Next(expected, rest) => {
            if walk.shapes.unify(&expected, &argument)? {
                Ok(Some(FamilyShape::Known(Box::into_inner(rest), target)))
            } else {
                Ok(None)
            }
        }
        Due::Nothing => Ok(None),
    }
}

/// What a family is with its kind, or with several, one behind the other. They are read from the inside out.
#[inline(never)]
#[cycle(shapes)]
fn ascribed_family(
    alloc: Global,
    signature: &Signature,
    walk: &mut Walk,
    term: &ExtTerm,
    frames: u32,
) -> Result<Option<FamilyShape>, AllocError>
    requires { IsSound (state_of walk.old) }
    ensures { IfOk result (λ o. FamilyIsRead signature.now (state_of walk.old) (state_of walk.new) (term_of term.now) o) }
{
    let frames = nested(frames)?;
    let (inner, mut kinds) = ascriptions(alloc, term)?;
    let Some(mut family) = family_shape(alloc, signature, walk, inner, frames)? else {
        return Ok(None);
    };
    while let Some(kind) = kinds.pop() {
        let Some(expected) = kind_due(alloc, signature, walk, kind, frames)? else {
            return Ok(None);
        };
        match of_kind(walk, family, expected)? {
            Some(result) => family = result,
            None => return Ok(None),
        }
    }
    Ok(Some(family))
}

/// What a family is where its kind is due this.
fn of_kind(
    walk: &mut Walk,
    family: FamilyShape,
    expected: Due,
) -> Result<Option<FamilyShape>, AllocError>
    requires sound { IsSound (state_of walk.old) }
    requires family { FamilyWithin (count_of walk.old.shapes) family }
    requires expected { ShapesWithin (count_of walk.old.shapes) (due_of expected) }
    ensures { IfOk result (λ o. IsFamilyAscribed (state_of walk.old) (state_of walk.new) family (due_of expected) o) }
{
    match family {
        FamilyShape::Known(due, target) => {
            if unify_due(&mut walk.shapes, &due, &expected)? {
                Ok(Some(FamilyShape::Known(due, target)))
            } else {
                Ok(None)
            }
        }
        FamilyShape::Unknown(target) => {
            if expected.is_nothing() {
                return Ok(Some(FamilyShape::Known(expected, target)));
            }
            walk.omit()?;
            Ok(Some(FamilyShape::Known(expected, target)))
        }
    }
}

/// Makes both equal, one by one; the first that can't be made so ends it.
fn unify_due(shapes: &mut Shapes, first: &Due, second: &Due) -> Result<bool, AllocError>
    requires first { ShapesWithin (count_of shapes.old) (due_of first.now) }
    requires second { ShapesWithin (count_of shapes.old) (due_of second.now) }
    ensures { IfOk result (λ b. UnifiesAll shapes.old shapes.new (due_of first.now) (due_of second.now) b) }
{
    match (first, second) {
        (Due::Nothing, Due::Nothing) => Ok(true),
        (Due::Next(left, lefts), Due::Next(right, rights)) => {
            if shapes.unify(left, right)? {
                unify_due(shapes, lefts, rights)
            } else {
                Ok(false)
            }
        }
        (Due::Nothing, Due::Next(_, _)) | (Due::Next(_, _), Due::Nothing) => Ok(false),
    }
}

/// The shape of a binder's variable.
#[cycle(shapes)]
fn domain_shape(
    alloc: Global,
    signature: &Signature,
    walk: &mut Walk,
    domain: &Option<Box<ExtTerm>>,
    frames: u32,
) -> Result<Option<Shape>, AllocError>
    requires { IsSound (state_of walk.old) }
    ensures { IfOk result (λ o. DomainIsRead signature.now (state_of walk.old) (state_of walk.new) (boxed_domain domain.now) o) }
{
    match domain {
        Some(ty) => type_shape(alloc, signature, walk, ty, frames),
        None => Ok(Some(walk.omit()?)),
    }
}

/// What a family of the written kind is due.
#[cycle(shapes)]
pub fn kind_due(
    alloc: Global,
    signature: &Signature,
    walk: &mut Walk,
    kind: &ExtTerm,
    frames: u32,
) -> Result<Option<Due>, AllocError>
    requires { IsSound (state_of walk.old) }
    ensures { IfOk result (λ o. KindIsRead signature.now (state_of walk.old) (state_of walk.new) (term_of kind.now) o) }
{
    let frames = nested(frames)?;
    match kind {
        ExtTerm::Star => Ok(Some(Due::Nothing)),
        ExtTerm::Arrow(domain, rest) => match type_shape(alloc, signature, walk, domain, frames)? {
            Some(domain) => rest_due(alloc, signature, walk, None, domain, rest, frames),
            None => Ok(None),
        },
        ExtTerm::Pi(name, _, domain, rest) => {
            match domain_shape(alloc, signature, walk, domain, frames)? {
                Some(domain) => {
                    let name = binder_name(alloc, name)?;
                    rest_due(alloc, signature, walk, name, domain, rest, frames)
                }
                None => Ok(None),
            }
        }
        ExtTerm::Ident(_, _)
        | ExtTerm::Hole(_)
        | ExtTerm::Lam(_, _, _, _)
        | ExtTerm::App(_, _)
        | ExtTerm::Ascribe(_, _) => Ok(None),
    }
}

/// What is due from a domain of this shape on.
#[inline(never)]
#[cycle(shapes)]
fn rest_due(
    alloc: Global,
    signature: &Signature,
    walk: &mut Walk,
    name: Option<Name>,
    domain: Shape,
    rest: &ExtTerm,
    frames: u32,
) -> Result<Option<Due>, AllocError>
    requires sound { IsSound (state_of walk.old) }
    requires domain { IsWithin (count_of walk.old.shapes) (shape_of domain) }
    ensures { IfOk result (λ o. RestIsRead signature.now (state_of walk.old) (state_of walk.new) name (shape_of domain) (term_of rest.now) o) }
{
    let frames = nested(frames)?;
    walk.enter(name, domain.copy(alloc)?)?;
    let Some(due) = kind_due(alloc, signature, walk, rest, frames)? else {
        return Ok(None);
    };
    walk.leave();
    Ok(Some(Due::Next(domain, Box::new(alloc, due)?)))
}
