//! Declarations, written on a page.
ghost use Rattle.std.specs.Prelude.{◌≡◌, [], ◌∷◌, OnOk, IfOk, suc};
ghost use Rattle.lf.specs.Entries.{signature_of, IsCanonicalSignature, BodyIsTyped};
ghost use Rattle.tw_signature.specs.View.{body_of, entry_of};
ghost use Rattle.tw_terms.specs.View.{type_of, kind_of};
ghost use Rattle.tw_print.specs.Marks.{marks_of, kind_marks_of};
ghost use Rattle.tw_print.specs.Page.{Writes};
ghost use Rattle.tw_print.specs.SceneView.{scene_in};
ghost use Rattle.tw_print.specs.Showable.{IsShowableContext, IsShowableKind, IsShowableType};
ghost use Rattle.tw_print.specs.Shown as layout;

use crate::levels::all_levels;
use crate::marks::{first_mark, kind_marks, other_marks, quantifier_marks};
use crate::page::Page;
use crate::print::{bind, print_atom, print_term};
use crate::scene::Scene;
use std::alloc::{AllocError, Global};
use tw_fixity::Name;
use tw_signature::{Body, Entry};
use tw_terms::numbers::one_less;
use tw_terms::{Kind, Term, Ty};

/// The names for the leading quantifiers of a declaration, where they have some, and how many of these are implicit.
#[derive(Clone, Copy)]
pub struct Leading<'a> {
    pub implicit: u32,
    pub hints: &'a [Option<Name>],
}

/// The next number. Fails where no signature in memory has so many quantifiers.
fn next_place(place: usize) -> Result<usize, AllocError>
    ensures { IfOk result (λ n. n ≡ suc place) }
{
    place.checked_add(1).ok_or(AllocError)
}

/// The base of the leading quantifier of this number.
fn leading_base(
    alloc: Global,
    scene: &Scene,
    leading: Leading,
    place: usize,
    domain: &Ty,
) -> Result<Vec<u8>, AllocError>
    ensures { IfOk result (λ b. b.items ≡ layout.leading_base (scene_in scene.now) leading.entry.implicit leading.entry.hints.now place (type_of domain.now)) }
{
    if let Some(Some(hint)) = leading.hints.get(place) {
        return Vec::from_slice(alloc, hint.as_bytes());
    }
    if (place as u64) < leading.implicit as u64 {
        return Vec::from_slice(alloc, scene.upper_base(domain));
    }
    Vec::from_slice(alloc, scene.lower_base(domain))
}

/// Writes a type whose quantifiers are leading ones from this number on.
#[inline(never)]
fn print_leading(
    alloc: Global,
    scene: &Scene,
    page: &mut Page,
    leading: Leading,
    ty: &Ty,
    marks: &[bool],
    place: usize,
    levels: u64,
) -> Result<(), AllocError>
    requires canonical { IsCanonicalSignature (scene_in scene.now).entries }
    requires context { IsShowableContext (signature_of (scene_in scene.now).entries) page.old.context }
    requires typed { IsShowableType (signature_of (scene_in scene.now).entries) page.old.context (type_of ty.now) }
    requires marked { marks.now ≡ marks_of (type_of ty.now) }
    ensures { OnOk result (Writes page.old page.new (layout.leading_type (scene_in scene.now) leading.entry.implicit leading.entry.hints.now levels place page.old.context page.old.scope (type_of ty.now))) }
{
    let inner = one_less(levels)?;
    match ty {
        Ty::Pi(domain, range) => {
            let base = leading_base(alloc, scene, leading, place, domain)?;
            bind(alloc, scene, page, domain, first_mark(marks), &base, inner)?;
            let next = next_place(place)?;
            print_leading(
                alloc,
                scene,
                page,
                leading,
                range,
                other_marks(marks),
                next,
                inner,
            )?;
            page.leave();
            Ok(())
        }
        Ty::Atom(family, spine) => print_atom(alloc, scene, page, *family, spine, inner),
    }
}

/// Writes a kind in the same way.
#[inline(never)]
fn print_leading_kind(
    alloc: Global,
    scene: &Scene,
    page: &mut Page,
    leading: Leading,
    kind: &Kind,
    marks: &[bool],
    place: usize,
    levels: u64,
) -> Result<(), AllocError>
    requires canonical { IsCanonicalSignature (scene_in scene.now).entries }
    requires context { IsShowableContext (signature_of (scene_in scene.now).entries) page.old.context }
    requires typed { IsShowableKind (signature_of (scene_in scene.now).entries) page.old.context (kind_of kind.now) }
    requires marked { marks.now ≡ kind_marks_of (kind_of kind.now) }
    ensures { OnOk result (Writes page.old page.new (layout.leading_kind (scene_in scene.now) leading.entry.implicit leading.entry.hints.now levels place page.old.context page.old.scope (kind_of kind.now))) }
{
    let inner = one_less(levels)?;
    match kind {
        Kind::Pi(domain, rest) => {
            let base = leading_base(alloc, scene, leading, place, domain)?;
            bind(alloc, scene, page, domain, first_mark(marks), &base, inner)?;
            let next = next_place(place)?;
            print_leading_kind(
                alloc,
                scene,
                page,
                leading,
                rest,
                other_marks(marks),
                next,
                inner,
            )?;
            page.leave();
            Ok(())
        }
        Kind::Star => page.token(b"type"),
    }
}

/// Writes the type or kind of a declaration.
fn print_classifier(
    alloc: Global,
    scene: &Scene,
    page: &mut Page,
    leading: Leading,
    body: &Body,
) -> Result<(), AllocError>
    requires canonical { IsCanonicalSignature (scene_in scene.now).entries }
    requires empty_context { page.old.context ≡ [] }
    requires empty_scope { page.old.scope ≡ [] }
    requires typed { BodyIsTyped (signature_of (scene_in scene.now).entries) (body_of body.now) }
    ensures { OnOk result (Writes page.old page.new (layout.classifier (scene_in scene.now) leading.entry.implicit leading.entry.hints.now (body_of body.now))) }
{
    match body {
        Body::Family(kind) => {
            let marks = kind_marks(alloc, kind)?;
            print_leading_kind(alloc, scene, page, leading, kind, &marks, 0, all_levels())
        }
        Body::Constant(ty) => print_leading_type(alloc, scene, page, leading, ty),
        Body::Defined { ty, .. } => print_leading_type(alloc, scene, page, leading, ty),
    }
}

/// Writes the type of a declaration.
fn print_leading_type(
    alloc: Global,
    scene: &Scene,
    page: &mut Page,
    leading: Leading,
    ty: &Ty,
) -> Result<(), AllocError>
    requires canonical { IsCanonicalSignature (scene_in scene.now).entries }
    requires empty_context { page.old.context ≡ [] }
    requires empty_scope { page.old.scope ≡ [] }
    requires typed { IsShowableType (signature_of (scene_in scene.now).entries) [] (type_of ty.now) }
    ensures { OnOk result (Writes page.old page.new (layout.leading_type (scene_in scene.now) leading.entry.implicit leading.entry.hints.now layout.nesting_limit 0 [] [] (type_of ty.now))) }
{
    let marks = quantifier_marks(alloc, ty)?;
    print_leading(alloc, scene, page, leading, ty, &marks, 0, all_levels())
}

/// Writes an equals sign and the term of a definition, and nothing for any other declaration.
fn print_defined(
    alloc: Global,
    scene: &Scene,
    page: &mut Page,
    body: &Body,
) -> Result<(), AllocError>
    requires canonical { IsCanonicalSignature (scene_in scene.now).entries }
    requires empty_context { page.old.context ≡ [] }
    requires empty_scope { page.old.scope ≡ [] }
    requires typed { BodyIsTyped (signature_of (scene_in scene.now).entries) (body_of body.now) }
    ensures { OnOk result (Writes page.old page.new (layout.defined_as (scene_in scene.now) (body_of body.now))) }
{
    match body {
        Body::Defined { term, ty, .. } => {
            page.space()?;
            page.token(b"=")?;
            page.space()?;
            print_term(alloc, scene, page, term, Some(ty), all_levels())
        }
        Body::Family(_) | Body::Constant(_) => Ok(()),
    }
}

/// Writes the keyword of an abbreviation, and nothing for any other declaration.
fn print_keyword(page: &mut Page, body: &Body) -> Result<(), AllocError>
    ensures { OnOk result (Writes page.old page.new (layout.keyword (body_of body.now))) }
{
    match body {
        Body::Defined { abbrev: true, .. } => {
            page.token(b"%abbrev")?;
            page.space()
        }
        _ => Ok(()),
    }
}

/// Writes a declaration's line without its line feed.
pub fn print_declaration(
    alloc: Global,
    scene: &Scene,
    page: &mut Page,
    entry: &Entry,
) -> Result<(), AllocError>
    requires canonical { IsCanonicalSignature (scene_in scene.now).entries }
    requires empty_context { page.old.context ≡ [] }
    requires empty_scope { page.old.scope ≡ [] }
    requires typed { BodyIsTyped (signature_of (scene_in scene.now).entries) (body_of entry.now.body) }
    ensures { OnOk result (Writes page.old page.new (layout.declaration (scene_in scene.now) (entry_of entry.now))) }
{
    let leading = Leading {
        implicit: entry.implicit,
        hints: &entry.hints,
    };
    print_keyword(page, &entry.body)?;
    page.token(entry.name.as_bytes())?;
    page.space()?;
    page.token(b":")?;
    page.space()?;
    print_classifier(alloc, scene, page, leading, &entry.body)?;
    print_defined(alloc, scene, page, &entry.body)?;
    page.token(b".")
}
