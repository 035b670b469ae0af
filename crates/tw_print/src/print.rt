//! Terms and types, written on a page. What is still to be written waits on the heap, so that no text nests on the machine's stack.
ghost use Rattle.std.specs.Prelude.{◌≡◌, ◌∷◌, [], IfOk, OnOk, Some, None, drop, option_map, reverse};
ghost use Rattle.lf.specs.Entries.{signature_of, IsCanonicalSignature};
ghost use Rattle.lf.specs.Syntax.{lambda, pi, root, atom};
ghost use Rattle.tw_terms.specs.View.{head_of, term_of, spine_of, type_of};
ghost use Rattle.tw_print.specs.Due.{AllFit, Begins, Goes, PutsDomain, stacked};
ghost use Rattle.tw_print.specs.Marks.{head_mark, marks_of};
ghost use Rattle.tw_print.specs.Page.{Writes, Binds};
ghost use Rattle.tw_print.specs.SceneView.{scene_in};
ghost use Rattle.tw_print.specs.Shown as layout;
ghost use Rattle.tw_print.specs.Showable.{IsShowableContext, IsShowableType, IsShowable};

use crate::arguments::has_lambda;
use crate::bare::begin_bare;
use crate::due::{Due, pop, push, push_application, push_type};
use crate::fresh::fresh_name;
use crate::heads::{
    bare_constant, family_arguments, head_arguments, head_hidden, head_operator, head_word,
    is_quantified,
};
use crate::page::Page;
use crate::scene::Scene;
use std::alloc::{AllocError, Global};
use tw_fixity::Name;
use tw_terms::numbers::one_less;
use tw_terms::{ConstId, Head, Spine, Term, Ty};

/// Writes a term; a lambda by its type. `levels` says how deep parts may nest.
pub fn print_term(
    alloc: Global,
    scene: &Scene,
    page: &mut Page,
    term: &Term,
    ty: Option<&Ty>,
    levels: u64,
) -> Result<(), AllocError>
    requires canonical { IsCanonicalSignature (scene_in scene.now).entries }
    requires context { IsShowableContext (signature_of (scene_in scene.now).entries) page.old.context }
    requires typed { IsShowable (signature_of (scene_in scene.now).entries) page.old.context (term_of term.now) (option_map (λ a. type_of a.now) ty) }
    ensures { OnOk result (Writes page.old page.new ((layout.parts (scene_in scene.now) levels).term page.old.context page.old.scope (term_of term.now) (option_map (λ a. type_of a.now) ty.entry))) }
{
    let mut due = Vec::new(alloc);
    let ty = copied(alloc, ty)?;
    push(&mut due, Due::Term(term.copy(alloc)?, ty, levels))?;
    write_due(alloc, scene, page, due)
}

/// The type of a lambda, if there is one.
fn copied(alloc: Global, ty: Option<&Ty>) -> Result<Option<Ty>, AllocError>
    ensures { IfOk result (λ t. option_map type_of t ≡ option_map (λ a. type_of a.now) ty.entry) }
{
    match ty {
        Some(ty) => Ok(Some(ty.copy(alloc)?)),
        None => Ok(None),
    }
}

/// Writes a type.
pub fn print_type(
    alloc: Global,
    scene: &Scene,
    page: &mut Page,
    ty: &Ty,
    levels: u64,
) -> Result<(), AllocError>
    requires canonical { IsCanonicalSignature (scene_in scene.now).entries }
    requires context { IsShowableContext (signature_of (scene_in scene.now).entries) page.old.context }
    requires typed { IsShowableType (signature_of (scene_in scene.now).entries) page.old.context (type_of ty.now) }
    ensures { OnOk result (Writes page.old page.new ((layout.parts (scene_in scene.now) levels).type page.old.context page.old.scope (type_of ty.now))) }
{
    let mut due = Vec::new(alloc);
    push_type(alloc, &mut due, ty.copy(alloc)?, levels)?;
    write_due(alloc, scene, page, due)
}

/// Writes a family with its arguments.
pub fn print_atom(
    alloc: Global,
    scene: &Scene,
    page: &mut Page,
    family: ConstId,
    spine: &Spine,
    inner: u64,
) -> Result<(), AllocError>
    requires canonical { IsCanonicalSignature (scene_in scene.now).entries }
    requires context { IsShowableContext (signature_of (scene_in scene.now).entries) page.old.context }
    requires typed { IsShowableType (signature_of (scene_in scene.now).entries) page.old.context (atom family.0 (spine_of spine.now)) }
    ensures { OnOk result (Writes page.old page.new (layout.atom_pieces (layout.parts (scene_in scene.now) inner) (scene_in scene.now) page.old.context page.old.scope family.0 (spine_of spine.now))) }
{
    let mut due = Vec::new(alloc);
    begin_atom(
        alloc,
        scene,
        page,
        family,
        spine.copy(alloc)?,
        inner,
        &mut due,
    )?;
    write_due(alloc, scene, page, due)
}

/// Writes all that is due. Parts are counted, and memory counts as used up after 2 ^ 64 - 1 of them.
fn write_due(alloc: Global, scene: &Scene, page: &mut Page, due: Vec<Due>) -> Result<(), AllocError>
    requires canonical { IsCanonicalSignature (scene_in scene.now).entries }
    requires context { IsShowableContext (signature_of (scene_in scene.now).entries) page.old.context }
    requires fits { AllFit (signature_of (scene_in scene.now).entries) page.old.context (stacked due.items) }
    ensures { OnOk result (Goes (scene_in scene.now) page.old page.new (stacked due.items) []) }
{
    let mut left = due;
    for _ in 0..u64::MAX {
        match pop(&mut left) {
            Some(next) => write_next(alloc, scene, page, next, &mut left)?,
            None => return Ok(()),
        }
    }
    Err(AllocError)
}

/// Writes what is due next, or as much of it as stands before its first part, which is due then.
#[inline(never)]
fn write_next(
    alloc: Global,
    scene: &Scene,
    page: &mut Page,
    next: Due,
    due: &mut Vec<Due>,
) -> Result<(), AllocError>
    requires canonical { IsCanonicalSignature (scene_in scene.now).entries }
    requires context { IsShowableContext (signature_of (scene_in scene.now).entries) page.old.context }
    requires fits { AllFit (signature_of (scene_in scene.now).entries) page.old.context (next ∷ stacked due.old.items) }
    ensures { OnOk result (Goes (scene_in scene.now) page.old page.new (next ∷ stacked due.old.items) (stacked due.new.items)) }
{
    match next {
        Due::Word(word) => page.token(&word),
        Due::Opening => page.token(b"("),
        Due::Closing => page.token(b")"),
        Due::Space => page.space(),
        Due::Arrow => page.arrow(),
        Due::Bracket => page.close(b"]"),
        Due::Brace => page.close(b"}"),
        Due::Enter(ty, name) => page.enter(alloc, &ty, name),
        Due::Leave => {
            page.leave();
            Ok(())
        }
        Due::Term(term, ty, levels) => begin_term(alloc, scene, page, term, ty, levels, due),
        Due::Type(ty, marks, levels) => begin_type(alloc, scene, page, ty, marks, levels, due),
    }
}

/// Begins a term.
#[inline(never)]
fn begin_term(
    alloc: Global,
    scene: &Scene,
    page: &mut Page,
    term: Term,
    ty: Option<Ty>,
    levels: u64,
    due: &mut Vec<Due>,
) -> Result<(), AllocError>
    requires canonical { IsCanonicalSignature (scene_in scene.now).entries }
    requires context { IsShowableContext (signature_of (scene_in scene.now).entries) page.old.context }
    requires typed { IsShowable (signature_of (scene_in scene.now).entries) page.old.context (term_of term) (option_map type_of ty) }
    requires fits { AllFit (signature_of (scene_in scene.now).entries) page.old.context (stacked due.old.items) }
    ensures { OnOk result (Begins (scene_in scene.now) page.old page.new ((layout.parts (scene_in scene.now) levels).term page.old.context page.old.scope (term_of term) (option_map type_of ty)) (stacked due.old.items) (stacked due.new.items)) }
{
    let inner = one_less(levels)?;
    match term {
        Term::Root(head, spine) => begin_root(alloc, scene, page, head, spine, inner, due),
        Term::Lam(body) => match ty {
            Some(Ty::Pi(domain, range)) => begin_lambda(
                alloc,
                scene,
                page,
                Box::into_inner(body),
                Box::into_inner(domain),
                Box::into_inner(range),
                inner,
                due,
            ),
            Some(Ty::Atom(_, _)) | None => unreachable!(),
        },
    }
}

/// Begins a lambda whose variable and body have these types.
#[inline(never)]
fn begin_lambda(
    alloc: Global,
    scene: &Scene,
    page: &mut Page,
    body: Term,
    domain: Ty,
    range: Ty,
    inner: u64,
    due: &mut Vec<Due>,
) -> Result<(), AllocError>
    requires canonical { IsCanonicalSignature (scene_in scene.now).entries }
    requires context { IsShowableContext (signature_of (scene_in scene.now).entries) page.old.context }
    requires typed { IsShowable (signature_of (scene_in scene.now).entries) page.old.context (lambda (term_of body)) (Some (pi (type_of domain) (type_of range))) }
    requires fits { AllFit (signature_of (scene_in scene.now).entries) page.old.context (stacked due.old.items) }
    ensures { OnOk result (Begins (scene_in scene.now) page.old page.new (layout.term_layout (layout.parts (scene_in scene.now) inner) (scene_in scene.now) page.old.context page.old.scope (lambda (term_of body)) (Some (pi (type_of domain) (type_of range)))) (stacked due.old.items) (stacked due.new.items)) }
{
    let name = fresh_name(alloc, scene, &page.scope, scene.lower_base(&domain))?;
    page.open(b"[", name.as_bytes())?;
    let entered = domain.copy(alloc)?;
    push(due, Due::Leave)?;
    push(due, Due::Term(body, Some(range), inner))?;
    push(due, Due::Enter(entered, Some(name)))?;
    push(due, Due::Bracket)?;
    push_type(alloc, due, domain, inner)
}

/// Begins a head with its arguments.
#[inline(never)]
fn begin_root(
    alloc: Global,
    scene: &Scene,
    page: &mut Page,
    head: Head,
    spine: Spine,
    inner: u64,
    due: &mut Vec<Due>,
) -> Result<(), AllocError>
    requires canonical { IsCanonicalSignature (scene_in scene.now).entries }
    requires context { IsShowableContext (signature_of (scene_in scene.now).entries) page.old.context }
    requires typed { IsShowable (signature_of (scene_in scene.now).entries) page.old.context (root (head_of head) (spine_of spine)) None }
    requires fits { AllFit (signature_of (scene_in scene.now).entries) page.old.context (stacked due.old.items) }
    ensures { OnOk result (Begins (scene_in scene.now) page.old page.new (layout.root_pieces (layout.parts (scene_in scene.now) inner) (scene_in scene.now) page.old.context page.old.scope (head_of head) (spine_of spine)) (stacked due.old.items) (stacked due.new.items)) }
{
    if let Some(id) = bare_constant(head, &spine) {
        return begin_bare(alloc, scene, page, id, spine.args, inner, due);
    }
    let word = head_word(alloc, scene, page, head)?;
    let arguments = head_arguments(alloc, scene, &page.context, head, spine)?;
    push_application(
        scene,
        due,
        word,
        head_operator(scene, head),
        arguments,
        head_hidden(scene, head),
        inner,
    )
}

/// Begins a family with its arguments.
#[inline(never)]
fn begin_atom(
    alloc: Global,
    scene: &Scene,
    page: &mut Page,
    family: ConstId,
    spine: Spine,
    inner: u64,
    due: &mut Vec<Due>,
) -> Result<(), AllocError>
    requires canonical { IsCanonicalSignature (scene_in scene.now).entries }
    requires context { IsShowableContext (signature_of (scene_in scene.now).entries) page.old.context }
    requires typed { IsShowableType (signature_of (scene_in scene.now).entries) page.old.context (atom family.0 (spine_of spine)) }
    requires fits { AllFit (signature_of (scene_in scene.now).entries) page.old.context (stacked due.old.items) }
    ensures { OnOk result (Begins (scene_in scene.now) page.old page.new (layout.atom_pieces (layout.parts (scene_in scene.now) inner) (scene_in scene.now) page.old.context page.old.scope family.0 (spine_of spine)) (stacked due.old.items) (stacked due.new.items)) }
{
    if !has_lambda(&spine.args) {
        return begin_bare(alloc, scene, page, family, spine.args, inner, due);
    }
    let word = scene.constant_word(alloc, family)?;
    let arguments = family_arguments(alloc, scene, &page.context, family, spine)?;
    push_application(
        scene,
        due,
        word,
        scene.operator(family),
        arguments,
        scene.hidden(family),
        inner,
    )
}

/// Begins a type whose quantifiers have these marks, the last one first.
#[inline(never)]
fn begin_type(
    alloc: Global,
    scene: &Scene,
    page: &mut Page,
    ty: Ty,
    marks: Vec<bool>,
    levels: u64,
    due: &mut Vec<Due>,
) -> Result<(), AllocError>
    requires canonical { IsCanonicalSignature (scene_in scene.now).entries }
    requires context { IsShowableContext (signature_of (scene_in scene.now).entries) page.old.context }
    requires typed { IsShowableType (signature_of (scene_in scene.now).entries) page.old.context (type_of ty) }
    requires marked { reverse marks.items ≡ marks_of (type_of ty) }
    requires fits { AllFit (signature_of (scene_in scene.now).entries) page.old.context (stacked due.old.items) }
    ensures { OnOk result (Begins (scene_in scene.now) page.old page.new ((layout.parts (scene_in scene.now) levels).type page.old.context page.old.scope (type_of ty)) (stacked due.old.items) (stacked due.new.items)) }
{
    let inner = one_less(levels)?;
    match ty {
        Ty::Pi(domain, range) => begin_pi(
            alloc,
            scene,
            page,
            Box::into_inner(domain),
            Box::into_inner(range),
            marks,
            inner,
            due,
        ),
        Ty::Atom(family, spine) => begin_atom(alloc, scene, page, family, spine, inner, due),
    }
}

/// Begins a quantifier or an arrow.
#[inline(never)]
fn begin_pi(
    alloc: Global,
    scene: &Scene,
    page: &mut Page,
    domain: Ty,
    range: Ty,
    marks: Vec<bool>,
    inner: u64,
    due: &mut Vec<Due>,
) -> Result<(), AllocError>
    requires canonical { IsCanonicalSignature (scene_in scene.now).entries }
    requires context { IsShowableContext (signature_of (scene_in scene.now).entries) page.old.context }
    requires typed { IsShowableType (signature_of (scene_in scene.now).entries) page.old.context (pi (type_of domain) (type_of range)) }
    requires marked { reverse marks.items ≡ marks_of (pi (type_of domain) (type_of range)) }
    requires fits { AllFit (signature_of (scene_in scene.now).entries) page.old.context (stacked due.old.items) }
    ensures { OnOk result (Begins (scene_in scene.now) page.old page.new (layout.type_layout (layout.parts (scene_in scene.now) inner) (scene_in scene.now) page.old.context page.old.scope (pi (type_of domain) (type_of range))) (stacked due.old.items) (stacked due.new.items)) }
{
    let mut marks = marks;
    let occurring = last_mark(&mut marks);
    let entered = domain.copy(alloc)?;
    push(due, Due::Leave)?;
    push(due, Due::Type(range, marks, inner))?;
    if occurring {
        let name = fresh_name(alloc, scene, &page.scope, scene.lower_base(&domain))?;
        page.open(b"{", name.as_bytes())?;
        push(due, Due::Enter(entered, Some(name)))?;
        push(due, Due::Brace)?;
        return push_type(alloc, due, domain, inner);
    }
    push(due, Due::Enter(entered, None))?;
    push(due, Due::Arrow)?;
    push_domain(alloc, due, domain, inner)
}

/// The mark of the outermost quantifier, which is taken off.
fn last_mark(marks: &mut Vec<bool>) -> bool
    ensures first { result ≡ head_mark (reverse marks.old.items) }
    ensures rest { reverse marks.new.items ≡ drop 1 (reverse marks.old.items) }
{
    match marks.pop() {
        Some(mark) => mark,
        None => false,
    }
}

/// The domain of an arrow is due, in parentheses where it is a quantifier or an arrow.
fn push_domain(alloc: Global, due: &mut Vec<Due>, domain: Ty, inner: u64) -> Result<(), AllocError>
    ensures { OnOk result (PutsDomain inner (type_of domain) (stacked due.old.items) (stacked due.new.items)) }
{
    if !is_quantified(&domain) {
        return push_type(alloc, due, domain, inner);
    }
    push(due, Due::Closing)?;
    push_type(alloc, due, domain, inner)?;
    push(due, Due::Opening)
}

/// Writes what stands before the rest of a quantified type or kind, and brings the variable in scope.
#[inline(never)]
pub fn bind(
    alloc: Global,
    scene: &Scene,
    page: &mut Page,
    domain: &Ty,
    occurring: bool,
    base: &[u8],
    inner: u64,
) -> Result<(), AllocError>
    requires canonical { IsCanonicalSignature (scene_in scene.now).entries }
    requires context { IsShowableContext (signature_of (scene_in scene.now).entries) page.old.context }
    requires typed { IsShowableType (signature_of (scene_in scene.now).entries) page.old.context (type_of domain.now) }
    ensures { OnOk result (Binds page.old page.new (layout.quantifier (layout.parts (scene_in scene.now) inner) (scene_in scene.now) page.old.context page.old.scope (layout.quantifier_name (scene_in scene.now) page.old.scope occurring base.now) (type_of domain.now)) (type_of domain.now) (layout.quantifier_name (scene_in scene.now) page.old.scope occurring base.now)) }
{
    if occurring {
        let name = fresh_name(alloc, scene, &page.scope, base)?;
        page.open(b"{", name.as_bytes())?;
        print_type(alloc, scene, page, domain, inner)?;
        page.close(b"}")?;
        return page.enter(alloc, domain, Some(name));
    }
    print_domain(alloc, scene, page, domain, inner)?;
    page.arrow()?;
    page.enter(alloc, domain, None)
}

/// Writes the domain of an arrow, in parentheses where it is a quantifier or an arrow.
#[inline(never)]
fn print_domain(
    alloc: Global,
    scene: &Scene,
    page: &mut Page,
    domain: &Ty,
    inner: u64,
) -> Result<(), AllocError>
    requires canonical { IsCanonicalSignature (scene_in scene.now).entries }
    requires context { IsShowableContext (signature_of (scene_in scene.now).entries) page.old.context }
    requires typed { IsShowableType (signature_of (scene_in scene.now).entries) page.old.context (type_of domain.now) }
    ensures { OnOk result (Writes page.old page.new (layout.in_parentheses_if (layout.quantified_test (type_of domain.now)) ((layout.parts (scene_in scene.now) inner).type page.old.context page.old.scope (type_of domain.now)))) }
{
    if !is_quantified(domain) {
        return print_type(alloc, scene, page, domain, inner);
    }
    page.token(b"(")?;
    print_type(alloc, scene, page, domain, inner)?;
    page.token(b")")
}
