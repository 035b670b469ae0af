//! Terms and types, walked through as they are shown. What is still to be walked through waits on the heap, so that no text nests on the machine's stack.
ghost use Rattle.std.specs.Prelude.{◌≡◌, ◌∷◌, [], None, OnOk, Some, option_map};
ghost use Rattle.lf.specs.Entries.{IsCanonicalSignature, signature_of};
ghost use Rattle.lf.specs.Syntax.{atom, lambda, pi, root};
ghost use Rattle.tw_terms.specs.View.{head_of, spine_of, term_of, type_of};
ghost use Rattle.tw_print.specs.Showable.{IsShowable, IsShowableContext, IsShowableType};
ghost use Rattle.tw_print.specs.ShowEnv.{scene_of};
ghost use Rattle.tw_shown.specs.Due.{AllFit, Begins, Goes, stacked};
ghost use Rattle.tw_shown.specs.Shown.{of_atom, of_root, of_term, of_type, shown_within};
ghost use Rattle.tw_shown.specs.Walks.{Adds};

use crate::due::{Due, pop, push, push_arguments};
use crate::walk::Walk;
use std::alloc::{AllocError, Global};
use tw_print::ShowEnv;
use tw_terms::numbers::one_less;
use tw_terms::{ConstId, Head, Spine, Term, Ty};

/// Walks through a term at its type. `levels` says how deep parts may nest.
pub fn walk_term(
    alloc: Global,
    env: &ShowEnv,
    walk: &mut Walk,
    term: &Term,
    ty: &Ty,
    levels: u64,
) -> Result<(), AllocError>
    requires canonical { IsCanonicalSignature env.now.sig.now }
    requires context { IsShowableContext (signature_of env.now.sig.now) walk.old.context }
    requires typed { IsShowable (signature_of env.now.sig.now) walk.old.context (term_of term.now) (Some (type_of ty.now)) }
    ensures { OnOk result (Adds walk.old walk.new ((shown_within (scene_of env.now) levels).term walk.old.context (term_of term.now) (Some (type_of ty.now)))) }
{
    let mut due = Vec::new(alloc);
    let ty = ty.copy(alloc)?;
    let term = term.copy(alloc)?;
    push(&mut due, Due::Term(term, Some(ty), levels))?;
    walk_due(alloc, env, walk, due)
}

/// Walks through a type.
pub fn walk_type(
    alloc: Global,
    env: &ShowEnv,
    walk: &mut Walk,
    ty: &Ty,
    levels: u64,
) -> Result<(), AllocError>
    requires canonical { IsCanonicalSignature env.now.sig.now }
    requires context { IsShowableContext (signature_of env.now.sig.now) walk.old.context }
    requires typed { IsShowableType (signature_of env.now.sig.now) walk.old.context (type_of ty.now) }
    ensures { OnOk result (Adds walk.old walk.new ((shown_within (scene_of env.now) levels).type walk.old.context (type_of ty.now))) }
{
    let mut due = Vec::new(alloc);
    let ty = ty.copy(alloc)?;
    push(&mut due, Due::Type(ty, levels))?;
    walk_due(alloc, env, walk, due)
}

/// Walks through all that is due. Parts are counted, and memory counts as used up after 2 ^ 64 - 1 of them.
fn walk_due(alloc: Global, env: &ShowEnv, walk: &mut Walk, due: Vec<Due>) -> Result<(), AllocError>
    requires canonical { IsCanonicalSignature env.now.sig.now }
    requires context { IsShowableContext (signature_of env.now.sig.now) walk.old.context }
    requires fits { AllFit (signature_of env.now.sig.now) walk.old.context (stacked due.items) }
    ensures { OnOk result (Goes (scene_of env.now) walk.old walk.new (stacked due.items) []) }
{
    let mut left = due;
    for _ in 0..u64::MAX {
        match pop(&mut left) {
            Some(next) => walk_next(alloc, env, walk, next, &mut left)?,
            None => return Ok(()),
        }
    }
    Err(AllocError)
}

/// Walks to the first part of what is due next, which is due then.
#[inline(never)]
fn walk_next(
    alloc: Global,
    env: &ShowEnv,
    walk: &mut Walk,
    next: Due,
    due: &mut Vec<Due>,
) -> Result<(), AllocError>
    requires canonical { IsCanonicalSignature env.now.sig.now }
    requires context { IsShowableContext (signature_of env.now.sig.now) walk.old.context }
    requires fits { AllFit (signature_of env.now.sig.now) walk.old.context (next ∷ stacked due.old.items) }
    ensures { OnOk result (Goes (scene_of env.now) walk.old walk.new (next ∷ stacked due.old.items) (stacked due.new.items)) }
{
    match next {
        Due::Enter(ty) => walk.enter(ty),
        Due::Leave => {
            walk.leave();
            Ok(())
        }
        Due::Term(term, ty, levels) => begin_term(alloc, env, walk, term, ty, levels, due),
        Due::Type(ty, levels) => begin_type(alloc, env, walk, ty, levels, due),
    }
}

/// Begins a term.
#[inline(never)]
fn begin_term(
    alloc: Global,
    env: &ShowEnv,
    walk: &mut Walk,
    term: Term,
    ty: Option<Ty>,
    levels: u64,
    due: &mut Vec<Due>,
) -> Result<(), AllocError>
    requires canonical { IsCanonicalSignature env.now.sig.now }
    requires context { IsShowableContext (signature_of env.now.sig.now) walk.old.context }
    requires typed { IsShowable (signature_of env.now.sig.now) walk.old.context (term_of term) (option_map type_of ty) }
    requires fits { AllFit (signature_of env.now.sig.now) walk.old.context (stacked due.old.items) }
    ensures { OnOk result (Begins (scene_of env.now) walk.old walk.new ((shown_within (scene_of env.now) levels).term walk.old.context (term_of term) (option_map type_of ty)) (stacked due.old.items) (stacked due.new.items)) }
{
    let inner = one_less(levels)?;
    match term {
        Term::Root(head, spine) => begin_root(alloc, env, walk, head, spine, inner, due),
        Term::Lam(body) => match ty {
            Some(Ty::Pi(domain, range)) => begin_lambda(
                alloc,
                env,
                walk,
                Box::into_inner(body),
                Box::into_inner(domain),
                Box::into_inner(range),
                inner,
                due,
            ),
            Some(Ty::Atom(_, _)) | None => unreachable!(),
        },
    }
}

/// Begins a lambda whose variable and body have these types.
#[inline(never)]
fn begin_lambda(
    alloc: Global,
    env: &ShowEnv,
    walk: &Walk,
    body: Term,
    domain: Ty,
    range: Ty,
    inner: u64,
    due: &mut Vec<Due>,
) -> Result<(), AllocError>
    requires canonical { IsCanonicalSignature env.now.sig.now }
    requires context { IsShowableContext (signature_of env.now.sig.now) walk.now.context }
    requires typed { IsShowable (signature_of env.now.sig.now) walk.now.context (lambda (term_of body)) (Some (pi (type_of domain) (type_of range))) }
    requires fits { AllFit (signature_of env.now.sig.now) walk.now.context (stacked due.old.items) }
    ensures { OnOk result (Begins (scene_of env.now) walk.now walk.now (of_term (shown_within (scene_of env.now) inner) (scene_of env.now) walk.now.context (lambda (term_of body)) (Some (pi (type_of domain) (type_of range)))) (stacked due.old.items) (stacked due.new.items)) }
{
    let entered = domain.copy(alloc)?;
    push(due, Due::Leave)?;
    push(due, Due::Term(body, Some(range), inner))?;
    push(due, Due::Enter(entered))?;
    push(due, Due::Type(domain, inner))
}

/// Shows a head, and begins its arguments.
#[inline(never)]
fn begin_root(
    alloc: Global,
    env: &ShowEnv,
    walk: &mut Walk,
    head: Head,
    spine: Spine,
    inner: u64,
    due: &mut Vec<Due>,
) -> Result<(), AllocError>
    requires canonical { IsCanonicalSignature env.now.sig.now }
    requires context { IsShowableContext (signature_of env.now.sig.now) walk.old.context }
    requires typed { IsShowable (signature_of env.now.sig.now) walk.old.context (root (head_of head) (spine_of spine)) None }
    requires fits { AllFit (signature_of env.now.sig.now) walk.old.context (stacked due.old.items) }
    ensures { OnOk result (Begins (scene_of env.now) walk.old walk.new (of_root (shown_within (scene_of env.now) inner) (scene_of env.now) walk.old.context (head_of head) (spine_of spine)) (stacked due.old.items) (stacked due.new.items)) }
{
    let arguments = env.head_arguments(alloc, &walk.context, head, spine)?;
    push_arguments(due, arguments, env.head_hidden(head), inner)?;
    walk.show_head(head)
}

/// Begins the arguments of a family.
#[inline(never)]
fn begin_atom(
    alloc: Global,
    env: &ShowEnv,
    walk: &Walk,
    family: ConstId,
    spine: Spine,
    inner: u64,
    due: &mut Vec<Due>,
) -> Result<(), AllocError>
    requires canonical { IsCanonicalSignature env.now.sig.now }
    requires context { IsShowableContext (signature_of env.now.sig.now) walk.now.context }
    requires typed { IsShowableType (signature_of env.now.sig.now) walk.now.context (atom family.0 (spine_of spine)) }
    requires fits { AllFit (signature_of env.now.sig.now) walk.now.context (stacked due.old.items) }
    ensures { OnOk result (Begins (scene_of env.now) walk.now walk.now (of_atom (shown_within (scene_of env.now) inner) (scene_of env.now) walk.now.context family.0 (spine_of spine)) (stacked due.old.items) (stacked due.new.items)) }
{
    let arguments = env.family_arguments(alloc, &walk.context, family, spine)?;
    push_arguments(due, arguments, env.hidden(family), inner)
}

/// Begins a type.
#[inline(never)]
fn begin_type(
    alloc: Global,
    env: &ShowEnv,
    walk: &Walk,
    ty: Ty,
    levels: u64,
    due: &mut Vec<Due>,
) -> Result<(), AllocError>
    requires canonical { IsCanonicalSignature env.now.sig.now }
    requires context { IsShowableContext (signature_of env.now.sig.now) walk.now.context }
    requires typed { IsShowableType (signature_of env.now.sig.now) walk.now.context (type_of ty) }
    requires fits { AllFit (signature_of env.now.sig.now) walk.now.context (stacked due.old.items) }
    ensures { OnOk result (Begins (scene_of env.now) walk.now walk.now ((shown_within (scene_of env.now) levels).type walk.now.context (type_of ty)) (stacked due.old.items) (stacked due.new.items)) }
{
    let inner = one_less(levels)?;
    match ty {
        Ty::Pi(domain, range) => begin_pi(
            alloc,
            env,
            walk,
            Box::into_inner(domain),
            Box::into_inner(range),
            inner,
            due,
        ),
        Ty::Atom(family, spine) => begin_atom(alloc, env, walk, family, spine, inner, due),
    }
}

/// Begins a quantifier or an arrow.
#[inline(never)]
fn begin_pi(
    alloc: Global,
    env: &ShowEnv,
    walk: &Walk,
    domain: Ty,
    range: Ty,
    inner: u64,
    due: &mut Vec<Due>,
) -> Result<(), AllocError>
    requires canonical { IsCanonicalSignature env.now.sig.now }
    requires context { IsShowableContext (signature_of env.now.sig.now) walk.now.context }
    requires typed { IsShowableType (signature_of env.now.sig.now) walk.now.context (pi (type_of domain) (type_of range)) }
    requires fits { AllFit (signature_of env.now.sig.now) walk.now.context (stacked due.old.items) }
    ensures { OnOk result (Begins (scene_of env.now) walk.now walk.now (of_type (shown_within (scene_of env.now) inner) (scene_of env.now) walk.now.context (pi (type_of domain) (type_of range))) (stacked due.old.items) (stacked due.new.items)) }
{
    let entered = domain.copy(alloc)?;
    push(due, Due::Leave)?;
    push(due, Due::Type(range, inner))?;
    push(due, Due::Enter(entered))?;
    push(due, Due::Type(domain, inner))
}
