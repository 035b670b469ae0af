//! Heads and families, their words, operators and arguments.
ghost use Rattle.std.specs.Prelude.{◌≡◌, IfOk, IfSome, false, map, option_map};
ghost use Rattle.lf.specs.Entries.{signature_of, IsCanonicalSignature};
ghost use Rattle.lf.specs.Syntax.{atom, constant, root};
ghost use Rattle.tw_terms.specs.View.{head_of, term_of, spine_of, type_of};
ghost use Rattle.tw_print.specs.ArgumentView.{any_lambda, argument_of};
ghost use Rattle.tw_print.specs.Arguments as counts;
ghost use Rattle.tw_print.specs.Names as names;
ghost use Rattle.tw_print.specs.SceneView.{scene_in};
ghost use Rattle.tw_print.specs.Shown as layout;
ghost use Rattle.tw_print.specs.Showable.{IsShowableContext, IsShowableType, IsShowable};

use crate::arguments::{
    Argument, bare_arguments, family_type, has_lambda, head_type, typed_arguments,
};
use crate::page::Page;
use crate::scene::Scene;
use std::alloc::{AllocError, Global};
use tw_fixity::{Fix, Name};
use tw_terms::{ConstId, Context, Head, Spine, Term, Ty};

/// The arguments of a root. Types are computed only where one of them is a lambda.
#[inline(never)]
pub fn head_arguments(
    alloc: Global,
    scene: &Scene,
    context: &Context,
    head: Head,
    spine: Spine,
) -> Result<Vec<Argument>, AllocError>
    requires canonical { IsCanonicalSignature (scene_in scene.now).entries }
    requires context { IsShowableContext (signature_of (scene_in scene.now).entries) context.now }
    requires typed { IsShowable (signature_of (scene_in scene.now).entries) context.now (root (head_of head) (spine_of spine)) None }
    ensures { IfOk result (λ xs. map argument_of xs.items ≡ counts.arguments (counts.head_type (scene_in scene.now) context.now (head_of head)) (spine_of spine)) }
{
    if !has_lambda(&spine.args) {
        return bare_arguments(alloc, spine.args);
    }
    let ty = head_type(alloc, scene, context, head)?;
    typed_arguments(alloc, scene, context, spine.args, ty)
}

/// The constant at the head of a root, where none of the arguments is a lambda.
pub fn bare_constant(head: Head, spine: &Spine) -> Option<ConstId>
    ensures { IfSome result (λ id. (head_of head ≡ constant id.0) × (any_lambda (spine_of spine.now) ≡ false)) }
{
    if has_lambda(&spine.args) {
        return None;
    }
    match head {
        Head::Const(id) => Some(id),
        Head::Var(_) => None,
    }
}

/// The arguments of a family.
#[inline(never)]
pub fn family_arguments(
    alloc: Global,
    scene: &Scene,
    context: &Context,
    family: ConstId,
    spine: Spine,
) -> Result<Vec<Argument>, AllocError>
    requires canonical { IsCanonicalSignature (scene_in scene.now).entries }
    requires context { IsShowableContext (signature_of (scene_in scene.now).entries) context.now }
    requires typed { IsShowableType (signature_of (scene_in scene.now).entries) context.now (atom family.0 (spine_of spine)) }
    ensures { IfOk result (λ xs. map argument_of xs.items ≡ counts.arguments (counts.family_type (scene_in scene.now) family.0) (spine_of spine)) }
{
    if !has_lambda(&spine.args) {
        return bare_arguments(alloc, spine.args);
    }
    let ty = family_type(alloc, scene, family)?;
    typed_arguments(alloc, scene, context, spine.args, ty)
}

/// The word for a head.
pub fn head_word(
    alloc: Global,
    scene: &Scene,
    page: &Page,
    head: Head,
) -> Result<Vec<u8>, AllocError>
    ensures { IfOk result (λ w. w.items ≡ names.head_word (scene_in scene.now) page.now.scope (head_of head)) }
{
    match head {
        Head::Const(id) => scene.constant_word(alloc, id),
        Head::Var(variable) => Vec::from_slice(alloc, word_in(page.scope.get(variable))),
    }
}

fn word_in(name: Option<&Option<Name>>) -> &[u8]
    ensures { result.now ≡ names.word_in (option_map (λ n. n.now) name.entry) }
{
    match name {
        Some(Some(name)) => name.as_bytes(),
        Some(None) => b"_",
        None => b"_",
    }
}

/// How many of a head's first arguments are hidden.
pub fn head_hidden(scene: &Scene, head: Head) -> usize
    ensures { result ≡ counts.head_hidden (scene_in scene.now) (head_of head) }
{
    match head {
        Head::Const(id) => scene.hidden(id),
        Head::Var(_) => 0,
    }
}

/// The operator as which a head is shown.
pub fn head_operator(scene: &Scene, head: Head) -> Option<Fix>
    ensures { result ≡ layout.head_operator (scene_in scene.now) (head_of head) }
{
    match head {
        Head::Const(id) => scene.operator(id),
        Head::Var(_) => None,
    }
}

/// How many operands an operator takes.
pub fn operand_count(fix: Fix) -> usize
    ensures { result ≡ layout.operand_count fix }
{
    match fix {
        Fix::Infix(_, _) => 2,
        Fix::Prefix(_) | Fix::Postfix(_) => 1,
    }
}

/// Whether a term is a head without shown arguments.
pub fn is_bare(scene: &Scene, term: &Term) -> bool
    ensures { result ≡ layout.is_bare (scene_in scene.now) (term_of term.now) }
{
    match term {
        Term::Lam(_) => false,
        Term::Root(head, spine) => spine.args.len() <= head_hidden(scene, *head),
    }
}

/// Whether a term is a lambda or an application of an operator.
pub fn is_operation(scene: &Scene, term: &Term) -> bool
    ensures { result ≡ layout.is_operation (scene_in scene.now) (term_of term.now) }
{
    match term {
        Term::Lam(_) => true,
        Term::Root(head, spine) => {
            let shown = spine.args.len().saturating_sub(head_hidden(scene, *head));
            has_operands(head_operator(scene, *head), shown)
        }
    }
}

/// Whether so many shown arguments are enough for an operator.
fn has_operands(operator: Option<Fix>, shown: usize) -> bool
    ensures { result ≡ layout.has_operands operator shown }
{
    match operator {
        Some(fix) => operand_count(fix) <= shown,
        None => false,
    }
}

/// Whether a type is a quantifier or an arrow.
pub fn is_quantified(ty: &Ty) -> bool
    ensures { result ≡ layout.quantified_test (type_of ty.now) }
{
    match ty {
        Ty::Pi(_, _) => true,
        Ty::Atom(_, _) => false,
    }
}
