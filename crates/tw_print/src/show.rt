//! The texts of terms, types and declarations.
ghost use Rattle.std.specs.Prelude.{◌≡◌, ◌<◌, IfOk, length};
ghost use Rattle.lf.specs.Entries.{signature_of, BodyIsTyped, IsCanonicalEntry, IsCanonicalSignature};
ghost use Rattle.lf.specs.Typing.{HasType, IsType, IsContext};
ghost use Rattle.tw_terms.specs.View.{term_of, type_of};
ghost use Rattle.tw_signature.specs.View.{entry_of};
ghost use Rattle.std.specs.FinMap as map;
ghost use Rattle.lf.specs.Syntax.{skeleton};
ghost use Rattle.tw_print.specs.Names.{fresh_name, lower_base, upper_of};
ghost use Rattle.tw_print.specs.Showable.{HasSkeleton, IsShowableContext, IsShowableType};
ghost use Rattle.tw_print.specs.Shown.{equal_text, line_of, declaration_line, scene_after, type_text, term_text, term_text_in};
ghost use Rattle.tw_print.specs.SceneView.{scene_in, with_newest};
ghost use Rattle.tw_print.specs.ShowEnv.{scene_of};

use crate::context::page_in;
use crate::declaration::print_declaration;
use crate::fresh;
use crate::levels::all_levels;
use crate::names::Names;
use crate::page::Page;
use crate::print::{print_term, print_type};
use crate::scene::Scene;
use std::alloc::{AllocError, Global};
use tw_fixity::{FixTable, Name, Scope};
use tw_signature::{Entry, Signature};
use tw_terms::{ConstId, Context, Term, Ty};

/// What a text depends on beside the value that is shown.
#[derive(Clone, Copy)]
pub struct ShowEnv<'a> {
    pub sig: &'a Signature,
    pub fixities: &'a FixTable,
    pub names: &'a Names,
    /// Whether implicit arguments are shown; operators are then shown as plain heads.
    pub implicit: bool,
}

impl<'a> ShowEnv<'a> {
    /// The scene, where this entry is about to be added.
    pub(crate) fn scene(self, newest: Option<&'a Entry>) -> Scene<'a>
        ensures { scene_in result ≡ with_newest (scene_of self.entry) newest.entry }
    {
        Scene {
            signature: self.sig,
            fixities: self.fixities,
            names: self.names,
            implicit: self.implicit,
            newest,
        }
    }
}

impl<'a> ShowEnv<'a> {
    /// The first of a base and the base followed by 1, 2, 3 and so on that isn't taken.
    pub fn fresh_name(self, alloc: Global, scope: &Scope, base: &[u8]) -> Result<Name, AllocError>
        ensures { IfOk result (λ n. n ≡ fresh_name (scene_of self.entry) scope.now base.now) }
    {
        let scene = self.scene(None);
        fresh::fresh_name(alloc, &scene, scope, base)
    }

    /// The base of a variable of this type: the lowercase preference of the target family, else `x`.
    pub fn lower_base(self, ty: &Ty) -> &'a [u8]
        ensures { result.now ≡ lower_base (scene_of self.entry) (type_of ty.now) }
    {
        let scene = self.scene(None);
        scene.lower_base(ty)
    }

    /// The base of an implicit quantifier whose type has this target family: its uppercase preference, else `X`.
    pub fn upper_base(self, family: ConstId) -> &'a [u8]
        ensures { result.now ≡ upper_of (map.get (scene_of self.entry).names family.0) }
    {
        let scene = self.scene(None);
        scene.preferred_upper(family)
    }
}

/// The text `M = N` of two terms of a type, in a context whose variables have these names. Fails only for want of memory, and where the
/// type of a lambda comes out deeper than 8,192, which the machine's stack would not hold.
pub fn show_equal(
    alloc: Global,
    env: &ShowEnv,
    context: Context,
    names: Scope,
    left: &Term,
    right: &Term,
    ty: &Ty,
) -> Result<Vec<u8>, AllocError>
    requires context { IsShowableContext (signature_of env.now.sig.now) context }
    requires ty { IsShowableType (signature_of env.now.sig.now) context (type_of ty.now) }
    requires left { HasSkeleton (signature_of env.now.sig.now) context (term_of left.now) (skeleton (type_of ty.now)) }
    requires right { HasSkeleton (signature_of env.now.sig.now) context (term_of right.now) (skeleton (type_of ty.now)) }
    ensures { IfOk result (λ t. t.items ≡ equal_text (scene_of env.now) context names (term_of left.now) (term_of right.now) (type_of ty.now)) }
{
    env.sig.is_canonical();
    let scene = env.scene(None);
    let mut page = Page {
        out: Vec::new(alloc),
        context,
        scope: names,
    };
    print_term(alloc, &scene, &mut page, left, Some(ty), all_levels())?;
    page.space()?;
    page.token(b"=")?;
    page.space()?;
    print_term(alloc, &scene, &mut page, right, Some(ty), all_levels())?;
    Ok(page.out)
}

/// The text of a term at its type. Fails only for want of memory, and where the type of a lambda comes out deeper than 8,192, which the machine's stack would not hold.
pub fn show_term(
    alloc: Global,
    env: &ShowEnv,
    context: &Context,
    term: &Term,
    ty: &Ty,
) -> Result<Vec<u8>, AllocError>
    requires context { IsContext (signature_of env.now.sig.now) context.now }
    requires ty { IsType (signature_of env.now.sig.now) context.now (type_of ty.now) }
    requires term { HasType (signature_of env.now.sig.now) context.now (term_of term.now) (type_of ty.now) }
    ensures { IfOk result (λ t. t.items ≡ term_text (scene_of env.now) context.now (term_of term.now) (type_of ty.now)) }
{
    env.sig.is_canonical();
    let scene = env.scene(None);
    let mut page = page_in(alloc, &scene, context)?;
    print_term(alloc, &scene, &mut page, term, Some(ty), all_levels())?;
    Ok(page.out)
}

/// The text of a term at its type, in a context whose variables have these names. One without a name is shown as `_`. Fails only for want of memory.
pub fn show_term_in_scope(
    alloc: Global,
    env: &ShowEnv,
    context: Context,
    names: Scope,
    term: &Term,
    ty: &Ty,
) -> Result<Vec<u8>, AllocError>
    requires context { IsShowableContext (signature_of env.now.sig.now) context }
    requires ty { IsShowableType (signature_of env.now.sig.now) context (type_of ty.now) }
    requires term { HasSkeleton (signature_of env.now.sig.now) context (term_of term.now) (skeleton (type_of ty.now)) }
    ensures { IfOk result (λ t. t.items ≡ term_text_in (scene_of env.now) context names (term_of term.now) (type_of ty.now)) }
{
    env.sig.is_canonical();
    let scene = env.scene(None);
    let mut page = Page {
        out: Vec::new(alloc),
        context,
        scope: names,
    };
    print_term(alloc, &scene, &mut page, term, Some(ty), all_levels())?;
    Ok(page.out)
}

/// The text of a type. Fails only for want of memory, and where the type of a lambda comes out deeper than 8,192, which the machine's stack would not hold.
pub fn show_type(
    alloc: Global,
    env: &ShowEnv,
    context: &Context,
    ty: &Ty,
) -> Result<Vec<u8>, AllocError>
    requires context { IsContext (signature_of env.now.sig.now) context.now }
    requires ty { IsType (signature_of env.now.sig.now) context.now (type_of ty.now) }
    ensures { IfOk result (λ t. t.items ≡ type_text (scene_of env.now) context.now (type_of ty.now)) }
{
    env.sig.is_canonical();
    let scene = env.scene(None);
    let mut page = page_in(alloc, &scene, context)?;
    print_type(alloc, &scene, &mut page, ty, all_levels())?;
    Ok(page.out)
}

/// The line of a declared entry, without a line feed. Fails only for want of memory.
pub fn show_decl(alloc: Global, env: &ShowEnv, id: ConstId) -> Result<Vec<u8>, AllocError>
    requires { id.0 < length env.now.sig.now }
    ensures { IfOk result (λ t. t.items ≡ line_of (scene_of env.now) id.0) }
{
    env.sig.is_canonical();
    let scene = env.scene(None);
    match env.sig.entry(id) {
        Some(entry) => line(alloc, &scene, entry),
        None => unreachable!(),
    }
}

/// The line of an entry that is about to be added, as `show_decl` gives it once the entry is added and the row of its name has left
/// the table of operators. What is named `_` isn't added, and its line is that over the signature as it is. Fails only for want of memory.
pub fn show_entry(alloc: Global, env: &ShowEnv, entry: &Entry) -> Result<Vec<u8>, AllocError>
    requires { IsCanonicalEntry (signature_of env.now.sig.now) (entry_of entry.now) }
    ensures { IfOk result (λ t. t.items ≡ declaration_line (scene_after (scene_of env.now) (entry_of entry.now)) (entry_of entry.now)) }
{
    env.sig.is_canonical();
    if entry.name.as_bytes() == b"_".as_slice() {
        let scene = env.scene(None);
        return line(alloc, &scene, entry);
    }
    let scene = env.scene(Some(entry));
    line(alloc, &scene, entry)
}

/// The line of an entry in a scene.
fn line(alloc: Global, scene: &Scene, entry: &Entry) -> Result<Vec<u8>, AllocError>
    requires canonical { IsCanonicalSignature (scene_in scene.now).entries }
    requires typed { BodyIsTyped (signature_of (scene_in scene.now).entries) (entry_of entry.now).body }
    ensures { IfOk result (λ t. t.items ≡ declaration_line (scene_in scene.now) (entry_of entry.now)) }
{
    let mut page = Page::new(alloc);
    print_declaration(alloc, scene, &mut page, entry)?;
    Ok(page.out)
}
