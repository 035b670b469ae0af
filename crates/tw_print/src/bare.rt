//! Constants and families whose arguments need no types, since none of these is a lambda.
ghost use Rattle.std.specs.Prelude.{◌≡◌, ◌∷◌, [], OnOk, drop};
ghost use Rattle.lf.specs.Entries.{signature_of};
ghost use Rattle.tw_terms.specs.View.{args_of};
ghost use Rattle.tw_print.specs.Arguments as counts;
ghost use Rattle.tw_print.specs.Due.{AllFit, Begins, stacked};
ghost use Rattle.tw_print.specs.Names as names;
ghost use Rattle.tw_print.specs.Page.{Writes};
ghost use Rattle.tw_print.specs.Pieces.{token};
ghost use Rattle.tw_print.specs.SceneView.{scene_in};
ghost use Rattle.tw_print.specs.Showable.{AreShowable};
ghost use Rattle.tw_print.specs.Shown as layout;

use crate::arguments::bare_arguments;
use crate::due::{Due, push_application, push_bare};
use crate::page::Page;
use crate::scene::Scene;
use std::alloc::{AllocError, Global};
use tw_terms::{ConstId, Term};

/// Begins a constant or a family whose arguments need no types. Its name is looked up once, and is written at once unless it is an operator.
#[inline(never)]
pub fn begin_bare(
    alloc: Global,
    scene: &Scene,
    page: &mut Page,
    id: ConstId,
    args: Vec<Term>,
    inner: u64,
    due: &mut Vec<Due>,
) -> Result<(), AllocError>
    requires shown { AreShowable (signature_of (scene_in scene.now).entries) page.old.context (drop (counts.hidden (scene_in scene.now) id.0) (counts.bare_arguments (args_of args.items))) }
    requires fits { AllFit (signature_of (scene_in scene.now).entries) page.old.context (stacked due.old.items) }
    ensures { OnOk result (Begins (scene_in scene.now) page.old page.new (layout.application (layout.parts (scene_in scene.now) inner) (scene_in scene.now) page.old.context page.old.scope (names.constant_word (scene_in scene.now) id.0) (layout.operator (scene_in scene.now) id.0) (drop (counts.hidden (scene_in scene.now) id.0) (counts.bare_arguments (args_of args.items)))) (stacked due.old.items) (stacked due.new.items)) }
{
    let plain = scene.is_plain(id);
    let operator = scene.operator_by(id, plain);
    if operator.is_some() {
        let word = scene.word_by(alloc, id, plain)?;
        let arguments = bare_arguments(alloc, args)?;
        return push_application(
            scene,
            due,
            word,
            operator,
            arguments,
            scene.hidden(id),
            inner,
        );
    }
    write_constant(alloc, scene, page, id, plain)?;
    push_bare(scene, due, args, scene.hidden(id), inner)
}

/// Writes the name of a constant, between percent signs where it is shadowed.
fn write_constant(
    alloc: Global,
    scene: &Scene,
    page: &mut Page,
    id: ConstId,
    plain: bool,
) -> Result<(), AllocError>
    requires { plain ≡ names.is_plain (scene_in scene.now) id.0 }
    ensures { OnOk result (Writes page.old page.new (token (names.constant_word (scene_in scene.now) id.0) ∷ [])) }
{
    if plain {
        return page.token(scene.name(id));
    }
    let word = scene.word_by(alloc, id, plain)?;
    page.token(&word)
}
