//! The names of the variables of a context.
ghost use Rattle.std.specs.Prelude.{◌≡◌, IfOk, []};
ghost use Rattle.tw_print.specs.SceneView.{scene_in};
ghost use Rattle.tw_print.specs.Shown.{context_names};

use crate::fresh::fresh_name;
use crate::page::Page;
use crate::scene::Scene;
use std::alloc::{AllocError, Global};
use tw_terms::Context;

/// A blank page in this context, whose variables get names, the outermost first.
pub fn page_in(alloc: Global, scene: &Scene, context: &Context) -> Result<Page, AllocError>
    ensures out { IfOk result (λ p. p.out.items ≡ []) }
    ensures context { IfOk result (λ p. p.context ≡ context.now) }
    ensures scope { IfOk result (λ p. p.scope ≡ context_names (scene_in scene.now) context.now) }
{
    let mut page = Page::new(alloc);
    let count = context.len();
    for outside in 0..count {
        let ty = context.get((count - 1 - outside) as u64).unwrap();
        let name = fresh_name(alloc, scene, &page.scope, scene.lower_base(ty))?;
        page.enter(alloc, ty, Some(name))?;
    }
    Ok(page)
}
