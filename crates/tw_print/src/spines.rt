//! The arguments of heads, for a pass that goes through a text as it is shown.
ghost use Rattle.std.specs.Prelude.{◌≡◌, IfOk, None, map};
ghost use Rattle.lf.specs.Entries.{IsCanonicalSignature, signature_of};
ghost use Rattle.lf.specs.Syntax.{atom, root};
ghost use Rattle.tw_terms.specs.View.{head_of, spine_of};
ghost use Rattle.tw_print.specs.ArgumentView.{argument_of};
ghost use Rattle.tw_print.specs.Arguments as counts;
ghost use Rattle.tw_print.specs.ShowEnv.{scene_of};
ghost use Rattle.tw_print.specs.Showable.{IsShowable, IsShowableContext, IsShowableType};

use crate::arguments::Argument;
use crate::heads;
use crate::show::ShowEnv;
use std::alloc::{AllocError, Global};
use tw_terms::{ConstId, Context, Head, Spine};

impl<'a> ShowEnv<'a> {
    /// The arguments of a root, with their types where these are shown.
    pub fn head_arguments(
        self,
        alloc: Global,
        context: &Context,
        head: Head,
        spine: Spine,
    ) -> Result<Vec<Argument>, AllocError>
        requires canonical { IsCanonicalSignature self.sig.now }
        requires context { IsShowableContext (signature_of self.sig.now) context.now }
        requires typed { IsShowable (signature_of self.sig.now) context.now (root (head_of head) (spine_of spine)) None }
        ensures { IfOk result (λ xs. map argument_of xs.items ≡ counts.arguments (counts.head_type (scene_of self.entry) context.now (head_of head)) (spine_of spine)) }
    {
        let scene = self.scene(None);
        heads::head_arguments(alloc, &scene, context, head, spine)
    }

    /// The same of a family.
    pub fn family_arguments(
        self,
        alloc: Global,
        context: &Context,
        family: ConstId,
        spine: Spine,
    ) -> Result<Vec<Argument>, AllocError>
        requires canonical { IsCanonicalSignature self.sig.now }
        requires context { IsShowableContext (signature_of self.sig.now) context.now }
        requires typed { IsShowableType (signature_of self.sig.now) context.now (atom family.0 (spine_of spine)) }
        ensures { IfOk result (λ xs. map argument_of xs.items ≡ counts.arguments (counts.family_type (scene_of self.entry) family.0) (spine_of spine)) }
    {
        let scene = self.scene(None);
        heads::family_arguments(alloc, &scene, context, family, spine)
    }

    /// How many of a head's first arguments are hidden.
    pub fn head_hidden(self, head: Head) -> usize
        ensures { result ≡ counts.head_hidden (scene_of self.entry) (head_of head) }
    {
        let scene = self.scene(None);
        heads::head_hidden(&scene, head)
    }

    /// The same of a family.
    pub fn hidden(self, family: ConstId) -> usize
        ensures { result ≡ counts.hidden (scene_of self.entry) family.0 }
    {
        let scene = self.scene(None);
        scene.hidden(family)
    }
}
