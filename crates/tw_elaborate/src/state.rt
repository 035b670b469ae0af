//! What elaboration has made so far.
ghost use Rattle.std.specs.Prelude.{◌≡◌, []};
ghost use Rattle.lf_elaboration.specs.State.{nothing_yet};
ghost use Rattle.tw_metas.specs.State.{empty_story};
ghost use Rattle.tw_elaborate.specs.View.{made};

use std::alloc::Global;
use tw_metas::{Equation, Store};
use tw_terms::OpenContext;

/// What was made so far: metavariables for what isn't written, each in the empty context and none of them bound; the equations where types were compared, the oldest first;
/// and the types of the variables in scope.
#[derive(Drop)]
pub struct Elaboration {
    pub store: Store,
    pub equations: Vec<Equation>,
    pub locals: OpenContext,
}

impl Elaboration {
    /// Nothing is made yet, and no variable is in scope.
    pub fn new(alloc: Global) -> Elaboration
        ensures made { made result ≡ nothing_yet }
        ensures store { result.store ≡ empty_story }
        ensures locals { result.locals ≡ [] }
    {
        Elaboration {
            store: Store::new(alloc),
            equations: Vec::new(alloc),
            locals: OpenContext::new(alloc),
        }
    }
}
