//! How deep a value is nested. A depth of 2 ^ 32 - 1 or more is given as 2 ^ 32 - 1.
ghost use Rattle.std.specs.Prelude.{◌≡◌, ◌-◌, ◌^◌, min};
ghost use Rattle.lf.specs.Depth.{depth, spine_depth, type_depth, kind_depth};
ghost use Rattle.tw_terms.specs.View.{term_of, spine_of, type_of, kind_of};

use crate::canonical::{Kind, Spine, Term, Ty};

/// The greatest depth of a term, type or kind that is kept or given.
pub const DEPTH_LIMIT: u32 = 4_096;

#[tactic(auto, using(crate::proofs::Args::spines))]
impl Term {
    /// How many `Lam` and `Root` are nested, which is 1 for a head alone.
    #[cycle(depth)]
    pub fn depth(&self) -> u32
        ensures { result ≡ min (depth (term_of self.now)) (2 ^ 32 - 1) }
    {
        match self {
            Term::Lam(body) => body.depth().saturating_add(1),
            Term::Root(_, spine) => spine.depth().saturating_add(1),
        }
    }
}

#[tactic(auto, using(crate::proofs::Args::spines))]
impl Spine {
    /// The depth of the deepest argument, which is 0 where there is none.
    #[cycle(depth)]
    pub fn depth(&self) -> u32
        ensures { result ≡ min (spine_depth (spine_of self.now)) (2 ^ 32 - 1) }
    {
        let mut deepest = 0;
        for arg in &self.args {
            deepest = arg.depth().max(deepest);
        }
        deepest
    }
}

#[tactic(auto, using(crate::proofs::Args::types))]
impl Ty {
    /// How many `Pi`, `Atom`, `Lam` and `Root` are nested, which is 1 for a family alone.
    pub fn depth(&self) -> u32
        ensures { result ≡ min (type_depth (type_of self.now)) (2 ^ 32 - 1) }
    {
        match self {
            Ty::Pi(domain, range) => domain.depth().max(range.depth()).saturating_add(1),
            Ty::Atom(_, spine) => spine.depth().saturating_add(1),
        }
    }
}

#[tactic(auto, using(crate::proofs::Args::types))]
impl Kind {
    /// The same with a kind's own `Pi`, which is 1 for `Star`.
    pub fn depth(&self) -> u32
        ensures { result ≡ min (kind_depth (kind_of self.now)) (2 ^ 32 - 1) }
    {
        match self {
            Kind::Pi(domain, range) => domain.depth().max(range.depth()).saturating_add(1),
            Kind::Star => 1,
        }
    }
}
