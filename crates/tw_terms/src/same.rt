//! Whether two values are spelled alike.
ghost use Rattle.std.specs.Prelude.{◌≡◌, ◌↔◌, IsTrue};
ghost use Rattle.tw_terms.specs.View.{head_of, term_of, spine_of, type_of, kind_of, skeleton_of};

use crate::canonical::{Head, Kind, Skeleton, Spine, Term, Ty};

#[tactic(auto, using(crate::proofs::Args::spines))]
impl Head {
    /// Whether both are the same constant or the same variable.
    pub fn same(self, other: Head) -> bool
        ensures { IsTrue result ↔ (head_of self ≡ head_of other) }
    {
        match (self, other) {
            (Head::Const(a), Head::Const(b)) => a.0 == b.0,
            (Head::Var(i), Head::Var(j)) => i == j,
            _ => false,
        }
    }
}

#[tactic(auto, using(crate::proofs::Args::spines))]
impl Term {
    /// Whether both are the same term.
    #[cycle(same)]
    pub fn same(&self, other: &Term) -> bool
        ensures { IsTrue result ↔ (term_of self.now ≡ term_of other.now) }
    {
        match (self, other) {
            (Term::Lam(a), Term::Lam(b)) => a.same(b),
            (Term::Root(h, s), Term::Root(k, u)) => h.same(*k) && s.same(u),
            _ => false,
        }
    }
}

#[tactic(auto, using(crate::proofs::Args::spines))]
impl Spine {
    /// Whether both have the same arguments.
    #[cycle(same)]
    pub fn same(&self, other: &Spine) -> bool
        ensures { IsTrue result ↔ (spine_of self.now ≡ spine_of other.now) }
    {
        if self.args.len() != other.args.len() {
            return false;
        }
        for (arg, other_arg) in self.args.iter().zip(&other.args) {
            if !arg.same(other_arg) {
                return false;
            }
        }
        true
    }
}

#[tactic(auto, using(crate::proofs::Args::types))]
impl Ty {
    /// Whether both are the same type.
    pub fn same(&self, other: &Ty) -> bool
        ensures { IsTrue result ↔ (type_of self.now ≡ type_of other.now) }
    {
        match (self, other) {
            (Ty::Pi(a, b), Ty::Pi(c, d)) => a.same(c) && b.same(d),
            (Ty::Atom(a, s), Ty::Atom(b, u)) => a.0 == b.0 && s.same(u),
            _ => false,
        }
    }
}

#[tactic(auto, using(crate::proofs::Args::types))]
impl Kind {
    /// Whether both are the same kind.
    pub fn same(&self, other: &Kind) -> bool
        ensures { IsTrue result ↔ (kind_of self.now ≡ kind_of other.now) }
    {
        match (self, other) {
            (Kind::Pi(a, b), Kind::Pi(c, d)) => a.same(c) && b.same(d),
            (Kind::Star, Kind::Star) => true,
            _ => false,
        }
    }
}

#[tactic(auto, using(crate::proofs::Args::skeletons))]
impl Skeleton {
    /// Whether both are the same skeleton.
    pub fn same(&self, other: &Skeleton) -> bool
        ensures { IsTrue result ↔ (skeleton_of self.now ≡ skeleton_of other.now) }
    {
        match (self, other) {
            (Skeleton::Base(a), Skeleton::Base(b)) => a.0 == b.0,
            (Skeleton::Arrow(a, b), Skeleton::Arrow(c, d)) => a.same(c) && b.same(d),
            _ => false,
        }
    }
}
