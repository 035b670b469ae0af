//! Copies: a copy is an equal value.
ghost use Rattle.std.specs.Prelude.{◌≡◌, IfOk};
ghost use Rattle.tw_terms.specs.View.{term_of, spine_of, type_of, kind_of, skeleton_of};

use crate::canonical::{Kind, Skeleton, Spine, Term, Ty};
use std::alloc::{AllocError, Global};

#[tactic(auto, using(crate::proofs::Args::spines))]
impl Term {
    /// An equal term. Fails only for want of memory.
    #[cycle(copy)]
    pub fn copy(&self, alloc: Global) -> Result<Term, AllocError>
        ensures { IfOk result (λ m. term_of m ≡ term_of self.now) }
    {
        match self {
            Term::Lam(body) => Ok(Term::Lam(Box::new(alloc, body.copy(alloc)?)?)),
            Term::Root(head, spine) => Ok(Term::Root(*head, spine.copy(alloc)?)),
        }
    }
}

#[tactic(auto, using(crate::proofs::Args::spines))]
impl Spine {
    /// An equal spine. Fails only for want of memory.
    #[cycle(copy)]
    pub fn copy(&self, alloc: Global) -> Result<Spine, AllocError>
        ensures { IfOk result (λ s. spine_of s ≡ spine_of self.now) }
    {
        let mut args = Vec::with_capacity(alloc, self.args.len())?;
        for arg in &self.args {
            args.push(arg.copy(alloc)?)?;
        }
        Ok(Spine { args })
    }
}

#[tactic(auto, using(crate::proofs::Args::types))]
impl Ty {
    /// An equal type. Fails only for want of memory.
    pub fn copy(&self, alloc: Global) -> Result<Ty, AllocError>
        ensures { IfOk result (λ a. type_of a ≡ type_of self.now) }
    {
        match self {
            Ty::Pi(domain, range) => {
                let domain = Box::new(alloc, domain.copy(alloc)?)?;
                Ok(Ty::Pi(domain, Box::new(alloc, range.copy(alloc)?)?))
            }
            Ty::Atom(family, spine) => Ok(Ty::Atom(*family, spine.copy(alloc)?)),
        }
    }
}

#[tactic(auto, using(crate::proofs::Args::types))]
impl Kind {
    /// An equal kind. Fails only for want of memory.
    pub fn copy(&self, alloc: Global) -> Result<Kind, AllocError>
        ensures { IfOk result (λ k. kind_of k ≡ kind_of self.now) }
    {
        match self {
            Kind::Pi(domain, range) => {
                let domain = Box::new(alloc, domain.copy(alloc)?)?;
                Ok(Kind::Pi(domain, Box::new(alloc, range.copy(alloc)?)?))
            }
            Kind::Star => Ok(Kind::Star),
        }
    }
}

#[tactic(auto, using(crate::proofs::Args::skeletons))]
impl Skeleton {
    /// An equal skeleton. Fails only for want of memory.
    pub fn copy(&self, alloc: Global) -> Result<Skeleton, AllocError>
        ensures { IfOk result (λ s. skeleton_of s ≡ skeleton_of self.now) }
    {
        match self {
            Skeleton::Base(family) => Ok(Skeleton::Base(*family)),
            Skeleton::Arrow(domain, range) => {
                let domain = Box::new(alloc, domain.copy(alloc)?)?;
                Ok(Skeleton::Arrow(domain, Box::new(alloc, range.copy(alloc)?)?))
            }
        }
    }
}
