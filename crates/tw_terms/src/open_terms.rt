//! Open terms and types: the canonical ones with metavariables as a third kind of head.
ghost use Rattle.std.specs.Prelude.{◌≡◌, ◌↔◌, ◌-◌, ◌^◌, IsTrue, IfOk, min};
ghost use Rattle.lf.specs.Depth.{depth, spine_depth, type_depth};
ghost use Rattle.tw_terms.specs.OpenView.{open_head_of, open_term_of, open_spine_of, open_type_of};

use crate::canonical::{ConstId, MetaId};
use std::alloc::{AllocError, Global};

/// What stands before the arguments of an open root.
#[derive(Clone, Copy, PartialEq, Eq, Debug)]
pub enum OpenHead {
    Const(ConstId),
    Var(u64),
    Meta(MetaId),
}

/// An open term.
#[cycle(open_term)]
#[derive(Drop, Debug)]
pub enum Open {
    Lam(Box<Open>),
    Root(OpenHead, OpenSpine),
}

/// The arguments of an open head, the first one first.
#[cycle(open_term)]
#[derive(Drop, Debug)]
pub struct OpenSpine {
    pub args: Vec<Open>,
}

/// An open type.
#[derive(Drop, Debug)]
pub enum OpenTy {
    Pi(Box<OpenTy>, Box<OpenTy>),
    Atom(ConstId, OpenSpine),
}

impl OpenHead {
    /// Whether both are the same constant, the same variable or the same metavariable.
    pub fn same(self, other: OpenHead) -> bool
        ensures { IsTrue result ↔ (open_head_of self ≡ open_head_of other) }
    {
        match (self, other) {
            (OpenHead::Const(a), OpenHead::Const(b)) => a.0 == b.0,
            (OpenHead::Var(i), OpenHead::Var(j)) => i == j,
            (OpenHead::Meta(m), OpenHead::Meta(n)) => m.0 == n.0,
            _ => false,
        }
    }
}

impl Open {
    /// An equal open term. Fails only for want of memory.
    #[cycle(copy)]
    pub fn copy(&self, alloc: Global) -> Result<Open, AllocError>
        ensures { IfOk result (λ m. open_term_of m ≡ open_term_of self.now) }
    {
        match self {
            Open::Lam(body) => Ok(Open::Lam(Box::new(alloc, body.copy(alloc)?)?)),
            Open::Root(head, spine) => Ok(Open::Root(*head, spine.copy(alloc)?)),
        }
    }

    /// Whether both are the same open term.
    #[cycle(same)]
    pub fn same(&self, other: &Open) -> bool
        ensures { IsTrue result ↔ (open_term_of self.now ≡ open_term_of other.now) }
    {
        match (self, other) {
            (Open::Lam(a), Open::Lam(b)) => a.same(b),
            (Open::Root(h, s), Open::Root(k, u)) => h.same(*k) && s.same(u),
            _ => false,
        }
    }

    /// How many `Lam` and `Root` are nested, which is 1 for a head alone.
    #[cycle(depth)]
    pub fn depth(&self) -> u32
        ensures { result ≡ min (depth (open_term_of self.now)) (2 ^ 32 - 1) }
    {
        match self {
            Open::Lam(body) => body.depth().saturating_add(1),
            Open::Root(_, spine) => spine.depth().saturating_add(1),
        }
    }
}

impl OpenSpine {
    /// An equal open spine. Fails only for want of memory.
    #[cycle(copy)]
    pub fn copy(&self, alloc: Global) -> Result<OpenSpine, AllocError>
        ensures { IfOk result (λ s. open_spine_of s ≡ open_spine_of self.now) }
    {
        let mut args = Vec::with_capacity(alloc, self.args.len())?;
        for arg in &self.args {
            args.push(arg.copy(alloc)?)?;
        }
        Ok(OpenSpine { args })
    }

    /// Whether both have the same arguments.
    #[cycle(same)]
    pub fn same(&self, other: &OpenSpine) -> bool
        ensures { IsTrue result ↔ (open_spine_of self.now ≡ open_spine_of other.now) }
    {
        if self.args.len() != other.args.len() {
            return false;
        }
        for (arg, other_arg) in self.args.iter().zip(&other.args) {
            if !arg.same(other_arg) {
                return false;
            }
        }
        true
    }

    /// The depth of the deepest argument, which is 0 where there is none.
    #[cycle(depth)]
    pub fn depth(&self) -> u32
        ensures { result ≡ min (spine_depth (open_spine_of self.now)) (2 ^ 32 - 1) }
    {
        let mut deepest = 0;
        for arg in &self.args {
            deepest = arg.depth().max(deepest);
        }
        deepest
    }
}

#[tactic(auto, using(crate::proofs::OpenArgs::open_types))]
impl OpenTy {
    /// An equal open type. Fails only for want of memory.
    pub fn copy(&self, alloc: Global) -> Result<OpenTy, AllocError>
        ensures { IfOk result (λ a. open_type_of a ≡ open_type_of self.now) }
    {
        match self {
            OpenTy::Pi(domain, range) => {
                let domain = Box::new(alloc, domain.copy(alloc)?)?;
                Ok(OpenTy::Pi(domain, Box::new(alloc, range.copy(alloc)?)?))
            }
            OpenTy::Atom(family, spine) => Ok(OpenTy::Atom(*family, spine.copy(alloc)?)),
        }
    }

    /// Whether both are the same open type.
    pub fn same(&self, other: &OpenTy) -> bool
        ensures { IsTrue result ↔ (open_type_of self.now ≡ open_type_of other.now) }
    {
        match (self, other) {
            (OpenTy::Pi(a, b), OpenTy::Pi(c, d)) => a.same(c) && b.same(d),
            (OpenTy::Atom(a, s), OpenTy::Atom(b, u)) => a.0 == b.0 && s.same(u),
            _ => false,
        }
    }

    /// How many `Pi`, `Atom`, `Lam` and `Root` are nested, which is 1 for a family alone.
    pub fn depth(&self) -> u32
        ensures { result ≡ min (type_depth (open_type_of self.now)) (2 ^ 32 - 1) }
    {
        match self {
            OpenTy::Pi(domain, range) => domain.depth().max(range.depth()).saturating_add(1),
            OpenTy::Atom(_, spine) => spine.depth().saturating_add(1),
        }
    }
}
