//! The entries of a signature. Contracts see an entry as the plain one of the crate `lf`, through the views in `specs/View.antt`.
ghost use Rattle.std.specs.Prelude.{◌≡◌, IfOk, option_map};
ghost use Rattle.lf.specs.Constants.{family_of as family_of_body};
ghost use Rattle.tw_signature.specs.Kept.{marks_of};
ghost use Rattle.tw_signature.specs.View.{body_of, entry_of};

use crate::shape::shape_of;
use std::alloc::{AllocError, Global};
use tw_fixity::{Name, copy_options};
use tw_terms::{ConstId, Kind, Term, Ty, target};

/// What an entry declares or defines.
#[derive(Debug, Drop)]
pub enum Body {
    /// A family of this kind.
    Family(Kind),
    /// A constant of this type.
    Constant(Ty),
    /// A definition: a term, its type, and whether it is an abbreviation.
    Defined { term: Term, ty: Ty, abbrev: bool },
}

/// A declaration or definition under its name.
#[derive(Debug, Drop)]
pub struct Entry {
    pub name: Name,
    pub body: Body,
    /// How many of the leading quantifiers are implicit.
    pub implicit: u32,
    /// For each leading quantifier the name to show it by, if it has one.
    pub hints: Vec<Option<Name>>,
}

#[tactic(auto, using(tw_terms::proofs::Args::types))]
impl Body {
    /// The family of a declared constant: the target of its type.
    pub fn family(&self) -> Option<ConstId>
        ensures { option_map (λ f. f.0) result ≡ family_of_body (body_of self.now) }
    {
        match self {
            Body::Constant(ty) => Some(target(ty)),
            Body::Family(_) | Body::Defined { .. } => None,
        }
    }

    /// For each leading quantifier of a declared constant's type, the outermost first, whether it is a variable; a family and a definition have no marks. Fails only for want of memory.
    pub(crate) fn marks(&self, alloc: Global) -> Result<Vec<bool>, AllocError>
        ensures { IfOk result (λ marks. marks.items ≡ marks_of (body_of self.now)) }
    {
        match self {
            Body::Constant(ty) => shape_of(alloc, ty),
            Body::Family(_) | Body::Defined { .. } => Ok(Vec::new(alloc)),
        }
    }

    /// An equal body. Fails only for want of memory.
    pub fn copy(&self, alloc: Global) -> Result<Body, AllocError>
        ensures { IfOk result (λ b. body_of b ≡ body_of self.now) }
    {
        match self {
            Body::Family(kind) => Ok(Body::Family(kind.copy(alloc)?)),
            Body::Constant(ty) => Ok(Body::Constant(ty.copy(alloc)?)),
            Body::Defined { term, ty, abbrev } => Ok(Body::Defined {
                term: term.copy(alloc)?,
                ty: ty.copy(alloc)?,
                abbrev: *abbrev,
            }),
        }
    }
}

impl Entry {
    /// An equal entry. Fails only for want of memory.
    pub fn copy(&self, alloc: Global) -> Result<Entry, AllocError>
        ensures { IfOk result (λ e. entry_of e ≡ entry_of self.now) }
    {
        Ok(Entry {
            name: self.name.copy(alloc)?,
            body: self.body.copy(alloc)?,
            implicit: self.implicit,
            hints: copy_options(alloc, &self.hints)?,
        })
    }
}
