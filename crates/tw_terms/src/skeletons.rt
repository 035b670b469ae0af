//! Types without their indices, and the family at the end of a type.
ghost use Rattle.std.specs.Prelude.{◌≡◌, IfOk};
ghost use Rattle.lf.specs.Syntax.{skeleton as skeleton_of_type};
ghost use Rattle.lf.specs.Variables.{target as target_of_type};
ghost use Rattle.tw_terms.specs.View.{type_of, skeleton_of};

use crate::canonical::{ConstId, Skeleton, Ty};
use std::alloc::{AllocError, Global};

/// The skeleton of a type. Fails only for want of memory.
pub fn skeleton(alloc: Global, ty: &Ty) -> Result<Skeleton, AllocError>
    ensures { IfOk result (λ s. skeleton_of s ≡ skeleton_of_type (type_of ty.now)) }
{
    match ty {
        Ty::Pi(domain, range) => {
            let domain = Box::new(alloc, skeleton(alloc, domain)?)?;
            Ok(Skeleton::Arrow(domain, Box::new(alloc, skeleton(alloc, range)?)?))
        }
        Ty::Atom(family, _) => Ok(Skeleton::Base(*family)),
    }
}

/// The family at the end of a type.
pub fn target(ty: &Ty) -> ConstId
    ensures { result.0 ≡ target_of_type (type_of ty.now) }
{
    match ty {
        Ty::Pi(_, range) => target(range),
        Ty::Atom(family, _) => *family,
    }
}
