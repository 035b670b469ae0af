//! An equation that is left, as it can be shown.
ghost use Rattle.std.specs.Prelude.{◌≡◌, IfOk, map};
ghost use Rattle.tw_metas.specs.Named.{shown_type_of};
ghost use Rattle.tw_metas.specs.View.{equation_of};

use crate::equation::Equation;
use std::alloc::{AllocError, Global};
use tw_fixity::{Name, copy_options};
use tw_terms::{OpenContext, OpenTy};

/// An equation that can be shown. In it `Meta(k)` is the metavariable `k` of `metas`, counted from 0, also in types.
#[derive(Debug, Drop)]
pub struct LeftEquation {
    /// The contexts and types of the metavariables.
    pub metas: Vec<(OpenContext, OpenTy)>,
    /// For each metavariable the name to show it by, if it has one.
    pub names: Vec<Option<Name>>,
    pub equation: Equation,
}

impl LeftEquation {
    /// An equal one. Fails only for want of memory.
    pub fn copy(&self, alloc: Global) -> Result<LeftEquation, AllocError>
        ensures metas { IfOk result (λ l. map shown_type_of l.metas.items ≡ map shown_type_of self.now.metas.items) }
        ensures names { IfOk result (λ l. l.names.items ≡ self.now.names.items) }
        ensures equation { IfOk result (λ l. equation_of l.equation ≡ equation_of self.now.equation) }
    {
        Ok(LeftEquation {
            metas: copy_types(alloc, &self.metas)?,
            names: copy_options(alloc, &self.names)?,
            equation: self.equation.copy(alloc)?,
        })
    }
}

fn copy_types(
    alloc: Global,
    types: &[(OpenContext, OpenTy)],
) -> Result<Vec<(OpenContext, OpenTy)>, AllocError>
    ensures { IfOk result (λ v. map shown_type_of v.items ≡ map shown_type_of types.now) }
{
    let mut copies = Vec::with_capacity(alloc, types.len())?;
    for (context, ty) in types {
        let context = context.copy(alloc)?;
        copies.push((context, ty.copy(alloc)?))?;
    }
    Ok(copies)
}
