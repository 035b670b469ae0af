//! Where a term stands.
ghost use Rattle.std.specs.Prelude.{◌≡◌, ◌≤◌, ◌+◌, suc, length, IfOk};
ghost use Rattle.lf.specs.Variables.{hide, under};
ghost use Rattle.tw_mode.specs.Scopes.{bound_in, fixed_in};

use crate::head::sum;
use std::alloc::AllocError;
use tw_terms::numbers::one_more;

/// The variables in scope. The newest are bound inside the place that is looked at; of the others some are fixed, by marks, the outermost first.
#[derive(Clone, Copy)]
pub struct Scope<'a> {
    pub fixed: &'a [bool],
    pub depth: u64,
    pub bound: u64,
}

/// The scope under one more bound variable. Fails where no context in memory is so long.
pub fn inside<'a>(scope: &Scope<'a>) -> Result<Scope<'a>, AllocError>
    requires { length scope.now.fixed.now ≤ scope.now.depth }
    ensures depth { IfOk result (λ s. s.depth ≡ suc scope.now.depth) }
    ensures covers { IfOk result (λ s. length s.fixed.now ≤ s.depth) }
    ensures bound { IfOk result (λ s. bound_in s ≡ under (bound_in scope.now)) }
    ensures fixed { IfOk result (λ s. fixed_in s ≡ hide (fixed_in scope.now)) }
{
    Ok(Scope {
        fixed: scope.fixed,
        depth: one_more(scope.depth)?,
        bound: one_more(scope.bound)?,
    })
}

/// The scope under so many more bound variables. Fails where no context in memory is so long.
pub fn within<'a>(scope: &Scope<'a>, more: u64) -> Result<Scope<'a>, AllocError>
    ensures depth { IfOk result (λ s. s.depth ≡ scope.now.depth + more) }
    ensures bound { IfOk result (λ s. s.bound ≡ scope.now.bound + more) }
    ensures fixed { IfOk result (λ s. s.fixed.now ≡ scope.now.fixed.now) }
{
    Ok(Scope {
        fixed: scope.fixed,
        depth: sum(scope.depth, more)?,
        bound: sum(scope.bound, more)?,
    })
}
