//! The first subgoal of a clause that doesn't pass.
ghost use Rattle.std.specs.Prelude.{◌≡◌, ◌<◌, ◌↔◌, ℕ, Bool, length, IfOk, IsErrOf, IsTrue};
ghost use Rattle.lf.specs.Entries.{signature_of};
ghost use Rattle.lf.specs.Syntax.{LfType};
ghost use Rattle.lf.specs.Typing.{IsContext, IsSignature, IsType, TypeAt};
ghost use Rattle.lf.specs.Variables.{everything};
ghost use Rattle.lf_checks.specs.Clause.{is_variable};
ghost use Rattle.lf_checks.specs.Parts.{shape as shape_of_type};
ghost use Rattle.tw_terms.specs.View.{type_of};
ghost use Rattle.tw_world.specs.Checks.{ClauseGoesDeep, ClauseOutcome, HasTypedBlocks, IsOpenUnder, PassesUnder, clause_of};

use crate::check::Check;
use crate::subgoal::{subgoal_is_worlded, under_quantifiers};
use std::alloc::Global;
use tw_hered::HeredFault;
use tw_signature::shape_of;
use tw_terms::numbers::one_more;
use tw_terms::{Context, Ty, weaken};

/// The number of the first subgoal that doesn't pass, in solving order from 1, of a clause of this type in this context.
pub fn clause_fault(
    alloc: Global,
    check: &Check,
    outer: &Context,
    ty: &Ty,
) -> Result<Option<u64>, HeredFault>
    requires blocks { HasTypedBlocks check.now }
    requires signature { IsSignature (signature_of check.now.sig.now) }
    requires outer { IsContext (signature_of check.now.sig.now) outer.now }
    requires ty { IsType (signature_of check.now.sig.now) outer.now (type_of ty.now) }
    ensures decided { IfOk result (λ f. (F : ℕ → Bool) → ClauseOutcome check.now (clause_of outer.now F (type_of ty.now)) f) }
    ensures too_deep { IsErrOf result HeredFault.TooDeep → (F : ℕ → Bool) → (k : ℕ) × ClauseGoesDeep check.now (clause_of outer.now F (type_of ty.now)) k }
{
    let scope = under_quantifiers(alloc, outer, ty)?;
    let shape = shape_of(alloc, ty)?;
    let mut number = 0;
    let mut index = 0;
    while index < shape.len() {
        if !is_variable_at(&shape, index) {
            number += 1;
            if !subgoal_passes(alloc, check, &scope, index as u64)? {
                return Ok(Some(number));
            }
        }
        index += 1;
    }
    Ok(None)
}

/// Whether the quantifier at this index of the scope, the last one being 0, is a variable.
fn is_variable_at(shape: &[bool], index: usize) -> bool
    requires { index < length shape.now }
    ensures { (A : LfType) → shape.now ≡ shape_of_type A → result ≡ is_variable everything A index }
{
    shape[shape.len() - 1 - index]
}

/// Whether the subgoal at this index of the scope passes.
fn subgoal_passes(
    alloc: Global,
    check: &Check,
    scope: &Context,
    index: u64,
) -> Result<bool, HeredFault>
    requires blocks { HasTypedBlocks check.now }
    requires signature { IsSignature (signature_of check.now.sig.now) }
    requires scope { IsContext (signature_of check.now.sig.now) scope.now }
    requires within { index < length scope.now }
    ensures decided { IfOk result (λ b. (A : LfType) → TypeAt scope.now index A → IsTrue b ↔ PassesUnder check.now scope.now A) }
    ensures too_deep { IsErrOf result HeredFault.TooDeep → (A : LfType) → TypeAt scope.now index A → IsOpenUnder check.now scope.now A }
{
    let Some(ty) = scope.get(index) else {
        unreachable!()
    };
    let subgoal = weaken(alloc, ty, one_more(index)?)?;
    subgoal_is_worlded(
        alloc,
        check.sig,
        check.subord,
        check.rows,
        check.group,
        check.worlds,
        scope,
        &subgoal,
    )
}
