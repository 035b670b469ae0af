//! The equations at work: a stack, the next one last.
ghost use Rattle.std.specs.Prelude.{◌≡◌, ◌∷◌, OnOk, map};
ghost use Rattle.lf_unification.specs.Lists.{followed};
ghost use Rattle.tw_metas.specs.View.{equation_of};
ghost use Rattle.tw_unify.specs.Outcomes.{stacked};

use std::alloc::AllocError;
use tw_metas::Equation;
use tw_terms::MetaId;

/// What came of an equation at work.
#[derive(Clone, Copy, PartialEq, Eq, Debug)]
pub enum Advance {
    /// Steps of unification were made, and the store stayed as it was.
    Went,
    /// Steps were made, and this metavariable was bound.
    Bound(MetaId),
    /// It was postponed.
    Postponed,
    /// It has no typed unifier.
    Refuted,
}

/// Puts an equation on top of the stack.
pub fn put_back(work: &mut Vec<Equation>, equation: Equation) -> Result<(), AllocError>
    ensures { OnOk result (stacked work.new.items ≡ equation_of equation ∷ stacked work.old.items) }
{
    work.push(equation)?;
    Ok(())
}

/// Puts the equations on the stack, the first one on top.
pub fn put_on_top(work: &mut Vec<Equation>, mut equations: Vec<Equation>) -> Result<(), AllocError>
    ensures { OnOk result (stacked work.new.items ≡ followed (map equation_of equations.items) (stacked work.old.items)) }
{
    equations.reverse();
    work.append(&mut equations)?;
    Ok(())
}
