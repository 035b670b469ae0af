//! Whether a subgoal of a clause passes the check of worlds.
ghost use Rattle.std.specs.Prelude.{◌≡◌, ◌↔◌, map, IfOk, IsErrOf, IsTrue};
ghost use Rattle.lf.specs.Entries.{signature_of};
ghost use Rattle.lf.specs.Subordination.{AreTypedBlocks};
ghost use Rattle.lf.specs.Typing.{IsContext, IsType};
ghost use Rattle.lf.specs.Variables.{binders};
ghost use Rattle.tw_clause.specs.Tables.{world_rows_of};
ghost use Rattle.tw_clause.specs.View.{worlds_of};
ghost use Rattle.tw_terms.specs.View.{type_of};
ghost use Rattle.tw_world.specs.Serving.{IsOpenIn, PassesIn, below_in};

use crate::serving::is_served;
use crate::table::is_sequence;
use std::alloc::{AllocError, Global};
use tw_clause::{WorldRows, Worlds};
use tw_hered::HeredFault;
use tw_signature::Signature;
use tw_subord::Subord;
use tw_terms::{ConstId, Context, Ty, target};

/// Whether a subgoal passes, where `scope` is the context of its whole clause: its local context is a sequence of instances of blocks of these worlds, and its family knows them, is one
/// of the group or has no worlds. Answers `TooDeep` only where the family is no reason to say no, and `is_sequence` goes too deep.
pub fn subgoal_is_worlded(
    alloc: Global,
    sig: &Signature,
    subord: &Subord,
    rows: &WorldRows,
    group: &[ConstId],
    worlds: &Worlds,
    scope: &Context,
    subgoal: &Ty,
) -> Result<bool, HeredFault>
    requires blocks { AreTypedBlocks (signature_of sig.now) (worlds_of worlds.now) }
    requires scope { IsContext (signature_of sig.now) scope.now }
    requires subgoal { IsType (signature_of sig.now) scope.now (type_of subgoal.now) }
    ensures decided { IfOk result (λ b. IsTrue b ↔ PassesIn (signature_of sig.now) (world_rows_of rows.now) (map (λ f. f.0) group.now) (below_in subord.now) (worlds_of worlds.now) scope.now (type_of subgoal.now)) }
    ensures too_deep { IsErrOf result HeredFault.TooDeep → IsOpenIn (signature_of sig.now) (world_rows_of rows.now) (map (λ f. f.0) group.now) (below_in subord.now) (worlds_of worlds.now) scope.now (type_of subgoal.now) }
{
    if !is_served(subord, rows, group, worlds, target(subgoal)) {
        return Ok(false);
    }
    let local = under_quantifiers(alloc, &Context::new(alloc), subgoal)?;
    is_sequence(alloc, sig, worlds, scope, &local)
}

/// The context under the leading quantifiers of a type.
pub fn under_quantifiers(alloc: Global, outer: &Context, ty: &Ty) -> Result<Context, AllocError>
    ensures { IfOk result (λ g. g ≡ binders outer.now (type_of ty.now)) }
{
    let mut context = outer.copy(alloc)?;
    let mut rest = ty;
    loop {
        match rest {
            Ty::Pi(domain, range) => {
                context.push(domain.copy(alloc)?)?;
                rest = range;
            }
            Ty::Atom(_, _) => return Ok(context),
        }
    }
}
