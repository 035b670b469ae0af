//! Whether a goal is within the limit of depth.
ghost use Rattle.std.specs.Prelude.{◌≡◌, ◌<◌, ◌≤◌, false, true};
ghost use Rattle.lf.specs.Depth.{depth_limit, type_depth};
ghost use Rattle.lf_unification.specs.Offering.{pi_over};
ghost use Rattle.tw_terms.specs.View.{type_of};
ghost use Rattle.tw_recon.specs.Queries.{ContextIsWithin};

use tw_terms::{Context, DEPTH_LIMIT, Ty};

/// Whether neither the type of a variable nor the goal is deeper than 4,096. Where one is, the goal closed over its variables is as well.
pub fn is_within(variables: &Context, goal: &Ty) -> bool
    ensures context { result ≡ true → ContextIsWithin depth_limit variables.now }
    ensures goal { result ≡ true → type_depth (type_of goal.now) ≤ depth_limit }
    ensures deep { result ≡ false → depth_limit < type_depth (pi_over variables.now (type_of goal.now)) }
{
    for variable in 0..variables.len() as u64 {
        match variables.get(variable) {
            Some(ty) => {
                if ty.depth() > DEPTH_LIMIT {
                    return false;
                }
            }
            None => unreachable!(),
        }
    }
    goal.depth() <= DEPTH_LIMIT
}
