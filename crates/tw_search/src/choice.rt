//! The heads that are still to be tried at a goal: its local variables, the newest first, and then the constants of its family, the oldest first.
ghost use Rattle.std.specs.Prelude.{◌≡◌, ◌+◌, ◌<◌, ◌^◌, ◌∷◌, [], IfSome, MatchOption, drop, length};
ghost use Rattle.lf.specs.Syntax.{variable};
ghost use Rattle.tw_terms.specs.View.{head_of};
ghost use Rattle.tw_search.specs.Choosing.{constants_left, heads_left, locals_for};

use crate::goal::open_target;
use tw_signature::Signature;
use tw_terms::{ConstId, Head, OpenContext};

/// A head, and what is still to be tried behind it: the local variables and the constants of the family from these places on.
#[derive(Clone, Copy, PartialEq, Eq, Debug)]
pub(crate) struct Next {
    pub(crate) head: Head,
    pub(crate) local: u64,
    pub(crate) constant: usize,
}

/// The next head for a goal of this family in this local context. It takes no memory.
pub(crate) fn next_head(
    signature: &Signature,
    locals: &OpenContext,
    family: ConstId,
    local: u64,
    constant: usize,
) -> Option<Next>
    ensures { MatchOption result (heads_left signature.now family.0 locals.now local constant ≡ []) (λ n. heads_left signature.now family.0 locals.now local constant ≡ head_of n.head ∷ heads_left signature.now family.0 locals.now n.local n.constant) }
{
    match next_local(locals, family, local) {
        Some(variable) => Some(Next {
            head: Head::Var(variable),
            local: variable + 1,
            constant,
        }),
        None => next_constant(signature, locals, family, constant),
    }
}

/// The same of the constants.
fn next_constant(
    signature: &Signature,
    locals: &OpenContext,
    family: ConstId,
    constant: usize,
) -> Option<Next>
    ensures { MatchOption result (constants_left signature.now family.0 constant ≡ []) (λ n. (constants_left signature.now family.0 constant ≡ head_of n.head ∷ constants_left signature.now family.0 n.constant) × (n.local ≡ length locals.now)) }
{
    match signature.constants_of(family).get(constant) {
        Some(id) => Some(Next {
            head: Head::Const(*id),
            local: locals.len() as u64,
            constant: constant + 1,
        }),
        None => None,
    }
}

/// The first local variable from this one on whose type targets the family.
fn next_local(locals: &OpenContext, family: ConstId, from: u64) -> Option<u64>
    ensures next { MatchOption result (locals_for family.0 from (drop from locals.now) ≡ []) (λ v. locals_for family.0 from (drop from locals.now) ≡ variable v ∷ locals_for family.0 (v + 1) (drop (v + 1) locals.now)) }
    ensures small { IfSome result (λ v. v + 1 < 2 ^ 64) }
{
    for variable in from..locals.len() as u64 {
        match locals.get(variable) {
            Some(ty) => {
                if open_target(ty).0 == family.0 {
                    return Some(variable);
                }
            }
            None => unreachable!(),
        }
    }
    None
}
