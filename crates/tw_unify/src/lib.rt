//! Higher-order pattern unification with postponed equations.
//!
//! **What is proved.** Contracts see the store as the theory's (crate `unification`): its metavariables, its bindings with the newest in front, and as
//! equations those at work, the next one first, before those that are postponed (`whole` in `specs/View.antt`). Each part of the work ensures that it is a run of permitted
//! steps (`Run`) from the whole store before it to the one after it; so `solve` is one run, and the theory gives `Solved`, `Left` and `Never`. A change of
//! order is a run too, since any equation may be taken first. A fault `TooDeep` is explained by a run to something deep. Nothing is taken back, so a mark from before leads back.
//!
//! **How it goes.** An equation from the stack has values put into its sides as far as their heads (`step`), so that different constants or variables refute at once. Lambdas are opened
//! and equal constants or variables give the equations of their arguments (`rigid`, `heads`). Where a metavariable is a head (`flexible`), each side in turn may be one on a pattern to which the
//! other side is inverted as it stands: it is bound, and its value mentions what that side does. Else all values are put in, and each side in turn may allow a move against the other (`moves`): it is bound, a
//! metavariable loses an argument, or there is no typed unifier. The occurs check goes through types and values (`reach`), and passes over what earlier ones met; before a metavariable without arguments takes a whole side, a glance at it often shows that it isn't reached (`glance`). Where neither side allows a move, a metavariable that is reached from
//! the sides and whose type mentions a bound one is renewed at its type with the values put in (`stale`), and the equation is looked at again; else it is postponed. No side changes places with the other. When the stack is
//! empty, the postponed equations are gone over from where the last one woke, and the next one that allows a step under the bindings of then is woken (`postponed`); when none does, all are outside the pattern fragment and the call answers.
//! One that was found so is looked at again only where a metavariable that is reached from it was bound since (`watch`). `solve_more` is told by its caller that those that stood were found so.
//!
//! An equation that is left is shown by `left_equation`: the bindings are put in, and the metavariables numbered by their places in an order that grows (`left`, `numbering`).
#![tactic(auto)]

mod fault;
#[tactic(auto, using(tw_terms::proofs::OpenArgs::open_types))]
mod flexible;
#[tactic(auto, using(tw_terms::proofs::OpenArgs::open_types))]
mod glance;
#[tactic(auto, using(tw_terms::proofs::OpenArgs::open_types))]
mod heads;
mod laws;
#[tactic(auto, using(tw_terms::proofs::OpenArgs::open_types))]
mod left;
#[tactic(auto, using(tw_terms::proofs::OpenArgs::open_types))]
mod moves;
#[tactic(auto, using(tw_terms::proofs::OpenArgs::open_types))]
mod numbering;
mod postponed;
#[tactic(auto, using(tw_terms::proofs::OpenArgs::open_types))]
mod reach;
#[tactic(auto, using(tw_terms::proofs::OpenArgs::open_types))]
mod rigid;
#[tactic(auto, using(tw_terms::proofs::OpenArgs::open_types))]
mod sides;
mod solving;
#[tactic(auto, using(tw_terms::proofs::OpenArgs::open_types))]
mod stale;
mod step;
#[tactic(auto, using(tw_terms::proofs::OpenArgs::open_types))]
mod watch;
#[tactic(auto, using(tw_terms::proofs::OpenArgs::open_types))]
mod whole;
mod work;

pub use fault::UnifyFault;
pub use glance::is_avoided_at_once;
pub use laws::all_left_over_are_left;
pub use left::left_equation;
pub use reach::Walk;
pub use solving::{Unified, solve, solve_more};
