//! The terms, types and kinds of LF, with de Bruijn numbers for variables.
//! Contracts see each of them as the plain syntax of the crate `lf`, through the views in `specs/View.antt`.
#![tactic(auto)]

pub mod canonical;
#[tactic(auto, using(crate::proofs::Args::types))]
pub mod context;
pub mod copy;
pub mod depth;
pub mod numbers;
#[tactic(auto, using(crate::proofs::Scopes::rows))]
pub mod open_context;
#[tactic(auto, using(crate::proofs::OpenArgs::open_spines))]
pub mod open_terms;
pub mod same;
#[tactic(auto, using(crate::proofs::Args::types_and_skeletons))]
pub mod skeletons;
#[tactic(auto, using(crate::proofs::Weakened::weakened))]
pub mod weakening;

pub use canonical::{ConstId, Head, Kind, MetaId, Skeleton, Spine, Term, Ty};
pub use context::Context;
pub use depth::DEPTH_LIMIT;
pub use open_context::OpenContext;
pub use open_terms::{Open, OpenHead, OpenSpine, OpenTy};
pub use skeletons::{skeleton, target};
pub use weakening::weaken;
