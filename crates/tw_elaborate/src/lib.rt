//! Elaboration: what is written, with its names resolved and told the skeletons of what isn't written, as an open term, type or kind.
#![tactic(auto)]

#[tactic(auto, using(tw_open::proofs::Steps::steps))]
mod bodies;
#[tactic(auto, using(tw_open::proofs::Steps::steps))]
mod equations;
mod frames;
#[tactic(auto, using(tw_open::proofs::Steps::steps))]
mod frees;
#[tactic(auto, using(tw_open::proofs::Steps::steps))]
mod fresh;
#[tactic(auto, using(tw_open::proofs::Steps::steps))]
mod heads;
#[tactic(auto, using(tw_open::proofs::Steps::steps))]
mod holes;
#[tactic(auto, using(tw_open::proofs::Steps::steps))]
mod operators;
#[tactic(auto, using(tw_open::proofs::Steps::steps))]
mod parts;
#[tactic(auto, using(tw_written::proofs::Steps::steps))]
mod plain;
mod state;
#[tactic(auto, using(tw_open::proofs::Steps::steps))]
mod terms;
#[tactic(auto, using(tw_open::proofs::Steps::steps))]
mod waiting;

pub use bodies::{Elaborated, OpenBody, elaborate};
pub use frames::FRAMES;
pub use state::Elaboration;
pub use terms::{check, elaborate_kind, elaborate_type, infer};
pub use tw_hered::HeredFault;
pub use tw_open::OpenKind;
