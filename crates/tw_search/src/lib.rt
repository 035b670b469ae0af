//! Search for the proofs of a goal, as a value: each call gives the next leaf of the goal's tree, with a budget of tries.
//!
//! `search` has the calls, and `engine` the steps between them, over the goals that wait (`frames`), the choice points (`step`) and the heads of a goal (`choice`). How terms are represented
//! is the matter of the others: `root` declares a goal, `goal` takes the type of a hole apart, `trying` tries a head (`clash` and `rigid`, which look before anything is made; `offer`, `head_type`, `taking`, `placing`, `closed_placing`, `occurs`; `reducing`, `giving`, `beside` and `differing`, which take the arguments apart; `forgetting`), and `answer` and `left` read what a leaf has;
//! in an equation that is left metavariables have the names of the goal's variables (`names`).
#![tactic(auto)]

mod answer;
#[tactic(auto, using(tw_open::proofs::Steps::steps))]
mod beside;
mod choice;
#[tactic(auto, using(tw_open::proofs::Steps::steps))]
mod clash;
#[tactic(auto, using(crate::proofs::Applied::applying))]
mod closed_placing;
#[tactic(auto, using(tw_open::proofs::Steps::steps))]
mod differing;
mod engine;
mod forgetting;
mod frames;
#[tactic(auto, using(tw_open::proofs::Steps::steps))]
mod giving;
#[tactic(auto, using(tw_open::proofs::Steps::steps))]
mod goal;
#[tactic(auto, using(tw_open::proofs::Steps::steps))]
mod head_type;
mod left;
mod names;
#[tactic(auto, using(tw_open::proofs::Steps::steps))]
mod occurs;
#[tactic(auto, using(tw_open::proofs::Steps::steps))]
mod offer;
#[tactic(auto, using(crate::proofs::Applied::applying))]
mod placing;
#[tactic(auto, using(tw_open::proofs::Steps::steps))]
mod reducing;
#[tactic(auto, using(tw_open::proofs::Steps::steps))]
mod rigid;
#[tactic(auto, using(crate::proofs::Rooting::rooting))]
mod root;
mod search;
mod step;
#[tactic(auto, using(tw_open::proofs::Steps::steps))]
mod taking;
mod trying;

pub use answer::Answer;
pub use names::place_of;
pub use search::Search;
pub use step::Step;
