//! The printed text of terms, types and declarations.
#![tactic(auto)]

#[tactic(auto, using(tw_terms::proofs::Args::types))]
mod arguments;
#[tactic(auto, using(tw_terms::proofs::Args::types))]
mod bare;
mod context;
#[tactic(auto, using(tw_terms::proofs::Args::types))]
mod declaration;
#[tactic(auto, using(tw_terms::proofs::Args::types))]
mod due;
mod fresh;
#[tactic(auto, using(crate::proofs::Counts::counts))]
mod heads;
mod laws;
mod levels;
#[tactic(auto, using(tw_terms::proofs::Args::types))]
mod marks;
mod names;
mod page;
#[tactic(auto, using(tw_terms::proofs::Args::types))]
mod print;
#[tactic(auto, using(tw_terms::proofs::Args::types))]
mod scene;
mod show;
mod spines;

pub use arguments::{Argument, instantiated};
pub use laws::more_levels_give_the_same_text;
pub use levels::all_levels;
pub use marks::{mark_term, mark_type};
pub use names::{Names, Preference};
pub use show::{
    ShowEnv, show_decl, show_entry, show_equal, show_term, show_term_in_scope, show_type,
};
