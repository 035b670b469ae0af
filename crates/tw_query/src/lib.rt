//! The run of a query with its bound and budget, and the text of an answer.
//!
//! `query` runs it, call by call (`running`), and `run` has what it comes to.
//!
//! `text` shows an answer: its lines (`rows`), and the names of its free variables (`free`), of which one that is a value alone (`sole`) has the name of its variable.
#![tactic(auto)]

mod free;
mod query;
#[tactic(auto, using(crate::proofs::Closing::closings))]
mod rows;
mod run;
mod running;
#[tactic(auto, using(tw_terms::proofs::Args::types))]
mod sole;
mod text;

pub use query::run_query;
pub use run::{Bound, Leaf, QueryEnd, QueryFault, QueryRun};
pub use text::show_answer;
