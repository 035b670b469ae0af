//! Tokens as external declarations.
#![tactic(auto)]

mod decl;
mod fault;
mod keywords;
mod laws;
mod lookahead;
#[tactic(auto, using(crate::proofs::Behind::mentioned))]
mod mentions;
mod nesting;
#[tactic(auto, using(crate::proofs::Views::views))]
mod parse;
mod parts;
#[tactic(auto, using(crate::proofs::Views::views))]
mod pile;
#[tactic(auto, using(crate::proofs::Views::views))]
mod query;
#[tactic(auto, using(crate::proofs::Views::views))]
mod sequences;
mod sign;
mod source;
mod spine;
mod term;
mod words;

pub use decl::{ExtDecl, ExtName};
pub use fault::SyntaxFault;
pub use keywords::{is_identifier, is_in_language, is_upper};
pub use laws::{one_outline, one_query, one_reading, readings_are_decided};
pub use nesting::too_deep;
pub use parse::parse_decl;
pub use parts::Part;
pub use query::{ExtQuery, parse_query, read_query};
pub use sequences::sequence;
pub use source::Source;
pub use term::ExtTerm;
pub use words::Word;
