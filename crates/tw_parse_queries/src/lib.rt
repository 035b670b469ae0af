//! Reading the declarations that search: `%query` and `%solve`.
#![tactic(auto)]

mod bounds;
mod keywords;
mod laws;
mod parse;
mod search;

pub use keywords::is_search;
pub use laws::one_search;
pub use parse::parse_search;
pub use search::{ExtBound, ExtSearch};
