//! Names, the table of operators, and which variable a name in scope names.
#![tactic(auto)]

mod name;
mod scope;
mod table;

pub use name::{Name, copy_option, copy_options};
pub use scope::Scope;
pub use table::{Assoc, Fix, FixTable};
