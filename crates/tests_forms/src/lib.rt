//! The plain text form of names, terms, types, kinds, skeletons, contexts and signatures, by which programs read their cases from files and print what came out.
//!
//! A form is a word, or forms between brackets. `(s x)` is s on x, `(\ u M)` is M under a binder u, `(> u A B)` is the type or kind B over u of type A, and `type` is a
//! kind. `(-> a b)` is a skeleton. `(repeat 3 t (s t) x)` is `(s (s (s x)))`, whatever the forms mean. A word is the innermost variable of that name, or else the constant, or else the metavariable;
//! `?7` is metavariable 7, `%7` constant 7, and `#7` the variable that stands seven outside of all that have names.
#![tactic(auto)]

mod cases;
mod closed;
#[tactic(auto, using(tw_terms::proofs::Args::types))]
mod declarations;
mod fault;
mod forms;
mod names;
mod open;
mod show;

pub use cases::{Case, Field, read_cases};
pub use closed::{
    closed_spine, closed_term, closed_type, opened_spine, opened_term, opened_type,
    read_closed_context, read_closed_spine, read_closed_term, read_closed_type, read_kind,
    read_skeleton,
};
pub use declarations::{declare, read_signature};
pub use fault::FormFault;
pub use forms::{Form, number_of, read_forms};
pub use names::Names;
pub use open::{read_context, read_metas, read_spine, read_term, read_type};
pub use show::{
    begin_part, show_closed_spine, show_closed_term, show_closed_type, show_domain, show_kind,
    show_skeleton, show_spine, show_term, show_type,
};
