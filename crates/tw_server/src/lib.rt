//! The command loop: from the bytes of a source to the replies of a session.
#![tactic(auto)]

mod answer;
mod command;
mod declaration;
mod feed;
mod laws;
mod limits;
mod line;
mod load;
mod phase;
mod query;
mod reply;
mod server;
mod show;
mod status;
mod subordination;
mod text;
mod word;
mod write;

pub use laws::{faultless_is_done, one_reading, short_is_not_long, step_keeps_sound};
pub use server::serve;
pub use status::{Status, exit_code};
pub use tw_decl::{Refusal, Session, show_refusal};
