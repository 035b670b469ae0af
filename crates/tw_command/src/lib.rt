//! The command lines.
#![tactic(auto)]

mod command;
mod limits;
mod number;
mod read;
mod words;

pub use command::{Command, CommandFault, Parameter, Setting};
pub use limits::STEPS_MOST;
pub use read::read_command;
