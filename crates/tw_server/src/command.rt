//! What a command line says.
ghost use Rattle.std.specs.Prelude.{◌≡◌, List, ℕ};
ghost use Rattle.tw_server.specs.Gather.{IsKept};
ghost use Rattle.tw_server.specs.Playing.{IsPhaseBehind};
ghost use Rattle.tw_server.specs.Words.{Said as SaidLine, said_of};
ghost use Rattle.tw_server.specs.Saying.{HasText, Says, is_quit, is_top, takes_text};

use crate::line::Line;
use crate::phase::Phase;
use std::alloc::Global;
use tw_command::{Command, CommandFault, read_command};

/// What a command line says.
#[derive(Drop)]
pub enum Said {
    /// The line is longer than a command line may be.
    TooLong,
    /// The line has no words.
    Blank,
    /// The words are no command.
    Unknown,
    /// No parameter has this name, or may have this value.
    BadParameter,
    /// Memory is wanting for the name that the command has.
    NoMemory,
    /// A command.
    Command(Command),
}

impl Said {
    /// Whether the run ends.
    pub fn is_quit(&self) -> bool
        ensures { result ≡ is_quit self.now }
    {
        matches!(self, Said::Command(Command::Quit))
    }

    /// Whether a declaration's text follows.
    pub fn takes_text(&self) -> bool
        ensures { result ≡ takes_text self.now }
    {
        matches!(self, Said::Command(Command::ReadDecl))
    }

    // Whether queries follow.
    fn is_top(&self) -> bool
        ensures { result ≡ is_top self.now }
    {
        matches!(self, Said::Command(Command::Top))
    }

    /// What is read behind the command.
    pub fn next(&self) -> Phase
        ensures { (line : SaidLine) → Says line self.now → IsPhaseBehind line result }
    {
        if self.is_top() {
            Phase::Query
        } else {
            Phase::Command
        }
    }
}

/// What a line says.
pub fn say(alloc: Global, line: &Line) -> Said
    ensures says { (body : List ℕ) → IsKept line.now body → Says (said_of body) result }
    ensures text { HasText result }
{
    match line.body() {
        None => Said::TooLong,
        Some(body) => match read_command(alloc, body) {
            Ok(None) => Said::Blank,
            Ok(Some(command)) => Said::Command(command),
            Err(CommandFault::Unknown) => Said::Unknown,
            Err(CommandFault::BadParameter) => Said::BadParameter,
            Err(CommandFault::NoMemory) => Said::NoMemory,
        },
    }
}
