//! What a command line can ask for.
use thiserror::Error;
use tw_fixity::Name;

/// A parameter of the session.
#[derive(Clone, Copy, Debug, PartialEq, Eq)]
pub enum Parameter {
    /// How much is printed, from 0 to 6.
    Chatter,
    /// Whether implicit arguments are printed.
    Implicit,
    /// How many tries a search may make.
    Steps,
}

/// A parameter with the value that it is to have.
#[derive(Clone, Copy, Debug, PartialEq, Eq)]
pub enum Setting {
    /// How much is printed, from 0 to 6.
    Chatter(u8),
    /// Whether implicit arguments are printed.
    Implicit(bool),
    /// How many tries a search may make, from 1 to 1,000,000,000.
    Steps(u64),
}

/// A command.
#[derive(Debug, Drop)]
pub enum Command {
    /// `readDecl`: one declaration is read from the lines that follow.
    ReadDecl,
    /// `loadFile f`: the declarations of the file are made.
    LoadFile(Name),
    /// `decl id`: the newest declaration of the name is printed.
    Decl(Name),
    /// `Print.sgn`: every declaration is printed.
    PrintSgn,
    /// `Print.subord`: for each family those below it are printed.
    PrintSubord,
    /// `top`: queries are read from the lines that follow, and answered one by one.
    Top,
    /// `reset`: all declarations are forgotten.
    Reset,
    /// `set p v`: the parameter gets the value.
    Set(Setting),
    /// `get p`: the parameter's value is printed.
    Get(Parameter),
    /// `version`: the version is printed.
    Version,
    /// `quit` and `OS.exit`: the run ends.
    Quit,
}

/// Why a line is no command.
#[derive(Clone, Copy, Debug, PartialEq, Eq, Drop, Error)]
pub enum CommandFault {
    /// The line isn't UTF-8, its first word is no command's, or it has too few or too many words.
    #[error("no such command")]
    Unknown,
    /// `set` or `get` with a name that no parameter has, or with a value that the parameter can't have.
    #[error("no such parameter or value")]
    BadParameter,
    /// Memory was wanting for the name of a file or of a declaration.
    #[error("memory is wanting")]
    NoMemory,
}
