//! How a call of the server ends.
ghost use Rattle.std.specs.Prelude.{◌≡◌};
ghost use Rattle.tw_server.specs.ExitCodes.{code_of};

/// How a call of `serve` ended.
#[derive(Clone, Copy, Debug, PartialEq, Eq)]
pub enum Status {
    /// `quit` or the end of the input was read, and every reply was written.
    Done,
    /// The words are bad, and the usage line was written.
    BadWords,
    /// A read failed.
    ReadFault,
    /// A write failed, and the last of the banner, the usage line and the replies was written in part.
    WriteFault,
    /// Memory was wanting before the banner.
    NoMemory,
    /// More bytes came than one run may look at.
    InputLong,
}

/// The exit code of the program.
pub fn exit_code(status: &Status) -> u8
    ensures { result ≡ code_of status.now }
{
    match status {
        Status::Done => 0,
        Status::BadWords => 1,
        Status::ReadFault => 2,
        Status::WriteFault => 3,
        Status::NoMemory => 4,
        Status::InputLong => 5,
    }
}
