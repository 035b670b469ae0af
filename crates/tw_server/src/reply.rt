//! Replies, and how they are written.
ghost use Rattle.std.specs.Prelude.{◌≡◌};
ghost use Rattle.tw_server.specs.Counts.{CountsWrites};
ghost use Rattle.tw_server.specs.Replies.{last_line, reply_bytes};
ghost use Rattle.tw_server.specs.Written.{GainsReply};

use crate::write::{Unwritten, write_all, write_both};
use tw_ports::Sink;

/// The last line of a reply to an accepted command.
pub const OK: &[u8] = b"%% OK %%\n";

/// The last line of a refusal.
pub const ABORT: &[u8] = b"%% ABORT %%\n";

const NO_MEMORY: &[u8] = b"E0 Memory\n%% ABORT %%\n";

const UNKNOWN_COMMAND: &[u8] = b"C1 UnknownCommand\n%% ABORT %%\n";

const TEXT_LONG: &[u8] = b"C4 TextLong\n%% ABORT %%\n";

const LONG_LINE: &[u8] = b"C5 LongLine\n%% ABORT %%\n";

const BAD_PARAMETER: &[u8] = b"C6 BadParameter\n%% ABORT %%\n";

const VERSION: &[u8] = b"Twelf 1.4 LF profile\n%% OK %%\n";

/// The last line of a reply, by whether all went well.
pub fn last_line(well: bool) -> &'static [u8]
    ensures { result.now ≡ last_line well }
{
    if well { OK } else { ABORT }
}

/// The line of want of memory.
pub const MEMORY: &[u8] = b"E0 Memory\n";

/// The line of a text that is too long.
const LONG: &[u8] = b"C4 TextLong\n";

/// What a command answers.
#[derive(Drop)]
pub enum Reply {
    /// Nothing at all, to a blank line.
    Nothing,
    /// A declaration is made, and this is its report.
    Accepted(Vec<u8>),
    /// A declaration is refused, and this line says why.
    Refused(Vec<u8>),
    /// Memory is wanting.
    NoMemory,
    /// The line is no command.
    UnknownCommand,
    /// No parameter has the name, or may have the value.
    BadParameter,
    /// The declaration's text is too long.
    TextLong,
    /// The command line is too long.
    LongLine,
    /// What was asked for is done, and there is nothing to tell.
    Done,
    /// The version.
    Version,
    /// Lines of the loop of answers, behind which no last line comes.
    Lines(Vec<u8>),
    /// Memory is wanting in that loop.
    MemoryAlone,
    /// The text of a query is too long.
    TextLongAlone,
}

/// Writes a reply. It takes no memory.
pub fn write_reply<K: Sink>(sink: &mut K, reply: &Reply) -> Result<(), Unwritten>
    ensures bytes { GainsReply (K.written sink.old) (K.written sink.new) (reply_bytes reply.now) result }
    ensures counts { CountsWrites (K.faults sink.old) (K.faults sink.new) result }
{
    match reply {
        Reply::Nothing => write_all(sink, b""),
        Reply::Accepted(report) => write_both(sink, report, OK),
        Reply::Refused(line) => write_both(sink, line, ABORT),
        Reply::NoMemory => write_all(sink, NO_MEMORY),
        Reply::UnknownCommand => write_all(sink, UNKNOWN_COMMAND),
        Reply::TextLong => write_all(sink, TEXT_LONG),
        Reply::LongLine => write_all(sink, LONG_LINE),
        Reply::BadParameter => write_all(sink, BAD_PARAMETER),
        Reply::Done => write_all(sink, OK),
        Reply::Version => write_all(sink, VERSION),
        Reply::Lines(lines) => write_all(sink, lines),
        Reply::MemoryAlone => write_all(sink, MEMORY),
        Reply::TextLongAlone => write_all(sink, LONG),
    }
}
