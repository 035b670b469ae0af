//! The replies to declarations.
ghost use Rattle.std.specs.Prelude.{List, ℕ};
ghost use Rattle.tw_server.specs.Counts.{CountsWrites};
ghost use Rattle.tw_server.specs.Gather.{IsGathered};
ghost use Rattle.tw_server.specs.Machine.{RepliesTo};
ghost use Rattle.tw_server.specs.Replies.{reply_bytes};
ghost use Rattle.tw_server.specs.Turns.{Answered};

use crate::reply::{Reply, write_reply};
use crate::text::{Lost, Text};
use crate::write::Unwritten;
use std::alloc::Global;
use tw_decl::{Refusal, Session, declare_one, show_refusal};
use tw_ports::Sink;

/// Where the texts of `readDecl` come from.
const ORIGIN: &str = "stdin";

// Makes the declaration, and says what is replied.
fn reply_to(alloc: Global, session: &mut Session, text: &Text) -> Reply
    ensures { (bytes : List ℕ) → IsGathered text.now.lost text.now.bytes.items bytes
        → RepliesTo session.old bytes (reply_bytes result) session.new }
{
    match text.lost {
        Lost::NoMemory => Reply::NoMemory,
        Lost::TooLong => Reply::TextLong,
        Lost::Nothing => match declare_one(alloc, session, &text.bytes) {
            Ok(report) => Reply::Accepted(report.text),
            Err(Refusal::Memory) => Reply::NoMemory,
            Err(refusal) => match show_refusal(alloc, &refusal, ORIGIN) {
                Ok(line) => Reply::Refused(line),
                Err(_) => Reply::NoMemory,
            },
        },
    }
}

/// Makes the declaration, and writes the reply.
pub fn answer_text<K: Sink>(
    alloc: Global,
    session: &mut Session,
    text: &Text,
    sink: &mut K,
) -> Result<(), Unwritten>
    ensures reply { (bytes : List ℕ) → IsGathered text.now.lost text.now.bytes.items bytes
        → Answered (K.written sink.old) (K.written sink.new) session.old bytes session.new result }
    ensures counts { CountsWrites (K.faults sink.old) (K.faults sink.new) result }
{
    let reply = reply_to(alloc, session, text);
    write_reply(sink, &reply)
}
