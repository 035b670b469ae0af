//! Showing declarations and parameters.
ghost use Rattle.std.specs.Prelude.{◌≡◌, ◌<◌, ◌++◌, codes, decimal, length, IfOk};
ghost use Rattle.tw_decl.specs.View.{scene_of};
ghost use Rattle.tw_print.specs.ShowEnv.{scene_of as scene_of_env};
ghost use Rattle.tw_print.specs.Shown.{line_of};
ghost use Rattle.tw_server.specs.Counts.{CountsWrites};
ghost use Rattle.tw_server.specs.Loaded.{IsShown, AreShown};
ghost use Rattle.tw_server.specs.Replies.{accepted, refused, truth_word, value_of};
ghost use Rattle.tw_server.specs.Written.{GainsReply};

use crate::reply::{OK, Reply, write_reply};
use crate::write::{Unwritten, write_all, write_both};
use itoa::Buffer;
use std::alloc::{AllocError, Global};
use tw_command::Parameter;
use tw_decl::Session;
use tw_fixity::Name;
use tw_ports::Sink;
use tw_print::{ShowEnv, show_decl};
use tw_terms::ConstId;

/// The end of a line and of a reply.
const LINE_OK: &[u8] = b"\n%% OK %%\n";

/// The end of a line and of a refusal.
const LINE_ABORT: &[u8] = b"\n%% ABORT %%\n";

// Writes the refusal of a command: its words, and a name. It takes no memory.
fn refuse<K: Sink>(sink: &mut K, words: &[u8], name: &[u8]) -> Result<(), Unwritten>
    ensures bytes { GainsReply (K.written sink.old) (K.written sink.new) ((words.now ++ name.now ++ codes "\n") ++ refused) result }
    ensures counts { CountsWrites (K.faults sink.old) (K.faults sink.new) result }
{
    match write_all(sink, words) {
        Ok(()) => write_both(sink, name, LINE_ABORT),
        Err(error) => Err(error),
    }
}

/// What texts depend on.
pub fn environment(session: &Session) -> ShowEnv<'_>
    ensures { scene_of_env result ≡ scene_of session.now }
{
    ShowEnv {
        sig: session.signature(),
        fixities: session.fixities(),
        names: session.names(),
        implicit: session.parameters().implicit,
    }
}

// The line of a declaration.
fn entry_line(alloc: Global, session: &Session, id: ConstId) -> Result<Vec<u8>, AllocError>
    requires { id.0 < length session.now.signature }
    ensures { IfOk result (λ line. line.items ≡ line_of (scene_of session.now) id.0 ++ codes "\n") }
{
    let mut line = show_decl(alloc, &environment(session), id)?;
    line.push(b'\n')?;
    Ok(line)
}

/// Writes the newest declaration of a name.
pub fn show_name<K: Sink>(
    alloc: Global,
    session: &Session,
    name: &Name,
    sink: &mut K,
) -> Result<(), Unwritten>
    ensures reply { IsShown session.now name.now (K.written sink.old) (K.written sink.new) result }
    ensures counts { CountsWrites (K.faults sink.old) (K.faults sink.new) result }
{
    match session.signature().lookup(name) {
        None => refuse(sink, b"C7 UnknownName ", name.as_bytes()),
        Some(id) => match entry_line(alloc, session, id) {
            Ok(line) => write_both(sink, &line, OK),
            Err(_) => write_reply(sink, &Reply::NoMemory),
        },
    }
}

/// Writes all declarations, in order.
pub fn show_signature<K: Sink>(
    alloc: Global,
    session: &Session,
    sink: &mut K,
) -> Result<(), Unwritten>
    ensures reply { AreShown session.now (K.written sink.old) (K.written sink.new) result }
    ensures counts { CountsWrites (K.faults sink.old) (K.faults sink.new) result }
{
    let count = session.signature().len();
    for number in 0..count {
        match entry_line(alloc, session, ConstId(number)) {
            Ok(line) => {
                if let Err(error) = write_all(sink, &line) {
                    return Err(error);
                }
            }
            Err(_) => return write_reply(sink, &Reply::NoMemory),
        }
    }
    write_all(sink, OK)
}

// Writes a number. It takes no memory.
fn write_number<K: Sink>(sink: &mut K, number: u64) -> Result<(), Unwritten>
    ensures bytes { GainsReply (K.written sink.old) (K.written sink.new) ((decimal number ++ codes "\n") ++ accepted) result }
    ensures counts { CountsWrites (K.faults sink.old) (K.faults sink.new) result }
{
    let mut buffer = Buffer::new();
    let digits = buffer.format(number);
    write_both(sink, digits.as_bytes(), LINE_OK)
}

// The reply that is a truth value.
fn truth_reply(value: bool) -> &'static [u8]
    ensures { result.now ≡ (truth_word value ++ codes "\n") ++ accepted }
{
    if value {
        b"true\n%% OK %%\n"
    } else {
        b"false\n%% OK %%\n"
    }
}

/// Writes the value of a parameter. It takes no memory.
pub fn show_value<K: Sink>(
    session: &Session,
    parameter: Parameter,
    sink: &mut K,
) -> Result<(), Unwritten>
    ensures bytes { GainsReply (K.written sink.old) (K.written sink.new) ((value_of session.now parameter ++ codes "\n") ++ accepted) result }
    ensures counts { CountsWrites (K.faults sink.old) (K.faults sink.new) result }
{
    let parameters = session.parameters();
    match parameter {
        Parameter::Chatter => write_number(sink, parameters.chatter as u64),
        Parameter::Steps => write_number(sink, parameters.steps),
        Parameter::Implicit => write_all(sink, truth_reply(parameters.implicit)),
    }
}
