//! Loading files.
ghost use Rattle.std.specs.Prelude.{◌≡◌, ◌≤◌, ◌++◌, List, ℕ, codes, false, length, IfOk};
ghost use Rattle.std.specs.declared.option.Option.{Option};
ghost use Rattle.tw_ports.specs.Files.{Held, HoldsOn};
ghost use Rattle.tw_server.specs.Counts.{CountsWrites};
ghost use Rattle.tw_server.specs.Limits.{text_limit};
ghost use Rattle.tw_server.specs.Loaded.{HasLines, IsLoaded, IsOpened, IsRefusedWith};
ghost use Rattle.tw_server.specs.State.{state_at};
ghost use Rattle.tw_server.specs.Written.{GainsLines};

use crate::limits::TEXT_MOST;
use crate::reply::{MEMORY, last_line};
use crate::write::{Unwritten, write_all, write_both};
use std::alloc::{AllocError, Global};
use tw_decl::{Next, Refusal, Session, declare, show_refusal};
use tw_lexer::Place;
use tw_ports::{FileAnswer, Files, Sink};

// Two texts with a name between them.
fn around(alloc: Global, first: &[u8], name: &str, last: &[u8]) -> Result<Vec<u8>, AllocError>
    ensures { IfOk result (λ line. line.items ≡ first.now ++ name.now ++ last.now) }
{
    let mut line = first.to_vec(alloc)?;
    line.extend_from_slice(name.as_bytes())?;
    line.extend_from_slice(last)?;
    Ok(line)
}

// Writes the last of a file's lines, in two parts, and says whether all went well.
fn close<K: Sink>(sink: &mut K, first: &[u8], second: &[u8], well: bool) -> Result<bool, Unwritten>
    ensures lines { GainsLines (K.written sink.old) (K.written sink.new) (first.now ++ second.now) well result }
    ensures counts { CountsWrites (K.faults sink.old) (K.faults sink.new) result }
{
    match write_both(sink, first, second) {
        Ok(()) => Ok(well),
        Err(error) => Err(error),
    }
}

// Writes the line of a file that isn't opened: its words, and the name.
fn not_opened<K: Sink>(sink: &mut K, words: &[u8], name: &[u8]) -> Result<bool, Unwritten>
    ensures lines { GainsLines (K.written sink.old) (K.written sink.new) (words.now ++ name.now ++ codes "\n") false result }
    ensures counts { CountsWrites (K.faults sink.old) (K.faults sink.new) result }
{
    match write_all(sink, words) {
        Ok(()) => close(sink, name, b"\n", false),
        Err(error) => Err(error),
    }
}

// Writes the line of a refusal behind those of a file, and closes it.
fn close_refused<K: Sink>(
    alloc: Global,
    sink: &mut K,
    refusal: &Refusal,
    name: &str,
    closing: &[u8],
) -> Result<bool, Unwritten>
    ensures lines { IsRefusedWith refusal.now name.now closing.now (K.written sink.old) (K.written sink.new) result }
    ensures counts { CountsWrites (K.faults sink.old) (K.faults sink.new) result }
{
    match show_refusal(alloc, refusal, name) {
        Ok(line) => close(sink, &line, closing, false),
        Err(_) => close(sink, MEMORY, closing, false),
    }
}

// Makes the declarations of a file in order, up to the first refusal, and writes each report when its declaration is made. Says
// whether none was refused.
fn load<K: Sink>(
    alloc: Global,
    session: &mut Session,
    name: &str,
    text: &[u8],
    sink: &mut K,
) -> Result<bool, Unwritten>
    requires { length text.now ≤ text_limit }
    ensures lines { IsOpened session.old name.now text.now (K.written sink.old) (K.written sink.new) session.new result }
    ensures counts { CountsWrites (K.faults sink.old) (K.faults sink.new) result }
{
    let Ok(opening) = around(alloc, b"[Opening file ", name, b"]\n") else {
        return close(sink, b"", MEMORY, false);
    };
    let Ok(closing) = around(alloc, b"[Closing file ", name, b"]\n") else {
        return close(sink, b"", MEMORY, false);
    };
    if let Err(error) = write_all(sink, &opening) {
        return Err(error);
    }
    let mut from = 0;
    let mut at = Place { line: 1, column: 1 };
    loop {
        match declare(alloc, session, text, from, at) {
            Ok(Next::End) => return close(sink, b"", &closing, true),
            Ok(
                Next::Done {
                    report,
                    upto,
                    at: behind,
                },
            ) => {
                if let Err(error) = write_all(sink, &report.text) {
                    return Err(error);
                }
                from = upto;
                at = behind;
            }
            Err(refusal) => return close_refused(alloc, sink, &refusal, name, &closing),
        }
    }
}

// Loads the file of this name, and writes its lines. Says whether all went well.
fn load_lines<K: Sink, F: Files>(
    alloc: Global,
    session: &mut Session,
    name: &str,
    sink: &mut K,
    files: &mut F,
) -> Result<bool, Unwritten>
    ensures lines { (held : Option Held) → HoldsOn held (F.held files.old)
        → HasLines held name.now (state_at session.old (F.faults files.old)) (K.written sink.old) (K.written sink.new) (state_at session.new (F.faults files.new)) result }
    ensures counts { CountsWrites (K.faults sink.old) (K.faults sink.new) result }
    ensures files { HoldsOn (F.held files.old) (F.held files.new) }
{
    match files.read_file(alloc, name, TEXT_MOST) {
        FileAnswer::Found(text) => load(alloc, session, name, &text, sink),
        FileAnswer::Absent => not_opened(sink, b"C2 NoFile ", name.as_bytes()),
        FileAnswer::TooLong => not_opened(sink, b"C4 TextLong ", name.as_bytes()),
        FileAnswer::Failed => not_opened(sink, b"C3 FileFault ", name.as_bytes()),
        FileAnswer::NoMemory => close(sink, b"", MEMORY, false),
    }
}

/// Loads the file of this name, and writes the reply: its lines, and one last line.
pub fn load_file<K: Sink, F: Files>(
    alloc: Global,
    session: &mut Session,
    name: &str,
    sink: &mut K,
    files: &mut F,
) -> Result<(), Unwritten>
    ensures reply { (held : Option Held) → HoldsOn held (F.held files.old)
        → IsLoaded held name.now (state_at session.old (F.faults files.old)) (K.written sink.old) (K.written sink.new) (state_at session.new (F.faults files.new)) result }
    ensures counts { CountsWrites (K.faults sink.old) (K.faults sink.new) result }
    ensures files { HoldsOn (F.held files.old) (F.held files.new) }
{
    match load_lines(alloc, session, name, sink, files) {
        Ok(well) => write_all(sink, last_line(well)),
        Err(error) => Err(error),
    }
}
