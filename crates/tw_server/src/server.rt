//! The command loop.
ghost use Rattle.std.specs.Prelude.{◌≡◌, ◌≢◌, ◌≤◌, ◌++◌, [], List, ℕ, ◌<◌, map, string_bytes, true, false, IfOk};
ghost use Rattle.std.specs.declared.option.Option.{Option};
ghost use Rattle.tw_ports.specs.Files.{Held, HoldsOn};
ghost use Rattle.tw_server.specs.Lines.{IsLine};
ghost use Rattle.tw_decl.specs.View.{View, IsSound};
ghost use Rattle.tw_server.specs.State.{state_at};
ghost use Rattle.tw_server.specs.Outcome.{Serves, with_words};
ghost use Rattle.tw_words.specs.Words.{AreWords};
ghost use Rattle.tw_server.specs.Phases as phases;
ghost use Rattle.tw_server.specs.Playing.{HoldsSearch, IsPhase, SaysLast, SaysReply, last_of};
ghost use Rattle.tw_server.specs.Replies.{reply_bytes};
ghost use Rattle.tw_server.specs.Turns.{AreOpened, Commanded, DeclTurn, LastTurn, Moves, TurnOf};
ghost use Rattle.tw_server.specs.Written.{GainsReply};
ghost use Rattle.tw_server.specs.Gather.{IsKept};
ghost use Rattle.tw_server.specs.Counts.{CountsWrites, StatusCounts, TurnCounts};
ghost use Rattle.tw_server.specs.Limits.{input_limit};

use crate::answer::answer;
use crate::command::say;
use crate::declaration::answer_text;
use crate::feed::{Feed, Stop};
use crate::line::{Line, read_line};
use crate::load::load_file;
use crate::phase::{Phase, Waiting};
use crate::query::{Answered, answer_choice, answer_query};
use crate::reply::{Reply, write_reply};
use crate::status::Status;
use crate::text::{Text, read_text};
use crate::write::{Unwritten, write_all};
use std::alloc::Global;
use tw_decl::Session;
use tw_ports::{Files, Sink, Source};
use tw_words::{Words, WordsFault, read_words};

const BANNER: &[u8] = b"Twelf 1.4 LF profile\n%% OK %%\n";

const USAGE: &[u8] = b"usage: twelf [--steps N] [--generate N] [FILE]...\n";

// Reads a declaration's text behind a whole line, and answers it.
fn declaration<S: Source, K: Sink>(
    alloc: Global,
    session: &mut Session,
    feed: &mut Feed,
    source: &mut S,
    sink: &mut K,
) -> Result<(), Status>
    ensures moves { Moves feed.old (S.left source.old) feed.new (S.left source.new) (K.written sink.old) (K.written sink.new)
        (λ text last. DeclTurn (S.left source.new) feed.new result session.old text last session.new) }
    ensures counts { TurnCounts (S.faults source.old) (S.faults source.new) (K.faults sink.old) (K.faults sink.new) result }
{
    let mut text = Text::new(alloc);
    match read_text(feed, &mut text, source) {
        Ok(()) => match answer_text(alloc, session, &text, sink) {
            Ok(()) => Ok(()),
            Err(_) => Err(Status::WriteFault),
        },
        Err(Stop::End) => match answer_text(alloc, session, &text, sink) {
            Ok(()) => Err(Status::Done),
            Err(_) => Err(Status::WriteFault),
        },
        Err(Stop::Failed) => Err(Status::ReadFault),
        Err(Stop::Long) => Err(Status::InputLong),
    }
}

// Carries out the command on a whole line.
fn command<S: Source, K: Sink, F: Files>(
    alloc: Global,
    session: &mut Session,
    feed: &mut Feed,
    line: &Line,
    source: &mut S,
    sink: &mut K,
    files: &mut F,
) -> Result<Phase, Status>
    requires { feed.old.seen ≤ input_limit }
    ensures moves { (held : Option Held) (bytes body : List ℕ) → HoldsOn held (F.held files.old) → IsLine true bytes body → IsKept line.now body
        → Moves feed.old (S.left source.old) feed.new (S.left source.new) (K.written sink.old) (K.written sink.new)
        (λ rest last. TurnOf held (S.left source.new) feed.new result phases.a_command (state_at session.old (F.faults files.old)) (bytes ++ rest) last (state_at session.new (F.faults files.new))) }
    ensures counts { TurnCounts (S.faults source.old) (S.faults source.new) (K.faults sink.old) (K.faults sink.new) result }
    ensures files { HoldsOn (F.held files.old) (F.held files.new) }
{
    let said = say(alloc, line);
    if said.is_quit() {
        return Err(Status::Done);
    }
    if said.takes_text() {
        return match declaration(alloc, session, feed, source, sink) {
            Ok(()) => Ok(Phase::Command),
            Err(status) => Err(status),
        };
    }
    match answer(alloc, session, &said, sink, files) {
        Ok(()) => Ok(said.next()),
        Err(_) => Err(Status::WriteFault),
    }
}

// Carries out the command on a line that the end of the input cuts short.
fn last_command<K: Sink, F: Files>(
    alloc: Global,
    session: &mut Session,
    line: &Line,
    sink: &mut K,
    files: &mut F,
) -> Result<(), Unwritten>
    ensures last { (held : Option Held) (bytes body : List ℕ) → HoldsOn held (F.held files.old) → IsLine false bytes body → IsKept line.now body
        → LastTurn held (K.written sink.old) (K.written sink.new) (state_at session.old (F.faults files.old)) bytes body (state_at session.new (F.faults files.new)) result }
    ensures counts { CountsWrites (K.faults sink.old) (K.faults sink.new) result }
    ensures files { HoldsOn (F.held files.old) (F.held files.new) }
{
    let said = say(alloc, line);
    if said.is_quit() {
        return Ok(());
    }
    if let Err(error) = answer(alloc, session, &said, sink, files) {
        return Err(error);
    }
    write_reply(sink, &said.next().last_reply())
}

// Writes a reply, and gives what is read behind it.
fn say_reply<K: Sink>(answered: Answered, sink: &mut K) -> Result<Phase, Status>
    ensures said { SaysReply answered (K.written sink.old) (K.written sink.new) result }
    ensures counts { (reads : ℕ) → TurnCounts reads reads (K.faults sink.old) (K.faults sink.new) result }
{
    match write_reply(sink, &answered.reply) {
        Ok(()) => Ok(answered.next),
        Err(_) => Err(Status::WriteFault),
    }
}

// Writes a reply, and that of the end of the input.
fn write_last<K: Sink>(sink: &mut K, reply: &Reply, next: &Phase) -> Result<(), Unwritten>
    ensures bytes { GainsReply (K.written sink.old) (K.written sink.new) (reply_bytes reply.now ++ last_of next.now) result }
    ensures counts { CountsWrites (K.faults sink.old) (K.faults sink.new) result }
{
    match write_reply(sink, reply) {
        Ok(()) => write_reply(sink, &next.last_reply()),
        Err(error) => Err(error),
    }
}

// The last reply, at the end of the input.
fn say_last<K: Sink>(answered: Answered, sink: &mut K) -> Status
    ensures said { SaysLast answered (K.written sink.old) (K.written sink.new) result }
    ensures counts { (reads : ℕ) → StatusCounts reads reads (K.faults sink.old) (K.faults sink.new) result }
{
    match write_last(sink, &answered.reply, &answered.next) {
        Ok(()) => Status::Done,
        Err(_) => Status::WriteFault,
    }
}

// One turn of the loop of answers that reads a query.
fn query_turn<S: Source, K: Sink>(
    alloc: Global,
    session: &Session,
    feed: &mut Feed,
    source: &mut S,
    sink: &mut K,
) -> Result<Phase, Status>
    ensures moves { (held : Option Held) (n : ℕ) → Moves feed.old (S.left source.old) feed.new (S.left source.new) (K.written sink.old) (K.written sink.new)
        (λ took last. TurnOf held (S.left source.new) feed.new result phases.a_query (state_at session.now n) took last (state_at session.now n)) }
    ensures counts { TurnCounts (S.faults source.old) (S.faults source.new) (K.faults sink.old) (K.faults sink.new) result }
{
    let mut text = Text::new(alloc);
    match read_text(feed, &mut text, source) {
        Ok(()) => say_reply(answer_query(alloc, session, &text), sink),
        Err(Stop::End) => Err(say_last(answer_query(alloc, session, &text), sink)),
        Err(Stop::Failed) => Err(Status::ReadFault),
        Err(Stop::Long) => Err(Status::InputLong),
    }
}

// One turn of the loop of answers that reads a line behind `More?`.
fn choice_turn<S: Source, K: Sink>(
    alloc: Global,
    session: &Session,
    feed: &mut Feed,
    line: &mut Line,
    waiting: Waiting,
    source: &mut S,
    sink: &mut K,
) -> Result<Phase, Status>
    requires { (w : phases.Waiting) × HoldsSearch session.now.signature waiting w }
    ensures moves { (held : Option Held) (n : ℕ) (w : phases.Waiting) → HoldsSearch session.now.signature waiting w
        → Moves feed.old (S.left source.old) feed.new (S.left source.new) (K.written sink.old) (K.written sink.new)
        (λ took last. TurnOf held (S.left source.new) feed.new result (phases.a_choice w) (state_at session.now n) took last (state_at session.now n)) }
    ensures counts { TurnCounts (S.faults source.old) (S.faults source.new) (K.faults sink.old) (K.faults sink.new) result }
{
    match read_line(feed, line, source) {
        Ok(()) => say_reply(answer_choice(alloc, session, waiting, line.body()), sink),
        Err(Stop::End) => Err(say_last(answer_choice(alloc, session, waiting, line.body()), sink)),
        Err(Stop::Failed) => Err(Status::ReadFault),
        Err(Stop::Long) => Err(Status::InputLong),
    }
}

// One turn of the loop that reads a command.
fn command_turn<S: Source, K: Sink, F: Files>(
    alloc: Global,
    session: &mut Session,
    feed: &mut Feed,
    line: &mut Line,
    source: &mut S,
    sink: &mut K,
    files: &mut F,
) -> Result<Phase, Status>
    ensures moves { (held : Option Held) → HoldsOn held (F.held files.old)
        → Moves feed.old (S.left source.old) feed.new (S.left source.new) (K.written sink.old) (K.written sink.new)
        (λ took last. TurnOf held (S.left source.new) feed.new result phases.a_command (state_at session.old (F.faults files.old)) took last (state_at session.new (F.faults files.new))) }
    ensures counts { TurnCounts (S.faults source.old) (S.faults source.new) (K.faults sink.old) (K.faults sink.new) result }
    ensures files { HoldsOn (F.held files.old) (F.held files.new) }
{
    match read_line(feed, line, source) {
        Ok(()) => command(alloc, session, feed, line, source, sink, files),
        Err(Stop::End) => match last_command(alloc, session, line, sink, files) {
            Ok(()) => Err(Status::Done),
            Err(_) => Err(Status::WriteFault),
        },
        Err(Stop::Failed) => Err(Status::ReadFault),
        Err(Stop::Long) => Err(Status::InputLong),
    }
}

// One turn of the loop, by what it reads.
fn turn<S: Source, K: Sink, F: Files>(
    alloc: Global,
    session: &mut Session,
    feed: &mut Feed,
    line: &mut Line,
    phase: Phase,
    source: &mut S,
    sink: &mut K,
    files: &mut F,
) -> Result<Phase, Status>
    requires phase { (p : phases.Phase) × IsPhase session.old.signature phase p }
    ensures moves { (held : Option Held) (p : phases.Phase) → HoldsOn held (F.held files.old) → IsPhase session.old.signature phase p
        → Moves feed.old (S.left source.old) feed.new (S.left source.new) (K.written sink.old) (K.written sink.new)
        (λ took last. TurnOf held (S.left source.new) feed.new result p (state_at session.old (F.faults files.old)) took last (state_at session.new (F.faults files.new))) }
    ensures counts { TurnCounts (S.faults source.old) (S.faults source.new) (K.faults sink.old) (K.faults sink.new) result }
    ensures files { HoldsOn (F.held files.old) (F.held files.new) }
{
    match phase {
        Phase::Command => command_turn(alloc, session, feed, line, source, sink, files),
        Phase::Query => query_turn(alloc, session, feed, source, sink),
        Phase::Choice(waiting) => choice_turn(alloc, session, feed, line, waiting, source, sink),
    }
}

// Answers commands until one ends the run or the input ends.
fn commands<S: Source, K: Sink, F: Files>(
    alloc: Global,
    session: &mut Session,
    feed: &mut Feed,
    line: &mut Line,
    source: &mut S,
    sink: &mut K,
    files: &mut F,
) -> Status
    requires fresh { feed.old ≡ record { held = []; seen = 0 } }
    ensures commanded { (held : Option Held) → HoldsOn held (F.held files.old)
        → Commanded held (S.left source.old) (S.left source.new) (K.written sink.old) (K.written sink.new)
        (state_at session.old (F.faults files.old)) result (state_at session.new (F.faults files.new)) }
    ensures counts { StatusCounts (S.faults source.old) (S.faults source.new) (K.faults sink.old) (K.faults sink.new) result }
    ensures files { HoldsOn (F.held files.old) (F.held files.new) }
{
    let mut phase = Phase::Command;
    loop {
        match turn(alloc, session, feed, line, phase, source, sink, files) {
            Ok(next) => phase = next,
            Err(status) => return status,
        }
    }
}

// Loads the files of the words, each with its reply.
fn open_all<K: Sink, F: Files>(
    alloc: Global,
    session: &mut Session,
    names: &[String],
    sink: &mut K,
    files: &mut F,
) -> Result<(), Unwritten>
    ensures opened { (held : Option Held) → HoldsOn held (F.held files.old)
        → AreOpened held (map (λ f. string_bytes f) names.now) (state_at session.old (F.faults files.old)) (K.written sink.old) (K.written sink.new) (state_at session.new (F.faults files.new)) result }
    ensures counts { CountsWrites (K.faults sink.old) (K.faults sink.new) result }
    ensures files { HoldsOn (F.held files.old) (F.held files.new) }
{
    for name in names {
        if let Err(error) = load_file(alloc, session, name, sink, files) {
            return Err(error);
        }
    }
    Ok(())
}

// Sets the steps that the words say, if they say it.
fn set_steps(session: &mut Session, steps: Option<u64>)
    ensures { (n : ℕ) → state_at session.new n ≡ with_words steps (state_at session.old n) }
{
    if let Some(steps) = steps {
        session.set_steps(steps);
    }
}

// Writes the banner, loads the files of the words, and answers commands.
fn run<S: Source, K: Sink, F: Files>(
    alloc: Global,
    words: &Words,
    session: &mut Session,
    feed: &mut Feed,
    line: &mut Line,
    source: &mut S,
    sink: &mut K,
    files: &mut F,
) -> Status
    requires fresh { feed.old ≡ record { held = []; seen = 0 } }
    requires sound { IsSound session.old }
    ensures serves { (held : Option Held) (said : List (List ℕ)) → HoldsOn held (F.held files.old) → AreWords said words.now.steps (map (λ f. string_bytes f) words.now.files.items)
        → Serves held said (S.left source.old) (S.left source.new) (K.written sink.old) (K.written sink.new)
        (state_at session.old (F.faults files.old)) result (state_at session.new (F.faults files.new)) }
    ensures counts { StatusCounts (S.faults source.old) (S.faults source.new) (K.faults sink.old) (K.faults sink.new) result }
    ensures files { HoldsOn (F.held files.old) (F.held files.new) }
{
    if let Err(_) = write_all(sink, BANNER) {
        return Status::WriteFault;
    }
    set_steps(session, words.steps);
    if let Err(_) = open_all(alloc, session, &words.files, sink, files) {
        return Status::WriteFault;
    }
    commands(alloc, session, feed, line, source, sink, files)
}

/// Loads the files that the words name, and answers commands until `quit`, `OS.exit` or the end of the input.
///
/// `words` are the words after the program's name, `[--steps N] [FILE]...`. What is written is the transcript of one run of the session, as far as source,
/// sink and files tell what they hold. The buffers for the source and for command lines are taken before the banner.
pub fn serve<S: Source, K: Sink, F: Files>(
    alloc: Global,
    words: &[String],
    session: &mut Session,
    source: &mut S,
    sink: &mut K,
    files: &mut F,
) -> Status
    // The transcript theorem.
    ensures serves { Serves (F.held files.old) (map (λ w. string_bytes w) words.now) (S.left source.old) (S.left source.new) (K.written sink.old) (K.written sink.new)
        (state_at session.old (F.faults files.old)) result (state_at session.new (F.faults files.new)) }
    // A read or a write failed exactly where the status says so: it doesn't give up by itself, swallow a fault or go on behind one.
    ensures counts { StatusCounts (S.faults source.old) (S.faults source.new) (K.faults sink.old) (K.faults sink.new) result }
    // The files hold what they held.
    ensures files { HoldsOn (F.held files.old) (F.held files.new) }
{
    session.is_sound();
    let said = match read_words(alloc, words) {
        Ok(said) => said,
        Err(WordsFault::NoMemory) => return Status::NoMemory,
        Err(WordsFault::Bad) => {
            return match write_all(sink, USAGE) {
                Ok(()) => Status::BadWords,
                Err(_) => Status::WriteFault,
            };
        }
    };
    let Ok(mut feed) = Feed::new(alloc) else {
        return Status::NoMemory;
    };
    let Ok(mut line) = Line::new(alloc) else {
        return Status::NoMemory;
    };
    run(
        alloc, &said, session, &mut feed, &mut line, source, sink, files,
    )
}
