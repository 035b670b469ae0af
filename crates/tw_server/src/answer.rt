//! The commands of one line.
ghost use Rattle.std.specs.Prelude.{◌≡◌, false};
ghost use Rattle.std.specs.declared.option.Option.{Option};
ghost use Rattle.tw_command.specs.Meaning.{NameIsText, command_means};
ghost use Rattle.tw_ports.specs.Files.{Held, HoldsOn};
ghost use Rattle.tw_server.specs.Counts.{CountsWrites};
ghost use Rattle.tw_server.specs.Loaded.{IsAnswered};
ghost use Rattle.tw_server.specs.Machine.{with_setting};
ghost use Rattle.tw_server.specs.Saying.{HasText, Says, is_quit, quits};
ghost use Rattle.tw_server.specs.State.{state_at};
ghost use Rattle.tw_server.specs.Words.{Said as SaidLine, meant};

use crate::command::Said;
use crate::declaration::answer_text;
use crate::load::load_file;
use crate::reply::{Reply, write_reply};
use crate::show::{show_name, show_signature, show_value};
use crate::subordination::show_subordination;
use crate::text::Text;
use crate::write::Unwritten;
use std::alloc::Global;
use tw_command::{Command, Setting};
use tw_decl::Session;
use tw_ports::{Files, Sink};

// Sets a parameter.
fn set(session: &mut Session, setting: Setting)
    ensures { session.new ≡ with_setting session.old setting }
{
    match setting {
        Setting::Chatter(chatter) => session.set_chatter(chatter),
        Setting::Implicit(implicit) => session.set_implicit(implicit),
        Setting::Steps(steps) => session.set_steps(steps),
    }
}

// Carries out a command. A declaration that is to be read has an empty text: its line ends the input.
fn carry_out<K: Sink, F: Files>(
    alloc: Global,
    session: &mut Session,
    command: &Command,
    sink: &mut K,
    files: &mut F,
) -> Result<(), Unwritten>
    requires goes_on { quits command.now ≡ false }
    requires text { NameIsText command.now }
    ensures reply { (held : Option Held) → HoldsOn held (F.held files.old)
        → IsAnswered held (state_at session.old (F.faults files.old)) (meant (command_means command.now)) (K.written sink.old) (K.written sink.new) (state_at session.new (F.faults files.new)) result }
    ensures counts { CountsWrites (K.faults sink.old) (K.faults sink.new) result }
    ensures files { HoldsOn (F.held files.old) (F.held files.new) }
{
    match command {
        Command::ReadDecl => answer_text(alloc, session, &Text::new(alloc), sink),
        Command::LoadFile(name) => match str::from_utf8(name.as_bytes()) {
            Ok(text) => load_file(alloc, session, text, sink, files),
            Err(_) => unreachable!(),
        },
        Command::Decl(name) => show_name(alloc, session, name, sink),
        Command::PrintSgn => show_signature(alloc, session, sink),
        Command::PrintSubord => show_subordination(alloc, session, sink),
        Command::Top => write_reply(sink, &Reply::Nothing),
        Command::Reset => {
            session.reset(alloc);
            write_reply(sink, &Reply::Done)
        }
        Command::Set(setting) => {
            set(session, *setting);
            write_reply(sink, &Reply::Done)
        }
        Command::Get(parameter) => show_value(session, *parameter, sink),
        Command::Version => write_reply(sink, &Reply::Version),
        Command::Quit => unreachable!(),
    }
}

/// Answers a line that doesn't end the run, and behind which nothing is read.
pub fn answer<K: Sink, F: Files>(
    alloc: Global,
    session: &mut Session,
    said: &Said,
    sink: &mut K,
    files: &mut F,
) -> Result<(), Unwritten>
    requires goes_on { is_quit said.now ≡ false }
    requires text { HasText said.now }
    ensures reply { (held : Option Held) (line : SaidLine) → HoldsOn held (F.held files.old) → Says line said.now
        → IsAnswered held (state_at session.old (F.faults files.old)) line (K.written sink.old) (K.written sink.new) (state_at session.new (F.faults files.new)) result }
    ensures counts { CountsWrites (K.faults sink.old) (K.faults sink.new) result }
    ensures files { HoldsOn (F.held files.old) (F.held files.new) }
{
    match said {
        Said::TooLong => write_reply(sink, &Reply::LongLine),
        Said::Blank => write_reply(sink, &Reply::Nothing),
        Said::Unknown => write_reply(sink, &Reply::UnknownCommand),
        Said::BadParameter => write_reply(sink, &Reply::BadParameter),
        Said::NoMemory => write_reply(sink, &Reply::NoMemory),
        Said::Command(command) => carry_out(alloc, session, command, sink, files),
    }
}
