//! What a command line says.
ghost use Rattle.std.specs.Prelude.{◌≡◌, ◌∷◌, IfOk, IfErr};
ghost use Rattle.std.specs.Str.{IsUtf8};
ghost use Rattle.tw_command.specs.Words.{words_of};
ghost use Rattle.tw_command.specs.Meaning.{IsAnswer, IsCommand, HasTextOnly, KeepsText, alone, get_means, line_means, meaning_in, set_means, set_to, truth_of, unknown, with_argument, with_two, words_mean};

use crate::limits::STEPS_MOST;
use crate::number::number_within;
use crate::words::next_word;
use crate::{Command, CommandFault, Parameter, Setting};
use std::alloc::Global;
use std::str;
use tw_fixity::Name;

/// The command of a line, or None where the line has no words. Words are parted by the white space of ASCII.
/// Memory is taken for the name of a file or of a declaration alone.
pub fn read_command(alloc: Global, line: &[u8]) -> Result<Option<Command>, CommandFault>
    ensures means { IsAnswer (line_means line.now) result }
    ensures text { HasTextOnly result }
{
    match str::from_utf8(line) {
        Ok(text) => read_text(alloc, text),
        Err(_) => Err(CommandFault::Unknown),
    }
}

// The command of a line that is text.
fn read_text(alloc: Global, line: &str) -> Result<Option<Command>, CommandFault>
    ensures means { IsAnswer (words_mean (words_of line.now)) result }
    ensures text { HasTextOnly result }
{
    let Some((word, rest)) = next_word(line) else {
        return Ok(None);
    };
    match read_words(alloc, word, rest) {
        Ok(command) => Ok(Some(command)),
        Err(fault) => Err(fault),
    }
}

// The command of this word and of those behind it.
fn read_words(alloc: Global, word: &str, rest: &str) -> Result<Command, CommandFault>
    ensures means { IsCommand (words_mean (word.now ∷ words_of rest.now)) result }
    ensures text { KeepsText result }
{
    let Some((first, rest)) = next_word(rest) else {
        return command_alone(word);
    };
    let Some((second, rest)) = next_word(rest) else {
        return command_with_argument(alloc, word, first);
    };
    if next_word(rest).is_some() {
        return Err(CommandFault::Unknown);
    }
    command_with_two(word, first, second)
}

// The command of one word.
fn command_alone(word: &str) -> Result<Command, CommandFault>
    ensures means { IsCommand (meaning_in alone word.now unknown) result }
    ensures text { KeepsText result }
{
    if word == "readDecl" {
        Ok(Command::ReadDecl)
    } else if word == "Print.sgn" {
        Ok(Command::PrintSgn)
    } else if word == "Print.subord" {
        Ok(Command::PrintSubord)
    } else if word == "top" {
        Ok(Command::Top)
    } else if word == "reset" {
        Ok(Command::Reset)
    } else if word == "version" {
        Ok(Command::Version)
    } else if word == "quit" || word == "OS.exit" {
        Ok(Command::Quit)
    } else {
        Err(CommandFault::Unknown)
    }
}

// The command of a word and its argument.
fn command_with_argument(alloc: Global, word: &str, argument: &str) -> Result<Command, CommandFault>
    ensures means { IsCommand (meaning_in (with_argument argument.now) word.now unknown) result }
    ensures text { KeepsText result }
{
    if word == "loadFile" {
        match name(alloc, argument) {
            Ok(name) => Ok(Command::LoadFile(name)),
            Err(fault) => Err(fault),
        }
    } else if word == "decl" {
        match name(alloc, argument) {
            Ok(name) => Ok(Command::Decl(name)),
            Err(fault) => Err(fault),
        }
    } else if word == "get" {
        command_get(argument)
    } else {
        Err(CommandFault::Unknown)
    }
}

// The name of a file or of a declaration.
fn name(alloc: Global, text: &str) -> Result<Name, CommandFault>
    ensures name { IfOk result (λ n. n ≡ text.now) }
    ensures text { IfOk result (λ n. IsUtf8 n) }
    ensures memory { IfErr result (λ e. e ≡ CommandFault.NoMemory) }
{
    match Name::from_text(alloc, text) {
        Ok(name) => Ok(name),
        Err(_) => Err(CommandFault::NoMemory),
    }
}

// The command that shows a parameter.
fn command_get(parameter: &str) -> Result<Command, CommandFault>
    ensures means { IsCommand (get_means parameter.now) result }
    ensures text { KeepsText result }
{
    if parameter == "chatter" {
        Ok(Command::Get(Parameter::Chatter))
    } else if parameter == "Print.implicit" {
        Ok(Command::Get(Parameter::Implicit))
    } else if parameter == "steps" {
        Ok(Command::Get(Parameter::Steps))
    } else {
        Err(CommandFault::BadParameter)
    }
}

// The command of a word and its two arguments.
fn command_with_two(word: &str, parameter: &str, value: &str) -> Result<Command, CommandFault>
    ensures means { IsCommand (meaning_in (with_two parameter.now value.now) word.now unknown) result }
    ensures text { KeepsText result }
{
    if word != "set" {
        return Err(CommandFault::Unknown);
    }
    match setting(parameter, value) {
        Some(setting) => Ok(Command::Set(setting)),
        None => Err(CommandFault::BadParameter),
    }
}

// The parameter with the value that the word spells.
fn setting(parameter: &str, value: &str) -> Option<Setting>
    ensures { set_means parameter.now value.now ≡ set_to (λ s. s) result }
{
    if parameter == "chatter" {
        match number_within(value.as_bytes(), 0, 6) {
            Some(value) => Some(Setting::Chatter(value as u8)),
            None => None,
        }
    } else if parameter == "Print.implicit" {
        match truth(value) {
            Some(value) => Some(Setting::Implicit(value)),
            None => None,
        }
    } else if parameter == "steps" {
        match number_within(value.as_bytes(), 1, STEPS_MOST) {
            Some(value) => Some(Setting::Steps(value)),
            None => None,
        }
    } else {
        None
    }
}

// The truth value that the word spells.
fn truth(word: &str) -> Option<bool>
    ensures { result ≡ truth_of word.now }
{
    if word == "true" {
        Some(true)
    } else if word == "false" {
        Some(false)
    } else {
        None
    }
}
