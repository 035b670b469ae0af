//! The words of the program, by the rules of `clap`.
ghost use Rattle.std.specs.Prelude.{◌≡◌, ℕ, [], codes, IfOk, MatchOption, map, string_bytes, option_map, unwrap_or};
ghost use Rattle.clap.specs.Words.{FailsBy, all_of, first_of, found_of, kind_of, matches_of, rows_of};
ghost use Rattle.clap.specs.Faults.{fault_of};
ghost use Rattle.tw_words.specs.Command.{fault_for, twelf};
ghost use Rattle.tw_words.specs.Words.{Answers, IsSteps, StepsRead};

use crate::{Words, WordsFault};
use clap::error::ErrorKind;
use clap::{Arg, ArgAction, ArgMatches, Command, Error};
use std::alloc::{AllocError, Global};
use tw_command::STEPS_MOST;

/// What the words behind the program's name say: `[--steps N] [FILE]...`. `--steps` stands at most once, as `--steps 5`
/// or `--steps=5`, at any place; behind a word `--` all words are files. Want of memory may be the answer to any words.
pub fn read_words(alloc: Global, words: &[String]) -> Result<Words, WordsFault>
    ensures { Answers (map (λ w. string_bytes w) words.now) result }
{
    let matches = match matches_in(alloc, words) {
        Ok(matches) => matches,
        Err(error) => return Err(fault_for(&error)),
    };
    let steps = match steps_in(&matches) {
        Ok(steps) => steps,
        Err(fault) => return Err(fault),
    };
    match files_in(alloc, &matches) {
        Ok(files) => Ok(Words { steps, files }),
        Err(_) => Err(WordsFault::NoMemory),
    }
}

// What clap finds in the words.
fn matches_in<'a>(alloc: Global, words: &'a [String]) -> Result<ArgMatches<'a>, Error>
    ensures rows { IfOk result (λ m. rows_of (found_of m) ≡ matches_of twelf (map (λ w. string_bytes w) words.entry.now)) }
    ensures kinds { FailsBy (fault_of twelf (map (λ w. string_bytes w) words.entry.now)) result }
{
    let steps = Arg::new(alloc, "steps")
        .long("steps")
        .action(ArgAction::Set);
    let files = Arg::new(alloc, "files").action(ArgAction::Append);
    let command = Command::new(alloc, "twelf")
        .no_binary_name(true)
        .disable_help_flag(true)
        .disable_version_flag(true)
        .arg(steps)?
        .arg(files)?;
    command.try_get_matches_from(words)
}

// The fault that an error of clap is.
fn fault_for(error: &Error) -> WordsFault
    ensures { result ≡ fault_for (kind_of error.now) }
{
    match error.kind() {
        ErrorKind::OutOfMemory => WordsFault::NoMemory,
        _ => WordsFault::Bad,
    }
}

// The word that was given for the steps.
fn steps_word<'a>(matches: &ArgMatches<'a>) -> Option<&'a str>
    ensures { option_map (λ s. s.now) result ≡ first_of (codes "steps") (rows_of (found_of matches.now)) }
{
    matches.get_str("steps")
}

// The steps that were asked for, if any.
fn steps_in(matches: &ArgMatches<'_>) -> Result<Option<u64>, WordsFault>
    ensures { StepsRead (first_of (codes "steps") (rows_of (found_of matches.now))) result }
{
    match steps_word(matches) {
        None => Ok(None),
        Some(word) => match number_of(word) {
            None => Err(WordsFault::Bad),
            Some(steps) => Ok(Some(steps)),
        },
    }
}

// The number that the word spells.
fn number_of(word: &str) -> Option<u64>
    ensures { MatchOption result ((n : ℕ) → ¬ (IsSteps word.now n)) (λ n. IsSteps word.now n) }
{
    match word.parse::<u64>() {
        Ok(number) if 1 <= number && number <= STEPS_MOST => Some(number),
        _ => None,
    }
}

// The words that name files, owned.
fn files_in(alloc: Global, matches: &ArgMatches<'_>) -> Result<Vec<String>, AllocError>
    ensures { IfOk result (λ files. map (λ f. string_bytes f) files.items ≡ unwrap_or (all_of (codes "files") (rows_of (found_of matches.now))) []) }
{
    match matches.get_raw("files") {
        None => Ok(Vec::new(alloc)),
        Some(words) => copies(alloc, words),
    }
}

// The same words, owned.
fn copies(alloc: Global, words: &[&str]) -> Result<Vec<String>, AllocError>
    ensures { IfOk result (λ copies. map (λ w. string_bytes w) copies.items ≡ map (λ w. w.now) words.now) }
{
    let mut copies = Vec::new(alloc);
    for word in words {
        copies.push(String::from_str(alloc, word)?)?;
    }
    Ok(copies)
}
