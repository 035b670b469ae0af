//! How deep brackets are nested.
ghost use Rattle.std.specs.Prelude.{◌≡◌, ◌<◌, [], IfOk};
ghost use Rattle.tw_parse.specs.Sources.{lexemes_from};
ghost use Rattle.tw_parse.specs.Nesting.{bracket_of, closes, level_behind, first_too_deep};

use crate::source::Source;
use crate::words::Word;
use std::alloc::{AllocError, Global};
use tw_lexer::Place;

/// How deep brackets may be nested.
pub const LIMIT: u32 = 1000;

/// A bracket that is open.
#[derive(Clone, Copy, Debug, PartialEq, Eq)]
pub enum Bracket {
    Paren,
    Brace,
    Square,
}

/// An open bracket, and the level that its closing one goes back to.
#[derive(Clone, Copy, Debug)]
pub struct Open {
    bracket: Bracket,
    behind: u32,
}

fn bracket_of(word: Word) -> Option<Bracket>
    ensures { result ≡ bracket_of word }
{
    match word {
        Word::LParen => Some(Bracket::Paren),
        Word::LBrace => Some(Bracket::Brace),
        Word::LBracket => Some(Bracket::Square),
        _ => None,
    }
}

// Whether the word closes this bracket.
fn closes(bracket: Bracket, word: Word) -> bool
    ensures { result ≡ closes bracket word }
{
    match bracket {
        Bracket::Paren => matches!(word, Word::RParen),
        Bracket::Brace => matches!(word, Word::RBrace),
        Bracket::Square => matches!(word, Word::RBracket),
    }
}

// The level behind the closing bracket: a parenthesis goes back to the level before it, and the others to that just behind the opening one.
fn level_behind(bracket: Bracket, level: u32) -> u32
    requires { level < LIMIT }
    ensures { result ≡ level_behind bracket level }
{
    match bracket {
        Bracket::Paren => level,
        Bracket::Brace | Bracket::Square => level + 1,
    }
}

/// The place of the first bracket that is nested too deep, if there is one.
pub fn too_deep(alloc: Global, source: &Source<'_>) -> Result<Option<Place>, AllocError>
    ensures { IfOk result (λ place. place ≡ first_too_deep [] 0 (lexemes_from source.now 0)) }
{
    let mut brackets = Vec::new(alloc);
    let mut level = 0;
    for number in 0..source.tokens.len() {
        let word = source.word(number);
        if let Some(bracket) = bracket_of(word) {
            if level >= LIMIT {
                return Ok(Some(source.place(number)));
            }
            let behind = level_behind(bracket, level);
            brackets.push(Open { bracket, behind })?;
            level += 1;
        } else if let Some(top) = brackets.pop() {
            if closes(top.bracket, word) {
                level = top.behind;
            } else {
                brackets.push(top)?;
            }
        }
    }
    Ok(None)
}
