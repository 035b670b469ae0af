//! What stands before and behind the types of a check.
ghost use Rattle.std.specs.Prelude.{◌≡◌, ◌<◌, ◌+◌, length, IfOk, IsSome, MatchBool, MatchOption, None, true, false};
ghost use Rattle.tw_parse.specs.Faults.{DotEnds};
ghost use Rattle.tw_parse.specs.Keywords.{is_identifier};
ghost use Rattle.tw_parse.specs.Sources.{lexemes_from};
ghost use Rattle.tw_parse.specs.Words.{first_bytes, first_place, first_word, is_bindable};
ghost use Rattle.tw_parse_checks.specs.Marks.{named_mark_by};
ghost use Rattle.tw_parse_checks.specs.Parts.{HasNoFamily, HasNoHead, HasNoLabel, HasNoOpening, SaysFirst, name_at, variable_at};
ghost use Rattle.tw_parse_checks.specs.Shapes.{Closing, Family, Head, Opening, Row, TakesLabel, TakesMark, TakesName};

use crate::check::ExtMark;
use crate::marks::{mark_of, named_mark};
use std::alloc::{AllocError, Global};
use tw_parse::{ExtName, Source, Word, is_identifier};

/// The token with this number as a name that is looked up.
pub fn ext_name(alloc: Global, source: &Source<'_>, number: usize) -> Result<ExtName, AllocError>
    ensures { IfOk result (λ x. (x.name ≡ first_bytes (lexemes_from source.now number)) × (x.at ≡ first_place source.now.end (lexemes_from source.now number))) }
{
    let name = source.name(alloc, number)?;
    Ok(ExtName {
        name,
        at: source.place(number),
    })
}

/// Whether the token may be a bound name.
pub fn is_bindable(word: Word) -> bool
    ensures { result ≡ is_bindable word }
{
    matches!(word, Word::Name | Word::Underscore)
}

/// Whether the token of this number is this word.
pub fn says(source: &Source<'_>, number: usize, word: &[u8]) -> bool
    ensures says { MatchBool result (SaysFirst word.now (lexemes_from source.now number)) (SaysFirst word.now (lexemes_from source.now number) → ⊥) }
    ensures within { result ≡ true → number < length source.now.tokens.now }
{
    if source.word(number) != Word::Name {
        return false;
    }
    source.bytes(number) == word
}

/// Whether the label of a block begins with the token of this number.
pub fn is_label(source: &Source<'_>, number: usize) -> bool
    ensures labels { MatchBool result (TakesLabel (lexemes_from source.now number) (name_at source.now number) (lexemes_from source.now (number + 2))) (HasNoLabel (lexemes_from source.now number)) }
    ensures within { result ≡ true → number + 1 < length source.now.tokens.now }
{
    if source.word(number) != Word::Name {
        return false;
    }
    if source.word(number + 1) != Word::Colon {
        return false;
    }
    true
}

/// Whether what stands before the type of a binder begins with the token of this number.
pub fn opens(source: &Source<'_>, number: usize) -> bool
    ensures opens { MatchBool result (Opening (lexemes_from source.now number) (variable_at source.now number) (lexemes_from source.now (number + 3))) (HasNoOpening (lexemes_from source.now number)) }
    ensures within { result ≡ true → number + 2 < length source.now.tokens.now }
{
    if source.word(number) != Word::LBrace {
        return false;
    }
    if !is_bindable(source.word(number + 1)) {
        return false;
    }
    if source.word(number + 2) != Word::Colon {
        return false;
    }
    true
}

/// The mark of the quantified variable whose head begins with the token of this number, if one does.
pub fn head(source: &Source<'_>, number: usize) -> Option<ExtMark>
    ensures head { MatchOption result (HasNoHead (lexemes_from source.now number)) (λ mark. Head (lexemes_from source.now number) mark (variable_at source.now (number + 1)) (lexemes_from source.now (number + 4))) }
    ensures within { IsSome result → number + 3 < length source.now.tokens.now }
{
    if source.word(number) != Word::Name {
        return None;
    }
    let mark = mark_of(source.bytes(number))?;
    if !opens(source, number + 1) {
        return None;
    }
    Some(mark)
}

/// The family that begins with the token of this number, behind a parenthesis or not, and the number of the token behind it.
pub fn family(
    alloc: Global,
    source: &Source<'_>,
    from: usize,
    parens: bool,
) -> Result<Option<(ExtName, usize)>, AllocError>
    ensures { IfOk result (λ o. MatchOption o (HasNoFamily parens (lexemes_from source.now from)) (λ r. Family parens (lexemes_from source.now from) r.0 (lexemes_from source.now r.1))) }
{
    if !parens {
        if !is_identifier(source.word(from)) {
            return Ok(None);
        }
        let bare = ext_name(alloc, source, from)?;
        return Ok(Some((bare, from + 1)));
    }
    if source.word(from) != Word::LParen {
        return Ok(None);
    }
    if !is_identifier(source.word(from + 1)) {
        return Ok(None);
    }
    let inside = ext_name(alloc, source, from + 1)?;
    Ok(Some((inside, from + 2)))
}

/// Whether the tokens from here on are the dot, behind the closing parenthesis or not.
pub fn closes(source: &Source<'_>, from: usize, parens: bool) -> bool
    requires { DotEnds source.now }
    ensures { MatchBool result (Closing parens (lexemes_from source.now from)) (Closing parens (lexemes_from source.now from) → ⊥) }
{
    if !parens {
        if source.word(from) != Word::Dot {
            return false;
        }
        return true;
    }
    if source.word(from) != Word::RParen {
        return false;
    }
    if source.word(from + 1) != Word::Dot {
        return false;
    }
    true
}

/// The identifiers from this token on, and the number of the token behind them.
pub fn names(
    alloc: Global,
    source: &Source<'_>,
    from: usize,
) -> Result<(Vec<ExtName>, usize), AllocError>
    ensures reads { IfOk result (λ r. Row TakesName (lexemes_from source.now from) r.0.items (lexemes_from source.now r.1)) }
    ensures stops { IfOk result (λ r. is_identifier (first_word (lexemes_from source.now r.1)) ≡ false) }
{
    let mut names = Vec::new(alloc);
    let mut upto = from;
    'names: while is_identifier(source.word(upto)) {
        let name = ext_name(alloc, source, upto)?;
        names.push(name)?;
        upto += 1;
    }
    Ok((names, upto))
}

// The mark with a name that the token of this number is, if it is one.
fn mark(source: &Source<'_>, number: usize) -> Option<ExtMark>
    ensures mark { result ≡ named_mark_by (first_word (lexemes_from source.now number)) (first_bytes (lexemes_from source.now number)) }
    ensures within { IsSome result → number < length source.now.tokens.now }
{
    match source.word(number) {
        Word::Name => named_mark(source.bytes(number)),
        _ => None,
    }
}

/// The marks with names from this token on, and the number of the token behind them.
pub fn marks(
    alloc: Global,
    source: &Source<'_>,
    from: usize,
) -> Result<(Vec<ExtMark>, usize), AllocError>
    ensures reads { IfOk result (λ r. Row TakesMark (lexemes_from source.now from) r.0.items (lexemes_from source.now r.1)) }
    ensures stops { IfOk result (λ r. named_mark_by (first_word (lexemes_from source.now r.1)) (first_bytes (lexemes_from source.now r.1)) ≡ None) }
{
    let mut marks = Vec::new(alloc);
    let mut upto = from;
    'marks: while let Some(mark) = mark(source, upto) {
        marks.push(mark)?;
        upto += 1;
    }
    Ok((marks, upto))
}
