//! Call patterns, and the labels of worlds.
ghost use Rattle.std.specs.Prelude.{◌≡◌, ◌+◌, ◌<◌, length, map, IfOk, IsSome, MatchOption, true, false};
ghost use Rattle.tw_parse.specs.Faults.{DotEnds};
ghost use Rattle.tw_parse.specs.Sources.{lexemes_from};
ghost use Rattle.tw_parse.specs.Words.{first_bytes, first_word};
ghost use Rattle.tw_parse_checks.specs.Checks.{call_of};
ghost use Rattle.tw_parse_checks.specs.Parts.{AreCalls, AreLabels, HasNoCalls, HasNoLabels, Stuck};
ghost use Rattle.tw_parse_checks.specs.Shapes.{Row, TakesCall, TakesFurtherLabel, TakesLabels, TakesVariable, is_variable};

use crate::check::ExtPattern;
use crate::heads::{closes, ext_name, family, says};
use crate::rules::keep_apart;
use std::alloc::{AllocError, Global};
use tw_parse::{ExtName, Source, Word, is_identifier, is_upper};

/// Whether the token may stand as a name in a call pattern.
pub fn is_variable(source: &Source<'_>, number: usize) -> bool
    ensures is { result ≡ is_variable (first_word (lexemes_from source.now number)) (first_bytes (lexemes_from source.now number)) }
    ensures within { result ≡ true → number < length source.now.tokens.now }
{
    match source.word(number) {
        Word::Underscore => true,
        Word::Name => is_upper(source.bytes(number)),
        _ => false,
    }
}

/// The names of a call pattern from this token on, and the number of the token behind them.
pub fn variables(
    alloc: Global,
    source: &Source<'_>,
    from: usize,
) -> Result<(Vec<ExtName>, usize), AllocError>
    ensures reads { IfOk result (λ r. Row TakesVariable (lexemes_from source.now from) r.0.items (lexemes_from source.now r.1)) }
    ensures stops { IfOk result (λ r. is_variable (first_word (lexemes_from source.now r.1)) (first_bytes (lexemes_from source.now r.1)) ≡ false) }
{
    let mut names = Vec::new(alloc);
    let mut upto = from;
    'names: while is_variable(source, upto) {
        let name = ext_name(alloc, source, upto)?;
        names.push(name)?;
        upto += 1;
    }
    Ok((names, upto))
}

// The call pattern that begins with the token of this number, and the number of the token behind it.
fn pattern(
    alloc: Global,
    source: &Source<'_>,
    from: usize,
) -> Result<Option<(ExtPattern, usize)>, AllocError>
    ensures { IfOk result (λ o. MatchOption o (Stuck TakesCall (lexemes_from source.now from)) (λ r. TakesCall (lexemes_from source.now from) (call_of r.0) (lexemes_from source.now r.1))) }
{
    let Some(found) = family(alloc, source, from, true)? else {
        return Ok(None);
    };
    let (family, at) = found;
    let (names, end) = variables(alloc, source, at)?;
    if source.word(end) != Word::RParen {
        return Ok(None);
    }
    Ok(Some((ExtPattern { family, names }, end + 1)))
}

// The call patterns from this token on, and the number of the token behind them.
fn patterns(
    alloc: Global,
    source: &Source<'_>,
    from: usize,
) -> Result<(Vec<ExtPattern>, usize), AllocError>
    ensures reads { IfOk result (λ r. Row TakesCall (lexemes_from source.now from) (map call_of r.0.items) (lexemes_from source.now r.1)) }
    ensures stops { IfOk result (λ r. Stuck TakesCall (lexemes_from source.now r.1)) }
{
    let mut patterns = Vec::new(alloc);
    let mut upto = from;
    'patterns: while let Some(found) = pattern(alloc, source, upto)? {
        let (pattern, next) = found;
        patterns.push(pattern)?;
        upto = next;
    }
    Ok((patterns, upto))
}

/// The call patterns that end a check, from this token on, where they keep their rules.
pub fn calls(
    alloc: Global,
    source: &Source<'_>,
    from: usize,
) -> Result<Option<Vec<ExtPattern>>, AllocError>
    requires { DotEnds source.now }
    ensures { IfOk result (λ o. MatchOption o (HasNoCalls (lexemes_from source.now from)) (λ ps. AreCalls (lexemes_from source.now from) (map call_of ps.items))) }
{
    let (patterns, end) = patterns(alloc, source, from)?;
    if patterns.is_empty() {
        return Ok(None);
    }
    if !closes(source, end, false) {
        return Ok(None);
    }
    if !keep_apart(&patterns) {
        return Ok(None);
    }
    Ok(Some(patterns))
}

// The label behind the bar that the token of this number is.
fn further_label(
    alloc: Global,
    source: &Source<'_>,
    from: usize,
) -> Result<Option<ExtName>, AllocError>
    ensures label { IfOk result (λ o. MatchOption o (Stuck TakesFurtherLabel (lexemes_from source.now from)) (λ l. TakesFurtherLabel (lexemes_from source.now from) l (lexemes_from source.now (from + 2)))) }
    ensures within { IfOk result (λ o. IsSome o → from + 1 < length source.now.tokens.now) }
{
    if !says(source, from, b"|") {
        return Ok(None);
    }
    if !is_identifier(source.word(from + 1)) {
        return Ok(None);
    }
    let label = ext_name(alloc, source, from + 1)?;
    Ok(Some(label))
}

// The labels behind the first one, from this token on, and the number of the token behind them.
fn further_labels(
    alloc: Global,
    source: &Source<'_>,
    first: ExtName,
    from: usize,
) -> Result<(Vec<ExtName>, usize), AllocError>
    ensures reads { IfOk result (λ r. AreLabels (lexemes_from source.now from) first r.0.items (lexemes_from source.now r.1)) }
    ensures stops { IfOk result (λ r. Stuck TakesFurtherLabel (lexemes_from source.now r.1)) }
{
    let mut labels = Vec::new(alloc);
    labels.push(first)?;
    let mut upto = from;
    'labels: while let Some(label) = further_label(alloc, source, upto)? {
        labels.push(label)?;
        upto += 2;
    }
    Ok((labels, upto))
}

/// The labels in parentheses from this token on, and the number of the token behind them.
pub fn labels(
    alloc: Global,
    source: &Source<'_>,
    from: usize,
) -> Result<Option<(Vec<ExtName>, usize)>, AllocError>
    ensures { IfOk result (λ o. MatchOption o (HasNoLabels (lexemes_from source.now from)) (λ r. TakesLabels (lexemes_from source.now from) r.0.items (lexemes_from source.now r.1))) }
{
    if source.word(from) != Word::LParen {
        return Ok(None);
    }
    if source.word(from + 1) == Word::RParen {
        return Ok(Some((Vec::new(alloc), from + 2)));
    }
    if !is_identifier(source.word(from + 1)) {
        return Ok(None);
    }
    let first = ext_name(alloc, source, from + 1)?;
    let (labels, end) = further_labels(alloc, source, first, from + 2)?;
    if source.word(end) != Word::RParen {
        return Ok(None);
    }
    Ok(Some((labels, end + 1)))
}
