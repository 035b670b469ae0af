//! Reading queries.
ghost use Rattle.std.specs.Prelude.{◌≡◌, ℕ, [], length, All, IfOk, IfErr, OnOk, option_map};
ghost use Rattle.tw_lexer.specs.Tokens.{IsWithin, ThroughDot};
ghost use Rattle.tw_parse.specs.Faults.{DotEnds};
ghost use Rattle.tw_parse.specs.Queries.{Asks, AsksAll, AskingFaultOf, IsAskable, IsOfLanguage, QueryFaultStands, asked, goal_tokens, has_proof, names_proof, proved_by, query_of, with_goal};
ghost use Rattle.tw_parse.specs.Sources.{lexemes_from};
ghost use Rattle.tw_parse.specs.View.{term_of};
ghost use Rattle.tw_parse.specs.Words.{first_bytes, first_word, lexemes};

use crate::fault::SyntaxFault;
use crate::keywords::{is_in_language, is_upper};
use crate::mentions::mentions;
use crate::nesting::too_deep;
use crate::parts::Part;
use crate::sequences::sequence;
use crate::source::Source;
use crate::term::ExtTerm;
use crate::words::Word;
use std::alloc::{AllocError, Global};
use tw_fixity::{FixTable, Name};
use tw_lexer::Tokens;

/// A query as it is written: `X : A.` with X for the proof of the goal A, or `A.`
///
/// An identifier and `:` in front name a proof, whatever stands behind them. So a goal that begins with them, as an ascription may, has to stand in parentheses.
#[derive(Debug, Drop)]
pub struct ExtQuery {
    pub proof: Option<Name>,
    pub goal: ExtTerm,
}

// Whether tokens with these words in front name a proof.
fn names_proof(first: Word, second: Word) -> bool
    ensures { result ≡ names_proof first second }
{
    match second {
        Word::Colon => matches!(
            first,
            Word::Name | Word::Forward | Word::Backward | Word::Underscore | Word::Star
        ),
        _ => false,
    }
}

// The same of the tokens of a source.
fn has_proof(source: &Source<'_>) -> bool
    ensures { result ≡ has_proof (lexemes_from source.now 0) }
{
    names_proof(source.word(0), source.word(1))
}

// The number of the token with which the goal begins.
fn goal_start(source: &Source<'_>) -> usize
    ensures { lexemes_from source.now result ≡ goal_tokens (lexemes_from source.now 0) }
{
    if has_proof(source) { 2 } else { 0 }
}

// The name of the goal's proof, which stands in front; none where it can't be its name.
fn proof(alloc: Global, source: &Source<'_>, goal: &ExtTerm) -> Result<Option<Name>, AllocError>
    ensures { IfOk result (λ name. proved_by (first_word (lexemes_from source.now 0)) (first_bytes (lexemes_from source.now 0)) (term_of goal.now) ≡ option_map (with_goal (term_of goal.now)) name) }
{
    let name = source.bytes(0);
    if source.word(0) != Word::Name || !is_upper(name) || mentions(alloc, goal, name)? {
        return Ok(None);
    }
    Ok(Some(source.name(alloc, 0)?))
}

// What the tokens ask, whose goal this is.
fn asked(alloc: Global, source: &Source<'_>, goal: ExtTerm) -> Result<Option<ExtQuery>, AllocError>
    ensures { IfOk result (λ query. option_map query_of query ≡ asked (lexemes_from source.now 0) (term_of goal)) }
{
    if !has_proof(source) {
        return Ok(Some(ExtQuery { proof: None, goal }));
    }
    let Some(name) = proof(alloc, source, &goal)? else {
        return Ok(None);
    };
    Ok(Some(ExtQuery {
        proof: Some(name),
        goal,
    }))
}

/// Reads a query from the tokens of a source, whose brackets are not counted here: the one reading that the operators give it, or the cause why there is none.
pub fn read_query(alloc: Global, source: &Source<'_>) -> Result<ExtQuery, SyntaxFault>
    requires dot { DotEnds source.now }
    ensures reads { IfOk result (λ q. AsksAll source.now (query_of q)) }
    ensures fault { IfErr result (AskingFaultOf source.now) }
{
    let (part, end) = sequence(alloc, source, goal_start(source))?;
    if source.word(end) != Word::Dot {
        return Err(SyntaxFault::Syntax(source.place(end)));
    }
    match part {
        Part::AtFault(place) => Err(SyntaxFault::Fixity(place)),
        Part::Term(goal) => match asked(alloc, source, goal)? {
            Some(query) => Ok(query),
            None => Err(SyntaxFault::BadDecl(source.place(0))),
        },
    }
}

// Tests that no keyword stands first but one of the language.
fn in_language(alloc: Global, source: &Source<'_>) -> Result<(), SyntaxFault>
    ensures stands { OnOk result (IsOfLanguage (lexemes_from source.now 0)) }
    ensures fault { IfErr result (QueryFaultStands source.now.fixities.now source.now.end (lexemes_from source.now 0)) }
{
    if source.word(0) != Word::Keyword || is_in_language(source.bytes(0)) {
        return Ok(());
    }
    let name = source.name(alloc, 0)?;
    Err(SyntaxFault::Unsupported(name, source.place(0)))
}

/// Reads a query from the tokens that `lex` gave for this text: the one reading that the operators of the table give it, or the cause why there is none.
pub fn parse_query(
    alloc: Global,
    tokens: &Tokens,
    text: &[u8],
    fixities: &FixTable,
) -> Result<ExtQuery, SyntaxFault>
    requires within { All (IsWithin (length text.now)) tokens.now.list.items }
    requires through_dot { (from : ℕ) × ThroughDot text.now from tokens.now.list.items tokens.now.upto }
    ensures reading { IfOk result (λ q. Asks fixities.now (lexemes text.now tokens.now.list.items) (query_of q)) }
    // No keyword stands first but one of the language, and no bracket opens past the limit of nesting.
    ensures first_causes { OnOk result (IsAskable (lexemes text.now tokens.now.list.items)) }
    ensures fault { IfErr result (QueryFaultStands fixities.now tokens.now.at (lexemes text.now tokens.now.list.items)) }
{
    let source = Source {
        text,
        tokens: &tokens.list,
        end: tokens.at,
        fixities,
    };
    in_language(alloc, &source)?;
    if let Some(place) = too_deep(alloc, &source)? {
        return Err(SyntaxFault::Nesting(place));
    }
    read_query(alloc, &source)
}
