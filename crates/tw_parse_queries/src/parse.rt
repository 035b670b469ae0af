//! Reading declarations that search.
ghost use Rattle.std.specs.Prelude.{◌≡◌, ℕ, ◌≤◌, length, drop, All, IfOk, IfErr, OnOk, MatchBool, true};
ghost use Rattle.tw_lexer.specs.Tokens.{IsWithin, ThroughDot};
ghost use Rattle.tw_parse.specs.Faults.{DotEnds};
ghost use Rattle.tw_parse.specs.Queries.{Asks, AskingFault, IsShallow, query_of};
ghost use Rattle.tw_parse.specs.Sources.{lexemes_from};
ghost use Rattle.tw_parse.specs.Words.{lexemes, first_place};
ghost use Rattle.tw_parse_queries.specs.Faults.{at_place, FormIs, HasHeader, HasNoHeader, SearchesAll, SearchFaultOf, SearchFaultStands};
ghost use Rattle.tw_parse_queries.specs.Searches.{BeginsSearch, Searches, search_of};

use crate::bounds::{bound_of, is_bound};
use crate::keywords::{Form, form_of};
use crate::search::ExtSearch;
use std::alloc::Global;
use tw_fixity::FixTable;
use tw_lexer::{Token, Tokens};
use tw_parse::{ExtQuery, Part, Source, SyntaxFault, Word, read_query, sequence, too_deep};

// Whether the header stands: `%query e t` with two bounds, or `%solve c :`. Its tokens are three.
fn has_header(source: &Source<'_>, form: Form) -> bool
    requires { FormIs source.now form }
    ensures stands { MatchBool result (HasHeader source.now form) (HasNoHeader (lexemes_from source.now 0)) }
    ensures long { result ≡ true → 3 ≤ length source.now.tokens.now }
{
    match form {
        Form::Query => {
            is_bound(source.word(1), source.bytes(1)) && is_bound(source.word(2), source.bytes(2))
        }
        Form::Solve => source.word(1) == Word::Name && source.word(2) == Word::Colon,
    }
}

// The tokens behind the header.
fn behind(tokens: &[Token]) -> &[Token]
    requires { 3 ≤ length tokens.now }
    ensures { result.now ≡ drop 3 tokens.now }
{
    &tokens[3..]
}

// What is asked behind `%query e t`.
fn question(alloc: Global, source: &Source<'_>) -> Result<ExtQuery, SyntaxFault>
    requires dot { DotEnds source.now }
    requires long { 3 ≤ length source.now.tokens.now }
    ensures reads { IfOk result (λ q. Asks source.now.fixities.now (lexemes_from source.now 3) (query_of q)) }
    ensures fault { IfErr result (AskingFault source.now.fixities.now source.now.end (lexemes_from source.now 3)) }
{
    let goal = Source {
        text: source.text,
        tokens: behind(source.tokens),
        end: source.end,
        fixities: source.fixities,
    };
    read_query(alloc, &goal)
}

// The fault of what is asked, as one of the declaration: a rule is broken by the whole.
fn of_declaration(source: &Source<'_>, fault: SyntaxFault) -> SyntaxFault
    ensures { result ≡ at_place (first_place source.now.end (lexemes_from source.now 0)) fault }
{
    match fault {
        SyntaxFault::BadDecl(_) => SyntaxFault::BadDecl(source.place(0)),
        fault => fault,
    }
}

// Reads `%query`, whose header stands.
fn query(alloc: Global, source: &Source<'_>) -> Result<ExtSearch, SyntaxFault>
    requires dot { DotEnds source.now }
    requires header { HasHeader source.now Form.Query }
    requires long { 3 ≤ length source.now.tokens.now }
    ensures reads { IfOk result (λ s. SearchesAll source.now (search_of s)) }
    ensures fault { IfErr result (SearchFaultOf source.now) }
{
    let query = match question(alloc, source) {
        Ok(query) => query,
        Err(fault) => return Err(of_declaration(source, fault)),
    };
    let Some(expected) = bound_of(source.bytes(1)) else {
        return Err(SyntaxFault::BadDecl(source.place(0)));
    };
    let Some(sought) = bound_of(source.bytes(2)) else {
        return Err(SyntaxFault::BadDecl(source.place(0)));
    };
    Ok(ExtSearch::Query(expected, sought, query))
}

// Reads `%solve`, whose header stands.
fn solve(alloc: Global, source: &Source<'_>) -> Result<ExtSearch, SyntaxFault>
    requires dot { DotEnds source.now }
    requires header { HasHeader source.now Form.Solve }
    ensures reads { IfOk result (λ s. SearchesAll source.now (search_of s)) }
    ensures fault { IfErr result (SearchFaultOf source.now) }
{
    let (part, end) = sequence(alloc, source, 3)?;
    if source.word(end) != Word::Dot {
        return Err(SyntaxFault::Syntax(source.place(end)));
    }
    match part {
        Part::AtFault(place) => Err(SyntaxFault::Fixity(place)),
        Part::Term(goal) => {
            let name = source.name(alloc, 1)?;
            Ok(ExtSearch::Solve(name, source.place(1), goal))
        }
    }
}

// Reads a declaration of this form.
fn search(alloc: Global, source: &Source<'_>, form: Form) -> Result<ExtSearch, SyntaxFault>
    requires dot { DotEnds source.now }
    requires form { FormIs source.now form }
    ensures reads { IfOk result (λ s. SearchesAll source.now (search_of s)) }
    ensures fault { IfErr result (SearchFaultOf source.now) }
{
    if !has_header(source, form) {
        return Err(SyntaxFault::BadDecl(source.place(0)));
    }
    match form {
        Form::Query => query(alloc, source),
        Form::Solve => solve(alloc, source),
    }
}

/// Reads a declaration that searches from the tokens that `lex` gave for this text: the one reading that the operators of the table give it, or the cause why there is none.
pub fn parse_search(
    alloc: Global,
    tokens: &Tokens,
    text: &[u8],
    fixities: &FixTable,
) -> Result<ExtSearch, SyntaxFault>
    requires within { All (IsWithin (length text.now)) tokens.now.list.items }
    requires through_dot { (from : ℕ) × ThroughDot text.now from tokens.now.list.items tokens.now.upto }
    requires search { BeginsSearch (lexemes text.now tokens.now.list.items) }
    ensures reading { IfOk result (λ s. Searches fixities.now (lexemes text.now tokens.now.list.items) (search_of s)) }
    // No bracket opens past the limit of nesting.
    ensures first_causes { OnOk result (IsShallow (lexemes text.now tokens.now.list.items)) }
    ensures fault { IfErr result (SearchFaultStands fixities.now tokens.now.at (lexemes text.now tokens.now.list.items)) }
{
    let source = Source {
        text,
        tokens: &tokens.list,
        end: tokens.at,
        fixities,
    };
    let Some(form) = form_of(source.bytes(0)) else {
        unreachable!();
    };
    if let Some(place) = too_deep(alloc, &source)? {
        return Err(SyntaxFault::Nesting(place));
    }
    search(alloc, &source, form)
}
