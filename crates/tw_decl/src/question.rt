//! The texts of the loop of answers.
ghost use Rattle.std.specs.Prelude.{◌≡◌, ◌<◌, ◌-◌, ◌^◌, List, ℕ, length, IfOk, IfErr, MatchResult};
ghost use Rattle.tw_lexer.specs.declared.place.Place.{Place};
ghost use Rattle.tw_parse.specs.Queries.{query_of};
ghost use Rattle.tw_parse.specs.Words.{Lexeme};
ghost use Rattle.tw_decl.specs.Question.{HasQueryCause, IsQueryCause, IsReadAsQuery, MayBeAsked, Says};
ghost use Rattle.tw_decl.specs.Steps.{IsParsedQuery, asks_nothing};
ghost use Rattle.tw_decl.specs.View.{View};

use crate::declaration::{first_place, tokens_of};
use crate::reading::refused_alone;
use crate::refusal::Refusal;
use crate::searching::asked;
use crate::session::Session;
use std::alloc::Global;
use tw_lexer::{Cut, Place, Token, TokenKind, cut_piece, is_done, next_token};
use tw_parse::{ExtQuery, SyntaxFault, parse_query};
use tw_signature::Goal;

/// What a text of the loop of answers asks.
#[derive(Drop)]
pub enum Question {
    /// Nothing: its only token is a dot, or it has none and ended without a dot.
    Nothing,
    /// The answers of this goal. The first token of the text stands at this place.
    Answers(Goal, Place),
}

// Whether the text asks nothing, where these are its tokens and this one follows them.
fn asks_nothing(text: &[u8], tokens: &[Token], next: &Token) -> bool
    ensures { result ≡ asks_nothing text.now tokens.now next.now }
{
    match tokens {
        [] => false,
        [first, ..] => match first.kind {
            TokenKind::Dot => next.kind == TokenKind::End,
            TokenKind::End => !is_done(cut_piece(Cut::Plain, text)),
            _ => false,
        },
    }
}

// What is read, where the query has to be alone and this token follows it.
fn query_alone(parsed: Result<ExtQuery, SyntaxFault>, next: &Token) -> Result<ExtQuery, Refusal>
    ensures { (v : View) (end : Place) (words : List Lexeme) → IsParsedQuery v end words parsed
        → MatchResult result (λ q. IsReadAsQuery v words (query_of q) × (next.now.kind ≡ TokenKind.End)) (IsQueryCause v end words next.now) }
{
    match parsed {
        Err(fault) => Err(refused_alone(fault, next)),
        Ok(_) if next.kind != TokenKind::End => Err(Refusal::Syntax(next.at)),
        Ok(query) => Ok(query),
    }
}

/// What the text asks. No token may follow a query.
pub fn read_query(alloc: Global, session: &Session, text: &[u8]) -> Result<Question, Refusal>
    requires { length text.now < 2 ^ 32 - 1 }
    ensures says { IfOk result (λ q. Says session.now text.now q) }
    ensures may_be_asked { IfOk result (λ q. MayBeAsked session.now q) }
    ensures cause { IfErr result (λ refusal. HasQueryCause session.now text.now refusal) }
{
    let tokens = match tokens_of(alloc, text, 0, Place { line: 1, column: 1 }) {
        Ok(tokens) => tokens,
        Err(refusal) => return Err(refusal),
    };
    let next = match next_token(text, tokens.upto, tokens.at) {
        Ok(next) => next,
        Err(place) => return Err(Refusal::Lex(place)),
    };
    if asks_nothing(text, &tokens.list, &next) {
        return Ok(Question::Nothing);
    }
    let parsed = parse_query(alloc, &tokens, text, session.fixities());
    let query = match query_alone(parsed, &next) {
        Ok(query) => query,
        Err(refusal) => return Err(refusal),
    };
    let first = first_place(&tokens);
    match asked(alloc, session, first, &query) {
        Ok(goal) => Ok(Question::Answers(goal, first)),
        Err(refusal) => Err(refusal),
    }
}
