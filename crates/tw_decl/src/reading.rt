//! What is read of a text: a declaration, a check of what is declared, or a search over it.
ghost use Rattle.std.specs.Prelude.{◌≡◌, ◌≢◌, List, ℕ, length, All, MatchResult};
ghost use Rattle.tw_lexer.specs.Tokens.{IsWithin, ThroughDot};
ghost use Rattle.tw_lexer.specs.declared.place.Place.{Place};
ghost use Rattle.tw_parse.specs.Words.{Lexeme, lexemes};
ghost use Rattle.tw_decl.specs.Declaration.{IsCauseAlone};
ghost use Rattle.tw_decl.specs.Reading.{asks_check, asks_search, Reads, read_of};
ghost use Rattle.tw_decl.specs.Steps.{IsParsed, is_first, refusal_of, refused_alone};
ghost use Rattle.tw_decl.specs.View.{View};

use crate::refusal::Refusal;
use crate::session::Session;
use std::alloc::Global;
use tw_lexer::{Token, TokenKind, Tokens};
use tw_parse::{ExtDecl, Source, SyntaxFault, Word, parse_decl};
use tw_parse_checks::{ExtCheck, is_check, parse_check};
use tw_parse_queries::{ExtSearch, is_search, parse_search};

/// What is read.
#[derive(Debug, Drop)]
pub enum Written {
    /// A declaration of entries, of operators or of preferred names.
    Plain(ExtDecl),
    /// A check of what is declared.
    Check(ExtCheck),
    /// A search over what is declared.
    Search(ExtSearch),
}

// Whether a keyword of a check stands first.
fn asks_check(session: &Session, text: &[u8], tokens: &Tokens) -> bool
    requires within { All (IsWithin (length text.now)) tokens.now.list.items }
    ensures { result ≡ asks_check (lexemes text.now tokens.now.list.items) }
{
    let source = Source {
        text,
        tokens: &tokens.list,
        end: tokens.at,
        fixities: session.fixities(),
    };
    source.word(0) == Word::Keyword && is_check(source.bytes(0))
}

// Whether one stands first that asks for a search.
fn asks_search(session: &Session, text: &[u8], tokens: &Tokens) -> bool
    requires within { All (IsWithin (length text.now)) tokens.now.list.items }
    ensures { result ≡ asks_search (lexemes text.now tokens.now.list.items) }
{
    let source = Source {
        text,
        tokens: &tokens.list,
        end: tokens.at,
        fixities: session.fixities(),
    };
    source.word(0) == Word::Keyword && is_search(source.bytes(0))
}

/// What the grammar makes of the tokens.
pub fn parsed(
    alloc: Global,
    session: &Session,
    text: &[u8],
    tokens: &Tokens,
) -> Result<Written, SyntaxFault>
    requires within { All (IsWithin (length text.now)) tokens.now.list.items }
    requires through_dot { (from : ℕ) × ThroughDot text.now from tokens.now.list.items tokens.now.upto }
    ensures { IsParsed session.now tokens.now.at (lexemes text.now tokens.now.list.items) result }
{
    if asks_check(session, text, tokens) {
        return match parse_check(alloc, tokens, text, session.fixities()) {
            Ok(check) => Ok(Written::Check(check)),
            Err(fault) => Err(fault),
        };
    }
    if asks_search(session, text, tokens) {
        return match parse_search(alloc, tokens, text, session.fixities()) {
            Ok(search) => Ok(Written::Search(search)),
            Err(fault) => Err(fault),
        };
    }
    match parse_decl(alloc, tokens, text, session.fixities()) {
        Ok(declaration) => Ok(Written::Plain(declaration)),
        Err(fault) => Err(fault),
    }
}

/// A fault of the grammar as a refusal.
pub fn refusal_of(fault: SyntaxFault) -> Refusal
    ensures { result ≡ refusal_of fault }
{
    match fault {
        SyntaxFault::Unsupported(name, place) => Refusal::Unsupported(place, name),
        SyntaxFault::Nesting(place) => Refusal::Nesting(place),
        SyntaxFault::Syntax(place) => Refusal::Syntax(place),
        SyntaxFault::Fixity(place) => Refusal::Fixity(place),
        SyntaxFault::BadDecl(place) => Refusal::BadDecl(place),
        SyntaxFault::NoMemory => Refusal::Memory,
    }
}

// Whether a fault of the grammar is told before what follows the declaration is looked at.
fn is_first(fault: &SyntaxFault) -> bool
    ensures { result ≡ is_first fault.now }
{
    !matches!(fault, SyntaxFault::Fixity(_) | SyntaxFault::BadDecl(_))
}

/// The refusal of a declaration with a fault of the grammar, where this token follows it.
pub fn refused_alone(fault: SyntaxFault, next: &Token) -> Refusal
    ensures { result ≡ refused_alone fault next.now }
{
    if is_first(&fault) || next.kind == TokenKind::End {
        refusal_of(fault)
    } else {
        Refusal::Syntax(next.at)
    }
}

/// What is read, where the declaration has to be alone and this token follows it.
pub fn alone(parsed: Result<Written, SyntaxFault>, next: &Token) -> Result<Written, Refusal>
    ensures { (v : View) (end : Place) (words : List Lexeme) → IsParsed v end words parsed
        → MatchResult result (λ r. Reads v words (read_of r) × (next.now.kind ≡ TokenKind.End)) (IsCauseAlone v end words next.now) }
{
    match parsed {
        Err(fault) => Err(refused_alone(fault, next)),
        Ok(_) if next.kind != TokenKind::End => Err(Refusal::Syntax(next.at)),
        Ok(read) => Ok(read),
    }
}
