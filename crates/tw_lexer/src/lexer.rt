//! Reading tokens.
ghost use Rattle.std.specs.Prelude.{◌≡◌, ◌≤◌, ◌<◌, ◌^◌, ◌+◌, ◌-◌, ◌==◌, ◌&&◌, length, IfOk, All};
ghost use Rattle.tw_lexer.specs.Characters.{pieces_from};
ghost use Rattle.tw_lexer.specs.Classes.{run_length};
ghost use Rattle.tw_lexer.specs.Places.{place_of};
ghost use Rattle.tw_lexer.specs.Tokens.{ends, first_token, is_counted, IsWithin, Lexes};
ghost use Rattle.tw_lexer.specs.declared.lexer.LexFault.TheVariants.{NoMemory};

use crate::character::{Spot, piece_at, step};
use crate::class::{Class, class_of, is_plain};
use crate::comment::{Sign, sign_at, skip_comment, skip_line};
use crate::place::Place;
use crate::token::{Token, TokenKind, Tokens};
use std::alloc::{AllocFailed, Global};
use thiserror::Error;

/// The most tokens of a declaration, the end of the text not counted.
const TOKENS_MOST: usize = 65_536;

/// Why a declaration has no tokens: the first fault of its text.
#[derive(Clone, Copy, Debug, Drop, Error, PartialEq, Eq)]
pub enum LexFault {
    /// No token begins here, or here begins a comment that is never closed.
    #[error("no token at line {} and column {}", .0.line, .0.column)]
    Bad(Place),
    /// The token that stands here is one too many.
    #[error("too many tokens at line {} and column {}", .0.line, .0.column)]
    TooMany(Place),
    /// Memory is wanting.
    #[error("memory is wanting")]
    NoMemory,
}

impl<T: Drop> From<AllocFailed<T>> for LexFault {
    ghost from_gives = { λ _ e. e ≡ NoMemory };

    fn from(_: AllocFailed<T>) -> Self {
        LexFault::NoMemory
    }
}

// The byte behind the plain characters that stand here.
fn run_end(text: &[u8], from: usize) -> usize
    requires { from ≤ length text.now }
    ensures end { result ≡ from + run_length (pieces_from text.now from) }
    ensures within { result ≤ length text.now }
{
    let mut upto = from;
    while upto < text.len() {
        let (found, size) = piece_at(text, upto);
        if !is_plain(found) {
            break;
        }
        upto += size;
    }
    upto
}

// A token from here up to another byte.
fn token(kind: TokenKind, spot: Spot, upto: usize) -> Token
    ensures { result ≡ record { kind = kind; from = spot.byte; upto = upto; at = spot.place } }
{
    Token {
        kind,
        from: spot.byte,
        upto,
        at: spot.place,
    }
}

/// The first token from a byte on, or the end of the text; or the place where no token stands. It takes no memory.
pub fn next_token(text: &[u8], from: usize, at: Place) -> Result<Token, Place>
    requires short { length text.now < 2 ^ 32 - 1 }
    requires within { from ≤ length text.now }
    requires place { at ≡ place_of text.now from }
    ensures token { result ≡ first_token text.now from }
    ensures within { IfOk result (λ t. IsWithin (length text.now) t) }
{
    let mut spot = Spot {
        byte: from,
        place: at,
    };
    while spot.byte < text.len() {
        let (found, behind) = match step(text, spot) {
            Some(next) => next,
            None => return Err(spot.place),
        };
        match class_of(found) {
            Class::WhiteSpace => spot = behind,
            Class::Mark(kind) => return Ok(token(kind, spot, behind.byte)),
            Class::Percent => match sign_at(text, behind.byte) {
                Sign::LineComment => match skip_line(text, behind) {
                    Ok(outside) => spot = outside,
                    Err(place) => return Err(place),
                },
                Sign::Comment => match skip_comment(text, spot.place, behind) {
                    Ok(outside) => spot = outside,
                    Err(place) => return Err(place),
                },
                Sign::Stop => return Ok(token(TokenKind::End, spot, spot.byte)),
                Sign::Word => {
                    let upto = run_end(text, behind.byte);
                    return Ok(token(TokenKind::Keyword, spot, upto));
                }
                Sign::Nothing => return Err(spot.place),
            },
            Class::Plain => {
                let upto = run_end(text, behind.byte);
                return Ok(token(TokenKind::Ident, spot, upto));
            }
            Class::Bad => return Err(spot.place),
        }
    }
    Ok(token(TokenKind::End, spot, spot.byte))
}

// The place behind a token, which holds no line feed.
fn behind(token: Token) -> Place
    requires order { token.from ≤ token.upto }
    requires columns { token.at.column + (token.upto - token.from) < 2 ^ 32 }
    ensures { result ≡ record { line = token.at.line; column = token.at.column + (token.upto - token.from) } }
{
    Place {
        line: token.at.line,
        column: token.at.column + (token.upto - token.from) as u32,
    }
}

// Whether a token ends a declaration.
fn ends(kind: TokenKind) -> bool
    ensures { result ≡ ends kind }
{
    matches!(kind, TokenKind::Dot | TokenKind::End)
}

// Whether a token is one too many behind so many.
fn is_too_many(before: usize, token: Token) -> bool
    ensures { result ≡ (before == 65536) && is_counted token }
{
    before == TOKENS_MOST && !matches!(token.kind, TokenKind::End)
}

/// The tokens from a byte on, through the first dot or the end of the text.
pub fn lex(alloc: Global, text: &[u8], from: usize, at: Place) -> Result<Tokens, LexFault>
    requires short { length text.now < 2 ^ 32 - 1 }
    requires within { from ≤ length text.now }
    requires place { at ≡ place_of text.now from }
    ensures tokens { Lexes text.now from result }
    ensures within { IfOk result (λ r. All (IsWithin (length text.now)) r.list.items × (r.upto ≤ length text.now)) }
{
    let mut list = Vec::new(alloc);
    let mut from = from;
    let mut at = at;
    loop {
        let token = match next_token(text, from, at) {
            Ok(token) => token,
            Err(place) => return Err(LexFault::Bad(place)),
        };
        if is_too_many(list.len(), token) {
            return Err(LexFault::TooMany(token.at));
        }
        list.push(token)?;
        from = token.upto;
        at = behind(token);
        if ends(token.kind) {
            return Ok(Tokens {
                list,
                upto: from,
                at,
            });
        }
    }
}
