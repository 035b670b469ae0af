//! Tokens.
use crate::place::Place;

/// What a token is: an identifier, a keyword, one of the marks, or the end of the text.
#[derive(Clone, Copy, Debug, PartialEq, Eq)]
pub enum TokenKind {
    Ident,
    Keyword,
    Colon,
    Dot,
    LParen,
    RParen,
    LBrace,
    RBrace,
    LBracket,
    RBracket,
    /// The end of the text.
    End,
}

/// A token: the bytes `from` up to `upto` of its text, and the place of the first.
#[derive(Clone, Copy, Debug, PartialEq, Eq)]
pub struct Token {
    pub kind: TokenKind,
    pub from: usize,
    pub upto: usize,
    pub at: Place,
}

/// The tokens of a declaration through its dot, or through the end of the text; the byte behind them and its place.
#[derive(Debug, Drop)]
pub struct Tokens {
    pub list: Vec<Token>,
    pub upto: usize,
    pub at: Place,
}
