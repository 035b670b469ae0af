//! The classes of characters.
ghost use Rattle.std.specs.Prelude.{◌≡◌, ◌≤◌};
ghost use Rattle.tw_lexer.specs.Bytes.{is_white_space};
ghost use Rattle.tw_lexer.specs.Classes.{class_of, class_past_ascii, is_plain};

use crate::token::TokenKind;
use unicode::properties::{GeneralCategory, is_white_space as is_unicode_white_space};

/// What a character is for.
#[derive(Clone, Copy, Debug, PartialEq, Eq)]
pub enum Class {
    /// It parts tokens.
    WhiteSpace,
    /// It is a token by itself.
    Mark(TokenKind),
    /// It begins a keyword or a comment, or ends the text.
    Percent,
    /// It belongs to an identifier or a keyword.
    Plain,
    /// It has no place in a text, outside comments.
    Bad,
}

/// The class of a character.
pub fn class_of(c: char) -> Class
    ensures { result ≡ class_of c }
{
    match c {
        ' ' | '\t'..='\r' => Class::WhiteSpace,
        '"' | '\0'..='\x08' | '\x0e'..='\x1f' | '\x7f' => Class::Bad,
        '%' => Class::Percent,
        ':' => Class::Mark(TokenKind::Colon),
        '.' => Class::Mark(TokenKind::Dot),
        '(' => Class::Mark(TokenKind::LParen),
        ')' => Class::Mark(TokenKind::RParen),
        '{' => Class::Mark(TokenKind::LBrace),
        '}' => Class::Mark(TokenKind::RBrace),
        '[' => Class::Mark(TokenKind::LBracket),
        ']' => Class::Mark(TokenKind::RBracket),
        '!'..='~' => Class::Plain,
        _ => class_past_ascii(c),
    }
}

// The class of a character past ASCII.
fn class_past_ascii(c: char) -> Class
    ensures { result ≡ class_past_ascii c }
{
    if is_unicode_white_space(c) {
        Class::WhiteSpace
    } else if matches!(GeneralCategory::for_char(c), GeneralCategory::Control) {
        Class::Bad
    } else {
        Class::Plain
    }
}

// Whether identifiers hold what was found.
pub fn is_plain(found: Option<char>) -> bool
    ensures { result ≡ is_plain found }
{
    match found {
        Some(c) => matches!(class_of(c), Class::Plain),
        None => false,
    }
}

/// Whether a byte is white space of ASCII.
pub fn is_white_space(byte: u8) -> bool
    ensures { result ≡ is_white_space byte }
{
    byte == b' ' || (9 <= byte && byte <= 13)
}
