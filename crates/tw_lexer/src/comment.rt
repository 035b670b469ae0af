//! What a `%` begins, and how far a comment goes.
ghost use Rattle.std.specs.Prelude.{◌≡◌, ◌≤◌, ◌<◌, ◌-◌, ◌^◌, length, Some};
ghost use Rattle.tw_lexer.specs.Characters.{pieces_from, char_at};
ghost use Rattle.tw_lexer.specs.Comments.{bracket_of, is_char, is_closed, deep, sign_by_char, sign_of};
ghost use Rattle.tw_lexer.specs.Spots.{GoesOn, IsSpot};
ghost use Rattle.tw_lexer.specs.Tokens.{in_line, in_comment};

use crate::character::{Spot, piece_at, step};
use crate::class::{Class, class_of};
use crate::place::Place;

/// What a `%` begins.
#[derive(Clone, Copy)]
pub enum Sign {
    /// A comment to the end of the line.
    LineComment,
    /// A comment to its `}%`.
    Comment,
    /// Nothing more: the text ends.
    Stop,
    /// A keyword.
    Word,
    /// No token.
    Nothing,
}

/// What a `%` begins behind which these characters stand, from a byte on.
pub fn sign_at(text: &[u8], from: usize) -> Sign
    requires { from ≤ length text.now }
    ensures { result ≡ sign_of (pieces_from text.now from) }
{
    if from == text.len() {
        return Sign::LineComment;
    }
    sign_by_char(piece_at(text, from).0)
}

// The same by the first of them.
fn sign_by_char(found: Option<char>) -> Sign
    ensures { result ≡ sign_by_char found }
{
    match found {
        Some(' ' | '\t'..='\r' | '%') => Sign::LineComment,
        Some('{') => Sign::Comment,
        Some('.') => Sign::Stop,
        Some(c) => match class_of(c) {
            Class::Plain => Sign::Word,
            _ => Sign::Nothing,
        },
        None => Sign::Nothing,
    }
}

// What two characters side by side are in a comment.
#[derive(Clone, Copy)]
enum Bracket {
    // `%{`
    Opens,
    // `}%`
    Closes,
    Neither,
}

fn is_char(found: Option<char>, c: char) -> bool
    ensures { result ≡ is_char c found }
{
    match found {
        Some(d) => d == c,
        None => false,
    }
}

fn bracket_of(first: Option<char>, second: Option<char>) -> Bracket
    ensures { result ≡ bracket_of first second }
{
    if is_char(first, '%') && is_char(second, '{') {
        Bracket::Opens
    } else if is_char(first, '}') && is_char(second, '%') {
        Bracket::Closes
    } else {
        Bracket::Neither
    }
}

// Whether the comment is closed in which so many `%{` are open here.
fn is_closed(text: &[u8], depth: usize, from: usize) -> bool
    requires within { from ≤ length text.now }
    requires depth { depth ≤ from }
    ensures { result ≡ is_closed (deep depth) (pieces_from text.now from) }
{
    let mut depth = depth;
    let mut from = from;
    while from < text.len() {
        let (first, size) = piece_at(text, from);
        from += size;
        let (second, next_size) = piece_at(text, from);
        match bracket_of(first, second) {
            Bracket::Opens => depth += 1,
            Bracket::Closes if depth <= 1 => return true,
            Bracket::Closes => {
                depth -= 1;
                from += next_size;
            }
            Bracket::Neither => {}
        }
    }
    false
}

/// The spot behind a comment to the end of its line, which goes on here; or where no character stands in it.
pub fn skip_line(text: &[u8], spot: Spot) -> Result<Spot, Place>
    requires short { length text.now < 2 ^ 32 - 1 }
    requires here { IsSpot text.now spot }
    ensures { GoesOn text.now in_line spot.byte result }
{
    let mut spot = spot;
    while spot.byte < text.len() {
        let (found, behind) = match step(text, spot) {
            Some(next) => next,
            None => return Err(spot.place),
        };
        if found == '\n' {
            return Ok(behind);
        }
        spot = behind;
    }
    Ok(spot)
}

/// The spot behind a comment that began at a place, and goes on here behind its `%`; or the fault in it.
pub fn skip_comment(text: &[u8], begin: Place, spot: Spot) -> Result<Spot, Place>
    requires short { length text.now < 2 ^ 32 - 1 }
    requires here { IsSpot text.now spot }
    requires later { 1 ≤ spot.byte }
    ensures { GoesOn text.now (in_comment begin (deep 1)) spot.byte result }
{
    let mut depth = 1;
    let mut spot = spot;
    while spot.byte < text.len() {
        let (found, behind) = match step(text, spot) {
            Some(next) => next,
            None => {
                return Err(if is_closed(text, depth, spot.byte) {
                    spot.place
                } else {
                    begin
                });
            }
        };
        spot = behind;
        match bracket_of(Some(found), piece_at(text, behind.byte).0) {
            Bracket::Opens => depth += 1,
            Bracket::Closes => match step(text, behind) {
                Some((_, outside)) => {
                    if depth <= 1 {
                        return Ok(outside);
                    }
                    depth -= 1;
                    spot = outside;
                }
                None => return Err(begin),
            },
            Bracket::Neither => {}
        }
    }
    Err(begin)
}
