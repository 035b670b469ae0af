//! The characters of a text.
ghost use Rattle.std.specs.Prelude.{◌≡◌, ◌≤◌, ◌<◌, ◌-◌, ◌^◌, ◌+◌, length, MatchOption, if◌then◌else◌, ◌==◌};
ghost use Rattle.tw_lexer.specs.Characters.{char_at, size_at};
ghost use Rattle.tw_lexer.specs.Places.{place_of, place_behind};
ghost use Rattle.tw_lexer.specs.Spots.{IsSpot, IsBehind};

use crate::place::Place;
use bstr::decode_utf8;

/// A byte of a text, and its place.
#[derive(Clone, Copy)]
pub struct Spot {
    pub byte: usize,
    pub place: Place,
}

/// The character that stands at a byte, if one does, and how many bytes belong together there.
pub fn piece_at(text: &[u8], from: usize) -> (Option<char>, usize)
    requires { from ≤ length text.now }
    ensures found { result.0 ≡ char_at text.now from }
    ensures size { result.1 ≡ size_at text.now from }
    ensures within { from + result.1 ≤ length text.now }
    ensures some { from < length text.now → 0 < result.1 }
{
    decode_utf8(&text[from..])
}

// The place behind a character.
fn place_behind(at: Place, found: char, size: usize) -> Place
    requires lines { at.line + 1 < 2 ^ 32 }
    requires columns { at.column + size < 2 ^ 32 }
    ensures { result ≡ place_behind at found size }
{
    if found == '\n' {
        Place {
            line: at.line + 1,
            column: 1,
        }
    } else {
        Place {
            line: at.line,
            column: at.column + size as u32,
        }
    }
}

/// The character that stands here, and the spot behind it; nothing where none does.
pub fn step(text: &[u8], spot: Spot) -> Option<(char, Spot)>
    requires short { length text.now < 2 ^ 32 - 1 }
    requires here { IsSpot text.now spot }
    ensures { MatchOption result (char_at text.now spot.byte ≡ None) (λ next. IsBehind text.now spot next.1 next.0) }
{
    let (found, size) = piece_at(text, spot.byte);
    match found {
        None => None,
        Some(c) => Some((
            c,
            Spot {
                byte: spot.byte + size,
                place: place_behind(spot.place, c, size),
            },
        )),
    }
}
