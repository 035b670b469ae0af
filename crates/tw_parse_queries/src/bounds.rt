//! The bounds of a query.
ghost use Rattle.std.specs.Prelude.{◌≡◌};
ghost use Rattle.tw_parse_queries.specs.Bounds.{are_digits, is_number, number_of, is_bound, bound_of};

use crate::search::ExtBound;
use tw_parse::Word;

/// Numbers are below this.
const LIMIT: u128 = 18_446_744_073_709_551_616;

// Whether these are decimal digits.
fn are_digits(bytes: &[u8]) -> bool
    ensures { result ≡ are_digits bytes.now }
{
    for byte in bytes {
        let digit = *byte;
        if digit < 48 || digit > 57 {
            return false;
        }
    }
    true
}

// The same, where one stands at least.
fn is_number(bytes: &[u8]) -> bool
    ensures { result ≡ is_number bytes.now }
{
    !bytes.is_empty() && are_digits(bytes)
}

// The number in decimal digits; none where it is too large.
fn number_of(bytes: &[u8]) -> Option<u64>
    ensures { result ≡ number_of bytes.now }
{
    if bytes.is_empty() {
        return None;
    }
    let mut number: u64 = 0;
    for byte in bytes {
        let digit = *byte;
        if digit < 48 || digit > 57 {
            return None;
        }
        let wider = 10 * u128::from(number) + u128::from(digit - 48);
        if wider >= LIMIT {
            return None;
        }
        number = wider as u64;
    }
    Some(number)
}

/// Whether the token is a bound: a number, also one that is too large, or `*`.
pub fn is_bound(word: Word, bytes: &[u8]) -> bool
    ensures { result ≡ is_bound word bytes.now }
{
    word == Word::Name && (bytes == b"*".as_slice() || is_number(bytes))
}

/// The bound that is written so; none where its number is too large.
pub fn bound_of(bytes: &[u8]) -> Option<ExtBound>
    ensures { result ≡ bound_of bytes.now }
{
    if bytes == b"*".as_slice() {
        return Some(ExtBound::Star);
    }
    match number_of(bytes) {
        None => None,
        Some(number) => Some(ExtBound::Number(number)),
    }
}
