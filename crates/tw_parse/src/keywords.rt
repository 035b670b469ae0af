//! The keywords that are known, and what stands behind them.
ghost use Rattle.std.specs.Prelude.{◌≡◌};
ghost use Rattle.tw_parse.specs.Keywords.{form_of, is_built, is_in_language, assoc_of, is_digit, precedence_of, is_upper, is_identifier};

use crate::words::{Form, Word};
use tw_fixity::Assoc;

/// Precedences are below this.
const LIMIT: u16 = 10_000;

/// The form of a declaration that begins with this keyword.
pub fn form_of(bytes: &[u8]) -> Option<Form>
    ensures { result ≡ form_of bytes.now }
{
    if bytes == b"%abbrev".as_slice() {
        Some(Form::Abbreviation)
    } else if bytes == b"%name".as_slice() {
        Some(Form::Preference)
    } else if bytes == b"%infix".as_slice() {
        Some(Form::Infix)
    } else if bytes == b"%prefix".as_slice() {
        Some(Form::Prefix)
    } else if bytes == b"%postfix".as_slice() {
        Some(Form::Postfix)
    } else {
        None
    }
}

/// Whether declarations with a keyword of this form are read: all known keywords' are.
pub fn is_built(form: Option<Form>) -> bool
    ensures { result ≡ is_built form }
{
    form.is_some()
}

/// Whether the keyword is one of the language, also where its declarations are not read yet.
pub fn is_in_language(bytes: &[u8]) -> bool
    ensures { result ≡ is_in_language bytes.now }
{
    is_built(form_of(bytes))
        || bytes == b"%query".as_slice()
        || bytes == b"%solve".as_slice()
        || bytes == b"%mode".as_slice()
        || bytes == b"%block".as_slice()
        || bytes == b"%worlds".as_slice()
        || bytes == b"%terminates".as_slice()
        || bytes == b"%covers".as_slice()
        || bytes == b"%total".as_slice()
}

/// The side to which an infix operator associates, by its word.
pub fn assoc_of(bytes: &[u8]) -> Option<Assoc>
    ensures { result ≡ assoc_of bytes.now }
{
    if bytes == b"none".as_slice() {
        Some(Assoc::Neither)
    } else if bytes == b"left".as_slice() {
        Some(Assoc::Left)
    } else if bytes == b"right".as_slice() {
        Some(Assoc::Right)
    } else {
        None
    }
}

/// A precedence, in decimal digits.
pub fn precedence_of(bytes: &[u8]) -> Option<u16>
    ensures { result ≡ precedence_of bytes.now }
{
    if bytes.is_empty() {
        return None;
    }
    let mut number: u16 = 0;
    for byte in bytes {
        let digit = *byte;
        if digit < 48 || digit > 57 {
            return None;
        }
        let wider = 10 * u32::from(number) + u32::from(digit - 48);
        if wider >= u32::from(LIMIT) {
            return None;
        }
        number = wider as u16;
    }
    Some(number)
}

/// Whether a name begins with `_` or an uppercase letter.
pub fn is_upper(bytes: &[u8]) -> bool
    ensures { result ≡ is_upper bytes.now }
{
    match bytes.first() {
        None => false,
        Some(first) => *first == 95 || (*first >= 65 && *first <= 90),
    }
}

/// Whether the token is an identifier, with a fixed meaning or not.
pub fn is_identifier(word: Word) -> bool
    ensures { result ≡ is_identifier word }
{
    matches!(
        word,
        Word::Name | Word::Forward | Word::Backward | Word::Underscore | Word::Star | Word::Equals
    )
}
