//! What a token is in the grammar.
ghost use Rattle.std.specs.Prelude.{◌≡◌};
ghost use Rattle.tw_parse.specs.Words.{word_of, fixed_word, separator_of, binder_of, closer_of, begins_atom, is_bindable};

use tw_lexer::TokenKind;

/// A token's part in the grammar: identifiers with a fixed meaning stand for themselves, and every other one is a name.
#[derive(Clone, Copy, Debug, PartialEq, Eq)]
pub enum Word {
    Name,
    Forward,
    Backward,
    Underscore,
    Star,
    Equals,
    Keyword,
    Colon,
    Dot,
    LParen,
    RParen,
    LBrace,
    RBrace,
    LBracket,
    RBracket,
    End,
}

/// What a known keyword begins.
#[derive(Clone, Copy, Debug, PartialEq, Eq)]
pub enum Form {
    /// `%abbrev`
    Abbreviation,
    /// `%name`
    Preference,
    Infix,
    Prefix,
    Postfix,
}

/// What parts two sides of a sequence: `->`, `<-` and `:`.
#[derive(Clone, Copy, Debug, PartialEq, Eq)]
pub enum Separator {
    Forward,
    Backward,
    Colon,
}

/// What a binder makes: `{x}` a Pi, `[x]` a lambda.
#[derive(Clone, Copy, Debug, PartialEq, Eq)]
pub enum Binder {
    Pi,
    Lambda,
}

fn fixed_word(bytes: &[u8]) -> Word
    ensures { result ≡ fixed_word bytes.now }
{
    if bytes == b"->".as_slice() {
        Word::Forward
    } else if bytes == b"<-".as_slice() {
        Word::Backward
    } else if bytes == b"_".as_slice() {
        Word::Underscore
    } else if bytes == b"=".as_slice() {
        Word::Equals
    } else if bytes == b"type".as_slice() {
        Word::Star
    } else {
        Word::Name
    }
}

pub fn word_of(kind: TokenKind, bytes: &[u8]) -> Word
    ensures { result ≡ word_of kind bytes.now }
{
    match kind {
        TokenKind::Ident => fixed_word(bytes),
        TokenKind::Keyword => Word::Keyword,
        TokenKind::Colon => Word::Colon,
        TokenKind::Dot => Word::Dot,
        TokenKind::LParen => Word::LParen,
        TokenKind::RParen => Word::RParen,
        TokenKind::LBrace => Word::LBrace,
        TokenKind::RBrace => Word::RBrace,
        TokenKind::LBracket => Word::LBracket,
        TokenKind::RBracket => Word::RBracket,
        TokenKind::End => Word::End,
    }
}

pub fn separator_of(word: Word) -> Option<Separator>
    ensures { result ≡ separator_of word }
{
    match word {
        Word::Forward => Some(Separator::Forward),
        Word::Backward => Some(Separator::Backward),
        Word::Colon => Some(Separator::Colon),
        _ => None,
    }
}

pub fn binder_of(word: Word) -> Option<Binder>
    ensures { result ≡ binder_of word }
{
    match word {
        Word::LBrace => Some(Binder::Pi),
        Word::LBracket => Some(Binder::Lambda),
        _ => None,
    }
}

pub fn closer_of(binder: Binder) -> Word
    ensures { result ≡ closer_of binder }
{
    match binder {
        Binder::Pi => Word::RBrace,
        Binder::Lambda => Word::RBracket,
    }
}

pub fn begins_atom(word: Word) -> bool
    ensures { result ≡ begins_atom word }
{
    matches!(
        word,
        Word::Name | Word::Underscore | Word::Star | Word::LParen
    )
}

pub fn is_bindable(word: Word) -> bool
    ensures { result ≡ is_bindable word }
{
    matches!(word, Word::Name | Word::Underscore)
}
