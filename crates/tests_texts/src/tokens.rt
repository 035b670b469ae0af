//! What tokens a text has, what class a character has, and where a text in pieces is cut.
ghost use Rattle.std.specs.Prelude.{◌≡◌, ◌≤◌, ◌<◌, ◌^◌, ◌-◌, IfOk, length};
ghost use Rattle.tw_lexer.specs.Places.{place_of};

use crate::line::Line;
use crate::reading::{LONGEST, START};
use crate::texts::{bytes_of, halves_of};
use std::alloc::{AllocError, Global};
use tests_forms::{Form, FormFault, number_of, read_forms};
use tw_lexer::{
    Class, Cut, LexFault, Place, Token, TokenKind, Tokens, class_of, cut_piece, is_done, lex,
    next_token,
};

// One letter for a class: `w` white space, `x` bad, `p` plain; `%` and the marks stand for themselves.
fn letter(class: Class) -> char {
    match class {
        Class::WhiteSpace => 'w',
        Class::Bad => 'x',
        Class::Plain => 'p',
        Class::Percent => '%',
        Class::Mark(TokenKind::Colon) => ':',
        Class::Mark(TokenKind::Dot) => '.',
        Class::Mark(TokenKind::LParen) => '(',
        Class::Mark(TokenKind::RParen) => ')',
        Class::Mark(TokenKind::LBrace) => '{',
        Class::Mark(TokenKind::RBrace) => '}',
        Class::Mark(TokenKind::LBracket) => '[',
        Class::Mark(TokenKind::RBracket) => ']',
        Class::Mark(_) => '?',
    }
}

/// The class of each character of the text.
pub(crate) fn classes(alloc: Global, text: &str) -> Result<String, FormFault> {
    let bytes = bytes_of(alloc, text)?;
    let text = String::from_utf8_lossy(alloc, &bytes)?;
    Ok(classes_line(alloc, text.as_str())?)
}

fn classes_line(alloc: Global, text: &str) -> Result<String, AllocError> {
    let mut line = Line::new(alloc);
    for character in text.chars() {
        line.put_letter(letter(class_of(character)));
    }
    line.whole()
}

/// The class of each of the 16 characters from this number on.
pub(crate) fn sixteen_classes(alloc: Global, text: &str) -> Result<String, FormFault> {
    let first = number_of(text)?;
    let mut line = Line::new(alloc);
    for step in 0..16u64 {
        let character = character_behind(first, step)?;
        line.put_letter(letter(class_of(character)));
    }
    Ok(line.whole()?)
}

// the character that is so many steps behind this number
fn character_behind(first: u64, step: u64) -> Result<char, FormFault> {
    let code = first.checked_add(step).ok_or(FormFault::NoMeaning)?;
    let code = u32::try_from(code).or(Err(FormFault::NoMeaning))?;
    char::from_u32(code).ok_or(FormFault::NoMeaning)
}

fn put_token(line: &mut Line, token: &Token) {
    line.put_kind(token.kind);
    line.put(" ");
    line.put_number(token.from as u64);
    line.put("-");
    line.put_number(token.upto as u64);
    line.put_place(token.at);
}

fn put_end(line: &mut Line, tokens: &Tokens) {
    line.put("then ");
    line.put_number(tokens.upto as u64);
    line.put_place(tokens.at);
}

fn put_tokens(line: &mut Line, tokens: &Tokens) {
    for token in &tokens.list {
        put_token(line, token);
        line.put(", ");
    }
    put_end(line, tokens);
}

fn put_fault(line: &mut Line, fault: LexFault) {
    match fault {
        LexFault::NoMemory => line.put("no memory"),
        LexFault::Bad(at) => {
            line.put("bad");
            line.put_place(at);
        }
        LexFault::TooMany(at) => {
            line.put("too many");
            line.put_place(at);
        }
    }
}

/// The kind, the bytes and the place of each token, and then where they end.
pub(crate) fn tokens(alloc: Global, text: &str) -> Result<String, FormFault> {
    let bytes = bytes_of(alloc, text)?;
    if bytes.len() >= LONGEST {
        return Err(FormFault::NoMeaning);
    }
    let mut line = Line::new(alloc);
    match lex(alloc, &bytes, 0, START) {
        Err(fault) => put_fault(&mut line, fault),
        Ok(tokens) => put_tokens(&mut line, &tokens),
    }
    Ok(line.whole()?)
}

/// How many tokens the text has.
pub(crate) fn count(alloc: Global, text: &str) -> Result<String, FormFault> {
    let bytes = bytes_of(alloc, text)?;
    if bytes.len() >= LONGEST {
        return Err(FormFault::NoMeaning);
    }
    let mut line = Line::new(alloc);
    match lex(alloc, &bytes, 0, START) {
        Err(fault) => put_fault(&mut line, fault),
        Ok(tokens) => put_count(&mut line, &tokens),
    }
    Ok(line.whole()?)
}

fn put_count(line: &mut Line, tokens: &Tokens) {
    line.put_number(tokens.list.len() as u64);
    line.put(" tokens");
}

/// How many tokens each declaration of the text has and where it ends, up to one without tokens.
pub(crate) fn declarations(alloc: Global, text: &str) -> Result<String, FormFault> {
    let bytes = bytes_of(alloc, text)?;
    if bytes.len() >= LONGEST {
        return Err(FormFault::NoMeaning);
    }
    let mut line = Line::new(alloc);
    push_declarations(alloc, &mut line, &bytes, 0, START, 100);
    Ok(line.whole()?)
}

// The same from a byte on, of so many declarations at most.
fn push_declarations(alloc: Global, line: &mut Line, text: &[u8], from: usize, at: Place, most: u32)
    requires short { length text.now < 2 ^ 32 - 1 }
    requires within { from ≤ length text.now }
    requires place { at ≡ place_of text.now from }
{
    let tokens = match lex(alloc, text, from, at) {
        Ok(tokens) => tokens,
        Err(fault) => return put_fault(line, fault),
    };
    line.put_number(tokens.list.len() as u64);
    line.put(" ");
    put_end(line, &tokens);
    if tokens.list.len() < 2 || most == 0 {
        return;
    }
    line.put(", ");
    push_declarations(alloc, line, text, tokens.upto, tokens.at, most - 1);
}

/// The first token from the bar on.
pub(crate) fn token_behind(alloc: Global, text: &str) -> Result<String, FormFault> {
    let (front, back) = halves_of(alloc, text)?;
    let from = front.len();
    let mut whole = front;
    whole.extend_from_slice(&back)?;
    token_from(alloc, &whole, from)
}

// The first token from this byte on.
fn token_from(alloc: Global, text: &[u8], from: usize) -> Result<String, FormFault> {
    if text.len() >= LONGEST || from > text.len() {
        return Err(FormFault::NoMeaning);
    }
    let at = place_of(alloc, text, from)?;
    let mut line = Line::new(alloc);
    match next_token(text, from, at) {
        Err(at) => put_fault(&mut line, LexFault::Bad(at)),
        Ok(token) => put_token(&mut line, &token),
    }
    Ok(line.whole()?)
}

// Where the byte stands. What stands in front of it must be tokens without a dot.
fn place_of(alloc: Global, text: &[u8], from: usize) -> Result<Place, FormFault>
    requires short { length text.now < 2 ^ 32 - 1 }
    requires within { from ≤ length text.now }
    ensures { IfOk result (λ at. at ≡ place_of text.now from) }
{
    match lex(alloc, &text[..from], 0, START) {
        Ok(tokens) if tokens.upto == from => Ok(tokens.at),
        Ok(_) => Err(FormFault::NoMeaning),
        Err(_) => Err(FormFault::NoMeaning),
    }
}

/// What a reader of pieces knows behind the first and the second, and whether the text is done.
pub(crate) fn cut(alloc: Global, text: &str) -> Result<String, FormFault> {
    let (front, back) = halves_of(alloc, text)?;
    if front.len() >= LONGEST || back.len() >= LONGEST {
        return Err(FormFault::NoMeaning);
    }
    let state = cut_piece(cut_piece(Cut::Plain, &front), &back);
    let done = if is_done(state) { ", the end" } else { "" };
    Ok(format!(in alloc; "{:?}{}", state, done)?)
}

/// What is said of a fault: `bad` or `many` with a line and a column, or `memory`.
pub(crate) fn said(alloc: Global, text: &str) -> Result<String, FormFault> {
    let forms = read_forms(alloc, text)?;
    let fault = fault_of(&forms)?;
    Ok(format!(in alloc; "{}", fault)?)
}

fn fault_of(forms: &[Form]) -> Result<LexFault, FormFault> {
    match forms {
        [Form::Word(kind), line, column] => fault_at(kind.as_str(), place_at(line, column)?),
        [Form::Word(kind)] if kind.as_str() == "memory" => Ok(LexFault::NoMemory),
        _ => Err(FormFault::NoMeaning),
    }
}

fn fault_at(kind: &str, at: Place) -> Result<LexFault, FormFault> {
    match kind {
        "bad" => Ok(LexFault::Bad(at)),
        "many" => Ok(LexFault::TooMany(at)),
        _ => Err(FormFault::NoMeaning),
    }
}

fn place_at(line: &Form, column: &Form) -> Result<Place, FormFault> {
    let line = small_number(line)?;
    let column = small_number(column)?;
    Ok(Place { line, column })
}

fn small_number(form: &Form) -> Result<u32, FormFault> {
    let number = number_of(form.word().ok_or(FormFault::NoMeaning)?)?;
    u32::try_from(number).or(Err(FormFault::NoMeaning))
}
