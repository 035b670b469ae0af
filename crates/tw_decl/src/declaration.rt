//! One declaration.
ghost use Rattle.std.specs.Prelude.{◌≡◌, ◌≤◌, ◌<◌, ◌-◌, ◌^◌, List, ℕ, length, None, Ok, All, IfOk, IfErr, OnErr};
ghost use Rattle.tw_lexer.specs.Places.{place_of};
ghost use Rattle.tw_lexer.specs.Tokens.{IsWithin, Lexes};
ghost use Rattle.tw_parse.specs.View.{declaration_of};
ghost use Rattle.tw_parse.specs.Words.{first_place, lexemes};
ghost use Rattle.tw_parse_checks.specs.Checks.{check_of};
ghost use Rattle.tw_parse_queries.specs.Searches.{search_of};
ghost use Rattle.tw_signature.specs.Names.{number_of};
ghost use Rattle.tw_decl.specs.Declaration.{Accepts, Checks, HasCause, HasCauseFrom, Comes, Does, GivesRows, Prefers, ReadDoes};
ghost use Rattle.tw_decl.specs.Obstacles.{HasObstacle, IsNotChecked, IsNotGiven, IsNotPreferred, ReadHasObstacle};
ghost use Rattle.tw_decl.specs.Reading.{read_of, searching};
ghost use Rattle.tw_decl.specs.Reports.{reported};
ghost use Rattle.tw_decl.specs.Steps.{NamesUnknown, IsTokenCause, is_over};

use crate::blocks::add_block;
use crate::entering::enter;
use crate::labels::{first_undeclared, is_label};
use crate::moding::set_mode;
use crate::operators::{all_take, fixity_line, operand_count};
use crate::preferences::{is_family, preference, preference_line};
use crate::querying::answer;
use crate::reading::{Written, alone, parsed, refusal_of};
use crate::refusal::Refusal;
use crate::report::{Report, told};
use crate::session::Session;
use crate::solving::solve;
use crate::terminating::terminate;
use crate::worlding::set_worlds;
use std::alloc::Global;
use tw_fixity::{Fix, Name};
use tw_lexer::{LexFault, Place, Token, TokenKind, Tokens, lex, next_token};
use tw_parse::{ExtDecl, ExtName};
use tw_parse_checks::ExtCheck;
use tw_parse_queries::ExtSearch;

/// What comes next in a text of declarations.
#[derive(Debug, Drop)]
pub enum Next {
    /// No declaration is left.
    End,
    /// A declaration is made. It reaches up to this byte, whose place is `at`.
    Done {
        report: Report,
        upto: usize,
        at: Place,
    },
}

/// The tokens of the declaration that begins here.
pub fn tokens_of(alloc: Global, text: &[u8], from: usize, at: Place) -> Result<Tokens, Refusal>
    requires short { length text.now < 2 ^ 32 - 1 }
    requires within { from ≤ length text.now }
    requires place { at ≡ place_of text.now from }
    ensures tokens { IfOk result (λ tokens. Lexes text.now from (Ok tokens)) }
    ensures within { IfOk result (λ tokens. All (IsWithin (length text.now)) tokens.list.items × (tokens.upto ≤ length text.now)) }
    ensures cause { IfErr result (IsTokenCause text.now from) }
{
    match lex(alloc, text, from, at) {
        Ok(tokens) => Ok(tokens),
        Err(LexFault::Bad(place)) => Err(Refusal::Lex(place)),
        Err(LexFault::TooMany(place)) => Err(Refusal::TooMany(place)),
        Err(LexFault::NoMemory) => Err(Refusal::Memory),
    }
}

// Whether only the end of the text is left.
fn is_over(tokens: &[Token]) -> bool
    ensures { result ≡ is_over tokens.now }
{
    match tokens {
        [first, ..] => first.kind == TokenKind::End,
        [] => true,
    }
}

// A name that isn't declared.
fn unknown(alloc: Global, name: &ExtName) -> Refusal
    ensures { NamesUnknown name.now result }
{
    match name.name.copy(alloc) {
        Ok(shown) => Refusal::Unknown(name.at, shown),
        Err(_) => Refusal::Memory,
    }
}

// Gives names the row of an operator. After a refusal nothing has changed.
fn give(
    alloc: Global,
    session: &mut Session,
    fix: Fix,
    names: &[ExtName],
    first: Place,
) -> Result<Report, Refusal>
    ensures ok { IfOk result (λ report. GivesRows session.old fix names.now (reported report) session.new) }
    ensures err { OnErr result (session.new ≡ session.old) }
    ensures cause { IfErr result (IsNotGiven session.old fix names.now first) }
{
    if let Some(name) = first_undeclared(session, names) {
        return Err(unknown(alloc, name));
    }
    if !all_take(session.signature(), operand_count(fix), names) {
        return Err(Refusal::BadDecl(first));
    }
    let report = match fixity_line(alloc, fix, names) {
        Ok(line) => told(alloc, session, line),
        Err(_) => return Err(Refusal::Memory),
    };
    match session.give_rows(alloc, fix, names) {
        Ok(()) => Ok(report),
        Err(_) => Err(Refusal::Memory),
    }
}

// A name that is no entry's in place of a family.
fn no_family(alloc: Global, session: &Session, family: &ExtName, first: Place) -> Refusal
    requires { number_of session.now.signature family.now.name ≡ None }
    ensures { IsNotPreferred session.now family.now first result }
{
    if is_label(session.blocks(), &family.name) {
        return Refusal::BadDecl(first);
    }
    unknown(alloc, family)
}

// Gives a family its preferred names. After a refusal nothing has changed.
fn prefer(
    alloc: Global,
    session: &mut Session,
    family: &ExtName,
    upper: &Name,
    lower: &Option<Name>,
    first: Place,
) -> Result<Report, Refusal>
    ensures ok { IfOk result (λ report. Prefers session.old family.now upper.now lower.now (reported report) session.new) }
    ensures err { OnErr result (session.new ≡ session.old) }
    ensures cause { IfErr result (IsNotPreferred session.old family.now first) }
{
    let Some(id) = session.signature().lookup(&family.name) else {
        return Err(no_family(alloc, session, family, first));
    };
    if !is_family(session.signature(), id) {
        return Err(Refusal::BadDecl(first));
    }
    let report = match preference_line(alloc, &family.name, upper, lower) {
        Ok(line) => told(alloc, session, line),
        Err(_) => return Err(Refusal::Memory),
    };
    let row = match preference(alloc, upper, lower) {
        Ok(row) => row,
        Err(_) => return Err(Refusal::Memory),
    };
    match session.prefer(id, row) {
        Ok(()) => Ok(report),
        Err(_) => Err(Refusal::Memory),
    }
}

// Does what is declared. After a refusal nothing has changed.
fn perform(
    alloc: Global,
    session: &mut Session,
    first: Place,
    declaration: &ExtDecl,
) -> Result<Report, Refusal>
    ensures ok { IfOk result (λ report. Does session.old (declaration_of declaration.now) (reported report) session.new) }
    ensures err { OnErr result (session.new ≡ session.old) }
    ensures cause { IfErr result (HasObstacle session.old (declaration_of declaration.now) first) }
{
    match declaration {
        ExtDecl::Fixity(fix, names) => give(alloc, session, *fix, names, first),
        ExtDecl::NamePref(family, upper, lower) => {
            prefer(alloc, session, family, upper, lower, first)
        }
        ExtDecl::Declare(_, _, _) => enter(alloc, session, first, declaration),
        ExtDecl::Define(_, _, _, _) => enter(alloc, session, first, declaration),
    }
}

// Makes a search. After a refusal nothing has changed.
fn make_search(
    alloc: Global,
    session: &mut Session,
    first: Place,
    search: ExtSearch,
) -> Result<Report, Refusal>
    ensures ok { IfOk result (λ report. ReadDoes session.old (searching (search_of search)) (reported report) session.new) }
    ensures err { OnErr result (session.new ≡ session.old) }
    ensures cause { IfErr result (ReadHasObstacle session.old (searching (search_of search)) first) }
{
    match search {
        ExtSearch::Query(expected, sought, query) => {
            answer(alloc, session, first, expected, sought, &query)
        }
        ExtSearch::Solve(name, _, goal) => solve(alloc, session, first, name, goal),
    }
}

// Makes a check. After a refusal nothing has changed.
fn make_check(
    alloc: Global,
    session: &mut Session,
    first: Place,
    check: &ExtCheck,
) -> Result<Report, Refusal>
    ensures ok { IfOk result (λ report. Checks session.old (check_of check.now) (reported report) session.new) }
    ensures err { OnErr result (session.new ≡ session.old) }
    ensures cause { IfErr result (IsNotChecked session.old (check_of check.now) first) }
{
    match check {
        ExtCheck::ModeShort(_, _) => set_mode(alloc, session, first, check),
        ExtCheck::ModeFull(_, _, _, _) => set_mode(alloc, session, first, check),
        ExtCheck::Terminates(order, patterns) => {
            terminate(alloc, session, first, order, patterns)
        }
        ExtCheck::Block(label, count, declaration) => {
            add_block(alloc, session, first, label, *count, declaration)
        }
        ExtCheck::Worlds(labels, patterns) => {
            set_worlds(alloc, session, first, labels, patterns)
        }
    }
}

// Does what is read. After a refusal nothing has changed.
fn make(
    alloc: Global,
    session: &mut Session,
    first: Place,
    read: Written,
) -> Result<Report, Refusal>
    ensures ok { IfOk result (λ report. ReadDoes session.old (read_of read) (reported report) session.new) }
    ensures err { OnErr result (session.new ≡ session.old) }
    ensures cause { IfErr result (ReadHasObstacle session.old (read_of read) first) }
{
    match read {
        Written::Plain(declaration) => perform(alloc, session, first, &declaration),
        Written::Check(check) => make_check(alloc, session, first, &check),
        Written::Search(search) => make_search(alloc, session, first, search),
    }
}

/// The place of the first token.
pub fn first_place(tokens: &Tokens) -> Place
    ensures { (text : List ℕ) → result ≡ first_place tokens.now.at (lexemes text tokens.now.list.items) }
{
    match tokens.list.as_slice() {
        [first, ..] => first.at,
        [] => tokens.at,
    }
}

/// Makes the declaration that begins at this byte, whose place is given. After a refusal nothing has changed.
pub fn declare(
    alloc: Global,
    session: &mut Session,
    text: &[u8],
    from: usize,
    at: Place,
) -> Result<Next, Refusal>
    requires short { length text.now < 2 ^ 32 - 1 }
    requires within { from ≤ length text.now }
    requires place { at ≡ place_of text.now from }
    ensures ok { IfOk result (λ next. Comes session.old text.now from next session.new) }
    ensures err { OnErr result (session.new ≡ session.old) }
    ensures cause { IfErr result (λ refusal. HasCauseFrom session.old text.now from refusal) }
{
    let tokens = match tokens_of(alloc, text, from, at) {
        Ok(tokens) => tokens,
        Err(refusal) => return Err(refusal),
    };
    if is_over(&tokens.list) {
        return Ok(Next::End);
    }
    let read = match parsed(alloc, session, text, &tokens) {
        Ok(read) => read,
        Err(fault) => return Err(refusal_of(fault)),
    };
    match make(alloc, session, first_place(&tokens), read) {
        Ok(report) => Ok(Next::Done {
            report,
            upto: tokens.upto,
            at: tokens.at,
        }),
        Err(refusal) => Err(refusal),
    }
}

/// Makes the declaration that is the text, and reports it. No token may follow it. After a refusal nothing has changed.
pub fn declare_one(alloc: Global, session: &mut Session, text: &[u8]) -> Result<Report, Refusal>
    requires { length text.now < 2 ^ 32 - 1 }
    ensures ok { IfOk result (λ report. Accepts session.old text.now (reported report) session.new) }
    ensures err { OnErr result (session.new ≡ session.old) }
    ensures cause { IfErr result (λ refusal. HasCause session.old text.now refusal) }
{
    let tokens = match tokens_of(alloc, text, 0, Place { line: 1, column: 1 }) {
        Ok(tokens) => tokens,
        Err(refusal) => return Err(refusal),
    };
    let next = match next_token(text, tokens.upto, tokens.at) {
        Ok(next) => next,
        Err(place) => return Err(Refusal::Lex(place)),
    };
    let read = match alone(parsed(alloc, session, text, &tokens), &next) {
        Ok(read) => read,
        Err(refusal) => return Err(refusal),
    };
    match make(alloc, session, first_place(&tokens), read) {
        Ok(report) => Ok(report),
        Err(refusal) => Err(refusal),
    }
}
