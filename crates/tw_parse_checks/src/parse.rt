//! Reading declarations of checks.
ghost use Rattle.std.specs.Prelude.{◌≡◌, ℕ, length, All, IfOk, IfErr, OnOk, true};
ghost use Rattle.tw_lexer.specs.Tokens.{IsWithin, ThroughDot};
ghost use Rattle.tw_parse.specs.Faults.{DotEnds};
ghost use Rattle.tw_parse.specs.Queries.{IsShallow};
ghost use Rattle.tw_parse.specs.Sources.{lexemes_from};
ghost use Rattle.tw_parse.specs.Words.{lexemes, first_word, first_bytes};
ghost use Rattle.tw_parse.specs.declared.words.Word.TheVariants.{Keyword};
ghost use Rattle.tw_parse_checks.specs.Checks.{check_of};
ghost use Rattle.tw_parse_checks.specs.Faults.{CheckFaultStands, DeclaresAll, FaultOf, IsCheck, IsFault};
ghost use Rattle.tw_parse_checks.specs.Marks.{is_check};
ghost use Rattle.tw_parse_checks.specs.Meanings.{DeclaresCheck};
ghost use Rattle.tw_parse_checks.specs.declared.check.CheckForm.TheVariants.{Terminates, Worlds};

use crate::block::block;
use crate::calls::{calls, labels};
use crate::check::{CheckForm, ExtCheck};
use crate::marks::form_of;
use crate::modes::mode;
use crate::orders::order;
use crate::rules::fits;
use std::alloc::Global;
use tw_fixity::FixTable;
use tw_lexer::Tokens;
use tw_parse::{Source, SyntaxFault, too_deep};

// Reads worlds.
fn worlds(alloc: Global, source: &Source<'_>) -> Result<ExtCheck, SyntaxFault>
    requires { DotEnds source.now }
    ensures reads { IfOk result (λ c. IsCheck source.now Worlds (check_of c)) }
    ensures fault { IfErr result (IsFault source.now Worlds) }
{
    let Some(found) = labels(alloc, source, 1)? else {
        return Err(SyntaxFault::BadDecl(source.place(0)));
    };
    let (labels, at) = found;
    let Some(patterns) = calls(alloc, source, at)? else {
        return Err(SyntaxFault::BadDecl(source.place(0)));
    };
    Ok(ExtCheck::Worlds(labels, patterns))
}

// Reads a termination order.
fn terminates(alloc: Global, source: &Source<'_>) -> Result<ExtCheck, SyntaxFault>
    requires { DotEnds source.now }
    ensures reads { IfOk result (λ c. IsCheck source.now Terminates (check_of c)) }
    ensures fault { IfErr result (IsFault source.now Terminates) }
{
    let Some(found) = order(alloc, source, 1)? else {
        return Err(SyntaxFault::BadDecl(source.place(0)));
    };
    let (order, at) = found;
    let Some(patterns) = calls(alloc, source, at)? else {
        return Err(SyntaxFault::BadDecl(source.place(0)));
    };
    if !fits(&patterns, &order) {
        return Err(SyntaxFault::BadDecl(source.place(0)));
    }
    Ok(ExtCheck::Terminates(order, patterns))
}

// Reads what the keyword of this form declares.
fn behind(alloc: Global, source: &Source<'_>, form: CheckForm) -> Result<ExtCheck, SyntaxFault>
    requires { DotEnds source.now }
    ensures reads { IfOk result (λ c. IsCheck source.now form (check_of c)) }
    ensures fault { IfErr result (IsFault source.now form) }
{
    match form {
        CheckForm::Mode => mode(alloc, source),
        CheckForm::Block => block(alloc, source),
        CheckForm::Worlds => worlds(alloc, source),
        CheckForm::Terminates => terminates(alloc, source),
    }
}

fn check(alloc: Global, source: &Source<'_>) -> Result<ExtCheck, SyntaxFault>
    requires dot { DotEnds source.now }
    requires keyword { first_word (lexemes_from source.now 0) ≡ Keyword }
    requires check { is_check (first_bytes (lexemes_from source.now 0)) ≡ true }
    ensures reads { IfOk result (λ c. DeclaresAll source.now (check_of c)) }
    ensures fault { IfErr result (FaultOf source.now) }
{
    let Some(form) = form_of(source.bytes(0)) else {
        unreachable!()
    };
    behind(alloc, source, form)
}

/// Reads the declaration of a check from the tokens that `lex` gave for this text: the one reading that the operators of the table give it, or the cause why there is none.
pub fn parse_check(
    alloc: Global,
    tokens: &Tokens,
    text: &[u8],
    fixities: &FixTable,
) -> Result<ExtCheck, SyntaxFault>
    requires within { All (IsWithin (length text.now)) tokens.now.list.items }
    requires through_dot { (from : ℕ) × ThroughDot text.now from tokens.now.list.items tokens.now.upto }
    requires keyword { first_word (lexemes text.now tokens.now.list.items) ≡ Keyword }
    requires check { is_check (first_bytes (lexemes text.now tokens.now.list.items)) ≡ true }
    ensures reading { IfOk result (λ c. DeclaresCheck fixities.now (lexemes text.now tokens.now.list.items) (check_of c)) }
    // No bracket opens past the limit of nesting.
    ensures first_causes { OnOk result (IsShallow (lexemes text.now tokens.now.list.items)) }
    ensures fault { IfErr result (CheckFaultStands fixities.now tokens.now.at (lexemes text.now tokens.now.list.items)) }
{
    let source = Source {
        text,
        tokens: &tokens.list,
        end: tokens.at,
        fixities,
    };
    if let Some(place) = too_deep(alloc, &source)? {
        return Err(SyntaxFault::Nesting(place));
    }
    check(alloc, &source)
}
