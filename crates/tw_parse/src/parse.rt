//! Reading declarations.
ghost use Rattle.std.specs.Prelude.{◌≡◌, ◌≢◌, ℕ, ◌+◌, ◌≤◌, length, All, IfOk, IfErr, OnOk, MatchOption, Some, None, true, false};
ghost use Rattle.tw_lexer.specs.Tokens.{IsWithin, ThroughDot};
ghost use Rattle.tw_parse.specs.Faults.{DotEnds, IsRead, IsKnown, FaultStands, FaultOf, DeclaresAll, EndsAs, NamesBetween, RowUpTo, HasNoRow, HasNoShape, FormIs, FormFits, defined, declared};
ghost use Rattle.tw_parse.specs.Failing.{LastIsDue};
ghost use Rattle.tw_parse.specs.Keywords.{form_of, is_identifier};
ghost use Rattle.tw_parse.specs.Outlines.{Head};
ghost use Rattle.tw_parse.specs.declared.words.Word.TheVariants.{Keyword};
ghost use Rattle.tw_parse.specs.Readings.{Declares};
ghost use Rattle.tw_parse.specs.Sources.{lexemes_from};
ghost use Rattle.tw_parse.specs.View.{declaration_of};
ghost use Rattle.tw_parse.specs.Words.{lexemes, first_word, first_bytes, first_place};

use crate::decl::{ExtDecl, ExtName};
use crate::fault::SyntaxFault;
use crate::keywords::{assoc_of, form_of, is_built, is_identifier, is_upper, precedence_of};
use crate::nesting::too_deep;
use crate::parts::Part;
use crate::sequences::sequence;
use crate::source::Source;
use crate::term::ExtTerm;
use crate::words::{Form, Word};
use std::alloc::{AllocError, Global};
use tw_fixity::{Fix, FixTable, Name};
use tw_lexer::{Place, Tokens};

// The fault of a keyword other than `%abbrev` whose rules the tokens behind it break.
fn misfit(source: &Source<'_>) -> SyntaxFault
    requires keyword { first_word (lexemes_from source.now 0) ≡ Keyword }
    requires other { form_of (first_bytes (lexemes_from source.now 0)) ≢ Some Form.Abbreviation }
    requires shape { HasNoShape source.now.fixities.now (lexemes_from source.now 0) }
    ensures stands { FaultOf source.now result }
    ensures told { result ≢ SyntaxFault.NoMemory }
{
    SyntaxFault::BadDecl(source.place(0))
}

// What is defined, where these parts tell of its type and its term.
fn define(
    name: Option<Name>,
    ty: Option<Part>,
    part: Part,
    abbreviated: bool,
) -> Result<ExtDecl, SyntaxFault>
    ensures { result ≡ defined name ty part abbreviated }
{
    let ty = match ty {
        None => None,
        Some(Part::AtFault(place)) => return Err(SyntaxFault::Fixity(place)),
        Some(Part::Term(ty)) => Some(ty),
    };
    match part {
        Part::Term(term) => Ok(ExtDecl::Define(name, ty, term, abbreviated)),
        Part::AtFault(place) => Err(SyntaxFault::Fixity(place)),
    }
}

// What is declared, where this part tells of its type.
fn declare(name: Name, at: Place, part: Part) -> Result<ExtDecl, SyntaxFault>
    ensures { result ≡ declared name at part }
{
    match part {
        Part::Term(ty) => Ok(ExtDecl::Declare(name, at, ty)),
        Part::AtFault(place) => Err(SyntaxFault::Fixity(place)),
    }
}

// Reads the last sequence of a declaration, and its dot.
fn last_sequence(alloc: Global, source: &Source<'_>, from: usize) -> Result<Part, SyntaxFault>
    requires dot { DotEnds source.now }
    requires due { LastIsDue source.now from }
    ensures reads { IfOk result (EndsAs source.now from) }
    ensures fault { IfErr result (FaultOf source.now) }
{
    let (part, end) = sequence(alloc, source, from)?;
    if source.word(end) != Word::Dot {
        return Err(SyntaxFault::Syntax(source.place(end)));
    }
    Ok(part)
}

// Reads what stands behind the name that is declared, which has this number.
fn behind_name(
    alloc: Global,
    source: &Source<'_>,
    at: usize,
    name: Option<Name>,
    abbreviated: bool,
) -> Result<ExtDecl, SyntaxFault>
    requires dot { DotEnds source.now }
    requires head { Head (lexemes_from source.now 0) name abbreviated (lexemes_from source.now (at + 1)) }
    requires first { abbreviated ≡ false → at ≡ 0 }
    requires early { at ≤ 1 }
    ensures reads { IfOk result (λ d. DeclaresAll source.now (declaration_of d)) }
    ensures fault { IfErr result (FaultOf source.now) }
{
    let sign = source.word(at + 1);
    if sign == Word::Equals {
        let part = last_sequence(alloc, source, at + 2)?;
        let short = define(name, None, part, abbreviated);
        return short;
    }
    if sign != Word::Colon {
        return Err(SyntaxFault::Syntax(source.place(at + 1)));
    }
    let (ty, end) = sequence(alloc, source, at + 2)?;
    let next = source.word(end);
    if next == Word::Equals {
        let part = last_sequence(alloc, source, end + 1)?;
        let long = define(name, Some(ty), part, abbreviated);
        return long;
    }
    let Some(name) = name else {
        return Err(SyntaxFault::Syntax(source.place(end)));
    };
    if abbreviated {
        return Err(SyntaxFault::Syntax(source.place(end)));
    }
    if next != Word::Dot {
        return Err(SyntaxFault::Syntax(source.place(end)));
    }
    let place = source.place(at);
    declare(name, place, ty)
}

// The token with this number as a name that is looked up.
fn ext_name(alloc: Global, source: &Source<'_>, number: usize) -> Result<ExtName, AllocError>
    ensures { IfOk result (λ x. (x.name ≡ first_bytes (lexemes_from source.now number)) × (x.at ≡ first_place source.now.end (lexemes_from source.now number))) }
{
    let name = source.name(alloc, number)?;
    Ok(ExtName {
        name,
        at: source.place(number),
    })
}

// Reads `%abbrev` with what is defined.
fn abbreviation(alloc: Global, source: &Source<'_>) -> Result<ExtDecl, SyntaxFault>
    requires dot { DotEnds source.now }
    requires form { FormIs source.now Form.Abbreviation }
    ensures reads { IfOk result (λ d. DeclaresAll source.now (declaration_of d)) }
    ensures fault { IfErr result (FaultOf source.now) }
{
    if source.word(1) != Word::Name {
        return Err(SyntaxFault::Syntax(source.place(1)));
    }
    let name = source.name(alloc, 1)?;
    behind_name(alloc, source, 1, Some(name), true)
}

// Reads `%name` with its names.
fn preference(alloc: Global, source: &Source<'_>) -> Result<ExtDecl, SyntaxFault>
    requires dot { DotEnds source.now }
    requires form { FormIs source.now Form.Preference }
    ensures reads { IfOk result (λ d. DeclaresAll source.now (declaration_of d)) }
    ensures fault { IfErr result (FaultOf source.now) }
{
    if !is_identifier(source.word(1))
        || source.word(2) != Word::Name
        || !is_upper(source.bytes(2))
    {
        return Err(misfit(source));
    }
    let family = ext_name(alloc, source, 1)?;
    let upper = source.name(alloc, 2)?;
    if source.word(3) == Word::Dot {
        return Ok(ExtDecl::NamePref(family, upper, None));
    }
    if source.word(3) != Word::Name || is_upper(source.bytes(3)) || source.word(4) != Word::Dot {
        return Err(misfit(source));
    }
    let lower = source.name(alloc, 3)?;
    Ok(ExtDecl::NamePref(family, upper, Some(lower)))
}

// The row that stands behind the keyword, and the number of the token behind it.
fn row(source: &Source<'_>, form: Form) -> Option<(Fix, usize)>
    ensures { MatchOption result (HasNoRow source.now form) (λ r. RowUpTo source.now form r.0 r.1) }
{
    match form {
        Form::Infix => {
            let assoc = assoc_of(source.bytes(1))?;
            let precedence = precedence_of(source.bytes(2))?;
            Some((Fix::Infix(assoc, precedence), 3))
        }
        Form::Prefix => {
            let precedence = precedence_of(source.bytes(1))?;
            Some((Fix::Prefix(precedence), 2))
        }
        Form::Postfix => {
            let precedence = precedence_of(source.bytes(1))?;
            Some((Fix::Postfix(precedence), 2))
        }
        Form::Abbreviation | Form::Preference => None,
    }
}

// The identifiers from this token on, and the number of the token behind them.
fn names(
    alloc: Global,
    source: &Source<'_>,
    from: usize,
) -> Result<(Vec<ExtName>, usize), AllocError>
    ensures between { IfOk result (λ r. NamesBetween source.now from r.1 r.0.items) }
    ensures all { IfOk result (λ r. is_identifier (first_word (lexemes_from source.now r.1)) ≡ false) }
{
    let mut names = Vec::new(alloc);
    let mut upto = from;
    'names: while is_identifier(source.word(upto)) {
        let name = ext_name(alloc, source, upto)?;
        names.push(name)?;
        upto += 1;
    }
    Ok((names, upto))
}

// Reads a row of operators.
fn fixity(alloc: Global, source: &Source<'_>, form: Form) -> Result<ExtDecl, SyntaxFault>
    requires dot { DotEnds source.now }
    requires form { FormIs source.now form }
    requires no_abbreviation { form ≢ Form.Abbreviation }
    requires no_preference { form ≢ Form.Preference }
    ensures reads { IfOk result (λ d. DeclaresAll source.now (declaration_of d)) }
    ensures fault { IfErr result (FaultOf source.now) }
{
    let Some((fix, from)) = row(source, form) else {
        return Err(misfit(source));
    };
    let (names, end) = names(alloc, source, from)?;
    if names.is_empty() || source.word(end) != Word::Dot {
        return Err(misfit(source));
    }
    Ok(ExtDecl::Fixity(fix, names))
}

fn declaration(
    alloc: Global,
    source: &Source<'_>,
    form: Option<Form>,
) -> Result<ExtDecl, SyntaxFault>
    requires dot { DotEnds source.now }
    requires form { FormFits source.now form }
    ensures reads { IfOk result (λ d. DeclaresAll source.now (declaration_of d)) }
    ensures fault { IfErr result (FaultOf source.now) }
{
    match form {
        Some(Form::Abbreviation) => abbreviation(alloc, source),
        Some(Form::Preference) => preference(alloc, source),
        Some(form) => fixity(alloc, source, form),
        None => match source.word(0) {
            Word::Name => {
                let name = source.name(alloc, 0)?;
                behind_name(alloc, source, 0, Some(name), false)
            }
            Word::Underscore => behind_name(alloc, source, 0, None, false),
            _ => Err(SyntaxFault::Syntax(source.place(0))),
        },
    }
}

// The form that the first token asks for, if it is a keyword; a fault where its declarations are not read.
fn known_form(alloc: Global, source: &Source<'_>) -> Result<Option<Form>, SyntaxFault>
    ensures form { IfOk result (FormFits source.now) }
    ensures known { OnOk result (IsKnown (lexemes_from source.now 0)) }
    ensures fault { IfErr result (FaultStands source.now.fixities.now source.now.end (lexemes_from source.now 0)) }
{
    if source.word(0) != Word::Keyword {
        return Ok(None);
    }
    let form = form_of(source.bytes(0));
    if !is_built(form) {
        let name = source.name(alloc, 0)?;
        return Err(SyntaxFault::Unsupported(name, source.place(0)));
    }
    Ok(form)
}

/// Reads a declaration from the tokens that `lex` gave for this text: the one reading that the operators of the table give it, or the cause why there is none.
pub fn parse_decl(
    alloc: Global,
    tokens: &Tokens,
    text: &[u8],
    fixities: &FixTable,
) -> Result<ExtDecl, SyntaxFault>
    requires within { All (IsWithin (length text.now)) tokens.now.list.items }
    requires through_dot { (from : ℕ) × ThroughDot text.now from tokens.now.list.items tokens.now.upto }
    ensures reading { IfOk result (λ d. Declares fixities.now (lexemes text.now tokens.now.list.items) (declaration_of d)) }
    // No keyword stands first whose declarations are not read, and no bracket opens past the limit of nesting.
    ensures first_causes { OnOk result (IsRead (lexemes text.now tokens.now.list.items)) }
    ensures fault { IfErr result (FaultStands fixities.now tokens.now.at (lexemes text.now tokens.now.list.items)) }
{
    let source = Source {
        text,
        tokens: &tokens.list,
        end: tokens.at,
        fixities,
    };
    let form = known_form(alloc, &source)?;
    if let Some(place) = too_deep(alloc, &source)? {
        return Err(SyntaxFault::Nesting(place));
    }
    declaration(alloc, &source, form)
}
