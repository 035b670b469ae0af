//! Reading modes.
ghost use Rattle.std.specs.Prelude.{◌≢◌, [], IfOk, IfErr};
ghost use Rattle.tw_parse.specs.Faults.{DotEnds};
ghost use Rattle.tw_parse.specs.Sources.{lexemes_from};
ghost use Rattle.tw_parse_checks.specs.Checks.{check_of};
ghost use Rattle.tw_parse_checks.specs.Faults.{IsCheck, IsFault};
ghost use Rattle.tw_parse_checks.specs.Parts.{AreQuantified, HasNoHead, TellsParens};
ghost use Rattle.tw_parse_checks.specs.declared.check.CheckForm.TheVariants.{Mode};

use crate::binding::{bound_over, family_on};
use crate::check::ExtCheck;
use crate::heads::{closes, family, marks, names};
use crate::quantifiers::{Quantified, quantifiers};
use crate::rules::keeps_rules;
use std::alloc::Global;
use tw_parse::{ExtDecl, Part, Source, SyntaxFault, Word};

// Reads the short form, which stands in parentheses or not.
fn short_in(alloc: Global, source: &Source<'_>, parens: bool) -> Result<ExtCheck, SyntaxFault>
    requires dot { DotEnds source.now }
    requires no_head { HasNoHead (lexemes_from source.now 1) }
    requires parens { TellsParens parens (lexemes_from source.now 1) }
    ensures reads { IfOk result (λ c. IsCheck source.now Mode (check_of c)) }
    ensures fault { IfErr result (IsFault source.now Mode) }
{
    let Some(found) = family(alloc, source, 1, parens)? else {
        return Err(SyntaxFault::BadDecl(source.place(0)));
    };
    let (family, from) = found;
    let (marks, end) = marks(alloc, source, from)?;
    if !closes(source, end, parens) {
        return Err(SyntaxFault::BadDecl(source.place(0)));
    }
    Ok(ExtCheck::ModeShort(family, marks))
}

// Reads the short form.
fn short(alloc: Global, source: &Source<'_>) -> Result<ExtCheck, SyntaxFault>
    requires dot { DotEnds source.now }
    requires no_head { HasNoHead (lexemes_from source.now 1) }
    ensures reads { IfOk result (λ c. IsCheck source.now Mode (check_of c)) }
    ensures fault { IfErr result (IsFault source.now Mode) }
{
    if source.word(1) == Word::LParen {
        short_in(alloc, source, true)
    } else {
        short_in(alloc, source, false)
    }
}

// Reads the full form from the token on that stands behind its quantified variables.
fn full(
    alloc: Global,
    source: &Source<'_>,
    quantified: Quantified,
    at: usize,
) -> Result<ExtCheck, SyntaxFault>
    requires dot { DotEnds source.now }
    requires quantified { AreQuantified source.now 1 quantified at }
    requires some { quantified.marks.items ≢ [] }
    requires no_head { HasNoHead (lexemes_from source.now at) }
    ensures reads { IfOk result (λ c. IsCheck source.now Mode (check_of c)) }
    ensures fault { IfErr result (IsFault source.now Mode) }
{
    let Some(found) = family(alloc, source, at, true)? else {
        return Err(SyntaxFault::BadDecl(source.place(0)));
    };
    let (family, from) = found;
    let (names, end) = names(alloc, source, from)?;
    if !closes(source, end, true) {
        return Err(SyntaxFault::BadDecl(source.place(0)));
    }
    let count = names.len();
    let Quantified { marks, bound } = quantified;
    let lawful = keeps_rules(&bound.variables, &names);
    let target = family_on(alloc, &family, &names)?;
    let whole = bound_over(alloc, bound, Part::Term(target))?;
    match whole {
        Part::AtFault(place) => Err(SyntaxFault::Fixity(place)),
        Part::Term(ty) => {
            if !lawful {
                return Err(SyntaxFault::BadDecl(source.place(0)));
            }
            let name = family.name.copy(alloc)?;
            let constant = ExtDecl::Declare(name, family.at, ty);
            Ok(ExtCheck::ModeFull(marks, family, count, constant))
        }
    }
}

/// Reads modes.
pub fn mode(alloc: Global, source: &Source<'_>) -> Result<ExtCheck, SyntaxFault>
    requires { DotEnds source.now }
    ensures reads { IfOk result (λ c. IsCheck source.now Mode (check_of c)) }
    ensures fault { IfErr result (IsFault source.now Mode) }
{
    let (quantified, at) = quantifiers(alloc, source, 1)?;
    if quantified.marks.is_empty() {
        short(alloc, source)
    } else {
        full(alloc, source, quantified, at)
    }
}
