//! The binders of a block.
ghost use Rattle.std.specs.Prelude.{◌≡◌, ◌+◌, ◌<◌, IfOk, IfErr, IsSome, MatchBool, MatchOption, length, true};
ghost use Rattle.tw_parse.specs.Sources.{lexemes_from};
ghost use Rattle.tw_parse_checks.specs.Parts.{AreBinders, Begins, BinderFault, HasNoBare, HasNoBinder, IsBare, IsSomePart, SomeFault};

use crate::bound::{Bound, bind};
use crate::heads::{is_bindable, opens, says};
use crate::quantifiers::domain;
use std::alloc::Global;
use tw_parse::{ExtName, Source, SyntaxFault, Word};

// Whether a binder without a type begins with the token of this number.
fn is_bare(source: &Source<'_>, number: usize) -> bool
    ensures bare { MatchBool result (IsBare source.now number) (HasNoBare source.now number) }
    ensures within { result ≡ true → number + 2 < length source.now.tokens.now }
{
    if source.word(number) != Word::LBrace {
        return false;
    }
    if !is_bindable(source.word(number + 1)) {
        return false;
    }
    if source.word(number + 2) != Word::RBrace {
        return false;
    }
    true
}

// Whether a binder begins with the token of this number, and if so, whether its type is written.
fn begins(source: &Source<'_>, number: usize) -> Option<bool>
    ensures binder { MatchOption result (HasNoBinder source.now.fixities.now (lexemes_from source.now number)) (Begins source.now number) }
    ensures within { IsSome result → number + 2 < length source.now.tokens.now }
{
    if opens(source, number) {
        return Some(true);
    }
    if is_bare(source, number) {
        return Some(false);
    }
    None
}

/// Reads the binders from this token on. Gives the number of the token behind them.
pub fn binders(
    alloc: Global,
    source: &Source<'_>,
    from: usize,
) -> Result<(Bound, usize), SyntaxFault>
    ensures reads { IfOk result (λ r. AreBinders source.now from r.0 r.1) }
    ensures stops { IfOk result (λ r. HasNoBinder source.now.fixities.now (lexemes_from source.now r.1)) }
    ensures fault { IfErr result (BinderFault source.now from) }
{
    let mut bound = Bound {
        variables: Vec::new(alloc),
        domains: Vec::new(alloc),
    };
    let mut upto = from;
    'binders: while let Some(typed) = begins(source, upto) {
        let name = source.name(alloc, upto + 1)?;
        let variable = ExtName {
            name,
            at: source.place(upto),
        };
        if typed {
            let (domain, end) = domain(alloc, source, upto + 3)?;
            bind(&mut bound, variable, Some(domain))?;
            upto = end;
        } else {
            bind(&mut bound, variable, None)?;
            upto += 3;
        }
    }
    Ok((bound, upto))
}

/// Reads the binders behind `some`, if it stands here. Gives the number of the token behind them.
pub fn some_binders(
    alloc: Global,
    source: &Source<'_>,
    from: usize,
) -> Result<(Bound, usize), SyntaxFault>
    ensures reads { IfOk result (λ r. IsSomePart source.now from r.0 r.1) }
    ensures fault { IfErr result (SomeFault source.now from) }
{
    if !says(source, from, b"some") {
        let none = Bound {
            variables: Vec::new(alloc),
            domains: Vec::new(alloc),
        };
        return Ok((none, from));
    }
    binders(alloc, source, from + 1)
}
