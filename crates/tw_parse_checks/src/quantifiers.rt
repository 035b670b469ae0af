//! The quantified variables of the full form of a check.
ghost use Rattle.std.specs.Prelude.{◌≡◌, ◌<◌, ◌++◌, ◌∷◌, [], IfOk, IfErr, OnOk, Some};
ghost use Rattle.tw_parse.specs.Sources.{lexemes_from};
ghost use Rattle.tw_parse_checks.specs.Parts.{AreQuantified, DomainFault, HasNoHead, IsDomain, TypeFault};

use crate::bound::{Bound, bind};
use crate::check::ExtMark;
use crate::heads::head;
use std::alloc::{AllocError, Global};
use tw_parse::{ExtName, Part, Source, SyntaxFault, Word, sequence};

/// Quantified variables: the marks, and the variables.
#[derive(Debug, Drop)]
pub struct Quantified {
    pub marks: Vec<ExtMark>,
    pub bound: Bound,
}

// Puts a quantified variable behind the others.
fn add(
    quantified: &mut Quantified,
    mark: ExtMark,
    variable: ExtName,
    domain: Part,
) -> Result<(), AllocError>
    ensures marks { OnOk result (quantified.new.marks.items ≡ quantified.old.marks.items ++ mark ∷ []) }
    ensures variables { OnOk result (quantified.new.bound.variables.items ≡ quantified.old.bound.variables.items ++ variable ∷ []) }
    ensures domains { OnOk result (quantified.new.bound.domains.items ≡ quantified.old.bound.domains.items ++ Some domain ∷ []) }
{
    quantified.marks.push(mark)?;
    bind(&mut quantified.bound, variable, Some(domain))?;
    Ok(())
}

/// Reads the type that begins with this token, and its brace. Gives the number of the token behind it.
pub fn domain(alloc: Global, source: &Source<'_>, from: usize) -> Result<(Part, usize), SyntaxFault>
    ensures onward { IfOk result (λ r. from < r.1) }
    ensures reads { IfOk result (λ r. IsDomain source.now from r.0 r.1) }
    ensures fault { IfErr result (DomainFault source.now from) }
{
    let (part, end) = sequence(alloc, source, from)?;
    if source.word(end) != Word::RBrace {
        return Err(SyntaxFault::Syntax(source.place(end)));
    }
    Ok((part, end + 1))
}

/// Reads the quantified variables from this token on. Gives the number of the token behind them.
pub fn quantifiers(
    alloc: Global,
    source: &Source<'_>,
    from: usize,
) -> Result<(Quantified, usize), SyntaxFault>
    ensures reads { IfOk result (λ r. AreQuantified source.now from r.0 r.1) }
    ensures stops { IfOk result (λ r. HasNoHead (lexemes_from source.now r.1)) }
    ensures fault { IfErr result (TypeFault source.now from) }
{
    let mut quantified = Quantified {
        marks: Vec::new(alloc),
        bound: Bound {
            variables: Vec::new(alloc),
            domains: Vec::new(alloc),
        },
    };
    let mut upto = from;
    'variables: while let Some(mark) = head(source, upto) {
        let name = source.name(alloc, upto + 2)?;
        let at = source.place(upto + 1);
        let (domain, end) = domain(alloc, source, upto + 4)?;
        add(&mut quantified, mark, ExtName { name, at }, domain)?;
        upto = end;
    }
    Ok((quantified, upto))
}
