//! Reading sequences. A sequence stands in each bracket and behind each binder.
ghost use Rattle.std.specs.Prelude.{◌≡◌, ◌≤◌, ◌<◌, ◌≢◌, IfOk, IfErr, Some, None, length, true, false};
ghost use Rattle.tw_parse.specs.Words.{first_word, binder_of};
ghost use Rattle.tw_parse.specs.Sources.{lexemes_from};
ghost use Rattle.tw_parse.specs.Failing.{is_item, SequenceFault, HeadFault, HeadPort};
ghost use Rattle.tw_parse.specs.Telling.{Tells};
ghost use Rattle.tw_parse.specs.Parts.{Takes, Leads, Bound};
ghost use Rattle.tw_parse.specs.Outlines.{Outline, Sequence};
ghost use Rattle.tw_parse.specs.Grammar.{bound};
ghost use Rattle.tw_parse.specs.View.{term_of, boxed_domain};
ghost use Rattle.tw_parse.specs.declared.words.Word.TheVariants.{End};

use crate::fault::SyntaxFault;
use crate::parts::{Head, Part};
use crate::pile::Pile;
use crate::source::Source;
use crate::term::ExtTerm;
use crate::words::{Binder, Word, binder_of, closer_of, is_bindable};
use std::alloc::{AllocError, Global};
use tw_fixity::Name;
use tw_lexer::Place;

// Puts the token on the pile, if it is a sign or an atom by itself.
fn put_token(
    alloc: Global,
    source: &Source<'_>,
    pile: &mut Pile,
    at: usize,
) -> Result<bool, AllocError>
    ensures takes { IfOk result (λ taken. Takes source.now at pile.old pile.new taken) }
    ensures within { IfOk result (λ taken. taken ≡ true → at < length source.now.tokens.now) }
{
    if let Some(sign) = source.sign(alloc, at)? {
        pile.put(alloc, sign)?;
        return Ok(true);
    }
    let Some(term) = source.leaf(alloc, at)? else {
        return Ok(false);
    };
    pile.apply(alloc, Part::Term(term))?;
    Ok(true)
}

/// Reads the sequence that begins with this token, through the last token that can go on with it. Gives the number of the token behind it.
#[cycle(sequence)]
pub fn sequence(
    alloc: Global,
    source: &Source<'_>,
    from: usize,
) -> Result<(Part, usize), SyntaxFault>
    ensures onward { IfOk result (λ r. from < r.1) }
    ensures fault { IfErr result (SequenceFault source.now from) }
    ensures reads { IfOk result (λ r. (O : Outline) × Sequence source.now.fixities.now (lexemes_from source.now from) O (lexemes_from source.now r.1) × Tells O r.0) }
    ensures stops { IfOk result (λ r. is_item (first_word (lexemes_from source.now r.1)) ≡ false) }
{
    let first = source.place(from);
    let mut pile = Pile::new(alloc);
    let mut upto = from;
    loop {
        let taken = put_token(alloc, source, &mut pile, upto)?;
        if taken {
            upto += 1;
        } else if source.word(upto) == Word::LParen {
            let (inside, end) = sequence(alloc, source, upto + 1)?;
            source.expect(end, Word::RParen)?;
            pile.apply(alloc, inside)?;
            upto = end + 1;
        } else {
            break;
        }
    }
    if let Some(binder) = binder_of(source.word(upto)) {
        let (head, next) = head(alloc, source, upto, binder)?;
        let (body, end) = sequence(alloc, source, next)?;
        let bound = bind(alloc, head, body)?;
        pile.apply(alloc, bound)?;
        let whole = pile.finish(alloc, first)?;
        return Ok((whole, end));
    }
    if upto == from {
        return Err(SyntaxFault::Syntax(source.place(upto)));
    }
    let plain = pile.finish(alloc, first)?;
    Ok((plain, upto))
}

// Reads the head of the binder whose bracket is this token. Gives the number of the token behind it.
#[cycle(sequence)]
fn head(
    alloc: Global,
    source: &Source<'_>,
    at: usize,
    binder: Binder,
) -> Result<(Head, usize), SyntaxFault>
    requires { binder_of (first_word (lexemes_from source.now at)) ≡ Some binder }
    ensures onward { IfOk result (λ r. at < r.1) }
    ensures fault { IfErr result (HeadFault source.now at) }
    ensures reads { IfOk result (λ r. Leads source.now at r.0 r.1) }
    ensures port { IfOk result (λ r. HeadPort source.now.fixities.now (lexemes_from source.now at) (lexemes_from source.now r.1)) }
{
    let place = source.place(at);
    if !is_bindable(source.word(at + 1)) {
        return Err(SyntaxFault::Syntax(source.place(at + 1)));
    }
    let name = source.name(alloc, at + 1)?;
    if source.word(at + 2) == closer_of(binder) {
        let head = Head {
            binder,
            name,
            at: place,
            domain: None,
        };
        return Ok((head, at + 3));
    }
    source.expect(at + 2, Word::Colon)?;
    let (domain, end) = sequence(alloc, source, at + 3)?;
    source.expect(end, closer_of(binder))?;
    let head = Head {
        binder,
        name,
        at: place,
        domain: Some(domain),
    };
    Ok((head, end + 1))
}

// The term of a binder.
fn bound(
    binder: Binder,
    name: Name,
    at: Place,
    domain: Option<Box<ExtTerm>>,
    body: Box<ExtTerm>,
) -> ExtTerm
    ensures { term_of result ≡ bound binder name at (boxed_domain domain) (term_of body.value) }
{
    match binder {
        Binder::Pi => ExtTerm::Pi(name, at, domain, body),
        Binder::Lambda => ExtTerm::Lam(name, at, domain, body),
    }
}

// The binder with this head over its body.
fn bind(alloc: Global, head: Head, body: Part) -> Result<Part, AllocError>
    ensures { IfOk result (λ part. Bound head body part) }
{
    let Head {
        binder,
        name,
        at,
        domain,
    } = head;
    let domain = match domain {
        None => None,
        Some(Part::AtFault(place)) => return Ok(Part::AtFault(place)),
        Some(Part::Term(domain)) => Some(Box::new(alloc, domain)?),
    };
    match body {
        Part::AtFault(place) => Ok(Part::AtFault(place)),
        Part::Term(body) => {
            let body = Box::new(alloc, body)?;
            Ok(Part::Term(bound(binder, name, at, domain, body)))
        }
    }
}
