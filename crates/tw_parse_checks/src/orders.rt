//! Reading termination orders.
ghost use Rattle.std.specs.Prelude.{◌≡◌, ◌+◌, IfOk, MatchOption, true};
ghost use Rattle.tw_parse.specs.Sources.{lexemes_from};
ghost use Rattle.tw_parse.specs.Words.{first_bytes, first_word};
ghost use Rattle.tw_parse.specs.declared.words.Word.TheVariants.{LParen};
ghost use Rattle.tw_parse_checks.specs.Checks.{order_of};
ghost use Rattle.tw_parse_checks.specs.Parts.{Stuck, orders_in};
ghost use Rattle.tw_parse_checks.specs.Shapes.{TakeOrders, TakesOrder, is_variable};

use crate::calls::{is_variable, variables};
use crate::check::ExtOrder;
use crate::heads::ext_name;
use std::alloc::{AllocError, Global};
use tw_parse::{Source, Word};

// The order that is the variable with this number.
fn one(alloc: Global, source: &Source<'_>, from: usize) -> Result<ExtOrder, AllocError>
    requires { is_variable (first_word (lexemes_from source.now from)) (first_bytes (lexemes_from source.now from)) ≡ true }
    ensures { IfOk result (λ o. TakesOrder (lexemes_from source.now from) (order_of o) (lexemes_from source.now (from + 1))) }
{
    let variable = ext_name(alloc, source, from)?;
    let mut names = Vec::new(alloc);
    names.push(variable)?;
    Ok(ExtOrder::Each(names))
}

// The order whose parenthesis is the token of this number, and the number of the token behind it.
fn each(
    alloc: Global,
    source: &Source<'_>,
    from: usize,
) -> Result<Option<(ExtOrder, usize)>, AllocError>
    requires { first_word (lexemes_from source.now from) ≡ LParen }
    ensures { IfOk result (λ o. MatchOption o (Stuck TakesOrder (lexemes_from source.now from)) (λ r. TakesOrder (lexemes_from source.now from) (order_of r.0) (lexemes_from source.now r.1))) }
{
    let (names, end) = variables(alloc, source, from + 1)?;
    if source.word(end) != Word::RParen {
        return Ok(None);
    }
    Ok(Some((ExtOrder::Each(names), end + 1)))
}

/// The order that begins with the token of this number, and the number of the token behind it.
#[cycle(order)]
pub fn order(
    alloc: Global,
    source: &Source<'_>,
    from: usize,
) -> Result<Option<(ExtOrder, usize)>, AllocError>
    ensures { IfOk result (λ o. MatchOption o (Stuck TakesOrder (lexemes_from source.now from)) (λ r. TakesOrder (lexemes_from source.now from) (order_of r.0) (lexemes_from source.now r.1))) }
{
    if is_variable(source, from) {
        let order = one(alloc, source, from)?;
        return Ok(Some((order, from + 1)));
    }
    if source.word(from) == Word::LParen {
        return each(alloc, source, from);
    }
    if source.word(from) == Word::LBrace {
        let (orders, end) = components(alloc, source, from + 1)?;
        if source.word(end) != Word::RBrace {
            return Ok(None);
        }
        return Ok(Some((ExtOrder::Lex(orders), end + 1)));
    }
    if source.word(from) == Word::LBracket {
        let (orders, end) = components(alloc, source, from + 1)?;
        if source.word(end) != Word::RBracket {
            return Ok(None);
        }
        return Ok(Some((ExtOrder::Simul(orders), end + 1)));
    }
    Ok(None)
}

// The components from this token on, and the number of the token behind them.
#[cycle(order)]
fn components(
    alloc: Global,
    source: &Source<'_>,
    from: usize,
) -> Result<(Vec<ExtOrder>, usize), AllocError>
    ensures reads { IfOk result (λ r. TakeOrders (lexemes_from source.now from) (orders_in r.0.items) (lexemes_from source.now r.1)) }
    ensures stops { IfOk result (λ r. Stuck TakesOrder (lexemes_from source.now r.1)) }
{
    let mut orders = Vec::new(alloc);
    let mut upto = from;
    'orders: while let Some(found) = order(alloc, source, upto)? {
        let (order, next) = found;
        orders.push(order)?;
        upto = next;
    }
    Ok((orders, upto))
}
