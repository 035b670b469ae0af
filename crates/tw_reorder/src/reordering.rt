//! A type and a term over a context, in another order of its variables.
ghost use Rattle.std.specs.Prelude.{◌≡◌, [], IfOk, map};
ghost use Rattle.tw_abstract.specs.Occurrences.{noted};
ghost use Rattle.tw_terms.specs.View.{term_of, type_of};
ghost use Rattle.tw_reorder.specs.Reordered.{AreReordered, AreWithin};
ghost use Rattle.tw_reorder.specs.Waiting.{occurring};

use crate::moving::{Moves, moved_context, moved_term, moved_type};
use crate::variables::{note_term, note_terms, note_type};
use crate::waiting::order;
use std::alloc::{AllocError, Global};
use tw_abstract::Positions;
use tw_terms::{Context, Term, Ty};

/// The order of the variables, the outermost first, and the context, the type and the term in this order.
#[derive(Drop)]
pub struct Reordered {
    pub order: Positions,
    pub context: Context,
    pub ty: Ty,
    pub term: Term,
}

// The variables of a type, a term and then of others, in order of first occurrence.
fn noted(alloc: Global, ty: &Ty, term: &Term, others: &[Term]) -> Result<Positions, AllocError>
    ensures { IfOk result (λ p. p ≡ noted [] (occurring (type_of ty.now) (term_of term.now) (map term_of others.now))) }
{
    let mut found = Positions::new(alloc);
    note_type(&mut found, ty, 0)?;
    note_term(&mut found, term, 0)?;
    note_terms(&mut found, others)?;
    Ok(found)
}

/// A type and a term over a context, in the order of implicit quantifiers: repeatedly the first variable whose needs stand, of the variables in order of first occurrence in the type, in the
/// term, in the others, in the types of the variables so far, and then the outermost. Fails only for want of memory.
pub fn reorder(
    alloc: Global,
    context: &Context,
    ty: &Ty,
    term: &Term,
    others: &[Term],
) -> Result<Reordered, AllocError>
    requires { AreWithin context.now (type_of ty.now) (term_of term.now) (map term_of others.now) }
    ensures { IfOk result (λ r. AreReordered context.now (type_of ty.now) (term_of term.now) (map term_of others.now) r.order r.context (type_of r.ty) (term_of r.term)) }
{
    let first = noted(alloc, ty, term, others)?;
    let order = order(alloc, context, first)?;
    let moves = Moves {
        order: &order,
        shift: 0,
        less: 0,
    };
    let ty = moved_type(alloc, &moves, ty, 0)?;
    let term = moved_term(alloc, &moves, term, 0)?;
    let context = moved_context(alloc, context, &order)?;
    Ok(Reordered {
        order,
        context,
        ty,
        term,
    })
}
